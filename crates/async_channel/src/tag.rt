//! What a handle knows of its channel without its lock.
ghost use Rattle.std.specs.Prelude.{◌≡◌, ◌↔◌, IsTrue};

use channel_core::Stamp;
use std::marker::Model;

/// What a handle knows of its channel without its lock: the stamp and the capacity.
///
/// Its calls take no lock and never wait.
///
/// # Examples
///
/// ```
/// let (s, r) = bounded::<u64, _>(&rt, rt.alloc(), 5, &mut maker)?;
/// assert_eq!(rt; s.tag.capacity(), Some(5));
/// assert!(rt; s.tag.same_channel(&r.tag));
/// ```
#[derive(Clone, Copy)]
pub struct Tag {
    stamp: Stamp,
    capacity: Option<usize>,
}

impl Model for Tag {
    ghost use Rattle.async_channel.specs.Tags.{TagView};

    ghost Value = { TagView };

    ghost view = { λ tag. record { stamp = tag.stamp; capacity = tag.capacity } };

    ghost inverse = { λ value. record { stamp = value.stamp; capacity = value.capacity } };
}

impl Tag {
    pub(crate) fn new(stamp: Stamp, capacity: Option<usize>) -> Tag
        ensures { result ≡ record { stamp = stamp; capacity = capacity } }
    {
        Tag { stamp, capacity }
    }

    /// The most messages that the channel holds, if it is bounded.
    pub fn capacity(&self) -> Option<usize>
        ensures { result ≡ self.now.capacity }
    {
        self.capacity
    }

    /// Whether both tags are of one channel. Nothing is said between channels of two makers.
    pub fn same_channel(&self, other: &Tag) -> bool
        ensures { IsTrue result ↔ (self.now.stamp ≡ other.now.stamp) }
    {
        self.stamp == other.stamp
    }
}
