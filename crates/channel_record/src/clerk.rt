//! What one caller of a recorder wrote down.
ghost use Rattle.std.specs.Prelude.{◌≡◌, ◌↔◌, [], IfOk, IsTrue, length, slice_get};

use crate::calls::{Call, Outcome};
use channel_core::{OutOfMemory, Stamp};
use std::alloc::Global;
use std::marker::Model;

/// The calls of one caller, each with its place in the history and its outcome.
///
/// A clerk can't be copied: each call is written down once.
///
/// # Examples
///
/// ```
/// let recorder: Recorder<u64> = Recorder::unbounded(rt.alloc(), &mut maker)?;
/// let mut clerk = recorder.clerk(&rt)?;
/// assert!(rt; clerk.is_empty());
///
/// recorder.call(&rt, &mut clerk, Call::Len)?;
/// assert_eq!(rt; clerk.len(), 1);
/// assert_eq!(rt; clerk.entry(0), Some((0, Call::Len, Outcome::Count(0))));
/// ```
#[derive(Drop)]
pub struct Clerk<T> {
    pub(crate) stamp: Stamp,
    pub(crate) entries: Vec<(usize, Call<T>, Outcome<T>)>,
}

/// The stamp of its recorder, and its entries: place, call and outcome.
impl<T> Model for Clerk<T> {
    ghost use Rattle.channel_record.specs.Shares.{ClerkView};

    ghost Value = { ClerkView T };

    ghost view = { λ clerk. record { stamp = clerk.stamp; entries = clerk.entries.items } };
}

impl<T: Copy> Clerk<T> {
    // A clerk with room for its first entry.
    pub(crate) fn new(alloc: Global, stamp: Stamp) -> Result<Clerk<T>, OutOfMemory>
        ensures { IfOk result (λ clerk. clerk ≡ record { stamp = stamp; entries = [] }) }
    {
        let mut entries = Vec::new(alloc);
        entries.reserve(1).map_err(|_| OutOfMemory)?;
        Ok(Clerk { stamp, entries })
    }

    pub(crate) fn entries(&self) -> &[(usize, Call<T>, Outcome<T>)]
        ensures { result.now ≡ self.now.entries }
    {
        self.entries.as_slice()
    }

    /// How many calls it has written down.
    pub fn len(&self) -> usize
        ensures { result ≡ length self.now.entries }
    {
        self.entries.len()
    }

    /// Whether it has written down no call.
    pub fn is_empty(&self) -> bool
        ensures { IsTrue result ↔ (self.now.entries ≡ []) }
    {
        self.entries.is_empty()
    }

    /// The entry at `index` of its own calls, the oldest first: the place in the history, the call
    /// and the outcome.
    pub fn entry(&self, index: usize) -> Option<(usize, Call<T>, Outcome<T>)>
        ensures { result ≡ slice_get self.now.entries index }
    {
        self.entries().get(index).copied()
    }
}
