//! What a channel has, one message after the other.
ghost use Rattle.std.specs.Iterator.{at_most};
ghost use Rattle.async_channel.specs.Iterators.{try_iter_left};

use crate::handles::Receiver;
use std::sync::{Forever, Wait};

/// The messages that a channel has, oldest first: [`Receiver::try_iter`] makes it.
///
/// It ends when the channel has none, and goes on if it has some later. Each message is
/// received when it is asked for, so that others may come in between.
///
/// # Examples
///
/// ```
/// let (s, r) = unbounded(&rt, rt.alloc(), &mut maker)?;
/// assert_eq!(rt; s.try_send(1)?, Ok(()));
/// let mut messages: TryIter<u32, _> = r.try_iter();
/// assert_eq!(rt; messages.next(), Some(1));
/// assert_eq!(rt; messages.next(), None);
///
/// assert_eq!(rt; s.try_send(2)?, Ok(()));
/// assert_eq!(rt; messages.next(), Some(2));
/// ```
#[derive(Drop)]
pub struct TryIter<'a, T: Drop, R: Wait + Clone + Drop> {
    receiver: &'a Receiver<T, R>,
    // proof: a loop over the messages ends by its count
    turns: Forever<'a, R>,
}

impl<T: Drop, R: Wait + Clone + Drop> Receiver<T, R> {
    /// An iterator over the messages that the channel has, which never waits for one.
    ///
    /// # Examples
    ///
    /// ```
    /// let (s, r) = unbounded(&rt, rt.alloc(), &mut maker)?;
    /// for message in [1, 2, 3] {
    ///     assert_eq!(rt; s.try_send(message)?, Ok(()));
    /// }
    /// let mut sum = 0;
    /// for message in r.try_iter() {
    ///     sum += message;
    /// }
    /// assert_eq!(rt; sum, 6);
    /// assert!(rt; r.is_empty());
    /// ```
    pub fn try_iter(&self) -> TryIter<'_, T, R> {
        TryIter {
            receiver: self,
            turns: self.link.rt.forever(),
        }
    }
}

impl<'a, T: Drop, R: Wait + Clone + Drop> Iterator for TryIter<'a, T, R> {
    type Item = T;

    ghost remaining = { λ iterator. at_most (try_iter_left iterator) };

    fn next(&mut self) -> Option<T> {
        self.turns.next();
        self.receiver.try_recv().ok()
    }
}
