//! The state of a channel. Each call is one step of it.
//!
//! Whoever can't go on leaves an entry in the waiting list of its kind. A step that makes room for
//! others tells them so, and rings for each with the payload in its entry:
//!
//! - if a message was accepted, one receive and all streams;
//! - if a message was received, one send;
//! - if the channel was closed, all sends, receives and streams;
//! - if the last receiver was given up, all closed operations.
//!
//! Why it is enough to tell one: if a receive waits and was not told, at least as many receives
//! are told as messages are held; if such a send waits, as many sends are told as places are
//! free. An accepted message tells one more. A message that anybody takes lowers the number that is
//! owed. Who was told and polls takes what it was told of, or finds it taken by somebody else and
//! goes last, untold. Who was told and is given up hands its notice to the next one. So the
//! numbers stay right, and nobody waits for what is there. Streams are told together, since a
//! receiver that never polls its stream again would keep a notice to itself; so a stream that
//! leaves has none to hand on.
//!
//! A poll looks first, and waits only if it can't go on: its own entry leaves before anybody is
//! told, so that it never tells itself.
ghost use Rattle.std.specs.Prelude.{◌≡◌, ◌<◌, ◌==◌, ◌&&◌, ◌++◌, not, length, Some, None, IfOk, true, slice_get, []};
ghost use Rattle.std.specs.Bool.{OnTrue, OnFalse};
ghost use Rattle.std.specs.Option.{option_copied};
ghost use Rattle.event_list.specs.Keys.{AreDifferent};
ghost use Rattle.event_list.specs.Waiting.{RingsEach, keys, payloads, payload_in, told_count, told_all, told_flag};
ghost use Rattle.channel_core.specs.Channel.{new_channel, is_channel_full, list_of};

use crate::errors::OutOfMemory;
use crate::queue::Queue;
use crate::waiting::WaitLists;
use event_list::{Bell, Ticket};
use std::alloc::Global;
use std::marker::Model;

mod batches;
mod calls;
mod handles;
mod polls;

/// Who waits for the same.
///
/// # Examples
///
/// ```
/// let mut core: Core<u64, ()> = Core::unbounded(rt.alloc());
/// let mut ticket = None;
/// assert_eq!(rt; core.poll_recv(&mut ticket, (), &mut Quiet), Ok(Poll::Pending));
/// assert_eq!(rt; core.waiting(Group::Receives), 1);
/// assert_eq!(rt; core.waiting(Group::Streams), 0);
/// core.cancel_recv(&mut ticket, &mut Quiet);
/// Ticket::destroy_none(ticket);
/// ```
#[derive(Clone, Copy, Debug, PartialEq, Eq)]
pub enum Group {
    /// Sends wait for a free place, or the close.
    Sends,
    /// Receives wait for a message, or the close.
    Receives,
    /// Streams wait for a message, or the close.
    Streams,
    /// Closed operations wait until no receiver is left.
    Closeds,
}

/// What became of a wish for one more strong handle.
///
/// # Examples
///
/// ```
/// let mut core: Core<u64, ()> = Core::unbounded(rt.alloc());
/// assert_eq!(rt; core.upgrade_sender(), Upgrade::Raised);
/// core.close(&mut Quiet);
/// assert_eq!(rt; core.upgrade_sender(), Upgrade::Closed);
/// ```
#[derive(Clone, Copy, Debug, PartialEq, Eq)]
pub enum Upgrade {
    /// The count was raised by 1.
    Raised,
    /// The channel is closed.
    Closed,
    /// There are more handles of the kind than half of what a `usize` can count.
    TooMany,
}

/// A channel as its one owner sees it. Each call is one atomic step.
///
/// A payload `W` is what a waiter leaves to be told by, as a waker of its task: a call that tells
/// somebody rings its [`Bell`] with it. The law of notices is the invariant of the type: whoever
/// waits untold could not go on, or enough others were told.
///
/// # Examples
///
/// ```
/// let mut core: Core<u64, ()> = Core::bounded(rt.alloc(), 1)?;
/// assert_eq!(rt; core.try_send(1, &mut Quiet)?, Ok(()));
/// assert_eq!(rt; core.try_send(2, &mut Quiet)?, Err(TrySendError::Full(2)));
/// assert!(rt; core.close(&mut Quiet));
///
/// // Nothing more goes in, and what is left comes out.
/// assert_eq!(rt; core.try_recv(&mut Quiet), Ok(1));
/// assert_eq!(rt; core.try_recv(&mut Quiet), Err(TryRecvError::Closed));
/// ```
#[derive(Drop)]
pub struct Core<T, W> {
    // The messages that were accepted and not taken yet.
    queue: Queue<T>,
    // Whether the channel was closed: it never opens again.
    closed: bool,
    // How many senders are live.
    senders: usize,
    // How many receivers are live.
    receivers: usize,
    // Who waits, each with the payload by which it is told.
    lists: WaitLists<W>,
}

/// Half of what a `usize` can count. If there are more handles of a kind, no further one is
/// made.
///
/// # Examples
///
/// ```
/// let core: Core<u64, ()> = Core::unbounded(rt.alloc());
/// assert!(rt; core.sender_count() <= HANDLE_LIMIT);
/// ```
pub const HANDLE_LIMIT: usize = usize::MAX / 2;

impl<T, W> Model for Core<T, W> {
    ghost use Rattle.channel_core.specs.Covered.{IsCovered};
    ghost use Rattle.channel_core.specs.Channel.{Channel, standing_of};

    ghost Value = { Channel T W };

    ghost view = { λ core. record {
      capacity = core.queue.capacity;
      messages = core.queue.messages;
      closed = core.closed;
      senders = core.senders;
      receivers = core.receivers;
      sends = core.lists.sends;
      receives = core.lists.receives;
      streams = core.lists.streams;
      closeds = core.lists.closeds;
    } };

    ghost invariant = { λ core. IsCovered (standing_of (record {
      capacity = core.queue.capacity;
      messages = core.queue.messages;
      closed = core.closed;
      senders = core.senders;
      receivers = core.receivers;
      sends = core.lists.sends;
      receives = core.lists.receives;
      streams = core.lists.streams;
      closeds = core.lists.closeds;
    })) };
}

// Closes a channel by its flag and its lists, and answers whether it was open.
fn shut<W: Drop, B: Bell<W>>(closed: &mut bool, lists: &mut WaitLists<W>, bell: &mut B) -> bool
    ensures reply { result ≡ not closed.old }
    ensures closed { closed.new ≡ true }
    ensures told { OnTrue result (lists.new ≡ record lists.old {
      sends = told_all lists.old.sends;
      receives = told_all lists.old.receives;
      streams = told_all lists.old.streams;
    }) }
    ensures rung { OnTrue result
        (RingsEach B.rings bell.old
        (payloads lists.old.sends ++ payloads lists.old.receives ++ payloads lists.old.streams)
        bell.new) }
    ensures unchanged { OnFalse result ((lists.new ≡ lists.old) × (bell.new ≡ bell.old)) }
{
    if *closed {
        return false;
    }
    *closed = true;
    lists.tell_closed(bell);
    true
}

impl<T: Drop, W: Drop> Core<T, W> {
    /// An open and empty channel that holds at most `cap` messages, with one sender and one
    /// receiver.
    ///
    /// The capacity has to be positive. All memory for messages is taken here, or refused.
    ///
    /// # Examples
    ///
    /// ```
    /// let core: Core<u64, ()> = Core::bounded(rt.alloc(), 5)?;
    /// assert_eq!(rt; core.capacity(), Some(5));
    /// assert_eq!(rt; core.sender_count(), 1);
    /// assert_eq!(rt; core.receiver_count(), 1);
    /// ```
    pub fn bounded(alloc: Global, cap: usize) -> Result<Core<T, W>, OutOfMemory>
        requires { 0 < cap }
        ensures { IfOk result (λ core. core ≡ new_channel (Some cap)) }
    {
        let queue = Queue::bounded(alloc, cap)?;
        Ok(Core::over(alloc, queue))
    }

    /// An open and empty channel without a capacity, with one sender and one receiver.
    ///
    /// # Examples
    ///
    /// ```
    /// let core: Core<u64, ()> = Core::unbounded(rt.alloc());
    /// assert_eq!(rt; core.capacity(), None);
    /// assert!(rt; core.is_empty());
    /// assert!(rt; !core.is_full());
    /// ```
    pub fn unbounded(alloc: Global) -> Core<T, W>
        ensures { result ≡ new_channel None }
    {
        Core::over(alloc, Queue::unbounded(alloc))
    }

    fn over(alloc: Global, queue: Queue<T>) -> Core<T, W>
        requires { queue.messages ≡ [] }
        ensures { result ≡ new_channel queue.capacity }
    {
        Core {
            queue,
            closed: false,
            senders: 1,
            receivers: 1,
            lists: WaitLists::new(alloc),
        }
    }

    /// Whether the channel is closed.
    pub fn is_closed(&self) -> bool
        ensures { result ≡ self.now.closed }
    {
        self.closed
    }

    /// Whether no message is held.
    pub fn is_empty(&self) -> bool
        ensures { result ≡ (length self.now.messages == 0) }
    {
        self.queue.len() == 0
    }

    /// Whether as many messages are held as the capacity allows. Without a capacity it is never so.
    pub fn is_full(&self) -> bool
        ensures { result ≡ is_channel_full self.now }
    {
        match self.queue.capacity() {
            Some(cap) => self.queue.len() >= cap,
            None => false,
        }
    }

    /// Whether the channel is closed and no message is held, so that none will come.
    ///
    /// # Examples
    ///
    /// ```
    /// let mut core: Core<u64, ()> = Core::unbounded(rt.alloc());
    /// assert!(rt; !core.is_terminated());
    /// core.close(&mut Quiet);
    /// assert!(rt; core.is_terminated());
    /// ```
    pub fn is_terminated(&self) -> bool
        ensures { result ≡ (self.now.closed && (length self.now.messages == 0)) }
    {
        self.closed && self.is_empty()
    }

    /// The message in this place, from 0 for the oldest.
    ///
    /// # Examples
    ///
    /// ```
    /// let mut core: Core<u64, ()> = Core::unbounded(rt.alloc());
    /// assert_eq!(rt; core.try_send(7, &mut Quiet)?, Ok(()));
    /// assert_eq!(rt; core.message(0).copied(), Some(7));
    /// ```
    pub fn message(&self, place: usize) -> Option<&T>
        ensures { option_copied result ≡ slice_get self.now.messages place }
    {
        self.queue.get(place)
    }

    /// The number of messages.
    pub fn len(&self) -> usize
        ensures { result ≡ length self.now.messages }
    {
        self.queue.len()
    }

    /// The number of senders.
    pub fn sender_count(&self) -> usize
        ensures { result ≡ self.now.senders }
    {
        self.senders
    }

    /// The number of receivers.
    pub fn receiver_count(&self) -> usize
        ensures { result ≡ self.now.receivers }
    {
        self.receivers
    }

    /// The most messages that there may be, if there is a capacity.
    pub fn capacity(&self) -> Option<usize>
        ensures { result ≡ self.now.capacity }
    {
        self.queue.capacity()
    }

    /// How many wait in the group, told ones among them.
    pub fn waiting(&self, g: Group) -> usize
        ensures count { result ≡ length (keys (list_of g self.now)) }
        ensures different { AreDifferent (keys (list_of g self.now)) }
    {
        self.lists.of(g).len()
    }

    /// How many in the group are told.
    pub fn told(&self, g: Group) -> usize
        ensures { result ≡ told_count (list_of g self.now) }
    {
        self.lists.of(g).told()
    }

    /// The key of the first one in the group, if somebody there is told.
    pub fn first_told(&self, g: Group) -> Option<usize>
        ensures { result ≡ slice_get (list_of g self.now).told 0 }
    {
        self.lists.of(g).first_told()
    }

    /// Whether the ticket's entry is told, or nothing if it isn't in the group's list.
    ///
    /// # Examples
    ///
    /// ```
    /// let mut core: Core<u64, ()> = Core::unbounded(rt.alloc());
    /// let mut ticket = None;
    /// assert_eq!(rt; core.poll_recv(&mut ticket, (), &mut Quiet), Ok(Poll::Pending));
    /// if let Some(ticket) = &ticket {
    ///     assert_eq!(rt; core.is_told(Group::Receives, ticket), Some(false));
    ///     assert_eq!(rt; core.try_send(1, &mut Quiet), Ok(Ok(())));
    ///     assert_eq!(rt; core.is_told(Group::Receives, ticket), Some(true));
    ///     assert_eq!(rt; core.first_told(Group::Receives), Some(ticket.key()));
    /// }
    /// assert_eq!(rt; core.told(Group::Receives), 1);
    /// core.cancel_recv(&mut ticket, &mut Quiet);
    /// Ticket::destroy_none(ticket);
    /// ```
    pub fn is_told(&self, g: Group, t: &Ticket) -> Option<bool>
        ensures { result ≡ told_flag (list_of g self.now) t.now }
    {
        self.lists.of(g).is_told(t)
    }

    /// What a waiting operation left to be told by, or nothing if it is told or doesn't wait.
    ///
    /// # Examples
    ///
    /// ```
    /// let mut core: Core<u64, u64> = Core::unbounded(rt.alloc());
    /// let mut ticket = None;
    /// assert_eq!(rt; core.poll_recv(&mut ticket, 7, &mut Quiet), Ok(Poll::Pending));
    /// if let Some(ticket) = &ticket {
    ///     assert_eq!(rt; core.payload(Group::Receives, ticket).copied(), Some(7));
    ///     assert_eq!(rt; core.try_send(1, &mut Quiet), Ok(Ok(())));
    ///     assert_eq!(rt; core.payload(Group::Receives, ticket).copied(), None);
    /// }
    /// core.cancel_recv(&mut ticket, &mut Quiet);
    /// Ticket::destroy_none(ticket);
    /// ```
    pub fn payload(&self, g: Group, t: &Ticket) -> Option<&W>
        ensures { option_copied result ≡ payload_in t.now (list_of g self.now).untold }
    {
        self.lists.of(g).payload(t)
    }
}
