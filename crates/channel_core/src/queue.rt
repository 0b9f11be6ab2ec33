//! The queue of a channel's messages.
ghost use Rattle.std.specs.Prelude.{◌≡◌, ◌⊎◌, ◌<◌, ◌≤◌, ◌*◌, ◌/◌, [], drop, min, length, slice_get, false, IsTrue, Some, None, IfOk, IfErr, OnOk, OnErr};
ghost use Rattle.std.specs.Option.{option_copied};
ghost use Rattle.std.specs.VecDeque.{deque_capacity};
ghost use prog.Memory.{size, capped};
ghost use denote.Param.{layout};
ghost use Rattle.channel_core.specs.Queue.{contents, push_reply, pushed, force_push_reply, force_pushed, popped, IsWithin};

use crate::errors::{NoMemory, OutOfMemory};
use circular_buffer::HeapCircularBuffer;
use std::alloc::Global;
use std::collections::VecDeque;
use std::marker::Model;
use std::mem::size_of;

/// How many bytes a queue without a bound keeps in any case, for the messages to come.
const KEPT_BYTES: usize = 4096;

/// How many messages it keeps room for in any case, so that large ones don't ask for memory at each
/// push into an empty queue.
const KEPT_MESSAGES: usize = 4;

#[derive(Drop)]
enum Store<T> {
    Ring(HeapCircularBuffer<T>),
    Deque(VecDeque<T, Global>),
}

/// Messages in order, the oldest first.
///
/// A bounded queue has all its memory from the start, so that a push into it never asks for any. An
/// unbounded one grows as messages come, and gives memory back as they go: once a quarter of its
/// room is used it keeps half of it. A few KB stay for the messages to come.
///
/// # Examples
///
/// ```
/// let mut queue = Queue::bounded(rt.alloc(), 1)?;
/// assert_eq!(rt; queue.push(1)?, Ok(()));
/// assert_eq!(rt; queue.push(2)?, Err(2));
/// assert_eq!(rt; queue.pop(), Some(1));
/// ```
#[derive(Drop)]
pub struct Queue<T> {
    store: Store<T>,
}

impl<T> Model for Queue<T> {
    ghost use Rattle.channel_core.specs.Queue.{Contents};

    ghost Value = { Contents T };

    ghost use Rattle.channel_core.specs.Store.{contents_of, HasPlaces};

    ghost view = { λ queue. contents_of queue.store };

    ghost invariant = { λ queue. HasPlaces queue.store };
}

/// Gives room back once a quarter of it is used, or none, and keeps twice what is used. So a message
/// is moved for it only after as many have left. If memory is refused for that all stays as it is.
#[inline(always)]
fn give_room_back<T>(deque: &mut VecDeque<T, Global>)
    ensures same { deque.new.items ≡ deque.old.items }
    ensures no_more { deque_capacity deque.new ≤ deque_capacity deque.old }
    ensures twice { min (2 * length deque.old.items) (deque_capacity deque.old)
        ≤ deque_capacity deque.new }
    ensures at_a_quarter { (deque_capacity deque.new ≡ deque_capacity deque.old)
        ⊎ (length deque.old.items ≡ deque_capacity deque.old / 4) ⊎ (deque.old.items ≡ []) }
    ensures if_large { (deque_capacity deque.new ≡ deque_capacity deque.old)
        ⊎ ((4 < deque_capacity deque.old)
        × (4096 < deque_capacity deque.old * capped (size (layout T.row)))) }
    ensures emptied { deque.old.items ≡ [] → (deque_capacity deque.new ≤ 4)
        ⊎ (deque_capacity deque.new * capped (size (layout T.row)) ≤ 4096) }
{
    let (used, room) = (deque.len(), deque.capacity());
    if (used == room / 4 || used == 0) && is_large::<T>(room) {
        deque.shrink_to(used.saturating_mul(2));
    }
}

/// Whether so many messages take more memory than is kept.
fn is_large<T>(capacity: usize) -> bool
    ensures yes { IsTrue result
        → (4 < capacity) × (4096 < capacity * capped (size (layout T.row))) }
    ensures no { result ≡ false
        → (capacity ≤ 4) ⊎ (capacity * capped (size (layout T.row)) ≤ 4096) }
{
    KEPT_MESSAGES < capacity && KEPT_BYTES < capacity.saturating_mul(message_size::<T>())
}

/// The bytes that a message takes in a queue.
fn message_size<T>() -> usize
    ensures { result ≡ capped (size (layout T.row)) }
{
    size_of::<T>()
}

impl<T: Drop> Queue<T> {
    /// An empty queue that holds at most `cap` messages.
    ///
    /// # Examples
    ///
    /// ```
    /// let queue: Queue<u64> = Queue::bounded(rt.alloc(), 5)?;
    /// assert_eq!(rt; queue.capacity(), Some(5));
    /// assert_eq!(rt; queue.len(), 0);
    /// ```
    pub fn bounded(alloc: Global, cap: usize) -> Result<Queue<T>, OutOfMemory>
        requires { 0 < cap }
        ensures { IfOk result (λ queue. queue ≡ contents (Some cap) []) }
    {
        match HeapCircularBuffer::with_capacity(alloc, cap) {
            Ok(ring) => Ok(Queue {
                store: Store::Ring(ring),
            }),
            Err(_) => Err(OutOfMemory),
        }
    }

    /// An empty queue without a bound. It takes no memory yet.
    ///
    /// # Examples
    ///
    /// ```
    /// let mut queue = Queue::unbounded(rt.alloc());
    /// assert_eq!(rt; queue.push(1)?, Ok(()));
    /// assert_eq!(rt; queue.capacity(), None);
    /// ```
    pub fn unbounded(alloc: Global) -> Queue<T>
        ensures { result ≡ contents None [] }
    {
        Queue {
            store: Store::Deque(VecDeque::new(alloc)),
        }
    }

    /// Puts a message last. A full queue hands it back.
    ///
    /// The outer error, with the message, says that memory was refused. It comes of an unbounded
    /// queue alone.
    ///
    /// # Examples
    ///
    /// ```
    /// let mut queue = Queue::bounded(rt.alloc(), 1)?;
    /// assert_eq!(rt; queue.push(1)?, Ok(()));
    /// assert_eq!(rt; queue.push(2)?, Err(2));
    /// ```
    #[inline(always)]
    pub fn push(&mut self, message: T) -> Result<Result<(), T>, NoMemory<T>>
        ensures reply { IfOk result (λ reply. reply ≡ push_reply self.old message) }
        ensures after { OnOk result (self.new ≡ pushed self.old message) }
        ensures handed_back { IfErr result (λ error. error.0 ≡ message) }
        ensures unchanged { OnErr result (self.new ≡ self.old) }
        ensures unbounded { OnErr result (self.old.capacity ≡ None) }
    {
        match &mut self.store {
            Store::Ring(ring) => Ok(ring.try_push_back(message)),
            Store::Deque(deque) => match deque.push_back(message) {
                Ok(()) => Ok(Ok(())),
                Err(refused) => Err(NoMemory(refused.value)),
            },
        }
    }

    /// Puts a message last, in any case. A full queue gives its oldest message for it.
    ///
    /// The error, with the message, says that memory was refused. It comes of an unbounded queue
    /// alone.
    ///
    /// # Examples
    ///
    /// ```
    /// let mut queue = Queue::bounded(rt.alloc(), 1)?;
    /// assert_eq!(rt; queue.force_push(1)?, None);
    /// assert_eq!(rt; queue.force_push(2)?, Some(1));
    /// assert_eq!(rt; queue.len(), 1);
    /// ```
    pub fn force_push(&mut self, message: T) -> Result<Option<T>, NoMemory<T>>
        ensures reply { IfOk result (λ displaced. displaced ≡ force_push_reply self.old) }
        ensures after { OnOk result (self.new ≡ force_pushed self.old message) }
        ensures within { IsWithin self.new }
        ensures handed_back { IfErr result (λ error. error.0 ≡ message) }
        ensures unchanged { OnErr result (self.new ≡ self.old) }
        ensures unbounded { OnErr result (self.old.capacity ≡ None) }
    {
        match &mut self.store {
            Store::Ring(ring) => Ok(ring.push_back(message)),
            Store::Deque(deque) => match deque.push_back(message) {
                Ok(()) => Ok(None),
                Err(refused) => Err(NoMemory(refused.value)),
            },
        }
    }

    /// Takes the oldest message.
    ///
    /// # Examples
    ///
    /// ```
    /// let mut queue = Queue::unbounded(rt.alloc());
    /// assert_eq!(rt; queue.push(1)?, Ok(()));
    /// assert_eq!(rt; queue.pop(), Some(1));
    /// assert_eq!(rt; queue.pop(), None);
    /// ```
    #[inline(always)]
    pub fn pop(&mut self) -> Option<T>
        ensures message { result ≡ slice_get self.old.messages 0 }
        ensures after { self.new ≡ popped self.old }
    {
        match &mut self.store {
            Store::Ring(ring) => ring.pop_front(),
            Store::Deque(deque) => {
                let message = deque.pop_front();
                give_room_back(deque);
                message
            }
        }
    }

    /// The message in this place, from 0 for the oldest.
    ///
    /// # Examples
    ///
    /// ```
    /// let mut queue = Queue::unbounded(rt.alloc());
    /// assert_eq!(rt; queue.push(7)?, Ok(()));
    /// assert_eq!(rt; queue.get(0).copied(), Some(7));
    /// assert_eq!(rt; queue.get(1).copied(), None);
    /// ```
    pub fn get(&self, place: usize) -> Option<&T>
        ensures { option_copied result ≡ slice_get self.now.messages place }
    {
        match &self.store {
            Store::Ring(ring) => ring.get(place),
            Store::Deque(deque) => deque.get(place),
        }
    }

    /// The number of messages.
    pub fn len(&self) -> usize
        ensures { result ≡ length self.now.messages }
    {
        match &self.store {
            Store::Ring(ring) => ring.len(),
            Store::Deque(deque) => deque.len(),
        }
    }

    /// The most messages that there may be, if there is a bound.
    pub fn capacity(&self) -> Option<usize>
        ensures { result ≡ self.now.capacity }
    {
        match &self.store {
            Store::Ring(ring) => Some(ring.capacity()),
            Store::Deque(_) => None,
        }
    }
}
