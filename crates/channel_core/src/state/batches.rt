//! Many messages in one call: single steps, one after the other, with nobody's between.
ghost use Rattle.std.specs.Prelude.{◌≡◌, ◌⊎◌, ◌+◌, ◌<◌, ◌≤◌, ◌++◌, [], Ok, IfOk, OnErr, drop, if◌then◌else◌, length, take};
ghost use Rattle.std.specs.Bool.{OnTrue, OnFalse};
ghost use Rattle.std.specs.Vec.{vec_len, vec_capacity};
ghost use Rattle.event_list.specs.Waiting.{RingsEach};
ghost use Rattle.channel_core.specs.Tables.{try_recv_answer, try_send_answer};
ghost use Rattle.channel_core.specs.Channel.{is_channel_full, oldest, GrowsWithMessages};
ghost use Rattle.channel_core.specs.Batches.{CanSendNoMore, counted, moved_count, received_many, sent_many, taken_count};

use crate::errors::{NoMemory, OutOfMemory, TryRecvError, TrySendError};
use crate::state::Core;
use event_list::Bell;
use std::alloc::Global;
use std::collections::VecDeque;

impl<T: Drop, W: Drop> Core<T, W> {
    /// Takes up to `limit` messages, the oldest first, and puts them after those in `into`. Each
    /// tells a send that there is a place, in turn.
    ///
    /// The answer is how many came. If no message is held nothing changes, and the error says
    /// whether the channel is closed. The outer error says that there was no memory in `into`,
    /// which is asked for before the first message is taken; nothing has changed then.
    ///
    /// # Examples
    ///
    /// ```
    /// let mut core: Core<u64, ()> = Core::unbounded(rt.alloc());
    /// for message in [1, 2, 3] {
    ///     assert_eq!(rt; core.try_send(message, &mut Quiet)?, Ok(()));
    /// }
    /// let mut into = Vec::new(rt.alloc());
    /// assert_eq!(rt; core.try_recv_many(&mut into, 2, &mut Quiet)?, Ok(2));
    /// assert_eq!(rt; core.try_recv_many(&mut into, 2, &mut Quiet)?, Ok(1));
    /// assert_eq!(rt; into.as_slice(), [1, 2, 3].as_slice());
    /// assert_eq!(rt; core.try_recv_many(&mut into, 2, &mut Quiet)?, Err(TryRecvError::Empty));
    /// ```
    pub fn try_recv_many<B: Bell<W>>(
        &mut self,
        into: &mut Vec<T>,
        limit: usize,
        bell: &mut B,
    ) -> Result<Result<usize, TryRecvError>, OutOfMemory>
        ensures reply { IfOk result (λ answer. answer ≡ counted (taken_count limit self.old)
            (try_recv_answer (oldest self.old) self.old.closed)) }
        ensures taken { into.new.items
            ≡ into.old.items ++ take (moved_count result) self.old.messages }
        ensures after { self.new ≡ (received_many (moved_count result) self.old).channel }
        ensures rung { RingsEach B.rings bell.old
            (received_many (moved_count result) self.old).rung bell.new }
        ensures limit { moved_count result ≤ limit }
        ensures count { length into.new.items ≡ length into.old.items + moved_count result }
        ensures wanted { OnErr result
            (vec_capacity into.old < vec_len into.old + taken_count limit self.old) }
    {
        let count = limit.min(self.len());
        if into.try_reserve(count).is_err() {
            return Err(OutOfMemory);
        }
        if self.is_empty() {
            return Ok(Err(self.why_empty()));
        }
        self.take_held(into, count, bell);
        Ok(Ok(count))
    }

    /// Sends messages from the front of `from`, as many as fit, up to `limit`. Each tells a receive
    /// and all streams, in turn. The rest stays in `from`.
    ///
    /// The answer is how many were sent. If the channel is closed or full nothing changes, and
    /// the error says which. The outer error says that memory was refused for the first message,
    /// which an unbounded channel alone may be; nothing has changed then. If it is refused for a
    /// later one, that one stays in `from` with those after it.
    ///
    /// # Examples
    ///
    /// ```
    /// let mut core: Core<u64, ()> = Core::bounded(rt.alloc(), 2)?;
    /// let mut from = VecDeque::new(rt.alloc());
    /// for message in [1, 2, 3] {
    ///     from.push_back(message)?;
    /// }
    /// assert_eq!(rt; core.try_send_many(&mut from, 5, &mut Quiet)?, Ok(2));
    /// assert_eq!(rt; from.front(), Some(&3));
    /// let full = Err(TrySendError::Full(()));
    /// assert_eq!(rt; core.try_send_many(&mut from, 5, &mut Quiet)?, full);
    /// assert_eq!(rt; core.try_recv(&mut Quiet), Ok(1));
    /// ```
    pub fn try_send_many<B: Bell<W>>(
        &mut self,
        from: &mut VecDeque<T, Global>,
        limit: usize,
        bell: &mut B,
    ) -> Result<Result<usize, TrySendError<()>>, OutOfMemory>
        ensures reply { IfOk result (λ answer. answer ≡ counted (moved_count result)
            (try_send_answer self.old.closed (is_channel_full self.old) tt)) }
        ensures limit { moved_count result ≤ limit }
        ensures within { moved_count result ≤ length from.old.items }
        ensures rest { from.new.items ≡ drop (moved_count result) from.old.items }
        ensures after { self.new
            ≡ (sent_many (take (moved_count result) from.old.items) self.old).channel }
        ensures rung { RingsEach B.rings bell.old
            (sent_many (take (moved_count result) from.old.items) self.old).rung bell.new }
        ensures held { self.new.messages
            ≡ self.old.messages ++ take (moved_count result) from.old.items }
        ensures stops { moved_count result < limit → CanSendNoMore from.new.items self.new }
        ensures wanted { OnErr result (GrowsWithMessages self.old) }
        ensures none { result ≡ Ok (Ok 0) → (limit ≡ 0) ⊎ (from.old.items ≡ []) }
    {
        if self.closed {
            return Ok(Err(TrySendError::Closed(())));
        }
        if self.is_full() {
            return Ok(Err(TrySendError::Full(())));
        }
        let most = limit.min(from.len());
        let count = self.send_front(from, most, bell);
        if count == 0 && most > 0 {
            return Err(OutOfMemory);
        }
        Ok(Ok(count))
    }

    // Takes so many messages into room that there is.
    fn take_held<B: Bell<W>>(&mut self, into: &mut Vec<T>, count: usize, bell: &mut B)
        requires held { count ≤ length self.old.messages }
        requires room { vec_len into.old + count ≤ vec_capacity into.old }
        ensures taken { into.new.items ≡ into.old.items ++ take count self.old.messages }
        ensures after { self.new ≡ (received_many count self.old).channel }
        ensures rung { RingsEach B.rings bell.old (received_many count self.old).rung bell.new }
    {
        for _turn in 0..count {
            let Ok(message) = self.try_recv(bell) else {
                unreachable!()
            };
            let Ok(()) = into.push(message) else {
                unreachable!()
            };
        }
    }

    // Sends so many from the front, or those before the first that is refused. The answer is how
    // many were sent.
    fn send_front<B: Bell<W>>(
        &mut self,
        from: &mut VecDeque<T, Global>,
        most: usize,
        bell: &mut B,
    ) -> usize
        requires { most ≤ length from.old.items }
        ensures within { result ≤ most }
        ensures rest { from.new.items ≡ drop result from.old.items }
        ensures after { self.new ≡ (sent_many (take result from.old.items) self.old).channel }
        ensures rung { RingsEach B.rings bell.old
            (sent_many (take result from.old.items) self.old).rung bell.new }
        ensures held { self.new.messages ≡ self.old.messages ++ take result from.old.items }
        ensures stops { result < most → CanSendNoMore from.new.items self.new }
    {
        for count in 0..most {
            if !self.send_first(from, bell) {
                return count;
            }
        }
        most
    }

    // Sends the message at the front. One that is refused stays there. The answer is whether one
    // was sent.
    fn send_first<B: Bell<W>>(&mut self, from: &mut VecDeque<T, Global>, bell: &mut B) -> bool
        ensures rest { from.new.items ≡ drop (if result then 1 else 0) from.old.items }
        ensures after { self.new
            ≡ (sent_many (take (if result then 1 else 0) from.old.items) self.old).channel }
        ensures rung { RingsEach B.rings bell.old
            (sent_many (take (if result then 1 else 0) from.old.items) self.old).rung bell.new }
        ensures held { self.new.messages
            ≡ self.old.messages ++ take (if result then 1 else 0) from.old.items }
        ensures some { OnTrue result (0 < length from.old.items) }
        ensures stops { OnFalse result (CanSendNoMore from.new.items self.new) }
    {
        let Some(message) = from.pop_front() else {
            return false;
        };
        let refused = match self.try_send(message, bell) {
            Ok(Ok(())) => return true,
            Ok(Err(error)) => error.into_inner(),
            Err(NoMemory(message)) => message,
        };
        from.push_front_reserved(refused);
        false
    }
}
