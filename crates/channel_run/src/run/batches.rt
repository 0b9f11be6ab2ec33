//! Many messages in one step.
ghost use Rattle.std.specs.Prelude.{◌≡◌, ◌⊎◌, ◌++◌, ◌+◌, ◌<◌, [], true, false, None, drop, length, min, slice_get, take, IfErr, IfOk};
ghost use Rattle.std.specs.Vec.{vec_capacity, vec_len};
ghost use Rattle.event_list.specs.Keys.{is_among};
ghost use Rattle.channel_model.specs.declared.step.Kind.{Kind};
ghost use Rattle.channel_model.specs.declared.step.Refusal.{Refusal};
ghost use Rattle.channel_model.specs.Past.{Past};
ghost use Rattle.channel_model.specs.Replies.{is_full_in};
ghost use Rattle.channel_core.specs.Tables.{try_recv_answer, try_send_answer};
ghost use Rattle.channel_core.specs.Batches.{counted, moved_count};
ghost use Rattle.channel_run.specs.Runs.{ReceivesInTurn, SendsInTurn, SendsNoMore};
ghost use Rattle.channel_run.specs.StandsFor.{StandsFor};

use crate::run::Run;
use channel_model::{OutOfMemory, Refusal, TryRecvError, TrySendError};
use event_list::Quiet;
use std::alloc::Global;
use std::collections::VecDeque;

impl<T: Drop> Run<T> {
    /// Takes up to `limit` messages by a receiver, the oldest first, and puts them after those in
    /// `into`. It is as many single receives, with nobody's step between them.
    ///
    /// The answer is how many came. If there is none, it is that of a single receive. A refused
    /// batch changes nothing.
    ///
    /// # Examples
    ///
    /// ```
    /// let mut run = Run::new(rt.alloc(), Kind::Unbounded)?;
    /// for message in [1, 2, 3] {
    ///     assert_eq!(rt; run.step(Step::TrySend(0, message)), Reply::TrySent(Ok(())));
    /// }
    /// let mut into = Vec::new(rt.alloc());
    /// assert_eq!(rt; run.try_recv_many(0, &mut into, 2), Ok(Ok(2)));
    /// assert_eq!(rt; into.as_slice(), [1, 2].as_slice());
    /// assert_eq!(rt; run.try_recv_many(7, &mut into, 2), Err(Refusal::Unknown));
    /// ```
    pub fn try_recv_many(
        &mut self,
        receiver: u64,
        into: &mut Vec<T>,
        limit: usize,
    ) -> Result<Result<usize, TryRecvError>, Refusal>
        ensures taken { into.new.items
            ≡ into.old.items ++ take (moved_count result) self.old.messages }
        ensures reply { IfOk result (λ answer. answer ≡ counted
            (min limit (length self.old.messages))
            (try_recv_answer (slice_get self.old.messages 0) self.old.closed)) }
        ensures in_turn { (kind : Kind) (past : Past T) → StandsFor kind past self.old
            → ReceivesInTurn kind past receiver (take (moved_count result) self.old.messages)
            self.new }
        ensures known { IfOk result (λ _. is_among receiver self.old.receivers ≡ true) }
        ensures refused { IfErr result (λ refusal. ((refusal ≡ Refusal.OutOfMemory)
            × (vec_capacity into.old < vec_len into.old + min limit (length self.old.messages)))
            ⊎ ((refusal ≡ Refusal.Unknown) × (is_among receiver self.old.receivers ≡ false))) }
    {
        if !self.has_receiver(receiver) {
            return Err(Refusal::Unknown);
        }
        match self.core.try_recv_many(into, limit, &mut Quiet) {
            Ok(answer) => Ok(answer),
            Err(OutOfMemory) => Err(Refusal::OutOfMemory),
        }
    }

    /// Sends messages from the front of `from` by a sender, as many as fit, up to `limit`. It is as
    /// many single sends, with nobody's step between them. The rest stays in `from`.
    ///
    /// The answer is how many were sent. If the channel is closed or full at once, the error says
    /// which. A refused batch changes nothing.
    ///
    /// # Examples
    ///
    /// ```
    /// let mut run = Run::new(rt.alloc(), Kind::Bounded(2))?;
    /// let mut from = VecDeque::new(rt.alloc());
    /// for message in [1, 2, 3] {
    ///     from.push_back(message)?;
    /// }
    /// assert_eq!(rt; run.try_send_many(0, &mut from, 5), Ok(Ok(2)));
    /// assert_eq!(rt; from.front(), Some(&3));
    /// assert_eq!(rt; run.try_send_many(0, &mut from, 5), Ok(Err(TrySendError::Full(()))));
    /// assert_eq!(rt; run.step(Step::TryRecv(0)), Reply::Received(Ok(1)));
    /// ```
    pub fn try_send_many(
        &mut self,
        sender: u64,
        from: &mut VecDeque<T, Global>,
        limit: usize,
    ) -> Result<Result<usize, TrySendError<()>>, Refusal>
        ensures rest { from.new.items ≡ drop (moved_count result) from.old.items }
        ensures reply { IfOk result (λ answer. answer ≡ counted (moved_count result)
            (try_send_answer self.old.closed (is_full_in self.old) tt)) }
        ensures stops { IfOk result (λ answer. IfOk answer (λ count. count < limit
            → SendsNoMore from.new.items self.new)) }
        ensures none { result ≡ Ok (Ok 0) → (limit ≡ 0) ⊎ (from.old.items ≡ []) }
        ensures in_turn { (kind : Kind) (past : Past T) → StandsFor kind past self.old
            → SendsInTurn kind past sender (take (moved_count result) from.old.items) self.new }
        ensures known { IfOk result (λ _. is_among sender self.old.senders ≡ true) }
        ensures refused { IfErr result (λ refusal. ((refusal ≡ Refusal.OutOfMemory)
            × (self.old.closed ≡ false) × (self.old.capacity ≡ None))
            ⊎ ((refusal ≡ Refusal.Unknown) × (is_among sender self.old.senders ≡ false))) }
    {
        if !self.senders.has(sender) {
            return Err(Refusal::Unknown);
        }
        match self.core.try_send_many(from, limit, &mut Quiet) {
            Ok(answer) => Ok(answer),
            Err(OutOfMemory) => Err(Refusal::OutOfMemory),
        }
    }
}
