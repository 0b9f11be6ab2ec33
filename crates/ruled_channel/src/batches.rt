//! Many messages in one step under the lock: steps of the rule, one after the other.
ghost use Rattle.std.specs.Prelude.{◌≡◌, ◌⊎◌, ◌+◌, ◌++◌, ◌<◌, ◌≤◌, ◌∷◌, [], drop, length, take, slice_get, None, Ok, IfErr, IfOk, IsSome, OnOk, OnErr};
ghost use Rattle.std.specs.Vec.{vec_len, vec_capacity};
ghost use Rattle.std.specs.VecDeque.{deque_len, deque_capacity};
ghost use Rattle.futures.specs.declared.task.Poll.TheVariants.{Pending};
ghost use Rattle.futures.specs.Poll.{IfReady};
ghost use Rattle.channel_core.specs.Tables.{OnReady, OnWait, recv_poll, send_poll, try_recv_answer, try_send_answer};
ghost use Rattle.channel_core.specs.Batches.{CanSendNoMore, counted, moved_count, received_many, sent_many, taken_count};
ghost use Rattle.channel_core.specs.Channel.{GrowsWithMessages, RecvWaits, SendWaits, is_channel_full, oldest, unchanged};
ghost use Rattle.ruled_channel.specs.declared.mark.Mark.{Mark};
ghost use Rattle.ruled_channel.specs.State.{IsClosed, IsEmpty, IsFull, IsUnbounded};
ghost use Rattle.ruled_channel.specs.Rule.{Ends, Fitted, Learns, ReceivesMany, SendsMany, TellsEach};
ghost use Rattle.ruled_channel.specs.Passes.{FindsNone, IsPassOf, IsSamePass, LearnedOf, Refuses, WantsToSend, key_of, number, source_of, view};
ghost use Rattle.ruled_channel.specs.Steps.{HasMade, found, made, woken};
ghost use Rattle.ruled_channel.specs.Batches.{counted_poll, counted_send, polled_count, polled_receives, polled_sends};

use crate::channel::RuledChannel;
use crate::mark::{Mark, Waiter};
use crate::outcomes::{AtEnd, Lesson, Received, ReceivedManyOrKept, Seen, Sent, SentManyOrKept};
use crate::pass::Pass;
use crate::protocol::Protocol;
use crate::ringer::Ringer;
use channel_core::{Core, OutOfMemory, RecvError, SendError, Ticket, TryRecvError, TrySendError};
use futures::task::Poll;
use std::alloc::Global;
use std::collections::VecDeque;
use std::sync::Wait;

// ## Under the lock
impl<T: Drop, V, P: Protocol<T, V>> RuledChannel<T, V, P> {
    // Polls a receive of up to `limit` messages. The room for those that are there is asked for
    // first.
    fn poll_recv_many<C, W: Waiter<C>>(
        &self,
        core: &mut Core<T, Mark>,
        into: &mut Vec<T>,
        limit: usize,
        ticket: &mut Option<Ticket>,
        waiter: &mut W,
        cx: &mut C,
        bell: &mut Ringer,
    ) -> Result<Poll<usize>, OutOfMemory>
        requires { 0 < limit }
        ensures reply { IfOk result (λ poll. poll ≡ counted_poll (taken_count limit core.old)
            (recv_poll (oldest core.old) core.old.closed)) }
        ensures taken { OnReady result (into.new.items ≡ into.old.items
            ++ take (taken_count limit core.old) core.old.messages) }
        ensures after { OnReady result (core.new
            ≡ (polled_receives ticket.old (taken_count limit core.old) core.old).channel) }
        ensures rung { OnReady result (bell.new ≡ bell.old
            ++ (polled_receives ticket.old (taken_count limit core.old) core.old).rung) }
        ensures finished { OnReady result (ticket.new ≡ None) }

        ensures waits { OnWait result ((w : Mark) × W.waits_by cx.new (source_of self.now) w
            × RecvWaits ticket.old core.old w ticket.new core.new) }
        ensures kept { OnWait result (into.new.items ≡ into.old.items) }
        ensures keeps { W.keeps cx.old cx.new }

        ensures silent { OnWait result (bell.new ≡ bell.old) }
        ensures unchanged { OnErr result ((core.new ≡ core.old) × (bell.new ≡ bell.old)) }
        ensures unpolled { OnErr result ((into.new.items ≡ into.old.items)
            × (ticket.new ≡ ticket.old)) }
        ensures wanted { OnErr result ((recv_poll (oldest core.old) core.old.closed ≡ Pending)
            ⊎ (vec_capacity into.old < vec_len into.old + taken_count limit core.old)) }
    {
        let count = limit.min(core.len());
        if into.try_reserve(count).is_err() {
            return Err(OutOfMemory);
        }
        match self.poll_recv(core, ticket, waiter, cx, bell)? {
            Poll::Ready(Ok(message)) => {
                Ok(Poll::Ready(take_behind(core, into, message, limit - 1, bell)))
            }
            Poll::Ready(Err(RecvError)) => Ok(Poll::Ready(0)),
            Poll::Pending => Ok(Poll::Pending),
        }
    }

    // Polls a send of the messages in `from`, up to `limit` of them, from the front. What isn't
    // sent stays there.
    fn poll_send_many<C, W: Waiter<C>>(
        &self,
        core: &mut Core<T, Mark>,
        from: &mut VecDeque<T, Global>,
        limit: usize,
        ticket: &mut Option<Ticket>,
        waiter: &mut W,
        cx: &mut C,
        bell: &mut Ringer,
    ) -> Result<Poll<Result<usize, SendError<()>>>, OutOfMemory>
        requires some { 0 < length from.old.items }
        requires limited { 0 < limit }
        ensures reply { IfOk result (λ poll. poll ≡ counted_send (polled_count result)
            (send_poll (slice_get from.old.items 0) core.old.closed (is_channel_full core.old))) }
        ensures sends { IfOk result (λ poll. IfReady poll (λ sent. OnOk sent
            (0 < polled_count result))) }
        ensures limit { polled_count result ≤ limit }
        ensures within { polled_count result ≤ length from.old.items }
        ensures rest { from.new.items ≡ drop (polled_count result) from.old.items }
        ensures after { OnReady result (core.new
            ≡ (polled_sends ticket.old (take (polled_count result) from.old.items)
            core.old).channel) }
        ensures rung { OnReady result (bell.new ≡ bell.old
            ++ (polled_sends ticket.old (take (polled_count result) from.old.items)
            core.old).rung) }
        ensures held { OnReady result (core.new.messages
            ≡ core.old.messages ++ take (polled_count result) from.old.items) }
        ensures stops { IfOk result (λ poll. IfReady poll (λ sent. OnOk sent
            (polled_count result < limit → CanSendNoMore from.new.items core.new))) }
        ensures finished { OnReady result (ticket.new ≡ None) }

        ensures waits { OnWait result ((w : Mark) × W.waits_by cx.new (source_of self.now) w
            × SendWaits (slice_get from.old.items 0) ticket.old core.old w ticket.new core.new) }
        ensures keeps { W.keeps cx.old cx.new }

        ensures silent { OnWait result (bell.new ≡ bell.old) }
        ensures unchanged { OnErr result ((core.new ≡ core.old) × (bell.new ≡ bell.old)) }
        ensures unpolled { OnErr result (ticket.new ≡ ticket.old) }
        ensures wanted { OnErr result (GrowsWithMessages core.old
            ⊎ (send_poll (slice_get from.old.items 0) core.old.closed (is_channel_full core.old)
            ≡ Pending)) }
    {
        let mut first = Some(take_front(from));
        match self.poll_send(core, &mut first, ticket, waiter, cx, bell) {
            Ok(Poll::Ready(Ok(()))) => {
                let more = send_behind(core, from, limit - 1, bell);
                Ok(Poll::Ready(Ok(more + 1)))
            }
            Ok(Poll::Ready(Err(SendError(message)))) => {
                from.push_front_reserved(message);
                Ok(Poll::Ready(Err(SendError(()))))
            }
            Ok(Poll::Pending) => {
                from.push_front_reserved(first.unwrap());
                Ok(Poll::Pending)
            }
            Err(OutOfMemory) => {
                from.push_front_reserved(first.unwrap());
                Err(OutOfMemory)
            }
        }
    }
}

// A batch of receives at a bell that keeps a log.
fn take_round<T: Drop>(
    core: &mut Core<T, Mark>,
    into: &mut Vec<T>,
    limit: usize,
    bell: &mut Ringer,
) -> Result<Result<usize, TryRecvError>, OutOfMemory>
    ensures reply { IfOk result (λ answer. answer ≡ counted (taken_count limit core.old)
        (try_recv_answer (oldest core.old) core.old.closed)) }
    ensures taken { into.new.items
        ≡ into.old.items ++ take (moved_count result) core.old.messages }
    ensures after { core.new ≡ (received_many (moved_count result) core.old).channel }
    ensures rung { bell.new
        ≡ bell.old ++ (received_many (moved_count result) core.old).rung }
    ensures limit { moved_count result ≤ limit }
    ensures count { length into.new.items ≡ length into.old.items + moved_count result }
    ensures wanted { OnErr result
        (vec_capacity into.old < vec_len into.old + taken_count limit core.old) }
{
    core.try_recv_many(into, limit, bell)
}

// A batch of sends at a bell that keeps a log.
fn send_round<T: Drop>(
    core: &mut Core<T, Mark>,
    from: &mut VecDeque<T, Global>,
    limit: usize,
    bell: &mut Ringer,
) -> Result<Result<usize, TrySendError<()>>, OutOfMemory>
    ensures reply { IfOk result (λ answer. answer ≡ counted (moved_count result)
        (try_send_answer core.old.closed (is_channel_full core.old) tt)) }
    ensures limit { moved_count result ≤ limit }
    ensures within { moved_count result ≤ length from.old.items }
    ensures rest { from.new.items ≡ drop (moved_count result) from.old.items }
    ensures after { core.new
        ≡ (sent_many (take (moved_count result) from.old.items) core.old).channel }
    ensures rung { bell.new ≡ bell.old
        ++ (sent_many (take (moved_count result) from.old.items) core.old).rung }
    ensures held { core.new.messages
        ≡ core.old.messages ++ take (moved_count result) from.old.items }
    ensures stops { moved_count result < limit → CanSendNoMore from.new.items core.new }
    ensures wanted { OnErr result (GrowsWithMessages core.old) }
    ensures none { result ≡ Ok (Ok 0) → (limit ≡ 0) ⊎ (from.old.items ≡ []) }
{
    core.try_send_many(from, limit, bell)
}

// Puts a message into room that there is, and up to so many more after it. The answer is how many
// it put there.
fn take_behind<T: Drop>(
    core: &mut Core<T, Mark>,
    into: &mut Vec<T>,
    message: T,
    more: usize,
    bell: &mut Ringer,
) -> usize
    requires room { vec_len into.old + 1 + taken_count more core.old ≤ vec_capacity into.old }
    ensures count { result ≡ taken_count more core.old + 1 }
    ensures taken { into.new.items
        ≡ into.old.items ++ message ∷ take (taken_count more core.old) core.old.messages }
    ensures after { core.new ≡ (received_many (taken_count more core.old) core.old).channel }
    ensures rung { bell.new
        ≡ bell.old ++ (received_many (taken_count more core.old) core.old).rung }
{
    let Ok(()) = into.push(message) else {
        unreachable!()
    };
    match take_round(core, into, more, bell) {
        Ok(Ok(count)) => count + 1,
        Ok(Err(_)) => 1,
        Err(OutOfMemory) => unreachable!(),
    }
}

// Sends up to so many messages more, from the front. The answer is how many it sent.
fn send_behind<T: Drop>(
    core: &mut Core<T, Mark>,
    from: &mut VecDeque<T, Global>,
    more: usize,
    bell: &mut Ringer,
) -> usize
    ensures limit { result ≤ more }
    ensures within { result ≤ length from.old.items }
    ensures rest { from.new.items ≡ drop result from.old.items }
    ensures after { core.new ≡ (sent_many (take result from.old.items) core.old).channel }
    ensures rung { bell.new
        ≡ bell.old ++ (sent_many (take result from.old.items) core.old).rung }
    ensures held { core.new.messages ≡ core.old.messages ++ take result from.old.items }
    ensures stops { result < more → CanSendNoMore from.new.items core.new }
{
    match send_round(core, from, more, bell) {
        Ok(Ok(count)) => count,
        _ => 0,
    }
}

// Takes the message at the front. Its room stays.
fn take_front<T: Drop>(from: &mut VecDeque<T, Global>) -> T
    requires { 0 < length from.old.items }
    ensures items { from.old.items ≡ result ∷ from.new.items }
    ensures room { deque_len from.new < deque_capacity from.new }
{
    from.pop_front().unwrap()
}

// ## With the lock
impl<T: Drop, V, P: Protocol<T, V>> RuledChannel<T, V, P> {
    /// Sends messages from the front of `from` in one step, as many as fit, up to `limit`. The rest
    /// stays there. The rule has to allow a send of each in `from` after those before it.
    ///
    /// The answer is how many were sent. A full or closed channel is answered by an error. The
    /// outer error says that memory was refused for the first message.
    ///
    /// ```
    /// let (channel, mut pass) = bounded_with::<u64, (), Unruled>(rt.alloc(), 1)?;
    /// let mut from = VecDeque::new(rt.alloc());
    /// from.push_back(5)?;
    /// from.push_back(6)?;
    /// let sent =
    ///     channel.try_send_many_as::<Unruled, Unruled, _>(&rt, &mut pass, &mut from, 2)?;
    /// assert_eq!(rt; sent, Ok(1));
    /// ```
    pub fn try_send_many_as<M: Sent<T, V>, L: Lesson<T, V>, R: Wait>(
        &self,
        rt: &R,
        pass: &mut Pass<T, V>,
        from: &mut VecDeque<T, Global>,
        limit: usize,
    ) -> Result<Result<usize, TrySendError<()>>, OutOfMemory>
        requires own { IsPassOf self.now pass.old }
        requires rule { SendsMany (P.holds (key_of self.now)) (number pass.old) (view pass.old)
            from.old.items M.then }
        requires lesson { Learns (P.holds (key_of self.now)) (number pass.old) (view pass.old)
            (L.fact (view pass.old)) }
        ensures own { IsPassOf self.now pass.new × IsSamePass pass.old pass.new }
        ensures sent { TellsEach M.then (view pass.old) (take (moved_count result) from.old.items)
            (view pass.new) }
        ensures refused { IfOk result (λ answer. IfErr answer (Refuses (L.fact (view pass.old)))) }
        ensures memory { OnErr result (LearnedOf IsUnbounded (L.fact (view pass.old))) }
        ensures limit { moved_count result ≤ limit }
        ensures within { moved_count result ≤ length from.old.items }
        ensures rest { from.new.items ≡ drop (moved_count result) from.old.items }
        ensures reply { IfOk result (λ answer. answer ≡ counted (moved_count result)
            (try_send_answer (found pass.new).closed (is_channel_full (found pass.new)) tt)) }
        ensures step { HasMade (sent_many (take (moved_count result) from.old.items)) pass.new }
        ensures stops { moved_count result < limit → CanSendNoMore from.new.items (made pass.new) }
        ensures wanted { OnErr result (GrowsWithMessages (found pass.new)) }
        ensures none { result ≡ Ok (Ok 0) → (limit ≡ 0) ⊎ (from.old.items ≡ []) }
    {
        let held = self.lock(rt, pass);
        let mut bell = Ringer::new();
        let core = pass.lock.value_mut(&self.mutex, &held);
        let sent = send_round(core, from, limit, &mut bell);
        self.give_back::<SentManyOrKept<M, L>>(pass, held, bell);
        sent
    }

    /// Takes up to `limit` messages in one step, the oldest first, and puts them after those in
    /// `into`. The rule has to allow so many receives, one after the other.
    ///
    /// The answer is how many came. If no message is held the error says whether the channel is
    /// closed. The outer error says that there was no memory in `into`, which is asked for before
    /// the first message is taken.
    ///
    /// ```
    /// let (channel, mut pass) = bounded_with::<u64, (), Unruled>(rt.alloc(), 1)?;
    /// let sent = channel.try_send_as::<Unruled, Unruled, _>(&rt, &mut pass, 5)?;
    /// assert_eq!(rt; sent, Ok(()));
    /// let mut into = Vec::new(rt.alloc());
    /// let got = channel
    ///     .try_recv_many_as::<Unruled, Unruled, Unruled, _>(&rt, &mut pass, &mut into, 2)?;
    /// assert_eq!(rt; got, Ok(1));
    /// ```
    pub fn try_recv_many_as<M: Received<T, V>, E: AtEnd<V>, L: Lesson<T, V>, R: Wait>(
        &self,
        rt: &R,
        pass: &mut Pass<T, V>,
        into: &mut Vec<T>,
        limit: usize,
    ) -> Result<Result<usize, TryRecvError>, OutOfMemory>
        requires own { IsPassOf self.now pass.old }
        requires rule { ReceivesMany (P.holds (key_of self.now)) (number pass.old) (view pass.old)
            limit M.then }
        requires end { Ends (P.holds (key_of self.now)) (number pass.old) (view pass.old) E.then }
        requires lesson { Learns (P.holds (key_of self.now)) (number pass.old) (view pass.old)
            (L.fact (view pass.old)) }
        ensures own { IsPassOf self.now pass.new × IsSamePass pass.old pass.new }
        ensures received { IfOk result (λ answer. IfOk answer (λ count. TellsEach M.then
            (view pass.old) (take count (found pass.new).messages) (view pass.new))) }
        ensures refused { IfOk result (λ answer. IfErr answer (FindsNone E.then
            (L.fact (view pass.old)) (view pass.old) (view pass.new))) }
        ensures memory { OnErr result (view pass.new ≡ view pass.old) }
        ensures limit { moved_count result ≤ limit }
        ensures kept { take (length into.old.items) into.new.items ≡ into.old.items }
        ensures count { length into.new.items ≡ length into.old.items + moved_count result }
        ensures reply { IfOk result (λ answer. answer
            ≡ counted (taken_count limit (found pass.new))
            (try_recv_answer (oldest (found pass.new)) (found pass.new).closed)) }
        ensures taken { into.new.items
            ≡ into.old.items ++ take (moved_count result) (found pass.new).messages }
        ensures step { HasMade (received_many (moved_count result)) pass.new }
        ensures wanted { OnErr result (vec_capacity into.old
            < vec_len into.old + taken_count limit (found pass.new)) }
    {
        let held = self.lock(rt, pass);
        let mut bell = Ringer::new();
        let core = pass.lock.value_mut(&self.mutex, &held);
        let taken = take_round(core, into, limit, &mut bell);
        self.give_back::<ReceivedManyOrKept<M, E, L>>(pass, held, bell);
        taken
    }

    /// Polls a send of many: what fits of `from` goes in, from the front and up to `limit`, and if
    /// nothing does a mark is left in the list of sends.
    ///
    /// It is for who keeps the ticket and the waiter, as `send_or_wait_as` is.
    ///
    /// ```
    /// let (channel, mut pass) = bounded_with::<u64, (), Unruled>(rt.alloc(), 1)?;
    /// let mut from = VecDeque::new(rt.alloc());
    /// from.push_back(5)?;
    /// let (mut ticket, mut sleeper) = (None, Sleeper::new());
    /// let polled = channel
    ///     .send_many_or_wait_as::<Unruled, Unruled, _, _, _>(
    ///         &rt, &mut pass, &mut from, 2, &mut ticket, &mut sleeper, &mut (),
    ///     );
    /// assert_eq!(rt; polled, Ok(Poll::Ready(Ok(1))));
    /// Ticket::destroy_none(ticket);
    /// ```
    pub fn send_many_or_wait_as<M, L, R, C, W>(
        &self,
        rt: &R,
        pass: &mut Pass<T, V>,
        from: &mut VecDeque<T, Global>,
        limit: usize,
        ticket: &mut Option<Ticket>,
        waiter: &mut W,
        cx: &mut C,
    ) -> Result<Poll<Result<usize, SendError<()>>>, OutOfMemory>
    where
        M: Sent<T, V>,
        L: Lesson<T, V>,
        R: Wait,
        W: Waiter<C>,
        requires own { IsPassOf self.now pass.old }
        requires rule { SendsMany (P.holds (key_of self.now)) (number pass.old) (view pass.old)
            from.old.items M.then }
        requires lesson { Learns (P.holds (key_of self.now)) (number pass.old) (view pass.old)
            (L.fact (view pass.old)) }
        requires some { 0 < length from.old.items }
        requires limited { 0 < limit }
        ensures own { IsPassOf self.now pass.new × IsSamePass pass.old pass.new }
        ensures sent { TellsEach M.then (view pass.old) (take (polled_count result) from.old.items)
            (view pass.new) }
        ensures refused { IfOk result (λ poll. IfReady poll (λ sent. OnErr sent
            (LearnedOf IsClosed (L.fact (view pass.old))))) }
        ensures full { OnWait result (LearnedOf IsFull (L.fact (view pass.old))) }
        ensures memory { OnErr result (WantsToSend (L.fact (view pass.old))) }
        ensures sends { IfOk result (λ poll. IfReady poll (λ sent. OnOk sent
            (0 < polled_count result))) }
        ensures limit { polled_count result ≤ limit }
        ensures within { polled_count result ≤ length from.old.items }
        ensures rest { from.new.items ≡ drop (polled_count result) from.old.items }
        ensures reply { IfOk result (λ poll. poll ≡ counted_send (polled_count result)
            (send_poll (slice_get from.old.items 0) (found pass.new).closed
            (is_channel_full (found pass.new)))) }
        ensures step { OnReady result ((ticket.new ≡ None)
            × HasMade (polled_sends ticket.old (take (polled_count result) from.old.items))
            pass.new) }
        ensures stops { IfOk result (λ poll. IfReady poll (λ sent. OnOk sent
            (polled_count result < limit → CanSendNoMore from.new.items (made pass.new)))) }
        ensures waits { OnWait result ((w : Mark) × W.waits_by cx.new (source_of self.now) w
            × IsSome ticket.new × SendWaits (slice_get from.old.items 0) ticket.old
            (found pass.new) w ticket.new (made pass.new) × (woken pass.new ≡ [])) }
        ensures keeps { W.keeps cx.old cx.new }
        ensures unpolled { OnErr result ((ticket.new ≡ ticket.old) × HasMade unchanged pass.new) }
        ensures wanted { OnErr result (GrowsWithMessages (found pass.new)
            ⊎ (send_poll (slice_get from.old.items 0) (found pass.new).closed
            (is_channel_full (found pass.new)) ≡ Pending)) }
    {
        let held = self.lock(rt, pass);
        let mut bell = Ringer::new();
        let core = pass.lock.value_mut(&self.mutex, &held);
        let polled = self.poll_send_many(core, from, limit, ticket, waiter, cx, &mut bell);
        self.give_back::<SentManyOrKept<M, L>>(pass, held, bell);
        polled
    }

    /// Polls a receive of many: what is there comes, up to `limit`, and if nothing is a mark is left
    /// in the list of receives. The room for what is there is asked for before the first message is
    /// taken.
    ///
    /// It is for who keeps the ticket and the waiter, as `recv_or_wait_as` is.
    ///
    /// ```
    /// let (channel, mut pass) = bounded_with::<u64, (), Unruled>(rt.alloc(), 1)?;
    /// let sent = channel.try_send_as::<Unruled, Unruled, _>(&rt, &mut pass, 5)?;
    /// assert_eq!(rt; sent, Ok(()));
    /// let mut into = Vec::new(rt.alloc());
    /// let (mut ticket, mut sleeper) = (None, Sleeper::new());
    /// let polled = channel
    ///     .recv_many_or_wait_as::<Unruled, Unruled, _, _, _>(
    ///         &rt, &mut pass, &mut into, 2, &mut ticket, &mut sleeper, &mut (),
    ///     );
    /// assert_eq!(rt; polled, Ok(Poll::Ready(1)));
    /// Ticket::destroy_none(ticket);
    /// ```
    pub fn recv_many_or_wait_as<M, E, R, C, W>(
        &self,
        rt: &R,
        pass: &mut Pass<T, V>,
        into: &mut Vec<T>,
        limit: usize,
        ticket: &mut Option<Ticket>,
        waiter: &mut W,
        cx: &mut C,
    ) -> Result<Poll<usize>, OutOfMemory>
    where
        M: Received<T, V>,
        E: AtEnd<V>,
        R: Wait,
        W: Waiter<C>,
        requires own { IsPassOf self.now pass.old }
        requires rule { ReceivesMany (P.holds (key_of self.now)) (number pass.old) (view pass.old)
            limit M.then }
        requires end { Ends (P.holds (key_of self.now)) (number pass.old) (view pass.old) E.then }
        requires limited { 0 < limit }
        ensures own { IsPassOf self.now pass.new × IsSamePass pass.old pass.new }
        ensures received { IfOk result (λ poll. IfReady poll (λ count. 0 < count → TellsEach M.then
            (view pass.old) (take count (found pass.new).messages) (view pass.new))) }
        ensures end { IfOk result (λ poll. IfReady poll (λ count. count ≡ 0
            → E.then (view pass.old) (view pass.new))) }
        ensures empty { OnWait result ((view pass.new ≡ view pass.old)
            × LearnedOf IsEmpty (Fitted P.holds (view pass.old))) }
        ensures memory { OnErr result (view pass.new ≡ view pass.old) }
        ensures limit { IfOk result (λ poll. IfReady poll (λ count. count ≤ limit)) }
        ensures kept { take (length into.old.items) into.new.items ≡ into.old.items }
        ensures count { IfOk result (λ poll. IfReady poll (λ count. length into.new.items
            ≡ length into.old.items + count)) }
        ensures reply { IfOk result (λ poll. poll
            ≡ counted_poll (taken_count limit (found pass.new))
            (recv_poll (oldest (found pass.new)) (found pass.new).closed)) }
        ensures taken { OnReady result (into.new.items ≡ into.old.items
            ++ take (taken_count limit (found pass.new)) (found pass.new).messages) }
        ensures step { OnReady result ((ticket.new ≡ None)
            × HasMade (λ channel. polled_receives ticket.old (taken_count limit channel) channel)
            pass.new) }
        ensures untouched { OnWait result (into.new.items ≡ into.old.items) }
        ensures waits { OnWait result ((w : Mark) × W.waits_by cx.new (source_of self.now) w
            × IsSome ticket.new × RecvWaits ticket.old (found pass.new) w ticket.new (made pass.new)
            × (woken pass.new ≡ [])) }
        ensures keeps { W.keeps cx.old cx.new }
        ensures unpolled { OnErr result ((into.new.items ≡ into.old.items)
            × (ticket.new ≡ ticket.old) × HasMade unchanged pass.new) }
        ensures wanted { OnErr result
            ((recv_poll (oldest (found pass.new)) (found pass.new).closed ≡ Pending)
            ⊎ (vec_capacity into.old < vec_len into.old + taken_count limit (found pass.new))) }
    {
        let held = self.lock(rt, pass);
        let mut bell = Ringer::new();
        let core = pass.lock.value_mut(&self.mutex, &held);
        let polled = self.poll_recv_many(core, into, limit, ticket, waiter, cx, &mut bell);
        self.give_back::<ReceivedManyOrKept<M, E, Seen<P>>>(pass, held, bell);
        polled
    }
}
