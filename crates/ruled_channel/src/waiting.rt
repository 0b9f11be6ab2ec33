//! Polls of the channel by whatever waits: the task of a future, or a blocked thread.
//!
//! A poll looks without a mark first. One that is ready needs none, nor memory for it; one that
//! isn't has changed nothing. Then it waits by its mark under the same lock, so that whoever tells it
//! finds that; `mark` says how. That is out of line, and the look is in its caller.
ghost use Rattle.std.specs.Prelude.{◌≡◌, ◌<◌, ◌==◌, ◌⊎◌, [], ◌++◌, Some, None, IfOk, IfErr, IfSome, IfNone, IsSome, OnOk, OnErr, true, false};
ghost use Rattle.futures.specs.Poll.{IfReady};
ghost use Rattle.futures.specs.declared.task.Poll.TheVariants.{Pending};
ghost use Rattle.channel_core.specs.Errors.{message_of};
ghost use Rattle.channel_core.specs.Tables.{OnReady, OnWait, closed_poll, next_poll, recv_poll, send_poll, try_send_answer};
ghost use Rattle.channel_core.specs.Channel.{ClosedWaits, GrowsWithMessages, NextWaits, RecvWaits, SendWaits, WaitsIn, given_up, is_channel_full, list_of, must_wait, oldest, polled_receive, polled_send, polled_stream, unchanged};
ghost use Rattle.channel_core.specs.Tickets.{left, waits};
ghost use Rattle.ruled_channel.specs.declared.mark.Mark.{Mark};
ghost use Rattle.ruled_channel.specs.State.{HasReceivers, IsEmpty};
ghost use Rattle.ruled_channel.specs.Rule.{Sends, Receives, Ends, Learns, Fitted};
ghost use Rattle.ruled_channel.specs.Passes.{IsPassOf, IsSamePass, LearnedOf, Refuses, IfFull, UnlessFull, WantsToSend, key_of, number, source_of, view};
ghost use Rattle.ruled_channel.specs.Steps.{HasMade, closed_left, found, made, woken};

use crate::channel::RuledChannel;
use crate::mark::{Mark, Waiter};
use crate::outcomes::{AtEnd, Kept, Lesson, Received, ReceivedOrKept, Seen, Sent, SentOrKept};
use crate::pass::Pass;
use crate::protocol::Protocol;
use crate::ringer::Ringer;
use channel_core::{
    Core, Group, NoMemory, NoRoom, OutOfMemory, RecvError, SendError, Ticket, TrySendError,
};
use futures::task::{Poll, Source};
use ruled_mutex::Unruled;
use std::sync::Wait;

// ## Under the lock

// Whether an operation waits, and wasn't told.
fn is_untold<T: Drop>(core: &Core<T, Mark>, group: Group, ticket: &Option<Ticket>) -> bool {
    match ticket {
        Some(ticket) => core.is_told(group, ticket) == Some(false),
        None => false,
    }
}

// The mark of an entry that holds none. It is refused if no waker could be made.
#[inline(always)]
fn first_mark<C, W: Waiter<C>>(
    waiter: &mut W,
    cell: W::Cell,
    source: &Source,
    cx: &mut C,
) -> Result<Mark, OutOfMemory>
    ensures made { IfOk result (W.waits_by cx.new source.now.id) }
    ensures keeps { W.keeps cx.old cx.new }
{
    match waiter.mark(cell, None, source, cx) {
        Mark::Task(None) => Err(OutOfMemory),
        mark => Ok(mark),
    }
}

// Waits by a mark, which stays with its waiter if memory was refused. The answer is the one that the
// entry held untold.
#[inline(always)]
fn wait_by<T: Drop, C, W: Waiter<C>>(
    core: &mut Core<T, Mark>,
    group: Group,
    ticket: &mut Option<Ticket>,
    waiter: &mut W,
    mark: Mark,
) -> Result<Option<Mark>, OutOfMemory>
    requires { must_wait group core.old ≡ true }
    ensures waits { OnOk result (WaitsIn group ticket.old core.old mark ticket.new core.new) }
    ensures unchanged { OnErr result ((core.new ≡ core.old) × (ticket.new ≡ ticket.old)) }
    ensures wanted { OnErr result (waits ticket.old (list_of group core.old) ≡ false) }
{
    match core.wait(group, ticket, mark) {
        Ok(held) => Ok(held),
        Err(NoRoom(mark)) => {
            waiter.keep(Some(mark));
            Err(OutOfMemory)
        }
    }
}

impl<T: Drop, V, P: Protocol<T, V>> RuledChannel<T, V, P> {
    #[tactic(auto, using(crate::proofs::Logging::logs, crate::proofs::Logging::logs_if_ready))]
    #[inline(always)]
    pub(crate) fn poll_recv<C, W: Waiter<C>>(
        &self,
        core: &mut Core<T, Mark>,
        ticket: &mut Option<Ticket>,
        waiter: &mut W,
        cx: &mut C,
        bell: &mut Ringer,
    ) -> Result<Poll<Result<T, RecvError>>, OutOfMemory>
        ensures reply { IfOk result (λ poll. poll ≡ recv_poll (oldest core.old) core.old.closed) }
        ensures after { OnReady result
            (core.new ≡ (polled_receive ticket.old core.old).channel) }
        ensures rung { OnReady result
            (bell.new ≡ bell.old ++ (polled_receive ticket.old core.old).rung) }
        ensures finished { OnReady result (ticket.new ≡ None) }
        ensures waits { OnWait result ((w : Mark) × W.waits_by cx.new (source_of self.now) w
            × RecvWaits ticket.old core.old w ticket.new core.new) }
        ensures keeps { W.keeps cx.old cx.new }
        ensures silent { OnWait result (bell.new ≡ bell.old) }
        ensures unchanged { OnErr result ((core.new ≡ core.old) × (bell.new ≡ bell.old)
            × (ticket.new ≡ ticket.old)) }
        ensures wanted { OnErr result (recv_poll (oldest core.old) core.old.closed ≡ Pending) }
    {
        if core.must_wait(Group::Receives) {
            self.wait(core, Group::Receives, ticket, waiter, cx)?;
            return Ok(Poll::Pending);
        }
        let mut left = None;
        let polled = core.finish_recv(ticket, bell, &mut left);
        waiter.keep(left);
        Ok(polled)
    }

    #[tactic(auto, using(crate::proofs::Logging::logs, crate::proofs::Logging::logs_if_ready))]
    fn poll_next<C, W: Waiter<C>>(
        &self,
        core: &mut Core<T, Mark>,
        ticket: &mut Option<Ticket>,
        waiter: &mut W,
        cx: &mut C,
        bell: &mut Ringer,
    ) -> Result<Poll<Option<T>>, OutOfMemory>
        ensures reply { IfOk result (λ poll. poll ≡ next_poll (oldest core.old) core.old.closed) }
        ensures after { OnReady result
            (core.new ≡ (polled_stream ticket.old core.old).channel) }
        ensures rung { OnReady result
            (bell.new ≡ bell.old ++ (polled_stream ticket.old core.old).rung) }
        ensures finished { OnReady result (ticket.new ≡ None) }
        ensures waits { OnWait result ((w : Mark) × W.waits_by cx.new (source_of self.now) w
            × NextWaits ticket.old core.old w ticket.new core.new) }
        ensures keeps { W.keeps cx.old cx.new }
        ensures silent { OnWait result (bell.new ≡ bell.old) }
        ensures unchanged { OnErr result ((core.new ≡ core.old) × (bell.new ≡ bell.old)
            × (ticket.new ≡ ticket.old)) }
        ensures wanted { OnErr result (next_poll (oldest core.old) core.old.closed ≡ Pending) }
    {
        if core.must_wait(Group::Streams) {
            self.wait(core, Group::Streams, ticket, waiter, cx)?;
            return Ok(Poll::Pending);
        }
        let mut left = None;
        let polled = core.finish_next(ticket, bell, &mut left);
        waiter.keep(left);
        Ok(polled)
    }

    #[tactic(auto, using(crate::proofs::Logging::logs, crate::proofs::Logging::logs_if_ready))]
    #[inline(always)]
    pub(crate) fn poll_send<C, W: Waiter<C>>(
        &self,
        core: &mut Core<T, Mark>,
        message: &mut Option<T>,
        ticket: &mut Option<Ticket>,
        waiter: &mut W,
        cx: &mut C,
        bell: &mut Ringer,
    ) -> Result<Poll<Result<(), SendError<T>>>, OutOfMemory>
        requires { IsSome message.old }
        ensures reply { IfOk result
            (λ poll. poll ≡ send_poll message.old core.old.closed (is_channel_full core.old)) }
        ensures after { OnReady result
            (core.new ≡ (polled_send message.old ticket.old core.old).channel) }
        ensures rung { OnReady result
            (bell.new ≡ bell.old ++ (polled_send message.old ticket.old core.old).rung) }
        ensures finished { OnReady result (ticket.new ≡ None) }
        ensures waits { OnWait result ((w : Mark) × W.waits_by cx.new (source_of self.now) w
            × SendWaits message.old ticket.old core.old w ticket.new core.new) }
        ensures kept { OnWait result (message.new ≡ message.old) }
        ensures keeps { W.keeps cx.old cx.new }
        ensures silent { OnWait result (bell.new ≡ bell.old) }
        ensures unchanged { OnErr result ((core.new ≡ core.old) × (bell.new ≡ bell.old)
            × (message.new ≡ message.old) × (ticket.new ≡ ticket.old)) }
        ensures wanted { OnErr result (GrowsWithMessages core.old
            ⊎ (send_poll message.old core.old.closed (is_channel_full core.old) ≡ Pending)) }
    {
        if core.must_wait(Group::Sends) {
            self.wait(core, Group::Sends, ticket, waiter, cx)?;
            return Ok(Poll::Pending);
        }
        let mut left = None;
        let polled = core.finish_send(message, ticket, bell, &mut left)?;
        waiter.keep(left);
        Ok(polled)
    }

    fn poll_closed<C, W: Waiter<C>>(
        &self,
        core: &mut Core<T, Mark>,
        ticket: &mut Option<Ticket>,
        waiter: &mut W,
        cx: &mut C,
    ) -> Result<Poll<()>, OutOfMemory>
        ensures reply { IfOk result (λ poll. poll ≡ closed_poll (core.old.receivers == 0)) }
        ensures after { OnReady result (core.new ≡ record core.old {
          closeds = left ticket.old core.old.closeds;
        }) }
        ensures finished { OnReady result (ticket.new ≡ None) }
        ensures waits { OnWait result ((w : Mark) × W.waits_by cx.new (source_of self.now) w
            × ClosedWaits ticket.old core.old w ticket.new core.new) }
        ensures keeps { W.keeps cx.old cx.new }
        ensures kept { core.new ≡ record core.old { closeds = core.new.closeds } }
        ensures unchanged { OnErr result ((core.new ≡ core.old) × (ticket.new ≡ ticket.old)) }
        ensures wanted { OnErr result (0 < core.old.receivers) }
    {
        if core.must_wait(Group::Closeds) {
            self.wait(core, Group::Closeds, ticket, waiter, cx)?;
            return Ok(Poll::Pending);
        }
        let mut left = None;
        let polled = core.finish_closed(ticket, &mut left);
        waiter.keep(left);
        Ok(polled)
    }

    // One that can't go on waits by its mark.
    #[inline(never)]
    fn wait<C, W: Waiter<C>>(
        &self,
        core: &mut Core<T, Mark>,
        group: Group,
        ticket: &mut Option<Ticket>,
        waiter: &mut W,
        cx: &mut C,
    ) -> Result<(), OutOfMemory>
        requires { must_wait group core.old ≡ true }
        ensures waits { OnOk result ((w : Mark) × W.waits_by cx.new (source_of self.now) w
            × WaitsIn group ticket.old core.old w ticket.new core.new) }
        ensures keeps { W.keeps cx.old cx.new }
        ensures unchanged { OnErr result ((core.new ≡ core.old) × (ticket.new ≡ ticket.old)) }
    {
        let cell = waiter.cell(self.alloc)?;
        if is_untold(core, group, ticket) {
            let held = wait_by(core, group, ticket, waiter, Mark::Task(None))?;
            let mark = waiter.mark(cell, held, &self.source, cx);
            wait_by(core, group, ticket, waiter, mark)?;
            return Ok(());
        }
        let mark = first_mark(waiter, cell, &self.source, cx)?;
        wait_by(core, group, ticket, waiter, mark)?;
        Ok(())
    }
}

// ## With the lock
impl<T: Drop, V, P: Protocol<T, V>> RuledChannel<T, V, P> {
    /// Polls a send: `try_send_as`, which leaves a mark in the list of sends if the channel is full.
    ///
    /// It is for who keeps the send's ticket and its waiter: the future of a send, or a thread that
    /// blocks. After `Full` there is a ticket, and after every other answer none. If memory was
    /// refused the ticket is as it was, and its entry stays; `give_up` takes it out.
    ///
    /// ```
    /// let (channel, mut pass) = bounded_with::<u64, (), Unruled>(rt.alloc(), 1)?;
    /// let (mut ticket, mut sleeper) = (None, Sleeper::new());
    /// let sent = channel.send_or_wait_as::<Unruled, Unruled, _, _, _>(
    ///     &rt,
    ///     &mut pass,
    ///     5,
    ///     &mut ticket,
    ///     &mut sleeper,
    ///     &mut (),
    /// );
    /// assert_eq!(rt; sent, Ok(Ok(())));
    /// Ticket::destroy_none(ticket);
    /// ```
    #[inline(always)]
    pub fn send_or_wait_as<M, L, R, C, W>(
        &self,
        rt: &R,
        pass: &mut Pass<T, V>,
        message: T,
        ticket: &mut Option<Ticket>,
        waiter: &mut W,
        cx: &mut C,
    ) -> Result<Result<(), TrySendError<T>>, NoMemory<T>>
    where
        M: Sent<T, V>,
        L: Lesson<T, V>,
        R: Wait,
        W: Waiter<C>,
        requires own { IsPassOf self.now pass.old }
        requires rule { Sends (P.holds (key_of self.now)) (number pass.old) (view pass.old) message
            M.then }
        requires lesson { Learns (P.holds (key_of self.now)) (number pass.old) (view pass.old)
            (L.fact (view pass.old)) }
        ensures own { IsPassOf self.now pass.new × IsSamePass pass.old pass.new }
        ensures sent { IfOk result (λ answer. IfOk answer
            (λ _. M.then (view pass.old) message (view pass.new))) }
        ensures refused { IfOk result (λ answer. IfErr answer
            (λ error. (message_of error ≡ message) × (view pass.new ≡ view pass.old)
            × Refuses (L.fact (view pass.old)) error)) }
        ensures reply { IfOk result (λ answer. answer ≡ try_send_answer (found pass.new).closed
            (is_channel_full (found pass.new)) message) }
        ensures step { IfOk result (λ answer. UnlessFull answer ((ticket.new ≡ None)
            × HasMade (polled_send (Some message) ticket.old) pass.new)) }
        ensures waits { IfOk result (λ answer. IfErr answer (λ error. IfFull error
            ((w : Mark) × W.waits_by cx.new (source_of self.now) w × IsSome ticket.new
            × SendWaits (Some message) ticket.old (found pass.new) w ticket.new (made pass.new)
            × (woken pass.new ≡ [])))) }
        ensures keeps { W.keeps cx.old cx.new }
        ensures memory { IfErr result
            (λ error. (error.0 ≡ message) × (view pass.new ≡ view pass.old)
            × WantsToSend (L.fact (view pass.old))) }
        ensures wanted { OnErr result (GrowsWithMessages (found pass.new)
            ⊎ (send_poll (Some message) (found pass.new).closed
            (is_channel_full (found pass.new)) ≡ Pending)) }
        ensures unpolled { OnErr result ((ticket.new ≡ ticket.old) × HasMade unchanged pass.new) }
    {
        let held = self.lock(rt, pass);
        let mut bell = Ringer::new();
        let mut waiting = Some(message);
        let core = pass.lock.value_mut(&self.mutex, &held);
        let sent = self.poll_send(core, &mut waiting, ticket, waiter, cx, &mut bell);
        self.give_back::<SentOrKept<M, L>>(pass, held, bell);
        match sent {
            Ok(Poll::Ready(Ok(()))) => Ok(Ok(())),
            Ok(Poll::Ready(Err(SendError(back)))) => Ok(Err(TrySendError::Closed(back))),
            Ok(Poll::Pending) => Ok(Err(TrySendError::Full(waiting.unwrap()))),
            Err(OutOfMemory) => Err(NoMemory(waiting.unwrap())),
        }
    }

    /// Polls a receive: `try_recv_as`, which leaves a mark in the list of receives if the channel is
    /// empty and open.
    ///
    /// It is for who keeps the receive's ticket and its waiter. A pending poll leaves a ticket, and
    /// a ready one none. If memory was refused the ticket is as it was, and its entry stays;
    /// `give_up` takes it out.
    ///
    /// ```
    /// let (channel, mut pass) = bounded_with::<u64, (), Unruled>(rt.alloc(), 1)?;
    /// let (mut ticket, mut sleeper) = (None, Sleeper::new());
    /// let polled = channel.recv_or_wait_as::<Unruled, Unruled, _, _, _>(
    ///     &rt,
    ///     &mut pass,
    ///     &mut ticket,
    ///     &mut sleeper,
    ///     &mut (),
    /// );
    /// assert_eq!(rt; polled, Ok(Poll::Pending));
    /// channel.give_up(&rt, &mut pass, Group::Receives, &mut ticket);
    /// Ticket::destroy_none(ticket);
    /// ```
    #[inline(always)]
    pub fn recv_or_wait_as<M, E, R, C, W>(
        &self,
        rt: &R,
        pass: &mut Pass<T, V>,
        ticket: &mut Option<Ticket>,
        waiter: &mut W,
        cx: &mut C,
    ) -> Result<Poll<Result<T, RecvError>>, OutOfMemory>
    where
        M: Received<T, V>,
        E: AtEnd<V>,
        R: Wait,
        W: Waiter<C>,
        requires own { IsPassOf self.now pass.old }
        requires rule { Receives (P.holds (key_of self.now)) (number pass.old) (view pass.old)
            M.then }
        requires end { Ends (P.holds (key_of self.now)) (number pass.old) (view pass.old) E.then }
        ensures own { IsPassOf self.now pass.new × IsSamePass pass.old pass.new }
        ensures received { IfOk result (λ poll. IfReady poll (λ answer. IfOk answer
            (λ message. M.then (view pass.old) message (view pass.new)))) }
        ensures end { IfOk result (λ poll. IfReady poll (λ answer. IfErr answer
            (λ _. E.then (view pass.old) (view pass.new)))) }
        ensures reply { IfOk result (λ poll. poll
            ≡ recv_poll (oldest (found pass.new)) (found pass.new).closed) }
        ensures step { OnReady result ((ticket.new ≡ None)
            × HasMade (polled_receive ticket.old) pass.new) }
        ensures empty { OnWait result ((view pass.new ≡ view pass.old)
            × LearnedOf IsEmpty (Fitted P.holds (view pass.old))) }
        ensures waits { OnWait result ((w : Mark) × W.waits_by cx.new (source_of self.now) w
            × IsSome ticket.new × RecvWaits ticket.old (found pass.new) w ticket.new (made pass.new)
            × (woken pass.new ≡ [])) }
        ensures keeps { W.keeps cx.old cx.new }
        ensures memory { OnErr result ((view pass.new ≡ view pass.old)
            × LearnedOf IsEmpty (Fitted P.holds (view pass.old))) }
        ensures wanted { OnErr result
            (recv_poll (oldest (found pass.new)) (found pass.new).closed ≡ Pending) }
        ensures unpolled { OnErr result ((ticket.new ≡ ticket.old) × HasMade unchanged pass.new) }
    {
        let held = self.lock(rt, pass);
        let mut bell = Ringer::new();
        let core = pass.lock.value_mut(&self.mutex, &held);
        let polled = self.poll_recv(core, ticket, waiter, cx, &mut bell);
        self.give_back::<ReceivedOrKept<M, E, Seen<P>>>(pass, held, bell);
        polled
    }

    /// Polls a stream, which waits in the list of streams if the channel is empty and open.
    ///
    /// It is for who keeps the stream's ticket and its waiter. A pending poll leaves a ticket, and
    /// a ready one none. If memory was refused the ticket is as it was, and its entry stays, until
    /// a receiver is given up with it.
    ///
    /// ```
    /// let (channel, mut pass) = bounded_with::<u64, (), Unruled>(rt.alloc(), 1)?;
    /// assert!(rt; channel.close_as::<Unruled, _>(&rt, &mut pass));
    /// let (mut ticket, mut sleeper) = (None, Sleeper::new());
    /// let polled = channel.next_or_wait_as::<Unruled, Unruled, _, _, _>(
    ///     &rt,
    ///     &mut pass,
    ///     &mut ticket,
    ///     &mut sleeper,
    ///     &mut (),
    /// );
    /// assert_eq!(rt; polled, Ok(Poll::Ready(None)));
    /// Ticket::destroy_none(ticket);
    /// ```
    pub fn next_or_wait_as<M, E, R, C, W>(
        &self,
        rt: &R,
        pass: &mut Pass<T, V>,
        ticket: &mut Option<Ticket>,
        waiter: &mut W,
        cx: &mut C,
    ) -> Result<Poll<Option<T>>, OutOfMemory>
    where
        M: Received<T, V>,
        E: AtEnd<V>,
        R: Wait,
        W: Waiter<C>,
        requires own { IsPassOf self.now pass.old }
        requires rule { Receives (P.holds (key_of self.now)) (number pass.old) (view pass.old)
            M.then }
        requires end { Ends (P.holds (key_of self.now)) (number pass.old) (view pass.old) E.then }
        ensures own { IsPassOf self.now pass.new × IsSamePass pass.old pass.new }
        ensures received { IfOk result (λ poll. IfReady poll (λ next. IfSome next
            (λ message. M.then (view pass.old) message (view pass.new)))) }
        ensures end { IfOk result (λ poll. IfReady poll (λ next. IfNone next
            (E.then (view pass.old) (view pass.new)))) }
        ensures reply { IfOk result (λ poll. poll
            ≡ next_poll (oldest (found pass.new)) (found pass.new).closed) }
        ensures step { OnReady result ((ticket.new ≡ None)
            × HasMade (polled_stream ticket.old) pass.new) }
        ensures empty { OnWait result ((view pass.new ≡ view pass.old)
            × LearnedOf IsEmpty (Fitted P.holds (view pass.old))) }
        ensures waits { OnWait result ((w : Mark) × W.waits_by cx.new (source_of self.now) w
            × IsSome ticket.new × NextWaits ticket.old (found pass.new) w ticket.new (made pass.new)
            × (woken pass.new ≡ [])) }
        ensures keeps { W.keeps cx.old cx.new }
        ensures memory { OnErr result ((view pass.new ≡ view pass.old)
            × LearnedOf IsEmpty (Fitted P.holds (view pass.old))) }
        ensures wanted { OnErr result
            (next_poll (oldest (found pass.new)) (found pass.new).closed ≡ Pending) }
        ensures unpolled { OnErr result ((ticket.new ≡ ticket.old) × HasMade unchanged pass.new) }
    {
        let held = self.lock(rt, pass);
        let mut bell = Ringer::new();
        let core = pass.lock.value_mut(&self.mutex, &held);
        let polled = self.poll_next(core, ticket, waiter, cx, &mut bell);
        self.give_back::<ReceivedOrKept<M, E, Seen<P>>>(pass, held, bell);
        polled
    }

    /// Polls a wait for the last receiver: it is ready if none is left, and else leaves a mark in
    /// the list of those who wait for that.
    ///
    /// It is for who keeps the ticket and the waiter of the wait. A pending poll leaves a ticket,
    /// and a ready one none. If memory was refused the ticket is as it was, and its entry stays;
    /// `give_up` takes it out.
    ///
    /// ```
    /// let (channel, mut pass) = bounded_with::<u64, (), Unruled>(rt.alloc(), 1)?;
    /// let (mut ticket, mut sleeper) = (None, Sleeper::new());
    /// let polled =
    ///     channel.closed_or_wait(&rt, &mut pass, &mut ticket, &mut sleeper, &mut ());
    /// assert_eq!(rt; polled, Ok(Poll::Pending));
    /// channel.give_up(&rt, &mut pass, Group::Closeds, &mut ticket);
    /// Ticket::destroy_none(ticket);
    /// ```
    pub fn closed_or_wait<R, C, W>(
        &self,
        rt: &R,
        pass: &mut Pass<T, V>,
        ticket: &mut Option<Ticket>,
        waiter: &mut W,
        cx: &mut C,
    ) -> Result<Poll<()>, OutOfMemory>
    where
        R: Wait,
        W: Waiter<C>,
        requires { IsPassOf self.now pass.old }
        ensures own { IsPassOf self.now pass.new × IsSamePass pass.old pass.new }
        ensures same { view pass.new ≡ view pass.old }
        ensures reply { IfOk result (λ poll. poll
            ≡ closed_poll ((found pass.new).receivers == 0)) }
        ensures step { OnReady result ((ticket.new ≡ None)
            × HasMade (closed_left ticket.old) pass.new) }
        ensures waits { OnWait result ((w : Mark) × W.waits_by cx.new (source_of self.now) w
            × IsSome ticket.new × ClosedWaits ticket.old (found pass.new) w ticket.new (made pass.new)
            × (woken pass.new ≡ [])) }
        ensures keeps { W.keeps cx.old cx.new }
        ensures memory { OnErr result
            (LearnedOf HasReceivers (Fitted P.holds (view pass.old))) }
        ensures wanted { OnErr result (0 < (found pass.new).receivers) }
        ensures unpolled { OnErr result ((ticket.new ≡ ticket.old) × HasMade unchanged pass.new) }
    {
        let held = self.lock(rt, pass);
        let core = pass.lock.value_mut(&self.mutex, &held);
        let polled = self.poll_closed(core, ticket, waiter, cx);
        self.give_back::<Kept<Seen<P>>>(pass, held, Ringer::new());
        polled
    }

    /// Who waits in the group's list waits no more. A notice that a send or a receive had goes on to
    /// the next one.
    ///
    /// ```
    /// let (channel, mut pass) = bounded_with::<u64, (), Unruled>(rt.alloc(), 1)?;
    /// let mut ticket = None;
    /// channel.give_up(&rt, &mut pass, Group::Sends, &mut ticket);
    /// Ticket::destroy_none(ticket);
    /// ```
    pub fn give_up<R: Wait>(
        &self,
        rt: &R,
        pass: &mut Pass<T, V>,
        group: Group,
        ticket: &mut Option<Ticket>,
    )
        requires { IsPassOf self.now pass.old }
        ensures own { IsPassOf self.now pass.new × IsSamePass pass.old pass.new }
        ensures same { view pass.new ≡ view pass.old }
        ensures ticket { ticket.new ≡ None }
        ensures step { HasMade (given_up group ticket.old) pass.new }
    {
        let held = self.lock(rt, pass);
        let mut bell = Ringer::new();
        let core = pass.lock.value_mut(&self.mutex, &held);
        let _left = core.withdraw(group, ticket, &mut bell);
        self.give_back::<Kept<Unruled>>(pass, held, bell);
    }
}
