//! A receive as a future.
ghost use Rattle.std.specs.Prelude.{◌≡◌, [], IfSome, IsSome, OnErr, OnOk, Some, None};
ghost use Rattle.std.specs.Option.{ForSome};
ghost use Rattle.futures.specs.Task.{Covers, Keeps};
ghost use Rattle.futures.specs.Poll.{IfReady, OnPending};
ghost use Rattle.channel_core.specs.Channel.{RecvWaits, polled_receive};
ghost use Rattle.ruled_channel.specs.declared.mark.Mark.{Mark};
ghost use Rattle.ruled_channel.specs.State.{IsEmpty};
ghost use Rattle.ruled_channel.specs.Rule.{Receives, Ends, Fitted};
ghost use Rattle.ruled_channel.specs.Passes.{IsPassOf, LearnedOf, key_of, number, source_of, view};
ghost use Rattle.ruled_channel.specs.Steps.{HasMade, found, made, receive_given_up, woken};
ghost use Rattle.ruled_channel.specs.Receiving.{MayPoll, Gives, IsBack};

use crate::channel::RuledChannel;
use crate::mark::Marker;
use crate::outcomes::{AtEnd, Received};
use crate::pass::Pass;
use crate::protocol::Protocol;
use channel_core::{Group, OutOfMemory, RecvError, Ticket};
use futures::future::Future;
use futures::task::{Context, Poll};
use std::marker::PhantomData;
use std::sync::Wait;

/// A receive that owns its pass, and gives it back with its answer.
///
/// While it waits, its entry is in the channel's list. Dropping it takes the entry out, and a
/// notice that it had goes on to the next one; the pass is dropped with it. `into_pass` does the
/// same, and keeps the pass.
///
/// ```
/// let (channel, pass) = bounded_with::<u64, (), Unruled>(rt.alloc(), 1)?;
/// let receive: RecvAs<'_, '_, _, _, _, _, _, _> =
///     channel.recv_as::<Unruled, Unruled, _>(&rt, pass);
/// assert!(rt; receive.into_pass().is_some());
/// ```
pub struct RecvAs<'r, 'c, T: Drop, V, P: Protocol<T, V>, M, E, R: Wait> {
    rt: &'r R,
    channel: &'c RuledChannel<T, V, P>,
    // None, once a poll was ready.
    pass: Option<Pass<T, V>>,
    ticket: Option<Ticket>,
    marker: Marker,
    tells: PhantomData<(M, E)>,
    ghost owns: { ForSome pass (λ p. IsPassOf channel.now p) },
    // Only who has its pass may wait.
    ghost rests: { pass ≡ None → ticket ≡ None },
}

impl<T: Drop, V, P: Protocol<T, V>> RuledChannel<T, V, P> {
    ghost use Rattle.ruled_channel.specs.RecvAs.{channel_of, pass_of};

    /// Receives a message, in a task, which sleeps while the channel is empty and open. The step of
    /// the rule is made by the poll that is ready.
    ///
    /// It gives the pass, and with it a message, [`RecvError`] if the channel is closed and empty,
    /// or [`OutOfMemory`] if memory was refused when it began to wait: then it waits no more.
    ///
    /// ```
    /// let (channel, mut pass) = bounded_with::<u64, (), Unruled>(rt.alloc(), 1)?;
    /// let sent = channel.try_send_as::<Unruled, Unruled, _>(&rt, &mut pass, 5)?;
    /// assert_eq!(rt; sent, Ok(()));
    /// let (_, got) = block_on(&rt, channel.recv_as::<Unruled, Unruled, _>(&rt, pass))?;
    /// assert_eq!(rt; got, Ok(Ok(5)));
    /// ```
    pub fn recv_as<'r, 'c, M: Received<T, V>, E: AtEnd<V>, R: Wait>(
        &'c self,
        rt: &'r R,
        pass: Pass<T, V>,
    ) -> RecvAs<'r, 'c, T, V, P, M, E, R>
        requires own { IsPassOf self.now pass }
        requires rule { Receives (P.holds (key_of self.now)) (number pass) (view pass) M.then }
        requires end { Ends (P.holds (key_of self.now)) (number pass) (view pass) E.then }
        ensures { MayPoll P.holds M.then E.then (channel_of result) (pass_of result)
            × (pass_of result ≡ Some pass) × (channel_of result ≡ self.now) }
    {
        RecvAs {
            rt,
            channel: self,
            pass: Some(pass),
            ticket: None,
            marker: Marker::new(),
            tells: PhantomData,
        }
    }
}

impl<T: Drop, V, P: Protocol<T, V>, M: Received<T, V>, E: AtEnd<V>, R: Wait> Future
    for RecvAs<'_, '_, T, V, P, M, E, R> {
    ghost use Rattle.ruled_channel.specs.RecvAs.{channel_of, pass_of, ticket_of};

    type Output = (Pass<T, V>, Result<Result<T, RecvError>, OutOfMemory>);

    ghost can_poll = { λ f. MayPoll P.holds M.then E.then (channel_of f) (pass_of f) };

    ghost needs = { λ f source. source ≡ source_of (channel_of f) };

    ghost gives = { λ f. Gives P.holds M.then E.then (channel_of f) (pass_of f) };

    #[tactic(auto, using(crate::proofs::Made::has_received_polled))]
    fn poll(&mut self, cx: &mut Context<'_>) -> Poll<Self::Output>
        requires { MayPoll P.holds M.then E.then (channel_of self.old) (pass_of self.old) }
        ensures empty { OnPending result (IfSome (pass_of self.old)
            (λ p. LearnedOf IsEmpty (Fitted P.holds (view p)))) }
        ensures value { IfReady result
            (Gives P.holds M.then E.then (channel_of self.old) (pass_of self.old)) }
        ensures step { IfReady result
            (λ out. OnOk out.1 (HasMade (polled_receive (ticket_of self.old)) out.0)) }
        ensures given_up { IfReady result
            (λ out. OnErr out.1 (HasMade (receive_given_up (ticket_of self.old)) out.0)) }
        ensures waits { OnPending result (IfSome (pass_of self.new) (λ p. (w : Mark)
            × RecvWaits (ticket_of self.old) (found p) w (ticket_of self.new) (made p)
            × (woken p ≡ []))) }
        ensures again { OnPending result
            (MayPoll P.holds M.then E.then (channel_of self.new) (pass_of self.new)) }
        ensures same { OnPending result ((x : _)
            → Gives P.holds M.then E.then (channel_of self.new) (pass_of self.new) x
            → Gives P.holds M.then E.then (channel_of self.old) (pass_of self.old) x) }
        ensures stays { OnPending result ((channel_of self.new ≡ channel_of self.old)
            × IsBack (channel_of self.old) (pass_of self.old) (pass_of self.new)) }
        ensures registered { OnPending result
            (Covers cx.new (λ source. source ≡ source_of (channel_of self.new))) }
        ensures holds { OnPending result (IsSome (ticket_of self.new)) }
        ensures gone { IfReady result (λ _. ticket_of self.new ≡ None) }
        ensures kept { Keeps cx.old cx.new }
    {
        let Some(mut pass) = self.pass.take() else {
            unreachable!()
        };
        let (channel, ticket) = (self.channel, &mut self.ticket);
        let waiter = &mut self.marker;
        match channel.recv_or_wait_as::<M, E, R, _, _>(self.rt, &mut pass, ticket, waiter, cx) {
            Ok(Poll::Ready(answer)) => Poll::Ready((pass, Ok(answer))),
            Ok(Poll::Pending) => {
                self.pass = Some(pass);
                Poll::Pending
            }
            Err(refused) => {
                channel.give_up(self.rt, &mut pass, Group::Receives, ticket);
                Poll::Ready((pass, Err(refused)))
            }
        }
    }
}

impl<T: Drop, V, P: Protocol<T, V>, M, E, R: Wait> RecvAs<'_, '_, T, V, P, M, E, R> {
    ghost use Rattle.ruled_channel.specs.RecvAs.{channel_of, pass_of, ticket_of};

    /// Gives the receive up. It took no message, and its pass is as it was; there is none after a
    /// poll that was ready. A notice that it had goes on to the next one.
    ///
    /// ```
    /// let (channel, pass) = bounded_with::<u64, (), Unruled>(rt.alloc(), 1)?;
    /// let receive = channel.recv_as::<Unruled, Unruled, _>(&rt, pass);
    /// assert!(rt; receive.into_pass().is_some());
    /// ```
    pub fn into_pass(mut self) -> Option<Pass<T, V>>
        ensures back { IsBack (channel_of self.entry) (pass_of self.entry) result }
        ensures step { IfSome (ticket_of self.entry) (λ ticket. IfSome result
            (λ back. HasMade (receive_given_up (Some ticket)) back)) }
    {
        self.leave()
    }

    // Takes its entry out of the list, and gives its pass.
    fn leave(&mut self) -> Option<Pass<T, V>>
        ensures back { IsBack (channel_of self.old) (pass_of self.old) result }
        ensures step { IfSome (ticket_of self.old) (λ ticket. IfSome result
            (λ back. HasMade (receive_given_up (Some ticket)) back)) }
        ensures ticket { ticket_of self.new ≡ None }
    {
        let Some(mut pass) = self.pass.take() else {
            return None;
        };
        if self.ticket.is_some() {
            self.channel
                .give_up(self.rt, &mut pass, Group::Receives, &mut self.ticket);
        }
        Some(pass)
    }
}

impl<T: Drop, V, P: Protocol<T, V>, M, E, R: Wait> Drop for RecvAs<'_, '_, T, V, P, M, E, R> {
    fn drop(mut self) {
        let _pass = self.leave();
        let Self {
            rt: _,
            channel: _,
            pass: _,
            ticket,
            marker: _,
            tells: _,
        } = self;
        Ticket::destroy_none(ticket);
    }
}
