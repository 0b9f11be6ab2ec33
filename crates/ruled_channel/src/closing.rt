//! The wait for the last receiver, as a future.
ghost use Rattle.std.specs.Prelude.{◌≡◌, [], IfSome, IsSome, Some, None};
ghost use Rattle.std.specs.Option.{ForSome};
ghost use Rattle.futures.specs.Task.{Covers, Keeps};
ghost use Rattle.futures.specs.Poll.{IfReady, OnPending};
ghost use Rattle.channel_core.specs.Channel.{ClosedWaits};
ghost use Rattle.ruled_channel.specs.declared.mark.Mark.{Mark};
ghost use Rattle.ruled_channel.specs.Passes.{IsPassOf, source_of};
ghost use Rattle.ruled_channel.specs.Receiving.{IsBack};
ghost use Rattle.ruled_channel.specs.Steps.{HasMade, closed_left, found, made, woken};
ghost use Rattle.ruled_channel.specs.Closing.{MayWait, GivesBack};

use crate::channel::RuledChannel;
use crate::mark::Marker;
use crate::pass::Pass;
use crate::protocol::Protocol;
use channel_core::{Group, OutOfMemory, Ticket};
use futures::future::Future;
use futures::task::{Context, Poll};
use std::sync::Wait;

/// A wait that owns its pass, until no receiver is left.
///
/// Dropping it takes its entry out of the channel's list, and the pass is dropped with it.
/// `into_pass` does the same, and keeps the pass.
///
/// ```
/// let (channel, pass) = bounded_with::<u64, (), Unruled>(rt.alloc(), 1)?;
/// let closed: UntilClosed<'_, '_, _, _, _, _> = channel.closed_as(&rt, pass);
/// assert!(rt; closed.into_pass().is_some());
/// ```
pub struct UntilClosed<'r, 'c, T: Drop, V, P: Protocol<T, V>, R: Wait> {
    rt: &'r R,
    channel: &'c RuledChannel<T, V, P>,
    // None, once a poll was ready.
    pass: Option<Pass<T, V>>,
    ticket: Option<Ticket>,
    marker: Marker,
    ghost owns: { ForSome pass (λ p. IsPassOf channel.now p) },
    // Only who has its pass may wait.
    ghost rests: { pass ≡ None → ticket ≡ None },
}

impl<T: Drop, V, P: Protocol<T, V>> RuledChannel<T, V, P> {
    ghost use Rattle.ruled_channel.specs.UntilClosed.{channel_of, pass_of};

    /// Waits, in a task, until all receivers were given up. A channel that is closed by hand, or by
    /// its last sender, may still have some.
    ///
    /// It gives the pass, and with it [`OutOfMemory`] if memory was refused when it began to wait.
    ///
    /// ```
    /// let (channel, mut pass) = bounded_with::<u64, (), Unruled>(rt.alloc(), 1)?;
    /// assert!(rt; channel.drop_receiver_as::<Unruled, _>(&rt, &mut pass));
    /// let (_, closed) = block_on(&rt, channel.closed_as(&rt, pass))?;
    /// assert_eq!(rt; closed, Ok(()));
    /// ```
    pub fn closed_as<'r, 'c, R: Wait>(
        &'c self,
        rt: &'r R,
        pass: Pass<T, V>,
    ) -> UntilClosed<'r, 'c, T, V, P, R>
        requires { IsPassOf self.now pass }
        ensures { MayWait (channel_of result) (pass_of result)
            × (pass_of result ≡ Some pass) × (channel_of result ≡ self.now) }
    {
        UntilClosed {
            rt,
            channel: self,
            pass: Some(pass),
            ticket: None,
            marker: Marker::new(),
        }
    }
}

impl<T: Drop, V, P: Protocol<T, V>, R: Wait> Future for UntilClosed<'_, '_, T, V, P, R> {
    ghost use Rattle.ruled_channel.specs.UntilClosed.{channel_of, pass_of, ticket_of};

    type Output = (Pass<T, V>, Result<(), OutOfMemory>);

    ghost can_poll = { λ f. MayWait (channel_of f) (pass_of f) };

    ghost needs = { λ f source. source ≡ source_of (channel_of f) };

    ghost gives = { λ f. GivesBack P.holds (channel_of f) (pass_of f) };

    #[tactic(auto, using(crate::proofs::Made::no_receiver))]
    fn poll(&mut self, cx: &mut Context<'_>) -> Poll<Self::Output>
        requires { MayWait (channel_of self.old) (pass_of self.old) }
        ensures value { IfReady result
            (GivesBack P.holds (channel_of self.old) (pass_of self.old)) }
        ensures step { IfReady result
            (λ out. HasMade (closed_left (ticket_of self.old)) out.0) }
        ensures waits { OnPending result (IfSome (pass_of self.new) (λ p. (w : Mark)
            × ClosedWaits (ticket_of self.old) (found p) w (ticket_of self.new) (made p)
            × (woken p ≡ []))) }
        ensures again { OnPending result (MayWait (channel_of self.new) (pass_of self.new)) }
        ensures same { OnPending result ((x : _)
            → GivesBack P.holds (channel_of self.new) (pass_of self.new) x
            → GivesBack P.holds (channel_of self.old) (pass_of self.old) x) }
        ensures registered { OnPending result
            (Covers cx.new (λ source. source ≡ source_of (channel_of self.new))) }
        ensures holds { OnPending result (IsSome (ticket_of self.new)) }
        ensures gone { IfReady result (λ _. ticket_of self.new ≡ None) }
        ensures kept { Keeps cx.old cx.new }
    {
        let Some(mut pass) = self.pass.take() else {
            unreachable!()
        };
        let (channel, ticket) = (self.channel, &mut self.ticket);
        match channel.closed_or_wait(self.rt, &mut pass, ticket, &mut self.marker, cx) {
            Ok(Poll::Ready(())) => Poll::Ready((pass, Ok(()))),
            Ok(Poll::Pending) => {
                self.pass = Some(pass);
                Poll::Pending
            }
            Err(refused) => {
                channel.give_up(self.rt, &mut pass, Group::Closeds, ticket);
                Poll::Ready((pass, Err(refused)))
            }
        }
    }
}

impl<T: Drop, V, P: Protocol<T, V>, R: Wait> UntilClosed<'_, '_, T, V, P, R> {
    ghost use Rattle.ruled_channel.specs.UntilClosed.{channel_of, pass_of, ticket_of};

    /// Gives the wait up. Its pass is as it was; there is none after a poll that was ready.
    ///
    /// ```
    /// let (channel, pass) = bounded_with::<u64, (), Unruled>(rt.alloc(), 1)?;
    /// let closed = channel.closed_as(&rt, pass);
    /// assert!(rt; closed.into_pass().is_some());
    /// ```
    pub fn into_pass(mut self) -> Option<Pass<T, V>>
        ensures back { IsBack (channel_of self.entry) (pass_of self.entry) result }
        ensures step { IfSome (ticket_of self.entry) (λ ticket. IfSome result
            (λ back. HasMade (closed_left (Some ticket)) back)) }
    {
        self.leave()
    }

    // Takes its entry out of the list, and gives its pass.
    fn leave(&mut self) -> Option<Pass<T, V>>
        ensures back { IsBack (channel_of self.old) (pass_of self.old) result }
        ensures step { IfSome (ticket_of self.old) (λ ticket. IfSome result
            (λ back. HasMade (closed_left (Some ticket)) back)) }
        ensures ticket { ticket_of self.new ≡ None }
    {
        let Some(mut pass) = self.pass.take() else {
            return None;
        };
        if self.ticket.is_some() {
            self.channel
                .give_up(self.rt, &mut pass, Group::Closeds, &mut self.ticket);
        }
        Some(pass)
    }
}

impl<T: Drop, V, P: Protocol<T, V>, R: Wait> Drop for UntilClosed<'_, '_, T, V, P, R> {
    fn drop(mut self) {
        let _pass = self.leave();
        let Self {
            rt: _,
            channel: _,
            pass: _,
            ticket,
            marker: _,
        } = self;
        Ticket::destroy_none(ticket);
    }
}
