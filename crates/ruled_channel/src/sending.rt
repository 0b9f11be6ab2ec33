//! A send as a future.
ghost use Rattle.std.specs.Prelude.{◌≡◌, [], IfSome, IsSome, OnErr, OnOk, Some, None};
ghost use Rattle.std.specs.Option.{ForSome};
ghost use Rattle.futures.specs.Task.{Covers, Keeps};
ghost use Rattle.futures.specs.Poll.{IfReady, OnPending};
ghost use Rattle.channel_core.specs.Channel.{SendWaits, polled_send};
ghost use Rattle.ruled_channel.specs.declared.mark.Mark.{Mark};
ghost use Rattle.ruled_channel.specs.State.{IsFull};
ghost use Rattle.ruled_channel.specs.Rule.{Sends, Learns};
ghost use Rattle.ruled_channel.specs.Passes.{IsPassOf, LearnedOf, key_of, number, source_of, view};
ghost use Rattle.ruled_channel.specs.Steps.{HasMade, found, made, send_given_up, woken};
ghost use Rattle.ruled_channel.specs.Sending.{MaySend, GivesSent, AreBack};

use crate::channel::RuledChannel;
use crate::mark::Marker;
use crate::outcomes::{Lesson, Sent};
use crate::pass::Pass;
use crate::protocol::Protocol;
use channel_core::{Group, NoMemory, SendError, Ticket, TrySendError};
use futures::future::Future;
use futures::task::{Context, Poll};
use std::marker::PhantomData;
use std::sync::Wait;

/// A send that owns its pass and its message, and gives the pass back with its answer.
///
/// While it waits, its entry is in the channel's list. Dropping it takes the entry out, and a
/// notice that it had goes on to the next one; the pass and the message are dropped with it.
/// `into_parts` does the same, and keeps both.
///
/// ```
/// let (channel, pass) = bounded_with::<u64, (), Unruled>(rt.alloc(), 1)?;
/// let send: SendAs<'_, '_, _, _, _, _, _, _> =
///     channel.send_as::<Unruled, Unruled, _>(&rt, pass, 5);
/// assert!(rt; send.into_parts().is_some());
/// ```
pub struct SendAs<'r, 'c, T: Drop, V, P: Protocol<T, V>, M, L, R: Wait> {
    rt: &'r R,
    channel: &'c RuledChannel<T, V, P>,
    // None, once a poll was ready.
    parts: Option<(Pass<T, V>, T)>,
    ticket: Option<Ticket>,
    marker: Marker,
    tells: PhantomData<(M, L)>,
    ghost owns: { ForSome parts (λ h. IsPassOf channel.now h.0) },
    // Only who has its pass may wait.
    ghost rests: { parts ≡ None → ticket ≡ None },
}

impl<T: Drop, V, P: Protocol<T, V>> RuledChannel<T, V, P> {
    ghost use Rattle.ruled_channel.specs.SendAs.{channel_of, parts_of};

    /// Puts a message last, in a task, which sleeps while the channel is full and open. The step of
    /// the rule is made by the poll that is ready.
    ///
    /// It gives the pass, and with it the message in a [`SendError`] if the channel is closed, or
    /// in a [`NoMemory`] if memory was refused: to an unbounded channel, or when it began to wait.
    /// Then it waits no more.
    ///
    /// ```
    /// let (channel, pass) = bounded_with::<u64, (), Unruled>(rt.alloc(), 1)?;
    /// let (mut pass, sent) = block_on(&rt, channel.send_as::<Unruled, Unruled, _>(&rt, pass, 5))?;
    /// assert_eq!(rt; sent, Ok(Ok(())));
    /// let got = channel.try_recv_as::<Unruled, Unruled, Unruled, _>(&rt, &mut pass);
    /// assert_eq!(rt; got, Ok(5));
    /// ```
    pub fn send_as<'r, 'c, M: Sent<T, V>, L: Lesson<T, V>, R: Wait>(
        &'c self,
        rt: &'r R,
        pass: Pass<T, V>,
        message: T,
    ) -> SendAs<'r, 'c, T, V, P, M, L, R>
        requires own { IsPassOf self.now pass }
        requires rule { Sends (P.holds (key_of self.now)) (number pass) (view pass) message M.then }
        requires lesson { Learns (P.holds (key_of self.now)) (number pass) (view pass)
            (L.fact (view pass)) }
        ensures { MaySend P.holds M.then L.fact (channel_of result) (parts_of result)
            × (parts_of result ≡ Some (pass, message)) × (channel_of result ≡ self.now) }
    {
        SendAs {
            rt,
            channel: self,
            parts: Some((pass, message)),
            ticket: None,
            marker: Marker::new(),
            tells: PhantomData,
        }
    }
}

impl<T: Drop, V, P: Protocol<T, V>, M: Sent<T, V>, L: Lesson<T, V>, R: Wait> Future
    for SendAs<'_, '_, T, V, P, M, L, R> {
    ghost use Rattle.ruled_channel.specs.SendAs.{channel_of, parts_of, ticket_of};

    type Output = (Pass<T, V>, Result<Result<(), SendError<T>>, NoMemory<T>>);

    ghost can_poll = { λ f. MaySend P.holds M.then L.fact (channel_of f) (parts_of f) };

    ghost needs = { λ f source. source ≡ source_of (channel_of f) };

    ghost gives = { λ f. GivesSent M.then L.fact (channel_of f) (parts_of f) };

    #[tactic(auto, using(crate::proofs::Made::has_sent, crate::proofs::Made::is_turned_back))]
    fn poll(&mut self, cx: &mut Context<'_>) -> Poll<Self::Output>
        requires { MaySend P.holds M.then L.fact (channel_of self.old) (parts_of self.old) }
        ensures full { OnPending result (IfSome (parts_of self.old)
            (λ h. LearnedOf IsFull (L.fact (view h.0)))) }
        ensures value { IfReady result
            (GivesSent M.then L.fact (channel_of self.old) (parts_of self.old)) }
        ensures step { IfReady result (λ out. OnOk out.1 (IfSome (parts_of self.old)
            (λ h. HasMade (polled_send (Some h.1) (ticket_of self.old)) out.0))) }
        ensures given_up { IfReady result
            (λ out. OnErr out.1 (HasMade (send_given_up (ticket_of self.old)) out.0)) }
        ensures waits { OnPending result (IfSome (parts_of self.new) (λ h. (w : Mark)
            × SendWaits (Some h.1) (ticket_of self.old) (found h.0) w (ticket_of self.new)
            (made h.0)
            × (woken h.0 ≡ []))) }
        ensures again { OnPending result
            (MaySend P.holds M.then L.fact (channel_of self.new) (parts_of self.new)) }
        ensures same { OnPending result ((x : _)
            → GivesSent M.then L.fact (channel_of self.new) (parts_of self.new) x
            → GivesSent M.then L.fact (channel_of self.old) (parts_of self.old) x) }
        ensures registered { OnPending result
            (Covers cx.new (λ source. source ≡ source_of (channel_of self.new))) }
        ensures holds { OnPending result (IsSome (ticket_of self.new)) }
        ensures gone { IfReady result (λ _. ticket_of self.new ≡ None) }
        ensures kept { Keeps cx.old cx.new }
    {
        let Some((mut pass, message)) = self.parts.take() else {
            unreachable!()
        };
        let (channel, t) = (self.channel, &mut self.ticket);
        let waiter = &mut self.marker;
        match channel.send_or_wait_as::<M, L, R, _, _>(self.rt, &mut pass, message, t, waiter, cx) {
            Ok(Ok(())) => Poll::Ready((pass, Ok(Ok(())))),
            Ok(Err(TrySendError::Closed(back))) => Poll::Ready((pass, Ok(Err(SendError(back))))),
            Ok(Err(TrySendError::Full(back))) => {
                self.parts = Some((pass, back));
                Poll::Pending
            }
            Err(refused) => {
                channel.give_up(self.rt, &mut pass, Group::Sends, t);
                Poll::Ready((pass, Err(refused)))
            }
        }
    }
}

impl<T: Drop, V, P: Protocol<T, V>, M, L, R: Wait> SendAs<'_, '_, T, V, P, M, L, R> {
    ghost use Rattle.ruled_channel.specs.SendAs.{channel_of, parts_of, ticket_of};

    /// Gives the send up. Its message was not sent, and comes back with its pass, which is as it
    /// was; there are none after a poll that was ready. A notice that it had goes on to the next
    /// one.
    ///
    /// ```
    /// let (channel, pass) = bounded_with::<u64, (), Unruled>(rt.alloc(), 1)?;
    /// let send = channel.send_as::<Unruled, Unruled, _>(&rt, pass, 5);
    /// assert!(rt; matches!(send.into_parts(), Some((_, 5))));
    /// ```
    pub fn into_parts(mut self) -> Option<(Pass<T, V>, T)>
        ensures back { AreBack (channel_of self.entry) (parts_of self.entry) result }
        ensures step { IfSome (ticket_of self.entry) (λ ticket. IfSome result
            (λ back. HasMade (send_given_up (Some ticket)) back.0)) }
    {
        self.leave()
    }

    // Takes its entry out of the list, and gives its pass and its message.
    fn leave(&mut self) -> Option<(Pass<T, V>, T)>
        ensures back { AreBack (channel_of self.old) (parts_of self.old) result }
        ensures step { IfSome (ticket_of self.old) (λ ticket. IfSome result
            (λ back. HasMade (send_given_up (Some ticket)) back.0)) }
        ensures ticket { ticket_of self.new ≡ None }
    {
        let Some((mut pass, message)) = self.parts.take() else {
            return None;
        };
        if self.ticket.is_some() {
            self.channel
                .give_up(self.rt, &mut pass, Group::Sends, &mut self.ticket);
        }
        Some((pass, message))
    }
}

impl<T: Drop, V, P: Protocol<T, V>, M, L, R: Wait> Drop for SendAs<'_, '_, T, V, P, M, L, R> {
    fn drop(mut self) {
        let _parts = self.leave();
        let Self {
            rt: _,
            channel: _,
            parts: _,
            ticket,
            marker: _,
            tells: _,
        } = self;
        Ticket::destroy_none(ticket);
    }
}
