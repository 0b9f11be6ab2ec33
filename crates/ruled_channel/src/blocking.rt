//! Calls that wait for others, and block their thread.
//!
//! A blocking call looks a few times, and pauses in between. Who can't go on then leaves its mark in
//! the core's list, under the lock, and sleeps until just this mark is rung.
ghost use Rattle.std.specs.Prelude.{◌≡◌, IfOk, IfErr, OnErr};
ghost use Rattle.ruled_channel.specs.State.{IsClosed, IsEmpty};
ghost use Rattle.ruled_channel.specs.Rule.{Sends, Receives, Ends, Learns, Fitted};
ghost use Rattle.ruled_channel.specs.Passes.{IsPassOf, IsSamePass, LearnedOf, WantsToSend, key_of, number, view};
ghost use Rattle.ruled_channel.specs.Steps.{HasMadeWith, HasReceived, HasSent, receive_given_up, send_given_up};

use crate::channel::RuledChannel;
use crate::mark::Sleeper;
use crate::outcomes::{AtEnd, Lesson, Received, Seen, Sent};
use crate::pass::Pass;
use crate::protocol::Protocol;
use channel_core::{
    Group, NoMemory, OutOfMemory, RecvError, SendError, Ticket, TryRecvError, TrySendError,
};
use futures::task::Poll;
use std::hint;
use std::sync::Wait;

// How often a blocking call looks at the channel before its thread sleeps.
//
// It pauses between two looks, and doesn't yield: if all processors are busy, whoever yields may get
// no turn for milliseconds. In a trial, eight threads kept four processors busy beside one producer
// and one consumer at 128 places: a message took 38 microseconds with yields, and 0.5 with pauses.
// Alone on the machine, both took 0.07.
const LOOKS: u32 = 10;

// How many of the processor's pauses are between two looks at the channel. Each look takes the lock,
// so others can go on meanwhile.
const PAUSES: u32 = 80;

// Lets some time go by between two looks at the channel.
fn pause_between_looks() {
    for _ in 0..PAUSES {
        hint::spin_loop();
    }
}

impl<T: Drop, V, P: Protocol<T, V>> RuledChannel<T, V, P> {
    /// Puts a message last, and blocks its thread while the channel is full. A closed channel hands
    /// it back. The outer error, with the message, says that memory was refused: to an unbounded
    /// channel, or when the call began to wait at a full one.
    ///
    /// ```
    /// let (channel, mut pass) = bounded_with::<u64, (), Unruled>(rt.alloc(), 1)?;
    /// let sent = channel.send_blocking_as::<Unruled, Unruled, _>(&rt, &mut pass, 5)?;
    /// assert_eq!(rt; sent, Ok(()));
    /// let got = channel.recv_blocking_as::<Unruled, Unruled, _>(&rt, &mut pass)?;
    /// assert_eq!(rt; got, Ok(5));
    /// ```
    #[tactic(auto, using(crate::proofs::Same::sends_same, crate::proofs::Same::learns_same, crate::proofs::Made::has_sent, crate::proofs::Made::has_sent_at_once, crate::proofs::Made::is_turned_back, crate::proofs::Made::is_turned_back_at_once, crate::proofs::Made::leaves_sends))]
    pub fn send_blocking_as<M: Sent<T, V>, L: Lesson<T, V>, R: Wait>(
        &self,
        rt: &R,
        pass: &mut Pass<T, V>,
        message: T,
    ) -> Result<Result<(), SendError<T>>, NoMemory<T>>
        requires own { IsPassOf self.now pass.old }
        requires rule { Sends (P.holds (key_of self.now)) (number pass.old) (view pass.old) message
            M.then }
        requires lesson { Learns (P.holds (key_of self.now)) (number pass.old) (view pass.old)
            (L.fact (view pass.old)) }
        ensures own { IsPassOf self.now pass.new × IsSamePass pass.old pass.new }
        ensures sent { IfOk result (λ answer. IfOk answer
            (λ _. M.then (view pass.old) message (view pass.new))) }
        ensures refused { IfOk result (λ answer. IfErr answer
            (λ error. (error.0 ≡ message) × (view pass.new ≡ view pass.old)
            × LearnedOf IsClosed (L.fact (view pass.old)))) }
        ensures memory { IfErr result
            (λ error. (error.0 ≡ message) × (view pass.new ≡ view pass.old)
            × WantsToSend (L.fact (view pass.old))) }
        ensures step { IfOk result (λ answer. HasSent message answer pass.new) }
        ensures given_up { OnErr result (HasMadeWith send_given_up pass.new) }
    {
        let mut waiting = message;
        for _look in 0..LOOKS {
            match self.try_send_as::<M, L, R>(rt, pass, waiting)? {
                Ok(()) => return Ok(Ok(())),
                Err(TrySendError::Closed(back)) => return Ok(Err(SendError(back))),
                Err(TrySendError::Full(back)) => waiting = back,
            }
            pause_between_looks();
        }
        let (mut ticket, mut sleeper) = (None, Sleeper::new());
        for _turn in rt.forever() {
            let (t, waiter, cx) = (&mut ticket, &mut sleeper, &mut ());
            let polled = self.send_or_wait_as::<M, L, R, _, _>(rt, pass, waiting, t, waiter, cx);
            let sent = match polled {
                Ok(Ok(())) => Ok(Ok(())),
                Ok(Err(TrySendError::Closed(back))) => Ok(Err(SendError(back))),
                Ok(Err(TrySendError::Full(back))) => {
                    waiting = back;
                    sleeper.sleep(rt);
                    continue;
                }
                Err(refused) => {
                    self.give_up(rt, pass, Group::Sends, &mut ticket);
                    Err(refused)
                }
            };
            Ticket::destroy_none(ticket);
            return sent;
        }
        unreachable!()
    }

    /// Takes the oldest message, and blocks its thread while the channel is empty and open. The
    /// outer error says that memory was refused when the call began to wait.
    ///
    /// ```
    /// let (channel, mut pass) = bounded_with::<u64, (), Unruled>(rt.alloc(), 1)?;
    /// assert!(rt; channel.close_as::<Unruled, _>(&rt, &mut pass));
    /// let end = channel.recv_blocking_as::<Unruled, Unruled, _>(&rt, &mut pass)?;
    /// assert_eq!(rt; end, Err(RecvError));
    /// ```
    #[tactic(auto, using(crate::proofs::Same::receives_same, crate::proofs::Same::ends_same, crate::proofs::Made::has_received, crate::proofs::Made::has_ended))]
    pub fn recv_blocking_as<M: Received<T, V>, E: AtEnd<V>, R: Wait>(
        &self,
        rt: &R,
        pass: &mut Pass<T, V>,
    ) -> Result<Result<T, RecvError>, OutOfMemory>
        requires own { IsPassOf self.now pass.old }
        requires rule { Receives (P.holds (key_of self.now)) (number pass.old) (view pass.old)
            M.then }
        requires end { Ends (P.holds (key_of self.now)) (number pass.old) (view pass.old) E.then }
        ensures own { IsPassOf self.now pass.new × IsSamePass pass.old pass.new }
        ensures received { IfOk result (λ answer. IfOk answer
            (λ message. M.then (view pass.old) message (view pass.new))) }
        ensures end { IfOk result (λ answer. IfErr answer
            (λ _. E.then (view pass.old) (view pass.new))) }
        ensures memory { OnErr result ((view pass.new ≡ view pass.old)
            × LearnedOf IsEmpty (Fitted P.holds (view pass.old))) }
        ensures step { IfOk result (λ answer. HasReceived answer pass.new) }
        ensures given_up { OnErr result (HasMadeWith receive_given_up pass.new) }
    {
        for _look in 0..LOOKS {
            match self.try_recv_as::<M, E, Seen<P>, R>(rt, pass) {
                Ok(message) => return Ok(Ok(message)),
                Err(TryRecvError::Closed) => return Ok(Err(RecvError)),
                Err(TryRecvError::Empty) => pause_between_looks(),
            }
        }
        let (mut ticket, mut sleeper) = (None, Sleeper::new());
        for _turn in rt.forever() {
            let (t, waiter, cx) = (&mut ticket, &mut sleeper, &mut ());
            let polled = self.recv_or_wait_as::<M, E, R, _, _>(rt, pass, t, waiter, cx);
            let received = match polled {
                Ok(Poll::Ready(answer)) => Ok(answer),
                Ok(Poll::Pending) => {
                    sleeper.sleep(rt);
                    continue;
                }
                Err(OutOfMemory) => {
                    self.give_up(rt, pass, Group::Receives, &mut ticket);
                    Err(OutOfMemory)
                }
            };
            Ticket::destroy_none(ticket);
            return received;
        }
        unreachable!()
    }
}
