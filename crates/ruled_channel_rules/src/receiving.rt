//! Receives as futures, which own their receiver and give it back.
ghost use Rattle.std.specs.Prelude.{◌≡◌, IfSome, IfNone, OnErr};
ghost use Rattle.futures.specs.Task.{Covers, Keeps};
ghost use Rattle.futures.specs.Poll.{IfReady, OnPending};
ghost use Rattle.ruled_channel.specs.Steps.{receive_given_up};
ghost use Rattle.ruled_channel_rules.specs.Handles.{IsReceiverOf};
ghost use Rattle.ruled_channel_rules.specs.Receiving.{HasMade, IsAsItWas, TellsReceived};

use crate::handles::{Channel, Receiver};
use crate::log::{Log, Whole};
use crate::sending::BUDGET;
use futures::future::Future;
use futures::ready;
use futures::task::{Context, Poll};
use ruled_channel::{OutOfMemory, RecvError};
use std::snapshot::Snapshot;
use std::sync::Wait;

/// A receive that owns its receiver, and gives it back with its answer.
///
/// Dropping it takes no message, and its receiver is dropped with it. `give_up` keeps it.
///
/// ```
/// let (channel, mut hub) = bounded(rt.alloc(), 1)?;
/// let mut receive: Recv<'_, '_, u64, _> = hub.receiver(&channel).recv(&rt, &channel);
/// drop(receive.give_up());
/// ```
#[derive(Drop)]
pub struct Recv<'r, 'c, T: Drop, R: Wait> {
    channel: &'c Channel<T>,
    // None, once a poll was ready.
    inner: Option<ruled_channel::RecvAs<'r, 'c, T, Log<T>, Whole, Whole, Whole, R>>,
    // What it began with.
    receiver: Snapshot<Receiver<T>>,
}

impl<T: Drop> Receiver<T> {
    ghost use Rattle.ruled_channel_rules.specs.Recv.{MayPoll, channel_of, receiver_of};

    /// Takes the oldest message, in a task, which sleeps while there is none.
    ///
    /// It gives the receiver, and with it a message, [`RecvError`] if the channel is closed and
    /// empty, or [`OutOfMemory`] if memory was refused.
    ///
    /// ```
    /// let (channel, mut hub) = bounded(rt.alloc(), 4)?;
    /// let mut sender = hub.sender(&channel);
    /// assert_eq!(rt; sender.send_blocking(&rt, &channel, 1)?, Ok(()));
    /// let receive = hub.receiver(&channel).recv(&rt, &channel);
    /// let (receiver, got) = block_on(&rt, receive)?;
    /// assert_eq!(rt; got, Ok(Ok(1)));
    /// drop(receiver);
    /// ```
    pub fn recv<'r, 'c, R: Wait>(self, rt: &'r R, channel: &'c Channel<T>) -> Recv<'r, 'c, T, R>
        requires own { IsReceiverOf channel.now self }
        ensures may { MayPoll result }
        ensures of { (channel_of result ≡ channel.now) × (receiver_of result ≡ self) }
    {
        let receiver = Snapshot::of(&self);
        let Receiver { pass } = self;
        Recv {
            channel,
            inner: Some(channel.ruled.recv_as::<Whole, Whole, R>(rt, pass)),
            receiver,
        }
    }
}

impl<T: Drop, R: Wait> Future for Recv<'_, '_, T, R> {
    ghost use Rattle.ruled_channel_rules.specs.Recv.{HasWaited, MayPoll, channel_of, receiver_of, ticket_of, waits_at};

    type Output = (Receiver<T>, Result<Result<T, RecvError>, OutOfMemory>);

    ghost can_poll = { λ f. MayPoll f };

    ghost needs = { λ f. waits_at f };

    ghost gives = { λ f. TellsReceived (channel_of f) (receiver_of f) };

    fn poll(&mut self, cx: &mut Context<'_>) -> Poll<Self::Output>
        requires { MayPoll self.old }
        ensures value { IfReady result
            (TellsReceived (channel_of self.old) (receiver_of self.old)) }
        ensures again { OnPending result (MayPoll self.new) }
        ensures same { OnPending result ((x : _)
            → TellsReceived (channel_of self.new) (receiver_of self.new) x
            → TellsReceived (channel_of self.old) (receiver_of self.old) x) }
        ensures registered { OnPending result (Covers cx.new (waits_at self.new)) }
        ensures waits { OnPending result (HasWaited (ticket_of self.old) self.new) }
        ensures given_up { IfReady result (λ out. OnErr out.1
            (HasMade (receive_given_up (ticket_of self.old)) out.0)) }
        ensures stays { (channel_of self.new ≡ channel_of self.old)
            × (receiver_of self.new ≡ receiver_of self.old) }
        ensures kept { Keeps cx.old cx.new }
    {
        let Some(mut inner) = self.inner.take() else {
            unreachable!()
        };
        match inner.poll(cx) {
            Poll::Ready((pass, got)) => Poll::Ready((Receiver { pass }, got)),
            Poll::Pending => {
                self.inner = Some(inner);
                Poll::Pending
            }
        }
    }
}

impl<T: Drop, R: Wait> Recv<'_, '_, T, R> {
    ghost use Rattle.ruled_channel_rules.specs.Recv.{MayPoll, channel_of, receiver_of};

    /// Gives up a receive that was not ready yet: its receiver, which is as it was.
    ///
    /// ```
    /// let (channel, mut hub) = bounded(rt.alloc(), 4)?;
    /// let mut sender = hub.sender(&channel);
    /// let mut receive = hub.receiver(&channel).recv(&rt, &channel);
    /// let mut receiver = receive.give_up();
    /// assert_eq!(rt; sender.send_blocking(&rt, &channel, 1)?, Ok(()));
    /// assert_eq!(rt; receiver.recv_blocking(&rt, &channel)?, Ok(1));
    /// ```
    pub fn give_up(&mut self) -> Receiver<T>
        requires may { MayPoll self.old }
        ensures own { IsReceiverOf (channel_of self.old) result }
        ensures same { IsAsItWas (receiver_of self.old) result }
    {
        let Some(inner) = self.inner.take() else {
            unreachable!()
        };
        let Some(pass) = inner.into_pass() else {
            unreachable!()
        };
        Receiver { pass }
    }
}

/// A receive of all messages, that owns its receiver and gives it back with them.
///
/// Dropping it takes no more, and its receiver is dropped with it. `give_up` keeps it.
///
/// ```
/// let (channel, mut hub) = bounded(rt.alloc(), 4)?;
/// let receiver = hub.receiver(&channel);
/// let list = Vec::new(rt.alloc());
/// let mut collect: Collect<'_, '_, u64, _> = receiver.collect(&rt, &channel, list);
/// assert!(rt; collect.give_up().1.is_empty());
/// ```
#[derive(Drop)]
pub struct Collect<'r, 'c, T: Drop, R: Wait> {
    rt: &'r R,
    channel: &'c Channel<T>,
    // None, once a poll was ready.
    parts: Option<(Recv<'r, 'c, T, R>, Vec<T>)>,
    // What it began with.
    receiver: Snapshot<Receiver<T>>,
    list: Snapshot<Vec<T>>,
}

impl<T: Drop> Receiver<T> {
    ghost use Rattle.ruled_channel_rules.specs.Collect.{MayPoll, channel_of, list_of, receiver_of};

    /// Receives messages, in a task, as `recv_all` does: until the channel is closed and empty, or
    /// memory is refused, and then it closes the channel. It gives the receiver, and the list with
    /// all that came.
    ///
    /// ```
    /// let (channel, mut hub) = bounded(rt.alloc(), 4)?;
    /// let mut sender = hub.sender(&channel);
    /// assert_eq!(rt; sender.send_blocking(&rt, &channel, 1)?, Ok(()));
    /// sender.close(&rt, &channel);
    /// let collect = hub.receiver(&channel).collect(&rt, &channel, Vec::new(rt.alloc()));
    /// let (receiver, all, received) = block_on(&rt, collect)?;
    /// assert_eq!(rt; received, Ok(()));
    /// assert_eq!(rt; all.as_slice(), [1].as_slice());
    /// drop(receiver);
    /// ```
    pub fn collect<'r, 'c, R: Wait>(
        self,
        rt: &'r R,
        channel: &'c Channel<T>,
        list: Vec<T>,
    ) -> Collect<'r, 'c, T, R>
        requires own { IsReceiverOf channel.now self }
        ensures may { MayPoll result }
        ensures of { (channel_of result ≡ channel.now) × (receiver_of result ≡ self)
            × (list_of result ≡ list) }
    {
        let receiver = Snapshot::of(&self);
        let first = Snapshot::of(&list);
        Collect {
            rt,
            channel,
            parts: Some((self.recv(rt, channel), list)),
            receiver,
            list: first,
        }
    }
}

/// The receiver, the list with what came, and whether memory was refused.
type Collected<T> = (Receiver<T>, Vec<T>, Result<(), OutOfMemory>);

impl<T: Drop, R: Wait> Future for Collect<'_, '_, T, R> {
    ghost use Rattle.ruled_channel_rules.specs.Collecting.{TellsCollected};
    ghost use Rattle.ruled_channel_rules.specs.Collect.{MayPoll, channel_of, list_of, receiver_of, waits_at};

    type Output = Collected<T>;

    ghost can_poll = { λ f. MayPoll f };

    ghost needs = { λ f. waits_at f };

    ghost gives = { λ f. TellsCollected (channel_of f) (receiver_of f) (list_of f).items };

    fn poll(&mut self, cx: &mut Context<'_>) -> Poll<Self::Output> {
        for _ in 0..BUDGET {
            if let Some(answer) = ready!(self.advance(cx)) {
                return Poll::Ready(answer);
            }
        }
        cx.yield_now()
    }
}

impl<T: Drop, R: Wait> Collect<'_, '_, T, R> {
    ghost use Rattle.ruled_channel_rules.specs.Collecting.{TellsCollected, HasGot};
    ghost use Rattle.ruled_channel_rules.specs.Collect.{HasWaited, MayPoll, channel_of, list_of, receiver_of, ticket_of, waits_at};

    /// Gives it up before it was ready: its receiver, and the list with what came.
    ///
    /// ```
    /// let (channel, mut hub) = bounded(rt.alloc(), 4)?;
    /// let list: Vec<u64> = Vec::new(rt.alloc());
    /// let mut collect = hub.receiver(&channel).collect(&rt, &channel, list);
    /// let (receiver, messages) = collect.give_up();
    /// assert!(rt; messages.is_empty());
    /// drop(receiver);
    /// ```
    pub fn give_up(&mut self) -> (Receiver<T>, Vec<T>)
        requires may { MayPoll self.old }
        ensures { HasGot (channel_of self.old) (receiver_of self.old) (list_of self.old).items
            result.0 result.1.items }
    {
        let Some((mut receive, all)) = self.parts.take() else {
            unreachable!()
        };
        (receive.give_up(), all)
    }

    // Polls the receive that waits, and begins the next one after a message.
    #[tactic(auto, using(crate::proofs::Lists::one_got))]
    fn advance(&mut self, cx: &mut Context<'_>) -> Poll<Option<Collected<T>>>
        requires { MayPoll self.old }
        ensures done { IfReady result (λ done. IfSome done (TellsCollected (channel_of self.old)
            (receiver_of self.old) (list_of self.old).items)) }
        ensures goes_on { IfReady result (λ done. IfNone done (MayPoll self.new)) }
        ensures again { OnPending result (MayPoll self.new) }
        ensures registered { OnPending result (Covers cx.new (waits_at self.new)) }
        ensures waits { OnPending result (HasWaited (ticket_of self.old) self.new) }
        ensures stays { (channel_of self.new ≡ channel_of self.old)
            × (receiver_of self.new ≡ receiver_of self.old)
            × (list_of self.new ≡ list_of self.old) }
        ensures kept { Keeps cx.old cx.new }
    {
        let Some((mut receive, mut all)) = self.parts.take() else {
            unreachable!()
        };
        if all.reserve(1).is_err() {
            let receiver = receive.give_up();
            return Poll::Ready(Some(self.refuse(receiver, all)));
        }
        let Poll::Ready((receiver, got)) = receive.poll(cx) else {
            self.parts = Some((receive, all));
            return Poll::Pending;
        };
        match got {
            Ok(Ok(message)) => {
                all.push_reserved(message);
                self.parts = Some((receiver.recv(self.rt, self.channel), all));
                Poll::Ready(None)
            }
            Ok(Err(_)) => Poll::Ready(Some((receiver, all, Ok(())))),
            Err(_) => Poll::Ready(Some(self.refuse(receiver, all))),
        }
    }

    // Memory was refused: nobody is to wait to send.
    fn refuse(&self, mut receiver: Receiver<T>, all: Vec<T>) -> Collected<T>
        requires { HasGot (channel_of self.now) (receiver_of self.now) (list_of self.now).items
            receiver all.items }
        ensures { TellsCollected (channel_of self.now) (receiver_of self.now)
            (list_of self.now).items result }
    {
        receiver.close(self.rt, self.channel);
        (receiver, all, Err(OutOfMemory))
    }
}
