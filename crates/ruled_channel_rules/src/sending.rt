//! Sends as futures, which own their sender and give it back.
ghost use Rattle.std.specs.Prelude.{◌≡◌, true, false, IfSome, IfNone, OnErr};
ghost use Rattle.futures.specs.Task.{Covers, Keeps};
ghost use Rattle.futures.specs.Poll.{IfReady, OnPending};
ghost use Rattle.ruled_channel.specs.Steps.{send_given_up};
ghost use Rattle.ruled_channel_rules.specs.Handles.{IsSenderOf};
ghost use Rattle.ruled_channel_rules.specs.Sending.{HasMade, IsAsItWas, TellsSent};

use crate::handles::{Channel, Sender};
use crate::log::{Log, Whole};
use futures::future::Future;
use futures::ready;
use futures::task::{Context, Poll};
use ruled_channel::{NoMemory, SendError, Unruled};
use std::collections::VecDeque;
use std::mem;
use std::snapshot::Snapshot;
use std::sync::Wait;

/// What became of a message.
type SendResult<T> = Result<Result<(), SendError<T>>, NoMemory<T>>;

/// How many steps a poll makes before the task's others have a turn.
pub(crate) const BUDGET: u32 = 128;

/// A send that owns its sender and its message, and gives the sender back with its answer.
///
/// Dropping it sends nothing, and its sender is dropped with it. `give_up` keeps both.
///
/// ```
/// let (channel, mut hub) = bounded(rt.alloc(), 1)?;
/// let mut send: Send<'_, '_, u64, _> = hub.sender(&channel).send(&rt, &channel, 5);
/// assert!(rt; matches!(send.give_up(), (_, 5)));
/// ```
#[derive(Drop)]
pub struct Send<'r, 'c, T: Drop, R: Wait> {
    channel: &'c Channel<T>,
    // None, once a poll was ready.
    inner: Option<ruled_channel::SendAs<'r, 'c, T, Log<T>, Whole, Whole, Unruled, R>>,
    // What it began with.
    sender: Snapshot<Sender<T>>,
    message: Snapshot<T>,
}

impl<T: Drop> Sender<T> {
    ghost use Rattle.ruled_channel_rules.specs.Send.{MayPoll, channel_of, message_of, sender_of};

    /// Sends a message, in a task, which sleeps while the channel is full.
    ///
    /// It gives the sender, and with it the message in a [`SendError`] if the channel is closed, or
    /// in a [`NoMemory`] if memory was refused.
    ///
    /// ```
    /// let (channel, mut hub) = bounded(rt.alloc(), 4)?;
    /// let mut receiver = hub.receiver(&channel);
    /// let send = hub.sender(&channel).send(&rt, &channel, 1);
    /// let (sender, sent) = block_on(&rt, send)?;
    /// assert_eq!(rt; sent, Ok(Ok(())));
    /// assert_eq!(rt; receiver.recv_blocking(&rt, &channel)?, Ok(1));
    /// drop(sender);
    /// ```
    pub fn send<'r, 'c, R: Wait>(
        self,
        rt: &'r R,
        channel: &'c Channel<T>,
        message: T,
    ) -> Send<'r, 'c, T, R>
        requires own { IsSenderOf channel.now self }
        ensures may { MayPoll result }
        ensures of { (channel_of result ≡ channel.now) × (sender_of result ≡ self)
            × (message_of result ≡ message) }
    {
        let sender = Snapshot::of(&self);
        let first = Snapshot::of(&message);
        let Sender { pass } = self;
        let ruled = &channel.ruled;
        Send {
            channel,
            inner: Some(ruled.send_as::<Whole, Unruled, R>(rt, pass, message)),
            sender,
            message: first,
        }
    }
}

impl<T: Drop, R: Wait> Future for Send<'_, '_, T, R> {
    ghost use Rattle.ruled_channel_rules.specs.Send.{HasWaited, MayPoll, channel_of, message_of, sender_of, ticket_of, waits_at};

    type Output = (Sender<T>, SendResult<T>);

    ghost can_poll = { λ f. MayPoll f };

    ghost needs = { λ f. waits_at f };

    ghost gives = { λ f. TellsSent (channel_of f) (sender_of f) (message_of f) };

    fn poll(&mut self, cx: &mut Context<'_>) -> Poll<Self::Output>
        requires { MayPoll self.old }
        ensures value { IfReady result
            (TellsSent (channel_of self.old) (sender_of self.old) (message_of self.old)) }
        ensures again { OnPending result (MayPoll self.new) }
        ensures same { OnPending result ((x : _)
            → TellsSent (channel_of self.new) (sender_of self.new) (message_of self.new) x
            → TellsSent (channel_of self.old) (sender_of self.old) (message_of self.old) x) }
        ensures registered { OnPending result (Covers cx.new (waits_at self.new)) }
        ensures waits { OnPending result (HasWaited (ticket_of self.old) self.new) }
        ensures given_up { IfReady result (λ out. OnErr out.1
            (HasMade (send_given_up (ticket_of self.old)) out.0)) }
        ensures stays { (channel_of self.new ≡ channel_of self.old)
            × (sender_of self.new ≡ sender_of self.old)
            × (message_of self.new ≡ message_of self.old) }
        ensures kept { Keeps cx.old cx.new }
    {
        let Some(mut inner) = self.inner.take() else {
            unreachable!()
        };
        match inner.poll(cx) {
            Poll::Ready((pass, sent)) => Poll::Ready((Sender { pass }, sent)),
            Poll::Pending => {
                self.inner = Some(inner);
                Poll::Pending
            }
        }
    }
}

impl<T: Drop, R: Wait> Send<'_, '_, T, R> {
    ghost use Rattle.ruled_channel_rules.specs.Send.{MayPoll, channel_of, message_of, sender_of};

    /// Gives up a send that was not ready yet: its sender, which is as it was, and its message.
    ///
    /// ```
    /// let (channel, mut hub) = bounded(rt.alloc(), 1)?;
    /// let mut send = hub.sender(&channel).send(&rt, &channel, 5);
    /// let (sender, message) = send.give_up();
    /// assert_eq!(rt; message, 5);
    /// drop(sender);
    /// ```
    pub fn give_up(&mut self) -> (Sender<T>, T)
        requires may { MayPoll self.old }
        ensures own { IsSenderOf (channel_of self.old) result.0 }
        ensures same { IsAsItWas (sender_of self.old) result.0 }
        ensures message { result.1 ≡ message_of self.old }
    {
        let Some(inner) = self.inner.take() else {
            unreachable!()
        };
        let Some((pass, message)) = inner.into_parts() else {
            unreachable!()
        };
        (Sender { pass }, message)
    }
}

/// A send of several messages, one after another, that owns its sender and its messages, and gives
/// back the sender, and what was not sent.
///
/// Dropping it sends no more, and its sender and its messages are dropped with it. `give_up` keeps
/// them.
///
/// ```
/// let (channel, mut hub) = bounded(rt.alloc(), 4)?;
/// let sender: Sender<u64> = hub.sender(&channel);
/// let messages = VecDeque::from(vec![in rt.alloc(); 1, 2]?);
/// let mut send: SendEach<'_, '_, _, _> = sender.send_each(&rt, &channel, messages);
/// let (sender, waits, rest) = send.give_up();
/// assert_eq!(rt; (waits, rest.len()), (None, 2));
/// drop(sender);
/// ```
#[derive(Drop)]
pub struct SendEach<'r, 'c, T: Drop, R: Wait> {
    rt: &'r R,
    channel: &'c Channel<T>,
    closes: bool,
    turn: Turn<Sender<T>, Send<'r, 'c, T, R>, VecDeque<T>>,
    // What it began with.
    sender: Snapshot<Sender<T>>,
    messages: Snapshot<VecDeque<T>>,
}

/// What a send of several messages does next, and the messages after that.
#[derive(Drop)]
pub enum Turn<S, F, M> {
    // The sender is at hand.
    Next(S, M),
    // A message is being sent.
    Wait(F, M),
    Over,
}

/// The sender, what was not sent, and the answer of the last message.
type SendEachResult<T> = (Sender<T>, VecDeque<T>, SendResult<T>);

impl<T: Drop> Sender<T> {
    ghost use Rattle.ruled_channel_rules.specs.SendEach.{MayPoll, channel_of, closes_at_end, messages_of, sender_of};

    /// Sends messages, in a task, as `send_all` does: until one can't be sent, as the channel is
    /// closed or memory was refused. It gives the sender, the messages after that one, and the
    /// answer of the last, which has it.
    ///
    /// ```
    /// let (channel, mut hub) = bounded(rt.alloc(), 4)?;
    /// let mut receiver = hub.receiver(&channel);
    /// let messages = VecDeque::from(vec![in rt.alloc(); 1, 2]?);
    /// let send = hub.sender(&channel).send_each(&rt, &channel, messages);
    /// let (sender, rest, sent) = block_on(&rt, send)?;
    /// assert_eq!(rt; (rest.len(), sent), (0, Ok(Ok(()))));
    /// assert_eq!(rt; receiver.recv_blocking(&rt, &channel)?, Ok(1));
    /// drop(sender);
    /// ```
    pub fn send_each<'r, 'c, R: Wait>(
        self,
        rt: &'r R,
        channel: &'c Channel<T>,
        messages: VecDeque<T>,
    ) -> SendEach<'r, 'c, T, R>
        requires own { IsSenderOf channel.now self }
        ensures may { MayPoll result }
        ensures of { (channel_of result ≡ channel.now) × (sender_of result ≡ self)
            × (messages_of result ≡ messages) }
        ensures open { closes_at_end result ≡ false }
    {
        self.each(rt, channel, messages, false)
    }

    /// As `send_each`, and closes the channel when it is done.
    ///
    /// ```
    /// let (channel, mut hub) = bounded(rt.alloc(), 4)?;
    /// let mut receiver = hub.receiver(&channel);
    /// let messages = VecDeque::from(vec![in rt.alloc(); 1, 2]?);
    /// let send = hub.sender(&channel).send_each_and_close(&rt, &channel, messages);
    /// let (sender, _, sent) = block_on(&rt, send)?;
    /// assert_eq!(rt; sent, Ok(Ok(())));
    /// let mut all = Vec::new(rt.alloc());
    /// receiver.recv_all(&rt, &channel, &mut all)?;
    /// assert_eq!(rt; all.as_slice(), [1, 2].as_slice());
    /// drop(sender);
    /// ```
    pub fn send_each_and_close<'r, 'c, R: Wait>(
        self,
        rt: &'r R,
        channel: &'c Channel<T>,
        messages: VecDeque<T>,
    ) -> SendEach<'r, 'c, T, R>
        requires own { IsSenderOf channel.now self }
        ensures may { MayPoll result }
        ensures of { (channel_of result ≡ channel.now) × (sender_of result ≡ self)
            × (messages_of result ≡ messages) }
        ensures closes { closes_at_end result ≡ true }
    {
        self.each(rt, channel, messages, true)
    }

    // A send of these messages that closes the channel when it is done, or not.
    fn each<'r, 'c, R: Wait>(
        self,
        rt: &'r R,
        channel: &'c Channel<T>,
        messages: VecDeque<T>,
        closes: bool,
    ) -> SendEach<'r, 'c, T, R>
        requires own { IsSenderOf channel.now self }
        ensures may { MayPoll result }
        ensures of { (channel_of result ≡ channel.now) × (sender_of result ≡ self)
            × (messages_of result ≡ messages) }
        ensures closes { closes_at_end result ≡ closes }
    {
        let sender = Snapshot::of(&self);
        let all = Snapshot::of(&messages);
        SendEach {
            rt,
            channel,
            closes,
            turn: Turn::Next(self, messages),
            sender,
            messages: all,
        }
    }
}

impl<T: Drop, R: Wait> SendEach<'_, '_, T, R> {
    ghost use Rattle.std.specs.Prelude.{option_to_list, ◌++◌};
    ghost use Rattle.ruled_channel_rules.specs.SendingEach.{HasSentBut, TellsSentEach};
    ghost use Rattle.ruled_channel_rules.specs.SendEach.{HasWaited, MayPoll, channel_of, closes_at_end, messages_of, sender_of, ticket_of, waits_at};

    /// Gives it up before it was ready: its sender, the message that waited to be sent, if one did,
    /// and the messages after it.
    ///
    /// ```
    /// let (channel, mut hub) = bounded(rt.alloc(), 4)?;
    /// let messages = VecDeque::from(vec![in rt.alloc(); 1, 2]?);
    /// let mut send = hub.sender(&channel).send_each(&rt, &channel, messages);
    /// let (sender, waits, rest) = send.give_up();
    /// assert_eq!(rt; (waits, rest.len()), (None, 2));
    /// drop(sender);
    /// ```
    pub fn give_up(&mut self) -> (Sender<T>, Option<T>, VecDeque<T>)
        requires may { MayPoll self.old }
        ensures { HasSentBut (channel_of self.old) (sender_of self.old)
            (messages_of self.old).items (option_to_list result.1 ++ result.2.items) result.0 }
    {
        match mem::replace(&mut self.turn, Turn::Over) {
            Turn::Next(sender, rest) => (sender, None, rest),
            Turn::Wait(mut send, rest) => {
                let (sender, message) = send.give_up();
                (sender, Some(message), rest)
            }
            Turn::Over => unreachable!(),
        }
    }

    // Makes one step: begins the next send, or polls the one that waits.
    #[tactic(auto, using(crate::proofs::Lists::one_sent, crate::proofs::Lists::all_sent))]
    fn advance(&mut self, cx: &mut Context<'_>) -> Poll<Option<SendEachResult<T>>>
        requires { MayPoll self.old }
        ensures done { IfReady result (λ done. IfSome done (λ out.
            TellsSentEach (channel_of self.old) (sender_of self.old)
            (messages_of self.old).items false out)) }
        ensures goes_on { IfReady result (λ done. IfNone done (MayPoll self.new)) }
        ensures again { OnPending result (MayPoll self.new) }
        ensures registered { OnPending result (Covers cx.new (waits_at self.new)) }
        ensures waits { OnPending result (HasWaited (ticket_of self.old) self.new) }
        ensures stays { (channel_of self.new ≡ channel_of self.old)
            × (sender_of self.new ≡ sender_of self.old)
            × (messages_of self.new ≡ messages_of self.old)
            × (closes_at_end self.new ≡ closes_at_end self.old) }
        ensures kept { Keeps cx.old cx.new }
    {
        match mem::replace(&mut self.turn, Turn::Over) {
            Turn::Next(sender, mut rest) => {
                let Some(message) = rest.pop_front() else {
                    return Poll::Ready(Some((sender, rest, Ok(Ok(())))));
                };
                self.turn = Turn::Wait(sender.send(self.rt, self.channel, message), rest);
                Poll::Ready(None)
            }
            Turn::Wait(mut send, rest) => {
                let Poll::Ready((sender, sent)) = send.poll(cx) else {
                    self.turn = Turn::Wait(send, rest);
                    return Poll::Pending;
                };
                match sent {
                    Ok(Ok(())) => {
                        self.turn = Turn::Next(sender, rest);
                        Poll::Ready(None)
                    }
                    Ok(Err(refused)) => Poll::Ready(Some((sender, rest, Ok(Err(refused))))),
                    Err(refused) => Poll::Ready(Some((sender, rest, Err(refused)))),
                }
            }
            Turn::Over => unreachable!(),
        }
    }
}

impl<T: Drop, R: Wait> Future for SendEach<'_, '_, T, R> {
    ghost use Rattle.ruled_channel_rules.specs.SendingEach.{TellsSentEach};
    ghost use Rattle.ruled_channel_rules.specs.SendEach.{MayPoll, channel_of, closes_at_end, messages_of, sender_of, waits_at};

    type Output = SendEachResult<T>;

    ghost can_poll = { λ f. MayPoll f };

    ghost needs = { λ f. waits_at f };

    ghost gives = { λ f. TellsSentEach (channel_of f) (sender_of f) (messages_of f).items
        (closes_at_end f) };

    fn poll(&mut self, cx: &mut Context<'_>) -> Poll<Self::Output> {
        for _ in 0..BUDGET {
            if let Some((mut sender, rest, sent)) = ready!(self.advance(cx)) {
                if self.closes {
                    sender.close(self.rt, self.channel);
                }
                return Poll::Ready((sender, rest, sent));
            }
        }
        cx.yield_now()
    }
}
