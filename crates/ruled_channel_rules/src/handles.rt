//! The channel, and who sends and receives.
ghost use Rattle.std.specs.Prelude.{◌≡◌, ◌<◌, ◌≤◌, [], ◌∷◌, ◌++◌, length, not, true, false, Some, None, IfOk, IfErr, OnOk, OnErr};
ghost use Rattle.std.specs.Prelude.{IsPermutation};
ghost use Rattle.std.specs.List.{flat_map};
ghost use Rattle.channel_core.specs.Tables.{try_recv_answer, try_send_answer};
ghost use Rattle.channel_core.specs.Channel.{GrowsWithMessages, closing, is_channel_full, oldest, received, sent, unchanged};
ghost use Rattle.ruled_channel_rules.specs.Handles.{IsHubOf, known, capacity_of};
ghost use Rattle.ruled_channel_rules.specs.Whole.{hub_log};

use crate::log::{ForReceiver, ForSender, Log, Whole};
use ruled_channel::{
    NoMemory, OutOfMemory, Pass, RecvError, RuledChannel, SendError, TryRecvError, TrySendError,
    Unruled, bounded_with, unbounded_with,
};
use std::alloc::Global;
use std::collections::VecDeque;
use std::sync::Wait;

/// A channel. Threads share it by reference, each with a sender or a receiver of its own.
///
/// ```
/// let (channel, mut hub) = bounded(rt.alloc(), 4)?;
/// let channel: Channel<u64> = channel;
/// let mut sender = hub.sender(&channel);
/// assert_eq!(rt; sender.send_blocking(&rt, &channel, 1)?, Ok(()));
/// ```
#[derive(Drop)]
pub struct Channel<T> {
    pub(crate) ruled: RuledChannel<T, Log<T>, Whole>,
}

/// Makes the senders and the receivers of a channel, and takes them back. It has no bytes.
///
/// ```
/// let (channel, hub) = bounded(rt.alloc(), 4)?;
/// let mut hub: Hub<u64> = hub;
/// let mut sender = hub.sender(&channel);
/// assert!(rt; sender.close(&rt, &channel));
/// ```
#[derive(Drop)]
pub struct Hub<T> {
    pub(crate) pass: Pass<T, Log<T>>,
}

/// Sends messages, and knows which. It has no bytes.
///
/// ```
/// let (channel, mut hub) = bounded(rt.alloc(), 4)?;
/// let mut sender: Sender<u64> = hub.sender(&channel);
/// assert_eq!(rt; sender.send_blocking(&rt, &channel, 1)?, Ok(()));
/// ```
#[derive(Drop)]
pub struct Sender<T> {
    pub(crate) pass: Pass<T, Log<T>>,
}

/// Receives messages, and knows which. It has no bytes.
///
/// ```
/// let (channel, mut hub) = bounded(rt.alloc(), 4)?;
/// let mut sender = hub.sender(&channel);
/// let mut receiver: Receiver<u64> = hub.receiver(&channel);
/// sender.close(&rt, &channel);
/// assert_eq!(rt; receiver.recv_blocking(&rt, &channel)?, Err(RecvError));
/// ```
#[derive(Drop)]
pub struct Receiver<T> {
    pub(crate) pass: Pass<T, Log<T>>,
}

/// An open and empty channel that holds at most `cap` messages, and its hub.
///
/// ```
/// let (channel, mut hub) = bounded(rt.alloc(), 4)?;
/// let mut sender = hub.sender(&channel);
/// assert_eq!(rt; sender.send_blocking(&rt, &channel, 1)?, Ok(()));
/// ```
#[tactic(auto, using(crate::proofs::Keeps::begins))]
pub fn bounded<T: Drop>(alloc: Global, cap: usize) -> Result<(Channel<T>, Hub<T>), OutOfMemory>
    requires { 0 < cap }
    ensures own { IfOk result (λ r. IsHubOf r.0 r.1) }
    ensures new { IfOk result (λ r. known r.1 ≡ hub_log 0 0) }
    ensures capacity { IfOk result (λ r. capacity_of r.0 ≡ Some cap) }
{
    let (ruled, pass) = bounded_with(alloc, cap)?;
    Ok((Channel { ruled }, Hub { pass }))
}

/// An open and empty channel without a capacity, and its hub.
///
/// ```
/// let (channel, mut hub) = unbounded(rt.alloc())?;
/// let mut sender = hub.sender(&channel);
/// assert_eq!(rt; sender.send_blocking(&rt, &channel, 1)?, Ok(()));
/// ```
#[tactic(auto, using(crate::proofs::Keeps::begins))]
pub fn unbounded<T: Drop>(alloc: Global) -> Result<(Channel<T>, Hub<T>), OutOfMemory>
    ensures own { IfOk result (λ r. IsHubOf r.0 r.1) }
    ensures new { IfOk result (λ r. known r.1 ≡ hub_log 0 0) }
    ensures capacity { IfOk result (λ r. capacity_of r.0 ≡ None) }
{
    let (ruled, pass) = unbounded_with(alloc)?;
    Ok((Channel { ruled }, Hub { pass }))
}

impl<T: Drop> Channel<T> {
    /// How many messages it can hold, and none if there is no bound.
    ///
    /// ```
    /// let (channel, mut hub) = bounded(rt.alloc(), 4)?;
    /// let sender: Sender<u64> = hub.sender(&channel);
    /// assert_eq!(rt; channel.capacity(), Some(4));
    /// drop(sender);
    /// ```
    pub fn capacity(&self) -> Option<usize>
        ensures { result ≡ capacity_of self.now }
    {
        self.ruled.capacity()
    }
}

impl<T: Drop> Sender<T> {
    ghost use Rattle.ruled_channel_rules.specs.Handles.{IsSenderOf, sent_by, sender_closed, sender_found};
    ghost use Rattle.ruled_channel_rules.specs.Sending.{HasGivenUp, HasMade, HasSent};
    ghost use Rattle.channel_core.specs.Errors.{message_of};
    ghost use Rattle.ruled_channel_rules.specs.SendingEach.{TellsSentAll};

    /// Sends a message, and waits while the channel is full. A closed channel hands it back. The
    /// outer error says that memory was refused.
    ///
    /// ```
    /// let (channel, mut hub) = bounded(rt.alloc(), 4)?;
    /// let mut sender = hub.sender(&channel);
    /// let mut receiver = hub.receiver(&channel);
    /// assert_eq!(rt; sender.send_blocking(&rt, &channel, 1)?, Ok(()));
    /// assert!(rt; receiver.close(&rt, &channel));
    /// assert_eq!(rt; sender.send_blocking(&rt, &channel, 2)?, Err(SendError(2)));
    /// ```
    pub fn send_blocking<R: Wait>(
        &mut self,
        rt: &R,
        channel: &Channel<T>,
        message: T,
    ) -> Result<Result<(), SendError<T>>, NoMemory<T>>
        requires own { IsSenderOf channel.now self.old }
        ensures own { IsSenderOf channel.now self.new }
        ensures sent { IfOk result (λ answer. IfOk answer
            (λ _. sent_by self.new ≡ sent_by self.old ++ message ∷ [])) }
        ensures refused { IfOk result (λ answer. IfErr answer
            (λ error. (error.0 ≡ message) × (sent_by self.new ≡ sent_by self.old))) }
        ensures memory { IfErr result
            (λ error. (error.0 ≡ message) × (sent_by self.new ≡ sent_by self.old)) }
        ensures closed { sender_closed self.new ≡ sender_closed self.old }
        ensures step { IfOk result (λ answer. HasSent message answer self.new) }
        ensures given_up { OnErr result (HasGivenUp self.new) }
    {
        let ruled = &channel.ruled;
        ruled.send_blocking_as::<Whole, Unruled, R>(rt, &mut self.pass, message)
    }

    /// Sends a message, if there is room at once. A full or closed channel hands it back. The outer
    /// error says that memory was refused.
    ///
    /// ```
    /// let (channel, mut hub) = bounded(rt.alloc(), 1)?;
    /// let mut sender = hub.sender(&channel);
    /// assert_eq!(rt; sender.try_send(&rt, &channel, 1)?, Ok(()));
    /// assert_eq!(rt; sender.try_send(&rt, &channel, 2)?, Err(TrySendError::Full(2)));
    /// ```
    pub fn try_send<R: Wait>(
        &mut self,
        rt: &R,
        channel: &Channel<T>,
        message: T,
    ) -> Result<Result<(), TrySendError<T>>, NoMemory<T>>
        requires own { IsSenderOf channel.now self.old }
        ensures own { IsSenderOf channel.now self.new }
        ensures sent { IfOk result (λ answer. IfOk answer
            (λ _. sent_by self.new ≡ sent_by self.old ++ message ∷ [])) }
        ensures refused { IfOk result (λ answer. IfErr answer
            (λ error. (message_of error ≡ message) × (sent_by self.new ≡ sent_by self.old))) }
        ensures memory { IfErr result
            (λ error. (error.0 ≡ message) × (sent_by self.new ≡ sent_by self.old)) }
        ensures closed { sender_closed self.new ≡ sender_closed self.old }
        ensures reply { IfOk result (λ answer. answer
            ≡ try_send_answer (sender_found self.new).closed
            (is_channel_full (sender_found self.new)) message) }
        ensures step { OnOk result (HasMade (sent message) self.new) }
        ensures wanted { OnErr result (GrowsWithMessages (sender_found self.new)) }
        ensures unchanged { OnErr result (HasMade unchanged self.new) }
    {
        let ruled = &channel.ruled;
        ruled.try_send_as::<Whole, Unruled, R>(rt, &mut self.pass, message)
    }

    /// Sends messages from the front until all are sent, or one can't be: that one is in the answer,
    /// which says whether the channel is closed or memory was refused. Those after it are left.
    ///
    /// ```
    /// let (channel, mut hub) = bounded(rt.alloc(), 4)?;
    /// let mut sender = hub.sender(&channel);
    /// let mut receiver = hub.receiver(&channel);
    /// let mut messages = VecDeque::from(vec![in rt.alloc(); 1, 2]?);
    /// assert_eq!(rt; sender.send_all(&rt, &channel, &mut messages)?, Ok(()));
    /// assert_eq!(rt; receiver.recv_blocking(&rt, &channel)?, Ok(1));
    /// ```
    #[tactic(auto, using(crate::proofs::Lists::one_sent, crate::proofs::Lists::all_sent))]
    pub fn send_all<R: Wait>(
        &mut self,
        rt: &R,
        channel: &Channel<T>,
        messages: &mut VecDeque<T>,
    ) -> Result<Result<(), SendError<T>>, NoMemory<T>>
        requires own { IsSenderOf channel.now self.old }
        ensures own { IsSenderOf channel.now self.new }
        ensures sent { TellsSentAll self.old messages.old.items self.new messages.new.items result }
        ensures closed { sender_closed self.new ≡ sender_closed self.old }
    {
        while let Some(message) = messages.pop_front() {
            match self.send_blocking(rt, channel, message) {
                Ok(Ok(())) => {}
                Ok(Err(refused)) => return Ok(Err(refused)),
                Err(refused) => return Err(refused),
            }
        }
        Ok(Ok(()))
    }

    /// Closes the channel, and answers whether it was open. What it holds can be received still.
    ///
    /// ```
    /// let (channel, mut hub) = bounded(rt.alloc(), 4)?;
    /// let mut sender: Sender<u64> = hub.sender(&channel);
    /// assert!(rt; sender.close(&rt, &channel));
    /// assert!(rt; !sender.close(&rt, &channel));
    /// ```
    pub fn close<R: Wait>(&mut self, rt: &R, channel: &Channel<T>) -> bool
        requires own { IsSenderOf channel.now self.old }
        ensures own { IsSenderOf channel.now self.new }
        ensures same { sent_by self.new ≡ sent_by self.old }
        ensures closed { sender_closed self.new ≡ true }
        ensures again { sender_closed self.old ≡ true → result ≡ false }
        ensures reply { result ≡ not (sender_found self.new).closed }
        ensures step { HasMade closing self.new }
    {
        channel.ruled.close_as::<Whole, R>(rt, &mut self.pass)
    }
}

impl<T: Drop> Receiver<T> {
    ghost use Rattle.ruled_channel_rules.specs.Handles.{IsReceiverOf, got_by, has_ended, receiver_closed, receiver_found};
    ghost use Rattle.ruled_channel_rules.specs.Receiving.{FoundNone, HasAdded, HasGivenUp, HasMade, HasReceived, IsAsItWas};

    /// Takes the oldest message, and waits while there is none. The inner error says that the
    /// channel is closed and empty, the outer that memory was refused.
    ///
    /// ```
    /// let (channel, mut hub) = bounded(rt.alloc(), 4)?;
    /// let mut sender = hub.sender(&channel);
    /// let mut receiver = hub.receiver(&channel);
    /// assert_eq!(rt; sender.send_blocking(&rt, &channel, 1)?, Ok(()));
    /// sender.close(&rt, &channel);
    /// assert_eq!(rt; receiver.recv_blocking(&rt, &channel)?, Ok(1));
    /// assert_eq!(rt; receiver.recv_blocking(&rt, &channel)?, Err(RecvError));
    /// ```
    pub fn recv_blocking<R: Wait>(
        &mut self,
        rt: &R,
        channel: &Channel<T>,
    ) -> Result<Result<T, RecvError>, OutOfMemory>
        requires own { IsReceiverOf channel.now self.old }
        ensures own { IsReceiverOf channel.now self.new }
        ensures got { IfOk result (λ answer. IfOk answer
            (λ message. got_by self.new ≡ got_by self.old ++ message ∷ [])) }
        ensures ended { IfOk result (λ answer. IfErr answer
            (λ _. (got_by self.new ≡ got_by self.old) × (has_ended self.new ≡ true))) }
        ensures memory { IfErr result (λ _. IsAsItWas self.old self.new) }
        ensures closed { receiver_closed self.new ≡ receiver_closed self.old }
        ensures step { IfOk result (λ answer. HasReceived answer self.new) }
        ensures given_up { OnErr result (HasGivenUp self.new) }
    {
        let ruled = &channel.ruled;
        ruled.recv_blocking_as::<Whole, Whole, R>(rt, &mut self.pass)
    }

    /// Takes the oldest message, if there is one. If there is none, the error says whether the
    /// channel is closed.
    ///
    /// ```
    /// let (channel, mut hub) = bounded(rt.alloc(), 4)?;
    /// let sender: Sender<u64> = hub.sender(&channel);
    /// let mut receiver = hub.receiver(&channel);
    /// assert_eq!(rt; receiver.try_recv(&rt, &channel), Err(TryRecvError::Empty));
    /// drop(sender);
    /// ```
    pub fn try_recv<R: Wait>(&mut self, rt: &R, channel: &Channel<T>) -> Result<T, TryRecvError>
        requires own { IsReceiverOf channel.now self.old }
        ensures own { IsReceiverOf channel.now self.new }
        ensures got { IfOk result
            (λ message. got_by self.new ≡ got_by self.old ++ message ∷ []) }
        ensures refused { IfErr result (FoundNone self.old self.new) }
        ensures closed { receiver_closed self.new ≡ receiver_closed self.old }
        ensures reply { result
            ≡ try_recv_answer (oldest (receiver_found self.new)) (receiver_found self.new).closed }
        ensures step { HasMade received self.new }
    {
        let ruled = &channel.ruled;
        ruled.try_recv_as::<Whole, Whole, Unruled, R>(rt, &mut self.pass)
    }

    /// Receives messages until the channel is closed and empty, and puts each at the end of a list.
    /// If memory is refused, it closes the channel, so that nobody waits to send. All that came is in
    /// the list then too: there is room in it before a message is taken.
    ///
    /// ```
    /// let (channel, mut hub) = bounded(rt.alloc(), 4)?;
    /// let mut sender = hub.sender(&channel);
    /// let mut receiver = hub.receiver(&channel);
    /// assert_eq!(rt; sender.send_blocking(&rt, &channel, 1)?, Ok(()));
    /// sender.close(&rt, &channel);
    /// let mut all = Vec::new(rt.alloc());
    /// receiver.recv_all(&rt, &channel, &mut all)?;
    /// assert_eq!(rt; all.as_slice(), [1].as_slice());
    /// ```
    #[tactic(auto, using(crate::proofs::Lists::one_got))]
    pub fn recv_all<R: Wait>(
        &mut self,
        rt: &R,
        channel: &Channel<T>,
        all: &mut Vec<T>,
    ) -> Result<(), OutOfMemory>
        requires own { IsReceiverOf channel.now self.old }
        ensures own { IsReceiverOf channel.now self.new }
        ensures got { HasAdded self.old all.old.items self.new all.new.items }
        ensures ended { OnOk result ((has_ended self.new ≡ true)
            × (receiver_closed self.new ≡ receiver_closed self.old)) }
        ensures memory { OnErr result (receiver_closed self.new ≡ true) }
    {
        for _ in rt.forever() {
            if all.reserve(1).is_err() {
                break;
            }
            match self.recv_blocking(rt, channel) {
                Ok(Ok(message)) => all.push_reserved(message),
                Ok(Err(_)) => return Ok(()),
                Err(_) => break,
            }
        }
        self.close(rt, channel);
        Err(OutOfMemory)
    }

    /// Closes the channel, and answers whether it was open. What it holds can be received still.
    ///
    /// ```
    /// let (channel, mut hub) = bounded(rt.alloc(), 4)?;
    /// let mut sender = hub.sender(&channel);
    /// let mut receiver = hub.receiver(&channel);
    /// assert!(rt; receiver.close(&rt, &channel));
    /// assert_eq!(rt; sender.send_blocking(&rt, &channel, 1)?, Err(SendError(1)));
    /// ```
    pub fn close<R: Wait>(&mut self, rt: &R, channel: &Channel<T>) -> bool
        requires own { IsReceiverOf channel.now self.old }
        ensures own { IsReceiverOf channel.now self.new }
        ensures same { (got_by self.new ≡ got_by self.old)
            × (has_ended self.new ≡ has_ended self.old) }
        ensures closed { receiver_closed self.new ≡ true }
        ensures again { receiver_closed self.old ≡ true → result ≡ false }
        ensures ended { has_ended self.old ≡ true → result ≡ false }
        ensures reply { result ≡ not (receiver_found self.new).closed }
        ensures step { HasMade closing self.new }
    {
        channel.ruled.close_as::<Whole, R>(rt, &mut self.pass)
    }
}

impl<T: Drop> Hub<T> {
    ghost use Rattle.ruled_channel_rules.specs.Handles.{IsHubOf, IsSenderOf, IsReceiverOf, sent_by, got_by, sender_closed, receiver_closed, has_ended, known};
    ghost use Rattle.ruled_channel_rules.specs.Merged.{IsMergeOf, HaveArrived, AllArrived, Leaves};
    ghost use Rattle.ruled_channel_rules.specs.Whole.{hub_log, one_sender_more, one_receiver_more, together, sender_log, receiver_log};

    /// A sender.
    ///
    /// ```
    /// let (channel, mut hub) = bounded(rt.alloc(), 4)?;
    /// let mut sender = hub.sender(&channel);
    /// assert_eq!(rt; sender.send_blocking(&rt, &channel, 1)?, Ok(()));
    /// ```
    pub fn sender(&mut self, channel: &Channel<T>) -> Sender<T>
        requires own { IsHubOf channel.now self.old }
        ensures own { IsHubOf channel.now self.new × IsSenderOf channel.now result }
        ensures new { sent_by result ≡ [] }
        ensures counted { known self.new ≡ one_sender_more (known self.old) }
    {
        let pass = channel.ruled.another::<ForSender>(&mut self.pass);
        Sender { pass }
    }

    /// A receiver.
    ///
    /// ```
    /// let (channel, mut hub) = bounded(rt.alloc(), 4)?;
    /// let mut sender = hub.sender(&channel);
    /// let mut receiver = hub.receiver(&channel);
    /// assert_eq!(rt; sender.send_blocking(&rt, &channel, 1)?, Ok(()));
    /// assert_eq!(rt; receiver.recv_blocking(&rt, &channel)?, Ok(1));
    /// ```
    pub fn receiver(&mut self, channel: &Channel<T>) -> Receiver<T>
        requires own { IsHubOf channel.now self.old }
        ensures own { IsHubOf channel.now self.new × IsReceiverOf channel.now result }
        ensures new { (got_by result ≡ []) × (has_ended result ≡ false) }
        ensures counted { known self.new ≡ one_receiver_more (known self.old) }
    {
        let pass = channel.ruled.another::<ForReceiver>(&mut self.pass);
        Receiver { pass }
    }

    /// Takes a sender back.
    ///
    /// ```
    /// let (channel, mut hub) = bounded(rt.alloc(), 4)?;
    /// let mut sender = hub.sender(&channel);
    /// let mut receiver = hub.receiver(&channel);
    /// assert_eq!(rt; sender.send_blocking(&rt, &channel, 1)?, Ok(()));
    /// sender.close(&rt, &channel);
    /// let mut all = Vec::new(rt.alloc());
    /// receiver.recv_all(&rt, &channel, &mut all)?;
    /// hub.take_sender(&channel, sender);
    /// hub.settle_to_one(&rt, &channel, receiver);
    /// assert_eq!(rt; all.as_slice(), [1].as_slice());
    /// ```
    pub fn take_sender(&mut self, channel: &Channel<T>, sender: Sender<T>)
        requires own { IsHubOf channel.now self.old × IsSenderOf channel.now sender }
        ensures own { IsHubOf channel.now self.new }
        ensures known { known self.new ≡ together (known self.old)
            (sender_log (sender_closed sender) (sent_by sender)) }
    {
        let Sender { pass } = sender;
        channel.ruled.absorb::<Whole>(&mut self.pass, pass);
    }

    /// Takes a receiver back.
    ///
    /// ```
    /// let (channel, mut hub) = bounded(rt.alloc(), 4)?;
    /// let mut sender = hub.sender(&channel);
    /// let mut receiver = hub.receiver(&channel);
    /// assert_eq!(rt; sender.send_blocking(&rt, &channel, 1)?, Ok(()));
    /// sender.close(&rt, &channel);
    /// let mut all = Vec::new(rt.alloc());
    /// receiver.recv_all(&rt, &channel, &mut all)?;
    /// hub.take_sender(&channel, sender);
    /// hub.take_receiver(&channel, receiver);
    /// hub.settle(&rt, &channel);
    /// assert_eq!(rt; all.as_slice(), [1].as_slice());
    /// ```
    pub fn take_receiver(&mut self, channel: &Channel<T>, receiver: Receiver<T>)
        requires own { IsHubOf channel.now self.old × IsReceiverOf channel.now receiver }
        ensures own { IsHubOf channel.now self.new }
        ensures known { known self.new ≡ together (known self.old)
            (receiver_log (receiver_closed receiver) (has_ended receiver) (got_by receiver)) }
    {
        let Receiver { pass } = receiver;
        channel.ruled.absorb::<Whole>(&mut self.pass, pass);
    }

    /// Learns, once all are back, what arrived and what is held still, and answers how much that is.
    /// If the end was found, all that was sent arrived.
    ///
    /// ```
    /// let (channel, mut hub) = bounded(rt.alloc(), 4)?;
    /// let mut sender = hub.sender(&channel);
    /// let mut receiver = hub.receiver(&channel);
    /// assert_eq!(rt; sender.send_blocking(&rt, &channel, 1)?, Ok(()));
    /// sender.close(&rt, &channel);
    /// let mut all = Vec::new(rt.alloc());
    /// receiver.recv_all(&rt, &channel, &mut all)?;
    /// hub.take_sender(&channel, sender);
    /// hub.take_receiver(&channel, receiver);
    /// hub.settle(&rt, &channel);
    /// assert_eq!(rt; all.as_slice(), [1].as_slice());
    /// ```
    pub fn settle<R: Wait>(&mut self, rt: &R, channel: &Channel<T>) -> usize
        requires own { IsHubOf channel.now self.old }
        requires senders { length (known self.old).sent ≡ (known self.old).senders }
        requires receivers { length (known self.old).got ≡ (known self.old).receivers }
        ensures own { IsHubOf channel.now self.new × (known self.new ≡ known self.old) }
        ensures held { Leaves result
            (λ held. HaveArrived (known self.old).sent (known self.old).got held) }
        ensures arrived { (known self.old).ended ≡ true
            → AllArrived (known self.old).sent (known self.old).got }
        ensures each_once { (known self.old).ended ≡ true
            → IsPermutation (flat_map (λ list. list) (known self.old).got)
            (flat_map (λ list. list) (known self.old).sent) }
    {
        channel.ruled.learn_as::<Whole, R>(rt, &mut self.pass).len
    }

    /// Learns of one sender and one receiver that what was received is the beginning of what was
    /// sent, and answers how much is held still. If the receiver found the end, it is all.
    ///
    /// ```
    /// let (channel, mut hub) = bounded(rt.alloc(), 4)?;
    /// let mut sender = hub.sender(&channel);
    /// let mut receiver = hub.receiver(&channel);
    /// assert_eq!(rt; sender.send_blocking(&rt, &channel, 1)?, Ok(()));
    /// sender.close(&rt, &channel);
    /// let mut all = Vec::new(rt.alloc());
    /// receiver.recv_all(&rt, &channel, &mut all)?;
    /// hub.settle_pair(&rt, &channel, sender, receiver);
    /// assert_eq!(rt; all.as_slice(), [1].as_slice());
    /// ```
    pub fn settle_pair<R: Wait>(
        self,
        rt: &R,
        channel: &Channel<T>,
        sender: Sender<T>,
        receiver: Receiver<T>,
    ) -> usize
        requires own { IsHubOf channel.now self × IsSenderOf channel.now sender
            × IsReceiverOf channel.now receiver }
        requires pair { known self ≡ hub_log 1 1 }
        ensures begun { Leaves result (λ held. sent_by sender ≡ got_by receiver ++ held) }
        ensures whole { has_ended receiver ≡ true → got_by receiver ≡ sent_by sender }
    {
        let mut all = self;
        all.take_sender(channel, sender);
        all.settle_to_one(rt, channel, receiver)
    }

    /// Learns of several senders and one receiver that what was received, and then what is held
    /// still, are the messages of all senders, each one's in its order, and answers how much is
    /// held. If the receiver found the end, that is nothing.
    ///
    /// ```
    /// let (channel, mut hub) = bounded(rt.alloc(), 4)?;
    /// let mut sender = hub.sender(&channel);
    /// let mut receiver = hub.receiver(&channel);
    /// assert_eq!(rt; sender.send_blocking(&rt, &channel, 1)?, Ok(()));
    /// sender.close(&rt, &channel);
    /// let mut all = Vec::new(rt.alloc());
    /// receiver.recv_all(&rt, &channel, &mut all)?;
    /// hub.take_sender(&channel, sender);
    /// hub.settle_to_one(&rt, &channel, receiver);
    /// assert_eq!(rt; all.as_slice(), [1].as_slice());
    /// ```
    pub fn settle_to_one<R: Wait>(
        self,
        rt: &R,
        channel: &Channel<T>,
        receiver: Receiver<T>,
    ) -> usize
        requires own { IsHubOf channel.now self × IsReceiverOf channel.now receiver }
        requires one { ((known self).receivers ≡ 1) × ((known self).got ≡ []) }
        requires senders { length (known self).sent ≡ (known self).senders }
        ensures held { Leaves result
            (λ held. IsMergeOf (got_by receiver ++ held) (known self).sent) }
        ensures whole { has_ended receiver ≡ true → IsMergeOf (got_by receiver) (known self).sent }
    {
        let mut all = self;
        all.take_receiver(channel, receiver);
        all.settle(rt, channel)
    }
}
