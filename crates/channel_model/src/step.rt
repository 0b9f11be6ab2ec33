//! Steps by any party on a channel, and their replies.
//!
//! One step is one call on the channel's whole state, made while nobody else makes one. So a list
//! of steps is any way in which the calls of any number of parties follow one another.
ghost use Rattle.std.specs.Prelude.{◌≡◌};
ghost use Rattle.channel_model.specs.Answers.{wants_memory};
ghost use Rattle.channel_model.specs.Polling.{poll_of};
ghost use Rattle.channel_model.specs.Replies.{is_pending, is_ready};

use channel_core::{RecvError, SendError, TryRecvError, TrySendError};
use futures::task::Poll;

/// How many messages a channel may hold.
///
/// # Examples
///
/// ```
/// let mut run: Run<u64> = Run::new(rt.alloc(), Kind::Bounded(5))?;
/// let capacity = run.step(Step::Capacity(Side::Sender(0)));
/// assert_eq!(rt; capacity, Reply::Capacity(Some(5)));
/// ```
#[derive(Clone, Copy, Debug, PartialEq, Eq)]
pub enum Kind {
    /// This many at the most. The number is positive.
    Bounded(usize),
    /// As many as memory allows.
    Unbounded,
}

/// The handle by which a channel is closed, or a question is put to it.
///
/// # Examples
///
/// ```
/// let mut run: Run<u64> = Run::new(rt.alloc(), Kind::Unbounded)?;
/// assert_eq!(rt; run.step(Step::Close(Side::Receiver(0))), Reply::Flag(true));
/// let reply = run.step(Step::IsClosed(Side::Sender(0)));
/// assert_eq!(rt; reply, Reply::Flag(true));
/// ```
#[derive(Clone, Copy, Debug, PartialEq, Eq)]
pub enum Side {
    /// The sender of this name.
    Sender(u64),
    /// The receiver of this name.
    Receiver(u64),
}

/// Who may wait on a channel.
///
/// # Examples
///
/// ```
/// let mut run: Run<u64> = Run::new(rt.alloc(), Kind::Unbounded)?;
/// run.step(Step::PollNext(0));
/// assert_eq!(rt; run.notice_of(Who::Receiver(0)), Notice::Untold);
/// assert_eq!(rt; run.notice_of(Who::Op(0)), Notice::Absent);
/// ```
#[derive(Clone, Copy, Debug, PartialEq, Eq)]
pub enum Who {
    /// The operation of this name: a send, a receive or a closed operation.
    Op(u64),
    /// The stream of the receiver of this name.
    Receiver(u64),
}

impl Who {
    /// The poll of who waits.
    ///
    /// # Examples
    ///
    /// ```
    /// let poll: Step<u64> = Who::Op(3).poll();
    /// assert_eq!(rt; poll, Step::Poll(3));
    /// let poll: Step<u64> = Who::Receiver(1).poll();
    /// assert_eq!(rt; poll, Step::PollNext(1));
    /// ```
    pub fn poll<T>(self) -> Step<T>
        ensures { result ≡ poll_of self }
    {
        match self {
            Who::Op(op) => Step::Poll(op),
            Who::Receiver(receiver) => Step::PollNext(receiver),
        }
    }
}

/// Whether somebody waits, and was told to try again.
///
/// # Examples
///
/// ```
/// let mut run: Run<u64> = Run::new(rt.alloc(), Kind::Unbounded)?;
/// run.step(Step::StartRecv { op: 0, receiver: 0 });
/// assert_eq!(rt; run.notice_of(Who::Op(0)), Notice::Absent);
/// run.step(Step::Poll(0));
/// assert_eq!(rt; run.notice_of(Who::Op(0)), Notice::Untold);
/// run.step(Step::TrySend(0, 1));
/// assert_eq!(rt; run.notice_of(Who::Op(0)), Notice::Told);
/// ```
#[derive(Clone, Copy, Debug, PartialEq, Eq)]
pub enum Notice {
    /// Nobody of this name waits.
    Absent,
    /// Somebody waits, and wasn't told since.
    Untold,
    /// Somebody waits, and was told that a poll may be ready.
    Told,
}

/// Why a step wasn't made. If several apply, the first of them is answered.
///
/// # Examples
///
/// ```
/// let mut run: Run<u64> = Run::new(rt.alloc(), Kind::Unbounded)?;
/// let reply = run.step(Step::TrySend(1, 7));
/// assert_eq!(rt; reply, Reply::Refused(Refusal::Unknown, Some(7)));
/// ```
#[derive(Clone, Copy, Debug, PartialEq, Eq)]
pub enum Refusal {
    /// No handle or operation of this name is live.
    Unknown,
    /// The name that the step was to make is live already.
    Taken,
    /// A live operation borrows the handle that was to be given up, or a live receive the receiver
    /// whose stream was to be polled.
    Borrowed,
    /// There are more handles of this kind than half of the greatest `usize`.
    TooMany,
    /// Memory was refused.
    OutOfMemory,
}

/// One step by any party. Names lie in five spaces: senders, receivers, weak senders, weak
/// receivers, operations. A new channel has sender 0 and receiver 0. The name of what was given up
/// may be used again.
///
/// # Examples
///
/// ```
/// let mut run: Run<u64> = Run::new(rt.alloc(), Kind::Bounded(1))?;
/// assert_eq!(rt; run.step(Step::TrySend(0, 7)), Reply::TrySent(Ok(())));
/// assert_eq!(rt; run.step(Step::Len(Side::Sender(0))), Reply::Count(1));
/// assert_eq!(rt; run.step(Step::TryRecv(0)), Reply::Received(Ok(7)));
/// ```
#[derive(Clone, Copy, Debug, Drop, PartialEq, Eq)]
pub enum Step<T> {
    /// A sender sends a message, if the channel is open and not full.
    TrySend(u64, T),
    /// A sender sends a message, and if the channel is full displaces the oldest one.
    ForceSend(u64, T),
    /// A receiver takes the oldest message, if there is one.
    TryRecv(u64),
    /// The channel is closed by hand. Its messages stay.
    Close(Side),
    /// Whether the channel is closed.
    IsClosed(Side),
    /// Whether no message is held.
    IsEmpty(Side),
    /// Whether as many messages are held as the capacity allows.
    IsFull(Side),
    /// Whether the receiver's stream is at its end: the channel is closed and empty.
    IsTerminated(u64),
    /// How many messages are held.
    Len(Side),
    /// How many senders are live.
    SenderCount(Side),
    /// How many receivers are live.
    ReceiverCount(Side),
    /// How many messages may be held.
    Capacity(Side),
    /// A sender is copied.
    CloneSender { of: u64, new: u64 },
    /// A receiver is copied.
    CloneReceiver { of: u64, new: u64 },
    /// A weak sender is copied.
    CloneWeakSender { of: u64, new: u64 },
    /// A weak receiver is copied.
    CloneWeakReceiver { of: u64, new: u64 },
    /// A weak sender is made from a sender. It doesn't keep the channel open.
    DowngradeSender { of: u64, new: u64 },
    /// A weak receiver is made from a receiver. It doesn't keep the channel open.
    DowngradeReceiver { of: u64, new: u64 },
    /// A sender is made from a weak one, if the channel is open.
    UpgradeSender { of: u64, new: u64 },
    /// A receiver is made from a weak one, if the channel is open.
    UpgradeReceiver { of: u64, new: u64 },
    /// A sender is given up. With the last one the channel is closed.
    DropSender(u64),
    /// A receiver is given up, and its stream with it. With the last one the channel is closed.
    DropReceiver(u64),
    /// A weak sender is given up.
    DropWeakSender(u64),
    /// A weak receiver is given up.
    DropWeakReceiver(u64),
    /// A send of this message begins, which borrows the sender. It is no poll: nothing is sent yet.
    StartSend { op: u64, sender: u64, msg: T },
    /// A receive begins, which borrows the receiver. It is no poll.
    StartRecv { op: u64, receiver: u64 },
    /// A closed operation begins, which borrows the sender, and is ready if no receiver is live.
    /// It is no poll.
    StartClosed { op: u64, sender: u64 },
    /// An operation is polled: it is done, or it waits.
    Poll(u64),
    /// A receiver's stream is polled for its next message.
    PollNext(u64),
    /// An operation is given up. If it was a told send or receive, another one is told in its
    /// place.
    DropOp(u64),
}

/// What a step answers.
///
/// # Examples
///
/// ```
/// let mut run: Run<u64> = Run::new(rt.alloc(), Kind::Bounded(1))?;
/// assert_eq!(rt; run.step(Step::ForceSend(0, 7)), Reply::Forced(Ok(None)));
/// assert_eq!(rt; run.step(Step::ForceSend(0, 8)), Reply::Forced(Ok(Some(7))));
/// ```
#[derive(Debug, Drop, PartialEq, Eq)]
pub enum Reply<T> {
    /// To `TrySend`: the message went in, or comes back.
    TrySent(Result<(), TrySendError<T>>),
    /// To `ForceSend`: the message went in, and displaced this one; or it comes back.
    Forced(Result<Option<T>, SendError<T>>),
    /// To `TryRecv`.
    Received(Result<T, TryRecvError>),
    /// To `Close`, whether the channel was open; to a question, yes or no.
    Flag(bool),
    /// To a question for a number.
    Count(usize),
    /// To `Capacity`: none for an unbounded channel.
    Capacity(Option<usize>),
    /// A name was made or given up.
    Done,
    /// To an upgrade: whether it made a handle.
    Upgraded(bool),
    /// To `Poll` of a send. A send that finished before is pending.
    SendPolled(Poll<Result<(), SendError<T>>>),
    /// To `Poll` of a receive.
    RecvPolled(Poll<Result<T, RecvError>>),
    /// To `Poll` of a closed operation.
    ClosedPolled(Poll<()>),
    /// To `PollNext`: a message, or the stream's end.
    NextPolled(Poll<Option<T>>),
    /// The step changed nothing. The message of `TrySend`, `ForceSend` or `StartSend` is here
    /// again.
    Refused(Refusal, Option<T>),
}

impl<T> Reply<T> {
    /// Whether memory was refused. Nothing has changed then, and the same step may be made again.
    ///
    /// # Examples
    ///
    /// ```
    /// let mut run: Run<u64> = Run::new(rt.alloc(), Kind::Bounded(1))?;
    /// assert!(rt; !run.step(Step::TrySend(1, 7)).wants_memory());
    /// let refused: Reply<u64> = Reply::Refused(Refusal::OutOfMemory, Some(7));
    /// assert!(rt; refused.wants_memory());
    /// ```
    pub fn wants_memory(&self) -> bool
        ensures { result ≡ wants_memory self.now }
    {
        matches!(self, Reply::Refused(Refusal::OutOfMemory, _))
    }

    /// Whether this answers a poll that was ready.
    ///
    /// # Examples
    ///
    /// ```
    /// let mut run = Run::new(rt.alloc(), Kind::Unbounded)?;
    /// run.step(Step::StartSend { op: 0, sender: 0, msg: 7 });
    /// assert!(rt; run.step(Step::Poll(0)).is_ready());
    /// assert!(rt; !run.step(Step::Len(Side::Sender(0))).is_ready());
    /// ```
    pub fn is_ready(&self) -> bool
        ensures { result ≡ is_ready self.now }
    {
        match self {
            Reply::SendPolled(poll) => poll.is_ready(),
            Reply::RecvPolled(poll) => poll.is_ready(),
            Reply::ClosedPolled(poll) => poll.is_ready(),
            Reply::NextPolled(poll) => poll.is_ready(),
            _ => false,
        }
    }

    /// Whether this answers a poll that was pending.
    ///
    /// # Examples
    ///
    /// ```
    /// let mut run: Run<u64> = Run::new(rt.alloc(), Kind::Unbounded)?;
    /// assert!(rt; run.step(Step::PollNext(0)).is_pending());
    /// assert!(rt; !run.step(Step::TryRecv(0)).is_pending());
    /// ```
    pub fn is_pending(&self) -> bool
        ensures { result ≡ is_pending self.now }
    {
        match self {
            Reply::SendPolled(poll) => poll.is_pending(),
            Reply::RecvPolled(poll) => poll.is_pending(),
            Reply::ClosedPolled(poll) => poll.is_pending(),
            Reply::NextPolled(poll) => poll.is_pending(),
            _ => false,
        }
    }
}
