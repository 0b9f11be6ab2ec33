//! A channel with named handles and operations, and lists of steps by any parties.
//!
//! A run is a core, and what the core doesn't know: which names are live, which operation
//! borrows which handle, and by which ticket it waits. [`Run::step`] finds the method of its step.
//! Those methods stand by topic in the modules below: `messages`, `questions`, `handles` and
//! `operations`; `batches` has many messages in one step, and `told` what settling needs. Each goes like this:
//!
//! 1. It refuses what it must, and the first that applies is the answer: a name that isn't live,
//!    one that is taken, a handle that is borrowed, a handle too many. A message comes back.
//! 2. It takes room for a name that it makes. If memory is refused the core hasn't been touched,
//!    so that nothing has to be undone.
//! 3. It makes the step on the core. Nobody sleeps here, so its bell does nothing.
//! 4. It writes down what became of the names, the operation and its ticket.
//!
//! Who waits is known to the core by a key, and to the run by a name; the ticket joins the two. To
//! ask whether a name was told is to look its ticket up in the list of its kind. To find whom to
//! poll next is to take the first told key of a list, and to look for the ticket that has it. A
//! settling that takes a second poll notes who holds which ticket, and looks for no further one.
ghost use Rattle.std.specs.Prelude.{◌≡◌, [], length, IfOk, IfErr, slice_get};
ghost use Rattle.std.specs.Option.{option_copied};
ghost use Rattle.event_list.specs.Keys.{is_among};
ghost use Rattle.channel_model.specs.declared.step.Kind.{Kind};
ghost use Rattle.channel_model.specs.Past.{Past};
ghost use Rattle.channel_model.specs.Capacity.{HasPositiveCapacity};
ghost use Rattle.channel_model.specs.Notices.{notice_of};
ghost use Rattle.channel_model.specs.Answers.{IsAnswer, past_after};
ghost use Rattle.channel_model.specs.Refusals.{is_handle, is_operation};
ghost use Rattle.channel_core.specs.Channel.{list_of};
ghost use Rattle.channel_run.specs.StandsFor.{StandsFor};
ghost use Rattle.channel_run.specs.Runs.{ComesTo};
ghost use Rattle.channel_run.specs.RunShown.{notice_at};
ghost use Rattle.channel_run.specs.RunSteps.{StepsTo};

mod batches;
mod handles;
mod messages;
mod operations;
mod questions;
mod told;

use crate::names::Names;
use crate::operations::{Operation, Operations};
use crate::tickets::put_receiver;
use channel_core::{Core, Group};
use channel_model::{Kind, Notice, OutOfMemory, Reply, Side, Step, Who};
use event_list::Ticket;
use std::alloc::Global;
use std::collections::BTreeMap;
use std::marker::Model;

/// A channel with named handles and operations. It begins with sender 0 and receiver 0.
///
/// A step by any party is made whole, while nobody else makes one. So what a list of steps does to
/// a run is what the parties' calls do to a channel, in any way in which they may follow one
/// another.
///
/// # Examples
///
/// ```
/// let mut run = Run::new(rt.alloc(), Kind::Unbounded)?;
/// run.step(Step::StartRecv { op: 0, receiver: 0 });
/// assert_eq!(rt; run.step(Step::Poll(0)), Reply::RecvPolled(Poll::Pending));
/// assert_eq!(rt; run.step(Step::TrySend(0, 7)), Reply::TrySent(Ok(())));
/// let reply = run.step(Step::Poll(0));
/// assert_eq!(rt; reply, Reply::RecvPolled(Poll::Ready(Ok(7))));
/// ```
pub struct Run<T> {
    // where the memory of names and operations comes from
    alloc: Global,
    // the channel; it counts the handles that have names
    core: Core<T, ()>,
    // the live names of each space
    senders: Names,
    // each with the ticket of its stream's wait
    receivers: BTreeMap<u64, Option<Ticket>>,
    weak_senders: Names,
    weak_receivers: Names,
    // the live operations, and who is borrowed by them
    operations: Operations<T>,
}

impl<T> Model for Run<T> {
    ghost use Rattle.channel_model.specs.View.{View};
    ghost use Rattle.channel_run.specs.RunShown.{shown, AreCounted, IsWhole};

    ghost Value = { View T };

    ghost view = { λ run. shown run.core run.senders run.receivers.entries run.weak_senders
        run.weak_receivers run.operations.by_name.entries };

    ghost invariant = { λ run. IsWhole run.core run.senders run.receivers.entries
        run.operations.by_name.entries
        × AreCounted run.operations.by_sender run.operations.by_receiver
        run.operations.by_name.entries };
}

impl<T: Drop> Drop for Run<T> {
    /// Gives all waits up.
    fn drop(self) {
        let Run {
            alloc: _,
            mut core,
            senders: _,
            mut receivers,
            weak_senders: _,
            weak_receivers: _,
            operations,
        } = self;
        let Operations {
            mut by_name,
            by_sender: _,
            by_receiver: _,
        } = operations;
        while let Some((_op, operation)) = by_name.pop_first() {
            operation.cancel(&mut core);
        }
        by_name.destroy_empty();
        while let Some((_receiver, mut ticket)) = receivers.pop_first() {
            core.cancel_stream(&mut ticket);
            Ticket::destroy_none(ticket);
        }
        receivers.destroy_empty();
    }
}

impl<T: Drop> Run<T> {
    /// A run of a new channel.
    ///
    /// A bounded channel's capacity has to be positive. If memory is refused there is no run.
    ///
    /// # Examples
    ///
    /// ```
    /// let mut run: Run<u64> = Run::new(rt.alloc(), Kind::Bounded(1))?;
    /// let senders = run.step(Step::SenderCount(Side::Receiver(0)));
    /// assert_eq!(rt; senders, Reply::Count(1));
    /// ```
    pub fn new(alloc: Global, kind: Kind) -> Result<Run<T>, OutOfMemory>
        requires { HasPositiveCapacity kind }
        ensures { IfOk result (λ run. StandsFor kind [] run) }
    {
        let core = match kind {
            Kind::Bounded(capacity) => Core::bounded(alloc, capacity)?,
            Kind::Unbounded => Core::unbounded(alloc),
        };
        let mut senders = Names::new(alloc);
        senders.add(0)?;
        let mut receivers = BTreeMap::new(alloc);
        if put_receiver(&mut receivers, 0).is_err() {
            receivers.destroy_empty();
            return Err(OutOfMemory);
        }
        Ok(Run {
            alloc,
            core,
            senders,
            receivers,
            weak_senders: Names::new(alloc),
            weak_receivers: Names::new(alloc),
            operations: Operations::new(alloc),
        })
    }

    /// Makes a step, or refuses it.
    ///
    /// A refused step changes nothing, and hands the message back that it brought.
    ///
    /// # Examples
    ///
    /// ```
    /// let mut run = Run::new(rt.alloc(), Kind::Unbounded)?;
    /// assert_eq!(rt; run.step(Step::TrySend(0, 7)), Reply::TrySent(Ok(())));
    /// let reply = run.step(Step::TrySend(1, 8));
    /// assert_eq!(rt; reply, Reply::Refused(Refusal::Unknown, Some(8)));
    /// ```
    pub fn step(&mut self, step: Step<T>) -> Reply<T>
        ensures answer { (kind : Kind) (past : Past T) → StandsFor kind past self.old
            → IsAnswer kind past step result }
        ensures stands { (kind : Kind) (past : Past T) → StandsFor kind past self.old
            → StandsFor kind (past_after past step result) self.new }
    {
        self.make(step)
    }

    /// Whether somebody waits, and was told. Who has no live name doesn't wait.
    ///
    /// # Examples
    ///
    /// ```
    /// let mut run: Run<u64> = Run::new(rt.alloc(), Kind::Unbounded)?;
    /// run.step(Step::PollNext(0));
    /// assert_eq!(rt; run.notice_of(Who::Receiver(0)), Notice::Untold);
    /// assert_eq!(rt; run.notice_of(Who::Op(0)), Notice::Absent);
    /// ```
    pub fn notice_of(&self, who: Who) -> Notice
        ensures { (kind : Kind) (past : Past T) → StandsFor kind past self.now
            → result ≡ notice_of past who }
    {
        match who {
            Who::Op(op) => match self.operations.by_name.get(&op) {
                Some(Operation::Send { ticket, .. }) => notice(&self.core, Group::Sends, ticket),
                Some(Operation::Recv { ticket, .. }) => notice(&self.core, Group::Receives, ticket),
                Some(Operation::Closed { ticket, .. }) => notice(
                    &self.core,
                    Group::Closeds,
                    ticket,
                ),
                None => Notice::Absent,
            },
            Who::Receiver(receiver) => match self.receivers.get(&receiver) {
                Some(ticket) => notice(&self.core, Group::Streams, ticket),
                None => Notice::Absent,
            },
        }
    }

    /// The message that is held in this place, from 0 for the oldest.
    ///
    /// # Examples
    ///
    /// ```
    /// let mut run = Run::new(rt.alloc(), Kind::Unbounded)?;
    /// assert_eq!(rt; run.step(Step::TrySend(0, 7)), Reply::TrySent(Ok(())));
    /// assert_eq!(rt; run.message(0).copied(), Some(7));
    /// assert_eq!(rt; run.message(1).copied(), None);
    /// ```
    pub fn message(&self, place: usize) -> Option<&T>
        ensures { option_copied result ≡ slice_get self.now.messages place }
    {
        self.core.message(place)
    }

    /// How many messages are held.
    ///
    /// # Examples
    ///
    /// ```
    /// let run: Run<u64> = Run::new(rt.alloc(), Kind::Unbounded)?;
    /// assert_eq!(rt; run.message_count(), 0);
    /// ```
    pub fn message_count(&self) -> usize
        ensures { result ≡ length self.now.messages }
    {
        self.core.len()
    }

    // The step that was asked for.
    fn make(&mut self, step: Step<T>) -> Reply<T>
        ensures { StepsTo self.old step result self.new }
    {
        match step {
            Step::TrySend(sender, message) => self.try_send(sender, message),
            Step::ForceSend(sender, message) => self.force_send(sender, message),
            Step::TryRecv(receiver) => self.try_recv(receiver),
            Step::Close(side) => self.close(side),
            Step::IsClosed(side) => self.is_closed(side),
            Step::IsEmpty(side) => self.is_empty(side),
            Step::IsFull(side) => self.is_full(side),
            Step::IsTerminated(receiver) => self.is_terminated(receiver),
            Step::Len(side) => self.len(side),
            Step::SenderCount(side) => self.sender_count(side),
            Step::ReceiverCount(side) => self.receiver_count(side),
            Step::Capacity(side) => self.capacity(side),
            Step::CloneSender { of, new } => self.clone_sender(of, new),
            Step::CloneReceiver { of, new } => self.clone_receiver(of, new),
            Step::CloneWeakSender { of, new } => self.clone_weak_sender(of, new),
            Step::CloneWeakReceiver { of, new } => self.clone_weak_receiver(of, new),
            Step::DowngradeSender { of, new } => self.downgrade_sender(of, new),
            Step::DowngradeReceiver { of, new } => self.downgrade_receiver(of, new),
            Step::UpgradeSender { of, new } => self.upgrade_sender(of, new),
            Step::UpgradeReceiver { of, new } => self.upgrade_receiver(of, new),
            Step::DropSender(name) => self.drop_sender(name),
            Step::DropReceiver(name) => self.drop_receiver(name),
            Step::DropWeakSender(name) => self.drop_weak_sender(name),
            Step::DropWeakReceiver(name) => self.drop_weak_receiver(name),
            Step::StartSend { op, sender, msg } => self.start_send(op, sender, msg),
            Step::StartRecv { op, receiver } => self.start_recv(op, receiver),
            Step::StartClosed { op, sender } => self.start_closed(op, sender),
            Step::Poll(op) => self.poll(op),
            Step::PollNext(receiver) => self.poll_next(receiver),
            Step::DropOp(op) => self.drop_op(op),
        }
    }

    fn has_handle(&self, side: Side) -> bool
        ensures { result ≡ is_handle self.now side }
    {
        match side {
            Side::Sender(name) => self.senders.has(name),
            Side::Receiver(name) => self.has_receiver(name),
        }
    }

    fn has_receiver(&self, name: u64) -> bool
        ensures { result ≡ is_among name self.now.receivers }
    {
        self.receivers.contains_key(&name)
    }

    fn has_operation(&self, op: u64) -> bool
        ensures { result ≡ is_operation self.now op }
    {
        self.operations.by_name.contains_key(&op)
    }
}

// Whether the entry of a ticket waits, and was told.
fn notice<T: Drop>(core: &Core<T, ()>, group: Group, ticket: &Option<Ticket>) -> Notice
    ensures { result ≡ notice_at ticket.now (list_of group core.now) }
{
    let Some(ticket) = ticket else {
        return Notice::Absent;
    };
    match core.is_told(group, ticket) {
        Some(told) => { if told { Notice::Told } else { Notice::Untold } }
        None => Notice::Absent,
    }
}

/// What a list of steps came to.
///
/// # Examples
///
/// ```
/// let steps = vec![in rt.alloc(); Step::TrySend(0, 7)]?;
/// let mut end = run_all(rt.alloc(), Kind::Unbounded, steps).map_err(|_| "no room")?;
/// assert_eq!(rt; end.replies.as_slice(), [Reply::TrySent(Ok(()))].as_slice());
/// assert_eq!(rt; end.run.step(Step::TryRecv(0)), Reply::Received(Ok(7)));
/// ```
#[derive(Drop)]
pub struct End<T> {
    /// One reply a step, in order.
    pub replies: Vec<Reply<T>>,
    /// The run after the last step.
    pub run: Run<T>,
}

/// Memory was refused before the first step. The steps come back.
///
/// # Examples
///
/// ```
/// let steps = vec![in rt.alloc(); Step::TrySend(0, 7)]?;
/// let RunError(steps) = RunError(steps);
/// assert_eq!(rt; steps.len(), 1);
/// ```
#[derive(Drop)]
pub struct RunError<T>(pub Vec<Step<T>>);

/// Makes the steps in turn, in a run of a new channel.
///
/// A bounded channel's capacity has to be positive. Room for the replies is taken first.
///
/// # Examples
///
/// ```
/// let steps = vec![in rt.alloc(); Step::TrySend(0, 7), Step::TrySend(0, 8)]?;
/// let end = run_all(rt.alloc(), Kind::Bounded(1), steps).map_err(|_| "no room")?;
/// let full = Err(TrySendError::Full(8));
/// let replies = [Reply::TrySent(Ok(())), Reply::TrySent(full)];
/// assert_eq!(rt; end.replies.as_slice(), replies.as_slice());
/// ```
pub fn run_all<T: Drop>(
    alloc: Global,
    kind: Kind,
    steps: Vec<Step<T>>,
) -> Result<End<T>, RunError<T>>
    requires { HasPositiveCapacity kind }
    ensures made { IfOk result (λ end. ComesTo kind steps.items end.replies.items end.run) }
    ensures count { IfOk result (λ end. length end.replies.items ≡ length steps.items) }
    ensures handed_back { IfErr result (λ error. error.0 ≡ steps) }
{
    let Ok(mut replies) = Vec::with_capacity(alloc, steps.len()) else {
        return Err(RunError(steps));
    };
    let Ok(mut run) = Run::new(alloc, kind) else {
        return Err(RunError(steps));
    };
    for step in steps {
        let reply = run.step(step);
        match replies.push(reply) {
            Ok(()) => {}
            Err(_) => unreachable!(),
        }
    }
    Ok(End { replies, run })
}
