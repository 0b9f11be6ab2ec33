//! A channel whose handles and operations have names.
use crate::answer::Answer;
use crate::line::{Line, Messages, Way};
use crate::many::channel;
use crate::operation::{Kept, Operation, Streamed, Tasks};
use anyhow::{Result, anyhow};
use async_channel::inspect::{Waiters, who_waits};
use async_channel::{
    Group, NoMemory, OutOfMemory, Receiver, SendError, SendMany, Sender, TryRecvError,
    TrySendError, WeakReceiver, WeakSender,
};
use channel_model::{Kind, Refusal, Reply, Side, Step, Who};
use futures::task::Poll;
use futures::test::MockTask;
use std::alloc::{AllocGlobal, Global};
use std::collections::{BTreeMap, VecDeque};
use std::random::RandomSource;
use std::sync::Wait;

/// Who may wait.
#[derive(Clone, Copy)]
pub struct Waiting {
    pub who: Who,
    pub group: Group,
    /// Whether the task of its last poll was woken since.
    pub woken: bool,
}

/// All that is live. An operation has a copy of its handle.
#[derive(Drop)]
pub struct Handles<'a, R: Wait + Clone + Drop> {
    rt: &'a R,
    senders: BTreeMap<u64, Sender<u64, R>>,
    receivers: BTreeMap<u64, Streamed<R>>,
    weak_senders: BTreeMap<u64, WeakSender<u64, R>>,
    weak_receivers: BTreeMap<u64, WeakReceiver<u64, R>>,
    operations: BTreeMap<u64, Operation<'a, R>>,
    /// A weak sender without a name.
    observer: WeakSender<u64, R>,
}

/// What is live under a name.
fn live<V>(all: &BTreeMap<u64, V>, name: u64) -> Result<&V> {
    all.get(&name).ok_or_else(|| anyhow!("{name} isn't live"))
}

/// Takes out what is live under a name.
fn taken<V: Drop>(all: &mut BTreeMap<u64, V>, name: u64) -> Result<V> {
    all.remove(&name)
        .ok_or_else(|| anyhow!("{name} isn't live"))
}

/// Gives up what is live under a name.
fn give_up<V: Drop>(all: &mut BTreeMap<u64, V>, name: u64) -> Result<()> {
    drop(taken(all, name)?);
    Ok(())
}

/// Puts something under a name.
pub fn put<V: Drop>(all: &mut BTreeMap<u64, V>, name: u64, value: V) -> Result<()> {
    match all.insert(name, value) {
        Ok(_) => Ok(()),
        Err(_) => Err(anyhow!("memory was refused")),
    }
}

/// The handle that a step asks, or by which it is made at once.
fn handle_of(step: Step<u64>) -> Option<Side> {
    match step {
        Step::TrySend(sender, _) | Step::ForceSend(sender, _) => Some(Side::Sender(sender)),
        Step::TryRecv(receiver) | Step::IsTerminated(receiver) => Some(Side::Receiver(receiver)),
        Step::Close(side)
        | Step::IsClosed(side)
        | Step::IsEmpty(side)
        | Step::IsFull(side)
        | Step::Len(side)
        | Step::Capacity(side)
        | Step::SenderCount(side)
        | Step::ReceiverCount(side) => Some(side),
        _ => None,
    }
}

/// What a handle of either side answers. A count is without the handles that operations have.
macro_rules! answer {
    ($handle:expr, $step:expr, $kept:expr) => {
        match $step {
            Step::Close(_) => Reply::Flag($handle.close()),
            Step::IsClosed(_) => Reply::Flag($handle.is_closed()),
            Step::IsEmpty(_) => Reply::Flag($handle.is_empty()),
            Step::IsFull(_) => Reply::Flag($handle.is_full()),
            Step::Len(_) => Reply::Count($handle.len()),
            Step::Capacity(_) => Reply::Capacity($handle.capacity()),
            Step::SenderCount(_) => Reply::Count($handle.sender_count().saturating_sub($kept)),
            _ => Reply::Count($handle.receiver_count().saturating_sub($kept)),
        }
    };
}

/// What a sender answers.
fn by_sender<R>(sender: &Sender<u64, R>, step: Step<u64>, kept: usize) -> Reply<u64>
where
    R: Wait + Clone + Drop,
{
    match step {
        Step::TrySend(_, message) => sender
            .try_send(message)
            .map_or_else(refused, Reply::TrySent),
        Step::ForceSend(_, message) => sender
            .force_send(message)
            .map_or_else(refused, Reply::Forced),
        step => answer!(sender, step, kept),
    }
}

/// What a receiver answers.
fn by_receiver<R>(receiver: &Receiver<u64, R>, step: Step<u64>, kept: usize) -> Reply<u64>
where
    R: Wait + Clone + Drop,
{
    match step {
        Step::TryRecv(_) => Reply::Received(receiver.try_recv()),
        Step::IsTerminated(_) => Reply::Flag(receiver.is_terminated()),
        step => answer!(receiver, step, kept),
    }
}

/// The answer of a send that was refused memory, with the message that came back.
fn refused(NoMemory(back): NoMemory<u64>) -> Reply<u64> {
    Reply::Refused(Refusal::OutOfMemory, Some(back))
}

/// Messages that follow one another.
pub fn queue(alloc: Global, messages: Messages) -> Result<VecDeque<u64, Global>> {
    let mut queue = VecDeque::new(alloc);
    for place in 0..messages.count {
        queue.push_back(messages.first.wrapping_add(place))?;
    }
    Ok(queue)
}

/// What comes of one poll. One that has to wait is given up.
fn sent_by_poll<R: Wait + Clone + Drop>(
    task: &MockTask,
    mut send: SendMany<'_, u64, R>,
) -> Result<Answer> {
    let polled = task.poll(&mut send);
    let (sent, left) = (send.sent(), send.into_unsent().len());
    if let Poll::Ready(Ok(_)) = &polled
        && task.is_woken()
    {
        return Err(anyhow!("a poll that was ready woke its task"));
    }
    Ok(match polled {
        Poll::Ready(Err(_)) if sent == 0 => return Err(anyhow!("memory was refused")),
        Poll::Ready(Ok(Err(SendError(left)))) => {
            Answer::Sent(Err(TrySendError::Closed(())), left.len())
        }
        Poll::Pending if sent == 0 => Answer::Sent(Err(TrySendError::Full(())), left),
        _ => Answer::Sent(Ok(sent), left),
    })
}

impl<'a, R: Wait + Clone + Drop + RandomSource + AllocGlobal> Handles<'a, R> {
    pub fn new(rt: &'a R, kind: Kind) -> Result<Handles<'a, R>> {
        let (s, r) = match kind {
            Kind::Bounded(capacity) => channel(rt, capacity)?,
            Kind::Unbounded => channel(rt, 0)?,
        };
        let mut handles = Handles {
            rt,
            senders: BTreeMap::new(rt.alloc()),
            receivers: BTreeMap::new(rt.alloc()),
            weak_senders: BTreeMap::new(rt.alloc()),
            weak_receivers: BTreeMap::new(rt.alloc()),
            operations: BTreeMap::new(rt.alloc()),
            observer: s.downgrade()?,
        };
        put(&mut handles.senders, 0, s)?;
        handles.put_receiver(0, r)?;
        Ok(handles)
    }

    fn put_receiver(&mut self, name: u64, receiver: Receiver<u64, R>) -> Result<()> {
        let tasks = Tasks::new(self.rt)?;
        put(&mut self.receivers, name, Streamed { receiver, tasks })
    }

    fn receiver(&self, name: u64) -> Result<&Receiver<u64, R>> {
        Ok(&live(&self.receivers, name)?.receiver)
    }

    fn put_operation(&mut self, op: u64, kept: Kept<'a, R>) -> Result<()> {
        let tasks = Tasks::new(self.rt)?;
        put(&mut self.operations, op, Operation { kept, tasks })
    }

    /// A sender and a receiver that answer questions, the first of each.
    pub fn sides(&self) -> [Option<Side>; 2] {
        let (sender, receiver) = (self.senders.keys().next(), self.receivers.keys().next());
        let sender = sender.copied().map(Side::Sender);
        [sender, receiver.copied().map(Side::Receiver)]
    }

    /// All whose tasks may be woken.
    pub fn waiting(&self) -> Result<Vec<Waiting>> {
        let mut all = Vec::new(self.rt.alloc());
        for (op, operation) in self.operations.iter() {
            let (group, woken) = (operation.group(), operation.tasks.is_woken());
            let who = Who::Op(*op);
            all.push(Waiting { who, group, woken })?;
        }
        for (name, streamed) in self.receivers.iter() {
            let (group, woken) = (Group::Streams, streamed.tasks.is_woken());
            let who = Who::Receiver(*name);
            all.push(Waiting { who, group, woken })?;
        }
        Ok(all)
    }

    /// How many wait in a group, and how many of them are told.
    pub fn counted(&self, group: Group) -> Waiters {
        who_waits(&self.observer, group)
    }

    /// Polls who may wait.
    pub fn poll(&mut self, who: Who) -> Result<Reply<u64>> {
        match who {
            Who::Op(op) => match self.operations.get_mut(&op) {
                Some(operation) => operation.poll(),
                None => Err(anyhow!("o{op} isn't live")),
            },
            Who::Receiver(name) => match self.receivers.get_mut(&name) {
                Some(streamed) => streamed.poll_next(),
                None => Err(anyhow!("r{name} isn't live")),
            },
        }
    }

    /// Makes the call of a line.
    pub fn make(&mut self, line: Line) -> Result<Answer> {
        match line {
            Line::One(step) => self.step(step).map(Answer::Replied),
            Line::SendBlocking(sender, message) => {
                let sent = live(&self.senders, sender)?.send_blocking(message);
                let polled = sent.map(Poll::Ready);
                Ok(Answer::Replied(polled.map_or_else(refused, Reply::SendPolled)))
            }
            Line::RecvBlocking(receiver) => {
                let received = self.receiver(receiver)?.recv_blocking()?;
                Ok(Answer::Replied(Reply::RecvPolled(Poll::Ready(received))))
            }
            Line::IntoMsg(op) => taken(&mut self.operations, op)?
                .into_msg()
                .map(Answer::Message),
            Line::SendMany(way, sender, messages) => self.send_many(way, sender, messages),
            Line::RecvMany(way, receiver, limit) => self.recv_many(way, receiver, limit),
            Line::TryIter(receiver, limit) => self.take_from_iter(receiver, limit),
            Line::Notice(_) | Line::Settle => Err(anyhow!("no handle makes it")),
        }
    }

    fn send_many(&self, way: Way, sender: u64, messages: Messages) -> Result<Answer> {
        let sender = live(&self.senders, sender)?;
        let mut from = queue(self.rt.alloc(), messages)?;
        let (task, count) = (MockTask::new(self.rt)?, from.len());
        let sent = match way {
            Way::Plain => sender.try_send_many(&mut from)?,
            Way::Blocking => match sender.send_many_blocking(&mut from) {
                Ok(Ok(())) => Ok(count),
                Ok(Err(SendError(()))) => Err(TrySendError::Closed(())),
                Err(OutOfMemory) => Ok(count.saturating_sub(from.len())),
            },
            Way::Polled => return sent_by_poll(&task, sender.send_many(from)),
        };
        Ok(Answer::Sent(sent, from.len()))
    }

    /// Receives a batch. An operation that has to wait is given up.
    fn recv_many(&self, way: Way, receiver: u64, limit: usize) -> Result<Answer> {
        let mut into = Vec::new(self.rt.alloc());
        let (task, receiver) = (MockTask::new(self.rt)?, self.receiver(receiver)?);
        let received = match way {
            Way::Plain => receiver.try_recv_many(&mut into, limit)?,
            Way::Blocking => match receiver.recv_many_blocking(&mut into, limit)? {
                Ok(count) => Ok(count),
                Err(_) => Err(TryRecvError::Closed),
            },
            Way::Polled => match task.poll(&mut receiver.recv_many(&mut into, limit)) {
                Poll::Ready(received) => match received? {
                    0 if limit > 0 => Err(TryRecvError::Closed),
                    count => Ok(count),
                },
                Poll::Pending => Err(TryRecvError::Empty),
            },
        };
        if into.capacity() / 2 > into.len().saturating_add(8) {
            return Err(anyhow!("a batch took more room than it needs"));
        }
        Ok(Answer::Received(received, into))
    }

    /// Takes so many from an iterator over what is there.
    fn take_from_iter(&self, receiver: u64, limit: usize) -> Result<Answer> {
        let mut came = Vec::new(self.rt.alloc());
        came.reserve(limit.min(self.receiver(receiver)?.len()))?;
        let mut messages = self.receiver(receiver)?.try_iter();
        for _ in 0..limit {
            match messages.next() {
                Some(message) => came.push(message)?,
                None => break,
            }
        }
        Ok(Answer::Received(Ok(came.len()), came))
    }

    /// Makes a single step.
    fn step(&mut self, step: Step<u64>) -> Result<Reply<u64>> {
        let kept = match step {
            Step::SenderCount(_) => self.kept(false),
            Step::ReceiverCount(_) => self.kept(true),
            _ => 0,
        };
        match handle_of(step) {
            Some(Side::Sender(name)) => Ok(by_sender(live(&self.senders, name)?, step, kept)),
            Some(Side::Receiver(name)) => Ok(by_receiver(self.receiver(name)?, step, kept)),
            None => self.step_of_names(step),
        }
    }

    /// How many receivers, or how many senders, operations have.
    fn kept(&self, are_receivers: bool) -> usize {
        let mut kept = 0usize;
        for operation in self.operations.values() {
            if (operation.group() == Group::Receives) == are_receivers {
                kept = kept.saturating_add(1);
            }
        }
        kept
    }

    /// Polls who may wait, or makes a name or gives one up.
    fn step_of_names(&mut self, step: Step<u64>) -> Result<Reply<u64>> {
        match step {
            Step::Poll(op) => self.poll(Who::Op(op)),
            Step::PollNext(receiver) => self.poll(Who::Receiver(receiver)),
            Step::UpgradeSender { of, new } => self.upgrade_sender(of, new),
            Step::UpgradeReceiver { of, new } => self.upgrade_receiver(of, new),
            step => self.rename(step).map(|()| Reply::Done),
        }
    }

    fn upgrade_sender(&mut self, of: u64, new: u64) -> Result<Reply<u64>> {
        match live(&self.weak_senders, of)?.upgrade()? {
            Some(sender) => put(&mut self.senders, new, sender)?,
            None => return Ok(Reply::Upgraded(false)),
        }
        Ok(Reply::Upgraded(true))
    }

    fn upgrade_receiver(&mut self, of: u64, new: u64) -> Result<Reply<u64>> {
        match live(&self.weak_receivers, of)?.upgrade()? {
            Some(receiver) => self.put_receiver(new, receiver)?,
            None => return Ok(Reply::Upgraded(false)),
        }
        Ok(Reply::Upgraded(true))
    }

    /// Makes a name, or gives one up.
    fn rename(&mut self, step: Step<u64>) -> Result<()> {
        match step {
            Step::CloneSender { of, new } => {
                let copy = live(&self.senders, of)?.try_clone()?;
                put(&mut self.senders, new, copy)
            }
            Step::CloneReceiver { of, new } => {
                let copy = self.receiver(of)?.try_clone()?;
                self.put_receiver(new, copy)
            }
            Step::CloneWeakSender { of, new } => {
                let copy = live(&self.weak_senders, of)?.try_clone()?;
                put(&mut self.weak_senders, new, copy)
            }
            Step::CloneWeakReceiver { of, new } => {
                let copy = live(&self.weak_receivers, of)?.try_clone()?;
                put(&mut self.weak_receivers, new, copy)
            }
            Step::DowngradeSender { of, new } => {
                let weak = live(&self.senders, of)?.downgrade()?;
                put(&mut self.weak_senders, new, weak)
            }
            Step::DowngradeReceiver { of, new } => {
                let weak = self.receiver(of)?.downgrade()?;
                put(&mut self.weak_receivers, new, weak)
            }
            step => self.give_up_or_begin(step),
        }
    }

    fn give_up_or_begin(&mut self, step: Step<u64>) -> Result<()> {
        match step {
            Step::DropSender(name) => give_up(&mut self.senders, name),
            Step::DropReceiver(name) => give_up(&mut self.receivers, name),
            Step::DropWeakSender(name) => give_up(&mut self.weak_senders, name),
            Step::DropWeakReceiver(name) => give_up(&mut self.weak_receivers, name),
            Step::DropOp(name) => give_up(&mut self.operations, name),
            step => self.begin(step),
        }
    }

    /// Begins an operation.
    fn begin(&mut self, step: Step<u64>) -> Result<()> {
        match step {
            Step::StartSend { op, sender, msg } => {
                let sender = live(&self.senders, sender)?.try_clone()?;
                self.put_operation(op, Kept::Send(sender.into_send(msg)))
            }
            Step::StartRecv { op, receiver } => {
                let receiver = self.receiver(receiver)?.try_clone()?;
                self.put_operation(op, Kept::Recv(receiver.into_recv()))
            }
            Step::StartClosed { op, sender } => {
                let sender = live(&self.senders, sender)?.try_clone()?;
                self.put_operation(op, Kept::Closed(sender.into_closed()))
            }
            _ => Err(anyhow!("no other step begins an operation")),
        }
    }
}
