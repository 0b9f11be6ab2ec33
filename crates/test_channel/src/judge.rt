//! The run that judges: what it answers is what the handles have to answer.
ghost use Rattle.channel_model.specs.Capacity.{HasPositiveCapacity};

use crate::answer::Answer;
use crate::handles::{put, queue};
use crate::line::{Line, Messages, Way};
use anyhow::{Result, anyhow};
use channel_model::{
    Kind, Notice, RecvError, Refusal, Reply, SendError, Side, Step, TryRecvError, TrySendError, Who,
};
use channel_run::Run;
use futures::task::Poll;
use std::alloc::Global;
use std::collections::BTreeMap;

/// A run, and what it doesn't tell.
#[derive(Drop)]
pub struct Judge {
    alloc: Global,
    run: Run<u64>,
    /// The message of each send, until it is finished.
    unsent: BTreeMap<u64, Option<u64>>,
}

/// The answer of a batch. One that is refused is `None`.
fn moved<A: Drop>(outcome: std::result::Result<A, Refusal>) -> Result<Option<A>> {
    match outcome {
        Ok(answer) => Ok(Some(answer)),
        Err(Refusal::OutOfMemory) => Err(anyhow!("memory was refused")),
        Err(_) => Ok(None),
    }
}

impl Judge {
    pub fn new(alloc: Global, kind: Kind) -> Result<Judge>
        requires { HasPositiveCapacity kind }
    {
        Ok(Judge {
            alloc,
            run: Run::new(alloc, kind)?,
            unsent: BTreeMap::new(alloc),
        })
    }

    /// Whether somebody waits, and was told.
    pub fn notice_of(&self, who: Who) -> Notice {
        self.run.notice_of(who)
    }

    /// Polls who was told first.
    pub fn poll_first_told(&mut self) -> Option<(Who, Reply<u64>)> {
        let polled = self.run.poll_first_told();
        if let Some((Who::Op(op), reply)) = &polled {
            self.note_poll(*op, reply);
        }
        polled
    }

    /// The answer of a question.
    pub fn ask(&mut self, question: Step<u64>) -> Reply<u64> {
        self.run.step(question)
    }

    /// What a line answers.
    pub fn make(&mut self, line: Line) -> Result<Answer> {
        match line {
            Line::One(step) => Ok(Answer::Replied(self.step(step)?)),
            Line::Notice(who) => Ok(Answer::Noticed(self.notice_of(who))),
            Line::Settle => Ok(Answer::Skipped),
            Line::SendBlocking(sender, message) => self.send_blocking(sender, message),
            Line::RecvBlocking(receiver) => self.recv_blocking(receiver),
            Line::SendMany(way, sender, messages) => self.send_many(way, sender, messages),
            Line::RecvMany(way, receiver, limit) => self.recv_many(way, receiver, limit),
            Line::TryIter(receiver, limit) => Ok(match self.try_recv_many(receiver, limit)? {
                Answer::Received(_, came) => Answer::Received(Ok(came.len()), came),
                other => other,
            }),
            Line::IntoMsg(op) => self.into_msg(op),
        }
    }

    fn step(&mut self, step: Step<u64>) -> Result<Reply<u64>> {
        let reply = self.ask(step);
        if reply.wants_memory() {
            return Err(anyhow!("memory was refused"));
        }
        if !matches!(reply, Reply::Refused(..)) {
            self.note(&step, &reply)?;
        }
        Ok(reply)
    }

    /// Notes what became of a send.
    fn note(&mut self, step: &Step<u64>, reply: &Reply<u64>) -> Result<()> {
        match step {
            Step::StartSend { op, msg, .. } => put(&mut self.unsent, *op, Some(*msg))?,
            Step::Poll(op) => self.note_poll(*op, reply),
            Step::DropOp(op) => {
                self.unsent.remove(op);
            }
            _ => {}
        }
        Ok(())
    }

    /// A send that is ready has no message any more.
    fn note_poll(&mut self, op: u64, reply: &Reply<u64>) {
        if let Some(message) = self.unsent.get_mut(&op)
            && reply.is_ready()
        {
            *message = None;
        }
    }

    fn send_blocking(&mut self, sender: u64, message: u64) -> Result<Answer> {
        if self.would_block(sender, 1) {
            return Ok(Answer::Skipped);
        }
        let sent = match self.step(Step::TrySend(sender, message))? {
            Reply::TrySent(Ok(())) => Ok(()),
            Reply::TrySent(Err(TrySendError::Closed(back))) => Err(SendError(back)),
            _ => return Ok(Answer::Skipped),
        };
        Ok(Answer::Replied(Reply::SendPolled(Poll::Ready(sent))))
    }

    fn recv_blocking(&mut self, receiver: u64) -> Result<Answer> {
        let received = match self.step(Step::TryRecv(receiver))? {
            Reply::Received(Ok(message)) => Ok(message),
            Reply::Received(Err(TryRecvError::Closed)) => Err(RecvError),
            _ => return Ok(Answer::Skipped),
        };
        Ok(Answer::Replied(Reply::RecvPolled(Poll::Ready(received))))
    }

    /// The answer, if the handle is live.
    fn if_live(&mut self, side: Side, answer: Answer) -> Answer {
        match self.ask(Step::Len(side)) {
            Reply::Count(_) => answer,
            _ => Answer::Skipped,
        }
    }

    /// Whether a sender of an open channel has no room for so many messages.
    fn would_block(&mut self, sender: u64, count: u64) -> bool {
        let side = Side::Sender(sender);
        let (is_closed, held) = (self.ask(Step::IsClosed(side)), self.ask(Step::Len(side)));
        match (self.ask(Step::Capacity(side)), is_closed, held) {
            (Reply::Capacity(Some(capacity)), Reply::Flag(false), Reply::Count(held)) => {
                (capacity.saturating_sub(held) as u64) < count
            }
            _ => false,
        }
    }

    /// A batch of sends. Without messages, only a plain one sees that the channel is closed.
    fn send_many(&mut self, way: Way, sender: u64, messages: Messages) -> Result<Answer> {
        if way != Way::Plain && messages.count == 0 {
            return Ok(self.if_live(Side::Sender(sender), Answer::Sent(Ok(0), 0)));
        }
        if way == Way::Blocking && self.would_block(sender, messages.count) {
            return Ok(Answer::Skipped);
        }
        let mut from = queue(self.alloc, messages)?;
        let Some(sent) = moved(self.run.try_send_many(sender, &mut from, usize::MAX))? else {
            return Ok(Answer::Skipped);
        };
        let capacity = self.ask(Step::Capacity(Side::Sender(sender)));
        if capacity == Reply::Capacity(None) && !from.is_empty() && sent.is_ok() {
            return Err(anyhow!("memory was refused"));
        }
        Ok(Answer::Sent(sent, from.len()))
    }

    /// A batch of receives. With room for none, only a plain one sees that there is no message.
    fn recv_many(&mut self, way: Way, receiver: u64, limit: usize) -> Result<Answer> {
        if way != Way::Plain && limit == 0 {
            let nothing = Answer::Received(Ok(0), Vec::new(self.alloc));
            return Ok(self.if_live(Side::Receiver(receiver), nothing));
        }
        Ok(match self.try_recv_many(receiver, limit)? {
            Answer::Received(Err(TryRecvError::Empty), _) if way == Way::Blocking => {
                Answer::Skipped
            }
            answer => answer,
        })
    }

    fn try_recv_many(&mut self, receiver: u64, limit: usize) -> Result<Answer> {
        let mut into = Vec::new(self.alloc);
        match moved(self.run.try_recv_many(receiver, &mut into, limit))? {
            Some(received) => Ok(Answer::Received(received, into)),
            None => Ok(Answer::Skipped),
        }
    }

    /// A send is given up. It is skipped if the operation is none.
    fn into_msg(&mut self, op: u64) -> Result<Answer> {
        let Some(message) = self.unsent.get(&op).copied() else {
            return Ok(Answer::Skipped);
        };
        self.step(Step::DropOp(op))?;
        Ok(Answer::Message(message))
    }
}
