//! Operations that own their handle, each with tasks that poll it.
use anyhow::{Result, anyhow};
use async_channel::{Closed, Group, OutOfMemory, Receiver, Recv, Send};
use channel_model::Reply;
use futures::Stream;
use futures::task::Poll;
use futures::test::MockTask;
use std::alloc::AllocGlobal;
use std::random::RandomSource;
use std::sync::Wait;

/// Two tasks that take turns: each makes two polls, and then the other one takes over.
#[derive(Drop)]
pub struct Tasks {
    one: MockTask,
    other: MockTask,
    polls: u8,
}

impl Tasks {
    pub fn new<R: RandomSource + AllocGlobal>(rt: &R) -> Result<Tasks> {
        Ok(Tasks {
            one: MockTask::new(rt)?,
            other: MockTask::new(rt)?,
            polls: 0,
        })
    }

    /// The task of a new poll.
    fn next(&mut self) -> &MockTask {
        self.polls = if self.polls < 4 { self.polls + 1 } else { 1 };
        if self.polls < 3 {
            &self.one
        } else {
            &self.other
        }
    }

    /// Whether the task of the last poll was woken since.
    pub fn is_woken(&self) -> bool {
        match self.polls {
            0 => false,
            1 | 2 => self.one.is_woken(),
            _ => self.other.is_woken(),
        }
    }
}

/// A future that has its handle.
#[derive(Drop)]
pub enum Kept<'a, R: Wait + Clone + Drop> {
    Send(Send<'a, u64, R>),
    Recv(Recv<'a, u64, R>),
    Closed(Closed<'a, u64, R>),
}

/// An operation under a name.
#[derive(Drop)]
pub struct Operation<'a, R: Wait + Clone + Drop> {
    pub kept: Kept<'a, R>,
    pub tasks: Tasks,
}

/// What came of a poll that wasn't refused memory.
fn well<T: Drop>(polled: Poll<std::result::Result<T, OutOfMemory>>) -> Result<Poll<T>> {
    match polled {
        Poll::Ready(ended) => Ok(Poll::Ready(ended?)),
        Poll::Pending => Ok(Poll::Pending),
    }
}

impl<R: Wait + Clone + Drop> Operation<'_, R> {
    pub fn poll(&mut self) -> Result<Reply<u64>> {
        let task = self.tasks.next();
        Ok(match &mut self.kept {
            Kept::Send(send) => Reply::SendPolled(well(task.poll(send))?),
            Kept::Recv(recv) => Reply::RecvPolled(well(task.poll(recv))?),
            Kept::Closed(closed) => Reply::ClosedPolled(well(task.poll(closed))?),
        })
    }

    /// Among whom it waits.
    pub fn group(&self) -> Group {
        match &self.kept {
            Kept::Send(_) => Group::Sends,
            Kept::Recv(_) => Group::Receives,
            Kept::Closed(_) => Group::Closeds,
        }
    }

    /// Gives a send up for its message.
    pub fn into_msg(self) -> Result<Option<u64>> {
        let Operation {
            kept,
            tasks: _tasks,
        } = self;
        match kept {
            Kept::Send(send) => Ok(send.into_msg()),
            _ => Err(anyhow!("it is no send")),
        }
    }
}

/// A receiver, and the tasks that poll its stream.
#[derive(Drop)]
pub struct Streamed<R: Wait + Clone + Drop> {
    pub receiver: Receiver<u64, R>,
    pub tasks: Tasks,
}

impl<R: Wait + Clone + Drop> Streamed<R> {
    pub fn poll_next(&mut self) -> Result<Reply<u64>> {
        let receiver = &mut self.receiver;
        let task = self.tasks.next();
        Ok(Reply::NextPolled(match task.enter(|cx| receiver.poll_next(cx)) {
            Poll::Ready(Some(item)) => Poll::Ready(Some(item?)),
            Poll::Ready(None) => Poll::Ready(None),
            Poll::Pending => Poll::Pending,
        }))
    }
}
