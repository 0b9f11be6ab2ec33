//! Each call of a handle that sends or receives messages.
use Receives::*;
use Sends::*;
use async_channel::{Receiver, Sender, TryRecvError};
use futures::executor::block_on;
use futures::task::Poll;
use futures::test::MockTask;
use futures::{Future, StreamExt};
use std::alloc::{AllocError, AllocGlobal, Global};
use std::collections::VecDeque;
use std::random::RandomSource;
use std::sync::Wait;

/// By which call messages are sent.
#[derive(Clone, Copy, Debug)]
pub enum Sends {
    TrySend,
    ForceSend,
    SendBlocking,
    Send,
    TrySendMany,
    SendManyBlocking,
    SendMany,
}

/// By which call they are received.
#[derive(Clone, Copy, Debug)]
pub enum Receives {
    TryRecv,
    RecvBlocking,
    Recv,
    Next,
    TryIter,
    TryRecvMany,
    RecvManyBlocking,
    RecvMany,
}

/// How an operation is polled.
pub trait Polls {
    /// What comes of it. There is none if it is given up while it waits.
    fn output<F: Future>(&self, future: F) -> Option<F::Output>
        requires { F.can_poll future };
}

/// It is polled once.
impl Polls for MockTask {
    fn output<F: Future>(&self, mut future: F) -> Option<F::Output> {
        match self.poll(&mut future) {
            Poll::Ready(output) => Some(output),
            Poll::Pending => None,
        }
    }
}

/// It is polled until it is ready.
#[derive(Drop)]
pub struct Patient<'a, R>(pub &'a R);

impl<R: Wait + RandomSource + AllocGlobal> Polls for Patient<'_, R> {
    fn output<F: Future>(&self, future: F) -> Option<F::Output> {
        block_on(self.0, future).ok()
    }
}

/// So many numbers, from the first on.
pub fn numbers_from(
    alloc: Global,
    first: u64,
    count: usize,
) -> Result<VecDeque<u64, Global>, AllocError> {
    let numbers = (0..count as u64).map(|place| first.wrapping_add(place));
    Ok(VecDeque::from(numbers.collect::<Vec<_>>(alloc)?))
}

/// Sends a message, and answers whether it went in.
fn send_one<T: Drop, R: Wait + Clone + Drop>(
    polls: &impl Polls,
    way: Sends,
    s: &Sender<T, R>,
    message: T,
) -> bool {
    match way {
        TrySend => matches!(&s.try_send(message), Ok(Ok(()))),
        ForceSend => matches!(&s.force_send(message), Ok(Ok(_))),
        SendBlocking => matches!(&s.send_blocking(message), Ok(Ok(()))),
        _ => matches!(&polls.output(s.send(message)), Some(Ok(Ok(())))),
    }
}

/// Sends messages, and answers whether all went in.
pub fn send_all<T: Drop, R: Wait + Clone + Drop>(
    polls: &impl Polls,
    way: Sends,
    s: &Sender<T, R>,
    mut all: VecDeque<T, Global>,
) -> bool {
    match way {
        TrySendMany => s.try_send_many(&mut all).is_ok() && all.is_empty(),
        SendManyBlocking => s.send_many_blocking(&mut all) == Ok(Ok(())),
        SendMany => matches!(&polls.output(s.send_many(all)), Some(Ok(Ok(())))),
        way => all
            .into_iter()
            .all(|message| send_one(polls, way, s, message)),
    }
}

/// A message, or none from a channel that has ended. It is pending if none is there.
fn next_one<T: Drop, R: Wait + Clone + Drop>(
    polls: &impl Polls,
    way: Receives,
    r: &mut Receiver<T, R>,
) -> Poll<Option<T>> {
    Poll::Ready(match way {
        TryRecv => match r.try_recv() {
            Err(TryRecvError::Empty) => return Poll::Pending,
            received => received.ok(),
        },
        RecvBlocking => match r.recv_blocking() {
            Ok(received) => received.ok(),
            Err(_) => None,
        },
        Recv => match polls.output(r.recv()) {
            Some(Ok(received)) => received.ok(),
            Some(Err(_)) => None,
            None => return Poll::Pending,
        },
        Next => match polls.output(r.next()) {
            Some(Some(Ok(message))) => Some(message),
            Some(_) => None,
            None => return Poll::Pending,
        },
        _ => r.try_iter().next(),
    })
}

/// Receives a message, or up to so many. It answers whether the channel had some, and is pending if
/// none is there.
pub fn receive_some<T: Drop, R: Wait + Clone + Drop>(
    polls: &impl Polls,
    way: Receives,
    r: &mut Receiver<T, R>,
    into: &mut Vec<T>,
    limit: usize,
) -> Poll<bool> {
    Poll::Ready(match way {
        TryRecvMany => match r.try_recv_many(into, limit) {
            Ok(Err(TryRecvError::Empty)) => return Poll::Pending,
            received => matches!(received, Ok(Ok(_))),
        },
        RecvManyBlocking => matches!(r.recv_many_blocking(into, limit), Ok(Ok(_))),
        RecvMany => match polls.output(r.recv_many(into, limit)) {
            Some(received) => matches!(received, Ok(count) if count > 0),
            None => return Poll::Pending,
        },
        way => match next_one(polls, way, r) {
            Poll::Ready(Some(message)) => into.push(message).is_ok(),
            Poll::Ready(None) => false,
            Poll::Pending => return Poll::Pending,
        },
    })
}

/// Receives so many messages, and no more than so many by one call.
pub fn receive_all<T: Drop, R: Wait + Clone + Drop>(
    alloc: Global,
    polls: &impl Polls,
    way: Receives,
    r: &mut Receiver<T, R>,
    (count, limit): (usize, usize),
) -> Vec<T> {
    let mut into = Vec::new(alloc);
    for _ in 0..count {
        let left = count.saturating_sub(into.len());
        if left > 0 {
            receive_some(polls, way, r, &mut into, left.min(limit));
        }
    }
    into
}
