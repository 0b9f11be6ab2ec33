//! Futures that move many messages. One that is refused memory in a later round has moved those of
//! the rounds before, and goes on with the rest.
use anyhow::{Result, anyhow};
use async_channel::inspect::who_waits;
use async_channel::{
    Group, OutOfMemory, Receiver, RecvMany, SendMany, Sender, StampMaker, WeakSender, bounded,
    unbounded,
};
use futures::task::Poll;
use futures::test::MockTask;
use std::alloc::{AllocGlobal, Global};
use std::collections::VecDeque;
use std::random::RandomSource;
use std::sync::Wait;

/// A channel. At capacity 0 it is unbounded.
pub fn channel<R: Wait + Clone + Drop + AllocGlobal>(
    rt: &R,
    capacity: usize,
) -> Result<(Sender<u64, R>, Receiver<u64, R>)> {
    let maker = &mut StampMaker::new();
    if capacity > 0 {
        Ok(bounded(rt, rt.alloc(), capacity, maker)?)
    } else {
        Ok(unbounded(rt, rt.alloc(), maker)?)
    }
}

/// Numbers that rise from 0.
pub fn rising(alloc: Global, count: usize) -> Result<VecDeque<u64, Global>> {
    let mut numbers = VecDeque::with_capacity(alloc, count)?;
    for number in 0..count as u64 {
        numbers.push_back(number)?;
    }
    Ok(numbers)
}

/// Sees that so many messages came, in order.
pub fn see_all(came: &[u64], count: usize) -> Result<()> {
    for (place, number) in came.iter().enumerate() {
        if *number != place as u64 {
            return Err(anyhow!("{number} came at place {place}"));
        }
    }
    if came.len() != count {
        return Err(anyhow!("{} of {count} messages came", came.len()));
    }
    Ok(())
}

/// Polls a send until it waits, or all went in. The answer is how often it was refused memory.
fn poll_send<R: Wait + Clone + Drop>(
    task: &MockTask,
    s: &Sender<u64, R>,
    send: &mut SendMany<'_, u64, R>,
) -> Result<usize> {
    let (held, sent) = (s.len(), send.sent());
    for again in 0..2 {
        let polled = task.poll(send);
        if s.len().checked_sub(held) != send.sent().checked_sub(sent) {
            return Err(anyhow!("what went in isn't there"));
        }
        match polled {
            Poll::Ready(Err(OutOfMemory)) => {}
            Poll::Ready(Ok(Err(_))) => return Err(anyhow!("the channel isn't closed")),
            Poll::Ready(Ok(Ok(()))) | Poll::Pending => return Ok(again),
        }
    }
    Err(anyhow!("a send was refused memory twice"))
}

/// Sends so many messages by one future, in so many polls, after each of which all are received.
/// The answer is how many polls were made again, since memory was refused.
pub fn send<R>(rt: &R, capacity: usize, count: usize, polls: usize) -> Result<usize>
where
    R: Wait + Clone + Drop + RandomSource + AllocGlobal,
{
    let (s, r) = channel(rt, capacity)?;
    let (task, mut came) = (MockTask::new(rt)?, Vec::with_capacity(rt.alloc(), count)?);
    let (mut send, mut again) = (s.send_many(rising(rt.alloc(), count)?), 0usize);
    for _ in 0..polls {
        again = again.saturating_add(poll_send(&task, &s, &mut send)?);
        let waits = !send.is_terminated();
        if r.try_recv_many(&mut came, usize::MAX)?.is_err() || task.is_woken() != waits {
            return Err(anyhow!("nothing was there, or the wrong ones were told"));
        }
    }
    see_all(came.as_slice(), count)?;
    Ok(again)
}

/// Sends so many messages. The answer is how many calls were made again.
fn send_all<R: Wait + Clone + Drop>(
    s: &Sender<u64, R>,
    mut from: VecDeque<u64, Global>,
) -> Result<usize> {
    for again in 0..2 {
        drop(s.try_send_many(&mut from));
        if from.is_empty() {
            return Ok(again);
        }
    }
    Err(anyhow!("a batch was refused memory twice"))
}

/// Polls a receive until it waits, or has all that is there. The answer is how often it was refused
/// memory.
fn poll_receive<R: Wait + Clone + Drop>(
    task: &MockTask,
    r: &Receiver<u64, R>,
    weak: &WeakSender<u64, R>,
    recv: &mut RecvMany<'_, u64, R>,
) -> Result<usize> {
    let waits = r.is_empty();
    for again in 0..2 {
        let is_pending = task.poll(recv).is_pending();
        if is_pending && !waits {
            return Err(anyhow!("a receive waits for what is there"));
        }
        if waits && who_waits(weak, Group::Receives).waiting != usize::from(is_pending) {
            return Err(anyhow!("a refused receive waits, or a pending one doesn't"));
        }
        if is_pending == waits && r.is_empty() {
            return Ok(again);
        }
    }
    Err(anyhow!("a receive was refused memory twice"))
}

/// Receives so many messages by one future, which waits for them. The answer is how many calls were
/// made again, since memory was refused.
pub fn receive<R>(rt: &R, count: usize) -> Result<usize>
where
    R: Wait + Clone + Drop + RandomSource + AllocGlobal,
{
    let (s, r) = channel(rt, 0)?;
    let (task, weak, mut came) = (MockTask::new(rt)?, s.downgrade()?, Vec::new(rt.alloc()));
    let from = rising(rt.alloc(), count)?;
    let mut recv = r.recv_many(&mut came, usize::MAX);
    let again = poll_receive(&task, &r, &weak, &mut recv)?;
    let again = again.saturating_add(send_all(&s, from)?);
    if !task.is_woken() {
        return Err(anyhow!("the receive wasn't told"));
    }
    let again = again.saturating_add(poll_receive(&task, &r, &weak, &mut recv)?);
    drop(recv);
    see_all(came.as_slice(), count)?;
    Ok(again)
}
