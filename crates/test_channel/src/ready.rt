//! Polls that are ready at once, which want no memory.
use crate::many::channel;
use anyhow::{Result, anyhow};
use async_channel::{Receiver, Sender};
use futures::Stream;
use futures::task::Poll;
use futures::test::MockTask;
use std::alloc::AllocGlobal;
use std::random::RandomSource;
use std::sync::Wait;

/// Polls a stream that has a message, and then until it waits. The answer is how many polls were
/// made again, since memory was refused.
fn stream<R: Wait + Clone + Drop>(
    task: &MockTask,
    s: &Sender<u64, R>,
    r: &mut Receiver<u64, R>,
) -> Result<usize> {
    drop(s.try_send(1));
    if !matches!(&task.enter(|cx| r.poll_next(cx)), Poll::Ready(Some(Ok(1)))) {
        return Err(anyhow!("a stream doesn't give what is there"));
    }
    for again in 0..2 {
        if task.enter(|cx| r.poll_next(cx)).is_pending() {
            return Ok(again);
        }
    }
    Err(anyhow!("a stream was refused memory twice"))
}

/// Makes the polls. The answer is how many were made again.
pub fn polls<R>(rt: &R) -> Result<usize>
where
    R: Wait + Clone + Drop + RandomSource + AllocGlobal,
{
    let task = MockTask::new(rt)?;
    let (s, mut r) = channel(rt, 1)?;
    let again = stream(&task, &s, &mut r)?;
    drop(r);
    if !matches!(&task.poll(&mut s.closed()), Poll::Ready(Ok(()))) {
        return Err(anyhow!("a wait for the last receiver wants memory"));
    }
    Ok(again)
}
