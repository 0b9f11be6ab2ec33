//! A recorder, whose journal no contract follows through its lock.
use Call::{Close, IsClosed, Len, TryRecv, TrySend};
use Outcome::{Count, Flag, Received, TrySent};
use anyhow::{Result, anyhow};
use async_channel::StampMaker;
use channel_record::{Book, Call, FinishError, OutOfMemory, Outcome, Recorder, TrySendError};
use std::alloc::AllocGlobal;
use std::sync::Wait;

/// The calls on a channel of one message, each with its clerk and its outcome. The history asks for
/// more room at the fifth, and clerk 1 at its own fifth.
const CALLS: [(usize, Call<u64>, Outcome<u64>); 8] = [
    (0, TrySend(1), TrySent(Ok(()))),
    (1, TrySend(2), TrySent(Err(TrySendError::Full(2)))),
    (1, Len, Count(1)),
    (1, TryRecv, Received(Ok(1))),
    (1, Len, Count(0)),
    (1, TrySend(3), TrySent(Ok(()))),
    (0, Close, Flag(true)),
    (1, IsClosed, Flag(true)),
];

/// What a call answers. One that is refused memory is made again, and counted.
macro_rules! made {
    ($again:expr, $call:expr) => {
        match $call {
            Ok(answer) => answer,
            Err(OutOfMemory) => {
                *$again = $again.saturating_add(1);
                $call?
            }
        }
    };
}

/// Makes the calls by two clerks, and hands these in. A call that is refused memory is made again
/// and counted.
fn finish<R: Wait + AllocGlobal>(
    rt: &R,
    again: &mut usize,
) -> Result<std::result::Result<Book<u64>, FinishError>> {
    let recorder = Recorder::bounded(rt.alloc(), 1, &mut StampMaker::new())?;
    let mut clerks = Vec::with_capacity(rt.alloc(), 2)?;
    for _ in 0..2u8 {
        clerks.push(made!(again, recorder.clerk(rt)))?;
    }
    for (place, call, expected) in CALLS {
        let Some(clerk) = clerks.get_mut(place) else {
            return Err(anyhow!("a clerk is missing"));
        };
        if !recorder.owns(clerk) {
            return Err(anyhow!("a clerk is another recorder's"));
        }
        if made!(again, recorder.call(rt, clerk, call)) != expected {
            return Err(anyhow!("a call has another outcome"));
        }
    }
    Ok(recorder.finish(clerks))
}

/// The book of the calls. A recorder whose `finish` is refused memory is gone: all calls are made
/// again.
fn book<R: Wait + AllocGlobal>(rt: &R, again: &mut usize) -> Result<Book<u64>> {
    match finish(rt, again)? {
        Ok(book) => Ok(book),
        Err(FinishError::OutOfMemory) => {
            *again = again.saturating_add(1);
            Ok(finish(rt, again)??)
        }
        Err(error) => Err(anyhow!("finish answers: {error}")),
    }
}

/// Makes the calls, and reads the book. The answer is how many calls were made again, since memory
/// was refused.
pub fn calls<R: Wait + AllocGlobal>(rt: &R) -> Result<usize> {
    let mut again = 0usize;
    let book = book(rt, &mut again)?;
    let are_there = book.history().len() == CALLS.len();
    if !are_there
        || book.places(0) != Some([0, 6].as_slice())
        || book.places(1) != Some([1, 2, 3, 4, 5, 7].as_slice())
    {
        return Err(anyhow!("the book has other calls"));
    }
    Ok(again)
}
