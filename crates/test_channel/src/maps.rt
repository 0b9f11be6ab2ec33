//! Maps by threads. Which thread is refused memory depends on how they run. The requests before the
//! first worker is asked for are always the same.
ghost use Rattle.std.specs.Prelude.{◌*◌, ◌%◌, ◌^◌};

use anyhow::{Result, anyhow};
use async_channel::StampMaker;
use parallel_map::{Job, MapError, Open, map_all, map_in_chunks};
use std::alloc::AllocGlobal;
use std::sync::Wait;
use std::thread::Threads;

/// The square of a number, without what is above 64 bits.
struct Square;

impl Job<u64, u64> for Square {
    ghost answer = { λ number. (number * number) % 2 ^ 64 };

    fn run(&self, number: &u64) -> u64 {
        number.wrapping_mul(*number)
    }
}

/// Maps five numbers, each in a chunk of its own if it is by chunks.
fn mapped<R>(rt: &R, is_by_chunks: bool, workers: usize) -> std::result::Result<Vec<u64>, MapError>
where
    R: Wait + Threads + Clone + Drop + Send + Sync + AllocGlobal,
{
    let (alloc, inputs, maker) = (rt.alloc(), &[3, 4, 5, 6, 7], &mut StampMaker::new());
    let workers = workers.max(1);
    if is_by_chunks {
        map_in_chunks(rt, alloc, &Square, &Open, inputs, workers, 2, 1, maker)
    } else {
        map_all(rt, alloc, &Square, &Open, inputs, workers, 1, maker)
    }
}

/// Fails if there are no answers, or others.
fn checked(outcome: std::result::Result<Vec<u64>, MapError>) -> Result<()> {
    if outcome?.as_slice() != [9, 16, 25, 36, 49].as_slice() {
        return Err(anyhow!("other answers"));
    }
    Ok(())
}

/// Maps, and again if that is refused. The answer is how often it was for want of memory. Any
/// other error fails, also if the second map goes well.
pub fn map<R>(rt: &R, is_by_chunks: bool, workers: usize) -> Result<usize>
where
    R: Wait + Threads + Clone + Drop + Send + Sync + AllocGlobal,
{
    let refused = match mapped(rt, is_by_chunks, workers) {
        Err(error) => error,
        answers => return checked(answers).map(|()| 0),
    };
    checked(mapped(rt, is_by_chunks, workers))?;
    if refused != MapError::OutOfMemory {
        return Err(anyhow!("{refused}"));
    }
    Ok(1)
}
