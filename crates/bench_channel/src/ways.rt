//! The ways in which a list is mapped, and how long each takes.
use crate::job::{Stir, stir_number};
use anyhow::Result;
use async_channel::StampMaker;
use parallel_map::{Open, map_all};
use rayon::prelude::*;
use std::alloc::{AllocError, AllocGlobal, Global};
use std::rt::Clock;
use std::sync::Wait;
use std::thread::{Threads, map_chunks};
use std::time::Instant;

/// How many times each way is timed. The best time counts.
const RUNS: usize = 3;

/// How many chunks may be on their way to the workers.
const CAPACITY: usize = 64;

/// How a list is mapped.
#[derive(Clone, Copy)]
pub enum Way {
    /// One input after the other, on one thread.
    Plain,
    /// By the kit's rayon, on as many threads as it takes, in pieces as small as it likes.
    Rayon,
    /// By std's `map_chunks`, in this number of chunks, each by a thread.
    Chunks {
        /// How many.
        count: usize,
    },
    /// By `map_all`, with this number of workers.
    Map {
        /// How many.
        workers: usize,
    },
}

/// The best of some runs.
#[derive(Clone, Copy)]
pub struct Best {
    /// How long it took.
    pub nanos: u128,
    /// The answers added up, without what is above 64 bits.
    pub total: u64,
}

fn plain<const STEPS: u64>(
    alloc: Global,
    inputs: &[u64],
) -> std::result::Result<Vec<u64>, AllocError> {
    let mut answers = Vec::with_capacity(alloc, inputs.len())?;
    for input in inputs {
        answers.push(stir_number::<STEPS>(*input))?;
    }
    Ok(answers)
}

fn by_chunks<const STEPS: u64, R: AllocGlobal + Threads + Sync>(
    rt: &R,
    inputs: &[u64],
    count: usize,
) -> Result<Vec<u64>> {
    let (alloc, size) = (rt.alloc(), inputs.len().div_ceil(count.max(1)).max(1));
    let chunks = map_chunks(
        rt,
        alloc,
        inputs,
        size,
        &|_, chunk: &[u64]| { plain::<STEPS>(alloc, chunk) },
    )?;
    let mut answers = Vec::with_capacity(alloc, inputs.len())?;
    for chunk in chunks {
        answers.append(&mut chunk?)?;
    }
    Ok(answers)
}

fn by_rayon<const STEPS: u64, R: AllocGlobal + Threads + Sync>(
    rt: &R,
    inputs: &[u64],
) -> Result<Vec<u64>> {
    let answers = inputs
        .par_iter()
        .with_min_len(1)
        .map(|input: &u64| -> u64 { stir_number::<STEPS>(*input) })
        .collect(rt, rt.alloc())?;
    Ok(answers)
}

/// The answers to all inputs.
fn answers<const STEPS: u64, R>(
    rt: &R,
    job: &Stir<STEPS>,
    inputs: &[u64],
    way: Way,
) -> Result<Vec<u64>>
where
    R: Threads + Wait + Clone + Drop + AllocGlobal + Send + Sync,
{
    match way {
        Way::Plain => Ok(plain::<STEPS>(rt.alloc(), inputs)?),
        Way::Chunks { count } => by_chunks::<STEPS, R>(rt, inputs, count),
        Way::Rayon => by_rayon::<STEPS, R>(rt, inputs),
        Way::Map { workers } => {
            let workers = workers.max(1);
            let mut maker = StampMaker::new();
            let answers = map_all(
                rt,
                rt.alloc(),
                job,
                &Open,
                inputs,
                workers,
                CAPACITY,
                &mut maker,
            )?;
            Ok(answers)
        }
    }
}

/// The answers added up, without what is above 64 bits.
fn total_of(answers: &[u64]) -> u64 {
    let mut total = 0u64;
    for answer in answers {
        total = total.wrapping_add(*answer);
    }
    total
}

/// Maps the inputs some times, and answers the best time.
pub fn best_of<const STEPS: u64, R>(
    rt: &R,
    job: &Stir<STEPS>,
    inputs: &[u64],
    way: Way,
) -> Result<Best>
where
    R: Threads + Wait + Clone + Drop + AllocGlobal + Clock + Send + Sync,
{
    let mut best = Best {
        nanos: u128::MAX,
        total: 0,
    };
    for _ in 0..RUNS {
        let start = Instant::now(rt)?;
        let answers = answers(rt, job, inputs, way)?;
        let nanos = start.elapsed(rt)?.as_nanos();
        best = Best {
            nanos: nanos.min(best.nanos),
            total: total_of(answers.as_slice()),
        };
    }
    Ok(best)
}
