//! Maps a pure function over a list on all processors, and prints the answers in order.
//!
//! The answers are proved to be those of the plain map, whatever thread found them and in whatever
//! order.
#![tactic(auto)]

ghost use Rattle.std.specs.Prelude.{count_ones};

use anyhow::Result;
use parallel_map::{Job, Open, StampMaker, map_all};
use std::thread;

/// The numbers below this one are mapped.
const LIMIT: u64 = 16;

/// How many chunks of numbers may be on their way to the workers.
const CAPACITY: usize = 64;

/// How many ones a number has in binary.
struct CountOnes;

impl Job<u64, u32> for CountOnes {
    ghost answer = { λ number. count_ones number };

    fn run(&self, number: &u64) -> u32 {
        number.count_ones()
    }
}

fn main(rt: HostRuntime) -> Result<()> {
    let alloc = rt.alloc();
    let numbers = (0..LIMIT).collect::<Vec<_>>(alloc)?;
    let workers = thread::available_parallelism(&rt)?.get();
    let mut maker = StampMaker::new();
    let ones = map_all(
        &rt,
        alloc,
        &CountOnes,
        &Open,
        numbers.as_slice(),
        workers,
        CAPACITY,
        &mut maker,
    )?;
    for (number, count) in numbers.iter().zip(ones.iter()) {
        println!(rt; "{number} has {count}")?;
    }
    Ok(())
}
