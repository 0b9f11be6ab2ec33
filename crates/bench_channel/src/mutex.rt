//! What a lock and an unlock of the ruled mutex cost, in turn with those of std's mutex: the work is
//! to lock, add 1 and unlock.
mod ruled;

use anyhow::Result;
use std::alloc::AllocGlobal;
use std::rt::Clock;
use std::sync::{Mutex, Wait};
use std::thread;
use std::thread::Threads;
use std::time::Instant;

/// How often one thread alone takes the lock.
const ALONE: u64 = 10_000_000;

/// How often each of several threads takes it.
const EACH: u64 = 1_000_000;

const ROUNDS: usize = 9;

/// A number in a mutex.
trait Counter {
    /// Adds 1 so many times, under a lock each time.
    fn add_many<R: Wait>(&self, rt: &R, count: u64);

    /// The number.
    fn sum<R: Wait>(&self, rt: &R) -> u64;
}

impl Counter for Mutex<u64> {
    #[inline(never)]
    fn add_many<R: Wait>(&self, rt: &R, count: u64) {
        for _ in 0..count {
            let mut guard = self.lock(rt);
            *guard = guard.wrapping_add(1);
        }
    }

    fn sum<R: Wait>(&self, rt: &R) -> u64 {
        *self.lock(rt)
    }
}

/// Hundredths of a nanosecond for each lock and unlock of one round, on a counter at 0.
fn round<R, C>(rt: &R, counter: &C, threads: usize) -> Result<u128>
where
    R: Threads + Wait + AllocGlobal + Clock + Sync,
    C: Counter + Sync,
{
    let each = if threads == 1 { ALONE } else { EACH };
    let start = Instant::now(rt)?;
    if threads == 1 {
        counter.add_many(rt, each);
    } else {
        let done = thread::map_indices(
            rt,
            rt.alloc(),
            threads,
            &|_: usize| {
                counter.add_many(rt, each);
                1u64
            },
        )?;
        drop(done);
    }
    let nanos = start.elapsed(rt)?.as_nanos();
    let units = each.saturating_mul(threads as u64);
    anyhow::ensure!(counter.sum(rt) == units, "a step was lost");
    Ok(nanos.saturating_mul(100) / u128::from(units.max(1)))
}

/// One row: the median of the rounds, with the least and the greatest.
fn row<R: Print>(rt: &R, name: &str, threads: usize, mut times: [u128; ROUNDS]) -> Result<()> {
    times.sort_unstable();
    print!(rt; "| {name} | {threads} ")?;
    for time in [times[ROUNDS / 2], times[0], times[ROUNDS - 1]] {
        print!(rt; "| {}.{:02} ", time / 100, time % 100)?;
    }
    println!(rt; "|")?;
    Ok(())
}

fn measure<R>(rt: &R, threads: usize) -> Result<()>
where
    R: Threads + Wait + AllocGlobal + Clock + Print + Sync,
{
    let (mut ruled_times, mut std_times) = ([0; ROUNDS], [0; ROUNDS]);
    for place in 0..ROUNDS {
        ruled_times[place] = round(rt, &ruled::counter(rt.alloc())?, threads)?;
        std_times[place] = round(rt, &Mutex::new(0u64), threads)?;
    }
    row(rt, "ruled_mutex", threads, ruled_times)?;
    row(rt, "std", threads, std_times)
}

/// Prints the table of both mutexes.
pub fn report<R>(rt: &R) -> Result<()>
where
    R: Threads + Wait + AllocGlobal + Clock + Print + Sync,
{
    println!(rt; "| Mutex | Threads | Median, ns | Least | Greatest |\n|---|---|---|---|---|")?;
    for threads in [1, 2, 4] {
        measure(rt, threads)?;
    }
    Ok(())
}

/// How many threads take a lock at once: so many that some don't run while they have it.
const MANY: usize = 16;

/// Prints a line when one thread has taken a lock, and when many have.
pub fn held<R>(rt: &R) -> Result<()>
where
    R: Threads + Wait + AllocGlobal + Clock + Print + Sync,
{
    for (threads, who) in [
        (1, "a thread took a lock alone"),
        (MANY, "many threads took a lock"),
    ] {
        round(rt, &ruled::counter(rt.alloc())?, threads)?;
        println!(rt; "{who}")?;
    }
    Ok(())
}
