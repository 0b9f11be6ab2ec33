//! Threads that block.
use crate::peers::Crossbeam;
use crate::report::{Ends, Form, both_ways, channel, row};
use crate::ruled;
use anyhow::Result;
use std::alloc::AllocGlobal;
use std::collections::VecDeque;
use std::rt::Clock;
use std::sync::Wait;
use std::thread;
use std::thread::Threads;
use std::time::Instant;

/// How many messages a batch has at most, as its rows say.
const BATCH: usize = 32;

/// Both ends of a channel of numbers, which threads share.
trait Line {
    /// Sends so many numbers, and blocks while the channel is full.
    fn send_some(&self, count: u64);

    /// Receives so many, and answers their sum.
    fn receive_some(&self, count: u64) -> u64;
}

impl<R: Wait + Clone + Drop> Line for Ends<R> {
    fn send_some(&self, count: u64) {
        for number in 0..count {
            let _ = self.sender.send_blocking(number);
        }
    }

    fn receive_some(&self, count: u64) -> u64 {
        let mut sum = 0u64;
        for _ in 0..count {
            if let Ok(Ok(number)) = self.receiver.recv_blocking() {
                sum = sum.wrapping_add(number);
            }
        }
        sum
    }
}

/// The same, in batches.
#[derive(Drop)]
struct Batches<'a, R: Wait + Clone + Drop + AllocGlobal> {
    rt: &'a R,
    ends: Ends<R>,
}

impl<R: Wait + Clone + Drop + AllocGlobal> Line for Batches<'_, R> {
    fn send_some(&self, count: u64) {
        let mut batch = VecDeque::new(self.rt.alloc());
        for number in 0..count {
            let _ = batch.push_back(number);
            if batch.len() >= BATCH {
                let _ = self.ends.sender.send_many_blocking(&mut batch);
            }
        }
        let _ = self.ends.sender.send_many_blocking(&mut batch);
    }

    fn receive_some(&self, count: u64) -> u64 {
        let mut sum = 0u64;
        let mut left = count as usize;
        let mut batch = Vec::new(self.rt.alloc());
        for _ in 0..count {
            if left == 0 {
                return sum;
            }
            let _ = self
                .ends
                .receiver
                .recv_many_blocking(&mut batch, left.min(BATCH));
            left = left.saturating_sub(batch.len());
            sum = batch
                .iter()
                .fold(sum, |all, number| all.wrapping_add(*number));
            batch.clear();
        }
        sum
    }
}

impl<R: Wait> Line for Crossbeam<'_, R> {
    fn send_some(&self, count: u64) {
        for number in 0..count {
            let _ = self.sender.send(self.rt, number);
        }
    }

    fn receive_some(&self, count: u64) -> u64 {
        let mut sum = 0u64;
        for _ in 0..count {
            if let Ok(number) = self.receiver.recv(self.rt) {
                sum = sum.wrapping_add(number);
            }
        }
        sum
    }
}

/// As many senders as receivers, each on a thread of its own.
fn between<R, L>(
    rt: &R,
    form: Form<'_>,
    work: (&str, &str),
    line: L,
    side: usize,
    count: u64,
) -> Result<()>
where
    R: Threads + AllocGlobal + Clock + Print + Sync,
    L: Line + Sync + Drop,
{
    let each = count / (side as u64).max(1);
    let run = |i: usize| -> u64 {
        if i % 2 == 0 {
            line.send_some(each);
            0
        } else {
            line.receive_some(each)
        }
    };
    timed(rt, form, work, side.saturating_mul(2), count, &run)
}

/// Runs this on so many threads, by their numbers, and prints the row.
fn timed<R, F>(
    rt: &R,
    form: Form<'_>,
    work: (&str, &str),
    threads: usize,
    count: u64,
    run: &F,
) -> Result<()>
where
    R: Threads + AllocGlobal + Clock + Print + Sync,
    F: Fn(usize) -> u64 + Sync,
    requires { F.IsAlwaysCallable run.now }
{
    let start = Instant::now(rt)?;
    let sums = thread::map_indices(rt, rt.alloc(), threads, run)?;
    let sum = sums.iter().fold(0u64, |all, sum| all.wrapping_add(*sum));
    row(rt, form, work, count, start, sum)
}

/// The rows of a channel with this capacity: message by message, in batches, and the kit's.
fn rows<R>(
    rt: &R,
    form: Form<'_>,
    work: &str,
    capacity: Option<usize>,
    side: usize,
    count: u64,
) -> Result<()>
where
    R: Threads + Wait + Clone + Drop + AllocGlobal + Clock + Print + Send + Sync,
{
    between(rt, form, (work, ""), channel(rt, capacity)?, side, count)?;
    let batches = Batches {
        rt,
        ends: channel(rt, capacity)?,
    };
    between(rt, form, (work, ", batches of 32"), batches, side, count)?;
    let kit = Crossbeam::new(rt, capacity)?;
    between(rt, form, (work, ", crossbeam_channel"), kit, side, count)
}

/// A message there and back.
fn round_trip<R>(rt: &R, form: Form<'_>) -> Result<()>
where
    R: Threads + Wait + Clone + Drop + AllocGlobal + Clock + Print + Send + Sync,
{
    const COUNT: u64 = 10_000;
    let (there, back) = &both_ways(rt)?;
    let run = |i: usize| -> u64 {
        let mut sum = 0u64;
        for number in 0..COUNT {
            if i == 0 {
                let _ = there.sender.send_blocking(number);
                sum = sum.wrapping_add(back.receive_some(1));
            } else {
                let got = there.receive_some(1);
                let _ = back.sender.send_blocking(got);
            }
        }
        sum
    };
    let work = ("3 round trip, two bounded(1)", "");
    timed(rt, form, work, 2, COUNT, &run)
}

pub fn singles<R>(rt: &R, form: Form<'_>) -> Result<()>
where
    R: Threads + Wait + Clone + Drop + AllocGlobal + Clock + Print + Send + Sync,
{
    round_trip(rt, form)?;
    rows(rt, form, "3 spsc bounded(1)", Some(1), 1, 20_000)?;
    rows(rt, form, "3 spsc bounded(128)", Some(128), 1, 200_000)?;
    ruled::singles(rt, form, "3 spsc bounded(128)", 128, 200_000)?;
    rows(rt, form, "3 spsc unbounded", None, 1, 200_000)
}

pub fn crowds<R>(rt: &R, form: Form<'_>) -> Result<()>
where
    R: Threads + Wait + Clone + Drop + AllocGlobal + Clock + Print + Send + Sync,
{
    rows(rt, form, "4 mpmc 4x4 bounded(1)", Some(1), 4, 20_000)?;
    rows(rt, form, "4 mpmc 4x4 bounded(128)", Some(128), 4, 100_000)?;
    rows(rt, form, "4 mpmc 4x4 unbounded", None, 4, 100_000)?;
    rows(rt, form, "4 mpmc 8x8 bounded(128)", Some(128), 8, 100_000)?;
    rows(rt, form, "4 mpmc 32x32 bounded(128)", Some(128), 32, 96_000)
}
