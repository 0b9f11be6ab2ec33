//! One measured row, and a channel to measure.
use anyhow::Result;
use async_channel::{Receiver, Sender, StampMaker, bounded, unbounded};
use std::alloc::AllocGlobal;
use std::rt::Clock;
use std::sync::Wait;
use std::time::Instant;

/// How rows are printed.
#[derive(Clone, Copy)]
pub enum Form<'a> {
    /// Rows of a table: the work, and the nanoseconds that one of its units took.
    Table,
    /// Fields between tabs, for a program that compares several: the work, this name, how many
    /// units were done, the nanoseconds that all of them took, and a sum of what came out.
    Fields(&'a str),
}

/// Prints the time since `start`, in which this many units of the work were done. Its name is two
/// texts, one after the other.
pub fn row<R: Clock + Print>(
    rt: &R,
    form: Form<'_>,
    (work, detail): (&str, &str),
    units: u64,
    start: Instant,
    sum: u64,
) -> Result<()> {
    let nanos = start.elapsed(rt)?.as_nanos();
    let tenths = nanos.saturating_mul(10) / u128::from(units.max(1));
    let printed = match form {
        Form::Fields(peer) => println!(rt; "{work}{detail}\t{peer}\t{units}\t{nanos}\t{sum}"),
        Form::Table => println!(rt; "| {work}{detail} | {}.{} |", tenths / 10, tenths % 10),
    };
    Ok(printed?)
}

/// Both ends of a channel of numbers.
#[derive(Drop)]
pub struct Ends<R: Wait + Clone + Drop> {
    /// Where numbers go in.
    pub sender: Sender<u64, R>,
    /// Where they come out.
    pub receiver: Receiver<u64, R>,
}

/// A channel: bounded if there is a capacity, and else unbounded.
pub fn channel<R: Wait + Clone + Drop + AllocGlobal>(
    rt: &R,
    capacity: Option<usize>,
) -> Result<Ends<R>> {
    let mut maker = StampMaker::new();
    let (sender, receiver) = match capacity {
        Some(cap) if cap > 0 => bounded(rt, rt.alloc(), cap, &mut maker)?,
        _ => unbounded(rt, rt.alloc(), &mut maker)?,
    };
    Ok(Ends { sender, receiver })
}

/// A channel there and one back, with room for one message each.
pub fn both_ways<R: Wait + Clone + Drop + AllocGlobal>(rt: &R) -> Result<(Ends<R>, Ends<R>)> {
    let there = channel(rt, Some(1))?;
    Ok((there, channel(rt, Some(1))?))
}
