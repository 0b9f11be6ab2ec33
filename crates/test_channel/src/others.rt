//! Rows that no script has. A call that is refused memory is made again, and the row goes on as if
//! nothing had been.
use crate::blocked::Call;
use crate::{blocked, lists, many, maps, plain, ready, records};
use Row::{List, Map, MapInChunks, Named, Plain, Ready, ReceiveMany, Recorder, SendMany};
use anyhow::Result;
use std::alloc::AllocGlobal;
use std::random::RandomSource;
use std::rt::Clock;
use std::sync::Wait;
use std::thread::Threads;

#[derive(Clone, Copy)]
enum Row {
    /// At a capacity, so many messages are sent by one future, in so many polls.
    SendMany(usize, usize, usize),
    /// So many messages are received by one future.
    ReceiveMany(usize),
    Recorder,
    /// What is ready at once, and then what waits.
    Ready,
    /// At a capacity, so many messages go from one future to another in one task.
    List(usize, usize),
    /// By two threads.
    Plain(Call),
    Named(Call),
    /// By so many workers.
    Map(usize),
    MapInChunks(usize),
}

/// All rows, by their names.
const ROWS: [(&str, Row); 19] = [
    ("a send of many that waits", SendMany(2, 5, 3)),
    ("a send of many without a capacity", SendMany(0, 300, 1)),
    ("a receive of many", ReceiveMany(2)),
    ("a receive of many in rounds", ReceiveMany(300)),
    ("the recorder's calls", Recorder),
    ("what is ready at once", Ready),
    ("an empty list by name", List(1, 0)),
    ("a list by name", List(1, 1000)),
    ("a long list by name", List(1024, 100_000)),
    ("a blocked send", Plain(Call::Send)),
    ("a blocked receive", Plain(Call::Receive)),
    ("a blocked receive of many", Plain(Call::ReceiveMany)),
    ("a blocked send by name", Named(Call::Send)),
    ("a blocked receive by name", Named(Call::Receive)),
    ("a blocked receive of all by name", Named(Call::ReceiveMany)),
    ("a map by one thread", Map(1)),
    ("a map by three threads", Map(3)),
    ("a map in chunks by one thread", MapInChunks(1)),
    ("a map in chunks by three threads", MapInChunks(3)),
];

impl Row {
    /// Makes the row, and answers how many calls were refused memory and made again.
    fn make<R>(self, rt: &R) -> Result<usize>
    where
        R: Wait + Threads + Clone + Drop + Send + Sync + Clock + RandomSource + AllocGlobal,
    {
        match self {
            SendMany(capacity, count, polls) => many::send(rt, capacity, count, polls),
            ReceiveMany(count) => many::receive(rt, count),
            Recorder => records::calls(rt),
            Ready => ready::polls(rt),
            List(capacity, count) => lists::relay(rt, capacity, count),
            Named(call) => blocked::make_call(rt, call),
            Plain(call) => plain::make_call(rt, call),
            Map(workers) => maps::map(rt, false, workers),
            MapInChunks(workers) => maps::map(rt, true, workers),
        }
    }
}

/// Makes the rows of this name, or all, and answers whether a call was made again.
pub fn make<R>(rt: &R, asked: Option<&str>) -> Result<bool>
where
    R: Wait + Threads + Clone + Drop + Send + Sync + Clock + RandomSource + AllocGlobal + Print,
{
    let mut was_refused = false;
    for (name, row) in ROWS {
        if asked.is_none() || asked == Some(name) {
            was_refused |= row.make(rt)? > 0;
            println!(rt; "{name}")?;
        }
    }
    Ok(was_refused)
}
