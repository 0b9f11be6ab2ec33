//! Two stages in one task, joined by a channel: numbers are sent, and their squares are gathered.
//!
//! The channel has room for one message. So a stage that is ahead waits for the other one, and the
//! task goes on with whichever stage was woken.
#![tactic(auto)]

use anyhow::Result;
use async_channel::{StampMaker, bounded};
use futures::executor::block_on;
use futures::future::join;
use futures::{FutureExt, StreamExt, TryStreamExt, stream};

/// The numbers from 1 to this one are sent.
const LIMIT: u32 = 6;

/// How many messages the channel holds before its sender waits.
const CAPACITY: usize = 1;

fn main(rt: HostRuntime) -> Result<()> {
    let mut maker = StampMaker::new();
    let (s, r) = bounded(&rt, rt.alloc(), CAPACITY, &mut maker)?;

    // A stage that has nothing left to send closes the channel, which ends the next one's stream.
    let send = stream::iter(1..=LIMIT)
        .then(|number| s.send(number))
        .collect(rt.alloc())
        .map(|answers| {
            s.close();
            answers
        });
    let gather = r
        .map_ok(|number: u32| number.wrapping_mul(number))
        .collect(rt.alloc());

    let (sent, gathered) = block_on(&rt, join(send, gather))?;
    for answer in sent? {
        answer??;
    }
    for square in gathered? {
        println!(rt; "{}", square?)?;
    }
    Ok(())
}
