//! An actor on a thread of its own, with a mailbox that keeps the newest messages.
//!
//! A sensor sends readings by a weak handle, which doesn't keep the mailbox open. When the mailbox
//! is full the oldest reading makes room. The actor ends when it has seen enough, and the sensor
//! learns it from the closed mailbox.
#![tactic(auto)]

use anyhow::Result;
use async_channel::{Receiver, SendError, StampMaker, WeakSender, bounded};
use futures::executor::block_on;
use std::sync::Wait;
use std::thread;

/// How many readings the mailbox keeps, and the actor takes.
const KEPT: usize = 2;

/// The highest of the readings that the actor takes.
fn highest<R: Wait + Clone + Drop>(mailbox: Receiver<u64, R>) -> Result<u64> {
    let mut highest = 0;
    for _ in 0..KEPT {
        highest = mailbox.recv_blocking()??.max(highest);
    }
    Ok(highest)
}

/// Puts a reading into the mailbox, and says what became of it.
fn report<R: Wait + Clone + Drop + Print>(
    rt: &R,
    address: &WeakSender<u64, R>,
    reading: u64,
) -> Result<()> {
    let Some(sender) = address.upgrade()? else {
        println!(rt; "{reading} has no reader")?;
        return Ok(());
    };
    match sender.force_send(reading)? {
        Ok(None) => println!(rt; "{reading} is kept")?,
        Ok(Some(oldest)) => println!(rt; "{reading} is kept, {oldest} is let go")?,
        Err(SendError(reading)) => println!(rt; "{reading} comes back")?,
    }
    Ok(())
}

fn main(rt: HostRuntime) -> Result<()> {
    let mut maker = StampMaker::new();
    let (sender, mailbox) = bounded(&rt, rt.alloc(), KEPT, &mut maker)?;
    let address = sender.downgrade()?;

    for reading in [17, 21, 19] {
        report(&rt, &address, reading)?;
    }
    let actor = thread::spawn(&rt, move || highest(mailbox))?;

    // It is ready when the actor's end of the mailbox, the only one, is gone.
    block_on(&rt, sender.closed())??;
    report(&rt, &address, 18)?;

    println!(rt;
        "the highest of the last {KEPT} readings is {}",
        actor.join(&rt)?
    )?;
    Ok(())
}
