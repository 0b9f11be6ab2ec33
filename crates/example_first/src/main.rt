//! A thread sends, and the main one receives.
#![tactic(auto)]

use anyhow::Result;
use async_channel::{Sender, StampMaker, bounded};
use std::sync::Wait;
use std::thread;

/// Sends three numbers, and waits while the channel is full.
fn send_three<R: Wait + Clone + Drop>(s: &Sender<u32, R>) -> Result<()> {
    for number in 1..=3 {
        s.send_blocking(number)??;
    }
    Ok(())
}

fn main(rt: HostRuntime) -> Result<()> {
    // It numbers the channels. A program keeps one for all of them.
    let mut maker = StampMaker::new();
    let (s, r) = bounded(&rt, rt.alloc(), 1, &mut maker)?;

    // The sender is dropped when its thread ends, and the channel is closed then.
    let sending = thread::spawn(&rt, move || send_three(&s))?;

    for _ in rt.forever() {
        let Ok(number) = r.recv_blocking()? else {
            break;
        };
        println!(rt; "received {number}")?;
    }
    // What ended the sending: nothing, refused memory, or a closed channel.
    sending.join(&rt)
}
