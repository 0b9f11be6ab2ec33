//! A list through handles under the rule by name, in one task.
ghost use Rattle.ruled_channel_rules.specs.Handles.{IsHubOf};

use crate::many::{rising, see_all};
use anyhow::{Result, anyhow};
use futures::executor::block_on;
use futures::future::join;
use ruled_channel_rules::{Channel, Hub, bounded};
use std::alloc::AllocGlobal;
use std::random::RandomSource;
use std::sync::Wait;

/// One future sends so many numbers and closes the channel, and another receives all. None says that
/// one of them was refused memory.
fn received<R: Wait + RandomSource + AllocGlobal>(
    rt: &R,
    channel: &Channel<u64>,
    hub: &mut Hub<u64>,
    count: usize,
) -> Result<Option<Vec<u64>>>
    requires { IsHubOf channel.now hub.old }
{
    let list = rising(rt.alloc(), count)?;
    let (sender, receiver) = (hub.sender(channel), hub.receiver(channel));
    let send = sender.send_each_and_close(rt, channel, list);
    let collect = receiver.collect(rt, channel, Vec::new(rt.alloc()));
    let (sent, got) = block_on(rt, join(send, collect))?;
    let (_, rest, sent) = sent;
    let (_, all, got) = got;
    let is_whole = matches!(&sent, Ok(Ok(()))) && rest.is_empty() && got.is_ok();
    Ok(if is_whole { Some(all) } else { None })
}

/// Relays so many numbers, and again if memory was refused. The answer is how often it was.
pub fn relay<R: Wait + RandomSource + AllocGlobal>(
    rt: &R,
    capacity: usize,
    count: usize,
) -> Result<usize> {
    for again in 0..2 {
        let (channel, mut hub) = bounded(rt.alloc(), capacity.max(1))?;
        if let Some(all) = received(rt, &channel, &mut hub, count)? {
            see_all(all.as_slice(), count)?;
            return Ok(again);
        }
    }
    Err(anyhow!("memory was refused twice"))
}
