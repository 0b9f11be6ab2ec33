//! One executor polls both: the one future sends and closes, the other receives until the end.
ghost use Rattle.std.specs.Prelude.{◌≡◌, IfOk, true};
ghost use Rattle.ruled_channel_rules.specs.Handles.{IsSenderOf, IsReceiverOf};
ghost use Rattle.ruled_channel_rules.specs.SendingEach.{TellsSentEach};
ghost use Rattle.ruled_channel_rules.specs.Collecting.{TellsCollected};

use anyhow::Error;
use futures::executor::block_on;
use futures::future::join;
use ruled_channel_rules::{Channel, NoMemory, OutOfMemory, Receiver, SendError, Sender, bounded};
use std::alloc::{AllocGlobal, Global};
use std::collections::VecDeque;
use std::random::RandomSource;
use std::sync::Wait;

/// How many numbers may be on their way.
const CAPACITY: usize = 4;

type SentEach<T> = (
    Sender<T>,
    VecDeque<T>,
    Result<Result<(), SendError<T>>, NoMemory<T>>,
);

type Collected<T> = (Receiver<T>, Vec<T>, Result<(), OutOfMemory>);

// Sends all and closes, while it receives until the end.
fn send_and_receive<'r, 'c, R>(
    rt: &'r R,
    line: &'c Channel<u32>,
    sender: Sender<u32>,
    receiver: Receiver<u32>,
    messages: VecDeque<u32>,
    list: Vec<u32>,
) -> Result<(SentEach<u32>, Collected<u32>), Error>
where
    R: Wait + RandomSource + AllocGlobal,
    requires { IsSenderOf line.now sender × IsReceiverOf line.now receiver }
    ensures sent { IfOk result (λ both. TellsSentEach line.now sender messages.items true both.0) }
    ensures got { IfOk result (λ both. TellsCollected line.now receiver list.items both.1) }
{
    let send = sender.send_each_and_close(rt, line, messages);
    let receive = receiver.collect(rt, line, list);
    Ok(block_on(rt, join(send, receive))?)
}

/// A copy of `all`, which went through a channel from one task to another.
pub fn relay_in_one_task<R>(rt: &R, alloc: Global, all: Vec<u32>) -> Result<Vec<u32>, Error>
where
    R: Wait + RandomSource + AllocGlobal,
    ensures { IfOk result (λ copy. copy.items ≡ all.items) }
{
    let (channel, mut hub) = bounded(alloc, CAPACITY)?;
    let (sender, receiver) = (hub.sender(&channel), hub.receiver(&channel));
    let (messages, list) = (VecDeque::from(all), Vec::new(alloc));
    let (sent, got) = send_and_receive(rt, &channel, sender, receiver, messages, list)?;
    let ((sender, _, sent), (receiver, copy, received)) = (sent, got);
    received?;
    hub.settle_pair(rt, &channel, sender, receiver);
    let Ok(Ok(())) = sent else {
        return Err(OutOfMemory.into());
    };
    Ok(copy)
}
