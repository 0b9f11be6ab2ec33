//! One thread sends and closes, another receives until the channel is closed and empty.
ghost use Rattle.std.specs.Prelude.{◌≡◌, [], IfOk, OnOk, IsTrue, true};
ghost use Rattle.ruled_channel_rules.specs.Handles.{IsSenderOf, IsReceiverOf, sent_by, got_by, has_ended};

use ruled_channel_rules::{OutOfMemory, Receiver, Sender, bounded};
use std::alloc::Global;
use std::collections::VecDeque;
use std::sync::Wait;
use std::thread;
use std::thread::Threads;

/// How many numbers may be on their way.
const CAPACITY: usize = 4;

/// A copy of `all`, which went through a channel from one thread to another.
pub fn relay<R: Threads + Wait + Sync>(
    rt: &R,
    alloc: Global,
    all: Vec<u32>,
) -> Result<Vec<u32>, OutOfMemory>
    ensures { IfOk result (λ copy. copy.items ≡ all.items) }
{
    let (channel, mut hub) = bounded(alloc, CAPACITY)?;
    let line = &channel;
    let mut sender = hub.sender(line);
    let mut receiver = hub.receiver(line);
    let mut messages = VecDeque::from(all);
    let ((sender, all_sent), (receiver, copy, received)) = thread::join(
        rt,
        move || -> (Sender<u32>, bool)
            requires { IsSenderOf line.now sender × (sent_by sender ≡ []) }
            ensures own { IsSenderOf line.entry.now result.0 }
            ensures sent { IsTrue result.1 → sent_by result.0 ≡ messages.items }
        {
            let sent = sender.send_all(rt, line, &mut messages);
            sender.close(rt, line);
            (sender, matches!(&sent, Ok(Ok(()))))
        },
        move || -> (Receiver<u32>, Vec<u32>, Result<(), OutOfMemory>)
            requires { IsReceiverOf line.now receiver × (got_by receiver ≡ []) }
            ensures own { IsReceiverOf line.entry.now result.0 }
            ensures got { got_by result.0 ≡ result.1.items }
            ensures ended { OnOk result.2 (has_ended result.0 ≡ true) }
        {
            let mut copy = Vec::new(alloc);
            let received = receiver.recv_all(rt, line, &mut copy);
            (receiver, copy, received)
        },
    );
    received?;
    hub.settle_pair(rt, line, sender, receiver);
    if !all_sent {
        return Err(OutOfMemory);
    }
    Ok(copy)
}
