//! Two threads send, and a third receives until the channel is closed and empty.
ghost use Rattle.std.specs.Prelude.{◌≡◌, [], ◌∷◌, IfOk, OnOk, IsTrue, true};
ghost use Rattle.ruled_channel_rules.specs.Handles.{IsSenderOf, IsReceiverOf, sent_by, got_by, has_ended};
ghost use Rattle.ruled_channel_rules.specs.Merged.{IsMergeOf};

use ruled_channel_rules::{Channel, OutOfMemory, Receiver, Sender, bounded};
use std::alloc::Global;
use std::collections::VecDeque;
use std::sync::Wait;
use std::thread;
use std::thread::Threads;

/// How many numbers may be on their way.
const CAPACITY: usize = 4;

/// A sender, and whether it has sent all its numbers.
type Sent = (Sender<u32>, bool);

// Two threads send. The channel is closed once both have ended.
fn send_both<R: Threads + Wait + Sync>(
    rt: &R,
    inbox: &Channel<u32>,
    mut one: Sender<u32>,
    mut first: VecDeque<u32>,
    mut two: Sender<u32>,
    mut second: VecDeque<u32>,
) -> (Sent, Sent)
    requires one { IsSenderOf inbox.now one × (sent_by one ≡ []) }
    requires two { IsSenderOf inbox.now two × (sent_by two ≡ []) }
    ensures own { IsSenderOf inbox.now result.0.0 × IsSenderOf inbox.now result.1.0 }
    ensures one { IsTrue result.0.1 → sent_by result.0.0 ≡ first.items }
    ensures two { IsTrue result.1.1 → sent_by result.1.0 ≡ second.items }
{
    let ((mut one, all_of_one), two) = thread::join(
        rt,
        move || -> Sent
            requires { IsSenderOf inbox.now one × (sent_by one ≡ []) }
            ensures own { IsSenderOf inbox.entry.now result.0 }
            ensures sent { IsTrue result.1 → sent_by result.0 ≡ first.items }
        {
            let sent = one.send_all(rt, inbox, &mut first);
            (one, matches!(&sent, Ok(Ok(()))))
        },
        move || -> Sent
            requires { IsSenderOf inbox.now two × (sent_by two ≡ []) }
            ensures own { IsSenderOf inbox.entry.now result.0 }
            ensures sent { IsTrue result.1 → sent_by result.0 ≡ second.items }
        {
            let sent = two.send_all(rt, inbox, &mut second);
            (two, matches!(&sent, Ok(Ok(()))))
        },
    );
    one.close(rt, inbox);
    ((one, all_of_one), two)
}

/// What two threads have sent to a third, in the order in which it came.
pub fn deliver<R: Threads + Wait + Sync>(
    rt: &R,
    alloc: Global,
    first: Vec<u32>,
    second: Vec<u32>,
) -> Result<Vec<u32>, OutOfMemory>
    ensures { IfOk result (λ all. IsMergeOf all.items (first.items ∷ second.items ∷ [])) }
{
    let (channel, mut hub) = bounded(alloc, CAPACITY)?;
    let inbox = &channel;
    let one = hub.sender(inbox);
    let two = hub.sender(inbox);
    let mut receiver = hub.receiver(inbox);
    let (first, second) = (VecDeque::from(first), VecDeque::from(second));
    let (((one, all_of_one), (two, all_of_two)), (receiver, all, received)) = thread::join(
        rt,
        move || -> (Sent, Sent)
            requires one { IsSenderOf inbox.now one × (sent_by one ≡ []) }
            requires two { IsSenderOf inbox.now two × (sent_by two ≡ []) }
            ensures own { IsSenderOf inbox.entry.now result.0.0
                × IsSenderOf inbox.entry.now result.1.0 }
            ensures one { IsTrue result.0.1 → sent_by result.0.0 ≡ first.items }
            ensures two { IsTrue result.1.1 → sent_by result.1.0 ≡ second.items }
        { send_both(rt, inbox, one, first, two, second) },
        move || -> (Receiver<u32>, Vec<u32>, Result<(), OutOfMemory>)
            requires { IsReceiverOf inbox.now receiver × (got_by receiver ≡ []) }
            ensures own { IsReceiverOf inbox.entry.now result.0 }
            ensures got { got_by result.0 ≡ result.1.items }
            ensures ended { OnOk result.2 (has_ended result.0 ≡ true) }
        {
            let mut all = Vec::new(alloc);
            let received = receiver.recv_all(rt, inbox, &mut all);
            (receiver, all, received)
        },
    );
    received?;
    hub.take_sender(inbox, one);
    hub.take_sender(inbox, two);
    hub.settle_to_one(rt, inbox, receiver);
    if !all_of_one || !all_of_two {
        return Err(OutOfMemory);
    }
    Ok(all)
}
