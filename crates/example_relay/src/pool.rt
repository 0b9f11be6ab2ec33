//! Numbers go in by one channel, and answers come out by another.
ghost use Rattle.std.specs.Prelude.{◌≡◌, [], IfOk, IsTrue, IsPermutation};
ghost use Rattle.ruled_channel_rules.specs.Handles.{IsSenderOf, sent_by};
ghost use Rattle.example_relay.specs.Answers.{answers_to};
ghost use Rattle.example_relay.specs.Workers.{IsWorkerOf, IsNew, IsDone};

use ruled_channel_rules::{Channel, OutOfMemory, Receiver, Sender, bounded, unbounded};
use std::alloc::Global;
use std::collections::VecDeque;
use std::sync::Wait;
use std::thread;
use std::thread::Threads;

/// How many numbers may be on their way.
const CAPACITY: usize = 4;

/// A number, and how many ones it has in binary.
type Answer = (u64, u32);

/// What a worker receives from, and what it sends by.
#[derive(Drop)]
pub struct Worker {
    receiver: Receiver<u64>,
    sender: Sender<Answer>,
}

/// A sender, and whether it has sent all numbers.
type Fed = (Sender<u64>, bool);

/// A worker, and whether it has answered all that it received until no more came.
type Worked = (Worker, bool);

// Answers numbers until no more come. It closes the channel of numbers if it can't go on.
fn work<R: Wait>(
    rt: &R,
    numbers: &Channel<u64>,
    answers: &Channel<Answer>,
    worker: Worker,
) -> Worked
    requires { IsWorkerOf numbers.now answers.now worker × IsNew worker }
    ensures own { IsWorkerOf numbers.now answers.now result.0 }
    ensures done { IsTrue result.1 → IsDone result.0 }
{
    let Worker {
        mut receiver,
        mut sender,
    } = worker;
    for _ in rt.forever() {
        match receiver.recv_blocking(rt, numbers) {
            Ok(Ok(number)) => {
                let answer = (number, number.count_ones());
                let Ok(Ok(())) = sender.send_blocking(rt, answers, answer) else {
                    break;
                };
            }
            Ok(Err(_)) => return (Worker { receiver, sender }, true),
            Err(_) => break,
        }
    }
    receiver.close(rt, numbers);
    (Worker { receiver, sender }, false)
}

// Two workers answer numbers.
fn work_both<R: Threads + Wait + Sync>(
    rt: &R,
    numbers: &Channel<u64>,
    answers: &Channel<Answer>,
    one: Worker,
    two: Worker,
) -> (Worked, Worked)
    requires one { IsWorkerOf numbers.now answers.now one × IsNew one }
    requires two { IsWorkerOf numbers.now answers.now two × IsNew two }
    ensures one { IsWorkerOf numbers.now answers.now result.0.0
        × (IsTrue result.0.1 → IsDone result.0.0) }
    ensures two { IsWorkerOf numbers.now answers.now result.1.0
        × (IsTrue result.1.1 → IsDone result.1.0) }
{
    thread::join(
        rt,
        move || -> Worked
            requires { IsWorkerOf numbers.now answers.now one × IsNew one }
            ensures own { IsWorkerOf numbers.entry.now answers.entry.now result.0 }
            ensures done { IsTrue result.1 → IsDone result.0 }
        { work(rt, numbers, answers, one) },
        move || -> Worked
            requires { IsWorkerOf numbers.now answers.now two × IsNew two }
            ensures own { IsWorkerOf numbers.entry.now answers.entry.now result.0 }
            ensures done { IsTrue result.1 → IsDone result.0 }
        { work(rt, numbers, answers, two) },
    )
}

// Sends all numbers while two workers answer them.
fn run<R: Threads + Wait + Sync>(
    rt: &R,
    numbers: &Channel<u64>,
    answers: &Channel<Answer>,
    mut feeder: Sender<u64>,
    mut all: VecDeque<u64>,
    one: Worker,
    two: Worker,
) -> (Fed, (Worked, Worked))
    requires feeder { IsSenderOf numbers.now feeder × (sent_by feeder ≡ []) }
    requires one { IsWorkerOf numbers.now answers.now one × IsNew one }
    requires two { IsWorkerOf numbers.now answers.now two × IsNew two }
    ensures own { IsSenderOf numbers.now result.0.0 }
    ensures sent { IsTrue result.0.1 → sent_by result.0.0 ≡ all.items }
    ensures one { IsWorkerOf numbers.now answers.now result.1.0.0
        × (IsTrue result.1.0.1 → IsDone result.1.0.0) }
    ensures two { IsWorkerOf numbers.now answers.now result.1.1.0
        × (IsTrue result.1.1.1 → IsDone result.1.1.0) }
{
    thread::join(
        rt,
        move || -> Fed
            requires { IsSenderOf numbers.now feeder × (sent_by feeder ≡ []) }
            ensures own { IsSenderOf numbers.entry.now result.0 }
            ensures sent { IsTrue result.1 → sent_by result.0 ≡ all.items }
        {
            let sent = feeder.send_all(rt, numbers, &mut all);
            feeder.close(rt, numbers);
            (feeder, matches!(&sent, Ok(Ok(()))))
        },
        move || -> (Worked, Worked)
            requires one { IsWorkerOf numbers.now answers.now one × IsNew one }
            requires two { IsWorkerOf numbers.now answers.now two × IsNew two }
            ensures one { IsWorkerOf numbers.entry.now answers.entry.now result.0.0
                × (IsTrue result.0.1 → IsDone result.0.0) }
            ensures two { IsWorkerOf numbers.entry.now answers.entry.now result.1.0
                × (IsTrue result.1.1 → IsDone result.1.0) }
        { work_both(rt, numbers, answers, one, two) },
    )
}

/// An answer to each number, in the order in which they came.
pub fn answer_all<R: Threads + Wait + Sync>(
    rt: &R,
    alloc: Global,
    all: Vec<u64>,
) -> Result<Vec<Answer>, OutOfMemory>
    ensures { IfOk result (λ found. IsPermutation found.items (answers_to all.items)) }
{
    let (numbers, mut jobs) = bounded(alloc, CAPACITY)?;
    let (answers, mut results) = unbounded(alloc)?;
    let (numbers, answers) = (&numbers, &answers);
    let feeder = jobs.sender(numbers);
    let one = Worker {
        receiver: jobs.receiver(numbers),
        sender: results.sender(answers),
    };
    let two = Worker {
        receiver: jobs.receiver(numbers),
        sender: results.sender(answers),
    };
    let mut collector = results.receiver(answers);

    let all = VecDeque::from(all);
    let ((feeder, all_sent), ((mut one, all_of_one), (two, all_of_two))) = run(
        rt, numbers, answers, feeder, all, one, two,
    );
    one.sender.close(rt, answers);
    let mut found = Vec::new(alloc);
    collector.recv_all(rt, answers, &mut found)?;
    if !all_sent || !all_of_one || !all_of_two {
        return Err(OutOfMemory);
    }

    jobs.take_sender(numbers, feeder);
    jobs.take_receiver(numbers, one.receiver);
    jobs.take_receiver(numbers, two.receiver);
    jobs.settle(rt, numbers);
    results.take_sender(answers, one.sender);
    results.take_sender(answers, two.sender);
    results.take_receiver(answers, collector);
    results.settle(rt, answers);
    Ok(found)
}
