//! One thread sends the classes of numbers, another counts them.
ghost use Rattle.std.specs.Prelude.{◌≡◌, [], take, IfOk, true, false};
ghost use Rattle.ruled_channel.specs.Passes.{IsPassOf, view};
ghost use Rattle.example_histogram.specs.Classes.{classes_of, AreCountsOf};
ghost use Rattle.example_histogram.specs.Rule.{sender, counter};

use crate::rule::{Tallied, Tally};
use ruled_channel::{OutOfMemory, RuledChannel, Unruled, bounded_with};
use std::alloc::Global;
use std::sync::Wait;
use std::thread;
use std::thread::Threads;

type Channel = RuledChannel<usize, Tally, Tallied>;

type Pass = ruled_channel::Pass<usize, Tally>;

/// How many classes there are: one for each ten below 50, and one for what is above.
const CLASSES: usize = 6;

/// How many of each class there are.
type Counts = [u64; CLASSES];

/// How many may be on their way.
const CAPACITY: usize = 4;

// Sends the class of each number until the channel is closed, and answers how many were sent.
fn send_each<R: Wait>(
    rt: &R,
    channel: &Channel,
    pass: &mut Pass,
    numbers: &[usize],
) -> Result<usize, OutOfMemory>
    requires { IsPassOf channel.now pass.old × (view pass.old ≡ sender []) }
    ensures own { IsPassOf channel.now pass.new }
    ensures sent { IfOk result (λ count.
        view pass.new ≡ sender (classes_of (take count numbers.now))) }
{
    for next in 0..numbers.len() {
        let class = (numbers[next] / 10).min(CLASSES - 1);
        match channel.send_blocking_as::<Tallied, Unruled, R>(rt, pass, class) {
            Ok(Ok(())) => {}
            Ok(Err(_)) => return Ok(next),
            Err(_) => return Err(OutOfMemory),
        }
    }
    Ok(numbers.len())
}

// The same, and closes the channel.
fn send_all<R: Wait>(
    rt: &R,
    channel: &Channel,
    mut pass: Pass,
    numbers: &[usize],
) -> (Pass, Result<usize, OutOfMemory>)
    requires { IsPassOf channel.now pass × (view pass ≡ sender []) }
    ensures own { IsPassOf channel.now result.0 }
    ensures sent { IfOk result.1 (λ count.
        view result.0 ≡ sender (classes_of (take count numbers.now))) }
{
    let sent = send_each(rt, channel, &mut pass, numbers);
    channel.close_as::<Tallied, R>(rt, &mut pass);
    (pass, sent)
}

// Counts what is received until the channel is closed and empty. It closes the channel if it can't
// go on.
fn count_all<R: Wait>(
    rt: &R,
    channel: &Channel,
    mut pass: Pass,
) -> (Pass, Result<Counts, OutOfMemory>)
    requires { IsPassOf channel.now pass × (view pass ≡ counter [] false) }
    ensures own { IsPassOf channel.now result.0 }
    ensures counted { IfOk result.1 (λ counts.
        (view result.0 ≡ counter (view result.0).counted true)
        × AreCountsOf counts (view result.0).counted) }
{
    let mut counts = [0_u64; CLASSES];
    for _turn in 0..u64::MAX {
        match channel.recv_blocking_as::<Tallied, Tallied, R>(rt, &mut pass) {
            // The rule says that there is such a count.
            Ok(Ok(class)) => counts[class] += 1,
            Ok(Err(_)) => return (pass, Ok(counts)),
            Err(_) => break,
        }
    }
    channel.close_as::<Tallied, R>(rt, &mut pass);
    (pass, Err(OutOfMemory))
}

/// How many of the numbers there are of each class.
pub fn histogram<R: Threads + Wait + Sync>(
    rt: &R,
    alloc: Global,
    numbers: &[usize],
) -> Result<Counts, OutOfMemory>
    ensures { IfOk result (λ counts. AreCountsOf counts (classes_of numbers.now)) }
{
    let (channel, mut sends) = bounded_with::<usize, Tally, Tallied>(alloc, CAPACITY)?;
    let line = &channel;
    let counts = line.another::<Tallied>(&mut sends);
    let ((mut pass, sent), (other, counts)) = thread::join(
        rt,
        move || -> (Pass, Result<usize, OutOfMemory>)
            requires { IsPassOf line.now sends × (view sends ≡ sender []) }
            ensures own { IsPassOf line.entry.now result.0 }
            ensures sent { IfOk result.1 (λ count.
                view result.0 ≡ sender (classes_of (take count numbers.entry.now))) }
        { send_all(rt, line, sends, numbers) },
        move || -> (Pass, Result<Counts, OutOfMemory>)
            requires { IsPassOf line.now counts × (view counts ≡ counter [] false) }
            ensures own { IsPassOf line.entry.now result.0 }
            ensures counted { IfOk result.1 (λ found.
                (view result.0 ≡ counter (view result.0).counted true)
                × AreCountsOf found (view result.0).counted) }
        { count_all(rt, line, counts) },
    );
    let (sent, counts) = (sent?, counts?);
    line.absorb::<Tallied>(&mut pass, other);
    line.learn_as::<Tallied, R>(rt, &mut pass);
    if sent < numbers.len() {
        return Err(OutOfMemory);
    }
    Ok(counts)
}
