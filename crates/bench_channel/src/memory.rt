//! What memory a channel takes, and what of it goes back.
//!
//! `held` prints a line at each moment at which the bytes that the program holds are counted, and how
//! often it asked for some, by an allocator that is laid in front of it.
use crate::report::{Ends, channel};
use anyhow::Result;
use async_channel::{Receiver, Recv, Sender};
use futures::task::Poll;
use futures::test::MockTask;
use std::alloc::AllocGlobal;
use std::fs;
use std::random::RandomSource;
use std::rt::Files;
use std::sync::Wait;

/// How many places the channel has that is looked at.
const PLACES: u64 = 10_000_000;

/// How many messages go in and out.
const MESSAGES: u64 = 10_000_000;

/// How many messages are held while others go through, and how many a batch has.
const FEW: u64 = 100;

/// How many receives wait and are given up.
const RECEIVES: u64 = 1_000_000;

const PAGE: u64 = 4096;

/// The pages of the process, by the system.
fn pages<R: Files + AllocGlobal>(rt: &R) -> Result<u64> {
    let text = fs::read_to_string(rt, "/proc/self/statm")?;
    let word = text.split(' ').next().unwrap_or("");
    Ok(word.parse()?)
}

/// Prints the bytes that a place takes.
pub fn report<R: Files + Wait + Clone + Drop + AllocGlobal + Print>(rt: &R) -> Result<()> {
    let before = pages(rt)?;
    let ends = channel(rt, Some(PLACES as usize))?;
    let after = pages(rt)?;
    drop(ends);
    let taken = after.saturating_sub(before).saturating_mul(PAGE);
    println!(rt; "| bytes of a bounded({PLACES}) | {taken} |")?;
    Ok(())
}

fn wait<'a, R: Wait + Clone + Drop>(
    receiver: &'a Receiver<u64, R>,
    task: &MockTask,
    waiting: &mut Vec<Recv<'a, u64, R>>,
) -> Result<bool> {
    let mut all = true;
    for _ in 0..RECEIVES {
        let mut recv = receiver.recv();
        all = matches!(task.poll(&mut recv), Poll::Pending) && all;
        waiting.push(recv)?;
    }
    Ok(all)
}

/// Lets receives wait, all at once, and gives them up. It answers whether each waited.
fn wait_and_give_up<R>(rt: &R, receiver: &Receiver<u64, R>) -> Result<bool>
where
    R: Wait + Clone + Drop + AllocGlobal + RandomSource,
{
    let task = MockTask::new(rt)?;
    let mut waiting = Vec::new(rt.alloc());
    wait(receiver, &task, &mut waiting)
}

/// Sends so many messages.
fn fill<R: Wait + Clone + Drop>(s: &Sender<u64, R>, count: u64) -> bool {
    (0..count).all(|message| matches!(s.try_send(message), Ok(Ok(()))))
}

/// Receives so many messages.
fn drain<R: Wait + Clone + Drop>(r: &Receiver<u64, R>, count: u64) -> bool {
    (0..count).all(|_| r.try_recv().is_ok())
}

/// Prints what was done, if no message was lost.
fn done<R: Print>(rt: &R, is_done: bool, what: &str) -> Result<()> {
    anyhow::ensure!(is_done, "a message was lost");
    println!(rt; "{what}")?;
    Ok(())
}

/// Prints what a channel without a capacity holds of the messages that went through it.
fn held_of_messages<R>(rt: &R, ends: &Ends<R>) -> Result<()>
where
    R: Wait + Clone + Drop + AllocGlobal + Print,
{
    let (s, r) = (&ends.sender, &ends.receiver);
    let through = fill(s, MESSAGES) && drain(r, MESSAGES);
    done(rt, through, "ten million messages went in and out")?;
    let all_but_one = fill(s, MESSAGES) && drain(r, MESSAGES - 1);
    done(
        rt,
        all_but_one,
        "ten million messages went in, and all but one out",
    )?;
    done(
        rt,
        fill(s, FEW) && drain(r, 1),
        "a hundred messages are held",
    )?;
    let beside = (0..MESSAGES).all(|_| fill(s, 1) && drain(r, 1));
    done(rt, beside, "ten million messages went through beside them")?;
    let mut into = Vec::new(rt.alloc());
    let batch = r.try_recv_many(&mut into, FEW as usize)? == Ok(FEW as usize);
    done(rt, batch, "a batch of a hundred was received")
}

/// Prints a line at each moment that counts.
pub fn held<R: Wait + Clone + Drop + AllocGlobal + RandomSource + Print>(rt: &R) -> Result<()> {
    println!(rt; "nothing")?;
    let ends = channel(rt, Some(1))?;
    println!(rt; "idle, bounded(1)")?;
    drop(ends);
    let ends = channel(rt, None)?;
    println!(rt; "idle, unbounded")?;
    held_of_messages(rt, &ends)?;
    anyhow::ensure!(
        wait_and_give_up(rt, &ends.receiver)?,
        "a receive didn't wait"
    );
    println!(rt; "a million receives waited and were given up")?;
    Ok(())
}
