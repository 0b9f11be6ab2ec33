//! Numbers go through a channel, or two: what arrives is proved.
//!
//! From one thread to another, or in one task, they arrive whole and in order (`relay`,
//! `in_one_task`); of two senders, each one's in its order (`inbox`); and through two workers, each
//! is answered once (`pool`).
#![tactic(auto)]

mod in_one_task;
mod inbox;
mod pool;
mod relay;

use anyhow::Result;
use in_one_task::relay_in_one_task;
use inbox::deliver;
use pool::answer_all;
use relay::relay;

fn main(rt: HostRuntime) -> Result<()> {
    let numbers = [1, 2, 3, 5, 8, 13, 21, 34, 55, 89];
    let all = Vec::from_array(rt.alloc(), numbers)?;
    for number in relay(&rt, rt.alloc(), all)? {
        println!(rt; "{number} arrived")?;
    }
    let all = Vec::from_array(rt.alloc(), numbers)?;
    let copy = relay_in_one_task(&rt, rt.alloc(), all)?;
    println!(rt; "{} arrived in one task", copy.len())?;

    let odd = vec![in rt.alloc(); 1, 3, 5, 7, 9]?;
    let even = vec![in rt.alloc(); 2, 4, 6, 8]?;
    let all = deliver(&rt, rt.alloc(), odd, even)?;
    for parity in [1, 0] {
        for number in all.iter().filter(|number| **number % 2 == parity) {
            println!(rt; "{number} was delivered")?;
        }
    }

    let numbers = vec![in rt.alloc(); 7, 8, 9, 10, 11, 12, 13, 14, 15, 16]?;
    let mut answers = answer_all(&rt, rt.alloc(), numbers)?;
    answers.sort()?;
    for (number, ones) in answers {
        println!(rt; "{number} has {ones}")?;
    }
    Ok(())
}
