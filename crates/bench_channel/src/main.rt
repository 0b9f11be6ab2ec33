//! Measures what a waiting list, a channel, a map by many threads and a mutex under a rule cost.
//!
//! | Arguments | What is printed |
//! |---|---|
//! | `measure` | each of the four tables |
//! | `measure waiters`, `measure channel`, `measure map`, `measure mutex` | one of them |
//! | `held` | a line at each moment whose memory counts, for `tools/held_bytes` |
//! | a name and digits | the rows of those groups as fields between tabs, for a program that compares several channels |
//! | others | one line |
//!
//! | Group | Rows |
//! |---|---|
//! | 1 | a message in and out at once, and the same on a locked queue alone |
//! | 2 | many messages in, and then out |
//! | 3 | one thread to one, and there and back |
//! | 4 | four threads to four |
//! | 5 | tasks on an executor |
//! | 6 | a copied handle, and the number of messages |
#![tactic(auto)]

mod job;
mod maps;
mod memory;
mod mutex;
mod one_thread;
mod peers;
mod report;
mod ruled;
mod tasks;
mod threads;
mod waiters;
mod ways;

use anyhow::Result;
use report::Form;
use std::alloc::AllocGlobal;
use std::env;
use std::random::RandomSource;
use std::rt::{Clock, Env, Files};
use std::sync::Wait;
use std::thread::Threads;

/// Prints the rows of the group with this digit.
fn group<R>(rt: &R, form: Form<'_>, digit: char) -> Result<()>
where
    R: Threads + Wait + Clone + Drop + AllocGlobal + Clock + RandomSource + Print + Send + Sync,
{
    match digit {
        '1' => one_thread::pairs(rt, form),
        '2' => one_thread::fills(rt, form),
        '3' => threads::singles(rt, form),
        '4' => threads::crowds(rt, form),
        '5' => tasks::all(rt, form),
        _ => one_thread::calls(rt, form),
    }
}

/// Prints the rows of the groups whose digits stand in a text.
fn measure<R>(rt: &R, form: Form<'_>, groups: &str) -> Result<()>
where
    R: Threads + Wait + Clone + Drop + AllocGlobal + Clock + RandomSource + Print + Send + Sync,
{
    for digit in ['1', '2', '3', '4', '5', '6'] {
        if groups.contains(digit) {
            group(rt, form, digit)?;
        }
    }
    Ok(())
}

/// Prints the table of a name, or all of them.
fn tables<R>(rt: &R, name: Option<&str>) -> Result<()>
where
    R: Threads
        + Wait
        + Clone
        + Drop
        + AllocGlobal
        + Clock
        + RandomSource
        + Files
        + Print
        + Send
        + Sync,
{
    if matches!(name, None | Some("waiters")) {
        waiters::report(rt)?;
    }
    if matches!(name, None | Some("channel")) {
        println!(rt; "| Work | ns |\n|---|---|")?;
        measure(rt, Form::Table, "123456")?;
        memory::report(rt)?;
    }
    if matches!(name, None | Some("map")) {
        maps::report(rt)?;
    }
    if matches!(name, None | Some("mutex")) {
        mutex::report(rt)?;
    }
    Ok(())
}

fn main(rt: HostRuntime) -> Result<()> {
    let mut arguments = env::args(&rt)?;
    let _program = arguments.next();
    let word = arguments.next();
    let second = arguments.next();
    match (word.as_deref(), second.as_deref()) {
        (Some("measure"), table) => tables(&rt, table),
        (Some("held"), None) => {
            memory::held(&rt)?;
            mutex::held(&rt)
        }
        (Some(name), Some(groups)) => measure(&rt, Form::Fields(name), groups),
        _ => {
            println!(rt; "bench_channel measures with the argument measure, or a name and groups")?;
            Ok(())
        }
    }
}
