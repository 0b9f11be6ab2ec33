//! How long a waiting list takes to register, to tell and to cancel, among few waiters and among
//! many.

use anyhow::{Context, Result, bail};
use event_list::{Quiet, Ticket, WaitList};
use std::alloc::{AllocGlobal, Global};
use std::time::{Clock, Instant};

// How many calls are timed together.
const CALLS: usize = 1_000;

// So often they are timed; the best time counts.
const RUNS: usize = 20;

// A list of waiters of which the first half is told and a little more, and the tickets of those in
// its middle, so that a notice is handed on when one of them cancels.
struct Crowd {
    list: WaitList<u64>,
    middle: Vec<Ticket>,
    // An empty list, to which all other tickets go, so that their entries stay.
    nowhere: WaitList<u64>,
}

impl Drop for Crowd {
    fn drop(self) {
        let Crowd {
            mut list,
            mut middle,
            nowhere: _,
        } = self;
        while let Some(ticket) = middle.pop() {
            list.remove(ticket);
        }
        middle.destroy_empty();
    }
}

impl Crowd {
    fn new(alloc: Global, waiters: usize, calls: usize) -> Result<Crowd> {
        let mut crowd = Crowd {
            list: WaitList::new(alloc),
            middle: Vec::new(alloc),
            nowhere: WaitList::new(alloc),
        };
        crowd.register(waiters / 2)?;
        for _ in 0..calls {
            crowd.stand_in_the_middle()?;
        }
        crowd.register(waiters.saturating_sub(waiters / 2).saturating_sub(calls))?;
        crowd.tell(waiters / 2);
        crowd.tell(calls);
        Ok(crowd)
    }

    fn register(&mut self, calls: usize) -> Result<()> {
        for call in 0..calls {
            let ticket = self.list.listen(call as u64).ok().context("no room")?;
            self.nowhere.remove(ticket);
        }
        Ok(())
    }

    fn stand_in_the_middle(&mut self) -> Result<()> {
        let ticket = self.list.listen(0).ok().context("no room")?;
        if let Err(refused) = self.middle.push(ticket) {
            self.list.remove(refused.value);
            bail!("no room");
        }
        Ok(())
    }

    fn tell(&mut self, calls: usize) {
        for _ in 0..calls {
            self.list.tell_one(&mut Quiet);
        }
    }

    fn cancel_middle(&mut self) {
        for _ in 0..self.middle.len() {
            if let Some(ticket) = self.middle.pop() {
                self.list.cancel(ticket, &mut Quiet);
            }
        }
    }
}

// What one call takes, in nanoseconds.
#[derive(Clone, Copy)]
struct Times {
    register: u128,
    tell: u128,
    cancel: u128,
}

impl Times {
    fn best(self, other: Times) -> Times {
        Times {
            register: self.register.min(other.register),
            tell: self.tell.min(other.tell),
            cancel: self.cancel.min(other.cancel),
        }
    }
}

// Times the calls, shared out over as many lists as there have to be, so that none of them grows or
// shrinks much while it is timed.
fn time(rt: &(impl AllocGlobal + Clock), waiters: usize) -> Result<Times> {
    let calls = (waiters / 100).max(1);
    let mut crowds = Vec::new(rt.alloc());
    for _ in 0..CALLS / calls {
        crowds.push(Crowd::new(rt.alloc(), waiters, calls)?)?;
    }
    time_calls(rt, &mut crowds, calls)
}

fn time_calls(rt: &impl Clock, crowds: &mut Vec<Crowd>, calls: usize) -> Result<Times> {
    let start = Instant::now(rt)?;
    for crowd in crowds.iter_mut() {
        crowd.register(calls)?;
    }
    let register = start.elapsed(rt)?.as_nanos() / CALLS as u128;
    let start = Instant::now(rt)?;
    for crowd in crowds.iter_mut() {
        crowd.tell(calls);
    }
    let tell = start.elapsed(rt)?.as_nanos() / CALLS as u128;
    let start = Instant::now(rt)?;
    for crowd in crowds.iter_mut() {
        crowd.cancel_middle();
    }
    let cancel = start.elapsed(rt)?.as_nanos() / CALLS as u128;
    Ok(Times {
        register,
        tell,
        cancel,
    })
}

/// Prints the table: a row for each number of waiters.
pub fn report(rt: &(impl AllocGlobal + Clock + Print)) -> Result<()> {
    println!(rt; "| Waiters | register, ns | tell | cancel the middle one |\n|---|---|---|---|")?;
    for waiters in [10, 1_000, 100_000] {
        let mut best = time(rt, waiters)?;
        for _ in 1..RUNS {
            best = best.best(time(rt, waiters)?);
        }
        println!(rt;
            "| {waiters} | {} | {} | {} |",
            best.register, best.tell, best.cancel
        )?;
    }
    Ok(())
}
