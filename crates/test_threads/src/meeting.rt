//! Where two threads meet, and one looks what the other does.
use crate::waiting::TURNS;
use std::sync::atomic::{AtomicBool, AtomicU64, Ordering};
use std::thread;
use std::thread::{Threads, join};

/// How long the threads of a test wait for one another, in moments of 64 looks. Behind that they
/// wait no more: if others have the processors, a test isn't to take long.
const PATIENCE: u64 = 6_000;

/// How many moments a turn takes that is given to others, or all those of one meeting.
const TURN: u64 = 20;

/// How often a thread looks whether the other one is there, before it gives it turns. It can look so
/// often before others have the processor.
const LOOKS: u32 = 10_000;

/// How often a thread looks for what the other one does, before it gives it a turn.
const DEED_LOOKS: u32 = 1_000;

/// Where two threads wait for one another.
#[derive(Drop)]
pub struct Meeting {
    there: AtomicU64,
    waited: AtomicU64,
}

impl Meeting {
    pub fn new() -> Meeting {
        Meeting {
            there: AtomicU64::new(0),
            waited: AtomicU64::new(0),
        }
    }

    /// Gives the other thread a turn.
    fn give_turn(&self) {
        self.waited.fetch_add(TURN, Ordering::SeqCst);
        thread::yield_now();
    }

    /// Waits for the other thread, for which it has waited as often as the number says.
    pub fn wait(&self, round: u64) {
        self.there.fetch_add(1, Ordering::SeqCst);
        let wanted = round.wrapping_mul(2).wrapping_add(2);
        for look in 0..TURNS {
            let is_there = self.there.load(Ordering::SeqCst) >= wanted;
            if is_there || self.waited.load(Ordering::SeqCst) > PATIENCE {
                return;
            }
            if look == LOOKS {
                self.give_turn();
            } else if look > LOOKS {
                thread::yield_now();
            }
        }
    }

    /// Lets the time of so many looks pass.
    pub fn pause(&self, looks: u64) {
        for _ in 0..looks {
            self.there.load(Ordering::SeqCst);
        }
    }

    /// Goes on to look for what the other thread does, for which it has looked so often.
    pub fn look_again(&self, look: u32) {
        if look > DEED_LOOKS {
            self.give_turn();
        } else if look % 64 == 63 {
            self.waited.fetch_add(1, Ordering::SeqCst);
        }
    }
}

/// What a thread does, and whether it went well.
pub trait Deed {
    fn act(&mut self) -> bool;
}

/// What another thread sees meanwhile, and whether it is well.
pub trait Sight {
    fn look(&self) -> bool;
}

/// Looks until the other thread is done, and answers whether all looks were well.
fn look_on<S: Sight>(sight: &S, is_done: &AtomicBool) -> bool {
    let mut is_well = true;
    for _ in 0..u64::MAX {
        is_well = sight.look() && is_well;
        if is_done.load(Ordering::SeqCst) {
            break;
        }
    }
    is_well
}

/// Acts while another thread looks. It answers whether both were well.
pub fn are_well<R, D, S>(rt: &R, deed: &mut D, sight: &S) -> bool
where
    R: Threads + Sync,
    D: Deed + Send,
    S: Sight + Sync,
{
    let (meeting, is_done) = (Meeting::new(), AtomicBool::new(false));
    let (acted, seen) = join(
        rt,
        || {
            meeting.wait(0);
            let acted = deed.act();
            is_done.store(true, Ordering::SeqCst);
            acted
        },
        || {
            meeting.wait(0);
            look_on(sight, &is_done)
        },
    );
    acted && seen
}
