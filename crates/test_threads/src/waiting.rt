//! New channels, and what waits at one, as a weak sender sees it.
use async_channel::inspect::who_waits;
use async_channel::{Group, Receiver, Sender, StampMaker, WeakSender, bounded, unbounded};
use futures::test::MockTask;
use std::alloc::AllocGlobal;
use std::process::Abort;
use std::random::RandomSource;
use std::sync::Wait;
use std::thread;

/// How often a test looks before it gives up.
pub const TURNS: u32 = 10_000_000;

/// A bounded channel if there is a capacity, and else an unbounded one.
pub fn channel<T: Drop, R: Wait + Clone + Drop + AllocGlobal + Abort>(
    rt: &R,
    capacity: Option<usize>,
) -> (Sender<T, R>, Receiver<T, R>) {
    let mut maker = StampMaker::new();
    let made = match capacity {
        Some(capacity) if capacity > 0 => bounded(rt, rt.alloc(), capacity, &mut maker),
        _ => unbounded(rt, rt.alloc(), &mut maker),
    };
    made.expect(rt, "a channel")
}

/// A task whose operations the test polls.
pub fn new_task<R: RandomSource + AllocGlobal + Abort>(rt: &R) -> MockTask {
    MockTask::new(rt).expect(rt, "memory")
}

/// How many wait in the group, and how many of them are told.
pub fn numbers<T: Drop, R: Wait + Clone + Drop>(
    weak: &WeakSender<T, R>,
    group: Group,
) -> (usize, usize) {
    let seen = who_waits(weak, group);
    (seen.waiting, seen.told)
}

/// Takes turns until so many wait in the group, and so many of them are told. It fails if they don't.
pub fn await_numbers<T: Drop, R: Wait + Clone + Drop>(
    rt: &impl Abort,
    weak: &WeakSender<T, R>,
    group: Group,
    wanted: (usize, usize),
) {
    let mut seen = numbers(weak, group);
    for _ in 0..TURNS {
        if seen == wanted {
            return;
        }
        thread::yield_now();
        seen = numbers(weak, group);
    }
    assert_eq!(rt; seen, wanted, "{group:?}");
}
