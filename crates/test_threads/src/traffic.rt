//! Messages between several threads, by each call that moves some.
use crate::waiting::channel;
use crate::ways::{Patient, Receives, Sends, numbers_from, receive_all, send_all};
use async_channel::{Receiver, Sender, TryRecvError};
use std::alloc::{AllocError, AllocGlobal, Global};
use std::process::Abort;
use std::random::RandomSource;
use std::sync::Wait;
use std::sync::atomic::{AtomicU64, Ordering};
use std::thread;
use std::thread::Threads;

/// How many messages a thread sends or receives.
const COUNT: usize = 1_000;

/// Sends each number, and answers whether all went in.
fn sends_all<R: Wait + Clone + Drop + RandomSource + AllocGlobal>(
    rt: &R,
    way: Sends,
    s: &Sender<u64, R>,
) -> bool {
    match numbers_from(rt.alloc(), 0, COUNT) {
        Ok(all) => send_all(&Patient(rt), way, s, all),
        Err(AllocError) => false,
    }
}

/// Receives as many messages as one thread sends, up to 7 by one call, and counts each number. It
/// answers whether there are as many, and whether they rise.
fn receives_all<R: Wait + Clone + Drop + RandomSource + AllocGlobal>(
    rt: &R,
    way: Receives,
    mut r: Receiver<u64, R>,
    seen: &[AtomicU64],
) -> (bool, bool) {
    let all = receive_all(rt.alloc(), &Patient(rt), way, &mut r, (COUNT, 7));
    let (mut rises, mut least) = (true, 0);
    for number in &all {
        rises = rises && *number >= least;
        least = number.saturating_add(1);
        if let Some(count) = seen.get(*number as usize) {
            count.fetch_add(1, Ordering::SeqCst);
        }
    }
    (all.len() == COUNT, rises)
}

/// How often each number came: not at all.
fn none_seen(alloc: Global) -> Result<Vec<AtomicU64>, AllocError> {
    let mut seen = Vec::new(alloc);
    for _ in 0..COUNT {
        seen.push(AtomicU64::new(0))?;
    }
    Ok(seen)
}

/// Sends and receives by so many threads on either side. From one to one, messages come in order.
fn pass<R: Threads + Wait + Clone + Drop + RandomSource + AllocGlobal + Abort + Send + Sync>(
    rt: &R,
    ways: (Sends, Receives),
    threads: u64,
    capacity: Option<usize>,
) {
    let (s, r) = channel(rt, capacity);
    let seen = none_seen(rt.alloc()).expect(rt, "memory");
    let (sender, noted, (sending, receiving)) = (&s, seen.as_slice(), ways);
    thread::scope(thread::scope_env(), rt, |scope| {
        for _ in 0..threads {
            let Ok(mine) = r.try_clone() else {
                panic!(rt; "no copy");
            };
            let started = scope.spawn(move || {
                let (all_came, rises) = receives_all(rt, receiving, mine, noted);
                assert_eq!(rt; (all_came, rises || threads > 1), (true, true));
            });
            assert!(rt; started.is_ok());
            let started = scope.spawn(move || assert!(rt; sends_all(rt, sending, sender)));
            assert!(rt; started.is_ok());
        }
    });
    assert_eq!(rt; r.try_recv(), Err(TryRecvError::Empty));
    for count in &seen {
        assert_eq!(rt; count.load(Ordering::SeqCst), threads);
    }
}

#[test]
fn messages_pass_once_and_in_order(rt: HostRuntime) {
    for ways in [
        (Sends::SendBlocking, Receives::RecvBlocking),
        (Sends::Send, Receives::Recv),
        (Sends::Send, Receives::Next),
        (Sends::SendManyBlocking, Receives::RecvManyBlocking),
        (Sends::SendMany, Receives::RecvMany),
    ] {
        for (threads, capacity) in [(1, Some(3)), (1, None), (4, Some(3)), (4, None)] {
            pass(&rt, ways, threads, capacity);
        }
    }
}
