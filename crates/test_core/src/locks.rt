//! The mutex under a rule: locks are taken, refused and given back, and whoever sleeps is woken.
ghost use Rattle.ruled_mutex.specs.Passes.{IsPassOf};

use ruled_mutex::{Pass, RuledMutex, Unruled};
use std::rt::Clock;
use std::sync::Wait;
use std::sync::atomic::{AtomicU64, Ordering};
use std::test::*;
use std::thread::{Threads, join};
use std::time::{CpuClock, Duration};
use std::{hint, io, mem, thread};

type Mutex = RuledMutex<u64, (), Unruled>;

// Whether the lock could not be taken at once. It is given back if it could.
fn misses(mutex: &Mutex, pass: &mut Pass<u64, ()>) -> bool
    requires { IsPassOf mutex.now pass.old }
    ensures { IsPassOf mutex.now pass.new }
{
    match mutex.try_lock(pass) {
        Some(held) => {
            mutex.unlock_as::<Unruled>(pass, held);
            false
        }
        None => true,
    }
}

#[test]
fn a_held_lock_is_refused(rt: HostRuntime) {
    let (mutex, mut pass) = Mutex::new(rt.alloc(), 4).expect(&rt, "memory");
    let mut other = mutex.pass();
    let held = mutex.lock(&rt, &mut pass);
    let missed = misses(&mutex, &mut other);
    *pass.value_mut(&mutex, &held) = 5;
    mutex.unlock_as::<Unruled>(&mut pass, held);
    assert!(rt; missed);
    assert!(rt; !misses(&mutex, &mut other));
    let before = mutex.with_as::<Unruled, _, _, _>(&rt, &mut pass, |value| mem::replace(value, 6));
    assert_eq!(rt; before, 5);
    assert!(rt; mutex.with_as::<Unruled, _, _, _>(&rt, &mut other, |value| *value) == 6);
}

const ROUNDS: u64 = 200;

// How many milliseconds a thread waits before it gives the lock back, so that those who wait for it
// mostly sleep by then.
const PAUSE: u64 = 1;

// Takes the lock while the first thread holds it, says before each time that it will, and adds one.
fn follow<R: Wait>(rt: &R, mutex: &Mutex, coming: &AtomicU64) {
    for round in 0..ROUNDS {
        let mut pass = mutex.pass();
        while_below(rt, coming, 5 * round + 1);
        coming.fetch_add(1, Ordering::SeqCst);
        mutex.with_as::<Unruled, _, _, _>(rt, &mut pass, |value| *value = value.wrapping_add(1));
        coming.fetch_add(1, Ordering::SeqCst);
        while_below(rt, coming, 5 * round + 5);
    }
}

// Two threads that do so.
fn follow_in_pair<R: Threads + Wait + Sync>(rt: &R, mutex: &Mutex, coming: &AtomicU64) {
    join(
        rt,
        || follow(rt, mutex, coming),
        || follow(rt, mutex, coming),
    );
}

// Holds the lock until both other threads have come to it.
fn lead<R: Wait + Clock>(rt: &R, mutex: &Mutex, coming: &AtomicU64) {
    for round in 0..ROUNDS {
        let mut pass = mutex.pass();
        let held = mutex.lock(rt, &mut pass);
        coming.fetch_add(1, Ordering::SeqCst);
        while_below(rt, coming, 5 * round + 3);
        thread::sleep(rt, Duration::from_millis(PAUSE));
        mutex.unlock_as::<Unruled>(&mut pass, held);
        while_below(rt, coming, 5 * round + 5);
    }
}

// Waits until the number is no less.
fn while_below<R: Wait>(rt: &R, number: &AtomicU64, least: u64) {
    for _ in rt.forever() {
        if number.load(Ordering::SeqCst) >= least {
            break;
        }
        thread::yield_now();
    }
}

// A lock that wakes nobody leaves both other threads asleep, and one that forgets the second of them
// leaves it asleep. The test does not end then.
#[test]
fn whoever_sleeps_is_woken(rt: HostRuntime) {
    let (mutex, mut pass) = Mutex::new(rt.alloc(), 0).expect(&rt, "memory");
    let coming = AtomicU64::new(0);
    join(
        &rt,
        || lead(&rt, &mutex, &coming),
        || follow_in_pair(&rt, &mutex, &coming),
    );
    let count = mutex.with_as::<Unruled, _, _, _>(&rt, &mut pass, |value| *value);
    assert_eq!(rt; count, 2 * ROUNDS);
}

// How often a thread locks while others take the lock as often as they can.
const LOCKED: u64 = 20_000;

// How many threads do, and never sleep.
const BARGING: usize = 3;

// Takes the lock whenever it is free, until the other thread has had it as often as it is to. It
// keeps it so long that whoever waits most likely sleeps.
fn barge<R: Wait>(rt: &R, mutex: &Mutex) {
    for _ in rt.forever() {
        let mut pass = mutex.pass();
        if let Some(held) = mutex.try_lock(&mut pass) {
            let count = *pass.value_mut(mutex, &held);
            for _ in 0..100 {
                hint::spin_loop();
            }
            mutex.unlock_as::<Unruled>(&mut pass, held);
            if count == LOCKED {
                return;
            }
        }
    }
}

// Locks so often, and sleeps in between.
fn sleep_and_lock<R: Wait>(rt: &R, mutex: &Mutex) {
    for _ in 0..LOCKED {
        let mut pass = mutex.pass();
        mutex.with_as::<Unruled, _, _, _>(rt, &mut pass, |value| *value = value.wrapping_add(1));
    }
}

// The first of them finds that somebody sleeps, and another has the lock before it wakes that one.
// The test doesn't end if it wakes nobody then.
#[test]
fn a_sleeper_is_woken_when_another_has_the_lock(rt: HostRuntime) {
    let (mutex, _) = Mutex::new(rt.alloc(), 0).expect(&rt, "memory");
    let ((), barged) = join(
        &rt,
        || sleep_and_lock(&rt, &mutex),
        || thread::map_indices(&rt, rt.alloc(), BARGING, &|_: usize| barge(&rt, &mutex)),
    );
    barged.expect(&rt, "threads");
}

// How many milliseconds a thread waits for the lock.
const HELD: u64 = 500;

// More milliseconds of processor time than it needs to look for a while and to go to sleep, also if
// a busy machine counts some of others.
const LITTLE: u64 = 50;

// Holds the lock for so long.
fn hold<R: Wait + Clock>(rt: &R, mutex: &Mutex, is_held: &AtomicU64) {
    let mut pass = mutex.pass();
    let held = mutex.lock(rt, &mut pass);
    is_held.fetch_add(1, Ordering::SeqCst);
    thread::sleep(rt, Duration::from_millis(HELD));
    mutex.unlock_as::<Unruled>(&mut pass, held);
}

// Waits for the lock, and answers how much processor time that took.
fn wait<R>(rt: &R, mutex: &Mutex, is_held: &AtomicU64) -> io::Result<Duration>
where
    R: Wait + CpuClock,
{
    let mut pass = mutex.pass();
    while_below(rt, is_held, 1);
    let before = rt.thread_cpu_time()?;
    mutex.with_as::<Unruled, _, _, _>(rt, &mut pass, |_| ());
    Ok(rt.thread_cpu_time()?.saturating_sub(before))
}

#[test]
fn whoever_waits_sleeps(rt: HostRuntime) {
    let (mutex, _) = Mutex::new(rt.alloc(), 0).expect(&rt, "memory");
    let is_held = AtomicU64::new(0);
    let ((), used) = join(
        &rt,
        || hold(&rt, &mutex, &is_held),
        || wait(&rt, &mutex, &is_held),
    );
    assert!(rt; used.expect(&rt, "a clock") < Duration::from_millis(LITTLE));
}
