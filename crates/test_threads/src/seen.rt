//! What another thread sees of a call: all of it or nothing, but the rounds of a batch.
use crate::meeting::{Deed, Sight, are_well};
use crate::waiting::{channel, new_task, numbers};
use crate::ways::{Receives, Sends, numbers_from, receive_all, send_all};
use async_channel::{Group, ROUND_LIMIT, Receiver, Sender, WeakReceiver, WeakSender};
use futures::Stream;
use futures::task::Poll;
use futures::test::MockTask;
use std::alloc::{AllocGlobal, Global};
use std::process::Abort;
use std::random::RandomSource;
use std::sync::Wait;
use std::sync::atomic::{AtomicU64, Ordering};
use std::thread::Threads;

/// How many messages a channel may hold: one of these two.
#[derive(Drop)]
struct Holds<'a, R: Wait + Clone + Drop>(&'a Receiver<u64, R>, usize, usize);

impl<R: Wait + Clone + Drop> Sight for Holds<'_, R> {
    fn look(&self) -> bool {
        let held = self.0.len();
        held == self.1 || held == self.2
    }
}

/// How many messages a batch has that goes in one round, and how often it is moved.
const ONE_ROUND: (usize, u64) = (100, 500);

/// The same of one that goes in many rounds. Mostly the other thread comes in at the first batch.
const MANY_ROUNDS: (usize, u64) = (20_000, 2_000);

/// By which calls batches are sent and received.
type Ways = (Sends, Receives);

const PLAIN: Ways = (Sends::TrySendMany, Receives::TryRecvMany);

const BLOCKING: Ways = (Sends::SendManyBlocking, Receives::RecvManyBlocking);

const POLLED: Ways = (Sends::SendMany, Receives::RecvMany);

/// What both threads know of the batches.
#[derive(Drop)]
struct Counts {
    /// Odd while a batch is sent, and even while it is received.
    turn: AtomicU64,
    /// The largest number that divides how many messages had gone in at each look between rounds,
    /// and how many had come out. It is 0 before the first such look.
    in_sends: AtomicU64,
    in_receives: AtomicU64,
}

/// Whether rounds of the right length move multiples of this number, and of no larger one.
fn is_round(divisor: &AtomicU64) -> bool {
    divisor.load(Ordering::SeqCst) == ROUND_LIMIT as u64
}

/// The largest number that divides both. Each divides 0.
fn common_divisor(one: u64, other: u64) -> u64 {
    let (mut larger, mut smaller) = (one, other);
    for _ in 0..128u8 {
        if smaller == 0 {
            break;
        }
        (larger, smaller) = (smaller, larger % smaller);
    }
    larger
}

impl Counts {
    fn new() -> Counts {
        Counts {
            turn: AtomicU64::new(0),
            in_sends: AtomicU64::new(0),
            in_receives: AtomicU64::new(0),
        }
    }

    /// Whether the other thread came in between rounds that are as long as they should be, at sends
    /// and at receives.
    fn are_seen(&self) -> bool {
        is_round(&self.in_sends) && is_round(&self.in_receives)
    }
}

/// Looks at a batch between its rounds.
#[derive(Drop)]
struct Rounds<'a, R: Wait + Clone + Drop> {
    r: Receiver<u64, R>,
    size: usize,
    /// How many messages go in by themselves.
    by_itself: usize,
    counts: &'a Counts,
}

impl<R: Wait + Clone + Drop> Sight for Rounds<'_, R> {
    fn look(&self) -> bool {
        let turn = self.counts.turn.load(Ordering::SeqCst);
        let held = self.r.len();
        let is_part = self.by_itself < held && held < self.size;
        if is_part && self.counts.turn.load(Ordering::SeqCst) == turn {
            let (divisor, moved) = if turn % 2 == 1 {
                (&self.counts.in_sends, held.saturating_sub(self.by_itself))
            } else {
                (&self.counts.in_receives, self.size.saturating_sub(held))
            };
            let seen = divisor.load(Ordering::SeqCst);
            divisor.store(common_divisor(seen, moved as u64), Ordering::SeqCst);
        }
        true
    }
}

/// Moves batches until their rounds are seen.
#[derive(Drop)]
struct Moves<'a, R: Wait + Clone + Drop> {
    alloc: Global,
    task: MockTask,
    ways: Ways,
    size: usize,
    count: u64,
    s: Sender<u64, R>,
    r: Receiver<u64, R>,
    counts: &'a Counts,
}

impl<R: Wait + Clone + Drop> Deed for Moves<'_, R> {
    /// Whether all messages went in and came out.
    fn act(&mut self) -> bool {
        let (alloc, size, (sending, receiving)) = (self.alloc, self.size, self.ways);
        for _ in 0..self.count {
            let Ok(all) = numbers_from(alloc, 0, size) else {
                return false;
            };
            self.counts.turn.fetch_add(1, Ordering::SeqCst);
            let is_sent = send_all(&self.task, sending, &self.s, all);
            self.counts.turn.fetch_add(1, Ordering::SeqCst);
            let came = receive_all(alloc, &self.task, receiving, &mut self.r, (size, size));
            if !is_sent || came.len() != size {
                return false;
            }
            if self.counts.are_seen() {
                break;
            }
        }
        true
    }
}

/// Moves batches of this size while another thread looks. It answers whether all was well, and the
/// rounds were seen if there are many.
fn are_moved<R>(rt: &R, ways: Ways, (size, count): (usize, u64)) -> bool
where
    R: Wait + Threads + Clone + Drop + RandomSource + AllocGlobal + Abort + Send + Sync,
{
    let (counts, task) = (Counts::new(), new_task(rt));
    let (s, r) = channel(rt, None);
    let other = r.try_clone().expect(rt, "memory");
    let mut moves = Moves {
        alloc: rt.alloc(),
        task,
        ways,
        size,
        count,
        s,
        r,
        counts: &counts,
    };
    if size <= ROUND_LIMIT {
        return are_well(rt, &mut moves, &Holds(&other, 0, size));
    }
    let rounds = Rounds {
        r: other,
        size,
        by_itself: usize::from(matches!(ways.0, Sends::SendManyBlocking)),
        counts: &counts,
    };
    are_well(rt, &mut moves, &rounds) && counts.are_seen()
}

#[test]
fn a_batch_of_one_round_comes_and_goes_at_once(rt: HostRuntime) {
    for ways in [PLAIN, POLLED] {
        assert!(rt; are_moved(&rt, ways, ONE_ROUND), "{ways:?}");
    }
}

// On a busy machine the other thread seldom comes in. So each way has the time of a test for itself.
#[test]
fn others_come_in_between_the_rounds_of_a_batch(rt: HostRuntime) {
    assert!(rt; are_moved(&rt, PLAIN, MANY_ROUNDS));
}

#[test]
fn others_come_in_between_the_rounds_of_a_batch_that_blocks(rt: HostRuntime) {
    assert!(rt; are_moved(&rt, BLOCKING, MANY_ROUNDS));
}

#[test]
fn others_come_in_between_the_rounds_of_a_polled_batch(rt: HostRuntime) {
    assert!(rt; are_moved(&rt, POLLED, MANY_ROUNDS));
}

/// Lets a stream wait, and beside it another one.
#[derive(Drop)]
struct Streams<'a, R: Wait + Clone + Drop> {
    task: MockTask,
    s: &'a Sender<u64, R>,
    first: Receiver<u64, R>,
}

/// How often two streams wait.
const STREAMS: u64 = 4_000;

/// Whether a poll of the stream can't go on.
fn waits<R: Wait + Clone + Drop>(task: &MockTask, stream: &mut Receiver<u64, R>) -> bool {
    task.enter(|cx| matches!(&stream.poll_next(cx), Poll::Pending))
}

impl<R: Wait + Clone + Drop> Streams<'_, R> {
    /// Lets a second stream wait beside the first one. A message tells both, in vain.
    fn two_wait(&mut self) -> bool {
        let Ok(mut second) = self.first.try_clone() else {
            return false;
        };
        waits(&self.task, &mut second)
            && self.s.try_send(1) == Ok(Ok(()))
            && self.first.try_recv() == Ok(1)
            && waits(&self.task, &mut self.first)
            && waits(&self.task, &mut second)
    }
}

impl<R: Wait + Clone + Drop> Deed for Streams<'_, R> {
    fn act(&mut self) -> bool {
        let mut are_well = waits(&self.task, &mut self.first);
        for _ in 0..STREAMS {
            are_well = are_well && self.two_wait();
        }
        are_well
    }
}

/// A stream that waits alone is never told.
#[derive(Drop)]
struct Alone<R: Wait + Clone + Drop>(WeakSender<u64, R>);

impl<R: Wait + Clone + Drop> Sight for Alone<R> {
    fn look(&self) -> bool {
        numbers(&self.0, Group::Streams) != (1, 1)
    }
}

#[test]
fn a_look_at_who_waits_is_one_step(rt: HostRuntime) {
    let (s, r) = channel(&rt, None);
    let alone = Alone(s.downgrade().expect(&rt, "memory"));
    let mut streams = Streams {
        task: new_task(&rt),
        s: &s,
        first: r,
    };
    assert!(rt; are_well(&rt, &mut streams, &alone));
}

/// How often handles are copied, or upgraded.
const COPIES: u64 = 50_000;

/// Copies handles, and gives each copy up at once. Of a closed channel it upgrades weak ones.
#[derive(Drop)]
struct Copies<R: Wait + Clone + Drop> {
    s: Sender<u64, R>,
    r: Receiver<u64, R>,
    weak_s: WeakSender<u64, R>,
    weak_r: WeakReceiver<u64, R>,
}

impl<R: Wait + Clone + Drop> Copies<R> {
    fn copies(&self) -> bool {
        if self.s.is_closed() {
            matches!(&self.weak_s.upgrade(), Ok(None)) && matches!(&self.weak_r.upgrade(), Ok(None))
        } else {
            self.s.try_clone().is_ok() && self.r.try_clone().is_ok()
        }
    }
}

impl<R: Wait + Clone + Drop> Deed for Copies<R> {
    fn act(&mut self) -> bool {
        (0..COPIES).all(|_| self.copies())
    }
}

/// A channel has two receivers and one sender, or of each kind so many more.
#[derive(Drop)]
struct AtMost<R: Wait + Clone + Drop>(Receiver<u64, R>, usize);

impl<R: Wait + Clone + Drop> Sight for AtMost<R> {
    fn look(&self) -> bool {
        let more = self.1;
        let (senders, receivers) = (self.0.sender_count(), self.0.receiver_count());
        let most = more.saturating_add(1);
        (1..=most).contains(&senders) && (2..=most.saturating_add(1)).contains(&receivers)
    }
}

#[test]
fn a_copy_counts_once_and_one_that_comes_too_late_never(rt: HostRuntime) {
    for is_closed in [false, true] {
        let (s, r) = channel(&rt, None);
        let counts = AtMost(r.try_clone().expect(&rt, "memory"), usize::from(!is_closed));
        let weak_s = s.downgrade().expect(&rt, "memory");
        let weak_r = r.downgrade().expect(&rt, "memory");
        assert!(rt; !is_closed || s.close());
        let mut copies = Copies {
            s,
            r,
            weak_s,
            weak_r,
        };
        assert!(rt; are_well(&rt, &mut copies, &counts));
    }
}
