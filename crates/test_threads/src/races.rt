//! What two threads do at one time: each call is one step, before the other's or behind it.
//!
//! A call that takes the lock twice leaves a moment between, in which the other thread may come. A
//! round sees it only then, so a test makes many rounds. A right call passes each of them, however
//! the threads run.
use crate::meeting::Meeting;
use crate::waiting::{TURNS, channel};
use crate::ways::Receives::*;
use crate::ways::{Receives, Sends, numbers_from, receive_some, send_all};
use async_channel::{Receiver, Sender, WeakReceiver, WeakSender};
use futures::task::Poll;
use futures::test::MockTask;
use std::alloc::{AllocGlobal, Global};
use std::process::Abort;
use std::random::RandomSource;
use std::sync::Wait;
use std::thread::{Threads, join};

/// How many rounds a test makes.
const ROUNDS: u64 = 4_000;

/// What a thread has in a round: a handle of one side, or a handle of the other with a weak one of
/// the first.
#[derive(Drop)]
struct Own<R: Wait + Clone + Drop> {
    sender: Option<Sender<u64, R>>,
    receiver: Option<Receiver<u64, R>>,
    weak_sender: Option<WeakSender<u64, R>>,
    weak_receiver: Option<WeakReceiver<u64, R>>,
}

/// What it does with them.
#[derive(Clone, Copy, Debug)]
enum Deed {
    /// Gives all up.
    GiveUp,
    /// Sends the message 1, and gives all up.
    SendAndGiveUp,
    /// Sends a message, if there is room.
    Send(Sends),
    /// Takes the message 1, if the other one doesn't.
    Take(Receives),
    /// Looks for the message 1 until it comes, before the end.
    Await(Receives),
    Close,
    /// Upgrades a weak handle until the channel is closed. What it got keeps the channel open.
    Upgrade,
    /// Looks until the channel is closed, and whether it counts none of the other side then.
    Count,
    /// Looks whether it is terminated before it is closed.
    IsTerminated,
}

/// Whether what is upgraded keeps the channel open, if it doesn't. Without it, it is well that there
/// is none.
macro_rules! keeps_open {
    ($weak:expr) => {{
        let Ok(Some(upgraded)) = $weak.upgrade() else {
            return Some(true);
        };
        for _ in 0..8u8 {
            if upgraded.is_closed() {
                return Some(false);
            }
        }
        None
    }};
}

impl<R: Wait + Clone + Drop> Own<R> {
    fn nothing() -> Own<R> {
        Own {
            sender: None,
            receiver: None,
            weak_sender: None,
            weak_receiver: None,
        }
    }

    fn upgrades(&self) -> Option<bool> {
        if let Some(weak) = &self.weak_sender {
            return keeps_open!(weak);
        }
        match &self.weak_receiver {
            Some(weak) => keeps_open!(weak),
            None => Some(false),
        }
    }

    fn sends(&self, way: Sends, message: u64, alloc: Global, task: &MockTask) -> bool {
        match (&self.sender, numbers_from(alloc, message, 1)) {
            (Some(s), Ok(all)) => send_all(task, way, s, all),
            _ => false,
        }
    }

    /// Whether the message 1 comes before the end, if one of them does.
    fn receives(&mut self, way: Receives, alloc: Global, task: &MockTask) -> Option<bool> {
        let (Some(r), mut into) = (&mut self.receiver, Vec::new(alloc)) else {
            return Some(false);
        };
        match receive_some(task, way, r, &mut into, 2) {
            Poll::Ready(has_come) => Some(has_come && into.as_slice() == [1].as_slice()),
            Poll::Pending => None,
        }
    }

    fn ends(&self) -> Option<bool> {
        match &self.receiver {
            Some(r) if !r.is_terminated() => r.is_closed().then_some(true),
            _ => Some(false),
        }
    }

    fn closes(&self) -> bool {
        match (&self.sender, &self.receiver) {
            (Some(s), _) => s.close(),
            (None, Some(r)) => r.close(),
            (None, None) => false,
        }
    }

    fn counts(&self) -> Option<bool> {
        match (&self.sender, &self.receiver) {
            (Some(s), _) if s.is_closed() => Some(s.receiver_count() == 0),
            (None, Some(r)) if r.is_closed() => Some(r.sender_count() == 0),
            _ => None,
        }
    }

    /// What comes of a deed, if something has come.
    fn act(&mut self, deed: Deed, alloc: Global, task: &MockTask) -> Option<bool> {
        match deed {
            Deed::GiveUp | Deed::SendAndGiveUp => {
                let is_well = matches!(deed, Deed::GiveUp)
                    || self.sends(Sends::TrySend, 1, alloc, task);
                self.sender = None;
                self.receiver = None;
                Some(is_well)
            }
            Deed::Send(way) => Some(self.sends(way, 7, alloc, task)),
            Deed::Take(way) => Some(self.receives(way, alloc, task) == Some(true)),
            Deed::Await(way) => self.receives(way, alloc, task),
            Deed::Close => Some(self.closes()),
            Deed::Upgrade => self.upgrades(),
            Deed::Count => self.counts(),
            Deed::IsTerminated => self.ends(),
        }
    }
}

/// What both threads have at a new channel, if the second does this.
fn own_of_both<R: Wait + Clone + Drop + AllocGlobal + Abort>(
    rt: &R,
    has_sender: bool,
    deed: Deed,
) -> (Own<R>, Own<R>) {
    let (s, r) = channel(rt, Some(1));
    let copy = match deed {
        Deed::Send(_) => Some(s.try_clone().expect(rt, "memory")),
        _ => None,
    };
    let other = match deed {
        Deed::Take(_) => Some(r.try_clone().expect(rt, "memory")),
        _ => None,
    };
    if other.is_some() {
        drop(s.try_send(1));
    }
    let weak_sender = s.downgrade().expect(rt, "memory");
    let weak_receiver = r.downgrade().expect(rt, "memory");
    let (mut first, mut second) = (Own::nothing(), Own::nothing());
    if has_sender {
        first.sender = Some(s);
        second.receiver = Some(r);
        second.weak_sender = Some(weak_sender);
        second.sender = copy;
    } else {
        first.receiver = Some(r);
        second.sender = Some(s);
        second.receiver = other;
        second.weak_receiver = Some(weak_receiver);
    }
    (first, second)
}

/// Does this with what the thread has in each round, when the other thread is there and some looks
/// have passed: as many as the bits of the round that are in the mask. It answers how often it went
/// well.
fn count_well<R: Wait + Clone + Drop + RandomSource + AllocGlobal>(
    rt: &R,
    meeting: &Meeting,
    mask: u64,
    deed: Deed,
    rounds: &mut [Own<R>],
) -> u64 {
    let Ok(task) = MockTask::new(rt) else {
        return 0;
    };
    let mut count: u64 = 0;
    for (round, own) in (0..ROUNDS).zip(rounds.iter_mut()) {
        meeting.wait(round);
        meeting.pause(round & mask);
        count = count.wrapping_add(u64::from(is_well(rt, meeting, &task, deed, own)));
    }
    count
}

/// Whether what comes of a deed is well.
fn is_well<R: Wait + Clone + Drop + AllocGlobal>(
    rt: &R,
    meeting: &Meeting,
    task: &MockTask,
    deed: Deed,
    own: &mut Own<R>,
) -> bool {
    for look in 0..TURNS {
        if let Some(is_well) = own.act(deed, rt.alloc(), task) {
            return is_well;
        }
        meeting.look_again(look);
    }
    false
}

/// How many deeds of both threads go well, each round at a channel of its own.
fn count_of_both<R>(rt: &R, has_sender: bool, [deed, others]: [Deed; 2]) -> u64
where
    R: Wait + Threads + Clone + Drop + RandomSource + AllocGlobal + Abort + Send + Sync,
{
    let (mut first, mut second) = (Vec::new(rt.alloc()), Vec::new(rt.alloc()));
    for _ in 0..ROUNDS {
        let (one, other) = own_of_both(rt, has_sender, others);
        first.push(one).expect(rt, "memory");
        second.push(other).expect(rt, "memory");
    }
    let meeting = Meeting::new();
    let (one, other) = (first.as_mut_slice(), second.as_mut_slice());
    let (one, other) = join(
        rt,
        || count_well(rt, &meeting, 63, deed, one),
        || count_well(rt, &meeting, 0, others, other),
    );
    one.wrapping_add(other)
}

/// Makes a race of these deeds, with the sender for the first thread or the receiver.
fn race<R>(rt: &R, has_sender: bool, deeds: [Deed; 2], goes_well: u64)
where
    R: Wait + Threads + Clone + Drop + RandomSource + AllocGlobal + Abort + Send + Sync,
{
    assert_eq!(rt;
        count_of_both(rt, has_sender, deeds),
        goes_well.wrapping_mul(ROUNDS),
        "{has_sender}, {deeds:?}"
    );
}

#[test]
fn the_last_handle_closes_and_goes_at_once(rt: HostRuntime) {
    for has_sender in [true, false] {
        for deed in [Deed::Upgrade, Deed::Count] {
            race(&rt, has_sender, [Deed::GiveUp, deed], 2);
        }
    }
}

#[test]
fn one_of_two_closes_or_has_the_last_place(rt: HostRuntime) {
    race(&rt, true, [Deed::Close; 2], 1);
    race(&rt, true, [Deed::Send(Sends::TrySend); 2], 1);
}

#[test]
fn a_send_that_comes_too_late_waits_for_nothing(rt: HostRuntime) {
    // what is full loses its oldest message
    race(&rt, true, [Deed::Send(Sends::ForceSend); 2], 2);
    race(&rt, true, [Deed::Send(Sends::TrySendMany); 2], 1);
}

#[test]
fn a_polled_send_that_comes_too_late_is_pending(rt: HostRuntime) {
    race(&rt, true, [Deed::Send(Sends::Send); 2], 1);
    race(&rt, true, [Deed::Send(Sends::SendMany); 2], 1);
}

#[test]
fn a_receive_that_comes_too_late_waits_for_nothing(rt: HostRuntime) {
    for way in [TryRecv, TryRecvMany, TryIter] {
        race(&rt, false, [Deed::Take(way); 2], 1);
    }
}

#[test]
fn a_polled_receive_that_comes_too_late_is_pending(rt: HostRuntime) {
    for way in [Recv, RecvMany, Next] {
        race(&rt, false, [Deed::Take(way); 2], 1);
    }
}

/// Makes races for the message 1, which comes before the end.
fn await_message<R>(rt: &R, ways: &[Receives])
where
    R: Wait + Threads + Clone + Drop + RandomSource + AllocGlobal + Abort + Send + Sync,
{
    for way in ways {
        race(rt, true, [Deed::SendAndGiveUp, Deed::Await(*way)], 2);
    }
}

#[test]
fn the_end_of_calls_comes_behind_the_last_message(rt: HostRuntime) {
    race(&rt, true, [Deed::SendAndGiveUp, Deed::IsTerminated], 2);
    await_message(&rt, &[TryRecv, TryRecvMany]);
}

#[test]
fn the_end_of_blocking_calls_comes_behind_the_last_message(rt: HostRuntime) {
    await_message(&rt, &[RecvBlocking, RecvManyBlocking]);
}

#[test]
fn the_end_of_polls_comes_behind_the_last_message(rt: HostRuntime) {
    await_message(&rt, &[Recv, RecvMany, Next]);
}
