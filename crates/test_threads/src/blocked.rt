//! Threads that are blocked: what ends each call, and what it answers.
use crate::waiting::{await_numbers, channel, new_task};
use crate::ways::numbers_from;
use Act::*;
use Said::*;
use async_channel::{
    Group, OutOfMemory, Receiver, Recv, RecvError, Send, SendError, Sender, TryRecvError,
    TrySendError, WeakSender,
};
use futures::test::MockTask;
use std::alloc::{AllocGlobal, Global};
use std::process::Abort;
use std::random::RandomSource;
use std::rt::Clock;
use std::sync::Wait;
use std::thread;
use std::thread::{JoinHandle, Threads};
use std::time::Duration;

/// A call that blocks.
#[derive(Clone, Copy, Debug)]
enum Call {
    Recv,
    /// Receives what there is, without a limit.
    RecvMany,
    Send(u64),
    /// Sends this message and the next.
    SendMany(u64),
}

/// What the call of another thread does.
#[derive(Clone, Copy, Debug)]
enum Act {
    TrySend(u64),
    TryRecv,
    Close,
}

/// What either answers.
#[derive(Clone, Copy, Debug, PartialEq, Eq)]
enum Said {
    Got(u64),
    Batch(usize),
    Done,
    Closed,
    Full,
    Empty,
    NoMemory,
    /// So many messages were not sent.
    Unsent(usize),
    /// Another message came back.
    Back(u64),
    /// A list took room for so many messages.
    Room(usize),
}

impl Said {
    /// Whether a message went in or out, or the channel was closed just now.
    fn is_well(self) -> bool {
        matches!(self, Got(_) | Done)
    }
}

impl Call {
    fn group(self) -> Group {
        match self {
            Call::Recv | Call::RecvMany => Group::Receives,
            Call::Send(_) | Call::SendMany(_) => Group::Sends,
        }
    }

    fn make<R: Wait + Clone + Drop>(
        self,
        alloc: Global,
        s: &Sender<u64, R>,
        r: &Receiver<u64, R>,
    ) -> Said {
        match self {
            Call::Recv => match r.recv_blocking() {
                Ok(Ok(message)) => Got(message),
                Ok(Err(RecvError)) => Closed,
                Err(OutOfMemory) => NoMemory,
            },
            Call::RecvMany => {
                let mut into = Vec::new(alloc);
                match r.recv_many_blocking(&mut into, usize::MAX) {
                    Ok(Ok(count)) if into.capacity() < 100 => Batch(count),
                    Ok(Ok(_)) => Room(into.capacity()),
                    Ok(Err(RecvError)) => Closed,
                    Err(OutOfMemory) => NoMemory,
                }
            }
            Call::Send(message) => match s.send_blocking(message) {
                Ok(Ok(())) => Done,
                Ok(Err(SendError(back))) if back == message => Closed,
                Ok(Err(SendError(back))) => Back(back),
                Err(_) => NoMemory,
            },
            Call::SendMany(first) => {
                let Ok(mut from) = numbers_from(alloc, first, 2) else {
                    return NoMemory;
                };
                match s.send_many_blocking(&mut from) {
                    Ok(Ok(())) if from.is_empty() => Done,
                    Ok(_) => Unsent(from.len()),
                    Err(OutOfMemory) => NoMemory,
                }
            }
        }
    }
}

impl Act {
    fn make<R: Wait + Clone + Drop>(self, s: &Sender<u64, R>, r: &Receiver<u64, R>) -> Said {
        match self {
            TrySend(message) => match s.try_send(message) {
                Ok(Ok(())) => Done,
                Ok(Err(TrySendError::Full(_))) => Full,
                Ok(Err(TrySendError::Closed(_))) => Closed,
                Err(_) => NoMemory,
            },
            TryRecv => match r.try_recv() {
                Ok(message) => Got(message),
                Err(TryRecvError::Empty) => Empty,
                Err(TryRecvError::Closed) => Closed,
            },
            Act::Close if s.close() => Done,
            Act::Close => Closed,
        }
    }
}

type Ends<R> = (Sender<u64, R>, Receiver<u64, R>, WeakSender<u64, R>);

/// A channel at which the call blocks: without a bound, or full with the message 1.
fn start<R: Wait + Clone + Drop + AllocGlobal + Abort>(rt: &R, call: Call) -> Ends<R> {
    let is_send = matches!(call.group(), Group::Sends);
    let (s, r) = channel(rt, is_send.then_some(1));
    if is_send {
        drop(s.try_send(1));
    }
    let weak = s.downgrade().expect(rt, "memory");
    (s, r, weak)
}

/// A copy of each, for a thread.
fn own_ends<R: Wait + Clone + Drop + Abort>(
    rt: &R,
    s: &Sender<u64, R>,
    r: &Receiver<u64, R>,
) -> (Sender<u64, R>, Receiver<u64, R>) {
    let (own_s, own_r) = (s.try_clone(), r.try_clone());
    (own_s.expect(rt, "memory"), own_r.expect(rt, "memory"))
}

/// Blocks a thread in a call, until so many wait.
fn blocked<R>(
    rt: &R,
    call: Call,
    s: &Sender<u64, R>,
    r: &Receiver<u64, R>,
    weak: &WeakSender<u64, R>,
    count: usize,
) -> JoinHandle<Said>
where
    R: Threads + Wait + Clone + Drop + AllocGlobal + Abort,
    R: std::marker::Send + Sync + 'static,
{
    let (own_s, own_r) = own_ends(rt, s, r);
    let alloc = rt.alloc();
    let thread = thread::spawn(rt, move || call.make(alloc, &own_s, &own_r));
    await_numbers(rt, weak, call.group(), (count, 0));
    thread.expect(rt, "a thread")
}

/// Two calls that block at one channel, one after the other; and what ends the first one, and then
/// the second: a call, its answer, and that of the call that it ends.
type Case = ([Call; 2], [(Act, Said, Said); 2]);

const CASES: [Case; 5] = [
    (
        [Call::Recv, Call::Recv],
        [(TrySend(7), Done, Got(7)), (Close, Done, Closed)],
    ),
    (
        [Call::Recv, Call::RecvMany],
        [(TrySend(7), Done, Got(7)), (TrySend(8), Done, Batch(1))],
    ),
    (
        [Call::RecvMany, Call::RecvMany],
        [(TrySend(7), Done, Batch(1)), (Close, Done, Closed)],
    ),
    (
        [Call::Send(2), Call::Send(3)],
        [(TryRecv, Got(1), Done), (Close, Done, Closed)],
    ),
    (
        [Call::Send(2), Call::SendMany(3)],
        [(TryRecv, Got(1), Done), (Close, Done, Unsent(2))],
    ),
];

/// Blocks two threads, and ends one after the other.
fn ends_both<R>(rt: &R, ([first, second], [one_act, other_act]): &Case)
where
    R: Threads + Wait + Clone + Drop + AllocGlobal + Abort,
    R: std::marker::Send + Sync + 'static,
{
    let (s, r, weak) = start(rt, *first);
    let one = blocked(rt, *first, &s, &r, &weak, 1);
    let other = blocked(rt, *second, &s, &r, &weak, 2);
    for (thread, (act, answer, ended)) in [(one, one_act), (other, other_act)] {
        assert_eq!(rt; act.make(&s, &r), *answer, "{act:?}");
        assert_eq!(rt; thread.join(rt), *ended, "{act:?}");
    }
    await_numbers(rt, &weak, first.group(), (0, 0));
}

#[test]
fn the_longest_blocked_call_ends(rt: HostRuntime) {
    for case in &CASES {
        ends_both(&rt, case);
    }
}

/// How often a blocked thread is told, and finds nothing.
const ROUNDS: u32 = 100;

/// Makes the call again and again, until it answers this, or isn't well. The answer is what it said.
fn repeats<R: Wait + Clone + Drop + AllocGlobal>(
    rt: &R,
    call: Call,
    last: Said,
    s: &Sender<u64, R>,
    r: &Receiver<u64, R>,
) -> Said {
    for _ in rt.forever() {
        let said = call.make(rt.alloc(), s, r);
        if said == last || !said.is_well() {
            return said;
        }
    }
    unreachable!()
}

/// Makes the call of another thread, which has to be well.
fn act_well<R: Wait + Clone + Drop>(
    rt: &impl Abort,
    act: Act,
    s: &Sender<u64, R>,
    r: &Receiver<u64, R>,
) {
    let said = act.make(s, r);
    assert!(rt; said.is_well(), "{act:?}: {said:?}");
}

#[test]
fn who_is_told_in_vain_is_told_again_and_tells_no_other(rt: HostRuntime) {
    // What tells the call, what takes that before it, and what ends it, with its answer.
    for (call, tells, takes, ends, last) in [
        (Call::Recv, TrySend(1), TryRecv, TrySend(9), Got(9)),
        (Call::Send(1), TryRecv, TrySend(0), Close, Closed),
    ] {
        let (s, r, weak) = start(&rt, call);
        let (own_s, own_r) = own_ends(&rt, &s, &r);
        let thread = thread::spawn(&rt, move || repeats(&rt, call, last, &own_s, &own_r));
        let task = new_task(&rt);
        for _ in 0..ROUNDS {
            await_numbers(&rt, &weak, call.group(), (1, 0));
            let (mut send, mut recv) = (s.send(0), r.recv());
            assert!(rt; !is_ready(&task, call, &mut send, &mut recv), "{call:?}");
            act_well(&rt, tells, &s, &r);
            // mostly before the thread wakes
            takes.make(&s, &r);
            await_numbers(&rt, &weak, call.group(), (2, 0));
        }
        assert_eq!(rt; ends.make(&s, &r), Done, "{call:?}");
        assert_eq!(rt; thread.expect(&rt, "a thread").join(&rt), last);
        await_numbers(&rt, &weak, call.group(), (0, 0));
    }
}

/// Lets others run for a while. A turn that is given away may take any time on a busy machine.
fn give_time(rt: &impl Clock) {
    thread::sleep(rt, Duration::from_millis(10));
}

/// Whether the task's operation of the call's group is ready once it was polled.
fn is_ready<R: Wait + Clone + Drop>(
    task: &MockTask,
    call: Call,
    send: &mut Send<'_, u64, R>,
    recv: &mut Recv<'_, u64, R>,
) -> bool {
    match call.group() {
        Group::Sends => task.poll(send).is_ready(),
        _ => task.poll(recv).is_ready(),
    }
}

/// Blocks a thread in a call behind a task's, which is told. It answers whether the task goes on
/// before what ends the thread's call, but for a close, and what the thread's call answers.
fn sleeps<R>(rt: &R, call: Call, tells: Act, ends: Act) -> (bool, Said)
where
    R: Threads + Wait + Clone + Drop + RandomSource + AllocGlobal + Abort + Clock,
    R: std::marker::Send + Sync + 'static,
{
    let (s, r, weak) = start(rt, call);
    let (task, mut send, mut recv) = (new_task(rt), s.send(2), r.recv());
    assert!(rt; !is_ready(&task, call, &mut send, &mut recv));
    let thread = blocked(rt, call, &s, &r, &weak, 2);
    act_well(rt, tells, &s, &r);
    give_time(rt);
    let goes_on = !matches!(ends, Close) && is_ready(&task, call, &mut send, &mut recv);
    act_well(rt, ends, &s, &r);
    (goes_on, thread.join(rt))
}

#[test]
fn a_blocked_call_sleeps_until_it_is_told(rt: HostRuntime) {
    for (call, tells, ends, wanted) in [
        (Call::Recv, TrySend(7), TrySend(8), (true, Got(8))),
        (Call::Recv, TrySend(7), Close, (false, Got(7))),
        (Call::Send(3), TryRecv, TryRecv, (true, Done)),
    ] {
        assert_eq!(rt; sleeps(&rt, call, tells, ends), wanted, "{call:?}");
    }
}

#[test]
fn a_told_call_wakes_no_other(rt: HostRuntime) {
    for (call, tells, ended) in [
        (Call::Recv, TrySend(7), Got(7)),
        (Call::Send(2), TryRecv, Done),
    ] {
        let (s, r, weak) = start(&rt, call);
        let thread = blocked(&rt, call, &s, &r, &weak, 1);
        give_time(&rt);
        let (task, mut send, mut recv) = (new_task(&rt), s.send(3), r.recv());
        assert!(rt; !is_ready(&task, call, &mut send, &mut recv));
        act_well(&rt, tells, &s, &r);
        assert_eq!(rt; thread.join(&rt), ended);
        assert!(rt; !task.is_woken(), "{call:?}");
    }
}

/// How often a thread is blocked in a batch. In some of these rounds it takes messages before both
/// others wait.
const BATCHES: u32 = 20;

/// Blocks a thread in a batch of receives until it sleeps, and sends it two messages with two sends
/// behind them. It answers whether both of these are woken, if both had to wait.
fn batch_wakes_both<R>(rt: &R) -> Option<bool>
where
    R: Threads + Wait + Clone + Drop + RandomSource + AllocGlobal + Abort + Clock,
    R: std::marker::Send + Sync + 'static,
{
    let (s, r) = channel(rt, Some(2));
    let weak = s.downgrade().expect(rt, "memory");
    let thread = blocked(rt, Call::RecvMany, &s, &r, &weak, 1);
    give_time(rt);
    both_are_woken(rt, &s, thread)
}

/// The same, of a thread that sleeps.
fn both_are_woken<R: Threads + Wait + Clone + Drop + RandomSource + AllocGlobal + Abort>(
    rt: &R,
    s: &Sender<u64, R>,
    thread: JoinHandle<Said>,
) -> Option<bool> {
    let (task, other) = (new_task(rt), new_task(rt));
    let (mut first, mut second) = (s.send(3), s.send(4));
    let mut from = numbers_from(rt.alloc(), 1, 2).expect(rt, "memory");
    assert_eq!(rt; s.try_send_many(&mut from), Ok(Ok(2)));
    let both_wait = task.poll(&mut first).is_pending() && other.poll(&mut second).is_pending();
    let ended = thread.join(rt);
    if both_wait {
        assert_eq!(rt; ended, Batch(2));
        return Some(task.is_woken() && other.is_woken());
    }
    // One that didn't wait may have sent before the batch was done.
    assert!(rt; matches!(ended, Batch(2..=4)), "{ended:?}");
    None
}

#[test]
fn a_blocked_batch_tells_as_many_sends(rt: HostRuntime) {
    let mut both_waited = false;
    for _ in 0..BATCHES {
        if let Some(are_woken) = batch_wakes_both(&rt) {
            assert!(rt; are_woken);
            both_waited = true;
        }
    }
    assert!(rt; both_waited);
}

/// How many messages come at once, which is more than two rounds of a batch move.
const MESSAGES: usize = 300;

/// How many messages a batch with this limit takes that blocks until so many come.
fn takes_at_once<R>(rt: &R, limit: usize) -> usize
where
    R: Threads + Wait + Clone + Drop + RandomSource + AllocGlobal + Abort + Clock,
    R: std::marker::Send + Sync + 'static,
{
    let (s, r) = channel(rt, None);
    let (alloc, weak) = (rt.alloc(), s.downgrade().expect(rt, "memory"));
    let thread = thread::spawn(rt, move || {
        let mut into = Vec::new(alloc);
        drop(r.recv_many_blocking(&mut into, limit));
        into.len()
    });
    await_numbers(rt, &weak, Group::Receives, (1, 0));
    give_time(rt);
    let mut from = numbers_from(alloc, 0, MESSAGES).expect(rt, "memory");
    assert_eq!(rt; s.try_send_many(&mut from), Ok(Ok(MESSAGES)));
    thread.expect(rt, "a thread").join(rt)
}

#[test]
fn a_batch_that_blocks_takes_all_that_is_there_up_to_its_limit(rt: HostRuntime) {
    for (limit, wanted) in [(200, 200), (usize::MAX, MESSAGES)] {
        let (s, r) = channel(&rt, None);
        let mut from = numbers_from(rt.alloc(), 0, MESSAGES).expect(&rt, "memory");
        assert_eq!(rt; s.try_send_many(&mut from), Ok(Ok(MESSAGES)));
        let mut into = Vec::new(rt.alloc());
        assert_eq!(rt; r.recv_many_blocking(&mut into, limit), Ok(Ok(wanted)));
        // One that wakes before all have come takes fewer.
        let mut most = 0;
        for _ in 0..BATCHES {
            most = most.max(takes_at_once(&rt, limit));
            if most == wanted {
                break;
            }
        }
        assert_eq!(rt; most, wanted);
    }
}
