//! A hundred thousand of each in a run: no limit shows that the contracts don't tell.
use channel_run::{Kind, Reply, Run, Side, Step, run_all};
use chanrun::device::FromStd;
use chanrun::trace::run_trace;
use futures::task::Poll;
use std::alloc::Global;
use std::process::Abort;

const MANY: u64 = 100_000;

/// Whether the step is answered so.
fn is_answered(run: &mut Run<u64>, step: Step<u64>, want: Reply<u64>) -> bool {
    run.step(step) == want
}

#[test]
fn steps_of_a_run(rt: HostRuntime) {
    let mut steps = Vec::new(rt.alloc());
    for m in 0..MANY {
        steps.push(Step::TrySend(0, m)).expect(&rt, "memory");
    }
    let Ok(mut end) = run_all(rt.alloc(), Kind::Unbounded, steps) else {
        panic!(rt; "memory was refused");
    };
    assert!(rt; end.replies.len() as u64 == MANY);
    let len = Step::Len(Side::Receiver(0));
    assert!(rt; is_answered(&mut end.run, len, Reply::Count(100_000)));
}

fn start(rt: &impl Abort, run: &mut Run<u64>) {
    for op in 0..MANY {
        assert!(rt; is_answered(run, Step::StartRecv { op, receiver: 0 }, Reply::Done));
        assert!(rt; is_answered(run, Step::Poll(op), Reply::RecvPolled(Poll::Pending)));
    }
    for msg in 0..MANY / 20 {
        let op = msg.wrapping_add(MANY);
        assert!(rt; is_answered(run, Step::StartSend { op, sender: 0, msg }, Reply::Done));
        let op = msg.wrapping_sub(MANY);
        assert!(rt; is_answered(run, Step::StartClosed { op, sender: 0 }, Reply::Done));
    }
}

fn send(rt: &impl Abort, run: &mut Run<u64>) {
    for m in 0..MANY {
        assert!(rt; is_answered(run, Step::TrySend(0, m), Reply::TrySent(Ok(()))));
    }
}

#[test]
fn operations_of_a_run(rt: HostRuntime) {
    let mut run = Run::new(rt.alloc(), Kind::Unbounded).expect(&rt, "memory");
    start(&rt, &mut run);
    send(&rt, &mut run);
    let settled = run.settle().expect(&rt, "memory");
    assert!(rt; settled.polls == 100_000 && settled.finished.len() as u64 == MANY);
}

/// Copies each kind of handle until so many live.
fn copy(rt: &impl Abort, run: &mut Run<u64>) {
    assert!(rt; is_answered(run, Step::DowngradeSender { of: 0, new: 0 }, Reply::Done));
    assert!(rt; is_answered(run, Step::DowngradeReceiver { of: 0, new: 0 }, Reply::Done));
    for new in 1..MANY {
        let of = new - 1;
        assert!(rt; is_answered(run, Step::CloneSender { of, new }, Reply::Done));
        assert!(rt; is_answered(run, Step::CloneReceiver { of, new }, Reply::Done));
        assert!(rt; is_answered(run, Step::CloneWeakSender { of, new }, Reply::Done));
        assert!(rt; is_answered(run, Step::CloneWeakReceiver { of, new }, Reply::Done));
    }
}

/// Counts the strong ones by the last of each kind.
fn count(rt: &impl Abort, run: &mut Run<u64>) {
    let last = MANY - 1;
    let senders = Step::SenderCount(Side::Receiver(last));
    assert!(rt; is_answered(run, senders, Reply::Count(100_000)));
    let receivers = Step::ReceiverCount(Side::Sender(last));
    assert!(rt; is_answered(run, receivers, Reply::Count(100_000)));
}

/// Gives up all but one receiver: the channel is open as long as a sender lives.
fn give_up(rt: &impl Abort, run: &mut Run<u64>) {
    let is_closed = Step::IsClosed(Side::Receiver(0));
    for name in 1..MANY {
        assert!(rt; is_answered(run, Step::DropSender(name), Reply::Done));
        assert!(rt; is_answered(run, Step::DropReceiver(name), Reply::Done));
        assert!(rt; is_answered(run, Step::DropWeakSender(name), Reply::Done));
        assert!(rt; is_answered(run, Step::DropWeakReceiver(name), Reply::Done));
        assert!(rt; is_answered(run, is_closed, Reply::Flag(false)));
    }
    assert!(rt; is_answered(run, Step::DropSender(0), Reply::Done));
    assert!(rt; is_answered(run, is_closed, Reply::Flag(true)));
}

#[test]
fn handles_of_a_run(rt: HostRuntime) {
    let mut run = Run::new(rt.alloc(), Kind::Unbounded).expect(&rt, "memory");
    copy(&rt, &mut run);
    count(&rt, &mut run);
    give_up(&rt, &mut run);
}

/// How many receives wait, and how many messages are held, while a trace is written.
const TRACED: usize = 150;

/// The bytes of a trace that are this one, and its last row.
fn traced(rt: &impl Abort, alloc: Global, script: &[u8], byte: u8, last: &str) -> usize {
    let mut reader = FromStd::new(script);
    let mut writer = FromStd::new(Vec::new(alloc));
    assert!(rt; run_trace(alloc, &mut reader, &mut writer) == Ok(()));
    let written: Vec<u8> = writer.into_inner();
    assert!(rt; written.as_slice().ends_with(last.as_bytes()));
    written.as_slice().iter().filter(|it| **it == byte).count()
}

fn add(rt: &impl Abort, script: &mut Vec<u8>, lines: &[u8]) {
    script.extend_from_slice(lines).expect(rt, "memory");
}

#[test]
fn rows_of_a_trace(rt: HostRuntime) {
    let a = rt.alloc();
    let (mut polls, mut sends) = (Vec::new(a), Vec::new(a));
    add(&rt, &mut polls, b"unbounded\n");
    add(&rt, &mut sends, b"unbounded\n");
    for op in 0..TRACED {
        let lines = format!(in a; "recv o{op} r0\npoll o{op}\n").expect(&rt, "memory");
        add(&rt, &mut polls, lines.as_bytes());
        add(&rt, &mut sends, b"try_send s0 7\n");
    }
    add(&rt, &mut polls, b"close s0\nsettle\n");
    let settled = "settle => settled 150 150 | held | waiting\n";
    let rows = traced(&rt, a, polls.as_slice(), b'\n', settled);
    assert_eq!(rt; rows, 3 + 3 * TRACED);
    let sevens = traced(&rt, a, sends.as_slice(), b'7', " 7 | waiting\n");
    // one in each line, and those that are held behind it
    assert_eq!(rt; sevens, TRACED + TRACED * (TRACED + 1) / 2);
}
