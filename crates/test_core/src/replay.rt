//! Four clerks on four threads record their calls; the history is then made again as a script. Each
//! line of what the script gives is the text of the recorded outcome.
use channel_record::{Call, Clerk, Outcome, Recorder, StampMaker};
use channel_run::Reply;
use chanrun::device::FromStd;
use chanrun::reply_text::ReplyText;
use chanrun::script::run_script;
use std::alloc::{AllocError, Global};
use std::sync::Wait;
use std::thread::for_each_mut;

/// How many pairs of calls a clerk makes.
const PAIRS: u64 = 125;

/// Sends and receives by turns. The messages are the clerk's own.
fn make_pairs(rt: &impl Wait, recorder: &Recorder<u64>, clerk: &mut Clerk<u64>, number: u64) {
    let first = number.wrapping_mul(1_000);
    for i in 0..PAIRS {
        make(rt, recorder, clerk, Call::TrySend(first.wrapping_add(i)));
        make(rt, recorder, clerk, Call::TryRecv);
    }
}

fn make(rt: &impl Wait, recorder: &Recorder<u64>, clerk: &mut Clerk<u64>, call: Call<u64>) {
    if recorder.owns(clerk) {
        let _ = recorder.call(rt, clerk, call);
    }
}

/// The line of a call by sender 0 or receiver 0: the clerks make two kinds.
fn line(alloc: Global, call: &Call<u64>) -> Result<String, AllocError> {
    match call {
        Call::TrySend(m) => format!(in alloc; "try_send s0 {m}\n"),
        _ => format!(in alloc; "try_recv r0\n"),
    }
}

/// The reply that stands for an outcome of one of these.
fn reply(outcome: &Outcome<u64>) -> Reply<u64> {
    match *outcome {
        Outcome::TrySent(sent) => Reply::TrySent(sent),
        Outcome::Received(received) => Reply::Received(received),
        _ => Reply::Done,
    }
}

#[test]
fn the_history_as_a_script(rt: HostRuntime) {
    let alloc = rt.alloc();
    let mut maker = StampMaker::new();
    let recorder = Recorder::unbounded(alloc, &mut maker).expect(&rt, "a recorder");
    let mut clerks = Vec::new(alloc);
    for _ in 0..4u8 {
        let clerk = recorder.clerk(&rt).expect(&rt, "a clerk");
        clerks.push(clerk).expect(&rt, "memory");
    }
    for_each_mut(
        &rt,
        &mut clerks,
        4,
        &|number: usize, clerk: &mut Clerk<u64>| {
            make_pairs(&rt, &recorder, clerk, number as u64);
        },
    );
    let book = recorder.finish(clerks).expect(&rt, "a book");
    assert_eq!(rt; book.history().len(), 1_000);
    let mut script = String::from_str(alloc, "unbounded\n").expect(&rt, "memory");
    for (call, _) in book.history() {
        let line = line(alloc, call).expect(&rt, "memory");
        script.push_str(line.as_str()).expect(&rt, "memory");
    }
    let mut reader = FromStd::new(script.as_bytes());
    let mut writer = FromStd::new(Vec::new(alloc));
    assert_eq!(rt; run_script(alloc, &mut reader, &mut writer), Ok(()));
    let written = String::from_utf8(writer.into_inner()).expect(&rt, "a text");
    let mut lines = written.lines();
    for (call, outcome) in book.history() {
        let answer = ReplyText(reply(outcome));
        let wanted = format!(in alloc; "{answer}").expect(&rt, "memory");
        let given = lines.next();
        assert_eq!(rt; given, Some(wanted.as_str()));
        assert!(rt; wanted.starts_with("ok"));
    }
    assert_eq!(rt; lines.next(), None);
}
