//! Steps on a run as one list, and a run that is settled.
use channel_run::{End, Kind, Refusal, Reply, Run, Side, Step, TrySendError, Who, run_all};
use futures::task::Poll;

#[test]
fn a_list_of_steps(rt: HostRuntime) {
    // messages without a size
    let steps = [
        Step::TrySend(0, ()),
        Step::TrySend(0, ()),
        Step::Len(Side::Sender(0)),
        Step::TryRecv(0),
        Step::Poll(0),
    ];
    let steps = Vec::from_array(rt.alloc(), steps).expect(&rt, "memory");
    let Ok(End { replies, run: _run }) = run_all(rt.alloc(), Kind::Bounded(1), steps) else {
        panic!(rt; "memory was refused");
    };
    let wanted = [
        Reply::TrySent(Ok(())),
        Reply::TrySent(Err(TrySendError::Full(()))),
        Reply::Count(1),
        Reply::Received(Ok(())),
        Reply::Refused(Refusal::Unknown, None),
    ];
    assert_eq!(rt; replies.as_slice(), wanted.as_slice());
}

#[test]
fn a_settled_run(rt: HostRuntime) {
    let mut run: Run<u64> = Run::new(rt.alloc(), Kind::Unbounded).expect(&rt, "memory");
    let started = run.step(Step::StartRecv { op: 0, receiver: 0 });
    assert_eq!(rt; started, Reply::Done);
    assert_eq!(rt; run.step(Step::Poll(0)), Reply::RecvPolled(Poll::Pending));
    assert_eq!(rt; run.step(Step::TrySend(0, 7)), Reply::TrySent(Ok(())));
    let settled = run.settle().expect(&rt, "memory");
    let ready = [(Who::Op(0), Reply::RecvPolled(Poll::Ready(Ok(7))))];
    assert_eq!(rt; settled.polls, 1);
    assert_eq!(rt; settled.finished.as_slice(), ready.as_slice());
}
