//! What is given up is dropped: messages of a run, and payloads of those who wait.
use channel_core::{Core, Quiet, Ticket};
use channel_run::{Kind, Run, Step};
use event_list::WaitList;
use futures::task::Poll;
use std::process::Abort;
use std::sync::atomic::{AtomicU64, Ordering};

/// One of those that live.
struct Counted<'a>(&'a AtomicU64);

impl Counted<'_> {
    fn new(live: &AtomicU64) -> Counted<'_> {
        live.fetch_add(1, Ordering::SeqCst);
        Counted(live)
    }
}

impl Drop for Counted<'_> {
    fn drop(self) {
        let Counted(live) = self;
        live.fetch_sub(1, Ordering::SeqCst);
    }
}

fn count(live: &AtomicU64) -> u64 {
    live.load(Ordering::SeqCst)
}

#[test]
fn messages_of_a_run(rt: HostRuntime) {
    let live = AtomicU64::new(0);
    let mut run = Run::new(rt.alloc(), Kind::Bounded(1)).expect(&rt, "memory");
    drop(run.step(Step::TrySend(0, Counted::new(&live))));
    for op in 0..2 {
        let msg = Counted::new(&live);
        drop(run.step(Step::StartSend { op, sender: 0, msg }));
        drop(run.step(Step::Poll(op)));
    }
    assert_eq!(rt; count(&live), 3);
    drop(run.step(Step::DropOp(0)));
    assert_eq!(rt; count(&live), 2);
    drop(run);
    assert_eq!(rt; count(&live), 0);
}

type List<'a> = WaitList<Counted<'a>>;

/// The ticket of a new entry.
fn listen<'a>(rt: &impl Abort, list: &mut List<'a>, live: &'a AtomicU64) -> Ticket {
    match list.listen(Counted::new(live)) {
        Ok(ticket) => ticket,
        Err(_) => panic!(rt; "there is memory for an entry"),
    }
}

fn of_a_list<'a>(rt: &impl Abort, list: &mut List<'a>, other: &mut List<'a>, live: &'a AtomicU64) {
    let stranger = listen(rt, other, live);
    assert!(rt; !list.again(&stranger, Counted::new(live)));
    other.remove(stranger);
    let (first, second) = (listen(rt, list, live), listen(rt, list, live));
    assert!(rt; list.again(&first, Counted::new(live)));
    assert_eq!(rt; count(live), 2);
    assert_eq!(rt; list.remove(first), Some(false));
    assert_eq!(rt; count(live), 1);
    list.cancel(second, &mut Quiet);
    assert_eq!(rt; count(live), 0);
}

#[test]
fn payloads_of_a_list(rt: HostRuntime) {
    let live = AtomicU64::new(0);
    let (mut list, mut other) = (WaitList::new(rt.alloc()), WaitList::new(rt.alloc()));
    of_a_list(&rt, &mut list, &mut other, &live);
}

fn of_a_core<'a>(rt: &impl Abort, core: &mut Core<u64, Counted<'a>>, live: &'a AtomicU64) {
    let new = || Counted::new(live);
    let (mut receive, mut other, mut stream, mut closed) = (None, None, None, None);
    for _ in 0..2u8 {
        drop(core.poll_recv(&mut receive, new(), &mut Quiet));
        drop(core.poll_recv(&mut other, new(), &mut Quiet));
        drop(core.poll_next(&mut stream, new(), &mut Quiet));
        drop(core.poll_closed(&mut closed, new()));
        assert_eq!(rt; count(live), 4);
    }
    core.cancel_stream(&mut stream);
    assert_eq!(rt; count(live), 3);
    // a message tells a receive, and the other one takes it
    drop(core.try_send(1, &mut Quiet));
    drop(core.poll_recv(&mut other, new(), &mut Quiet));
    assert_eq!(rt; count(live), 1);
    drop(core.poll_recv(&mut receive, new(), &mut Quiet));
    core.cancel_closed(&mut closed);
    core.cancel_recv(&mut receive, &mut Quiet);
    core.cancel_recv(&mut other, &mut Quiet);
    assert_eq!(rt; count(live), 0);
    // who has the ticket of another list waits anew
    drop(core.poll_closed(&mut closed, new()));
    assert_eq!(rt;
        core.poll_next(&mut closed, new(), &mut Quiet),
        Ok(Poll::Pending)
    );
    core.drop_receiver(&mut closed, &mut Quiet);
    assert_eq!(rt; count(live), 0);
    Ticket::destroy_none(receive);
    Ticket::destroy_none(other);
    Ticket::destroy_none(stream);
    Ticket::destroy_none(closed);
}

fn sends_of_a_core<'a>(rt: &impl Abort, core: &mut Core<u64, Counted<'a>>, live: &'a AtomicU64) {
    let (mut first, mut second) = ((Some(2), None), (Some(3), None));
    drop(core.try_send(1, &mut Quiet));
    drop(core.poll_send(&mut first.0, &mut first.1, Counted::new(live), &mut Quiet));
    drop(core.poll_send(&mut second.0, &mut second.1, Counted::new(live), &mut Quiet));
    assert_eq!(rt; count(live), 2);
    // a place tells the first, and the other one takes it
    drop(core.try_recv(&mut Quiet));
    drop(core.poll_send(&mut second.0, &mut second.1, Counted::new(live), &mut Quiet));
    assert_eq!(rt; count(live), 0);
    drop(core.poll_send(&mut first.0, &mut first.1, Counted::new(live), &mut Quiet));
    assert_eq!(rt; count(live), 1);
    core.cancel_send(&mut first.1, &mut Quiet);
    core.cancel_send(&mut second.1, &mut Quiet);
    assert_eq!(rt; count(live), 0);
    Ticket::destroy_none(first.1);
    Ticket::destroy_none(second.1);
}

#[test]
fn payloads_of_a_core(rt: HostRuntime) {
    let live = AtomicU64::new(0);
    let new = || Core::bounded(rt.alloc(), 1).expect(&rt, "memory");
    of_a_core(&rt, &mut new(), &live);
    sends_of_a_core(&rt, &mut new(), &live);
}
