//! A hundred thousand of each that may wait, and of each handle: no limit shows that the contracts
//! don't tell.
use crate::each_way::WAYS;
use crate::waiting::{channel, new_task, numbers};
use crate::ways::{numbers_from, send_all};
use Kept::*;
use async_channel::{
    CloneError, Closed, Group, Receiver, Recv, Send, SendError, SendMany, Sender, WeakReceiver,
    WeakSender,
};
use futures::Stream;
use futures::task::Poll;
use futures::test::MockTask;
use std::alloc::AllocGlobal;
use std::process::Abort;
use std::random::RandomSource;
use std::sync::Wait;

const MANY: usize = 100_000;

/// Something that may wait.
#[derive(Drop)]
enum Kept<'a, R: Wait + Clone + Drop> {
    Sending(Send<'a, u64, R>),
    SendingMany(SendMany<'a, u64, R>),
    Receiving(Recv<'a, u64, R>),
    Streaming(Receiver<u64, R>),
    Closing(Closed<'a, u64, R>),
}

impl<'a, R: Wait + Clone + Drop> Kept<'a, R> {
    /// One of a group. A send has the message 7.
    fn new(group: Group, s: &'a Sender<u64, R>, r: &Receiver<u64, R>) -> Result<Self, CloneError> {
        Ok(match group {
            Group::Sends => Sending(s.send(7)),
            Group::Receives => Receiving(r.try_clone()?.into_recv()),
            Group::Streams => Streaming(r.try_clone()?),
            Group::Closeds => Closing(s.closed()),
        })
    }

    /// Whether a poll says that the channel is closed. It is pending if nothing has come.
    fn ends(&mut self, task: &MockTask) -> Poll<bool> {
        match self {
            Sending(send) => task.poll(send).map(|sent| sent == Ok(Err(SendError(7)))),
            SendingMany(send) => task.poll(send).map(|sent| matches!(sent, Ok(Err(_)))),
            Receiving(recv) => task
                .poll(recv)
                .map(|received| matches!(received, Ok(Err(_)))),
            Streaming(stream) => task
                .enter(|cx| stream.poll_next(cx))
                .map(|item| item.is_none()),
            Closing(closed) => task.poll(closed).map(|ended| ended == Ok(())),
        }
    }
}

/// Lets one of each group wait where there is no message.
fn each_waits<R: Wait + Clone + Drop + RandomSource + AllocGlobal + Abort>(
    rt: &R,
    s: &Sender<u64, R>,
    r: &Receiver<u64, R>,
) {
    let task = new_task(rt);
    for group in [Group::Receives, Group::Streams, Group::Closeds] {
        let mut kept = Kept::new(group, s, r).expect(rt, "memory");
        assert!(rt; kept.ends(&task).is_pending(), "{group:?}");
    }
}

/// Sends two messages by each call where there is no bound.
fn each_sends<R>(rt: &R, s: &Sender<u64, R>)
where
    R: Wait + Clone + Drop + RandomSource + AllocGlobal + Abort,
{
    for (way, _) in WAYS {
        let two = numbers_from(rt.alloc(), 7, 2).expect(rt, "memory");
        assert!(rt; send_all(&new_task(rt), way, s, two), "{way:?}");
    }
}

/// Has as many of a group wait, closes the channel, and polls all to their end.
fn many_wait<R: Wait + Clone + Drop + RandomSource + AllocGlobal + Abort>(
    rt: &R,
    group: Group,
    is_batch: bool,
) {
    let is_full = matches!(group, Group::Sends);
    let is_unbounded = matches!(group, Group::Closeds);
    let (s, r) = channel(rt, Some(usize::from(!is_unbounded)));
    assert!(rt; !is_full || s.try_send(1) == Ok(Ok(())));
    let (task, mut all) = (new_task(rt), Vec::new(rt.alloc()));
    let weak = s.downgrade().expect(rt, "memory");
    for _ in 0..MANY {
        let mut kept = if is_batch {
            SendingMany(s.send_many(numbers_from(rt.alloc(), 7, 1).expect(rt, "memory")))
        } else {
            Kept::new(group, &s, &r).expect(rt, "memory")
        };
        assert!(rt; kept.ends(&task).is_pending(), "{group:?}");
        all.push(kept).expect(rt, "memory");
    }
    assert_eq!(rt; numbers(&weak, group), (MANY, 0));
    if !is_full {
        each_waits(rt, &s, &r);
    }
    if is_unbounded {
        each_sends(rt, &s);
    }
    assert_eq!(rt; numbers(&weak, group), (MANY, 0));
    // those of the last group are told when no receiver is left
    assert!(rt; matches!(group, Group::Closeds) || s.close());
    drop(r);
    assert_eq!(rt; numbers(&weak, group), (MANY, MANY));
    for kept in &mut all {
        assert_eq!(rt; kept.ends(&task), Poll::Ready(true), "{group:?}");
    }
    assert_eq!(rt; numbers(&weak, group), (0, 0));
}

#[test]
fn sends(rt: HostRuntime) {
    many_wait(&rt, Group::Sends, false)
}

#[test]
fn sends_of_many(rt: HostRuntime) {
    many_wait(&rt, Group::Sends, true)
}

#[test]
fn receives(rt: HostRuntime) {
    many_wait(&rt, Group::Receives, false)
}

#[test]
fn receives_of_many(rt: HostRuntime) {
    let (s, r) = channel::<u64, _>(&rt, None);
    let (task, weak) = (new_task(&rt), s.downgrade().expect(&rt, "memory"));
    let (mut lists, mut all) = (Vec::new(rt.alloc()), Vec::new(rt.alloc()));
    for _ in 0..MANY {
        lists.push(Vec::new(rt.alloc())).expect(&rt, "memory");
    }
    for into in &mut lists {
        let mut recv = r.recv_many(into, 2);
        assert!(rt; matches!(&task.poll(&mut recv), Poll::Pending));
        all.push(recv).expect(&rt, "memory");
    }
    assert_eq!(rt; numbers(&weak, Group::Receives), (MANY, 0));
    assert!(rt; s.close());
    for recv in &mut all {
        assert!(rt; matches!(&task.poll(recv), Poll::Ready(Ok(0))));
    }
    assert_eq!(rt; numbers(&weak, Group::Receives), (0, 0));
}

#[test]
fn streams(rt: HostRuntime) {
    many_wait(&rt, Group::Streams, false)
}

#[test]
fn closed_operations(rt: HostRuntime) {
    many_wait(&rt, Group::Closeds, false)
}

/// One of each handle.
#[derive(Drop)]
struct Handles<R: Wait + Clone + Drop> {
    sender: Sender<u64, R>,
    receiver: Receiver<u64, R>,
    weak_sender: WeakSender<u64, R>,
    weak_receiver: WeakReceiver<u64, R>,
}

impl<R: Wait + Clone + Drop> Handles<R> {
    fn copied(&self, rt: &impl Abort) -> Handles<R> {
        Handles {
            sender: self.sender.try_clone().expect(rt, "memory"),
            receiver: self.receiver.try_clone().expect(rt, "memory"),
            weak_sender: self.weak_sender.try_clone().expect(rt, "memory"),
            weak_receiver: self.weak_receiver.try_clone().expect(rt, "memory"),
        }
    }

    /// Each made by way of its weak one, of an open channel.
    fn upgraded(&self, rt: &impl Abort) -> Handles<R> {
        let sender = self.weak_sender.upgrade().expect(rt, "memory");
        let receiver = self.weak_receiver.upgrade().expect(rt, "memory");
        Handles {
            sender: sender.expect(rt, "an open channel"),
            receiver: receiver.expect(rt, "an open channel"),
            weak_sender: self.sender.downgrade().expect(rt, "memory"),
            weak_receiver: self.receiver.downgrade().expect(rt, "memory"),
        }
    }

    /// How many senders and receivers there are, as each end says.
    fn counts(&self) -> [(usize, usize); 2] {
        let (s, r) = (&self.sender, &self.receiver);
        [
            (s.sender_count(), s.receiver_count()),
            (r.sender_count(), r.receiver_count()),
        ]
    }
}

#[test]
fn strong_and_weak_handles(rt: HostRuntime) {
    let (sender, receiver) = channel(&rt, None);
    let weak_sender = sender.downgrade().expect(&rt, "memory");
    let weak_receiver = receiver.downgrade().expect(&rt, "memory");
    let first = Handles {
        sender,
        receiver,
        weak_sender,
        weak_receiver,
    };
    let mut all = Vec::new(rt.alloc());
    for number in 0..MANY {
        let made = match number % 2 {
            0 => first.copied(&rt),
            _ => first.upgraded(&rt),
        };
        all.push(made).expect(&rt, "memory");
    }
    assert_eq!(rt; first.counts(), [(100_001, 100_001); 2]);
    // beside so many handles all goes on as beside few
    each_waits(&rt, &first.sender, &first.receiver);
    each_sends(&rt, &first.sender);
    drop(all);
    assert_eq!(rt; first.counts(), [(1, 1); 2]);
    assert!(rt; !first.sender.is_closed());
}
