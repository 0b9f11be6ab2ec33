//! Both ends of a channel of numbers on one thread: of this channel, and of the kit's own.
use crate::report::Ends;
use anyhow::Result;
use std::alloc::AllocGlobal;
use std::sync::Wait;

/// Both ends, of which the caller makes each call.
pub trait Peer {
    /// Sends a number, if there is room.
    fn send(&mut self, number: u64);

    /// The oldest number, or 0 if there is none.
    fn receive(&mut self) -> u64;
}

impl<R: Wait + Clone + Drop> Peer for Ends<R> {
    #[inline]
    fn send(&mut self, number: u64) {
        let _ = self.sender.try_send(number);
    }

    #[inline]
    fn receive(&mut self) -> u64 {
        self.receiver.try_recv().unwrap_or(0)
    }
}

/// A channel of the kit's `crossbeam_channel`.
#[derive(Drop)]
pub struct Crossbeam<'a, R: Wait> {
    /// The runtime by which it may wait.
    pub rt: &'a R,
    /// Where numbers go in.
    pub sender: crossbeam_channel::Sender<u64>,
    /// Where they come out.
    pub receiver: crossbeam_channel::Receiver<u64>,
}

impl<'a, R: Wait + AllocGlobal> Crossbeam<'a, R> {
    /// A new channel: bounded if there is a capacity, and else unbounded.
    pub fn new(rt: &'a R, capacity: Option<usize>) -> Result<Crossbeam<'a, R>> {
        let (sender, receiver) = match capacity {
            Some(capacity) => crossbeam_channel::bounded(rt.alloc(), capacity)?,
            None => crossbeam_channel::unbounded(rt.alloc())?,
        };
        Ok(Crossbeam {
            rt,
            sender,
            receiver,
        })
    }
}

impl<R: Wait> Peer for Crossbeam<'_, R> {
    #[inline]
    fn send(&mut self, number: u64) {
        let _ = self.sender.try_send(self.rt, number);
    }

    #[inline]
    fn receive(&mut self) -> u64 {
        self.receiver.try_recv(self.rt).unwrap_or(0)
    }
}

/// A bounded channel of the kit's `futures::channel::mpsc`.
impl Peer
    for (
        futures::channel::mpsc::Sender<u64>,
        futures::channel::mpsc::Receiver<u64>,
    ) {
    #[inline]
    fn send(&mut self, number: u64) {
        let _ = self.0.try_send(number);
    }

    #[inline]
    fn receive(&mut self) -> u64 {
        self.1.try_recv().unwrap_or(0)
    }
}

/// An unbounded channel of the kit's `futures::channel::mpsc`.
impl Peer
    for (
        futures::channel::mpsc::UnboundedSender<u64>,
        futures::channel::mpsc::UnboundedReceiver<u64>,
    ) {
    #[inline]
    fn send(&mut self, number: u64) {
        let _ = self.0.unbounded_send(number);
    }

    #[inline]
    fn receive(&mut self) -> u64 {
        self.1.try_recv().unwrap_or(0)
    }
}

/// A bounded channel of the kit's `tokio::sync::mpsc`.
impl Peer
    for (
        tokio::sync::mpsc::Sender<u64>,
        tokio::sync::mpsc::Receiver<u64>,
    ) {
    #[inline]
    fn send(&mut self, number: u64) {
        let _ = self.0.try_send(number);
    }

    #[inline]
    fn receive(&mut self) -> u64 {
        self.1.try_recv().unwrap_or(0)
    }
}

/// An unbounded channel of the kit's `tokio::sync::mpsc`.
impl Peer
    for (
        tokio::sync::mpsc::UnboundedSender<u64>,
        tokio::sync::mpsc::UnboundedReceiver<u64>,
    ) {
    #[inline]
    fn send(&mut self, number: u64) {
        let _ = self.0.send(number);
    }

    #[inline]
    fn receive(&mut self) -> u64 {
        self.1.try_recv().unwrap_or(0)
    }
}
