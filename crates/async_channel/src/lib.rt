//! An async multi-producer multi-consumer channel: each message is received by one consumer.
//!
//! There are two kinds of channels:
//!
//! 1. A [bounded][`bounded`] channel has a capacity.
//! 2. An [unbounded][`unbounded`] channel has none.
//!
//! A channel has a [`Sender`] and a [`Receiver`] side. Both can be cloned and shared by threads.
//!
//! When all senders or all receivers of a channel are dropped, the channel is closed. No message
//! can be sent into a closed channel, and what it holds can still be received. [`Sender::close`]
//! and [`Receiver::close`] close it by hand.
//!
//! # Examples
//!
//! In all examples `rt` is the runtime that `main` gets and `maker` a [`StampMaker`]; if nothing
//! else is said, `s` and `r` are both sides of an unbounded channel, and `task` is a `MockTask` of
//! `futures`, which polls.
//!
//! ```
//! let mut maker = StampMaker::new();
//! let (s, r) = unbounded(&rt, rt.alloc(), &mut maker)?;
//!
//! assert_eq!(rt; block_on(&rt, s.send("Hello"))?, Ok(Ok(())));
//! assert_eq!(rt; block_on(&rt, r.recv())?, Ok(Ok("Hello")));
//! ```
#![tactic(auto)]

mod batches;
mod blocking;
mod handles;
pub mod inspect;
mod iter;
mod link;
mod many;
mod ops;
mod owned;
mod stream;
mod tag;
mod weak;

pub use batches::{RecvMany, SendMany};
pub use channel_core::{
    Bell, CloneError, Core, Group, MakeError, NoMemory, OutOfMemory, Queue, Quiet, RecvError,
    SendError, Stamp, StampMaker, Ticket, TryRecvError, TrySendError, Upgrade,
};
pub use handles::{Receiver, Sender, bounded, unbounded};
pub use iter::TryIter;
pub use many::ROUND_LIMIT;
pub use ops::{Closed, Recv, Send};
pub use tag::Tag;
pub use weak::{WeakReceiver, WeakSender};
