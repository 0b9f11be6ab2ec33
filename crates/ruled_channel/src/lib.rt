//! A channel under a caller's rule over what it is and what each pass knows.
//!
//! A [`Protocol`] states the rule, of a key that the channel was made with, of the messages, the
//! oldest first, of the closed flag, the counts and the capacity, and of the views of all passes. A
//! [`Pass`] is what one thread has of the channel: a view, and no bytes. A call whose name ends in
//! `_as` asks for a proof that the rule allows its step, whatever the others did before, and tells
//! what its answer says of the view: a [`Sent`], a [`Received`] and so on. So what came through the
//! channel is known once two views are joined. After a call the pass also tells its step: of which
//! channel it was, what it made of that, and whom it woke.
//!
//! Threads share the channel by reference, each with a pass of its own, made by
//! [`RuledChannel::another`]. It is closed by a call, also by the one that gives up the last sender
//! or receiver; dropping a pass closes nothing. Calls that wait block their thread, or are futures.
//! Under [`Unruled`], the rule that asks nothing, the calls are plain ones.
//!
//! No contract says that a blocked thread is woken, or that a blocking call returns.
//!
//! ```
//! let (channel, mut pass) = bounded_with::<u64, (), Unruled>(rt.alloc(), 1)?;
//! let sent = channel.try_send_as::<Unruled, Unruled, _>(&rt, &mut pass, 5)?;
//! assert_eq!(rt; sent, Ok(()));
//! let got = channel.try_recv_as::<Unruled, Unruled, Unruled, _>(&rt, &mut pass);
//! assert_eq!(rt; got, Ok(5));
//! ```
#![tactic(auto)]

mod batches;
mod blocking;
mod channel;
mod closing;
mod handles;
mod look;
mod make;
mod mark;
mod outcomes;
mod pass;
mod protocol;
mod receiving;
mod ringer;
mod sending;
mod waiting;

pub use channel::RuledChannel;
pub use channel_core::{
    Group, NoMemory, OutOfMemory, RecvError, SendError, Ticket, TryRecvError, TrySendError, Upgrade,
};
pub use closing::UntilClosed;
pub use look::{Status, Waiters};
pub use make::{bounded_with, bounded_with_key, unbounded_with, unbounded_with_key};
pub use mark::{Mark, Marker, Sleeper, Waiter};
pub use outcomes::{AtEnd, Counted, Forced, HasClosed, Lesson, Received, Sent};
pub use pass::Pass;
pub use protocol::Protocol;
pub use receiving::RecvAs;
pub use ruled_mutex::{Join, Split, Unruled};
pub use sending::SendAs;
