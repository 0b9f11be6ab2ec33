//! A channel that many threads call by a shared reference, and their calls as one history.
//!
//! Each thread writes down its own calls in a [`Clerk`]. [`Recorder::finish`] compares what the
//! clerks wrote down with the history that was made under the lock, and its [`Book`] has both: a
//! history that one thread alone could have made, and for each clerk the places of its own calls in
//! it, in order.
#![tactic(auto)]

mod book;
mod calls;
mod clerk;
mod finish;
mod journal;
mod recorder;
mod same;

pub use book::Book;
pub use calls::{Call, Outcome};
pub use channel_core::{
    Exact, MakeError, OutOfMemory, SendError, Stamp, StampMaker, TryRecvError, TrySendError,
};
pub use channel_model::Kind;
pub use clerk::Clerk;
pub use finish::FinishError;
pub use journal::Journal;
pub use recorder::Recorder;
