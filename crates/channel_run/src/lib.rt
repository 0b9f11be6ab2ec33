//! A channel of one owner whose handles and operations have names, and lists of steps on it.
//!
//! A [`Step`] is a call of a channel by a named party, and a [`Run`] makes it. What a run answers
//! is what its past decides.
#![tactic(auto)]

mod holders;
mod names;
mod operations;
mod run;
mod settle;
mod tally;
mod tickets;

pub use channel_model::{
    Kind, Notice, OutOfMemory, RecvError, Refusal, Reply, SendError, Side, Step, TryRecvError,
    TrySendError, Who,
};
pub use run::{End, Run, RunError, run_all};
pub use settle::Settled;
