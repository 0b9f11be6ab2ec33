//! Scripts, from bytes to bytes: lines that name steps on a channel, and the replies to them.
//!
//! ```text
//! bounded 1
//! try_send s0 1      ok
//! try_send s0 2      full 2
//! close r0           true
//! try_recv r0        ok 1
//! try_recv r0        closed
//! ```
//!
//! On the left stands a script, on the right what [`script::run_script`] writes for each of its
//! lines.
#![tactic(auto)]

pub mod device;
pub mod grammar;
pub mod laws;
pub mod parse;
pub mod program;
pub mod replay;
pub mod reply_text;
pub mod script;
pub mod standard;
pub mod tell;
pub mod trace;
