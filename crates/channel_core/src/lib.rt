//! The channel as one owner sees it: its errors, its queue and its state.
//!
//! Each call of [`Core`] is one atomic step of a channel.
#![tactic(auto)]

mod conversions;
mod errors;
mod exact;
mod queue;
mod stamps;
mod state;
mod waiting;

pub use errors::{
    CloneError, MakeError, NoMemory, OutOfMemory, RecvError, SendError, TryRecvError, TrySendError,
};
pub use event_list::{Bell, NoRoom, Quiet, Ticket};
pub use exact::Exact;
pub use queue::Queue;
pub use stamps::{Stamp, StampMaker};
pub use state::{Core, Group, HANDLE_LIMIT, Upgrade};
