//! A mutex under a caller's rule over the value that it guards and over what each pass knows.
//!
//! A [`Protocol`] states the rule, of a key that the mutex was made with, of the value, and of the
//! views of all passes. A [`Pass`] is what one thread has of the mutex: a view, and no bytes. Who
//! takes the lock gets a [`Held`], which can't be dropped: only [`RuledMutex::unlock_as`] ends it,
//! and asks there for a step of the rule, from the value that was found to the one that is there
//! then. So the rule holds each time the lock is taken, and what a thread was told of the others'
//! steps stays in its view.
//!
//! What no contract says: that a thread that sleeps is woken, that the lock is taken in order, or
//! that `lock` returns.
//!
//! ```
//! let Ok((mutex, mut pass)) = RuledMutex::<u64, (), Unruled>::new(rt.alloc(), 4) else {
//!     panic!(&rt; "out of memory");
//! };
//! let held = mutex.lock(&rt, &mut pass);
//! *pass.value_mut(&mutex, &held) = 5;
//! mutex.unlock_as::<Unruled>(&mut pass, held);
//! ```
#![tactic(auto)]

mod lends;
mod mutex;
mod pass;
mod plays;
mod protocol;

pub use atomic_table::{Join, Split};
pub use crossbeam_utils::rule::{Outcome, Unruled};
pub use mutex::{Lesson, RuledMutex};
pub use pass::{Held, Pass};
pub use protocol::Protocol;
