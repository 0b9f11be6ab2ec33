//! A map over a list by many threads, whose answer is proved to be the plain map.
//!
//! The inputs are cut into chunks, whose places follow one another. The first place of each chunk
//! goes out to workers through one channel, and its answers come back through another, with that
//! place. Chunks come in any order. While the workers run, the caller appends each in its turn, in
//! one step.
//!
//! Both channels are those of `ruled_channel_rules`: what is sent is what is received, each message
//! once. A worker's thread promises that it has sent the chunk for each place that it received. So
//! all answers are there, and nothing is compared: a map answers the plain map, or that it was
//! refused memory, a thread or a stamp.
//!
//! For answers that come one by one, from anywhere, there are pieces: [`gather`] puts each at its
//! place, and sees that every place has just one piece, which is of the input there. A [`Piece`]
//! holds what the [`Job`] answers to its input, and nothing else can be made.
//!
//! # Examples
//!
//! ```
//! struct Square;
//!
//! impl Job<u64, u64> for Square {
//!     ghost answer = { λ number. (number * number) % 2 ^ 64 };
//!
//!     fn run(&self, number: &u64) -> u64 {
//!         number.wrapping_mul(*number)
//!     }
//! }
//!
//! let mut maker = StampMaker::new();
//! let inputs = [1, 2, 3];
//! let answers = map_all(&rt, rt.alloc(), &Square, &Open, &inputs, 2, 64, &mut maker)?;
//! assert_eq!(rt; answers.as_slice(), [1, 4, 9].as_slice());
//! ```
#![tactic(auto)]

mod chunk;
mod error;
mod gathering;
mod job;
mod joining;
mod lines;
mod map;
mod piece;
mod workers;

pub use channel_core::StampMaker;
pub use error::MapError;
pub use gathering::gather;
pub use job::{Gate, Job, Open};
pub use map::{map_all, map_in_chunks};
pub use piece::Piece;
