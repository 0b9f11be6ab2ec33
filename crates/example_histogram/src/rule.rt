//! The rule: what was sent is what was counted and then what the channel holds.
ghost use Rattle.std.specs.Prelude.{◌≡◌, ◌<◌, [], true, false};
ghost use Rattle.example_histogram.specs.Rule.{IsTallied, tally, with_sent, with_counted, with_end, sender, counter, together, spent};

use ruled_channel::{AtEnd, HasClosed, Join, Lesson, Protocol, Received, Sent, Split};
use std::collections::LinkedList;

/// What a pass knows. No value of it is made.
pub struct Tally {
    /// Whether it sends, and what it has sent.
    pub sends: bool,
    pub sent: LinkedList<usize>,
    /// Whether it counts, and what it has counted.
    pub counts: bool,
    pub counted: LinkedList<usize>,
    /// Whether it found the channel closed and empty.
    pub ended: bool,
}

pub struct Tallied;

impl Protocol<usize, Tally> for Tallied {
    type Key = ();

    ghost holds = { λ _. IsTallied };

    ghost first = { λ _. tally true [] true [] false };
}

impl Sent<usize, Tally> for Tallied {
    ghost then = { λ v class w. w ≡ with_sent v class };
}

/// What is received is a class, below 6.
impl Received<usize, Tally> for Tallied {
    ghost then = { λ v class w. (class < 6) × (w ≡ with_counted v class) };
}

impl AtEnd<Tally> for Tallied {
    ghost then = { λ v w. w ≡ with_end v };
}

impl HasClosed<Tally> for Tallied {
    ghost then = { λ v has_closed w. w ≡ v };
}

/// Who sent and counted, and found the end, has counted all.
impl Lesson<usize, Tally> for Tallied {
    ghost fact = { λ v state. v.counted ≡ v.sent };
}

/// One part sends, the other counts.
impl Split<Tally> for Tallied {
    ghost left = { λ v. sender v.sent };

    ghost right = { λ v. counter v.counted false };
}

impl Join<Tally> for Tallied {
    ghost both = { together };

    ghost spent = { spent };
}
