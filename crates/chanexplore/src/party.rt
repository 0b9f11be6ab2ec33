//! Parties: what their lines ask for, where they stand, and what answers them.
ghost use Rattle.std.specs.Prelude.{ℕ, IfOk};
ghost use Rattle.channel_model.specs.declared.step.Kind.{Kind};
ghost use Rattle.channel_model.specs.Past.{Past};
ghost use Rattle.channel_run.specs.StandsFor.{StandsFor};

use channel_model::{Notice, OutOfMemory, Reply, Step, Who};
use channel_run::Run;
use std::alloc::Global;

/// How the channel is made that the parties find.
///
/// Each order is made on a channel of its own, so it is opened again for each.
pub trait Opening {
    /// What kind of channel it is.
    ghost kind: { Self → Kind };

    /// What was done on it before the parties.
    ghost past: { Self → Past ℕ };

    /// Makes the channel.
    fn open(&self, alloc: Global) -> Result<Run<u64>, OutOfMemory>
        ensures { IfOk result (λ run. StandsFor (kind self.now) (past self.now) run) };
}

/// What a line of a party asks for.
#[derive(Drop)]
pub enum Act {
    /// A step.
    Make(Step<u64>),
    /// Whether somebody waits, and was told.
    Notice(Who),
    /// A poll. If it is pending the party goes on only once who waits was told, and polls again.
    Await(Who),
}

/// Where a party stands.
#[derive(Clone, Copy)]
pub struct Place {
    /// How many of its lines it has done.
    pub done: usize,
    /// Whether the next one awaits, and its poll was pending.
    pub waiting: bool,
}

/// What answers a line.
#[derive(Drop)]
pub enum Response {
    /// The reply to a step or a poll.
    Replied(Reply<u64>),
    /// Whether somebody waits, and was told.
    Noticed(Notice),
}

/// One turn in an order: a party did a line.
#[derive(Drop)]
pub struct Turn {
    /// The party's number, from 0.
    pub party: usize,
    /// The number of its line, from 0.
    pub line: usize,
    /// What answered the line.
    pub answer: Response,
}
