//! Who was told first, and the poll of whoever that is.
ghost use Rattle.std.specs.Prelude.{◌≡◌, ◌+◌, ◌^◌, ◌<◌, ◌≤◌, [], None, Some, slice_get, IfOk, OnErr, if◌then◌else◌};
ghost use Rattle.std.specs.Vec.{vec_capacity};
ghost use Rattle.channel_model.specs.Polling.{waiting_in};
ghost use Rattle.channel_model.specs.Rosters.{told_names};
ghost use Rattle.channel_model.specs.Replies.{is_ready};
ghost use Rattle.channel_run.specs.RunSteps.{roster_in, IsNext, PollsTo};

use crate::holders::Holders;
use crate::run::Run;
use crate::tickets::{operation_with, receiver_with};
use channel_core::Group;
use channel_model::{OutOfMemory, Reply, Who};

impl<T: Drop> Run<T> {
    /// Room for as many replies as there are waiting entries, and for no others.
    pub(crate) fn room_for_replies(&self) -> Result<Vec<(Who, Reply<T>)>, OutOfMemory>
        ensures empty { IfOk result (λ replies. replies.items ≡ []) }
        ensures room { IfOk result (λ replies. vec_capacity replies ≡ waiting_in self.now.rosters) }
        ensures few { waiting_in self.now.rosters < 2 ^ 64 }
        ensures wanted { OnErr result (0 < waiting_in self.now.rosters) }
    {
        match Vec::with_capacity(self.alloc, self.waiting()) {
            Ok(replies) => Ok(replies),
            Err(_) => Err(OutOfMemory),
        }
    }

    /// Who holds which ticket, as far as there is memory to note it.
    pub(crate) fn holders(&self) -> Holders {
        let mut holders = Holders::new(self.alloc);
        // whoever finds no memory is walked for
        let _ = holders.add_all(&self.operations.by_name, &self.receivers);
        holders
    }

    /// Who is polled next: the first told receive, else the first told stream, else the first told
    /// send, else the first told closed operation. It is the same whatever is known of the holders.
    pub(crate) fn first_told(&self, holders: Option<&Holders>) -> Option<Who>
        ensures { IsNext self.now result }
    {
        if let Some(op) = self.first_in(Group::Receives, holders) {
            return Some(Who::Op(op));
        }
        if let Some(receiver) = self.first_in(Group::Streams, holders) {
            return Some(Who::Receiver(receiver));
        }
        if let Some(op) = self.first_in(Group::Sends, holders) {
            return Some(Who::Op(op));
        }
        let op = self.first_in(Group::Closeds, holders)?;
        Some(Who::Op(op))
    }

    /// Polls the one who was told first, also a stream whose receiver a live receive borrows.
    pub(crate) fn poll_told(&mut self, who: Who) -> Reply<T>
        requires { IsNext self.old (Some who) }
        ensures polled { PollsTo self.old who result self.new }
        ensures left { waiting_in self.new.rosters + (if is_ready result then 1 else 0)
            ≤ waiting_in self.old.rosters }
    {
        // whoever waits is live, as the run's parts fit together
        let _ = &self.core;
        match who {
            Who::Op(op) => self.poll(op),
            Who::Receiver(receiver) => self.poll_stream(receiver),
        }
    }

    // How many entries the waiting lists have.
    fn waiting(&self) -> usize
        ensures { result ≡ waiting_in self.now.rosters }
    {
        // proof: no more wait than have names, so that the sum fits
        let _operations = self.operations.by_name.len();
        let _receivers = self.receivers.len();
        self.core.waiting(Group::Sends)
            + self.core.waiting(Group::Receives)
            + self.core.waiting(Group::Streams)
            + self.core.waiting(Group::Closeds)
    }

    // The name of the first who was told in the group.
    fn first_in(&self, group: Group, holders: Option<&Holders>) -> Option<u64>
        ensures first { result ≡ slice_get (told_names (roster_in group self.now.rosters)) 0 }
        ensures none { result ≡ None → (roster_in group self.now.rosters).told ≡ 0 }
    {
        let key = self.core.first_told(group)?;
        let guess = match holders {
            Some(holders) => holders.get(group, key),
            None => None,
        };
        match group {
            Group::Streams => receiver_with(&self.receivers, key, guess),
            _ => operation_with(&self.operations.by_name, group, key, guess),
        }
    }
}
