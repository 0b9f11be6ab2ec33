//! Looks at the channel. Others may have changed it before the answer is read.
ghost use Rattle.std.specs.Prelude.{◌≡◌, ◌≤◌, length};
ghost use Rattle.event_list.specs.Waiting.{keys, told_count};
ghost use Rattle.channel_core.specs.Channel.{list_of, unchanged};
ghost use Rattle.ruled_channel.specs.State.{state_of};
ghost use Rattle.ruled_channel.specs.Rule.{Learns};
ghost use Rattle.ruled_channel.specs.Passes.{IsPassOf, IsSamePass, key_of, number, view};
ghost use Rattle.ruled_channel.specs.Steps.{HasMade, found, status_of};

use crate::channel::RuledChannel;
use crate::outcomes::{Kept, Lesson};
use crate::pass::Pass;
use crate::protocol::Protocol;
use crate::ringer::Ringer;
use channel_core::Group;
use ruled_mutex::Unruled;
use std::sync::Wait;

/// What there was in a channel at one moment.
///
/// ```
/// let (channel, mut pass) = bounded_with::<u64, (), Unruled>(rt.alloc(), 4)?;
/// let status = channel.learn_as::<Unruled, _>(&rt, &mut pass);
/// assert!(rt; !status.is_closed && !status.is_full);
/// assert_eq!(rt; (status.len, status.sender_count, status.receiver_count), (0, 1, 1));
/// ```
#[derive(Clone, Copy, Debug, PartialEq, Eq)]
pub struct Status {
    /// Whether it was closed.
    pub is_closed: bool,
    /// Whether it held as many messages as it may.
    pub is_full: bool,
    /// How many messages it held.
    pub len: usize,
    /// How many senders were counted.
    pub sender_count: usize,
    /// How many receivers were counted.
    pub receiver_count: usize,
}

/// How many operations or blocked calls wait for the same, and how many of them are told.
///
/// ```
/// let (channel, mut pass) = bounded_with::<u64, (), Unruled>(rt.alloc(), 4)?;
/// let waiters = channel.who_waits(&rt, &mut pass, Group::Receives);
/// assert_eq!(rt; waiters, Waiters { waiting: 0, told: 0 });
/// ```
#[derive(Clone, Copy, Debug, PartialEq, Eq)]
pub struct Waiters {
    /// All that wait, told ones among them.
    pub waiting: usize,
    /// Those that are told and haven't been polled since.
    pub told: usize,
}

impl<T: Drop, V, P: Protocol<T, V>> RuledChannel<T, V, P> {
    /// Looks at the channel, and learns what the rule says of what is there at that moment.
    ///
    /// ```
    /// let (channel, mut pass) = bounded_with::<u64, (), Unruled>(rt.alloc(), 1)?;
    /// let sent = channel.try_send_as::<Unruled, Unruled, _>(&rt, &mut pass, 5)?;
    /// assert_eq!(rt; sent, Ok(()));
    /// assert!(rt; channel.learn_as::<Unruled, _>(&rt, &mut pass).is_full);
    /// ```
    #[inline]
    pub fn learn_as<L: Lesson<T, V>, R: Wait>(&self, rt: &R, pass: &mut Pass<T, V>) -> Status
        requires own { IsPassOf self.now pass.old }
        requires rule { Learns (P.holds (key_of self.now)) (number pass.old) (view pass.old)
            (L.fact (view pass.old)) }
        ensures own { IsPassOf self.now pass.new × IsSamePass pass.old pass.new }
        ensures same { view pass.new ≡ view pass.old }
        ensures learned { L.fact (view pass.old) (state_of (found pass.new)) }
        ensures reply { result ≡ status_of (found pass.new) }
        ensures step { HasMade unchanged pass.new }
    {
        let held = self.lock(rt, pass);
        let core = pass.lock.value_mut(&self.mutex, &held);
        let status = Status {
            is_closed: core.is_closed(),
            is_full: core.is_full(),
            len: core.len(),
            sender_count: core.sender_count(),
            receiver_count: core.receiver_count(),
        };
        self.give_back::<Kept<L>>(pass, held, Ringer::new());
        status
    }

    /// Who waits in the group.
    ///
    /// ```
    /// let (channel, mut pass) = bounded_with::<u64, (), Unruled>(rt.alloc(), 4)?;
    /// assert_eq!(rt; channel.who_waits(&rt, &mut pass, Group::Sends).waiting, 0);
    /// ```
    pub fn who_waits<R: Wait>(&self, rt: &R, pass: &mut Pass<T, V>, group: Group) -> Waiters
        requires { IsPassOf self.now pass.old }
        ensures own { IsPassOf self.now pass.new × IsSamePass pass.old pass.new }
        ensures same { view pass.new ≡ view pass.old }
        ensures told { result.told ≤ result.waiting }
        ensures reply { (result.waiting ≡ length (keys (list_of group (found pass.new))))
            × (result.told ≡ told_count (list_of group (found pass.new))) }
        ensures step { HasMade unchanged pass.new }
    {
        let held = self.lock(rt, pass);
        let core = pass.lock.value_mut(&self.mutex, &held);
        let waiters = Waiters {
            waiting: core.waiting(group),
            told: core.told(group),
        };
        self.give_back::<Kept<Unruled>>(pass, held, Ringer::new());
        waiters
    }
}
