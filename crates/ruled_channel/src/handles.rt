//! Senders and receivers, counted by calls.
//!
//! A new channel counts one sender and one receiver, and the last of either that is given up closes
//! it. They are counted by calls: a pass that is dropped closes nothing, since a drop can't ask for
//! a proof that the rule allows the closing.
ghost use Rattle.std.specs.Prelude.{◌≡◌, ◌≢◌, ◌==◌, ◌&&◌, not, None};
ghost use Rattle.std.specs.Bool.{OnTrue, OnFalse};
ghost use Rattle.channel_core.specs.Channel.{receiver_dropped_by, sender_dropped, unchanged};
ghost use Rattle.channel_core.specs.declared.state.Upgrade.TheVariants.{Raised};
ghost use Rattle.channel_core.specs.Counts.{count_added, count_upgraded, may_add, upgrade_answer};
ghost use Rattle.ruled_channel.specs.Rule.{AddsSender, RaisesSender, AddsReceiver, RaisesReceiver, DropsSender, DropsReceiver};
ghost use Rattle.ruled_channel.specs.Passes.{IsPassOf, IsSamePass, key_of, number, view};
ghost use Rattle.ruled_channel.specs.Steps.{HasMade, found};

use crate::channel::RuledChannel;
use crate::outcomes::{Counted, HasClosed, Kept, Shut, Turned};
use crate::pass::Pass;
use crate::protocol::Protocol;
use crate::ringer::Ringer;
use channel_core::{Ticket, Upgrade};
use ruled_mutex::Unruled;
use std::sync::Wait;

impl<T: Drop, V, P: Protocol<T, V>> RuledChannel<T, V, P> {
    /// Counts one more sender, and answers whether it is counted: not if all were given up, or if
    /// there are more of them than half of what a `usize` can count.
    ///
    /// ```
    /// let (channel, mut pass) = bounded_with::<u64, (), Unruled>(rt.alloc(), 1)?;
    /// assert!(rt; channel.add_sender_as::<Unruled, _>(&rt, &mut pass));
    /// assert!(rt; !channel.drop_sender_as::<Unruled, _>(&rt, &mut pass));
    /// assert!(rt; channel.drop_sender_as::<Unruled, _>(&rt, &mut pass));
    /// ```
    pub fn add_sender_as<M: Counted<V>, R: Wait>(&self, rt: &R, pass: &mut Pass<T, V>) -> bool
        requires own { IsPassOf self.now pass.old }
        requires rule { AddsSender (P.holds (key_of self.now)) (number pass.old) (view pass.old)
            M.then }
        ensures own { IsPassOf self.now pass.new × IsSamePass pass.old pass.new }
        ensures counted { OnTrue result (M.then (view pass.old) (view pass.new)) }
        ensures same { OnFalse result (view pass.new ≡ view pass.old) }
        ensures reply { result ≡ may_add (found pass.new).senders }
        ensures step { HasMade (λ channel. unchanged (record channel {
          senders = count_added result channel.senders;
        })) pass.new }
    {
        let held = self.lock(rt, pass);
        let core = pass.lock.value_mut(&self.mutex, &held);
        let is_counted = core.add_sender();
        if is_counted {
            self.give_back::<Turned<M>>(pass, held, Ringer::new());
        } else {
            self.give_back::<Kept<Unruled>>(pass, held, Ringer::new());
        }
        is_counted
    }

    /// Counts one more receiver, and answers whether it is counted: not if all were given up, or if
    /// there are more of them than half of what a `usize` can count.
    ///
    /// ```
    /// let (channel, mut pass) = bounded_with::<u64, (), Unruled>(rt.alloc(), 1)?;
    /// assert!(rt; channel.add_receiver_as::<Unruled, _>(&rt, &mut pass));
    /// assert!(rt; !channel.drop_receiver_as::<Unruled, _>(&rt, &mut pass));
    /// assert!(rt; channel.drop_receiver_as::<Unruled, _>(&rt, &mut pass));
    /// ```
    pub fn add_receiver_as<M: Counted<V>, R: Wait>(&self, rt: &R, pass: &mut Pass<T, V>) -> bool
        requires own { IsPassOf self.now pass.old }
        requires rule { AddsReceiver (P.holds (key_of self.now)) (number pass.old) (view pass.old)
            M.then }
        ensures own { IsPassOf self.now pass.new × IsSamePass pass.old pass.new }
        ensures counted { OnTrue result (M.then (view pass.old) (view pass.new)) }
        ensures same { OnFalse result (view pass.new ≡ view pass.old) }
        ensures reply { result ≡ may_add (found pass.new).receivers }
        ensures step { HasMade (λ channel. unchanged (record channel {
          receivers = count_added result channel.receivers;
        })) pass.new }
    {
        let held = self.lock(rt, pass);
        let core = pass.lock.value_mut(&self.mutex, &held);
        let is_counted = core.add_receiver();
        if is_counted {
            self.give_back::<Turned<M>>(pass, held, Ringer::new());
        } else {
            self.give_back::<Kept<Unruled>>(pass, held, Ringer::new());
        }
        is_counted
    }

    /// Counts one more sender for one that counts for nothing, and says whether it is counted: not
    /// if the channel is closed, or if there are more of them than half of what a `usize` can count.
    ///
    /// ```
    /// let (channel, mut pass) = bounded_with::<u64, (), Unruled>(rt.alloc(), 1)?;
    /// assert_eq!(rt; channel.upgrade_sender_as::<Unruled, _>(&rt, &mut pass), Upgrade::Raised);
    /// ```
    pub fn upgrade_sender_as<M: Counted<V>, R: Wait>(
        &self,
        rt: &R,
        pass: &mut Pass<T, V>,
    ) -> Upgrade
        requires own { IsPassOf self.now pass.old }
        requires rule { RaisesSender (P.holds (key_of self.now)) (number pass.old) (view pass.old)
            M.then }
        ensures own { IsPassOf self.now pass.new × IsSamePass pass.old pass.new }
        ensures counted { result ≡ Raised → M.then (view pass.old) (view pass.new) }
        ensures same { result ≢ Raised → view pass.new ≡ view pass.old }
        ensures reply { result
            ≡ upgrade_answer (found pass.new).closed (found pass.new).senders }
        ensures step { HasMade (λ channel. unchanged (record channel {
          senders = count_upgraded result channel.senders;
        })) pass.new }
    {
        let held = self.lock(rt, pass);
        let core = pass.lock.value_mut(&self.mutex, &held);
        let upgrade = core.upgrade_sender();
        match upgrade {
            Upgrade::Raised => self.give_back::<Turned<M>>(pass, held, Ringer::new()),
            Upgrade::Closed => self.give_back::<Kept<Unruled>>(pass, held, Ringer::new()),
            Upgrade::TooMany => self.give_back::<Kept<Unruled>>(pass, held, Ringer::new()),
        }
        upgrade
    }

    /// Counts one more receiver for one that counts for nothing, and says whether it is counted:
    /// not if the channel is closed, or if there are more of them than half of what a `usize` can
    /// count.
    ///
    /// ```
    /// let (channel, mut pass) = bounded_with::<u64, (), Unruled>(rt.alloc(), 1)?;
    /// assert!(rt; channel.close_as::<Unruled, _>(&rt, &mut pass));
    /// assert_eq!(rt; channel.upgrade_receiver_as::<Unruled, _>(&rt, &mut pass), Upgrade::Closed);
    /// ```
    pub fn upgrade_receiver_as<M: Counted<V>, R: Wait>(
        &self,
        rt: &R,
        pass: &mut Pass<T, V>,
    ) -> Upgrade
        requires own { IsPassOf self.now pass.old }
        requires rule { RaisesReceiver (P.holds (key_of self.now)) (number pass.old) (view pass.old)
            M.then }
        ensures own { IsPassOf self.now pass.new × IsSamePass pass.old pass.new }
        ensures counted { result ≡ Raised → M.then (view pass.old) (view pass.new) }
        ensures same { result ≢ Raised → view pass.new ≡ view pass.old }
        ensures reply { result
            ≡ upgrade_answer (found pass.new).closed (found pass.new).receivers }
        ensures step { HasMade (λ channel. unchanged (record channel {
          receivers = count_upgraded result channel.receivers;
        })) pass.new }
    {
        let held = self.lock(rt, pass);
        let core = pass.lock.value_mut(&self.mutex, &held);
        let upgrade = core.upgrade_receiver();
        match upgrade {
            Upgrade::Raised => self.give_back::<Turned<M>>(pass, held, Ringer::new()),
            Upgrade::Closed => self.give_back::<Kept<Unruled>>(pass, held, Ringer::new()),
            Upgrade::TooMany => self.give_back::<Kept<Unruled>>(pass, held, Ringer::new()),
        }
        upgrade
    }

    /// Gives up one sender, and answers whether it was the last one and so closed the channel.
    ///
    /// ```
    /// let (channel, mut pass) = bounded_with::<u64, (), Unruled>(rt.alloc(), 1)?;
    /// assert!(rt; channel.drop_sender_as::<Unruled, _>(&rt, &mut pass));
    /// let sent = channel.try_send_as::<Unruled, Unruled, _>(&rt, &mut pass, 5)?;
    /// assert_eq!(rt; sent, Err(TrySendError::Closed(5)));
    /// ```
    pub fn drop_sender_as<M: HasClosed<V>, R: Wait>(&self, rt: &R, pass: &mut Pass<T, V>) -> bool
        requires own { IsPassOf self.now pass.old }
        requires rule { DropsSender (P.holds (key_of self.now)) (number pass.old) (view pass.old)
            M.then }
        ensures own { IsPassOf self.now pass.new × IsSamePass pass.old pass.new }
        ensures closed { M.then (view pass.old) result (view pass.new) }
        ensures reply { result ≡ (((found pass.new).senders == 1) && not (found pass.new).closed) }
        ensures step { HasMade sender_dropped pass.new }
    {
        let held = self.lock(rt, pass);
        let mut bell = Ringer::new();
        let core = pass.lock.value_mut(&self.mutex, &held);
        let has_closed = core.drop_sender(&mut bell);
        self.give_back::<Shut<M>>(pass, held, bell);
        has_closed
    }

    /// Gives up one receiver, and answers whether it was the last one and so closed the channel.
    /// The last one also ends the wait of each `closed_as`.
    ///
    /// ```
    /// let (channel, mut pass) = bounded_with::<u64, (), Unruled>(rt.alloc(), 1)?;
    /// assert!(rt; channel.drop_receiver_as::<Unruled, _>(&rt, &mut pass));
    /// assert!(rt; !channel.close_as::<Unruled, _>(&rt, &mut pass));
    /// ```
    pub fn drop_receiver_as<M: HasClosed<V>, R: Wait>(&self, rt: &R, pass: &mut Pass<T, V>) -> bool
        requires own { IsPassOf self.now pass.old }
        requires rule { DropsReceiver (P.holds (key_of self.now)) (number pass.old) (view pass.old)
            M.then }
        ensures own { IsPassOf self.now pass.new × IsSamePass pass.old pass.new }
        ensures closed { M.then (view pass.old) result (view pass.new) }
        ensures reply { result ≡ (((found pass.new).receivers == 1) && not (found pass.new).closed) }
        ensures step { HasMade (receiver_dropped_by None) pass.new }
    {
        let mut stream = None;
        let has_closed = self.drop_receiver_with_as::<M, R>(rt, pass, &mut stream);
        Ticket::destroy_none(stream);
        has_closed
    }

    /// `drop_receiver_as` of a receiver whose stream may wait: its entry leaves the list first.
    ///
    /// ```
    /// let (channel, mut pass) = bounded_with::<u64, (), Unruled>(rt.alloc(), 1)?;
    /// let mut stream = None;
    /// assert!(rt; channel.drop_receiver_with_as::<Unruled, _>(&rt, &mut pass, &mut stream));
    /// Ticket::destroy_none(stream);
    /// ```
    pub fn drop_receiver_with_as<M: HasClosed<V>, R: Wait>(
        &self,
        rt: &R,
        pass: &mut Pass<T, V>,
        stream: &mut Option<Ticket>,
    ) -> bool
        requires own { IsPassOf self.now pass.old }
        requires rule { DropsReceiver (P.holds (key_of self.now)) (number pass.old) (view pass.old)
            M.then }
        ensures own { IsPassOf self.now pass.new × IsSamePass pass.old pass.new }
        ensures closed { M.then (view pass.old) result (view pass.new) }
        ensures ticket { stream.new ≡ None }
        ensures reply { result ≡ (((found pass.new).receivers == 1) && not (found pass.new).closed) }
        ensures step { HasMade (receiver_dropped_by stream.old) pass.new }
    {
        let held = self.lock(rt, pass);
        let mut bell = Ringer::new();
        let core = pass.lock.value_mut(&self.mutex, &held);
        let has_closed = core.drop_receiver(stream, &mut bell);
        self.give_back::<Shut<M>>(pass, held, bell);
        has_closed
    }
}
