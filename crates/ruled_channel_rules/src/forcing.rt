//! Sends that displace the oldest message of a full channel.
ghost use Rattle.std.specs.Prelude.{◌≡◌, [], not, true, false, IfOk, IfErr, OnErr, OnOk};
ghost use Rattle.channel_core.specs.Tables.{force_send_answer};
ghost use Rattle.channel_core.specs.Channel.{GrowsWithMessages, closing, force_sent, is_channel_full, oldest, unchanged};
ghost use Rattle.ruled_channel_rules.specs.Handles.{IsHubOf, IsForceSenderOf, displaced_by, force_closed, force_found, forced_by, known};
ghost use Rattle.ruled_channel_rules.specs.Forcing.{HasForced, HasMade, IsAsItWas};
ghost use Rattle.ruled_channel_rules.specs.Whole.{force_sender_log, one_force_sender_more, together};

use crate::handles::{Channel, Hub};
use crate::log::{ForForceSender, Log, Whole};
use ruled_channel::{NoMemory, Pass, SendError, Unruled};
use std::sync::Wait;

/// Sends messages without waiting, for which a full channel gives its oldest, and knows what it has
/// sent and what was displaced. What it displaced counts as got by it: the hub, once it has all
/// back, knows that what was sent was received, or displaced, or is held still. It has no bytes.
///
/// ```
/// let (channel, mut hub) = bounded(rt.alloc(), 1)?;
/// let mut latest: ForceSender<u64> = hub.force_sender(&channel);
/// assert_eq!(rt; latest.force_send(&rt, &channel, 1)?, Ok(None));
/// assert_eq!(rt; latest.force_send(&rt, &channel, 2)?, Ok(Some(1)));
/// ```
#[derive(Drop)]
pub struct ForceSender<T> {
    pub(crate) pass: Pass<T, Log<T>>,
}

impl<T: Drop> ForceSender<T> {
    /// Puts a message last in an open channel. A full one gives its oldest message for it; a closed
    /// one hands the message back. The outer error, with the message, says that memory was refused,
    /// which an unbounded channel alone may be.
    ///
    /// ```
    /// let (channel, mut hub) = bounded(rt.alloc(), 1)?;
    /// let mut latest = hub.force_sender(&channel);
    /// let mut receiver = hub.receiver(&channel);
    /// assert_eq!(rt; latest.force_send(&rt, &channel, 1)?, Ok(None));
    /// assert_eq!(rt; latest.force_send(&rt, &channel, 2)?, Ok(Some(1)));
    /// assert_eq!(rt; receiver.recv_blocking(&rt, &channel)?, Ok(2));
    /// ```
    #[tactic(auto, using(crate::proofs::Forced::forced))]
    pub fn force_send<R: Wait>(
        &mut self,
        rt: &R,
        channel: &Channel<T>,
        message: T,
    ) -> Result<Result<Option<T>, SendError<T>>, NoMemory<T>>
        requires own { IsForceSenderOf channel.now self.old }
        ensures own { IsForceSenderOf channel.now self.new }
        ensures sent { IfOk result (λ answer. IfOk answer
            (λ displaced. HasForced self.old message displaced self.new)) }
        ensures refused { IfOk result (λ answer. IfErr answer
            (λ error. (error.0 ≡ message) × IsAsItWas self.old self.new)) }
        ensures memory { IfErr result
            (λ error. (error.0 ≡ message) × IsAsItWas self.old self.new) }
        ensures reply { IfOk result (λ answer. answer
            ≡ force_send_answer (force_found self.new).closed
            (is_channel_full (force_found self.new)) (oldest (force_found self.new)) message) }
        ensures step { OnOk result (HasMade (force_sent message) self.new) }
        ensures wanted { OnErr result (GrowsWithMessages (force_found self.new)) }
        ensures unchanged { OnErr result (HasMade unchanged self.new) }
    {
        let ruled = &channel.ruled;
        ruled.force_send_as::<Whole, Unruled, R>(rt, &mut self.pass, message)
    }

    /// Closes the channel, and answers whether it was open. What it holds can be received still.
    ///
    /// ```
    /// let (channel, mut hub) = bounded(rt.alloc(), 1)?;
    /// let mut latest: ForceSender<u64> = hub.force_sender(&channel);
    /// assert!(rt; latest.close(&rt, &channel));
    /// assert_eq!(rt; latest.force_send(&rt, &channel, 1)?, Err(SendError(1)));
    /// ```
    pub fn close<R: Wait>(&mut self, rt: &R, channel: &Channel<T>) -> bool
        requires own { IsForceSenderOf channel.now self.old }
        ensures own { IsForceSenderOf channel.now self.new }
        ensures same { (forced_by self.new ≡ forced_by self.old)
            × (displaced_by self.new ≡ displaced_by self.old) }
        ensures closed { force_closed self.new ≡ true }
        ensures again { force_closed self.old ≡ true → result ≡ false }
        ensures reply { result ≡ not (force_found self.new).closed }
        ensures step { HasMade closing self.new }
    {
        channel.ruled.close_as::<Whole, R>(rt, &mut self.pass)
    }
}

impl<T: Drop> Hub<T> {
    /// A sender whose sends are forced. It is counted as a sender and as a receiver, since it gets
    /// what it displaces.
    ///
    /// ```
    /// let (channel, mut hub) = bounded(rt.alloc(), 1)?;
    /// let mut latest = hub.force_sender(&channel);
    /// assert_eq!(rt; latest.force_send(&rt, &channel, 1)?, Ok(None));
    /// ```
    pub fn force_sender(&mut self, channel: &Channel<T>) -> ForceSender<T>
        requires own { IsHubOf channel.now self.old }
        ensures own { IsHubOf channel.now self.new × IsForceSenderOf channel.now result }
        ensures new { (forced_by result ≡ []) × (displaced_by result ≡ [])
            × (force_closed result ≡ false) }
        ensures counted { known self.new ≡ one_force_sender_more (known self.old) }
    {
        let pass = channel.ruled.another::<ForForceSender>(&mut self.pass);
        ForceSender { pass }
    }

    /// Takes a force sender back.
    ///
    /// ```
    /// let (channel, mut hub) = bounded(rt.alloc(), 1)?;
    /// let mut latest = hub.force_sender(&channel);
    /// assert_eq!(rt; latest.force_send(&rt, &channel, 1)?, Ok(None));
    /// assert_eq!(rt; latest.force_send(&rt, &channel, 2)?, Ok(Some(1)));
    /// hub.take_force_sender(&channel, latest);
    /// assert_eq!(rt; hub.settle(&rt, &channel), 1);
    /// ```
    pub fn take_force_sender(&mut self, channel: &Channel<T>, sender: ForceSender<T>)
        requires own { IsHubOf channel.now self.old × IsForceSenderOf channel.now sender }
        ensures own { IsHubOf channel.now self.new }
        ensures known { known self.new ≡ together (known self.old)
            (force_sender_log (force_closed sender) (forced_by sender) (displaced_by sender)) }
    {
        let ForceSender { pass } = sender;
        channel.ruled.absorb::<Whole>(&mut self.pass, pass);
    }
}
