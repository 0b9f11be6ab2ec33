//! What each handle has of its channel.
ghost use Rattle.std.specs.Prelude.{◌≡◌, IfOk};
ghost use Rattle.std.specs.Arc.{arc_value};

use channel_core::OutOfMemory;
use ruled_channel::{Pass, RuledChannel, Status, Unruled};
use std::sync::{Arc, Wait};

/// What all handles of a channel share: the channel under the rule that asks nothing.
pub(crate) struct Shared<T> {
    pub(crate) channel: RuledChannel<T, (), Unruled>,
}

impl<T: Drop> Drop for Shared<T> {
    fn drop(self) {
        let Self { channel } = self;
        drop(channel);
    }
}

/// What each handle has of its channel: the shared part, and the runtime by which it takes the
/// lock.
#[derive(Drop)]
pub(crate) struct Link<T, R> {
    pub(crate) shared: Arc<Shared<T>>,
    pub(crate) rt: R,
}

impl<T: Drop, R: Wait> Link<T, R> {
    ghost use Rattle.ruled_channel.specs.Passes.{IsPassOf};

    /// The channel, and a pass for one call of it.
    #[inline(always)]
    pub(crate) fn channel(&self) -> (&RuledChannel<T, (), Unruled>, Pass<T, ()>)
        ensures own { IsPassOf result.0.now result.1 }
        ensures channel { result.0.now ≡ (arc_value self.now.shared).channel }
    {
        let channel = &self.shared.channel;
        (channel, channel.pass())
    }

    /// What there is in the channel at one moment.
    pub(crate) fn status(&self) -> Status {
        let (channel, mut pass) = self.channel();
        channel.learn_as::<Unruled, R>(&self.rt, &mut pass)
    }

    /// Closes the channel, and answers whether it was open.
    pub(crate) fn close(&self) -> bool {
        let (channel, mut pass) = self.channel();
        channel.close_as::<Unruled, R>(&self.rt, &mut pass)
    }
}

impl<T: Drop, R: Clone + Drop> Link<T, R> {
    pub(crate) fn try_clone(&self) -> Result<Link<T, R>, OutOfMemory>
        ensures { IfOk result (λ link. arc_value link.shared ≡ arc_value self.now.shared) }
    {
        Ok(Link {
            shared: Arc::try_clone(&self.shared)?,
            rt: self.rt.clone()?,
        })
    }
}
