//! What a handle asks of the channel, and what closes it.
ghost use Rattle.std.specs.Prelude.{◌≡◌, Some};
ghost use Rattle.channel_model.specs.declared.step.Step.{Step};
ghost use Rattle.channel_model.specs.Replies.{reply_in};
ghost use Rattle.channel_run.specs.RunSteps.{asker, StepsTo};

use crate::run::Run;
use channel_model::{Refusal, Reply, Side};
use event_list::Quiet;

impl<T: Drop> Run<T> {
    pub(super) fn close(&mut self, side: Side) -> Reply<T>
        ensures { StepsTo self.old (Step.Close side) result self.new }
    {
        if !self.has_handle(side) {
            return Reply::Refused(Refusal::Unknown, None);
        }
        Reply::Flag(self.core.close(&mut Quiet))
    }

    pub(super) fn is_closed(&self, side: Side) -> Reply<T>
        ensures { StepsTo self.now (Step.IsClosed side) result self.now }
    {
        self.answer(side, Reply::Flag(self.core.is_closed()))
    }

    pub(super) fn is_empty(&self, side: Side) -> Reply<T>
        ensures { StepsTo self.now (Step.IsEmpty side) result self.now }
    {
        self.answer(side, Reply::Flag(self.core.is_empty()))
    }

    pub(super) fn is_full(&self, side: Side) -> Reply<T>
        ensures { StepsTo self.now (Step.IsFull side) result self.now }
    {
        self.answer(side, Reply::Flag(self.core.is_full()))
    }

    pub(super) fn len(&self, side: Side) -> Reply<T>
        ensures { StepsTo self.now (Step.Len side) result self.now }
    {
        self.answer(side, Reply::Count(self.core.len()))
    }

    pub(super) fn sender_count(&self, side: Side) -> Reply<T>
        ensures { StepsTo self.now (Step.SenderCount side) result self.now }
    {
        self.answer(side, Reply::Count(self.core.sender_count()))
    }

    pub(super) fn receiver_count(&self, side: Side) -> Reply<T>
        ensures { StepsTo self.now (Step.ReceiverCount side) result self.now }
    {
        self.answer(side, Reply::Count(self.core.receiver_count()))
    }

    pub(super) fn capacity(&self, side: Side) -> Reply<T>
        ensures { StepsTo self.now (Step.Capacity side) result self.now }
    {
        self.answer(side, Reply::Capacity(self.core.capacity()))
    }

    pub(super) fn is_terminated(&self, receiver: u64) -> Reply<T>
        ensures { StepsTo self.now (Step.IsTerminated receiver) result self.now }
    {
        self.answer(
            Side::Receiver(receiver),
            Reply::Flag(self.core.is_terminated()),
        )
    }

    // The reply to a handle that asks, if it is live.
    fn answer(&self, side: Side, reply: Reply<T>) -> Reply<T>
        ensures { (step : Step T) → asker step ≡ Some side → reply ≡ reply_in self.now step
            → StepsTo self.now step result self.now }
    {
        if self.has_handle(side) {
            reply
        } else {
            Reply::Refused(Refusal::Unknown, None)
        }
    }
}
