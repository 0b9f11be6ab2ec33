//! Steps that put a message in, or take one, at once.
ghost use Rattle.std.specs.Prelude.{◌≡◌};
ghost use Rattle.channel_model.specs.declared.step.Step.{Step};
ghost use Rattle.channel_run.specs.RunSteps.{StepsTo};

use crate::run::Run;
use channel_model::{NoMemory, Refusal, Reply};
use event_list::Quiet;

impl<T: Drop> Run<T> {
    pub(super) fn try_send(&mut self, sender: u64, message: T) -> Reply<T>
        ensures { StepsTo self.old (Step.TrySend sender message) result self.new }
    {
        if !self.senders.has(sender) {
            return Reply::Refused(Refusal::Unknown, Some(message));
        }
        match self.core.try_send(message, &mut Quiet) {
            Ok(answer) => Reply::TrySent(answer),
            Err(NoMemory(message)) => Reply::Refused(Refusal::OutOfMemory, Some(message)),
        }
    }

    pub(super) fn force_send(&mut self, sender: u64, message: T) -> Reply<T>
        ensures { StepsTo self.old (Step.ForceSend sender message) result self.new }
    {
        if !self.senders.has(sender) {
            return Reply::Refused(Refusal::Unknown, Some(message));
        }
        match self.core.force_send(message, &mut Quiet) {
            Ok(answer) => Reply::Forced(answer),
            Err(NoMemory(message)) => Reply::Refused(Refusal::OutOfMemory, Some(message)),
        }
    }

    pub(super) fn try_recv(&mut self, receiver: u64) -> Reply<T>
        ensures { StepsTo self.old (Step.TryRecv receiver) result self.new }
    {
        if !self.has_receiver(receiver) {
            return Reply::Refused(Refusal::Unknown, None);
        }
        Reply::Received(self.core.try_recv(&mut Quiet))
    }
}
