//! Operations that are started, polled and given up, and the polls of streams.
ghost use Rattle.std.specs.Prelude.{◌≡◌, true};
ghost use Rattle.event_list.specs.Keys.{is_among};
ghost use Rattle.channel_model.specs.declared.step.Step.{Step};
ghost use Rattle.channel_run.specs.RunSteps.{StepsAsAllowed, StepsTo};

use crate::operations::Operation;
use crate::run::Run;
use channel_model::{OutOfMemory, Refusal, Reply};
use event_list::Quiet;

impl<T: Drop> Run<T> {
    pub(super) fn start_send(&mut self, op: u64, sender: u64, message: T) -> Reply<T>
        ensures { StepsTo self.old (Step.StartSend op sender message) result self.new }
    {
        if !self.senders.has(sender) {
            return Reply::Refused(Refusal::Unknown, Some(message));
        }
        if self.has_operation(op) {
            return Reply::Refused(Refusal::Taken, Some(message));
        }
        let operation = Operation::Send {
            sender,
            message: Some(message),
            ticket: None,
        };
        match self.operations.put(op, operation) {
            Ok(()) => Reply::Done,
            Err(operation) => Reply::Refused(Refusal::OutOfMemory, operation.into_message()),
        }
    }

    pub(super) fn start_recv(&mut self, op: u64, receiver: u64) -> Reply<T>
        ensures { StepsTo self.old (Step.StartRecv op receiver) result self.new }
    {
        if !self.has_receiver(receiver) {
            return Reply::Refused(Refusal::Unknown, None);
        }
        if self.has_operation(op) {
            return Reply::Refused(Refusal::Taken, None);
        }
        let operation = Operation::Recv {
            receiver,
            ticket: None,
        };
        match self.operations.put(op, operation) {
            Ok(()) => Reply::Done,
            Err(operation) => Reply::Refused(Refusal::OutOfMemory, operation.into_message()),
        }
    }

    pub(super) fn start_closed(&mut self, op: u64, sender: u64) -> Reply<T>
        ensures { StepsTo self.old (Step.StartClosed op sender) result self.new }
    {
        if !self.senders.has(sender) {
            return Reply::Refused(Refusal::Unknown, None);
        }
        if self.has_operation(op) {
            return Reply::Refused(Refusal::Taken, None);
        }
        let operation = Operation::Closed {
            sender,
            ticket: None,
        };
        match self.operations.put(op, operation) {
            Ok(()) => Reply::Done,
            Err(operation) => Reply::Refused(Refusal::OutOfMemory, operation.into_message()),
        }
    }

    pub(super) fn poll(&mut self, op: u64) -> Reply<T>
        ensures { StepsTo self.old (Step.Poll op) result self.new }
    {
        let Some(operation) = self.operations.by_name.get_mut(&op) else {
            return Reply::Refused(Refusal::Unknown, None);
        };
        match operation {
            Operation::Send {
                message,
                ticket,
                ..
            } => {
                match self.core.poll_send(message, ticket, (), &mut Quiet) {
                    Ok(poll) => Reply::SendPolled(poll),
                    Err(OutOfMemory) => Reply::Refused(Refusal::OutOfMemory, None),
                }
            }
            Operation::Recv { ticket, .. } => {
                match self.core.poll_recv(ticket, (), &mut Quiet) {
                    Ok(poll) => Reply::RecvPolled(poll),
                    Err(OutOfMemory) => Reply::Refused(Refusal::OutOfMemory, None),
                }
            }
            Operation::Closed { ticket, .. } => match self.core.poll_closed(ticket, ()) {
                Ok(poll) => Reply::ClosedPolled(poll),
                Err(OutOfMemory) => Reply::Refused(Refusal::OutOfMemory, None),
            },
        }
    }

    pub(super) fn poll_next(&mut self, receiver: u64) -> Reply<T>
        ensures { StepsTo self.old (Step.PollNext receiver) result self.new }
    {
        if !self.has_receiver(receiver) {
            return Reply::Refused(Refusal::Unknown, None);
        }
        if self.operations.is_receiver_borrowed(receiver) {
            return Reply::Refused(Refusal::Borrowed, None);
        }
        self.poll_stream(receiver)
    }

    pub(super) fn drop_op(&mut self, op: u64) -> Reply<T>
        ensures { StepsTo self.old (Step.DropOp op) result self.new }
    {
        let Some(operation) = self.operations.take(op) else {
            return Reply::Refused(Refusal::Unknown, None);
        };
        operation.cancel(&mut self.core);
        Reply::Done
    }

    /// Polls the stream of a receiver that is live.
    pub(super) fn poll_stream(&mut self, receiver: u64) -> Reply<T>
        requires { is_among receiver self.old.receivers ≡ true }
        ensures { StepsAsAllowed self.old (Step.PollNext receiver) result self.new }
    {
        let Some(ticket) = self.receivers.get_mut(&receiver) else {
            return Reply::Refused(Refusal::Unknown, None);
        };
        match self.core.poll_next(ticket, (), &mut Quiet) {
            Ok(poll) => Reply::NextPolled(poll),
            Err(OutOfMemory) => Reply::Refused(Refusal::OutOfMemory, None),
        }
    }
}
