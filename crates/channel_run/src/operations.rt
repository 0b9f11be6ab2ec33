//! Operations that were started, with the tickets of their waits.
ghost use Rattle.std.specs.Prelude.{◌≡◌, ℕ, [], length, true, suc, None, Some, is_some, ◌+◌, ◌-◌, OnOk, OnErr, IfErr, IfNone};
ghost use Rattle.std.specs.List.{list_any};
ghost use Rattle.std.specs.BTreeMap.{values};
ghost use Rattle.std.specs.Map.{keys_of};
ghost use Rattle.event_list.specs.Keys.{AreDifferent};
ghost use Rattle.channel_model.specs.Operations.{borrows_receiver, borrows_sender, unsent_message};
ghost use Rattle.channel_run.specs.RunShown.{entry_at, has_key, number_at, dropped, one_if, operation_shown, own_ticket, ticket_in, AreCounted, Changed};

use crate::tally::Tally;
use crate::tickets::has_key;
use channel_core::{Core, Group};
use channel_model::OutOfMemory;
use event_list::{Quiet, Ticket};
use std::alloc::Global;
use std::collections::BTreeMap;

/// An operation that was started and not given up. It borrows its handle all that time.
pub(crate) enum Operation<T> {
    /// A send, with its message until it has finished.
    Send {
        sender: u64,
        message: Option<T>,
        ticket: Option<Ticket>,
    },
    /// A receive.
    Recv {
        receiver: u64,
        ticket: Option<Ticket>,
    },
    /// An operation that waits for the last receiver.
    Closed {
        sender: u64,
        ticket: Option<Ticket>,
    },
}

impl<T> Operation<T> {
    /// Whether it borrows this sender.
    pub(crate) fn borrows_sender(&self, name: u64) -> bool
        ensures { result ≡ borrows_sender name (operation_shown self.now) }
    {
        match self {
            Operation::Send { sender, .. } => *sender == name,
            Operation::Recv { .. } => false,
            Operation::Closed { sender, .. } => *sender == name,
        }
    }

    /// The message of a send that hasn't finished, and doesn't wait.
    pub(crate) fn into_message(self) -> Option<T>
        requires { own_ticket self ≡ None }
        ensures { result ≡ unsent_message (operation_shown self) }
    {
        match self {
            Operation::Send {
                message,
                ticket,
                sender: _,
            } => {
                Ticket::destroy_none(ticket);
                message
            }
            Operation::Recv {
                ticket,
                receiver: _,
            } => {
                Ticket::destroy_none(ticket);
                None
            }
            Operation::Closed { ticket, sender: _ } => {
                Ticket::destroy_none(ticket);
                None
            }
        }
    }

    /// Gives its wait up.
    pub(crate) fn cancel(self, core: &mut Core<T, ()>)
    where
        T: Drop,
        ensures { core.new ≡ dropped core.old (Some self) }
    {
        match self {
            Operation::Send {
                message: _message,
                mut ticket,
                sender: _,
            } => {
                core.cancel_send(&mut ticket, &mut Quiet);
                Ticket::destroy_none(ticket);
            }
            Operation::Recv {
                mut ticket,
                receiver: _,
            } => {
                core.cancel_recv(&mut ticket, &mut Quiet);
                Ticket::destroy_none(ticket);
            }
            Operation::Closed {
                mut ticket,
                sender: _,
            } => {
                core.cancel_closed(&mut ticket);
                Ticket::destroy_none(ticket);
            }
        }
    }

    /// Whether it borrows this receiver.
    pub(crate) fn borrows_receiver(&self, name: u64) -> bool
        ensures { result ≡ borrows_receiver name (operation_shown self.now) }
    {
        match self {
            Operation::Send { .. } => false,
            Operation::Recv { receiver, .. } => *receiver == name,
            Operation::Closed { .. } => false,
        }
    }

    /// Whether it waits in the group, and by a ticket of this key.
    pub(crate) fn waits_with(&self, group: Group, key: usize) -> bool
        ensures { result ≡ has_key key (ticket_in group self.now) }
    {
        match self {
            Operation::Send { ticket, .. } => group == Group::Sends && has_key(ticket, key),
            Operation::Recv { ticket, .. } => group == Group::Receives && has_key(ticket, key),
            Operation::Closed { ticket, .. } => group == Group::Closeds && has_key(ticket, key),
        }
    }
}

/// The live operations by name, and how many of them borrow each handle.
pub(crate) struct Operations<T> {
    // each with the ticket of its wait; a poll changes an operation, but never what it borrows
    pub(crate) by_name: BTreeMap<u64, Operation<T>>,
    // how many borrow each sender, and each receiver
    pub(crate) by_sender: Tally,
    pub(crate) by_receiver: Tally,
}

impl<T> Operations<T> {
    /// None.
    pub(crate) fn new(alloc: Global) -> Operations<T>
        ensures empty { result.by_name.entries ≡ [] }
        ensures counted { AreCounted result.by_sender result.by_receiver result.by_name.entries }
    {
        Operations {
            by_name: BTreeMap::new(alloc),
            by_sender: Tally::new(alloc),
            by_receiver: Tally::new(alloc),
        }
    }

    /// Whether a live send or closed operation borrows the sender.
    pub(crate) fn is_sender_borrowed(&self, name: u64) -> bool
        requires { AreCounted self.now.by_sender self.now.by_receiver self.now.by_name.entries }
        ensures { result ≡ list_any (λ operation. borrows_sender name (operation_shown operation))
            (values self.now.by_name) }
    {
        self.by_sender.get(name) > 0
    }

    /// Whether a live receive borrows the receiver.
    pub(crate) fn is_receiver_borrowed(&self, name: u64) -> bool
        requires { AreCounted self.now.by_sender self.now.by_receiver self.now.by_name.entries }
        ensures { result ≡ list_any (λ operation. borrows_receiver name (operation_shown operation))
            (values self.now.by_name) }
    {
        self.by_receiver.get(name) > 0
    }

    /// Puts an operation under a name that isn't live, or hands it back.
    #[tactic(auto, using(crate::proofs::Tables::Borrowing::counted_put, crate::proofs::Tables::Borrowing::counted_back))]
    pub(crate) fn put(&mut self, op: u64, operation: Operation<T>) -> Result<(), Operation<T>>
    where
        T: Drop,
        requires free { entry_at self.old.by_name.entries op ≡ None }
        requires counted { AreCounted self.old.by_sender self.old.by_receiver
            self.old.by_name.entries }
        ensures added { OnOk result
            (Changed op self.old.by_name.entries self.new.by_name.entries (Some operation)) }
        ensures more { OnOk result
            (length self.new.by_name.entries ≡ length self.old.by_name.entries + 1) }
        ensures handed_back { IfErr result (λ back. back ≡ operation) }
        ensures unchanged { OnErr result (self.new.by_name.entries ≡ self.old.by_name.entries) }
        ensures counted { AreCounted self.new.by_sender self.new.by_receiver
            self.new.by_name.entries }
    {
        if self.count(&operation).is_err() {
            return Err(operation);
        }
        match self.by_name.insert(op, operation) {
            Ok(earlier) => match earlier {
                None => Ok(()),
                Some(_) => unreachable!(),
            },
            Err(refused) => {
                let operation = refused.value.1;
                self.discount(&operation);
                Err(operation)
            }
        }
    }

    /// Takes out the operation of a name.
    pub(crate) fn take(&mut self, op: u64) -> Option<Operation<T>>
    where
        T: Drop,
        requires { AreCounted self.old.by_sender self.old.by_receiver self.old.by_name.entries }
        ensures value { result ≡ entry_at self.old.by_name.entries op }
        ensures left { Changed op self.old.by_name.entries self.new.by_name.entries None }
        ensures fewer { is_some result ≡ true
            → length self.old.by_name.entries ≡ suc (length self.new.by_name.entries) }
        ensures unchanged { IfNone result (self.new.by_name.entries ≡ self.old.by_name.entries) }
        ensures different { AreDifferent (keys_of self.old.by_name.entries) }
        ensures counted { AreCounted self.new.by_sender self.new.by_receiver
            self.new.by_name.entries }
    {
        // proof: the call promises that the names are different
        let _count = self.by_name.len();
        let operation = self.by_name.remove(&op)?;
        self.discount(&operation);
        Some(operation)
    }

    // Counts what one more operation borrows.
    #[tactic(auto, using(crate::proofs::Tables::Borrowing::few_borrow_sender, crate::proofs::Tables::Borrowing::few_borrow_receiver))]
    fn count(&mut self, operation: &Operation<T>) -> Result<(), OutOfMemory>
        requires { AreCounted self.old.by_sender self.old.by_receiver self.old.by_name.entries }
        ensures senders { OnOk result ((name : ℕ) → number_at self.new.by_sender name
            ≡ number_at self.old.by_sender name
            + one_if (borrows_sender name (operation_shown operation.now))) }
        ensures receivers { OnOk result ((name : ℕ) → number_at self.new.by_receiver name
            ≡ number_at self.old.by_receiver name
            + one_if (borrows_receiver name (operation_shown operation.now))) }
        ensures kept { self.new.by_name ≡ self.old.by_name }
        ensures unchanged { OnErr result (self.new ≡ self.old) }
    {
        // proof: no count is above the number of operations, so that it can be raised
        let _count = self.by_name.len();
        match operation {
            Operation::Send { sender, .. } => self.by_sender.raise(*sender),
            Operation::Recv { receiver, .. } => self.by_receiver.raise(*receiver),
            Operation::Closed { sender, .. } => self.by_sender.raise(*sender),
        }
    }

    // Takes back what an operation borrows.
    fn discount(&mut self, operation: &Operation<T>)
        ensures senders { (name : ℕ) → number_at self.new.by_sender name
            ≡ number_at self.old.by_sender name
            - one_if (borrows_sender name (operation_shown operation.now)) }
        ensures receivers { (name : ℕ) → number_at self.new.by_receiver name
            ≡ number_at self.old.by_receiver name
            - one_if (borrows_receiver name (operation_shown operation.now)) }
        ensures kept { self.new.by_name ≡ self.old.by_name }
    {
        match operation {
            Operation::Send { sender, .. } => self.by_sender.lower(*sender),
            Operation::Recv { receiver, .. } => self.by_receiver.lower(*receiver),
            Operation::Closed { sender, .. } => self.by_sender.lower(*sender),
        }
    }
}
