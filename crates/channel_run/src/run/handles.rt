//! Handles that are copied, downgraded, upgraded and given up, by name.
ghost use Rattle.std.specs.Prelude.{◌≡◌, ℕ, true};
ghost use Rattle.event_list.specs.Keys.{is_among};
ghost use Rattle.channel_model.specs.declared.step.Step.{Step};
ghost use Rattle.channel_run.specs.RunSteps.{StepsTo};

use crate::names::take;
use crate::run::Run;
use crate::tickets::put_receiver;
use channel_core::HANDLE_LIMIT;
use channel_model::{OutOfMemory, Refusal, Reply};
use event_list::{Quiet, Ticket};

impl<T: Drop> Run<T> {
    pub(super) fn clone_sender(&mut self, of: u64, new: u64) -> Reply<T>
        ensures { StepsTo self.old (Step.CloneSender of new) result self.new }
    {
        if !self.senders.has(of) {
            return Reply::Refused(Refusal::Unknown, None);
        }
        if self.senders.has(new) {
            return Reply::Refused(Refusal::Taken, None);
        }
        if self.core.sender_count() > HANDLE_LIMIT {
            return Reply::Refused(Refusal::TooMany, None);
        }
        if self.senders.add(new).is_err() {
            return Reply::Refused(Refusal::OutOfMemory, None);
        }
        self.core.add_sender();
        Reply::Done
    }

    pub(super) fn clone_receiver(&mut self, of: u64, new: u64) -> Reply<T>
        ensures { StepsTo self.old (Step.CloneReceiver of new) result self.new }
    {
        if !self.has_receiver(of) {
            return Reply::Refused(Refusal::Unknown, None);
        }
        if self.has_receiver(new) {
            return Reply::Refused(Refusal::Taken, None);
        }
        if self.core.receiver_count() > HANDLE_LIMIT {
            return Reply::Refused(Refusal::TooMany, None);
        }
        if put_receiver(&mut self.receivers, new).is_err() {
            return Reply::Refused(Refusal::OutOfMemory, None);
        }
        self.core.add_receiver();
        Reply::Done
    }

    pub(super) fn clone_weak_sender(&mut self, of: u64, new: u64) -> Reply<T>
        ensures { StepsTo self.old (Step.CloneWeakSender of new) result self.new }
    {
        if !self.weak_senders.has(of) {
            return Reply::Refused(Refusal::Unknown, None);
        }
        self.add_weak_sender(new)
    }

    pub(super) fn clone_weak_receiver(&mut self, of: u64, new: u64) -> Reply<T>
        ensures { StepsTo self.old (Step.CloneWeakReceiver of new) result self.new }
    {
        if !self.weak_receivers.has(of) {
            return Reply::Refused(Refusal::Unknown, None);
        }
        self.add_weak_receiver(new)
    }

    pub(super) fn downgrade_sender(&mut self, of: u64, new: u64) -> Reply<T>
        ensures { StepsTo self.old (Step.DowngradeSender of new) result self.new }
    {
        if !self.senders.has(of) {
            return Reply::Refused(Refusal::Unknown, None);
        }
        self.add_weak_sender(new)
    }

    pub(super) fn downgrade_receiver(&mut self, of: u64, new: u64) -> Reply<T>
        ensures { StepsTo self.old (Step.DowngradeReceiver of new) result self.new }
    {
        if !self.has_receiver(of) {
            return Reply::Refused(Refusal::Unknown, None);
        }
        self.add_weak_receiver(new)
    }

    pub(super) fn upgrade_sender(&mut self, of: u64, new: u64) -> Reply<T>
        ensures { StepsTo self.old (Step.UpgradeSender of new) result self.new }
    {
        if !self.weak_senders.has(of) {
            return Reply::Refused(Refusal::Unknown, None);
        }
        if self.senders.has(new) {
            return Reply::Refused(Refusal::Taken, None);
        }
        if self.core.is_closed() {
            return Reply::Upgraded(false);
        }
        if self.core.sender_count() > HANDLE_LIMIT {
            return Reply::Refused(Refusal::TooMany, None);
        }
        if self.senders.add(new).is_err() {
            return Reply::Refused(Refusal::OutOfMemory, None);
        }
        self.core.upgrade_sender();
        Reply::Upgraded(true)
    }

    pub(super) fn upgrade_receiver(&mut self, of: u64, new: u64) -> Reply<T>
        ensures { StepsTo self.old (Step.UpgradeReceiver of new) result self.new }
    {
        if !self.weak_receivers.has(of) {
            return Reply::Refused(Refusal::Unknown, None);
        }
        if self.has_receiver(new) {
            return Reply::Refused(Refusal::Taken, None);
        }
        if self.core.is_closed() {
            return Reply::Upgraded(false);
        }
        if self.core.receiver_count() > HANDLE_LIMIT {
            return Reply::Refused(Refusal::TooMany, None);
        }
        if put_receiver(&mut self.receivers, new).is_err() {
            return Reply::Refused(Refusal::OutOfMemory, None);
        }
        self.core.upgrade_receiver();
        Reply::Upgraded(true)
    }

    pub(super) fn drop_sender(&mut self, name: u64) -> Reply<T>
        ensures { StepsTo self.old (Step.DropSender name) result self.new }
    {
        if !self.senders.has(name) {
            return Reply::Refused(Refusal::Unknown, None);
        }
        if self.operations.is_sender_borrowed(name) {
            return Reply::Refused(Refusal::Borrowed, None);
        }
        self.senders.remove(name);
        self.core.drop_sender(&mut Quiet);
        Reply::Done
    }

    pub(super) fn drop_receiver(&mut self, name: u64) -> Reply<T>
        ensures { StepsTo self.old (Step.DropReceiver name) result self.new }
    {
        if !self.has_receiver(name) {
            return Reply::Refused(Refusal::Unknown, None);
        }
        if self.operations.is_receiver_borrowed(name) {
            return Reply::Refused(Refusal::Borrowed, None);
        }
        let mut ticket = take(&mut self.receivers, name).flatten();
        self.core.drop_receiver(&mut ticket, &mut Quiet);
        Ticket::destroy_none(ticket);
        Reply::Done
    }

    pub(super) fn drop_weak_sender(&mut self, name: u64) -> Reply<T>
        ensures { StepsTo self.old (Step.DropWeakSender name) result self.new }
    {
        if !self.weak_senders.has(name) {
            return Reply::Refused(Refusal::Unknown, None);
        }
        self.weak_senders.remove(name);
        Reply::Done
    }

    pub(super) fn drop_weak_receiver(&mut self, name: u64) -> Reply<T>
        ensures { StepsTo self.old (Step.DropWeakReceiver name) result self.new }
    {
        if !self.weak_receivers.has(name) {
            return Reply::Refused(Refusal::Unknown, None);
        }
        self.weak_receivers.remove(name);
        Reply::Done
    }

    // Makes the name of a weak sender.
    fn add_weak_sender(&mut self, new: u64) -> Reply<T>
        ensures copied { (of : ℕ) → is_among of self.old.weak_senders ≡ true
            → StepsTo self.old (Step.CloneWeakSender of new) result self.new }
        ensures downgraded { (of : ℕ) → is_among of self.old.senders ≡ true
            → StepsTo self.old (Step.DowngradeSender of new) result self.new }
    {
        if self.weak_senders.has(new) {
            return Reply::Refused(Refusal::Taken, None);
        }
        match self.weak_senders.add(new) {
            Ok(()) => Reply::Done,
            Err(OutOfMemory) => Reply::Refused(Refusal::OutOfMemory, None),
        }
    }

    // Makes the name of a weak receiver.
    fn add_weak_receiver(&mut self, new: u64) -> Reply<T>
        ensures copied { (of : ℕ) → is_among of self.old.weak_receivers ≡ true
            → StepsTo self.old (Step.CloneWeakReceiver of new) result self.new }
        ensures downgraded { (of : ℕ) → is_among of self.old.receivers ≡ true
            → StepsTo self.old (Step.DowngradeReceiver of new) result self.new }
    {
        if self.weak_receivers.has(new) {
            return Reply::Refused(Refusal::Taken, None);
        }
        match self.weak_receivers.add(new) {
            Ok(()) => Reply::Done,
            Err(OutOfMemory) => Reply::Refused(Refusal::OutOfMemory, None),
        }
    }
}
