//! Who holds a ticket, by its key.
ghost use Rattle.std.specs.Prelude.{◌≡◌, ◌+◌, length, None, Some, OnErr, OnOk};
ghost use Rattle.std.specs.Map.{keys_of};
ghost use Rattle.event_list.specs.Keys.{AreDifferent};
ghost use Rattle.channel_run.specs.RunShown.{entry_at, Changed, has_key, IsHolder, stream_ticket, ticket_at, ticket_in};

use crate::names::put;
use crate::operations::Operation;
use channel_core::Group;
use channel_model::OutOfMemory;
use event_list::Ticket;
use std::collections::BTreeMap;

/// Whether there is a ticket, and it has the key.
pub(crate) fn has_key(ticket: &Option<Ticket>, key: usize) -> bool
    ensures { result ≡ has_key key ticket.now }
{
    match ticket {
        Some(ticket) => ticket.key() == key,
        None => false,
    }
}

/// The name of the operation that waits in the group by a ticket of this key. It is looked up if
/// the guess is right, and else walked for.
pub(crate) fn operation_with<T>(
    operations: &BTreeMap<u64, Operation<T>>,
    group: Group,
    key: usize,
    guess: Option<u64>,
) -> Option<u64>
    ensures { IsHolder (ticket_at (ticket_in group) operations.now.entries) key result }
{
    if let Some(name) = guess {
        if waits_with(operations, name, group, key) {
            return Some(name);
        }
    }
    let (name, _operation) = operations
        .iter()
        .find(|(_, operation)| operation.waits_with(group, key))?;
    Some(*name)
}

// Whether the operation of this name waits in the group by a ticket of this key.
fn waits_with<T>(
    operations: &BTreeMap<u64, Operation<T>>,
    name: u64,
    group: Group,
    key: usize,
) -> bool
    ensures { result ≡ has_key key (ticket_at (ticket_in group) operations.now.entries name) }
{
    match operations.get(&name) {
        Some(operation) => operation.waits_with(group, key),
        None => false,
    }
}

/// The name of the receiver whose stream waits by a ticket of this key. It is looked up if the
/// guess is right, and else walked for.
pub(crate) fn receiver_with(
    receivers: &BTreeMap<u64, Option<Ticket>>,
    key: usize,
    guess: Option<u64>,
) -> Option<u64>
    ensures { IsHolder (ticket_at stream_ticket receivers.now.entries) key result }
{
    if let Some(name) = guess {
        if streams_with(receivers, name, key) {
            return Some(name);
        }
    }
    let (name, _ticket) = receivers.iter().find(|(_, ticket)| has_key(ticket, key))?;
    Some(*name)
}

/// Makes the name of a receiver whose stream doesn't wait.
pub(crate) fn put_receiver(
    receivers: &mut BTreeMap<u64, Option<Ticket>>,
    name: u64,
) -> Result<(), OutOfMemory>
    requires { entry_at receivers.old.entries name ≡ None }
    ensures added { OnOk result
        (Changed name receivers.old.entries receivers.new.entries (Some None)) }
    ensures more { OnOk result (length receivers.new.entries ≡ length receivers.old.entries + 1) }
    ensures unchanged { OnErr result (receivers.new.entries ≡ receivers.old.entries) }
    ensures different { AreDifferent (keys_of receivers.new.entries) }
{
    match put(receivers, name, None) {
        Ok(()) => Ok(()),
        Err(back) => {
            Ticket::destroy_none(back);
            Err(OutOfMemory)
        }
    }
}

// Whether the stream of the receiver of this name waits by a ticket of this key.
fn streams_with(receivers: &BTreeMap<u64, Option<Ticket>>, name: u64, key: usize) -> bool
    ensures { result ≡ has_key key (ticket_at stream_ticket receivers.now.entries name) }
{
    match receivers.get(&name) {
        Some(ticket) => has_key(ticket, key),
        None => false,
    }
}
