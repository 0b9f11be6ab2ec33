//! The waiting lists of a channel, and what a ticket that may be there does to one.
ghost use Rattle.std.specs.Prelude.{◌≡◌, ◌++◌, None, IfOk, IfErr, OnErr, OnOk, false, take};
ghost use Rattle.event_list.specs.Waiting.{RingsEach, nobody, payloads, told_one, told_all};
ghost use Rattle.channel_core.specs.Tickets.{Waits, waits, payload_held, left, handed_on, rung_by_handing_on, LosesAtMostOne};

use crate::errors::OutOfMemory;
use crate::state::Group;
use event_list::{Bell, NoRoom, Ticket, WaitList};
use std::alloc::Global;

/// Who waits for a channel, by what they wait for.
#[derive(Drop)]
pub(crate) struct WaitLists<W> {
    // Sends, for a place or the close.
    pub(crate) sends: WaitList<W>,
    // Receives, for a message or the close.
    pub(crate) receives: WaitList<W>,
    // Streams, for a message or the close.
    pub(crate) streams: WaitList<W>,
    // Closed operations, for the end of the last receiver.
    pub(crate) closeds: WaitList<W>,
}

impl<W: Drop> WaitLists<W> {
    /// Nobody waits.
    pub(crate) fn new(alloc: Global) -> Self
        ensures { result ≡ record {
          sends = nobody;
          receives = nobody;
          streams = nobody;
          closeds = nobody;
        } }
    {
        WaitLists {
            sends: WaitList::new(alloc),
            receives: WaitList::new(alloc),
            streams: WaitList::new(alloc),
            closeds: WaitList::new(alloc),
        }
    }

    /// The list of a group.
    pub(crate) fn of(&self, g: Group) -> &WaitList<W>
        ensures sends { g ≡ Group.Sends → result.now ≡ self.now.sends }
        ensures receives { g ≡ Group.Receives → result.now ≡ self.now.receives }
        ensures streams { g ≡ Group.Streams → result.now ≡ self.now.streams }
        ensures closeds { g ≡ Group.Closeds → result.now ≡ self.now.closeds }
    {
        match g {
            Group::Sends => &self.sends,
            Group::Receives => &self.receives,
            Group::Streams => &self.streams,
            Group::Closeds => &self.closeds,
        }
    }

    /// A message was accepted.
    #[inline(always)]
    pub(crate) fn tell_accepted<B: Bell<W>>(&mut self, bell: &mut B)
        ensures after { self.new ≡ record self.old {
          receives = told_one self.old.receives;
          streams = told_all self.old.streams;
        } }
        ensures rung { RingsEach B.rings bell.old
            (take 1 (payloads self.old.receives) ++ payloads self.old.streams) bell.new }
    {
        self.receives.tell_one(bell);
        self.streams.tell_all(bell);
    }

    /// The channel was closed.
    #[tactic(auto, using(crate::proofs::Rings::rings_in_turn))]
    pub(crate) fn tell_closed<B: Bell<W>>(&mut self, bell: &mut B)
        ensures after { self.new ≡ record self.old {
          sends = told_all self.old.sends;
          receives = told_all self.old.receives;
          streams = told_all self.old.streams;
        } }
        ensures rung { RingsEach B.rings bell.old
            (payloads self.old.sends ++ payloads self.old.receives ++ payloads self.old.streams)
            bell.new }
    {
        self.sends.tell_all(bell);
        self.receives.tell_all(bell);
        self.streams.tell_all(bell);
    }
}

/// The ticket's entry leaves the list, with its notice. The answer is the payload that it held.
pub(crate) fn leave<W: Drop>(list: &mut WaitList<W>, ticket: &mut Option<Ticket>) -> Option<W>
    ensures payload { result ≡ payload_held ticket.old list.old }
    ensures after { list.new ≡ left ticket.old list.old }
    ensures sizes { LosesAtMostOne ticket.old list.old }
    ensures ticket { ticket.new ≡ None }
{
    list.unregister(ticket.take()?)?.into_payload()
}

/// The ticket's entry leaves the list, and a notice that it had is handed on. The answer is the
/// payload that it held.
pub(crate) fn hand_on<W: Drop, B: Bell<W>>(
    list: &mut WaitList<W>,
    ticket: &mut Option<Ticket>,
    bell: &mut B,
) -> Option<W>
    ensures payload { result ≡ payload_held ticket.old list.old }
    ensures after { list.new ≡ handed_on ticket.old list.old }
    ensures rung { RingsEach B.rings bell.old (rung_by_handing_on ticket.old list.old) bell.new }
    ensures sizes { LosesAtMostOne ticket.old list.old }
    ensures ticket { ticket.new ≡ None }
{
    list.withdraw(ticket.take()?, bell)
}

/// Who can't go on waits with the payload: its entry waits again, or it begins to wait. The answer
/// is the payload that its entry held. If memory was refused, `w` comes back.
#[inline(always)]
pub(crate) fn wait<W: Drop>(
    list: &mut WaitList<W>,
    ticket: &mut Option<Ticket>,
    w: W,
) -> Result<Option<W>, NoRoom<W>>
    ensures waits { OnOk result (Waits ticket.old list.old w ticket.new list.new) }
    ensures replaced { IfOk result (λ had. had ≡ payload_held ticket.old list.old) }
    ensures handed_back { IfErr result (λ error. error.0 ≡ w) }
    ensures unchanged { OnErr result ((list.new ≡ list.old) × (ticket.new ≡ ticket.old)) }
    ensures wanted { OnErr result (waits ticket.old list.old ≡ false) }
{
    let mut payload = w;
    if let Some(ticket) = ticket {
        match list.renew(ticket, payload) {
            Ok(had) => return Ok(had),
            Err(back) => payload = back,
        }
    }
    list.listen_anew(ticket, payload)?;
    Ok(None)
}
