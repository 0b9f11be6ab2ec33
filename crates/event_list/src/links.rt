//! The entries of a waiting list with what is kept beside them, and all work on them.
//!
//! Entries stand in order of arrival, and those that were told are always the front of the list. So
//! three keys serve every call: the first entry's, the last one's, and the cursor, which is the key
//! of the first entry that isn't told.
//!
//! ```text
//! told  <->  told  <->  untold  <->  untold
//! first                 cursor           last
//! ```
//!
//! A new entry goes behind the last one, untold. To tell one is to tell the entry at the cursor and
//! to move the cursor to its neighbour behind. An entry leaves by letting its neighbours name one
//! another, and an end or the cursor that named it names its neighbour. Who waits again leaves and
//! comes last, under the same key, if it was told, and stays where it is otherwise. So no call
//! walks along the list.
//!
//! Each look-up is counted on the ledger that a call is handed. No other can be opened here, and no
//! entry is reached without one: see `steps`.
ghost use Rattle.std.specs.Prelude.{◌≡◌, ◌+◌, ◌<◌, ◌≤◌, ◌↔◌, length, take, IsTrue, slice_get};
ghost use Rattle.std.specs.Bool.{OnTrue};
ghost use Rattle.std.specs.Option.{option_copied};
ghost use Rattle.event_list.specs.Keys.{AreDifferent};
ghost use Rattle.event_list.specs.Waiting.{nobody, keys, told_count, payloads};
ghost use Rattle.event_list.specs.Calls.{IsEntryAt, Listens, Renews, Unregisters, TellsOne, TellsAll};

use crate::bell::Bell;
use crate::ends::Ends;
use crate::entries::{Entries, EntryState};
use crate::list::NoRoom;
use crate::list::steps::Lookups;
use crate::ticket::Ticket;
use std::alloc::Global;
use std::marker::Model;
use std::sync::ledger::Ledger;

/// How many entries there is room for in any case once nobody waits any more.
const KEPT_ENTRIES: usize = 64;

/// The entries in order of arrival, of which the first `told` are told.
#[derive(Drop)]
pub(crate) struct Links<W> {
    // Each with the keys of its neighbours.
    entries: Entries<W>,
    // The keys of the first one, of the last, and of the first untold one.
    ends: Ends,
    // How many entries there are.
    len: usize,
    // How many of them are told.
    told: usize,
}

impl<W> Model for Links<W> {
    ghost use Rattle.event_list.specs.Waiting.{Waiting};

    ghost Value = { Waiting W };

    ghost use Rattle.event_list.specs.Chain.{shown, KeepShown};

    ghost view = { λ list. shown list.entries list.ends list.len list.told };

    ghost invariant = { λ list. KeepShown list.entries list.ends list.len list.told };
}

impl<W: Drop> Links<W> {
    /// A list where nobody waits. It takes no memory.
    pub(crate) fn new(alloc: Global) -> Self
        ensures { result ≡ nobody }
    {
        Links {
            entries: Entries::new(alloc),
            ends: Ends {
                first: None,
                last: None,
                cursor: None,
            },
            len: 0,
            told: 0,
        }
    }

    /// A new entry goes last, untold, under a key that isn't in the list. At most 6 look-ups.
    pub(crate) fn listen<L: Ledger>(
        &mut self,
        payload: W,
        lookups: &mut Lookups<L>,
    ) -> Result<Ticket, NoRoom<W>>
        ensures does { Listens self.old payload result self.new }
        ensures counted { (lookups.old < lookups.new) × (lookups.new ≤ lookups.old + 6) }
    {
        if !self.entries.reserve(lookups) {
            return Err(NoRoom(payload));
        }
        let key = self.ends.put_last(&mut self.entries, payload, lookups);
        self.len += 1;
        Ok(Ticket { key })
    }

    /// The entry waits again with this payload, and gives the one that it had. At most 6 look-ups.
    pub(crate) fn renew<L: Ledger>(
        &mut self,
        ticket: &Ticket,
        payload: W,
        lookups: &mut Lookups<L>,
    ) -> Result<Option<W>, W>
        ensures does { Renews self.old ticket.now payload result self.new }
        ensures counted { (lookups.old < lookups.new) × (lookups.new ≤ lookups.old + 6) }
    {
        let Some(notice) = self.entries.notice(ticket.key, lookups) else {
            return Err(payload);
        };
        if !notice.is_told() {
            return Ok(self.entries.set_payload(ticket.key, payload, lookups));
        }
        self.ends.take_out(&mut self.entries, ticket.key, lookups);
        self.ends.put_last(&mut self.entries, payload, lookups);
        self.told -= 1;
        Ok(None)
    }

    /// Tells the longest waiting untold entry. At most one look-up.
    pub(crate) fn tell_one<B: Bell<W>, L: Ledger>(
        &mut self,
        bell: &mut B,
        lookups: &mut Lookups<L>,
    ) -> bool
        ensures does { TellsOne B.rings self.old bell.old result self.new bell.new }
        ensures counted { lookups.new ≡ lookups.old + length (take 1 (payloads self.old)) }
    {
        let Some(key) = self.ends.cursor else {
            return false;
        };
        let Some((payload, behind)) = self.entries.tell(key, lookups) else {
            unreachable!()
        };
        self.ends.cursor = behind;
        self.told += 1;
        bell.ring(payload);
        true
    }

    /// Tells every untold entry. At most one look-up for each.
    pub(crate) fn tell_all<B: Bell<W>, L: Ledger>(
        &mut self,
        bell: &mut B,
        lookups: &mut Lookups<L>,
    ) -> usize
        ensures does { TellsAll B.rings self.old bell.old result self.new bell.new }
        ensures counted { lookups.new ≡ lookups.old + length (payloads self.old) }
    {
        let untold = self.len() - self.told();
        for _turn in 0..untold {
            self.tell_one(bell, lookups);
        }
        untold
    }

    /// The entry leaves, and is the answer. At most 6 look-ups.
    pub(crate) fn unregister<L: Ledger>(
        &mut self,
        key: usize,
        lookups: &mut Lookups<L>,
    ) -> Option<EntryState<W>>
        ensures does { Unregisters self.old key result self.new }
        ensures counted { (lookups.old < lookups.new) × (lookups.new ≤ lookups.old + 6) }
    {
        let entry = self.ends.take_out(&mut self.entries, key, lookups)?;
        self.len -= 1;
        if entry.is_told() {
            self.told -= 1;
        }
        Some(entry)
    }

    /// The ticket's entry, or nothing if it isn't in the list. One look-up.
    pub(crate) fn entry<L: Ledger>(
        &self,
        ticket: &Ticket,
        lookups: &mut Lookups<L>,
    ) -> Option<&EntryState<W>>
        ensures entry { IsEntryAt self.now ticket.now (option_copied result) }
        ensures counted { lookups.new ≡ lookups.old + 1 }
    {
        self.entries.notice(ticket.key, lookups)
    }

    /// Whether somebody is untold.
    #[inline(always)]
    pub(crate) fn has_untold(&self) -> bool
        ensures answer { IsTrue result ↔ (0 < length (payloads self.now)) }
    {
        self.ends.cursor.is_some()
    }

    /// How many wait.
    pub(crate) fn len(&self) -> usize
        ensures count { result ≡ length (keys self.now) }
        ensures different { AreDifferent (keys self.now) }
    {
        self.len
    }

    /// Whether nobody waits, and there is more room than is kept.
    pub(crate) fn is_left(&self) -> bool
        ensures { OnTrue result (self.now ≡ nobody) }
    {
        self.len == 0 && self.entries.capacity() > KEPT_ENTRIES
    }

    /// How many are told.
    pub(crate) fn told(&self) -> usize
        ensures { result ≡ told_count self.now }
    {
        self.told
    }

    /// The key of the first entry, if somebody is told.
    pub(crate) fn first_told(&self) -> Option<usize>
        ensures { result ≡ slice_get self.now.told 0 }
    {
        if self.told == 0 {
            return None;
        }
        self.ends.first
    }
}
