//! The ends of a waiting list, and how an entry comes and goes.
ghost use Rattle.std.specs.Prelude.{◌≡◌, ◌+◌, ◌^◌, ◌<◌, ◌≤◌, false, OnSome, IfNone};
ghost use Rattle.slab.specs.Slab.{slab_len, HasRoomFor};
ghost use Rattle.event_list.specs.Keys.{is_among};
ghost use Rattle.event_list.specs.Waiting.{Waiting, keys, joined, without};
ghost use Rattle.event_list.specs.Calls.{IsEntryAt};
ghost use Rattle.event_list.specs.Entries.{ends_with, ends_without};
ghost use Rattle.event_list.specs.Chain.{IsLinked};

use crate::entries::{Entries, Entry, EntryState};
use crate::list::steps::Lookups;
use std::sync::ledger::Ledger;

/// The keys of the first entry, of the last, and of the first untold one.
#[derive(Clone, Copy)]
pub struct Ends {
    /// The key of the entry that has waited longest.
    pub first: Option<usize>,
    /// The key of the entry that came last.
    pub last: Option<usize>,
    /// The key of the first entry that isn't told: all in front of it are, and none behind it is.
    pub cursor: Option<usize>,
}

impl Ends {
    /// The ends, once the entry of a key with these neighbours has left.
    fn without(self, key: usize, before: Option<usize>, behind: Option<usize>) -> Ends
        ensures { result ≡ ends_without self key before behind }
    {
        Ends {
            first: if before.is_some() { self.first } else { behind },
            last: if behind.is_some() { self.last } else { before },
            cursor: if self.cursor == Some(key) {
                behind
            } else {
                self.cursor
            },
        }
    }

    /// The ends, once a new untold entry has come last.
    fn with(self, key: usize) -> Ends
        ensures { result ≡ ends_with self key }
    {
        Ends {
            first: self.first.or(Some(key)),
            last: Some(key),
            cursor: self.cursor.or(Some(key)),
        }
    }

    /// Takes an entry out, and lets its neighbours name one another. The answer is whether it was
    /// told, or its payload, if it was there.
    #[inline(always)]
    pub fn take_out<W: Drop, L: Ledger>(
        &mut self,
        entries: &mut Entries<W>,
        key: usize,
        lookups: &mut Lookups<L>,
    ) -> Option<EntryState<W>>
        ensures leaves { (list : Waiting W) → IsLinked entries.old self.old list
            → IsLinked entries.new self.new (without list key) }
        ensures entry { (list : Waiting W) → IsLinked entries.old self.old list
            → IsEntryAt list key result }
        ensures absent { IfNone result (entries.new ≡ entries.old) }
        ensures held { OnSome result (slab_len entries.new + 1 ≡ slab_len entries.old) }
        ensures next { OnSome result (entries.new.vacant_key ≡ key) }
        ensures room { OnSome result (HasRoomFor entries.new 1) }
        ensures counted { (lookups.old < lookups.new) × (lookups.new ≤ lookups.old + 3) }
    {
        let entry = entries.remove(key, lookups)?;
        entries.set_behind(entry.before, entry.behind, lookups);
        entries.set_before(entry.behind, entry.before, lookups);
        *self = self.without(key, entry.before, entry.behind);
        Some(entry.notice)
    }

    /// Puts a new untold entry behind the last one. The answer is its key.
    #[inline(always)]
    pub fn put_last<W: Drop, L: Ledger>(
        &mut self,
        entries: &mut Entries<W>,
        payload: W,
        lookups: &mut Lookups<L>,
    ) -> usize
        requires { HasRoomFor entries.old 1 }
        ensures key { result ≡ entries.old.vacant_key }
        ensures fresh { (list : Waiting W) → IsLinked entries.old self.old list
            → is_among result (keys list) ≡ false }
        ensures joins { (list : Waiting W) → IsLinked entries.old self.old list
            → IsLinked entries.new self.new (joined list result payload) }
        ensures held { slab_len entries.new ≡ slab_len entries.old + 1 }
        ensures fits { slab_len entries.new < 2 ^ 64 }
        ensures counted { (lookups.old < lookups.new) × (lookups.new ≤ lookups.old + 2) }
    {
        let entry = Entry {
            before: self.last,
            behind: None,
            notice: EntryState::Untold(payload),
        };
        let key = entries.insert(entry, lookups);
        entries.set_behind(self.last, Some(key), lookups);
        *self = self.with(key);
        key
    }
}
