//! The entries of a waiting list. A call reaches at most one of them.
ghost use Rattle.std.specs.Prelude.{◌≡◌, ◌+◌, ◌^◌, ◌<◌, [], Some, None, OnSome, IfNone};
ghost use Rattle.std.specs.Bool.{OnTrue};
ghost use Rattle.std.specs.Option.{option_map, option_and_then, option_copied};
ghost use Rattle.slab.specs.Slab.{get, slab_len, HasRoomFor, Updates};
ghost use Rattle.event_list.specs.Waiting.{is_told, payload_of};
ghost use Rattle.event_list.specs.Entries.{notice_at, with_behind, with_before, with_notice, payload_at, Rewrites, MayRewrite};

use crate::list::steps::Lookups;
use slab::Slab;
use std::alloc::Global;
use std::marker::Model;
use std::sync::ledger::Ledger;

/// Whether an entry is told, and its payload if it isn't.
///
/// # Examples
///
/// ```
/// let mut list = WaitList::new(rt.alloc());
/// let first = list.listen(10).ok().expect(&rt, "memory");
/// let second = list.listen(11).ok().expect(&rt, "memory");
/// list.tell_one(&mut Quiet);
///
/// let told = list.unregister(first).expect(&rt, "an entry");
/// assert!(rt; told.is_told());
/// let untold = list.unregister(second).expect(&rt, "an entry");
/// assert!(rt; !untold.is_told());
/// assert_eq!(rt; untold.into_payload(), Some(11));
/// ```
#[derive(Drop)]
pub enum EntryState<W> {
    /// The bell was rung with the payload.
    Told,
    /// The payload is there still.
    Untold(W),
}

impl<W> EntryState<W> {
    /// Whether the entry is told.
    pub fn is_told(&self) -> bool
        ensures { result ≡ is_told self.now }
    {
        match self {
            EntryState::Told => true,
            EntryState::Untold(_) => false,
        }
    }

    /// The payload of an untold entry, which stays.
    pub(crate) fn payload(&self) -> Option<&W>
        ensures { option_copied result ≡ payload_of self.now }
    {
        match self {
            EntryState::Told => None,
            EntryState::Untold(payload) => Some(payload),
        }
    }

    /// The payload of an untold entry.
    pub fn into_payload(self) -> Option<W>
        ensures { result ≡ payload_of self }
    {
        match self {
            EntryState::Told => None,
            EntryState::Untold(payload) => Some(payload),
        }
    }
}

/// An entry, with the keys of its neighbours.
#[derive(Drop)]
pub struct Entry<W> {
    pub before: Option<usize>,
    pub behind: Option<usize>,
    pub notice: EntryState<W>,
}

/// The entries, each under its key: the one way to the slab.
///
/// Each call is one look-up, and raises `lookups` by one; none reaches an entry without it.
#[derive(Drop)]
pub struct Entries<W> {
    slab: Slab<Entry<W>>,
}

impl<W> Model for Entries<W> {
    ghost use Rattle.slab.specs.Slab.{Slab};
    ghost use Rattle.event_list.specs.declared.entries.Entry.{Entry};

    ghost Value = { Slab (Entry W) };

    ghost view = { λ entries. entries.slab };
}

impl<W: Drop> Entries<W> {
    /// No entries.
    pub fn new(alloc: Global) -> Self
        ensures empty { result.slots ≡ [] }
        ensures takes_no_memory { result.capacity ≡ 0 }
    {
        Entries {
            slab: Slab::new(alloc),
        }
    }

    /// How many entries there is room for.
    pub fn capacity(&self) -> usize
        ensures { result ≡ self.now.capacity }
    {
        self.slab.capacity()
    }

    /// Makes room for one more entry. The answer is whether there is room.
    pub fn reserve<L: Ledger>(&mut self, lookups: &mut Lookups<L>) -> bool
        ensures room { OnTrue result (HasRoomFor self.new 1) }
        ensures same { self.new ≡ record self.old { capacity = self.new.capacity } }
        ensures counted { lookups.new ≡ lookups.old + 1 }
    {
        lookups.raise();
        self.slab.reserve(1).is_ok()
    }

    /// Makes an entry, under the key that the slab picks.
    pub fn insert<L: Ledger>(&mut self, entry: Entry<W>, lookups: &mut Lookups<L>) -> usize
        requires { HasRoomFor self.old 1 }
        ensures key { result ≡ self.old.vacant_key }
        ensures fresh { get self.old result ≡ None }
        ensures updates { Updates self.old self.new result (Some entry) }
        ensures held { slab_len self.new ≡ slab_len self.old + 1 }
        ensures fits { slab_len self.new < 2 ^ 64 }
        ensures counted { lookups.new ≡ lookups.old + 1 }
    {
        lookups.raise();
        let key = self.slab.insert_reserved(entry);
        // proof: the slab's number of entries is a `usize`, which the clause `fits` hands on
        let _len = self.slab.len();
        key
    }

    /// Takes an entry out, if it is there.
    pub fn remove<L: Ledger>(&mut self, key: usize, lookups: &mut Lookups<L>) -> Option<Entry<W>>
        ensures value { result ≡ get self.old key }
        ensures updates { Updates self.old self.new key None }
        ensures held { OnSome result (slab_len self.new + 1 ≡ slab_len self.old) }
        ensures next { OnSome result (self.new.vacant_key ≡ key) }
        ensures room { OnSome result (HasRoomFor self.new 1) }
        ensures absent { IfNone result (self.new ≡ self.old) }
        ensures counted { lookups.new ≡ lookups.old + 1 }
    {
        lookups.raise();
        self.slab.try_remove(key)
    }

    /// Gives an entry another neighbour behind, if there is an entry.
    pub fn set_behind<L: Ledger>(
        &mut self,
        at: Option<usize>,
        behind: Option<usize>,
        lookups: &mut Lookups<L>,
    )
        ensures rewrites { MayRewrite (with_behind behind) self.old self.new at }
        ensures counted { lookups.new ≡ lookups.old + 1 }
    {
        lookups.raise();
        let Some(key) = at else {
            return;
        };
        if let Some(entry) = self.slab.get_mut(key) {
            entry.behind = behind;
        }
    }

    /// Gives an entry another neighbour before, if there is an entry.
    pub fn set_before<L: Ledger>(
        &mut self,
        at: Option<usize>,
        before: Option<usize>,
        lookups: &mut Lookups<L>,
    )
        ensures rewrites { MayRewrite (with_before before) self.old self.new at }
        ensures counted { lookups.new ≡ lookups.old + 1 }
    {
        lookups.raise();
        let Some(key) = at else {
            return;
        };
        if let Some(entry) = self.slab.get_mut(key) {
            entry.before = before;
        }
    }

    /// Makes an entry an untold one with this payload. The answer is the payload that it had.
    pub fn set_payload<L: Ledger>(
        &mut self,
        key: usize,
        payload: W,
        lookups: &mut Lookups<L>,
    ) -> Option<W>
        ensures replaced { result ≡ option_and_then payload_of (notice_at self.old key) }
        ensures rewrites { Rewrites self.old self.new key
            (option_map (with_notice (EntryState.Untold payload)) (get self.old key)) }
        ensures counted { lookups.new ≡ lookups.old + 1 }
    {
        lookups.raise();
        let entry = self.slab.get_mut(key)?;
        std::mem::replace(&mut entry.notice, EntryState::Untold(payload)).into_payload()
    }

    /// Tells an entry. The answer is its payload, if it was untold, and its neighbour
    /// behind.
    pub fn tell<L: Ledger>(
        &mut self,
        key: usize,
        lookups: &mut Lookups<L>,
    ) -> Option<(W, Option<usize>)>
        ensures answer { result ≡ option_and_then payload_at (get self.old key) }
        ensures rewrites { Rewrites self.old self.new key
            (option_map (with_notice EntryState.Told) (get self.old key)) }
        ensures counted { lookups.new ≡ lookups.old + 1 }
    {
        lookups.raise();
        let entry = self.slab.get_mut(key)?;
        match std::mem::replace(&mut entry.notice, EntryState::Told) {
            EntryState::Untold(payload) => Some((payload, entry.behind)),
            EntryState::Told => None,
        }
    }

    /// Whether an entry is told, and its payload if it isn't, if there is an entry.
    pub fn notice<L: Ledger>(&self, key: usize, lookups: &mut Lookups<L>) -> Option<&EntryState<W>>
        ensures value { option_copied result ≡ notice_at self.now key }
        ensures counted { lookups.new ≡ lookups.old + 1 }
    {
        lookups.raise();
        Some(&self.slab.get(key)?.notice)
    }
}
