//! Names of one space that are live, and what stands under them.
ghost use Rattle.std.specs.Prelude.{◌≡◌, ◌∷◌, [], length, false, true, suc, None, Some, is_some, ◌+◌, OnOk, OnErr, IfErr, IfNone};
ghost use Rattle.std.specs.Map.{keys_of};
ghost use Rattle.event_list.specs.Keys.{AreDifferent, is_among};
ghost use Rattle.channel_model.specs.Handles.{without};
ghost use Rattle.channel_model.specs.View.{AreSameNames};
ghost use Rattle.channel_run.specs.RunShown.{entry_at, Changed};

use channel_model::OutOfMemory;
use std::alloc::Global;
use std::collections::BTreeMap;
use std::marker::Model;

/// Live names, each once, in ascending order. Each is found in the time of a map's look-up.
#[derive(Drop)]
pub(crate) struct Names {
    // a name is a key, with nothing under it
    names: BTreeMap<u64, ()>,
}

impl Model for Names {
    ghost use Rattle.std.specs.Prelude.{ℕ, List};
    ghost use Rattle.std.specs.Map.{keys_of};
    ghost use Rattle.event_list.specs.Keys.{AreDifferent};

    ghost Value = { List ℕ };

    ghost view = { λ all. keys_of all.names.entries };

    ghost invariant = { λ all. AreDifferent (keys_of all.names.entries) };
}

impl Names {
    /// No name.
    pub(crate) fn new(alloc: Global) -> Names
        ensures { result ≡ [] }
    {
        Names {
            names: BTreeMap::new(alloc),
        }
    }

    /// How many names are live.
    pub(crate) fn len(&self) -> usize
        ensures count { result ≡ length self.now }
        ensures different { AreDifferent self.now }
    {
        self.names.len()
    }

    /// Whether a name is live.
    pub(crate) fn has(&self, name: u64) -> bool
        ensures { result ≡ is_among name self.now }
    {
        self.names.contains_key(&name)
    }

    /// Makes a name that isn't live.
    pub(crate) fn add(&mut self, name: u64) -> Result<(), OutOfMemory>
        requires { is_among name self.old ≡ false }
        ensures added { OnOk result (AreSameNames self.new (name ∷ self.old)) }
        ensures unchanged { OnErr result (self.new ≡ self.old) }
    {
        match put(&mut self.names, name, ()) {
            Ok(()) => Ok(()),
            Err(()) => Err(OutOfMemory),
        }
    }

    /// Gives a name up.
    pub(crate) fn remove(&mut self, name: u64)
        ensures left { self.new ≡ without name self.old }
        ensures fewer { is_among name self.old ≡ true → length self.old ≡ suc (length self.new) }
    {
        self.names.remove(&name);
    }
}

/// Puts a value under a name that isn't live, or hands it back.
pub(crate) fn put<V>(entries: &mut BTreeMap<u64, V>, name: u64, value: V) -> Result<(), V>
    requires { entry_at entries.old.entries name ≡ None }
    ensures added { OnOk result
        (Changed name entries.old.entries entries.new.entries (Some value)) }
    ensures more { OnOk result (length entries.new.entries ≡ length entries.old.entries + 1) }
    ensures handed_back { IfErr result (λ back. back ≡ value) }
    ensures unchanged { OnErr result (entries.new.entries ≡ entries.old.entries) }
    ensures different { AreDifferent (keys_of entries.new.entries) }
{
    match entries.insert(name, value) {
        Ok(earlier) => match earlier {
            None => Ok(()),
            Some(_) => unreachable!(),
        },
        Err(refused) => Err(refused.value.1),
    }
}

/// Takes out what stands under a name.
pub(crate) fn take<V>(entries: &mut BTreeMap<u64, V>, name: u64) -> Option<V>
    ensures value { result ≡ entry_at entries.old.entries name }
    ensures left { Changed name entries.old.entries entries.new.entries None }
    ensures fewer { is_some result ≡ true
        → length entries.old.entries ≡ suc (length entries.new.entries) }
    ensures unchanged { IfNone result (entries.new.entries ≡ entries.old.entries) }
    ensures different { AreDifferent (keys_of entries.old.entries) }
{
    // proof: the call promises that the names are different
    let _count = entries.len();
    entries.remove(&name)
}
