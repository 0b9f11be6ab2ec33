//! How many operations borrow each handle.
ghost use Rattle.std.specs.Prelude.{◌≡◌, ◌≤◌, ◌+◌, ◌-◌, ◌<◌, ◌^◌, [], None, OnOk, OnErr};
ghost use Rattle.channel_run.specs.RunShown.{entry_at, number_at, IsSetAt};

use channel_model::OutOfMemory;
use std::alloc::Global;
use std::collections::BTreeMap;
use std::marker::Model;

/// Numbers by name. A name under which none stands has 0.
#[derive(Drop)]
pub(crate) struct Tally {
    numbers: BTreeMap<u64, u64>,
}

impl Model for Tally {
    ghost use Rattle.std.specs.Prelude.{ℕ, List};

    ghost Value = { List (ℕ × ℕ) };

    ghost view = { λ tally. tally.numbers.entries };
}

impl Tally {
    /// Every name has 0.
    pub(crate) fn new(alloc: Global) -> Tally
        ensures { result ≡ [] }
    {
        Tally {
            numbers: BTreeMap::new(alloc),
        }
    }

    /// The number of a name.
    pub(crate) fn get(&self, name: u64) -> u64
        ensures { result ≡ number_at self.now name }
    {
        match self.numbers.get(&name) {
            Some(number) => *number,
            None => 0,
        }
    }

    /// Raises the number of a name by 1.
    pub(crate) fn raise(&mut self, name: u64) -> Result<(), OutOfMemory>
        requires { number_at self.old name + 1 < 2 ^ 64 }
        ensures raised { OnOk result
            (IsSetAt name (number_at self.old name + 1) self.old self.new) }
        ensures unchanged { OnErr result (self.new ≡ self.old) }
    {
        let number = self.get(name);
        match self.numbers.insert(name, number + 1) {
            Ok(_) => Ok(()),
            Err(_) => Err(OutOfMemory),
        }
    }

    /// Lowers the number of a name by 1, if it isn't 0. It takes no memory, and keeps none for a 0.
    pub(crate) fn lower(&mut self, name: u64)
        ensures lowered { IsSetAt name (number_at self.old name - 1) self.old self.new }
        ensures forgotten { number_at self.old name ≤ 1 → entry_at self.new name ≡ None }
    {
        let number = self.get(name);
        if number < 2 {
            self.numbers.remove(&name);
            return;
        }
        // the name has a place already, so none is wanted
        match self.numbers.insert(name, number - 1) {
            Ok(_) => {}
            Err(_) => unreachable!(),
        }
    }
}
