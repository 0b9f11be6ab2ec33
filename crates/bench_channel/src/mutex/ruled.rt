//! The ruled mutex, under no rule.
ghost use Rattle.ruled_mutex.specs.Passes.{IsPassOf};

use super::Counter;
use anyhow::Result;
use ruled_mutex::{Pass, RuledMutex, Unruled};
use std::alloc::Global;
use std::sync::Wait;

pub type Counting = RuledMutex<u64, (), Unruled>;

fn add<R: Wait>(rt: &R, mutex: &Counting, pass: &mut Pass<u64, ()>)
    requires { IsPassOf mutex.now pass.old }
    ensures { IsPassOf mutex.now pass.new }
{
    let held = mutex.lock(rt, pass);
    let value = pass.value_mut(mutex, &held);
    *value = value.wrapping_add(1);
    mutex.unlock_as::<Unruled>(pass, held);
}

#[inline(never)]
fn add_many<R: Wait>(rt: &R, mutex: &Counting, count: u64) {
    let mut pass = mutex.pass();
    for _ in 0..count {
        add(rt, mutex, &mut pass);
    }
}

impl Counter for Counting {
    fn add_many<R: Wait>(&self, rt: &R, count: u64) {
        add_many(rt, self, count);
    }

    fn sum<R: Wait>(&self, rt: &R) -> u64 {
        let mut pass = self.pass();
        let held = self.lock(rt, &mut pass);
        let value = *pass.value_mut(self, &held);
        self.unlock_as::<Unruled>(&mut pass, held);
        value
    }
}

/// A counter at 0.
pub fn counter(alloc: Global) -> Result<Counting> {
    let Ok((mutex, _)) = Counting::new(alloc, 0) else {
        anyhow::bail!("out of memory");
    };
    Ok(mutex)
}
