//! The count under the mutex is the sum of what its passes have added, up to a limit.
ghost use Rattle.std.specs.Prelude.{◌≡◌, ◌+◌, ◌-◌, ◌*◌, ◌/◌, ◌≤◌, ◌<◌, ◌^◌};
ghost use Rattle.ruled_mutex.specs.Passes.{IsPassOf, IsSamePass, view};
ghost use Rattle.example_tally.specs.Sum.{IsSum, added};

use ruled_mutex::{Join, Lesson, Outcome, Pass, Protocol, RuledMutex, Split};
use std::sync::Wait;
use std::thread::{Threads, join};

/// What a pass has added, and how much it may add still. No value of it is made.
pub struct Added {
    pub count: u64,
    pub left: u64,
}

pub struct Tally;

/// The key is the limit.
impl Protocol<u64, Added> for Tally {
    type Key = u64;

    ghost holds = { IsSum };

    ghost first = { λ most. added 0 most };
}

/// One was added.
impl Outcome<u64, Added> for Tally {
    ghost then = { λ v before after w. (after ≡ before + 1)
        × (w ≡ added (v.count + 1) (v.left - 1)) };
}

/// Nothing was added.
pub struct Keeps;

impl Outcome<u64, Added> for Keeps {
    ghost then = { λ v before after w. (after ≡ before) × (w ≡ v) };
}

/// The count is no less than what a pass has added, and what it may add fits.
impl Lesson<u64, Added> for Tally {
    ghost fact = { λ v value. (v.count ≤ value) × (value + v.left < 2 ^ 64) };
}

/// The new pass has added nothing, and may add half of what is left.
impl Split<Added> for Tally {
    ghost left = { λ v. added v.count (v.left - v.left / 2) };

    ghost right = { λ v. added 0 (v.left / 2) };
}

impl Join<Added> for Tally {
    ghost both = { λ v w. added (v.count + w.count) (v.left + w.left) };

    ghost spent = { added 0 0 };
}

pub type Counter = RuledMutex<u64, Added, Tally>;

/// Adds one, and answers the count.
pub fn add_one<R: Wait>(rt: &R, counter: &Counter, pass: &mut Pass<u64, Added>) -> u64
    requires own { IsPassOf counter.now pass.old }
    requires left { 1 ≤ (view pass.old).left }
    ensures own { IsPassOf counter.now pass.new × IsSamePass pass.old pass.new }
    ensures added { view pass.new
        ≡ added ((view pass.old).count + 1) ((view pass.old).left - 1) }
    ensures least { (view pass.new).count ≤ result }
{
    let held = counter.lock(rt, pass);
    counter.learn_as::<Tally>(pass, &held);
    let value = pass.value_mut(counter, &held);
    *value += 1;
    let count = *value;
    counter.unlock_as::<Tally>(pass, held);
    count
}

/// Adds one so many times.
pub fn add_many<R: Wait>(
    rt: &R,
    counter: &Counter,
    mut pass: Pass<u64, Added>,
    times: u64,
) -> Pass<u64, Added>
    requires own { IsPassOf counter.now pass }
    requires left { times ≤ (view pass).left }
    ensures own { IsPassOf counter.now result }
    ensures added { view result ≡ added ((view pass).count + times) ((view pass).left - times) }
{
    for _done in 0..times {
        add_one(rt, counter, &mut pass);
    }
    pass
}

/// Two threads add so many times each, and the pass that comes back has added what both have.
pub fn add_in_pair<R: Threads + Wait + Sync>(
    rt: &R,
    counter: &Counter,
    mut pass: Pass<u64, Added>,
    each: u64,
) -> Pass<u64, Added>
    requires own { IsPassOf counter.now pass }
    requires left { (view pass).left ≡ 2 * each }
    ensures own { IsPassOf counter.now result }
    ensures added { view result ≡ added ((view pass).count + 2 * each) 0 }
{
    let other = counter.another::<Tally>(&mut pass);
    let (mut mine, theirs) = join(
        rt,
        move || -> Pass<u64, Added>
            requires own { IsPassOf counter.now pass }
            requires left { each ≤ (view pass).left }
            ensures own { IsPassOf counter.entry.now result }
            ensures added { view result
                ≡ added ((view pass).count + each) ((view pass).left - each) }
        { add_many(rt, counter, pass, each) },
        move || -> Pass<u64, Added>
            requires own { IsPassOf counter.now other }
            requires left { each ≤ (view other).left }
            ensures own { IsPassOf counter.entry.now result }
            ensures added { view result
                ≡ added ((view other).count + each) ((view other).left - each) }
        { add_many(rt, counter, other, each) },
    );
    counter.absorb::<Tally>(&mut mine, theirs);
    mine
}

/// The count.
pub fn count<R: Wait>(rt: &R, counter: &Counter, pass: &mut Pass<u64, Added>) -> u64
    requires { IsPassOf counter.now pass.old }
    ensures own { IsPassOf counter.now pass.new × (view pass.new ≡ view pass.old) }
    ensures least { (view pass.old).count ≤ result }
{
    let held = counter.lock(rt, pass);
    counter.learn_as::<Tally>(pass, &held);
    let value = *pass.value_mut(counter, &held);
    counter.unlock_as::<Keeps>(pass, held);
    value
}
