//! What a thread has of a channel, and how it gives the lock back.
ghost use Rattle.std.specs.Prelude.{◌≡◌, Some};
ghost use Rattle.crossbeam_utils.specs.Register.{TurnsAt};
ghost use Rattle.ruled_mutex.specs.Passes.{IsPassOf as IsMutexPass, found as found_by, made as made_of, view as view_in_mutex};
ghost use Rattle.ruled_channel.specs.Guarded.{within};
ghost use Rattle.ruled_channel.specs.Passes.{Holds, IsPassOf, IsSamePass, key_of, number, view};
ghost use Rattle.ruled_channel.specs.Steps.{found, made, woken};
ghost use Rattle.ruled_channel.specs.Rung.{in_turn_of_waking};

use crate::channel::RuledChannel;
use crate::mark::{Mark, Woken};
use crate::outcomes::AtCapacity;
use crate::protocol::{Known, Protocol};
use crate::ringer::Ringer;
use channel_core::Core;
use ruled_mutex::{Held, Outcome};
use std::snapshot::Snapshot;
use std::sync::Wait;

/// What one thread knows of a channel: its view, and the last step that it made there. It has no
/// bytes.
///
/// ```
/// let (channel, first): (_, Pass<u64, ()>) = bounded_with::<_, _, Unruled>(rt.alloc(), 1)?;
/// drop(first);
/// drop(channel);
/// ```
pub struct Pass<T, V> {
    pub(crate) lock: ruled_mutex::Pass<Core<T, Mark>, Known<V>>,
    // Only `give_back` writes it.
    last: Snapshot<Option<Step<T>>>,
}

/// One step under the lock. It is for contracts alone, and has no bytes.
#[derive(Drop)]
pub struct Step<T> {
    // How the lock was held, and so what it found.
    held: Snapshot<Held<Core<T, Mark>>>,
    made: Snapshot<Core<T, Mark>>,
    woken: Snapshot<Woken>,
}

impl<T, V> Pass<T, V> {
    #[inline(always)]
    pub(crate) fn into_lock(self) -> ruled_mutex::Pass<Core<T, Mark>, Known<V>>
        ensures { result ≡ self.lock }
    {
        let Pass { lock, last } = self;
        drop(last);
        lock
    }
}

impl<T, V> Drop for Pass<T, V> {
    fn drop(self) {
        drop(self.into_lock());
    }
}

impl<T: Drop, V, P: Protocol<T, V>> RuledChannel<T, V, P> {
    // A pass that has made no step yet.
    #[inline(always)]
    pub(crate) fn admit(&self, lock: ruled_mutex::Pass<Core<T, Mark>, Known<V>>) -> Pass<T, V>
        requires own { IsMutexPass self.now.mutex lock }
        requires knows { (view_in_mutex lock).capacity ≡ Some self.now.capacity }
        ensures own { IsPassOf self.now result }
        ensures view { view result ≡ (view_in_mutex lock).view }
    {
        Pass {
            lock,
            last: Snapshot::of(&None),
        }
    }

    #[inline(always)]
    pub(crate) fn lock<R: Wait>(&self, rt: &R, pass: &mut Pass<T, V>) -> Held<Core<T, Mark>>
        requires { IsPassOf self.now pass.old }
        ensures same { IsSamePass pass.old pass.new × (view pass.new ≡ view pass.old) }
        ensures held { Holds self.now result pass.new
            × (made_of result pass.new.lock ≡ found_by result) }
    {
        self.mutex.lock(rt, &mut pass.lock)
    }

    // Gives the lock back by a step of the rule, and wakes whom the step told: each mark that the
    // bell was rung with.
    #[inline(always)]
    pub(crate) fn give_back<O: Outcome<Core<T, Mark>, V>>(
        &self,
        pass: &mut Pass<T, V>,
        held: Held<Core<T, Mark>>,
        bell: Ringer,
    )
        requires own { Holds self.now held pass.old }
        requires rule { TurnsAt (within (found_by held).capacity (P.holds (key_of self.now)))
            (number pass.old) (view pass.old)
            (found_by held) (made_of held pass.old.lock) O.then }
        ensures own { IsPassOf self.now pass.new × IsSamePass pass.old pass.new }
        ensures rule { O.then (view pass.old) (found_by held) (made_of held pass.old.lock)
            (view pass.new) }
        ensures found { found pass.new ≡ found_by held }
        ensures made { made pass.new ≡ made_of held pass.old.lock }
        ensures woken { woken pass.new ≡ in_turn_of_waking bell }
    {
        let made = Snapshot::of(pass.lock.value_mut(&self.mutex, &held));
        let found = Snapshot::of(&held);
        self.mutex.unlock_as::<AtCapacity<O>>(&mut pass.lock, held);
        let woken = bell.wake_after(self, pass);
        let step = Step {
            held: found,
            made,
            woken: Snapshot::of(&woken),
        };
        pass.last = Snapshot::of(&Some(step));
    }
}
