//! The value, lent to who holds the lock. It has a file of its own, since its clause names the row
//! of `Pass`.
ghost use Rattle.std.specs.Prelude.{◌≡◌};
ghost use types.Logic.{sem};
ghost use denote.Follow.{follows};
ghost use Rattle.ruled_mutex.specs.contracts.pass.Pass.{the_row};
ghost use Rattle.ruled_mutex.specs.Passes.{Holds, made, pass_with};

use crate::mutex::RuledMutex;
use crate::pass::{Held, Pass};
use crate::protocol::Protocol;
use std::alloc::Allocator;

impl<T, V> Pass<T, V> {
    /// The value under the lock. What is left there is what the next one finds who takes the lock.
    ///
    /// ```
    /// let Ok((mutex, mut pass)) = RuledMutex::<u64, (), Unruled>::new(rt.alloc(), 4) else {
    ///     panic!(&rt; "out of memory");
    /// };
    /// let held = mutex.lock(&rt, &mut pass);
    /// let value = pass.value_mut(&mutex, &held);
    /// *value += 1;
    /// mutex.unlock_as::<Unruled>(&mut pass, held);
    /// ```
    pub fn value_mut<'a, P: Protocol<T, V>, A: Allocator>(
        &'a mut self,
        mutex: &'a RuledMutex<T, V, P, A>,
        held: &Held<T>,
    ) -> &'a mut T
        requires { Holds mutex.now held.now self.old }
        ensures* writes_back { sem 𝓛 (follows (the_row T.row V.row) T.row
            self.entry.ghost_name result.ghost_name (pass_with self.old)) }
        ensures value { result.now ≡ made held.now self.old }
    {
        self.seat.slot_mut(&mutex.table.shared, 0)
    }
}
