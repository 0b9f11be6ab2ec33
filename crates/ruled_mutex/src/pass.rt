//! What a thread has of a mutex: a pass, and while it holds the lock a token that says so.
ghost use Rattle.std.specs.Prelude.{◌≡◌};

use atomic_table::Seat;
use std::snapshot::Snapshot;

/// Where a pass stands. No value of it is made.
pub enum Stage<T> {
    Outside,
    /// It holds the lock, and found this value.
    Holding(T),
    /// It gave the lock back while somebody slept, and has woken nobody yet.
    OwesWake,
}

/// What the table knows of a pass. No value of it is made.
pub struct Doing<T, V> {
    pub stage: Stage<T>,
    pub client: V,
}

/// What one thread knows of a mutex: its view, and while it holds the lock the value. It has no
/// bytes.
///
/// ```
/// let Ok((mutex, pass)) = RuledMutex::<u64, (), Unruled>::new(rt.alloc(), 4) else {
///     panic!(&rt; "out of memory");
/// };
/// drop(pass);
/// let pass: Pass<u64, ()> = mutex.pass();
/// drop(pass);
/// ```
pub struct Pass<T, V> {
    pub(crate) seat: Seat<T, Doing<T, V>>,
}

impl<T, V> Pass<T, V> {
    pub(crate) fn into_seat(self) -> Seat<T, Doing<T, V>>
        ensures { result ≡ self.seat }
    {
        let Pass { seat } = self;
        seat
    }
}

impl<T, V> Drop for Pass<T, V> {
    fn drop(self) {
        drop(self.into_seat());
    }
}

/// The lock is held. It knows the value that was found, for contracts alone, and has no bytes. It
/// can't be dropped: whoever took the lock gives it to `unlock_as`.
///
/// ```
/// let Ok((mutex, mut pass)) = RuledMutex::<u64, (), Unruled>::new(rt.alloc(), 4) else {
///     panic!(&rt; "out of memory");
/// };
/// let held: Held<u64> = mutex.lock(&rt, &mut pass);
/// mutex.unlock_as::<Unruled>(&mut pass, held);
/// ```
pub struct Held<T> {
    found: Snapshot<T>,
}

impl<T> Held<T> {
    ghost use Rattle.ruled_mutex.specs.Passes.{found};

    pub(crate) fn new(value: &T) -> Held<T>
        ensures { found result ≡ value.now }
    {
        Held {
            found: Snapshot::of(value),
        }
    }

    pub(crate) fn end(self) {
        let Held { found } = self;
        drop(found);
    }
}
