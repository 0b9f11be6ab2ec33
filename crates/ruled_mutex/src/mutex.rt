//! The mutex and its calls.
ghost use Rattle.std.specs.Prelude.{◌≡◌, ℕ, [], ◌∷◌, IfOk, IfErr, IfSome, IfNone, IsTrue, IsFalse};
ghost use Rattle.std.specs.Fn.{FnOnceReturnsAtMut};
ghost use Rattle.crossbeam_utils.specs.Register.{Admits, Forks, Merges, TurnsAt};

use crate::pass::{Doing, Held, Pass};
use crate::plays::{Cut, Glue, Learn, Lock, Pay, Sit, Unlock};
use crate::protocol::Protocol;
use atomic_table::{Join, Refused, Split, Table, TableRule};
use crossbeam_utils::rule::Outcome;
use std::alloc::{AllocFailed, Allocator, Global};
use std::hint;
use std::marker::PhantomData;
use std::sync::Wait;

/// What a call learns from the rule: of its view, and of the value that it found.
///
/// ```
/// struct Anything;
///
/// impl<T, V> Lesson<T, V> for Anything {
///     ghost fact = { λ v x. Unit {0} };
/// }
/// ```
pub trait Lesson<T, V> {
    ghost fact: { V → T → Type 0 };
}

pub struct Guards<P> {
    protocol: PhantomData<P>,
}

impl<T, V, P: Protocol<T, V>> TableRule<T, Doing<T, V>, P::Key> for Guards<P> {
    ghost use Rattle.ruled_mutex.specs.Rule.{Guarded, outside};

    ghost holds = { λ key. Guarded (P.holds key) };

    ghost first = { λ key. outside (P.first key) };
}

// The words of the table. The lock's has 64 bytes on each side that nobody writes, so nothing else
// that changes, as the value, is on its cache line.
const WORDS: usize = 16;

// Which of them is the lock's.
const WORD: usize = 8;

// Nobody writes this one, so who reads it fetches no cache line that another thread holds.
const STILL: usize = 0;

const FREE: u64 = 0;

const LOCKED: u64 = 1;

/// Held, and somebody may sleep until it is free.
const CONTENDED: u64 = 2;

// How often a thread looks at a held lock before it sleeps.
const LOOKS: u32 = 12;

// How many of the processor's pauses are before each look: so many that whoever has the lock can
// take it several times, and its cache lines stay where they are. A thread doesn't yield: if all
// processors are busy, it may get no turn for milliseconds then.
//
// What a pause takes differs between processors, and there is no clock here. If it takes some 6 ns, a
// message from four threads to four without a bound took 222 ns with 80 pauses and 157 with these,
// from one to one over 128 places 125 and 118, and over one place 893 and 938. With 200 the first
// two fell further and the last rose further. On a busy machine of an earlier day 80 were the better
// ones over 128 places, so they aren't more.
const PAUSES: u32 = 150;

fn pause() {
    for _ in 0..PAUSES {
        hint::spin_loop();
    }
}

/// A mutex under the rule `P`, over a `T` and over the view `V` of each pass. It is as large as two
/// blocks of memory, one of 128 bytes for the lock's word and one for the value.
///
/// ```
/// let Ok((mutex, _)) = RuledMutex::<u64, (), Unruled>::new(rt.alloc(), 4) else {
///     panic!(&rt; "out of memory");
/// };
/// drop(mutex);
/// ```
#[derive(Drop)]
pub struct RuledMutex<T, V, P: Protocol<T, V>, A: Allocator = Global> {
    pub(crate) table: Table<T, Doing<T, V>, P::Key, Guards<P>, A>,
    ghost shape: { (table.shared.table_id.words ≡ 16) × (table.shared.table_id.slots ≡ 1) },
}

impl<T, V, P: Protocol<T, V, Key = ()>, A: Allocator> RuledMutex<T, V, P, A> {
    ghost use Rattle.ruled_mutex.specs.Passes.{IsPassOf, view};

    /// The mutex and its first pass, with the view that the rule begins with. The value comes back
    /// if there is no memory.
    ///
    /// ```
    /// let Ok((mutex, mut pass)) = RuledMutex::<u64, (), Unruled>::new(rt.alloc(), 4) else {
    ///     panic!(&rt; "out of memory");
    /// };
    /// let held = mutex.lock(&rt, &mut pass);
    /// assert!(rt; *pass.value_mut(&mutex, &held) == 4);
    /// mutex.unlock_as::<Unruled>(&mut pass, held);
    /// ```
    pub fn new(alloc: A, value: T) -> Result<(RuledMutex<T, V, P, A>, Pass<T, V>), T>
    where
        A: Clone,
        requires { P.holds tt value (P.first tt ∷ []) }
        ensures ok { IfOk result (λ r. IsPassOf r.0 r.1 × (view r.1 ≡ P.first tt)) }
        ensures err { IfErr result (λ back. back ≡ value) }
    {
        RuledMutex::new_with_key(alloc, value, &())
    }
}

impl<T, V, P: Protocol<T, V>, A: Allocator> RuledMutex<T, V, P, A> {
    ghost use Rattle.ruled_mutex.specs.Passes.{IsPassOf, IsSamePass, Holds, IsIn, Owes, Learns, key_of, view, number, found, made};

    /// A mutex of this key, and its first pass, with the view that the rule begins with. The value
    /// comes back if there is no memory.
    ///
    /// ```
    /// let made = RuledMutex::<u64, (), AtMost>::new_with_key(rt.alloc(), 4, &6);
    /// let Ok((mutex, mut pass)) = made else {
    ///     panic!(&rt; "out of memory");
    /// };
    /// let held = mutex.lock(&rt, &mut pass);
    /// assert!(rt; *pass.value_mut(&mutex, &held) == 4);
    /// mutex.unlock_as::<Unruled>(&mut pass, held);
    /// ```
    pub fn new_with_key(
        alloc: A,
        value: T,
        key: &P::Key,
    ) -> Result<(RuledMutex<T, V, P, A>, Pass<T, V>), T>
    where
        A: Clone,
        requires { P.holds key.now value (P.first key.now ∷ []) }
        ensures ok { IfOk result (λ r. IsPassOf r.0 r.1 × (view r.1 ≡ P.first key.now)
            × (key_of r.0 ≡ key.now)) }
        ensures err { IfErr result (λ back. back ≡ value) }
    {
        let Ok(heap) = alloc.clone() else {
            return Err(value);
        };
        let mut slots = Vec::new(heap);
        if let Err(failed) = slots.push(value) {
            slots.destroy_empty();
            let AllocFailed { value } = failed;
            return Err(value);
        }
        match Table::new(alloc, &[FREE; WORDS], slots, key) {
            Ok((table, seat)) => Ok((RuledMutex { table }, Pass { seat })),
            Err(Refused { mut slots }) => {
                let Some(value) = slots.pop() else {
                    unreachable!()
                };
                slots.destroy_empty();
                Err(value)
            }
        }
    }

    /// A further pass, with the view that the rule begins with. The rule has to admit one at any
    /// time.
    ///
    /// ```
    /// let Ok((mutex, _)) = RuledMutex::<u64, (), Unruled>::new(rt.alloc(), 4) else {
    ///     panic!(&rt; "out of memory");
    /// };
    /// let mut other = mutex.pass();
    /// let held = mutex.lock(&rt, &mut other);
    /// mutex.unlock_as::<Unruled>(&mut other, held);
    /// ```
    pub fn pass(&self) -> Pass<T, V>
        requires { Admits (P.holds (key_of self.now)) (P.first (key_of self.now)) }
        ensures { IsPassOf self.now result × (view result ≡ P.first (key_of self.now)) }
    {
        let (_, seat) = self.table.shared.load_new_seat::<Sit>(STILL);
        Pass { seat }
    }

    /// Cuts a view in two, so that a part of it can go to another thread.
    ///
    /// ```
    /// struct Halves;
    ///
    /// impl Split<()> for Halves {
    ///     ghost left = { λ v. v };
    ///
    ///     ghost right = { λ v. v };
    /// }
    ///
    /// impl Join<()> for Halves {
    ///     ghost both = { λ v w. v };
    ///
    ///     ghost spent = { tt };
    /// }
    ///
    /// let Ok((mutex, mut pass)) = RuledMutex::<u64, (), Unruled>::new(rt.alloc(), 4) else {
    ///     panic!(&rt; "out of memory");
    /// };
    /// let other = mutex.another::<Halves>(&mut pass);
    /// mutex.absorb::<Halves>(&mut pass, other);
    /// ```
    pub fn another<M: Split<V>>(&self, pass: &mut Pass<T, V>) -> Pass<T, V>
        requires own { IsPassOf self.now pass.old }
        requires rule { Forks (P.holds (key_of self.now)) (number pass.old) (view pass.old)
            (M.left (view pass.old)) (M.right (view pass.old)) }
        ensures own { IsPassOf self.now pass.new × IsSamePass pass.old pass.new }
        ensures left { view pass.new ≡ M.left (view pass.old) }
        ensures right { IsPassOf self.now result × (view result ≡ M.right (view pass.old)) }
    {
        let seat = self.table.shared.split_seat::<Cut<M>>(&mut pass.seat);
        Pass { seat }
    }

    /// Takes in the view of another pass, which is used up.
    ///
    /// ```
    /// let Ok((mutex, mut pass)) = RuledMutex::<u64, (), Unruled>::new(rt.alloc(), 4) else {
    ///     panic!(&rt; "out of memory");
    /// };
    /// let other = mutex.another::<Halves>(&mut pass);
    /// mutex.absorb::<Halves>(&mut pass, other);
    /// ```
    pub fn absorb<M: Join<V>>(&self, pass: &mut Pass<T, V>, other: Pass<T, V>)
        requires own { IsPassOf self.now pass.old × IsPassOf self.now other }
        requires rule { Merges (P.holds (key_of self.now)) (number pass.old) (view pass.old)
            (number other) (view other) (M.both (view pass.old) (view other)) M.spent }
        ensures own { IsPassOf self.now pass.new × IsSamePass pass.old pass.new }
        ensures both { view pass.new ≡ M.both (view pass.old) (view other) }
    {
        self.table
            .shared
            .join_seat::<Glue<M>>(&mut pass.seat, other.into_seat());
    }

    /// Takes the lock if it is free, and doesn't wait. No clause says when it is.
    ///
    /// ```
    /// let Ok((mutex, mut pass)) = RuledMutex::<u64, (), Unruled>::new(rt.alloc(), 4) else {
    ///     panic!(&rt; "out of memory");
    /// };
    /// if let Some(held) = mutex.try_lock(&mut pass) {
    ///     *pass.value_mut(&mutex, &held) = 5;
    ///     mutex.unlock_as::<Unruled>(&mut pass, held);
    /// }
    /// ```
    #[inline]
    pub fn try_lock(&self, pass: &mut Pass<T, V>) -> Option<Held<T>>
        requires { IsPassOf self.now pass.old }
        ensures same { IsSamePass pass.old pass.new × (view pass.new ≡ view pass.old) }
        ensures some { IfSome result (λ h. Holds self.now h pass.new
            × (made h pass.new ≡ found h)) }
        ensures none { IfNone result (IsPassOf self.now pass.new) }
    {
        if self.take(pass) {
            Some(self.hold(pass))
        } else {
            None
        }
    }

    /// Takes the lock, and sleeps while another has it. It may wait for ever, as when the thread
    /// that waits holds the lock itself by another pass.
    ///
    /// ```
    /// let Ok((mutex, mut pass)) = RuledMutex::<u64, (), Unruled>::new(rt.alloc(), 4) else {
    ///     panic!(&rt; "out of memory");
    /// };
    /// let held = mutex.lock(&rt, &mut pass);
    /// *pass.value_mut(&mutex, &held) = 5;
    /// mutex.unlock_as::<Unruled>(&mut pass, held);
    /// ```
    #[inline]
    pub fn lock<R: Wait>(&self, rt: &R, pass: &mut Pass<T, V>) -> Held<T>
        requires { IsPassOf self.now pass.old }
        ensures same { IsSamePass pass.old pass.new × (view pass.new ≡ view pass.old) }
        ensures held { Holds self.now result pass.new × (made result pass.new ≡ found result) }
    {
        if !self.take(pass) {
            self.lock_contended(rt, pass);
        }
        self.hold(pass)
    }

    /// Learns what the rule says of the view and of the value that was found, before it is changed
    /// or given back. It costs one load.
    ///
    /// ```
    /// let Ok((mutex, mut pass)) = RuledMutex::<u64, (), Unruled>::new(rt.alloc(), 4) else {
    ///     panic!(&rt; "out of memory");
    /// };
    /// let held = mutex.lock(&rt, &mut pass);
    /// mutex.learn_as::<Anything>(&mut pass, &held);
    /// mutex.unlock_as::<Unruled>(&mut pass, held);
    /// ```
    pub fn learn_as<L: Lesson<T, V>>(&self, pass: &mut Pass<T, V>, held: &Held<T>)
        requires own { Holds self.now held.now pass.old }
        requires rule { Learns (P.holds (key_of self.now)) (number pass.old) (view pass.old)
            (found held.now) (L.fact (view pass.old) (found held.now)) }
        ensures same { IsSamePass pass.old pass.new × (view pass.new ≡ view pass.old) }
        ensures held { Holds self.now held.now pass.new
            × (made held.now pass.new ≡ made held.now pass.old) }
        ensures learned { L.fact (view pass.old) (found held.now) }
    {
        self.table.shared.load::<Learn<L>>(&mut pass.seat, WORD);
    }

    /// Gives the lock back, and wakes somebody who sleeps. The rule has to allow the step from the
    /// value that was found to the one that is there now.
    ///
    /// ```
    /// let Ok((mutex, mut pass)) = RuledMutex::<u64, (), Unruled>::new(rt.alloc(), 4) else {
    ///     panic!(&rt; "out of memory");
    /// };
    /// let held = mutex.lock(&rt, &mut pass);
    /// *pass.value_mut(&mutex, &held) = 5;
    /// mutex.unlock_as::<Unruled>(&mut pass, held);
    /// let held = mutex.lock(&rt, &mut pass);
    /// assert!(rt; *pass.value_mut(&mutex, &held) == 5);
    /// mutex.unlock_as::<Unruled>(&mut pass, held);
    /// ```
    #[inline]
    pub fn unlock_as<M: Outcome<T, V>>(&self, pass: &mut Pass<T, V>, held: Held<T>)
        requires own { Holds self.now held pass.old }
        requires rule { TurnsAt (P.holds (key_of self.now)) (number pass.old) (view pass.old)
            (found held) (made held pass.old) M.then }
        ensures own { IsPassOf self.now pass.new × IsSamePass pass.old pass.new }
        ensures rule { M.then (view pass.old) (found held) (made held pass.old) (view pass.new) }
    {
        held.end();
        let before = self
            .table
            .shared
            .swap::<Unlock<M>>(&mut pass.seat, WORD, FREE);
        if before == CONTENDED {
            self.wake(pass);
        }
    }
}

/// Calls made of the others.
impl<T, V, P: Protocol<T, V>, A: Allocator> RuledMutex<T, V, P, A> {
    ghost use Rattle.ruled_mutex.specs.Passes.{IsPassOf, IsSamePass, key_of, view, number};

    /// Takes the lock, lends the value to `f`, and gives the lock back. The rule has to allow each
    /// step that `f` may make.
    ///
    /// ```
    /// let Ok((mutex, mut pass)) = RuledMutex::<u64, (), Unruled>::new(rt.alloc(), 4) else {
    ///     panic!(&rt; "out of memory");
    /// };
    /// let before = mutex.with_as::<Unruled, _, _, _>(&rt, &mut pass, |value| {
    ///     let before = *value;
    ///     *value = 5;
    ///     before
    /// });
    /// assert!(rt; before == 4);
    /// ```
    #[inline]
    pub fn with_as<M: Outcome<T, V>, R: Wait, O, F: FnOnce(&mut T) -> O>(
        &self,
        rt: &R,
        pass: &mut Pass<T, V>,
        f: F,
    ) -> O
        requires own { IsPassOf self.now pass.old }
        requires call { F.IsAlwaysCallable f }
        requires rule { (x y : T) (answer : O) → FnOnceReturnsAtMut F.FnOnce f x answer y →
            TurnsAt (P.holds (key_of self.now)) (number pass.old) (view pass.old) x y M.then }
        ensures own { IsPassOf self.now pass.new × IsSamePass pass.old pass.new }
        ensures rule { (x : T) × (y : T) × FnOnceReturnsAtMut F.FnOnce f x result y
            × M.then (view pass.old) x y (view pass.new) }
    {
        let held = self.lock(rt, pass);
        let answer = f(pass.value_mut(self, &held));
        self.unlock_as::<M>(pass, held);
        answer
    }
}

// The steps that the calls are made of.
impl<T, V, P: Protocol<T, V>, A: Allocator> RuledMutex<T, V, P, A> {
    ghost use Rattle.ruled_mutex.specs.Rule.{Took};
    ghost use Rattle.ruled_mutex.specs.Passes.{IsPassOf, IsSamePass, Holds, IsIn, Owes, view, found, made};

    // Takes the lock if it is free, and says whether it was.
    #[inline]
    fn take(&self, pass: &mut Pass<T, V>) -> bool
        requires { IsPassOf self.now pass.old }
        ensures same { IsSamePass pass.old pass.new }
        ensures taken { IsTrue result → Took (view pass.old) pass.new.seat.me }
        ensures held { IsFalse result → pass.new.seat.me ≡ pass.old.seat.me }
    {
        self.table
            .shared
            .compare_exchange::<Lock>(&mut pass.seat, WORD, FREE, LOCKED)
            == FREE
    }

    // What a pass has that has just taken the lock.
    #[inline]
    fn hold(&self, pass: &mut Pass<T, V>) -> Held<T>
        requires own { IsIn self.now pass.old }
        requires took { Took (view pass.old) pass.old.seat.me }
        ensures same { IsSamePass pass.old pass.new × (view pass.new ≡ view pass.old) }
        ensures held { Holds self.now result pass.new × (made result pass.new ≡ found result) }
    {
        Held::new(pass.seat.slot_mut(&self.table.shared, 0))
    }

    #[cold]
    #[inline(never)]
    fn lock_contended<R: Wait>(&self, rt: &R, pass: &mut Pass<T, V>)
        requires { IsPassOf self.now pass.old }
        ensures same { IsSamePass pass.old pass.new }
        ensures taken { Took (view pass.old) pass.new.seat.me }
    {
        if self.take_soon(pass) {
            return;
        }
        for _ in rt.forever() {
            if self.mark(pass) {
                return;
            }
            self.table.shared.park(rt, WORD, CONTENDED as u32);
        }
        unreachable!()
    }

    // Takes the lock if it is found free, and says whether it was.
    fn take_soon(&self, pass: &mut Pass<T, V>) -> bool
        requires { IsPassOf self.now pass.old }
        ensures same { IsSamePass pass.old pass.new }
        ensures taken { IsTrue result → Took (view pass.old) pass.new.seat.me }
        ensures held { IsFalse result → pass.new.seat.me ≡ pass.old.seat.me }
    {
        for _ in 0..LOOKS {
            pause();
            if self.table.shared.peek(WORD) == FREE && self.take(pass) {
                return true;
            }
        }
        false
    }

    // Takes the lock if it is free, and says whether it was. Whoever gives it back will wake
    // somebody.
    fn mark(&self, pass: &mut Pass<T, V>) -> bool
        requires { IsPassOf self.now pass.old }
        ensures same { IsSamePass pass.old pass.new }
        ensures taken { IsTrue result → Took (view pass.old) pass.new.seat.me }
        ensures held { IsFalse result → pass.new.seat.me ≡ pass.old.seat.me }
    {
        self.table
            .shared
            .swap::<Lock>(&mut pass.seat, WORD, CONTENDED)
            == FREE
    }

    // Wakes one that sleeps.
    #[cold]
    fn wake(&self, pass: &mut Pass<T, V>)
        requires { Owes self.now pass.old }
        ensures own { IsPassOf self.now pass.new × IsSamePass pass.old pass.new }
        ensures view { view pass.new ≡ view pass.old }
    {
        self.table.shared.wake_one(WORD);
        self.table.shared.load::<Pay>(&mut pass.seat, WORD);
    }
}
