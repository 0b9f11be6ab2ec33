//! The channel and its calls that don't wait for others' messages.
ghost use Rattle.std.specs.Prelude.{◌≡◌, [], ◌∷◌, not, Some, IfOk, IfErr, OnOk, OnErr};
ghost use Rattle.channel_core.specs.Errors.{message_of};
ghost use Rattle.ruled_mutex.specs.Passes.{key_of as key_of_mutex};
ghost use Rattle.ruled_channel.specs.State.{IsClosed, IsUnbounded, new_state};
ghost use Rattle.ruled_channel.specs.Rule.{Sends, Forces, Receives, Ends, Closes, Forks, Merges, Learns};

use crate::mark::Mark;
use crate::outcomes::{
    AtEnd, Forced, ForcedOrKept, HasClosed, Kept, Lesson, Received, ReceivedOrKept, Sent,
    SentOrKept, Shut,
};
use crate::pass::Pass;
use crate::protocol::{ChannelKey, Cut, Glue, Known, Protocol, Ruled};
use crate::ringer::Ringer;
use channel_core::{Core, NoMemory, OutOfMemory, SendError, TryRecvError, TrySendError};
use futures::task::Source;
use ruled_mutex::{Join, RuledMutex, Split, Unruled};
use std::alloc::Global;
use std::snapshot::Snapshot;
use std::sync::Wait;

/// A channel under the rule `P`, over messages `T` and over the view `V` of each pass. Threads share
/// it by reference, each with a pass of its own.
///
/// ```
/// let (channel, _): (RuledChannel<u64, (), Unruled>, _) = bounded_with(rt.alloc(), 1)?;
/// drop(channel);
/// ```
pub struct RuledChannel<T, V, P: Protocol<T, V>> {
    pub(crate) mutex: RuledMutex<Core<T, Mark>, Known<V>, Ruled<P>>,
    // That of the core.
    pub(crate) capacity: Option<usize>,
    pub(crate) alloc: Global,
    // What tasks wait for.
    pub(crate) source: Source,
    ghost shape: { capacity ≡ (key_of_mutex mutex).capacity },
}

impl<T: Drop, V, P: Protocol<T, V>> Drop for RuledChannel<T, V, P> {
    fn drop(self) {
        let Self {
            mutex,
            capacity: _,
            alloc: _,
            source: _,
        } = self;
        drop(mutex);
    }
}

impl<T: Drop> RuledChannel<T, (), Unruled> {
    ghost use Rattle.ruled_channel.specs.Passes.{IsPassOf};

    /// One more pass. The rule that asks nothing admits it at any time.
    ///
    /// ```
    /// let (channel, _): (RuledChannel<u64, (), Unruled>, _) = bounded_with(rt.alloc(), 1)?;
    /// let mut pass = channel.pass();
    /// assert!(rt; channel.close_as::<Unruled, _>(&rt, &mut pass));
    /// ```
    #[inline(always)]
    pub fn pass(&self) -> Pass<T, ()>
        ensures { IsPassOf self.now result }
    {
        self.admit(self.mutex.pass())
    }
}

impl<T: Drop, V, P: Protocol<T, V>> RuledChannel<T, V, P> {
    ghost use Rattle.std.specs.Prelude.{◌≢◌};
    ghost use Rattle.channel_core.specs.Channel.{GrowsWithMessages, closing, force_sent, is_channel_full, new_channel, oldest, received, sent, unchanged};
    ghost use Rattle.channel_core.specs.Tables.{force_send_answer, try_recv_answer, try_send_answer};
    ghost use Rattle.ruled_channel.specs.Passes.{IsPassOf, IsSamePass, Refuses, FindsNone, LearnedOf, capacity_of, key_of, number, source_of, view};
    ghost use Rattle.ruled_channel.specs.Steps.{HasMade, found};
    ghost use Rattle.ruled_channel.specs.Guarded.{within};

    pub(crate) fn over(
        alloc: Global,
        core: Core<T, Mark>,
        key: &P::Key,
    ) -> Result<(RuledChannel<T, V, P>, Pass<T, V>), OutOfMemory>
        requires new { core ≡ new_channel core.capacity }
        requires place { core.capacity ≢ Some 0 }
        requires rule { P.holds key.now (new_state core.capacity) (P.first key.now ∷ []) }
        ensures own { IfOk result (λ r. IsPassOf r.0 r.1 × (view r.1 ≡ P.first key.now)) }
        ensures key { IfOk result (λ r. key_of r.0 ≡ key.now) }
        ensures capacity { IfOk result (λ r. capacity_of r.0 ≡ core.capacity) }
    {
        let capacity = core.capacity();
        let key = ChannelKey {
            caller: Snapshot::of(key),
            capacity,
        };
        let Ok((mutex, pass)) = RuledMutex::new_with_key(alloc, core, &key) else {
            return Err(OutOfMemory);
        };
        let channel = RuledChannel {
            mutex,
            capacity,
            alloc,
            source: Source::new(),
        };
        let pass = channel.admit(pass);
        Ok((channel, pass))
    }

    /// How many messages it can hold, and none if there is no bound.
    ///
    /// ```
    /// let (channel, _): (RuledChannel<u64, (), Unruled>, _) = bounded_with(rt.alloc(), 4)?;
    /// assert_eq!(rt; channel.capacity(), Some(4));
    /// ```
    pub fn capacity(&self) -> Option<usize>
        ensures { result ≡ capacity_of self.now }
    {
        self.capacity
    }

    /// Where the memory of its marks comes from.
    ///
    /// ```
    /// let (channel, _): (RuledChannel<u64, (), Unruled>, _) = bounded_with(rt.alloc(), 4)?;
    /// let list: Vec<u64> = Vec::new(channel.alloc());
    /// assert!(rt; list.is_empty());
    /// ```
    pub fn alloc(&self) -> Global {
        self.alloc
    }

    /// What the tasks of its operations wait for.
    ///
    /// ```
    /// let (channel, _): (RuledChannel<u64, (), Unruled>, _) = bounded_with(rt.alloc(), 4)?;
    /// let _source: &Source = channel.source();
    /// ```
    pub fn source(&self) -> &Source
        ensures { result.now.id ≡ source_of self.now }
    {
        &self.source
    }

    /// Cuts a view in two, so that a part of it can go to another thread.
    ///
    /// ```
    /// struct Halves;
    ///
    /// impl Split<()> for Halves {
    ///     ghost left = { λ v. v };
    ///
    ///     ghost right = { λ v. v };
    /// }
    ///
    /// impl Join<()> for Halves {
    ///     ghost both = { λ v w. v };
    ///
    ///     ghost spent = { tt };
    /// }
    ///
    /// let (channel, mut pass) = bounded_with::<u64, (), Unruled>(rt.alloc(), 1)?;
    /// let other = channel.another::<Halves>(&mut pass);
    /// channel.absorb::<Halves>(&mut pass, other);
    /// ```
    pub fn another<M: Split<V>>(&self, pass: &mut Pass<T, V>) -> Pass<T, V>
        requires own { IsPassOf self.now pass.old }
        requires rule { Forks (P.holds (key_of self.now)) (number pass.old) (view pass.old)
            (M.left (view pass.old))
            (M.right (view pass.old)) }
        ensures own { IsPassOf self.now pass.new × IsSamePass pass.old pass.new }
        ensures left { view pass.new ≡ M.left (view pass.old) }
        ensures right { IsPassOf self.now result × (view result ≡ M.right (view pass.old)) }
    {
        let lock = self.mutex.another::<Cut<M>>(&mut pass.lock);
        self.admit(lock)
    }

    /// Takes in the view of another pass, which is used up.
    ///
    /// ```
    /// let (channel, mut pass) = bounded_with::<u64, (), Unruled>(rt.alloc(), 1)?;
    /// let other = channel.another::<Halves>(&mut pass);
    /// channel.absorb::<Halves>(&mut pass, other);
    /// ```
    pub fn absorb<M: Join<V>>(&self, pass: &mut Pass<T, V>, other: Pass<T, V>)
        requires own { IsPassOf self.now pass.old × IsPassOf self.now other }
        requires rule { Merges (P.holds (key_of self.now)) (number pass.old) (view pass.old)
            (number other) (view other)
            (M.both (view pass.old) (view other)) M.spent }
        ensures own { IsPassOf self.now pass.new × IsSamePass pass.old pass.new }
        ensures both { view pass.new ≡ M.both (view pass.old) (view other) }
    {
        let other = other.into_lock();
        self.mutex.absorb::<Glue<M>>(&mut pass.lock, other);
    }

    /// Puts a message last. A full or closed channel hands it back. The outer error, with the
    /// message, says that memory was refused, which an unbounded channel alone may be.
    ///
    /// ```
    /// let (channel, mut pass) = bounded_with::<u64, (), Unruled>(rt.alloc(), 1)?;
    /// let sent = channel.try_send_as::<Unruled, Unruled, _>(&rt, &mut pass, 5)?;
    /// assert_eq!(rt; sent, Ok(()));
    /// ```
    #[inline(always)]
    pub fn try_send_as<M: Sent<T, V>, L: Lesson<T, V>, R: Wait>(
        &self,
        rt: &R,
        pass: &mut Pass<T, V>,
        message: T,
    ) -> Result<Result<(), TrySendError<T>>, NoMemory<T>>
        requires own { IsPassOf self.now pass.old }
        requires rule { Sends (P.holds (key_of self.now)) (number pass.old) (view pass.old) message
            M.then }
        requires lesson { Learns (P.holds (key_of self.now)) (number pass.old) (view pass.old)
            (L.fact (view pass.old)) }
        ensures own { IsPassOf self.now pass.new × IsSamePass pass.old pass.new }
        ensures sent { IfOk result (λ answer. IfOk answer
            (λ _. M.then (view pass.old) message (view pass.new))) }
        ensures refused { IfOk result (λ answer. IfErr answer
            (λ error. (message_of error ≡ message) × (view pass.new ≡ view pass.old)
            × Refuses (L.fact (view pass.old)) error)) }
        ensures memory { IfErr result
            (λ error. (error.0 ≡ message) × (view pass.new ≡ view pass.old)
            × LearnedOf IsUnbounded (L.fact (view pass.old))) }
        ensures reply { IfOk result (λ answer. answer ≡ try_send_answer (found pass.new).closed
            (is_channel_full (found pass.new)) message) }
        ensures step { OnOk result (HasMade (sent message) pass.new) }
        ensures wanted { OnErr result (GrowsWithMessages (found pass.new)) }
        ensures unchanged { OnErr result (HasMade unchanged pass.new) }
    {
        let held = self.lock(rt, pass);
        let mut bell = Ringer::new();
        let core = pass.lock.value_mut(&self.mutex, &held);
        let answer = core.try_send(message, &mut bell);
        self.give_back::<SentOrKept<M, L>>(pass, held, bell);
        answer
    }

    /// Puts a message last in an open channel. A full one gives its oldest message for it; a closed
    /// one hands the message back. The outer error, with the message, says that memory was refused,
    /// which an unbounded channel alone may be.
    ///
    /// ```
    /// let (channel, mut pass) = bounded_with::<u64, (), Unruled>(rt.alloc(), 1)?;
    /// let forced = channel.force_send_as::<Unruled, Unruled, _>(&rt, &mut pass, 5)?;
    /// assert_eq!(rt; forced, Ok(None));
    /// let forced = channel.force_send_as::<Unruled, Unruled, _>(&rt, &mut pass, 6)?;
    /// assert_eq!(rt; forced, Ok(Some(5)));
    /// ```
    pub fn force_send_as<M: Forced<T, V>, L: Lesson<T, V>, R: Wait>(
        &self,
        rt: &R,
        pass: &mut Pass<T, V>,
        message: T,
    ) -> Result<Result<Option<T>, SendError<T>>, NoMemory<T>>
        requires own { IsPassOf self.now pass.old }
        requires rule { Forces (P.holds (key_of self.now)) (number pass.old) (view pass.old) message
            M.then }
        requires lesson { Learns (P.holds (key_of self.now)) (number pass.old) (view pass.old)
            (L.fact (view pass.old)) }
        ensures own { IsPassOf self.now pass.new × IsSamePass pass.old pass.new }
        ensures sent { IfOk result (λ answer. IfOk answer
            (λ displaced. M.then (view pass.old) displaced message (view pass.new))) }
        ensures refused { IfOk result (λ answer. IfErr answer
            (λ error. (error.0 ≡ message) × (view pass.new ≡ view pass.old)
            × LearnedOf IsClosed (L.fact (view pass.old)))) }
        ensures memory { IfErr result
            (λ error. (error.0 ≡ message) × (view pass.new ≡ view pass.old)
            × LearnedOf IsUnbounded (L.fact (view pass.old))) }
        ensures reply { IfOk result (λ answer. answer
            ≡ force_send_answer (found pass.new).closed (is_channel_full (found pass.new))
            (oldest (found pass.new)) message) }
        ensures step { OnOk result (HasMade (force_sent message) pass.new) }
        ensures wanted { OnErr result (GrowsWithMessages (found pass.new)) }
        ensures unchanged { OnErr result (HasMade unchanged pass.new) }
    {
        let held = self.lock(rt, pass);
        let mut bell = Ringer::new();
        let core = pass.lock.value_mut(&self.mutex, &held);
        let answer = core.force_send(message, &mut bell);
        self.give_back::<ForcedOrKept<M, L>>(pass, held, bell);
        answer
    }

    /// Takes the oldest message. If none is held, the error says whether the channel is closed.
    ///
    /// ```
    /// let (channel, mut pass) = bounded_with::<u64, (), Unruled>(rt.alloc(), 1)?;
    /// let none = channel.try_recv_as::<Unruled, Unruled, Unruled, _>(&rt, &mut pass);
    /// assert_eq!(rt; none, Err(TryRecvError::Empty));
    /// ```
    #[inline(always)]
    pub fn try_recv_as<M: Received<T, V>, E: AtEnd<V>, L: Lesson<T, V>, R: Wait>(
        &self,
        rt: &R,
        pass: &mut Pass<T, V>,
    ) -> Result<T, TryRecvError>
        requires own { IsPassOf self.now pass.old }
        requires rule { Receives (P.holds (key_of self.now)) (number pass.old) (view pass.old)
            M.then }
        requires end { Ends (P.holds (key_of self.now)) (number pass.old) (view pass.old) E.then }
        requires lesson { Learns (P.holds (key_of self.now)) (number pass.old) (view pass.old)
            (L.fact (view pass.old)) }
        ensures own { IsPassOf self.now pass.new × IsSamePass pass.old pass.new }
        ensures received { IfOk result
            (λ message. M.then (view pass.old) message (view pass.new)) }
        ensures refused { IfErr result (λ error. FindsNone E.then (L.fact (view pass.old))
            (view pass.old) (view pass.new) error) }
        ensures reply { result
            ≡ try_recv_answer (oldest (found pass.new)) (found pass.new).closed }
        ensures step { HasMade received pass.new }
    {
        let held = self.lock(rt, pass);
        let mut bell = Ringer::new();
        let core = pass.lock.value_mut(&self.mutex, &held);
        let answer = core.try_recv(&mut bell);
        self.give_back::<ReceivedOrKept<M, E, L>>(pass, held, bell);
        answer
    }

    /// Closes the channel, and answers whether it was open. What it holds can be received still, and
    /// nothing can be sent.
    ///
    /// ```
    /// let (channel, mut pass) = bounded_with::<u64, (), Unruled>(rt.alloc(), 1)?;
    /// assert!(rt; channel.close_as::<Unruled, _>(&rt, &mut pass));
    /// assert!(rt; !channel.close_as::<Unruled, _>(&rt, &mut pass));
    /// ```
    pub fn close_as<M: HasClosed<V>, R: Wait>(&self, rt: &R, pass: &mut Pass<T, V>) -> bool
        requires own { IsPassOf self.now pass.old }
        requires rule { Closes (P.holds (key_of self.now)) (number pass.old) (view pass.old) M.then }
        ensures own { IsPassOf self.now pass.new × IsSamePass pass.old pass.new }
        ensures closed { M.then (view pass.old) result (view pass.new) }
        ensures reply { result ≡ not (found pass.new).closed }
        ensures step { HasMade closing pass.new }
    {
        let held = self.lock(rt, pass);
        let mut bell = Ringer::new();
        let core = pass.lock.value_mut(&self.mutex, &held);
        let was_open = core.close(&mut bell);
        self.give_back::<Shut<M>>(pass, held, bell);
        was_open
    }
}
