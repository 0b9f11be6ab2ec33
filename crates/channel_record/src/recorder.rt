//! A channel for many callers, each of whose calls is recorded.
ghost use Rattle.std.specs.Prelude.{◌≡◌, ◌≢◌, ◌<◌, ◌↔◌, ◌++◌, ◌∷◌, [], ℕ, IsTrue, IsSome, IfOk, OnErr, Err, None};
ghost use Rattle.channel_model.specs.Capacity.{HasPositiveCapacity};
ghost use Rattle.channel_model.specs.declared.step.Kind.TheVariants.{Bounded, Unbounded};
ghost use Rattle.channel_core.specs.Stamps.{next_stamp};
ghost use Rattle.channel_record.specs.Shares.{IsRecorderOf};

use crate::calls::{Call, Outcome};
use crate::clerk::Clerk;
use crate::journal::Journal;
use channel_core::{Exact, MakeError, OutOfMemory, Stamp, StampMaker};
use channel_model::Kind;
use std::alloc::Global;
use std::marker::Model;
use std::sync::{Mutex, Wait};

/// A channel that any number of threads call through a shared reference, each with a clerk of its
/// own.
///
/// # Examples
///
/// ```
/// let recorder = Recorder::bounded(rt.alloc(), 1, &mut maker)?;
/// let mut clerk = recorder.clerk(&rt)?;
/// assert!(rt; recorder.owns(&clerk));
/// let outcome = recorder.call(&rt, &mut clerk, Call::TrySend(1u64))?;
/// assert_eq!(rt; outcome, Outcome::TrySent(Ok(())));
///
/// let book = recorder.finish(vec![in rt.alloc(); clerk]?)?;
/// assert_eq!(rt; book.history().len(), 1);
/// ```
#[derive(Drop)]
pub struct Recorder<T> {
    pub(crate) stamp: Stamp,
    pub(crate) kind: Kind,
    pub(crate) alloc: Global,
    pub(crate) journal: Mutex<Journal<T>>,
}

/// The stamp, and the kind of the channel.
impl<T> Model for Recorder<T> {
    ghost use Rattle.channel_record.specs.Shares.{RecorderView};

    ghost Value = { RecorderView };

    ghost view = { λ recorder. record { stamp = recorder.stamp; kind = recorder.kind } };
}

impl<T: Copy + Exact> Recorder<T> {
    /// A recorder of a bounded channel, which holds at most `cap` messages at a time.
    ///
    /// # Examples
    ///
    /// ```
    /// let recorder = Recorder::bounded(rt.alloc(), 1, &mut maker)?;
    /// let mut clerk = recorder.clerk(&rt)?;
    /// recorder.call(&rt, &mut clerk, Call::TrySend(1u64))?;
    /// let outcome = recorder.call(&rt, &mut clerk, Call::TrySend(2))?;
    /// assert_eq!(rt; outcome, Outcome::TrySent(Err(TrySendError::Full(2))));
    /// ```
    pub fn bounded(
        alloc: Global,
        cap: usize,
        maker: &mut StampMaker,
    ) -> Result<Recorder<T>, MakeError>
        requires { 0 < cap }
        ensures spent { (result ≡ Err MakeError.NoStamps) ↔ (maker.old ≡ None) }
        ensures unchanged { OnErr result (maker.new ≡ maker.old) }
        ensures made { IfOk result (IsRecorderOf maker.old (Bounded cap)) }
        ensures rises { IfOk result (λ _. maker.new ≡ next_stamp maker.old) }
    {
        Recorder::of_kind(alloc, Kind::Bounded(cap), maker)
    }

    /// A recorder of an unbounded channel, which holds any number of messages.
    ///
    /// [`MakeError`] says that memory was refused, or that the maker has given its last stamp; the
    /// maker is then as it was.
    ///
    /// # Examples
    ///
    /// ```
    /// let recorder: Recorder<u64> = Recorder::unbounded(rt.alloc(), &mut maker)?;
    /// let mut clerk = recorder.clerk(&rt)?;
    /// let outcome = recorder.call(&rt, &mut clerk, Call::Len)?;
    /// assert_eq!(rt; outcome, Outcome::Count(0));
    /// ```
    pub fn unbounded(alloc: Global, maker: &mut StampMaker) -> Result<Recorder<T>, MakeError>
        ensures spent { (result ≡ Err MakeError.NoStamps) ↔ (maker.old ≡ None) }
        ensures unchanged { OnErr result (maker.new ≡ maker.old) }
        ensures made { IfOk result (IsRecorderOf maker.old Unbounded) }
        ensures rises { IfOk result (λ _. maker.new ≡ next_stamp maker.old) }
    {
        Recorder::of_kind(alloc, Kind::Unbounded, maker)
    }

    // The stamp is taken after everything that may be refused.
    fn of_kind(alloc: Global, kind: Kind, maker: &mut StampMaker) -> Result<Recorder<T>, MakeError>
        requires { HasPositiveCapacity kind }
        ensures spent { (result ≡ Err MakeError.NoStamps) ↔ (maker.old ≡ None) }
        ensures unchanged { OnErr result (maker.new ≡ maker.old) }
        ensures made { IfOk result (IsRecorderOf maker.old kind) }
        ensures rises { IfOk result (λ _. maker.new ≡ next_stamp maker.old) }
    {
        if maker.is_spent() {
            return Err(MakeError::NoStamps);
        }
        let Ok(journal) = Journal::new(alloc, kind) else {
            return Err(MakeError::OutOfMemory);
        };
        Ok(Recorder {
            stamp: maker.draw().unwrap(),
            kind,
            alloc,
            journal: Mutex::new(journal),
        })
    }

    /// One clerk more, with no entries. [`Recorder::finish`] wants all of them back.
    ///
    /// # Examples
    ///
    /// ```
    /// let recorder: Recorder<u64> = Recorder::unbounded(rt.alloc(), &mut maker)?;
    /// let mut one = recorder.clerk(&rt)?;
    /// let mut other = recorder.clerk(&rt)?;
    /// recorder.call(&rt, &mut one, Call::TrySend(7))?;
    /// recorder.call(&rt, &mut other, Call::TryRecv)?;
    ///
    /// let book = recorder.finish(vec![in rt.alloc(); one, other]?)?;
    /// assert!(rt; matches!(book.places(0), Some([0])));
    /// assert!(rt; matches!(book.places(1), Some([1])));
    /// ```
    pub fn clerk(&self, rt: &impl Wait) -> Result<Clerk<T>, OutOfMemory>
        ensures { IfOk result (λ clerk. clerk ≡ record { stamp = self.now.stamp; entries = [] }) }
    {
        let clerk = Clerk::new(self.alloc, self.stamp)?;
        self.journal.lock(rt).count_clerk();
        Ok(clerk)
    }

    /// Whether the clerk has this recorder's stamp. It may have it from a recorder of another
    /// maker.
    ///
    /// It takes no lock and never waits.
    ///
    /// # Examples
    ///
    /// ```
    /// let recorder: Recorder<u64> = Recorder::unbounded(rt.alloc(), &mut maker)?;
    /// let other: Recorder<u64> = Recorder::unbounded(rt.alloc(), &mut maker)?;
    /// let clerk = recorder.clerk(&rt)?;
    /// assert!(rt; recorder.owns(&clerk));
    /// assert!(rt; !other.owns(&clerk));
    /// ```
    pub fn owns(&self, clerk: &Clerk<T>) -> bool
        ensures { IsTrue result ↔ (clerk.now.stamp ≡ self.now.stamp) }
    {
        clerk.stamp == self.stamp
    }

    /// Makes a call, and writes it down in the clerk's list with what came of it.
    ///
    /// If memory is refused nothing was called and nothing recorded.
    ///
    /// # Examples
    ///
    /// ```
    /// let recorder: Recorder<u64> = Recorder::unbounded(rt.alloc(), &mut maker)?;
    /// let mut clerk = recorder.clerk(&rt)?;
    /// recorder.call(&rt, &mut clerk, Call::ForceSend(7))?;
    /// let outcome = recorder.call(&rt, &mut clerk, Call::TryRecv)?;
    /// assert_eq!(rt; outcome, Outcome::Received(Ok(7)));
    /// assert_eq!(rt; clerk.entry(1), Some((1, Call::TryRecv, outcome)));
    /// ```
    pub fn call(
        &self,
        rt: &impl Wait,
        clerk: &mut Clerk<T>,
        call: Call<T>,
    ) -> Result<Outcome<T>, OutOfMemory>
        requires { clerk.old.stamp ≡ self.now.stamp }
        ensures entry { IfOk result (λ outcome. (place : ℕ)
            × (clerk.new.entries ≡ clerk.old.entries ++ (place, call, outcome) ∷ [])) }
        ensures stamp { clerk.new.stamp ≡ clerk.old.stamp }
        ensures unchanged { OnErr result (clerk.new ≡ clerk.old) }
    {
        clerk.entries.reserve(1).map_err(|_| OutOfMemory)?;
        let (place, outcome) = self.journal.lock(rt).call(call)?;
        clerk.entries.push_reserved((place, call, outcome));
        Ok(outcome)
    }
}
