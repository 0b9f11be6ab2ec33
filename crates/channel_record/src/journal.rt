//! The locked value of a recorder.
ghost use Rattle.std.specs.Prelude.{◌≡◌, ◌++◌, ◌∷◌, ◌+◌, ◌-◌, ◌^◌, [], min, length, IfOk, OnOk, OnErr};
ghost use Rattle.channel_model.specs.Capacity.{HasPositiveCapacity};
ghost use Rattle.channel_record.specs.Histories.{IsLegalHistory};
ghost use Rattle.channel_record.specs.CallSteps.{outcome_at, after_call};

use crate::calls::{Call, Outcome};
use channel_core::{Core, OutOfMemory, Quiet};
use channel_model::Kind;
use std::alloc::Global;
use std::marker::Model;

/// A channel with all calls that were made on it, in order.
///
/// What it holds is always what its history leaves, and its history is one that the channel could
/// have.
///
/// # Examples
///
/// ```
/// let mut journal = Journal::new(rt.alloc(), Kind::Bounded(1))?;
/// let (place, outcome) = journal.call(Call::TrySend(1u64))?;
/// assert_eq!(rt; place, 0);
/// assert_eq!(rt; outcome, Outcome::TrySent(Ok(())));
/// assert_eq!(rt; journal.history().len(), 1);
/// ```
#[derive(Drop)]
pub struct Journal<T> {
    // The kind that was asked for.
    kind: Kind,
    // The channel itself, as the calls so far have left it. Nobody waits on it.
    core: Core<T, ()>,
    // Every call with its outcome, the oldest first. A call's index is its place.
    history: Vec<(Call<T>, Outcome<T>)>,
    // How many clerks were made, up to the greatest number.
    clerks: usize,
}

/// The kind, the history, and how many clerks were made.
impl<T> Model for Journal<T> {
    ghost use Rattle.channel_record.specs.Histories.{JournalView, IsKept, past_of};

    ghost Value = { JournalView T };

    ghost view = { λ journal. record {
      kind = journal.kind;
      history = journal.history.items;
      clerks = journal.clerks;
    } };

    ghost invariant = { λ journal.
        IsKept journal.kind (past_of journal.history.items) journal.core };
}

// Makes a call, as one step of a channel on which nobody waits.
fn step<T: Copy>(core: &mut Core<T, ()>, call: Call<T>) -> Result<Outcome<T>, OutOfMemory>
    ensures outcome { IfOk result (λ outcome. outcome ≡ outcome_at core.old call) }
    ensures after { OnOk result (core.new ≡ after_call call core.old) }
    ensures unchanged { OnErr result (core.new ≡ core.old) }
{
    match call {
        Call::TrySend(message) => match core.try_send(message, &mut Quiet) {
            Ok(sent) => Ok(Outcome::TrySent(sent)),
            Err(_) => Err(OutOfMemory),
        },
        Call::ForceSend(message) => match core.force_send(message, &mut Quiet) {
            Ok(forced) => Ok(Outcome::Forced(forced)),
            Err(_) => Err(OutOfMemory),
        },
        Call::TryRecv => Ok(Outcome::Received(core.try_recv(&mut Quiet))),
        Call::Close => Ok(Outcome::Flag(core.close(&mut Quiet))),
        Call::IsClosed => Ok(Outcome::Flag(core.is_closed())),
        Call::Len => Ok(Outcome::Count(core.len())),
    }
}

impl<T: Copy> Journal<T> {
    /// A new channel of this kind, on which nothing was called.
    pub fn new(alloc: Global, kind: Kind) -> Result<Journal<T>, OutOfMemory>
        requires { HasPositiveCapacity kind }
        ensures { IfOk result (λ journal.
            journal ≡ record { kind = kind; history = []; clerks = 0 }) }
    {
        let core = match kind {
            Kind::Bounded(cap) => Core::bounded(alloc, cap)?,
            Kind::Unbounded => Core::unbounded(alloc),
        };
        Ok(Journal {
            kind,
            core,
            history: Vec::new(alloc),
            clerks: 0,
        })
    }

    /// All calls with their outcomes, the oldest first.
    pub fn history(&self) -> &[(Call<T>, Outcome<T>)]
        ensures history { result.now ≡ self.now.history }
        ensures legal { IsLegalHistory self.now.kind result.now }
    {
        self.history.as_slice()
    }

    /// Makes a call and records it. The answer is its place in the history, and what came of it.
    ///
    /// Room is taken first. If memory is refused nothing was called and nothing recorded.
    pub fn call(&mut self, call: Call<T>) -> Result<(usize, Outcome<T>), OutOfMemory>
        ensures place { IfOk result (λ made. made.0 ≡ length self.old.history) }
        ensures recorded { IfOk result (λ made.
            self.new ≡ record self.old { history = self.old.history ++ (call, made.1) ∷ [] }) }
        ensures unchanged { OnErr result (self.new ≡ self.old) }
    {
        self.history.reserve(1).map_err(|_| OutOfMemory)?;
        let outcome = step(&mut self.core, call)?;
        let place = self.history.len();
        self.history.push_reserved((call, outcome));
        Ok((place, outcome))
    }

    // One clerk more, up to the greatest number.
    pub(crate) fn count_clerk(&mut self)
        ensures { self.new ≡ record self.old { clerks = min (self.old.clerks + 1) (2 ^ 64 - 1) } }
    {
        self.clerks = self.clerks.saturating_add(1);
    }

    pub(crate) fn kind(&self) -> Kind
        ensures { result ≡ self.now.kind }
    {
        self.kind
    }

    pub(crate) fn clerks(&self) -> usize
        ensures { result ≡ self.now.clerks }
    {
        self.clerks
    }

    pub(crate) fn into_history(self) -> Vec<(Call<T>, Outcome<T>)>
        ensures history { result.items ≡ self.history }
        ensures legal { IsLegalHistory self.kind result.items }
    {
        let Journal {
            kind: _,
            core: _,
            history,
            clerks: _,
        } = self;
        history
    }
}
