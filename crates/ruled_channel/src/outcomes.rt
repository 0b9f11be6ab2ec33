//! What each answer tells.
ghost use Rattle.std.specs.Prelude.{◌≡◌, Bool, Option};
ghost use Rattle.ruled_channel.specs.State.{State};
ghost use Rattle.ruled_channel.specs.Guarded.{at_capacity, forced_or_kept, kept, received_many_or_kept, received_or_kept, sent_many_or_kept, sent_or_kept, shut, turned};

use crate::mark::Mark;
use crate::protocol::{Known, Protocol};
use channel_core::Core;
use ruled_mutex::{Outcome, Unruled};
use std::marker::PhantomData;

/// What a send tells: of the view before, the message and the view after.
///
/// ```
/// struct Same;
///
/// impl<T, V> Sent<T, V> for Same {
///     ghost then = { λ v m w. w ≡ v };
/// }
/// ```
pub trait Sent<T, V> {
    ghost then: { V → T → V → Type 0 };
}

/// What a send tells that was forced: of the view before, the message that it displaced, if it did,
/// its own message and the view after.
///
/// ```
/// impl<T, V> Forced<T, V> for Same {
///     ghost then = { λ v displaced m w. w ≡ v };
/// }
/// ```
pub trait Forced<T, V> {
    ghost then: { V → Option T → T → V → Type 0 };
}

/// What a receive tells: of the view before, the message and the view after.
///
/// ```
/// impl<T, V> Received<T, V> for Same {
///     ghost then = { λ v m w. w ≡ v };
/// }
/// ```
pub trait Received<T, V> {
    ghost then: { V → T → V → Type 0 };
}

/// What a receive tells that finds the channel closed and empty: of the view before and after.
///
/// ```
/// impl<V> AtEnd<V> for Same {
///     ghost then = { λ v w. w ≡ v };
/// }
/// ```
pub trait AtEnd<V> {
    ghost then: { V → V → Type 0 };
}

/// What a step tells that may close the channel: of the view before, whether it did, and the view
/// after.
///
/// ```
/// impl<V> HasClosed<V> for Same {
///     ghost then = { λ v has_closed w. w ≡ v };
/// }
/// ```
pub trait HasClosed<V> {
    ghost then: { V → Bool → V → Type 0 };
}

/// What it tells that one more sender or receiver is counted: of the view before and after.
///
/// ```
/// impl<V> Counted<V> for Same {
///     ghost then = { λ v w. w ≡ v };
/// }
/// ```
pub trait Counted<V> {
    ghost then: { V → V → Type 0 };
}

/// What a pass learns from the rule at one moment: of its view, and of what the channel is.
///
/// ```
/// impl<T, V> Lesson<T, V> for Same {
///     ghost fact = { λ v state. Unit {0} };
/// }
/// ```
pub trait Lesson<T, V> {
    ghost fact: { V → State T → Type 0 };
}

impl<T, V> Sent<T, V> for Unruled {
    ghost then = { λ _ _ _. Unit {0} };
}

impl<T, V> Forced<T, V> for Unruled {
    ghost then = { λ _ _ _ _. Unit {0} };
}

impl<T, V> Received<T, V> for Unruled {
    ghost then = { λ _ _ _. Unit {0} };
}

impl<V> AtEnd<V> for Unruled {
    ghost then = { λ _ _. Unit {0} };
}

impl<V> HasClosed<V> for Unruled {
    ghost then = { λ _ _ _. Unit {0} };
}

impl<V> Counted<V> for Unruled {
    ghost then = { λ _ _. Unit {0} };
}

impl<T, V> Lesson<T, V> for Unruled {
    ghost fact = { λ _ _. Unit {0} };
}

/// That the rule held of what there was.
pub(crate) struct Seen<P> {
    protocol: PhantomData<P>,
}

impl<T, V, P: Protocol<T, V>> Lesson<T, V> for Seen<P> {
    ghost use Rattle.ruled_channel.specs.Rule.{Fitted};

    ghost fact = { Fitted P.holds };
}

// An outcome of what the lock guards, and that the capacity there is the one that the pass knows.
pub(crate) struct AtCapacity<O> {
    outcome: PhantomData<O>,
}

impl<T, V, O: Outcome<Core<T, Mark>, V>> Outcome<Core<T, Mark>, Known<V>> for AtCapacity<O> {
    ghost then = { at_capacity O.then };
}

// The same, of what the lock guards.

pub(crate) struct SentOrKept<M, L> {
    tells: PhantomData<(M, L)>,
}

impl<T, V, M: Sent<T, V>, L: Lesson<T, V>> Outcome<Core<T, Mark>, V> for SentOrKept<M, L> {
    ghost then = { sent_or_kept M.then L.fact };
}

pub(crate) struct SentManyOrKept<M, L> {
    tells: PhantomData<(M, L)>,
}

impl<T, V, M: Sent<T, V>, L: Lesson<T, V>> Outcome<Core<T, Mark>, V> for SentManyOrKept<M, L> {
    ghost then = { sent_many_or_kept M.then L.fact };
}

pub(crate) struct ForcedOrKept<M, L> {
    tells: PhantomData<(M, L)>,
}

impl<T, V, M: Forced<T, V>, L: Lesson<T, V>> Outcome<Core<T, Mark>, V> for ForcedOrKept<M, L> {
    ghost then = { forced_or_kept M.then L.fact };
}

pub(crate) struct ReceivedOrKept<M, E, L> {
    tells: PhantomData<(M, E, L)>,
}

impl<T, V, M, E, L> Outcome<Core<T, Mark>, V> for ReceivedOrKept<M, E, L>
where
    M: Received<T, V>,
    E: AtEnd<V>,
    L: Lesson<T, V>,
{
    ghost then = { received_or_kept M.then E.then L.fact };
}

pub(crate) struct ReceivedManyOrKept<M, E, L> {
    tells: PhantomData<(M, E, L)>,
}

impl<T, V, M, E, L> Outcome<Core<T, Mark>, V> for ReceivedManyOrKept<M, E, L>
where
    M: Received<T, V>,
    E: AtEnd<V>,
    L: Lesson<T, V>,
{
    ghost then = { received_many_or_kept M.then E.then L.fact };
}

pub(crate) struct Turned<M> {
    counted: PhantomData<M>,
}

impl<T, V, M: Counted<V>> Outcome<Core<T, Mark>, V> for Turned<M> {
    ghost then = { turned M.then };
}

pub(crate) struct Shut<M> {
    closed: PhantomData<M>,
}

impl<T, V, M: HasClosed<V>> Outcome<Core<T, Mark>, V> for Shut<M> {
    ghost then = { shut M.then };
}

pub(crate) struct Kept<L> {
    learned: PhantomData<L>,
}

impl<T, V, L: Lesson<T, V>> Outcome<Core<T, Mark>, V> for Kept<L> {
    ghost then = { kept L.fact };
}
