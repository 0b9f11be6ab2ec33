//! The caller's rule.
ghost use Rattle.std.specs.Prelude.{List, Some, None};
ghost use Rattle.ruled_channel.specs.State.{State};

use crate::mark::Mark;
use channel_core::Core;
use ruled_mutex::{Join, Split, Unruled};
use std::marker::PhantomData;
use std::snapshot::Snapshot;

/// The caller's rule: over what the channel is, and what each pass knows. It names what it needs of
/// the messages, the closed flag, the counts of senders and receivers, and the capacity. It may
/// speak of a key: of what the channel was made with, which never changes. A rule that doesn't has
/// the key `()`.
///
/// What an outcome or a lesson is to say of the key, it says of the view, which may have it: the
/// first view is made of the key.
///
/// ```
/// struct InTwos;
///
/// impl<T> Protocol<T, ()> for InTwos {
///     type Key = ();
///
///     ghost holds = { λ _ state views. state.capacity ≡ Some 2 };
///
///     ghost first = { λ _. tt };
/// }
///
/// /// Messages below the key, and one receiver at most.
/// struct Below;
///
/// impl Protocol<u64, ()> for Below {
///     type Key = u64;
///
///     ghost holds = { λ bound state views. All (λ message. message < bound) state.messages
///         × (state.receivers ≤ 1) };
///
///     ghost first = { λ bound. tt };
/// }
/// ```
pub trait Protocol<T, V> {
    type Key;

    /// Of the key, of what the channel is, and of each view.
    ghost holds: { Self.Key → State T → List V → Type 0 };

    /// The view of the first pass.
    ghost first: { Self.Key → V };
}

// What the mutex is made with: the caller's key, and the capacity.
#[derive(Drop)]
pub struct ChannelKey<K> {
    pub(crate) caller: Snapshot<K>,
    pub(crate) capacity: Option<usize>,
}

// What the mutex knows of a pass: the caller's view, and the capacity, which a pass that is used up
// knows no more. No value of it is made.
pub struct Known<V> {
    pub view: V,
    pub capacity: Option<Option<usize>>,
}

// The caller's rule, as one over what the lock guards.
pub struct Ruled<P> {
    protocol: PhantomData<P>,
}

impl<T, V, P: Protocol<T, V>> ruled_mutex::Protocol<Core<T, Mark>, Known<V>> for Ruled<P> {
    ghost use Rattle.ruled_channel.specs.Guarded.{guarded, knowing};

    type Key = ChannelKey<P::Key>;

    ghost holds = { λ key. guarded key.capacity (P.holds key.caller.value) };

    ghost first = { λ key. knowing (P.first key.caller.value) (Some key.capacity) };
}

// The caller's split of a view, as one of what the mutex knows: both parts know the capacity.
pub(crate) struct Cut<M> {
    split: PhantomData<M>,
}

impl<V, M: Split<V>> Split<Known<V>> for Cut<M> {
    ghost use Rattle.ruled_channel.specs.Guarded.{knowing};

    ghost left = { λ v. knowing (M.left v.view) v.capacity };

    ghost right = { λ v. knowing (M.right v.view) v.capacity };
}

// The caller's join of two views, likewise. What is left of the pass that is used up knows none.
pub(crate) struct Glue<M> {
    join: PhantomData<M>,
}

impl<V, M: Join<V>> Join<Known<V>> for Glue<M> {
    ghost use Rattle.ruled_channel.specs.Guarded.{knowing};

    ghost both = { λ v w. knowing (M.both v.view w.view) v.capacity };

    ghost spent = { knowing M.spent None };
}

impl<T> Protocol<T, ()> for Unruled {
    type Key = ();

    ghost holds = { λ _ _ _. Unit {0} };

    ghost first = { λ _. tt };
}
