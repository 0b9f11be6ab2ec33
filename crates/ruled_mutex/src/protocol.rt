//! The caller's rule.
ghost use Rattle.std.specs.Prelude.{List};

use crossbeam_utils::rule::Unruled;

/// The caller's rule: over the value that is guarded, and what each pass knows. It may speak of a
/// key: of what the mutex was made with, which never changes. A rule that doesn't has the key `()`.
///
/// What a step or a lesson is to say of the key, it says of the view, which may have it: the first
/// view is made of the key.
///
/// ```
/// struct AtMost;
///
/// impl Protocol<u64, ()> for AtMost {
///     type Key = u64;
///
///     ghost holds = { λ most value views. value ≤ most };
///
///     ghost first = { λ most. tt };
/// }
/// ```
pub trait Protocol<T, V> {
    type Key;

    /// Of the key, of the value, and of each view.
    ghost holds: { Self.Key → T → List V → Type 0 };

    /// The view that a pass starts with.
    ghost first: { Self.Key → V };
}

impl<T> Protocol<T, ()> for Unruled {
    type Key = ();

    ghost holds = { λ _ _ _. Unit {0} };

    ghost first = { λ _. tt };
}
