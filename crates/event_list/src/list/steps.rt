//! How many entries were looked up.
//!
//! A caller holds [`Steps`], and the calls that reach the entries take the [`Lookups`] inside it. A
//! caller opens `Steps` on any blank. `Lookups` are opened and taken out of `Steps` in `list` and
//! its modules alone, so that where the entries are worked on every look-up is counted on the
//! ledger that was handed in: there is no other in reach.
ghost use Rattle.std.specs.Prelude.{◌≡◌, ◌+◌};
ghost use Rattle.event_list.specs.Opens.{Opens};

use std::marker::Model;
use std::sync::ledger::{Blank, Book, Ledger, Share};

/// How many entries were looked up. A contract sees it as that number.
///
/// It is the book of a ledger and takes no bytes, so counting costs nothing when a program runs.
///
/// # Examples
///
/// ```
/// fn counts<L: Ledger>(alloc: Global, blank: Blank) -> Option<bool>
///     requires { Opens blank.name blank.parts L.name L.parts }
/// {
///     is_told_at_last(alloc, &mut Steps::<L>::of(blank))
/// }
///
/// assert_eq!(rt; counts::<Brand>(rt.alloc(), Blank::new(1)), Some(false));
/// ```
#[derive(Drop)]
pub struct Steps<L: Ledger> {
    // What the calls on the entries raise.
    pub(super) lookups: Lookups<L>,
}

impl<L: Ledger> Model for Steps<L> {
    ghost use Rattle.std.specs.Prelude.{ℕ};

    ghost Value = { ℕ };

    ghost view = { λ steps. steps.lookups };
}

impl<L: Ledger> Steps<L> {
    /// No steps yet, on the ledger that this blank opens.
    pub fn of(blank: Blank) -> Self
        requires { Opens blank.name blank.parts L.name L.parts }
        ensures { result ≡ 0 }
    {
        Steps {
            lookups: Lookups::of(blank),
        }
    }
}

/// The number of look-ups, as what works on the entries sees it.
#[derive(Drop)]
pub(crate) struct Lookups<L: Ledger> {
    book: Book<L>,
    share: Share<L>,
}

impl<L: Ledger> Model for Lookups<L> {
    ghost use Rattle.std.specs.Prelude.{ℕ, ◌<◌};

    ghost Value = { ℕ };

    ghost view = { λ lookups. lookups.book.total };

    // Without a part of the ledger nothing could be added.
    ghost invariant = { λ lookups. 0 < lookups.share.parts };
}

impl<L: Ledger> Lookups<L> {
    // None yet, on the ledger that this blank opens.
    fn of(blank: Blank) -> Self
        requires { Opens blank.name blank.parts L.name L.parts }
        ensures { result ≡ 0 }
    {
        let (book, share) = blank.open::<L>();
        Lookups { book, share }
    }

    /// One more look-up.
    pub(crate) fn raise(&mut self)
        ensures { self.new ≡ self.old + 1 }
    {
        self.book.add(&mut self.share, 1);
    }
}
