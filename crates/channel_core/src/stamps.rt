//! Numbers that tell channels apart without a lock. Each channel draws one from a [`StampMaker`].

ghost use Rattle.std.specs.Prelude.{◌≡◌, ◌↔◌, IsTrue, Some, None};
ghost use Rattle.channel_core.specs.Stamps.{next_stamp};

use std::marker::Model;

/// The number of a channel, among those of one [`StampMaker`].
///
/// # Examples
///
/// ```
/// let mut maker = StampMaker::new();
/// let (first, second): (Option<Stamp>, Option<Stamp>) = (maker.draw(), maker.draw());
/// assert!(rt; first.is_some());
/// assert!(rt; first != second);
/// ```
#[derive(Clone, Copy, Debug, PartialEq, Eq)]
pub struct Stamp {
    number: u64,
}

/// The number.
impl Model for Stamp {
    ghost use Rattle.std.specs.Prelude.{ℕ};

    ghost Value = { ℕ };

    ghost view = { λ stamp. stamp.number };

    ghost inverse = { λ number. record { number = number } };
}

/// Gives each channel its number. A program keeps one maker for all of its channels.
///
/// Each number is given once, rising. Two makers give the same numbers, so that `same_channel` may
/// answer `true` of two channels that were made with a maker each.
///
/// # Examples
///
/// ```
/// let mut maker = StampMaker::starting_at(u64::MAX);
/// assert!(rt; maker.draw().is_some());
/// assert!(rt; maker.draw().is_none());
/// ```
#[derive(Drop)]
pub struct StampMaker {
    next: Option<u64>,
}

/// The number that comes next, if one is left.
impl Model for StampMaker {
    ghost use Rattle.std.specs.Prelude.{ℕ, Option};

    ghost Value = { Option ℕ };

    ghost view = { λ maker. maker.next };
}

impl StampMaker {
    /// A maker that begins at 0: what a program makes first, and once.
    ///
    /// # Examples
    ///
    /// ```
    /// let mut maker = StampMaker::new();
    /// assert!(rt; maker.draw() == StampMaker::starting_at(0).draw());
    /// ```
    pub fn new() -> StampMaker
        ensures { result ≡ Some 0 }
    {
        StampMaker::starting_at(0)
    }

    /// A maker that begins at `first`.
    pub fn starting_at(first: u64) -> StampMaker
        ensures { result ≡ Some first }
    {
        StampMaker { next: Some(first) }
    }

    /// The next number, or `None` once `u64::MAX` was given.
    pub fn draw(&mut self) -> Option<Stamp>
        ensures given { result ≡ self.old }
        ensures rises { self.new ≡ next_stamp self.old }
    {
        let number = self.next?;
        self.next = number.checked_add(1);
        Some(Stamp { number })
    }

    /// Whether `u64::MAX` was given, so that no number is left.
    ///
    /// # Examples
    ///
    /// ```
    /// let mut maker = StampMaker::starting_at(u64::MAX);
    /// assert!(rt; !maker.is_spent());
    /// assert!(rt; maker.draw().is_some());
    /// assert!(rt; maker.is_spent());
    /// ```
    pub fn is_spent(&self) -> bool
        ensures { IsTrue result ↔ (self.now ≡ None) }
    {
        self.next.is_none()
    }
}
