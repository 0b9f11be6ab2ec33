//! What is rung for those newly told.
ghost use Rattle.std.specs.Prelude.{◌≡◌};

/// What is rung with the payload of each newly told entry.
///
/// Each bell says by `rings` how one ring may change it, so that a caller knows from a list's
/// contracts which payloads it was rung with, in which order.
///
/// # Examples
///
/// ```
/// #[derive(Drop)]
/// struct Last(Option<u64>);
///
/// impl Bell<u64> for Last {
///     ghost rings = { λ _ payload after. after.0 ≡ Some payload };
///
///     fn ring(&mut self, payload: u64) {
///         self.0 = Some(payload);
///     }
/// }
///
/// let mut bell = Last(None);
/// bell.ring(10);
/// assert_eq!(rt; bell.0, Some(10));
/// ```
pub trait Bell<W> {
    /// How one ring with a payload may change the bell.
    ghost rings: { Self → W → Self → Type 0 };

    /// Rings with the payload of an entry that has just been told.
    fn ring(&mut self, payload: W)
        ensures { rings self.old payload self.new };
}

/// A bell that does nothing, for a list whose waiters are looked after by its owner.
///
/// # Examples
///
/// ```
/// let mut list = WaitList::new(rt.alloc());
/// let ticket = list.listen(()).ok().expect(&rt, "memory");
/// assert!(rt; list.tell_one(&mut Quiet));
/// assert_eq!(rt; list.remove(ticket), Some(true));
/// ```
#[derive(Drop)]
pub struct Quiet;

impl<W: Drop> Bell<W> for Quiet {
    ghost rings = { λ before _ after. after ≡ before };

    fn ring(&mut self, payload: W) {
        let _ = payload;
    }
}
