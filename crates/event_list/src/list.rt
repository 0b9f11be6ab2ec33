//! The waiting list: its public calls.
//!
//! The work is done in `links`, on the ledger that a counted call is given. A call of the plain
//! name opens a ledger of its own. Without memory a list is a pointer, and a call that looks for an
//! entry counts one look-up and finds none.
ghost use Rattle.std.specs.Prelude.{◌≡◌, ◌+◌, ◌<◌, ◌≤◌, ◌↔◌, length, take, None, Ok, is_some, IfErr, IfSome, IsSomeAnd, IsTrue, OnErr, OnOk, slice_get};
ghost use Rattle.std.specs.Option.{option_copied};
ghost use Rattle.event_list.specs.Keys.{AreDifferent};
ghost use Rattle.event_list.specs.Waiting.{nobody, keys, told_count, payloads, told_flag, payload_in};
ghost use Rattle.event_list.specs.Calls.{IsEntryAt, Listens, WaitsAgain, Renews, Removes, Unregisters, TellsOne, TellsAll, Cancels, Withdraws};
ghost use Rattle.event_list.specs.Opens.{Opens};

pub(crate) mod steps;

use crate::bell::Bell;
use crate::entries::EntryState;
use crate::links::Links;
use crate::ticket::Ticket;
use std::alloc::Global;
use std::marker::{Brand, Model};
use std::sync::ledger::{Blank, Ledger};
use steps::Steps;

/// There was no memory for another entry. It hands the payload back.
///
/// # Examples
///
/// ```
/// let NoRoom(payload) = NoRoom(10);
/// assert_eq!(rt; payload, 10);
/// ```
#[derive(Drop)]
pub struct NoRoom<W>(pub W);

/// Those who wait, in order of arrival; the first of them are told.
///
/// The entries lie in a slab, each with the keys of the one before and the one behind it. So each
/// call looks up a fixed number of them, however many wait; `tell_all` looks up one for each that
/// it tells. The counted calls say how many: they have the contracts of the calls of the plain
/// names, which count on a ledger of their own. Each counts on the ledger that it is handed, at
/// most that number and at least one if it reaches an entry.
///
/// A list takes memory with the first who waits. Who leaves last gives it back, if there is room
/// for more than 64.
///
/// `renew`, `unregister` and `withdraw` are `again`, `remove` and `cancel` that give back the
/// payload which these drop: for payloads whose drop runs a caller's code, as that of a waker does.
///
/// # Examples
///
/// ```
/// let mut list = WaitList::new(rt.alloc());
/// let mut bell = Last(None);
/// let first = list.listen(10).ok().expect(&rt, "memory");
/// let second = list.listen(11).ok().expect(&rt, "memory");
/// list.tell_one(&mut bell);
/// assert_eq!(rt; bell.0, Some(10));
///
/// // The notice goes on.
/// list.cancel(first, &mut bell);
/// assert_eq!(rt; bell.0, Some(11));
/// assert_eq!(rt; list.remove(second), Some(true));
/// ```
#[derive(Drop)]
pub struct WaitList<W> {
    // The entries, and all work on them. Nothing before somebody waits.
    links: Option<Box<Links<W>>>,
    // Where their memory comes from.
    alloc: Global,
}

impl<W> Model for WaitList<W> {
    ghost use Rattle.event_list.specs.Waiting.{Waiting};

    ghost Value = { Waiting W };

    ghost use Rattle.event_list.specs.Chain.{kept_list};

    ghost view = { λ list. kept_list list.links };
}

impl<W: Drop> WaitList<W> {
    /// A list where nobody waits. It takes no memory.
    ///
    /// # Examples
    ///
    /// ```
    /// let list: WaitList<u64> = WaitList::new(rt.alloc());
    /// assert_eq!(rt; list.len(), 0);
    /// assert_eq!(rt; list.told(), 0);
    /// ```
    pub fn new(alloc: Global) -> Self
        ensures { result ≡ nobody }
    {
        WaitList { links: None, alloc }
    }

    /// A new entry goes last, untold, under a key that isn't in the list.
    ///
    /// # Examples
    ///
    /// ```
    /// let mut list = WaitList::new(rt.alloc());
    /// let ticket = list.listen(10).ok().expect(&rt, "memory");
    /// assert!(rt; list.contains(&ticket));
    /// assert_eq!(rt; list.is_told(&ticket), Some(false));
    /// list.remove(ticket);
    /// ```
    pub fn listen(&mut self, payload: W) -> Result<Ticket, NoRoom<W>>
        ensures { Listens self.old payload result self.new }
    {
        self.listen_from::<Brand>(payload, Blank::new(1))
    }

    /// `listen`, which puts the new ticket in the place of one whose entry isn't in the list, or of
    /// none.
    ///
    /// # Examples
    ///
    /// ```
    /// let mut list = WaitList::new(rt.alloc());
    /// let mut ticket = None;
    /// assert!(rt; list.listen_anew(&mut ticket, 10).is_ok());
    /// if let Some(ticket) = ticket {
    ///     assert_eq!(rt; list.remove(ticket), Some(false));
    /// }
    /// ```
    #[inline(always)]
    pub fn listen_anew(&mut self, ticket: &mut Option<Ticket>, payload: W) -> Result<(), NoRoom<W>>
        requires gone { IfSome ticket.old (λ key. told_flag self.old key ≡ None) }
        ensures listens { OnOk result
            (IsSomeAnd ticket.new (λ key. Listens self.old payload (Ok key) self.new)) }
        ensures handed_back { IfErr result (λ error. error.0 ≡ payload) }
        ensures unchanged { OnErr result ((self.new ≡ self.old) × (ticket.new ≡ ticket.old)) }
    {
        let new = self.listen(payload)?;
        if let Some(gone) = ticket.replace(new) {
            let Ticket { key: _ } = gone;
        }
        Ok(())
    }

    /// The entry waits again with this payload. The answer is whether it is in the list.
    ///
    /// # Examples
    ///
    /// ```
    /// let mut list = WaitList::new(rt.alloc());
    /// let mut bell = Last(None);
    /// let first = list.listen(10).ok().expect(&rt, "memory");
    /// let second = list.listen(11).ok().expect(&rt, "memory");
    /// list.tell_one(&mut bell);
    ///
    /// // It was told, so it goes behind the second one.
    /// assert!(rt; list.again(&first, 12));
    /// list.tell_one(&mut bell);
    /// assert_eq!(rt; bell.0, Some(11));
    /// assert_eq!(rt; list.remove(second), Some(true));
    /// assert_eq!(rt; list.remove(first), Some(false));
    /// ```
    pub fn again(&mut self, ticket: &Ticket, payload: W) -> bool
        ensures { WaitsAgain self.old ticket.now payload result self.new }
    {
        self.renew(ticket, payload).is_ok()
    }

    /// Tells the longest waiting untold entry. The answer is whether there was one.
    ///
    /// # Examples
    ///
    /// ```
    /// let mut list = WaitList::new(rt.alloc());
    /// let mut bell = Last(None);
    /// assert!(rt; !list.tell_one(&mut bell));
    ///
    /// let first = list.listen(10).ok().expect(&rt, "memory");
    /// assert!(rt; list.tell_one(&mut bell));
    /// assert_eq!(rt; bell.0, Some(10));
    /// assert_eq!(rt; list.first_told(), Some(first.key()));
    /// list.remove(first);
    /// ```
    #[inline(always)]
    pub fn tell_one<B: Bell<W>>(&mut self, bell: &mut B) -> bool
        ensures { TellsOne B.rings self.old bell.old result self.new bell.new }
    {
        self.has_untold() && self.tell_one_from::<B, Brand>(bell, Blank::new(1))
    }

    /// Tells every untold entry, and answers how many there were.
    ///
    /// # Examples
    ///
    /// ```
    /// let mut list = WaitList::new(rt.alloc());
    /// let mut bell = Last(None);
    /// let first = list.listen(10).ok().expect(&rt, "memory");
    /// let second = list.listen(11).ok().expect(&rt, "memory");
    /// assert_eq!(rt; list.tell_all(&mut bell), 2);
    /// assert_eq!(rt; bell.0, Some(11));
    /// assert_eq!(rt; list.remove(first), Some(true));
    /// assert_eq!(rt; list.remove(second), Some(true));
    /// ```
    #[inline(always)]
    pub fn tell_all<B: Bell<W>>(&mut self, bell: &mut B) -> usize
        ensures { TellsAll B.rings self.old bell.old result self.new bell.new }
    {
        if !self.has_untold() {
            return 0;
        }
        self.tell_all_from::<B, Brand>(bell, Blank::new(1))
    }

    /// The entry leaves. The answer is whether it was told, or nothing if it isn't in the list.
    ///
    /// # Examples
    ///
    /// ```
    /// let mut list = WaitList::new(rt.alloc());
    /// let ticket = list.listen(10).ok().expect(&rt, "memory");
    /// list.tell_one(&mut Quiet);
    /// assert_eq!(rt; list.remove(ticket), Some(true));
    /// assert_eq!(rt; list.len(), 0);
    /// ```
    pub fn remove(&mut self, ticket: Ticket) -> Option<bool>
        ensures { Removes self.old ticket result self.new }
    {
        Some(self.unregister(ticket)?.is_told())
    }

    /// The entry leaves, and if it was told, one is told in its place.
    ///
    /// # Examples
    ///
    /// ```
    /// let mut list = WaitList::new(rt.alloc());
    /// let mut bell = Last(None);
    /// let first = list.listen(10).ok().expect(&rt, "memory");
    /// let second = list.listen(11).ok().expect(&rt, "memory");
    /// list.tell_one(&mut bell);
    /// list.cancel(first, &mut bell);
    /// assert_eq!(rt; bell.0, Some(11));
    /// list.cancel(second, &mut bell);
    /// ```
    pub fn cancel<B: Bell<W>>(&mut self, ticket: Ticket, bell: &mut B)
        ensures { Cancels B.rings self.old ticket bell.old self.new bell.new }
    {
        self.withdraw(ticket, bell);
    }

    /// `again`, which gives the payload that an untold entry had. If the entry isn't in the list,
    /// `payload` comes back.
    ///
    /// # Examples
    ///
    /// ```
    /// let mut list = WaitList::new(rt.alloc());
    /// let ticket = list.listen(10).ok().expect(&rt, "memory");
    /// assert_eq!(rt; list.renew(&ticket, 11), Ok(Some(10)));
    ///
    /// // The bell has the payload of one that is told.
    /// list.tell_one(&mut Quiet);
    /// assert_eq!(rt; list.renew(&ticket, 12), Ok(None));
    /// list.remove(ticket);
    /// ```
    pub fn renew(&mut self, ticket: &Ticket, payload: W) -> Result<Option<W>, W>
        ensures { Renews self.old ticket.now payload result self.new }
    {
        self.renew_from::<Brand>(ticket, payload, Blank::new(1))
    }

    /// `remove`, which gives the entry: told, or untold with its payload.
    ///
    /// # Examples
    ///
    /// ```
    /// let mut list = WaitList::new(rt.alloc());
    /// let ticket = list.listen(10).ok().expect(&rt, "memory");
    /// let entry = list.unregister(ticket).expect(&rt, "an entry");
    /// assert_eq!(rt; entry.into_payload(), Some(10));
    /// ```
    pub fn unregister(&mut self, ticket: Ticket) -> Option<EntryState<W>>
        ensures { Unregisters self.old ticket result self.new }
    {
        self.unregister_from::<Brand>(ticket, Blank::new(1))
    }

    /// `cancel`, which gives the payload of an untold entry.
    ///
    /// # Examples
    ///
    /// ```
    /// let mut list = WaitList::new(rt.alloc());
    /// let mut bell = Last(None);
    /// let first = list.listen(10).ok().expect(&rt, "memory");
    /// let second = list.listen(11).ok().expect(&rt, "memory");
    /// let third = list.listen(12).ok().expect(&rt, "memory");
    /// assert_eq!(rt; list.withdraw(third, &mut bell), Some(12));
    /// assert_eq!(rt; bell.0, None);
    ///
    /// // The notice goes on, and the bell has both payloads.
    /// list.tell_one(&mut bell);
    /// assert_eq!(rt; list.withdraw(first, &mut bell), None);
    /// assert_eq!(rt; bell.0, Some(11));
    /// assert_eq!(rt; list.remove(second), Some(true));
    /// ```
    pub fn withdraw<B: Bell<W>>(&mut self, ticket: Ticket, bell: &mut B) -> Option<W>
        ensures { Withdraws B.rings self.old ticket bell.old result self.new bell.new }
    {
        let entry = self.unregister(ticket)?;
        if entry.is_told() {
            self.tell_one(bell);
        }
        entry.into_payload()
    }

    /// `listen`, which counts its look-ups: at most 6.
    ///
    /// # Examples
    ///
    /// ```
    /// fn is_told_at_last<L: Ledger>(alloc: Global, steps: &mut Steps<L>) -> Option<bool> {
    ///     let mut list = WaitList::new(alloc);
    ///     let ticket = list.listen_counted(10, steps).ok()?;
    ///     list.tell_one_counted(&mut Quiet, steps);
    ///     list.again_counted(&ticket, 11, steps);
    ///     list.tell_all_counted(&mut Quiet, steps);
    ///     list.cancel_counted(ticket, &mut Quiet, steps);
    ///     let ticket = list.listen_counted(12, steps).ok()?;
    ///     list.remove_counted(ticket, steps)
    /// }
    /// ```
    pub fn listen_counted<L: Ledger>(
        &mut self,
        payload: W,
        steps: &mut Steps<L>,
    ) -> Result<Ticket, NoRoom<W>>
        ensures does { Listens self.old payload result self.new }
        ensures counted { steps.new ≤ steps.old + 6 }
        ensures on_this_ledger { steps.old < steps.new }
    {
        if self.links.is_none() {
            self.links = Box::new(self.alloc, Links::new(self.alloc)).ok();
        }
        let Some(links) = &mut self.links else {
            steps.lookups.raise();
            return Err(NoRoom(payload));
        };
        links.listen(payload, &mut steps.lookups)
    }

    /// `again`, which counts its look-ups: at most 6.
    pub fn again_counted<L: Ledger>(
        &mut self,
        ticket: &Ticket,
        payload: W,
        steps: &mut Steps<L>,
    ) -> bool
        ensures does { WaitsAgain self.old ticket.now payload result self.new }
        ensures counted { steps.new ≤ steps.old + 6 }
        ensures on_this_ledger { steps.old < steps.new }
    {
        self.renew_counted(ticket, payload, steps).is_ok()
    }

    /// `tell_one`, which counts its look-ups: one if one is told, and else none.
    pub fn tell_one_counted<B: Bell<W>, L: Ledger>(
        &mut self,
        bell: &mut B,
        steps: &mut Steps<L>,
    ) -> bool
        ensures does { TellsOne B.rings self.old bell.old result self.new bell.new }
        ensures counted { steps.new ≡ steps.old + length (take 1 (payloads self.old)) }
    {
        match &mut self.links {
            Some(links) => links.tell_one(bell, &mut steps.lookups),
            None => false,
        }
    }

    /// `tell_all`, which counts its look-ups: one for each untold entry.
    pub fn tell_all_counted<B: Bell<W>, L: Ledger>(
        &mut self,
        bell: &mut B,
        steps: &mut Steps<L>,
    ) -> usize
        ensures does { TellsAll B.rings self.old bell.old result self.new bell.new }
        ensures counted { steps.new ≡ steps.old + length (payloads self.old) }
    {
        match &mut self.links {
            Some(links) => links.tell_all(bell, &mut steps.lookups),
            None => 0,
        }
    }

    /// `remove`, which counts its look-ups: at most 6.
    pub fn remove_counted<L: Ledger>(
        &mut self,
        ticket: Ticket,
        steps: &mut Steps<L>,
    ) -> Option<bool>
        ensures does { Removes self.old ticket result self.new }
        ensures counted { steps.new ≤ steps.old + 6 }
        ensures on_this_ledger { steps.old < steps.new }
    {
        Some(self.unregister_counted(ticket, steps)?.is_told())
    }

    /// `cancel`, which counts its look-ups: at most 12.
    pub fn cancel_counted<B: Bell<W>, L: Ledger>(
        &mut self,
        ticket: Ticket,
        bell: &mut B,
        steps: &mut Steps<L>,
    )
        ensures does { Cancels B.rings self.old ticket bell.old self.new bell.new }
        ensures counted { steps.new ≤ steps.old + 12 }
        ensures on_this_ledger { steps.old < steps.new }
    {
        if self.remove_counted(ticket, steps) == Some(true) {
            self.tell_one_counted(bell, steps);
        }
    }

    /// How many wait. All have different keys.
    pub fn len(&self) -> usize
        ensures count { result ≡ length (keys self.now) }
        ensures different { AreDifferent (keys self.now) }
    {
        match &self.links {
            Some(links) => links.len(),
            None => 0,
        }
    }

    /// How many are told.
    pub fn told(&self) -> usize
        ensures { result ≡ told_count self.now }
    {
        match &self.links {
            Some(links) => links.told(),
            None => 0,
        }
    }

    /// Whether the ticket's entry is in the list.
    pub fn contains(&self, ticket: &Ticket) -> bool
        ensures { result ≡ is_some (told_flag self.now ticket.now) }
    {
        self.is_told(ticket).is_some()
    }

    /// Whether the ticket's entry is told, or nothing if it isn't in the list.
    pub fn is_told(&self, ticket: &Ticket) -> Option<bool>
        ensures { result ≡ told_flag self.now ticket.now }
    {
        Some(self.entry_from::<Brand>(ticket, Blank::new(1))?.is_told())
    }

    /// The payload of the ticket's entry, or nothing if it is told or isn't in the list.
    ///
    /// # Examples
    ///
    /// ```
    /// let mut list = WaitList::new(rt.alloc());
    /// let ticket = list.listen(10).ok().expect(&rt, "memory");
    /// assert_eq!(rt; list.payload(&ticket).copied(), Some(10));
    ///
    /// list.tell_one(&mut Quiet);
    /// assert_eq!(rt; list.payload(&ticket).copied(), None);
    /// list.remove(ticket);
    /// ```
    pub fn payload(&self, ticket: &Ticket) -> Option<&W>
        ensures { option_copied result ≡ payload_in ticket.now self.now.untold }
    {
        self.entry_from::<Brand>(ticket, Blank::new(1))?.payload()
    }

    /// The key of the first entry, if somebody is told.
    pub fn first_told(&self) -> Option<usize>
        ensures { result ≡ slice_get self.now.told 0 }
    {
        self.links.as_ref()?.first_told()
    }
}

// What several calls have in common.
impl<W: Drop> WaitList<W> {
    /// Whether somebody is untold.
    #[inline(always)]
    fn has_untold(&self) -> bool
        ensures answer { IsTrue result ↔ (0 < length (payloads self.now)) }
    {
        match &self.links {
            Some(links) => links.has_untold(),
            None => false,
        }
    }

    /// `renew`, which counts its look-ups: at most 6.
    fn renew_counted<L: Ledger>(
        &mut self,
        ticket: &Ticket,
        payload: W,
        steps: &mut Steps<L>,
    ) -> Result<Option<W>, W>
        ensures does { Renews self.old ticket.now payload result self.new }
        ensures counted { (steps.old < steps.new) × (steps.new ≤ steps.old + 6) }
    {
        let Some(links) = &mut self.links else {
            steps.lookups.raise();
            return Err(payload);
        };
        links.renew(ticket, payload, &mut steps.lookups)
    }

    /// `unregister`, which counts its look-ups: at most 6.
    fn unregister_counted<L: Ledger>(
        &mut self,
        ticket: Ticket,
        steps: &mut Steps<L>,
    ) -> Option<EntryState<W>>
        ensures does { Unregisters self.old ticket result self.new }
        ensures counted { (steps.old < steps.new) × (steps.new ≤ steps.old + 6) }
    {
        let Ticket { key } = ticket;
        let Some(links) = &mut self.links else {
            steps.lookups.raise();
            return None;
        };
        let entry = links.unregister(key, &mut steps.lookups);
        self.give_room_back();
        entry
    }

    /// Gives the memory back of a list in which nobody waits any more, if it is more than is kept.
    fn give_room_back(&mut self)
        ensures { self.new ≡ self.old }
    {
        let Some(links) = &self.links else {
            return;
        };
        if links.is_left() {
            self.links = None;
        }
    }
}

// What the calls of the plain names run, on the ledger of a blank. They stand apart since a ledger
// gets its name when a call passes a blank on.
impl<W: Drop> WaitList<W> {
    fn listen_from<L: Ledger>(&mut self, payload: W, blank: Blank) -> Result<Ticket, NoRoom<W>>
        requires { Opens blank.name blank.parts L.name L.parts }
        ensures { Listens self.old payload result self.new }
    {
        self.listen_counted(payload, &mut Steps::<L>::of(blank))
    }

    fn renew_from<L: Ledger>(
        &mut self,
        ticket: &Ticket,
        payload: W,
        blank: Blank,
    ) -> Result<Option<W>, W>
        requires { Opens blank.name blank.parts L.name L.parts }
        ensures { Renews self.old ticket.now payload result self.new }
    {
        self.renew_counted(ticket, payload, &mut Steps::<L>::of(blank))
    }

    fn unregister_from<L: Ledger>(&mut self, ticket: Ticket, blank: Blank) -> Option<EntryState<W>>
        requires { Opens blank.name blank.parts L.name L.parts }
        ensures { Unregisters self.old ticket result self.new }
    {
        self.unregister_counted(ticket, &mut Steps::<L>::of(blank))
    }

    fn tell_one_from<B: Bell<W>, L: Ledger>(&mut self, bell: &mut B, blank: Blank) -> bool
        requires { Opens blank.name blank.parts L.name L.parts }
        ensures { TellsOne B.rings self.old bell.old result self.new bell.new }
    {
        self.tell_one_counted(bell, &mut Steps::<L>::of(blank))
    }

    fn tell_all_from<B: Bell<W>, L: Ledger>(&mut self, bell: &mut B, blank: Blank) -> usize
        requires { Opens blank.name blank.parts L.name L.parts }
        ensures { TellsAll B.rings self.old bell.old result self.new bell.new }
    {
        self.tell_all_counted(bell, &mut Steps::<L>::of(blank))
    }

    fn entry_from<L: Ledger>(&self, ticket: &Ticket, blank: Blank) -> Option<&EntryState<W>>
        requires { Opens blank.name blank.parts L.name L.parts }
        ensures { IsEntryAt self.now ticket.now (option_copied result) }
    {
        self.links
            .as_ref()?
            .entry(ticket, &mut Steps::<L>::of(blank).lookups)
    }
}
