//! What names an entry of a waiting list.
ghost use Rattle.std.specs.Prelude.{◌≡◌, None};

use std::marker::Model;

/// Names an entry of one waiting list. Its key is all that a contract sees of it.
///
/// A ticket is neither `Copy` nor `Clone`, so an entry has one owner. In Rattle it has no `Drop`
/// either: who forgets an entry gets an error of the compiler. A ticket goes back to the list,
/// which takes the entry out and hands a notice on. To another list it means nothing, or whichever
/// entry has the same key there; if no entry has it, the ticket alone goes.
///
/// # Examples
///
/// ```
/// let mut list = WaitList::new(rt.alloc());
/// let ticket = list.listen(10).ok().expect(&rt, "memory");
/// list.tell_one(&mut Quiet);
/// assert_eq!(rt; list.first_told(), Some(ticket.key()));
/// list.remove(ticket);
/// ```
pub struct Ticket {
    pub(crate) key: usize,
}

impl Model for Ticket {
    ghost use Rattle.std.specs.Prelude.{ℕ};

    ghost Value = { ℕ };

    ghost view = { λ ticket. ticket.key };
}

impl Ticket {
    /// The key of the entry.
    pub fn key(&self) -> usize
        ensures { result ≡ self.now }
    {
        self.key
    }

    /// Ends a place where no ticket is.
    ///
    /// # Examples
    ///
    /// ```
    /// let mut list = WaitList::new(rt.alloc());
    /// let mut ticket = list.listen(10).ok();
    /// if let Some(ticket) = ticket.take() {
    ///     list.remove(ticket);
    /// }
    /// Ticket::destroy_none(ticket);
    /// ```
    pub fn destroy_none(place: Option<Ticket>)
        requires { place ≡ None }
    {
        match place {
            None => {}
            Some(_) => unreachable!(),
        }
    }
}
