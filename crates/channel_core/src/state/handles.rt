//! The handles of a channel: how many senders and receivers there are, and who is the last.
ghost use Rattle.std.specs.Prelude.{◌≡◌, ◌==◌, ◌&&◌, not, None, true, false, ◌<◌};
ghost use Rattle.event_list.specs.Waiting.{RingsEach};
ghost use Rattle.channel_core.specs.Counts.{may_add, count_added, upgrade_answer, count_upgraded};
ghost use Rattle.channel_core.specs.Channel.{sender_dropped, receiver_dropped_by};

use crate::state::{Core, HANDLE_LIMIT, Upgrade, shut};
use crate::waiting::leave;
use event_list::{Bell, Ticket};

// Counts one more copy of a handle, if there is one and there may be one more.
fn add_handle(count: &mut usize) -> bool
    ensures reply { result ≡ may_add count.old }
    ensures after { count.new ≡ count_added result count.old }
{
    if *count == 0 || *count > HANDLE_LIMIT {
        return false;
    }
    *count += 1;
    true
}

// Counts one more handle, made of a weak one.
fn upgrade_handle(closed: bool, count: &mut usize) -> Upgrade
    ensures reply { result ≡ upgrade_answer closed count.old }
    ensures after { count.new ≡ count_upgraded result count.old }
{
    if closed {
        return Upgrade::Closed;
    }
    if *count > HANDLE_LIMIT {
        return Upgrade::TooMany;
    }
    *count += 1;
    Upgrade::Raised
}

impl<T: Drop, W: Drop> Core<T, W> {
    /// Counts one more sender, a copy of one that there is. The answer is whether there may be one
    /// more.
    ///
    /// # Examples
    ///
    /// ```
    /// let mut core: Core<u64, ()> = Core::unbounded(rt.alloc());
    /// assert!(rt; core.add_sender());
    /// assert_eq!(rt; core.sender_count(), 2);
    /// ```
    pub fn add_sender(&mut self) -> bool
        ensures reply { result ≡ may_add self.old.senders }
        ensures after { self.new ≡ record self.old {
          senders = count_added result self.old.senders;
        } }
    {
        add_handle(&mut self.senders)
    }

    /// Counts one more receiver, a copy of one that there is. The answer is whether there may be
    /// one more.
    ///
    /// # Examples
    ///
    /// ```
    /// let mut core: Core<u64, ()> = Core::unbounded(rt.alloc());
    /// assert!(rt; core.add_receiver());
    /// assert_eq!(rt; core.receiver_count(), 2);
    /// ```
    pub fn add_receiver(&mut self) -> bool
        ensures reply { result ≡ may_add self.old.receivers }
        ensures after { self.new ≡ record self.old {
          receivers = count_added result self.old.receivers;
        } }
    {
        add_handle(&mut self.receivers)
    }

    /// Counts one more sender, made of a weak one, if the channel is open.
    ///
    /// # Examples
    ///
    /// ```
    /// let mut core: Core<u64, ()> = Core::unbounded(rt.alloc());
    /// assert_eq!(rt; core.upgrade_sender(), Upgrade::Raised);
    /// assert_eq!(rt; core.sender_count(), 2);
    /// ```
    pub fn upgrade_sender(&mut self) -> Upgrade
        ensures reply { result ≡ upgrade_answer self.old.closed self.old.senders }
        ensures after { self.new ≡ record self.old {
          senders = count_upgraded result self.old.senders;
        } }
    {
        upgrade_handle(self.closed, &mut self.senders)
    }

    /// Counts one more receiver, made of a weak one, if the channel is open.
    ///
    /// # Examples
    ///
    /// ```
    /// let mut core: Core<u64, ()> = Core::unbounded(rt.alloc());
    /// core.close(&mut Quiet);
    /// assert_eq!(rt; core.upgrade_receiver(), Upgrade::Closed);
    /// assert_eq!(rt; core.receiver_count(), 1);
    /// ```
    pub fn upgrade_receiver(&mut self) -> Upgrade
        ensures reply { result ≡ upgrade_answer self.old.closed self.old.receivers }
        ensures after { self.new ≡ record self.old {
          receivers = count_upgraded result self.old.receivers;
        } }
    {
        upgrade_handle(self.closed, &mut self.receivers)
    }

    /// Gives a sender up. The last one closes the channel; the answer is whether that happened.
    /// An open channel has somebody on the other side still.
    ///
    /// # Examples
    ///
    /// ```
    /// let mut core: Core<u64, ()> = Core::unbounded(rt.alloc());
    /// assert!(rt; core.drop_sender(&mut Quiet));
    /// assert!(rt; core.is_closed());
    /// ```
    pub fn drop_sender<B: Bell<W>>(&mut self, bell: &mut B) -> bool
        ensures reply { result ≡ ((self.old.senders == 1) && not self.old.closed) }
        ensures after { self.new ≡ (sender_dropped self.old).channel }
        ensures other_side { self.old.closed ≡ false → 0 < self.old.receivers }
        ensures rung { RingsEach B.rings bell.old (sender_dropped self.old).rung bell.new }
    {
        match self.senders {
            0 => false,
            1 => {
                self.senders = 0;
                shut(&mut self.closed, &mut self.lists, bell)
            }
            _ => {
                self.senders -= 1;
                false
            }
        }
    }

    /// Gives a receiver up, and its stream's wait with it. The last one closes the channel; the
    /// answer is whether that happened. It also tells closed operations, on a channel that was
    /// closed before too.
    ///
    /// # Examples
    ///
    /// ```
    /// let mut core: Core<u64, ()> = Core::unbounded(rt.alloc());
    /// let mut stream = None;
    /// assert!(rt; core.add_receiver());
    /// assert!(rt; !core.drop_receiver(&mut stream, &mut Quiet));
    /// assert!(rt; core.drop_receiver(&mut stream, &mut Quiet));
    /// assert!(rt; core.is_closed());
    /// Ticket::destroy_none(stream);
    /// ```
    #[tactic(auto, using(crate::proofs::Rings::rings_in_turn))]
    pub fn drop_receiver<B: Bell<W>>(&mut self, stream: &mut Option<Ticket>, bell: &mut B) -> bool
        ensures reply { result ≡ ((self.old.receivers == 1) && not self.old.closed) }
        ensures after { self.new ≡ (receiver_dropped_by stream.old self.old).channel }
        ensures other_side { self.old.closed ≡ false → 0 < self.old.senders }
        ensures rung { RingsEach B.rings bell.old
            (receiver_dropped_by stream.old self.old).rung bell.new }
        ensures ticket { stream.new ≡ None }
    {
        leave(&mut self.lists.streams, stream);
        match self.receivers {
            0 => false,
            1 => {
                self.receivers = 0;
                let closed = shut(&mut self.closed, &mut self.lists, bell);
                self.lists.closeds.tell_all(bell);
                closed
            }
            _ => {
                self.receivers -= 1;
                false
            }
        }
    }
}
