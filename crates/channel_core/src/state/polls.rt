//! The polls of those who may wait, and what they leave when one gives up.
ghost use Rattle.std.specs.Prelude.{◌≡◌, ◌==◌, IsSome, None, IfOk, IfErr, OnOk, OnErr, true, false};
ghost use Rattle.futures.specs.Poll.{IfReady, OnPending};
ghost use Rattle.event_list.specs.Waiting.{RingsEach};
ghost use Rattle.channel_core.specs.Tables.{OnReady, OnWait, send_poll, recv_poll, next_poll, closed_poll};
ghost use Rattle.channel_core.specs.Tickets.{waits, payload_held, left, handed_on, rung_by_handing_on};
ghost use Rattle.channel_core.specs.Channel.{GrowsWithMessages, given_up, is_channel_full, list_of, must_wait, oldest, polled_receive, polled_stream, polled_send, WaitsIn, SendWaits, RecvWaits, NextWaits, ClosedWaits, SendWants, RecvWants, NextWants, ClosedWants};

use crate::errors::{NoMemory, OutOfMemory, RecvError, SendError};
use crate::state::{Core, Group};
use crate::waiting::{hand_on, leave, wait};
use event_list::{Bell, NoRoom, Quiet, Ticket};
use futures::task::Poll;

impl<T: Drop, W: Drop> Core<T, W> {
    /// Polls a send: its message and its ticket. One without a message is finished, and stays
    /// pending.
    ///
    /// A ready poll leaves neither message nor ticket. A pending one leaves the ticket of an
    /// untold entry that holds `w`. If memory was refused nothing has changed, the message
    /// and the ticket neither.
    ///
    /// # Examples
    ///
    /// ```
    /// let mut core: Core<u64, ()> = Core::bounded(rt.alloc(), 1)?;
    /// assert_eq!(rt; core.try_send(1, &mut Quiet)?, Ok(()));
    /// let (mut message, mut ticket) = (Some(2), None);
    /// let poll = core.poll_send(&mut message, &mut ticket, (), &mut Quiet);
    /// assert_eq!(rt; poll, Ok(Poll::Pending));
    ///
    /// assert_eq!(rt; core.try_recv(&mut Quiet), Ok(1));
    /// let poll = core.poll_send(&mut message, &mut ticket, (), &mut Quiet);
    /// assert_eq!(rt; poll, Ok(Poll::Ready(Ok(()))));
    /// assert!(rt; message.is_none());
    /// Ticket::destroy_none(ticket);
    /// ```
    #[inline(always)]
    pub fn poll_send<B: Bell<W>>(
        &mut self,
        m: &mut Option<T>,
        t: &mut Option<Ticket>,
        w: W,
        bell: &mut B,
    ) -> Result<Poll<Result<(), SendError<T>>>, OutOfMemory>
        ensures reply { IfOk result
            (λ poll. poll ≡ send_poll m.old self.old.closed (is_channel_full self.old)) }
        ensures after { OnReady result (self.new ≡ (polled_send m.old t.old self.old).channel) }
        ensures rung { OnReady result
            (RingsEach B.rings bell.old (polled_send m.old t.old self.old).rung bell.new) }
        ensures finished { OnReady result ((m.new ≡ None) × (t.new ≡ None)) }

        ensures waits { OnWait result (SendWaits m.old t.old self.old w t.new self.new) }
        ensures kept { OnWait result (m.new ≡ m.old) }
        ensures silent { OnWait result (bell.new ≡ bell.old) }

        ensures unchanged { OnErr result ((self.new ≡ self.old) × (bell.new ≡ bell.old)) }
        ensures unpolled { OnErr result ((m.new ≡ m.old) × (t.new ≡ t.old)) }
        ensures wanted { OnErr result (SendWants m.old t.old self.old) }
    {
        let polled = self.finish_send(m, t, bell, &mut None)?;
        if polled.is_pending() && m.is_some() {
            self.wait_or_fail(Group::Sends, t, w)?;
        }
        Ok(polled)
    }

    /// Finishes a send, if it can go on: `poll_send`, but a pending poll changes nothing.
    ///
    /// `back` gets the payload that the send's entry held untold, once that has left its list, and
    /// is none else. One that can't go on waits by [`Core::wait`].
    ///
    /// # Examples
    ///
    /// ```
    /// let mut core: Core<u64, u64> = Core::bounded(rt.alloc(), 1)?;
    /// assert_eq!(rt; core.try_send(1, &mut Quiet)?, Ok(()));
    /// let (mut message, mut ticket, mut back) = (Some(2), None, None);
    /// let poll = core.finish_send(&mut message, &mut ticket, &mut Quiet, &mut back);
    /// assert_eq!(rt; poll, Ok(Poll::Pending));
    /// assert!(rt; core.wait(Group::Sends, &mut ticket, 10).is_ok());
    ///
    /// assert_eq!(rt; core.try_recv(&mut Quiet), Ok(1));
    /// let poll = core.finish_send(&mut message, &mut ticket, &mut Quiet, &mut back);
    /// assert_eq!(rt; poll, Ok(Poll::Ready(Ok(()))));
    /// assert_eq!(rt; (message, back), (None, None));
    /// Ticket::destroy_none(ticket);
    /// ```
    #[inline(always)]
    pub fn finish_send<B: Bell<W>>(
        &mut self,
        m: &mut Option<T>,
        t: &mut Option<Ticket>,
        bell: &mut B,
        back: &mut Option<W>,
    ) -> Result<Poll<Result<(), SendError<T>>>, OutOfMemory>
        ensures reply { IfOk result
            (λ poll. poll ≡ send_poll m.old self.old.closed (is_channel_full self.old)) }
        ensures after { OnReady result (self.new ≡ (polled_send m.old t.old self.old).channel) }
        ensures rung { OnReady result
            (RingsEach B.rings bell.old (polled_send m.old t.old self.old).rung bell.new) }
        ensures finished { OnReady result ((m.new ≡ None) × (t.new ≡ None)) }
        ensures given_back { OnReady result (back.new ≡ payload_held t.old self.old.sends) }

        ensures waits { OnWait result ((self.new ≡ self.old) × (bell.new ≡ bell.old)) }
        ensures kept { OnWait result ((m.new ≡ m.old) × (t.new ≡ t.old) × (back.new ≡ None)) }

        ensures unchanged { OnErr result ((self.new ≡ self.old) × (bell.new ≡ bell.old)) }
        ensures unpolled { OnErr result ((m.new ≡ m.old) × (t.new ≡ t.old) × (back.new ≡ None)) }
        ensures wanted { OnErr result (GrowsWithMessages self.old × IsSome m.old) }
    {
        *back = None;
        let Some(message) = m.take() else {
            return Ok(Poll::Pending);
        };
        if self.closed {
            *back = leave(&mut self.lists.sends, t);
            return Ok(Poll::Ready(Err(SendError(message))));
        }
        match self.queue.push(message) {
            Ok(Ok(())) => {
                *back = leave(&mut self.lists.sends, t);
                self.lists.tell_accepted(bell);
                Ok(Poll::Ready(Ok(())))
            }
            Ok(Err(message)) => {
                *m = Some(message);
                Ok(Poll::Pending)
            }
            Err(NoMemory(message)) => {
                *m = Some(message);
                Err(OutOfMemory)
            }
        }
    }

    /// Polls a receive, by its ticket.
    ///
    /// A ready poll leaves no ticket. A pending one leaves the ticket of an untold entry that
    /// holds `w`. If memory was refused nothing has changed, the ticket neither.
    ///
    /// # Examples
    ///
    /// ```
    /// let mut core: Core<u64, ()> = Core::unbounded(rt.alloc());
    /// let mut ticket = None;
    /// assert_eq!(rt; core.poll_recv(&mut ticket, (), &mut Quiet), Ok(Poll::Pending));
    /// assert!(rt; ticket.is_some());
    ///
    /// assert_eq!(rt; core.try_send(1, &mut Quiet), Ok(Ok(())));
    /// assert_eq!(rt; core.poll_recv(&mut ticket, (), &mut Quiet), Ok(Poll::Ready(Ok(1))));
    /// Ticket::destroy_none(ticket);
    /// ```
    #[inline(always)]
    pub fn poll_recv<B: Bell<W>>(
        &mut self,
        t: &mut Option<Ticket>,
        w: W,
        bell: &mut B,
    ) -> Result<Poll<Result<T, RecvError>>, OutOfMemory>
        ensures reply { IfOk result (λ poll. poll ≡ recv_poll (oldest self.old) self.old.closed) }
        ensures after { OnReady result (self.new ≡ (polled_receive t.old self.old).channel) }
        ensures rung { OnReady result
            (RingsEach B.rings bell.old (polled_receive t.old self.old).rung bell.new) }
        ensures finished { OnReady result (t.new ≡ None) }

        ensures waits { OnWait result (RecvWaits t.old self.old w t.new self.new) }
        ensures silent { OnWait result (bell.new ≡ bell.old) }

        ensures unchanged { OnErr result ((self.new ≡ self.old) × (bell.new ≡ bell.old)) }
        ensures unpolled { OnErr result (t.new ≡ t.old) }
        ensures wanted { OnErr result (RecvWants t.old self.old) }
    {
        let polled = self.finish_recv(t, bell, &mut None);
        if polled.is_pending() {
            self.wait_or_fail(Group::Receives, t, w)?;
        }
        Ok(polled)
    }

    /// Finishes a receive, if it can go on: `poll_recv`, but a pending poll changes nothing.
    ///
    /// `back` gets the payload that the receive's entry held untold, once that has left its list,
    /// and is none else. One that can't go on waits by [`Core::wait`].
    ///
    /// # Examples
    ///
    /// ```
    /// let mut core: Core<u64, u64> = Core::unbounded(rt.alloc());
    /// let (mut first, mut second, mut back) = (None, None, None);
    /// assert!(rt; core.wait(Group::Receives, &mut first, 10).is_ok());
    /// assert!(rt; core.wait(Group::Receives, &mut second, 11).is_ok());
    /// assert_eq!(rt; core.try_send(1, &mut Quiet), Ok(Ok(())));
    ///
    /// // The first one was told, and the second one is polled first.
    /// let poll = core.finish_recv(&mut second, &mut Quiet, &mut back);
    /// assert_eq!(rt; (poll, back), (Poll::Ready(Ok(1)), Some(11)));
    /// core.cancel_recv(&mut first, &mut Quiet);
    /// Ticket::destroy_none(first);
    /// Ticket::destroy_none(second);
    /// ```
    #[inline(always)]
    pub fn finish_recv<B: Bell<W>>(
        &mut self,
        t: &mut Option<Ticket>,
        bell: &mut B,
        back: &mut Option<W>,
    ) -> Poll<Result<T, RecvError>>
        ensures reply { result ≡ recv_poll (oldest self.old) self.old.closed }
        ensures after { IfReady result
            (λ _. self.new ≡ (polled_receive t.old self.old).channel) }
        ensures rung { IfReady result
            (λ _. RingsEach B.rings bell.old (polled_receive t.old self.old).rung bell.new) }
        ensures finished { IfReady result (λ _. t.new ≡ None) }
        ensures given_back { IfReady result
            (λ _. back.new ≡ payload_held t.old self.old.receives) }
        ensures waits { OnPending result ((self.new ≡ self.old) × (bell.new ≡ bell.old)) }
        ensures kept { OnPending result ((t.new ≡ t.old) × (back.new ≡ None)) }
    {
        *back = None;
        if let Some(message) = self.queue.pop() {
            *back = leave(&mut self.lists.receives, t);
            self.lists.sends.tell_one(bell);
            return Poll::Ready(Ok(message));
        }
        if self.closed {
            *back = leave(&mut self.lists.receives, t);
            return Poll::Ready(Err(RecvError));
        }
        Poll::Pending
    }

    /// Polls the stream of a receiver, by its ticket.
    ///
    /// A ready poll leaves no ticket. A pending one leaves the ticket of an untold entry that
    /// holds `w`. If memory was refused nothing has changed, the ticket neither.
    ///
    /// # Examples
    ///
    /// ```
    /// let mut core: Core<u64, ()> = Core::unbounded(rt.alloc());
    /// let mut ticket = None;
    /// assert_eq!(rt; core.poll_next(&mut ticket, (), &mut Quiet), Ok(Poll::Pending));
    /// core.close(&mut Quiet);
    /// assert_eq!(rt; core.poll_next(&mut ticket, (), &mut Quiet), Ok(Poll::Ready(None)));
    /// Ticket::destroy_none(ticket);
    /// ```
    pub fn poll_next<B: Bell<W>>(
        &mut self,
        t: &mut Option<Ticket>,
        w: W,
        bell: &mut B,
    ) -> Result<Poll<Option<T>>, OutOfMemory>
        ensures reply { IfOk result (λ poll. poll ≡ next_poll (oldest self.old) self.old.closed) }
        ensures after { OnReady result (self.new ≡ (polled_stream t.old self.old).channel) }
        ensures rung { OnReady result
            (RingsEach B.rings bell.old (polled_stream t.old self.old).rung bell.new) }
        ensures finished { OnReady result (t.new ≡ None) }

        ensures waits { OnWait result (NextWaits t.old self.old w t.new self.new) }
        ensures silent { OnWait result (bell.new ≡ bell.old) }

        ensures unchanged { OnErr result ((self.new ≡ self.old) × (bell.new ≡ bell.old)) }
        ensures unpolled { OnErr result (t.new ≡ t.old) }
        ensures wanted { OnErr result (NextWants t.old self.old) }
    {
        let polled = self.finish_next(t, bell, &mut None);
        if polled.is_pending() {
            self.wait_or_fail(Group::Streams, t, w)?;
        }
        Ok(polled)
    }

    /// Takes the next message of a stream, or finds its end: `poll_next`, but a pending poll changes
    /// nothing.
    ///
    /// `back` gets the payload that the stream's entry held untold, once that has left its list, and
    /// is none else. One that can't go on waits by [`Core::wait`].
    ///
    /// # Examples
    ///
    /// ```
    /// let mut core: Core<u64, u64> = Core::unbounded(rt.alloc());
    /// let (mut ticket, mut back) = (None, None);
    /// assert!(rt; core.wait(Group::Streams, &mut ticket, 10).is_ok());
    ///
    /// // The bell has the payload of one that is told.
    /// core.close(&mut Quiet);
    /// let poll = core.finish_next(&mut ticket, &mut Quiet, &mut back);
    /// assert_eq!(rt; (poll, back), (Poll::Ready(None), None));
    /// Ticket::destroy_none(ticket);
    /// ```
    pub fn finish_next<B: Bell<W>>(
        &mut self,
        t: &mut Option<Ticket>,
        bell: &mut B,
        back: &mut Option<W>,
    ) -> Poll<Option<T>>
        ensures reply { result ≡ next_poll (oldest self.old) self.old.closed }
        ensures after { IfReady result
            (λ _. self.new ≡ (polled_stream t.old self.old).channel) }
        ensures rung { IfReady result
            (λ _. RingsEach B.rings bell.old (polled_stream t.old self.old).rung bell.new) }
        ensures finished { IfReady result (λ _. t.new ≡ None) }
        ensures given_back { IfReady result (λ _. back.new ≡ payload_held t.old self.old.streams) }
        ensures waits { OnPending result ((self.new ≡ self.old) × (bell.new ≡ bell.old)) }
        ensures kept { OnPending result ((t.new ≡ t.old) × (back.new ≡ None)) }
    {
        *back = None;
        if let Some(message) = self.queue.pop() {
            *back = leave(&mut self.lists.streams, t);
            self.lists.sends.tell_one(bell);
            return Poll::Ready(Some(message));
        }
        if self.closed {
            *back = leave(&mut self.lists.streams, t);
            return Poll::Ready(None);
        }
        Poll::Pending
    }

    /// Polls a closed operation, by its ticket. It is ready exactly if no receiver is left.
    ///
    /// A ready poll leaves no ticket. A pending one leaves the ticket of an untold entry that
    /// holds `w`. If memory was refused nothing has changed, the ticket neither.
    ///
    /// # Examples
    ///
    /// ```
    /// let mut core: Core<u64, ()> = Core::unbounded(rt.alloc());
    /// let (mut ticket, mut stream) = (None, None);
    /// assert_eq!(rt; core.poll_closed(&mut ticket, ()), Ok(Poll::Pending));
    /// core.drop_receiver(&mut stream, &mut Quiet);
    /// assert_eq!(rt; core.poll_closed(&mut ticket, ()), Ok(Poll::Ready(())));
    /// Ticket::destroy_none(ticket);
    /// Ticket::destroy_none(stream);
    /// ```
    pub fn poll_closed(&mut self, t: &mut Option<Ticket>, w: W) -> Result<Poll<()>, OutOfMemory>
        ensures reply { IfOk result (λ poll. poll ≡ closed_poll (self.old.receivers == 0)) }
        ensures after { OnReady result (self.new ≡ record self.old {
          closeds = left t.old self.old.closeds;
        }) }
        ensures finished { OnReady result (t.new ≡ None) }

        ensures waits { OnWait result (ClosedWaits t.old self.old w t.new self.new) }

        ensures unchanged { OnErr result (self.new ≡ self.old) }
        ensures unpolled { OnErr result (t.new ≡ t.old) }
        ensures wanted { OnErr result (ClosedWants t.old self.old) }
    {
        let polled = self.finish_closed(t, &mut None);
        if polled.is_pending() {
            self.wait_or_fail(Group::Closeds, t, w)?;
        }
        Ok(polled)
    }

    /// Finishes a closed operation, if no receiver is left: `poll_closed`, but a pending poll changes
    /// nothing.
    ///
    /// `back` gets the payload that the operation's entry held untold, once that has left its list,
    /// and is none else. One that can't go on waits by [`Core::wait`].
    ///
    /// # Examples
    ///
    /// ```
    /// let mut core: Core<u64, u64> = Core::unbounded(rt.alloc());
    /// let (mut ticket, mut back) = (None, None);
    /// assert_eq!(rt; core.finish_closed(&mut ticket, &mut back), Poll::Pending);
    /// core.drop_receiver(&mut ticket, &mut Quiet);
    /// assert_eq!(rt; core.finish_closed(&mut ticket, &mut back), Poll::Ready(()));
    /// Ticket::destroy_none(ticket);
    /// ```
    pub fn finish_closed(&mut self, t: &mut Option<Ticket>, back: &mut Option<W>) -> Poll<()>
        ensures reply { result ≡ closed_poll (self.old.receivers == 0) }
        ensures after { IfReady result (λ _. self.new ≡ record self.old {
          closeds = left t.old self.old.closeds;
        }) }
        ensures finished { IfReady result (λ _. t.new ≡ None) }
        ensures given_back { IfReady result (λ _. back.new ≡ payload_held t.old self.old.closeds) }
        ensures waits { OnPending result (self.new ≡ self.old) }
        ensures kept { OnPending result ((t.new ≡ t.old) × (back.new ≡ None)) }
    {
        *back = None;
        if self.receivers > 0 {
            return Poll::Pending;
        }
        *back = leave(&mut self.lists.closeds, t);
        Poll::Ready(())
    }

    /// Whether one of the group has to wait: a send on an open and full channel, a receive or a
    /// stream on an open and empty one, a closed operation as long as there is a receiver.
    ///
    /// # Examples
    ///
    /// ```
    /// let mut core: Core<u64, ()> = Core::bounded(rt.alloc(), 1)?;
    /// assert!(rt; core.must_wait(Group::Receives) && !core.must_wait(Group::Sends));
    /// assert_eq!(rt; core.try_send(1, &mut Quiet)?, Ok(()));
    /// assert!(rt; core.must_wait(Group::Sends) && !core.must_wait(Group::Receives));
    /// ```
    #[inline(always)]
    pub fn must_wait(&self, g: Group) -> bool
        ensures { result ≡ must_wait g self.now }
    {
        match g {
            Group::Sends => self.is_full() && !self.closed,
            Group::Receives | Group::Streams => self.is_empty() && !self.closed,
            Group::Closeds => self.receivers != 0,
        }
    }

    /// One that can't go on waits: its entry in the group's list waits again, or a new one goes
    /// last. It is untold then, and holds `w`.
    ///
    /// The answer is the payload that its entry held untold before. If memory was refused nothing
    /// has changed, and `w` comes back.
    ///
    /// # Examples
    ///
    /// ```
    /// let mut core: Core<u64, u64> = Core::unbounded(rt.alloc());
    /// let mut ticket = None;
    /// assert!(rt; core.must_wait(Group::Receives));
    /// assert_eq!(rt; core.wait(Group::Receives, &mut ticket, 10).ok(), Some(None));
    /// assert_eq!(rt; core.wait(Group::Receives, &mut ticket, 11).ok(), Some(Some(10)));
    /// assert_eq!(rt; core.waiting(Group::Receives), 1);
    /// core.cancel_recv(&mut ticket, &mut Quiet);
    /// Ticket::destroy_none(ticket);
    /// ```
    #[inline(always)]
    pub fn wait(&mut self, g: Group, t: &mut Option<Ticket>, w: W) -> Result<Option<W>, NoRoom<W>>
        requires { must_wait g self.old ≡ true }
        ensures waits { OnOk result (WaitsIn g t.old self.old w t.new self.new) }
        ensures replaced { IfOk result (λ had. had ≡ payload_held t.old (list_of g self.old)) }
        ensures handed_back { IfErr result (λ error. error.0 ≡ w) }
        ensures unchanged { OnErr result ((self.new ≡ self.old) × (t.new ≡ t.old)) }
        ensures wanted { OnErr result (waits t.old (list_of g self.old) ≡ false) }
    {
        match g {
            Group::Sends => wait(&mut self.lists.sends, t, w),
            Group::Receives => wait(&mut self.lists.receives, t, w),
            Group::Streams => wait(&mut self.lists.streams, t, w),
            Group::Closeds => wait(&mut self.lists.closeds, t, w),
        }
    }

    // `wait`, without the payloads of before and after.
    #[inline(always)]
    fn wait_or_fail(&mut self, g: Group, t: &mut Option<Ticket>, w: W) -> Result<(), OutOfMemory>
        requires { must_wait g self.old ≡ true }
        ensures waits { OnOk result (WaitsIn g t.old self.old w t.new self.new) }
        ensures unchanged { OnErr result ((self.new ≡ self.old) × (t.new ≡ t.old)) }
        ensures wanted { OnErr result (waits t.old (list_of g self.old) ≡ false) }
    {
        match self.wait(g, t, w) {
            Ok(_) => Ok(()),
            Err(NoRoom(_)) => Err(OutOfMemory),
        }
    }

    /// Gives a send's wait up. A notice that it had goes to the next send.
    ///
    /// # Examples
    ///
    /// ```
    /// let mut core: Core<u64, ()> = Core::bounded(rt.alloc(), 1)?;
    /// assert_eq!(rt; core.try_send(1, &mut Quiet)?, Ok(()));
    /// let (mut message, mut ticket) = (Some(2), None);
    /// let poll = core.poll_send(&mut message, &mut ticket, (), &mut Quiet);
    /// assert_eq!(rt; poll, Ok(Poll::Pending));
    /// core.cancel_send(&mut ticket, &mut Quiet);
    /// assert_eq!(rt; core.waiting(Group::Sends), 0);
    /// Ticket::destroy_none(ticket);
    /// ```
    pub fn cancel_send<B: Bell<W>>(&mut self, t: &mut Option<Ticket>, bell: &mut B)
        ensures after { self.new ≡ record self.old { sends = handed_on t.old self.old.sends } }
        ensures rung { RingsEach B.rings bell.old
            (rung_by_handing_on t.old self.old.sends) bell.new }
        ensures ticket { t.new ≡ None }
    {
        self.withdraw(Group::Sends, t, bell);
    }

    /// Gives a receive's wait up. A notice that it had goes to the next receive.
    ///
    /// # Examples
    ///
    /// ```
    /// let mut core: Core<u64, ()> = Core::unbounded(rt.alloc());
    /// let (mut first, mut second) = (None, None);
    /// assert_eq!(rt; core.poll_recv(&mut first, (), &mut Quiet), Ok(Poll::Pending));
    /// assert_eq!(rt; core.poll_recv(&mut second, (), &mut Quiet), Ok(Poll::Pending));
    /// assert_eq!(rt; core.try_send(1, &mut Quiet), Ok(Ok(())));
    ///
    /// // The first one was told, and its notice goes on.
    /// core.cancel_recv(&mut first, &mut Quiet);
    /// assert_eq!(rt; core.told(Group::Receives), 1);
    /// core.cancel_recv(&mut second, &mut Quiet);
    /// assert_eq!(rt; core.waiting(Group::Receives), 0);
    /// Ticket::destroy_none(first);
    /// Ticket::destroy_none(second);
    /// ```
    pub fn cancel_recv<B: Bell<W>>(&mut self, t: &mut Option<Ticket>, bell: &mut B)
        ensures after { self.new ≡ record self.old {
          receives = handed_on t.old self.old.receives;
        } }
        ensures rung { RingsEach B.rings bell.old
            (rung_by_handing_on t.old self.old.receives) bell.new }
        ensures ticket { t.new ≡ None }
    {
        self.withdraw(Group::Receives, t, bell);
    }

    /// Gives a stream's wait up. Streams are told together, so that no notice is handed on.
    ///
    /// # Examples
    ///
    /// ```
    /// let mut core: Core<u64, ()> = Core::unbounded(rt.alloc());
    /// let mut ticket = None;
    /// assert_eq!(rt; core.poll_next(&mut ticket, (), &mut Quiet), Ok(Poll::Pending));
    /// core.cancel_stream(&mut ticket);
    /// assert_eq!(rt; core.waiting(Group::Streams), 0);
    /// Ticket::destroy_none(ticket);
    /// ```
    pub fn cancel_stream(&mut self, t: &mut Option<Ticket>)
        ensures after { self.new ≡ record self.old { streams = left t.old self.old.streams } }
        ensures ticket { t.new ≡ None }
    {
        self.withdraw(Group::Streams, t, &mut Quiet);
    }

    /// Gives a closed operation's wait up. Closed operations are told together, so that no notice
    /// is handed on.
    ///
    /// # Examples
    ///
    /// ```
    /// let mut core: Core<u64, ()> = Core::unbounded(rt.alloc());
    /// let mut ticket = None;
    /// assert_eq!(rt; core.poll_closed(&mut ticket, ()), Ok(Poll::Pending));
    /// core.cancel_closed(&mut ticket);
    /// assert_eq!(rt; core.waiting(Group::Closeds), 0);
    /// Ticket::destroy_none(ticket);
    /// ```
    pub fn cancel_closed(&mut self, t: &mut Option<Ticket>)
        ensures after { self.new ≡ record self.old { closeds = left t.old self.old.closeds } }
        ensures ticket { t.new ≡ None }
    {
        self.withdraw(Group::Closeds, t, &mut Quiet);
    }

    /// Gives the wait of one of the group up, as `cancel_send` and its kin do. The answer is the
    /// payload that its entry held untold.
    ///
    /// Who gives a receiver up and wants the payload of its stream back makes this call first, and
    /// then `drop_receiver` without a ticket.
    ///
    /// # Examples
    ///
    /// ```
    /// let mut core: Core<u64, u64> = Core::unbounded(rt.alloc());
    /// let (mut first, mut second) = (None, None);
    /// assert_eq!(rt; core.poll_recv(&mut first, 10, &mut Quiet), Ok(Poll::Pending));
    /// assert_eq!(rt; core.poll_recv(&mut second, 11, &mut Quiet), Ok(Poll::Pending));
    /// assert_eq!(rt; core.withdraw(Group::Receives, &mut second, &mut Quiet), Some(11));
    ///
    /// // The bell has the payload of one that is told.
    /// assert_eq!(rt; core.try_send(1, &mut Quiet), Ok(Ok(())));
    /// assert_eq!(rt; core.withdraw(Group::Receives, &mut first, &mut Quiet), None);
    /// Ticket::destroy_none(first);
    /// Ticket::destroy_none(second);
    /// ```
    pub fn withdraw<B: Bell<W>>(
        &mut self,
        g: Group,
        t: &mut Option<Ticket>,
        bell: &mut B,
    ) -> Option<W>
        ensures given_back { result ≡ payload_held t.old (list_of g self.old) }
        ensures after { self.new ≡ (given_up g t.old self.old).channel }
        ensures rung { RingsEach B.rings bell.old (given_up g t.old self.old).rung bell.new }
        ensures ticket { t.new ≡ None }
    {
        match g {
            Group::Sends => hand_on(&mut self.lists.sends, t, bell),
            Group::Receives => hand_on(&mut self.lists.receives, t, bell),
            Group::Streams => leave(&mut self.lists.streams, t),
            Group::Closeds => leave(&mut self.lists.closeds, t),
        }
    }
}
