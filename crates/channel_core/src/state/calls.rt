//! The calls that never wait: a message in, a message out, and the end of the channel.
ghost use Rattle.std.specs.Prelude.{◌≡◌, not, Some, None, Err, IfOk, OnOk, OnErr, IfErr};
ghost use Rattle.event_list.specs.Waiting.{RingsEach};
ghost use Rattle.channel_core.specs.Tables.{try_send_answer, force_send_answer, try_recv_answer};
ghost use Rattle.channel_core.specs.Channel.{is_channel_full, oldest, GrowsWithMessages, sent, force_sent, received, closing};

use crate::errors::{NoMemory, SendError, TryRecvError, TrySendError};
use crate::state::{Core, shut};
use event_list::Bell;

impl<T: Drop, W: Drop> Core<T, W> {
    /// Puts a message last, if the channel is open and not full.
    ///
    /// A full or closed channel hands the message back. The outer error, with the message, says
    /// that memory was refused, which an unbounded channel alone may be; nothing has changed then.
    ///
    /// # Examples
    ///
    /// ```
    /// let mut core: Core<u64, ()> = Core::bounded(rt.alloc(), 1)?;
    /// assert_eq!(rt; core.try_send(1, &mut Quiet)?, Ok(()));
    /// assert_eq!(rt; core.try_send(2, &mut Quiet)?, Err(TrySendError::Full(2)));
    /// assert!(rt; core.is_full());
    /// ```
    #[inline(always)]
    pub fn try_send<B: Bell<W>>(
        &mut self,
        m: T,
        bell: &mut B,
    ) -> Result<Result<(), TrySendError<T>>, NoMemory<T>>
        ensures reply { IfOk result
            (λ answer. answer ≡ try_send_answer self.old.closed (is_channel_full self.old) m) }
        ensures after { OnOk result (self.new ≡ (sent m self.old).channel) }
        ensures rung { OnOk result (RingsEach B.rings bell.old (sent m self.old).rung bell.new) }
        ensures handed_back { IfErr result (λ error. error.0 ≡ m) }
        ensures unchanged { OnErr result (self.new ≡ self.old) }
        ensures silent { OnErr result (bell.new ≡ bell.old) }
        ensures wanted { OnErr result (GrowsWithMessages self.old) }
    {
        if self.closed {
            return Ok(Err(TrySendError::Closed(m)));
        }
        match self.queue.push(m)? {
            Ok(()) => {
                self.lists.tell_accepted(bell);
                Ok(Ok(()))
            }
            Err(m) => Ok(Err(TrySendError::Full(m))),
        }
    }

    /// Puts a message last, if the channel is open. A full one gives its oldest message for it,
    /// which tells no send.
    ///
    /// A closed channel hands the message back. The outer error, with the message, says that memory
    /// was refused, which an unbounded channel alone may be; nothing has changed then.
    ///
    /// # Examples
    ///
    /// ```
    /// let mut core: Core<u64, ()> = Core::bounded(rt.alloc(), 1)?;
    /// assert_eq!(rt; core.force_send(1, &mut Quiet)?, Ok(None));
    /// assert_eq!(rt; core.force_send(2, &mut Quiet)?, Ok(Some(1)));
    /// ```
    pub fn force_send<B: Bell<W>>(
        &mut self,
        m: T,
        bell: &mut B,
    ) -> Result<Result<Option<T>, SendError<T>>, NoMemory<T>>
        ensures reply { IfOk result
            (λ answer. answer ≡ force_send_answer self.old.closed (is_channel_full self.old)
            (oldest self.old) m) }
        ensures after { OnOk result (self.new ≡ (force_sent m self.old).channel) }
        ensures rung { OnOk result
            (RingsEach B.rings bell.old (force_sent m self.old).rung bell.new) }
        ensures handed_back { IfErr result (λ error. error.0 ≡ m) }
        ensures unchanged { OnErr result (self.new ≡ self.old) }
        ensures silent { OnErr result (bell.new ≡ bell.old) }
        ensures wanted { OnErr result (GrowsWithMessages self.old) }
    {
        if self.closed {
            return Ok(Err(SendError(m)));
        }
        let displaced = self.queue.force_push(m)?;
        self.lists.tell_accepted(bell);
        Ok(Ok(displaced))
    }

    /// Takes the oldest message, and tells a send that there is a place.
    ///
    /// If no message is held nothing changes, and the error says whether the channel is closed.
    ///
    /// # Examples
    ///
    /// ```
    /// let mut core: Core<u64, ()> = Core::unbounded(rt.alloc());
    /// assert_eq!(rt; core.try_send(1, &mut Quiet)?, Ok(()));
    /// assert_eq!(rt; core.try_recv(&mut Quiet), Ok(1));
    /// assert_eq!(rt; core.try_recv(&mut Quiet), Err(TryRecvError::Empty));
    /// ```
    #[inline(always)]
    pub fn try_recv<B: Bell<W>>(&mut self, bell: &mut B) -> Result<T, TryRecvError>
        ensures reply { result ≡ try_recv_answer (oldest self.old) self.old.closed }
        ensures after { self.new ≡ (received self.old).channel }
        ensures rung { RingsEach B.rings bell.old (received self.old).rung bell.new }
    {
        match self.queue.pop() {
            Some(message) => {
                self.lists.sends.tell_one(bell);
                Ok(message)
            }
            None => Err(self.why_empty()),
        }
    }

    // Why a channel without a message has none: none will come, or none is there yet.
    #[inline(always)]
    pub(crate) fn why_empty(&self) -> TryRecvError
        ensures { Err result ≡ try_recv_answer {T = T} None self.now.closed }
    {
        if self.closed {
            TryRecvError::Closed
        } else {
            TryRecvError::Empty
        }
    }

    /// Closes the channel, and answers whether it was open. The messages stay.
    ///
    /// Closed operations aren't told: they wait until no receiver is left.
    ///
    /// # Examples
    ///
    /// ```
    /// let mut core: Core<u64, ()> = Core::unbounded(rt.alloc());
    /// assert_eq!(rt; core.try_send(1, &mut Quiet)?, Ok(()));
    /// assert!(rt; core.close(&mut Quiet));
    /// assert!(rt; core.is_closed());
    /// assert!(rt; !core.close(&mut Quiet));
    /// assert_eq!(rt; core.len(), 1);
    /// ```
    pub fn close<B: Bell<W>>(&mut self, bell: &mut B) -> bool
        ensures reply { result ≡ not self.old.closed }
        ensures after { self.new ≡ (closing self.old).channel }
        ensures rung { RingsEach B.rings bell.old (closing self.old).rung bell.new }
    {
        shut(&mut self.closed, &mut self.lists, bell)
    }
}
