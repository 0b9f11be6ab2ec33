//! Settling: those who were told are polled until nobody is told.
ghost use Rattle.std.specs.Prelude.{◌≡◌, ◌+◌, ◌<◌, ◌≤◌, ◌++◌, ◌∷◌, [], if◌then◌else◌, IfOk, OnErr};
ghost use Rattle.std.specs.Vec.{vec_len, vec_capacity};
ghost use Rattle.channel_model.specs.declared.step.Kind.{Kind};
ghost use Rattle.channel_model.specs.Past.{Past};
ghost use Rattle.channel_model.specs.Polling.{waiting_in};
ghost use Rattle.channel_model.specs.Replies.{is_ready};
ghost use Rattle.channel_run.specs.StandsFor.{StandsFor};
ghost use Rattle.channel_run.specs.Runs.{PollsFirst, SettlesTo};

use crate::run::Run;
use channel_model::{OutOfMemory, Reply, Who};

/// What settling a run came to.
///
/// # Examples
///
/// ```
/// let mut run: Run<u64> = Run::new(rt.alloc(), Kind::Unbounded)?;
/// let settled = run.settle()?;
/// assert_eq!(rt; settled.polls, 0);
/// assert!(rt; settled.finished.is_empty());
/// ```
#[derive(Drop)]
pub struct Settled<T> {
    /// How many polls were made.
    pub polls: u128,
    /// Those whose poll was ready, each with its reply, in the order of the polls.
    pub finished: Vec<(Who, Reply<T>)>,
}

impl<T: Drop> Run<T> {
    /// Makes one poll of settling, of who was told first, and answers whose it was. If nobody
    /// was told it does nothing.
    ///
    /// # Examples
    ///
    /// ```
    /// let mut run: Run<u64> = Run::new(rt.alloc(), Kind::Unbounded)?;
    /// run.step(Step::PollNext(0));
    /// run.step(Step::TrySend(0, 7));
    ///
    /// let polled = (Who::Receiver(0), Reply::NextPolled(Poll::Ready(Some(7))));
    /// assert_eq!(rt; run.poll_first_told(), Some(polled));
    /// assert_eq!(rt; run.poll_first_told(), None);
    /// ```
    pub fn poll_first_told(&mut self) -> Option<(Who, Reply<T>)>
        ensures { (kind : Kind) (past : Past T) → StandsFor kind past self.old
            → PollsFirst kind past result self.new }
    {
        let who = self.first_told(None)?;
        let reply = self.poll_told(who);
        Some((who, reply))
    }

    /// Polls those who were told, one after the other, until nobody is told. Then nobody waits who
    /// could go on.
    ///
    /// Each time it polls the first told receive; if none is told, the first told stream, then
    /// send, then closed operation. A told stream is polled also if a live receive borrows its
    /// receiver. If `w` wait, it takes `w * (w + 1) / 2` polls at the most.
    ///
    /// Memory has to be had before the first poll alone, for as many replies as there are waiting
    /// entries. A settling of several polls asks for more later on, which only speeds it up and may
    /// be refused without a trace.
    ///
    /// # Examples
    ///
    /// ```
    /// let mut run = Run::new(rt.alloc(), Kind::Unbounded)?;
    /// run.step(Step::StartRecv { op: 0, receiver: 0 });
    /// run.step(Step::Poll(0));
    /// run.step(Step::TrySend(0, 7));
    ///
    /// let settled = run.settle()?;
    /// let received = (Who::Op(0), Reply::RecvPolled(Poll::Ready(Ok(7))));
    /// assert_eq!(rt; settled.polls, 1);
    /// assert_eq!(rt; settled.finished.as_slice(), [received].as_slice());
    /// ```
    pub fn settle(&mut self) -> Result<Settled<T>, OutOfMemory>
        ensures settled { IfOk result (λ settled. (kind : Kind) (past : Past T)
            → StandsFor kind past self.old
            → SettlesTo kind past settled.polls settled.finished.items self.new) }
        ensures unchanged { OnErr result (self.new ≡ self.old) }
        ensures wanted { OnErr result (0 < waiting_in self.old.rosters) }
    {
        let mut finished = self.room_for_replies()?;
        let mut holders = None;
        for polls in 0..u128::MAX {
            let Some(who) = self.first_told(holders.as_ref()) else {
                return Ok(Settled { polls, finished });
            };
            if polls == 1 {
                // more than one was told: from here on nobody is walked for
                holders = Some(self.holders());
            }
            let reply = self.poll_told(who);
            keep_ready(&mut finished, who, reply);
        }
        // never reached: these would be more polls than the bound
        Ok(Settled {
            polls: u128::MAX,
            finished,
        })
    }
}

// Keeps the reply to a poll, if it was ready.
fn keep_ready<T: Drop>(finished: &mut Vec<(Who, Reply<T>)>, who: Who, reply: Reply<T>)
    requires { vec_len finished.old + (if is_ready reply then 1 else 0)
        ≤ vec_capacity finished.old }
    ensures kept { finished.new.items
        ≡ (if is_ready reply then finished.old.items ++ (who, reply) ∷ [] else finished.old.items) }
    ensures count { vec_len finished.new
        ≡ vec_len finished.old + (if is_ready reply then 1 else 0) }
    ensures room { vec_capacity finished.old ≤ vec_capacity finished.new }
{
    if reply.is_ready() {
        match finished.push((who, reply)) {
            Ok(()) => {}
            Err(_) => unreachable!(),
        }
    }
}
