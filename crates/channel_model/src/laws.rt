//! What holds after every past that can come about, for every type of message.
//!
//! Each function here does nothing: its contract is a law over the definitions of what a past
//! decides, proved once. A past is the list of steps that were made, each with its reply, the
//! newest first; it can come about if each step was allowed and has the reply that was due. The
//! examples are runs of the crate `channel_run` in which a law can be seen.
ghost use Rattle.std.specs.Prelude.{◌≡◌, ◌≤◌, ℕ, List, ◌∷◌, ◌++◌, Some, true, not, length};
ghost use Rattle.channel_model.specs.declared.step.Kind.{Kind};
ghost use Rattle.channel_model.specs.declared.step.Kind.TheVariants.{Bounded};
ghost use Rattle.channel_model.specs.declared.step.Side.{Side};
ghost use Rattle.channel_model.specs.declared.step.Step.{Step};
ghost use Rattle.channel_model.specs.declared.step.Step.TheVariants.{Close, UpgradeSender, UpgradeReceiver};
ghost use Rattle.channel_model.specs.declared.step.Reply.{Reply};
ghost use Rattle.channel_model.specs.declared.step.Reply.TheVariants.{Flag};
ghost use Rattle.channel_model.specs.Past.{Past};
ghost use Rattle.channel_model.specs.Messages.{accepted_messages, taken_messages, held_messages};
ghost use Rattle.channel_model.specs.Closing.{is_closed};
ghost use Rattle.channel_model.specs.Answers.{AreAnswers};
ghost use Rattle.channel_model.specs.Legal.{IsLegal};
ghost use Rattle.channel_model.specs.Rosters.{AreSound};
ghost use Rattle.channel_model.specs.Notices.{rosters};
ghost use Rattle.channel_core.specs.Covered.{IsCovered};
ghost use Rattle.channel_model.specs.Standing.{standing_of};
ghost use Rattle.channel_model.specs.Polling.{EndsWell, IsFreePolling, IsQuiet, Settles, finished_polls};
ghost use Rattle.channel_model.specs.Laws.{AreLive, ComesBack, GivesWhatIsLeft, IsDone, StaysClosed, UpgradesWhileOpen, given_back};

/// Whoever answers each step as the past decides makes only pasts that can come about. So every law
/// here holds after every list of steps by any parties.
///
/// # Examples
///
/// ```
/// let steps = vec![in rt.alloc(); Step::TrySend(0, 1), Step::TryRecv(0)]?;
/// let end = run_all(rt.alloc(), Kind::Unbounded, steps).map_err(|_| "no room")?;
/// let replies = [Reply::TrySent(Ok(())), Reply::Received(Ok(1))];
/// assert_eq!(rt; end.replies.as_slice(), replies.as_slice());
/// ```
pub fn answers_make_legal_pasts<T>()
    ensures { (kind : Kind) (past after : Past T) (steps : List (Step T)) (replies : List (Reply T))
        → IsLegal kind past → AreAnswers kind past steps replies after → IsLegal kind after }
{}

/// The messages that were accepted are those that were taken, followed by those that are held, in
/// order: none is lost, doubled, invented or moved ahead, and each that was taken went to one
/// receiver or back to the one who displaced it.
///
/// # Examples
///
/// ```
/// let mut run: Run<u64> = Run::new(rt.alloc(), Kind::Unbounded)?;
/// run.step(Step::TrySend(0, 1));
/// run.step(Step::TrySend(0, 2));
///
/// // 1 is taken, and 2 is held.
/// assert_eq!(rt; run.step(Step::TryRecv(0)), Reply::Received(Ok(1)));
/// assert_eq!(rt; run.step(Step::Len(Side::Sender(0))), Reply::Count(1));
/// ```
pub fn conserved<T>()
    ensures { (kind : Kind) (past : Past T) → IsLegal kind past
        → accepted_messages past ≡ taken_messages past ++ held_messages past }
{}

/// A bounded channel never holds more than its capacity.
///
/// # Examples
///
/// ```
/// let mut run: Run<u64> = Run::new(rt.alloc(), Kind::Bounded(1))?;
/// run.step(Step::TrySend(0, 1));
/// run.step(Step::ForceSend(0, 2));
/// assert_eq!(rt; run.step(Step::Len(Side::Sender(0))), Reply::Count(1));
/// ```
pub fn within_capacity<T>()
    ensures { (capacity : ℕ) (past : Past T) → IsLegal (Bounded capacity) past
        → length (held_messages past) ≤ capacity }
{}

/// Whoever waits waits once, is live, and stands in the list of its kind. No more were told than
/// wait.
///
/// # Examples
///
/// ```
/// let mut run: Run<u64> = Run::new(rt.alloc(), Kind::Unbounded)?;
/// run.step(Step::StartRecv { op: 0, receiver: 0 });
/// run.step(Step::Poll(0));
/// run.step(Step::Poll(0));
/// run.step(Step::TrySend(0, 1));
///
/// // One poll serves the wait of both, and nobody is left told.
/// let reply = run.step(Step::Poll(0));
/// assert_eq!(rt; reply, Reply::RecvPolled(Poll::Ready(Ok(1))));
/// assert_eq!(rt; run.notice_of(Who::Op(0)), Notice::Absent);
/// ```
pub fn waits_once<T>()
    ensures sound { (kind : Kind) (past : Past T) → IsLegal kind past → AreSound (rosters past) }
    ensures live { (kind : Kind) (past : Past T) → IsLegal kind past → AreLive past (rosters past) }
{}

/// No notice is lost: whoever waits untold could not go on, or enough others were told.
///
/// # Examples
///
/// ```
/// let mut run: Run<u64> = Run::new(rt.alloc(), Kind::Unbounded)?;
/// run.step(Step::StartRecv { op: 0, receiver: 0 });
/// run.step(Step::Poll(0));
/// run.step(Step::TrySend(0, 1));
/// assert_eq!(rt; run.notice_of(Who::Op(0)), Notice::Told);
/// ```
pub fn nobody_waits_in_vain<T>()
    ensures { (kind : Kind) (past : Past T) → IsLegal kind past
        → IsCovered (standing_of kind past) }
{}

/// In whatever order those who were told are polled, it ends after at most `w * (w + 1) / 2` polls
/// if `w` wait. If nobody is told any more, nobody waits who could go on.
///
/// # Examples
///
/// ```
/// let mut run: Run<u64> = Run::new(rt.alloc(), Kind::Unbounded)?;
/// run.step(Step::StartRecv { op: 0, receiver: 0 });
/// run.step(Step::Poll(0));
/// run.step(Step::CloneReceiver { of: 0, new: 1 });
/// run.step(Step::PollNext(1));
/// run.step(Step::TrySend(0, 1));
///
/// // Two wait, and two polls are made of the three that there may be.
/// assert_eq!(rt; run.settle()?.polls, 2);
/// ```
pub fn any_order<T>()
    ensures { (kind : Kind) (past polls : Past T) → IsLegal kind past
        → IsFreePolling kind past polls → EndsWell kind past polls }
{}

/// Every channel can be settled: there are polls, each of the first who was told, after which
/// nobody is told.
///
/// # Examples
///
/// ```
/// let mut run: Run<u64> = Run::new(rt.alloc(), Kind::Unbounded)?;
/// run.step(Step::StartRecv { op: 0, receiver: 0 });
/// run.step(Step::Poll(0));
/// run.step(Step::TrySend(0, 1));
/// assert_eq!(rt; run.settle()?.polls, 1);
/// assert_eq!(rt; run.notice_of(Who::Op(0)), Notice::Absent);
/// ```
pub fn can_be_settled<T>()
    ensures { (kind : Kind) (past : Past T) → IsLegal kind past
        → (polls : Past T) × Settles kind past polls (length polls) (finished_polls polls) }
{}

/// If nobody is told, no send waits together with a receive or stream, and on a closed channel no
/// send, receive or stream waits.
///
/// # Examples
///
/// ```
/// let mut run: Run<u64> = Run::new(rt.alloc(), Kind::Unbounded)?;
/// run.step(Step::PollNext(0));
/// run.step(Step::Close(Side::Sender(0)));
/// assert_eq!(rt; run.settle()?.polls, 1);
/// assert_eq!(rt; run.notice_of(Who::Receiver(0)), Notice::Absent);
/// ```
pub fn settled_is_done<T>()
    ensures { (kind : Kind) (past : Past T) → IsLegal kind past → IsQuiet (rosters past)
        → IsDone past }
{}

/// Closing by hand answers true exactly if the channel was open. After it the channel is closed.
///
/// # Examples
///
/// ```
/// let mut run: Run<u64> = Run::new(rt.alloc(), Kind::Unbounded)?;
/// assert_eq!(rt; run.step(Step::Close(Side::Sender(0))), Reply::Flag(true));
/// let reply = run.step(Step::Close(Side::Receiver(0)));
/// assert_eq!(rt; reply, Reply::Flag(false));
/// ```
pub fn closes_once<T>()
    ensures replied { (kind : Kind) (past : Past T) (side : Side) (reply : Reply T)
        → IsLegal kind ((Close side, reply) ∷ past) → reply ≡ Flag (not (is_closed past)) }
    ensures closed { (past : Past T) (side : Side) (reply : Reply T)
        → is_closed ((Close side, reply) ∷ past) ≡ true }
{}

/// A closed channel stays closed and accepts nothing more. What is taken from it then is what was
/// left, in order.
///
/// # Examples
///
/// ```
/// let mut run: Run<u64> = Run::new(rt.alloc(), Kind::Unbounded)?;
/// run.step(Step::Close(Side::Sender(0)));
/// let reply = run.step(Step::TrySend(0, 1));
/// assert_eq!(rt; reply, Reply::TrySent(Err(TrySendError::Closed(1))));
/// ```
pub fn closed_stays_closed<T>()
    ensures { (kind : Kind) (past later : Past T) → IsLegal kind (later ++ past)
        → is_closed past ≡ true → StaysClosed past later }
{}

/// A closed channel gives the oldest message that is left, and if none is left the error or the
/// stream's end.
///
/// # Examples
///
/// ```
/// let mut run: Run<u64> = Run::new(rt.alloc(), Kind::Unbounded)?;
/// run.step(Step::TrySend(0, 1));
/// run.step(Step::Close(Side::Sender(0)));
/// assert_eq!(rt; run.step(Step::TryRecv(0)), Reply::Received(Ok(1)));
/// let reply = run.step(Step::TryRecv(0));
/// assert_eq!(rt; reply, Reply::Received(Err(TryRecvError::Closed)));
/// ```
pub fn closed_gives_what_is_left<T>()
    ensures { (kind : Kind) (past : Past T) → is_closed past ≡ true → GivesWhatIsLeft kind past }
{}

/// A send that is refused gives back its own message, and the channel holds what it held.
///
/// # Examples
///
/// ```
/// let mut run: Run<u64> = Run::new(rt.alloc(), Kind::Bounded(1))?;
/// run.step(Step::TrySend(0, 1));
/// let reply = run.step(Step::TrySend(0, 2));
/// assert_eq!(rt; reply, Reply::TrySent(Err(TrySendError::Full(2))));
/// assert_eq!(rt; run.step(Step::Len(Side::Sender(0))), Reply::Count(1));
/// ```
pub fn refused_message_comes_back<T>()
    ensures { (kind : Kind) (past : Past T) (step : Step T) (reply : Reply T) (message : T)
        → IsLegal kind ((step, reply) ∷ past) → given_back reply ≡ Some message
        → ComesBack past step reply message }
{}

/// An upgrade makes a handle exactly on an open channel, also if no strong handle of its kind is
/// left.
///
/// # Examples
///
/// ```
/// let mut run: Run<u64> = Run::new(rt.alloc(), Kind::Unbounded)?;
/// run.step(Step::DowngradeSender { of: 0, new: 0 });
/// let reply = run.step(Step::UpgradeSender { of: 0, new: 1 });
/// assert_eq!(rt; reply, Reply::Upgraded(true));
/// run.step(Step::Close(Side::Sender(0)));
/// let reply = run.step(Step::UpgradeSender { of: 0, new: 2 });
/// assert_eq!(rt; reply, Reply::Upgraded(false));
/// ```
pub fn upgrades_while_open<T>()
    ensures senders { (kind : Kind) (past : Past T) (of new : ℕ) (reply : Reply T)
        → IsLegal kind ((UpgradeSender of new, reply) ∷ past)
        → UpgradesWhileOpen past of new reply }
    ensures receivers { (kind : Kind) (past : Past T) (of new : ℕ) (reply : Reply T)
        → IsLegal kind ((UpgradeReceiver of new, reply) ∷ past)
        → UpgradesWhileOpen past of new reply }
{}
