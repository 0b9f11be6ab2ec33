//! The texts of replies.
use channel_model::{Notice, Refusal, Reply, SendError, TryRecvError, TrySendError, Who};
use futures::task::Poll;
use std::fmt;

/// A reply to a step, as a script writes it.
///
/// # Examples
///
/// ```
/// let text = format!(in rt.alloc(); "{}", ReplyText(Reply::Received(Ok(7))))?;
/// assert_eq!(rt; text.as_str(), "ok 7");
/// let refused = Reply::Refused(Refusal::Unknown, Some(7));
/// let text = format!(in rt.alloc(); "{}", ReplyText(refused))?;
/// assert_eq!(rt; text.as_str(), "refused: unknown");
/// ```
#[derive(Debug, Drop, PartialEq, Eq)]
pub struct ReplyText(pub Reply<u64>);

/// Whether somebody waits and was told, as a script writes it.
///
/// # Examples
///
/// ```
/// let text = format!(in rt.alloc(); "{}", NoticeText(Notice::Untold))?;
/// assert_eq!(rt; text.as_str(), "untold");
/// ```
#[derive(Clone, Copy, Debug, PartialEq, Eq)]
pub struct NoticeText(pub Notice);

/// Who was polled, as a script writes it.
///
/// # Examples
///
/// ```
/// let text = format!(in rt.alloc(); "{}", WhoText(Who::Op(3)))?;
/// assert_eq!(rt; text.as_str(), "o3");
/// ```
#[derive(Clone, Copy, Debug, PartialEq, Eq)]
pub struct WhoText(pub Who);

impl fmt::Display for ReplyText {
    ghost use Rattle.std.specs.Prelude.{Some};
    ghost use Rattle.chanrun.specs.Texts.{reply_text};

    ghost output = { λ text. Some (reply_text text.0) };

    fn fmt<W: fmt::Write>(&self, f: &mut fmt::Formatter<W>) -> fmt::Result {
        match &self.0 {
            Reply::Done => write!(f, "done"),
            Reply::TrySent(Ok(())) => write!(f, "ok"),
            Reply::TrySent(Err(TrySendError::Full(message))) => write!(f, "full {message}"),
            Reply::TrySent(Err(TrySendError::Closed(message))) => write!(f, "closed {message}"),
            Reply::Forced(Ok(None)) => write!(f, "ok none"),
            Reply::Forced(Ok(Some(message))) => write!(f, "ok some {message}"),
            Reply::Forced(Err(SendError(message))) => write!(f, "closed {message}"),
            Reply::Received(Ok(message)) => write!(f, "ok {message}"),
            Reply::Received(Err(TryRecvError::Empty)) => write!(f, "empty"),
            Reply::Received(Err(TryRecvError::Closed)) => write!(f, "closed"),
            Reply::Flag(true) => write!(f, "true"),
            Reply::Flag(false) => write!(f, "false"),
            Reply::Count(count) => write!(f, "{count}"),
            Reply::Capacity(Some(capacity)) => write!(f, "some {capacity}"),
            Reply::Capacity(None) => write!(f, "none"),
            Reply::Upgraded(true) => write!(f, "ok"),
            Reply::Upgraded(false) => write!(f, "none"),
            Reply::SendPolled(Poll::Ready(Ok(()))) => write!(f, "ok"),
            Reply::SendPolled(Poll::Ready(Err(SendError(message)))) => write!(
                f,
                "closed {message}"
            ),
            Reply::RecvPolled(Poll::Ready(Ok(message))) => write!(f, "ok {message}"),
            Reply::RecvPolled(Poll::Ready(Err(_))) => write!(f, "closed"),
            Reply::ClosedPolled(Poll::Ready(())) => write!(f, "ready"),
            Reply::NextPolled(Poll::Ready(Some(message))) => write!(f, "some {message}"),
            Reply::NextPolled(Poll::Ready(None)) => write!(f, "end"),
            Reply::SendPolled(Poll::Pending)
            | Reply::RecvPolled(Poll::Pending)
            | Reply::ClosedPolled(Poll::Pending)
            | Reply::NextPolled(Poll::Pending) => write!(f, "pending"),
            Reply::Refused(Refusal::Unknown, _) => write!(f, "refused: unknown"),
            Reply::Refused(Refusal::Taken, _) => write!(f, "refused: taken"),
            Reply::Refused(Refusal::Borrowed, _) => write!(f, "refused: borrowed"),
            Reply::Refused(Refusal::TooMany, _) => write!(f, "refused: too many"),
            Reply::Refused(Refusal::OutOfMemory, _) => write!(f, "refused: out of memory"),
        }
    }
}

impl fmt::Display for NoticeText {
    ghost use Rattle.std.specs.Prelude.{Some};
    ghost use Rattle.chanrun.specs.Texts.{notice_text};

    ghost output = { λ text. Some (notice_text text.0) };

    fn fmt<W: fmt::Write>(&self, f: &mut fmt::Formatter<W>) -> fmt::Result {
        match self.0 {
            Notice::Absent => write!(f, "absent"),
            Notice::Untold => write!(f, "untold"),
            Notice::Told => write!(f, "told"),
        }
    }
}

impl fmt::Display for WhoText {
    ghost use Rattle.std.specs.Prelude.{Some};
    ghost use Rattle.chanrun.specs.Texts.{who_text};

    ghost output = { λ text. Some (who_text text.0) };

    fn fmt<W: fmt::Write>(&self, f: &mut fmt::Formatter<W>) -> fmt::Result {
        match self.0 {
            Who::Op(op) => write!(f, "o{op}"),
            Who::Receiver(receiver) => write!(f, "r{receiver}"),
        }
    }
}
