//! What answers a line.
use TrySendError::{Closed, Full};
use anyhow::Result;
use channel_model::{Notice, Reply, TryRecvError, TrySendError, Who};
use chanrun::reply_text::{NoticeText, ReplyText, WhoText};
use std::alloc::Global;
use std::fmt;

/// How many messages a batch moved, or why there was none.
pub type Counted<E> = std::result::Result<usize, E>;

/// What a line answers.
#[derive(Drop, PartialEq)]
pub enum Answer {
    Replied(Reply<u64>),
    Noticed(Notice),
    /// How many polls settling made, and which of them were ready.
    Settled(u64, Vec<(Who, Reply<u64>)>),
    /// To a batch that receives, with what came.
    Received(Counted<TryRecvError>, Vec<u64>),
    /// To a batch that sends, with how many are left.
    Sent(Counted<TrySendError<()>>, usize),
    /// To `IntoMsg`.
    Message(Option<u64>),
    /// Nothing, since a handle would block, or the run refuses a batch.
    Skipped,
}

/// Whether each message is one more than the one before it.
fn are_in_turn(messages: &[u64]) -> bool {
    let mut next = messages.first().copied();
    for message in messages {
        if next != Some(*message) {
            return false;
        }
        next = message.checked_add(1);
    }
    true
}

/// How a batch that receives ended, and what came. Many in turn are named by the first and last.
#[derive(Drop)]
struct ReceivedText(Counted<TryRecvError>, Vec<u64>);

impl fmt::Display for ReceivedText {
    fn fmt<W: fmt::Write>(&self, f: &mut fmt::Formatter<W>) -> fmt::Result {
        match &self.0 {
            Ok(count) => write!(f, "ok {count}")?,
            Err(TryRecvError::Empty) => write!(f, "empty")?,
            Err(TryRecvError::Closed) => write!(f, "closed")?,
        }
        let messages = self.1.as_slice();
        if let (Some(first), Some(last)) = (messages.first(), messages.last())
            && messages.len() > 4
            && are_in_turn(messages)
        {
            return write!(f, " from {first} to {last}");
        }
        for message in messages {
            write!(f, " {message}")?;
        }
        Ok(())
    }
}

/// What settling came to.
fn settled_text(alloc: Global, polls: u64, ready: Vec<(Who, Reply<u64>)>) -> Result<String> {
    let mut text = format!(in alloc; "settled {polls} {}", ready.len())?;
    for (who, reply) in ready {
        let (who, reply) = (WhoText(who), ReplyText(reply));
        text.push_str(format!(in alloc; ", {who} {reply}")?.as_str())?;
    }
    Ok(text)
}

impl Answer {
    /// Whether the line was made.
    pub fn is_made(&self) -> bool {
        !matches!(self, Answer::Skipped | Answer::Replied(Reply::Refused(..)))
    }

    /// The answer as a row has it.
    pub fn text(self, alloc: Global) -> Result<String> {
        Ok(match self {
            Answer::Replied(reply) => format!(in alloc; "{}", ReplyText(reply))?,
            Answer::Noticed(notice) => format!(in alloc; "{}", NoticeText(notice))?,
            Answer::Settled(polls, ready) => settled_text(alloc, polls, ready)?,
            Answer::Received(received, messages) => {
                format!(in alloc; "{}", ReceivedText(received, messages))?
            }
            Answer::Sent(Ok(count), left) => format!(in alloc; "ok {count}, {left} left")?,
            Answer::Sent(Err(Full(())), left) => format!(in alloc; "full, {left} left")?,
            Answer::Sent(Err(Closed(())), left) => format!(in alloc; "closed, {left} left")?,
            Answer::Message(Some(message)) => format!(in alloc; "some {message}")?,
            Answer::Message(None) => format!(in alloc; "none")?,
            Answer::Skipped => format!(in alloc; "blocks")?,
        })
    }
}
