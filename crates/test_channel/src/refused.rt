//! Calls that are refused memory, and are made again.
use crate::answer::Answer;
use crate::line::{Line, Messages};
use channel_model::{Refusal, Reply, Step};

/// Whether a call was refused memory, and handed its own message back.
pub fn wants_memory(line: Line, answer: &Answer) -> bool {
    let Answer::Replied(Reply::Refused(Refusal::OutOfMemory, back)) = answer else {
        return false;
    };
    match line {
        Line::One(Step::TrySend(_, message) | Step::ForceSend(_, message))
        | Line::SendBlocking(_, message) => *back == Some(message),
        _ => back.is_none(),
    }
}

/// How many messages a batch moved.
fn moved(answer: &Answer) -> Option<usize> {
    match answer {
        Answer::Sent(Ok(count), _) | Answer::Received(Ok(count), _) => Some(*count),
        _ => None,
    }
}

/// What is left of a batch that moved fewer messages than expected.
pub fn rest_of(line: Line, answer: &Answer, expected: &Answer) -> Option<Line> {
    let count = moved(answer)?;
    if count >= moved(expected)? {
        return None;
    }
    match line {
        Line::SendMany(way, sender, messages) => {
            let first = messages.first.saturating_add(count as u64);
            let count = messages.count.saturating_sub(count as u64);
            Some(Line::SendMany(way, sender, Messages { first, count }))
        }
        Line::RecvMany(way, receiver, limit) => {
            Some(Line::RecvMany(way, receiver, limit.saturating_sub(count)))
        }
        _ => None,
    }
}

impl Answer {
    /// The answer of a batch that was made in two parts.
    pub fn and(self, rest: Answer) -> anyhow::Result<Answer> {
        match (self, rest) {
            (Answer::Sent(Ok(count), _), Answer::Sent(Ok(more), left)) => {
                Ok(Answer::Sent(Ok(count.saturating_add(more)), left))
            }
            (Answer::Received(Ok(count), mut came), Answer::Received(Ok(more), behind)) => {
                for message in behind {
                    came.push(message)?;
                }
                Ok(Answer::Received(Ok(count.saturating_add(more)), came))
            }
            (_, rest) => Ok(rest),
        }
    }
}
