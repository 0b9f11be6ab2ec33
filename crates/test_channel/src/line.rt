//! The lines of a script.
use anyhow::{Result, anyhow};
use channel_model::{Step, Who};
use chanrun::grammar::{Command, command_of};
use std::alloc::Global;

/// Messages that follow one another: the first one, and how many.
#[derive(Clone, Copy)]
pub struct Messages {
    pub first: u64,
    pub count: u64,
}

/// By which call a batch is moved.
#[derive(Clone, Copy, PartialEq)]
pub enum Way {
    Plain,
    Blocking,
    /// By an operation, which is polled once and given up.
    Polled,
}

/// One call, by the names of its handles and operations.
#[derive(Clone, Copy)]
pub enum Line {
    /// A single step.
    One(Step<u64>),
    /// Whether somebody waits, and was told, as the run has it.
    Notice(Who),
    /// Those who were told are polled until nobody is.
    Settle,
    /// A sender, and its message.
    SendBlocking(u64, u64),
    RecvBlocking(u64),
    SendMany(Way, u64, Messages),
    /// A receiver, and how many messages it takes at most.
    RecvMany(Way, u64, usize),
    /// Takes so many from an iterator over what is there.
    TryIter(u64, usize),
    /// A send is given up for its message.
    IntoMsg(u64),
}

/// The word that can't be read, and why.
type Unread<'t> = (&'t str, &'static str);

/// The number behind these letters.
fn number<'t>(letters: &str, word: &'t str) -> std::result::Result<u64, Unread<'t>> {
    word.strip_prefix(letters)
        .and_then(|digits| digits.parse::<u64>().ok())
        .ok_or((word, "no name, or no number"))
}

/// By which of the calls of this name a verb moves a batch.
fn way_of<'t>(call: &str, verb: &'t str) -> std::result::Result<Way, Unread<'t>> {
    if verb == call {
        Ok(Way::Polled)
    } else if verb.strip_prefix("try_") == Some(call) {
        Ok(Way::Plain)
    } else if verb.strip_suffix("_blocking") == Some(call) {
        Ok(Way::Blocking)
    } else {
        Err((verb, "no verb"))
    }
}

/// The line that words say.
fn line_of_words<'t>(words: &[&'t str], text: &'t str) -> std::result::Result<Line, Unread<'t>> {
    Ok(match words {
        ["send_blocking", sender, message] => {
            Line::SendBlocking(number("s", sender)?, number("", message)?)
        }
        ["recv_blocking", receiver] => Line::RecvBlocking(number("r", receiver)?),
        ["into_msg", op] => Line::IntoMsg(number("o", op)?),
        ["try_iter", receiver, limit] => {
            Line::TryIter(number("r", receiver)?, number("", limit)? as usize)
        }
        [verb, receiver, limit] => {
            let (receiver, limit) = (number("r", receiver)?, number("", limit)?);
            Line::RecvMany(way_of("recv_many", verb)?, receiver, limit as usize)
        }
        [verb, sender, first, count] => {
            let (first, count) = (number("", first)?, number("", count)?);
            let messages = Messages { first, count };
            Line::SendMany(way_of("send_many", verb)?, number("s", sender)?, messages)
        }
        _ => return Err((text, "no line")),
    })
}

/// The line that a text says.
pub fn line_of(alloc: Global, text: &str) -> Result<Line> {
    match command_of(alloc, text.as_bytes())? {
        Ok(Command::Make(step)) => return Ok(Line::One(step)),
        Ok(Command::Settle) => return Ok(Line::Settle),
        Ok(Command::Notice(who)) => return Ok(Line::Notice(who)),
        Err(_) => {}
    }
    let words: Vec<&str> = text.split_whitespace().collect(alloc)?;
    line_of_words(words.as_slice(), text).map_err(|(word, why)| anyhow!("{word}: {why}"))
}
