//! Lines: where each ends, its words, and what the first line and the others ask for.
ghost use Rattle.std.specs.Prelude.{◌≡◌, ◌<◌, ◌≤◌, ◌==◌, ◌∷◌, length, map, position, IfOk};
ghost use Rattle.std.specs.List.{slice_split};
ghost use Rattle.channel_model.specs.Capacity.{HasPositiveCapacity};
ghost use Rattle.chanrun.specs.Grammar.{lines_of, word_of, command_of, kind_of};
ghost use Rattle.chanrun.specs.Grammar.{bounded_with, unbounded_with, kind_with};

use super::command::{Command, command_with};
use super::fault::Fault;
use super::verb::verb_of;
use super::word::{Word, word_of};
use channel_model::Kind;
use std::alloc::{AllocError, Global};

/// How many bytes a line may have, without its end.
///
/// # Examples
///
/// ```
/// let line = [b'x'; LINE_LIMIT + 1];
/// assert_eq!(rt; command_of(rt.alloc(), line.as_slice())?, Err(Fault::LineTooLong));
/// ```
pub const LINE_LIMIT: usize = 256;

// The parts of a line between single spaces.
fn split_words(alloc: Global, line: &[u8]) -> Result<Vec<&[u8]>, AllocError>
    ensures { IfOk result (λ words. map (λ word. word.now) words.items
        ≡ slice_split (λ byte. byte == 32) line.now) }
{
    line.split(|byte| *byte == b' ').collect(alloc)
}

fn words_of(alloc: Global, parts: &[&[u8]]) -> Result<Vec<Word>, AllocError>
    ensures { IfOk result (λ words. words.items ≡ map (λ part. word_of part.now) parts.now) }
{
    parts.iter().map(|part| word_of(part)).collect(alloc)
}

// Where the first line ends.
fn line_end(bytes: &[u8]) -> Option<usize>
    ensures { result ≡ position (λ byte. byte == 10) bytes.now }
{
    bytes.iter().position(|byte| *byte == b'\n')
}

/// The first line without its end, and what stands after it.
///
/// # Examples
///
/// ```
/// let (line, others) = split_line(b"len s0\nlen r0".as_slice());
/// assert_eq!(rt; line, b"len s0".as_slice());
/// assert_eq!(rt; others, b"len r0".as_slice());
///
/// let (line, others) = split_line(others);
/// assert_eq!(rt; line, b"len r0".as_slice());
/// assert!(rt; others.is_empty());
/// ```
pub fn split_line(bytes: &[u8]) -> (&[u8], &[u8])
    requires { 0 < length bytes.now }
    ensures lines { lines_of bytes.now ≡ result.0.now ∷ lines_of result.1.now }
    ensures shorter { length result.1.now < length bytes.now }
{
    match line_end(bytes) {
        Some(end) => (&bytes[..end], &bytes[end + 1..]),
        None => (bytes, &[]),
    }
}

/// The lines without their ends.
///
/// # Examples
///
/// ```
/// let lines = lines_of(rt.alloc(), b"unbounded\nlen s0".as_slice())?;
/// assert_eq!(rt; lines.len(), 2);
/// assert_eq!(rt; lines[1], b"len s0".as_slice());
/// ```
pub fn lines_of(alloc: Global, bytes: &[u8]) -> Result<Vec<&[u8]>, AllocError>
    ensures lines { IfOk result (λ lines. map (λ line. line.now) lines.items ≡ lines_of bytes.now) }
    ensures few { IfOk result (λ lines. length lines.items ≤ length bytes.now) }
{
    let mut lines = Vec::new(alloc);
    let mut rest = bytes;
    while !rest.is_empty() {
        let (line, others) = split_line(rest);
        lines.push(line)?;
        rest = others;
    }
    Ok(lines)
}

/// What a line after the first one asks for, or its first fault.
///
/// # Examples
///
/// ```
/// let command = command_of(rt.alloc(), b"len s0".as_slice())?;
/// assert_eq!(rt; command, Ok(Command::Make(Step::Len(Side::Sender(0)))));
/// let command = command_of(rt.alloc(), b"len  s0".as_slice())?;
/// assert_eq!(rt; command, Err(Fault::WrongWordCount));
/// ```
pub fn command_of(alloc: Global, line: &[u8]) -> Result<Result<Command, Fault>, AllocError>
    ensures { IfOk result (λ said. said ≡ command_of line.now) }
{
    if line.len() > LINE_LIMIT {
        return Ok(Err(Fault::LineTooLong));
    }
    let parts = split_words(alloc, line)?;
    let [verb, others @ ..] = parts.as_slice() else {
        return Ok(Err(Fault::UnknownCommand));
    };
    let Some(verb) = verb_of(verb) else {
        return Ok(Err(Fault::UnknownCommand));
    };
    let words = words_of(alloc, others)?;
    Ok(command_with(verb, words.as_slice()))
}

fn bounded_with(words: &[Word]) -> Result<Kind, Fault>
    ensures said { result ≡ bounded_with words.now }
    ensures positive { IfOk result HasPositiveCapacity }
{
    match words {
        [word] => word.capacity(),
        _ => Err(Fault::WrongWordCount),
    }
}

fn unbounded_with(words: &[Word]) -> Result<Kind, Fault>
    ensures { result ≡ unbounded_with words.now }
{
    match words {
        [] => Ok(Kind::Unbounded),
        _ => Err(Fault::WrongWordCount),
    }
}

fn kind_with(kind: &[u8], words: &[Word]) -> Result<Kind, Fault>
    ensures said { result ≡ kind_with kind.now words.now }
    ensures positive { IfOk result HasPositiveCapacity }
{
    if kind == b"bounded".as_slice() {
        bounded_with(words)
    } else if kind == b"unbounded".as_slice() {
        unbounded_with(words)
    } else {
        Err(Fault::ChannelMissing)
    }
}

/// The channel that the first line asks for, or its first fault.
///
/// # Examples
///
/// ```
/// assert_eq!(rt; kind_of(rt.alloc(), b"unbounded".as_slice())?, Ok(Kind::Unbounded));
/// assert_eq!(rt; kind_of(rt.alloc(), b"bounded 5".as_slice())?, Ok(Kind::Bounded(5)));
/// assert_eq!(rt; kind_of(rt.alloc(), b"bounded 0".as_slice())?, Err(Fault::CapacityZero));
/// assert_eq!(rt; kind_of(rt.alloc(), b"len s0".as_slice())?, Err(Fault::ChannelMissing));
/// ```
pub fn kind_of(alloc: Global, line: &[u8]) -> Result<Result<Kind, Fault>, AllocError>
    ensures said { IfOk result (λ said. said ≡ kind_of line.now) }
    ensures positive { IfOk result (λ said. IfOk said HasPositiveCapacity) }
{
    if line.len() > LINE_LIMIT {
        return Ok(Err(Fault::LineTooLong));
    }
    let parts = split_words(alloc, line)?;
    let [kind, others @ ..] = parts.as_slice() else {
        return Ok(Err(Fault::ChannelMissing));
    };
    let words = words_of(alloc, others)?;
    Ok(kind_with(kind, words.as_slice()))
}
