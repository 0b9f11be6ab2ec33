//! A script's lines as values: each is read once, before the first one is done.
ghost use Rattle.std.specs.Prelude.{◌≡◌, ◌≤◌, length, map, IfOk};
ghost use Rattle.chanrun.specs.Parsed.{IsCut, IsParsed, lines_said};
ghost use Rattle.chanrun.specs.Script.{commands_of, fault_from};

use crate::grammar::{Fault, command_of, kind_of, lines_of, split_line};
use crate::script::SCRIPT_LIMIT;
use std::alloc::{AllocError, Global};

mod lines;

pub use lines::{Line, Lines, Script};

/// The lines of an input, or the fault of its first one.
///
/// # Examples
///
/// ```
/// let cut = cut_lines(rt.alloc(), b"len s0\nunbounded\n".as_slice())?;
/// assert!(rt; matches!(cut, Err(Fault::ChannelMissing)));
/// ```
pub fn cut_lines(alloc: Global, input: &[u8]) -> Result<Result<Lines, Fault>, AllocError>
    ensures cut { IfOk result (λ cut. IsCut input.now cut) }
    ensures few { IfOk result (λ cut.
        IfOk cut (λ lines. length lines.others.items ≤ length input.now)) }
{
    if input.is_empty() {
        return Ok(Err(Fault::ChannelMissing));
    }
    let (first, others) = split_line(input);
    let kind = match kind_of(alloc, first)? {
        Ok(kind) => kind,
        Err(fault) => return Ok(Err(fault)),
    };
    let others = lines_of(alloc, others)?;
    Ok(Ok(Lines {
        kind,
        first,
        others,
    }))
}

// What lines after the first one ask for, and the first faulty one.
fn commands_in<'a>(
    alloc: Global,
    texts: &[&'a [u8]],
) -> Result<(Vec<Line<'a>>, Option<(u64, Fault)>), AllocError>
    requires { length texts.now ≤ SCRIPT_LIMIT }
    ensures commands { IfOk result (λ read. map (λ line. line.command) read.0.items
        ≡ commands_of (map (λ text. text.now) texts.now)) }
    ensures said { IfOk result (λ read. map (λ line. (line.text.now, line.command)) read.0.items
        ≡ lines_said (map (λ text. text.now) texts.now)) }
    ensures fault { IfOk result (λ read.
        read.1 ≡ fault_from 2 (map (λ text. text.now) texts.now)) }
{
    let mut lines = Vec::new(alloc);
    let mut number: u64 = 1;
    for text in texts {
        number += 1;
        let text: &'a [u8] = text;
        match command_of(alloc, text)? {
            Ok(command) => lines.push(Line {
                number,
                text,
                command,
            })?,
            Err(fault) => return Ok((lines, Some((number, fault)))),
        }
    }
    Ok((lines, None))
}

/// What a script says, or the fault of its first line.
///
/// # Examples
///
/// ```
/// let Ok(script) = script_of(rt.alloc(), b"bounded 1\nlen s0\n".as_slice())? else {
///     return Err("no channel".into());
/// };
/// assert_eq!(rt; script.kind, Kind::Bounded(1));
/// assert_eq!(rt; script.lines.len(), 1);
/// assert_eq!(rt; script.fault, None);
/// ```
pub fn script_of(alloc: Global, input: &[u8]) -> Result<Result<Script, Fault>, AllocError>
    requires { length input.now ≤ SCRIPT_LIMIT }
    ensures { IfOk result (λ said. IsParsed input.now said) }
{
    let cut = match cut_lines(alloc, input)? {
        Ok(cut) => cut,
        Err(fault) => return Ok(Err(fault)),
    };
    let (lines, fault) = commands_in(alloc, cut.others.as_slice())?;
    Ok(Ok(Script {
        kind: cut.kind,
        first: cut.first,
        lines,
        fault,
    }))
}
