//! What a script's lines are as values.
ghost use Rattle.channel_model.specs.Capacity.{HasPositiveCapacity};

use crate::grammar::{Command, Fault};
use channel_model::Kind;

/// The lines of an input whose first line makes a channel.
///
/// # Examples
///
/// ```
/// let Ok(lines) = cut_lines(rt.alloc(), b"bounded 5\nlen s0\nlen r0\n".as_slice())? else {
///     return Err("no channel".into());
/// };
/// assert_eq!(rt; lines.kind, Kind::Bounded(5));
/// assert_eq!(rt; lines.first, b"bounded 5".as_slice());
/// assert_eq!(rt; lines.others.len(), 2);
/// ```
#[derive(Drop)]
pub struct Lines<'a> {
    /// The channel.
    pub kind: Kind,
    ghost positive: { HasPositiveCapacity kind },
    /// The line that makes it.
    pub first: &'a [u8],
    /// The lines after that one.
    pub others: Vec<&'a [u8]>,
}

/// A line of a script after the first one.
///
/// # Examples
///
/// ```
/// let Ok(script) = script_of(rt.alloc(), b"unbounded\nsettle\n".as_slice())? else {
///     return Err("no channel".into());
/// };
/// let line: Line = script.lines[0];
/// assert_eq!(rt; line.number, 2);
/// assert_eq!(rt; line.text, b"settle".as_slice());
/// assert_eq!(rt; line.command, Command::Settle);
/// ```
#[derive(Clone, Copy)]
pub struct Line<'a> {
    /// Its number, from 1 for the first line.
    pub number: u64,
    /// Its bytes, without its end.
    pub text: &'a [u8],
    /// What it asks for.
    pub command: Command,
}

/// What a script says, up to its first faulty line.
///
/// # Examples
///
/// ```
/// let Ok(script) = script_of(rt.alloc(), b"unbounded\nlen s0\nlen x0\n".as_slice())? else {
///     return Err("no channel".into());
/// };
/// assert_eq!(rt; script.lines.len(), 1);
/// assert_eq!(rt; script.fault, Some((3, Fault::BadName)));
/// ```
#[derive(Drop)]
pub struct Script<'a> {
    /// The channel.
    pub kind: Kind,
    ghost positive: { HasPositiveCapacity kind },
    /// The line that makes it.
    pub first: &'a [u8],
    /// The lines after that one, to the first faulty one.
    pub lines: Vec<Line<'a>>,
    /// The number and the fault of that one, if there is one.
    pub fault: Option<(u64, Fault)>,
}
