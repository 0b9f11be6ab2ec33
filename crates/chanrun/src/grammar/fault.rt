//! What may be wrong with a line.
use std::error::Error;
use std::fmt;

/// What is wrong with a line. If several apply, the first of them is named.
///
/// # Examples
///
/// ```
/// let command = command_of(rt.alloc(), b"try_send r0 7".as_slice())?;
/// assert_eq!(rt; command, Err(Fault::BadName));
/// let text = format!(in rt.alloc(); "{}", Fault::BadName)?;
/// assert_eq!(rt; text.as_str(), "bad name");
/// ```
#[derive(Clone, Copy, Debug, PartialEq, Eq)]
pub enum Fault {
    /// More than 256 bytes stand before the line's end.
    LineTooLong,
    /// The first line doesn't begin with `bounded` or `unbounded`, or there is none.
    ChannelMissing,
    /// The first word is no command.
    UnknownCommand,
    /// The command has more words, or fewer.
    WrongWordCount,
    /// A word isn't a name of the kind that is asked for in its place.
    BadName,
    /// A word isn't a number.
    BadNumber,
    /// The capacity is 0.
    CapacityZero,
    /// The capacity is above 1,000,000.
    CapacityTooLarge,
}

impl fmt::Display for Fault {
    ghost use Rattle.std.specs.Prelude.{Some};
    ghost use Rattle.chanrun.specs.Texts.{fault_text};

    ghost output = { λ fault. Some (fault_text fault) };

    fn fmt<W: fmt::Write>(&self, f: &mut fmt::Formatter<W>) -> fmt::Result {
        match self {
            Fault::LineTooLong => write!(f, "line is too long"),
            Fault::ChannelMissing => write!(f, "channel is missing"),
            Fault::UnknownCommand => write!(f, "unknown command"),
            Fault::WrongWordCount => write!(f, "wrong number of words"),
            Fault::BadName => write!(f, "bad name"),
            Fault::BadNumber => write!(f, "bad number"),
            Fault::CapacityZero => write!(f, "capacity is zero"),
            Fault::CapacityTooLarge => write!(f, "capacity is too large"),
        }
    }
}

impl Error for Fault {}
