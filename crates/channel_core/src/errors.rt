//! What a call answers if it doesn't do what was asked.
//!
//! Nothing has changed after any of these, and a message that was handed in comes back. No text and
//! no `Debug` asks anything of the message's type. Two of a type are equal if they are the same case
//! with equal messages, as their derived `PartialEq` says.
ghost use Rattle.std.specs.Prelude.{◌≡◌, Some, codes};
ghost use Rattle.channel_core.specs.Errors.{message_of, was_full, was_closed, try_send_text, try_send_debug, was_empty, was_ended, try_recv_text, try_recv_debug, make_text, make_debug, clone_text, clone_debug};

use std::error::Error;
use std::fmt;

/// The channel is closed. The message comes back.
///
/// # Examples
///
/// ```
/// let error = SendError(7);
/// let text = format!(in rt.alloc(); "{error}, {error:?}")?;
/// assert_eq!(rt; text.as_str(), "sending into a closed channel, SendError(..)");
/// assert_eq!(rt; error.into_inner(), 7);
/// ```
#[derive(Clone, Copy, Drop, PartialEq, Eq)]
pub struct SendError<T>(pub T);

/// The message can't be sent now. It comes back.
///
/// # Examples
///
/// ```
/// let error = TrySendError::Full(7);
/// assert!(rt; error.is_full());
/// assert!(rt; !error.is_closed());
/// let text = format!(in rt.alloc(); "{error}, {error:?}")?;
/// assert_eq!(rt; text.as_str(), "sending into a full channel, Full(..)");
/// assert_eq!(rt; error.into_inner(), 7);
///
/// let error = TrySendError::Closed(7);
/// let text = format!(in rt.alloc(); "{error}, {error:?}")?;
/// assert_eq!(rt; text.as_str(), "sending into a closed channel, Closed(..)");
/// ```
#[derive(Clone, Copy, Drop, PartialEq, Eq)]
pub enum TrySendError<T> {
    /// The channel is full, and open.
    Full(T),
    /// The channel is closed.
    Closed(T),
}

/// The channel is empty and closed, so that no message will come.
///
/// # Examples
///
/// ```
/// let text = format!(in rt.alloc(); "{RecvError}, {RecvError:?}")?;
/// assert_eq!(rt; text.as_str(), "receiving from an empty and closed channel, RecvError");
/// ```
#[derive(Clone, Copy, PartialEq, Eq)]
pub struct RecvError;

/// No message can be received now.
///
/// # Examples
///
/// ```
/// assert!(rt; TryRecvError::Empty.is_empty());
/// assert!(rt; TryRecvError::Closed.is_closed());
///
/// let (empty, closed) = (TryRecvError::Empty, TryRecvError::Closed);
/// let text = format!(in rt.alloc(); "{empty}, {empty:?}")?;
/// assert_eq!(rt; text.as_str(), "receiving from an empty channel, Empty");
/// let text = format!(in rt.alloc(); "{closed}, {closed:?}")?;
/// assert_eq!(rt; text.as_str(), "receiving from an empty and closed channel, Closed");
/// ```
#[derive(Clone, Copy, PartialEq, Eq)]
pub enum TryRecvError {
    /// The channel is empty, and open.
    Empty,
    /// The channel is empty and closed.
    Closed,
}

/// Memory was refused.
///
/// # Examples
///
/// ```
/// let text = format!(in rt.alloc(); "{OutOfMemory}, {OutOfMemory:?}")?;
/// assert_eq!(rt; text.as_str(), "out of memory, OutOfMemory");
/// ```
#[derive(Clone, Copy, PartialEq, Eq)]
pub struct OutOfMemory;

/// Memory was refused. The message comes back.
///
/// # Examples
///
/// ```
/// let error = NoMemory(7);
/// let text = format!(in rt.alloc(); "{error}, {error:?}")?;
/// assert_eq!(rt; text.as_str(), "out of memory, NoMemory(..)");
/// let NoMemory(message) = error;
/// assert_eq!(rt; message, 7);
/// ```
#[derive(Clone, Copy, Drop, PartialEq, Eq)]
pub struct NoMemory<T>(pub T);

/// A channel was not made.
///
/// # Examples
///
/// ```
/// let (stamps, memory) = (MakeError::NoStamps, MakeError::OutOfMemory);
/// let text = format!(in rt.alloc(); "{stamps}, {stamps:?}")?;
/// assert_eq!(rt; text.as_str(), "no stamp is left, NoStamps");
/// let text = format!(in rt.alloc(); "{memory}, {memory:?}")?;
/// assert_eq!(rt; text.as_str(), "out of memory, OutOfMemory");
/// ```
#[derive(Clone, Copy, PartialEq, Eq)]
pub enum MakeError {
    /// Memory was refused.
    OutOfMemory = 1,
    /// The maker has given its last stamp.
    NoStamps = 2,
}

/// A handle was not copied or upgraded.
///
/// # Examples
///
/// ```
/// let (many, memory) = (CloneError::TooMany, CloneError::OutOfMemory);
/// let text = format!(in rt.alloc(); "{many}, {many:?}")?;
/// assert_eq!(rt; text.as_str(), "too many handles, TooMany");
/// let text = format!(in rt.alloc(); "{memory}, {memory:?}")?;
/// assert_eq!(rt; text.as_str(), "out of memory, OutOfMemory");
/// ```
#[derive(Clone, Copy, PartialEq, Eq)]
pub enum CloneError {
    /// There are more handles of its kind than half of what a `usize` can count.
    TooMany = 1,
    /// Memory was refused.
    OutOfMemory = 2,
}

impl<T> SendError<T> {
    /// The message.
    pub fn into_inner(self) -> T
        ensures { result ≡ self.0 }
    {
        let SendError(message) = self;
        message
    }
}

impl<T> TrySendError<T> {
    /// The message.
    pub fn into_inner(self) -> T
        ensures { result ≡ message_of self }
    {
        match self {
            TrySendError::Full(message) => message,
            TrySendError::Closed(message) => message,
        }
    }

    /// Whether the channel was full, and open.
    pub fn is_full(&self) -> bool
        ensures { result ≡ was_full self.now }
    {
        matches!(self, TrySendError::Full(_))
    }

    /// Whether the channel was closed.
    pub fn is_closed(&self) -> bool
        ensures { result ≡ was_closed self.now }
    {
        matches!(self, TrySendError::Closed(_))
    }
}

impl TryRecvError {
    /// Whether the channel was empty, and open.
    pub fn is_empty(&self) -> bool
        ensures { result ≡ was_empty self.now }
    {
        matches!(self, TryRecvError::Empty)
    }

    /// Whether the channel was empty and closed.
    pub fn is_closed(&self) -> bool
        ensures { result ≡ was_ended self.now }
    {
        matches!(self, TryRecvError::Closed)
    }
}

impl<T> fmt::Display for SendError<T> {
    ghost output = { λ _. Some (codes "sending into a closed channel") };

    fn fmt<W: fmt::Write>(&self, f: &mut fmt::Formatter<W>) -> fmt::Result {
        f.write_str("sending into a closed channel")
    }
}

impl<T> fmt::Debug for SendError<T> {
    ghost debug_output = { λ _. Some (codes "SendError(..)") };

    fn fmt<W: fmt::Write>(&self, f: &mut fmt::Formatter<W>) -> fmt::Result {
        f.write_str("SendError(..)")
    }
}

impl<T: Drop> Error for SendError<T> {}

impl<T> fmt::Display for TrySendError<T> {
    ghost output = { λ error. Some (try_send_text error) };

    fn fmt<W: fmt::Write>(&self, f: &mut fmt::Formatter<W>) -> fmt::Result {
        match self {
            TrySendError::Full(_) => f.write_str("sending into a full channel"),
            TrySendError::Closed(_) => f.write_str("sending into a closed channel"),
        }
    }
}

impl<T> fmt::Debug for TrySendError<T> {
    ghost debug_output = { λ error. Some (try_send_debug error) };

    fn fmt<W: fmt::Write>(&self, f: &mut fmt::Formatter<W>) -> fmt::Result {
        match self {
            TrySendError::Full(_) => f.write_str("Full(..)"),
            TrySendError::Closed(_) => f.write_str("Closed(..)"),
        }
    }
}

impl<T: Drop> Error for TrySendError<T> {}

impl fmt::Display for RecvError {
    ghost output = { λ _. Some (codes "receiving from an empty and closed channel") };

    fn fmt<W: fmt::Write>(&self, f: &mut fmt::Formatter<W>) -> fmt::Result {
        f.write_str("receiving from an empty and closed channel")
    }
}

impl fmt::Debug for RecvError {
    ghost debug_output = { λ _. Some (codes "RecvError") };

    fn fmt<W: fmt::Write>(&self, f: &mut fmt::Formatter<W>) -> fmt::Result {
        f.write_str("RecvError")
    }
}

impl Error for RecvError {}

impl fmt::Display for TryRecvError {
    ghost output = { λ error. Some (try_recv_text error) };

    fn fmt<W: fmt::Write>(&self, f: &mut fmt::Formatter<W>) -> fmt::Result {
        f.write_str(match self {
            TryRecvError::Empty => "receiving from an empty channel",
            TryRecvError::Closed => "receiving from an empty and closed channel",
        })
    }
}

impl fmt::Debug for TryRecvError {
    ghost debug_output = { λ error. Some (try_recv_debug error) };

    fn fmt<W: fmt::Write>(&self, f: &mut fmt::Formatter<W>) -> fmt::Result {
        f.write_str(match self {
            TryRecvError::Empty => "Empty",
            TryRecvError::Closed => "Closed",
        })
    }
}

impl Error for TryRecvError {}

impl fmt::Display for OutOfMemory {
    ghost output = { λ _. Some (codes "out of memory") };

    fn fmt<W: fmt::Write>(&self, f: &mut fmt::Formatter<W>) -> fmt::Result {
        f.write_str("out of memory")
    }
}

impl fmt::Debug for OutOfMemory {
    ghost debug_output = { λ _. Some (codes "OutOfMemory") };

    fn fmt<W: fmt::Write>(&self, f: &mut fmt::Formatter<W>) -> fmt::Result {
        f.write_str("OutOfMemory")
    }
}

impl Error for OutOfMemory {}

impl<T> fmt::Display for NoMemory<T> {
    ghost output = { λ _. Some (codes "out of memory") };

    fn fmt<W: fmt::Write>(&self, f: &mut fmt::Formatter<W>) -> fmt::Result {
        f.write_str("out of memory")
    }
}

impl<T> fmt::Debug for NoMemory<T> {
    ghost debug_output = { λ _. Some (codes "NoMemory(..)") };

    fn fmt<W: fmt::Write>(&self, f: &mut fmt::Formatter<W>) -> fmt::Result {
        f.write_str("NoMemory(..)")
    }
}

impl<T: Drop> Error for NoMemory<T> {}

impl fmt::Display for MakeError {
    ghost output = { λ error. Some (make_text error) };

    fn fmt<W: fmt::Write>(&self, f: &mut fmt::Formatter<W>) -> fmt::Result {
        f.write_str(match self {
            MakeError::OutOfMemory => "out of memory",
            MakeError::NoStamps => "no stamp is left",
        })
    }
}

impl fmt::Debug for MakeError {
    ghost debug_output = { λ error. Some (make_debug error) };

    fn fmt<W: fmt::Write>(&self, f: &mut fmt::Formatter<W>) -> fmt::Result {
        f.write_str(match self {
            MakeError::OutOfMemory => "OutOfMemory",
            MakeError::NoStamps => "NoStamps",
        })
    }
}

impl Error for MakeError {}

impl fmt::Display for CloneError {
    ghost output = { λ error. Some (clone_text error) };

    fn fmt<W: fmt::Write>(&self, f: &mut fmt::Formatter<W>) -> fmt::Result {
        f.write_str(match self {
            CloneError::TooMany => "too many handles",
            CloneError::OutOfMemory => "out of memory",
        })
    }
}

impl fmt::Debug for CloneError {
    ghost debug_output = { λ error. Some (clone_debug error) };

    fn fmt<W: fmt::Write>(&self, f: &mut fmt::Formatter<W>) -> fmt::Result {
        f.write_str(match self {
            CloneError::TooMany => "TooMany",
            CloneError::OutOfMemory => "OutOfMemory",
        })
    }
}

impl Error for CloneError {}
