//! What a recorder is called for, and what came of it.
use channel_core::{SendError, TryRecvError, TrySendError};

/// A call of a recorded channel, by its one sender or its one receiver.
///
/// # Examples
///
/// ```
/// let mut journal: Journal<u64> = Journal::new(rt.alloc(), Kind::Unbounded)?;
/// let (place, outcome) = journal.call(Call::ForceSend(7))?;
/// assert_eq!(rt; place, 0);
/// assert_eq!(rt; outcome, Outcome::Forced(Ok(None)));
/// ```
#[derive(Clone, Copy, Debug, PartialEq, Eq)]
pub enum Call<T> {
    /// Sends a message, if the channel is open and not full.
    TrySend(T),
    /// Sends a message, and if the channel is full displaces the oldest one.
    ForceSend(T),
    /// Takes the oldest message, if there is one.
    TryRecv,
    /// Closes the channel. Its messages stay.
    Close,
    /// Asks whether the channel is closed.
    IsClosed,
    /// Asks how many messages are held.
    Len,
}

/// What a call answered.
///
/// # Examples
///
/// ```
/// let mut journal: Journal<u64> = Journal::new(rt.alloc(), Kind::Unbounded)?;
/// let (_place, outcome) = journal.call(Call::TryRecv)?;
/// assert_eq!(rt; outcome, Outcome::Received(Err(TryRecvError::Empty)));
/// ```
#[derive(Clone, Copy, Debug, PartialEq, Eq)]
pub enum Outcome<T> {
    /// To `TrySend`: the message went in, or comes back.
    TrySent(Result<(), TrySendError<T>>),
    /// To `ForceSend`: the message went in, and displaced this one; or it comes back.
    Forced(Result<Option<T>, SendError<T>>),
    /// To `TryRecv`.
    Received(Result<T, TryRecvError>),
    /// To `Close`, whether the channel was open; to `IsClosed`, whether it is closed.
    Flag(bool),
    /// To `Len`.
    Count(usize),
}
