//! Whether two calls, or two outcomes, are the same.
ghost use Rattle.std.specs.Prelude.{◌≡◌, ◌↔◌, IsTrue};

use crate::calls::{Call, Outcome};
use channel_core::{Exact, SendError, TryRecvError, TrySendError};

/// Whether two calls are the same.
pub(crate) fn same_call<T: Exact>(one: &Call<T>, other: &Call<T>) -> bool
    ensures { IsTrue result ↔ (one.now ≡ other.now) }
{
    match (one, other) {
        (Call::TrySend(message), Call::TrySend(beside)) => message == beside,
        (Call::ForceSend(message), Call::ForceSend(beside)) => message == beside,
        (Call::TryRecv, Call::TryRecv) => true,
        (Call::Close, Call::Close) => true,
        (Call::IsClosed, Call::IsClosed) => true,
        (Call::Len, Call::Len) => true,
        _ => false,
    }
}

fn same_refused<T: Exact>(one: &TrySendError<T>, other: &TrySendError<T>) -> bool
    ensures { IsTrue result ↔ (one.now ≡ other.now) }
{
    match (one, other) {
        (TrySendError::Full(message), TrySendError::Full(beside)) => message == beside,
        (TrySendError::Closed(message), TrySendError::Closed(beside)) => message == beside,
        _ => false,
    }
}

fn same_sent<T: Exact>(
    one: &Result<(), TrySendError<T>>,
    other: &Result<(), TrySendError<T>>,
) -> bool
    ensures { IsTrue result ↔ (one.now ≡ other.now) }
{
    match (one, other) {
        (Ok(()), Ok(())) => true,
        (Err(error), Err(beside)) => same_refused(error, beside),
        _ => false,
    }
}

fn same_displaced<T: Exact>(one: &Option<T>, other: &Option<T>) -> bool
    ensures { IsTrue result ↔ (one.now ≡ other.now) }
{
    match (one, other) {
        (Some(message), Some(beside)) => message == beside,
        (None, None) => true,
        _ => false,
    }
}

fn same_forced<T: Exact>(
    one: &Result<Option<T>, SendError<T>>,
    other: &Result<Option<T>, SendError<T>>,
) -> bool
    ensures { IsTrue result ↔ (one.now ≡ other.now) }
{
    match (one, other) {
        (Ok(displaced), Ok(beside)) => same_displaced(displaced, beside),
        (Err(SendError(message)), Err(SendError(beside))) => message == beside,
        _ => false,
    }
}

fn same_received<T: Exact>(one: &Result<T, TryRecvError>, other: &Result<T, TryRecvError>) -> bool
    ensures { IsTrue result ↔ (one.now ≡ other.now) }
{
    match (one, other) {
        (Ok(message), Ok(beside)) => message == beside,
        (Err(TryRecvError::Empty), Err(TryRecvError::Empty)) => true,
        (Err(TryRecvError::Closed), Err(TryRecvError::Closed)) => true,
        _ => false,
    }
}

/// Whether two outcomes are the same.
pub(crate) fn same_outcome<T: Exact>(one: &Outcome<T>, other: &Outcome<T>) -> bool
    ensures { IsTrue result ↔ (one.now ≡ other.now) }
{
    match (one, other) {
        (Outcome::TrySent(sent), Outcome::TrySent(beside)) => same_sent(sent, beside),
        (Outcome::Forced(forced), Outcome::Forced(beside)) => same_forced(forced, beside),
        (Outcome::Received(received), Outcome::Received(beside)) => same_received(received, beside),
        (Outcome::Flag(flag), Outcome::Flag(beside)) => flag == beside,
        (Outcome::Count(count), Outcome::Count(beside)) => count == beside,
        _ => false,
    }
}
