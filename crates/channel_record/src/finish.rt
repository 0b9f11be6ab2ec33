//! The end of a record: what the clerks wrote down is compared with the history.
//!
//! The history lies behind a lock until the end, and no contract follows a value through a lock. So
//! `finish` trusts nothing of it and looks at each entry, in this order:
//!
//! 1. Each clerk has the recorder's stamp, else it is a `Stranger`. What a stranger wrote down says
//!    nothing of this channel, so the journal isn't opened for it.
//! 2. There are as many clerks as were made, else one is `Missing`, and its calls with it.
//! 3. The journal is of the recorder's kind, and the clerks' entries are its history: each call of
//!    the history stands in one clerk's list and there once, with its own place and outcome, and
//!    each list is in the order of the history. Else there is a `Mismatch`.
//!
//! For the third each place of the history has a flag. The entries of one clerk after the other
//! claim their places, and an entry is refused its place if the history has another call or
//! outcome there, if the place isn't above that of the entry before, and if it is claimed
//! already. In the end every place has to be claimed. Rising places keep a clerk's calls in the
//! order in which it made them, and the flags keep a call from being told twice or by nobody, in
//! one look at each entry and each flag.
//!
//! Flags and places take room, so `OutOfMemory` may come before a mismatch is looked for.
ghost use Rattle.std.specs.Prelude.{◌≡◌, ◌≢◌, ◌↔◌, false, true, map, length, IsTrue, IsSome, IfOk, IfSome, OnOk, OnSome, Err, Some};
ghost use Rattle.std.specs.List.{All};
ghost use Rattle.channel_record.specs.Claims.{AddsClaims, CanClaim, IsNext};
ghost use Rattle.channel_record.specs.Shares.{IsBookOf, IsWrittenDown, Matches, are_owned, lists_of, places_of, place_of, IsAt, finish_text, finish_debug};

use crate::book::Book;
use crate::calls::{Call, Outcome};
use crate::clerk::Clerk;
use crate::journal::Journal;
use crate::recorder::Recorder;
use crate::same::{same_call, same_outcome};
use channel_core::{Exact, Stamp};
use channel_model::Kind;
use std::alloc::{AllocError, Global};
use std::error::Error;
use std::fmt;

/// Why there is no book, the first of these that applies. The recorder and the clerks are gone in
/// any case.
///
/// # Examples
///
/// ```
/// let recorder: Recorder<u64> = Recorder::unbounded(rt.alloc(), &mut maker)?;
/// let _clerk = recorder.clerk(&rt)?;
/// let finished = recorder.finish(Vec::new(rt.alloc()));
/// assert!(rt; matches!(&finished, Err(FinishError::Missing)));
/// ```
#[derive(Clone, Copy, PartialEq, Eq)]
pub enum FinishError {
    /// A clerk isn't of this recorder.
    Stranger = 1,
    /// There aren't as many clerks as were made.
    Missing = 2,
    /// What the clerks wrote down isn't the history.
    Mismatch = 3,
    /// Memory was refused. It may come before a mismatch is looked for.
    OutOfMemory = 4,
}

impl fmt::Display for FinishError {
    ghost output = { λ error. Some (finish_text error) };

    fn fmt<W: fmt::Write>(&self, f: &mut fmt::Formatter<W>) -> fmt::Result {
        f.write_str(match self {
            FinishError::Stranger => "a clerk is of another recorder",
            FinishError::Missing => "a clerk is missing",
            FinishError::Mismatch => "the entries don't agree",
            FinishError::OutOfMemory => "out of memory",
        })
    }
}

impl fmt::Debug for FinishError {
    ghost debug_output = { λ error. Some (finish_debug error) };

    fn fmt<W: fmt::Write>(&self, f: &mut fmt::Formatter<W>) -> fmt::Result {
        f.write_str(match self {
            FinishError::Stranger => "Stranger",
            FinishError::Missing => "Missing",
            FinishError::Mismatch => "Mismatch",
            FinishError::OutOfMemory => "OutOfMemory",
        })
    }
}

impl Error for FinishError {}

// Whether each clerk has the stamp.
fn are_owned<T: Copy>(stamp: Stamp, clerks: &[Clerk<T>]) -> bool
    ensures { result ≡ are_owned stamp clerks.now }
{
    clerks.iter().all(|clerk| clerk.stamp == stamp)
}

fn same_kind(one: Kind, other: Kind) -> bool
    ensures { IsTrue result ↔ (one ≡ other) }
{
    match (one, other) {
        (Kind::Bounded(cap), Kind::Bounded(beside)) => cap == beside,
        (Kind::Unbounded, Kind::Unbounded) => true,
        _ => false,
    }
}

// Whether the history has the entry's call and outcome at its place.
fn is_at<T: Exact>(history: &[(Call<T>, Outcome<T>)], entry: &(usize, Call<T>, Outcome<T>)) -> bool
    ensures { IsTrue result ↔ IsAt history.now entry.now }
{
    match history.get(entry.0) {
        Some((call, outcome)) => same_call(call, &entry.1) && same_outcome(outcome, &entry.2),
        None => false,
    }
}

// Whether the entry may claim its place, as the next one of a clerk whose places so far are below
// `low`.
fn is_next<T: Exact>(
    history: &[(Call<T>, Outcome<T>)],
    claimed: &[bool],
    low: usize,
    entry: &(usize, Call<T>, Outcome<T>),
) -> bool
    ensures { IsTrue result ↔ IsNext history.now claimed.now low entry.now }
{
    let place = entry.0;
    if place < low || place >= claimed.len() {
        return false;
    }
    !claimed[place] && is_at(history, entry)
}

// The places of one clerk's entries, which it claims. None if an entry is refused its place.
fn claim<T: Exact + Copy>(
    alloc: Global,
    history: &[(Call<T>, Outcome<T>)],
    claimed: &mut [bool],
    entries: &[(usize, Call<T>, Outcome<T>)],
) -> Result<Option<Vec<usize>>, AllocError>
    ensures exact { IfOk result (λ found.
        IsSome found ↔ CanClaim history.now claimed.old entries.now) }
    ensures places { IfOk result (λ found. IfSome found (λ places.
        places.items ≡ map place_of entries.now)) }
    ensures claims { IfOk result (λ found. OnSome found
        (AddsClaims claimed.old claimed.new (map place_of entries.now))) }
{
    let mut places = Vec::new(alloc);
    let mut low = 0;
    for entry in entries {
        if !is_next(history, claimed, low, entry) {
            return Ok(None);
        }
        let place = entry.0;
        claimed[place] = true;
        low = place + 1;
        places.push(place)?;
    }
    Ok(Some(places))
}

fn are_claimed(claimed: &[bool]) -> bool
    ensures { IsTrue result ↔ All (λ flag. flag ≡ true) claimed.now }
{
    claimed.iter().all(|flag| *flag)
}

// The places of each clerk's entries. None if the history isn't what the clerks wrote down.
fn shares<T: Exact + Copy>(
    alloc: Global,
    history: &[(Call<T>, Outcome<T>)],
    clerks: &[Clerk<T>],
) -> Result<Option<Vec<Vec<usize>>>, AllocError>
    ensures exact { IfOk result (λ found.
        IsSome found ↔ IsWrittenDown history.now clerks.now) }
    ensures places { IfOk result (λ found. IfSome found (λ lists.
        lists_of lists.items ≡ map places_of clerks.now)) }
{
    let mut flags = vec![in alloc; false; history.len()]?;
    let claimed = flags.as_mut_slice();
    let mut lists = Vec::new(alloc);
    for clerk in clerks {
        let Some(places) = claim(alloc, history, claimed, clerk.entries())? else {
            return Ok(None);
        };
        lists.push(places)?;
    }
    if !are_claimed(claimed) {
        return Ok(None);
    }
    Ok(Some(lists))
}

// What comes of a journal out of its lock, and of clerks that aren't strangers.
fn compare<T: Copy + Exact>(
    alloc: Global,
    kind: Kind,
    journal: Journal<T>,
    clerks: &[Clerk<T>],
) -> Result<Book<T>, FinishError>
    ensures stranger { result ≢ Err FinishError.Stranger }
    ensures missing { (result ≡ Err FinishError.Missing) ↔ (length clerks.now ≢ journal.clerks) }

    // Memory aside, `Ok` comes of what matches and `Mismatch` of what doesn't.
    ensures mismatch { result ≡ Err FinishError.Mismatch → ¬ Matches kind clerks.now journal }
    ensures matches { OnOk result (Matches kind clerks.now journal) }
    ensures history { IfOk result (λ book. book.history ≡ journal.history) }
    ensures book { IfOk result (IsBookOf kind clerks.now) }
{
    let (count, journals_kind) = (journal.clerks(), journal.kind());
    let history = journal.into_history();
    if count != clerks.len() {
        return Err(FinishError::Missing);
    }
    if !same_kind(journals_kind, kind) {
        return Err(FinishError::Mismatch);
    }
    match shares(alloc, history.as_slice(), clerks) {
        Ok(Some(places)) => Ok(Book {
            kind,
            history,
            places,
        }),
        Ok(None) => Err(FinishError::Mismatch),
        Err(AllocError) => Err(FinishError::OutOfMemory),
    }
}

impl<T: Copy + Exact> Recorder<T> {
    /// Gives up the recorder and its clerks for a book.
    ///
    /// It looks at each entry, since no contract follows a value through a lock: that the calls of
    /// all clerks give a book is shown by tests.
    pub fn finish(self, clerks: Vec<Clerk<T>>) -> Result<Book<T>, FinishError>
        ensures book { IfOk result (IsBookOf self.kind clerks.items) }
        ensures stranger { (result ≡ Err FinishError.Stranger)
            ↔ (are_owned self.stamp clerks.items ≡ false) }
    {
        if !are_owned(self.stamp, clerks.as_slice()) {
            return Err(FinishError::Stranger);
        }
        let Recorder {
            stamp: _,
            kind,
            alloc,
            journal,
        } = self;
        compare(alloc, kind, journal.into_inner(), clerks.as_slice())
    }
}
