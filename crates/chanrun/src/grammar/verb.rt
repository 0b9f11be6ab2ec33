//! The first word of a command.
ghost use Rattle.std.specs.Prelude.{◌≡◌};
ghost use Rattle.chanrun.specs.Grammar.{one_word_verb, two_word_verb, verb_of};

/// The first word of a line after the first one, by the number of words that stand after it.
#[derive(Clone, Copy, Debug, PartialEq, Eq)]
pub enum Verb {
    Settle,
    One(VerbOnOne),
    Two(VerbOnTwo),
    Send,
}

/// A verb with one word after it.
#[derive(Clone, Copy, Debug, PartialEq, Eq)]
pub enum VerbOnOne {
    TryRecv,
    Close,
    IsClosed,
    IsEmpty,
    IsFull,
    Len,
    Capacity,
    Senders,
    Receivers,
    IsTerminated,
    Drop,
    Poll,
    Next,
    Notice,
}

/// A verb with two words after it.
#[derive(Clone, Copy, Debug, PartialEq, Eq)]
pub enum VerbOnTwo {
    TrySend,
    ForceSend,
    Clone,
    Downgrade,
    Upgrade,
    Recv,
    Closed,
}

fn one_word_verb(word: &[u8]) -> Option<VerbOnOne>
    ensures { result ≡ one_word_verb word.now }
{
    if word == b"try_recv".as_slice() {
        Some(VerbOnOne::TryRecv)
    } else if word == b"close".as_slice() {
        Some(VerbOnOne::Close)
    } else if word == b"is_closed".as_slice() {
        Some(VerbOnOne::IsClosed)
    } else if word == b"is_empty".as_slice() {
        Some(VerbOnOne::IsEmpty)
    } else if word == b"is_full".as_slice() {
        Some(VerbOnOne::IsFull)
    } else if word == b"len".as_slice() {
        Some(VerbOnOne::Len)
    } else if word == b"capacity".as_slice() {
        Some(VerbOnOne::Capacity)
    } else if word == b"senders".as_slice() {
        Some(VerbOnOne::Senders)
    } else if word == b"receivers".as_slice() {
        Some(VerbOnOne::Receivers)
    } else if word == b"is_terminated".as_slice() {
        Some(VerbOnOne::IsTerminated)
    } else if word == b"drop".as_slice() {
        Some(VerbOnOne::Drop)
    } else if word == b"poll".as_slice() {
        Some(VerbOnOne::Poll)
    } else if word == b"next".as_slice() {
        Some(VerbOnOne::Next)
    } else if word == b"notice".as_slice() {
        Some(VerbOnOne::Notice)
    } else {
        None
    }
}

fn two_word_verb(word: &[u8]) -> Option<VerbOnTwo>
    ensures { result ≡ two_word_verb word.now }
{
    if word == b"try_send".as_slice() {
        Some(VerbOnTwo::TrySend)
    } else if word == b"force_send".as_slice() {
        Some(VerbOnTwo::ForceSend)
    } else if word == b"clone".as_slice() {
        Some(VerbOnTwo::Clone)
    } else if word == b"downgrade".as_slice() {
        Some(VerbOnTwo::Downgrade)
    } else if word == b"upgrade".as_slice() {
        Some(VerbOnTwo::Upgrade)
    } else if word == b"recv".as_slice() {
        Some(VerbOnTwo::Recv)
    } else if word == b"closed".as_slice() {
        Some(VerbOnTwo::Closed)
    } else {
        None
    }
}

// The verb that a line begins with, if it is one.
pub(super) fn verb_of(word: &[u8]) -> Option<Verb>
    ensures { result ≡ verb_of word.now }
{
    if word == b"settle".as_slice() {
        Some(Verb::Settle)
    } else if word == b"send".as_slice() {
        Some(Verb::Send)
    } else if let Some(verb) = one_word_verb(word) {
        Some(Verb::One(verb))
    } else {
        Some(Verb::Two(two_word_verb(word)?))
    }
}
