//! The rule, and what each step tells.
ghost use Rattle.std.specs.Prelude.{◌≡◌, [], true, false};
ghost use Rattle.ruled_channel_rules.specs.Merged.{HaveArrived, AllArrived};
ghost use Rattle.ruled_channel_rules.specs.Whole.{IsWhole, hub_log, sender_log, receiver_log, spent_log, with_sent, with_got, with_forced, with_closed, with_end, one_sender_more, one_receiver_more, one_force_sender_more, force_sender_log, together};

use ruled_channel::{AtEnd, Forced, HasClosed, Join, Lesson, Protocol, Received, Sent, Split};
use std::collections::LinkedList;

/// What a pass knows. No value of it is made.
pub struct Log<T> {
    /// Whether it makes the senders and the receivers.
    pub makes: bool,
    /// How many it has made.
    pub senders: u64,
    pub receivers: u64,
    /// Whether it has closed the channel.
    pub closed: bool,
    /// Whether it found the channel closed and empty.
    pub ended: bool,
    /// What each sender has sent that it speaks for, and what each receiver has got.
    pub sent: LinkedList<LinkedList<T>>,
    pub got: LinkedList<LinkedList<T>>,
}

/// What was sent is what was got and then what the channel holds.
pub struct Whole;

impl<T> Protocol<T, Log<T>> for Whole {
    type Key = ();

    ghost holds = { λ _. IsWhole };

    ghost first = { λ _. hub_log 0 0 };
}

impl<T> Sent<T, Log<T>> for Whole {
    ghost then = { λ v m w. w ≡ with_sent v m };
}

impl<T> Forced<T, Log<T>> for Whole {
    ghost then = { λ v displaced m w. w ≡ with_forced v displaced m };
}

impl<T> Received<T, Log<T>> for Whole {
    ghost then = { λ v m w. w ≡ with_got v m };
}

impl<T> AtEnd<Log<T>> for Whole {
    ghost then = { λ v w. w ≡ with_end v };
}

impl<T> HasClosed<Log<T>> for Whole {
    ghost then = { λ v has_closed w. (w ≡ with_closed v)
        × (v.closed ≡ true → has_closed ≡ false) × (v.ended ≡ true → has_closed ≡ false) };
}

impl<T> Lesson<T, Log<T>> for Whole {
    ghost fact = { λ v state. HaveArrived v.sent v.got state.messages
        × (v.ended ≡ true → AllArrived v.sent v.got) };
}

impl<T> Join<Log<T>> for Whole {
    ghost both = { together };

    ghost spent = { spent_log };
}

/// A sender is made.
pub struct ForSender;

impl<T> Split<Log<T>> for ForSender {
    ghost left = { one_sender_more };

    ghost right = { λ v. sender_log false [] };
}

/// A receiver is made.
pub struct ForReceiver;

impl<T> Split<Log<T>> for ForReceiver {
    ghost left = { one_receiver_more };

    ghost right = { λ v. receiver_log false false [] };
}

/// A force sender is made.
pub struct ForForceSender;

impl<T> Split<Log<T>> for ForForceSender {
    ghost left = { one_force_sender_more };

    ghost right = { λ v. force_sender_log false [] [] };
}
