//! What a line after the first one asks for, by its verb and the words after it.
ghost use Rattle.std.specs.Prelude.{◌≡◌};
ghost use Rattle.channel_model.specs.declared.step.Step.{Step};
ghost use Rattle.chanrun.specs.Grammar.{clone_step, downgrade_step, upgrade_step, drop_step};
ghost use Rattle.chanrun.specs.Grammar.{on_one, on_two, op_in, sender_in, number_in, with_three};
ghost use Rattle.chanrun.specs.Grammar.{command_with};

use super::fault::Fault;
use super::verb::{Verb, VerbOnOne, VerbOnTwo};
use super::word::Word;
use channel_model::{Step, Who};

/// What a line asks for.
///
/// # Examples
///
/// ```
/// let command = command_of(rt.alloc(), b"try_send s0 7".as_slice())?;
/// assert_eq!(rt; command, Ok(Command::Make(Step::TrySend(0, 7))));
/// let command = command_of(rt.alloc(), b"notice r0".as_slice())?;
/// assert_eq!(rt; command, Ok(Command::Notice(Who::Receiver(0))));
/// assert_eq!(rt; command_of(rt.alloc(), b"settle".as_slice())?, Ok(Command::Settle));
/// ```
#[derive(Clone, Copy, Debug, PartialEq, Eq)]
pub enum Command {
    /// A step by some party.
    Make(Step<u64>),
    /// Whether somebody waits, and was told.
    Notice(Who),
    /// Those who were told are polled until nobody is.
    Settle,
}

fn clone_step(of: Word, new: Word) -> Result<Step<u64>, Fault>
    ensures { result ≡ clone_step of new }
{
    match of {
        Word::Sender(of) => Ok(Step::CloneSender {
            of,
            new: new.sender()?,
        }),
        Word::Receiver(of) => Ok(Step::CloneReceiver {
            of,
            new: new.receiver()?,
        }),
        Word::WeakSender(of) => Ok(Step::CloneWeakSender {
            of,
            new: new.weak_sender()?,
        }),
        Word::WeakReceiver(of) => Ok(Step::CloneWeakReceiver {
            of,
            new: new.weak_receiver()?,
        }),
        _ => Err(Fault::BadName),
    }
}

fn downgrade_step(of: Word, new: Word) -> Result<Step<u64>, Fault>
    ensures { result ≡ downgrade_step of new }
{
    match of {
        Word::Sender(of) => Ok(Step::DowngradeSender {
            of,
            new: new.weak_sender()?,
        }),
        Word::Receiver(of) => Ok(Step::DowngradeReceiver {
            of,
            new: new.weak_receiver()?,
        }),
        _ => Err(Fault::BadName),
    }
}

fn upgrade_step(of: Word, new: Word) -> Result<Step<u64>, Fault>
    ensures { result ≡ upgrade_step of new }
{
    match of {
        Word::WeakSender(of) => Ok(Step::UpgradeSender {
            of,
            new: new.sender()?,
        }),
        Word::WeakReceiver(of) => Ok(Step::UpgradeReceiver {
            of,
            new: new.receiver()?,
        }),
        _ => Err(Fault::BadName),
    }
}

fn drop_step(name: Word) -> Result<Step<u64>, Fault>
    ensures { result ≡ drop_step name }
{
    match name {
        Word::Sender(name) => Ok(Step::DropSender(name)),
        Word::Receiver(name) => Ok(Step::DropReceiver(name)),
        Word::WeakSender(name) => Ok(Step::DropWeakSender(name)),
        Word::WeakReceiver(name) => Ok(Step::DropWeakReceiver(name)),
        Word::Op(name) => Ok(Step::DropOp(name)),
        _ => Err(Fault::BadName),
    }
}

fn on_one(verb: VerbOnOne, word: Word) -> Result<Command, Fault>
    ensures { result ≡ on_one verb word }
{
    let step = match verb {
        VerbOnOne::TryRecv => Step::TryRecv(word.receiver()?),
        VerbOnOne::Close => Step::Close(word.side()?),
        VerbOnOne::IsClosed => Step::IsClosed(word.side()?),
        VerbOnOne::IsEmpty => Step::IsEmpty(word.side()?),
        VerbOnOne::IsFull => Step::IsFull(word.side()?),
        VerbOnOne::Len => Step::Len(word.side()?),
        VerbOnOne::Capacity => Step::Capacity(word.side()?),
        VerbOnOne::Senders => Step::SenderCount(word.side()?),
        VerbOnOne::Receivers => Step::ReceiverCount(word.side()?),
        VerbOnOne::IsTerminated => Step::IsTerminated(word.receiver()?),
        VerbOnOne::Drop => drop_step(word)?,
        VerbOnOne::Poll => Step::Poll(word.op()?),
        VerbOnOne::Next => Step::PollNext(word.receiver()?),
        VerbOnOne::Notice => return Ok(Command::Notice(word.who()?)),
    };
    Ok(Command::Make(step))
}

fn on_two(verb: VerbOnTwo, first: Word, second: Word) -> Result<Command, Fault>
    ensures { result ≡ on_two verb first second }
{
    let step = match verb {
        VerbOnTwo::TrySend => Step::TrySend(first.sender()?, second.number()?),
        VerbOnTwo::ForceSend => Step::ForceSend(first.sender()?, second.number()?),
        VerbOnTwo::Clone => clone_step(first, second)?,
        VerbOnTwo::Downgrade => downgrade_step(first, second)?,
        VerbOnTwo::Upgrade => upgrade_step(first, second)?,
        VerbOnTwo::Recv => Step::StartRecv {
            op: first.op()?,
            receiver: second.receiver()?,
        },
        VerbOnTwo::Closed => Step::StartClosed {
            op: first.op()?,
            sender: second.sender()?,
        },
    };
    Ok(Command::Make(step))
}

fn send_step(op: Word, sender: Word, message: Word) -> Result<Step<u64>, Fault>
    ensures { result ≡ with_three Step.StartSend (op_in op) (sender_in sender) (number_in message) }
{
    Ok(Step::StartSend {
        op: op.op()?,
        sender: sender.sender()?,
        msg: message.number()?,
    })
}

// The command of a verb with these words after it: each verb has its number of words.
pub(super) fn command_with(verb: Verb, words: &[Word]) -> Result<Command, Fault>
    ensures { result ≡ command_with verb words.now }
{
    match verb {
        Verb::Settle => match words {
            [] => Ok(Command::Settle),
            _ => Err(Fault::WrongWordCount),
        },
        Verb::One(verb) => match words {
            [word] => on_one(verb, *word),
            _ => Err(Fault::WrongWordCount),
        },
        Verb::Two(verb) => match words {
            [first, second] => on_two(verb, *first, *second),
            _ => Err(Fault::WrongWordCount),
        },
        Verb::Send => match words {
            [op, sender, message] => Ok(Command::Make(send_step(*op, *sender, *message)?)),
            _ => Err(Fault::WrongWordCount),
        },
    }
}
