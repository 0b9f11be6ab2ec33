//! What answers a script's commands, and the lines that are written for it.
ghost use Rattle.std.specs.Prelude.{◌≡◌, ℕ, ◌∷◌, [], List, map, flat_map, string_bytes, IfOk};
ghost use Rattle.channel_model.specs.Answers.{answer_of, past_made};
ghost use Rattle.channel_model.specs.Capacity.{HasPositiveCapacity};
ghost use Rattle.channel_model.specs.Past.{Past};
ghost use Rattle.channel_model.specs.declared.step.Kind.{Kind};
ghost use Rattle.channel_run.specs.StandsFor.{StandsFor};
ghost use Rattle.chanrun.specs.Replayed.{answer_text, answers_text, text_line};
ghost use Rattle.chanrun.specs.Script.{command_text, finished_line, past_after_command, settled_line, settled_text, texts_after};
ghost use Rattle.chanrun.specs.Texts.{notice_text, reply_text};

use crate::grammar::Command;
use crate::parse::Line;
use crate::reply_text::{NoticeText, ReplyText, WhoText};
use channel_model::{Kind, Notice, OutOfMemory, Reply, Step, Who};
use channel_run::{Run, Settled};
use std::alloc::{AllocError, Global};

/// What answers a command.
///
/// # Examples
///
/// ```
/// let mut run = Run::new(rt.alloc(), Kind::Unbounded)?;
/// let answer = answer_to(&mut run, Command::Make(Step::Len(Side::Sender(0))))?;
/// assert!(rt; matches!(answer, Answer::Replied(Reply::Count(0))));
/// ```
#[derive(Drop)]
pub enum Answer {
    /// The reply to a step.
    Replied(Reply<u64>),
    /// Whether somebody waits, and was told.
    Noticed(Notice),
    /// What settling came to.
    Settled(Settled<u64>),
}

/// A line that was done, and what answered it.
///
/// # Examples
///
/// ```
/// let Ok(script) = script_of(rt.alloc(), b"unbounded\nlen s0\n".as_slice())? else {
///     return Err("no channel".into());
/// };
/// let lines = replay(rt.alloc(), script.kind, script.lines.as_slice())?;
/// let first: &Answered = &lines[0];
/// assert_eq!(rt; first.line.number, 2);
/// assert!(rt; matches!(first.answer, Answer::Replied(Reply::Count(0))));
/// ```
#[derive(Drop)]
pub struct Answered<'a> {
    pub line: Line<'a>,
    pub answer: Answer,
}

/// Makes a step, unless memory is refused.
///
/// # Examples
///
/// ```
/// let mut run = Run::new(rt.alloc(), Kind::Unbounded)?;
/// assert_eq!(rt; make(&mut run, Step::TrySend(0, 7))?, Reply::TrySent(Ok(())));
/// assert_eq!(rt; make(&mut run, Step::TryRecv(0))?, Reply::Received(Ok(7)));
/// ```
pub fn make(run: &mut Run<u64>, step: Step<u64>) -> Result<Reply<u64>, OutOfMemory>
    ensures { (kind : Kind) (past : Past ℕ) → StandsFor kind past run.old → IfOk result (λ reply.
        (reply ≡ answer_of kind past step) × StandsFor kind (past_made kind past step) run.new) }
{
    let reply = run.step(step);
    if reply.wants_memory() {
        return Err(OutOfMemory);
    }
    Ok(reply)
}

/// Does a command, after any past that stands for the run, unless memory is refused.
///
/// # Examples
///
/// ```
/// let mut run = Run::new(rt.alloc(), Kind::Unbounded)?;
/// let answer = answer_to(&mut run, Command::Notice(Who::Op(0)))?;
/// assert!(rt; matches!(answer, Answer::Noticed(Notice::Absent)));
/// ```
pub fn answer_to(run: &mut Run<u64>, command: Command) -> Result<Answer, OutOfMemory>
    ensures { (kind : Kind) (past : Past ℕ) → StandsFor kind past run.old → IfOk result (λ answer.
        (answer_text answer ≡ command_text kind past command)
        × StandsFor kind (past_after_command kind past command) run.new) }
{
    match command {
        Command::Make(step) => Ok(Answer::Replied(make(run, step)?)),
        Command::Notice(who) => Ok(Answer::Noticed(run.notice_of(who))),
        Command::Settle => Ok(Answer::Settled(run.settle()?)),
    }
}

// Does the lines in order, on a run on which no step was made.
fn replay_on<'a>(
    alloc: Global,
    run: &mut Run<u64>,
    lines: &[Line<'a>],
) -> Result<Vec<Answered<'a>>, OutOfMemory>
    ensures { (kind : Kind) → StandsFor kind [] run.old → IfOk result (λ answered.
        answers_text answered.items
        ≡ texts_after kind [] (map (λ line. line.command) lines.now)) }
{
    let mut answered = Vec::new(alloc);
    for line in lines {
        let line = *line;
        let answer = answer_to(run, line.command)?;
        if answered.push(Answered { line, answer }).is_err() {
            return Err(OutOfMemory);
        }
    }
    Ok(answered)
}

/// Does lines in order on a channel of this kind.
///
/// # Examples
///
/// ```
/// let Ok(script) = script_of(rt.alloc(), b"unbounded\nlen s0\nsettle\n".as_slice())? else {
///     return Err("no channel".into());
/// };
/// let lines = replay(rt.alloc(), script.kind, script.lines.as_slice())?;
/// assert_eq!(rt; lines.len(), 2);
/// assert!(rt; matches!(lines[1].answer, Answer::Settled(_)));
/// ```
pub fn replay<'a>(
    alloc: Global,
    kind: Kind,
    lines: &[Line<'a>],
) -> Result<Vec<Answered<'a>>, OutOfMemory>
    requires { HasPositiveCapacity kind }
    ensures { IfOk result (λ answered. answers_text answered.items
        ≡ texts_after kind [] (map (λ line. line.command) lines.now)) }
{
    let mut run = Run::new(alloc, kind)?;
    replay_on(alloc, &mut run, lines)
}

// A list of one text.
fn only(alloc: Global, text: String) -> Result<Vec<String>, AllocError>
    ensures { IfOk result (λ texts. texts.items ≡ text ∷ []) }
{
    let mut texts = Vec::new(alloc);
    texts.push(text)?;
    Ok(texts)
}

// The text that says how many polls settling made, and how many of them were ready.
fn settled_text(alloc: Global, polls: u128, finished: usize) -> Result<String, AllocError>
    ensures { IfOk result (λ text. text_line text ≡ settled_line polls finished) }
{
    format!(in alloc; "settled {polls} {finished}")
}

// The text of a poll that was ready.
fn finished_text(alloc: Global, who: Who, reply: Reply<u64>) -> Result<String, AllocError>
    ensures { IfOk result (λ text. text_line text ≡ finished_line (who, reply)) }
{
    let who = WhoText(who);
    let reply = ReplyText(reply);
    format!(in alloc; "{who} {reply}")
}

// The texts of what settling came to.
fn settled_texts(alloc: Global, settled: Settled<u64>) -> Result<Vec<String>, AllocError>
    ensures { IfOk result (λ texts. flat_map text_line texts.items
        ≡ settled_text settled.polls settled.finished.items) }
{
    let first = settled_text(alloc, settled.polls, settled.finished.len())?;
    let mut texts = only(alloc, first)?;
    for (who, reply) in settled.finished {
        texts.push(finished_text(alloc, who, reply)?)?;
    }
    Ok(texts)
}

// The reply to a step.
pub(crate) fn reply_text(alloc: Global, reply: Reply<u64>) -> Result<String, AllocError>
    ensures { IfOk result (λ text. string_bytes text ≡ reply_text reply) }
{
    let reply = ReplyText(reply);
    format!(in alloc; "{reply}")
}

// Whether somebody waits and was told.
pub(crate) fn notice_text(alloc: Global, notice: Notice) -> Result<String, AllocError>
    ensures { IfOk result (λ text. string_bytes text ≡ notice_text notice) }
{
    let notice = NoticeText(notice);
    format!(in alloc; "{notice}")
}

/// The lines that a script writes for an answer, without their ends.
///
/// # Examples
///
/// ```
/// let texts = texts_of(rt.alloc(), Answer::Replied(Reply::Received(Ok(7))))?;
/// assert_eq!(rt; texts.len(), 1);
/// assert_eq!(rt; texts[0].as_str(), "ok 7");
/// ```
pub fn texts_of(alloc: Global, answer: Answer) -> Result<Vec<String>, AllocError>
    ensures { IfOk result (λ texts. flat_map text_line texts.items ≡ answer_text answer) }
{
    match answer {
        Answer::Replied(reply) => only(alloc, reply_text(alloc, reply)?),
        Answer::Noticed(notice) => only(alloc, notice_text(alloc, notice)?),
        Answer::Settled(settled) => settled_texts(alloc, settled),
    }
}
