//! What a script does to its channel, as text: each line with its reply, and who waits then.
//!
//! ```text
//! unbounded
//! next r0 => pending | held | waiting r0
//! try_send s0 7 => ok | held 7 | waiting r0!
//! polled r0 => some 7 | held | waiting
//! settle => settled 1 1 | held | waiting
//! ```
//!
//! A row says what the channel holds after its line, and who waits; a mark stands behind who was
//! told. Settling has a row for each of its polls, and then its own. So what a step told is seen
//! from its row and the one above.
ghost use Rattle.std.specs.Prelude.{◌≡◌, ℕ, ◌+◌, ◌-◌, ◌^◌, ◌<◌, if◌then◌else◌, ◌++◌, ◌≤◌, List, [], ◌∷◌, length, map, flat_map, string_bytes, Option, Some, None, IfOk, OnOk, IfSome, IsErrOf};
ghost use Rattle.std.specs.Io.KnownBytes.{Consumes};
ghost use Rattle.std.specs.List.{list_any};
ghost use Rattle.channel_model.specs.declared.step.Kind.{Kind};
ghost use Rattle.channel_model.specs.Past.{Past};
ghost use Rattle.channel_model.specs.Notices.{notice_of};
ghost use Rattle.channel_model.specs.Polling.{settling_polls};
ghost use Rattle.channel_model.specs.Replies.{is_pending};
ghost use Rattle.channel_run.specs.StandsFor.{StandsFor};
ghost use Rattle.chanrun.specs.declared.grammar.fault.Fault.{Fault};
ghost use Rattle.chanrun.specs.Device.{one_more};
ghost use Rattle.chanrun.specs.Outcome.{ending};
ghost use Rattle.chanrun.specs.Script.{as_line, past_after_command, script_fault};
ghost use Rattle.chanrun.specs.Trace.{IsTraced, command_polls, command_reply, line_rows, is_same, message_word, polled, polled_by, polls_rows, row, rows_after, settled_reply, trace_text, waiting_word, with_new};

use crate::device::{Sink, Source};
use crate::grammar::{Command, Fault};
use crate::parse::{Line, Script, script_of};
use crate::replay::{make, notice_text, reply_text};
use crate::reply_text::WhoText;
use crate::script::{SCRIPT_LIMIT, ScriptError, ended, read_script, write_text};
use channel_model::{Notice, Reply, Step, Who};
use channel_run::Run;
use std::alloc::{AllocError, Global};

/// How many bytes a script may have whose trace is asked for: with each row a trace may say all
/// that is held, and who waits.
///
/// # Examples
///
/// ```
/// let long = vec![in rt.alloc(); b'\n'; TRACE_LIMIT + 1]?;
/// let mut reader = FromStd::new(long.as_slice());
/// let mut writer = FromStd::new(Vec::new(rt.alloc()));
/// let ended = run_trace(rt.alloc(), &mut reader, &mut writer);
/// assert_eq!(rt; ended, Err(ScriptError::TooLong));
/// ```
pub const TRACE_LIMIT: usize = 65_536;

// Whom a command polls.
fn polled(command: Command) -> Option<Who>
    ensures { result ≡ polled command }
{
    match command {
        Command::Make(Step::Poll(op)) => Some(Who::Op(op)),
        Command::Make(Step::PollNext(receiver)) => Some(Who::Receiver(receiver)),
        _ => None,
    }
}

fn is_same(who: Who, other: Who) -> bool
    ensures { result ≡ is_same who other }
{
    match (who, other) {
        (Who::Op(name), Who::Op(other)) => name == other,
        (Who::Receiver(name), Who::Receiver(other)) => name == other,
        _ => false,
    }
}

fn is_among(names: &[Who], who: Who) -> bool
    ensures { result ≡ list_any (λ name. is_same name who) names.now }
{
    names.iter().any(|name| is_same(*name, who))
}

// Adds somebody who isn't one of these.
fn add_new(names: &mut Vec<Who>, who: Option<Who>) -> Result<(), AllocError>
    ensures { OnOk result (names.new.items ≡ with_new names.old.items who) }
{
    let Some(who) = who else {
        return Ok(());
    };
    if !is_among(names.as_slice(), who) {
        names.push(who)?;
    }
    Ok(())
}

// Who is polled by these lines.
fn polled_by(alloc: Global, lines: &[Line]) -> Result<Vec<Who>, AllocError>
    ensures { IfOk result (λ names. names.items
        ≡ polled_by [] (map (λ line. line.command) lines.now)) }
{
    let mut names = Vec::new(alloc);
    for line in lines {
        add_new(&mut names, polled(line.command))?;
    }
    Ok(names)
}

// Adds the messages that are held.
fn add_held(text: &mut Vec<u8>, alloc: Global, run: &Run<u64>) -> Result<(), AllocError>
    ensures { OnOk result (text.new.items
        ≡ text.old.items ++ flat_map message_word run.now.messages) }
{
    for place in 0..run.message_count() {
        let Some(message) = run.message(place) else {
            unreachable!()
        };
        let word = format!(in alloc; " {message}")?;
        text.extend_from_slice(word.as_bytes())?;
    }
    Ok(())
}

// The name of who waits, with a mark if they were told.
fn waiting_word(alloc: Global, who: Who, notice: Notice) -> Result<String, AllocError>
    ensures { IfOk result (λ word. string_bytes word ≡ waiting_word who notice) }
{
    let who = WhoText(who);
    match notice {
        Notice::Absent => Ok(String::new(alloc)),
        Notice::Untold => format!(in alloc; " {who}"),
        Notice::Told => format!(in alloc; " {who}!"),
    }
}

// Adds who of these waits.
fn add_waiting(
    text: &mut Vec<u8>,
    alloc: Global,
    run: &Run<u64>,
    names: &[Who],
) -> Result<(), AllocError>
    ensures { (kind : Kind) (past : Past ℕ) → StandsFor kind past run.now → OnOk result
        (text.new.items ≡ text.old.items
        ++ flat_map (λ who. waiting_word who (notice_of past who)) names.now) }
{
    for who in names {
        let word = waiting_word(alloc, *who, run.notice_of(*who))?;
        text.extend_from_slice(word.as_bytes())?;
    }
    Ok(())
}

// A line and its reply, and what the channel shows.
fn row(
    alloc: Global,
    run: &Run<u64>,
    names: &[Who],
    line: &[u8],
    reply: &str,
) -> Result<Vec<u8>, AllocError>
    ensures { (kind : Kind) (past : Past ℕ) → StandsFor kind past run.now → IfOk result (λ text.
        text.items ≡ row names.now line.now reply.now past) }
{
    let mut text = Vec::new(alloc);
    text.extend_from_slice(line)?;
    text.extend_from_slice(b" => ")?;
    text.extend_from_slice(reply.as_bytes())?;
    text.extend_from_slice(b" | held")?;
    add_held(&mut text, alloc, run)?;
    text.extend_from_slice(b" | waiting")?;
    add_waiting(&mut text, alloc, run, names)?;
    text.push(b'\n')?;
    Ok(text)
}

// How many polls were ready, with one more.
fn with_ready(ready: u64, reply: &Reply<u64>) -> u64
    requires { ready < 2 ^ 64 - 1 }
    ensures { result ≡ (if is_pending reply.now then ready else ready + 1) }
{
    if reply.is_pending() { ready } else { ready + 1 }
}

// Settles the channel, and adds a row for each poll. It answers what settling says.
fn add_polls(
    rows: &mut Vec<u8>,
    alloc: Global,
    run: &mut Run<u64>,
    names: &[Who],
) -> Result<String, AllocError>
    ensures { (kind : Kind) (past : Past ℕ) → StandsFor kind past run.old → IfOk result (λ reply.
        (string_bytes reply ≡ settled_reply (settling_polls kind past))
        × (rows.new.items ≡ rows.old.items ++ polls_rows names.now (settling_polls kind past) past)
        × StandsFor kind (settling_polls kind past ++ past) run.new) }
{
    let mut ready: u64 = 0;
    for polls in 0..u64::MAX {
        let Some((who, reply)) = run.poll_first_told() else {
            return format!(in alloc; "settled {polls} {ready}");
        };
        ready = with_ready(ready, &reply);
        let who = WhoText(who);
        let line = format!(in alloc; "polled {who}")?;
        let reply = reply_text(alloc, reply)?;
        let row = row(alloc, run, names, line.as_bytes(), reply.as_str())?;
        rows.extend_from_slice(row.as_slice())?;
    }
    // never reached: no script is long enough for so many polls
    Err(AllocError)
}

// Does a command, and adds the rows of its polls. It answers the reply in its own row.
fn reply_to(
    rows: &mut Vec<u8>,
    alloc: Global,
    run: &mut Run<u64>,
    names: &[Who],
    command: Command,
) -> Result<String, AllocError>
    ensures { (kind : Kind) (past : Past ℕ) → StandsFor kind past run.old → IfOk result (λ reply.
        (string_bytes reply ≡ command_reply kind past command)
        × (rows.new.items ≡ rows.old.items
        ++ polls_rows names.now (command_polls kind past command) past)
        × StandsFor kind (past_after_command kind past command) run.new) }
{
    match command {
        Command::Make(step) => {
            let Ok(reply) = make(run, step) else {
                return Err(AllocError);
            };
            reply_text(alloc, reply)
        }
        Command::Notice(who) => notice_text(alloc, run.notice_of(who)),
        Command::Settle => add_polls(rows, alloc, run, names),
    }
}

// Does a line, and adds its rows.
fn add_line(
    rows: &mut Vec<u8>,
    alloc: Global,
    run: &mut Run<u64>,
    names: &[Who],
    line: &Line,
) -> Result<(), AllocError>
    ensures { (kind : Kind) (past : Past ℕ) → StandsFor kind past run.old → OnOk result
        ((rows.new.items ≡ rows.old.items
        ++ line_rows names.now kind past (line.now.text.now, line.now.command))
        × StandsFor kind (past_after_command kind past line.now.command) run.new) }
{
    let reply = reply_to(rows, alloc, run, names, line.command)?;
    let row = row(alloc, run, names, line.text, reply.as_str())?;
    rows.extend_from_slice(row.as_slice())?;
    Ok(())
}

// Does lines in order, on a run on which no step was made, and adds their rows.
fn add_lines(
    rows: &mut Vec<u8>,
    alloc: Global,
    run: &mut Run<u64>,
    names: &[Who],
    lines: &[Line],
) -> Result<(), AllocError>
    ensures { (kind : Kind) → StandsFor kind [] run.old → OnOk result (rows.new.items
        ≡ rows.old.items ++ rows_after names.now kind []
        (map (λ line. (line.text.now, line.command)) lines.now)) }
{
    for line in lines {
        add_line(rows, alloc, run, names, line)?;
    }
    Ok(())
}

// The trace of a script whose lines were read.
fn trace_by(alloc: Global, script: &Script) -> Result<Vec<u8>, AllocError>
    ensures { IfOk result (λ text. text.items ≡ as_line script.now.first.now
        ++ rows_after (polled_by [] (map (λ line. line.command) script.now.lines.items))
        script.now.kind [] (map (λ line. (line.text.now, line.command)) script.now.lines.items)) }
{
    let lines = script.lines.as_slice();
    let names = polled_by(alloc, lines)?;
    let Ok(mut run) = Run::new(alloc, script.kind) else {
        return Err(AllocError);
    };
    let mut text = Vec::new(alloc);
    text.extend_from_slice(script.first)?;
    text.push(b'\n')?;
    add_lines(&mut text, alloc, &mut run, names.as_slice(), lines)?;
    Ok(text)
}

/// The trace of a script, and its first faulty line with its fault, if there is one.
///
/// # Examples
///
/// ```
/// let script = b"unbounded\nnext r0\ntry_send s0 7\nlen\n";
/// let (text, fault) = trace_of(rt.alloc(), script.as_slice())?;
/// let rows = "unbounded
/// next r0 => pending | held | waiting r0
/// try_send s0 7 => ok | held 7 | waiting r0!
/// ";
/// assert_eq!(rt; text.as_slice(), rows.as_bytes());
/// assert_eq!(rt; fault, Some((4, Fault::WrongWordCount)));
/// ```
pub fn trace_of(alloc: Global, input: &[u8]) -> Result<(Vec<u8>, Option<(u64, Fault)>), AllocError>
    requires { length input.now ≤ SCRIPT_LIMIT }
    ensures text { IfOk result (λ traced. traced.0.items ≡ trace_text input.now) }
    ensures fault { IfOk result (λ traced. traced.1 ≡ script_fault input.now) }
{
    match script_of(alloc, input)? {
        Ok(script) => Ok((trace_by(alloc, &script)?, script.fault)),
        Err(fault) => Ok((Vec::new(alloc), Some((1, fault)))),
    }
}

/// Reads a script to its end, and writes its trace, up to the first faulty line.
///
/// # Examples
///
/// ```
/// let mut reader = FromStd::new(b"bounded 1\ntry_send s0 7\n".as_slice());
/// let mut writer = FromStd::new(Vec::new(rt.alloc()));
/// assert_eq!(rt; run_trace(rt.alloc(), &mut reader, &mut writer), Ok(()));
/// let written: Vec<u8> = writer.into_inner();
/// let rows = "bounded 1\ntry_send s0 7 => ok | held 7 | waiting\n";
/// assert_eq!(rt; written.as_slice(), rows.as_bytes());
/// ```
pub fn run_trace<R: Source, W: Sink>(
    alloc: Global,
    reader: &mut R,
    writer: &mut W,
) -> Result<(), ScriptError>
    // `Ok` and `Fault`: what was written is the trace of the bytes read.
    ensures done { IfSome (ending result) (λ fault. IsTraced (R.left reader.old)
        (R.left reader.new) (R.ended reader.new)
        (W.written writer.old) (W.written writer.new) fault) }
    // `Read`: a read failed, and nothing was written.
    ensures read { IsErrOf result ScriptError.Read
        → (R.failures reader.new ≡ one_more (R.failures reader.old)) × (writer.new ≡ writer.old) }
    // `Write`: a write failed.
    ensures write { IsErrOf result ScriptError.Write
        → W.failures writer.new ≡ one_more (W.failures writer.old) }
    // `OutOfMemory`: nothing was written.
    ensures memory { IsErrOf result ScriptError.OutOfMemory → writer.new ≡ writer.old }
    // `TooLong`: more bytes than a trace's script may have were read, and nothing was written.
    ensures long { IsErrOf result ScriptError.TooLong → (writer.new ≡ writer.old)
        × ((input : List ℕ) × Consumes (R.left reader.old) (R.left reader.new) input
        × (TRACE_LIMIT < length input)) }
{
    let input = read_script(alloc, reader)?;
    if input.len() > TRACE_LIMIT {
        return Err(ScriptError::TooLong);
    }
    let (text, fault) = trace_of(alloc, input.as_slice())?;
    write_text(writer, text.as_slice())?;
    ended(fault)
}
