//! A whole script: it is read to its end, and then its lines are done in order.
//!
//! 1. `read_script` reads block by block, up to one byte more than a script may have. So a read
//!    that fails, and a script that is too long, are found before anything is written.
//! 2. The lines are read, up to the first faulty one (`parse`).
//! 3. Each line is done on a run of the channel that the first one asks for (`replay`), and what
//!    answers it is written before the next line is done.
//! 4. The fault ends the script, and so do a write that fails and memory that is refused. What was
//!    written until then is the replies to the lines before, or a beginning of them.
//!
//! All that the proofs say of the run is that the past of the lines done so far stands for it, so
//! that the text of each reply is the one that the past decides.
ghost use Rattle.std.specs.Prelude.{◌≡◌, ℕ, ◌+◌, ◌≤◌, [], ◌++◌, ◌⊎◌, List, None, Some, Err, length, map, flat_map, IfOk, IfErr, OnOk, IfSome, IsErrOf};
ghost use Rattle.std.specs.Io.KnownBytes.{Consumes, Appends};
ghost use Rattle.channel_model.specs.declared.step.Kind.{Kind};
ghost use Rattle.channel_model.specs.Past.{Past};
ghost use Rattle.channel_run.specs.StandsFor.{StandsFor};
ghost use Rattle.chanrun.specs.Device.{one_more, AppendsFront};
ghost use Rattle.chanrun.specs.Script.{as_line, command_text, past_after_command, texts_after, script_text, script_fault};
ghost use Rattle.chanrun.specs.Outcome.{HasRead, IsDone, IsBegun, ending};
ghost use Rattle.chanrun.specs.Replayed.{text_line};
ghost use Rattle.chanrun.specs.Stages.{IsUnread, IsAnswered};
ghost use Rattle.chanrun.specs.declared.script.ScriptError.TheVariants.{OutOfMemory};

use crate::device::{Sink, Source};
use crate::grammar::{Command, Fault};
use crate::parse::{Line, Script, script_of};
use crate::replay::{answer_to, texts_of};
use channel_model::OutOfMemory;
use channel_run::Run;
use std::alloc::{AllocError, Global};
use std::error::Error;
use std::fmt;

/// How many bytes a script may have.
///
/// # Examples
///
/// ```
/// let long = vec![in rt.alloc(); b'x'; SCRIPT_LIMIT + 1]?;
/// let mut reader = FromStd::new(long.as_slice());
/// assert!(rt; matches!(read_script(rt.alloc(), &mut reader), Err(ScriptError::TooLong)));
/// ```
pub const SCRIPT_LIMIT: usize = 1_048_576;

// how many bytes are read at once
const BLOCK: usize = 4096;

/// Why a script came to no end.
///
/// # Examples
///
/// ```
/// let mut reader = FromStd::new(b"unbounded\nlen s0\npush s0 1\n".as_slice());
/// let mut writer = FromStd::new(Vec::new(rt.alloc()));
/// let ended = run_script(rt.alloc(), &mut reader, &mut writer);
/// let error = ScriptError::Fault { line: 3, fault: Fault::UnknownCommand };
/// assert_eq!(rt; ended, Err(error));
///
/// let text = format!(in rt.alloc(); "{error}")?;
/// assert_eq!(rt; text.as_str(), "line 3: unknown command");
/// ```
#[derive(Clone, Copy, Debug, PartialEq, Eq)]
pub enum ScriptError {
    /// A line is faulty. The replies to all lines before it were written.
    Fault { line: u64, fault: Fault },
    /// A read failed. Nothing was written.
    Read,
    /// A write failed, or took no byte. A beginning of the text was written.
    Write,
    /// Memory was refused. A beginning of the text was written.
    OutOfMemory,
    /// The script has more bytes than [`SCRIPT_LIMIT`]. Nothing was written.
    TooLong,
}

impl From<AllocError> for ScriptError {
    ghost from_gives = { λ _ e. e ≡ OutOfMemory };

    fn from(_error: AllocError) -> ScriptError {
        ScriptError::OutOfMemory
    }
}

impl From<OutOfMemory> for ScriptError {
    ghost from_gives = { λ _ e. e ≡ OutOfMemory };

    fn from(_error: OutOfMemory) -> ScriptError {
        ScriptError::OutOfMemory
    }
}

impl fmt::Display for ScriptError {
    ghost use Rattle.std.specs.Prelude.{Some};
    ghost use Rattle.chanrun.specs.Outcome.{error_text};

    ghost output = { λ error. Some (error_text error) };

    fn fmt<W: fmt::Write>(&self, f: &mut fmt::Formatter<W>) -> fmt::Result {
        match self {
            ScriptError::Fault { line, fault } => write!(f, "line {line}: {fault}"),
            ScriptError::Read => write!(f, "reading failed"),
            ScriptError::Write => write!(f, "writing failed"),
            ScriptError::OutOfMemory => write!(f, "out of memory"),
            ScriptError::TooLong => write!(f, "input is too long"),
        }
    }
}

impl Error for ScriptError {}

/// Reads to the end, unless a read fails or the bytes are too many.
///
/// # Examples
///
/// ```
/// let mut reader = FromStd::new(b"unbounded\nlen s0".as_slice());
/// let script = read_script(rt.alloc(), &mut reader)?;
/// assert_eq!(rt; script.as_slice(), b"unbounded\nlen s0".as_slice());
/// ```
pub fn read_script<R: Source>(alloc: Global, reader: &mut R) -> Result<Vec<u8>, ScriptError>
    ensures ok { IfOk result (λ input. HasRead (R.left reader.old) (R.left reader.new)
        (R.ended reader.new) input.items × (R.failures reader.new ≡ R.failures reader.old)) }
    ensures err { IfErr result (λ e. IsUnread e (R.left reader.old) (R.left reader.new)
        (R.failures reader.old) (R.failures reader.new)) }
{
    let mut input = Vec::new(alloc);
    let mut block = [0u8; BLOCK];
    while input.len() <= SCRIPT_LIMIT {
        let room = BLOCK.min(SCRIPT_LIMIT + 1 - input.len());
        let Ok(count) = reader.read(&mut block[..room]) else {
            return Err(ScriptError::Read);
        };
        if count == 0 {
            return Ok(input);
        }
        input.extend_from_slice(&block[..count])?;
    }
    Err(ScriptError::TooLong)
}

/// Writes all of a text, unless a write fails.
///
/// # Examples
///
/// ```
/// let mut writer = FromStd::new(Vec::new(rt.alloc()));
/// assert_eq!(rt; write_text(&mut writer, b"full 2\n".as_slice()), Ok(()));
/// let written: Vec<u8> = writer.into_inner();
/// assert_eq!(rt; written.as_slice(), b"full 2\n".as_slice());
/// ```
pub fn write_text<W: Sink>(writer: &mut W, text: &[u8]) -> Result<(), ScriptError>
    ensures ok { OnOk result (Appends (W.written writer.old) (W.written writer.new) text.now
        × (W.failures writer.new ≡ W.failures writer.old)) }
    ensures err { IfErr result (λ e. (e ≡ ScriptError.Write)
        × AppendsFront (W.written writer.old) (W.written writer.new) text.now
        × (W.failures writer.new ≡ one_more (W.failures writer.old))) }
{
    let mut rest = text;
    while !rest.is_empty() {
        match writer.write(rest) {
            Ok(count) if count > 0 => rest = &rest[count..],
            _ => return Err(ScriptError::Write),
        }
    }
    Ok(())
}

// Adds a text as a line.
fn add_line(page: &mut Vec<u8>, text: &str) -> Result<(), AllocError>
    ensures { OnOk result (page.new.items ≡ page.old.items ++ as_line text.now) }
{
    page.extend_from_slice(text.as_bytes())?;
    page.push(b'\n')?;
    Ok(())
}

// Texts, each as a line.
fn page_of(alloc: Global, texts: &[String]) -> Result<Vec<u8>, AllocError>
    ensures { IfOk result (λ page. page.items ≡ flat_map text_line texts.now) }
{
    let mut page = Vec::new(alloc);
    for text in texts {
        add_line(&mut page, text.as_str())?;
    }
    Ok(page)
}

// Does a command, after any past that stands for the run. The text is what answers it.
fn answer_command(
    alloc: Global,
    run: &mut Run<u64>,
    command: Command,
) -> Result<Vec<u8>, ScriptError>
    ensures ok { (kind : Kind) (past : Past ℕ) → StandsFor kind past run.old → IfOk result (λ text.
        (text.items ≡ command_text kind past command)
        × StandsFor kind (past_after_command kind past command) run.new) }
    ensures err { IfErr result (λ e. e ≡ ScriptError.OutOfMemory) }
{
    let answer = answer_to(run, command)?;
    let texts = texts_of(alloc, answer)?;
    Ok(page_of(alloc, texts.as_slice())?)
}

// Does a command, and writes what answers it.
fn write_answer<W: Sink>(
    alloc: Global,
    run: &mut Run<u64>,
    command: Command,
    writer: &mut W,
) -> Result<(), ScriptError>
    ensures ok { (kind : Kind) (past : Past ℕ) → StandsFor kind past run.old → OnOk result
        (StandsFor kind (past_after_command kind past command) run.new
        × Appends (W.written writer.old) (W.written writer.new) (command_text kind past command)
        × (W.failures writer.new ≡ W.failures writer.old)) }
    ensures err { (kind : Kind) (past : Past ℕ) → StandsFor kind past run.old
        → IfErr result (λ e. IsAnswered None (command_text kind past command) (Err e)
        (W.written writer.old) (W.written writer.new)
        (W.failures writer.old) (W.failures writer.new)) }
{
    let text = answer_command(alloc, run, command)?;
    write_text(writer, text.as_slice())
}

// Does the lines after the first one in order, on a run on which no step was made.
fn write_answers<W: Sink>(
    alloc: Global,
    run: &mut Run<u64>,
    lines: &[Line],
    writer: &mut W,
) -> Result<(), ScriptError>
    ensures { (kind : Kind) → StandsFor kind [] run.old → IsAnswered None
        (texts_after kind [] (map (λ line. line.command) lines.now)) result
        (W.written writer.old) (W.written writer.new)
        (W.failures writer.old) (W.failures writer.new) }
{
    for line in lines {
        write_answer(alloc, run, line.command, writer)?;
    }
    Ok(())
}

// Makes the channel of a script, and does its lines on it.
fn answer_lines<W: Sink>(alloc: Global, script: &Script, writer: &mut W) -> Result<(), ScriptError>
    ensures { IsAnswered None
        (texts_after script.now.kind [] (map (λ line. line.command) script.now.lines.items)) result
        (W.written writer.old) (W.written writer.new)
        (W.failures writer.old) (W.failures writer.new) }
{
    let mut run = Run::new(alloc, script.kind)?;
    write_answers(alloc, &mut run, script.lines.as_slice(), writer)
}

// The end of a script with this fault, if it has one.
pub(crate) fn ended(fault: Option<(u64, Fault)>) -> Result<(), ScriptError>
    ensures { ending result ≡ Some fault }
{
    match fault {
        Some((line, fault)) => Err(ScriptError::Fault { line, fault }),
        None => Ok(()),
    }
}

// Does the lines of a script in order, up to the first faulty one.
fn answer<W: Sink>(alloc: Global, input: &[u8], writer: &mut W) -> Result<(), ScriptError>
    requires { length input.now ≤ SCRIPT_LIMIT }
    ensures { IsAnswered (script_fault input.now) (script_text input.now) result
        (W.written writer.old) (W.written writer.new)
        (W.failures writer.old) (W.failures writer.new) }
{
    match script_of(alloc, input)? {
        Ok(script) => {
            answer_lines(alloc, &script, writer)?;
            ended(script.fault)
        }
        Err(fault) => ended(Some((1, fault))),
    }
}

/// Reads a script to its end, and does its lines in order up to the first faulty one. Each reply is
/// written as it comes.
///
/// # Examples
///
/// ```
/// let script = b"bounded 1\ntry_send s0 1\ntry_send s0 2\n";
/// let mut reader = FromStd::new(script.as_slice());
/// let mut writer = FromStd::new(Vec::new(rt.alloc()));
/// assert_eq!(rt; run_script(rt.alloc(), &mut reader, &mut writer), Ok(()));
/// let written: Vec<u8> = writer.into_inner();
/// assert_eq!(rt; written.as_slice(), b"ok\nfull 2\n".as_slice());
/// ```
pub fn run_script<R: Source, W: Sink>(
    alloc: Global,
    reader: &mut R,
    writer: &mut W,
) -> Result<(), ScriptError>
    // `Ok` and `Fault`: the end was met within the limit, and what was written is the text of the
    // bytes read.
    ensures done { IfSome (ending result) (λ fault. IsDone (R.left reader.old)
        (R.left reader.new) (R.ended reader.new)
        (W.written writer.old) (W.written writer.new) fault) }
    // .. and no call failed.
    ensures reader_well { IfSome (ending result)
        (λ _. R.failures reader.new ≡ R.failures reader.old) }
    ensures writer_well { IfSome (ending result)
        (λ _. W.failures writer.new ≡ W.failures writer.old) }
    // `Read`: a read failed, and nothing was written.
    ensures read { IsErrOf result ScriptError.Read
        → (R.failures reader.new ≡ one_more (R.failures reader.old)) × (writer.new ≡ writer.old) }
    // `Write`: the end was met within the limit, a write failed, and a beginning of the text was
    // written.
    ensures write { IsErrOf result ScriptError.Write
        → (W.failures writer.new ≡ one_more (W.failures writer.old))
        × IsBegun (R.left reader.old) (R.left reader.new) (R.ended reader.new)
        (W.written writer.old) (W.written writer.new) }
    // `OutOfMemory`: nothing was written, or the end was met and a beginning of the text was
    // written.
    ensures memory { IsErrOf result ScriptError.OutOfMemory → (writer.new ≡ writer.old)
        ⊎ IsBegun (R.left reader.old) (R.left reader.new) (R.ended reader.new)
        (W.written writer.old) (W.written writer.new) }
    // `TooLong`: one byte more than the limit was read, and nothing was written.
    ensures long { IsErrOf result ScriptError.TooLong → (writer.new ≡ writer.old)
        × ((input : List ℕ) × Consumes (R.left reader.old) (R.left reader.new) input
        × (length input ≡ SCRIPT_LIMIT + 1)) }
{
    let input = read_script(alloc, reader)?;
    answer(alloc, input.as_slice(), writer)
}
