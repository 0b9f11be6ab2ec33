//! The whole program over its devices.
ghost use Rattle.std.specs.Prelude.{◌≡◌, ℕ, ◌<◌, ◌⊎◌, Option, Some, None, IfSome, IfOk, IfErr};
ghost use Rattle.chanrun.specs.declared.grammar.fault.Fault.{Fault};
ghost use Rattle.chanrun.specs.Outcome.{IsDone, status_of};
ghost use Rattle.chanrun.specs.Trace.{IsTraced};

use crate::device::{Sink, Source};
use crate::script::{ScriptError, run_script};
use crate::standard::Program;
use crate::tell::tell;
use crate::trace::run_trace;
use std::alloc::Global;

/// The status for the end of a script that wasn't done whole.
///
/// # Examples
///
/// ```
/// assert_eq!(rt; status_of(&ScriptError::Read), 1);
/// let fault = ScriptError::Fault { line: 3, fault: Fault::BadName };
/// assert_eq!(rt; status_of(&fault), 2);
/// ```
pub fn status_of(error: &ScriptError) -> u8
    ensures { result ≡ status_of error.now }
{
    match error {
        ScriptError::Fault { .. } => 2,
        _ => 1,
    }
}

// The status after a run. It says why it isn't 0.
fn status_after<E: Sink>(ran: Result<(), ScriptError>, errors: &mut E) -> u8
    ensures done { IfOk ran (λ _. (result ≡ 0) × (errors.new ≡ errors.old)) }
    ensures failed { IfErr ran (λ error. result ≡ status_of error) }
{
    match ran {
        Ok(()) => 0,
        Err(error) => {
            let status = status_of(&error);
            tell(errors, error);
            status
        }
    }
}

/// The program over its devices. It answers the exit status: 0 if the whole script was done, 2
/// for a faulty line or for arguments, 1 otherwise. A line that says why it isn't 0 goes to
/// `errors`; a failure there changes nothing. There are no arguments if they couldn't be read
/// for want of memory.
///
/// # Examples
///
/// ```
/// let mut reader = FromStd::new(b"unbounded\nlen s0\nlen t0\n".as_slice());
/// let mut writer = FromStd::new(Vec::new(rt.alloc()));
/// let mut errors = FromStd::new(Vec::new(rt.alloc()));
/// let status = program(rt.alloc(), Some(0), &mut reader, &mut writer, &mut errors);
/// assert_eq!(rt; status, 2);
/// let written: Vec<u8> = writer.into_inner();
/// assert_eq!(rt; written.as_slice(), b"0\n".as_slice());
/// let said: Vec<u8> = errors.into_inner();
/// assert_eq!(rt; said.as_slice(), b"line 3: bad name\n".as_slice());
/// ```
pub fn program<R: Source, W: Sink, E: Sink>(
    alloc: Global,
    arguments: Option<usize>,
    reader: &mut R,
    writer: &mut W,
    errors: &mut E,
) -> u8
    // Status 0 says that the whole script was done.
    ensures done { result ≡ 0 → (arguments ≡ Some 0) × (errors.new ≡ errors.old)
        × IsDone (R.left reader.old) (R.left reader.new) (R.ended reader.new)
        (W.written writer.old) (W.written writer.new) None }
    // Status 2 without arguments says that it was done up to a faulty line.
    ensures faulty { result ≡ 2 → arguments ≡ Some 0 → (fault : ℕ × Fault)
        × IsDone (R.left reader.old) (R.left reader.new) (R.ended reader.new)
        (W.written writer.old) (W.written writer.new) (Some fault) }
    ensures known { (result ≡ 0) ⊎ (result ≡ 1) ⊎ (result ≡ 2) }
    ensures unread { arguments ≡ None
        → (result ≡ 1) × (reader.new ≡ reader.old) × (writer.new ≡ writer.old) }
    ensures refused { IfSome arguments (λ count. 0 < count
        → (result ≡ 2) × (reader.new ≡ reader.old) × (writer.new ≡ writer.old)) }
{
    match arguments {
        None => status_after(Err(ScriptError::OutOfMemory), errors),
        Some(0) => status_after(run_script(alloc, reader, writer), errors),
        Some(_) => {
            tell(errors, "chanrun takes no arguments");
            2
        }
    }
}

/// Runs a script that is read from standard input, and prints the replies.
///
/// # Examples
///
/// ```
/// let written = Vec::new(rt.alloc());
/// let said = Vec::new(rt.alloc());
/// let script = b"unbounded\nlen t0\n".as_slice();
/// let ended = run_buffered(rt.alloc(), Chanrun, Some(&[]), script, written, said);
/// assert_eq!(rt; ended, Ok(2));
/// ```
#[derive(Clone, Copy)]
pub struct Chanrun;

impl Program for Chanrun {
    fn run<R: Source, W: Sink, E: Sink>(
        self,
        alloc: Global,
        arguments: Option<&[String]>,
        reader: &mut R,
        writer: &mut W,
        errors: &mut E,
    ) -> u8 {
        let count = arguments.map(|words| words.len());
        program(alloc, count, reader, writer, errors)
    }
}

/// The program that traces a script, over its devices. It answers the exit status, and says why it
/// isn't 0, as [`program`] does. Unless the status is 0 or 2, a beginning of the trace may have been
/// written.
///
/// # Examples
///
/// ```
/// let mut reader = FromStd::new(b"unbounded\nlen s0\nlen t0\n".as_slice());
/// let mut writer = FromStd::new(Vec::new(rt.alloc()));
/// let mut errors = FromStd::new(Vec::new(rt.alloc()));
/// let status = trace_program(rt.alloc(), Some(0), &mut reader, &mut writer, &mut errors);
/// assert_eq!(rt; status, 2);
/// let written: Vec<u8> = writer.into_inner();
/// let rows = "unbounded\nlen s0 => 0 | held | waiting\n";
/// assert_eq!(rt; written.as_slice(), rows.as_bytes());
/// let said: Vec<u8> = errors.into_inner();
/// assert_eq!(rt; said.as_slice(), b"line 3: bad name\n".as_slice());
/// ```
pub fn trace_program<R: Source, W: Sink, E: Sink>(
    alloc: Global,
    arguments: Option<usize>,
    reader: &mut R,
    writer: &mut W,
    errors: &mut E,
) -> u8
    // Status 0 says that the whole script was traced.
    ensures done { result ≡ 0 → (arguments ≡ Some 0) × (errors.new ≡ errors.old)
        × IsTraced (R.left reader.old) (R.left reader.new) (R.ended reader.new)
        (W.written writer.old) (W.written writer.new) None }
    // Status 2 without arguments says that it was traced up to a faulty line.
    ensures faulty { result ≡ 2 → arguments ≡ Some 0 → (fault : ℕ × Fault)
        × IsTraced (R.left reader.old) (R.left reader.new) (R.ended reader.new)
        (W.written writer.old) (W.written writer.new) (Some fault) }
    ensures known { (result ≡ 0) ⊎ (result ≡ 1) ⊎ (result ≡ 2) }
    ensures unread { arguments ≡ None
        → (result ≡ 1) × (reader.new ≡ reader.old) × (writer.new ≡ writer.old) }
    ensures refused { IfSome arguments (λ count. 0 < count
        → (result ≡ 2) × (reader.new ≡ reader.old) × (writer.new ≡ writer.old)) }
{
    match arguments {
        None => status_after(Err(ScriptError::OutOfMemory), errors),
        Some(0) => status_after(run_trace(alloc, reader, writer), errors),
        Some(_) => {
            tell(errors, "chantrace takes no arguments");
            2
        }
    }
}

/// Traces a script that is read from standard input.
///
/// # Examples
///
/// ```
/// let written = Vec::new(rt.alloc());
/// let said = Vec::new(rt.alloc());
/// let script = b"unbounded\nlen t0\n".as_slice();
/// let ended = run_buffered(rt.alloc(), Chantrace, Some(&[]), script, written, said);
/// assert_eq!(rt; ended, Ok(2));
/// ```
#[derive(Clone, Copy)]
pub struct Chantrace;

impl Program for Chantrace {
    fn run<R: Source, W: Sink, E: Sink>(
        self,
        alloc: Global,
        arguments: Option<&[String]>,
        reader: &mut R,
        writer: &mut W,
        errors: &mut E,
    ) -> u8 {
        let count = arguments.map(|words| words.len());
        trace_program(alloc, count, reader, writer, errors)
    }
}
