//! A program over the standard streams.
use crate::device::{FromStd, Sink, Source};
use crate::script::ScriptError;
use std::alloc::Global;
use std::env;
use std::io::{BufWriter, Read, Write};
use std::rt::Env;

/// A program over its devices.
///
/// # Examples
///
/// ```
/// #[derive(Drop)]
/// struct Silent;
///
/// impl Program for Silent {
///     fn run<R: Source, W: Sink, E: Sink>(
///         self,
///         alloc: Global,
///         arguments: Option<&[String]>,
///         reader: &mut R,
///         writer: &mut W,
///         errors: &mut E,
///     ) -> u8 {
///         3
///     }
/// }
///
/// let written = Vec::new(rt.alloc());
/// let said = Vec::new(rt.alloc());
/// let ended = run_buffered(rt.alloc(), Silent, Some(&[]), b"".as_slice(), written, said);
/// assert_eq!(rt; ended, Ok(3));
/// ```
pub trait Program {
    /// Answers the exit status. There are no arguments if they couldn't be read.
    fn run<R: Source, W: Sink, E: Sink>(
        self,
        alloc: Global,
        arguments: Option<&[String]>,
        reader: &mut R,
        writer: &mut W,
        errors: &mut E,
    ) -> u8;
}

/// The arguments that stand after the program's own name, if they can be read.
///
/// # Examples
///
/// ```
/// let arguments = arguments_of(&rt);
/// assert!(rt; arguments.is_some());
/// ```
pub fn arguments_of<R: Env + AllocGlobal>(rt: &R) -> Option<Vec<String>> {
    let arguments = env::args(rt).ok()?;
    arguments.skip(1).collect(rt.alloc()).ok()
}

/// Runs a program over buffers. It answers the exit status.
///
/// # Errors
///
/// `OutOfMemory` if there is no memory for a buffer, and `Write` if what was written can't be
/// passed on. What was to be said on `errors` isn't said then.
///
/// # Examples
///
/// See [`Program`].
pub fn run_buffered<P: Program + Drop, I: Read + Drop, O: Write + Drop, E: Write + Drop>(
    alloc: Global,
    program: P,
    arguments: Option<&[String]>,
    input: I,
    output: O,
    errors: E,
) -> Result<u8, ScriptError> {
    let (Ok(output), Ok(lines)) = (BufWriter::new(alloc, output), BufWriter::new(alloc, errors))
    else {
        return Err(ScriptError::OutOfMemory);
    };
    let mut reader = FromStd::new(input);
    let mut writer = FromStd::new(output);
    let mut errors = FromStd::new(lines);
    let status = program.run(alloc, arguments, &mut reader, &mut writer, &mut errors);
    let mut lines = errors.into_inner();
    match writer.into_inner().flush() {
        Ok(()) => {
            let _ = lines.flush();
            Ok(status)
        }
        Err(_) => {
            let _ = lines.into_parts();
            Err(ScriptError::Write)
        }
    }
}
