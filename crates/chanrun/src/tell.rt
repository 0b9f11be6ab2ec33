//! A line for whoever runs a program.
use crate::device::Sink;
use crate::script::write_text;
use std::fmt;
use std::fmt::Write;

// A sink to which text is written.
struct Page<'a, S> {
    sink: &'a mut S,
}

impl<S: Sink> fmt::Write for Page<'_, S> {
    fn write_str(&mut self, text: &str) -> fmt::Result {
        match write_text(&mut *self.sink, text.as_bytes()) {
            Ok(()) => Ok(()),
            Err(_) => Err(fmt::Error),
        }
    }
}

/// Writes a line, as far as the sink takes it.
///
/// # Examples
///
/// ```
/// let mut errors = FromStd::new(Vec::new(rt.alloc()));
/// tell(&mut errors, Fault::BadName);
/// let said: Vec<u8> = errors.into_inner();
/// assert_eq!(rt; said.as_slice(), b"bad name\n".as_slice());
/// ```
pub fn tell<S: Sink, D: fmt::Display + Drop>(sink: &mut S, text: D) {
    let mut page = Page { sink };
    let _ = writeln!(page, "{text}");
    let Page { sink: _ } = page;
}
