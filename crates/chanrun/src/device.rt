//! What a script is read from and written to.
ghost use Rattle.std.specs.Prelude.{◌≡◌, ℕ, List, Option, Bool, false, ◌||◌, if◌then◌else◌, length, OnOk, OnErr, IfOk};
ghost use Rattle.std.specs.Io.{ReadsAtMost, WritesAtMost};
ghost use Rattle.std.specs.Io.KnownBytes.{ReadConsumes, WriteAppends};
ghost use Rattle.chanrun.specs.Device.{one_more, read_failed, met_end, write_failed};

use std::io;
use std::io::{Read, Write};
use std::marker::Model;

/// A reader in the form of std's. Contracts alone see what it tells of itself.
///
/// # Examples
///
/// ```
/// let mut reader = FromStd::new(b"len s0\n".as_slice());
/// let mut buffer = [0u8; 4];
/// assert!(rt; matches!(Source::read(&mut reader, &mut buffer), Ok(4)));
/// assert_eq!(rt; buffer.as_slice(), b"len ".as_slice());
/// ```
pub trait Source {
    /// The bytes that are left, if they are known.
    ghost left: { Self → Option (List ℕ) };

    /// How many reads failed. It stays at the greatest number of 64 bits.
    ghost failures: { Self → ℕ };

    /// Whether a read met the end.
    ghost ended: { Self → Bool };

    /// Reads into the front of the buffer, and says how many bytes. For a buffer with room, none
    /// says that the end is met. An answer of an error is a failure.
    fn read(&mut self, buffer: &mut [u8]) -> io::Result<usize>
        ensures within { ReadsAtMost result buffer.new }
        ensures bytes { ReadConsumes (left self.old) (left self.new) result buffer.new }
        ensures failures { failures self.new
            ≡ (if read_failed result then one_more (failures self.old) else failures self.old) }
        ensures ended { ended self.new ≡ (ended self.old || met_end result (length buffer.old)) };
}

/// A writer in the form of std's. Contracts alone see what it tells of itself.
///
/// # Examples
///
/// ```
/// let mut writer = FromStd::new(Vec::new(rt.alloc()));
/// assert!(rt; matches!(Sink::write(&mut writer, b"ok\n".as_slice()), Ok(3)));
/// let written: Vec<u8> = writer.into_inner();
/// assert_eq!(rt; written.as_slice(), b"ok\n".as_slice());
/// ```
pub trait Sink {
    /// The bytes that were written, if they are known.
    ghost written: { Self → Option (List ℕ) };

    /// How many writes failed. It stays at the greatest number of 64 bits.
    ghost failures: { Self → ℕ };

    /// Writes the first of these bytes, and says how many. An answer of an error is a failure, and
    /// so is none of some.
    fn write(&mut self, bytes: &[u8]) -> io::Result<usize>
        ensures within { WritesAtMost result bytes.now }
        ensures bytes { WriteAppends (written self.old) (written self.new) result bytes.now }
        ensures failures { failures self.new
            ≡ (if write_failed result (length bytes.now) then one_more (failures self.old)
            else failures self.old) };
}

/// A reader or a writer of std, with what contracts say of its calls.
///
/// Contracts see the device, how many calls failed, and whether a read met the end.
///
/// # Examples
///
/// ```
/// let mut reader = FromStd::new(b"unbounded\n".as_slice());
/// let script = read_script(rt.alloc(), &mut reader)?;
/// assert_eq!(rt; script.as_slice(), b"unbounded\n".as_slice());
///
/// // What is left to read is nothing.
/// assert!(rt; reader.into_inner().is_empty());
/// ```
#[derive(Drop)]
pub struct FromStd<D> {
    device: D,
    failures: u64,
    ended: bool,
}

impl<D> Model for FromStd<D> {
    ghost use Rattle.chanrun.specs.Device.{StdView};

    ghost Value = { StdView D };

    ghost view = { λ std. record {
      device = std.device;
      failures = std.failures;
      ended = std.ended;
    } };
}

impl<D> FromStd<D> {
    /// No call has been made of it yet.
    pub fn new(device: D) -> FromStd<D>
        ensures { result ≡ record { device = device; failures = 0; ended = false } }
    {
        FromStd {
            device,
            failures: 0,
            ended: false,
        }
    }

    /// The reader or writer.
    pub fn into_inner(self) -> D
        ensures { result ≡ self.device }
    {
        let FromStd {
            device,
            failures: _,
            ended: _,
        } = self;
        device
    }
}

impl<R: Read> Source for FromStd<R> {
    ghost left = { λ reader. R.remaining reader.device };

    ghost failures = { λ reader. reader.failures };

    ghost ended = { λ reader. reader.ended };

    fn read(&mut self, buffer: &mut [u8]) -> io::Result<usize> {
        let outcome = self.device.read(buffer);
        match &outcome {
            Ok(count) => {
                if *count == 0 && !buffer.is_empty() {
                    self.ended = true;
                }
            }
            Err(_) => self.failures = self.failures.saturating_add(1),
        }
        outcome
    }
}

impl<W: Write> Sink for FromStd<W> {
    ghost written = { λ writer. W.contents writer.device };

    ghost failures = { λ writer. writer.failures };

    fn write(&mut self, bytes: &[u8]) -> io::Result<usize> {
        let outcome = self.device.write(bytes);
        let failed = match &outcome {
            Ok(count) => *count == 0 && !bytes.is_empty(),
            Err(_) => true,
        };
        if failed {
            self.failures = self.failures.saturating_add(1);
        }
        outcome
    }
}
