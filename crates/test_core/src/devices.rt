//! Devices that pass one byte a call, and devices that fail.
use chanrun::device::{Sink, Source};
use std::io;
use std::io::{ErrorKind, Read, Write};

/// A device that passes one byte a call.
#[derive(Drop)]
pub struct OneByte<D>(pub D);

impl<R: Source> Source for OneByte<R> {
    ghost left = { λ reader. R.left reader.0 };

    ghost failures = { λ reader. R.failures reader.0 };

    ghost ended = { λ reader. R.ended reader.0 };

    fn read(&mut self, buffer: &mut [u8]) -> io::Result<usize> {
        if buffer.is_empty() {
            self.0.read(buffer)
        } else {
            self.0.read(&mut buffer[..1])
        }
    }
}

impl<W: Sink> Sink for OneByte<W> {
    ghost written = { λ writer. W.written writer.0 };

    ghost failures = { λ writer. W.failures writer.0 };

    fn write(&mut self, bytes: &[u8]) -> io::Result<usize> {
        if bytes.is_empty() {
            self.0.write(bytes)
        } else {
            self.0.write(&bytes[..1])
        }
    }
}

/// How a writer refuses more bytes.
#[derive(Clone, Copy, Debug, PartialEq, Eq)]
pub enum Refusing {
    /// It answers an error.
    Fails,
    /// It takes no byte.
    TakesNone,
}

/// A writer that takes a number of bytes and then no more.
#[derive(Drop)]
pub struct Narrow {
    pub written: Vec<u8>,
    pub room: usize,
    pub then: Refusing,
}

impl Write for Narrow {
    fn write(&mut self, bytes: &[u8]) -> io::Result<usize> {
        let count = bytes.len().min(self.room);
        if count == 0 && self.then == Refusing::Fails {
            return Err(io::Error::from(ErrorKind::BrokenPipe));
        }
        self.written.extend_from_slice(&bytes[..count])?;
        self.room -= count;
        Ok(count)
    }

    fn flush(&mut self) -> io::Result<()> {
        Ok(())
    }
}

/// A reader that passes 16 bytes a call, and fails at the call of this number.
#[derive(Drop)]
pub struct Faltering<'a> {
    pub rest: &'a [u8],
    pub calls: usize,
    pub fails_at: usize,
}

impl Read for Faltering<'_> {
    fn read(&mut self, buffer: &mut [u8]) -> io::Result<usize> {
        self.calls = self.calls.saturating_add(1);
        if self.calls == self.fails_at {
            return Err(io::Error::from(ErrorKind::BrokenPipe));
        }
        let count = buffer.len().min(self.rest.len()).min(16);
        buffer[..count].copy_from_slice(&self.rest[..count]);
        self.rest = &self.rest[count..];
        Ok(count)
    }
}
