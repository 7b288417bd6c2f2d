//! A reader and a writer in memory that can fail, or take few bytes at a time.

ghost use Rattle.std.specs.Prelude.{◌<◌, Some};

use std::alloc::Global;
use std::io;
use std::io::{ErrorKind, Read, Write};

/// Gives `rest`, at most `step` bytes a call, and fails after `calls` calls.
#[derive(Drop)]
pub struct MemoryReader<'a> {
    pub rest: &'a [u8],
    pub step: usize,
    pub calls: usize,
    ghost some: { 0 < step },
}

impl<'a> Read for MemoryReader<'a> {
    ghost remaining = { λ r. Some r.rest.now };

    fn read(&mut self, buf: &mut [u8]) -> io::Result<usize> {
        use_call(&mut self.calls)?;
        let count = self.rest.len().min(buf.len()).min(self.step);
        let (front, rest) = self.rest.split_at(count);
        buf[..count].copy_from_slice(front);
        self.rest = rest;
        Ok(count)
    }
}

/// Takes at most `step` bytes a call and `room` bytes in all, and fails after `calls` calls.
#[derive(Drop)]
pub struct MemoryWriter {
    pub bytes: Vec<u8>,
    pub step: usize,
    pub room: usize,
    pub calls: usize,
}

impl MemoryWriter {
    pub fn new(alloc: Global, step: usize, calls: usize) -> MemoryWriter {
        MemoryWriter::with_room(alloc, step, 4096, calls)
    }

    pub fn with_room(alloc: Global, step: usize, room: usize, calls: usize) -> MemoryWriter {
        MemoryWriter {
            bytes: Vec::new(alloc),
            step,
            room,
            calls,
        }
    }
}

impl Write for MemoryWriter {
    ghost contents = { λ w. Some w.bytes.items };

    fn write(&mut self, buf: &[u8]) -> io::Result<usize> {
        use_call(&mut self.calls)?;
        let count = buf.len().min(self.step).min(self.room);
        self.bytes.extend_from_slice(&buf[..count])?;
        self.room -= count;
        Ok(count)
    }

    fn flush(&mut self) -> io::Result<()> {
        use_call(&mut self.calls)
    }
}

/// Reads from the inner reader. A signal interrupts before each read.
#[derive(Drop)]
pub struct InterruptedReader<'a> {
    pub inner: MemoryReader<'a>,
    pub was_told: bool,
}

impl<'a> Read for InterruptedReader<'a> {
    ghost remaining = { λ r. Some r.inner.rest.now };

    fn read(&mut self, buf: &mut [u8]) -> io::Result<usize> {
        self.was_told = !self.was_told;
        if self.was_told {
            return Err(io::Error::from(ErrorKind::Interrupted));
        }
        self.inner.read(buf)
    }
}

/// Writes to the inner writer. A signal interrupts before each write and flush.
#[derive(Drop)]
pub struct InterruptedWriter {
    pub inner: MemoryWriter,
    pub was_told: bool,
}

impl Write for InterruptedWriter {
    ghost contents = { λ w. Some w.inner.bytes.items };

    fn write(&mut self, buf: &[u8]) -> io::Result<usize> {
        self.was_told = !self.was_told;
        if self.was_told {
            return Err(io::Error::from(ErrorKind::Interrupted));
        }
        self.inner.write(buf)
    }

    fn flush(&mut self) -> io::Result<()> {
        self.was_told = !self.was_told;
        if self.was_told {
            return Err(io::Error::from(ErrorKind::Interrupted));
        }
        self.inner.flush()
    }
}

/// Gives endless zeros.
#[derive(Drop)]
pub struct Endless;

impl Read for Endless {
    fn read(&mut self, buf: &mut [u8]) -> io::Result<usize> {
        buf.fill(0);
        Ok(buf.len())
    }
}

fn use_call(calls: &mut usize) -> io::Result<()> {
    if *calls == 0 {
        return Err(io::Error::from(ErrorKind::BrokenPipe));
    }
    *calls -= 1;
    Ok(())
}
