//! Readers and writers that fail, for tests of what reads and writes streams.

use std::alloc::Global;
use std::io::{self, ErrorKind, Read, Write};

/// Gives so many bytes a read, is interrupted before each, and fails at one of the reads, counted
/// from 1.
#[derive(Drop)]
pub struct Giver<'a> {
    rest: &'a [u8],
    size: usize,
    is_interrupted: bool,
    reads_left: u32,
}

impl Giver<'_> {
    /// One that gives these bytes.
    pub fn new(rest: &[u8], size: usize, fails_at: u32) -> Giver<'_> {
        Giver {
            rest,
            size,
            is_interrupted: false,
            reads_left: fails_at,
        }
    }
}

impl Read for Giver<'_> {
    fn read(&mut self, buf: &mut [u8]) -> io::Result<usize> {
        self.is_interrupted = !self.is_interrupted;
        if self.is_interrupted {
            return Err(ErrorKind::Interrupted.into());
        }
        self.reads_left = self.reads_left.saturating_sub(1);
        if self.reads_left == 0 {
            return Err(ErrorKind::BrokenPipe.into());
        }
        let count = self.rest.len().min(buf.len()).min(self.size);
        buf[..count].copy_from_slice(&self.rest[..count]);
        self.rest = &self.rest[count..];
        Ok(count)
    }
}

/// Takes so many bytes a write, is interrupted before each call, and fails at one of the calls,
/// counted from 1. A flush is a call too.
#[derive(Drop)]
pub struct Taker {
    /// What was taken.
    pub taken: Vec<u8>,
    size: usize,
    is_interrupted: bool,
    calls_left: u32,
}

impl Taker {
    /// One that has taken nothing.
    pub fn new(alloc: Global, size: usize, fails_at: u32) -> Taker {
        Taker {
            taken: Vec::new(alloc),
            size,
            is_interrupted: false,
            calls_left: fails_at,
        }
    }

    fn call(&mut self) -> io::Result<()> {
        self.is_interrupted = !self.is_interrupted;
        if self.is_interrupted {
            return Err(ErrorKind::Interrupted.into());
        }
        self.calls_left = self.calls_left.saturating_sub(1);
        if self.calls_left == 0 {
            return Err(ErrorKind::BrokenPipe.into());
        }
        Ok(())
    }
}

impl Write for Taker {
    fn write(&mut self, buf: &[u8]) -> io::Result<usize> {
        self.call()?;
        let count = buf.len().min(self.size);
        self.taken.extend_from_slice(&buf[..count])?;
        Ok(count)
    }

    fn flush(&mut self) -> io::Result<()> {
        self.call()
    }
}
