//! Readers and writers that fail, for tests.

use std::alloc::Global;
use std::io::{self, ErrorKind, Read, Write};

/// A reader that gives a byte a read, with an interrupted read before each, and whose read number `fails_at` fails,
/// counted from 0 without the interrupted ones.
#[derive(Drop)]
pub(crate) struct Drip<'a> {
    bytes: &'a [u8],
    is_interrupted: bool,
    fails_at: usize,
    reads: usize,
}

impl<'a> Drip<'a> {
    pub(crate) fn new(bytes: &'a [u8], fails_at: usize) -> Drip<'a> {
        Drip {
            bytes,
            is_interrupted: false,
            fails_at,
            reads: 0,
        }
    }
}

impl Read for Drip<'_> {
    fn read(&mut self, buf: &mut [u8]) -> io::Result<usize> {
        self.is_interrupted = !self.is_interrupted;
        if self.is_interrupted {
            return Err(io::Error::from(ErrorKind::Interrupted));
        }
        if self.reads == self.fails_at {
            return Err(io::Error::from(ErrorKind::Other));
        }
        self.reads = self.reads.saturating_add(1);
        let Some((byte, rest)) = self.bytes.split_first() else {
            return Ok(0);
        };
        if buf.is_empty() {
            return Ok(0);
        }
        buf[0] = *byte;
        self.bytes = rest;
        Ok(1)
    }
}

/// A writer whose write number `fails_at` fails, counted from 0.
#[derive(Drop)]
pub(crate) struct Brittle {
    pub(crate) written: Vec<u8>,
    fails_at: usize,
    writes: usize,
}

impl Write for Brittle {
    fn write(&mut self, buf: &[u8]) -> io::Result<usize> {
        if self.writes == self.fails_at {
            return Err(io::Error::from(ErrorKind::Other));
        }
        self.writes = self.writes.saturating_add(1);
        self.written.extend_from_slice(buf)?;
        Ok(buf.len())
    }

    fn flush(&mut self) -> io::Result<()> {
        Ok(())
    }
}

impl Brittle {
    pub(crate) fn new(alloc: Global, fails_at: usize) -> Brittle {
        Brittle {
            written: Vec::new(alloc),
            fails_at,
            writes: 0,
        }
    }
}
