//! A reader that gives its pieces and fails, and a writer that is full.
use std::alloc::Global;
use std::io::{Error, ErrorKind, Read, Result, Write};

/// Gives its pieces one a call, each as far as the buffer takes it, and counts the calls. The call
/// of number `fails_at`, counted from 1, fails in place of giving.
#[derive(Drop)]
pub struct Pieces<'a> {
    pieces: &'a [&'a str],
    at: usize,
    given: usize,
    pub calls: u64,
    fails_at: u64,
}

impl<'a> Pieces<'a> {
    /// A reader of these pieces. `fails_at` of 0 is for one that does not fail.
    pub fn new(pieces: &'a [&'a str], fails_at: u64) -> Pieces<'a> {
        Pieces {
            pieces,
            at: 0,
            given: 0,
            calls: 0,
            fails_at,
        }
    }
}

impl Read for Pieces<'_> {
    fn read(&mut self, buf: &mut [u8]) -> Result<usize> {
        self.calls = self.calls.saturating_add(1);
        if self.calls == self.fails_at {
            return Err(Error::from(ErrorKind::Other));
        }
        let Some(piece) = self.pieces.get(self.at) else {
            return Ok(0);
        };
        let bytes = piece.as_bytes();
        let rest = &bytes[self.given.min(bytes.len())..];
        let count = rest.len().min(buf.len());
        buf[..count].copy_from_slice(&rest[..count]);
        if count == rest.len() {
            self.at = self.at.saturating_add(1);
            self.given = 0;
        } else {
            self.given = self.given.saturating_add(count);
        }
        Ok(count)
    }
}

/// What a `BoundedWriter` writer does once it is full.
#[derive(Clone, Copy, Debug, PartialEq, Eq)]
pub enum Full {
    Fails,
    TakesNone,
}

/// Takes at most `step` bytes a call and `room` bytes in all.
#[derive(Drop)]
pub struct BoundedWriter {
    pub taken: Vec<u8>,
    room: usize,
    step: usize,
    full: Full,
}

impl BoundedWriter {
    pub fn new(alloc: Global, room: usize, step: usize, full: Full) -> BoundedWriter {
        BoundedWriter {
            taken: Vec::new(alloc),
            room,
            step,
            full,
        }
    }
}

impl Write for BoundedWriter {
    fn write(&mut self, buf: &[u8]) -> Result<usize> {
        if self.room == 0 && self.full == Full::Fails {
            return Err(Error::from(ErrorKind::Other));
        }
        let count = buf.len().min(self.step).min(self.room);
        if self.taken.extend_from_slice(&buf[..count]).is_err() {
            return Err(Error::from(ErrorKind::OutOfMemory));
        }
        self.room -= count;
        Ok(count)
    }

    fn flush(&mut self) -> Result<()> {
        Ok(())
    }
}
