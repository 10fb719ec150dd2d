//! A desk that serves a stream in memory.
use crate::differences::Differences;
use crate::fault::Fault;
use crate::playing::Play;
use crate::scenes::Example;
use room_desk::Desk;
use room_records::{Roster, Shelf};
use room_wire::{ServeEnd, Why};
use std::io::{Read, Result as IoResult};
use test_support::{BoundedWriter, Full};

/// Gives pieces of these sizes one a read, and then what is left.
#[derive(Drop)]
struct Pieces<'a> {
    rest: &'a [u8],
    sizes: &'a [usize],
}

impl Read for Pieces<'_> {
    fn read(&mut self, buf: &mut [u8]) -> IoResult<usize> {
        let mut size = buf.len();
        if let Some((first, others)) = self.sizes.split_first() {
            size = size.min(*first);
            self.sizes = others;
        }
        let (piece, rest) = self.rest.split_at(size.min(self.rest.len()));
        buf[..piece.len()].copy_from_slice(piece);
        self.rest = rest;
        Ok(piece.len())
    }
}

/// A stream as its client has it.
#[derive(Clone, Copy)]
pub struct Line<'a> {
    pub sent: &'a [u8],
    /// How many bytes come with each read; then all that are left.
    pub sizes: &'a [usize],
    /// How many bytes of the answers come through.
    pub room: usize,
}

impl<'a> Line<'a> {
    /// A stream that takes whatever there is.
    pub fn good(sent: &'a [u8]) -> Line<'a> {
        Line {
            sent,
            sizes: &[],
            room: usize::MAX,
        }
    }
}

/// How serving ended, and what was written.
#[derive(Drop)]
pub struct Ended {
    pub written: Vec<u8>,
    pub end: ServeEnd,
}

fn served<S: Shelf>(
    desk: &mut Desk<S>,
    roster: &Roster,
    reader: &mut Pieces<'_>,
    writer: &mut BoundedWriter,
) -> ServeEnd {
    desk.serve(roster, reader, writer)
}

/// Serves a stream, and gives the shelf then.
pub fn serve<S: Shelf>(play: &Play<'_>, shelf: S, line: Line<'_>) -> (Ended, S) {
    let mut desk = Desk::new(play.alloc, shelf);
    let Line { sent, sizes, room } = line;
    let mut reader = Pieces { rest: sent, sizes };
    let mut writer = BoundedWriter::new(play.alloc, room, usize::MAX, Full::Fails);
    let end = served(&mut desk, play.roster, &mut reader, &mut writer);
    let written = writer.taken;
    (Ended { written, end }, desk.into_shelf())
}

/// Compares the end of a stream of so many messages, this one the last. Bytes that are no message are not counted.
pub fn expect_end(
    last: &Example,
    messages: usize,
    end: ServeEnd,
    differences: &mut Differences<'_>,
) -> Result<(), Fault> {
    let (why, count) = if last.due.is_bad_message() {
        (Why::BadMessage, messages.saturating_sub(1))
    } else {
        (Why::Closed, messages)
    };
    if end.why != why {
        differences.tell(last.line, "another end of the stream")?;
    }
    if end.count != count as u64 {
        differences.tell(last.line, "another count of messages")?;
    }
    Ok(())
}
