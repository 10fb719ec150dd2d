//! A reader that is not asked again behind a bad message, and a writer that fails in mid-stream.
use room_desk::Desk;
use room_records::{MemShelf, Shelf};
use room_wire::{ServeEnd, Why, serve_checks};
use std::alloc::Global;
use std::io::{Read, Write};
use std::test::Fail;
use test_support::{BAD_HTTP, BoundedWriter, Full, Pieces, QUESTION, in_memory, must, roster};

/// How a stream is served by a fresh room in memory, and the room then.
fn served<R: Read, W: Write>(
    alloc: Global,
    reader: &mut R,
    writer: &mut W,
) -> Result<(ServeEnd, MemShelf), Fail> {
    let roster = roster(alloc)?;
    let mut desk = Desk::new(alloc, in_memory(alloc)?);
    let end = desk.serve(&roster, reader, writer);
    Ok((end, desk.into_shelf()))
}

static BAD_FIRST: [&str; 2] = ["no message\r\n", QUESTION];

/// A stream with bytes that no message can begin with ends there: nothing more is read.
fn is_read_once(reader: &Pieces<'_>, output: &[u8], end: ServeEnd, what: &str) -> Result<(), Fail> {
    must(output == BAD_HTTP.as_bytes(), what)?;
    must(end.why == Why::BadMessage && end.count == 0, what)?;
    must(reader.calls == 1, what)
}

#[test]
fn no_question_is_read_after_a_bad_message(rt: HostRuntime) -> Result<(), Fail> {
    let mut reader = Pieces::new(&BAD_FIRST, 0);
    let mut output = Vec::new(rt.alloc());
    let end = serve_checks(rt.alloc(), &mut reader, &mut output);
    is_read_once(&reader, output.as_slice(), end, "questions")
}

#[test]
fn a_room_reads_nothing_after_a_bad_message(rt: HostRuntime) -> Result<(), Fail> {
    let mut reader = Pieces::new(&BAD_FIRST, 0);
    let mut output = Vec::new(rt.alloc());
    let (end, _) = served(rt.alloc(), &mut reader, &mut output)?;
    is_read_once(&reader, output.as_slice(), end, "a room")
}

/// A session, and a folder in it.
const PLANS: &str = "POST /v1/sessions/0123456789abcdef0123456789abcdef HTTP/1.1\r\n\
room-user: ann\r\ncontent-length: 11\r\n\r\n{\"slots\":3}\
POST /v1/sessions/0123456789abcdef0123456789abcdef/slots/0/1 HTTP/1.1\r\n\
room-user: ann\r\ncontent-length: 31\r\n\r\n{\"cmd\":\"MKDIR\",\"path\":\"/plans\"}";

/// How many folders are in the root after this stream, of whose answers so many bytes can be written.
fn folders_after(alloc: Global, room: usize, why: Why) -> Result<u64, Fail> {
    let mut writer = BoundedWriter::new(alloc, room, 1000, Full::Fails);
    let (end, shelf) = served(alloc, &mut PLANS.as_bytes(), &mut writer)?;
    let mut shelf = shelf;
    must(end.why == why, "the end")?;
    Ok(shelf.child_count(1)?)
}

/// The write of the first answer fails: what was sent behind it is not done.
#[test]
fn nothing_is_done_behind_a_failed_write(rt: HostRuntime) -> Result<(), Fail> {
    must(
        folders_after(rt.alloc(), 10, Why::WriteFailed)? == 0,
        "behind a failed write",
    )?;
    must(
        folders_after(rt.alloc(), 1000, Why::Closed)? == 1,
        "where none fails",
    )
}
