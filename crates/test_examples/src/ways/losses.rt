//! Each answer lost behind each of its bytes, and the request sent again. A request that runs and whose reply is not
//! kept gets that reply once, and it is lost behind all of its bytes but the last; then it is told that it was run, and
//! that answer is lost behind each of its bytes.
use crate::asking::{Asked, ask_of};
use crate::differences::Differences;
use crate::due::{Due, read_due};
use crate::fault::Fault;
use crate::playing::Play;
use crate::rooms::in_memory;
use crate::scenes::{Example, Step};
use crate::shelves::{do_step, expect_whole_lists, prepared};
use crate::ways::serving::{Ended, Line, expect_end, serve};
use room_records::{MemShelf, Shelf, Sid};
use room_wire::{Event, Why};

/// An answer is lost behind each of so many bytes at its front, then behind every so many, and behind all but the last.
const MOST: usize = 2000;

const STEP: usize = 1009;

/// What is due to a request that was run, and whose reply is not kept.
const UNCACHED: &str = r#"409 {"code":25,"error":"RETRY_UNCACHED"}"#;

/// Whether an answer of this size is lost behind so many bytes.
fn is_lost_behind(room: usize, size: usize) -> bool {
    room < MOST || room % STEP == 0 || room == size.saturating_sub(1)
}

/// The request, whose answer is lost behind so many bytes.
fn lose(
    play: &Play<'_>,
    shelf: MemShelf,
    example: &Example,
    due: &Due,
    room: usize,
    differences: &mut Differences<'_>,
) -> Result<MemShelf, Fault> {
    let mut line = Line::good(example.sent.as_slice());
    line.room = room;
    let (ended, shelf) = serve(play, shelf, line);
    let whole = due.whole.as_slice();
    let (front, _) = whole.split_at(room.min(whole.len()));
    expect_lost(example, &ended, front, differences)?;
    Ok(shelf)
}

/// Compares what was written before the answer was lost, and how serving ended.
fn expect_lost(
    example: &Example,
    ended: &Ended,
    front: &[u8],
    differences: &mut Differences<'_>,
) -> Result<(), Fault> {
    differences.expect(example.line, ended.written.as_slice(), front)?;
    if ended.end.why != Why::WriteFailed {
        differences.tell(example.line, "a lost answer that the server takes for sent")?;
    }
    if ended.end.count != count_of(example) {
        return differences.tell(
            example.line,
            "another count of messages where the answer is lost",
        );
    }
    Ok(())
}

/// How many messages the example is. Bytes that are no message are not counted.
fn count_of(example: &Example) -> u64 {
    if example.due.is_bad_message() { 0 } else { 1 }
}

/// The request, whose answer is lost behind each of its bytes in turn, or behind many of them where it is long.
fn lose_each(
    play: &Play<'_>,
    shelf: MemShelf,
    example: &Example,
    due: &Due,
    differences: &mut Differences<'_>,
) -> Result<MemShelf, Fault> {
    let size = due.whole.len();
    let mut shelf = shelf;
    for room in 0..size {
        if is_lost_behind(room, size) {
            shelf = lose(play, shelf, example, due, room, differences)?;
        }
    }
    Ok(shelf)
}

/// The request, whose answer is lost behind each of its bytes, and which then gets it whole.
fn ask_again(
    play: &Play<'_>,
    shelf: MemShelf,
    example: &Example,
    due: &Due,
    differences: &mut Differences<'_>,
) -> Result<MemShelf, Fault> {
    let shelf = lose_each(play, shelf, example, due, differences)?;
    let (ended, shelf) = serve(play, shelf, Line::good(example.sent.as_slice()));
    expect_whole(example, due, &ended, differences)?;
    Ok(shelf)
}

/// Compares an answer that comes through, and how serving ended.
fn expect_whole(
    example: &Example,
    due: &Due,
    ended: &Ended,
    differences: &mut Differences<'_>,
) -> Result<(), Fault> {
    differences.expect(example.line, ended.written.as_slice(), due.whole.as_slice())?;
    expect_end(example, 1, ended.end, differences)
}

/// The session, the slot and the number of a request that says that its reply need not be kept.
fn unkept_slot(event: &Event) -> Option<(&Sid, u32, u32)> {
    match event {
        Event::Slot {
            sid,
            slot,
            seq,
            keep,
            ..
        } => if *keep {
            None
        } else {
            Some((sid, *slot, *seq))
        },
        Event::Open { .. } | Event::Close { .. } => None,
    }
}

/// Whether a request with this number runs now. One with the kept number ran before.
fn runs(shelf: &mut MemShelf, sid: &Sid, slot: u32, seq: u32) -> Result<bool, Fault> {
    match shelf.slot(sid, slot) {
        Ok(Some(kept)) => Ok(kept.seq != seq),
        Ok(None) => Ok(true),
        Err(_) => Err(Fault::Because("a slot that was not read")),
    }
}

/// Whether an event runs now, and its reply need not be kept.
fn runs_unkept(shelf: &mut MemShelf, event: &Event) -> Result<bool, Fault> {
    match unkept_slot(event) {
        Some((sid, slot, seq)) => runs(shelf, sid, slot, seq),
        None => Ok(false),
    }
}

/// Whether the request runs now, and its reply need not be kept.
fn is_unkept(play: &Play<'_>, shelf: &mut MemShelf, example: &Example) -> Result<bool, Fault> {
    let runs = match ask_of(play, example.sent.as_slice()) {
        Asked::Event(event) => runs_unkept(shelf, &event),
        Asked::Other(_) => Ok(false),
    };
    Ok(runs? && example.due.is_reply)
}

/// What is due from then on to a request whose reply is not kept.
fn uncached(play: &Play<'_>) -> Result<Due, Fault> {
    let (head, body) = read_due(UNCACHED)?;
    Due::new(play.alloc, head, body.as_bytes().to_vec(play.alloc)?)
}

fn ask(
    play: &Play<'_>,
    shelf: MemShelf,
    example: &Example,
    differences: &mut Differences<'_>,
) -> Result<MemShelf, Fault> {
    let mut shelf = shelf;
    if !is_unkept(play, &mut shelf, example)? {
        return ask_again(play, shelf, example, &example.due, differences);
    }
    let last = example.due.whole.len().saturating_sub(1);
    let shelf = lose(play, shelf, example, &example.due, last, differences)?;
    ask_again(play, shelf, example, &uncached(play)?, differences)
}

pub fn play(play: &Play<'_>, differences: &mut Differences<'_>) -> Result<(), Fault> {
    let mut shelf = prepared(play, in_memory(play.alloc)?)?;
    for step in play.steps {
        match step {
            Step::Ask(example) => shelf = ask(play, shelf, example, differences)?,
            Step::Report { .. } | Step::Next(_) | Step::Reopen => {
                do_step(play, &mut shelf, step, differences)?;
            }
        }
    }
    expect_whole_lists(play, &mut shelf, play.line, differences)
}
