//! Each request with each call of the shelf failing in turn, until none does.
use crate::asking::{Asked, ask_of};
use crate::differences::Differences;
use crate::fault::Fault;
use crate::playing::Play;
use crate::scenes::{Example, Step};
use crate::shelves::{answered, do_step, expect_whole_lists, prepared};
use room_desk::Answer;
use room_records::{Shelf, TripShelf};
use room_wire::{Code, refusal_text};

/// The most calls of the shelf that a request makes.
const MOST_CALLS: u64 = 100_000;

/// What a message is answered where the k-th call of the shelf fails, whether one did, and the shelf then.
fn answered_at<S: Shelf>(play: &Play<'_>, shelf: S, k: u64, sent: &[u8]) -> (Answer, bool, S) {
    let (answer, shelf) = answered(play, TripShelf::new(shelf, k), sent);
    let tripped = shelf.has_tripped();
    (answer, tripped, shelf.into_inner())
}

/// Tells where a call failed and the room was not asked, or none failed and it was: an event reads the shelf.
fn expect_trips(
    play: &Play<'_>,
    example: &Example,
    trips: u64,
    differences: &mut Differences<'_>,
) -> Result<(), Fault> {
    match (ask_of(play, example.sent.as_slice()), trips) {
        (Asked::Event(_), 0) => differences.tell(example.line, "no call of the shelf"),
        (Asked::Event(_), _) | (Asked::Other(_), 0) => Ok(()),
        (Asked::Other(_), _) => differences.tell(example.line, "a call of the shelf"),
    }
}

/// Compares an answer: the due one behind so many failed calls, DELAY where a call failed.
fn expect_answer(
    play: &Play<'_>,
    example: &Example,
    answer: &Answer,
    trips: Option<u64>,
    differences: &mut Differences<'_>,
) -> Result<(), Fault> {
    let due = match trips {
        Some(trips) => {
            expect_trips(play, example, trips, differences)?;
            example.due.body.as_slice()
        }
        None => refusal_text(Code::Delay).as_bytes(),
    };
    differences.expect(example.line, answer.body(), due)
}

fn ask<S: Shelf + Drop>(
    play: &Play<'_>,
    shelf: S,
    example: &Example,
    differences: &mut Differences<'_>,
) -> Result<S, Fault> {
    let mut shelf = shelf;
    for k in 1..MOST_CALLS {
        let (answer, tripped, left) = answered_at(play, shelf, k, example.sent.as_slice());
        shelf = left;
        let trips = if tripped {
            None
        } else {
            Some(k.saturating_sub(1))
        };
        expect_answer(play, example, &answer, trips, differences)?;
        if !tripped {
            return Ok(shelf);
        }
    }
    differences.tell(example.line, "no end of calls of the shelf")?;
    Ok(shelf)
}

pub fn play<S: Shelf + Drop>(
    play: &Play<'_>,
    fresh: S,
    differences: &mut Differences<'_>,
) -> Result<(), Fault> {
    let mut shelf = prepared(play, fresh)?;
    for step in play.steps {
        match step {
            Step::Ask(example) => shelf = ask(play, shelf, example, differences)?,
            Step::Report { .. } | Step::Next(_) | Step::Reopen => {
                do_step(play, &mut shelf, step, differences)?;
            }
        }
    }
    expect_whole_lists(play, &mut shelf, play.line, differences)
}
