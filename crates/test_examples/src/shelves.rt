//! What is done with a room on a shelf, in whichever way.
use crate::asking::{Asked, ask_of};
use crate::differences::Differences;
use crate::fault::Fault;
use crate::playing::Play;
use crate::scenes::{Kind, Step};
use room_desk::Desk;
use room_records::{Change, Shelf};
use room_report::{access_report, list_report};
use room_wire::{Answer, Event};
use std::alloc::Global;
use test_support::other_list;

/// What an event is answered, and the shelf then.
pub fn handled<S: Shelf>(alloc: Global, shelf: S, event: &Event) -> (Answer, S) {
    let mut desk = Desk::new(alloc, shelf);
    let answer = desk.handle(event);
    (answer, desk.into_shelf())
}

/// What a message is answered, and the shelf then.
pub fn answered<S: Shelf>(play: &Play<'_>, shelf: S, sent: &[u8]) -> (Answer, S) {
    match ask_of(play, sent) {
        Asked::Event(event) => handled(play.alloc, shelf, &event),
        Asked::Other(answer) => (answer, shelf),
    }
}

fn set_next<S: Shelf>(alloc: Global, shelf: &mut S, number: u32) -> Result<(), Fault> {
    let changes = vec![in alloc; Change::PutNext(number)]?;
    match shelf.commit(changes.as_slice()) {
        Ok(()) => Ok(()),
        Err(_) => Err(Fault::Because("a next number that was not kept")),
    }
}

fn reported<S: Shelf>(play: &Play<'_>, shelf: &mut S, kind: Kind) -> Result<Vec<u8>, Fault> {
    let mut written = Vec::new(play.alloc);
    let end = match kind {
        Kind::Access => access_report(play.alloc, shelf, play.roster, &mut written),
        Kind::Lists => list_report(play.alloc, shelf, &mut written),
    };
    match end {
        Ok(()) => Ok(written),
        Err(_) => Err(Fault::Because("a report that is not whole")),
    }
}

/// Tells where the stored list of an object is another than its list from scratch.
pub fn expect_whole_lists<S: Shelf>(
    play: &Play<'_>,
    shelf: &mut S,
    line: usize,
    differences: &mut Differences<'_>,
) -> Result<(), Fault> {
    match other_list(play.alloc, shelf) {
        Ok(None) => Ok(()),
        Ok(Some(id)) => {
            let text = format!(in play.alloc; "another stored list than from scratch: {id}")?;
            differences.tell(line, text.as_str())
        }
        Err(_) => Err(Fault::Because("lists that were not read")),
    }
}

/// A step that is no message: a report is compared, and the next number is set.
pub fn do_step<S: Shelf>(
    play: &Play<'_>,
    shelf: &mut S,
    step: &Step,
    differences: &mut Differences<'_>,
) -> Result<(), Fault> {
    match step {
        Step::Report { line, kind, due } => {
            let written = reported(play, shelf, *kind)?;
            differences.expect(*line, written.as_slice(), due.as_slice())
        }
        Step::Next(number) => set_next(play.alloc, shelf, *number),
        Step::Reopen | Step::Ask(_) => Ok(()),
    }
}

/// A step of an earlier scene, which compares its answers itself: how it ended, and the shelf then.
fn done<S: Shelf>(play: &Play<'_>, shelf: S, step: &Step) -> (Result<(), Fault>, S) {
    let mut shelf = shelf;
    match step {
        Step::Ask(example) => {
            let (_, shelf) = answered(play, shelf, example.sent.as_slice());
            (Ok(()), shelf)
        }
        Step::Next(number) => {
            let end = set_next(play.alloc, &mut shelf, *number);
            (end, shelf)
        }
        Step::Report { .. } | Step::Reopen => (Ok(()), shelf),
    }
}

/// Does the steps of the earlier scenes: how that ended, and the shelf then.
pub fn prepare<S: Shelf>(play: &Play<'_>, shelf: S) -> (Result<(), Fault>, S) {
    let mut shelf = shelf;
    for step in play.before {
        let (end, next) = done(play, shelf, step);
        shelf = next;
        if end.is_err() {
            return (end, shelf);
        }
    }
    (Ok(()), shelf)
}

/// The room as the earlier scenes leave it.
pub fn prepared<S: Shelf + Drop>(play: &Play<'_>, shelf: S) -> Result<S, Fault> {
    let (end, shelf) = prepare(play, shelf);
    end?;
    Ok(shelf)
}
