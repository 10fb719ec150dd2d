//! Each request as an event, one after another. After each, all stored lists are whole. Where it is told whose entries
//! a command puts, it is planned first.
use crate::differences::Differences;
use crate::fault::Fault;
use crate::playing::Play;
use crate::scenes::{Example, Step};
use crate::shelves::{answered, do_step, expect_whole_lists, prepared};
use crate::ways::plans::{Planned, expect_planned, plan_command};
use room_records::{Shelf, ShelfFault};

/// In a room of more objects than this, lists are looked at once, behind the last step of its scene.
const MANY: u32 = 64;

fn has_few<S: Shelf>(shelf: &mut S) -> Result<bool, ShelfFault> {
    Ok(shelf.next_id()? <= MANY)
}

/// What is planned for a request, where it is told whose entries it puts.
fn plan_of<S: Shelf>(
    play: &Play<'_>,
    shelf: &mut S,
    example: &Example,
) -> Result<Option<Planned>, Fault> {
    match &example.puts {
        Some(_) => Ok(Some(plan_command(play, shelf, example.sent.as_slice())?)),
        None => Ok(None),
    }
}

/// Compares what was planned for a request that is done, and all lists behind it.
fn expect_done<S: Shelf>(
    play: &Play<'_>,
    shelf: &mut S,
    example: &Example,
    planned: Option<&Planned>,
    differences: &mut Differences<'_>,
) -> Result<(), Fault> {
    if let (Some(puts), Some(planned)) = (&example.puts, planned) {
        expect_planned(play, shelf, example, puts, planned, differences)?;
    }
    if matches!(has_few(shelf), Ok(true)) {
        return expect_whole_lists(play, shelf, example.line, differences);
    }
    Ok(())
}

fn ask<S: Shelf + Drop>(
    play: &Play<'_>,
    shelf: S,
    example: &Example,
    differences: &mut Differences<'_>,
) -> Result<S, Fault> {
    let mut shelf = shelf;
    let planned = plan_of(play, &mut shelf, example)?;
    let (answer, mut shelf) = answered(play, shelf, example.sent.as_slice());
    differences.expect(example.line, answer.body(), example.due.body.as_slice())?;
    expect_done(play, &mut shelf, example, planned.as_ref(), differences)?;
    Ok(shelf)
}

fn take<S: Shelf + Drop>(
    play: &Play<'_>,
    shelf: S,
    step: &Step,
    differences: &mut Differences<'_>,
) -> Result<S, Fault> {
    let mut shelf = shelf;
    if let Step::Ask(example) = step {
        return ask(play, shelf, example, differences);
    }
    do_step(play, &mut shelf, step, differences)?;
    Ok(shelf)
}

pub fn play<S: Shelf + Drop>(
    play: &Play<'_>,
    shelf: S,
    differences: &mut Differences<'_>,
) -> Result<(), Fault> {
    let mut shelf = prepared(play, shelf)?;
    for step in play.steps {
        shelf = take(play, shelf, step, differences)?;
    }
    expect_whole_lists(play, &mut shelf, play.line, differences)
}
