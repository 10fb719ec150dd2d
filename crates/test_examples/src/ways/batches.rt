//! The events between other things as one run. Where memory is wanting for it, that is told, and it is run once more:
//! `make growth` refuses memory so.
use crate::asking::{Asked, ask_of};
use crate::differences::Differences;
use crate::fault::Fault;
use crate::playing::Play;
use crate::scenes::{Example, Step};
use crate::shelves::{do_step, expect_whole_lists, prepared};
use room_desk::{Answer, Desk};
use room_records::Shelf;
use room_wire::{Code, Event};
use std::alloc::{AllocError, Global};

/// Events that are not answered yet, and the examples that they come from.
#[derive(Drop)]
struct Batch<'a> {
    events: Vec<Event>,
    examples: Vec<&'a Example>,
}

impl<'a> Batch<'a> {
    fn new(alloc: Global) -> Batch<'a> {
        Batch {
            events: Vec::new(alloc),
            examples: Vec::new(alloc),
        }
    }

    /// The line of the first.
    fn line(&self) -> usize {
        match self.examples.first() {
            Some(example) => example.line,
            None => 1,
        }
    }
}

/// What the events are answered, and the shelf then.
fn run<S: Shelf>(
    alloc: Global,
    shelf: S,
    events: &[Event],
) -> (Result<Vec<Answer>, AllocError>, S) {
    let mut desk = Desk::new(alloc, shelf);
    let answers = desk.run(events);
    (answers, desk.into_shelf())
}

fn is_delay(answer: &Answer) -> bool {
    matches!(answer, Answer::Refused(Code::Delay))
}

/// For what memory was wanting, if it was.
fn wanting(answers: &Result<Vec<Answer>, AllocError>) -> Option<&'static str> {
    match answers {
        Err(_) => Some("no memory for the answers"),
        Ok(answers) if answers.iter().any(is_delay) => Some("no memory for an event"),
        Ok(_) => None,
    }
}

fn compare(
    examples: &[&Example],
    answers: &[Answer],
    differences: &mut Differences<'_>,
) -> Result<(), Fault> {
    if answers.len() != examples.len() {
        return Err(Fault::Because("not one answer for each event"));
    }
    for (example, answer) in examples.iter().zip(answers) {
        differences.expect(example.line, answer.body(), example.due.body.as_slice())?;
    }
    Ok(())
}

/// Runs what waits.
fn flush<S: Shelf + Drop>(
    play: &Play<'_>,
    shelf: S,
    batch: &Batch<'_>,
    differences: &mut Differences<'_>,
) -> Result<S, Fault> {
    let (answers, shelf) = run(play.alloc, shelf, batch.events.as_slice());
    let (answers, shelf) = match wanting(&answers) {
        Some(what) => {
            differences.tell(batch.line(), what)?;
            run(play.alloc, shelf, batch.events.as_slice())
        }
        None => (answers, shelf),
    };
    let answers = answers?;
    compare(batch.examples.as_slice(), answers.as_slice(), differences)?;
    Ok(shelf)
}

/// Lets an event wait, or answers what is none.
fn add<'a>(
    play: &Play<'_>,
    batch: &mut Batch<'a>,
    example: &'a Example,
    differences: &mut Differences<'_>,
) -> Result<(), Fault> {
    match ask_of(play, example.sent.as_slice()) {
        Asked::Event(event) => {
            batch.events.push(event)?;
            batch.examples.push(example)?;
            Ok(())
        }
        Asked::Other(Answer::Refused(Code::Delay)) => Err(Fault::Memory),
        Asked::Other(answer) => {
            differences.expect(example.line, answer.body(), example.due.body.as_slice())
        }
    }
}

pub fn play<S: Shelf + Drop>(
    play: &Play<'_>,
    fresh: S,
    differences: &mut Differences<'_>,
) -> Result<(), Fault> {
    let mut shelf = prepared(play, fresh)?;
    let mut batch = Batch::new(play.alloc);
    for step in play.steps {
        if let Step::Ask(example) = step {
            add(play, &mut batch, example, differences)?;
        } else {
            shelf = flush(play, shelf, &batch, differences)?;
            batch = Batch::new(play.alloc);
            do_step(play, &mut shelf, step, differences)?;
        }
    }
    shelf = flush(play, shelf, &batch, differences)?;
    expect_whole_lists(play, &mut shelf, play.line, differences)
}
