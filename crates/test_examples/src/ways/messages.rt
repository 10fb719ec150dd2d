//! The messages between other things as one stream of bytes.
use crate::differences::Differences;
use crate::fault::Fault;
use crate::playing::Play;
use crate::scenes::{Example, Step};
use crate::shelves::{do_step, expect_whole_lists, prepared};
use crate::ways::serving::{Ended, Line, expect_end, serve};
use room_records::Shelf;
use std::alloc::Global;

/// How many bytes at the front of a message come one a read, and how many at its back.
const FRONT: usize = 10_000;

const BACK: usize = 20;

/// The messages of a stream that is not served yet, and the examples that they come from.
#[derive(Drop)]
struct Stream<'a> {
    sent: Vec<u8>,
    sizes: Vec<usize>,
    examples: Vec<&'a Example>,
}

fn push_ones(sizes: &mut Vec<usize>, count: usize) -> Result<(), Fault> {
    for _ in 0..count {
        sizes.push(1)?;
    }
    Ok(())
}

/// Lets a message of so many bytes come a byte a read, but for the middle of a long one.
fn push_byte_sizes(sizes: &mut Vec<usize>, size: usize) -> Result<(), Fault> {
    push_ones(sizes, size.min(FRONT))?;
    let rest = size.saturating_sub(FRONT);
    if rest > BACK {
        sizes.push(rest - BACK)?;
    }
    push_ones(sizes, rest.min(BACK))
}

impl<'a> Stream<'a> {
    fn new(alloc: Global) -> Stream<'a> {
        Stream {
            sent: Vec::new(alloc),
            sizes: Vec::new(alloc),
            examples: Vec::new(alloc),
        }
    }

    fn add(&mut self, example: &'a Example, by_bytes: bool) -> Result<(), Fault> {
        self.sent.extend_from_slice(example.sent.as_slice())?;
        if by_bytes {
            push_byte_sizes(&mut self.sizes, example.sent.len())?;
        }
        self.examples.push(example)?;
        Ok(())
    }
}

/// Compares the answers one after another; behind a difference none is at its place.
fn compare(
    examples: &[&Example],
    ended: &Ended,
    differences: &mut Differences<'_>,
) -> Result<(), Fault> {
    let mut rest = ended.written.as_slice();
    for example in examples {
        let due = example.due.whole.as_slice();
        match rest.strip_prefix(due) {
            Some(behind) => rest = behind,
            None => return differences.expect(example.line, rest, due),
        }
    }
    match examples.last() {
        Some(last) => {
            differences.expect(last.line, rest, b"")?;
            expect_end(last, examples.len(), ended.end, differences)
        }
        None => Ok(()),
    }
}

/// Serves the stream that waits.
fn flush<S: Shelf + Drop>(
    play: &Play<'_>,
    shelf: S,
    stream: &Stream<'_>,
    differences: &mut Differences<'_>,
) -> Result<S, Fault> {
    if stream.examples.is_empty() {
        return Ok(shelf);
    }
    let mut line = Line::good(stream.sent.as_slice());
    line.sizes = stream.sizes.as_slice();
    let (ended, shelf) = serve(play, shelf, line);
    compare(stream.examples.as_slice(), &ended, differences)?;
    Ok(shelf)
}

/// Plays over a shelf. With `by_bytes` a read gives one byte.
pub fn play<S: Shelf + Drop>(
    play: &Play<'_>,
    shelf: S,
    by_bytes: bool,
    differences: &mut Differences<'_>,
) -> Result<(), Fault> {
    let mut shelf = prepared(play, shelf)?;
    let mut stream = Stream::new(play.alloc);
    for step in play.steps {
        let goes_on = match step {
            Step::Ask(example) => {
                stream.add(example, by_bytes)?;
                !example.due.closes
            }
            Step::Reopen => true,
            Step::Report { .. } | Step::Next(_) => false,
        };
        if !goes_on {
            shelf = flush(play, shelf, &stream, differences)?;
            stream = Stream::new(play.alloc);
            do_step(play, &mut shelf, step, differences)?;
        }
    }
    shelf = flush(play, shelf, &stream, differences)?;
    expect_whole_lists(play, &mut shelf, play.line, differences)
}
