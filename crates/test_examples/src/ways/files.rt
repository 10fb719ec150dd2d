//! Files that are closed and opened again behind each request.
ghost use Rattle.std.specs.Prelude.{IsTrue, IfOk};
ghost use Rattle.sqlite_disk.specs.Memory.{memory_is_usable};

use crate::differences::Differences;
use crate::fault::Fault;
use crate::playing::Play;
use crate::rooms::made;
use crate::scenes::{Example, Step};
use crate::shelves::{answered, do_step, expect_whole_lists, prepared};
use room_records::Shelf;
use room_sql::SqlShelf;
use sqlite::{Alter, Connection, FileStore, Options};
use sqlite_disk::{Files, Memory};
use std::alloc::Global;

type FileConn = Connection<FileStore<Memory>>;

/// Few pages stay in memory, and the log is soon copied: both are worked harder, and less memory is cleared.
const OPTIONS: Options = Options {
    cache_pages: 8,
    spill_pages: 8,
    checkpoint_frames: 32,
    seed: 1,
};

fn opened(alloc: Global, log: Memory, db: Memory) -> Result<FileConn, Fault>
    requires { IsTrue (memory_is_usable log) × IsTrue (memory_is_usable db) }
{
    match Connection::open_files(alloc, Files { log, db }, OPTIONS) {
        Ok(conn) => Ok(conn),
        Err((_, _)) => Err(Fault::Because("files that were not opened")),
    }
}

fn closed(conn: FileConn) -> Result<Files<Memory>, Fault>
    ensures { IfOk result (λ files. IsTrue (memory_is_usable files.log) × IsTrue (memory_is_usable files.db)) }
{
    match conn.close_files() {
        Ok(files) => Ok(files),
        Err((_error, _)) => Err(Fault::Because("files that were not closed")),
    }
}

fn reopened(alloc: Global, conn: FileConn) -> Result<FileConn, Fault> {
    let Files { log, db } = closed(conn)?;
    opened(alloc, log, db)
}

/// The room that is in files.
fn taken<S: Alter + Drop>(alloc: Global, conn: Connection<S>) -> Result<SqlShelf<S>, Fault> {
    if !conn.is_autocommit() {
        return Err(Fault::Because("files in a transaction"));
    }
    match SqlShelf::adopt(alloc, conn) {
        Ok(shelf) => Ok(shelf),
        Err((_, _)) => Err(Fault::Because("files that are no room")),
    }
}

fn ask<P: Shelf + Drop>(
    play: &Play<'_>,
    shelf: P,
    example: &Example,
    differences: &mut Differences<'_>,
) -> Result<P, Fault> {
    let (answer, shelf) = answered(play, shelf, example.sent.as_slice());
    differences.expect(example.line, answer.body(), example.due.body.as_slice())?;
    Ok(shelf)
}

fn take<P: Shelf + Drop>(
    play: &Play<'_>,
    shelf: P,
    step: &Step,
    differences: &mut Differences<'_>,
) -> Result<P, Fault> {
    let mut shelf = shelf;
    if let Step::Ask(example) = step {
        return ask(play, shelf, example, differences);
    }
    do_step(play, &mut shelf, step, differences)?;
    Ok(shelf)
}

/// Behind all steps the lists are compared.
fn end<P: Shelf + Drop>(
    play: &Play<'_>,
    shelf: P,
    differences: &mut Differences<'_>,
) -> Result<P, Fault> {
    let mut shelf = shelf;
    expect_whole_lists(play, &mut shelf, play.line, differences)?;
    Ok(shelf)
}

/// What is done with the room between two openings: at 0 it becomes as the earlier scenes leave it, then come the
/// steps, and then the end. (Over any shelf: each call over tables makes a proof longer.)
fn stage<P: Shelf + Drop>(
    play: &Play<'_>,
    shelf: P,
    at: usize,
    differences: &mut Differences<'_>,
) -> Result<P, Fault> {
    if at == 0 {
        return prepared(play, shelf);
    }
    match play.steps.get(at - 1) {
        Some(step) => take(play, shelf, step, differences),
        None => end(play, shelf, differences),
    }
}

/// The room in a database: at 0 it is made, then it is there.
fn room<S: Alter + Drop>(
    alloc: Global,
    conn: Connection<S>,
    at: usize,
) -> Result<SqlShelf<S>, Fault> {
    if at == 0 {
        made(alloc, conn)
    } else {
        taken(alloc, conn)
    }
}

/// A stage over tables in a store. (Over any store: each call over a store of files makes a proof half a minute
/// longer.)
fn stage_in<S: Alter + Drop>(
    play: &Play<'_>,
    conn: Connection<S>,
    at: usize,
    differences: &mut Differences<'_>,
) -> Result<Connection<S>, Fault> {
    let shelf = room(play.alloc, conn, at)?;
    Ok(stage(play, shelf, at, differences)?.into_connection())
}

pub fn play(play: &Play<'_>, differences: &mut Differences<'_>) -> Result<(), Fault> {
    let mut conn = opened(play.alloc, Memory::new(play.alloc), Memory::new(play.alloc))?;
    for at in 0..play.steps.len().saturating_add(2) {
        conn = reopened(play.alloc, stage_in(play, conn, at, differences)?)?;
    }
    Ok(())
}
