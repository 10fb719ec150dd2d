//! Reports of the room in a file.
ghost use Rattle.room_program.specs.Files.{Takes};
ghost use Rattle.room_program.specs.Rooms.{Reports, WritesReport};

use crate::fault::{Fault, done_of_report};
use crate::left::connection_under;
use crate::machine::Machine;
use crate::opening::take_room;
use crate::rosters::roster_at;
use room_cache::CachedShelf;
use room_records::{Roster, Shelf};
use room_report::{access_report, list_report};
use room_sql::SqlShelf;
use room_words::ReportKind;
use sqlite::{Alter, Connection};
use std::alloc::Global;
use std::io::Write;

/// Writes who may do what.
fn report_access<R: Shelf, W: Write>(
    alloc: Global,
    shelf: &mut R,
    roster: &Roster,
    writer: &mut W,
) -> Result<(), Fault>
    ensures { WritesReport R.view ReportKind.Access roster.now shelf.old
        shelf.new (W.contents writer.old) (W.contents writer.new) result }
{
    done_of_report(access_report(alloc, shelf, roster, writer))
}

/// Writes every list.
fn report_lists<R: Shelf, W: Write>(
    alloc: Global,
    shelf: &mut R,
    roster: &Roster,
    writer: &mut W,
) -> Result<(), Fault>
    ensures { WritesReport R.view ReportKind.Lists roster.now shelf.old
        shelf.new (W.contents writer.old) (W.contents writer.new) result }
{
    // The roster is in the contract alone.
    let _users = roster;
    done_of_report(list_report(alloc, shelf, writer))
}

/// Writes a report of the room on a shelf.
fn write_report<R: Shelf, W: Write>(
    alloc: Global,
    shelf: &mut R,
    roster: &Roster,
    kind: ReportKind,
    writer: &mut W,
) -> Result<(), Fault>
    ensures { WritesReport R.view kind roster.now shelf.old shelf.new
        (W.contents writer.old) (W.contents writer.new) result }
{
    match kind {
        ReportKind::Access => report_access(alloc, shelf, roster, writer),
        ReportKind::Lists => report_lists(alloc, shelf, roster, writer),
    }
}

/// Writes a report of the room in the file at `db`, with the roster at `roster`.
pub(crate) fn report<S: Alter + Drop, M: Machine<Connection<S>>, W: Write>(
    alloc: Global,
    machine: &mut M,
    db: &str,
    roster: &str,
    kind: ReportKind,
    writer: &mut W,
) -> Result<(), Fault>
    ensures { Reports M.does (λ opened taken. Takes S.Store opened taken) (λ shelf. shelf.0.conn)
        ⟦<CachedShelf<SqlShelf<S>> as Shelf>⟧.view db.now roster.now kind
        machine.old machine.new (W.contents writer.old) (W.contents writer.new) result }
{
    let roster = roster_at(alloc, machine, roster)?;
    let mut shelf = take_room(alloc, machine, db)?;
    let done = write_report(alloc, &mut shelf, &roster, kind, writer);
    machine.give_up(connection_under(shelf), false);
    done
}
