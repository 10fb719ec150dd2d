//! Rooms in tables, and all that is in them after each step of a story.
use crate::disks::files::Work;
use crate::disks::story::{Step, play_at_desk};
use crate::stores::{adopt, init, made, make_version_1, shown, taken};
use room_sql::{OpenFault, SqlShelf};
use sqlite::{Alter, Connection};
use std::alloc::Global;
use std::test::Fail;

/// What shows a room of version 2 whole.
const ALL: [&str; 7] = [
    "SELECT type, name, tbl_name, sql FROM sqlite_schema",
    "SELECT one, version, next FROM room",
    "SELECT id, parent, name, kind, owner, grp, aclflag FROM node ORDER BY id",
    "SELECT node, place, type, flag, mask, who FROM entry ORDER BY node, place",
    "SELECT node, bytes FROM doc ORDER BY node",
    "SELECT sid, owner, slots, open FROM session ORDER BY sid",
    "SELECT sid, slot, seq, request, reply FROM kept ORDER BY sid, slot",
];

/// All that is in a room's database, as text.
pub fn contents<S: Alter>(alloc: Global, conn: &mut Connection<S>) -> Result<String, Fail> {
    shown(alloc, conn, &ALL)
}

/// Makes a fresh room.
#[derive(Clone, Copy)]
pub struct MakeRoom;

impl Work for MakeRoom {
    type Found = ();

    fn run<S: Alter + Drop>(self, alloc: Global, conn: Connection<S>) -> Result<((), S), Fail> {
        Ok(((), made(alloc, conn)?.into_connection().into_store()))
    }
}

/// Makes a room of version 1.
#[derive(Clone, Copy)]
pub struct MakeVersion1;

impl Work for MakeVersion1 {
    type Found = ();

    fn run<S: Alter + Drop>(self, _alloc: Global, conn: Connection<S>) -> Result<((), S), Fail> {
        let mut conn = conn;
        make_version_1(&mut conn)?;
        Ok(((), conn.into_store()))
    }
}

/// A room that is made in a database, or is there; or the database where the store failed.
pub fn begun<S: Alter + Drop>(
    alloc: Global,
    conn: Connection<S>,
    is_new: bool,
) -> Result<Result<SqlShelf<S>, Connection<S>>, Fail> {
    let begun = if is_new {
        init(alloc, conn)?
    } else {
        adopt(alloc, conn)?
    };
    match begun {
        Ok(shelf) => Ok(Ok(shelf)),
        Err((OpenFault::Store, conn)) => Ok(Err(conn)),
        Err((fault, _)) => Err(Fail::new(format_args!("another fault: {fault:?}"))),
    }
}

/// The requests over a room from one of them on, up to the first that is answered DELAY: its place.
pub fn play_in<S: Alter + Drop>(
    alloc: Global,
    room: SqlShelf<S>,
    steps: &[Step],
    from: usize,
) -> Result<(usize, Connection<S>), Fail> {
    let (at, room) = play_at_desk(alloc, room, steps, from);
    let conn = room.into_connection();
    Ok((at?, conn))
}

/// A step over a room whose files do not fail is answered.
fn after_step<S: Alter + Drop>(
    alloc: Global,
    conn: Connection<S>,
    step: &Step,
) -> Result<Connection<S>, Fail> {
    let (answered, conn) = play_in(alloc, taken(alloc, conn)?, &[*step], 0)?;
    if answered == 0 {
        return Err(Fail::new("DELAY where nothing fails"));
    }
    Ok(conn)
}

/// What a room is after no step, after one, and so on.
pub fn stages_of<S: Alter + Drop>(
    alloc: Global,
    conn: Connection<S>,
    steps: &[Step],
) -> Result<(Vec<String>, Connection<S>), Fail> {
    let mut stages = Vec::new(alloc);
    let mut conn = conn;
    for step in steps {
        stages.push(contents(alloc, &mut conn)?)?;
        conn = after_step(alloc, conn, step)?;
    }
    stages.push(contents(alloc, &mut conn)?)?;
    Ok((stages, conn))
}

/// Whether the room is as after so many steps.
pub fn is_at(stages: &[String], at: usize, found: &str) -> bool {
    match stages.get(at) {
        Some(stage) => stage.as_str() == found,
        None => false,
    }
}
