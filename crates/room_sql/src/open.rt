//! Making a room in a database, and taking one that is there.

ghost use Rattle.std.specs.Prelude.{◌≡◌, ◌≢◌, ◌⊎◌, ◌↔◌, [], map, true, false, IfOk, IfErr, IsErrAnd};
ghost use Rattle.std.specs.Prelude.{IsTrue, IsPermutation, List, ◌∷◌, codes, is_some};
ghost use Rattle.sqlite.specs.Table.{Table};
ghost use Rattle.sqlite.specs.State.{HasCleanDisk, Survives, Shown};
ghost use Rattle.sqlite.specs.Held.{state};
ghost use Rattle.std.specs.List.{list_all};
ghost use Rattle.sqlite_schema.specs.Names.{table_named};
ghost use Rattle.room_tables.specs.Tables.{schema_0, schema_5, with_last, has_a_table, has_column, has_tables};
ghost use Rattle.room_tables.specs.Tables.{has_room, has_first_room};
ghost use Rattle.room_tables.specs.Rows.{version_rows, IsVersion};
ghost use Rattle.room_tables.specs.Versions.{find_version_text, TellsVersion};
ghost use Rattle.room_sql.specs.Taken.{IsTaken, MayBeTaken, IsAsBefore, HasItsVersion, HasAnotherVersion};
ghost use Rattle.room_tables.specs.Fresh.{IsFresh, IsFreshRoom, StandsBeside, MayBeMade};
ghost use Rattle.room_sql.specs.Frames.{QueryFrame};
ghost use Rattle.room_sql.specs.Facts.{KnowsNothing};

use crate::sql_shelf::SqlShelf;
use crate::tables::make;
use crate::upgrade::upgrade;
use room_acl::Principal;
use sqlite::{Alter, Connection, Error, ErrorCode, Row};
use sqlite_value::value::ValueRef;
use std::alloc::Global;

/// Why a room was not made or not taken.
#[derive(Clone, Copy, Debug, PartialEq, Eq)]
pub enum OpenFault {
    /// Memory was refused.
    Memory,
    /// A call of `sqlite` answered a fault.
    Store,
    /// One of the seven tables is there. Nothing was changed.
    RoomExists,
    /// It is a room of neither version: a table, or a column of theirs, is not there, or the version is another.
    NotARoom,
}

fn open_fault(error: Error) -> OpenFault
    ensures { ((result ≡ OpenFault.Memory) × (error ≡ Error.SqliteFailure ErrorCode.OutOfMemory))
        ⊎ ((result ≡ OpenFault.Store) × (error ≢ Error.SqliteFailure ErrorCode.OutOfMemory)) }
{
    match error {
        Error::SqliteFailure(ErrorCode::OutOfMemory) => OpenFault::Memory,
        _ => OpenFault::Store,
    }
}

fn has_table<S: Alter>(conn: &Connection<S>, name: &str) -> bool
    ensures { result ≡ is_some (table_named conn.now.schema name.now) }
{
    conn.schema().table_named(name.as_bytes()).is_some()
}

/// Whether one of the seven tables is there.
fn has_a_table<S: Alter>(conn: &Connection<S>) -> bool
    ensures { result ≡ has_a_table conn.now.schema }
{
    has_table(conn, "room")
        || has_table(conn, "node")
        || has_table(conn, "entry")
        || has_table(conn, "doc")
        || has_table(conn, "session")
        || has_table(conn, "slot")
        || has_table(conn, "kept")
}

fn has_column<S: Alter>(conn: &Connection<S>, table: &str, column: &str) -> bool
    ensures { result ≡ has_column conn.now.schema table.now column.now }
{
    let schema = conn.schema();
    let Some(at) = schema.table_named(table.as_bytes()) else {
        return false;
    };
    match schema.tables.get(at) {
        Some(found) => found.column_named(column.as_bytes()).is_some(),
        None => false,
    }
}

fn has_columns<S: Alter>(conn: &Connection<S>, table: &str, columns: &[&str]) -> bool
    ensures { result ≡ list_all (has_column conn.now.schema table.now) (map (λ c. c.now) columns.now) }
{
    for column in columns {
        if !has_column(conn, table, column) {
            return false;
        }
    }
    true
}

/// Whether the five tables that every room has are there, with each of their columns.
fn has_five<S: Alter>(conn: &Connection<S>) -> bool
    ensures { result ≡ has_tables conn.now.schema schema_5.tables }
{
    has_columns(conn, "room", &["one", "version", "next"])
        && has_columns(
            conn,
            "node",
            &["id", "parent", "name", "kind", "owner", "grp", "aclflag"],
        )
        && has_columns(
            conn,
            "entry",
            &["node", "place", "type", "flag", "mask", "who"],
        )
        && has_columns(conn, "doc", &["node", "bytes"])
        && has_columns(conn, "session", &["sid", "owner", "slots", "open"])
}

/// Whether a table of this name is there that can hold what slots keep.
fn has_slots<S: Alter>(conn: &Connection<S>, table: &str) -> bool
    ensures { result ≡ list_all (has_column conn.now.schema table.now)
        (codes "sid" ∷ codes "slot" ∷ codes "seq" ∷ codes "request" ∷ codes "reply" ∷ []) }
{
    has_columns(conn, table, &["sid", "slot", "seq", "request", "reply"])
}

/// Whether the tables of version 2 are there.
fn has_room<S: Alter>(conn: &Connection<S>) -> bool
    ensures { result ≡ has_room conn.now.schema }
{
    has_five(conn) && has_slots(conn, "kept")
}

/// Whether the tables of version 1 are there.
fn has_first_room<S: Alter>(conn: &Connection<S>) -> bool
    ensures { result ≡ has_first_room conn.now.schema }
{
    has_five(conn) && has_slots(conn, "slot")
}

fn version_rows<S: Alter>(conn: &mut Connection<S>) -> Result<Vec<Row>, Error>
    ensures frame { QueryFrame (state S.Store conn.old) (state S.Store conn.new) result }
    ensures shown { HasCleanDisk (state S.Store conn.new) → IfOk result
        (λ rows. Shown find_version_text [] (state S.Store conn.old) (state S.Store conn.new) rows.items) }
    ensures asked { HasCleanDisk (state S.Store conn.new) → (more : List Table) → conn.old.schema ≡ with_last more
        → IfOk result (λ rows. IsPermutation (version_rows (state S.Store conn.old).now.trees) rows.items) }
{
    conn.query_all("SELECT version FROM room WHERE one = 1", &[])
}

/// Whether there is one row, and its version is 2.
fn is_version_2(rows: &[Row]) -> bool
    ensures { IsTrue result ↔ IsVersion 2 rows.now }
{
    match rows {
        [row] => matches!(row.get_ref(0), Ok(ValueRef::Int(2))),
        _ => false,
    }
}

/// Whether there is one row, and its version is 1.
fn is_version_1(rows: &[Row]) -> bool
    ensures { IsTrue result ↔ IsVersion 1 rows.now }
{
    match rows {
        [row] => matches!(row.get_ref(0), Ok(ValueRef::Int(1))),
        _ => false,
    }
}

impl<S: Alter> SqlShelf<S> {
    /// Makes the tables and a fresh room of this owner and group, in one transaction. A refusal hands the connection
    /// back: `RoomExists` where a table has the name of one of the seven (`ROOM` is the name `room`), else `Memory`
    /// where memory was refused, and `Store` where a call of `sqlite` answered another fault; that these two come
    /// nowhere else no clause says. The form of the tables is our own.
    ///
    /// In a database without any table, index or view there is the fresh room then, and nothing else
    /// (`fresh`). In others each table that `sqlite` reads, none of which has one of the seven names,
    /// stands first, as it was, with its rows, and behind them the six, whose rows stand for a fresh
    /// room (`beside`); but which tables these are is not said where one has AUTOINCREMENT and
    /// `sqlite_sequence` is missing, which SQLite never leaves. A crash leaves the room so, or what
    /// was there before; a refusal leaves that. Of what a shelf does in a database with other tables
    /// nothing is promised (`adopt`).
    pub fn init(
        alloc: Global,
        connection: Connection<S>,
        owner: &Principal,
        group: &Principal,
    ) -> Result<SqlShelf<S>, (OpenFault, Connection<S>)>
        requires { connection.in_transaction ≡ false }
        ensures fresh { IfOk result (λ shelf. HasCleanDisk (state S.Store shelf.conn)
            → IsTrue (state S.Store shelf.conn).is_open × (connection.schema ≡ schema_0 →
            IsFreshRoom owner.now group.now (state S.Store shelf.conn).now)) }
        ensures beside { IfOk result (λ shelf. HasCleanDisk (state S.Store shelf.conn)
            → StandsBeside (IsFresh owner.now group.now)
            (state S.Store connection).now (state S.Store shelf.conn).now) }
        ensures absent { IfOk result (λ shelf. has_a_table connection.schema ≡ false) }
        ensures started { IfOk result (λ shelf. shelf.failures ≡ 0) }
        ensures known { IfOk result (λ shelf. KnowsNothing shelf.known) }
        ensures exists { IfErr result (λ e. e.0 ≡ OpenFault.RoomExists → IsTrue (has_a_table connection.schema)) }
        ensures taken { IsTrue (has_a_table connection.schema)
            → IsErrAnd result (λ e. (e.0 ≡ OpenFault.RoomExists) × (e.1 ≡ connection)) }
        ensures failed { has_a_table connection.schema ≡ false
            → IfErr result (λ e. (e.0 ≡ OpenFault.Memory) ⊎ (e.0 ≡ OpenFault.Store)) }
        ensures unchanged { IfErr result (λ e. HasCleanDisk (state S.Store e.1)
            → IsTrue (state S.Store e.1).is_open → (state S.Store e.1).now ≡ (state S.Store connection).now) }
        ensures outside { IfErr result (λ e. e.1.in_transaction ≡ false) }
        ensures made { IfOk result (λ shelf. Survives (state S.Store connection)
            (state S.Store shelf.conn) (MayBeMade owner.now group.now (state S.Store connection).now)) }
        ensures refused { IfErr result (λ e. Survives (state S.Store connection)
            (state S.Store e.1) (MayBeMade owner.now group.now (state S.Store connection).now)) }
    {
        let mut conn = connection;
        // Outside a transaction what is seen is what was committed.
        let _outside = conn.is_autocommit();
        if has_a_table(&conn) {
            return Err((OpenFault::RoomExists, conn));
        }
        match make(&mut conn, alloc, owner, group) {
            Ok(()) => Ok(SqlShelf::over(alloc, conn)),
            Err(error) => Err((open_fault(error), conn)),
        }
    }

    /// Takes a room that is there: one of version 2 as it is, and one of version 1 after it made one of version 2 of
    /// it, in one transaction: `kept` takes the rows of `slot`, which stays, empty. It looks for the tables and their
    /// columns by their names, and for the version, and for nothing else: a room that has `kept` is of version 2. So a
    /// second `adopt` changes nothing (`again`). A refusal hands the connection back: `NotARoom` where it is a room of
    /// neither version, `Memory` where memory was refused, `Store` where a call of `sqlite` answered another fault.
    ///
    /// What a shelf promises of its records is promised here of two schemas alone: the tables as `init` makes them in
    /// an empty database, STRICT, with their keys, CHECKs and references, in that order, and nothing else in the
    /// database; and those of version 1, with `slot` in the place of `kept` (an upgraded room has both, in this order).
    /// One with other keys or further tables is taken as well, and nothing is promised of its records.
    pub fn adopt(
        alloc: Global,
        connection: Connection<S>,
    ) -> Result<SqlShelf<S>, (OpenFault, Connection<S>)>
        requires { connection.in_transaction ≡ false }
        ensures taken { IfOk result (λ shelf. HasCleanDisk (state S.Store shelf.conn)
            → IsTrue (state S.Store shelf.conn).is_open
            × IsTaken (state S.Store connection) (state S.Store shelf.conn)) }
        ensures tables { IfOk result
            (λ shelf. IsTrue (has_room connection.schema) ⊎ IsTrue (has_first_room connection.schema)) }
        ensures missing { has_room connection.schema ≡ false → has_first_room connection.schema ≡ false
            → IsErrAnd result (λ e. (e.0 ≡ OpenFault.NotARoom) × (e.1 ≡ connection)) }
        ensures no_second { IfErr result (λ e. e.0 ≡ OpenFault.NotARoom
            → IsTrue (has_room connection.schema) → HasCleanDisk (state S.Store e.1) →
            TellsVersion (state S.Store connection) (state S.Store e.1) (λ rows. ¬ IsVersion 2 rows)) }
        ensures no_first { IfErr result (λ e. e.0 ≡ OpenFault.NotARoom → has_room connection.schema ≡ false
            → IsTrue (has_first_room connection.schema) → HasCleanDisk (state S.Store e.1) →
            TellsVersion (state S.Store connection) (state S.Store e.1) (λ rows. ¬ IsVersion 1 rows)) }
        ensures version { IfOk result
            (λ shelf. HasCleanDisk (state S.Store shelf.conn) → HasItsVersion (state S.Store connection)) }
        ensures no_version { IfErr result (λ e. e.0 ≡ OpenFault.NotARoom → HasCleanDisk (state S.Store e.1)
            → HasAnotherVersion (state S.Store connection)) }
        ensures failed { IfErr result
            (λ e. (e.0 ≡ OpenFault.NotARoom) ⊎ (e.0 ≡ OpenFault.Memory) ⊎ (e.0 ≡ OpenFault.Store)) }
        ensures again { IsTrue (has_room connection.schema)
            → IfOk result (λ shelf. IsAsBefore (state S.Store connection) (state S.Store shelf.conn)) }
        ensures left { IfErr result (λ e. IsTrue (has_room connection.schema) ⊎ (e.0 ≡ OpenFault.NotARoom)
            → IsAsBefore (state S.Store connection) (state S.Store e.1)) }
        ensures unchanged { IfErr result (λ e. HasCleanDisk (state S.Store e.1)
            → IsTrue (state S.Store e.1).is_open → (state S.Store e.1).now ≡ (state S.Store connection).now) }
        ensures started { IfOk result (λ shelf. shelf.failures ≡ 0) }
        ensures known { IfOk result (λ shelf. KnowsNothing shelf.known) }
        ensures outside { IfErr result (λ e. e.1.in_transaction ≡ false) }
        ensures kept { IfOk result (λ shelf. Survives (state S.Store connection) (state S.Store shelf.conn)
            (MayBeTaken (state S.Store connection))) }
        ensures refused { IfErr result (λ e. Survives (state S.Store connection) (state S.Store e.1)
            (MayBeTaken (state S.Store connection))) }
    {
        let mut conn = connection;
        // Outside a transaction what is seen is what was committed.
        let _outside = conn.is_autocommit();
        let has_kept = has_room(&conn);
        if !has_kept && !has_first_room(&conn) {
            return Err((OpenFault::NotARoom, conn));
        }
        let rows = match version_rows(&mut conn) {
            Ok(rows) => rows,
            Err(error) => return Err((open_fault(error), conn)),
        };
        if has_kept {
            if is_version_2(rows.as_slice()) {
                return Ok(SqlShelf::over(alloc, conn));
            }
            return Err((OpenFault::NotARoom, conn));
        }
        if !is_version_1(rows.as_slice()) {
            return Err((OpenFault::NotARoom, conn));
        }
        let _still_outside = conn.is_autocommit();
        match upgrade(&mut conn) {
            Ok(()) => Ok(SqlShelf::over(alloc, conn)),
            Err(error) => Err((open_fault(error), conn)),
        }
    }
}
