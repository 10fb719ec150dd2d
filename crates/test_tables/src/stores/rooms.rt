//! Rooms in tables, of owner `ann` and group `eng`.
use room_sql::{OpenFault, SqlShelf};
use sqlite::{Alter, Connection, MemStore};
use std::alloc::Global;
use std::test::Fail;
use test_support::named;

/// A fresh room in tables in memory.
pub fn in_tables(alloc: Global) -> Result<SqlShelf<MemStore>, Fail> {
    made(alloc, Connection::open_in_memory(alloc)?)
}

/// What `init` makes of a database: a room, or why it makes none, and the database.
pub fn init<S: Alter + Drop>(
    alloc: Global,
    conn: Connection<S>,
) -> Result<Result<SqlShelf<S>, (OpenFault, Connection<S>)>, Fail> {
    let ann = named(alloc, "ann")?;
    let eng = named(alloc, "eng")?;
    if !conn.is_autocommit() {
        return Err(Fail::new("in a transaction"));
    }
    Ok(SqlShelf::init(alloc, conn, &ann, &eng))
}

/// What `adopt` finds in a database: a room, or why it finds none, and the database.
pub fn adopt<S: Alter + Drop>(
    alloc: Global,
    conn: Connection<S>,
) -> Result<Result<SqlShelf<S>, (OpenFault, Connection<S>)>, Fail> {
    if !conn.is_autocommit() {
        return Err(Fail::new("in a transaction"));
    }
    Ok(SqlShelf::adopt(alloc, conn))
}

/// A fresh room that is made in a database.
pub fn made<S: Alter + Drop>(alloc: Global, conn: Connection<S>) -> Result<SqlShelf<S>, Fail> {
    match init(alloc, conn)? {
        Ok(shelf) => Ok(shelf),
        Err((fault, _)) => Err(Fail::new(format_args!("not made: {fault:?}"))),
    }
}

/// The room that is in a database.
pub fn taken<S: Alter + Drop>(alloc: Global, conn: Connection<S>) -> Result<SqlShelf<S>, Fail> {
    match adopt(alloc, conn)? {
        Ok(shelf) => Ok(shelf),
        Err((fault, _)) => Err(Fail::new(format_args!("not taken: {fault:?}"))),
    }
}
