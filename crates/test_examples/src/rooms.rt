//! Fresh rooms of owner `ann` and group `eng`, and the users.
use crate::fault::Fault;
use room_acl::Principal;
use room_records::{MemShelf, Roster};
use room_roster::read_roster;
use room_sql::SqlShelf;
use sqlite::{Alter, Connection, MemStore};
use std::alloc::Global;

const USERS: &str = "[users]\nann = [\"eng\"]\nbob = [\"eng\", \"staff\"]\neng = []\n";

pub fn users(alloc: Global) -> Result<Roster, Fault> {
    match read_roster(alloc, USERS) {
        Ok(roster) => Ok(roster),
        Err(_) => Err(Fault::Because("no roster")),
    }
}

fn named(alloc: Global, name: &str) -> Result<Principal, Fault> {
    match Principal::new(alloc, name)? {
        Some(name) => Ok(name),
        None => Err(Fault::Because("no principal")),
    }
}

pub fn in_memory(alloc: Global) -> Result<MemShelf, Fault> {
    Ok(MemShelf::fresh(alloc, named(alloc, "ann")?, named(alloc, "eng")?)?)
}

pub fn in_tables(alloc: Global) -> Result<SqlShelf<MemStore>, Fault> {
    match Connection::open_in_memory(alloc) {
        Ok(conn) => made(alloc, conn),
        Err(_) => Err(Fault::Because("no database in memory")),
    }
}

/// A fresh room that is made in a database.
pub fn made<S: Alter + Drop>(alloc: Global, conn: Connection<S>) -> Result<SqlShelf<S>, Fault> {
    let ann = named(alloc, "ann")?;
    let eng = named(alloc, "eng")?;
    if !conn.is_autocommit() {
        return Err(Fault::Because("a database in a transaction"));
    }
    match SqlShelf::init(alloc, conn, &ann, &eng) {
        Ok(shelf) => Ok(shelf),
        Err((_, _)) => Err(Fault::Because("a room that was not made")),
    }
}
