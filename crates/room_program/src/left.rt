//! What is left of the store that a run opened.
ghost use Rattle.std.specs.Prelude.{◌≡◌};
ghost use Rattle.room_program.specs.Found.{Closes};
ghost use Rattle.room_program.specs.Halts.{IsTakenOut};

use crate::halts::FileShelf;
use room_cache::CachedShelf;
use room_sql::SqlShelf;
use sqlite::{Alter, Connection, Error, FileStore, Files, Leftover};
use sqlite_disk::Disk;
use sqlite_trees::store::Store;

/// What became of the files of the store that was opened.
#[derive(Drop)]
pub enum Left<D: Disk> {
    /// It is in use, or no file was opened.
    Nothing,
    /// Its files were opened, and no store was to be had in them.
    Unopened(Leftover<D>),
    /// It was closed, and its log was copied: its files.
    Copied(Files<D>),
    /// It was closed, and its log could not be copied, for this reason: the store as it was taken out of its
    /// connection.
    Uncopied(Error, FileStore<D>),
    /// It was let go: the store as it was taken out of its connection.
    Kept(FileStore<D>),
}

// First over any store, then over files: there the prover takes some ten seconds for each call of a function over any
// store, and next to none for one over files, on any disk.

/// Takes a store out of its connection.
fn taken_out<S: Alter + Drop>(connection: Connection<S>) -> S
    ensures { IsTakenOut S.Store connection result }
{
    // What it shows is a database.
    let _live = connection.schema();
    connection.into_store()
}

/// Takes it from under a shelf.
fn taken_off<S: Alter + Drop>(shelf: SqlShelf<S>) -> S
    ensures { IsTakenOut S.Store shelf.conn result }
{
    taken_out(shelf.into_connection())
}

/// The connection of a shelf that remembers.
pub(crate) fn connection_under<S: Alter + Drop>(shelf: CachedShelf<SqlShelf<S>>) -> Connection<S>
    ensures { result ≡ shelf.0.conn }
{
    shelf.into_inner().into_connection()
}

/// Takes a store over files out of its connection, and copies nothing.
pub(crate) fn store_in<D: Disk + Drop>(connection: Connection<FileStore<D>>) -> FileStore<D>
    ensures { IsTakenOut ⟦<FileStore<D> as Store>⟧ connection result }
{
    taken_out(connection)
}

/// Takes it from under a shelf.
pub(crate) fn store_off<D: Disk + Drop>(shelf: SqlShelf<FileStore<D>>) -> FileStore<D>
    ensures { IsTakenOut ⟦<FileStore<D> as Store>⟧ shelf.conn result }
{
    taken_off(shelf)
}

/// Takes it from under the program's shelf.
pub(crate) fn store_under<D: Disk + Drop>(shelf: FileShelf<D>) -> FileStore<D>
    ensures { IsTakenOut ⟦<FileStore<D> as Store>⟧ shelf.0.conn result }
{
    store_off(shelf.into_inner())
}

/// Closes a store, so that its log is copied into the database file.
pub(crate) fn closed_off<D: Disk + Drop>(connection: Connection<FileStore<D>>) -> Left<D>
    ensures { Closes connection result }
{
    // What it shows is a database.
    let _live = connection.schema();
    match connection.close_files() {
        Ok(files) => Left::Copied(files),
        Err((error, store)) => Left::Uncopied(error, store),
    }
}
