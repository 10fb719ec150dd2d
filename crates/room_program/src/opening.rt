//! The room in a file.
ghost use Rattle.std.specs.Prelude.{◌≡◌, false, IfErr, IfOk, IsTrue};
ghost use Rattle.sqlite.specs.Held.{state};
ghost use Rattle.room_program.specs.Files.{Adopts, OpensRoom, OpensStore, Takes, TakesRoom};
ghost use Rattle.room_program.specs.Machines.Call.{leaves};

use crate::fault::Fault;
use crate::machine::Machine;
use room_cache::CachedShelf;
use room_sql::{OpenFault, SqlShelf};
use sqlite::{Alter, Connection, Error, ErrorCode};
use std::alloc::Global;
use std::io::ErrorKind;

/// A store that was just opened is outside a transaction; one that is not is let go.
fn outside<S: Alter + Drop, M: Machine<Connection<S>>>(
    machine: &mut M,
    connection: Connection<S>,
) -> Result<Connection<S>, Fault>
    ensures kept { IfOk result (λ c. (c ≡ connection) × (machine.new ≡ machine.old) × (c.in_transaction ≡ false)) }
    ensures left { IfErr result
        (λ why. (why ≡ Fault.StoreFailed) × M.does machine.old (leaves connection) machine.new) }
{
    if connection.is_autocommit() {
        return Ok(connection);
    }
    machine.give_up(connection, false);
    Err(Fault::StoreFailed)
}

/// Opens the store at this path, or makes it.
pub(crate) fn open<S: Alter + Drop, M: Machine<Connection<S>>>(
    machine: &mut M,
    path: &str,
) -> Result<Connection<S>, Fault>
    ensures opened { OpensStore M.does path.now machine.old machine.new result }
    ensures outside { IfOk result (λ c. c.in_transaction ≡ false) }
{
    match machine.open(path) {
        Ok(connection) => outside(machine, connection),
        Err(Error::SqliteFailure(ErrorCode::OutOfMemory)) => Err(Fault::Memory),
        Err(_) => Err(Fault::StoreFailed),
    }
}

/// Lets a store go, outside a transaction: what it shows was committed.
pub(crate) fn let_go<S: Alter + Drop, M: Machine<Connection<S>>>(
    machine: &mut M,
    connection: Connection<S>,
)
    requires { connection.in_transaction ≡ false }
    ensures left { M.does machine.old (leaves connection) machine.new }
    ensures rests { IsTrue (state S.Store connection).is_open
        → (state S.Store connection).now.trees ≡ (state S.Store connection).committed.trees }
{
    let _outside = connection.is_autocommit();
    machine.give_up(connection, false);
}

/// The shelf over a store that was opened, which remembers rows. A store of which no room is taken is let go.
fn adopt<S: Alter + Drop, M: Machine<Connection<S>>>(
    alloc: Global,
    machine: &mut M,
    connection: Connection<S>,
) -> Result<CachedShelf<SqlShelf<S>>, Fault>
    requires { connection.in_transaction ≡ false }
    ensures { Adopts M.does (λ opened taken. Takes S.Store opened taken)
        connection machine.old machine.new result }
{
    match SqlShelf::adopt(alloc, connection) {
        Ok(shelf) => Ok(CachedShelf::new(alloc, shelf)),
        Err((OpenFault::NotARoom, connection)) => {
            let_go(machine, connection);
            Err(Fault::NotARoom)
        }
        Err((OpenFault::Memory, connection)) => {
            let_go(machine, connection);
            Err(Fault::Memory)
        }
        Err((_, connection)) => {
            let_go(machine, connection);
            Err(Fault::StoreFailed)
        }
    }
}

/// Opens the store at this path, and takes the room in it.
fn open_room<S: Alter + Drop, M: Machine<Connection<S>>>(
    alloc: Global,
    machine: &mut M,
    path: &str,
) -> Result<CachedShelf<SqlShelf<S>>, Fault>
    ensures { OpensRoom M.does (λ opened taken. Takes S.Store opened taken)
        path.now machine.old machine.new result }
{
    let connection = open(machine, path)?;
    adopt(alloc, machine, connection)
}

/// Takes the room in the file at this path. A file that is not there is no room and is not made, and
/// an empty one is no room and stays empty.
pub(crate) fn take_room<S: Alter + Drop, M: Machine<Connection<S>>>(
    alloc: Global,
    machine: &mut M,
    path: &str,
) -> Result<CachedShelf<SqlShelf<S>>, Fault>
    ensures { TakesRoom M.does (λ opened taken. Takes S.Store opened taken)
        path.now machine.old machine.new result }
{
    match machine.is_begun(path) {
        Ok(true) => open_room(alloc, machine, path),
        Ok(false) => Err(Fault::NotARoom),
        Err(error) if error.kind() == ErrorKind::OutOfMemory => Err(Fault::Memory),
        Err(_) => Err(Fault::StoreFailed),
    }
}
