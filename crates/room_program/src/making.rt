//! Making a room in a file.
ghost use Rattle.std.specs.Prelude.{◌≡◌, false};
ghost use Rattle.room_program.specs.Ends.{InitEnds};
ghost use Rattle.room_program.specs.Files.{Made, Makes, MakesAt, Unmade};

use crate::fault::Fault;
use crate::machine::Machine;
use crate::names::standing;
use crate::opening::{let_go, open};
use room_acl::Standing;
use room_sql::{OpenFault, SqlShelf};
use sqlite::{Alter, Connection};
use std::alloc::Global;

/// Makes a fresh room of this owner and group, and closes it. A store in which none is made is let go as it is.
fn make_room<S: Alter + Drop, M: Machine<Connection<S>>>(
    alloc: Global,
    machine: &mut M,
    connection: Connection<S>,
    standing: &Standing,
) -> Result<(), Fault>
    requires { connection.in_transaction ≡ false }
    ensures { Makes M.does (Made S.Store standing.now.owner standing.now.group)
        (Unmade S.Store standing.now.owner standing.now.group) connection machine.old machine.new result }
{
    match SqlShelf::init(alloc, connection, &standing.owner, &standing.group) {
        Ok(shelf) => {
            machine.give_up(shelf.into_connection(), true);
            Ok(())
        }
        Err((OpenFault::RoomExists, connection)) => {
            let_go(machine, connection);
            Err(Fault::RoomExists)
        }
        Err((OpenFault::Memory, connection)) => {
            let_go(machine, connection);
            Err(Fault::Memory)
        }
        Err((OpenFault::Store, connection)) => {
            let_go(machine, connection);
            Err(Fault::StoreFailed)
        }
        Err((OpenFault::NotARoom, connection)) => {
            let_go(machine, connection);
            Err(Fault::StoreFailed)
        }
    }
}

/// Makes a fresh room of this owner and group in the store at this path.
fn make_at<S: Alter + Drop, M: Machine<Connection<S>>>(
    alloc: Global,
    machine: &mut M,
    db: &str,
    standing: &Standing,
) -> Result<(), Fault>
    ensures { MakesAt M.does (Made S.Store standing.now.owner standing.now.group)
        (Unmade S.Store standing.now.owner standing.now.group) db.now machine.old machine.new result }
{
    let connection = open(machine, db)?;
    make_room(alloc, machine, connection, standing)
}

/// Makes a fresh room in the file at this path, or tells why not.
pub(crate) fn init<S: Alter + Drop, M: Machine<Connection<S>>>(
    alloc: Global,
    machine: &mut M,
    db: &str,
    owner: &str,
    group: &str,
) -> Result<(), Fault>
    ensures { InitEnds M.does (Made S.Store owner.now group.now)
        (Unmade S.Store owner.now group.now) db.now owner.now group.now machine.old machine.new result }
{
    let standing = standing(alloc, owner, group)?;
    make_at(alloc, machine, db, &standing)
}
