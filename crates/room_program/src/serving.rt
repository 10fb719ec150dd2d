//! Serving the room in a file.
ghost use Rattle.std.specs.Prelude.{option_map, string_bytes};
ghost use Rattle.room_program.specs.Files.{Takes};
ghost use Rattle.room_program.specs.Rolls.{roll};
ghost use Rattle.room_program.specs.Rooms.{Listens, ServesAll, ServesRoom};

use crate::fault::Fault;
use crate::left::connection_under;
use crate::listening::Listener;
use crate::machine::Machine;
use crate::network::accept_each;
use crate::opening::take_room;
use crate::rosters::{RosterRead, roll_at};
use room_cache::CachedShelf;
use room_desk::Desk;
use room_records::Shelf;
use room_sql::SqlShelf;
use sqlite::{Alter, Connection};
use std::alloc::{AllocError, Global};

/// The bytes of a block that is larger than what any request takes at once.
const KEPT_BYTES: usize = 4 << 20;

/// Takes a block and frees it, so that the C library keeps what requests free: of glibc, a heap's end goes back to the
/// system only where it is twice the largest block that was freed (mallopt(3)), and a block below that size is no
/// mapping of its own. Else each request for a large document waits for pages that the one before gave back.
fn keep_freed_memory(alloc: Global) {
    let block: Result<Vec<u8>, AllocError> = Vec::with_capacity(alloc, KEPT_BYTES);
    drop(block);
}

/// Serves `count` connections over a desk.
fn accept_all<C, R: Shelf, M: Machine<C> + Listener>(
    alloc: Global,
    machine: &mut M,
    desk: &mut Desk<R>,
    roster: &str,
    first: RosterRead,
    count: u32,
) -> Result<(), Fault>
    ensures { ServesAll M.does M.accepts M.fails R.view roster.now
        (roll first.roster (option_map string_bytes first.text)) count machine.old machine.new desk.old desk.new
        result }
{
    match accept_each(alloc, machine, desk, roster, first, count) {
        Ok(()) => Ok(()),
        Err(_) => Err(Fault::NetworkFailed),
    }
}

/// Listens on this port of 127.0.0.1, and serves `count` connections over a desk.
fn listen<C, R: Shelf, M: Machine<C> + Listener>(
    alloc: Global,
    machine: &mut M,
    desk: &mut Desk<R>,
    roster: &str,
    first: RosterRead,
    port: u16,
    count: u32,
) -> Result<(), Fault>
    ensures { Listens M.does M.accepts M.fails R.view roster.now
        (roll first.roster (option_map string_bytes first.text))
        port count machine.old machine.new desk.old desk.new result }
{
    match machine.listen(port) {
        Ok(()) => accept_all(alloc, machine, desk, roster, first, count),
        Err(_) => Err(Fault::NetworkFailed),
    }
}

/// Makes a desk over this shelf, listens and serves as `listen` does, and hands the shelf back.
fn listen_over<C, R: Shelf, M: Machine<C> + Listener>(
    alloc: Global,
    machine: &mut M,
    shelf: R,
    roster: &str,
    first: RosterRead,
    port: u16,
    count: u32,
) -> (Result<(), Fault>, R)
    ensures { Listens M.does M.accepts M.fails R.view roster.now
        (roll first.roster (option_map string_bytes first.text))
        port count machine.old machine.new shelf result.1 result.0 }
{
    keep_freed_memory(alloc);
    let mut desk = Desk::new(alloc, shelf);
    let done = listen(alloc, machine, &mut desk, roster, first, port, count);
    (done, desk.into_shelf())
}

/// Serves the room in the file at `db` on this port of 127.0.0.1, over `count` connections, to the users of the file at
/// `roster`, which is read again as each connection comes.
pub(crate) fn serve<S: Alter + Drop, M: Machine<Connection<S>> + Listener>(
    alloc: Global,
    machine: &mut M,
    db: &str,
    roster: &str,
    port: u16,
    count: u32,
) -> Result<(), Fault>
    ensures { ServesRoom M.does M.accepts M.fails
        (λ opened taken. Takes S.Store opened taken) (λ shelf. shelf.0.conn)
        ⟦<CachedShelf<SqlShelf<S>> as Shelf>⟧.view db.now roster.now port count machine.old machine.new result }
{
    let first = roll_at(alloc, machine, roster)?;
    let shelf = take_room(alloc, machine, db)?;
    let (done, served) = listen_over(alloc, machine, shelf, roster, first, port, count);
    machine.give_up(connection_under(served), true);
    done
}
