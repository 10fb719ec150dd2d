//! One room from run to run, over two files of any disk. The program calls none of the functions here: a test plays
//! them over files in memory, where each answers, so that there are files that hold a room, and runs over them.
ghost use Rattle.std.specs.Prelude.{◌≡◌, [], false, IfSome};
ghost use Rattle.sqlite.specs.WalReads.{AreClean};
ghost use Rattle.sqlite.specs.State.{HasCleanDisk, IsLive};
ghost use Rattle.sqlite.specs.Files.{file_state, image_of};
ghost use Rattle.room_records.specs.Room.{Room, fresh_room};
ghost use Rattle.sqlite.specs.Held.{state};
ghost use Rattle.room_wire.specs.Asks.EventModel.{event_model};
ghost use Rattle.room_desk.specs.AnswerModel.{answer_model};
ghost use Rattle.room_desk.specs.History.{History, leaves_no_reply};
ghost use Rattle.room_program.specs.Files.{Adopted, Made};
ghost use Rattle.room_program.specs.Found.{HoldsNothing, HoldsRoom, IsOpenedOver};
ghost use Rattle.room_program.specs.Halts.{AnsweredThenLeft, HoldsRoomWith};
ghost use Rattle.room_program.specs.Restarts.{ActsOnce};

use crate::halts::{FileShelf, files_of, left_by};
use room_acl::Standing;
use room_cache::CachedShelf;
use room_desk::{Answer, Desk};
use room_records::Shelf;
use room_sql::SqlShelf;
use room_wire::Event;
use sqlite::{Alter, Connection, FileStore, Files, Options};
use sqlite_disk::{Crash, Disk};
use sqlite_trees::store::Store;
use std::alloc::Global;

/// Opens a store in these files.
fn open<D: Disk + Drop>(alloc: Global, files: Files<D>) -> Option<Connection<FileStore<D>>>
    ensures honest { IfSome result (λ c. HasCleanDisk (file_state c) → AreClean D.Disk files.log files.db) }
    ensures found { IfSome result (λ c. IsOpenedOver (image_of D.Disk files) c) }
    ensures outside { IfSome result (λ c. c.in_transaction ≡ false) }
{
    if !files.may_be_used() {
        return None;
    }
    match Connection::open_files(alloc, files, Options::new(1)) {
        Ok(connection) => Some(connection),
        Err(_) => None,
    }
}

/// Takes the room over a connection. It is said of any store, as `made` and `asked` are: `left.rt` says why.
fn adopted<S: Alter + Drop>(
    alloc: Global,
    connection: Connection<S>,
) -> Option<CachedShelf<SqlShelf<S>>>
    requires { connection.in_transaction ≡ false }
    ensures { IfSome result (Adopted S.Store connection) }
{
    match SqlShelf::adopt(alloc, connection) {
        Ok(shelf) => Some(CachedShelf::new(alloc, shelf)),
        Err(_) => None,
    }
}

/// Makes a room over a connection.
fn made<S: Alter + Drop>(
    alloc: Global,
    connection: Connection<S>,
    standing: &Standing,
) -> Option<Connection<S>>
    requires { connection.in_transaction ≡ false }
    ensures made { IfSome result (Made S.Store standing.now.owner standing.now.group connection) }
    ensures live { IfSome result (λ c. IsLive (state S.Store c)) }
{
    let Ok(shelf) = SqlShelf::init(alloc, connection, &standing.owner, &standing.group) else {
        return None;
    };
    let connection = shelf.into_connection();
    let _live = connection.schema();
    Some(connection)
}

/// Asks a shelf for an event, by a desk of its own.
fn asked<S: Shelf>(alloc: Global, shelf: S, event: &Event) -> (Answer, S)
    ensures { AnsweredThenLeft S.view shelf (event_model event.now) (answer_model result.0) result.1 }
{
    let mut next = Desk::new(alloc, shelf);
    let answer = next.handle(event);
    (answer, left_by(next))
}

/// Takes the room in these files.
fn take<D: Disk + Drop>(alloc: Global, files: Files<D>) -> Option<FileShelf<D>>
    ensures { IfSome result (λ taken. (opened : _) × IsOpenedOver (image_of D.Disk files) opened
        × (HasCleanDisk (file_state opened) → AreClean D.Disk files.log files.db)
        × Adopted ⟦<FileStore<D> as Store>⟧ opened taken) }
{
    let connection = open(alloc, files)?;
    adopted(alloc, connection)
}

/// Asks the program's shelf for an event.
fn asked_in<D: Disk + Drop>(
    alloc: Global,
    taken: FileShelf<D>,
    event: &Event,
) -> (Answer, FileShelf<D>)
    ensures { AnsweredThenLeft ⟦<FileShelf<D> as Shelf>⟧.view taken (event_model event.now)
        (answer_model result.0) result.1 }
{
    asked(alloc, taken, event)
}

/// Files as a stop leaves them.
fn stop<D: Crash + Drop>(shelf: FileShelf<D>) -> Files<D>
    ensures intact { AreClean D.Disk result.log result.db → (⟦<FileShelf<D> as Shelf>⟧.view shelf).is_intact }
    ensures left { AreClean D.Disk result.log result.db → (⟦<FileShelf<D> as Shelf>⟧.view shelf).leaves_laid_out
        → HoldsRoomWith (image_of D.Disk result) (⟦<FileShelf<D> as Shelf>⟧.view shelf).crash_may_leave }
{
    let mut files = files_of(shelf);
    files.log.crash();
    files.db.crash();
    files
}

/// Makes a room in files that held nothing, and closes them: they hold a fresh one.
pub fn a_room_is_made<D: Disk + Drop>(
    alloc: Global,
    files: Files<D>,
    standing: &Standing,
) -> Option<Files<D>>
    ensures { IfSome result (λ left. HoldsNothing (image_of D.Disk files) → AreClean D.Disk left.log left.db
        → HoldsRoom (image_of D.Disk left) (fresh_room standing.now.owner standing.now.group) []) }
{
    let opened = open(alloc, files)?;
    let connection = made(alloc, opened, standing)?;
    match connection.close_files() {
        Ok(left) => Some(left),
        Err((_, store)) => {
            let _left = store.close();
            None
        }
    }
}

/// Takes the room in these files, and is asked for an event. The machine stops, and the answer is lost; the next run
/// takes the room that it finds, and is asked the same again: it acts once, or is answered DELAY.
pub fn a_room_is_asked_again<D: Crash + Drop>(
    alloc: Global,
    files: Files<D>,
    event: &Event,
) -> Option<(Answer, FileShelf<D>)>
    ensures { IfSome result (λ again. (start : Room) (past : History) →
        HoldsRoom (image_of D.Disk files) start past → (⟦<FileShelf<D> as Shelf>⟧.view again.1).is_intact
        → leaves_no_reply past (event_model event.now) ≡ false
        → ∥ ActsOnce start past (event_model event.now) (answer_model again.0)
        (⟦<FileShelf<D> as Shelf>⟧.view again.1) ∥₁) }
{
    let (_lost, stopped) = asked_in(alloc, take(alloc, files)?, event);
    Some(asked_in(alloc, take(alloc, stop(stopped))?, event))
}
