//! Laws of a stop in the middle of an event, an open, a take, a report, an `init` or a close. The program calls none of
//! the functions here.
ghost use Rattle.std.specs.Prelude.{◌≡◌, ◌⊎◌, ℕ, List, [], false, Option, Result, IfOk, IfErr, IsTrue};
ghost use Rattle.sqlite.specs.WalFiles.{image_at, outcomes};
ghost use Rattle.sqlite.specs.WalReads.{AreClean};
ghost use Rattle.sqlite.specs.Recovery.{Image};
ghost use Rattle.sqlite.specs.Effect.{Database};
ghost use Rattle.sqlite.specs.Files.{image_of};
ghost use Rattle.room_acl.specs.SubjectModel.{SubjectModel};
ghost use Rattle.room_records.specs.Room.{Room, fresh_room};
ghost use Rattle.room_wire.specs.Asks.EventModel.{EventModel};
ghost use Rattle.room_desk.specs.AnswerModel.{AnswerModel};
ghost use Rattle.room_desk.specs.History.{History, leaves_no_reply};
ghost use Rattle.room_desk.specs.Representation.{StandsFor};
ghost use Rattle.room_desk.specs.Serving.{EventAnswered};
ghost use Rattle.room_words.specs.declared.job.ReportKind.{ReportKind};
ghost use Rattle.room_program.specs.declared.fault.Fault.{Fault};
ghost use Rattle.room_program.specs.Files.{Adopted, Made, Takes, Unmade};
ghost use Rattle.room_program.specs.Found.{AreJustOpened, Holds, HoldsNothing, HoldsRoom, IsLeftBy, IsOpenedOver};
ghost use Rattle.room_program.specs.Found.{HoldsStill, SeesSums};
ghost use Rattle.room_program.specs.Rooms.{WritesReport};
ghost use Rattle.room_program.specs.Halts.{WereClean, MayBeLeftThen, AnsweredThenLeft, HoldsOldOrNew, HoldsRoomWith};
ghost use Rattle.room_program.specs.Halts.{connection_of, HoldsFreshOrNone, HoldsOldOrBeside};
ghost use Rattle.room_program.specs.Restarts.{ActsOnce, AnswersOrMore, KeepsRoomOrMore, Rosters};

use crate::left::{Left, closed_off, store_in, store_under};
use room_cache::CachedShelf;
use room_desk::Desk;
use room_records::Shelf;
use room_sql::SqlShelf;
use sqlite::{Connection, FileFrom, FileStore, Files, Options, Start};
use sqlite_disk::{Disk, Fuse};
use sqlite_trees::store::Store;
use std::alloc::Global;

/// The shelf of the program over two files.
pub(crate) type FileShelf<D> = CachedShelf<SqlShelf<FileStore<D>>>;

/// The shelf of a desk after an event was answered. Where the store was there, and its rows stood for a history, a
/// crash then leaves rows that stand for that history, or for it with the event, and no others, and that are laid out:
/// also where a fault shut the store on the way.
pub(crate) fn left_by<S: Shelf>(after: Desk<S>) -> S
    ensures { (before : S) (event : EventModel) (answered : AnswerModel) →
        EventAnswered S.view before event answered after → AnsweredThenLeft S.view before event answered result }
{
    after.into_shelf()
}

/// The files of a shelf, to which nothing more is written. Where they have returned what was written, and what a crash
/// may leave of the shelf is laid out, each content that a crash may leave of them holds a room, with records that a
/// crash may leave of the shelf.
pub(crate) fn files_of<D: Disk + Drop>(shelf: FileShelf<D>) -> Files<D>
    ensures intact { AreClean D.Disk result.log result.db → (⟦<FileShelf<D> as Shelf>⟧.view shelf).is_intact }
    ensures left { AreClean D.Disk result.log result.db → (⟦<FileShelf<D> as Shelf>⟧.view shelf).leaves_laid_out
        → (image : Image) → outcomes D.Disk result.log result.db image
        → HoldsRoomWith image (⟦<FileShelf<D> as Shelf>⟧.view shelf).crash_may_leave }
{
    store_under(shelf).close()
}

/// What a stop in the middle of an event leaves: the files of the desk `after` it.
///
/// Each of the two files passes on as many calls to its disk as its fuse has left as the event comes, whatever these
/// two numbers are, and then acts no more: each call fails and changes nothing (`frozen` of `Disk`). Where the store
/// was there and its rows stood for a history, and the event was answered as `Desk::handle` answers each, every content
/// that a crash may leave of the two disks then holds a room with that history, or with it and the event, while the
/// disks returned what was written. Nobody sees the answer.
///
/// One step is for the reader to believe: a machine that stops in the middle of an event has made the calls that are
/// passed on here, with the same answers, and so leaves of its disks what a crash may leave of these. A stop inside a
/// write or a change of length is one behind it, since a crash may leave any part of it, and one inside a sync is one
/// before it.
pub fn an_event_cut_off_leaves_old_or_new<D: Disk + Drop>(
    after: Desk<FileShelf<Fuse<D>>>,
) -> Files<Fuse<D>>
    ensures { (before : _) (event : EventModel) (answered : AnswerModel) (start : Room) (past : History) →
        StandsFor start past (⟦<FileShelf<Fuse<D>> as Shelf>⟧.view before)
        → (⟦<FileShelf<Fuse<D>> as Shelf>⟧.view before).is_available
        → EventAnswered ⟦<FileShelf<Fuse<D>> as Shelf>⟧.view before event answered after → WereClean D.Disk result
        → (image : Image) → MayBeLeftThen D.Disk result image → HoldsOldOrNew image start past event }
{
    files_of(left_by(after))
}

/// What a take of a room leaves that is cut off, also while a room of version 1 becomes one of version 2: the files of
/// its connection `shut`, of which a shelf was made or which was let go. As of an event, each of them acts no more once
/// its fuse has burnt down, wherever that is; and the room that they held as they were opened is in them with the same
/// history, of the one version or the other.
pub fn a_take_cut_off_leaves_the_room<D: Disk + Drop>(
    shut: Connection<FileStore<Fuse<D>>>,
) -> Files<Fuse<D>>
    ensures { (opened : _) (taken : _) (found : Image) → IsOpenedOver found opened
        → Takes ⟦<FileStore<Fuse<D>> as Store>⟧ opened taken → connection_of taken ≡ shut → WereClean D.Disk result
        → (image : Image) → MayBeLeftThen D.Disk result image → HoldsStill found image }
{
    store_in(shut).close()
}

/// What an open leaves that is cut off: of files that were just opened, as no store is to be had in them. As of an
/// event, each of them acts no more once its fuse has burnt down. A database that they held is in them then. (An open
/// that ends is cut off in what follows it.)
pub fn an_open_cut_off_leaves_the_database<D: Disk + Drop>(
    alloc: Global,
    files: Files<Fuse<D>>,
) -> Result<Connection<FileStore<Fuse<D>>>, Left<Fuse<D>>>
    requires log { IsTrue (⟦<Fuse<D> as Disk>⟧.is_usable files.log) }
    requires db { IsTrue (⟦<Fuse<D> as Disk>⟧.is_usable files.db) }
    ensures opened { IfOk result (λ c. IsOpenedOver (image_of ⟦<Fuse<D> as Disk>⟧ files) c) }
    ensures cut { IfErr result (λ left. (found : Image) → AreJustOpened ⟦<Fuse<D> as Disk>⟧ found files
        → SeesSums found left → (held : Database) → Holds found held → (image : Image) → IsLeftBy found left image
        → Holds image held) }
{
    match Connection::open_files(alloc, files, Options::new(1)) {
        Ok(connection) => Ok(connection),
        Err((_, rest)) => Err(Left::Unopened(rest)),
    }
}

/// What a report leaves that is cut off: the files of the shelf `last`, as they act no more from some call on. The room
/// that they held as they were opened is in them with its history.
pub fn a_report_cut_off_leaves_the_room<D: Disk + Drop>(last: FileShelf<Fuse<D>>) -> Files<Fuse<D>>
    ensures { (opened : _) (taken : _) (found : Image) (kind : ReportKind) (users : List SubjectModel)
        (old new : Option (List ℕ)) (done : Result (Unit {0}) Fault) → IsOpenedOver found opened
        → Adopted ⟦<FileStore<Fuse<D>> as Store>⟧ opened taken
        → WritesReport ⟦<FileShelf<Fuse<D>> as Shelf>⟧.view kind users taken last old new done
        → WereClean D.Disk result → (image : Image) → MayBeLeftThen D.Disk result image → HoldsStill found image }
{
    store_under(last).close()
}

/// What an `init` leaves that is cut off while it makes a room: the files of its connection `shut`, as they act no more
/// from some call on. A room that they held stays, with its history (`still`). Where they held nothing, they hold the
/// fresh room then, or a database without a table (`fresh`). Any database that they held stays as it was, or has the
/// fresh room beside its own tables (`beside`).
pub fn an_init_cut_off_leaves_all_or_nothing<D: Disk + Drop>(
    shut: Connection<FileStore<Fuse<D>>>,
) -> Files<Fuse<D>>
    ensures still { (opened : _) (owner group : List ℕ) (why : Fault) (found : Image) → IsOpenedOver found opened
        → Made ⟦<FileStore<Fuse<D>> as Store>⟧ owner group opened shut
        ⊎ Unmade ⟦<FileStore<Fuse<D>> as Store>⟧ owner group opened shut why
        → WereClean D.Disk result → (image : Image) → MayBeLeftThen D.Disk result image → HoldsStill found image }
    ensures fresh { (opened : _) (owner group : List ℕ) (why : Fault) (found : Image) → IsOpenedOver found opened
        → Made ⟦<FileStore<Fuse<D>> as Store>⟧ owner group opened shut
        ⊎ Unmade ⟦<FileStore<Fuse<D>> as Store>⟧ owner group opened shut why
        → WereClean D.Disk result → (image : Image) → MayBeLeftThen D.Disk result image → HoldsNothing found
        → HoldsFreshOrNone image owner group }
    ensures beside { (opened : _) (owner group : List ℕ) (why : Fault) (found : Image) → IsOpenedOver found opened
        → Made ⟦<FileStore<Fuse<D>> as Store>⟧ owner group opened shut
        ⊎ Unmade ⟦<FileStore<Fuse<D>> as Store>⟧ owner group opened shut why
        → WereClean D.Disk result → (image : Image) → MayBeLeftThen D.Disk result image
        → (held : Database) → Holds found held → HoldsOldOrBeside image held owner group }
{
    store_in(shut).close()
}

/// What a close leaves that is cut off, at any call with which it copies the log into the database file. As of an
/// event, each of the two files acts no more once its fuse has burnt down; what a crash may leave of such a disk is
/// what it may leave of the one inside. Of a `serve` whose store was there, the files hold the room with the history
/// that the rows stood for (`served`); of one whose store a fault had shut, perhaps with one event more (`shut`); after
/// an `init` over files that held nothing, the fresh room (`made`).
pub fn a_close_cut_off_leaves_the_room<D: Disk + Drop>(
    closed: Connection<FileStore<Fuse<D>>>,
) -> Left<Fuse<D>>
    ensures served { (last : _) (start : Room) (past : History) (found image : Image) → last.0.conn ≡ closed
        → StandsFor start past (⟦<FileShelf<Fuse<D>> as Shelf>⟧.view last)
        → (⟦<FileShelf<Fuse<D>> as Shelf>⟧.view last).is_available → IsLeftBy found result image
        → HoldsRoom image start past }
    ensures shut { (opened : _) (taken last : _) (rosters : Rosters) (found image : Image) →
        last.0.conn ≡ closed → IsOpenedOver found opened → Adopted ⟦<FileStore<Fuse<D>> as Store>⟧ opened taken
        → AnswersOrMore ⟦<FileShelf<Fuse<D>> as Shelf>⟧.view rosters taken last → IsLeftBy found result image
        → KeepsRoomOrMore rosters found image }
    ensures made { (opened : _) (owner group : List ℕ) (found image : Image) → IsOpenedOver found opened
        → Made ⟦<FileStore<Fuse<D>> as Store>⟧ owner group opened closed → HoldsNothing found
        → IsLeftBy found result image → HoldsRoom image (fresh_room owner group) [] }
{
    closed_off(closed)
}

/// The next run opens such files, which `T` stands for, takes the room that it finds, and the event is sent again
/// first: it acts once, or is answered DELAY.
pub fn an_event_cut_off_acts_once<T: Start>()
    ensures { (opened : _) (taken after : _) (event : EventModel) (answered : AnswerModel) (start : Room)
        (past : History) →
        HoldsOldOrNew (image_at T.Start) start past event
        → IsOpenedOver (image_at T.Start) opened
        → Adopted ⟦<FileStore<FileFrom<T>> as Store>⟧ opened taken
        → EventAnswered ⟦<FileShelf<FileFrom<T>> as Shelf>⟧.view taken event answered after
        → (⟦<FileShelf<FileFrom<T>> as Shelf>⟧.view after).is_intact → leaves_no_reply past event ≡ false
        → ∥ ActsOnce start past event answered (⟦<FileShelf<FileFrom<T>> as Shelf>⟧.view after) ∥₁ }
{}
