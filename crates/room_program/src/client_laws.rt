//! A client that asks until it is answered acts once, over the files of a room.
ghost use Rattle.std.specs.Prelude.{◌≡◌, suc, ◌+◌, ◌^◌, ◌<◌, ℕ, false, List, [], ◌∷◌, ◌++◌, flat_map, length};
ghost use Rattle.clap.specs.Words.{Text};
ghost use Rattle.sqlite.specs.FileStore.{view};
ghost use Rattle.sqlite.specs.Recovery.{Image};
ghost use Rattle.sqlite.specs.View.{IsClean};
ghost use Rattle.sqlite.specs.WalFiles.{image_at};
ghost use Rattle.room_acl.specs.SubjectModel.{SubjectModel};
ghost use Rattle.room_records.specs.Room.{Room};
ghost use Rattle.room_commands.specs.CommandModel.{CommandModel};
ghost use Rattle.room_wire.specs.Messages.MessageModel.{MessageModel};
ghost use Rattle.room_wire.specs.Serving.Outputs.{InTurn};
ghost use Rattle.room_desk.specs.AnswerModel.{AnswerModel};
ghost use Rattle.room_desk.specs.History.{History};
ghost use Rattle.room_desk.specs.Client.{Lane, HoldsSlot, ran, Attempt, HearsLess, Client, idle, KeepsRule};
ghost use Rattle.room_desk.specs.Client.{HasDone, IsAsk, IsTold, Taken, is_lost};
ghost use Rattle.room_desk.specs.ClientRuns.{attempts_in};
ghost use Rattle.room_desk.specs.Representation.{StandsFor};
ghost use Rattle.room_desk.specs.Serving.{MayAnswer};
ghost use Rattle.room_program.specs.Calls.{ServesEach};
ghost use Rattle.room_program.specs.ClientFiles.{TakesAttempts, sent_over, sent_to_run};
ghost use Rattle.room_program.specs.Files.{Adopted, Made, Takes, Unmade};
ghost use Rattle.room_program.specs.Found.{HoldsRoom, HoldsStill, IsLeftBy, IsOpenedOver, MayBeLeft, SeesSums};
ghost use Rattle.room_program.specs.Halts.{MayBeLeftThen, WereClean};
ghost use Rattle.room_program.specs.Restarts.{Steps};
ghost use Rattle.room_program.specs.Rolls.{Comes, ServedTo};
ghost use Rattle.room_program.specs.Runs.{Runs, Streams, means};

use crate::halts::{FileShelf, files_of};
use crate::host::{FileConnection, Host};
use crate::left::{Left, closed_off, store_under};
use crate::listening::Listener;
use crate::machine::Machine;
use room_cache::CachedShelf;
use room_records::Shelf;
use room_sql::SqlShelf;
use sqlite::{Connection, FileFrom, FileStore, Files, Start};
use sqlite_disk::{Disk, Fuse};
use sqlite_trees::store::Store;

/// A run of the program, whatever it was asked and however it ended, takes the attempts that it was sent, by what
/// `run_program` tells of it (`runs`): a room that its files held is in them then, with a history to which these
/// attempts lead. A `serve` was sent what its connections brought, also where it ended with a fault, and where a fault
/// had shut its store; any other run was sent nothing.
pub fn a_run_that_ends_takes_its_attempts<S: Start>()
    ensures { let program = means ⟦<Host<'static, S> as Machine<FileConnection<S>>>⟧.does
        ⟦<Host<'static, S> as Listener>⟧.accepts ⟦<Host<'static, S> as Listener>⟧.fails
        (λ opened taken. Takes ⟦<FileStore<FileFrom<S>> as Store>⟧ opened taken)
        (λ shelf. shelf.0.conn) (Made ⟦<FileStore<FileFrom<S>> as Store>⟧)
        (Unmade ⟦<FileStore<FileFrom<S>> as Store>⟧)
        ⟦<CachedShelf<SqlShelf<FileStore<FileFrom<S>>>> as Shelf>⟧.view in
        (before later : _) (words : List Text) (old new : Streams) (status : ℕ) (left : Image)
        (ran : Runs program before later words old new status) → before.left ≡ Left.Nothing →
        SeesSums (image_at S.Start) later.left → IsLeftBy (image_at S.Start) later.left left →
        TakesAttempts (sent_to_run program before later words old new status ran) (image_at S.Start) left }
{}

/// So does a run that stops with the shelf `last`: after so many connections, each served as `Desk::serve` promises to
/// the users that counted then, and after some messages of one more, each answered as there. A crash may leave the
/// image `left` of its files. Where a run leaves the room with its history, also one that was cut off, it was sent
/// nothing (`still`).
pub fn a_run_that_stops_takes_its_attempts<S: Start>(
    last: CachedShelf<SqlShelf<FileStore<FileFrom<S>>>>,
) -> FileStore<FileFrom<S>>
    ensures stopped { let comes = Comes ⟦<Host<'static, S> as Machine<FileConnection<S>>>⟧.does
        ⟦<Host<'static, S> as Listener>⟧.accepts in
        let shows = ⟦<CachedShelf<SqlShelf<FileStore<FileFrom<S>>>> as Shelf>⟧.view in
        (opened taken between : _) (roster : List ℕ) (users : List SubjectModel) (n : ℕ) (bound over : _)
        (ms : List MessageModel) (answers : List AnswerModel) (left : Image) →
        IsOpenedOver (image_at S.Start) opened → Adopted ⟦<FileStore<FileFrom<S>> as Store>⟧ opened taken →
        (each : ServesEach (comes roster) (ServedTo shows) n bound over taken between) →
        InTurn (MayAnswer shows users) between ms answers last → IsClean (view result) →
        MayBeLeft last.0.conn.store left →
        TakesAttempts (sent_over (comes roster) shows n bound over taken between each ++ attempts_in users ms answers)
        (image_at S.Start) left }
    ensures still { (left : Image) → HoldsStill (image_at S.Start) left → TakesAttempts [] (image_at S.Start) left }
{
    store_under(last)
}

/// And so does one that stops in the middle of an event, whose files act no more from some call on, wherever that is
/// (`an_event_cut_off_leaves_old_or_new` says how this is modelled): nobody sees the answer to the last message, so a
/// client heard less than these attempts tell.
pub fn a_run_cut_off_takes_its_attempts<C, M: Machine<C> + Listener, D: Disk + Drop>(
    last: FileShelf<Fuse<D>>,
) -> Files<Fuse<D>>
    ensures { let comes = Comes M.does M.accepts in let shows = ⟦<FileShelf<Fuse<D>> as Shelf>⟧.view in
        (opened taken between : _) (found : Image) (roster : List ℕ) (users : List SubjectModel) (n : ℕ)
        (bound over : _) (ms : List MessageModel) (answers : List AnswerModel) (image : Image) →
        IsOpenedOver found opened → Adopted ⟦<FileStore<Fuse<D>> as Store>⟧ opened taken →
        (each : ServesEach (comes roster) (ServedTo shows) n bound over taken between) →
        InTurn (MayAnswer shows users) between ms answers last →
        WereClean D.Disk result → MayBeLeftThen D.Disk result image →
        TakesAttempts (sent_over (comes roster) shows n bound over taken between each ++ attempts_in users ms answers)
        found image }
{
    files_of(last)
}

/// And one that stops in the middle of the close of its store, as it copies the log into the database file.
pub fn a_close_cut_off_takes_its_attempts<C, M: Machine<C> + Listener, D: Disk + Drop>(
    closed: Connection<FileStore<Fuse<D>>>,
) -> Left<Fuse<D>>
    ensures { let comes = Comes M.does M.accepts in let shows = ⟦<FileShelf<Fuse<D>> as Shelf>⟧.view in
        (opened taken last : _) (found : Image) (roster : List ℕ) (n : ℕ) (bound over : _)
        (image : Image) → last.0.conn ≡ closed → IsOpenedOver found opened →
        Adopted ⟦<FileStore<Fuse<D>> as Store>⟧ opened taken →
        (each : ServesEach (comes roster) (ServedTo shows) n bound over taken last) →
        IsLeftBy found result image →
        TakesAttempts (sent_over (comes roster) shows n bound over taken last each) found image }
{
    closed_off(closed)
}

/// A client that asks until it is answered acts once, however many runs follow one another, each over the files that
/// the one before it left, ended or stopped, and of whatever other jobs there were between. The commands of which it
/// was told that have run, each once and in their order, and nothing else in its slot, save perhaps one of those that
/// it asked for since, once (`did`). Any answer but DELAY that it is told of a command tells: the reply of its one run;
/// or RETRY_UNCACHED, where it ran and its reply was not to be kept; or a false retry, where in its place another ran
/// that it had asked for with this number (`told`: in whichever of the runs, and whatever came before and later).
pub fn a_client_acts_once_over_files()
    ensures did { (start : Room) (lane : Lane) (past : History) (runs : List (List Attempt)) (found left : Image)
        (sent : List Attempt) (client : Client) → HoldsRoom found start past → HoldsSlot lane past →
        Steps TakesAttempts runs found left → HearsLess (flat_map (λ sent. sent) runs) sent →
        KeepsRule lane (length (ran lane past)) idle sent client → suc (length client.done) < 2 ^ 32 →
        ∥ ((next : History) × HoldsRoom left start next × HasDone lane client past next) ∥₁ }
    ensures told { (start : Room) (lane : Lane) (past : History) (runs : List (List Attempt)) (found left : Image)
        (sent later : List Attempt) (asked : Attempt) (command : CommandModel) (client : Client) →
        HoldsRoom found start past → HoldsSlot lane past →
        Steps TakesAttempts runs found left → HearsLess (flat_map (λ sent. sent) runs) (sent ++ asked ∷ later) →
        KeepsRule lane (length (ran lane past)) idle sent client → suc (length client.done) < 2 ^ 32 →
        IsAsk lane (length (ran lane past) + length client.done) command asked.event → is_lost asked.told ≡ false →
        ∥ ((then next : History) × Taken start past (sent ++ asked ∷ []) then
        × IsTold lane start (length (ran lane past)) client then command asked.told
        × Taken start then later next × HoldsRoom left start next) ∥₁ }
{}

/// So it is told in a run that goes on: over the files that the runs before it left, after so many connections, and
/// after some messages of one more.
pub fn a_client_is_told_of_its_one_run<S: Start>()
    ensures { let comes = Comes ⟦<Host<'static, S> as Machine<FileConnection<S>>>⟧.does
        ⟦<Host<'static, S> as Listener>⟧.accepts in
        let shows = ⟦<CachedShelf<SqlShelf<FileStore<FileFrom<S>>>> as Shelf>⟧.view in
        (start : Room) (lane : Lane) (past : History) (runs : List (List Attempt)) (found : Image)
        (sent later : List Attempt) (asked : Attempt) (command : CommandModel) (client : Client)
        (opened taken between last : _) (roster : List ℕ) (users : List SubjectModel) (n : ℕ) (bound over : _)
        (ms : List MessageModel) (answers : List AnswerModel) → HoldsRoom found start past → HoldsSlot lane past →
        Steps TakesAttempts runs found (image_at S.Start) → IsOpenedOver (image_at S.Start) opened →
        Adopted ⟦<FileStore<FileFrom<S>> as Store>⟧ opened taken →
        (each : ServesEach (comes roster) (ServedTo shows) n bound over taken between) →
        InTurn (MayAnswer shows users) between ms answers last → (shows last).is_intact →
        HearsLess (flat_map (λ sent. sent) runs
        ++ (sent_over (comes roster) shows n bound over taken between each ++ attempts_in users ms answers))
        (sent ++ asked ∷ later) →
        KeepsRule lane (length (ran lane past)) idle sent client → suc (length client.done) < 2 ^ 32 →
        IsAsk lane (length (ran lane past) + length client.done) command asked.event → is_lost asked.told ≡ false →
        ∥ ((then next : History) × Taken start past (sent ++ asked ∷ []) then
        × IsTold lane start (length (ran lane past)) client then command asked.told × Taken start then later next
        × StandsFor start next (shows last)) ∥₁ }
{}
