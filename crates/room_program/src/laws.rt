//! Laws from one run to the next, over the files that the one before it left. Each function here does nothing.
ghost use Rattle.std.specs.Prelude.{◌≡◌, ◌⊎◌, ℕ, List, [], ◌∷◌, Option, Result, false, Ok, Err, OnOk, IsTrue};
ghost use Rattle.std.specs.Io.KnownBytes.{Appends};
ghost use Rattle.sqlite.specs.WalFiles.{image_at};
ghost use Rattle.std.specs.List.{AllByRecursion};
ghost use Rattle.sqlite.specs.Effect.{Database};
ghost use Rattle.sqlite.specs.Recovery.{Image};
ghost use Rattle.sqlite.specs.FileStore.{view};
ghost use Rattle.sqlite.specs.View.{IsClean};
ghost use Rattle.sqlite.specs.State.{HasCleanDisk};
ghost use Rattle.sqlite.specs.Files.{file_state};
ghost use Rattle.room_acl.specs.SubjectModel.{SubjectModel};
ghost use Rattle.room_records.specs.Room.{Room, fresh_room};
ghost use Rattle.room_tables.specs.Layout.{IsRoomOfVersion2};
ghost use Rattle.room_tables.specs.Rows.{records_of};
ghost use Rattle.room_wire.specs.Asks.EventModel.{EventModel};
ghost use Rattle.room_wire.specs.Messages.MessageModel.{MessageModel, IsMessage};
ghost use Rattle.room_wire.specs.Serving.Outputs.{Outputs};
ghost use Rattle.room_desk.specs.AnswerModel.{AnswerModel};
ghost use Rattle.room_desk.specs.History.{History, leaves_no_reply, state_after};
ghost use Rattle.room_desk.specs.Representation.{RepresentsHistory};
ghost use Rattle.room_desk.specs.Serving.{EventAnswered, MayAnswer};
ghost use Rattle.room_program.specs.declared.fault.Fault.{Fault};
ghost use Rattle.room_program.specs.Calls.{ServesEach};
ghost use Rattle.room_program.specs.Ends.{InitEnds, SelftestEnds};
ghost use Rattle.room_program.specs.Files.{Adopted, Made, Takes, TakesRoom, TakesRoster, Unmade, Untaken};
ghost use Rattle.room_program.specs.Machines.Call.{opens, closes, leaves};
ghost use Rattle.room_program.specs.Replays.{Replays};
ghost use Rattle.room_program.specs.Rolls.{Comes, Roll, ServedTo, rosters_over};
ghost use Rattle.room_program.specs.Rooms.{Listens, WritesReport, report_text, rosters_in};
ghost use Rattle.room_words.specs.declared.job.ReportKind.{ReportKind};
ghost use Rattle.room_program.specs.Streams.{GoesOnBy};
ghost use Rattle.room_program.specs.Found.{Holds, HoldsNothing, HoldsRoom, IsOpenedOver, IsLeftBy, MayBeLeft};
ghost use Rattle.room_program.specs.Found.{HoldsStill, SeesSums, SparesRoom};
ghost use Rattle.room_program.specs.Restarts.{ActsOnce, AnswersOrMore};
ghost use Rattle.room_program.specs.Restarts.{Steps, KeepsRoom, KeepsRoomOrMore};
ghost use Rattle.room_program.specs.Restarts.{GoesOnOrMore, Rosters};

use crate::host::{FileConnection, Host};
use crate::left::{Left, store_off, store_under};
use crate::listening::Listener;
use crate::machine::Machine;
use room_cache::CachedShelf;
use room_records::Shelf;
use room_sql::SqlShelf;
use sqlite::{FileFrom, FileStore, Start};
use sqlite_trees::store::Store;

/// Restart as often as you like: however many runs follow one another, each over the files that the one before it left,
/// the room and its history are in them, and the history only went on, in each connection of each run by messages of
/// the users that counted there (`again`). Where a fault shut the store in some of them, the event that was under way
/// then may have joined it (`in_doubt`). A run of the one kind is one of the other too (`either`), and so is one that
/// leaves the room as it was (`still`).
pub fn a_room_outlives_its_runs()
    ensures again { (runs : List Rosters) (found left : Image) (start : Room) (past : History) →
        Steps KeepsRoom runs found left → HoldsRoom found start past
        → (next : History) × Steps (λ rosters past next. GoesOnBy rosters start past next) runs past next
        × HoldsRoom left start next }
    ensures in_doubt { (runs : List Rosters) (found left : Image) (start : Room) (past : History) →
        Steps KeepsRoomOrMore runs found left → HoldsRoom found start past
        → ∥ ((next : History) × Steps (λ rosters past next. GoesOnOrMore rosters start past next) runs past next
        × HoldsRoom left start next) ∥₁ }
    ensures either { (rosters : Rosters) (found left : Image) →
        KeepsRoom rosters found left → KeepsRoomOrMore rosters found left }
    ensures still { (rosters : Rosters) (found left : Image) →
        HoldsStill found left → KeepsRoomOrMore rosters found left }
{}

/// What a run does to the files, where they held what `S` stands for as they were opened: said of the calls that
/// `run_program` tells of (`runs`), while the disk returns what was written. A `serve` that took a room with a history
/// goes on with it: the rows of the store that it closes stand for that history followed by events that messages ask,
/// in each connection those of the users that counted there, where no fault has shut the store, and the files then hold
/// the room with it (`serve`). A `report` that is done wrote that of this room, and leaves it (`report`). `init` makes
/// a room only where there was none, and where there was no file, the files hold the fresh room then (`init`). Where no
/// room was taken or made, the files are spared (`untaken`, `unmade`). Whatever else a run asks leaves them as they are
/// (`roster`, `replay`, `selftest`).
pub fn a_run_does_so_to_its_files<S: Start>()
    ensures serve { let does = ⟦<Host<'static, S> as Machine<FileConnection<S>>>⟧.does in
        let accepts = ⟦<Host<'static, S> as Listener>⟧.accepts in let fails = ⟦<Host<'static, S> as Listener>⟧.fails in
        let view = ⟦<CachedShelf<SqlShelf<FileStore<FileFrom<S>>>> as Shelf>⟧.view in
        (db roster : List ℕ) (first : Roll) (port count : ℕ) (read taken over later : _)
        (shelf last : _) (done : Result (Unit {0}) Fault) (start : Room) (past : History) →
        TakesRoom does
        (λ opened taken. Takes ⟦<FileStore<FileFrom<S>> as Store>⟧ opened taken) db read taken (Ok shelf) →
        (listens : Listens does accepts fails view roster first port count taken over shelf last done) →
        does over (closes last.0.conn) later →
        HasCleanDisk (file_state last.0.conn) → HoldsRoom (image_at S.Start) start past
        → (next : History) × GoesOnBy (rosters_in does accepts fails view roster first port count taken over shelf last
        done listens) start past next × (IsTrue (file_state last.0.conn).is_open
        → RepresentsHistory start (records_of (file_state last.0.conn).now.trees) next
        × ((left : Image) → IsLeftBy (image_at S.Start) later.left left → HoldsRoom left start next)) }
    ensures report { (db : List ℕ) (kind : ReportKind) (users : List SubjectModel) (read seen later : _)
        (taken last : _) (old new : Option (List ℕ)) (done : Result (Unit {0}) Fault) (start : Room)
        (past : History) →
        TakesRoom ⟦<Host<'static, S> as Machine<FileConnection<S>>>⟧.does
        (λ opened taken. Takes ⟦<FileStore<FileFrom<S>> as Store>⟧ opened taken) db read seen (Ok taken) →
        WritesReport ⟦<CachedShelf<SqlShelf<FileStore<FileFrom<S>>>> as Shelf>⟧.view
        kind users taken last old new done →
        ⟦<Host<'static, S> as Machine<FileConnection<S>>>⟧.does seen (leaves last.0.conn) later →
        HasCleanDisk (file_state last.0.conn) → HoldsRoom (image_at S.Start) start past
        → OnOk done (Appends old new (report_text kind (state_after start past) users))
        × (IsTrue (file_state last.0.conn).is_open → (left : Image) → IsLeftBy (image_at S.Start) later.left left
        → HoldsRoom left start past) }
    ensures init { (db owner group : List ℕ) (before begun later : _) (opened closed : _) →
        ⟦<Host<'static, S> as Machine<FileConnection<S>>>⟧.does before (opens db (Ok opened)) begun →
        Made ⟦<FileStore<FileFrom<S>> as Store>⟧ owner group opened closed →
        ⟦<Host<'static, S> as Machine<FileConnection<S>>>⟧.does begun (closes closed) later →
        HasCleanDisk (file_state closed)
        → ((start : Room) (past : History) → ¬ HoldsRoom (image_at S.Start) start past)
        × (HoldsNothing (image_at S.Start) → (left : Image) → IsLeftBy (image_at S.Start) later.left left
        → HoldsRoom left (fresh_room owner group) []) }
    ensures untaken { (db : List ℕ) (read later : _) (why : Fault) →
        TakesRoom ⟦<Host<'static, S> as Machine<FileConnection<S>>>⟧.does
        (λ opened taken. Takes ⟦<FileStore<FileFrom<S>> as Store>⟧ opened taken) db read later (Err why) →
        SparesRoom ⟦<Host<'static, S> as Machine<FileConnection<S>>>⟧.does
        (λ host. host.left) (image_at S.Start) read later }
    ensures unmade { (db owner group : List ℕ) (before later : _) (why : Fault) →
        InitEnds ⟦<Host<'static, S> as Machine<FileConnection<S>>>⟧.does
        (Made ⟦<FileStore<FileFrom<S>> as Store>⟧ owner group)
        (Unmade ⟦<FileStore<FileFrom<S>> as Store>⟧ owner group) db owner group before later (Err why) →
        SparesRoom ⟦<Host<'static, S> as Machine<FileConnection<S>>>⟧.does
        (λ host. host.left) (image_at S.Start) before later }
    ensures roster { (path : List ℕ) (before later : _) (taken : Result (List SubjectModel) Fault) →
        TakesRoster ⟦<Host<'static, S> as Machine<FileConnection<S>>>⟧.does path before later taken
        → later.left ≡ before.left }
    ensures replay { (roster owner group : List ℕ) (before later : _) (input rest old new : Option (List ℕ))
        (done : Result (Unit {0}) Fault) →
        Replays ⟦<Host<'static, S> as Machine<FileConnection<S>>>⟧.does roster owner group before later
        input rest old new done → later.left ≡ before.left }
    ensures selftest { (before later : _) (done : Result (Unit {0}) Fault) →
        SelftestEnds ⟦<Host<'static, S> as Machine<FileConnection<S>>>⟧.does
        ⟦<Host<'static, S> as Listener>⟧.accepts ⟦<Host<'static, S> as Listener>⟧.fails before later done
        → later.left ≡ before.left }
{}

/// A run that ends keeps the room: a `serve` that took it and closed it (`serve`), and where a fault had shut its
/// store, perhaps with one event more (`serve_shut`). A `report`, which lets it go, left it with the same history
/// (`report`); so did a run that could not take it, whatever the fault, also one in the middle of an upgrade
/// (`untaken`), and an `init` over it (`init`). A database that is no room stays as it was (`no_room`).
pub fn a_run_that_ends_keeps_the_room<S: Start>()
    ensures serve { let does = ⟦<Host<'static, S> as Machine<FileConnection<S>>>⟧.does in
        let accepts = ⟦<Host<'static, S> as Listener>⟧.accepts in let fails = ⟦<Host<'static, S> as Listener>⟧.fails in
        let view = ⟦<CachedShelf<SqlShelf<FileStore<FileFrom<S>>>> as Shelf>⟧.view in
        (db roster : List ℕ) (first : Roll) (port count : ℕ) (read taken over later : _)
        (shelf last : _) (done : Result (Unit {0}) Fault) (left : Image) →
        TakesRoom does
        (λ opened taken. Takes ⟦<FileStore<FileFrom<S>> as Store>⟧ opened taken) db read taken (Ok shelf) →
        (listens : Listens does accepts fails view roster first port count taken over shelf last done) →
        does over (closes last.0.conn) later →
        IsTrue (file_state last.0.conn).is_open → IsLeftBy (image_at S.Start) later.left left
        → KeepsRoom (rosters_in does accepts fails view roster first port count taken over shelf last done listens)
        (image_at S.Start) left }
    ensures serve_shut { let does = ⟦<Host<'static, S> as Machine<FileConnection<S>>>⟧.does in
        let accepts = ⟦<Host<'static, S> as Listener>⟧.accepts in let fails = ⟦<Host<'static, S> as Listener>⟧.fails in
        let view = ⟦<CachedShelf<SqlShelf<FileStore<FileFrom<S>>>> as Shelf>⟧.view in
        (db roster : List ℕ) (first : Roll) (port count : ℕ) (read taken over later : _)
        (shelf last : _) (done : Result (Unit {0}) Fault) (left : Image) →
        TakesRoom does
        (λ opened taken. Takes ⟦<FileStore<FileFrom<S>> as Store>⟧ opened taken) db read taken (Ok shelf) →
        (listens : Listens does accepts fails view roster first port count taken over shelf last done) →
        does over (closes last.0.conn) later →
        IsLeftBy (image_at S.Start) later.left left
        → KeepsRoomOrMore (rosters_in does accepts fails view roster first port count taken over shelf last done
        listens) (image_at S.Start) left }
    ensures report { (db : List ℕ) (kind : ReportKind) (users : List SubjectModel) (read seen later : _)
        (taken last : _) (old new : Option (List ℕ)) (done : Result (Unit {0}) Fault) (left : Image) →
        TakesRoom ⟦<Host<'static, S> as Machine<FileConnection<S>>>⟧.does
        (λ opened taken. Takes ⟦<FileStore<FileFrom<S>> as Store>⟧ opened taken) db read seen (Ok taken) →
        WritesReport ⟦<CachedShelf<SqlShelf<FileStore<FileFrom<S>>>> as Shelf>⟧.view
        kind users taken last old new done →
        ⟦<Host<'static, S> as Machine<FileConnection<S>>>⟧.does seen (leaves last.0.conn) later →
        IsLeftBy (image_at S.Start) later.left left → HoldsStill (image_at S.Start) left }
    ensures untaken { (db : List ℕ) (read later : _) (why : Fault) (left : Image) →
        TakesRoom ⟦<Host<'static, S> as Machine<FileConnection<S>>>⟧.does
        (λ opened taken. Takes ⟦<FileStore<FileFrom<S>> as Store>⟧ opened taken) db read later (Err why) →
        read.left ≡ Left.Nothing → SeesSums (image_at S.Start) later.left → IsLeftBy (image_at S.Start) later.left left
        → HoldsStill (image_at S.Start) left }
    ensures no_room { (db : List ℕ) (read later : _) (left : Image) (held : Database) →
        TakesRoom ⟦<Host<'static, S> as Machine<FileConnection<S>>>⟧.does
        (λ opened taken. Takes ⟦<FileStore<FileFrom<S>> as Store>⟧ opened taken)
        db read later (Err Fault.NotARoom) → read.left ≡ Left.Nothing
        → IsLeftBy (image_at S.Start) later.left left → Holds (image_at S.Start) held → Holds left held }
    ensures init { (db owner group : List ℕ) (before later : _) (why : Fault) (left : Image) →
        InitEnds ⟦<Host<'static, S> as Machine<FileConnection<S>>>⟧.does
        (Made ⟦<FileStore<FileFrom<S>> as Store>⟧ owner group)
        (Unmade ⟦<FileStore<FileFrom<S>> as Store>⟧ owner group) db owner group before later (Err why) →
        before.left ≡ Left.Nothing → SeesSums (image_at S.Start) later.left
        → IsLeftBy (image_at S.Start) later.left left → HoldsStill (image_at S.Start) left }
{}

/// And so does one that stops between two connections, with the shelf `last`, while its store is there: a crash may
/// leave the image `left` of its files. Each of the `count` connections before was served as `Desk::serve` promises
/// (`there`: the invariant of `accept_each`, whose own clause a run that stops never reaches). Once a fault has shut
/// the store, it keeps the room, or the room with one event more (`shut`); of a `report` with its history, whether one
/// has or not (`report`). The store has returned what was written, also as it is taken out of its connection.
pub fn a_run_that_stops_keeps_the_room<S: Start>(
    last: CachedShelf<SqlShelf<FileStore<FileFrom<S>>>>,
) -> FileStore<FileFrom<S>>
    ensures there { let comes = Comes ⟦<Host<'static, S> as Machine<FileConnection<S>>>⟧.does
        ⟦<Host<'static, S> as Listener>⟧.accepts in
        let shows = ⟦<CachedShelf<SqlShelf<FileStore<FileFrom<S>>>> as Shelf>⟧.view in
        (opened : _) (taken : _) (roster : List ℕ) (count : ℕ) (bound over : _) (left : Image) →
        IsOpenedOver (image_at S.Start) opened → Adopted ⟦<FileStore<FileFrom<S>> as Store>⟧ opened taken →
        (each : ServesEach (comes roster) (ServedTo shows) count bound over taken last) →
        IsClean (view result) → IsTrue (file_state last.0.conn).is_open → MayBeLeft last.0.conn.store left →
        KeepsRoom (rosters_over (comes roster) shows count bound over taken last each) (image_at S.Start) left }
    ensures report { (opened : _) (taken : _) (kind : ReportKind) (users : List SubjectModel)
        (old new : Option (List ℕ)) (done : Result (Unit {0}) Fault) (left : Image) →
        IsOpenedOver (image_at S.Start) opened → Adopted ⟦<FileStore<FileFrom<S>> as Store>⟧ opened taken →
        WritesReport ⟦<CachedShelf<SqlShelf<FileStore<FileFrom<S>>>> as Shelf>⟧.view
        kind users taken last old new done →
        IsClean (view result) → MayBeLeft last.0.conn.store left → HoldsStill (image_at S.Start) left }
    ensures shut { (opened : _) (taken : _) (rosters : Rosters) (left : Image) →
        IsOpenedOver (image_at S.Start) opened → Adopted ⟦<FileStore<FileFrom<S>> as Store>⟧ opened taken →
        AnswersOrMore ⟦<CachedShelf<SqlShelf<FileStore<FileFrom<S>>>> as Shelf>⟧.view rosters taken last →
        IsClean (view result) → MayBeLeft last.0.conn.store left → KeepsRoomOrMore rosters (image_at S.Start) left }
{
    store_under(last)
}

/// However many connections were served over a shelf whose store was there, and some messages of one more, of the users
/// that count in it, a crash then leaves records that stand for the history by their answers, or for it with one event
/// more, and that are laid out: also where a fault shut the store on the way.
pub fn connections_leave_what_was_answered<C, M: Machine<C> + Listener, S: Shelf>()
    ensures { let comes = Comes M.does M.accepts in
        (roster : List ℕ) (users : List SubjectModel) (n : ℕ) (old last : _) (before between after : S)
        (ms : List MessageModel) (out : List ℕ) →
        (each : ServesEach (comes roster) (ServedTo S.view) n old last before between) → AllByRecursion IsMessage ms →
        Outputs (MayAnswer S.view users) between ms out after → (S.view before).is_available →
        (S.view after).is_intact →
        AnswersOrMore S.view (users ∷ rosters_over (comes roster) S.view n old last before between each) before after }
{}

/// The next run opens what this one left, which is what `T` stands for, and finds the database that this one saw last,
/// and nothing else: after a stop while the store was there (`stop`), and after a close (`closed`). Once a fault had
/// shut the store, it finds a room with records that the crash may leave, where these are laid out (`shut`).
pub fn the_next_run_finds_what_this_one_saw<S: Start, T: Start>(
    was: SqlShelf<FileStore<FileFrom<S>>>,
    opened: &FileConnection<T>,
) -> FileStore<FileFrom<S>>
    ensures stop { IsTrue (file_state was.conn).is_open → IsClean (view result) →
        MayBeLeft was.conn.store (image_at T.Start) →
        IsOpenedOver (image_at T.Start) opened.now → HasCleanDisk (file_state opened.now) →
        (file_state opened.now).now ≡ (file_state was.conn).now }
    ensures closed { (over later : _) →
        ⟦<Host<'static, S> as Machine<FileConnection<S>>>⟧.does over (closes was.conn) later →
        IsTrue (file_state was.conn).is_open → IsLeftBy (image_at S.Start) later.left (image_at T.Start) →
        IsOpenedOver (image_at T.Start) opened.now → HasCleanDisk (file_state opened.now) →
        (file_state opened.now).now ≡ (file_state was.conn).now }
    ensures shut { IsClean (view result)
        → (⟦<SqlShelf<FileStore<FileFrom<S>>> as Shelf>⟧.view was).leaves_laid_out
        → MayBeLeft was.conn.store (image_at T.Start) →
        IsOpenedOver (image_at T.Start) opened.now → HasCleanDisk (file_state opened.now) →
        ∥ (IsRoomOfVersion2 (file_state opened.now).now
        × (⟦<SqlShelf<FileStore<FileFrom<S>>> as Shelf>⟧.view was).crash_may_leave
        (records_of (file_state opened.now).now.trees)) ∥₁ }
{
    let _opened = opened;
    store_off(was)
}

/// What holds a room is not refused as none: `not a room` comes of no store that was opened over it, while the disk
/// returned what was written.
pub fn what_holds_a_room_is_a_room<S: Start>()
    ensures { (opened let_go : _) (start : Room) (past : History) → HoldsRoom (image_at S.Start) start past →
        IsOpenedOver (image_at S.Start) opened →
        Untaken ⟦<FileStore<FileFrom<S>> as Store>⟧ opened let_go Fault.NotARoom →
        HasCleanDisk (file_state let_go) → ⊥ }
{}

/// An event got no answer, as its run stopped, and is sent again first to the next run, which took the room in files of
/// `S`. They hold it with the history without the event, or with it. It is answered as it would have been, and the
/// history has it once; or it is answered DELAY. (A request whose reply is not kept may also be answered
/// RETRY_UNCACHED, by `a_request_sent_again_after_a_stop_acts_once` of `room_desk`.)
pub fn an_event_sent_again_to_the_next_run_acts_once<S: Start>()
    ensures { (opened : _) (taken after : _) (event : EventModel) (answered : AnswerModel) (start : Room)
        (past : History) →
        HoldsRoom (image_at S.Start) start past ⊎ HoldsRoom (image_at S.Start) start (event ∷ past) →
        IsOpenedOver (image_at S.Start) opened → Adopted ⟦<FileStore<FileFrom<S>> as Store>⟧ opened taken →
        EventAnswered ⟦<CachedShelf<SqlShelf<FileStore<FileFrom<S>>>> as Shelf>⟧.view taken event answered after →
        (⟦<CachedShelf<SqlShelf<FileStore<FileFrom<S>>>> as Shelf>⟧.view after).is_intact →
        leaves_no_reply past event ≡ false →
        ActsOnce start past event answered
        (⟦<CachedShelf<SqlShelf<FileStore<FileFrom<S>>>> as Shelf>⟧.view after) }
{}
