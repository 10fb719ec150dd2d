//! The shelf.

ghost use Rattle.std.specs.Prelude.{◌≡◌, ◌≢◌, ◌≤◌, true, false, Ok, Err, IsTrue, IfOk, IfErr, OnOk, OnErr};
ghost use Rattle.sqlite.specs.State.{HasCleanDisk};
ghost use Rattle.sqlite.specs.Held.{state};
ghost use Rattle.room_records.specs.Shelf.{FailureCounted};
ghost use Rattle.room_records.specs.declared.shelf.ShelfFault.TheVariants.{Store};
ghost use Rattle.room_sql.specs.Faults.{IsFaultOf};
ghost use Rattle.room_sql.specs.Facts.{KnowsNothing};
ghost use Rattle.room_sql.specs.Resting.{rests_prop};

use crate::facts::Facts;
use crate::{commits, deciding, reads};
use room_acl::{Decision, Entry, Kind, Mask, Standing, Subject};
use room_records::{Change, FileName, Node, SessionRow, Shelf, ShelfFault, Sid, copy_names};
use room_slots::Kept;
use sqlite::{Alter, Connection, Error, ErrorCode};
use std::alloc::Global;

/// A shelf whose records are the rows of the six tables in its connection's database, and nothing beside them.
/// The connection is outside a transaction between calls. It remembers, while the connection is open, how many children
/// up to 256 folders have, and the names of up to 256 in each of as many, by the sizes of the types 6.3 MB at worst.
/// Until the next commit it keeps the lists that were read, up to 65,536 entries, so that the commit need not read
/// those again that it changes. Any fault makes it forget all. Where memory is refused for what would be remembered,
/// the call is answered still; where it is refused for the copy that is the answer, the call answers `Memory`, and
/// nothing is forgotten.
///
/// A commit that puts the next number and then the node below it takes that node as new: it fails where a row has that
/// number.
#[derive(Drop)]
pub struct SqlShelf<S: Alter> {
    alloc: Global,
    conn: Connection<S>,
    failures: u64,
    known: Facts,
    ghost outside: { conn.in_transaction ≡ false },
    ghost there: { known.nodes.has_answered ≡ true → HasCleanDisk (state S.Store conn)
        → (state S.Store conn).is_open ≡ true },
    ghost rests: { IsTrue (state S.Store conn).is_open
        → (state S.Store conn).now.trees ≡ (state S.Store conn).committed.trees } by { rests_prop _ _ _ },
}

impl<S: Alter> SqlShelf<S> {
    pub(crate) fn over(alloc: Global, conn: Connection<S>) -> SqlShelf<S>
        requires { conn.in_transaction ≡ false }
        ensures new { (result.conn ≡ conn) × (result.failures ≡ 0) }
        ensures known { KnowsNothing result.known }
    {
        let _outside = conn.is_autocommit();
        SqlShelf {
            alloc,
            conn,
            failures: 0,
            known: Facts::nothing(alloc),
        }
    }

    /// Hands the connection back, outside a transaction.
    pub fn into_connection(self) -> Connection<S>
        ensures same { result ≡ self.conn }
        ensures outside { result.in_transaction ≡ false }
    {
        let SqlShelf {
            alloc: _,
            conn,
            failures: _,
            known: _,
        } = self;
        conn
    }
}

/// What an error is to the shelf: a want of memory is told, and any other error is counted as a failure of the store.
/// The count stays at 2^64 - 1. What was known is known no longer.
fn fault(failures: &mut u64, known: &mut Facts, error: Error) -> ShelfFault
    ensures exact { IsFaultOf error result failures.old failures.new }
    ensures counted { result ≡ ShelfFault.Store → FailureCounted failures.old failures.new }
    ensures never_falls { failures.old ≤ failures.new }
    ensures quiet { result ≢ ShelfFault.Store → failures.new ≡ failures.old }
    ensures forgotten { KnowsNothing known.new }
    ensures unanswered { known.new.nodes.has_answered ≡ false }
{
    known.forget();
    match error {
        Error::SqliteFailure(ErrorCode::OutOfMemory) => ShelfFault::Memory,
        _ => {
            *failures = failures.saturating_add(1);
            ShelfFault::Store
        },
    }
}

/// Hands an answer of the connection on. An error becomes a fault of the shelf, whose count of failures and whose
/// knowledge these are.
fn or_fault<T>(
    failures: &mut u64,
    known: &mut Facts,
    answer: Result<T, Error>,
) -> Result<T, ShelfFault>
    ensures ok { IfOk result (λ value. answer ≡ Ok value) }
    ensures kept { OnOk result (known.new ≡ known.old) }
    ensures err { IfErr result (λ told. (error : Error) × (answer ≡ Err error)
        × IsFaultOf error told failures.old failures.new) }
    ensures counted { result ≡ Err Store → FailureCounted failures.old failures.new }
    ensures never_falls { failures.old ≤ failures.new }
    ensures quiet { result ≢ Err Store → failures.new ≡ failures.old }
    ensures forgotten { OnErr result (KnowsNothing known.new) }
    ensures unanswered { OnErr result (known.new.nodes.has_answered ≡ false) }
{
    match answer {
        Ok(value) => Ok(value),
        Err(error) => Err(fault(failures, known, error)),
    }
}

impl<S: Alter> Shelf for SqlShelf<S> {
    ghost use Rattle.std.specs.Prelude.{◌≡◌, OnOk};
    ghost use Rattle.room_records.specs.Changes.{apply_changes, RulesHoldAfterEach, Untouched};
    ghost use Rattle.room_records.specs.Shelf.{ShelfCall, LeavesOldOrNew, fault_in};
    ghost use Rattle.room_sql.specs.SqlView.{sql_view};
    ghost use Rattle.room_sql.specs.Resting.{leaves_rest, leaves_these, leaves_a_room};

    ghost view = { sql_view S.Store };

    ghost calls_left = { λ s. 0 };

    ghost available_is_intact = { λ s h. h.0 };

    ghost settled = { λ s left h may.
        leaves_rest (s.rests h.1) (λ trees. S.Store.settled s.conn.store trees h.1) left may.1 };

    ghost stays = { λ s h. (h.0, leaves_these (s.rests h.1) (S.Store.stays s.conn.store h.1)) };

    ghost leaves_laid_out = { λ s h d. leaves_a_room (s.rests h.1) d.0
        (λ trees. S.Store.settled s.conn.store trees h.1) };

    fn node(&mut self, id: u32) -> Result<Option<Node>, ShelfFault> {
        let _outside = self.conn.is_autocommit();
        let found = reads::node(self.alloc, &mut self.conn, id);
        let _rests = self.conn.is_autocommit();
        or_fault(&mut self.failures, &mut self.known, found)
    }

    fn child(&mut self, parent: u32, name: &FileName) -> Result<Option<Node>, ShelfFault> {
        let _outside = self.conn.is_autocommit();
        let found = reads::child(self.alloc, &mut self.conn, parent, name);
        let _rests = self.conn.is_autocommit();
        or_fault(&mut self.failures, &mut self.known, found)
    }

    fn children(&mut self, parent: u32) -> Result<Vec<Node>, ShelfFault> {
        let _outside = self.conn.is_autocommit();
        let found = reads::children(self.alloc, &mut self.conn, parent);
        let _rests = self.conn.is_autocommit();
        or_fault(&mut self.failures, &mut self.known, found)
    }

    /// The name and the kind of a row are all that it reads: another column of no value of its type is no fault here.
    fn names(&mut self, parent: u32) -> Result<Vec<(FileName, Kind)>, ShelfFault> {
        if let Some(names) = self.known.nodes.names_in(parent) {
            return Ok(copy_names(self.alloc, names.names().as_slice())?);
        }
        let _outside = self.conn.is_autocommit();
        let found = reads::names(self.alloc, &mut self.conn, parent);
        let _rests = self.conn.is_autocommit();
        let names = or_fault(&mut self.failures, &mut self.known, found)?;
        self.known.nodes.keep_names(parent, &names);
        Ok(names)
    }

    fn child_count(&mut self, parent: u32) -> Result<u64, ShelfFault> {
        if let Some(count) = self.known.nodes.count_in(parent) {
            return Ok(count);
        }
        let _outside = self.conn.is_autocommit();
        let found = reads::child_count(&mut self.conn, parent);
        let _rests = self.conn.is_autocommit();
        let count = or_fault(&mut self.failures, &mut self.known, found)?;
        self.known.nodes.keep_count(parent, count);
        Ok(count)
    }

    fn entries(&mut self, id: u32) -> Result<Vec<Entry>, ShelfFault> {
        let _outside = self.conn.is_autocommit();
        let found = reads::entries(self.alloc, &mut self.conn, id);
        let _rests = self.conn.is_autocommit();
        let list = or_fault(&mut self.failures, &mut self.known, found)?;
        self.known.lists.keep(id, &list);
        Ok(list.entries)
    }

    fn decide_at(
        &mut self,
        id: u32,
        subject: &Subject,
        standing: &Standing,
        wanted: Mask,
    ) -> Result<Decision, ShelfFault> {
        let _outside = self.conn.is_autocommit();
        let conn = &mut self.conn;
        let found = deciding::decide_entries(self.alloc, conn, id, subject, standing, wanted);
        let _rests = self.conn.is_autocommit();
        or_fault(&mut self.failures, &mut self.known, found)
    }

    fn doc(&mut self, id: u32) -> Result<Vec<u8>, ShelfFault> {
        let _outside = self.conn.is_autocommit();
        let found = reads::doc(self.alloc, &mut self.conn, id);
        let _rests = self.conn.is_autocommit();
        or_fault(&mut self.failures, &mut self.known, found)
    }

    fn doc_size(&mut self, id: u32) -> Result<u64, ShelfFault> {
        let _outside = self.conn.is_autocommit();
        let found = reads::doc_size(&mut self.conn, id);
        let _rests = self.conn.is_autocommit();
        or_fault(&mut self.failures, &mut self.known, found)
    }

    fn session(&mut self, sid: &Sid) -> Result<Option<SessionRow>, ShelfFault> {
        let _outside = self.conn.is_autocommit();
        let found = reads::session(self.alloc, &mut self.conn, sid);
        let _rests = self.conn.is_autocommit();
        or_fault(&mut self.failures, &mut self.known, found)
    }

    fn slot(&mut self, sid: &Sid, slot: u32) -> Result<Option<Kept>, ShelfFault> {
        let _outside = self.conn.is_autocommit();
        let found = reads::slot(&mut self.conn, sid, slot);
        let _rests = self.conn.is_autocommit();
        or_fault(&mut self.failures, &mut self.known, found)
    }

    fn slot_seq(&mut self, sid: &Sid, slot: u32) -> Result<Option<u32>, ShelfFault> {
        let _outside = self.conn.is_autocommit();
        let found = reads::slot_seq(&mut self.conn, sid, slot);
        let _rests = self.conn.is_autocommit();
        or_fault(&mut self.failures, &mut self.known, found)
    }

    fn next_id(&mut self) -> Result<u32, ShelfFault> {
        let _outside = self.conn.is_autocommit();
        let found = reads::next_id(&mut self.conn);
        let _rests = self.conn.is_autocommit();
        or_fault(&mut self.failures, &mut self.known, found)
    }

    fn commit(&mut self, changes: &[Change]) -> Result<(), ShelfFault>
        ensures there { (sql_view S.Store self.new).is_intact → OnOk result (sql_view S.Store self.new).is_available }
        ensures frame { ShelfCall (sql_view S.Store self.old) (sql_view S.Store self.new) (fault_in result) }
        ensures ok { (sql_view S.Store self.new).is_intact → (sql_view S.Store self.old).is_laid_out
            → RulesHoldAfterEach changes.now (sql_view S.Store self.old).records →
            OnOk result ((sql_view S.Store self.new).records
            ≡ apply_changes changes.now (sql_view S.Store self.old).records) }
        ensures crash { (sql_view S.Store self.old).is_laid_out
            → RulesHoldAfterEach changes.now (sql_view S.Store self.old).records →
            LeavesOldOrNew (sql_view S.Store self.old) (sql_view S.Store self.new)
            (λ left. left ≡ apply_changes changes.now (sql_view S.Store self.old).records) }
        ensures untouched { (sql_view S.Store self.new).is_intact → (sql_view S.Store self.old).is_laid_out →
            OnOk result (Untouched changes.now (sql_view S.Store self.old).records
            (sql_view S.Store self.new).records) }
        ensures tables { (sql_view S.Store self.new).is_intact → (sql_view S.Store self.old).is_laid_out → OnOk result
            ((state S.Store self.new.conn).now.schema ≡ (state S.Store self.old.conn).now.schema) }
    {
        let _outside = self.conn.is_autocommit();
        let done = commits::commit(&mut self.conn, &mut self.known.lists, changes);
        let _rests = self.conn.is_autocommit();
        // The database is sound.
        let _live = self.conn.schema();
        or_fault(&mut self.failures, &mut self.known, done)?;
        self.known.follow(changes);
        Ok(())
    }
}
