//! A room of version 1 becomes one of version 2.

ghost use Rattle.std.specs.Prelude.{◌≡◌, ◌≢◌, ◌≤◌, ◌-◌, ◌^◌, length, OnOk, OnErr, IfOk, true, false, IsTrue, MatchBool};
ghost use Rattle.sqlite.specs.Effect.{Database, IsDatabase};
ghost use Rattle.sqlite.specs.State.{HasCleanDisk};
ghost use Rattle.sqlite.specs.Held.{state};
ghost use Rattle.room_tables.specs.Rows.{records_of};
ghost use Rattle.room_tables.specs.Layout.{IsRoomOfVersion1};
ghost use Rattle.room_tables.specs.Upgrade.{others_than, LeavesFewer, IsShared, IsMoving, IsMovedOut, CopiesRow};
ghost use Rattle.room_tables.specs.Upgrade.{IsMoved, IsUpgraded, MayBeUpgraded, MayBeMovedWith};
ghost use Rattle.room_sql.specs.Frames.{InsideFrame, CommitFrame};

use crate::reads::next_id;
use crate::tables::make_kept;
use crate::writes::{put_next, run};
use sqlite::{Alter, Connection, Error, ErrorCode, Transaction, params};

/// Copies one row of `slot`, with its reply and its rowid, if there is one.
fn copy_row<S: Alter>(tx: &mut Transaction<'_, S>) -> Result<(), Error>
    ensures frame { InsideFrame S.Store tx.old tx.new result }
    ensures ok { HasCleanDisk (state S.Store tx.new.conn.now)
        → OnOk result ((before : Database) → IsMoving before (state S.Store tx.old.conn.now).now →
        CopiesRow before (state S.Store tx.new.conn.now)) }
    ensures fewer { HasCleanDisk (state S.Store tx.new.conn.now)
        → OnOk result ((before : Database) → IsMoving before (state S.Store tx.old.conn.now).now →
        (state S.Store tx.new.conn.now).changes ≢ 0 → LeavesFewer (state S.Store tx.old.conn.now).now
        (others_than (state S.Store tx.new.conn.now).last_rowid ((state S.Store tx.new.conn.now).now.trees 8))) }
{
    run(
        tx,
        "INSERT INTO kept (rowid, sid, slot, seq, request, reply) SELECT rowid, sid, slot, seq, request, reply \
         FROM slot LIMIT 1",
        &[],
    )
}

/// Takes the row with this rowid out of `slot`.
fn take_row<S: Alter>(tx: &mut Transaction<'_, S>, id: i64) -> Result<(), Error>
    ensures frame { InsideFrame S.Store tx.old tx.new result }
    ensures ok { HasCleanDisk (state S.Store tx.new.conn.now)
        → OnOk result ((before : Database) → IsShared before (state S.Store tx.old.conn.now).now
        (others_than id ((state S.Store tx.old.conn.now).now.trees 8)) →
        IsMoving before (state S.Store tx.new.conn.now).now) }
    ensures left { HasCleanDisk (state S.Store tx.new.conn.now)
        → OnOk result ((before : Database) → IsShared before (state S.Store tx.old.conn.now).now
        (others_than id ((state S.Store tx.old.conn.now).now.trees 8)) → (state S.Store tx.new.conn.now).now.trees 8
        ≡ others_than id ((state S.Store tx.old.conn.now).now.trees 8)) }
{
    run(tx, "DELETE FROM slot WHERE rowid = ?1", params![id])
}

/// Moves one row from `slot` to `kept`, and answers whether there was one. It is a fault where not just this row was
/// taken away, as it may be in a table of another form, with a column by the name `rowid`.
fn move_row<S: Alter>(tx: &mut Transaction<'_, S>) -> Result<bool, Error>
    ensures frame { InsideFrame S.Store tx.old tx.new result }
    ensures ok { HasCleanDisk (state S.Store tx.new.conn.now)
        → IfOk result (λ more. (before : Database) → IsMoving before (state S.Store tx.old.conn.now).now →
        MatchBool more (IsMoving before (state S.Store tx.new.conn.now).now)
        (IsMovedOut before (state S.Store tx.new.conn.now).now)) }
    ensures fewer { HasCleanDisk (state S.Store tx.new.conn.now)
        → IfOk result (λ more. (before : Database) → IsMoving before (state S.Store tx.old.conn.now).now → IsTrue more →
        LeavesFewer (state S.Store tx.old.conn.now).now ((state S.Store tx.new.conn.now).now.trees 8)) }
{
    copy_row(tx)?;
    if tx.changes() == 0 {
        return Ok(false);
    }
    let id = tx.last_insert_rowid();
    take_row(tx, id)?;
    if tx.changes() != 1 {
        return Err(Error::SqliteFailure(ErrorCode::NotADatabase));
    }
    Ok(true)
}

/// Moves row after row until none is left, so that never more than one of them is in memory. Each pass takes one away.
/// Answers false where there are 2^64 - 1 rows or more, which is more than a file holds.
fn move_rows<S: Alter>(tx: &mut Transaction<'_, S>) -> Result<bool, Error>
    requires { HasCleanDisk (state S.Store tx.old.conn.now) → tx.old.conn.now.in_transaction ≡ true }
    ensures frame { InsideFrame S.Store tx.old tx.new result }
    ensures ok { HasCleanDisk (state S.Store tx.new.conn.now)
        → IfOk result (λ all. (before : Database) → IsMoving before (state S.Store tx.old.conn.now).now →
        MatchBool all (IsMovedOut before (state S.Store tx.new.conn.now).now)
        (2 ^ 64 - 1 ≤ length ((state S.Store tx.old.conn.now).now.trees 8))) }
{
    'rows: for _ in 0..u64::MAX {
        if !move_row(tx)? {
            return Ok(true);
        }
    }
    Ok(false)
}

/// Moves what slots keep from the one table to the other. The table `slot` stays, and is not read again.
fn move_slots<S: Alter>(tx: &mut Transaction<'_, S>) -> Result<(), Error>
    ensures frame { InsideFrame S.Store tx.old tx.new result }
    ensures ok { HasCleanDisk (state S.Store tx.new.conn.now)
        → OnOk result (IsTrue (state S.Store tx.old.conn.now).is_open
        × (IsRoomOfVersion1 (state S.Store tx.old.conn.now).now → IsDatabase (state S.Store tx.old.conn.now).now →
        IsMoved (state S.Store tx.old.conn.now).now (state S.Store tx.new.conn.now).now)) }
{
    make_kept(tx)?;
    if move_rows(tx)? {
        Ok(())
    } else {
        Err(Error::SqliteFailure(ErrorCode::TooBig))
    }
}

/// Moves the slots, and sets the version beside the next number that is there.
fn move_room<S: Alter>(tx: &mut Transaction<'_, S>, next: u32) -> Result<(), Error>
    ensures frame { InsideFrame S.Store tx.old tx.new result }
    ensures ok { HasCleanDisk (state S.Store tx.new.conn.now)
        → OnOk result (IsTrue (state S.Store tx.old.conn.now).is_open
        × (IsRoomOfVersion1 (state S.Store tx.old.conn.now).now → IsDatabase (state S.Store tx.old.conn.now).now →
        (records_of (state S.Store tx.old.conn.now).now.trees).objects.next ≡ next →
        IsUpgraded (state S.Store tx.old.conn.now).now (state S.Store tx.new.conn.now).now)) }
{
    move_slots(tx)?;
    put_next(tx, next)
}

/// The same in one transaction: all of it or nothing, also over a crash.
fn commit_move<S: Alter>(conn: &mut Connection<S>, next: u32) -> Result<(), Error>
    requires { conn.old.in_transaction ≡ false }
    ensures frame { CommitFrame S.Store (MayBeMovedWith next) conn.old conn.new result }
    ensures ok { HasCleanDisk (state S.Store conn.new)
        → OnOk result (IsTrue (state S.Store conn.new).is_open × (IsRoomOfVersion1 (state S.Store conn.old).now →
        (records_of (state S.Store conn.old).now.trees).objects.next ≡ next →
        IsUpgraded (state S.Store conn.old).now (state S.Store conn.new).now)) }
    ensures err { HasCleanDisk (state S.Store conn.new) → IsTrue (state S.Store conn.new).is_open
        → OnErr result ((state S.Store conn.new).now ≡ (state S.Store conn.old).committed) }
{
    // The database is sound.
    let _live = conn.schema();
    let mut tx = conn.transaction();
    move_room(&mut tx, next)?;
    tx.commit()
}

/// Makes a room of version 2 of one of version 1, with the same records, or nothing.
pub(crate) fn upgrade<S: Alter>(conn: &mut Connection<S>) -> Result<(), Error>
    requires { conn.old.in_transaction ≡ false }
    ensures frame { CommitFrame S.Store MayBeUpgraded conn.old conn.new result }
    ensures ok { HasCleanDisk (state S.Store conn.new)
        → OnOk result (IsTrue (state S.Store conn.new).is_open × (IsRoomOfVersion1 (state S.Store conn.old).now →
        IsUpgraded (state S.Store conn.old).now (state S.Store conn.new).now)) }
    ensures err { HasCleanDisk (state S.Store conn.new) → IsTrue (state S.Store conn.new).is_open
        → (state S.Store conn.old).now ≡ (state S.Store conn.old).committed
        → OnErr result ((state S.Store conn.new).now ≡ (state S.Store conn.old).now) }
{
    let next = next_id(conn)?;
    // Outside a transaction what is seen is what was committed.
    let _outside = conn.is_autocommit();
    commit_move(conn, next)
}
