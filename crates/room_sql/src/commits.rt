//! The changes of a commit, one after another.

ghost use Rattle.std.specs.Prelude.{◌≡◌, OnOk, OnErr, true, false, IsTrue};
ghost use Rattle.sqlite.specs.State.{HasCleanDisk, Survives};
ghost use Rattle.sqlite.specs.Held.{state};
ghost use Rattle.room_records.specs.Changes.{apply_changes};
ghost use Rattle.room_tables.specs.Rows.{version_rows, IsVersion};
ghost use Rattle.room_tables.specs.Layout.{IsRoomDatabase};
ghost use Rattle.room_tables.specs.Steps.{Steps, SeesSound, MayBecome, StaysRoom};
ghost use Rattle.room_sql.specs.NewObject.{after_change, NoEntriesIfKnown};
ghost use Rattle.room_sql.specs.Frames.{InsideFrame, CommitFrame};
ghost use Rattle.room_sql.specs.NodeRows.{IsNewIfKnown, MakesChange, AfterAll};
ghost use Rattle.room_sql.specs.ReadLists.{AreStored, IsKeptFor};
ghost use Rattle.room_sql.specs.declared.new_object.NewObject.TheVariants.{Unknown};

use crate::new_object::NewObject;
use crate::read_lists::ReadLists;
use crate::writes::{
    drop_node, drop_slots, put_doc, put_entries, put_kept, put_new_doc, put_new_entries,
    put_new_node, put_next, put_node, put_session, put_slot,
};
use room_acl::Entry;
use room_records::Change;
use sqlite::{Alter, Connection, Error, Transaction};

/// Makes a change. Where what is known of the object leaves no row to be sought, rows are added alone.
fn apply<S: Alter>(
    tx: &mut Transaction<'_, S>,
    object: NewObject,
    change: &Change,
) -> Result<(), Error>
    requires { HasCleanDisk (state S.Store tx.old.conn.now) → tx.old.conn.now.in_transaction ≡ true }
    ensures frame { InsideFrame S.Store tx.old tx.new result }
    ensures ok { HasCleanDisk (state S.Store tx.new.conn.now)
        → OnOk result (IsRoomDatabase (state S.Store tx.old.conn.now).now → SeesSound (state S.Store tx.old.conn.now) →
        NoEntriesIfKnown object (state S.Store tx.old.conn.now).now.trees →
        MakesChange change.now (state S.Store tx.old.conn.now) (state S.Store tx.new.conn.now)
        × IsNewIfKnown object change.now ((state S.Store tx.old.conn.now).now.trees 1)
        × NoEntriesIfKnown (after_change object change.now) (state S.Store tx.new.conn.now).now.trees) }
{
    match change {
        Change::PutNode(node) if object.is_new(node.id) => put_new_node(tx, node),
        Change::PutNode(node) => put_node(tx, node),
        Change::DropNode(id) => drop_node(tx, *id),
        Change::PutEntries(id, entries) if object.lacks_entries(*id) => put_new_entries(
            tx, *id, entries,
        ),
        Change::PutEntries(id, entries) => put_entries(tx, *id, entries),
        Change::PutDoc(id, bytes) if object.lacks_doc(*id) => put_new_doc(tx, *id, bytes),
        Change::PutDoc(id, bytes) => put_doc(tx, *id, bytes),
        Change::PutSession(row) => put_session(tx, row),
        Change::PutSlot(row) => put_slot(tx, row),
        Change::DropSlots(sid) => drop_slots(tx, sid),
        Change::PutNext(next) => put_next(tx, *next),
    }
}

/// Makes a change, and where the list that it replaces was kept, reads none.
fn apply_over<S: Alter>(
    tx: &mut Transaction<'_, S>,
    object: NewObject,
    kept: Option<Vec<Entry>>,
    change: &Change,
) -> Result<(), Error>
    requires { HasCleanDisk (state S.Store tx.old.conn.now) → tx.old.conn.now.in_transaction ≡ true }
    ensures frame { InsideFrame S.Store tx.old tx.new result }
    ensures ok { HasCleanDisk (state S.Store tx.new.conn.now)
        → OnOk result (IsRoomDatabase (state S.Store tx.old.conn.now).now → SeesSound (state S.Store tx.old.conn.now) →
        NoEntriesIfKnown object (state S.Store tx.old.conn.now).now.trees →
        IsKeptFor kept change.now (state S.Store tx.old.conn.now).now.trees →
        MakesChange change.now (state S.Store tx.old.conn.now) (state S.Store tx.new.conn.now)
        × IsNewIfKnown object change.now ((state S.Store tx.old.conn.now).now.trees 1)
        × NoEntriesIfKnown (after_change object change.now) (state S.Store tx.new.conn.now).now.trees) }
{
    if let Some(stored) = kept {
        if let Change::PutEntries(id, entries) = change {
            return put_kept(tx, *id, stored.as_slice(), entries);
        }
    }
    apply(tx, object, change)
}

fn apply_all<S: Alter>(
    tx: &mut Transaction<'_, S>,
    lists: &mut ReadLists,
    changes: &[Change],
) -> Result<(), Error>
    requires inside { tx.old.conn.now.in_transaction ≡ true }
    requires sound { SeesSound (state S.Store tx.old.conn.now) }
    ensures frame { InsideFrame S.Store tx.old tx.new result }
    ensures ok { HasCleanDisk (state S.Store tx.new.conn.now)
        → OnOk result (IsRoomDatabase (state S.Store tx.old.conn.now).now →
        AreStored lists.old (state S.Store tx.old.conn.now).now.trees →
        Steps (state S.Store tx.old.conn.now) (state S.Store tx.new.conn.now) (apply_changes changes.now)) }
    ensures nodes { HasCleanDisk (state S.Store tx.new.conn.now)
        → OnOk result (IsRoomDatabase (state S.Store tx.old.conn.now).now →
        AreStored lists.old (state S.Store tx.old.conn.now).now.trees → AfterAll Unknown changes.now
        ((state S.Store tx.old.conn.now).now.trees 1) ((state S.Store tx.new.conn.now).now.trees 1)) }
{
    let mut known = NewObject::Unknown;
    for change in changes {
        let kept = lists.before(change);
        apply_over(tx, known, kept, change)?;
        known = known.after(change);
    }
    Ok(())
}

/// All changes in order, or none, also over a crash. These lists are as the rows are before them.
pub(crate) fn commit<S: Alter>(
    conn: &mut Connection<S>,
    lists: &mut ReadLists,
    changes: &[Change],
) -> Result<(), Error>
    requires { conn.old.in_transaction ≡ false }
    ensures frame { CommitFrame S.Store (λ db trees. AreStored lists.old db.trees → MayBecome changes.now db trees)
        conn.old conn.new result }
    ensures ok { HasCleanDisk (state S.Store conn.new)
        → OnOk result (IsTrue (state S.Store conn.new).is_open × (IsRoomDatabase (state S.Store conn.old).now →
        AreStored lists.old (state S.Store conn.old).now.trees → IsRoomDatabase (state S.Store conn.new).now
        × MayBecome changes.now (state S.Store conn.old).now (state S.Store conn.new).now.trees)) }
    ensures nodes { HasCleanDisk (state S.Store conn.new) → OnOk result (IsRoomDatabase (state S.Store conn.old).now
        → AreStored lists.old (state S.Store conn.old).now.trees
        → AfterAll Unknown changes.now ((state S.Store conn.old).now.trees 1) ((state S.Store conn.new).now.trees 1)) }
    ensures version { HasCleanDisk (state S.Store conn.new) → OnOk result (IsRoomDatabase (state S.Store conn.old).now
        → AreStored lists.old (state S.Store conn.old).now.trees
        → IsVersion 2 (version_rows (state S.Store conn.old).now.trees) →
        IsVersion 2 (version_rows (state S.Store conn.new).now.trees)) }
    ensures schema { HasCleanDisk (state S.Store conn.new) → OnOk result (IsRoomDatabase (state S.Store conn.old).now
        → AreStored lists.old (state S.Store conn.old).now.trees
        → (state S.Store conn.new).now.schema ≡ (state S.Store conn.old).now.schema) }
    ensures stays { Survives (state S.Store conn.old) (state S.Store conn.new)
        (λ trees. AreStored lists.old (state S.Store conn.old).now.trees
        → StaysRoom (state S.Store conn.old).now trees) }
    ensures err { HasCleanDisk (state S.Store conn.new) → IsTrue (state S.Store conn.new).is_open
        → OnErr result ((state S.Store conn.new).now ≡ (state S.Store conn.old).committed) }
{
    // The database is sound.
    let _live = conn.schema();
    let mut tx = conn.transaction();
    apply_all(&mut tx, lists, changes)?;
    tx.commit()
}
