//! The tables, and a fresh room in them.

ghost use Rattle.std.specs.Prelude.{◌≡◌, [], OnOk, OnErr, false, IsTrue};
ghost use Rattle.sqlite_trees.specs.Tree.{no_trees};
ghost use Rattle.sqlite.specs.Effect.{Database, IsDatabase};
ghost use Rattle.sqlite.specs.State.{HasCleanDisk};
ghost use Rattle.sqlite.specs.Held.{state};
ghost use Rattle.room_records.specs.Changes.{apply_change};
ghost use Rattle.room_records.specs.declared.change.Change.TheVariants.{PutNode, PutEntries, PutNext};
ghost use Rattle.room_tables.specs.Tables.{schema_0, schema_1, schema_2, schema_3, schema_4, schema_5};
ghost use Rattle.room_tables.specs.Tables.{Fresh, room_schema, first_schema};
ghost use Rattle.room_tables.specs.Tables.{has_a_table};
ghost use Rattle.room_tables.specs.Beside.{IsBeside, AddsTables, Fills, six};
ghost use Rattle.room_tables.specs.Upgrade.{IsWidened};
ghost use Rattle.room_tables.specs.Rows.{version_rows, IsVersion};
ghost use Rattle.room_tables.specs.Layout.{IsRoomDatabase};
ghost use Rattle.room_tables.specs.Steps.{Steps};
ghost use Rattle.room_tables.specs.Fresh.{IsMade, IsFresh, IsFilled, IsFreshRoom, MayBeFilled, MayBeMade, filled};
ghost use Rattle.room_tables.specs.Fresh.{StandForNext, StandsBeside};
ghost use Rattle.room_sql.specs.Frames.{InsideFrame, CommitFrame};
ghost use Rattle.room_sql.specs.NodeRows.{MakesChange};

use crate::writes::{put_new_entries, put_new_node, run};
use room_acl::{Entry, Principal};
use room_records::{Node, fresh_entries, fresh_root};
use sqlite::{Alter, Connection, Error, Transaction, params};
use std::alloc::Global;

fn make_room<S: Alter>(tx: &mut Transaction<'_, S>) -> Result<(), Error>
    ensures frame { InsideFrame S.Store tx.old tx.new result }
    ensures ok { HasCleanDisk (state S.Store tx.new.conn.now)
        → OnOk result (tx.old.conn.now.schema ≡ schema_0 → IsMade schema_1 (state S.Store tx.new.conn.now).now) }
    ensures spares { HasCleanDisk (state S.Store tx.new.conn.now) → OnOk result
        (AddsTables schema_0 schema_1 (state S.Store tx.old.conn.now).now (state S.Store tx.new.conn.now).now) }
{
    tx.execute(
        "CREATE TABLE room (one INTEGER PRIMARY KEY CHECK (one = 1), version INTEGER NOT NULL, \
         next INTEGER NOT NULL) STRICT",
        &[],
    )?;
    Ok(())
}

fn make_node<S: Alter>(tx: &mut Transaction<'_, S>) -> Result<(), Error>
    ensures frame { InsideFrame S.Store tx.old tx.new result }
    ensures ok { HasCleanDisk (state S.Store tx.new.conn.now) → OnOk result
        (IsMade schema_1 (state S.Store tx.old.conn.now).now → IsMade schema_2 (state S.Store tx.new.conn.now).now) }
    ensures spares { HasCleanDisk (state S.Store tx.new.conn.now) → OnOk result
        (AddsTables schema_1 schema_2 (state S.Store tx.old.conn.now).now (state S.Store tx.new.conn.now).now) }
{
    tx.execute(
        "CREATE TABLE node (id INTEGER PRIMARY KEY, parent INTEGER REFERENCES node(id), name TEXT NOT NULL, \
         kind INTEGER NOT NULL CHECK (kind = 0 OR kind = 1), owner TEXT NOT NULL, grp TEXT NOT NULL, \
         aclflag INTEGER NOT NULL CHECK (aclflag >= 0 AND aclflag <= 7), UNIQUE (parent, name)) STRICT",
        &[],
    )?;
    Ok(())
}

fn make_entry<S: Alter>(tx: &mut Transaction<'_, S>) -> Result<(), Error>
    ensures frame { InsideFrame S.Store tx.old tx.new result }
    ensures ok { HasCleanDisk (state S.Store tx.new.conn.now) → OnOk result
        (IsMade schema_2 (state S.Store tx.old.conn.now).now → IsMade schema_3 (state S.Store tx.new.conn.now).now) }
    ensures spares { HasCleanDisk (state S.Store tx.new.conn.now) → OnOk result
        (AddsTables schema_2 schema_3 (state S.Store tx.old.conn.now).now (state S.Store tx.new.conn.now).now) }
{
    tx.execute(
        "CREATE TABLE entry (node INTEGER NOT NULL REFERENCES node(id) ON DELETE CASCADE, \
         place INTEGER NOT NULL, type INTEGER NOT NULL CHECK (type = 0 OR type = 1), flag INTEGER NOT NULL, \
         mask INTEGER NOT NULL, who TEXT NOT NULL, PRIMARY KEY (node, place)) STRICT",
        &[],
    )?;
    Ok(())
}

fn make_doc<S: Alter>(tx: &mut Transaction<'_, S>) -> Result<(), Error>
    ensures frame { InsideFrame S.Store tx.old tx.new result }
    ensures ok { HasCleanDisk (state S.Store tx.new.conn.now) → OnOk result
        (IsMade schema_3 (state S.Store tx.old.conn.now).now → IsMade schema_4 (state S.Store tx.new.conn.now).now) }
    ensures spares { HasCleanDisk (state S.Store tx.new.conn.now) → OnOk result
        (AddsTables schema_3 schema_4 (state S.Store tx.old.conn.now).now (state S.Store tx.new.conn.now).now) }
{
    tx.execute(
        "CREATE TABLE doc (node INTEGER PRIMARY KEY REFERENCES node(id) ON DELETE CASCADE, bytes BLOB NOT NULL) STRICT",
        &[],
    )?;
    Ok(())
}

fn make_session<S: Alter>(tx: &mut Transaction<'_, S>) -> Result<(), Error>
    ensures frame { InsideFrame S.Store tx.old tx.new result }
    ensures ok { HasCleanDisk (state S.Store tx.new.conn.now) → OnOk result
        (IsMade schema_4 (state S.Store tx.old.conn.now).now → IsMade schema_5 (state S.Store tx.new.conn.now).now) }
    ensures spares { HasCleanDisk (state S.Store tx.new.conn.now) → OnOk result
        (AddsTables schema_4 schema_5 (state S.Store tx.old.conn.now).now (state S.Store tx.new.conn.now).now) }
{
    tx.execute(
        "CREATE TABLE session (sid TEXT PRIMARY KEY NOT NULL, owner TEXT NOT NULL, slots INTEGER NOT NULL, \
         open INTEGER NOT NULL CHECK (open = 0 OR open = 1)) STRICT",
        &[],
    )?;
    Ok(())
}

/// Makes `kept`, in a fresh room or beside the tables of version 1.
pub(crate) fn make_kept<S: Alter>(tx: &mut Transaction<'_, S>) -> Result<(), Error>
    ensures frame { InsideFrame S.Store tx.old tx.new result }
    ensures ok { HasCleanDisk (state S.Store tx.new.conn.now)
        → OnOk result (IsMade schema_5 (state S.Store tx.old.conn.now).now →
        IsMade (room_schema Fresh) (state S.Store tx.new.conn.now).now) }
    ensures beside { HasCleanDisk (state S.Store tx.new.conn.now) → OnOk result
        (IsTrue (state S.Store tx.old.conn.now).is_open × (tx.old.conn.now.schema ≡ first_schema →
        IsWidened (state S.Store tx.old.conn.now).now (state S.Store tx.new.conn.now).now)) }
    ensures spares { HasCleanDisk (state S.Store tx.new.conn.now) → OnOk result (AddsTables schema_5
        (room_schema Fresh) (state S.Store tx.old.conn.now).now (state S.Store tx.new.conn.now).now) }
{
    run(
        tx,
        "CREATE TABLE kept (sid TEXT NOT NULL REFERENCES session(sid), slot INTEGER NOT NULL, \
         seq INTEGER NOT NULL, request BLOB NOT NULL, reply BLOB, PRIMARY KEY (sid, slot)) STRICT",
        &[],
    )
}

fn make_half<S: Alter>(tx: &mut Transaction<'_, S>) -> Result<(), Error>
    ensures frame { InsideFrame S.Store tx.old tx.new result }
    ensures ok { HasCleanDisk (state S.Store tx.new.conn.now)
        → OnOk result (tx.old.conn.now.schema ≡ schema_0 → IsMade schema_3 (state S.Store tx.new.conn.now).now) }
    ensures spares { HasCleanDisk (state S.Store tx.new.conn.now) → OnOk result
        (AddsTables schema_0 schema_3 (state S.Store tx.old.conn.now).now (state S.Store tx.new.conn.now).now) }
{
    make_room(tx)?;
    make_node(tx)?;
    make_entry(tx)
}

fn make_tables<S: Alter>(tx: &mut Transaction<'_, S>) -> Result<(), Error>
    ensures frame { InsideFrame S.Store tx.old tx.new result }
    ensures ok { HasCleanDisk (state S.Store tx.new.conn.now)
        → OnOk result (tx.old.conn.now.schema ≡ schema_0
        → IsMade (room_schema Fresh) (state S.Store tx.new.conn.now).now) }
    ensures spares { HasCleanDisk (state S.Store tx.new.conn.now) → OnOk result (AddsTables schema_0
        (room_schema Fresh) (state S.Store tx.old.conn.now).now (state S.Store tx.new.conn.now).now) }
{
    make_half(tx)?;
    make_doc(tx)?;
    make_session(tx)?;
    make_kept(tx)
}

/// Puts the next number into a table that has no row, in a row of version 2.
fn put_first_next<S: Alter>(tx: &mut Transaction<'_, S>, next: u32) -> Result<(), Error>
    ensures frame { InsideFrame S.Store tx.old tx.new result }
    ensures ok { HasCleanDisk (state S.Store tx.new.conn.now)
        → OnOk result (IsRoomDatabase (state S.Store tx.old.conn.now).now →
        MakesChange (PutNext next) (state S.Store tx.old.conn.now) (state S.Store tx.new.conn.now)
        × IsVersion 2 (version_rows (state S.Store tx.new.conn.now).now.trees)
        × IsDatabase (state S.Store tx.new.conn.now).now) }
    ensures spares { HasCleanDisk (state S.Store tx.new.conn.now)
        → OnOk result (Fills 0 (λ rows. rows ≡ []) (StandForNext next)
        (state S.Store tx.old.conn.now).now (state S.Store tx.new.conn.now).now) }
    ensures sound { HasCleanDisk (state S.Store tx.new.conn.now)
        → OnOk result (IsDatabase (state S.Store tx.new.conn.now).now) }
{
    run(
        tx,
        "INSERT INTO room (one, version, next) VALUES (1, 2, ?1)",
        params![next],
    )
}

/// Fills tables that were just made.
fn fill<S: Alter>(
    tx: &mut Transaction<'_, S>,
    root: &Node,
    entries: &Vec<Entry>,
) -> Result<(), Error>
    requires { root.now.id ≡ 1 }
    ensures frame { InsideFrame S.Store tx.old tx.new result }
    ensures ok { HasCleanDisk (state S.Store tx.new.conn.now)
        → OnOk result (IsRoomDatabase (state S.Store tx.old.conn.now).now →
        IsDatabase (state S.Store tx.old.conn.now).now →
        Steps (state S.Store tx.old.conn.now) (state S.Store tx.new.conn.now) (λ r.
        apply_change (PutNext 2) (apply_change (PutEntries 1 entries.now) (apply_change (PutNode root.now) r)))
        × IsVersion 2 (version_rows (state S.Store tx.new.conn.now).now.trees)
        × IsDatabase (state S.Store tx.new.conn.now).now) }
    ensures spares { HasCleanDisk (state S.Store tx.new.conn.now)
        → OnOk result ((before : Database) → has_a_table before.schema ≡ false →
        IsBeside six no_trees before (state S.Store tx.old.conn.now).now →
        StandsBeside (λ r. r ≡ filled root.now entries.now) before (state S.Store tx.new.conn.now).now) }
{
    put_new_node(tx, root)?;
    put_new_entries(tx, 1, entries)?;
    put_first_next(tx, 2)
}

fn make_fresh<S: Alter>(
    tx: &mut Transaction<'_, S>,
    root: &Node,
    entries: &Vec<Entry>,
) -> Result<(), Error>
    requires { root.now.id ≡ 1 }
    ensures frame { InsideFrame S.Store tx.old tx.new result }
    ensures ok { HasCleanDisk (state S.Store tx.new.conn.now)
        → OnOk result (tx.old.conn.now.schema ≡ schema_0 →
        IsFilled root.now entries.now (state S.Store tx.new.conn.now).now) }
    ensures spares { HasCleanDisk (state S.Store tx.new.conn.now)
        → OnOk result (has_a_table tx.old.conn.now.schema ≡ false →
        StandsBeside (λ r. r ≡ filled root.now entries.now)
        (state S.Store tx.old.conn.now).now (state S.Store tx.new.conn.now).now) }
{
    make_tables(tx)?;
    fill(tx, root, entries)
}

fn commit_fresh<S: Alter>(
    conn: &mut Connection<S>,
    root: &Node,
    entries: &Vec<Entry>,
) -> Result<(), Error>
    requires outside { conn.old.in_transaction ≡ false }
    requires first { root.now.id ≡ 1 }
    ensures frame { CommitFrame S.Store (MayBeFilled root.now entries.now) conn.old conn.new result }
    ensures ok { HasCleanDisk (state S.Store conn.new)
        → OnOk result (IsTrue (state S.Store conn.new).is_open × (conn.old.schema ≡ schema_0 →
        IsFilled root.now entries.now (state S.Store conn.new).now)) }
    ensures err { HasCleanDisk (state S.Store conn.new) → IsTrue (state S.Store conn.new).is_open
        → OnErr result ((state S.Store conn.new).now ≡ (state S.Store conn.old).committed) }
    ensures spares { HasCleanDisk (state S.Store conn.new) → OnOk result (has_a_table conn.old.schema ≡ false →
        StandsBeside (λ r. r ≡ filled root.now entries.now)
        (state S.Store conn.old).now (state S.Store conn.new).now) }
{
    let mut tx = conn.transaction();
    make_fresh(&mut tx, root, entries)?;
    tx.commit()
}

/// Makes the tables and a fresh room in one transaction, or nothing.
pub(crate) fn make<S: Alter>(
    conn: &mut Connection<S>,
    alloc: Global,
    owner: &Principal,
    group: &Principal,
) -> Result<(), Error>
    requires { conn.old.in_transaction ≡ false }
    ensures frame { CommitFrame S.Store (MayBeMade owner.now group.now) conn.old conn.new result }
    ensures ok { HasCleanDisk (state S.Store conn.new)
        → OnOk result (IsTrue (state S.Store conn.new).is_open × (conn.old.schema ≡ schema_0 →
        IsFreshRoom owner.now group.now (state S.Store conn.new).now)) }
    ensures err { HasCleanDisk (state S.Store conn.new) → IsTrue (state S.Store conn.new).is_open
        → (state S.Store conn.old).now ≡ (state S.Store conn.old).committed
        → OnErr result ((state S.Store conn.new).now ≡ (state S.Store conn.old).now) }
    ensures spares { HasCleanDisk (state S.Store conn.new) → OnOk result (has_a_table conn.old.schema ≡ false →
        StandsBeside (IsFresh owner.now group.now) (state S.Store conn.old).now (state S.Store conn.new).now) }
{
    let root = fresh_root(owner.clone()?, group.clone()?);
    let entries = fresh_entries(alloc)?;
    commit_fresh(conn, &root, &entries)
}
