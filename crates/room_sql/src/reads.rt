//! What a room's rows tell, outside a transaction: each read is one query, and its rows as values of a room.

ghost use Rattle.std.specs.Prelude.{◌≡◌, List, [], IfOk, unwrap_or, length, true};
ghost use Rattle.sqlite.specs.State.{HasCleanDisk};
ghost use Rattle.sqlite.specs.Held.{state};
ghost use Rattle.sqlite.specs.Table.{Table};
ghost use Rattle.room_slots.specs.Slots.{kept_seq};
ghost use Rattle.room_records.specs.Shelf.{AreChildren, IsChildNamed};
ghost use Rattle.room_tables.specs.Tables.{with_last};
ghost use Rattle.room_tables.specs.Rows.{records_of};
ghost use Rattle.room_sql.specs.Frames.{QueryFrame, TellsRoom};
ghost use Rattle.room_sql.specs.NodeFacts.{AreListed};
ghost use Rattle.room_sql.specs.NodeRows.{in_folder};
ghost use Rattle.room_sql.specs.ReadLists.{IsStored};

use crate::rows::{
    StoredList, all_entries, all_names, all_nodes, first_node, one_count, one_doc, one_kept,
    one_node, one_number, one_seq, one_session, one_size,
};
use room_acl::Kind;
use room_records::{FileName, Node, SessionRow, Sid};
use room_slots::Kept;
use sqlite::{Alter, Connection, Error, params};
use std::alloc::Global;

/// The node with the number.
pub(crate) fn node<S: Alter>(
    alloc: Global,
    conn: &mut Connection<S>,
    id: u32,
) -> Result<Option<Node>, Error>
    ensures frame { QueryFrame (state S.Store conn.old) (state S.Store conn.new) result }
    ensures value { TellsRoom (state S.Store conn.old) (state S.Store conn.new) result
        (λ trees found. found ≡ (records_of trees).objects.node id) }
{
    let rows = conn.query_all(
        "SELECT id, parent, name, kind, owner, grp, aclflag FROM node WHERE id = ?1",
        params![id],
    )?;
    one_node(alloc, rows.as_slice())
}

/// The node in a folder that has a name.
pub(crate) fn child<S: Alter>(
    alloc: Global,
    conn: &mut Connection<S>,
    parent: u32,
    name: &FileName,
) -> Result<Option<Node>, Error>
    ensures frame { QueryFrame (state S.Store conn.old) (state S.Store conn.new) result }
    ensures value { TellsRoom (state S.Store conn.old) (state S.Store conn.new) result
        (λ trees found. IsChildNamed (records_of trees).objects parent name.now found) }
{
    let rows = conn.query_all(
        "SELECT id, parent, name, kind, owner, grp, aclflag FROM node WHERE parent = ?1 AND name = ?2",
        params![parent, name.text()],
    )?;
    first_node(alloc, rows.as_slice())
}

/// The nodes in a folder, in order of their names.
pub(crate) fn children<S: Alter>(
    alloc: Global,
    conn: &mut Connection<S>,
    parent: u32,
) -> Result<Vec<Node>, Error>
    ensures frame { QueryFrame (state S.Store conn.old) (state S.Store conn.new) result }
    ensures value { TellsRoom (state S.Store conn.old) (state S.Store conn.new) result
        (λ trees found. AreChildren (records_of trees).objects parent found.items) }
{
    let rows = conn.query_all(
        "SELECT id, parent, name, kind, owner, grp, aclflag FROM node WHERE parent = ?1 ORDER BY name",
        params![parent],
    )?;
    all_nodes(alloc, rows.as_slice())
}

/// The names and kinds in a folder, in order of the names. No other column is read.
pub(crate) fn names<S: Alter>(
    alloc: Global,
    conn: &mut Connection<S>,
    parent: u32,
) -> Result<Vec<(FileName, Kind)>, Error>
    ensures frame { QueryFrame (state S.Store conn.old) (state S.Store conn.new) result }
    ensures value { TellsRoom (state S.Store conn.old) (state S.Store conn.new) result
        (λ trees found. AreListed parent (trees 1) found.items) }
{
    let rows = conn.query_all(
        "SELECT name, kind FROM node WHERE parent = ?1 ORDER BY name",
        params![parent],
    )?;
    all_names(alloc, rows.as_slice())
}

/// How many rows a folder has.
pub(crate) fn child_count<S: Alter>(conn: &mut Connection<S>, parent: u32) -> Result<u64, Error>
    ensures frame { QueryFrame (state S.Store conn.old) (state S.Store conn.new) result }
    ensures value { TellsRoom (state S.Store conn.old) (state S.Store conn.new) result
        (λ trees count. count ≡ in_folder parent (trees 1)) }
{
    let rows = conn.query_all(
        "SELECT count(*) FROM node WHERE parent = ?1",
        params![parent],
    )?;
    one_count(rows.as_slice())
}

/// The entries of an object, in their order.
pub(crate) fn entries<S: Alter>(
    alloc: Global,
    conn: &mut Connection<S>,
    id: u32,
) -> Result<StoredList, Error>
    ensures frame { QueryFrame (state S.Store conn.old) (state S.Store conn.new) result }
    ensures value { TellsRoom (state S.Store conn.old) (state S.Store conn.new) result
        (λ trees list. list.entries.items ≡ (records_of trees).objects.entries id) }
    ensures stored { TellsRoom (state S.Store conn.old) (state S.Store conn.new) result
        (λ trees list. list.is_placed ≡ true → IsStored id list.entries.items trees) }
{
    let rows = conn.query_all(
        "SELECT place, type, flag, mask, who FROM entry WHERE node = ?1 ORDER BY place, type, flag, mask, who",
        params![id],
    )?;
    all_entries(alloc, rows.as_slice())
}

/// The bytes of a document, none where it is not there.
pub(crate) fn doc<S: Alter>(
    alloc: Global,
    conn: &mut Connection<S>,
    id: u32,
) -> Result<Vec<u8>, Error>
    ensures frame { QueryFrame (state S.Store conn.old) (state S.Store conn.new) result }
    ensures value { TellsRoom (state S.Store conn.old) (state S.Store conn.new) result
        (λ trees found. found.items ≡ unwrap_or ((records_of trees).objects.document id) []) }
{
    let rows = conn.query_all("SELECT bytes FROM doc WHERE node = ?1", params![id])?;
    one_doc(alloc, rows.as_slice())
}

/// How long a document is, 0 where it is not there. The bytes are not read.
pub(crate) fn doc_size<S: Alter>(conn: &mut Connection<S>, id: u32) -> Result<u64, Error>
    ensures frame { QueryFrame (state S.Store conn.old) (state S.Store conn.new) result }
    ensures value { TellsRoom (state S.Store conn.old) (state S.Store conn.new) result
        (λ trees found. found ≡ length (unwrap_or ((records_of trees).objects.document id) [])) }
{
    // The database is sound, so the column holds bytes.
    let _live = conn.schema();
    let rows = conn.query_all("SELECT length(bytes) FROM doc WHERE node = ?1", params![id])?;
    one_size(rows.as_slice())
}

/// The session of a name.
pub(crate) fn session<S: Alter>(
    alloc: Global,
    conn: &mut Connection<S>,
    sid: &Sid,
) -> Result<Option<SessionRow>, Error>
    ensures frame { QueryFrame (state S.Store conn.old) (state S.Store conn.new) result }
    ensures value { TellsRoom (state S.Store conn.old) (state S.Store conn.new) result
        (λ trees found. found ≡ (records_of trees).session sid.now) }
{
    let rows = conn.query_all(
        "SELECT owner, slots, open FROM session WHERE sid = ?1",
        params![sid.text()],
    )?;
    one_session(alloc, sid, rows.as_slice())
}

/// What a slot keeps.
pub(crate) fn slot<S: Alter>(
    conn: &mut Connection<S>,
    sid: &Sid,
    slot: u32,
) -> Result<Option<Kept>, Error>
    ensures frame { QueryFrame (state S.Store conn.old) (state S.Store conn.new) result }
    ensures value { TellsRoom (state S.Store conn.old) (state S.Store conn.new) result
        (λ trees found. found ≡ (records_of trees).slot sid.now slot) }
{
    let rows = conn.query_all(
        "SELECT seq, request, reply FROM kept WHERE sid = ?1 AND slot = ?2",
        params![sid.text(), slot],
    )?;
    one_kept(rows.as_slice())
}

/// The number that a slot keeps. What else it keeps is not read.
pub(crate) fn slot_seq<S: Alter>(
    conn: &mut Connection<S>,
    sid: &Sid,
    slot: u32,
) -> Result<Option<u32>, Error>
    ensures frame { QueryFrame (state S.Store conn.old) (state S.Store conn.new) result }
    ensures value { TellsRoom (state S.Store conn.old) (state S.Store conn.new) result
        (λ trees found. found ≡ kept_seq ((records_of trees).slot sid.now slot)) }
{
    let rows = conn.query_all(
        "SELECT seq FROM kept WHERE sid = ?1 AND slot = ?2",
        params![sid.text(), slot],
    )?;
    one_seq(rows.as_slice())
}

/// The next number, in the tables of any version.
pub(crate) fn next_id<S: Alter>(conn: &mut Connection<S>) -> Result<u32, Error>
    ensures frame { QueryFrame (state S.Store conn.old) (state S.Store conn.new) result }
    ensures value { HasCleanDisk (state S.Store conn.new) → (more : List Table) → conn.old.schema ≡ with_last more
        → IfOk result (λ next. next ≡ (records_of (state S.Store conn.old).now.trees).objects.next) }
{
    let rows = conn.query_all("SELECT next FROM room WHERE one = 1", &[])?;
    one_number(rows.as_slice())
}
