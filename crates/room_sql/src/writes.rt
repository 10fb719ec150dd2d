//! The statements of the changes, inside a transaction.

ghost use Rattle.std.specs.Prelude.{◌≡◌, ◌+◌, ◌^◌, ◌<◌, ◌≤◌, ℕ, List, [], ◌∷◌, ◌++◌, length, map, take, drop, min};
ghost use Rattle.std.specs.Prelude.{Ok, IfOk, OnOk, true};
ghost use Rattle.std.specs.List.{AllByRecursion};
ghost use Rattle.sqlite.specs.State.{HasCleanDisk, ExecutesInside};
ghost use Rattle.sqlite.specs.Held.{state};
ghost use Rattle.sqlite.specs.Values.{bound};
ghost use Rattle.sqlite.specs.Effect.{Database, IsDatabase};
ghost use Rattle.room_acl.specs.Entries.{EntryModel};
ghost use Rattle.room_records.specs.declared.change.Change.TheVariants.{PutNode, DropNode, PutEntries, PutDoc};
ghost use Rattle.room_records.specs.declared.change.Change.TheVariants.{PutSession, PutSlot, DropSlots, PutNext};
ghost use Rattle.room_tables.specs.Tables.{Upgraded, room_schema};
ghost use Rattle.room_tables.specs.Rows.{version_rows, IsVersion};
ghost use Rattle.room_tables.specs.Layout.{IsRoomDatabase};
ghost use Rattle.room_tables.specs.Beside.{Fills};
ghost use Rattle.room_tables.specs.Fresh.{StandForNode, StandForEntries};
ghost use Rattle.room_tables.specs.Rows.{records_of, five_columns};
ghost use Rattle.room_tables.specs.Steps.{SeesSound, Lists, IsReadBack, placed};
ghost use Rattle.room_sql.specs.Frames.{RunsOr, InsideFrame};
ghost use Rattle.room_sql.specs.NodeRows.{HasNone, MakesChange};
ghost use Rattle.room_sql.specs.ReadLists.{IsStored};

use crate::renewing::renew_entries;
use crate::rows::placed_entries;
use crate::values::{
    entry_row, flag_number, group_text, kept_number, kept_reply, kept_request, kind_number,
    list_flags, name_text, node_number, owner_text, parent_value,
};
use room_acl::Entry;
use room_records::{Node, SessionRow, Sid, SlotRow};
use sqlite::types::{ToSql, ValueRef};
use sqlite::{Alter, Error, ErrorCode, Row, Transaction, params};

/// Runs one statement.
pub(crate) fn run<S: Alter>(
    tx: &mut Transaction<'_, S>,
    text: &str,
    args: &[ValueRef<'_>],
) -> Result<(), Error>
    ensures frame { InsideFrame S.Store tx.old tx.new result }
    ensures done { HasCleanDisk (state S.Store tx.new.conn.now) → OnOk result ((count : ℕ) × ExecutesInside 0
        text.now (bound args.now) (state S.Store tx.old.conn.now) (state S.Store tx.new.conn.now) (Ok count)) }
{
    match tx.execute(text, args) {
        Ok(_) => Ok(()),
        Err(error) => Err(error),
    }
}

/// Runs one statement, and tells how many rows it changed.
fn changed<S: Alter>(
    tx: &mut Transaction<'_, S>,
    text: &str,
    args: &[ValueRef<'_>],
) -> Result<usize, Error>
    ensures frame { InsideFrame S.Store tx.old tx.new result }
    ensures done { HasCleanDisk (state S.Store tx.new.conn.now) → IfOk result (λ count. ExecutesInside 0
        text.now (bound args.now) (state S.Store tx.old.conn.now) (state S.Store tx.new.conn.now) (Ok count)) }
{
    tx.execute(text, args)
}

/// Runs one statement, and behind it another with the same values, where the first changed no row.
fn run_or<S: Alter>(
    tx: &mut Transaction<'_, S>,
    text: &str,
    other: &str,
    args: &[ValueRef<'_>],
) -> Result<(), Error>
    ensures frame { InsideFrame S.Store tx.old tx.new result }
    ensures done { HasCleanDisk (state S.Store tx.new.conn.now) → OnOk result (RunsOr S.Store
        text.now other.now (bound args.now) tx.old.conn.now tx.new.conn.now) }
{
    if changed(tx, text, args)? == 0 {
        run(tx, other, args)
    } else {
        Ok(())
    }
}

/// Replaces the row of the node's number, and adds it where there was none. Entries and document stay.
pub(crate) fn put_node<S: Alter>(tx: &mut Transaction<'_, S>, node: &Node) -> Result<(), Error>
    ensures frame { InsideFrame S.Store tx.old tx.new result }
    ensures ok { HasCleanDisk (state S.Store tx.new.conn.now)
        → OnOk result (IsRoomDatabase (state S.Store tx.old.conn.now).now →
        MakesChange (PutNode node.now) (state S.Store tx.old.conn.now) (state S.Store tx.new.conn.now)) }
{
    let name = name_text(node);
    let id = node_number(node);
    let parent = parent_value(node);
    let kind = kind_number(node);
    let owner = owner_text(node);
    let group = group_text(node);
    let aclflag = list_flags(node);
    run_or(
        tx,
        "UPDATE node SET parent = ?2, name = ?3, kind = ?4, owner = ?5, grp = ?6, aclflag = ?7 WHERE id = ?1",
        "INSERT INTO node (id, parent, name, kind, owner, grp, aclflag) VALUES (?1, ?2, ?3, ?4, ?5, ?6, ?7)",
        params![id, &parent, name, kind, owner, group, aclflag],
    )
}

/// Adds the row of a node, whose number no row may have. An UPDATE that finds none costs a third as much again.
pub(crate) fn put_new_node<S: Alter>(tx: &mut Transaction<'_, S>, node: &Node) -> Result<(), Error>
    ensures frame { InsideFrame S.Store tx.old tx.new result }
    ensures ok { HasCleanDisk (state S.Store tx.new.conn.now)
        → OnOk result (IsRoomDatabase (state S.Store tx.old.conn.now).now →
        MakesChange (PutNode node.now) (state S.Store tx.old.conn.now) (state S.Store tx.new.conn.now)) }
    ensures new { HasCleanDisk (state S.Store tx.new.conn.now)
        → OnOk result (IsRoomDatabase (state S.Store tx.old.conn.now).now →
        HasNone node.now.id ((state S.Store tx.old.conn.now).now.trees 1)) }
    ensures no_entries { HasCleanDisk (state S.Store tx.new.conn.now)
        → OnOk result (IsRoomDatabase (state S.Store tx.old.conn.now).now → SeesSound (state S.Store tx.old.conn.now) →
        (records_of (state S.Store tx.new.conn.now).now.trees).objects.entries node.now.id ≡ []) }
    ensures spares { HasCleanDisk (state S.Store tx.new.conn.now)
        → OnOk result (Fills 1 (λ rows. rows ≡ []) (StandForNode node.now)
        (state S.Store tx.old.conn.now).now (state S.Store tx.new.conn.now).now) }
{
    let name = name_text(node);
    let id = node_number(node);
    let parent = parent_value(node);
    let kind = kind_number(node);
    let owner = owner_text(node);
    let group = group_text(node);
    let aclflag = list_flags(node);
    run(
        tx,
        "INSERT INTO node (id, parent, name, kind, owner, grp, aclflag) VALUES (?1, ?2, ?3, ?4, ?5, ?6, ?7)",
        params![id, &parent, name, kind, owner, group, aclflag],
    )
}

/// Takes the node away, and its entries and document by ON DELETE CASCADE.
pub(crate) fn drop_node<S: Alter>(tx: &mut Transaction<'_, S>, id: u32) -> Result<(), Error>
    ensures frame { InsideFrame S.Store tx.old tx.new result }
    ensures ok { HasCleanDisk (state S.Store tx.new.conn.now)
        → OnOk result (IsRoomDatabase (state S.Store tx.old.conn.now).now →
        MakesChange (DropNode id) (state S.Store tx.old.conn.now) (state S.Store tx.new.conn.now)) }
{
    run(tx, "DELETE FROM node WHERE id = ?1", params![id])
}

/// Takes the object's entries away.
fn clear_entries<S: Alter>(tx: &mut Transaction<'_, S>, id: u32) -> Result<(), Error>
    ensures frame { InsideFrame S.Store tx.old tx.new result }
    ensures ok { HasCleanDisk (state S.Store tx.new.conn.now)
        → OnOk result (IsRoomDatabase (state S.Store tx.old.conn.now).now →
        Lists (state S.Store tx.old.conn.now).now id [] (state S.Store tx.new.conn.now).now) }
{
    run(tx, "DELETE FROM entry WHERE node = ?1", params![id])
}

/// Puts one more entry behind the object's.
fn add_one<S: Alter>(
    tx: &mut Transaction<'_, S>,
    id: u32,
    place: u32,
    a: &Entry,
) -> Result<(), Error>
    ensures frame { InsideFrame S.Store tx.old tx.new result }
    ensures ok { HasCleanDisk (state S.Store tx.new.conn.now)
        → OnOk result ((was : Database) (before : _) → length before ≡ place →
        Lists was id before (state S.Store tx.old.conn.now).now
        → Lists was id (before ++ a.now ∷ []) (state S.Store tx.new.conn.now).now) }
    ensures spares { HasCleanDisk (state S.Store tx.new.conn.now)
        → OnOk result ((before : _) → length before ≡ place →
        Fills 3 (StandForEntries id before) (StandForEntries id (before ++ a.now ∷ []))
        (state S.Store tx.old.conn.now).now (state S.Store tx.new.conn.now).now) }
{
    let a = entry_row(place, a);
    run(
        tx,
        "INSERT INTO entry (node, place, type, flag, mask, who) VALUES (?1, ?2, ?3, ?4, ?5, ?6)",
        &[id.to_sql(), a.place, a.kind, a.flags, a.mask, a.who],
    )
}

/// Puts two more entries behind the object's, in their order.
fn add_two<S: Alter>(
    tx: &mut Transaction<'_, S>,
    id: u32,
    place: u32,
    a: &Entry,
    b: &Entry,
) -> Result<(), Error>
    requires { place + 1 < 2 ^ 32 }
    ensures frame { InsideFrame S.Store tx.old tx.new result }
    ensures ok { HasCleanDisk (state S.Store tx.new.conn.now)
        → OnOk result ((was : Database) (before : _) → length before ≡ place →
        Lists was id before (state S.Store tx.old.conn.now).now
        → Lists was id (before ++ a.now ∷ b.now ∷ []) (state S.Store tx.new.conn.now).now) }
    ensures spares { HasCleanDisk (state S.Store tx.new.conn.now)
        → OnOk result ((before : _) → length before ≡ place →
        Fills 3 (StandForEntries id before) (StandForEntries id (before ++ a.now ∷ b.now ∷ []))
        (state S.Store tx.old.conn.now).now (state S.Store tx.new.conn.now).now) }
{
    let a = entry_row(place, a);
    let b = entry_row(place + 1, b);
    run(
        tx,
        "INSERT INTO entry (node, place, type, flag, mask, who) VALUES (?1, ?2, ?3, ?4, ?5, ?6), (?1, ?7, ?8, \
         ?9, ?10, ?11)",
        &[
            id.to_sql(),
            a.place,
            a.kind,
            a.flags,
            a.mask,
            a.who,
            b.place,
            b.kind,
            b.flags,
            b.mask,
            b.who,
        ],
    )
}

/// Puts three more entries behind the object's, in their order.
fn add_three<S: Alter>(
    tx: &mut Transaction<'_, S>,
    id: u32,
    place: u32,
    a: &Entry,
    b: &Entry,
    c: &Entry,
) -> Result<(), Error>
    requires { place + 2 < 2 ^ 32 }
    ensures frame { InsideFrame S.Store tx.old tx.new result }
    ensures ok { HasCleanDisk (state S.Store tx.new.conn.now)
        → OnOk result ((was : Database) (before : _) → length before ≡ place →
        Lists was id before (state S.Store tx.old.conn.now).now
        → Lists was id (before ++ a.now ∷ b.now ∷ c.now ∷ []) (state S.Store tx.new.conn.now).now) }
    ensures spares { HasCleanDisk (state S.Store tx.new.conn.now)
        → OnOk result ((before : _) → length before ≡ place →
        Fills 3 (StandForEntries id before) (StandForEntries id (before ++ a.now ∷ b.now ∷ c.now ∷ []))
        (state S.Store tx.old.conn.now).now (state S.Store tx.new.conn.now).now) }
{
    let a = entry_row(place, a);
    let b = entry_row(place + 1, b);
    let c = entry_row(place + 2, c);
    run(
        tx,
        "INSERT INTO entry (node, place, type, flag, mask, who) VALUES (?1, ?2, ?3, ?4, ?5, ?6), (?1, ?7, ?8, \
         ?9, ?10, ?11), (?1, ?12, ?13, ?14, ?15, ?16)",
        &[
            id.to_sql(),
            a.place,
            a.kind,
            a.flags,
            a.mask,
            a.who,
            b.place,
            b.kind,
            b.flags,
            b.mask,
            b.who,
            c.place,
            c.kind,
            c.flags,
            c.mask,
            c.who,
        ],
    )
}

/// Puts four more entries behind the object's, in their order.
fn add_four<S: Alter>(
    tx: &mut Transaction<'_, S>,
    id: u32,
    place: u32,
    a: &Entry,
    b: &Entry,
    c: &Entry,
    d: &Entry,
) -> Result<(), Error>
    requires { place + 3 < 2 ^ 32 }
    ensures frame { InsideFrame S.Store tx.old tx.new result }
    ensures ok { HasCleanDisk (state S.Store tx.new.conn.now)
        → OnOk result ((was : Database) (before : _) → length before ≡ place →
        Lists was id before (state S.Store tx.old.conn.now).now
        → Lists was id (before ++ a.now ∷ b.now ∷ c.now ∷ d.now ∷ []) (state S.Store tx.new.conn.now).now) }
    ensures spares { HasCleanDisk (state S.Store tx.new.conn.now)
        → OnOk result ((before : _) → length before ≡ place →
        Fills 3 (StandForEntries id before) (StandForEntries id (before ++ a.now ∷ b.now ∷ c.now ∷ d.now ∷ []))
        (state S.Store tx.old.conn.now).now (state S.Store tx.new.conn.now).now) }
{
    let a = entry_row(place, a);
    let b = entry_row(place + 1, b);
    let c = entry_row(place + 2, c);
    let d = entry_row(place + 3, d);
    run(
        tx,
        "INSERT INTO entry (node, place, type, flag, mask, who) VALUES (?1, ?2, ?3, ?4, ?5, ?6), (?1, ?7, ?8, \
         ?9, ?10, ?11), (?1, ?12, ?13, ?14, ?15, ?16), (?1, ?17, ?18, ?19, ?20, ?21)",
        &[
            id.to_sql(),
            a.place,
            a.kind,
            a.flags,
            a.mask,
            a.who,
            b.place,
            b.kind,
            b.flags,
            b.mask,
            b.who,
            c.place,
            c.kind,
            c.flags,
            c.mask,
            c.who,
            d.place,
            d.kind,
            d.flags,
            d.mask,
            d.who,
        ],
    )
}

/// The most entries that one statement puts. Each number of them up to this has a text of its own,
/// and the connection keeps the plans of so few texts.
pub(crate) const BATCH: usize = 4;

/// Puts up to four more entries behind the object's, in their order and by one statement.
fn add_batch<S: Alter>(
    tx: &mut Transaction<'_, S>,
    id: u32,
    place: u32,
    batch: &[Entry],
) -> Result<(), Error>
    requires inside { HasCleanDisk (state S.Store tx.old.conn.now) → tx.old.conn.now.in_transaction ≡ true }
    requires few { length batch.now ≤ 4 }
    requires small { place + length batch.now < 2 ^ 32 }
    ensures frame { InsideFrame S.Store tx.old tx.new result }
    ensures ok { HasCleanDisk (state S.Store tx.new.conn.now)
        → OnOk result ((was : Database) (before : _) → length before ≡ place →
        Lists was id before (state S.Store tx.old.conn.now).now
        → Lists was id (before ++ batch.now) (state S.Store tx.new.conn.now).now) }
    ensures spares { HasCleanDisk (state S.Store tx.new.conn.now)
        → OnOk result ((before : _) → length before ≡ place →
        Fills 3 (StandForEntries id before) (StandForEntries id (before ++ batch.now))
        (state S.Store tx.old.conn.now).now (state S.Store tx.new.conn.now).now) }
{
    match batch {
        [] => Ok(()),
        [a] => add_one(tx, id, place, a),
        [a, b] => add_two(tx, id, place, a, b),
        [a, b, c] => add_three(tx, id, place, a, b, c),
        [a, b, c, d] => add_four(tx, id, place, a, b, c, d),
        _ => unreachable!(),
    }
}

/// Puts the entries from a place on behind those before it, in batches.
fn add_entries<S: Alter>(
    tx: &mut Transaction<'_, S>,
    id: u32,
    from: u32,
    entries: &[Entry],
) -> Result<(), Error>
    requires inside { HasCleanDisk (state S.Store tx.old.conn.now) → tx.old.conn.now.in_transaction ≡ true }
    requires within { from ≤ length entries.now }
    ensures frame { InsideFrame S.Store tx.old tx.new result }
    ensures ok { HasCleanDisk (state S.Store tx.new.conn.now)
        → OnOk result ((was : Database) → Lists was id (take from entries.now) (state S.Store tx.old.conn.now).now →
        Lists was id entries.now (state S.Store tx.new.conn.now).now) }
    ensures spares { HasCleanDisk (state S.Store tx.new.conn.now)
        → OnOk result (Fills 3 (StandForEntries id (take from entries.now)) (StandForEntries id entries.now)
        (state S.Store tx.old.conn.now).now (state S.Store tx.new.conn.now).now) }
{
    if u32::try_from(entries.len()).is_err() {
        return Err(Error::SqliteFailure(ErrorCode::TooBig));
    }
    let mut place = from;
    for batch in entries[from as usize..].chunks(BATCH) {
        add_batch(tx, id, place, batch)?;
        place += batch.len() as u32;
    }
    Ok(())
}

/// Takes the object's entries from a place on away.
fn drop_behind<S: Alter>(tx: &mut Transaction<'_, S>, id: u32, place: u32) -> Result<(), Error>
    ensures frame { InsideFrame S.Store tx.old tx.new result }
    ensures ok { HasCleanDisk (state S.Store tx.new.conn.now)
        → OnOk result ((was : Database) (before behind : _) → length before ≡ place →
        Lists was id (before ++ behind) (state S.Store tx.old.conn.now).now
        → Lists was id before (state S.Store tx.new.conn.now).now) }
{
    run(
        tx,
        "DELETE FROM entry WHERE node = ?1 AND place >= ?2",
        params![id, place],
    )
}

/// Behind the places that the two lists both have, takes away what is stored, or puts the entries that are more.
fn end_list<S: Alter>(
    tx: &mut Transaction<'_, S>,
    id: u32,
    both: u32,
    stored: &[Entry],
    entries: &[Entry],
) -> Result<(), Error>
    requires inside { HasCleanDisk (state S.Store tx.old.conn.now) → tx.old.conn.now.in_transaction ≡ true }
    requires both { both ≡ min (length stored.now) (length entries.now) }
    ensures frame { InsideFrame S.Store tx.old tx.new result }
    ensures ok { HasCleanDisk (state S.Store tx.new.conn.now)
        → OnOk result ((was : Database) →
        Lists was id (take both entries.now ++ drop both stored.now) (state S.Store tx.old.conn.now).now →
        Lists was id entries.now (state S.Store tx.new.conn.now).now) }
{
    if stored.len() > entries.len() {
        drop_behind(tx, id, both)
    } else {
        add_entries(tx, id, both, entries)
    }
}

/// The places that two lists share at most, so that the numbers of those behind them are places too.
const MOST_PLACES: usize = 0xFFFF_FFF0;

/// Makes the stored list of an object another in place: an UPDATE tests no key and no reference, and most lists that a
/// command renews keep most of their rows.
fn change_list<S: Alter>(
    tx: &mut Transaction<'_, S>,
    id: u32,
    stored: &[Entry],
    entries: &[Entry],
) -> Result<(), Error>
    requires { HasCleanDisk (state S.Store tx.old.conn.now) → tx.old.conn.now.in_transaction ≡ true }
    ensures frame { InsideFrame S.Store tx.old tx.new result }
    ensures ok { HasCleanDisk (state S.Store tx.new.conn.now)
        → OnOk result ((was : Database) → Lists was id stored.now (state S.Store tx.old.conn.now).now →
        Lists was id entries.now (state S.Store tx.new.conn.now).now) }
{
    let shared = stored.len().min(entries.len());
    if shared > MOST_PLACES {
        return Err(Error::SqliteFailure(ErrorCode::TooBig));
    }
    let both = shared as u32;
    renew_entries(tx, id, both, stored, entries)?;
    end_list(tx, id, both, stored, entries)
}

/// Takes the object's entries away, whatever their rows are, and puts these.
fn replace_list<S: Alter>(
    tx: &mut Transaction<'_, S>,
    id: u32,
    entries: &[Entry],
) -> Result<(), Error>
    ensures frame { InsideFrame S.Store tx.old tx.new result }
    ensures ok { HasCleanDisk (state S.Store tx.new.conn.now)
        → OnOk result (IsRoomDatabase (state S.Store tx.old.conn.now).now →
        Lists (state S.Store tx.old.conn.now).now id entries.now (state S.Store tx.new.conn.now).now) }
{
    clear_entries(tx, id)?;
    add_entries(tx, id, 0, entries)
}

/// The rows of the object's entries, in their order, as the transaction has them.
fn list_rows<S: Alter>(tx: &mut Transaction<'_, S>, id: u32) -> Result<Vec<Row>, Error>
    requires { HasCleanDisk (state S.Store tx.old.conn.now) → tx.old.conn.now.in_transaction ≡ true }
    ensures frame { InsideFrame S.Store tx.old tx.new result }
    ensures same { HasCleanDisk (state S.Store tx.new.conn.now)
        → OnOk result ((state S.Store tx.new.conn.now).now ≡ (state S.Store tx.old.conn.now).now) }
    ensures rows { HasCleanDisk (state S.Store tx.new.conn.now)
        → IfOk result (λ rows. IsRoomDatabase (state S.Store tx.old.conn.now).now → (stored : List EntryModel) →
        map five_columns rows.items ≡ placed 0 stored → AllByRecursion IsReadBack stored →
        Lists (state S.Store tx.old.conn.now).now id stored (state S.Store tx.old.conn.now).now) }
{
    tx.query_all(
        "SELECT place, type, flag, mask, who FROM entry WHERE node = ?1 ORDER BY place, type, flag, mask, who",
        params![id],
    )
}

/// Makes these the object's entries, in place where the stored rows are entries at the places 0, 1, 2, .., and else by
/// other rows: so too where memory was refused to read the stored ones by.
pub(crate) fn put_entries<S: Alter>(
    tx: &mut Transaction<'_, S>,
    id: u32,
    entries: &Vec<Entry>,
) -> Result<(), Error>
    requires { HasCleanDisk (state S.Store tx.old.conn.now) → tx.old.conn.now.in_transaction ≡ true }
    ensures frame { InsideFrame S.Store tx.old tx.new result }
    ensures ok { HasCleanDisk (state S.Store tx.new.conn.now)
        → OnOk result (IsRoomDatabase (state S.Store tx.old.conn.now).now →
        MakesChange (PutEntries id entries.now) (state S.Store tx.old.conn.now) (state S.Store tx.new.conn.now)) }
{
    let rows = list_rows(tx, id)?;
    match placed_entries(*entries.allocator(), rows.as_slice()) {
        Ok(stored) => change_list(tx, id, stored.as_slice(), entries.as_slice()),
        Err(_) => replace_list(tx, id, entries.as_slice()),
    }
}

/// Makes these the object's entries, whose stored ones are known.
pub(crate) fn put_kept<S: Alter>(
    tx: &mut Transaction<'_, S>,
    id: u32,
    stored: &[Entry],
    entries: &Vec<Entry>,
) -> Result<(), Error>
    requires { HasCleanDisk (state S.Store tx.old.conn.now) → tx.old.conn.now.in_transaction ≡ true }
    ensures frame { InsideFrame S.Store tx.old tx.new result }
    ensures ok { HasCleanDisk (state S.Store tx.new.conn.now)
        → OnOk result (IsRoomDatabase (state S.Store tx.old.conn.now).now →
        IsStored id stored.now (state S.Store tx.old.conn.now).now.trees →
        MakesChange (PutEntries id entries.now) (state S.Store tx.old.conn.now) (state S.Store tx.new.conn.now)) }
{
    change_list(tx, id, stored, entries.as_slice())
}

/// Puts the entries of an object that was just added, and has none. Their places are 0, 1, 2, ..
pub(crate) fn put_new_entries<S: Alter>(
    tx: &mut Transaction<'_, S>,
    id: u32,
    entries: &Vec<Entry>,
) -> Result<(), Error>
    requires { HasCleanDisk (state S.Store tx.old.conn.now) → tx.old.conn.now.in_transaction ≡ true }
    ensures frame { InsideFrame S.Store tx.old tx.new result }
    ensures ok { HasCleanDisk (state S.Store tx.new.conn.now)
        → OnOk result (IsRoomDatabase (state S.Store tx.old.conn.now).now →
        (records_of (state S.Store tx.old.conn.now).now.trees).objects.entries id ≡ [] →
        MakesChange (PutEntries id entries.now) (state S.Store tx.old.conn.now) (state S.Store tx.new.conn.now)) }
    ensures spares { HasCleanDisk (state S.Store tx.new.conn.now)
        → OnOk result (Fills 3 (StandForEntries id []) (StandForEntries id entries.now.items)
        (state S.Store tx.old.conn.now).now (state S.Store tx.new.conn.now).now) }
{
    add_entries(tx, id, 0, entries.as_slice())
}

/// Replaces the document, and adds it where there was none. An upsert costs more than the one statement that it comes
/// to.
pub(crate) fn put_doc<S: Alter>(
    tx: &mut Transaction<'_, S>,
    id: u32,
    bytes: &Vec<u8>,
) -> Result<(), Error>
    ensures frame { InsideFrame S.Store tx.old tx.new result }
    ensures ok { HasCleanDisk (state S.Store tx.new.conn.now)
        → OnOk result (IsRoomDatabase (state S.Store tx.old.conn.now).now →
        MakesChange (PutDoc id bytes.now) (state S.Store tx.old.conn.now) (state S.Store tx.new.conn.now)) }
{
    run_or(
        tx,
        "UPDATE doc SET bytes = ?2 WHERE node = ?1",
        "INSERT INTO doc (node, bytes) VALUES (?1, ?2)",
        params![id, bytes],
    )
}

/// Adds the document of an object that was just added, and has none.
pub(crate) fn put_new_doc<S: Alter>(
    tx: &mut Transaction<'_, S>,
    id: u32,
    bytes: &Vec<u8>,
) -> Result<(), Error>
    ensures frame { InsideFrame S.Store tx.old tx.new result }
    ensures ok { HasCleanDisk (state S.Store tx.new.conn.now)
        → OnOk result (IsRoomDatabase (state S.Store tx.old.conn.now).now →
        MakesChange (PutDoc id bytes.now) (state S.Store tx.old.conn.now) (state S.Store tx.new.conn.now)) }
{
    run(
        tx,
        "INSERT INTO doc (node, bytes) VALUES (?1, ?2)",
        params![id, bytes],
    )
}

/// Adds or replaces the row of a session name. What its slots keep stays.
pub(crate) fn put_session<S: Alter>(
    tx: &mut Transaction<'_, S>,
    row: &SessionRow,
) -> Result<(), Error>
    ensures frame { InsideFrame S.Store tx.old tx.new result }
    ensures ok { HasCleanDisk (state S.Store tx.new.conn.now)
        → OnOk result (IsRoomDatabase (state S.Store tx.old.conn.now).now →
        MakesChange (PutSession row.now) (state S.Store tx.old.conn.now) (state S.Store tx.new.conn.now)) }
{
    let sid = row.sid.text();
    let owner = row.owner.text();
    let slots = row.slots.get();
    let is_open = flag_number(row.is_open);
    run(
        tx,
        "INSERT INTO session (sid, owner, slots, open) VALUES (?1, ?2, ?3, \
         ?4) ON CONFLICT (sid) DO UPDATE SET owner = excluded.owner, slots = excluded.slots, open = excluded.open",
        params![sid, owner, slots, is_open],
    )
}

/// Replaces what a slot keeps, and adds it where there was none.
pub(crate) fn put_slot<S: Alter>(tx: &mut Transaction<'_, S>, row: &SlotRow) -> Result<(), Error>
    ensures frame { InsideFrame S.Store tx.old tx.new result }
    ensures ok { HasCleanDisk (state S.Store tx.new.conn.now)
        → OnOk result (IsRoomDatabase (state S.Store tx.old.conn.now).now →
        MakesChange (PutSlot row.now) (state S.Store tx.old.conn.now) (state S.Store tx.new.conn.now)) }
{
    let sid = row.sid.text();
    let slot = row.slot;
    let seq = kept_number(&row.kept);
    let request = kept_request(&row.kept);
    let reply = kept_reply(&row.kept);
    run_or(
        tx,
        "UPDATE kept SET seq = ?3, request = ?4, reply = ?5 WHERE sid = ?1 AND slot = ?2",
        "INSERT INTO kept (sid, slot, seq, request, reply) VALUES (?1, ?2, ?3, ?4, ?5)",
        params![sid, slot, seq, request, reply],
    )
}

/// Takes away what all slots of a session keep.
pub(crate) fn drop_slots<S: Alter>(tx: &mut Transaction<'_, S>, sid: &Sid) -> Result<(), Error>
    ensures frame { InsideFrame S.Store tx.old tx.new result }
    ensures ok { HasCleanDisk (state S.Store tx.new.conn.now)
        → OnOk result (IsRoomDatabase (state S.Store tx.old.conn.now).now →
        MakesChange (DropSlots sid.now) (state S.Store tx.old.conn.now) (state S.Store tx.new.conn.now)) }
{
    let sid = sid.text();
    run(tx, "DELETE FROM kept WHERE sid = ?1", params![sid])
}

/// Sets the next number, in a row of version 2, and adds the row where there was none: an upsert costs more than that.
/// A table `slot` beside stays as it is.
pub(crate) fn put_next<S: Alter>(tx: &mut Transaction<'_, S>, next: u32) -> Result<(), Error>
    ensures frame { InsideFrame S.Store tx.old tx.new result }
    ensures ok { HasCleanDisk (state S.Store tx.new.conn.now)
        → OnOk result (IsRoomDatabase (state S.Store tx.old.conn.now).now →
        MakesChange (PutNext next) (state S.Store tx.old.conn.now) (state S.Store tx.new.conn.now)
        × IsVersion 2 (version_rows (state S.Store tx.new.conn.now).now.trees)) }
    ensures beside { HasCleanDisk (state S.Store tx.new.conn.now)
        → OnOk result (IsRoomDatabase (state S.Store tx.old.conn.now).now →
        IsDatabase (state S.Store tx.new.conn.now).now
        × ((state S.Store tx.old.conn.now).now.schema ≡ room_schema Upgraded →
        (state S.Store tx.new.conn.now).now.trees 8 ≡ (state S.Store tx.old.conn.now).now.trees 8)) }
{
    run_or(
        tx,
        "UPDATE room SET version = 2, next = ?1 WHERE one = 1",
        "INSERT INTO room (one, version, next) VALUES (1, 2, ?1)",
        params![next],
    )
}
