//! The statements that write entries over those that are stored, at the same places.

ghost use Rattle.std.specs.Prelude.{◌≡◌, ◌+◌, ◌^◌, ◌<◌, ◌≤◌, List, [], ◌∷◌, ◌++◌, length, take, drop};
ghost use Rattle.std.specs.Prelude.{IfOk, OnOk, true};
ghost use Rattle.sqlite.specs.State.{HasCleanDisk};
ghost use Rattle.sqlite.specs.Held.{state};
ghost use Rattle.sqlite.specs.Effect.{Database};
ghost use Rattle.room_acl.specs.Entries.{EntryModel};
ghost use Rattle.room_tables.specs.Steps.{Lists};
ghost use Rattle.room_sql.specs.Frames.{InsideFrame};

use crate::values::{entry_row, is_same};
use crate::writes::{BATCH, run};
use room_acl::Entry;
use sqlite::types::ToSql;
use sqlite::{Alter, Error, Transaction};

/// Writes an entry over the one at its place.
fn change_entry<S: Alter>(
    tx: &mut Transaction<'_, S>,
    id: u32,
    place: u32,
    entry: &Entry,
) -> Result<(), Error>
    ensures frame { InsideFrame S.Store tx.old tx.new result }
    ensures ok { HasCleanDisk (state S.Store tx.new.conn.now)
        → OnOk result ((was : Database) (before behind : _) (stored : EntryModel) → length before ≡ place →
        Lists was id (before ++ stored ∷ behind) (state S.Store tx.old.conn.now).now
        → Lists was id (before ++ entry.now ∷ behind) (state S.Store tx.new.conn.now).now) }
{
    let row = entry_row(place, entry);
    run(
        tx,
        "UPDATE entry SET type = ?3, flag = ?4, mask = ?5, who = ?6 WHERE node = ?1 AND place = ?2",
        &[
            id.to_sql(),
            row.place,
            row.kind,
            row.flags,
            row.mask,
            row.who,
        ],
    )
}

/// Writes entries over the first so many of those at a place and behind it, four at most, by one statement. Those that
/// are more than so many may be any.
fn change_four<S: Alter>(
    tx: &mut Transaction<'_, S>,
    id: u32,
    place: u32,
    count: u32,
    a: &Entry,
    b: &Entry,
    c: &Entry,
    d: &Entry,
) -> Result<(), Error>
    requires some { 1 ≤ count }
    requires few { count ≤ 4 }
    requires small { place + 3 < 2 ^ 32 }
    ensures frame { InsideFrame S.Store tx.old tx.new result }
    ensures ok { HasCleanDisk (state S.Store tx.new.conn.now)
        → OnOk result ((was : Database) (before stored behind : List EntryModel) → length before ≡ place →
        length stored ≡ count → Lists was id (before ++ (stored ++ behind)) (state S.Store tx.old.conn.now).now
        → Lists was id (before ++ (take count (a.now ∷ b.now ∷ c.now ∷ d.now ∷ []) ++ behind))
        (state S.Store tx.new.conn.now).now) }
{
    let a = entry_row(place, a);
    let b = entry_row(place + 1, b);
    let c = entry_row(place + 2, c);
    let d = entry_row(place + (count - 1), d);
    run(
        tx,
        "UPDATE entry SET type = CASE place WHEN ?2 THEN ?3 WHEN ?7 THEN ?8 WHEN ?12 THEN ?13 ELSE ?18 END, flag = \
         CASE place WHEN ?2 THEN ?4 WHEN ?7 THEN ?9 WHEN ?12 THEN ?14 ELSE ?19 END, mask = CASE place WHEN ?2 THEN ?5 \
         WHEN ?7 THEN ?10 WHEN ?12 THEN ?15 ELSE ?20 END, who = CASE place WHEN ?2 THEN ?6 WHEN ?7 THEN ?11 WHEN ?12 \
         THEN ?16 ELSE ?21 END WHERE node = ?1 AND place >= ?2 AND place <= ?17",
        &[
            id.to_sql(),
            a.place,
            a.kind,
            a.flags,
            a.mask,
            a.who,
            b.place,
            b.kind,
            b.flags,
            b.mask,
            b.who,
            c.place,
            c.kind,
            c.flags,
            c.mask,
            c.who,
            d.place,
            d.kind,
            d.flags,
            d.mask,
            d.who,
        ],
    )
}

/// Writes up to four entries over those at a place and behind it, by one statement.
fn change_batch<S: Alter>(
    tx: &mut Transaction<'_, S>,
    id: u32,
    place: u32,
    batch: &[Entry],
) -> Result<(), Error>
    requires inside { HasCleanDisk (state S.Store tx.old.conn.now) → tx.old.conn.now.in_transaction ≡ true }
    requires few { length batch.now ≤ 4 }
    requires small { place + 3 < 2 ^ 32 }
    ensures frame { InsideFrame S.Store tx.old tx.new result }
    ensures ok { HasCleanDisk (state S.Store tx.new.conn.now)
        → OnOk result ((was : Database) (before stored behind : List EntryModel) → length before ≡ place →
        length stored ≡ length batch.now →
        Lists was id (before ++ (stored ++ behind)) (state S.Store tx.old.conn.now).now
        → Lists was id (before ++ (batch.now ++ behind)) (state S.Store tx.new.conn.now).now) }
{
    match batch {
        [] => Ok(()),
        [a] => change_entry(tx, id, place, a),
        [a, b] => change_four(tx, id, place, 2, a, b, b, b),
        [a, b, c] => change_four(tx, id, place, 3, a, b, c, c),
        [a, b, c, d] => change_four(tx, id, place, 4, a, b, c, d),
        _ => unreachable!(),
    }
}

/// How many entries one statement writes where the first of these differs from the stored one: those before the next
/// that does not, four at most.
fn count_differing(stored: &[Entry], entries: &[Entry]) -> usize
    requires some { 1 ≤ length entries.now }
    requires both { length stored.now ≡ length entries.now }
    ensures some { 1 ≤ result }
    ensures few { result ≤ 4 }
    ensures within { result ≤ length entries.now }
{
    let most = BATCH.min(entries.len());
    for next in 1..most {
        if is_same(&stored[next], &entries[next]) {
            return next;
        }
    }
    most
}

/// Renews the entry at a place, and where it differs from the stored one those behind it that differ too. Answers the
/// place behind them.
fn renew_from<S: Alter>(
    tx: &mut Transaction<'_, S>,
    id: u32,
    place: u32,
    both: u32,
    stored: &[Entry],
    entries: &[Entry],
) -> Result<u32, Error>
    requires inside { HasCleanDisk (state S.Store tx.old.conn.now) → tx.old.conn.now.in_transaction ≡ true }
    requires here { place < both }
    requires stored { both ≤ length stored.now }
    requires wanted { both ≤ length entries.now }
    requires small { both + 3 < 2 ^ 32 }
    ensures frame { InsideFrame S.Store tx.old tx.new result }
    ensures on { IfOk result (λ next. place < next) }
    ensures within { IfOk result (λ next. next ≤ both) }
    ensures ok { HasCleanDisk (state S.Store tx.new.conn.now) → IfOk result (λ next. (was : Database) →
        Lists was id (take place entries.now ++ drop place stored.now) (state S.Store tx.old.conn.now).now →
        Lists was id (take next entries.now ++ drop next stored.now) (state S.Store tx.new.conn.now).now) }
{
    let at = place as usize;
    if is_same(&stored[at], &entries[at]) {
        return Ok(place + 1);
    }
    let end = both as usize;
    let count = count_differing(&stored[at..end], &entries[at..end]);
    change_batch(tx, id, place, &entries[at..at + count])?;
    Ok(place + count as u32)
}

/// Renews the entries of the first places, which the two lists both have: neighbours that differ by one statement,
/// since each has costs of its own.
pub(crate) fn renew_entries<S: Alter>(
    tx: &mut Transaction<'_, S>,
    id: u32,
    both: u32,
    stored: &[Entry],
    entries: &[Entry],
) -> Result<(), Error>
    requires inside { HasCleanDisk (state S.Store tx.old.conn.now) → tx.old.conn.now.in_transaction ≡ true }
    requires stored { both ≤ length stored.now }
    requires wanted { both ≤ length entries.now }
    requires small { both + 3 < 2 ^ 32 }
    ensures frame { InsideFrame S.Store tx.old tx.new result }
    ensures ok { HasCleanDisk (state S.Store tx.new.conn.now)
        → OnOk result ((was : Database) → Lists was id stored.now (state S.Store tx.old.conn.now).now →
        Lists was id (take both entries.now ++ drop both stored.now) (state S.Store tx.new.conn.now).now) }
{
    let mut place = 0;
    while place < both {
        place = renew_from(tx, id, place, both, stored, entries)?;
    }
    Ok(())
}
