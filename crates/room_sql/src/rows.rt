//! Rows of the tables, read as values of a room. A row that is no value of its type is an error.

ghost use Rattle.std.specs.Prelude.{◌≡◌, ◌≢◌, ◌==◌, ◌<◌, ◌-◌, ◌^◌, ℕ, pos, List, [], ◌∷◌, Some, None, map, slice_get};
ghost use Rattle.std.specs.Prelude.{unwrap_or, option_map, IfOk, IfErr, IsUtf8, string_bytes, Bool, true};
ghost use Rattle.std.specs.List.{AllByRecursion, filter_map};
ghost use Rattle.sqlite_value.specs.Order.{column};
ghost use Rattle.sqlite_value.specs.declared.value.Value.TheVariants.{Int, Text};
ghost use Rattle.room_acl.specs.Bits.{IsFlags, IsMask};
ghost use Rattle.room_acl.specs.Entries.{who_from, who_text};
ghost use Rattle.room_tables.specs.Rows.{number_in, text_in, name_of_text, name_stored, parent_in, blob_in, reply_in};
ghost use Rattle.room_tables.specs.Rows.{kind_stored, who_of, only, node_of, entry_of, session_stored, kept_of};
ghost use Rattle.room_tables.specs.Rows.{listed_of, seq_stored, size_in, five_columns, HasEntryColumns};
ghost use Rattle.room_tables.specs.Names.{counted_row};
ghost use Rattle.room_tables.specs.Steps.{flag_of, type_of, shown_as, placed, IsReadBack, ShowsEntry};
ghost use Rattle.room_sql.specs.Faults.{ErrMeans};

use room_acl::{Entry, Flags, Kind, ListFlags, Mask, Principal, Who};
use room_records::{FileName, Node, SessionRow, Sid, SlotCount};
use room_slots::Kept;
use sqlite::{Error, ErrorCode, Row};
use std::alloc::Global;

/// What a row that is no value of its type is answered with.
pub(crate) fn bad_value() -> Error {
    Error::SqliteFailure(ErrorCode::TypeMismatch)
}

fn number_at(row: &Row, at: usize) -> Result<u32, Error>
    ensures value { IfOk result (λ n. column row.now at ≡ Int (pos n)) }
    ensures told { ErrMeans result (λ _. (n : ℕ) → n < 2 ^ 32 → column row.now at ≢ Int (pos n)) }
{
    row.get(at)
}

fn text_at(row: &Row, at: usize) -> Result<String, Error>
    ensures value { IfOk result (λ s. column row.now at ≡ Text (string_bytes s)) }
    ensures told { ErrMeans result (λ _. (text : List ℕ) → IsUtf8 text → column row.now at ≢ Text text) }
{
    row.get(at)
}

fn principal_at(alloc: Global, row: &Row, at: usize) -> Result<Principal, Error>
    ensures value { IfOk result (λ name. name ≡ text_in (column row.now at)) }
{
    let text = text_at(row, at)?;
    Principal::new(alloc, text.as_str())?.ok_or(bad_value())
}

fn parent_at(row: &Row, at: usize) -> Result<Option<u32>, Error>
    ensures value { IfOk result (λ parent. parent ≡ parent_in (column row.now at)) }
{
    row.get(at)
}

/// The name of a node: the empty text is none.
fn name_from(alloc: Global, text: &str) -> Result<Option<FileName>, Error>
    ensures value { IfOk result (λ name. name ≡ name_of_text text.now) }
{
    if text.is_empty() {
        return Ok(None);
    }
    match FileName::new(alloc, text)? {
        Some(name) => Ok(Some(name)),
        None => Err(bad_value()),
    }
}

fn name_at(alloc: Global, row: &Row, at: usize) -> Result<Option<FileName>, Error>
    ensures value { IfOk result (λ name. name ≡ name_stored (column row.now at)) }
{
    let text = text_at(row, at)?;
    name_from(alloc, text.as_str())
}

/// A number that is 0 or 1: whether it is 1.
fn flag_at(row: &Row, at: usize) -> Result<bool, Error>
    ensures value { IfOk result (λ flag. flag ≡ (number_in (column row.now at) == 1)) }
    ensures typed { IfOk result (λ flag. column row.now at ≡ Int (pos (flag_of flag))) }
    ensures told { ErrMeans result (λ _. (flag : Bool) → column row.now at ≢ Int (pos (flag_of flag))) }
{
    match number_at(row, at)? {
        0 => Ok(false),
        1 => Ok(true),
        _ => Err(bad_value()),
    }
}

fn kind_at(row: &Row, at: usize) -> Result<Kind, Error>
    ensures value { IfOk result (λ kind. kind ≡ kind_stored (number_in (column row.now at))) }
{
    Ok(if flag_at(row, at)? {
        Kind::Folder
    } else {
        Kind::File
    })
}

fn list_flags_at(row: &Row, at: usize) -> Result<ListFlags, Error>
    ensures value { IfOk result (λ flags. flags ≡ number_in (column row.now at)) }
{
    let number = number_at(row, at)?;
    let Ok(bits) = u8::try_from(number) else {
        return Err(bad_value());
    };
    ListFlags::new(bits).ok_or(bad_value())
}

/// The node of a row that shows number, parent, name, kind, owner, group and list flags.
pub(crate) fn node_of(alloc: Global, row: &Row) -> Result<Node, Error>
    ensures value { IfOk result (λ node. node ≡ node_of row.now) }
{
    let id = number_at(row, 0)?;
    let parent = parent_at(row, 1)?;
    let name = name_at(alloc, row, 2)?;
    let kind = kind_at(row, 3)?;
    let owner = principal_at(alloc, row, 4)?;
    let group = principal_at(alloc, row, 5)?;
    let aclflag = list_flags_at(row, 6)?;
    Ok(Node {
        id,
        parent,
        name,
        kind,
        owner,
        group,
        aclflag,
    })
}

/// Whether an entry allows: its type is 0 then.
fn allow_at(row: &Row, at: usize) -> Result<bool, Error>
    ensures value { IfOk result (λ allow. allow ≡ (number_in (column row.now at) == 0)) }
    ensures stored { IfOk result (λ allow. column row.now at ≡ Int (pos (type_of allow))) }
    ensures told { ErrMeans result (λ _. (flag : Bool) → column row.now at ≢ Int (pos (flag_of flag))) }
{
    Ok(!flag_at(row, at)?)
}

fn flags_at(row: &Row, at: usize) -> Result<Flags, Error>
    ensures value { IfOk result (λ flags. column row.now at ≡ Int (pos flags)) }
    ensures told { ErrMeans result (λ _. (flags : ℕ) → IsFlags flags → column row.now at ≢ Int (pos flags)) }
{
    let number = number_at(row, at)?;
    let Ok(bits) = u8::try_from(number) else {
        return Err(bad_value());
    };
    Flags::new(bits).ok_or(bad_value())
}

fn mask_at(row: &Row, at: usize) -> Result<Mask, Error>
    ensures value { IfOk result (λ mask. column row.now at ≡ Int (pos mask)) }
    ensures told { ErrMeans result (λ _. (mask : ℕ) → IsMask mask → column row.now at ≢ Int (pos mask)) }
{
    let number = number_at(row, at)?;
    Mask::new(number).ok_or(bad_value())
}

fn who_from(alloc: Global, flags: Flags, text: &str) -> Result<Who, Error>
    ensures value { IfOk result (λ who. who ≡ who_of flags text.now) }
    ensures found { IfOk result (λ who. who_from flags text.now ≡ Some who) }
    ensures text { IfOk result (λ who. who_text who ≡ text.now) }
    ensures told { ErrMeans result (λ _. who_from flags text.now ≡ None) }
{
    Who::read(alloc, flags, text)?.ok_or(bad_value())
}

/// The entry of a row that shows place, type, flags, mask and whom it names.
pub(crate) fn entry_of(alloc: Global, row: &Row) -> Result<Entry, Error>
    ensures value { IfOk result (λ entry. entry ≡ entry_of row.now) }
    ensures typed { IfOk result (λ _. HasEntryColumns row.now) }
    ensures shown { IfOk result (λ entry. five_columns row.now ≡ shown_as (number_in (column row.now 0)) entry) }
    ensures back { IfOk result IsReadBack }
    ensures told { ErrMeans result (λ _. ¬ ShowsEntry row.now) }
{
    let _place = number_at(row, 0)?;
    let allow = allow_at(row, 1)?;
    let flags = flags_at(row, 2)?;
    let mask = mask_at(row, 3)?;
    let text = text_at(row, 4)?;
    let who = who_from(alloc, flags, text.as_str())?;
    Entry::new(allow, flags, mask, who).ok_or(bad_value())
}

/// A list that was read, and whether its places are 0, 1, 2, ..
#[derive(Drop)]
pub(crate) struct StoredList {
    pub(crate) entries: Vec<Entry>,
    pub(crate) is_placed: bool,
}

/// Whether this place is the next one, of rows whose places were 0, 1, 2, .. before.
fn is_next(is_placed: bool, place: u32, count: usize) -> bool
    ensures { result ≡ true → (is_placed ≡ true) × (place ≡ count) }
{
    is_placed && place as usize == count
}

pub(crate) fn all_entries(alloc: Global, rows: &[Row]) -> Result<StoredList, Error>
    ensures value { IfOk result (λ list. list.entries.items ≡ map entry_of rows.now) }
    ensures typed { IfOk result (λ _. AllByRecursion HasEntryColumns rows.now) }
    ensures shown { IfOk result (λ list. list.is_placed ≡ true
        → map five_columns rows.now ≡ placed 0 list.entries.items) }
    ensures back { IfOk result (λ list. AllByRecursion IsReadBack list.entries.items) }
    ensures told { ErrMeans result (λ _. ¬ AllByRecursion ShowsEntry rows.now) }
{
    let mut entries = Vec::new(alloc);
    let mut is_placed = true;
    for row in rows {
        is_placed = is_next(is_placed, number_at(row, 0)?, entries.len());
        entries.push(entry_of(alloc, row)?)?;
    }
    Ok(StoredList { entries, is_placed })
}

/// The entries of rows at the places 0, 1, 2, ..
pub(crate) fn placed_entries(alloc: Global, rows: &[Row]) -> Result<Vec<Entry>, Error>
    ensures shown { IfOk result (λ entries. map five_columns rows.now ≡ placed 0 entries.items) }
    ensures back { IfOk result (λ entries. AllByRecursion IsReadBack entries.items) }
{
    let list = all_entries(alloc, rows)?;
    if list.is_placed {
        Ok(list.entries)
    } else {
        Err(bad_value())
    }
}

pub(crate) fn all_nodes(alloc: Global, rows: &[Row]) -> Result<Vec<Node>, Error>
    ensures value { IfOk result (λ nodes. nodes.items ≡ map node_of rows.now) }
{
    let mut nodes = Vec::new(alloc);
    for row in rows {
        nodes.push(node_of(alloc, row)?)?;
    }
    Ok(nodes)
}

/// What a row that shows name and kind lists: none where it has no name.
fn listed_of(alloc: Global, row: &Row) -> Result<Option<(FileName, Kind)>, Error>
    ensures value { IfOk result (λ listed. listed ≡ listed_of row.now) }
{
    let name = name_at(alloc, row, 0)?;
    let kind = kind_at(row, 1)?;
    match name {
        Some(name) => Ok(Some((name, kind))),
        None => Ok(None),
    }
}

pub(crate) fn all_names(alloc: Global, rows: &[Row]) -> Result<Vec<(FileName, Kind)>, Error>
    ensures value { IfOk result (λ names. names.items ≡ filter_map listed_of rows.now) }
{
    let mut names = Vec::new(alloc);
    for row in rows {
        if let Some(listed) = listed_of(alloc, row)? {
            names.push(listed)?;
        }
    }
    Ok(names)
}

/// The one row, as a node.
pub(crate) fn one_node(alloc: Global, rows: &[Row]) -> Result<Option<Node>, Error>
    ensures value { IfOk result (λ node. node ≡ option_map node_of (only rows.now)) }
{
    match rows {
        [row] => Ok(Some(node_of(alloc, row)?)),
        _ => Ok(None),
    }
}

/// The first row, as a node.
pub(crate) fn first_node(alloc: Global, rows: &[Row]) -> Result<Option<Node>, Error>
    ensures value { IfOk result (λ node. node ≡ option_map node_of (slice_get rows.now 0)) }
{
    match rows {
        [row, ..] => Ok(Some(node_of(alloc, row)?)),
        _ => Ok(None),
    }
}

/// How many rows the one row says there are. A count of 2^63 - 1 or more is not told exactly, and an error; else one
/// comes of want of memory alone.
pub(crate) fn one_count(rows: &[Row]) -> Result<u64, Error>
    ensures value { IfOk result (λ count. (n : ℕ) → rows.now ≡ counted_row n ∷ [] → count ≡ n) }
    ensures told { IfErr result (λ e. e ≢ Error.SqliteFailure ErrorCode.OutOfMemory
        → (n : ℕ) → n < 2 ^ 63 - 1 → rows.now ≢ counted_row n ∷ []) }
{
    match rows {
        [row] => {
            let count: u64 = row.get(0)?;
            if count < i64::MAX as u64 {
                Ok(count)
            } else {
                Err(bad_value())
            }
        },
        _ => Err(bad_value()),
    }
}

/// The bytes of the one row, none where there is no row.
pub(crate) fn one_doc(alloc: Global, rows: &[Row]) -> Result<Vec<u8>, Error>
    ensures value { IfOk result (λ bytes. bytes.items
        ≡ unwrap_or (option_map (λ row. blob_in (column row 0)) (only rows.now)) []) }
{
    match rows {
        [row] => row.get(0),
        _ => Ok(Vec::new(alloc)),
    }
}

fn slot_count_at(row: &Row, at: usize) -> Result<SlotCount, Error>
    ensures value { IfOk result (λ slots. slots ≡ number_in (column row.now at)) }
{
    let number = number_at(row, at)?;
    SlotCount::new(number).ok_or(bad_value())
}

fn sid_copy(alloc: Global, sid: &Sid) -> Result<Sid, Error>
    ensures value { IfOk result (λ copy. copy ≡ sid.now) }
{
    Sid::new(alloc, sid.text())?.ok_or(bad_value())
}

/// The session of a row that shows owner, slots and whether it is open.
fn session_of(alloc: Global, sid: &Sid, row: &Row) -> Result<SessionRow, Error>
    ensures value { IfOk result (λ session. session ≡ session_stored sid.now row.now) }
{
    let owner = principal_at(alloc, row, 0)?;
    let slots = slot_count_at(row, 1)?;
    let is_open = flag_at(row, 2)?;
    let sid = sid_copy(alloc, sid)?;
    Ok(SessionRow {
        sid,
        owner,
        slots,
        is_open,
    })
}

/// How long a document is, and 0 where there is none.
pub(crate) fn one_size(rows: &[Row]) -> Result<u64, Error>
    ensures value { IfOk result (λ size. size ≡ size_in rows.now) }
{
    match rows {
        [row] => row.get(0),
        _ => Ok(0),
    }
}

/// The one row, as the session of this name.
pub(crate) fn one_session(
    alloc: Global,
    sid: &Sid,
    rows: &[Row],
) -> Result<Option<SessionRow>, Error>
    ensures value { IfOk result (λ session. session ≡ option_map (session_stored sid.now) (only rows.now)) }
{
    match rows {
        [row] => Ok(Some(session_of(alloc, sid, row)?)),
        _ => Ok(None),
    }
}

fn bytes_at(row: &Row, at: usize) -> Result<Vec<u8>, Error>
    ensures value { IfOk result (λ bytes. bytes.items ≡ blob_in (column row.now at)) }
{
    row.get(at)
}

/// A reply, none where it is not kept.
fn reply_at(row: &Row, at: usize) -> Result<Option<Vec<u8>>, Error>
    ensures value { IfOk result (λ reply. option_map (λ r. r.items) reply ≡ reply_in (column row.now at)) }
{
    row.get(at)
}

/// What a slot keeps, of a row that shows number, request and reply.
fn kept_of(row: &Row) -> Result<Kept, Error>
    ensures value { IfOk result (λ kept. kept ≡ kept_of row.now) }
{
    let seq = number_at(row, 0)?;
    let request = bytes_at(row, 1)?;
    let reply = reply_at(row, 2)?;
    Ok(Kept {
        seq,
        request,
        reply,
    })
}

/// The one row, as what a slot keeps.
pub(crate) fn one_kept(rows: &[Row]) -> Result<Option<Kept>, Error>
    ensures value { IfOk result (λ kept. kept ≡ option_map kept_of (only rows.now)) }
{
    match rows {
        [row] => Ok(Some(kept_of(row)?)),
        _ => Ok(None),
    }
}

/// The number of the one row, none where there is no row.
pub(crate) fn one_seq(rows: &[Row]) -> Result<Option<u32>, Error>
    ensures value { IfOk result (λ seq. seq ≡ option_map seq_stored (only rows.now)) }
{
    match rows {
        [row] => Ok(Some(number_at(row, 0)?)),
        _ => Ok(None),
    }
}

/// The number of the one row.
pub(crate) fn one_number(rows: &[Row]) -> Result<u32, Error>
    ensures value { IfOk result
        (λ number. number ≡ unwrap_or (option_map (λ row. number_in (column row 0)) (only rows.now)) 0) }
{
    match rows {
        [row] => number_at(row, 0),
        _ => Err(bad_value()),
    }
}
