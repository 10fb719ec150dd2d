//! Values of a room as the tables hold them.

ghost use Rattle.std.specs.Prelude.{◌≡◌, [], ◌∷◌, true};
ghost use Rattle.sqlite_value.specs.declared.value.Value.TheVariants.{Blob};
ghost use Rattle.sqlite.specs.Values.{bound, or_null};
ghost use Rattle.room_acl.specs.Entries.{who_text};
ghost use Rattle.room_tables.specs.Rows.{name_of_text, who_of};
ghost use Rattle.room_tables.specs.Layout.{parent_value, reply_value};
ghost use Rattle.room_tables.specs.Steps.{kind_number, flag_of, type_of, shown_as, IsReadBack};

use room_acl::{Entry, Kind, same_entries};
use room_records::Node;
use room_slots::Kept;
use sqlite::types::{ToSql, Value, ValueRef};
use std::slice::from_ref;

/// The name of a node, and the empty text for the root's.
pub(crate) fn name_text(node: &Node) -> &str
    ensures { name_of_text result.now ≡ node.now.name }
{
    match &node.name {
        Some(name) => name.text(),
        None => "",
    }
}

pub(crate) fn node_number(node: &Node) -> u32
    ensures { result ≡ node.now.id }
{
    node.id
}

/// The parent's number, and NULL for the root.
pub(crate) fn parent_value(node: &Node) -> Value
    ensures { result ≡ parent_value node.now.parent }
{
    match node.parent {
        Some(parent) => Value::Int(i64::from(parent)),
        None => Value::Null,
    }
}

/// 0 for a file and 1 for a folder.
pub(crate) fn kind_number(node: &Node) -> u32
    ensures { result ≡ kind_number node.now.kind }
{
    match node.kind {
        Kind::File => 0,
        Kind::Folder => 1,
    }
}

pub(crate) fn owner_text(node: &Node) -> &str
    ensures { result.now ≡ node.now.owner }
{
    node.owner.text()
}

pub(crate) fn group_text(node: &Node) -> &str
    ensures { result.now ≡ node.now.group }
{
    node.group.text()
}

pub(crate) fn list_flags(node: &Node) -> u32
    ensures { result ≡ node.now.aclflag }
{
    u32::from(node.aclflag.bits())
}

pub(crate) fn flag_number(flag: bool) -> u32
    ensures { result ≡ flag_of flag }
{
    if flag { 1 } else { 0 }
}

pub(crate) fn kept_number(kept: &Kept) -> u32
    ensures { result ≡ kept.now.seq }
{
    kept.seq
}

pub(crate) fn kept_request(kept: &Kept) -> &[u8]
    ensures { result.now ≡ kept.now.request }
{
    kept.request.as_slice()
}

/// The reply, and NULL where it is not kept.
pub(crate) fn kept_reply(kept: &Kept) -> Option<&[u8]>
    ensures { or_null (λ r. Blob r.now) result ≡ reply_value kept.now.reply }
{
    match &kept.reply {
        Some(reply) => Some(reply.as_slice()),
        None => None,
    }
}

/// 0 is ALLOW and 1 is DENY.
fn type_number(entry: &Entry) -> u32
    ensures { result ≡ type_of entry.now.allow }
{
    if entry.allow() { 0 } else { 1 }
}

fn entry_flags(entry: &Entry) -> u32
    ensures { result ≡ entry.now.flags }
{
    u32::from(entry.flags().bits())
}

fn entry_mask(entry: &Entry) -> u32
    ensures { result ≡ entry.now.mask }
{
    entry.mask().bits()
}

/// Whom the entry names, as text that is read back as the same.
fn who_text(entry: &Entry) -> &str
    ensures value { result.now ≡ who_text entry.now.who }
    ensures back { who_of entry.now.flags result.now ≡ entry.now.who }
{
    entry.who().text()
}

/// Whether two entries are one.
pub(crate) fn is_same(a: &Entry, b: &Entry) -> bool
    ensures { result ≡ true → a.now ≡ b.now }
{
    same_entries(from_ref(a), from_ref(b))
}

/// The columns of an entry behind its node's number.
#[derive(Clone, Copy)]
pub(crate) struct EntryRow<'a> {
    pub(crate) place: ValueRef<'a>,
    pub(crate) kind: ValueRef<'a>,
    pub(crate) flags: ValueRef<'a>,
    pub(crate) mask: ValueRef<'a>,
    pub(crate) who: ValueRef<'a>,
}

pub(crate) fn entry_row(place: u32, entry: &Entry) -> EntryRow<'_>
    ensures row { bound (result.place ∷ result.kind ∷ result.flags ∷ result.mask ∷ result.who ∷ [])
        ≡ shown_as place entry.now }
    ensures back { IsReadBack entry.now }
{
    EntryRow {
        place: place.to_sql(),
        kind: type_number(entry).to_sql(),
        flags: entry_flags(entry).to_sql(),
        mask: entry_mask(entry).to_sql(),
        who: who_text(entry).to_sql(),
    }
}
