//! Replies as text: compact JSON, with members in byte order of their names.
ghost use Rattle.std.specs.Prelude.{◌≡◌, [], ◌∷◌, IfOk, None, codes};
ghost use Rattle.json.specs.Token.{Token as SpecToken};
ghost use Rattle.json.specs.Tree.{json_tokens, items_tokens};
ghost use Rattle.serde_json.specs.Data.{array, string};
ghost use Rattle.serde_json.specs.Written.{outline, items_outline, compact_text};
ghost use Rattle.room_commands.specs.ReplyModel.{reply_model};
ghost use Rattle.room_wire.specs.Forms.Texts.{num, obj, ok, at, refusal_of, refusal_data, reply_text};
ghost use Rattle.room_wire.specs.Forms.Texts as T;
ghost use Rattle.room_wire.specs.Forms.Writing.{Adds};

use crate::forms::letters::append_letters;
use crate::forms::writing::{
    SHORT_MEMBERS, begun, ended, entries_member, number_member, reserved, size_of_entries,
    text_member,
};
use json::Writer;
use room_acl::{Entry, Kind, ListFlags, Mask, Principal};
use room_commands::{RefusalCode, Reply};
use room_records::{FileName, Path};
use std::alloc::{AllocError, Global};

fn kind_text(kind: Kind) -> &'static str
    ensures { string result.now ≡ T.kind kind }
{
    match kind {
        Kind::File => "file",
        Kind::Folder => "folder",
    }
}

/// The number of a refusal in a slot.
fn refusal_number(code: RefusalCode) -> u64
    ensures { result ≡ (refusal_of code).0 }
{
    match code {
        RefusalCode::NoEnt => 1,
        RefusalCode::NotDir => 2,
        RefusalCode::IsDir => 3,
        RefusalCode::Exist => 4,
        RefusalCode::Access => 5,
        RefusalCode::NotEmpty => 6,
        RefusalCode::Inval => 7,
        RefusalCode::AttrNotSupp => 8,
        RefusalCode::FBig => 9,
        RefusalCode::TooDeep => 10,
        RefusalCode::FolderFull => 11,
        RefusalCode::RoomFull => 12,
    }
}

/// The name of a refusal in a slot.
fn refusal_name(code: RefusalCode) -> &'static str
    ensures { result.now ≡ (refusal_of code).1 }
{
    match code {
        RefusalCode::NoEnt => "NOENT",
        RefusalCode::NotDir => "NOTDIR",
        RefusalCode::IsDir => "ISDIR",
        RefusalCode::Exist => "EXIST",
        RefusalCode::Access => "ACCESS",
        RefusalCode::NotEmpty => "NOTEMPTY",
        RefusalCode::Inval => "INVAL",
        RefusalCode::AttrNotSupp => "ATTRNOTSUPP",
        RefusalCode::FBig => "FBIG",
        RefusalCode::TooDeep => "TOO_DEEP",
        RefusalCode::FolderFull => "FOLDER_FULL",
        RefusalCode::RoomFull => "ROOM_FULL",
    }
}

/// Bytes that are reserved for a child's name with its kind.
const NAME_AND_KIND: usize = 48;

fn done_text(alloc: Global) -> Result<Vec<u8>, AllocError>
    ensures { IfOk result (λ text. text.items ≡ compact_text (obj (ok ∷ []))) }
{
    let mut out = begun(alloc, SHORT_MEMBERS)?;
    number_member(&mut out, "code", 0)?;
    ended(out)
}

fn opened_text(alloc: Global, slots: u32) -> Result<Vec<u8>, AllocError>
    ensures { IfOk result (λ text. text.items ≡ compact_text (obj (ok ∷ (codes "slots", num slots) ∷ []))) }
{
    let mut out = begun(alloc, SHORT_MEMBERS)?;
    number_member(&mut out, "code", 0)?;
    number_member(&mut out, "slots", u64::from(slots))?;
    ended(out)
}

fn stat_text(
    alloc: Global,
    aclflag: ListFlags,
    group: &Principal,
    kind: Kind,
    owner: &Principal,
    size: u32,
) -> Result<Vec<u8>, AllocError>
    ensures { IfOk result (λ text. text.items
        ≡ compact_text (obj ((codes "aclflag", num aclflag) ∷ ok ∷ (codes "group", string group.now)
        ∷ (codes "kind", T.kind kind) ∷ (codes "owner", string owner.now) ∷ (codes "size", num size) ∷ []))) }
{
    let mut out = begun(alloc, SHORT_MEMBERS)?;
    number_member(&mut out, "aclflag", u64::from(aclflag.bits()))?;
    number_member(&mut out, "code", 0)?;
    text_member(&mut out, "group", group.text())?;
    text_member(&mut out, "kind", kind_text(kind))?;
    text_member(&mut out, "owner", owner.text())?;
    number_member(&mut out, "size", u64::from(size))?;
    ended(out)
}

fn size_text(alloc: Global, size: u32) -> Result<Vec<u8>, AllocError>
    ensures { IfOk result (λ text. text.items ≡ compact_text (obj (ok ∷ (codes "size", num size) ∷ []))) }
{
    let mut out = begun(alloc, SHORT_MEMBERS)?;
    number_member(&mut out, "code", 0)?;
    number_member(&mut out, "size", u64::from(size))?;
    ended(out)
}

/// The bytes of a document, in base64 with padding (RFC 4648), of which no letter is escaped.
fn bytes_text(alloc: Global, bytes: &[u8]) -> Result<Vec<u8>, AllocError>
    ensures { IfOk result (λ text. text.items ≡ compact_text (obj (ok ∷ (codes "data", T.bytes bytes.now) ∷ []))) }
{
    let mut text = reserved(alloc, bytes.len(), SHORT_MEMBERS)?;
    text.extend_from_slice(b"{\"code\":0,\"data\":\"")?;
    append_letters(&mut text, bytes)?;
    text.extend_from_slice(b"\"}")?;
    Ok(text)
}

fn entries_text(alloc: Global, aclflag: ListFlags, entries: &[Entry]) -> Result<Vec<u8>, AllocError>
    ensures { IfOk result (λ text. text.items
        ≡ compact_text (obj ((codes "aclflag", num aclflag) ∷ ok
        ∷ (codes "entries", array (T.entries entries.now)) ∷ []))) }
{
    let mut out = begun(alloc, size_of_entries(entries.len()))?;
    number_member(&mut out, "aclflag", u64::from(aclflag.bits()))?;
    number_member(&mut out, "code", 0)?;
    entries_member(&mut out, entries)?;
    ended(out)
}

fn allowed_text(alloc: Global, mask: Mask) -> Result<Vec<u8>, AllocError>
    ensures { IfOk result (λ text. text.items ≡ compact_text (obj ((codes "allowed", num mask) ∷ ok ∷ []))) }
{
    let mut out = begun(alloc, SHORT_MEMBERS)?;
    number_member(&mut out, "allowed", u64::from(mask.bits()))?;
    number_member(&mut out, "code", 0)?;
    ended(out)
}

/// A refusal that names no place.
pub(crate) fn refused_text(alloc: Global, code: RefusalCode) -> Result<Vec<u8>, AllocError>
    ensures { IfOk result (λ text. text.items ≡ compact_text (refusal_data code None)) }
{
    let mut out = begun(alloc, SHORT_MEMBERS)?;
    number_member(&mut out, "code", refusal_number(code))?;
    text_member(&mut out, "error", refusal_name(code))?;
    ended(out)
}

/// A refusal that names a place: the path and the bit of an access that was denied.
fn refused_at_text(
    alloc: Global,
    code: RefusalCode,
    path: &Path,
    bit: u32,
) -> Result<Vec<u8>, AllocError>
    ensures { IfOk result (λ text. text.items
        ≡ compact_text (obj ((codes "bit", num bit) ∷ (codes "code", num (refusal_of code).0)
        ∷ (codes "error", string (refusal_of code).1) ∷ at path.now ∷ []))) }
{
    let place = path.text(alloc)?;
    let mut out = begun(alloc, place.len().saturating_add(SHORT_MEMBERS))?;
    number_member(&mut out, "bit", u64::from(bit))?;
    number_member(&mut out, "code", refusal_number(code))?;
    text_member(&mut out, "error", refusal_name(code))?;
    text_member(&mut out, "path", place.as_str())?;
    ended(out)
}

fn name_item(out: &mut Writer, name: &FileName, kind: Kind) -> Result<(), AllocError>
    ensures { Adds result out.old out.new (json_tokens (outline (T.named_child (name.now, kind)))) }
{
    out.begin_array()?;
    out.string(name.text())?;
    out.string(kind_text(kind))?;
    out.end_array()
}

/// The member `names`: the children of a folder in their order.
fn names_member(out: &mut Writer, names: &[(FileName, Kind)]) -> Result<(), AllocError>
    ensures { Adds result out.old out.new (SpecToken.key (codes "names")
        ∷ SpecToken.begin_array ∷ items_tokens (items_outline (T.named names.now))) }
{
    out.key("names")?;
    out.begin_array()?;
    for (name, kind) in names {
        name_item(out, name, *kind)?;
    }
    out.end_array()
}

fn names_text(alloc: Global, names: &[(FileName, Kind)]) -> Result<Vec<u8>, AllocError>
    ensures { IfOk result (λ text. text.items
        ≡ compact_text (obj (ok ∷ (codes "names", array (T.named names.now)) ∷ []))) }
{
    let mut out = begun(
        alloc,
        names
            .len()
            .saturating_mul(NAME_AND_KIND)
            .saturating_add(SHORT_MEMBERS),
    )?;
    number_member(&mut out, "code", 0)?;
    names_member(&mut out, names)?;
    ended(out)
}

/// The reply as it is sent and kept.
///
/// # Errors
///
/// Only where memory was refused.
pub fn reply_text(alloc: Global, reply: &Reply) -> Result<Vec<u8>, AllocError>
    ensures { IfOk result (λ text. text.items ≡ reply_text (reply_model reply.now)) }
{
    match reply {
        Reply::Done => done_text(alloc),
        Reply::Opened(slots) => opened_text(alloc, slots.get()),
        Reply::Stat {
            aclflag,
            group,
            kind,
            owner,
            size,
        } => stat_text(alloc, *aclflag, group, *kind, owner, *size),
        Reply::Names(names) => names_text(alloc, names),
        Reply::Size(size) => size_text(alloc, *size),
        Reply::Bytes(bytes) => bytes_text(alloc, bytes),
        Reply::Entries { aclflag, entries } => entries_text(alloc, *aclflag, entries),
        Reply::Allowed(mask) => allowed_text(alloc, *mask),
        Reply::Refused { code, place } => match place {
            Some((path, bit)) => refused_at_text(alloc, *code, path, *bit),
            None => refused_text(alloc, *code),
        },
    }
}
