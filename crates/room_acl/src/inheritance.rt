//! What a folder's list hands down, and which entries an object may have of its own. All of it is our own rule.
ghost use Rattle.std.specs.Prelude.{◌≡◌, IfOk, IfSome, IsOk, ◌↔◌, ◌<◌, ◌≤◌, IsTrue, length};
ghost use Rattle.std.specs.List.{list_all};
ghost use Rattle.std.specs.Result.{result_err};
ghost use Rattle.room_acl.specs.Bits.{identifier_group};
ghost use Rattle.room_acl.specs.Inheritance.{handed_down, own_part, with_inherited, own_entries_fault, may_be_own};
ghost use Rattle.room_acl.specs.Inheritance.{flags_handed_down, flags_with_group, row_of, max_own_entries};
ghost use Rattle.room_acl.specs.Inheritance.{HandsDownTwice, HandsDownMarked, HandsDownEntries, HandsDownToOwn};

use crate::entry::Entry;
use crate::flags::{
    DIRECTORY_INHERIT, FILE_INHERIT, Flags, IDENTIFIER_GROUP, INHERIT_ONLY, INHERITANCE_FLAGS,
    INHERITED,
};
use crate::list_flags::ListFlags;
use crate::subject::Kind;
use std::alloc::{AllocError, Global};

/// Why entries may not be an object's own.
#[derive(Clone, Copy, Debug, PartialEq, Eq)]
pub enum ListFault {
    /// There are more than 32.
    Inval,
    /// One of them has flags that it may not have there.
    AttrNotSupp,
}

/// The own entries that an object may have.
const MAX_OWN_ENTRIES: usize = 32;

/// The flags of an entry given that is not handed on.
const MARK_ALONE: u8 = INHERITED;

/// The same that is handed on to folders.
const MARK_FOR_FOLDERS: u8 = INHERITED | DIRECTORY_INHERIT;

/// The same that is handed on to files and folders.
const MARK_FOR_BOTH: u8 = INHERITED | DIRECTORY_INHERIT | FILE_INHERIT;

/// The same that is handed on to files: on the folder that gets it it does not count.
const MARK_FOR_FILES: u8 = INHERITED | INHERIT_ONLY | FILE_INHERIT;

/// What a folder's list hands down to a child of this kind, in the order of the list.
///
/// An entry given has the type, mask and name of its source, the mark, and the flags that the table says.
/// AllocError where memory is refused.
pub fn hand_down(alloc: Global, entries: &[Entry], kind: Kind) -> Result<Vec<Entry>, AllocError>
    ensures { IfOk result (λ given. given.items ≡ handed_down entries.now kind) }
{
    let mut given = Vec::new(alloc);
    for entry in entries {
        if let Some(flags) = given_flags(entry.flags(), kind) {
            given.push(entry.with_flags(flags)?)?;
        }
    }
    Ok(given)
}

/// The own entries of a whole list: those without the mark, in their order. AllocError where memory is refused.
pub fn own_part(alloc: Global, entries: &[Entry]) -> Result<Vec<Entry>, AllocError>
    ensures { IfOk result (λ own. own.items ≡ own_part entries.now) }
{
    let mut own = Vec::new(alloc);
    for entry in entries {
        if !entry.flags().is_inherited() {
            own.push(entry.clone()?)?;
        }
    }
    Ok(own)
}

/// The list of an object: its own entries, and then, where it follows, what the list of its folder hands
/// down. AllocError where memory is refused; the own entries are gone then.
pub fn with_inherited(
    alloc: Global,
    own: Vec<Entry>,
    aclflag: ListFlags,
    kind: Kind,
    above: &[Entry],
) -> Result<Vec<Entry>, AllocError>
    ensures { IfOk result (λ list. list.items ≡ with_inherited own.items aclflag kind above.now) }
{
    let mut list = own;
    if aclflag.follows() {
        let mut given = hand_down(alloc, above, kind)?;
        list.append(&mut given)?;
    }
    Ok(list)
}

/// The flags of what an entry with these flags gives to a child of this kind.
fn given_flags(flags: Flags, kind: Kind) -> Option<Flags>
    ensures value { result ≡ flags_with_group kind flags }
    ensures group { IfSome result (λ given. identifier_group given ≡ identifier_group flags) }
{
    let given = given_bits(flags, kind)?;
    Some(Flags::of_named(given | (flags.bits() & IDENTIFIER_GROUP)))
}

/// The same without IDENTIFIER_GROUP, by the table.
fn given_bits(flags: Flags, kind: Kind) -> Option<u8>
    ensures { result ≡ flags_handed_down kind flags }
{
    let (to_file, to_folder) = table_row(flags);
    match kind {
        Kind::File => to_file,
        Kind::Folder => to_folder,
    }
}

/// The row of the table for these flags: what goes to a file, and what to a folder.
fn table_row(flags: Flags) -> (Option<u8>, Option<u8>)
    ensures to_file { result.0 ≡ (row_of flags).to_file }
    ensures to_folder { result.1 ≡ (row_of flags).to_folder }
{
    match (
        flags.is_file_inherit(),
        flags.is_directory_inherit(),
        flags.is_no_propagate(),
    ) {
        (false, false, false) => (None, None),
        (false, false, true) => (None, None),
        (false, true, false) => (None, Some(MARK_FOR_FOLDERS)),
        (false, true, true) => (None, Some(MARK_ALONE)),
        (true, false, false) => (Some(MARK_ALONE), Some(MARK_FOR_FILES)),
        (true, false, true) => (Some(MARK_ALONE), None),
        (true, true, false) => (Some(MARK_ALONE), Some(MARK_FOR_BOTH)),
        (true, true, true) => (Some(MARK_ALONE), Some(MARK_ALONE)),
    }
}

/// Whether these may be the own entries of an object of this kind. Takes no memory.
///
/// The count is tested first: more than 32 are `Inval`. Then `AttrNotSupp` comes where an entry of a folder
/// has INHERIT_ONLY without FILE_INHERIT and without DIRECTORY_INHERIT, or an entry of a file has one of the
/// four flags of inheritance. The mark is not looked at.
pub fn check_own(entries: &[Entry], kind: Kind) -> Result<(), ListFault>
    ensures value { result_err result ≡ own_entries_fault entries.now kind }
    ensures too_many { (result ≡ Err ListFault.Inval) ↔ (max_own_entries < length entries.now) }
    ensures lawful { IsOk result
        ↔ ((length entries.now ≤ max_own_entries) × IsTrue (list_all (may_be_own kind) entries.now)) }
{
    if entries.len() > MAX_OWN_ENTRIES {
        return Err(ListFault::Inval);
    }
    if all_may_be_own(entries, kind) {
        Ok(())
    } else {
        Err(ListFault::AttrNotSupp)
    }
}

fn all_may_be_own(entries: &[Entry], kind: Kind) -> bool
    ensures { result ≡ list_all (may_be_own kind) entries.now }
{
    entries.iter().all(|entry| may_be_own(entry, kind))
}

fn may_be_own(entry: &Entry, kind: Kind) -> bool
    ensures { result ≡ may_be_own kind entry.now }
{
    let flags = entry.flags();
    match kind {
        Kind::File => flags.bits() & INHERITANCE_FLAGS == 0,
        Kind::Folder => {
            !flags.is_inherit_only() || flags.is_file_inherit() || flags.is_directory_inherit()
        }
    }
}

/// What the table is for, as laws of what is handed down. The call does nothing.
///
/// Handing down twice is handing down once what is meant to travel: the entries without
/// NO_PROPAGATE_INHERIT. What is handed down has always the mark, is lawful where its sources are, and may
/// be the own entries of what it comes to.
pub fn handing_down_laws()
    ensures twice { HandsDownTwice }
    ensures marked { HandsDownMarked }
    ensures entries { HandsDownEntries }
    ensures own { HandsDownToOwn }
{}
