//! What a fresh room has: a root folder with two entries of its own.
ghost use Rattle.std.specs.Prelude.{◌≡◌, IfOk, IsTrue};
ghost use Rattle.room_acl.specs.Bits.{inherit_flags};
ghost use Rattle.room_acl.specs.Entries.{names_its_kind};
ghost use Rattle.room_records.specs.Room.{fresh_entry, fresh_entries};
ghost use Rattle.room_records.specs.Fresh.{fresh_root};

use crate::node::{Node, ROOT};
use room_acl::{Entry, Flags, Kind, ListFlags, Mask, Principal, Who};
use std::alloc::{AllocError, Global};

/// The root folder of a fresh room, of this owner and group, without list flags.
pub fn fresh_root(owner: Principal, group: Principal) -> Node
    ensures { result ≡ fresh_root owner group }
{
    Node {
        id: ROOT,
        parent: None,
        name: None,
        kind: Kind::Folder,
        owner,
        group,
        aclflag: ListFlags::NONE,
    }
}

/// Its own entries: the owner may do everything, and the group may list, read and traverse. Files and folders
/// inherit both. AllocError where memory is refused.
pub fn fresh_entries(alloc: Global) -> Result<Vec<Entry>, AllocError>
    ensures { IfOk result (λ entries. entries.items ≡ fresh_entries) }
{
    let mut entries = Vec::new(alloc);
    entries.push(fresh_entry(Who::Owner, Mask::ALL))?;
    entries.push(fresh_entry(Who::Group, Mask::READING))?;
    Ok(entries)
}

/// An entry that allows these rights, and that files and folders inherit.
fn fresh_entry(who: Who, mask: Mask) -> Entry
    requires { IsTrue (names_its_kind inherit_flags who) }
    ensures { result ≡ fresh_entry who mask }
{
    let Some(entry) = Entry::new(true, Flags::INHERIT, mask, who) else {
        unreachable!()
    };
    entry
}
