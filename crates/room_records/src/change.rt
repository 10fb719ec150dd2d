//! Changes of the rows.
ghost use Rattle.std.specs.Prelude.{◌≡◌, IfOk, map};
ghost use Rattle.room_records.specs.Records.{Records};
ghost use Rattle.room_records.specs.Changes.{apply_change};

use crate::names::Sid;
use crate::node::Node;
use crate::session::{SessionRow, SlotRow};
use room_acl::{Entry, copy_entries};
use std::alloc::{AllocError, Global};

/// One change of the rows.
#[derive(Debug, Drop)]
pub enum Change {
    /// Adds or replaces the row of its number.
    PutNode(Node),
    /// Removes the row with its entries and bytes.
    DropNode(u32),
    /// Replaces all entries of an object.
    PutEntries(u32, Vec<Entry>),
    /// Adds or replaces the bytes of a file.
    PutDoc(u32, Vec<u8>),
    PutSession(SessionRow),
    PutSlot(SlotRow),
    /// Removes the slot rows of a session.
    DropSlots(Sid),
    /// Sets the next number.
    PutNext(u32),
}

impl Change {
    /// A change that does the same to all records.
    pub fn clone(&self, alloc: Global) -> Result<Change, AllocError>
        ensures { IfOk result (λ copy. (r : Records) → apply_change copy r ≡ apply_change self.now r) }
    {
        match self {
            Change::PutNode(node) => Ok(Change::PutNode(node.clone()?)),
            Change::DropNode(id) => Ok(Change::DropNode(*id)),
            Change::PutEntries(id, entries) => {
                Ok(Change::PutEntries(*id, copy_entries(alloc, entries)?))
            }
            Change::PutDoc(id, bytes) => Ok(Change::PutDoc(*id, bytes.clone()?)),
            Change::PutSession(row) => Ok(Change::PutSession(row.clone()?)),
            Change::PutSlot(row) => Ok(Change::PutSlot(row.clone()?)),
            Change::DropSlots(sid) => Ok(Change::DropSlots(sid.clone()?)),
            Change::PutNext(next) => Ok(Change::PutNext(*next)),
        }
    }
}
