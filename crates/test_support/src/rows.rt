//! Rows of a room, and changes of them.
use crate::names::{file_name, named, session_name};
use room_acl::{Kind, ListFlags};
use room_records::{Change, Node, SessionRow, Shelf, SlotCount, SlotRow};
use room_slots::Kept;
use std::alloc::Global;
use std::test::Fail;

/// A file or folder in the root, of `ann` and `eng`, with no list flags.
pub fn node_in_root(alloc: Global, id: u32, name: &str, kind: Kind) -> Result<Node, Fail> {
    Ok(Node {
        id,
        parent: Some(1),
        name: Some(file_name(alloc, name)?),
        kind,
        owner: named(alloc, "ann")?,
        group: named(alloc, "eng")?,
        aclflag: ListFlags::new(0).ok_or("no list flags")?,
    })
}

/// A session of `ann` under this name.
pub fn session_row(alloc: Global, sid: &str, slots: u32, is_open: bool) -> Result<Change, Fail> {
    Ok(Change::PutSession(SessionRow {
        sid: session_name(alloc, sid)?,
        owner: named(alloc, "ann")?,
        slots: SlotCount::new(slots).ok_or("no number of slots")?,
        is_open,
    }))
}

/// What a slot keeps: this number, two bytes, and this reply, if any.
pub fn slot_row(
    alloc: Global,
    sid: &str,
    slot: u32,
    seq: u32,
    reply: Option<Vec<u8>>,
) -> Result<Change, Fail> {
    Ok(Change::PutSlot(SlotRow {
        sid: session_name(alloc, sid)?,
        slot,
        kept: Kept {
            seq,
            request: vec![in alloc; 0u8, 255u8]?,
            reply,
        },
    }))
}

/// All of the changes are made at once.
pub fn commit<S: Shelf>(shelf: &mut S, changes: Vec<Change>) -> Result<(), Fail> {
    Ok(shelf.commit(changes.as_slice())?)
}
