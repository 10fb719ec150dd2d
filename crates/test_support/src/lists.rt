//! Whether the lists of a room are whole.
use room_acl::Entry;
use room_records::{MAX_NAMES, Shelf, ShelfFault};
use room_tree::list_upwards;
use std::alloc::Global;

/// The flags tell a user from a group.
fn is_same_entry(a: &Entry, b: &Entry) -> bool {
    a.allow() == b.allow()
        && a.flags().bits() == b.flags().bits()
        && a.mask().bits() == b.mask().bits()
        && a.who().text() == b.who().text()
}

/// Whether two lists have the same entries in the same order.
fn are_same_entries(a: &[Entry], b: &[Entry]) -> bool {
    if a.len() != b.len() {
        return false;
    }
    for (one, other) in a.iter().zip(b) {
        if !is_same_entry(one, other) {
            return false;
        }
    }
    true
}

/// Whether the stored list of an object is its list from scratch.
fn is_whole<S: Shelf>(alloc: Global, shelf: &mut S, id: u32) -> Result<bool, ShelfFault> {
    let stored = shelf.entries(id)?;
    let from_scratch = list_upwards(alloc, shelf, id)?;
    Ok(are_same_entries(stored.as_slice(), from_scratch.as_slice()))
}

/// The first of an object and those at most so many levels below it whose stored list is another than from scratch.
fn other_list_within<S: Shelf>(
    alloc: Global,
    shelf: &mut S,
    id: u32,
    levels: usize,
) -> Result<Option<u32>, ShelfFault> {
    if !is_whole(alloc, shelf, id)? {
        return Ok(Some(id));
    }
    if levels == 0 {
        return Ok(None);
    }
    let nodes = shelf.children(id)?;
    for node in &nodes {
        let found = other_list_within(alloc, shelf, node.id, levels - 1)?;
        if found.is_some() {
            return Ok(found);
        }
    }
    Ok(None)
}

/// The number of an object whose stored list is another than its list from scratch. None where each is whole.
pub fn other_list<S: Shelf>(alloc: Global, shelf: &mut S) -> Result<Option<u32>, ShelfFault> {
    other_list_within(alloc, shelf, 1, MAX_NAMES)
}
