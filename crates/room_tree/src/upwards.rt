//! Lists, found from below. Commands read them from their rows; tests compare the two.
ghost use Rattle.std.specs.Prelude.{◌≡◌, ◌≤◌, [], length, None, Some, IfOk, OnOk, Err, if◌then◌else◌};
ghost use Rattle.room_records.specs.Names.{Path as PathModel};
ghost use Rattle.room_records.specs.Representation.{HasPath, RepresentsRoom};
ghost use Rattle.room_records.specs.Room.{Room, list_of, follows};
ghost use Rattle.room_records.specs.Shelf.{ShelfRead, fault_in};
ghost use Rattle.room_tree.specs.LoadedObjects.{OfRoom};

use room_acl::{Entry, own_part, with_inherited};
use room_records::{MAX_NAMES, Node, Shelf, ShelfFault};
use std::alloc::Global;

/// Folders above an object, at most.
const LEVELS: u32 = MAX_NAMES as u32;

/// The folder whose list an object with this row goes on with, if there is one.
fn folder_followed(node: &Node) -> Option<u32>
    ensures { result ≡ (if follows node.now.aclflag then node.now.parent else None) }
{
    if node.aclflag.follows() {
        node.parent
    } else {
        None
    }
}

/// The list of the object with this row, by at most `levels` folders above it. It reads no folder that the list does
/// not go on with.
fn list_within<S: Shelf>(
    alloc: Global,
    shelf: &mut S,
    node: &Node,
    levels: u32,
) -> Result<Vec<Entry>, ShelfFault>
    ensures value { OfRoom (S.view shelf.old) (S.view shelf.new) (λ t room. (path : PathModel)
        → HasPath t path node.now.id →
        t.node node.now.id ≡ Some node.now → length path ≤ levels
        → IfOk result (λ list. list.items ≡ list_of room path)) }
    ensures there { (S.view shelf.new).is_intact → OnOk result (S.view shelf.new).is_available }
    ensures frame { ShelfRead (S.view shelf.old) (S.view shelf.new) (fault_in result) }
{
    let stored = shelf.entries(node.id)?;
    let own = own_part(alloc, stored.as_slice())?;
    let Some(folder) = folder_followed(node) else {
        return Ok(own);
    };
    if levels == 0 {
        return Ok(own);
    }
    let Some(above) = shelf.node(folder)? else {
        return Ok(own);
    };
    let given = list_within(alloc, shelf, &above, levels - 1)?;
    let list = with_inherited(alloc, own, node.aclflag, node.kind, given.as_slice())?;
    Ok(list)
}

/// The whole list of the object of this number, from scratch: its own entries, which are those without the mark, then,
/// where it follows, what its folder's list hands down. It reads at most 17 objects, whatever the rows are: the object
/// and the folders above it. Where no object has the number, the list is empty.
pub fn list_upwards<S: Shelf>(
    alloc: Global,
    shelf: &mut S,
    id: u32,
) -> Result<Vec<Entry>, ShelfFault>
    ensures value { (S.view shelf.new).is_available → (S.view shelf.old).is_laid_out
        → (room : Room) → RepresentsRoom (S.view shelf.old).records.objects room →
        (path : PathModel) → HasPath (S.view shelf.old).records.objects path id
        → IfOk result (λ list. list.items ≡ list_of room path) }
    ensures absent { (S.view shelf.new).is_available → (S.view shelf.old).is_laid_out
        → (S.view shelf.old).records.objects.node id ≡ None → IfOk result (λ list. list.items ≡ []) }
    ensures there { (S.view shelf.new).is_intact → OnOk result (S.view shelf.new).is_available }
    ensures frame { ShelfRead (S.view shelf.old) (S.view shelf.new) (fault_in result) }
{
    let Some(node) = shelf.node(id)? else {
        return Ok(Vec::new(alloc));
    };
    list_within(alloc, shelf, &node, LEVELS)
}
