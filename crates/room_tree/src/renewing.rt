//! Lists that change, and those below them.
ghost use Rattle.std.specs.Prelude.{◌≡◌, ◌≢◌, ◌+◌, ◌*◌, ◌≤◌, [], ◌∷◌, ◌++◌, length, true, Some, MatchOption};
ghost use Rattle.std.specs.Prelude.{IfOk, OnOk, OnErr};
ghost use Rattle.room_acl.specs.Bits.{follows};
ghost use Rattle.room_acl.specs.Inheritance.{with_inherited};
ghost use Rattle.room_records.specs.declared.node.Node.{Node as NodeRow};
ghost use Rattle.room_records.specs.Limits.{max_names};
ghost use Rattle.room_records.specs.Names.{Path as PathModel};
ghost use Rattle.room_records.specs.Representation.{HasPath, RepresentsRoom};
ghost use Rattle.room_records.specs.Room.{Room, list_under, object_at};
ghost use Rattle.room_records.specs.Shelf.{ShelfRead, fault_in};
ghost use Rattle.room_tree.specs.Asks.{at_or_below};
ghost use Rattle.room_tree.specs.LoadedObjects.{OfRoom};
ghost use Rattle.room_tree.specs.Renewals.{AddsEntries, AddsRenewals, PutsList, entries_of};

use room_acl::{Entry, Kind, ListFlags, own_part, same_entries, with_inherited};
use room_records::{Change, MAX_NAMES, Node, Shelf, ShelfFault};
use std::alloc::{AllocError, Global};

/// A list that changes; None where it is the stored one.
pub(crate) fn if_changed(stored: &[Entry], list: Vec<Entry>) -> Option<Vec<Entry>>
    ensures { MatchOption result (list.items ≡ stored.now)
        (λ changed. (changed.items ≡ list.items) × (list.items ≢ stored.now)) }
{
    if same_entries(stored, list.as_slice()) {
        None
    } else {
        Some(list)
    }
}

/// The list of the folder with this number, for an object with these
/// list flags. It is not read where the object does not follow.
fn list_above<S: Shelf>(
    alloc: Global,
    shelf: &mut S,
    folder: Option<u32>,
    aclflag: ListFlags,
) -> Result<Vec<Entry>, ShelfFault>
    ensures value { OfRoom (S.view shelf.old) (S.view shelf.new) (λ t room. IfOk result (λ above.
        follows aclflag ≡ true → above.items ≡ entries_of t folder)) }
    ensures frame { ShelfRead (S.view shelf.old) (S.view shelf.new) (fault_in result) }
    ensures asks { S.calls_left shelf.old ≤ S.calls_left shelf.new + 1 }
{
    match folder {
        Some(folder) if aclflag.follows() => shelf.entries(folder),
        _ => Ok(Vec::new(alloc)),
    }
}

/// The list of an object with these own entries and list flags in this folder; the root is in none.
pub(crate) fn list_in_folder<S: Shelf>(
    alloc: Global,
    shelf: &mut S,
    folder: Option<u32>,
    own: Vec<Entry>,
    aclflag: ListFlags,
    kind: Kind,
) -> Result<Vec<Entry>, ShelfFault>
    ensures value { OfRoom (S.view shelf.old) (S.view shelf.new) (λ t room. IfOk result (λ list.
        list.items ≡ with_inherited own.items aclflag kind (entries_of t folder))) }
    ensures frame { ShelfRead (S.view shelf.old) (S.view shelf.new) (fault_in result) }
    ensures asks { S.calls_left shelf.old ≤ S.calls_left shelf.new + 1 }
{
    let above = list_above(alloc, shelf, folder, aclflag)?;
    let list = with_inherited(alloc, own, aclflag, kind, above.as_slice())?;
    Ok(list)
}

/// The list of an object in a folder that gets this list, where it changes.
fn renewed_list<S: Shelf>(
    alloc: Global,
    shelf: &mut S,
    node: &Node,
    above: &[Entry],
) -> Result<Option<Vec<Entry>>, ShelfFault>
    ensures value { OfRoom (S.view shelf.old) (S.view shelf.new) (λ t room. (path : PathModel) →
        HasPath t path node.now.id → t.node node.now.id ≡ Some node.now → IfOk result (λ changed. MatchOption changed
        (t.entries node.now.id ≡ list_under (object_at room path) above.now)
        (λ list. (list.items ≡ list_under (object_at room path) above.now) × (list.items ≢ t.entries node.now.id)))) }
    ensures frame { ShelfRead (S.view shelf.old) (S.view shelf.new) (fault_in result) }
    ensures asks { S.calls_left shelf.old ≤ S.calls_left shelf.new + 1 }
{
    if !node.aclflag.follows() {
        return Ok(None);
    }
    let stored = shelf.entries(node.id)?;
    let own = own_part(alloc, stored.as_slice())?;
    let list = with_inherited(alloc, own, node.aclflag, node.kind, above)?;
    Ok(if_changed(stored.as_slice(), list))
}

/// The list of an object that goes to the folder of this number, where it changes. Where it does not follow, or is in
/// that folder, its list stays, and none is read.
pub(crate) fn moved_list<S: Shelf>(
    alloc: Global,
    shelf: &mut S,
    node: &Node,
    into: u32,
) -> Result<Option<Vec<Entry>>, ShelfFault>
    ensures value { OfRoom (S.view shelf.old) (S.view shelf.new) (λ t room. (path : PathModel) →
        HasPath t path node.now.id → t.node node.now.id ≡ Some node.now → IfOk result (λ changed. MatchOption changed
        (t.entries node.now.id ≡ list_under (object_at room path) (t.entries into))
        (λ list. (list.items ≡ list_under (object_at room path) (t.entries into))
        × (list.items ≢ t.entries node.now.id)))) }
    ensures frame { ShelfRead (S.view shelf.old) (S.view shelf.new) (fault_in result) }
    ensures asks { S.calls_left shelf.old ≤ S.calls_left shelf.new + 2 }
{
    if node.parent == Some(into) {
        return Ok(None);
    }
    let above = list_above(alloc, shelf, Some(into), node.aclflag)?;
    renewed_list(alloc, shelf, node, above.as_slice())
}

/// Adds a change behind the others. Where memory is refused they are as they were.
fn add_change(changes: &mut Vec<Change>, change: Change) -> Result<(), AllocError>
    ensures added { OnOk result (changes.new.items ≡ changes.old.items ++ change ∷ []) }
    ensures kept { OnErr result (changes.new.items ≡ changes.old.items) }
{
    changes.push(change)?;
    Ok(())
}

/// Adds the entries of each object below the one of this number and kind, at most so many levels down, whose list
/// changes where it gets this list: those below a child first, then the child's.
fn renew_within<S: Shelf>(
    alloc: Global,
    shelf: &mut S,
    id: u32,
    kind: Kind,
    list: &[Entry],
    levels: usize,
    out: &mut Vec<Change>,
) -> Result<(), ShelfFault>
    ensures value { OfRoom (S.view shelf.old) (S.view shelf.new) (λ t room. (path : PathModel) → HasPath t path id →
        (kind ≡ Kind.File → (node : NodeRow) → t.node id ≡ Some node → node.kind ≡ Kind.File)
        → max_names ≤ length path + levels →
        OnOk result (AddsRenewals t room path list.now out.old.items out.new.items)) }
    ensures frame { ShelfRead (S.view shelf.old) (S.view shelf.new) (fault_in result) }
    ensures asks { OfRoom (S.view shelf.old) (S.view shelf.new) (λ t room. (path : PathModel) → HasPath t path id →
        S.calls_left shelf.old + 1 ≤ S.calls_left shelf.new + 2 * at_or_below room path) }
    ensures adds { AddsEntries out.old.items out.new.items }
{
    if levels == 0 {
        return Ok(());
    }
    if let Kind::File = kind {
        return Ok(());
    }
    let nodes = shelf.children(id)?;
    for node in &nodes {
        let Some(renewed) = renewed_list(alloc, shelf, node, list)? else {
            continue;
        };
        renew_within(
            alloc,
            shelf,
            node.id,
            node.kind,
            renewed.as_slice(),
            levels - 1,
            out,
        )?;
        add_change(out, Change::PutEntries(node.id, renewed))?;
    }
    Ok(())
}

/// Adds one PutEntries for each object below the folder of this number whose list changes where the folder gets this
/// list. It goes down only through such objects, at most 16 levels: an object that does not follow, or whose list
/// stays, ends the way down. The folder's own entries are put by the caller.
///
/// # Errors
///
/// The fault of the shelf, or `Memory`. What stood in `out` is still its front then, and behind it stand some of the
/// PutEntries: taken off, they leave what was there.
pub fn renew<S: Shelf>(
    alloc: Global,
    shelf: &mut S,
    id: u32,
    list: &[Entry],
    out: &mut Vec<Change>,
) -> Result<(), ShelfFault>
    ensures value { (S.view shelf.new).is_available → (S.view shelf.old).is_laid_out → (room : Room) →
        RepresentsRoom (S.view shelf.old).records.objects room → (path : PathModel)
        → HasPath (S.view shelf.old).records.objects path id →
        OnOk result (AddsRenewals (S.view shelf.old).records.objects room path list.now out.old.items out.new.items) }
    ensures frame { ShelfRead (S.view shelf.old) (S.view shelf.new) (fault_in result) }
    ensures asks { OfRoom (S.view shelf.old) (S.view shelf.new) (λ t room. (path : PathModel) → HasPath t path id →
        S.calls_left shelf.old + 1 ≤ S.calls_left shelf.new + 2 * at_or_below room path) }
    ensures adds { AddsEntries out.old.items out.new.items }
{
    renew_within(alloc, shelf, id, Kind::Folder, list, MAX_NAMES, out)
}

/// The same below an object of this kind: a file has nothing below it.
fn renew_below<S: Shelf>(
    alloc: Global,
    shelf: &mut S,
    id: u32,
    kind: Kind,
    list: &[Entry],
    out: &mut Vec<Change>,
) -> Result<(), ShelfFault>
    ensures value { OfRoom (S.view shelf.old) (S.view shelf.new) (λ t room. (path : PathModel) (node : NodeRow) →
        HasPath t path id → t.node id ≡ Some node → node.kind ≡ kind →
        OnOk result (AddsRenewals t room path list.now out.old.items out.new.items)) }
    ensures frame { ShelfRead (S.view shelf.old) (S.view shelf.new) (fault_in result) }
    ensures asks { OfRoom (S.view shelf.old) (S.view shelf.new) (λ t room. (path : PathModel) → HasPath t path id →
        S.calls_left shelf.old + 1 ≤ S.calls_left shelf.new + 2 * at_or_below room path) }
{
    if let Kind::File = kind {
        return Ok(());
    }
    renew(alloc, shelf, id, list, out)
}

/// The changes that put a row, and its list where it changes, with those below.
pub(crate) fn with_list<S: Shelf>(
    alloc: Global,
    shelf: &mut S,
    node: Node,
    list: Option<Vec<Entry>>,
) -> Result<Vec<Change>, ShelfFault>
    ensures value { OfRoom (S.view shelf.old) (S.view shelf.new) (λ t room. (path : PathModel) (stored : NodeRow) →
        HasPath t path node.id → t.node node.id ≡ Some stored → stored.kind ≡ node.kind →
        IfOk result (λ changes. PutsList t room path node list changes.items)) }
    ensures frame { ShelfRead (S.view shelf.old) (S.view shelf.new) (fault_in result) }
    ensures asks { OfRoom (S.view shelf.old) (S.view shelf.new) (λ t room. (path : PathModel) → HasPath t path node.id →
        S.calls_left shelf.old ≤ S.calls_left shelf.new + 2 * at_or_below room path) }
{
    let id = node.id;
    let kind = node.kind;
    let mut changes = Vec::new(alloc);
    add_change(&mut changes, Change::PutNode(node))?;
    let Some(list) = list else {
        return Ok(changes);
    };
    renew_below(alloc, shelf, id, kind, list.as_slice(), &mut changes)?;
    add_change(&mut changes, Change::PutEntries(id, list))?;
    Ok(changes)
}
