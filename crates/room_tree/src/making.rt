//! Commands that make an object.
ghost use Rattle.std.specs.Prelude.{◌≡◌, ℕ, List, ◌+◌, ◌-◌, ◌*◌, ◌≤◌, ◌<◌, ◌^◌, [], ◌∷◌, ◌++◌, Some, IfOk, OnOk};
ghost use Rattle.std.specs.Prelude.{length, nat_lt, nat_le};
ghost use Rattle.room_acl.specs.Inheritance.{handed_down};
ghost use Rattle.room_records.specs.Limits.{max_children, max_objects};
ghost use Rattle.room_records.specs.Names.{IsPath, Path as PathModel};
ghost use Rattle.room_records.specs.Room.{list_of, parent_of};
ghost use Rattle.room_records.specs.Shelf.{ShelfRead, fault_in};
ghost use Rattle.room_commands.specs.Checks.{first_refusal, refuse_if, is_root, walk, check_absent, check_right};
ghost use Rattle.room_commands.specs.Checks.{check_folder_full, check_room_full};
ghost use Rattle.room_commands.specs.CommandModel as C;
ghost use Rattle.room_tree.specs.LoadedObjects.{OfRoom, IsLoaded, IsNewNode};
ghost use Rattle.room_tree.specs.Plans.{Plans};
ghost use Rattle.room_tree.specs.Renewals.{puts_new};
ghost use Rattle.room_tree.specs.Stops.{Passes, refusal_in, stop_fault};

use crate::changing::check_size;
use crate::loaded::LoadedObject;
use crate::planning::Outcome;
use crate::reaching::{as_size, count_children, folder_of_free};
use crate::refusal::{Refusal, Stop};
use room_acl::{Entry, Kind, ListFlags, Mask, Subject, hand_down};
use room_commands::{RefusalCode, Reply};
use room_records::{Change, FileName, MAX_CHILDREN, MAX_OBJECTS, Node, Path, Shelf, ShelfFault};
use std::alloc::{AllocError, Global};

/// The folder of a path where nothing is, if it allows these bits to the caller.
fn folder_for_new<S: Shelf>(
    alloc: Global,
    shelf: &mut S,
    subject: &Subject,
    path: &Path,
    wanted: Mask,
) -> Result<LoadedObject, Stop>
    ensures lawful { IsPath path.now }
    ensures value { OfRoom (S.view shelf.old) (S.view shelf.new) (λ t room.
        Passes (first_refusal (refuse_if (is_root path.now) RefusalCode.Exist ∷ walk room subject.now path.now
        ∷ check_absent room path.now ∷ check_right room subject.now (parent_of path.now) wanted ∷ []))
        (IsLoaded t room (parent_of path.now)) result) }
    ensures frame { ShelfRead (S.view shelf.old) (S.view shelf.new) (stop_fault result) }
    ensures asks { S.calls_left shelf.old ≤ S.calls_left shelf.new + 2 * length path.now + 2 }
{
    let count = path.names().len();
    if count == 0 {
        return Err(Stop::of(RefusalCode::Exist));
    }
    let above = folder_of_free(alloc, shelf, subject, path)?;
    above.check_right(alloc, shelf, subject, wanted, path, count - 1)?;
    Ok(above)
}

/// Whether a folder with this many children is full.
pub(crate) fn check_children(count: u64) -> Result<(), Refusal>
    ensures { refusal_in result ≡ refuse_if (nat_le max_children count) RefusalCode.FolderFull }
{
    if count >= MAX_CHILDREN {
        Err(Refusal::of(RefusalCode::FolderFull))
    } else {
        Ok(())
    }
}

/// Whether no number is left for a new object.
fn check_number(next: u32) -> Result<(), Refusal>
    ensures { refusal_in result ≡ refuse_if (nat_lt max_objects next) RefusalCode.RoomFull }
{
    if next > MAX_OBJECTS {
        Err(Refusal::of(RefusalCode::RoomFull))
    } else {
        Ok(())
    }
}

/// The number of a new object in this folder, or why there is no room for one.
fn number_for_new<S: Shelf>(shelf: &mut S, above: &LoadedObject) -> Result<u32, Stop>
    ensures small { IfOk result (λ id. id ≤ max_objects) }
    ensures value { OfRoom (S.view shelf.old) (S.view shelf.new) (λ t room. (folder : PathModel)
        → IsLoaded t room folder above.now →
        Passes (first_refusal (check_folder_full room folder ∷ check_room_full room ∷ [])) (λ id. id ≡ t.next) result) }
    ensures frame { ShelfRead (S.view shelf.old) (S.view shelf.new) (stop_fault result) }
    ensures asks { S.calls_left shelf.old ≤ S.calls_left shelf.new + 2 }
{
    let count = count_children(shelf, above)?;
    check_children(count)?;
    let next = shelf.next_id()?;
    check_number(next)?;
    Ok(next)
}

/// The last name of a path, which the root has not.
pub(crate) fn last_name(path: &Path) -> Result<Option<FileName>, AllocError>
    ensures { (folder : PathModel) (name : List ℕ)
        → path.now ≡ folder ++ name ∷ [] → IfOk result (λ last. last ≡ Some name) }
{
    let names = path.names();
    let count = names.len();
    if count == 0 {
        return Ok(None);
    }
    let name = names[count - 1].clone()?;
    Ok(Some(name))
}

/// The row of a new object: it follows its folder, and is the caller's, with the folder's group.
fn new_node(
    subject: &Subject,
    path: &Path,
    above: &LoadedObject,
    kind: Kind,
    id: u32,
) -> Result<Node, AllocError>
    ensures { IfOk result (IsNewNode subject.now path.now above.now kind id) }
{
    let name = last_name(path)?;
    let owner = subject.name.clone()?;
    let group = above.standing.group.clone()?;
    Ok(Node {
        id,
        parent: Some(above.id),
        name,
        kind,
        owner,
        group,
        aclflag: ListFlags::AUTO_INHERIT,
    })
}

/// What the folder hands down to a new object of this kind.
fn list_for_new<S: Shelf>(
    alloc: Global,
    shelf: &mut S,
    above: &LoadedObject,
    kind: Kind,
) -> Result<Vec<Entry>, ShelfFault>
    ensures value { OfRoom (S.view shelf.old) (S.view shelf.new) (λ t room. (folder : PathModel)
        → IsLoaded t room folder above.now →
        IfOk result (λ list. list.items ≡ handed_down (list_of room folder) kind)) }
    ensures frame { ShelfRead (S.view shelf.old) (S.view shelf.new) (fault_in result) }
    ensures asks { S.calls_left shelf.old ≤ S.calls_left shelf.new + 1 }
{
    let given = above.whole_list(shelf)?;
    let list = hand_down(alloc, given.as_slice(), kind)?;
    Ok(list)
}

/// Adds the entries of a new object, if it has any.
fn add_list(changes: &mut Vec<Change>, id: u32, list: Vec<Entry>) -> Result<(), AllocError>
    ensures { OnOk result (changes.new.items ≡ changes.old.items ++ puts_new id list) }
{
    if !list.is_empty() {
        changes.push(Change::PutEntries(id, list))?;
    }
    Ok(())
}

/// The changes for a new object with this list: the next number first, since each number is below it.
fn new_object(
    alloc: Global,
    id: u32,
    node: Node,
    list: Vec<Entry>,
) -> Result<Vec<Change>, AllocError>
    requires { id < 2 ^ 32 - 1 }
    ensures { IfOk result (λ changes. changes.items
        ≡ Change.PutNext (id + 1) ∷ Change.PutNode node ∷ puts_new id list) }
{
    let mut changes = Vec::new(alloc);
    changes.push(Change::PutNext(id + 1))?;
    changes.push(Change::PutNode(node))?;
    add_list(&mut changes, id, list)?;
    Ok(changes)
}

/// The changes for a new document.
fn new_document(
    alloc: Global,
    id: u32,
    node: Node,
    list: Vec<Entry>,
    bytes: Vec<u8>,
) -> Result<Vec<Change>, AllocError>
    requires { id < 2 ^ 32 - 1 }
    ensures { IfOk result (λ changes. changes.items
        ≡ Change.PutNext (id + 1) ∷ Change.PutNode node ∷ puts_new id list ++ Change.PutDoc id bytes ∷ []) }
{
    let mut changes = new_object(alloc, id, node, list)?;
    changes.push(Change::PutDoc(id, bytes))?;
    Ok(changes)
}

/// MKDIR: a new folder.
pub(crate) fn plan_mkdir<S: Shelf>(
    alloc: Global,
    shelf: &mut S,
    subject: &Subject,
    path: &Path,
) -> Result<Outcome, Stop>
    ensures effect { OfRoom (S.view shelf.old) (S.view shelf.new)
        (λ t room. Plans t room subject.now (C.Mkdir path.now) result) }
    ensures frame { ShelfRead (S.view shelf.old) (S.view shelf.new) (stop_fault result) }
    ensures asks { S.calls_left shelf.old ≤ S.calls_left shelf.new + 2 * length path.now + 5 }
{
    let above = folder_for_new(alloc, shelf, subject, path, Mask::ADD_SUBDIRECTORY)?;
    let id = number_for_new(shelf, &above)?;
    let node = new_node(subject, path, &above, Kind::Folder, id)?;
    let list = list_for_new(alloc, shelf, &above, Kind::Folder)?;
    let changes = new_object(alloc, id, node, list)?;
    Ok(Outcome {
        changes,
        reply: Reply::Done,
    })
}

/// CREATE: a new document.
pub(crate) fn plan_create<S: Shelf>(
    alloc: Global,
    shelf: &mut S,
    subject: &Subject,
    bytes: &[u8],
    path: &Path,
) -> Result<Outcome, Stop>
    ensures effect { OfRoom (S.view shelf.old) (S.view shelf.new)
        (λ t room. Plans t room subject.now (C.Create bytes.now path.now) result) }
    ensures frame { ShelfRead (S.view shelf.old) (S.view shelf.new) (stop_fault result) }
    ensures asks { S.calls_left shelf.old ≤ S.calls_left shelf.new + 2 * length path.now + 5 }
{
    let above = folder_for_new(alloc, shelf, subject, path, Mask::ADD_FILE)?;
    check_size(bytes.len() as u64)?;
    let id = number_for_new(shelf, &above)?;
    let node = new_node(subject, path, &above, Kind::File, id)?;
    let list = list_for_new(alloc, shelf, &above, Kind::File)?;
    let copy = bytes.to_vec(alloc)?;
    let changes = new_document(alloc, id, node, list, copy)?;
    Ok(Outcome {
        changes,
        reply: Reply::Size(as_size(bytes.len() as u64)),
    })
}
