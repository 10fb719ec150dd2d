//! The walk of a path, from the root down.
ghost use Rattle.std.specs.Prelude.{◌≡◌, ◌+◌, ◌*◌, ◌≤◌, ◌++◌, [], ◌∷◌, length, IfOk, MatchOption};
ghost use Rattle.room_records.specs.Names.{Path as PathModel};
ghost use Rattle.room_records.specs.Room.{object_at};
ghost use Rattle.room_records.specs.Shelf.{ShelfRead, fault_in};
ghost use Rattle.room_commands.specs.Checks.{walk};
ghost use Rattle.room_tree.specs.LoadedObjects.{OfRoom, IsLoaded, IsWalk};
ghost use Rattle.room_tree.specs.Stops.{Passes, stop_fault};

use crate::loaded::LoadedObject;
use crate::refusal::Stop;
use room_acl::{Kind, Mask, Subject};
use room_commands::RefusalCode;
use room_records::{FileName, Node, Path, Shelf, ShelfFault};
use std::alloc::{AllocError, Global};

/// Where the walk of a path ends.
#[derive(Debug, Drop)]
pub(crate) enum Walk {
    /// Nothing is there: the folder where it would stand.
    Absent(LoadedObject),
    /// The object, and but for the root its folder.
    Found(LoadedObject, Option<LoadedObject>),
}

/// The root, where the rows stand for a room.
fn load_root<S: Shelf>(shelf: &mut S) -> Result<Option<LoadedObject>, ShelfFault>
    ensures value { OfRoom (S.view shelf.old) (S.view shelf.new) (λ t room. IfOk result (λ found.
        MatchOption found ⊥ (IsLoaded t room []))) }
    ensures frame { ShelfRead (S.view shelf.old) (S.view shelf.new) (fault_in result) }
    ensures asks { S.calls_left shelf.old ≤ S.calls_left shelf.new + 1 }
{
    let Some(root) = shelf.node(1)? else {
        return Ok(None);
    };
    Ok(Some(LoadedObject::of(root)))
}

/// The child of this name.
fn load_child<S: Shelf>(
    shelf: &mut S,
    here: &LoadedObject,
    name: &FileName,
) -> Result<Option<LoadedObject>, ShelfFault>
    ensures value { OfRoom (S.view shelf.old) (S.view shelf.new) (λ t room. (path : PathModel)
        → IsLoaded t room path here.now →
        IfOk result (λ found. MatchOption found (object_at room (path ++ name.now ∷ []) ≡ None)
        (IsLoaded t room (path ++ name.now ∷ [])))) }
    ensures frame { ShelfRead (S.view shelf.old) (S.view shelf.new) (fault_in result) }
    ensures asks { S.calls_left shelf.old ≤ S.calls_left shelf.new + 1 }
{
    let Some(node) = shelf.child(here.id, name)? else {
        return Ok(None);
    };
    Ok(Some(LoadedObject::of(node)))
}

/// Walks a path from the root down, with EXECUTE on each folder on the way. It is refused where a folder on the way is
/// not there, is none, or does not let the caller through.
pub(crate) fn walk_path<S: Shelf>(
    alloc: Global,
    shelf: &mut S,
    subject: &Subject,
    path: &Path,
) -> Result<Walk, Stop>
    ensures value { OfRoom (S.view shelf.old) (S.view shelf.new) (λ t room.
        Passes (walk room subject.now path.now) (IsWalk t room path.now) result) }
    ensures frame { ShelfRead (S.view shelf.old) (S.view shelf.new) (stop_fault result) }
    ensures asks { S.calls_left shelf.old ≤ S.calls_left shelf.new + 2 * length path.now + 1 }
{
    let Some(mut here) = load_root(shelf)? else {
        return Err(Stop::of(RefusalCode::NoEnt));
    };
    let names = path.names();
    let mut above: Option<LoadedObject> = None;
    for index in 0..names.len() {
        here.check_way(alloc, shelf, subject, path, index)?;
        let Some(next) = load_child(shelf, &here, &names[index])? else {
            if index + 1 < names.len() {
                return Err(Stop::of(RefusalCode::NoEnt));
            }
            return Ok(Walk::Absent(here));
        };
        above = Some(here);
        here = next;
    }
    Ok(Walk::Found(here, above))
}
