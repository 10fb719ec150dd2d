//! Commands that remove an object.
ghost use Rattle.std.specs.Prelude.{◌≡◌, ◌+◌, ◌*◌, ◌≤◌, [], ◌∷◌, length, nat_lt};
ghost use Rattle.room_records.specs.Names.{IsPath};
ghost use Rattle.room_records.specs.Room.{parent_of};
ghost use Rattle.room_records.specs.Shelf.{ShelfRead};
ghost use Rattle.room_commands.specs.Checks.{first_refusal, refuse_if, is_root, walk, check_exists, check_removal};
ghost use Rattle.room_commands.specs.CommandModel as C;
ghost use Rattle.room_tree.specs.LoadedObjects.{OfRoom, IsLoaded};
ghost use Rattle.room_tree.specs.Plans.{Plans};
ghost use Rattle.room_tree.specs.Stops.{Passes, refusal_in, stop_fault};

use crate::changing::one_change;
use crate::loaded::LoadedObject;
use crate::planning::Outcome;
use crate::reaching::{count_children, reach_with_folder};
use crate::refusal::{Refusal, Stop};
use room_acl::{Mask, Subject};
use room_commands::{RefusalCode, Reply};
use room_records::{Change, Path, Shelf};
use std::alloc::Global;

/// Whether the caller may remove the object: DELETE on it or DELETE_CHILD on its folder is enough. A refusal names
/// the object and DELETE.
pub(crate) fn check_removal<S: Shelf>(
    alloc: Global,
    shelf: &mut S,
    subject: &Subject,
    path: &Path,
    loaded: &LoadedObject,
    above: &LoadedObject,
) -> Result<(), Stop>
    ensures value { OfRoom (S.view shelf.old) (S.view shelf.new) (λ t room. IsLoaded t room path.now loaded.now
        → IsLoaded t room (parent_of path.now) above.now →
        Passes (check_removal room subject.now path.now) (λ _. Unit {0}) result) }
    ensures frame { ShelfRead (S.view shelf.old) (S.view shelf.new) (stop_fault result) }
    ensures asks { S.calls_left shelf.old ≤ S.calls_left shelf.new + 2 }
{
    let own = loaded.allows(shelf, subject, Mask::DELETE)?;
    if own {
        return Ok(());
    }
    let by_folder = above.allows(shelf, subject, Mask::DELETE_CHILD)?;
    if by_folder {
        return Ok(());
    }
    let at = path.front(alloc, path.names().len())?;
    Err(Stop::Refused(Refusal {
        code: RefusalCode::Access,
        place: Some((at, Mask::DELETE.bits())),
    }))
}

/// The object at a path, where the caller may remove it.
fn removable<S: Shelf>(
    alloc: Global,
    shelf: &mut S,
    subject: &Subject,
    path: &Path,
) -> Result<LoadedObject, Stop>
    ensures lawful { IsPath path.now }
    ensures value { OfRoom (S.view shelf.old) (S.view shelf.new) (λ t room.
        Passes (first_refusal (refuse_if (is_root path.now) RefusalCode.Inval ∷ walk room subject.now path.now
        ∷ check_exists room path.now ∷ check_removal room subject.now path.now ∷ []))
        (IsLoaded t room path.now) result) }
    ensures frame { ShelfRead (S.view shelf.old) (S.view shelf.new) (stop_fault result) }
    ensures asks { S.calls_left shelf.old ≤ S.calls_left shelf.new + 2 * length path.now + 3 }
{
    if path.names().len() == 0 {
        return Err(Stop::of(RefusalCode::Inval));
    }
    let found = reach_with_folder(alloc, shelf, subject, path)?;
    let (loaded, folder) = found;
    check_removal(alloc, shelf, subject, path, &loaded, &folder)?;
    Ok(loaded)
}

/// Whether something is in the object, of which there are so many.
fn check_empty(count: u64) -> Result<(), Refusal>
    ensures { refusal_in result ≡ refuse_if (nat_lt 0 count) RefusalCode.NotEmpty }
{
    if count > 0 {
        Err(Refusal::of(RefusalCode::NotEmpty))
    } else {
        Ok(())
    }
}

/// REMOVE: an object with nothing in it goes.
pub(crate) fn plan_remove<S: Shelf>(
    alloc: Global,
    shelf: &mut S,
    subject: &Subject,
    path: &Path,
) -> Result<Outcome, Stop>
    ensures effect { OfRoom (S.view shelf.old) (S.view shelf.new)
        (λ t room. Plans t room subject.now (C.Remove path.now) result) }
    ensures frame { ShelfRead (S.view shelf.old) (S.view shelf.new) (stop_fault result) }
    ensures asks { S.calls_left shelf.old ≤ S.calls_left shelf.new + 2 * length path.now + 5 }
{
    let loaded = removable(alloc, shelf, subject, path)?;
    let count = count_children(shelf, &loaded)?;
    check_empty(count)?;
    let outcome = one_change(alloc, Change::DropNode(loaded.id), Reply::Done)?;
    Ok(outcome)
}
