//! The object that a command is about.
ghost use Rattle.std.specs.Prelude.{◌≡◌, ◌+◌, ◌*◌, ◌<◌, ◌≤◌, ◌^◌, false, [], ◌∷◌, length, IfOk};
ghost use Rattle.room_records.specs.Names.{Path as PathModel};
ghost use Rattle.room_records.specs.Shelf.{ShelfRead, fault_in};
ghost use Rattle.room_commands.specs.Checks.{first_refusal, is_root, walk, check_absent, check_exists, bytes_at};
ghost use Rattle.room_records.specs.Room.{children, parent_of};
ghost use Rattle.room_commands.specs.Effect.{size_of};
ghost use Rattle.room_tree.specs.LoadedObjects.{OfRoom, IsLoaded, use_checks};
ghost use Rattle.room_tree.specs.Stops.{Passes, stop_fault};

use crate::loaded::LoadedObject;
use crate::refusal::Stop;
use crate::walking::{Walk, walk_path};
use room_acl::{Kind, Mask, Subject};
use room_commands::RefusalCode;
use room_records::{Path, Shelf, ShelfFault};
use std::alloc::Global;

/// The object at a path, after the walk.
pub(crate) fn reach<S: Shelf>(
    alloc: Global,
    shelf: &mut S,
    subject: &Subject,
    path: &Path,
) -> Result<LoadedObject, Stop>
    ensures value { OfRoom (S.view shelf.old) (S.view shelf.new) (λ t room.
        Passes (first_refusal (walk room subject.now path.now ∷ check_exists room path.now ∷ []))
        (IsLoaded t room path.now) result) }
    ensures frame { ShelfRead (S.view shelf.old) (S.view shelf.new) (stop_fault result) }
    ensures asks { S.calls_left shelf.old ≤ S.calls_left shelf.new + 2 * length path.now + 1 }
{
    match walk_path(alloc, shelf, subject, path)? {
        Walk::Absent(_) => Err(Stop::of(RefusalCode::NoEnt)),
        Walk::Found(loaded, _) => Ok(loaded),
    }
}

/// The object at a path below the root, with its folder.
pub(crate) fn reach_with_folder<S: Shelf>(
    alloc: Global,
    shelf: &mut S,
    subject: &Subject,
    path: &Path,
) -> Result<(LoadedObject, LoadedObject), Stop>
    ensures value { OfRoom (S.view shelf.old) (S.view shelf.new) (λ t room. is_root path.now ≡ false →
        Passes (first_refusal (walk room subject.now path.now ∷ check_exists room path.now ∷ []))
        (λ found. IsLoaded t room path.now found.0 × IsLoaded t room (parent_of path.now) found.1) result) }
    ensures frame { ShelfRead (S.view shelf.old) (S.view shelf.new) (stop_fault result) }
    ensures asks { S.calls_left shelf.old ≤ S.calls_left shelf.new + 2 * length path.now + 1 }
{
    let (loaded, above) = match walk_path(alloc, shelf, subject, path)? {
        Walk::Absent(_) => return Err(Stop::of(RefusalCode::NoEnt)),
        Walk::Found(loaded, above) => (loaded, above),
    };
    match above {
        Some(folder) => Ok((loaded, folder)),
        None => Err(Stop::of(RefusalCode::Inval)),
    }
}

/// The folder of a path where nothing is.
pub(crate) fn folder_of_free<S: Shelf>(
    alloc: Global,
    shelf: &mut S,
    subject: &Subject,
    path: &Path,
) -> Result<LoadedObject, Stop>
    ensures value { OfRoom (S.view shelf.old) (S.view shelf.new) (λ t room.
        Passes (first_refusal (walk room subject.now path.now ∷ check_absent room path.now ∷ []))
        (IsLoaded t room (parent_of path.now)) result) }
    ensures frame { ShelfRead (S.view shelf.old) (S.view shelf.new) (stop_fault result) }
    ensures asks { S.calls_left shelf.old ≤ S.calls_left shelf.new + 2 * length path.now + 1 }
{
    match walk_path(alloc, shelf, subject, path)? {
        Walk::Found(_, _) => Err(Stop::of(RefusalCode::Exist)),
        Walk::Absent(above) => Ok(above),
    }
}

/// The object at a path, after the walk, where it is of the kind that is asked for and allows these bits to the caller.
pub(crate) fn reach_to_use<S: Shelf>(
    alloc: Global,
    shelf: &mut S,
    subject: &Subject,
    path: &Path,
    only: Option<Kind>,
    wanted: Mask,
) -> Result<LoadedObject, Stop>
    ensures value { OfRoom (S.view shelf.old) (S.view shelf.new) (λ t room.
        Passes (first_refusal (walk room subject.now path.now ∷ check_exists room path.now
        ∷ use_checks room subject.now path.now only wanted))
        (IsLoaded t room path.now) result) }
    ensures frame { ShelfRead (S.view shelf.old) (S.view shelf.new) (stop_fault result) }
    ensures asks { S.calls_left shelf.old ≤ S.calls_left shelf.new + 2 * length path.now + 2 }
{
    let loaded = reach(alloc, shelf, subject, path)?;
    loaded.check_use(alloc, shelf, subject, path, only, wanted)?;
    Ok(loaded)
}

/// How many are in a folder.
pub(crate) fn count_children<S: Shelf>(
    shelf: &mut S,
    loaded: &LoadedObject,
) -> Result<u64, ShelfFault>
    ensures value { OfRoom (S.view shelf.old) (S.view shelf.new) (λ t room. (path : PathModel)
        → IsLoaded t room path loaded.now →
        IfOk result (λ count. count ≡ length (children room path))) }
    ensures frame { ShelfRead (S.view shelf.old) (S.view shelf.new) (fault_in result) }
    ensures asks { S.calls_left shelf.old ≤ S.calls_left shelf.new + 1 }
{
    shelf.child_count(loaded.id)
}

/// The bytes of a document.
pub(crate) fn bytes_of<S: Shelf>(
    shelf: &mut S,
    loaded: &LoadedObject,
) -> Result<Vec<u8>, ShelfFault>
    ensures value { OfRoom (S.view shelf.old) (S.view shelf.new) (λ t room. (path : PathModel)
        → IsLoaded t room path loaded.now →
        IfOk result (λ bytes. bytes.items ≡ bytes_at room path)) }
    ensures frame { ShelfRead (S.view shelf.old) (S.view shelf.new) (fault_in result) }
    ensures asks { S.calls_left shelf.old ≤ S.calls_left shelf.new + 1 }
{
    shelf.doc(loaded.id)
}

/// How many bytes a document has.
pub(crate) fn count_bytes<S: Shelf>(shelf: &mut S, loaded: &LoadedObject) -> Result<u64, ShelfFault>
    ensures value { OfRoom (S.view shelf.old) (S.view shelf.new) (λ t room. (path : PathModel)
        → IsLoaded t room path loaded.now →
        IfOk result (λ count. count ≡ length (bytes_at room path))) }
    ensures frame { ShelfRead (S.view shelf.old) (S.view shelf.new) (fault_in result) }
    ensures asks { S.calls_left shelf.old ≤ S.calls_left shelf.new + 1 }
{
    shelf.doc_size(loaded.id)
}

/// The size of a document, or how many are in a folder.
pub(crate) fn size_of<S: Shelf>(shelf: &mut S, loaded: &LoadedObject) -> Result<u32, ShelfFault>
    ensures value { OfRoom (S.view shelf.old) (S.view shelf.new) (λ t room. (path : PathModel)
        → IsLoaded t room path loaded.now →
        IfOk result (λ size. size ≡ size_of room path loaded.now.kind)) }
    ensures frame { ShelfRead (S.view shelf.old) (S.view shelf.new) (fault_in result) }
    ensures asks { S.calls_left shelf.old ≤ S.calls_left shelf.new + 1 }
{
    match loaded.kind {
        Kind::File => {
            let count = count_bytes(shelf, loaded)?;
            Ok(as_size(count))
        }
        Kind::Folder => {
            let count = count_children(shelf, loaded)?;
            Ok(as_size(count))
        }
    }
}

/// A size in a reply. Rows that stand for a room have none that is too large.
pub(crate) fn as_size(count: u64) -> u32
    ensures { count < 2 ^ 32 → result ≡ count }
{
    u32::try_from(count).unwrap_or(u32::MAX)
}
