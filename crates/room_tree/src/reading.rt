//! Commands that only read.
ghost use Rattle.std.specs.Prelude.{◌≡◌, ◌+◌, ◌*◌, ◌≤◌, [], length, IfOk, bit_and};
ghost use Rattle.room_records.specs.Room.{children};
ghost use Rattle.room_records.specs.Names.{Path as PathModel};
ghost use Rattle.room_records.specs.Shelf.{ShelfRead, fault_in};
ghost use Rattle.room_commands.specs.CommandModel as C;
ghost use Rattle.room_tree.specs.Plans.{Plans};
ghost use Rattle.room_tree.specs.Stops.{stop_fault};
ghost use Rattle.room_tree.specs.LoadedObjects.{OfRoom, IsLoaded};

use crate::loaded::LoadedObject;
use crate::planning::Outcome;
use crate::reaching::{bytes_of, reach, reach_to_use, size_of};
use crate::refusal::Stop;
use room_acl::{Kind, Mask, Subject, allowed_bits};
use room_commands::Reply;
use room_records::{FileName, Path, Shelf, ShelfFault};
use std::alloc::Global;

/// STAT: owner, group, list flags and size.
pub(crate) fn plan_stat<S: Shelf>(
    alloc: Global,
    shelf: &mut S,
    subject: &Subject,
    path: &Path,
) -> Result<Outcome, Stop>
    ensures effect { OfRoom (S.view shelf.old) (S.view shelf.new)
        (λ t room. Plans t room subject.now (C.Stat path.now) result) }
    ensures none { IfOk result (λ outcome. outcome.changes.items ≡ []) }
    ensures frame { ShelfRead (S.view shelf.old) (S.view shelf.new) (stop_fault result) }
    ensures asks { S.calls_left shelf.old ≤ S.calls_left shelf.new + 2 * length path.now + 5 }
{
    let loaded = reach_to_use(alloc, shelf, subject, path, None, Mask::READ_ATTRIBUTES)?;
    let size = size_of(shelf, &loaded)?;
    let node = loaded.into_node();
    Ok(Outcome::reading(
        alloc,
        Reply::Stat {
            aclflag: node.aclflag,
            group: node.group,
            kind: node.kind,
            owner: node.owner,
            size,
        },
    ))
}

/// LIST: what is in a folder, by name.
pub(crate) fn plan_list<S: Shelf>(
    alloc: Global,
    shelf: &mut S,
    subject: &Subject,
    path: &Path,
) -> Result<Outcome, Stop>
    ensures effect { OfRoom (S.view shelf.old) (S.view shelf.new)
        (λ t room. Plans t room subject.now (C.ListNames path.now) result) }
    ensures none { IfOk result (λ outcome. outcome.changes.items ≡ []) }
    ensures frame { ShelfRead (S.view shelf.old) (S.view shelf.new) (stop_fault result) }
    ensures asks { S.calls_left shelf.old ≤ S.calls_left shelf.new + 2 * length path.now + 5 }
{
    let loaded = reach_to_use(
        alloc,
        shelf,
        subject,
        path,
        Some(Kind::Folder),
        Mask::LIST_DIRECTORY,
    )?;
    let names = names_in(shelf, &loaded)?;
    Ok(Outcome::reading(alloc, Reply::Names(names)))
}

/// What is in a folder, by name.
fn names_in<S: Shelf>(
    shelf: &mut S,
    loaded: &LoadedObject,
) -> Result<Vec<(FileName, Kind)>, ShelfFault>
    ensures value { OfRoom (S.view shelf.old) (S.view shelf.new) (λ t room. (path : PathModel)
        → IsLoaded t room path loaded.now →
        IfOk result (λ names. names.items ≡ children room path)) }
    ensures frame { ShelfRead (S.view shelf.old) (S.view shelf.new) (fault_in result) }
    ensures asks { S.calls_left shelf.old ≤ S.calls_left shelf.new + 1 }
{
    shelf.names(loaded.id)
}

/// READ: the bytes of a document.
pub(crate) fn plan_read<S: Shelf>(
    alloc: Global,
    shelf: &mut S,
    subject: &Subject,
    path: &Path,
) -> Result<Outcome, Stop>
    ensures effect { OfRoom (S.view shelf.old) (S.view shelf.new)
        (λ t room. Plans t room subject.now (C.Read path.now) result) }
    ensures none { IfOk result (λ outcome. outcome.changes.items ≡ []) }
    ensures frame { ShelfRead (S.view shelf.old) (S.view shelf.new) (stop_fault result) }
    ensures asks { S.calls_left shelf.old ≤ S.calls_left shelf.new + 2 * length path.now + 5 }
{
    let loaded = reach_to_use(
        alloc,
        shelf,
        subject,
        path,
        Some(Kind::File),
        Mask::READ_DATA,
    )?;
    let bytes = bytes_of(shelf, &loaded)?;
    Ok(Outcome::reading(alloc, Reply::Bytes(bytes)))
}

/// GETLIST: the list flags and the whole list.
pub(crate) fn plan_getlist<S: Shelf>(
    alloc: Global,
    shelf: &mut S,
    subject: &Subject,
    path: &Path,
) -> Result<Outcome, Stop>
    ensures effect { OfRoom (S.view shelf.old) (S.view shelf.new)
        (λ t room. Plans t room subject.now (C.GetList path.now) result) }
    ensures none { IfOk result (λ outcome. outcome.changes.items ≡ []) }
    ensures frame { ShelfRead (S.view shelf.old) (S.view shelf.new) (stop_fault result) }
    ensures asks { S.calls_left shelf.old ≤ S.calls_left shelf.new + 2 * length path.now + 5 }
{
    let loaded = reach_to_use(alloc, shelf, subject, path, None, Mask::READ_ACL)?;
    let list = loaded.whole_list(shelf)?;
    Ok(Outcome::reading(
        alloc,
        Reply::Entries {
            aclflag: loaded.aclflag,
            entries: list,
        },
    ))
}

/// ACCESS: which of these bits the list of the object allows the caller.
pub(crate) fn plan_access<S: Shelf>(
    alloc: Global,
    shelf: &mut S,
    subject: &Subject,
    mask: Mask,
    path: &Path,
) -> Result<Outcome, Stop>
    ensures effect { OfRoom (S.view shelf.old) (S.view shelf.new)
        (λ t room. Plans t room subject.now (C.Access mask path.now) result) }
    ensures none { IfOk result (λ outcome. outcome.changes.items ≡ []) }
    ensures frame { ShelfRead (S.view shelf.old) (S.view shelf.new) (stop_fault result) }
    ensures asks { S.calls_left shelf.old ≤ S.calls_left shelf.new + 2 * length path.now + 5 }
{
    let loaded = reach(alloc, shelf, subject, path)?;
    let list = loaded.whole_list(shelf)?;
    let allowed = allowed_bits(list.as_slice(), subject, &loaded.standing);
    Ok(Outcome::reading(alloc, Reply::Allowed(common_bits(mask, allowed))))
}

/// The bits of both masks.
fn common_bits(a: Mask, b: Mask) -> Mask
    ensures { result ≡ bit_and a b }
{
    match Mask::new(a.bits() & b.bits()) {
        Some(mask) => mask,
        None => unreachable!(),
    }
}
