//! SETLIST.
ghost use Rattle.std.specs.Prelude.{◌≡◌, ◌+◌, ◌≤◌, [], ◌∷◌, IfOk};
ghost use Rattle.std.specs.List.{filter_map};
ghost use Rattle.room_acl.specs.Inheritance.{own_entries_fault};
ghost use Rattle.room_records.specs.Shelf.{ShelfRead};
ghost use Rattle.room_commands.specs.Checks.{check_lawful};
ghost use Rattle.room_commands.specs.CommandModel as C;
ghost use Rattle.room_tree.specs.Asks.{at_or_below, most_asks};
ghost use Rattle.room_tree.specs.LoadedObjects.{OfRoom, node_of};
ghost use Rattle.room_tree.specs.Plans.{Plans};
ghost use Rattle.room_tree.specs.Stops.{refusal_in, stop_fault};
ghost use Rattle.room_commands.specs.SetList.{follows_at, kept_entry};

use crate::loaded::LoadedObject;
use crate::planning::Outcome;
use crate::reaching::reach_to_use;
use crate::refusal::{Refusal, Stop};
use crate::renewing::{if_changed, list_in_folder, with_list};
use room_acl::{Entry, Kind, ListFlags, Mask, Subject, check_own};
use room_commands::{RefusalCode, Reply};
use room_records::{Change, Path, Shelf};
use std::alloc::{AllocError, Global};

/// Whether an object at this path follows its folder with these list flags. The root never does.
fn follows_at(path: &Path, aclflag: ListFlags) -> bool
    ensures { result ≡ follows_at path.now aclflag }
{
    if path.names().len() == 0 {
        false
    } else {
        aclflag.follows()
    }
}

/// What becomes of an entry that is sent: with the mark it is
/// dropped where the object follows, and an own entry elsewhere.
fn own_entry(entry: &Entry, follows: bool) -> Result<Option<Entry>, AllocError>
    ensures { IfOk result (λ own. own ≡ kept_entry follows entry.now) }
{
    if follows && entry.flags().is_inherited() {
        return Ok(None);
    }
    Ok(Some(entry.without_inherited()?))
}

/// The own entries that a list that is sent leaves.
fn own_entries(alloc: Global, follows: bool, sent: &[Entry]) -> Result<Vec<Entry>, AllocError>
    ensures { IfOk result (λ own. own.items ≡ filter_map (kept_entry follows) sent.now) }
{
    let mut own = Vec::new(alloc);
    for entry in sent {
        if let Some(kept) = own_entry(entry, follows)? {
            own.push(kept)?;
        }
    }
    Ok(own)
}

/// Whether these may be own entries of an object of this kind.
fn check_lawful(entries: &[Entry], kind: Kind) -> Result<(), Refusal>
    ensures { refusal_in result ≡ check_lawful (own_entries_fault entries.now kind) }
{
    match check_own(entries, kind) {
        Ok(()) => Ok(()),
        Err(fault) => Err(Refusal::of(RefusalCode::of_list_fault(fault))),
    }
}

/// SETLIST: other list flags and other own entries, with what the folder hands down, and the lists below renewed.
pub(crate) fn plan_setlist<S: Shelf>(
    alloc: Global,
    shelf: &mut S,
    subject: &Subject,
    aclflag: ListFlags,
    entries: &[Entry],
    path: &Path,
) -> Result<Outcome, Stop>
    ensures effect { OfRoom (S.view shelf.old) (S.view shelf.new)
        (λ t room. Plans t room subject.now (C.SetList aclflag entries.now path.now) result) }
    ensures frame { ShelfRead (S.view shelf.old) (S.view shelf.new) (stop_fault result) }
    ensures asks { OfRoom (S.view shelf.old) (S.view shelf.new) (λ t room.
        S.calls_left shelf.old ≤ S.calls_left shelf.new
        + most_asks (C.SetList aclflag entries.now path.now) (at_or_below room path.now)) }
{
    let loaded = reach_to_use(alloc, shelf, subject, path, None, Mask::WRITE_ACL)?;
    let own = own_entries(alloc, follows_at(path, aclflag), entries)?;
    check_lawful(own.as_slice(), loaded.kind)?;
    let list = list_in_folder(alloc, shelf, loaded.parent, own, aclflag, loaded.kind)?;
    let stored = loaded.whole_list(shelf)?;
    let list = if_changed(stored.as_slice(), list);
    let node = loaded.with_flags(aclflag);
    let changes = with_list(alloc, shelf, node, list)?;
    Ok(Outcome {
        changes,
        reply: Reply::Done,
    })
}
