//! RENAME.
ghost use Rattle.std.specs.Prelude.{◌≡◌, ◌+◌, ◌*◌, ◌≤◌, ℕ, false, List, [], ◌∷◌, ◌++◌, ◌||◌, length, Some, IfOk};
ghost use Rattle.room_records.specs.Names.{IsPath, Path as PathModel};
ghost use Rattle.room_records.specs.Shelf.{ShelfRead};
ghost use Rattle.room_commands.specs.Checks.{first_refusal, refuse_if, is_root, is_at_or_below};
ghost use Rattle.room_commands.specs.Checks.{right_to_add as right_by_kind};
ghost use Rattle.room_commands.specs.CommandModel as C;
ghost use Rattle.room_tree.specs.Asks.{at_or_below, most_asks};
ghost use Rattle.room_tree.specs.LoadedObjects.{OfRoom};
ghost use Rattle.room_tree.specs.Plans.{Plans};
ghost use Rattle.room_tree.specs.Renames.{IsMove, end_checks, move_rights, move_limits};
ghost use Rattle.room_tree.specs.Stops.{Passes, refusal_in, stop_fault};

use crate::depth::check_depth;
use crate::loaded::LoadedObject;
use crate::making::{check_children, last_name};
use crate::planning::Outcome;
use crate::reaching::{count_children, folder_of_free, reach_with_folder};
use crate::refusal::{Refusal, Stop};
use crate::removing::check_removal;
use crate::renewing::{moved_list, with_list};
use room_acl::{Kind, Mask, Subject};
use room_commands::{RefusalCode, Reply};
use room_records::{FileName, Node, Path, Shelf};
use std::alloc::{AllocError, Global};

/// An object that is to be moved, its folder, and the folder where it goes.
#[derive(Debug, Drop)]
pub(crate) struct Move {
    loaded: LoadedObject,
    from: LoadedObject,
    into: LoadedObject,
}

/// Whether these names begin with those of `top`.
fn begins_with(names: &[FileName], top: &[FileName]) -> bool
    ensures { result ≡ is_at_or_below names.now top.now }
{
    if names.len() < top.len() {
        return false;
    }
    for index in 0..top.len() {
        if names[index].text() != top[index].text() {
            return false;
        }
    }
    true
}

/// Whether the root would be moved or replaced, or a folder would be moved into itself.
fn check_paths(path: &Path, to: &Path) -> Result<(), Refusal>
    ensures lawful { IsPath path.now × IsPath to.now }
    ensures value { refusal_in result
        ≡ refuse_if (is_root path.now || is_root to.now || is_at_or_below to.now path.now) RefusalCode.Inval }
{
    let names = path.names();
    let names_after = to.names();
    if names.is_empty() || names_after.is_empty() || begins_with(names_after, names) {
        Err(Refusal::of(RefusalCode::Inval))
    } else {
        Ok(())
    }
}

/// The two ends of a move, where the one is there and the other is free.
fn ends_of_move<S: Shelf>(
    alloc: Global,
    shelf: &mut S,
    subject: &Subject,
    path: &Path,
    to: &Path,
) -> Result<Move, Stop>
    ensures value { OfRoom (S.view shelf.old) (S.view shelf.new) (λ t room. is_root path.now ≡ false →
        Passes (first_refusal (end_checks room subject.now path.now to.now)) (IsMove t room path.now to.now) result) }
    ensures frame { ShelfRead (S.view shelf.old) (S.view shelf.new) (stop_fault result) }
    ensures asks { S.calls_left shelf.old ≤ S.calls_left shelf.new + 2 * (length path.now + length to.now) + 2 }
{
    let found = reach_with_folder(alloc, shelf, subject, path)?;
    let into = folder_of_free(alloc, shelf, subject, to)?;
    let (loaded, from) = found;
    Ok(Move { loaded, from, into })
}

/// What adding an object of this kind to a folder needs.
fn right_to_add(kind: Kind) -> Mask
    ensures { result ≡ right_by_kind kind }
{
    match kind {
        Kind::File => Mask::ADD_FILE,
        Kind::Folder => Mask::ADD_SUBDIRECTORY,
    }
}

impl Move {
    /// Whether the caller may take the object from its folder and add it to the other one.
    fn check_rights<S: Shelf>(
        &self,
        alloc: Global,
        shelf: &mut S,
        subject: &Subject,
        path: &Path,
        to: &Path,
    ) -> Result<(), Stop>
        ensures value { OfRoom (S.view shelf.old) (S.view shelf.new) (λ t room.
            IsMove t room path.now to.now self.now →
            Passes (first_refusal (move_rights room subject.now path.now to.now)) (λ _. Unit {0}) result) }
        ensures frame { ShelfRead (S.view shelf.old) (S.view shelf.new) (stop_fault result) }
        ensures asks { S.calls_left shelf.old ≤ S.calls_left shelf.new + 3 }
    {
        check_removal(alloc, shelf, subject, path, &self.loaded, &self.from)?;
        let count = to.names().len().saturating_sub(1);
        let wanted = right_to_add(self.loaded.kind);
        self.into
            .check_right(alloc, shelf, subject, wanted, to, count)
    }

    /// Whether the subtree would reach too far down, or another folder would have too many children.
    fn check_limits<S: Shelf>(&self, shelf: &mut S, to: &Path) -> Result<(), Stop>
        ensures value { OfRoom (S.view shelf.old) (S.view shelf.new) (λ t room. (path : PathModel)
            → IsMove t room path to.now self.now →
            Passes (first_refusal (move_limits room path to.now)) (λ _. Unit {0}) result) }
        ensures frame { ShelfRead (S.view shelf.old) (S.view shelf.new) (stop_fault result) }
        ensures asks { OfRoom (S.view shelf.old) (S.view shelf.new) (λ t room. (path : PathModel)
            → IsMove t room path to.now self.now →
            S.calls_left shelf.old ≤ S.calls_left shelf.new + at_or_below room path + 1) }
    {
        check_depth(shelf, &self.loaded, to)?;
        if self.from.id == self.into.id {
            return Ok(());
        }
        let count = count_children(shelf, &self.into)?;
        check_children(count)?;
        Ok(())
    }
}

/// The move, where each check on it passes but for those of the limits.
fn allowed_move<S: Shelf>(
    alloc: Global,
    shelf: &mut S,
    subject: &Subject,
    path: &Path,
    to: &Path,
) -> Result<Move, Stop>
    ensures lawful { IsPath path.now × IsPath to.now }
    ensures value { OfRoom (S.view shelf.old) (S.view shelf.new) (λ t room.
        Passes (first_refusal
        (refuse_if (is_root path.now || is_root to.now || is_at_or_below to.now path.now) RefusalCode.Inval
        ∷ (end_checks room subject.now path.now to.now ++ move_rights room subject.now path.now to.now)))
        (IsMove t room path.now to.now) result) }
    ensures frame { ShelfRead (S.view shelf.old) (S.view shelf.new) (stop_fault result) }
    ensures asks { S.calls_left shelf.old ≤ S.calls_left shelf.new + 2 * (length path.now + length to.now) + 5 }
{
    check_paths(path, to)?;
    let ends = ends_of_move(alloc, shelf, subject, path, to)?;
    ends.check_rights(alloc, shelf, subject, path, to)?;
    Ok(ends)
}

/// The row of an object in another folder, under the last name of `to`.
fn moved_node(node: Node, into: u32, to: &Path) -> Result<Node, AllocError>
    ensures { (folder : PathModel) (name : List ℕ) → to.now ≡ folder ++ name ∷ [] →
        IfOk result (λ moved. moved ≡ record node { parent = Some into; name = Some name }) }
{
    let name = last_name(to)?;
    Ok(Node {
        id: node.id,
        parent: Some(into),
        name,
        kind: node.kind,
        owner: node.owner,
        group: node.group,
        aclflag: node.aclflag,
    })
}

/// RENAME: an object and what is below it go to another path. The row of the object changes, its list to what the new
/// folder hands down, and the lists below with it.
pub(crate) fn plan_rename<S: Shelf>(
    alloc: Global,
    shelf: &mut S,
    subject: &Subject,
    path: &Path,
    to: &Path,
) -> Result<Outcome, Stop>
    ensures effect { OfRoom (S.view shelf.old) (S.view shelf.new)
        (λ t room. Plans t room subject.now (C.Rename path.now to.now) result) }
    ensures frame { ShelfRead (S.view shelf.old) (S.view shelf.new) (stop_fault result) }
    ensures asks { OfRoom (S.view shelf.old) (S.view shelf.new) (λ t room.
        S.calls_left shelf.old
        ≤ S.calls_left shelf.new + most_asks (C.Rename path.now to.now) (at_or_below room path.now)) }
{
    let moving = allowed_move(alloc, shelf, subject, path, to)?;
    moving.check_limits(shelf, to)?;
    let node = moving.loaded.into_node();
    let list = moved_list(alloc, shelf, &node, moving.into.id)?;
    let moved = moved_node(node, moving.into.id, to)?;
    let changes = with_list(alloc, shelf, moved, list)?;
    Ok(Outcome {
        changes,
        reply: Reply::Done,
    })
}
