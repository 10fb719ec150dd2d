//! How far down a subtree reaches.
ghost use Rattle.std.specs.Prelude.{◌≡◌, ◌+◌, ◌≤◌, Some, IfOk};
ghost use Rattle.room_records.specs.declared.node.Node.{Node};
ghost use Rattle.room_records.specs.Names.{Path as PathModel};
ghost use Rattle.room_records.specs.Representation.{HasPath};
ghost use Rattle.room_records.specs.Shelf.{ShelfRead, fault_in};
ghost use Rattle.room_commands.specs.Checks.{check_depth};
ghost use Rattle.room_tree.specs.Asks.{at_or_below};
ghost use Rattle.room_tree.specs.Depths.{TellsBelow};
ghost use Rattle.room_tree.specs.LoadedObjects.{OfRoom, IsLoaded};
ghost use Rattle.room_tree.specs.Stops.{Passes, stop_fault};

use crate::loaded::LoadedObject;
use crate::refusal::Stop;
use room_acl::Kind;
use room_commands::RefusalCode;
use room_records::{MAX_NAMES, Path, Shelf, ShelfFault};

/// Whether something stands this many levels below the node of this number and kind: 0 is the node itself.
/// It reads the folders above that level, and stops at the first node that it finds there. However the rows
/// are, it goes no further down.
fn reaches_down<S: Shelf>(
    shelf: &mut S,
    id: u32,
    kind: Kind,
    levels: usize,
) -> Result<bool, ShelfFault>
    ensures value { OfRoom (S.view shelf.old) (S.view shelf.new) (λ t room. (path : PathModel) (node : Node) →
        HasPath t path id → t.node id ≡ Some node → node.kind ≡ kind → IfOk result (TellsBelow room path levels)) }
    ensures frame { ShelfRead (S.view shelf.old) (S.view shelf.new) (fault_in result) }
    ensures asks { OfRoom (S.view shelf.old) (S.view shelf.new) (λ t room. (path : PathModel) → HasPath t path id →
        S.calls_left shelf.old ≤ S.calls_left shelf.new + at_or_below room path) }
{
    if levels == 0 {
        return Ok(true);
    }
    if let Kind::File = kind {
        return Ok(false);
    }
    let nodes = shelf.children(id)?;
    for node in &nodes {
        let deep = reaches_down(shelf, node.id, node.kind, levels - 1)?;
        if deep {
            return Ok(true);
        }
    }
    Ok(false)
}

/// Whether an object of the subtree at this place would have too many names where it goes to `to`.
pub(crate) fn check_depth<S: Shelf>(
    shelf: &mut S,
    loaded: &LoadedObject,
    to: &Path,
) -> Result<(), Stop>
    ensures value { OfRoom (S.view shelf.old) (S.view shelf.new) (λ t room. (path : PathModel)
        → IsLoaded t room path loaded.now →
        Passes (check_depth room path to.now) (λ _. Unit {0}) result) }
    ensures frame { ShelfRead (S.view shelf.old) (S.view shelf.new) (stop_fault result) }
    ensures asks { OfRoom (S.view shelf.old) (S.view shelf.new) (λ t room. (path : PathModel)
        → IsLoaded t room path loaded.now → S.calls_left shelf.old ≤ S.calls_left shelf.new + at_or_below room path) }
{
    let too_deep = MAX_NAMES + 1 - to.names().len();
    let deep = reaches_down(shelf, loaded.id, loaded.kind, too_deep)?;
    if deep {
        Err(Stop::of(RefusalCode::TooDeep))
    } else {
        Ok(())
    }
}
