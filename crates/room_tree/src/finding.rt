//! Finding nodes by their paths.
ghost use Rattle.std.specs.Prelude.{IfOk, OnOk};
ghost use Rattle.room_records.specs.Shelf.{ShelfRead, fault_in};
ghost use Rattle.room_records.specs.Room.{Room};
ghost use Rattle.room_records.specs.Representation.{RepresentsRoom, IsNodeAt};

use room_records::{Node, Path, Shelf, ShelfFault};

/// The node at a path, if there is one.
pub fn node_at<S: Shelf>(shelf: &mut S, path: &Path) -> Result<Option<Node>, ShelfFault>
    ensures value { (S.view shelf.new).is_available → (S.view shelf.old).is_laid_out
        → (room : Room) → RepresentsRoom (S.view shelf.old).records.objects room →
        IfOk result (IsNodeAt (S.view shelf.old).records.objects room path.now) }
    ensures there { (S.view shelf.new).is_intact → OnOk result (S.view shelf.new).is_available }
    ensures frame { ShelfRead (S.view shelf.old) (S.view shelf.new) (fault_in result) }
{
    let Some(mut here) = shelf.node(1)? else {
        return Ok(None);
    };
    for name in path.names() {
        let Some(next) = shelf.child(here.id, name)? else {
            return Ok(None);
        };
        here = next;
    }
    Ok(Some(here))
}
