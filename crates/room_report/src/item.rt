//! What is carried down of an object.
ghost use Rattle.std.specs.Prelude.{◌≡◌, ◌++◌, [], ◌∷◌, IfOk, OnOk, MatchOption, unwrap_or};
ghost use Rattle.room_records.specs.Names.{Path as PathModel};
ghost use Rattle.room_records.specs.Records.{IsChild};
ghost use Rattle.room_records.specs.Shelf.{ShelfRead, fault_in, name_of};
ghost use Rattle.room_report.specs.Walk.{OfIntactRoom, IsItem};

use room_acl::{Entry, Kind, ListFlags, Standing};
use room_records::{FileName, Node, Shelf, ShelfFault};
use std::alloc::{AllocError, Global};

/// An object on the way down, with its whole list.
#[derive(Debug, Drop)]
pub(crate) struct Item {
    pub id: u32,
    pub kind: Kind,
    pub aclflag: ListFlags,
    pub standing: Standing,
    pub list: Vec<Entry>,
    /// The names of its path with a `/` before each: the path's text, but for the root's.
    pub names: Vec<u8>,
}

/// The root, with its list.
pub(crate) fn root_item<S: Shelf>(alloc: Global, shelf: &mut S) -> Result<Option<Item>, ShelfFault>
    ensures value { OfIntactRoom (S.view shelf.old) (S.view shelf.new) (λ t room. IfOk result (λ found.
        MatchOption found ⊥ (IsItem t room []))) }
    ensures there { (S.view shelf.new).is_intact → OnOk result (S.view shelf.new).is_available }
    ensures frame { ShelfRead (S.view shelf.old) (S.view shelf.new) (fault_in result) }
{
    let Some(root) = shelf.node(1)? else {
        return Ok(None);
    };
    let list = shelf.entries(root.id)?;
    Ok(Some(Item {
        id: root.id,
        kind: root.kind,
        aclflag: root.aclflag,
        standing: Standing {
            owner: root.owner,
            group: root.group,
        },
        list,
        names: Vec::new(alloc),
    }))
}

/// A child of a folder, with its list.
pub(crate) fn item_below<S: Shelf>(
    alloc: Global,
    shelf: &mut S,
    above: &Item,
    node: &Node,
) -> Result<Item, ShelfFault>
    ensures value { OfIntactRoom (S.view shelf.old) (S.view shelf.new) (λ t room. (path : PathModel)
        → IsItem t room path above.now →
        IsChild t above.now.id node.now → IfOk result (IsItem t room (path ++ name_of node.now ∷ []))) }
    ensures there { (S.view shelf.new).is_intact → OnOk result (S.view shelf.new).is_available }
    ensures frame { ShelfRead (S.view shelf.old) (S.view shelf.new) (fault_in result) }
{
    let list = shelf.entries(node.id)?;
    let names = with_name(alloc, &above.names, &node.name)?;
    let standing = Standing {
        owner: node.owner.clone()?,
        group: node.group.clone()?,
    };
    Ok(Item {
        id: node.id,
        kind: node.kind,
        aclflag: node.aclflag,
        standing,
        list,
        names,
    })
}

/// The names with one more, and a `/` before it.
fn with_name(alloc: Global, names: &[u8], name: &Option<FileName>) -> Result<Vec<u8>, AllocError>
    ensures { IfOk result (λ longer. longer.items ≡ names.now ++ 47 ∷ unwrap_or name.now []) }
{
    let mut longer = Vec::from_slice(alloc, names)?;
    longer.push(b'/')?;
    if let Some(name) = name {
        longer.extend_from_slice(name.text().as_bytes())?;
    }
    Ok(longer)
}
