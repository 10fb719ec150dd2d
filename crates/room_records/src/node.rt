//! A folder or a file, as a row.
ghost use Rattle.std.specs.Prelude.{◌≡◌, IfOk};
ghost use Rattle.std.specs.List.{filter_map};
ghost use Rattle.room_records.specs.Shelf.{listed};

use crate::names::FileName;
use room_acl::{Kind, ListFlags, Principal};
use std::alloc::{AllocError, Global};

/// The number of the root.
pub const ROOT: u32 = 1;

/// A folder or a file. The root has no parent and no name.
#[derive(Debug, Drop)]
pub struct Node {
    pub id: u32,
    pub parent: Option<u32>,
    pub name: Option<FileName>,
    pub kind: Kind,
    pub owner: Principal,
    pub group: Principal,
    pub aclflag: ListFlags,
}

impl Node {
    pub fn clone(&self) -> Result<Node, AllocError>
        ensures { IfOk result (λ copy. copy ≡ self.now) }
    {
        let name = copy_name(&self.name)?;
        let owner = self.owner.clone()?;
        let group = self.group.clone()?;
        Ok(Node {
            id: self.id,
            parent: self.parent,
            name,
            kind: self.kind,
            owner,
            group,
            aclflag: self.aclflag,
        })
    }
}

/// What a listing shows of these nodes: the names and kinds of those with a name, in their order.
pub(crate) fn listing(alloc: Global, nodes: Vec<Node>) -> Result<Vec<(FileName, Kind)>, AllocError>
    ensures { IfOk result (λ names. names.items ≡ filter_map listed nodes.items) }
{
    let mut names = Vec::new(alloc);
    for node in nodes {
        let Node { name, kind, .. } = node;
        if let Some(name) = name {
            names.push((name, kind))?;
        }
    }
    Ok(names)
}

/// The same names and kinds once more, in the same order. AllocError where memory is refused.
pub fn copy_names(
    alloc: Global,
    names: &[(FileName, Kind)],
) -> Result<Vec<(FileName, Kind)>, AllocError>
    ensures { IfOk result (λ copy. copy.items ≡ names.now) }
{
    let mut copy = Vec::new(alloc);
    for named in names {
        copy.push((named.0.clone()?, named.1))?;
    }
    Ok(copy)
}

pub(crate) fn copy_name(name: &Option<FileName>) -> Result<Option<FileName>, AllocError>
    ensures { IfOk result (λ copy. copy ≡ name.now) }
{
    match name {
        Some(name) => Ok(Some(name.clone()?)),
        None => Ok(None),
    }
}
