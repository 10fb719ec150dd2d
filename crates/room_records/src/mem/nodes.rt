//! Nodes by number and by place.
ghost use Rattle.std.specs.Prelude.{◌≡◌, ◌≢◌, ℕ, ◌==◌, OnOk, IfOk, None, Some, IsSome, if◌then◌else◌};
ghost use Rattle.std.specs.Prelude.{◌+◌};
ghost use Rattle.room_records.specs.Records.{ObjectRecords};
ghost use Rattle.room_records.specs.Shelf.{AreChildren, IsChildCount, IsChildNamed};
ghost use Rattle.room_records.specs.Table.{HasSpace};
ghost use Rattle.room_records.specs.NodeIndex.{PlaceKey, node_in, id_at, place_of, IsNumbered, ArePlaced, AreAtPlace};
ghost use Rattle.room_records.specs.NodeIndex.{HasSpaceForNode, IsFreeFor};

use crate::names::FileName;
use crate::node::{Node, copy_name};
use crate::table::Table;
use std::alloc::{AllocError, Global};
use std::ops::Range;

/// The place of a node: its parent's number, wide enough for the number after the last one, and
/// its name.
pub(crate) type Place = (u64, Option<FileName>);

/// Nodes by number, with an index by place.
#[derive(Drop)]
pub(crate) struct NodeIndex {
    pub(crate) nodes: Table<u32, Node>,
    pub(crate) places: Table<Place, u32>,
    ghost numbered: { IsNumbered (node_in nodes.slots) },
    ghost placed: { ArePlaced (node_in nodes.slots) (id_at places.slots) },
    ghost at_place: { AreAtPlace (node_in nodes.slots) (id_at places.slots) },
}

impl NodeIndex {
    pub(crate) fn new(alloc: Global) -> NodeIndex
        ensures { (id : ℕ) → node_in result.nodes.slots id ≡ None }
    {
        NodeIndex {
            nodes: Table::new(alloc),
            places: Table::new(alloc),
        }
    }

    /// Reserves space for this node. It changes no node, also where memory is refused.
    pub(crate) fn reserve(&mut self, node: &Node) -> Result<(), AllocError>
        ensures same { (id : ℕ) → node_in self.new.nodes.slots id ≡ node_in self.old.nodes.slots id }
        ensures kept { (other : Node) → HasSpaceForNode self.old.nodes.slots self.old.places.slots other
            → HasSpaceForNode self.new.nodes.slots self.new.places.slots other }
        ensures space { OnOk result (HasSpaceForNode self.new.nodes.slots self.new.places.slots node.now) }
    {
        self.nodes.reserve(node.id)?;
        let Some(parent) = node.parent else {
            return Ok(());
        };
        let name = copy_name(&node.name)?;
        self.places.reserve((u64::from(parent), name))
    }

    pub(crate) fn node(&self, id: u32) -> Result<Option<Node>, AllocError>
        ensures { IfOk result (λ found. found ≡ node_in self.now.nodes.slots id) }
    {
        match self.nodes.get(&id) {
            Some(node) => Ok(Some(node.clone()?)),
            None => Ok(None),
        }
    }

    pub(crate) fn child(&self, parent: u32, name: &FileName) -> Result<Option<Node>, AllocError>
        ensures { (t : ObjectRecords) → t.node ≡ node_in self.now.nodes.slots
            → IfOk result (IsChildNamed t parent name.now) }
    {
        let place = (u64::from(parent), Some(name.clone()?));
        match self.places.get(&place) {
            Some(id) => self.node(*id),
            None => Ok(None),
        }
    }

    /// The nodes in a folder, by name. It reads the folder, and nothing else.
    pub(crate) fn children(&self, alloc: Global, parent: u32) -> Result<Vec<Node>, AllocError>
        ensures { (t : ObjectRecords) → t.node ≡ node_in self.now.nodes.slots
            → IfOk result (λ found. AreChildren t parent found.items) }
    {
        let mut found = Vec::new(alloc);
        for (_, slot) in self.places.slots.range(places_in(parent)) {
            if let Some(id) = slot
                && let Some(node) = self.nodes.get(id)
            {
                found.push(node.clone()?)?;
            }
        }
        Ok(found)
    }

    /// How many nodes are in a folder. It reads the folder, and nothing else.
    pub(crate) fn child_count(&self, parent: u32) -> u64
        ensures { (t : ObjectRecords) → t.node ≡ node_in self.now.nodes.slots → IsChildCount t parent result }
    {
        let mut count = 0u64;
        for (_, slot) in self.places.slots.range(places_in(parent)) {
            if let Some(id) = slot
                && self.nodes.get(id).is_some()
            {
                count += 1;
            }
        }
        count
    }

    /// Takes a node out, and gives back its place.
    pub(crate) fn take(&mut self, id: u32) -> Option<Place>
        ensures nodes { (k : ℕ) → node_in self.new.nodes.slots k
            ≡ (if k == id then None else node_in self.old.nodes.slots k) }
        ensures kept { (other : Node) → HasSpaceForNode self.old.nodes.slots self.old.places.slots other
            → HasSpaceForNode self.new.nodes.slots self.new.places.slots other }
    {
        let node = self.nodes.take(&id)?;
        let place = (u64::from(node.parent?), node.name);
        let _ = self.places.take(&place);
        Some(place)
    }

    /// Adds a node that is not there, at its place if no other node is there.
    pub(crate) fn add(&mut self, node: Node)
        requires absent { node_in self.old.nodes.slots node.id ≡ None }
        requires space { HasSpaceForNode self.old.nodes.slots self.old.places.slots node }
        ensures nodes { IsFreeFor (node_in self.old.nodes.slots) node
            → (k : ℕ) → node_in self.new.nodes.slots k
            ≡ (if k == node.id then Some node else node_in self.old.nodes.slots k) }
        ensures others { (k : ℕ) → k ≢ node.id → node_in self.new.nodes.slots k ≡ node_in self.old.nodes.slots k }
        ensures kept { (other : Node) → HasSpaceForNode self.old.nodes.slots self.old.places.slots other
            → HasSpaceForNode self.new.nodes.slots self.new.places.slots other }
    {
        match node.parent {
            Some(parent) => self.add_child(node, parent),
            None => {
                let id = node.id;
                let _ = self.nodes.put(&id, node);
            }
        }
    }

    fn add_child(&mut self, node: Node, parent: u32)
        requires absent { node_in self.old.nodes.slots node.id ≡ None }
        requires space { HasSpaceForNode self.old.nodes.slots self.old.places.slots node }
        requires parent { node.parent ≡ Some parent }
        ensures nodes { IsFreeFor (node_in self.old.nodes.slots) node
            → (k : ℕ) → node_in self.new.nodes.slots k
            ≡ (if k == node.id then Some node else node_in self.old.nodes.slots k) }
        ensures others { (k : ℕ) → k ≢ node.id → node_in self.new.nodes.slots k ≡ node_in self.old.nodes.slots k }
        ensures kept { (other : Node) → HasSpaceForNode self.old.nodes.slots self.old.places.slots other
            → HasSpaceForNode self.new.nodes.slots self.new.places.slots other }
    {
        let mut node = node;
        let id = node.id;
        let place = (u64::from(parent), node.name.take());
        if self.places.get(&place).is_some() {
            return;
        }
        let _ = self.places.put(&place, id);
        node.name = place.1;
        let _ = self.nodes.put(&id, node);
    }
}

/// The places in a folder.
fn places_in(parent: u32) -> Range<Place>
    ensures { result ≡ record { start = (parent, None); end = (parent + 1, None) } }
{
    let parent = u64::from(parent);
    (parent, None)..(parent + 1, None)
}
