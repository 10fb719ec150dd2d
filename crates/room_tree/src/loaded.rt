//! Objects that were found on a shelf.
ghost use Rattle.std.specs.Prelude.{◌≡◌, ◌+◌, ◌≤◌, take, not, is_some, IfOk};
ghost use Rattle.room_records.specs.Names.{Path as PathModel};
ghost use Rattle.room_records.specs.Records.{ObjectRecords};
ghost use Rattle.room_records.specs.Room.{Room, list_of};
ghost use Rattle.room_records.specs.Shelf.{ShelfRead, fault_in};
ghost use Rattle.room_commands.specs.Checks.{check_right, check_folder, check_file, prefix_refusal, first_refusal};
ghost use Rattle.room_commands.specs.Checks.{denied_at};
ghost use Rattle.room_tree.specs.LoadedObjects.{OfRoom, IsLoaded, node_of, kind_checks, use_checks};
ghost use Rattle.room_tree.specs.Stops.{Passes, refusal_in, stop_fault};

use crate::refusal::{Refusal, Stop};
use room_acl::{Decision, Entry, Kind, ListFlags, Mask, Standing, Subject};
use room_commands::RefusalCode;
use room_records::{FileName, Node, Path, Shelf, ShelfFault};
use std::alloc::{AllocError, Global};

/// An object's row. Its list stays on the shelf, which is asked for a decision, or for the whole list where that is
/// wanted.
#[derive(Debug, Drop)]
pub(crate) struct LoadedObject {
    pub id: u32,
    pub parent: Option<u32>,
    pub name: Option<FileName>,
    pub kind: Kind,
    pub standing: Standing,
    pub aclflag: ListFlags,
}

impl LoadedObject {
    pub(crate) fn of(node: Node) -> LoadedObject
        ensures { node_of result ≡ node }
    {
        LoadedObject {
            id: node.id,
            parent: node.parent,
            name: node.name,
            kind: node.kind,
            standing: Standing {
                owner: node.owner,
                group: node.group,
            },
            aclflag: node.aclflag,
        }
    }

    pub(crate) fn into_node(self) -> Node
        ensures { result ≡ node_of self }
    {
        Node {
            id: self.id,
            parent: self.parent,
            name: self.name,
            kind: self.kind,
            owner: self.standing.owner,
            group: self.standing.group,
            aclflag: self.aclflag,
        }
    }

    /// The row with other list flags.
    pub(crate) fn with_flags(self, aclflag: ListFlags) -> Node
        ensures { result ≡ record (node_of self) { aclflag = aclflag } }
    {
        Node {
            id: self.id,
            parent: self.parent,
            name: self.name,
            kind: self.kind,
            owner: self.standing.owner,
            group: self.standing.group,
            aclflag,
        }
    }

    /// The whole list of the object.
    pub(crate) fn whole_list<S: Shelf>(&self, shelf: &mut S) -> Result<Vec<Entry>, ShelfFault>
        ensures value { OfRoom (S.view shelf.old) (S.view shelf.new) (λ t room. (at : PathModel)
            → IsLoaded t room at self.now → IfOk result (λ list. list.items ≡ list_of room at)) }
        ensures frame { ShelfRead (S.view shelf.old) (S.view shelf.new) (fault_in result) }
        ensures asks { S.calls_left shelf.old ≤ S.calls_left shelf.new + 1 }
    {
        shelf.entries(self.id)
    }

    /// What the list of the object decides of these bits.
    fn decision<S: Shelf>(
        &self,
        shelf: &mut S,
        subject: &Subject,
        wanted: Mask,
    ) -> Result<Decision, ShelfFault>
        ensures value { OfRoom (S.view shelf.old) (S.view shelf.new) (λ t room. (at : PathModel)
            → IsLoaded t room at self.now →
            IfOk result (λ decision. check_right room subject.now at wanted ≡ denied_at at decision)) }
        ensures frame { ShelfRead (S.view shelf.old) (S.view shelf.new) (fault_in result) }
        ensures asks { S.calls_left shelf.old ≤ S.calls_left shelf.new + 1 }
    {
        shelf.decide_at(self.id, subject, &self.standing, wanted)
    }

    /// Whether the list of the object allows these bits to the caller.
    pub(crate) fn allows<S: Shelf>(
        &self,
        shelf: &mut S,
        subject: &Subject,
        wanted: Mask,
    ) -> Result<bool, ShelfFault>
        ensures value { OfRoom (S.view shelf.old) (S.view shelf.new) (λ t room. (at : PathModel)
            → IsLoaded t room at self.now →
            IfOk result (λ allowed. allowed ≡ not (is_some (check_right room subject.now at wanted)))) }
        ensures frame { ShelfRead (S.view shelf.old) (S.view shelf.new) (fault_in result) }
        ensures asks { S.calls_left shelf.old ≤ S.calls_left shelf.new + 1 }
    {
        match self.decision(shelf, subject, wanted)? {
            Decision::Allowed => Ok(true),
            Decision::Denied { .. } => Ok(false),
        }
    }

    /// Whether the list of the object allows these bits to the caller.
    /// The object stands at the first `count` names of `path`.
    pub(crate) fn check_right<S: Shelf>(
        &self,
        alloc: Global,
        shelf: &mut S,
        subject: &Subject,
        wanted: Mask,
        path: &Path,
        count: usize,
    ) -> Result<(), Stop>
        ensures value { OfRoom (S.view shelf.old) (S.view shelf.new) (λ t room. (at : PathModel)
            → take count path.now ≡ at → IsLoaded t room at self.now →
            Passes (check_right room subject.now at wanted) (λ _. Unit {0}) result) }
        ensures frame { ShelfRead (S.view shelf.old) (S.view shelf.new) (stop_fault result) }
        ensures asks { S.calls_left shelf.old ≤ S.calls_left shelf.new + 1 }
    {
        match self.decision(shelf, subject, wanted)? {
            Decision::Allowed => Ok(()),
            Decision::Denied { bit } => {
                let at = path.front(alloc, count)?;
                Err(Stop::Refused(Refusal {
                    code: RefusalCode::Access,
                    place: Some((at, bit)),
                }))
            }
        }
    }

    pub(crate) fn check_folder(&self) -> Result<(), Refusal>
        ensures { (t : ObjectRecords) (room : Room) (at : PathModel)
            → IsLoaded t room at self.now → refusal_in result ≡ check_folder room at }
    {
        match self.kind {
            Kind::File => Err(Refusal::of(RefusalCode::NotDir)),
            Kind::Folder => Ok(()),
        }
    }

    pub(crate) fn check_file(&self) -> Result<(), Refusal>
        ensures { (t : ObjectRecords) (room : Room) (at : PathModel)
            → IsLoaded t room at self.now → refusal_in result ≡ check_file room at }
    {
        match self.kind {
            Kind::File => Ok(()),
            Kind::Folder => Err(Refusal::of(RefusalCode::IsDir)),
        }
    }

    /// Whether the caller may go through the object, as a folder on the way.
    pub(crate) fn check_way<S: Shelf>(
        &self,
        alloc: Global,
        shelf: &mut S,
        subject: &Subject,
        path: &Path,
        count: usize,
    ) -> Result<(), Stop>
        ensures value { OfRoom (S.view shelf.old) (S.view shelf.new) (λ t room. (at : PathModel)
            → take count path.now ≡ at → IsLoaded t room at self.now →
            Passes (prefix_refusal room subject.now at) (λ _. Unit {0}) result) }
        ensures frame { ShelfRead (S.view shelf.old) (S.view shelf.new) (stop_fault result) }
        ensures asks { S.calls_left shelf.old ≤ S.calls_left shelf.new + 1 }
    {
        self.check_folder()?;
        self.check_right(alloc, shelf, subject, Mask::EXECUTE, path, count)
    }

    fn check_kind(&self, only: Option<Kind>) -> Result<(), Refusal>
        ensures { (t : ObjectRecords) (room : Room) (at : PathModel) → IsLoaded t room at self.now →
            refusal_in result ≡ first_refusal (kind_checks room at only) }
    {
        match only {
            None => Ok(()),
            Some(kind) => match kind {
                Kind::File => self.check_file(),
                Kind::Folder => self.check_folder(),
            },
        }
    }

    /// Whether the object at this path is of the kind that is asked for, and allows these bits to the caller.
    pub(crate) fn check_use<S: Shelf>(
        &self,
        alloc: Global,
        shelf: &mut S,
        subject: &Subject,
        path: &Path,
        only: Option<Kind>,
        wanted: Mask,
    ) -> Result<(), Stop>
        ensures value { OfRoom (S.view shelf.old) (S.view shelf.new) (λ t room. IsLoaded t room path.now self.now →
            Passes (first_refusal (use_checks room subject.now path.now only wanted)) (λ _. Unit {0}) result) }
        ensures frame { ShelfRead (S.view shelf.old) (S.view shelf.new) (stop_fault result) }
        ensures asks { S.calls_left shelf.old ≤ S.calls_left shelf.new + 1 }
    {
        self.check_kind(only)?;
        let count = path.names().len();
        self.check_right(alloc, shelf, subject, wanted, path, count)
    }
}
