//! What a shelf remembers of its rows of nodes, so that it need not ask again.

ghost use Rattle.std.specs.Prelude.{◌≡◌, ◌+◌, ℕ, true, false, Some, IfSome, IsSome, List, if◌then◌else◌};
ghost use Rattle.std.specs.Ordering.{nat_cmp};
ghost use Rattle.sqlite_value.specs.Order.{Row};
ghost use Rattle.room_acl.specs.declared.subject.Kind.{Kind};
ghost use Rattle.room_records.specs.declared.change.Change.TheVariants.{PutNode};
ghost use Rattle.room_records.specs.Names.{Name};
ghost use Rattle.room_cache.specs.Rows.{row_at};
ghost use Rattle.room_sql.specs.NodeRows.{in_folder, HasNone, is_parent, IsNewIfKnown, After, AfterAll};
ghost use Rattle.room_sql.specs.declared.new_object.NewObject.TheVariants.{Unknown};
ghost use Rattle.room_sql.specs.NodeFacts.{AreListed, KnowsRows, KnowsNoRows};

use crate::names::NameList;
use crate::new_object::NewObject;
use room_acl::Kind;
use room_cache::Rows;
use room_records::{Change, FileName, Node, copy_names};
use std::alloc::Global;

/// The counts of at most 256 folders, and the names in as many. Only where a commit succeeded are its changes followed
/// here: a new node raises the count of its folder, and that folder's names alone are forgotten.
#[derive(Drop)]
pub(crate) struct NodeFacts {
    /// True only where no fault came since a count or names were read, so that the store is there if it is intact.
    has_answered: bool,
    /// How many rows of nodes are in these folders.
    counts: Rows<u32, u64>,
    /// The names and kinds of what is in these folders.
    names: Rows<u32, NameList>,
}

impl NodeFacts {
    /// True of any rows.
    pub(crate) fn nothing(alloc: Global) -> NodeFacts
        ensures true_of { KnowsNoRows result }
        ensures unanswered { result.has_answered ≡ false }
    {
        NodeFacts {
            has_answered: false,
            counts: Rows::new(alloc),
            names: Rows::new(alloc),
        }
    }

    /// What is left is true of any rows.
    pub(crate) fn forget(&mut self)
        ensures true_of { KnowsNoRows self.new }
        ensures unanswered { self.new.has_answered ≡ false }
    {
        self.has_answered = false;
        self.counts.clear();
        self.names.clear();
    }

    /// The count of this folder, if it is remembered.
    pub(crate) fn count_in(&self, folder: u32) -> Option<u64>
        ensures true_of { (rows : List Row) → KnowsRows self.now rows → IfSome result (λ n. n ≡ in_folder folder rows) }
        ensures answered { IsSome result → self.now.has_answered ≡ true }
    {
        if !self.has_answered {
            return None;
        }
        match self.counts.get(&folder) {
            Some(count) => Some(*count),
            None => None,
        }
    }

    /// Remembers the count of this folder.
    pub(crate) fn keep_count(&mut self, folder: u32, count: u64)
        ensures { (rows : List Row) → KnowsRows self.old rows → count ≡ in_folder folder rows
            → KnowsRows self.new rows }
    {
        self.counts.keep(folder, count);
        self.has_answered = true;
    }

    /// The names and kinds of what is in this folder, by name, if they are remembered.
    pub(crate) fn names_in(&self, folder: u32) -> Option<&NameList>
        ensures true_of { (rows : List Row) → KnowsRows self.now rows
            → IfSome result (λ names. AreListed folder rows names.now) }
        ensures answered { IsSome result → self.now.has_answered ≡ true }
    {
        if !self.has_answered {
            return None;
        }
        self.names.get(&folder)
    }

    /// Remembers the names and kinds of what is in this folder. More than 256 are not remembered: no folder of a room
    /// has them.
    pub(crate) fn keep_names(&mut self, folder: u32, names: &Vec<(FileName, Kind)>)
        ensures { (rows : List Row) → KnowsRows self.old rows → AreListed folder rows names.now.items
            → KnowsRows self.new rows }
    {
        let Ok(copy) = copy_names(*names.allocator(), names.as_slice()) else {
            return;
        };
        if let Some(names) = NameList::new(copy) {
            self.names.keep(folder, names);
            self.has_answered = true;
        }
    }

    /// Raises the count of the folder that is the parent, if it is remembered. One that has no greater is forgotten.
    fn raise_count(&mut self, parent: Option<u32>)
        ensures counts { (folder count : ℕ) → row_at nat_cmp self.new.counts folder ≡ Some count
            → (was : ℕ) × (row_at nat_cmp self.old.counts folder ≡ Some was)
            × (count ≡ was + (if is_parent parent folder then 1 else 0)) }
        ensures others { self.new ≡ record self.old { counts = self.new.counts } }
    {
        let Some(folder) = parent else {
            return;
        };
        let Some(count) = self.counts.take(&folder) else {
            return;
        };
        if let Some(more) = count.checked_add(1) {
            self.counts.keep(folder, more);
        }
    }

    /// Forgets the names in the folder that is the parent.
    fn forget_names(&mut self, parent: Option<u32>)
        ensures names { (folder : ℕ) (names : List (Name × Kind)) → row_at nat_cmp self.new.names folder ≡ Some names
            → (row_at nat_cmp self.old.names folder ≡ Some names) × (is_parent parent folder ≡ false) }
        ensures others { self.new ≡ record self.old { names = self.new.names } }
    {
        if let Some(folder) = parent {
            self.names.forget(&folder);
        }
    }

    /// After a node is put: where it is new it is one row more in its folder.
    fn follow_put(&mut self, is_new: bool, node: &Node)
        ensures { (old new : List Row) → KnowsRows self.old old → (is_new ≡ true → HasNone node.now.id old)
            → After (PutNode node.now) old new → KnowsRows self.new new }
    {
        if !is_new {
            self.forget();
            return;
        }
        self.raise_count(node.parent);
        self.forget_names(node.parent);
    }

    fn follow_one(&mut self, object: NewObject, change: &Change)
        ensures { (old new : List Row) → KnowsRows self.old old → IsNewIfKnown object change.now old
            → After change.now old new → KnowsRows self.new new }
    {
        match change {
            Change::PutNode(node) => self.follow_put(object.is_new(node.id), node),
            Change::DropNode(_) => self.forget(),
            _ => {},
        }
    }

    /// What is still true after a commit of these changes.
    pub(crate) fn follow(&mut self, changes: &[Change])
        ensures { (old new : List Row) → KnowsRows self.old old → AfterAll Unknown changes.now old new
            → KnowsRows self.new new }
    {
        let mut object = NewObject::Unknown;
        for change in changes {
            self.follow_one(object, change);
            object = object.after(change);
        }
    }
}
