//! What a shelf remembers of its rows.

ghost use Rattle.std.specs.Prelude.{◌≡◌, false};
ghost use Rattle.sqlite_trees.specs.Tree.{Trees};
ghost use Rattle.room_sql.specs.NodeFacts.{KnowsRows};
ghost use Rattle.room_sql.specs.NodeRows.{AfterAll};
ghost use Rattle.room_sql.specs.Facts.{AreTrueOf, KnowsNothing};
ghost use Rattle.room_sql.specs.declared.new_object.NewObject.TheVariants.{Unknown};

use crate::node_facts::NodeFacts;
use crate::read_lists::ReadLists;
use room_records::Change;
use std::alloc::Global;

/// Counts and names while the connection is open, and lists until the next commit.
#[derive(Drop)]
pub(crate) struct Facts {
    pub(crate) nodes: NodeFacts,
    pub(crate) lists: ReadLists,
}

impl Facts {
    /// True of any rows.
    pub(crate) fn nothing(alloc: Global) -> Facts
        ensures true_of { KnowsNothing result }
        ensures unanswered { result.nodes.has_answered ≡ false }
    {
        Facts {
            nodes: NodeFacts::nothing(alloc),
            lists: ReadLists::none(alloc),
        }
    }

    /// What is left is true of any rows.
    pub(crate) fn forget(&mut self)
        ensures true_of { KnowsNothing self.new }
        ensures unanswered { self.new.nodes.has_answered ≡ false }
    {
        self.nodes.forget();
        self.lists.forget();
    }

    /// What is still true after a commit of these changes. No list is kept.
    pub(crate) fn follow(&mut self, changes: &[Change])
        ensures { (old new : Trees) → KnowsRows self.old.nodes (old 1) → AfterAll Unknown changes.now (old 1) (new 1)
            → AreTrueOf self.new new }
    {
        self.nodes.follow(changes);
        self.lists.forget();
    }
}
