//! The lists that were read since the last commit.

ghost use Rattle.std.specs.Prelude.{◌≡◌, true};
ghost use Rattle.sqlite_trees.specs.Tree.{Trees};
ghost use Rattle.room_sql.specs.NodeRows.{LeavesEntries};
ghost use Rattle.room_sql.specs.ReadLists.{IsStored, AreStored, IsKeptFor};

use crate::rows::StoredList;
use room_acl::{Entry, copy_entries};
use room_records::Change;
use std::alloc::Global;
use std::collections::BTreeMap;

/// The entries of all lists that are kept.
const MAX_ENTRIES: usize = 65_536;

/// Lists by the numbers of their objects, as they are stored, at most 65,536 entries in all. A commit compares the
/// lists that it puts with these, and need not read them again: most lists that a command puts it has read.
#[derive(Drop)]
pub(crate) struct ReadLists {
    lists: BTreeMap<u32, Vec<Entry>>,
    /// So many entries more are kept at most.
    free: usize,
}

impl ReadLists {
    /// None is kept.
    pub(crate) fn none(alloc: Global) -> ReadLists
        ensures { (trees : Trees) → AreStored result trees }
    {
        ReadLists {
            lists: BTreeMap::new(alloc),
            free: MAX_ENTRIES,
        }
    }

    pub(crate) fn forget(&mut self)
        ensures { (trees : Trees) → AreStored self.new trees }
    {
        self.lists.clear();
        self.free = MAX_ENTRIES;
    }

    /// Keeps a copy of the object's list, if its places are 0, 1, 2, .. Where there is no room, or memory is refused,
    /// it is not kept.
    pub(crate) fn keep(&mut self, id: u32, list: &StoredList)
        ensures { (trees : Trees) → AreStored self.old trees
            → (list.now.is_placed ≡ true → IsStored id list.now.entries.items trees) → AreStored self.new trees }
    {
        let entries = &list.entries;
        if !list.is_placed || entries.is_empty() || entries.len() > self.free {
            return;
        }
        let Ok(copy) = copy_entries(*entries.allocator(), entries.as_slice()) else {
            return;
        };
        self.free -= copy.len();
        let _ = self.lists.insert(id, copy);
    }

    /// Hands out the list that this change replaces, if it is kept. Those that may be others after the change are
    /// forgotten.
    pub(crate) fn before(&mut self, change: &Change) -> Option<Vec<Entry>>
        ensures mine { (trees : Trees) → AreStored self.old trees → IsKeptFor result change.now trees }
        ensures others { (old new : Trees) → AreStored self.old old → LeavesEntries change.now old new
            → AreStored self.new new }
    {
        match change {
            Change::PutEntries(id, _) => self.lists.remove(id),
            Change::PutNode(_) => None,
            _ => {
                self.forget();
                None
            },
        }
    }
}
