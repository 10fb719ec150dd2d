//! The shelf of a fresh room, in memory.
ghost use Rattle.std.specs.Prelude.{◌≡◌, IfOk};
ghost use Rattle.room_records.specs.Rules.{RulesHold};
ghost use Rattle.room_records.specs.Room.{fresh_room};
ghost use Rattle.room_records.specs.Representation.{RepresentsRoom};
ghost use Rattle.room_records.specs.Fresh.{fresh_records, no_records};
ghost use Rattle.room_records.specs.Mem.{mem_records};
ghost use Rattle.room_records.specs.Shelf.{IsNewShelf};
ghost use Rattle.room_records.specs.contracts.mem.MemShelfShelf.TheImpl.{ghosts};

use crate::fresh::{fresh_entries, fresh_root};
use crate::mem::MemShelf;
use crate::mem::nodes::NodeIndex;
use crate::mem::sessions::Sessions;
use crate::node::ROOT;
use crate::table::Table;
use room_acl::Principal;
use std::alloc::{AllocError, Global};

impl MemShelf {
    /// The shelf of a fresh room: a root folder of this owner and group, with two entries of its
    /// own, and no session.
    pub fn fresh(alloc: Global, owner: Principal, group: Principal) -> Result<MemShelf, AllocError>
        ensures rows { IfOk result (λ shelf. mem_records shelf ≡ fresh_records owner group) }
        ensures rules { IfOk result (λ shelf. RulesHold (mem_records shelf)) }
        ensures made { IfOk result (λ shelf. IsNewShelf (ghosts.view shelf)) }
        ensures stands { IfOk result (λ shelf. RepresentsRoom (mem_records shelf).objects (fresh_room owner group)) }
    {
        let entries = fresh_entries(alloc)?;
        let root = fresh_root(owner, group);
        let mut shelf = MemShelf::empty(alloc);
        shelf.nodes.reserve(&root)?;
        shelf.entries.reserve(1)?;
        shelf.nodes.add(root);
        let _ = shelf.entries.put(&ROOT, entries);
        Ok(shelf)
    }

    fn empty(alloc: Global) -> MemShelf
        ensures { mem_records result ≡ no_records 2 }
    {
        MemShelf {
            alloc,
            nodes: NodeIndex::new(alloc),
            entries: Table::new(alloc),
            docs: Table::new(alloc),
            sessions: Sessions::new(alloc),
            next: 2,
        }
    }
}
