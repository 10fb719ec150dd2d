//! A shelf in memory.
ghost use Rattle.std.specs.Prelude.{◌≡◌, IfOk};

mod changes;
mod fresh;
mod nodes;
mod sessions;

use crate::change::Change;
use crate::names::{FileName, Sid};
use crate::node::{Node, listing};
use crate::session::SessionRow;
use crate::shelf::{Shelf, ShelfFault};
use crate::table::Table;
use nodes::NodeIndex;
use room_acl::{Decision, Entry, Kind, Mask, Standing, Subject, copy_entries, decide};
use room_slots::Kept;
use sessions::Sessions;
use std::alloc::Global;

/// A shelf in memory. Look-ups go by key and do not scan the room, and a commit costs what it
/// changes.
#[derive(Drop)]
pub struct MemShelf {
    alloc: Global,
    nodes: NodeIndex,
    entries: Table<u32, Vec<Entry>>,
    docs: Table<u32, Vec<u8>>,
    sessions: Sessions,
    next: u32,
}

impl Shelf for MemShelf {
    ghost use Rattle.std.specs.Prelude.{◌≡◌, refl};
    ghost use Rattle.room_records.specs.Mem.{mem_records};

    ghost view = { λ s. record {
      records = mem_records s;
      failures = 0;
      is_intact = Unit {0};
      is_available = Unit {0};
      is_laid_out = Unit {0};
      crash_may_leave = λ left. left ≡ mem_records s;
      leaves_laid_out = Unit {0};
    } };

    ghost calls_left = { λ s. 0 };

    ghost available_is_intact = { λ s h. h };

    ghost settled = { λ s left h may. may };

    ghost stays = { λ s h. refl };

    ghost leaves_laid_out = { λ s h d. d };

    fn node(&mut self, id: u32) -> Result<Option<Node>, ShelfFault> {
        Ok(self.nodes.node(id)?)
    }

    fn child(&mut self, parent: u32, name: &FileName) -> Result<Option<Node>, ShelfFault> {
        Ok(self.nodes.child(parent, name)?)
    }

    fn children(&mut self, parent: u32) -> Result<Vec<Node>, ShelfFault> {
        Ok(self.nodes.children(self.alloc, parent)?)
    }

    fn names(&mut self, parent: u32) -> Result<Vec<(FileName, Kind)>, ShelfFault> {
        let nodes = self.nodes.children(self.alloc, parent)?;
        Ok(listing(self.alloc, nodes)?)
    }

    fn child_count(&mut self, parent: u32) -> Result<u64, ShelfFault> {
        Ok(self.nodes.child_count(parent))
    }

    fn entries(&mut self, id: u32) -> Result<Vec<Entry>, ShelfFault> {
        match self.entries.get(&id) {
            Some(entries) => Ok(copy_entries(self.alloc, entries)?),
            None => Ok(Vec::new(self.alloc)),
        }
    }

    fn decide_at(
        &mut self,
        id: u32,
        subject: &Subject,
        standing: &Standing,
        wanted: Mask,
    ) -> Result<Decision, ShelfFault> {
        match self.entries.get(&id) {
            Some(entries) => Ok(decide(entries, subject, standing, wanted)),
            None => Ok(decide(&[], subject, standing, wanted)),
        }
    }

    fn doc(&mut self, id: u32) -> Result<Vec<u8>, ShelfFault> {
        match self.docs.get(&id) {
            Some(bytes) => Ok(bytes.clone()?),
            None => Ok(Vec::new(self.alloc)),
        }
    }

    fn doc_size(&mut self, id: u32) -> Result<u64, ShelfFault> {
        match self.docs.get(&id) {
            Some(bytes) => Ok(bytes.len() as u64),
            None => Ok(0),
        }
    }

    fn session(&mut self, sid: &Sid) -> Result<Option<SessionRow>, ShelfFault> {
        Ok(self.sessions.session(sid)?)
    }

    fn slot(&mut self, sid: &Sid, slot: u32) -> Result<Option<Kept>, ShelfFault> {
        Ok(self.sessions.slot(sid, slot)?)
    }

    fn slot_seq(&mut self, sid: &Sid, slot: u32) -> Result<Option<u32>, ShelfFault> {
        Ok(self.sessions.slot_seq(sid, slot)?)
    }

    fn next_id(&mut self) -> Result<u32, ShelfFault> {
        Ok(self.next)
    }

    fn commit(&mut self, changes: &[Change]) -> Result<(), ShelfFault> {
        let steps = self.prepare(changes)?;
        self.apply_all(steps);
        Ok(())
    }
}
