//! Changes of a shelf in memory: all memory is taken first, and then every change is made.
ghost use Rattle.std.specs.Prelude.{◌≡◌, ◌<◌, OnOk, IfOk, [], ◌∷◌};
ghost use Rattle.std.specs.List.{AllByRecursion};
ghost use Rattle.room_records.specs.Limits.{max_slots};
ghost use Rattle.room_records.specs.Records.{Records};
ghost use Rattle.room_records.specs.Rules.{RulesHold};
ghost use Rattle.room_records.specs.NodeIndex.{HasSpaceForNode};
ghost use Rattle.room_records.specs.Sessions.{slot_cmp};
ghost use Rattle.room_records.specs.Table.{HasSpace};
ghost use Rattle.room_records.specs.Changes.{apply_change, apply_changes, RulesHoldAfterEach, Untouched};
ghost use Rattle.room_records.specs.Mem.{mem_records, HasSpaceFor, KeepsSpace, AreSameChanges};

use crate::change::Change;
use crate::mem::MemShelf;
use crate::node::Node;
use crate::session::SlotRow;
use std::alloc::AllocError;

impl MemShelf {
    /// Copies the changes and reserves space for them. It changes no record, also where memory is
    /// refused.
    pub(crate) fn prepare(&mut self, changes: &[Change]) -> Result<Vec<Change>, AllocError>
        ensures same { mem_records self.new ≡ mem_records self.old }
        ensures steps { IfOk result (λ steps. AreSameChanges steps.items changes.now) }
        ensures space { IfOk result (λ steps. AllByRecursion (HasSpaceFor self.new) steps.items) }
    {
        let mut steps = Vec::new(self.alloc);
        for change in changes {
            let step = change.clone(self.alloc)?;
            self.reserve(&step)?;
            steps.push(step)?;
        }
        Ok(steps)
    }

    /// Reserves space for a change. It changes no record, also where memory is refused.
    fn reserve(&mut self, change: &Change) -> Result<(), AllocError>
        ensures same { mem_records self.new ≡ mem_records self.old }
        ensures kept { KeepsSpace self.old self.new }
        ensures space { OnOk result (HasSpaceFor self.new change.now) }
    {
        match change {
            Change::PutNode(node) => self.nodes.reserve(node),
            Change::PutEntries(id, _) => self.entries.reserve(*id),
            Change::PutDoc(id, _) => self.docs.reserve(*id),
            Change::PutSession(row) => {
                let sid = row.sid.clone()?;
                self.sessions.make_session_room(sid)
            }
            Change::PutSlot(row) => {
                let sid = row.sid.clone()?;
                self.sessions.reserve_slot(sid, row.slot)
            }
            Change::DropNode(_) | Change::DropSlots(_) | Change::PutNext(_) => Ok(()),
        }
    }

    /// Makes every change in order.
    pub(crate) fn apply_all(&mut self, steps: Vec<Change>)
        requires { AllByRecursion (HasSpaceFor self.old) steps.items }
        ensures records { RulesHoldAfterEach steps.items (mem_records self.old)
            → mem_records self.new ≡ apply_changes steps.items (mem_records self.old) }
        ensures untouched { Untouched steps.items (mem_records self.old) (mem_records self.new) }
    {
        for step in steps {
            self.apply(step);
        }
    }

    /// Makes one change. Where the record rules hold after it, the records are as it says.
    fn apply(&mut self, change: Change)
        requires { HasSpaceFor self.old change }
        ensures records { RulesHold (apply_change change (mem_records self.old))
            → mem_records self.new ≡ apply_change change (mem_records self.old) }
        ensures untouched { Untouched (change ∷ []) (mem_records self.old) (mem_records self.new) }
        ensures kept { KeepsSpace self.old self.new }
    {
        match change {
            Change::PutNode(node) => self.put_node(node),
            Change::DropNode(id) => self.drop_node(id),
            Change::PutEntries(id, entries) => {
                let _ = self.entries.put(&id, entries);
            }
            Change::PutDoc(id, bytes) => {
                let _ = self.docs.put(&id, bytes);
            }
            Change::PutSession(row) => self.sessions.put_session(row),
            Change::PutSlot(row) => self.put_slot(row),
            Change::DropSlots(sid) => self.sessions.drop_slots(sid),
            Change::PutNext(next) => self.next = next,
        }
    }

    fn put_node(&mut self, node: Node)
        requires { HasSpaceForNode self.old.nodes.nodes.slots self.old.nodes.places.slots node }
        ensures records { RulesHold (apply_change (Change.PutNode node) (mem_records self.old))
            → mem_records self.new ≡ apply_change (Change.PutNode node) (mem_records self.old) }
        ensures untouched { Untouched (Change.PutNode node ∷ []) (mem_records self.old) (mem_records self.new) }
        ensures kept { KeepsSpace self.old self.new }
    {
        let _ = self.nodes.take(node.id);
        self.nodes.add(node);
    }

    fn drop_node(&mut self, id: u32)
        ensures records { mem_records self.new ≡ apply_change (Change.DropNode id) (mem_records self.old) }
        ensures kept { KeepsSpace self.old self.new }
    {
        let _ = self.nodes.take(id);
        let _ = self.entries.take(&id);
        let _ = self.docs.take(&id);
    }

    fn put_slot(&mut self, row: SlotRow)
        requires { row.slot < max_slots → HasSpace slot_cmp self.old.sessions.kept.slots (row.sid, row.slot) }
        ensures records { RulesHold (apply_change (Change.PutSlot row) (mem_records self.old))
            → mem_records self.new ≡ apply_change (Change.PutSlot row) (mem_records self.old) }
        ensures untouched { Untouched (Change.PutSlot row ∷ []) (mem_records self.old) (mem_records self.new) }
        ensures kept { KeepsSpace self.old self.new }
    {
        self.sessions.has_few_slots();
        self.sessions.put_slot(row);
    }
}
