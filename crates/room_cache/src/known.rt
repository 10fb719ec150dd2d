//! What is remembered of the rows.
ghost use Rattle.std.specs.Prelude.{◌≡◌, ℕ, true, false, List, None, Some, IfSome, IsSome, OnOk, OnErr, [], ◌∷◌};
ghost use Rattle.std.specs.Ordering.{nat_cmp, eq_by_cmp};
ghost use Rattle.room_slots.specs.Slots.{kept_seq};
ghost use Rattle.room_acl.specs.Entries.{EntryModel};
ghost use Rattle.room_acl.specs.Access.{decision};
ghost use Rattle.room_records.specs.Records.{Records};
ghost use Rattle.room_records.specs.Changes.{apply_change, Untouched};
ghost use Rattle.room_records.specs.Shelf.{IsChildNamed};
ghost use Rattle.room_cache.specs.Rows.{row_at};
ghost use Rattle.room_cache.specs.Known.{IsTrueOf, IsDecidedBy, IsLeft};
ghost use Rattle.room_cache.specs.Slots.{AreKept, IsKept};
ghost use Rattle.room_cache.specs.declared.decisions.Decided.{Decided};

use crate::decisions::{Decided, Decisions};
use crate::list::ShortList;
use crate::rows::Rows;
use crate::slots::{SlotFact, SlotRows};
use room_acl::{Decision, Entry, Mask, Standing, Subject, copy_entries};
use room_records::{Change, FileName, MAX_SLOTS, Node, SessionRow, ShelfFault, Sid, SlotRow};
use room_slots::Kept;
use std::alloc::Global;

/// Rows that are remembered, at most 256 of each kind.
#[derive(Drop)]
pub(crate) struct Known {
    /// True only where no fault came since a call was answered, so that the store is there if it is intact.
    pub(crate) has_answered: bool,
    pub(crate) sessions: Rows<Sid, SessionRow>,
    pub(crate) nodes: Rows<u32, Node>,
    /// The number of the node that was in this folder under this name. The node tells whether it still is.
    pub(crate) places: Rows<(u32, FileName), u32>,
    pub(crate) lists: Rows<u32, ShortList>,
    /// What the lists of these objects decide.
    pub(crate) decisions: Rows<u32, Decisions>,
    /// What slots keep, or the numbers of their requests.
    pub(crate) slots: SlotRows,
    /// The number of the next object.
    pub(crate) next: Option<u32>,
}

impl Known {
    pub(crate) fn nothing(alloc: Global) -> Known
        ensures true_of { (r : Records) → IsTrueOf result r }
        ensures unanswered { result.has_answered ≡ false }
    {
        Known {
            has_answered: false,
            sessions: Rows::new(alloc),
            nodes: Rows::new(alloc),
            places: Rows::new(alloc),
            lists: Rows::new(alloc),
            decisions: Rows::new(alloc),
            slots: SlotRows::new(alloc),
            next: None,
        }
    }

    /// Hands an answer of the shelf inside on as it is. Where it is a fault, all is forgotten.
    pub(crate) fn or_forget<T>(&mut self, answer: Result<T, ShelfFault>) -> Result<T, ShelfFault>
        ensures same { result ≡ answer }
        ensures kept { OnOk result (self.new ≡ self.old) }
        ensures forgotten { OnErr result ((r : Records) → IsTrueOf self.new r) }
        ensures unanswered { OnErr result (self.new.has_answered ≡ false) }
    {
        if answer.is_err() {
            self.clear();
        }
        answer
    }

    /// Forgets all.
    fn clear(&mut self)
        ensures true_of { (r : Records) → IsTrueOf self.new r }
        ensures unanswered { self.new.has_answered ≡ false }
    {
        self.has_answered = false;
        self.sessions.clear();
        self.nodes.clear();
        self.places.clear();
        self.lists.clear();
        self.decisions.clear();
        self.slots.clear();
        self.next = None;
    }

    pub(crate) fn session(&self, sid: &Sid) -> Option<&SessionRow>
        ensures true_of { (r : Records) → IsTrueOf self.now r
            → IfSome result (λ row. r.session sid.now ≡ Some row.now) }
        ensures answered { IsSome result → self.now.has_answered ≡ true }
    {
        if !self.has_answered {
            return None;
        }
        self.sessions.get(sid)
    }

    pub(crate) fn node(&self, id: u32) -> Option<&Node>
        ensures true_of { (r : Records) → IsTrueOf self.now r
            → IfSome result (λ node. r.objects.node id ≡ Some node.now) }
        ensures answered { IsSome result → self.now.has_answered ≡ true }
    {
        if !self.has_answered {
            return None;
        }
        self.nodes.get(&id)
    }

    /// The child of this name. That there is none is not remembered.
    pub(crate) fn child(&self, parent: u32, name: &FileName) -> Option<&Node>
        ensures true_of { (r : Records) → IsTrueOf self.now r
            → IfSome result (λ node. IsChildNamed r.objects parent name.now (Some node.now)) }
        ensures answered { IsSome result → self.now.has_answered ≡ true }
    {
        let Ok(copy) = name.clone() else {
            return None;
        };
        let id = *self.places.get(&(parent, copy))?;
        let node = self.node(id)?;
        if node.id == id && is_at(node, parent, name) {
            Some(node)
        } else {
            None
        }
    }

    pub(crate) fn list(&self, id: u32) -> Option<&ShortList>
        ensures true_of { (r : Records) → IsTrueOf self.now r
            → IfSome result (λ list. r.objects.entries id ≡ list.now) }
        ensures answered { IsSome result → self.now.has_answered ≡ true }
    {
        if !self.has_answered {
            return None;
        }
        self.lists.get(&id)
    }

    /// What the list of the object decides.
    pub(crate) fn decision(
        &self,
        id: u32,
        subject: &Subject,
        standing: &Standing,
        wanted: Mask,
    ) -> Option<Decision>
        ensures true_of { (r : Records) → IsTrueOf self.now r → IfSome result
            (λ found. found ≡ decision (r.objects.entries id) subject.now standing.now wanted) }
        ensures answered { IsSome result → self.now.has_answered ≡ true }
    {
        if !self.has_answered {
            return None;
        }
        match self.decisions.get(&id) {
            Some(made) => made.find(subject, standing, wanted),
            None => None,
        }
    }

    /// The number of the request that a slot keeps. That it keeps none is not remembered.
    pub(crate) fn slot_seq(&self, sid: &Sid, slot: u32) -> Option<u32>
        ensures true_of { (r : Records) → IsTrueOf self.now r
            → IfSome result (λ seq. kept_seq (r.slot sid.now slot) ≡ Some seq) }
        ensures answered { IsSome result → self.now.has_answered ≡ true }
    {
        if !self.has_answered {
            return None;
        }
        let Ok(sid) = sid.clone() else {
            return None;
        };
        match self.slots.get(&(sid, slot)) {
            Some(fact) => Some(fact.seq()),
            None => None,
        }
    }

    /// What a slot keeps. That it keeps nothing is not remembered.
    pub(crate) fn slot(&self, sid: &Sid, slot: u32) -> Option<&Kept>
        ensures true_of { (r : Records) → IsTrueOf self.now r
            → IfSome result (λ kept. r.slot sid.now slot ≡ Some kept.now) }
        ensures answered { IsSome result → self.now.has_answered ≡ true }
    {
        if !self.has_answered {
            return None;
        }
        let Ok(sid) = sid.clone() else {
            return None;
        };
        match self.slots.get(&(sid, slot)) {
            Some(SlotFact::Whole(kept)) => Some(kept),
            _ => None,
        }
    }

    pub(crate) fn next(&self) -> Option<u32>
        ensures true_of { (r : Records) → IsTrueOf self.now r → IfSome result (λ next. r.objects.next ≡ next) }
        ensures answered { IsSome result → self.now.has_answered ≡ true }
    {
        if !self.has_answered {
            return None;
        }
        self.next
    }

    pub(crate) fn keep_session(&mut self, sid: &Sid, row: &SessionRow)
        ensures { (r : Records) → r.session sid.now ≡ Some row.now → IsTrueOf self.old r → IsTrueOf self.new r }
    {
        if let (Ok(sid), Ok(row)) = (sid.clone(), row.clone()) {
            self.sessions.keep(sid, row);
            self.has_answered = true;
        }
    }

    pub(crate) fn keep_node(&mut self, id: u32, node: &Node)
        ensures { (r : Records) → r.objects.node id ≡ Some node.now → IsTrueOf self.old r → IsTrueOf self.new r }
    {
        if let Ok(node) = node.clone() {
            self.nodes.keep(id, node);
            self.has_answered = true;
        }
    }

    pub(crate) fn keep_child(&mut self, parent: u32, name: &FileName, node: &Node)
        ensures { (r : Records) → r.objects.node node.now.id ≡ Some node.now
            → IsTrueOf self.old r → IsTrueOf self.new r }
    {
        if let Ok(name) = name.clone() {
            self.places.keep((parent, name), node.id);
            self.keep_node(node.id, node);
        }
    }

    /// A list of more than 64 entries is not remembered.
    pub(crate) fn keep_list(&mut self, id: u32, list: &Vec<Entry>)
        ensures { (r : Records) → r.objects.entries id ≡ list.now.items → IsTrueOf self.old r → IsTrueOf self.new r }
    {
        let Ok(copy) = copy_entries(*list.allocator(), list.as_slice()) else {
            return;
        };
        if let Some(list) = ShortList::new(copy) {
            self.lists.keep(id, list);
            self.has_answered = true;
        }
    }

    pub(crate) fn keep_decision(&mut self, id: u32, decided: Decided)
        ensures { (r : Records) → IsDecidedBy (r.objects.entries id) decided
            → IsTrueOf self.old r → IsTrueOf self.new r }
    {
        let alloc = *decided.subject.groups.allocator();
        let mut made = self.decisions.take(&id).unwrap_or(Decisions::new(alloc));
        made.keep(decided);
        self.decisions.keep(id, made);
        self.has_answered = true;
    }

    /// Of a slot after the first 16 nothing is remembered: no session has such a slot.
    fn keep_fact(&mut self, sid: &Sid, slot: u32, fact: SlotFact)
        ensures { (r : Records) → IsKept fact (r.slot sid.now slot) → IsTrueOf self.old r → IsTrueOf self.new r }
    {
        if slot >= MAX_SLOTS {
            return;
        }
        if let Ok(sid) = sid.clone() {
            self.slots.keep((sid, slot), fact);
            self.has_answered = true;
        }
    }

    pub(crate) fn keep_seq(&mut self, sid: &Sid, slot: u32, seq: u32)
        ensures { (r : Records) → kept_seq (r.slot sid.now slot) ≡ Some seq
            → IsTrueOf self.old r → IsTrueOf self.new r }
    {
        self.keep_fact(sid, slot, SlotFact::Number(seq));
    }

    pub(crate) fn keep_slot(&mut self, sid: &Sid, slot: u32, kept: &Kept)
        ensures { (r : Records) → r.slot sid.now slot ≡ Some kept.now → IsTrueOf self.old r → IsTrueOf self.new r }
    {
        self.keep_fact(sid, slot, SlotFact::of(kept));
    }

    pub(crate) fn keep_next(&mut self, next: u32)
        ensures { (r : Records) → r.objects.next ≡ next → IsTrueOf self.old r → IsTrueOf self.new r }
    {
        self.next = Some(next);
        self.has_answered = true;
    }

    /// Forgets the list of an object and what it decides.
    fn forget_list(&mut self, id: &u32)
        ensures lists { (k : ℕ) (list : List EntryModel) → row_at nat_cmp self.new.lists k ≡ Some list
            → (row_at nat_cmp self.old.lists k ≡ Some list) × (eq_by_cmp nat_cmp id.now k ≡ false) }
        ensures decisions { (k : ℕ) (made : List Decided) → row_at nat_cmp self.new.decisions k ≡ Some made
            → (row_at nat_cmp self.old.decisions k ≡ Some made) × (eq_by_cmp nat_cmp id.now k ≡ false) }
        ensures others { self.new ≡ record self.old {
          lists = self.new.lists;
          decisions = self.new.decisions;
        } }
    {
        self.lists.forget(id);
        self.decisions.forget(id);
    }

    /// Remembers a slot row that is put, and no longer the one before it.
    fn replace_slot(&mut self, row: &SlotRow)
        ensures slots { (r : Records) → AreKept r self.old.slots
            → AreKept (apply_change (Change.PutSlot row.now) r) self.new.slots }
        ensures others { self.new ≡ record self.old { slots = self.new.slots } }
    {
        let Ok(sid) = row.sid.clone() else {
            self.slots.clear();
            return;
        };
        let key = (sid, row.slot);
        self.slots.forget(&key);
        if row.slot < MAX_SLOTS {
            self.slots.keep(key, SlotFact::of(&row.kept));
        }
    }

    /// Forgets what a change touches. A slot row that it puts is remembered.
    fn forget(&mut self, change: &Change)
        ensures { IsLeft (change.now ∷ []) self.old self.new }
    {
        match change {
            Change::PutNode(node) => self.nodes.forget(&node.id),
            Change::DropNode(id) => {
                self.nodes.forget(id);
                self.forget_list(id);
            }
            Change::PutEntries(id, _) => self.forget_list(id),
            Change::PutSession(row) => self.sessions.forget(&row.sid),
            Change::PutSlot(row) => self.replace_slot(row),
            Change::DropSlots(_) => self.slots.clear(),
            Change::PutNext(_) => self.next = None,
            Change::PutDoc(_, _) => {}
        }
    }

    /// Forgets what the changes touch. The slot rows that they put are remembered.
    pub(crate) fn forget_touched(&mut self, changes: &[Change])
        ensures left { IsLeft changes.now self.old self.new }
        ensures true_of { (old new : Records) → Untouched changes.now old new
            → IsTrueOf self.old old → IsTrueOf self.new new }
    {
        for change in changes {
            self.forget(change);
        }
    }
}

/// Whether a node is in this folder under this name.
fn is_at(node: &Node, parent: u32, name: &FileName) -> bool
    ensures { result ≡ true → (node.now.parent ≡ Some parent) × (node.now.name ≡ Some name.now) }
{
    match (node.parent, &node.name) {
        (Some(above), Some(own)) => above == parent && own == name,
        _ => false,
    }
}
