//! A shelf whose k-th call fails.
ghost use Rattle.std.specs.Prelude.{◌≡◌, ◌||◌, ◌-◌, ◌↔◌, IsTrue, false, if◌then◌else◌};

use crate::change::Change;
use crate::names::{FileName, Sid};
use crate::node::Node;
use crate::session::SessionRow;
use crate::shelf::{Shelf, ShelfFault};
use room_acl::{Decision, Entry, Kind, Mask, Standing, Subject};
use room_slots::Kept;

/// A shelf whose k-th call answers `Store` without asking the shelf inside.
pub struct TripShelf<S: Shelf> {
    inner: S,
    /// The calls until the one that fails, 0 once it has come.
    left: u64,
    tripped: bool,
}

impl<S: Shelf> TripShelf<S> {
    /// A shelf whose k-th call trips, counted from 1 over all calls; with 0 none does.
    pub fn new(inner: S, k: u64) -> TripShelf<S>
        ensures inner { result.inner ≡ inner }
        ensures left { result.left ≡ k }
        ensures fresh { result.tripped ≡ false }
    {
        TripShelf {
            inner,
            left: k,
            tripped: false,
        }
    }

    /// Whether a call has tripped.
    pub fn has_tripped(&self) -> bool
        ensures { result ≡ self.now.tripped }
    {
        self.tripped
    }

    /// The shelf inside, as the calls left it.
    pub fn into_inner(self) -> S
        ensures { result ≡ self.inner }
    {
        let TripShelf {
            inner,
            left: _,
            tripped: _,
        } = self;
        inner
    }

    /// Whether this call is the one that fails: the last one of the calls that are left.
    fn trips(&mut self) -> bool
        ensures count { self.new.left ≡ (if self.old.tripped then self.old.left else self.old.left - 1) }
        ensures when { IsTrue result ↔ ((self.old.left ≡ 1) × (self.old.tripped ≡ false)) }
        ensures inner { self.new.inner ≡ self.old.inner }
        ensures trips { self.new.tripped ≡ (result || self.old.tripped) }
        ensures first { IsTrue result → self.old.tripped ≡ false }
    {
        if self.left == 0 || self.tripped {
            return false;
        }
        self.left -= 1;
        if self.left == 0 {
            self.tripped = true;
            return true;
        }
        false
    }
}

impl<S: Shelf> Shelf for TripShelf<S> {
    ghost use Rattle.std.specs.Prelude.{◌≡◌, [], length, unwrap_or, OnOk};
    ghost use Rattle.room_acl.specs.Access.{decision};
    ghost use Rattle.room_records.specs.Changes.{apply_changes, RulesHoldAfterEach, Untouched};
    ghost use Rattle.room_records.specs.Shelf.{ShelfCall, fault_in, AreChildren};
    ghost use Rattle.room_records.specs.Shelf.{AreNames, IsChildCount, IsChildNamed, LeavesOldOrNew};
    ghost use Rattle.room_slots.specs.Slots.{kept_seq};
    ghost use Rattle.room_records.specs.Trip.{trip_view, TripCall, TripRead};

    ghost view = { trip_view S.view };

    ghost calls_left = { λ s. s.left };

    ghost available_is_intact = { λ s h. S.available_is_intact s.inner h };

    ghost settled = { λ s left h may. S.settled s.inner left h may };

    ghost stays = { λ s h. S.stays s.inner h };

    ghost leaves_laid_out = { λ s h d. S.leaves_laid_out s.inner h d };

    fn node(&mut self, id: u32) -> Result<Option<Node>, ShelfFault>
        ensures { TripRead S.view self.old self.new result (λ records found. found ≡ records.objects.node id) }
    {
        if self.trips() {
            return Err(ShelfFault::Store);
        }
        self.inner.node(id)
    }

    fn child(&mut self, parent: u32, name: &FileName) -> Result<Option<Node>, ShelfFault>
        ensures { TripRead S.view self.old self.new result (λ records. IsChildNamed records.objects parent name.now) }
    {
        if self.trips() {
            return Err(ShelfFault::Store);
        }
        self.inner.child(parent, name)
    }

    fn children(&mut self, parent: u32) -> Result<Vec<Node>, ShelfFault>
        ensures { TripRead S.view self.old self.new result
            (λ records found. AreChildren records.objects parent found.items) }
    {
        if self.trips() {
            return Err(ShelfFault::Store);
        }
        self.inner.children(parent)
    }

    fn names(&mut self, parent: u32) -> Result<Vec<(FileName, Kind)>, ShelfFault>
        ensures { TripRead S.view self.old self.new result
            (λ records found. AreNames records.objects parent found.items) }
    {
        if self.trips() {
            return Err(ShelfFault::Store);
        }
        self.inner.names(parent)
    }

    fn child_count(&mut self, parent: u32) -> Result<u64, ShelfFault>
        ensures { TripRead S.view self.old self.new result
            (λ records count. IsChildCount records.objects parent count) }
    {
        if self.trips() {
            return Err(ShelfFault::Store);
        }
        self.inner.child_count(parent)
    }

    fn entries(&mut self, id: u32) -> Result<Vec<Entry>, ShelfFault>
        ensures { TripRead S.view self.old self.new result
            (λ records found. found.items ≡ records.objects.entries id) }
    {
        if self.trips() {
            return Err(ShelfFault::Store);
        }
        self.inner.entries(id)
    }

    fn decide_at(
        &mut self,
        id: u32,
        subject: &Subject,
        standing: &Standing,
        wanted: Mask,
    ) -> Result<Decision, ShelfFault>
        ensures { TripRead S.view self.old self.new result (λ records found.
            found ≡ decision (records.objects.entries id) subject.now standing.now wanted) }
    {
        if self.trips() {
            return Err(ShelfFault::Store);
        }
        self.inner.decide_at(id, subject, standing, wanted)
    }

    fn doc(&mut self, id: u32) -> Result<Vec<u8>, ShelfFault>
        ensures { TripRead S.view self.old self.new result (λ records found.
            found.items ≡ unwrap_or (records.objects.document id) []) }
    {
        if self.trips() {
            return Err(ShelfFault::Store);
        }
        self.inner.doc(id)
    }

    fn doc_size(&mut self, id: u32) -> Result<u64, ShelfFault>
        ensures { TripRead S.view self.old self.new result (λ records found.
            found ≡ length (unwrap_or (records.objects.document id) [])) }
    {
        if self.trips() {
            return Err(ShelfFault::Store);
        }
        self.inner.doc_size(id)
    }

    fn session(&mut self, sid: &Sid) -> Result<Option<SessionRow>, ShelfFault>
        ensures { TripRead S.view self.old self.new result (λ records found. found ≡ records.session sid.now) }
    {
        if self.trips() {
            return Err(ShelfFault::Store);
        }
        self.inner.session(sid)
    }

    fn slot(&mut self, sid: &Sid, slot: u32) -> Result<Option<Kept>, ShelfFault>
        ensures { TripRead S.view self.old self.new result (λ records found. found ≡ records.slot sid.now slot) }
    {
        if self.trips() {
            return Err(ShelfFault::Store);
        }
        self.inner.slot(sid, slot)
    }

    fn slot_seq(&mut self, sid: &Sid, slot: u32) -> Result<Option<u32>, ShelfFault>
        ensures { TripRead S.view self.old self.new result (λ records found.
            found ≡ kept_seq (records.slot sid.now slot)) }
    {
        if self.trips() {
            return Err(ShelfFault::Store);
        }
        self.inner.slot_seq(sid, slot)
    }

    fn next_id(&mut self) -> Result<u32, ShelfFault>
        ensures { TripRead S.view self.old self.new result (λ records next. next ≡ records.objects.next) }
    {
        if self.trips() {
            return Err(ShelfFault::Store);
        }
        self.inner.next_id()
    }

    fn commit(&mut self, changes: &[Change]) -> Result<(), ShelfFault>
        ensures there { (trip_view S.view self.new).is_intact → OnOk result (trip_view S.view self.new).is_available }
        ensures frame { ShelfCall (trip_view S.view self.old) (trip_view S.view self.new) (fault_in result) }
        ensures ok { (trip_view S.view self.new).is_intact → (trip_view S.view self.old).is_laid_out
            → RulesHoldAfterEach changes.now (trip_view S.view self.old).records →
            OnOk result ((trip_view S.view self.new).records
            ≡ apply_changes changes.now (trip_view S.view self.old).records) }
        ensures crash { (trip_view S.view self.old).is_laid_out
            → RulesHoldAfterEach changes.now (trip_view S.view self.old).records →
            LeavesOldOrNew (trip_view S.view self.old) (trip_view S.view self.new)
            (λ left. left ≡ apply_changes changes.now (trip_view S.view self.old).records) }
        ensures untouched { (trip_view S.view self.new).is_intact → (trip_view S.view self.old).is_laid_out →
            OnOk result (Untouched changes.now (trip_view S.view self.old).records
            (trip_view S.view self.new).records) }
        ensures trips { TripCall self.old self.new result }
    {
        if self.trips() {
            // No change is made.
            return Err(ShelfFault::Store);
        }
        self.inner.commit(changes)
    }
}
