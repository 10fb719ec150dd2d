//! The shelf that keeps the rows.
ghost use Rattle.std.specs.Prelude.{◌≡◌, ℕ, ◌+◌, ◌≤◌, [], length, unwrap_or, OnOk};
ghost use Rattle.room_acl.specs.Access.{decision};
ghost use Rattle.room_records.specs.Records.{Records};
ghost use Rattle.room_records.specs.Changes.{apply_changes, RulesHoldAfterEach, Untouched};
ghost use Rattle.room_records.specs.Shelf.{View, ShelfCall, ShelfRead, Tells, fault_in, AreChildren};
ghost use Rattle.room_records.specs.Shelf.{AreNames, IsChildCount, IsChildNamed, LeavesOldOrNew};
ghost use Rattle.room_slots.specs.Slots.{kept_seq};

use crate::change::Change;
use crate::names::{FileName, Sid};
use crate::node::Node;
use crate::session::SessionRow;
use room_acl::{Decision, Entry, Kind, Mask, Standing, Subject};
use room_slots::Kept;
use std::alloc::AllocError;

/// Why a shelf gave up.
#[derive(Clone, Copy, Debug, PartialEq, Eq)]
pub enum ShelfFault {
    /// Memory was refused.
    Memory,
    /// The store failed. It comes only where the count of failures rose in that call, or stands at 2^64 - 1, where it
    /// is no longer kept.
    Store,
}

impl From<AllocError> for ShelfFault {
    ghost use Rattle.std.specs.Prelude.{◌≡◌};
    ghost use Rattle.room_records.specs.declared.shelf.ShelfFault.TheVariants.{Memory};

    ghost from_gives = { λ _ e. e ≡ Memory };

    fn from(_e: AllocError) -> ShelfFault {
        ShelfFault::Memory
    }
}

/// What keeps the rows of a room.
///
/// Contracts see a shelf as its `view`: the records, how often the store has failed, and what is known of
/// the store. It is *intact* while it has returned what was written, *available* while it is intact and no
/// fault has shut it, and *laid out* where it has the form that the records need. What it is may get worse
/// and never gets better. Every promise on records stands under two facts: the store was available as the
/// call ended, and laid out as it began. An intact store that is not available answers no call Ok; what a
/// crash may leave of it is laid out still.
pub trait Shelf {
    /// The records are a function of what is kept, and of nothing else. A shelf should stay intact over each
    /// fault that its store tells of: what it says of answers stands under it.
    ghost view: { Self → View };

    /// How many calls are left, by a count that each call lowers by one at most, as that of `TripShelf` does. What is
    /// proved over every shelf is proved over each such count: a function that lowers it by at most n makes at most n
    /// calls.
    ghost calls_left: { Self → ℕ };

    /// The node of this number.
    fn node(&mut self, id: u32) -> Result<Option<Node>, ShelfFault>
        ensures value { Tells (view self.old) (view self.new) result
            (λ records found. found ≡ records.objects.node id) }
        ensures there { (view self.new).is_intact → OnOk result (view self.new).is_available }
        ensures frame { ShelfRead (view self.old) (view self.new) (fault_in result) }
        ensures asks { calls_left self.old ≤ calls_left self.new + 1 };

    /// The child of this name.
    fn child(&mut self, parent: u32, name: &FileName) -> Result<Option<Node>, ShelfFault>
        ensures value { Tells (view self.old) (view self.new) result
            (λ records. IsChildNamed records.objects parent name.now) }
        ensures there { (view self.new).is_intact → OnOk result (view self.new).is_available }
        ensures frame { ShelfRead (view self.old) (view self.new) (fault_in result) }
        ensures asks { calls_left self.old ≤ calls_left self.new + 1 };

    /// The nodes in a folder, each once, and by the rules on nodes in order of their names by bytes.
    fn children(&mut self, parent: u32) -> Result<Vec<Node>, ShelfFault>
        ensures value { Tells (view self.old) (view self.new) result
            (λ records found. AreChildren records.objects parent found.items) }
        ensures there { (view self.new).is_intact → OnOk result (view self.new).is_available }
        ensures frame { ShelfRead (view self.old) (view self.new) (fault_in result) }
        ensures asks { calls_left self.old ≤ calls_left self.new + 1 };

    /// The name and the kind of each node in a folder that has a name, by the rules on nodes in order of the names by
    /// bytes. No more than these need be read.
    fn names(&mut self, parent: u32) -> Result<Vec<(FileName, Kind)>, ShelfFault>
        ensures value { Tells (view self.old) (view self.new) result
            (λ records found. AreNames records.objects parent found.items) }
        ensures there { (view self.new).is_intact → OnOk result (view self.new).is_available }
        ensures frame { ShelfRead (view self.old) (view self.new) (fault_in result) }
        ensures asks { calls_left self.old ≤ calls_left self.new + 1 };

    /// How many nodes are in a folder.
    fn child_count(&mut self, parent: u32) -> Result<u64, ShelfFault>
        ensures value { Tells (view self.old) (view self.new) result
            (λ records count. IsChildCount records.objects parent count) }
        ensures there { (view self.new).is_intact → OnOk result (view self.new).is_available }
        ensures frame { ShelfRead (view self.old) (view self.new) (fault_in result) }
        ensures asks { calls_left self.old ≤ calls_left self.new + 1 };

    /// The entries of an object, in order of place. By the rules on records, and by nothing else, there are none where
    /// the object is not there.
    fn entries(&mut self, id: u32) -> Result<Vec<Entry>, ShelfFault>
        ensures value { Tells (view self.old) (view self.new) result
            (λ records found. found.items ≡ records.objects.entries id) }
        ensures there { (view self.new).is_intact → OnOk result (view self.new).is_available }
        ensures frame { ShelfRead (view self.old) (view self.new) (fault_in result) }
        ensures asks { calls_left self.old ≤ calls_left self.new + 1 };

    /// What the object's entries, in order of place, decide of these rights. By the rules on records, and by nothing
    /// else, there are none where the object is not there.
    fn decide_at(
        &mut self,
        id: u32,
        subject: &Subject,
        standing: &Standing,
        wanted: Mask,
    ) -> Result<Decision, ShelfFault>
        ensures value { Tells (view self.old) (view self.new) result (λ records found.
            found ≡ decision (records.objects.entries id) subject.now standing.now wanted) }
        ensures there { (view self.new).is_intact → OnOk result (view self.new).is_available }
        ensures frame { ShelfRead (view self.old) (view self.new) (fault_in result) }
        ensures asks { calls_left self.old ≤ calls_left self.new + 1 };

    /// The bytes of a document, none where it is not there.
    fn doc(&mut self, id: u32) -> Result<Vec<u8>, ShelfFault>
        ensures value { Tells (view self.old) (view self.new) result (λ records found.
            found.items ≡ unwrap_or (records.objects.document id) []) }
        ensures there { (view self.new).is_intact → OnOk result (view self.new).is_available }
        ensures frame { ShelfRead (view self.old) (view self.new) (fault_in result) }
        ensures asks { calls_left self.old ≤ calls_left self.new + 1 };

    /// How many bytes a document has, 0 where it is not there. The bytes need not be read.
    fn doc_size(&mut self, id: u32) -> Result<u64, ShelfFault>
        ensures value { Tells (view self.old) (view self.new) result (λ records found.
            found ≡ length (unwrap_or (records.objects.document id) [])) }
        ensures there { (view self.new).is_intact → OnOk result (view self.new).is_available }
        ensures frame { ShelfRead (view self.old) (view self.new) (fault_in result) }
        ensures asks { calls_left self.old ≤ calls_left self.new + 1 };

    /// The row of a session name that was opened once.
    fn session(&mut self, sid: &Sid) -> Result<Option<SessionRow>, ShelfFault>
        ensures value { Tells (view self.old) (view self.new) result
            (λ records found. found ≡ records.session sid.now) }
        ensures there { (view self.new).is_intact → OnOk result (view self.new).is_available }
        ensures frame { ShelfRead (view self.old) (view self.new) (fault_in result) }
        ensures asks { calls_left self.old ≤ calls_left self.new + 1 };

    /// What a slot keeps.
    fn slot(&mut self, sid: &Sid, slot: u32) -> Result<Option<Kept>, ShelfFault>
        ensures value { Tells (view self.old) (view self.new) result
            (λ records found. found ≡ records.slot sid.now slot) }
        ensures there { (view self.new).is_intact → OnOk result (view self.new).is_available }
        ensures frame { ShelfRead (view self.old) (view self.new) (fault_in result) }
        ensures asks { calls_left self.old ≤ calls_left self.new + 1 };

    /// The number of the request that a slot keeps. The kept bytes need not be read for it.
    fn slot_seq(&mut self, sid: &Sid, slot: u32) -> Result<Option<u32>, ShelfFault>
        ensures value { Tells (view self.old) (view self.new) result
            (λ records found. found ≡ kept_seq (records.slot sid.now slot)) }
        ensures there { (view self.new).is_intact → OnOk result (view self.new).is_available }
        ensures frame { ShelfRead (view self.old) (view self.new) (fault_in result) }
        ensures asks { calls_left self.old ≤ calls_left self.new + 1 };

    /// The number of the next object.
    fn next_id(&mut self) -> Result<u32, ShelfFault>
        ensures value { Tells (view self.old) (view self.new) result (λ records next. next ≡ records.objects.next) }
        ensures there { (view self.new).is_intact → OnOk result (view self.new).is_available }
        ensures frame { ShelfRead (view self.old) (view self.new) (fault_in result) }
        ensures asks { calls_left self.old ≤ calls_left self.new + 1 };

    /// All the changes in order, or none of them. Whatever rules the records keep, a row that they do not touch stays,
    /// and each of the first 16 slots keeps what they leave in it.
    fn commit(&mut self, changes: &[Change]) -> Result<(), ShelfFault>
        ensures there { (view self.new).is_intact → OnOk result (view self.new).is_available }
        ensures frame { ShelfCall (view self.old) (view self.new) (fault_in result) }
        ensures ok { (view self.new).is_intact → (view self.old).is_laid_out
            → RulesHoldAfterEach changes.now (view self.old).records →
            OnOk result ((view self.new).records ≡ apply_changes changes.now (view self.old).records) }
        ensures crash { (view self.old).is_laid_out → RulesHoldAfterEach changes.now (view self.old).records →
            LeavesOldOrNew (view self.old) (view self.new)
            (λ left. left ≡ apply_changes changes.now (view self.old).records) }
        ensures untouched { (view self.new).is_intact → (view self.old).is_laid_out →
            OnOk result (Untouched changes.now (view self.old).records (view self.new).records) }
        ensures asks { calls_left self.old ≤ calls_left self.new + 1 };

    /// An available store is intact.
    ghost available_is_intact: { (s : Self) → (view s).is_available → (view s).is_intact };

    /// While the store is available, a crash leaves the records as they are, and nothing else.
    ghost settled: { (s : Self) (left : Records) → (view s).is_available → (view s).crash_may_leave left
        → left ≡ (view s).records };

    /// And these it may leave.
    ghost stays: { (s : Self) → (view s).is_available → (view s).crash_may_leave (view s).records };

    /// Where the store is laid out then, so is what a crash leaves.
    ghost leaves_laid_out: { (s : Self) → (view s).is_available → (view s).is_laid_out → (view s).leaves_laid_out };
}
