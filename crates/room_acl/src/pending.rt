//! A decision over entries that come one at a time.
ghost use Rattle.std.specs.Prelude.{◌≡◌, ℕ, List, [], ◌∷◌, not, ◌&&◌};
ghost use Rattle.room_acl.specs.declared.subject.Standing.{Standing};
ghost use Rattle.room_acl.specs.SubjectModel.{SubjectModel};
ghost use Rattle.room_acl.specs.Bits.{has_bit};
ghost use Rattle.room_acl.specs.Entries.{EntryModel};
ghost use Rattle.room_acl.specs.Access.{decision, decides, allows_bit, owner_may};
ghost use Rattle.room_acl.specs.Pending.{decision_with, refuses_with};

use crate::access::{Decision, applies, decision_of, left_to_entries};
use crate::entry::Entry;
use crate::mask::Mask;
use crate::subject::{Standing, Subject};
use std::marker::Model;

/// A decision over entries that come one at a time, for one subject and standing.
///
/// Entries are given in the order of their list. Where [`Pending::left`] is empty the rest of the list changes
/// nothing and need not be read. No call takes memory.
#[derive(Debug, Drop)]
pub struct Pending {
    left: Mask,
    denied: u32,
}

impl Model for Pending {
    ghost use Rattle.room_acl.specs.Pending.{PendingModel};

    ghost Value = { PendingModel };

    ghost view = { λ p. record { left = p.left; denied = p.denied } };
}

impl Pending {
    /// The decision of these rights before the first entry. READ_ACL and WRITE_ACL are allowed to the owner from then
    /// on, and are not left (our own rule).
    pub fn new(wanted: Mask, subject: &Subject, standing: &Standing) -> Pending
        ensures answers { (entries : List EntryModel) → decision_with entries subject.now standing.now result
            ≡ decision entries subject.now standing.now wanted }
        ensures bits { (entries : List EntryModel) (bit : ℕ) → refuses_with entries subject.now standing.now result bit
            ≡ (has_bit wanted bit && not (allows_bit entries subject.now standing.now bit)) }
        ensures left { (bit : ℕ) → has_bit result.left bit
            ≡ (has_bit wanted bit && not (owner_may subject.now standing.now bit)) }
    {
        Pending {
            left: left_to_entries(wanted, subject, standing),
            denied: 0,
        }
    }

    /// Takes the next entry of the list: where it applies, it decides the rights that it names and that are left.
    pub fn take(&mut self, entry: &Entry, subject: &Subject, standing: &Standing)
        ensures answers { (entries : List EntryModel) → decision_with entries subject.now standing.now self.new
            ≡ decision_with (entry.now ∷ entries) subject.now standing.now self.old }
        ensures bits { (entries : List EntryModel) (bit : ℕ)
            → refuses_with entries subject.now standing.now self.new bit
            ≡ refuses_with (entry.now ∷ entries) subject.now standing.now self.old bit }
        ensures left { (bit : ℕ) → has_bit self.new.left bit
            ≡ (has_bit self.old.left bit && not (decides subject.now standing.now bit entry.now)) }
    {
        let counts = applies(entry, subject, standing);
        if counts {
            let left = self.left.bits();
            let decided = left & entry.mask().bits();
            if !entry.allow() {
                self.denied |= decided;
            }
            self.left = Mask::of_named(left ^ decided);
        }
    }

    /// The wanted rights that no entry has decided yet.
    pub fn left(&self) -> Mask
        ensures left { result ≡ self.now.left }
        ensures none { self.now.left ≡ 0 → (entries : List EntryModel) (caller : SubjectModel) (standing : Standing) →
            decision_with entries caller standing self.now ≡ decision_with [] caller standing self.now }
    {
        self.left
    }

    /// The decision where no more entries come.
    pub fn end(&self) -> Decision
        ensures { (caller : SubjectModel) (standing : Standing) → result ≡ decision_with [] caller standing self.now }
    {
        decision_of(self.refused())
    }

    /// The wanted rights that are refused where no more entries come.
    pub(crate) fn refused(&self) -> u32
        ensures { (caller : SubjectModel) (standing : Standing) (bit : ℕ) → has_bit result bit
            ≡ refuses_with [] caller standing self.now bit }
    {
        self.denied | self.left.bits()
    }
}
