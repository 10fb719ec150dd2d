//! Who is allowed what.
ghost use Rattle.std.specs.Prelude.{◌≡◌, ℕ, true, false, List, [], ◌&&◌, not, IsTrue, ◌↔◌};
ghost use Rattle.std.specs.List.{list_any, find};
ghost use Rattle.std.specs.Str.{bytes_eq};
ghost use Rattle.room_acl.specs.declared.subject.Standing.{Standing};
ghost use Rattle.room_acl.specs.SubjectModel.{SubjectModel};
ghost use Rattle.room_acl.specs.Entries.{EntryModel};
ghost use Rattle.room_acl.specs.Bits.{all_rights, has_bit, named_bits, mask_of, owner_rights, read_acl, write_acl};
ghost use Rattle.room_acl.specs.Bits.{IsMask};
ghost use Rattle.room_acl.specs.Access.{decision, decision_by, allowed_mask, matches, applies, allows_bit};
ghost use Rattle.room_acl.specs.Access.{entries_allow, is_owner, owner_may};
ghost use Rattle.room_acl.specs.Access.{AllowsBit, AllowsMask, IsLowestRefused};
ghost use Rattle.room_acl.specs.Pending.{decision_with, refuses_with};

use crate::entry::Entry;
use crate::mask::{ALL_RIGHTS, Mask, OWNER_RIGHTS};
use crate::pending::Pending;
use crate::principal::Principal;
use crate::subject::{Standing, Subject};
use crate::who::Who;

/// What a list answers to a wanted mask.
#[derive(Clone, Copy, Debug, PartialEq, Eq)]
pub enum Decision {
    /// Each wanted right is allowed.
    Allowed,
    /// The list does not allow each wanted right.
    Denied {
        /// The lowest wanted right that is not allowed, as a mask of that one bit.
        bit: u32,
    },
}

/// Whether the list allows each wanted right (RFC 8881, section 6.2.1). Takes no memory.
///
/// The owner always has READ_ACL and WRITE_ACL, whatever the entries say (our own rule). Else entries are taken in
/// order. An entry that names somebody else, or has INHERIT_ONLY, is passed over. Each wanted right is decided by the
/// first other entry that names it; a right that none names is denied.
pub fn decide(entries: &[Entry], subject: &Subject, standing: &Standing, wanted: Mask) -> Decision
    ensures value { result ≡ decision entries.now subject.now standing.now wanted }
    ensures allowed { (result ≡ Decision.Allowed) ↔ AllowsMask entries.now subject.now standing.now wanted }
    ensures denied { (bit : ℕ) → (result ≡ Decision.Denied bit)
        ↔ IsLowestRefused entries.now subject.now standing.now wanted bit }
{
    after_all(entries, subject, standing, wanted).end()
}

/// The decision of the wanted rights after these entries.
fn after_all(entries: &[Entry], subject: &Subject, standing: &Standing, wanted: Mask) -> Pending
    ensures answers { decision_with [] subject.now standing.now result
        ≡ decision entries.now subject.now standing.now wanted }
    ensures bits { (bit : ℕ) → refuses_with [] subject.now standing.now result bit
        ≡ (has_bit wanted bit && not (allows_bit entries.now subject.now standing.now bit)) }
    ensures named { IsMask wanted }
{
    let mut pending = Pending::new(wanted, subject, standing);
    for entry in entries {
        pending.take(entry, subject, standing);
    }
    pending
}

/// The places of the rights, the lowest first.
const PLACES: [u32; 16] = [0, 1, 2, 3, 4, 5, 6, 7, 8, 9, 10, 16, 17, 18, 19, 20];

/// The lowest of the refused bits, if there is one.
pub(crate) fn decision_of(refused: u32) -> Decision
    ensures { result ≡ decision_by (find (has_bit refused) named_bits) }
{
    for place in PLACES {
        if (refused >> place) & 1 == 1 {
            return Decision::Denied { bit: 1 << place };
        }
    }
    Decision::Allowed
}

/// The rights that the list allows, all of them at once. Takes no memory.
pub fn allowed_bits(entries: &[Entry], subject: &Subject, standing: &Standing) -> Mask
    ensures value { result ≡ allowed_mask entries.now subject.now standing.now }
    ensures allowed { (bit : ℕ) → IsTrue (has_bit result bit)
        ↔ (IsTrue (has_bit all_rights bit) × AllowsBit entries.now subject.now standing.now bit) }
{
    let refused = after_all(entries, subject, standing, Mask::ALL).refused();
    Mask::of_named(ALL_RIGHTS ^ (ALL_RIGHTS & refused))
}

/// What the owner's rule gives, and what it does not, as laws. The call does nothing.
///
/// The owner has READ_ACL and WRITE_ACL by every list (`reads`, `writes`). Of each other right, and of every right of
/// somebody else, the entries alone decide (`another`, `others`, `all`).
pub fn owner_rights_laws()
    ensures reads { (entries : List EntryModel) (caller : SubjectModel) (standing : Standing) →
        is_owner caller standing ≡ true → decision entries caller standing read_acl ≡ Decision.Allowed }
    ensures writes { (entries : List EntryModel) (caller : SubjectModel) (standing : Standing) →
        is_owner caller standing ≡ true → decision entries caller standing write_acl ≡ Decision.Allowed }
    ensures another { (entries : List EntryModel) (caller : SubjectModel) (standing : Standing) (bit : ℕ) →
        has_bit owner_rights bit ≡ false →
        allows_bit entries caller standing bit ≡ entries_allow entries caller standing bit }
    ensures others { (entries : List EntryModel) (caller : SubjectModel) (standing : Standing) (wanted : ℕ) →
        is_owner caller standing ≡ false →
        decision entries caller standing wanted
        ≡ decision_by (find (λ bit. has_bit wanted bit && not (entries_allow entries caller standing bit)) named_bits) }
    ensures all { (entries : List EntryModel) (caller : SubjectModel) (standing : Standing) →
        is_owner caller standing ≡ false →
        allowed_mask entries caller standing ≡ mask_of (entries_allow entries caller standing) }
{}

/// The wanted rights that the entries decide: all, but for the two that the owner always has (our own rule).
pub(crate) fn left_to_entries(wanted: Mask, subject: &Subject, standing: &Standing) -> Mask
    ensures { (bit : ℕ) → has_bit result bit
        ≡ (has_bit wanted bit && not (owner_may subject.now standing.now bit)) }
{
    let bits = wanted.bits();
    if is_owner(subject, standing) {
        Mask::of_named(bits ^ (bits & OWNER_RIGHTS))
    } else {
        wanted
    }
}

fn is_owner(subject: &Subject, standing: &Standing) -> bool
    ensures { result ≡ is_owner subject.now standing.now }
{
    standing.owner == subject.name
}

/// Whether the entry counts on the object where it stands.
pub(crate) fn applies(entry: &Entry, subject: &Subject, standing: &Standing) -> bool
    ensures { result ≡ applies subject.now standing.now entry.now }
{
    matches(entry.who(), subject, standing) && !entry.flags().is_inherit_only()
}

/// Whether the name stands for the subject.
fn matches(who: &Who, subject: &Subject, standing: &Standing) -> bool
    ensures { result ≡ matches subject.now standing.now who.now }
{
    match who {
        Who::Owner => is_owner(subject, standing),
        Who::Group => is_among(&subject.groups, &standing.group),
        Who::Everyone => true,
        Who::User(name) => *name == subject.name,
        Who::Members(group) => is_among(&subject.groups, group),
    }
}

/// Whether the group is one of these.
fn is_among(groups: &[Principal], group: &Principal) -> bool
    ensures { result ≡ list_any (bytes_eq group.now) groups.now }
{
    groups.iter().any(|other| group == other)
}
