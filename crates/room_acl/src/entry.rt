//! Entries of an access list.
ghost use Rattle.std.specs.Prelude.{◌≡◌, ◌≢◌, true, false, IsSome, IfSome, IfOk, ◌↔◌, IsTrue};
ghost use Rattle.room_acl.specs.Bits.{identifier_group};
ghost use Rattle.room_acl.specs.Entries.{names_its_kind, clear_inherited, IsEntry};

use crate::flags::Flags;
use crate::mask::Mask;
use crate::who::Who;
use std::alloc::{AllocError, Global};
use std::marker::Model;

/// One entry of an access list: it allows or denies the rights of its mask to whom it names
/// (RFC 8881, section 6.2.1).
#[derive(Debug, Drop)]
pub struct Entry {
    allow: bool,
    flags: Flags,
    mask: Mask,
    who: Who,
}

impl Model for Entry {
    ghost use Rattle.room_acl.specs.Entries.{EntryModel, IsEntry};

    ghost Value = { EntryModel };

    ghost view = { λ e. record { allow = e.allow; flags = e.flags; mask = e.mask; who = e.who } };

    ghost invariant = { λ e. IsEntry (record { allow = e.allow; flags = e.flags; mask = e.mask; who = e.who }) };
}

/// Whether two lists have the same entries in the same order.
pub fn same_entries(a: &[Entry], b: &[Entry]) -> bool
    ensures same { result ≡ true → a.now ≡ b.now }
    ensures other { result ≡ false → a.now ≢ b.now }
{
    if a.len() != b.len() {
        return false;
    }
    for index in 0..a.len() {
        if !a[index].is_same(&b[index]) {
            return false;
        }
    }
    true
}

/// The same entries once more. AllocError where memory is refused.
pub fn copy_entries(alloc: Global, entries: &[Entry]) -> Result<Vec<Entry>, AllocError>
    ensures { IfOk result (λ copy. copy.items ≡ entries.now) }
{
    let mut copy = Vec::new(alloc);
    for entry in entries {
        copy.push(entry.clone()?)?;
    }
    Ok(copy)
}

impl Entry {
    /// Whether the other entry has the same type, flags, mask and name.
    fn is_same(&self, other: &Entry) -> bool
        ensures same { result ≡ true → self.now ≡ other.now }
        ensures other { result ≡ false → self.now ≢ other.now }
    {
        self.allow == other.allow
            && self.flags == other.flags
            && self.mask == other.mask
            && self.who == other.who
    }

    /// The entry of these parts: None where a user's name stands with IDENTIFIER_GROUP, or a group's without.
    /// Beside OWNER@, GROUP@ and EVERYONE@ that flag is ignored, and kept. Takes no memory.
    pub fn new(allow: bool, flags: Flags, mask: Mask, who: Who) -> Option<Entry>
        ensures lawful { IsSome result ↔ IsTrue (names_its_kind flags who) }
        ensures value { IfSome result (λ e. e ≡ record { allow = allow; flags = flags; mask = mask; who = who }) }
    {
        // both readers promise that what they read is lawful
        let _ = flags.bits();
        let _ = mask.bits();
        if who.agrees_with(flags) {
            Some(Entry {
                allow,
                flags,
                mask,
                who,
            })
        } else {
            None
        }
    }

    /// The same entry once more. AllocError where memory is refused, and nothing has changed then.
    pub fn clone(&self) -> Result<Entry, AllocError>
        ensures { IfOk result (λ copy. copy ≡ self.now) }
    {
        self.with_flags(self.flags)
    }

    /// The same entry without INHERITED. AllocError where memory is refused, and nothing has changed then.
    pub fn without_inherited(&self) -> Result<Entry, AllocError>
        ensures { IfOk result (λ own. own ≡ clear_inherited self.now) }
    {
        self.with_flags(self.flags.without_inherited())
    }

    /// The entry with other flags, and IDENTIFIER_GROUP as it is.
    pub(crate) fn with_flags(&self, flags: Flags) -> Result<Entry, AllocError>
        requires { identifier_group flags ≡ identifier_group self.now.flags }
        ensures { IfOk result (λ e. e ≡ record self.now { flags = flags }) }
    {
        let who = self.who.clone()?;
        Ok(Entry {
            allow: self.allow,
            flags,
            mask: self.mask,
            who,
        })
    }

    /// Whether the entry allows (type 0), or else denies (type 1).
    pub fn allow(&self) -> bool
        ensures { result ≡ self.now.allow }
    {
        self.allow
    }

    /// The flags of the entry.
    pub fn flags(&self) -> Flags
        ensures { result ≡ self.now.flags }
    {
        self.flags
    }

    /// The rights that the entry names.
    pub fn mask(&self) -> Mask
        ensures { result ≡ self.now.mask }
    {
        self.mask
    }

    /// Whom the entry names. Every entry is lawful, and this reader says so.
    pub fn who(&self) -> &Who
        ensures value { result.now ≡ self.now.who }
        ensures kind { IsTrue (names_its_kind self.now.flags self.now.who) }
        ensures lawful { IsEntry self.now }
    {
        &self.who
    }
}
