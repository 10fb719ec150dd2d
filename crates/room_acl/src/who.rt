//! Whom an entry names.
ghost use Rattle.std.specs.Prelude.{◌≡◌, ℕ, IfOk, IfSome, IsTrue};
ghost use Rattle.room_acl.specs.Bits.{identifier_group};
ghost use Rattle.room_acl.specs.Principals.{principal_from};
ghost use Rattle.room_acl.specs.Entries.{names_its_kind, who_from, who_of, who_text, IsWho};

use crate::flags::Flags;
use crate::principal::Principal;
use std::alloc::{AllocError, Global};

/// Whom an entry names (RFC 8881, section 6.2.1.5).
#[derive(Debug, PartialEq, Eq, Drop)]
pub enum Who {
    /// `OWNER@`: the owner of the object.
    Owner,
    /// `GROUP@`: who has the object's group among its groups.
    Group,
    /// `EVERYONE@`: every subject, owner and group included.
    Everyone,
    /// The user of this name.
    User(Principal),
    /// Who has the group of this name. A user and a group of one name are two principals.
    Members(Principal),
}

/// The special names (RFC 8881, section 6.2.1.5).
const OWNER: &str = "OWNER@";

const GROUP: &str = "GROUP@";

const EVERYONE: &str = "EVERYONE@";

impl Who {
    /// Whom a text names beside these flags: Ok(None) where it is neither a special name nor a principal's.
    /// IDENTIFIER_GROUP tells a group's name from a user's. AllocError where memory is refused.
    pub fn read(alloc: Global, flags: Flags, text: &str) -> Result<Option<Who>, AllocError>
        ensures value { IfOk result (λ found. found ≡ who_from flags text.now) }
        ensures known { IfOk result (λ found. IfSome found (λ who. who ≡ who_of flags text.now)) }
    {
        if text == OWNER {
            return Ok(Some(Who::Owner));
        }
        if text == GROUP {
            return Ok(Some(Who::Group));
        }
        if text == EVERYONE {
            return Ok(Some(Who::Everyone));
        }
        let Some(name) = Principal::new(alloc, text)? else {
            return Ok(None);
        };
        Ok(Some(if flags.is_group() {
            Who::Members(name)
        } else {
            Who::User(name)
        }))
    }

    /// The name as a text, which is read back as the same: a special name, or the principal's own.
    pub fn text(&self) -> &str
        ensures value { result.now ≡ who_text self.now }
        ensures back { (flags : ℕ) → IsTrue (names_its_kind flags self.now) → who_of flags result.now ≡ self.now }
    {
        match self {
            Who::Owner => OWNER,
            Who::Group => GROUP,
            Who::Everyone => EVERYONE,
            Who::User(name) => name.text(),
            Who::Members(group) => group.text(),
        }
    }

    /// The same name once more. AllocError where memory is refused, and nothing has changed then.
    pub fn clone(&self) -> Result<Who, AllocError>
        ensures { IfOk result (λ copy. copy ≡ self.now) }
    {
        match self {
            Who::Owner => Ok(Who::Owner),
            Who::Group => Ok(Who::Group),
            Who::Everyone => Ok(Who::Everyone),
            Who::User(name) => Ok(Who::User(name.clone()?)),
            Who::Members(group) => Ok(Who::Members(group.clone()?)),
        }
    }

    /// Whether IDENTIFIER_GROUP tells rightly a user's name from a group's.
    pub(crate) fn agrees_with(&self, flags: Flags) -> bool
        ensures value { result ≡ names_its_kind flags self.now }
        ensures lawful { IsWho self.now }
    {
        match self {
            Who::Owner | Who::Group | Who::Everyone => true,
            Who::User(name) => {
                // the reader promises that the name is lawful
                let _ = name.text();
                !flags.is_group()
            }
            Who::Members(group) => {
                let _ = group.text();
                flags.is_group()
            }
        }
    }
}
