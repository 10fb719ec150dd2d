//! Flags of an entry.
ghost use Rattle.std.specs.Prelude.{◌≡◌, ℕ, ◌<◌, ◌↔◌, IsSome, IfSome};
ghost use Rattle.room_acl.specs.Bits.{IsFlags, has_flag, file_inherit, directory_inherit, no_propagate, inherit_only};
ghost use Rattle.room_acl.specs.Bits.{identifier_group, is_inherited, without_inherited};

use std::marker::Model;

/// FILE_INHERIT: files in the folder get the entry.
pub(crate) const FILE_INHERIT: u8 = 0x01;

/// DIRECTORY_INHERIT: folders in the folder get the entry.
pub(crate) const DIRECTORY_INHERIT: u8 = 0x02;

/// NO_PROPAGATE_INHERIT: what gets the entry does not hand it on.
const NO_PROPAGATE_INHERIT: u8 = 0x04;

/// INHERIT_ONLY: the entry does not count where it stands.
pub(crate) const INHERIT_ONLY: u8 = 0x08;

/// IDENTIFIER_GROUP: the name is a group's.
pub(crate) const IDENTIFIER_GROUP: u8 = 0x40;

/// INHERITED: the mark of an entry that was handed down.
pub(crate) const INHERITED: u8 = 0x80;

/// FILE_INHERIT, DIRECTORY_INHERIT, NO_PROPAGATE_INHERIT and INHERIT_ONLY.
pub(crate) const INHERITANCE_FLAGS: u8 = FILE_INHERIT
    | DIRECTORY_INHERIT
    | NO_PROPAGATE_INHERIT
    | INHERIT_ONLY;

/// The flags that an entry may have: all but the two for auditing.
const ALL_FLAGS: u8 = INHERITANCE_FLAGS | IDENTIFIER_GROUP | INHERITED;

/// The flags of an entry (RFC 8881, section 6.2.1.4): FILE_INHERIT 0x01, DIRECTORY_INHERIT 0x02,
/// NO_PROPAGATE_INHERIT 0x04, INHERIT_ONLY 0x08, IDENTIFIER_GROUP 0x40, and INHERITED 0x80, the mark of an
/// entry that was handed down. The two flags for auditing are no flags here.
#[derive(Clone, Copy, Debug, PartialEq, Eq)]
pub struct Flags {
    bits: u8,
}

impl Model for Flags {
    ghost Value = { ℕ };

    ghost view = { λ f. f.bits };

    ghost invariant = { λ f. IsFlags f.bits };

    ghost inverse = { λ n. record { bits = n } };
}

impl Flags {
    /// FILE_INHERIT and DIRECTORY_INHERIT: files and folders get the entry, at every depth.
    pub const INHERIT: Flags = Flags {
        bits: FILE_INHERIT | DIRECTORY_INHERIT,
    };

    /// The flags of these bits: None with 0x10 or 0x20.
    pub fn new(bits: u8) -> Option<Flags>
        ensures named { IsSome result ↔ IsFlags bits }
        ensures value { IfSome result (λ flags. flags ≡ bits) }
    {
        if bits & ALL_FLAGS == bits {
            Some(Flags { bits })
        } else {
            None
        }
    }

    pub(crate) fn of_named(bits: u8) -> Flags
        requires { IsFlags bits }
        ensures { result ≡ bits }
    {
        Flags { bits }
    }

    /// Whether this flag is set.
    fn has(self, flag: u8) -> bool
        ensures { result ≡ has_flag self flag }
    {
        let bits = self.bits;
        bits & flag == flag
    }

    pub(crate) fn is_file_inherit(self) -> bool
        ensures { result ≡ file_inherit self }
    {
        self.has(FILE_INHERIT)
    }

    pub(crate) fn is_directory_inherit(self) -> bool
        ensures { result ≡ directory_inherit self }
    {
        self.has(DIRECTORY_INHERIT)
    }

    pub(crate) fn is_no_propagate(self) -> bool
        ensures { result ≡ no_propagate self }
    {
        self.has(NO_PROPAGATE_INHERIT)
    }

    pub(crate) fn is_inherit_only(self) -> bool
        ensures { result ≡ inherit_only self }
    {
        self.has(INHERIT_ONLY)
    }

    /// Whether IDENTIFIER_GROUP is set: the name is a group's.
    pub fn is_group(self) -> bool
        ensures { result ≡ identifier_group self }
    {
        self.has(IDENTIFIER_GROUP)
    }

    /// Whether INHERITED is set: the entry was handed down.
    pub fn is_inherited(self) -> bool
        ensures { result ≡ is_inherited self }
    {
        self.has(INHERITED)
    }

    /// The flags without INHERITED.
    pub fn without_inherited(self) -> Flags
        ensures value { result ≡ without_inherited self }
        ensures group { identifier_group result ≡ identifier_group self }
    {
        Flags::of_named(self.bits & !INHERITED)
    }

    /// The bits of the flags.
    pub fn bits(self) -> u8
        ensures value { result ≡ self }
        ensures named { IsFlags self }
    {
        self.bits
    }
}
