//! Flags of a whole list.
ghost use Rattle.std.specs.Prelude.{◌≡◌, ℕ, ◌↔◌, IsSome, IfSome};
ghost use Rattle.room_acl.specs.Bits.{IsListFlags, follows, has_flag};

use std::marker::Model;

/// The flags of a whole list (RFC 8881, section 6.4.3.2): AUTO_INHERIT 1, PROTECTED 2, DEFAULTED 4, in any combination.
#[derive(Clone, Copy, Debug, PartialEq, Eq)]
pub struct ListFlags {
    bits: u8,
}

impl Model for ListFlags {
    ghost Value = { ℕ };

    ghost view = { λ f. f.bits };

    ghost invariant = { λ f. IsListFlags f.bits };

    ghost inverse = { λ n. record { bits = n } };
}

/// AUTO_INHERIT: the object follows its folder, where PROTECTED is clear.
const AUTO_INHERIT: u8 = 1;

/// PROTECTED: the object does not follow its folder.
const PROTECTED: u8 = 2;

/// DEFAULTED: kept and handed back, and it changes nothing here.
const DEFAULTED: u8 = 4;

impl ListFlags {
    /// No flag.
    pub const NONE: ListFlags = ListFlags { bits: 0 };
    /// AUTO_INHERIT alone.
    pub const AUTO_INHERIT: ListFlags = ListFlags { bits: AUTO_INHERIT };

    /// The list flags of these bits: None above 7.
    pub fn new(bits: u8) -> Option<ListFlags>
        ensures named { IsSome result ↔ IsListFlags bits }
        ensures value { IfSome result (λ flags. flags ≡ bits) }
    {
        if bits <= AUTO_INHERIT | PROTECTED | DEFAULTED {
            Some(ListFlags { bits })
        } else {
            None
        }
    }

    /// Whether an object with these list flags follows its folder: AUTO_INHERIT is set and PROTECTED clear.
    pub fn follows(self) -> bool
        ensures { result ≡ follows self }
    {
        self.has(AUTO_INHERIT) && !self.has(PROTECTED)
    }

    /// Whether this flag is set.
    fn has(self, flag: u8) -> bool
        ensures { result ≡ has_flag self flag }
    {
        let bits = self.bits;
        bits & flag == flag
    }

    /// The bits of the list flags.
    pub fn bits(self) -> u8
        ensures value { result ≡ self }
        ensures small { IsListFlags self }
    {
        self.bits
    }
}
