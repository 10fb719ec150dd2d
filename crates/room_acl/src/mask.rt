//! Masks.
ghost use Rattle.std.specs.Prelude.{◌≡◌, ℕ, ◌↔◌, IsSome, IfSome};
ghost use Rattle.room_acl.specs.Bits.{IsMask};

use std::marker::Model;

/// All sixteen rights.
pub(crate) const ALL_RIGHTS: u32 = 0x001F_07FF;

/// Those that an object's owner always has.
pub(crate) const OWNER_RIGHTS: u32 = 0x0006_0000;

/// A set of rights, the empty one included (RFC 8881, section 6.2.1.3).
#[derive(Clone, Copy, Debug, PartialEq, Eq)]
pub struct Mask {
    bits: u32,
}

impl Model for Mask {
    ghost Value = { ℕ };

    ghost view = { λ m. m.bits };

    ghost invariant = { λ m. IsMask m.bits };

    ghost inverse = { λ n. record { bits = n } };
}

/// The sixteen rights (RFC 8881, section 6.2.1.3.1). Three have one name for a file and one for a folder.
impl Mask {
    /// To read the bytes of a file.
    pub const READ_DATA: Mask = Mask { bits: 0x1 };
    /// To list what is in a folder.
    pub const LIST_DIRECTORY: Mask = Mask { bits: 0x1 };
    /// To replace the bytes of a file.
    pub const WRITE_DATA: Mask = Mask { bits: 0x2 };
    /// To make a file in a folder.
    pub const ADD_FILE: Mask = Mask { bits: 0x2 };
    /// To write behind the bytes of a file.
    pub const APPEND_DATA: Mask = Mask { bits: 0x4 };
    /// To make a folder in a folder.
    pub const ADD_SUBDIRECTORY: Mask = Mask { bits: 0x4 };
    /// To read named attributes. No command asks for it.
    pub const READ_NAMED_ATTRS: Mask = Mask { bits: 0x8 };
    /// To write named attributes. No command asks for it.
    pub const WRITE_NAMED_ATTRS: Mask = Mask { bits: 0x10 };
    /// To go through a folder.
    pub const EXECUTE: Mask = Mask { bits: 0x20 };
    /// To remove what is in a folder.
    pub const DELETE_CHILD: Mask = Mask { bits: 0x40 };
    /// To read what STAT answers.
    pub const READ_ATTRIBUTES: Mask = Mask { bits: 0x80 };
    /// To write attributes. No command asks for it.
    pub const WRITE_ATTRIBUTES: Mask = Mask { bits: 0x100 };
    /// To set how long an object is retained. No command asks for it.
    pub const WRITE_RETENTION: Mask = Mask { bits: 0x200 };
    /// To hold an object. No command asks for it.
    pub const WRITE_RETENTION_HOLD: Mask = Mask { bits: 0x400 };
    /// To remove the object.
    pub const DELETE: Mask = Mask { bits: 0x1_0000 };
    /// To read the access list.
    pub const READ_ACL: Mask = Mask { bits: 0x2_0000 };
    /// To write the access list.
    pub const WRITE_ACL: Mask = Mask { bits: 0x4_0000 };
    /// To change owner and group.
    pub const WRITE_OWNER: Mask = Mask { bits: 0x8_0000 };
    /// To wait for what others do. No command asks for it.
    pub const SYNCHRONIZE: Mask = Mask { bits: 0x10_0000 };

    /// All of them.
    pub const ALL: Mask = Mask { bits: ALL_RIGHTS };
    /// READ_DATA (LIST_DIRECTORY), READ_NAMED_ATTRS, EXECUTE, READ_ATTRIBUTES, READ_ACL and SYNCHRONIZE: what a
    /// reader needs who changes nothing (our own choice).
    pub const READING: Mask = Mask { bits: 0x12_00A9 };
    /// READ_ACL and WRITE_ACL: what an object's owner always has, whatever its list says (our own rule).
    pub const OWNER: Mask = Mask { bits: OWNER_RIGHTS };
}

impl Mask {
    /// The mask of these bits: None where one of them is no right, that is, stands outside [`Mask::ALL`].
    pub fn new(bits: u32) -> Option<Mask>
        ensures named { IsSome result ↔ IsMask bits }
        ensures value { IfSome result (λ mask. mask ≡ bits) }
    {
        if bits & ALL_RIGHTS == bits {
            Some(Mask { bits })
        } else {
            None
        }
    }

    pub(crate) fn of_named(bits: u32) -> Mask
        requires { IsMask bits }
        ensures { result ≡ bits }
    {
        Mask { bits }
    }

    /// The bits of the mask, which are rights.
    pub fn bits(self) -> u32
        ensures value { result ≡ self }
        ensures named { IsMask self }
    {
        self.bits
    }
}
