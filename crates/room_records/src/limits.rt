//! The limits of a room. All of them are our own rules.

/// Names on a path.
pub const MAX_NAMES: usize = 16;

/// Bytes in a file name.
pub const MAX_NAME_BYTES: usize = 64;

/// Children of a folder.
pub const MAX_CHILDREN: u64 = 256;

/// Bytes in a file.
pub const MAX_DOCUMENT: u64 = 65536;

/// Slots of a session.
pub const MAX_SLOTS: u32 = 16;

/// Object numbers ever used, the root's included.
pub const MAX_OBJECTS: u32 = 1_000_000;

/// Users of a roster.
pub const MAX_USERS: usize = 1000;

/// Groups of a user.
pub const MAX_GROUPS: usize = 16;

/// Bytes in the name of a session.
pub(crate) const SID_BYTES: usize = 32;
