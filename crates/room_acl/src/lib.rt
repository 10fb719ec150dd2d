//! Access lists: masks, entries, who is allowed what, and what a folder hands down.
//!
//! Rights, flags, names and the order of decision are those of RFC 8881, section 6. What a folder's list
//! hands down, and which entries an object may have of its own, are our own rules.
#![tactic(auto)]

mod access;
mod entry;
mod flags;
mod inheritance;
mod list_flags;
mod mask;
mod pending;
mod principal;
mod subject;
mod who;

pub use access::{Decision, allowed_bits, decide, owner_rights_laws};
pub use entry::{Entry, copy_entries, same_entries};
pub use flags::Flags;
pub use inheritance::{
    ListFault, check_own, hand_down, handing_down_laws, own_part, with_inherited,
};
pub use list_flags::ListFlags;
pub use mask::Mask;
pub use pending::Pending;
pub use principal::{Principal, copy_principals};
pub use subject::{Kind, Standing, Subject};
pub use who::Who;
