//! Why a text gives no roster.
ghost use Rattle.std.specs.Prelude.{◌≡◌};
ghost use Rattle.room_roster.specs.declared.fault.RosterFault.TheVariants.{Memory};

use std::alloc::{AllocError, AllocFailed};
use thiserror::Error as ThisError;

/// Why a text gives no roster.
#[derive(Clone, Copy, Debug, PartialEq, Eq, ThisError)]
pub enum RosterFault {
    /// Want of memory.
    #[error("no memory")]
    Memory,
    /// The text is no TOML document, or one that is no roster within the limits.
    #[error("bad roster")]
    Bad,
}

impl From<AllocError> for RosterFault {
    ghost from_gives = { λ _ fault. fault ≡ Memory };

    fn from(_error: AllocError) -> RosterFault {
        RosterFault::Memory
    }
}

impl<T: Drop> From<AllocFailed<T>> for RosterFault {
    ghost from_gives = { λ _ fault. fault ≡ Memory };

    fn from(_error: AllocFailed<T>) -> RosterFault {
        RosterFault::Memory
    }
}
