//! Refusals.
ghost use Rattle.std.specs.Prelude.{◌≡◌, None};
ghost use Rattle.room_commands.specs.Checks.{refusal_without_place};
ghost use Rattle.room_tree.specs.declared.refusal.Stop.TheVariants as S;

use room_commands::RefusalCode;
use room_records::{Path, ShelfFault};
use std::alloc::AllocError;
use std::marker::Model;

/// Why a command is refused. For a denied access the place is the path whose list was asked, and the lowest bit.
#[derive(Debug, Drop)]
pub(crate) struct Refusal {
    pub code: RefusalCode,
    pub place: Option<(Path, u32)>,
}

impl Model for Refusal {
    ghost use Rattle.room_commands.specs.ReplyModel.{Refusal as RefusalModel};

    ghost Value = { RefusalModel };

    ghost view = { λ r. record { code = r.code; place = r.place } };
}

impl Refusal {
    pub(crate) fn of(code: RefusalCode) -> Refusal
        ensures { result ≡ refusal_without_place code }
    {
        Refusal { code, place: None }
    }
}

/// Why a command is not planned: it is refused, or the shelf gave up.
#[derive(Debug, Drop)]
pub(crate) enum Stop {
    Refused(Refusal),
    Shelf(ShelfFault),
}

impl Stop {
    /// A refusal other than that of a right.
    pub(crate) fn of(code: RefusalCode) -> Stop
        ensures { result ≡ S.Refused (refusal_without_place code) }
    {
        Stop::Refused(Refusal::of(code))
    }
}

impl From<Refusal> for Stop {
    ghost use Rattle.std.specs.Prelude.{◌≡◌};
    ghost use Rattle.room_tree.specs.declared.refusal.Stop.TheVariants.{Refused};

    ghost from_gives = { λ refusal stop. stop ≡ Refused refusal };

    fn from(refusal: Refusal) -> Stop {
        Stop::Refused(refusal)
    }
}

impl From<ShelfFault> for Stop {
    ghost use Rattle.std.specs.Prelude.{◌≡◌};
    ghost use Rattle.room_tree.specs.declared.refusal.Stop.TheVariants.{Shelf};

    ghost from_gives = { λ fault stop. stop ≡ Shelf fault };

    fn from(fault: ShelfFault) -> Stop {
        Stop::Shelf(fault)
    }
}

impl From<AllocError> for Stop {
    ghost use Rattle.std.specs.Prelude.{◌≡◌};
    ghost use Rattle.room_records.specs.declared.shelf.ShelfFault.TheVariants.{Memory};
    ghost use Rattle.room_tree.specs.declared.refusal.Stop.TheVariants.{Shelf};

    ghost from_gives = { λ _ stop. stop ≡ Shelf Memory };

    fn from(_e: AllocError) -> Stop {
        Stop::Shelf(ShelfFault::Memory)
    }
}
