//! Sessions and their slots, as rows.
ghost use Rattle.std.specs.Prelude.{◌≡◌, IfOk};

use crate::names::{Sid, SlotCount};
use room_acl::Principal;
use room_slots::Kept;
use std::alloc::AllocError;

/// A session that was opened once.
#[derive(Debug, Drop)]
pub struct SessionRow {
    pub sid: Sid,
    pub owner: Principal,
    pub slots: SlotCount,
    pub is_open: bool,
}

impl SessionRow {
    pub fn clone(&self) -> Result<SessionRow, AllocError>
        ensures { IfOk result (λ copy. copy ≡ self.now) }
    {
        let sid = self.sid.clone()?;
        let owner = self.owner.clone()?;
        Ok(SessionRow {
            sid,
            owner,
            slots: self.slots,
            is_open: self.is_open,
        })
    }
}

/// What a slot keeps.
#[derive(Debug, Drop)]
pub struct SlotRow {
    pub sid: Sid,
    pub slot: u32,
    pub kept: Kept,
}

impl SlotRow {
    pub fn clone(&self) -> Result<SlotRow, AllocError>
        ensures { IfOk result (λ copy. copy ≡ self.now) }
    {
        let sid = self.sid.clone()?;
        let kept = self.kept.clone()?;
        Ok(SlotRow {
            sid,
            slot: self.slot,
            kept,
        })
    }
}
