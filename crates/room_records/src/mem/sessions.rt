//! Sessions by name, and what their slots keep.
ghost use Rattle.std.specs.Prelude.{◌≡◌, ◌==◌, ◌&&◌, ◌<◌, ℕ, List, None, Some, OnOk, IfOk, IsSome};
ghost use Rattle.std.specs.Prelude.{◌≤◌, nat_lt, if◌then◌else◌};
ghost use Rattle.std.specs.Str.{bytes_eq};
ghost use Rattle.room_slots.specs.Slots.{kept_seq};
ghost use Rattle.room_records.specs.Limits.{max_slots};
ghost use Rattle.room_records.specs.Table.{HasSpace};
ghost use Rattle.room_records.specs.Names.{name_cmp};
ghost use Rattle.room_records.specs.Sessions.{slot_cmp, session_in, kept_in, AreFewSlots, HaveSlotCounts};

use crate::limits::MAX_SLOTS;
use crate::names::{Sid, SlotCount};
use crate::session::{SessionRow, SlotRow};
use crate::table::Table;
use room_acl::Principal;
use room_slots::Kept;
use std::alloc::{AllocError, Global};

/// A session row without its name.
#[derive(Debug, Drop)]
pub(crate) struct SessionCell {
    owner: Principal,
    slots: SlotCount,
    is_open: bool,
}

/// Session rows by name, and slot rows by session name and slot. No slot is 16 or more.
#[derive(Drop)]
pub(crate) struct Sessions {
    pub(crate) rows: Table<Sid, SessionCell>,
    pub(crate) kept: Table<(Sid, u32), Kept>,
    ghost few: { AreFewSlots (kept_in kept.slots) },
    ghost counted: { HaveSlotCounts (session_in rows.slots) },
}

impl Sessions {
    pub(crate) fn new(alloc: Global) -> Sessions
        ensures sessions { (sid : List ℕ) → session_in result.rows.slots sid ≡ None }
        ensures slots { (sid : List ℕ) (slot : ℕ) → kept_in result.kept.slots sid slot ≡ None }
    {
        Sessions {
            rows: Table::new(alloc),
            kept: Table::new(alloc),
        }
    }

    pub(crate) fn session(&self, sid: &Sid) -> Result<Option<SessionRow>, AllocError>
        ensures { IfOk result (λ found. found ≡ session_in self.now.rows.slots sid.now) }
    {
        let Some(cell) = self.rows.get(sid) else {
            return Ok(None);
        };
        let sid = sid.clone()?;
        let owner = cell.owner.clone()?;
        Ok(Some(SessionRow {
            sid,
            owner,
            slots: cell.slots,
            is_open: cell.is_open,
        }))
    }

    pub(crate) fn slot(&self, sid: &Sid, slot: u32) -> Result<Option<Kept>, AllocError>
        ensures { IfOk result (λ found. found ≡ kept_in self.now.kept.slots sid.now slot) }
    {
        let key = (sid.clone()?, slot);
        match self.kept.get(&key) {
            Some(kept) => Ok(Some(kept.clone()?)),
            None => Ok(None),
        }
    }

    /// The number that a slot keeps.
    pub(crate) fn slot_seq(&self, sid: &Sid, slot: u32) -> Result<Option<u32>, AllocError>
        ensures { IfOk result (λ found. found ≡ kept_seq (kept_in self.now.kept.slots sid.now slot)) }
    {
        let key = (sid.clone()?, slot);
        match self.kept.get(&key) {
            Some(kept) => Ok(Some(kept.seq)),
            None => Ok(None),
        }
    }

    /// Reserves space for a session row. It changes no row, also where memory is refused.
    pub(crate) fn make_session_room(&mut self, sid: Sid) -> Result<(), AllocError>
        ensures sessions { (name : List ℕ) → session_in self.new.rows.slots name ≡ session_in self.old.rows.slots name }
        ensures slots { self.new.kept.slots ≡ self.old.kept.slots }
        ensures kept { (name : List ℕ) → HasSpace name_cmp self.old.rows.slots name
            → HasSpace name_cmp self.new.rows.slots name }
        ensures space { OnOk result (HasSpace name_cmp self.new.rows.slots sid) }
    {
        self.rows.reserve(sid)
    }

    /// Reserves space for a slot row. It changes no row, also where memory is refused.
    pub(crate) fn reserve_slot(&mut self, sid: Sid, slot: u32) -> Result<(), AllocError>
        ensures sessions { self.new.rows.slots ≡ self.old.rows.slots }
        ensures slots { (name : List ℕ) (number : ℕ)
            → kept_in self.new.kept.slots name number ≡ kept_in self.old.kept.slots name number }
        ensures kept { (name : List ℕ) (number : ℕ) → HasSpace slot_cmp self.old.kept.slots (name, number)
            → HasSpace slot_cmp self.new.kept.slots (name, number) }
        ensures space { OnOk result (slot < max_slots → HasSpace slot_cmp self.new.kept.slots (sid, slot)) }
    {
        if slot >= MAX_SLOTS {
            return Ok(());
        }
        self.kept.reserve((sid, slot))
    }

    /// The session rows, which have 16 slots at most.
    pub(crate) fn has_few_slots(&self)
        ensures { HaveSlotCounts (session_in self.now.rows.slots) }
    {}

    /// Puts a session row where space is.
    pub(crate) fn put_session(&mut self, row: SessionRow)
        requires { HasSpace name_cmp self.old.rows.slots row.sid }
        ensures sessions { (sid : List ℕ) → session_in self.new.rows.slots sid
            ≡ (if bytes_eq sid row.sid then Some row else session_in self.old.rows.slots sid) }
        ensures slots { self.new.kept.slots ≡ self.old.kept.slots }
        ensures kept { (sid : List ℕ) → HasSpace name_cmp self.old.rows.slots sid
            → HasSpace name_cmp self.new.rows.slots sid }
    {
        let SessionRow {
            sid,
            owner,
            slots,
            is_open,
        } = row;
        let _count = slots.get();
        let cell = SessionCell {
            owner,
            slots,
            is_open,
        };
        let _ = self.rows.put(&sid, cell);
    }

    /// Puts a slot row where space is. A slot of 16 or more breaks the record rules, and is left out.
    pub(crate) fn put_slot(&mut self, row: SlotRow)
        requires { row.slot < max_slots → HasSpace slot_cmp self.old.kept.slots (row.sid, row.slot) }
        ensures slots { row.slot < max_slots → (sid : List ℕ) (slot : ℕ)
            → kept_in self.new.kept.slots sid slot ≡ (if bytes_eq sid row.sid && (slot == row.slot)
            then Some row.kept else kept_in self.old.kept.slots sid slot) }
        ensures high { max_slots ≤ row.slot → self.new.kept.slots ≡ self.old.kept.slots }
        ensures sessions { self.new.rows.slots ≡ self.old.rows.slots }
        ensures kept { (sid : List ℕ) (slot : ℕ) → HasSpace slot_cmp self.old.kept.slots (sid, slot)
            → HasSpace slot_cmp self.new.kept.slots (sid, slot) }
    {
        let SlotRow { sid, slot, kept } = row;
        if slot >= MAX_SLOTS {
            return;
        }
        let key = (sid, slot);
        let _ = self.kept.put(&key, kept);
    }

    /// Takes all slot rows of a session out, and leaves their space.
    pub(crate) fn drop_slots(&mut self, sid: Sid)
        ensures slots { (name : List ℕ) (slot : ℕ) → kept_in self.new.kept.slots name slot
            ≡ (if bytes_eq name sid then None else kept_in self.old.kept.slots name slot) }
        ensures sessions { self.new.rows.slots ≡ self.old.rows.slots }
        ensures kept { (sid : List ℕ) (slot : ℕ) → HasSpace slot_cmp self.old.kept.slots (sid, slot)
            → HasSpace slot_cmp self.new.kept.slots (sid, slot) }
    {
        take_slots(&mut self.kept, sid);
    }
}

/// Takes the rows of the slots 0 to 15 of a session out, and leaves their space.
fn take_slots(kept: &mut Table<(Sid, u32), Kept>, sid: Sid)
    ensures slots { (name : List ℕ) (slot : ℕ) → kept_in kept.new.slots name slot
        ≡ (if bytes_eq name sid && nat_lt slot max_slots then None else kept_in kept.old.slots name slot) }
    ensures kept { (key : List ℕ × ℕ) → HasSpace slot_cmp kept.old.slots key → HasSpace slot_cmp kept.new.slots key }
{
    let mut key = (sid, 0u32);
    for slot in 0..MAX_SLOTS {
        key.1 = slot;
        let _ = kept.take(&key);
    }
}
