//! What slots keep, as far as it is remembered.
ghost use Rattle.std.specs.Prelude.{◌≡◌, ◌⊎◌, ℕ, true, false, None, Some};
ghost use Rattle.std.specs.Option.{option_copied};
ghost use Rattle.std.specs.Ordering.{eq_by_cmp};
ghost use Rattle.room_records.specs.Names.{Name};
ghost use Rattle.room_records.specs.Sessions.{slot_cmp};
ghost use Rattle.room_cache.specs.Rows.{row_at};
ghost use Rattle.room_cache.specs.Slots.{seq_of, fact_size, IsKept};
ghost use Rattle.room_cache.specs.declared.slots.SlotFact.{SlotFact};

use crate::rows::Rows;
use room_records::Sid;
use room_slots::Kept;
use std::alloc::Global;
use std::marker::Model;

/// Bytes of requests and replies that are remembered.
const MAX_BYTES: usize = 1_048_576;

/// What is remembered of the row of a slot: the number of its request, or all.
#[derive(Drop)]
pub(crate) enum SlotFact {
    Number(u32),
    Whole(Kept),
}

impl SlotFact {
    /// All that a slot keeps, or its number alone where memory for a copy is refused.
    pub(crate) fn of(kept: &Kept) -> SlotFact
        ensures { IsKept result (Some kept.now) }
    {
        match kept.clone() {
            Ok(kept) => SlotFact::Whole(kept),
            Err(_) => SlotFact::Number(kept.seq),
        }
    }

    pub(crate) fn seq(&self) -> u32
        ensures { result ≡ seq_of self.now }
    {
        match self {
            SlotFact::Number(seq) => *seq,
            SlotFact::Whole(kept) => kept.seq,
        }
    }

    /// The bytes of its request and reply.
    fn size(&self) -> usize
        ensures { result ≡ fact_size self.now }
    {
        match self {
            SlotFact::Number(_) => 0,
            SlotFact::Whole(kept) => match &kept.reply {
                Some(reply) => kept.request.len() + reply.len(),
                None => kept.request.len(),
            },
        }
    }
}

/// Rows of at most 256 slots, with at most 1 MiB of requests and replies. Where one more comes, all others are
/// forgotten.
#[derive(Drop)]
pub(crate) struct SlotRows {
    rows: Rows<(Sid, u32), SlotFact>,
    /// The bytes that were put since all were forgotten: no fewer than there are.
    bytes: usize,
}

impl Model for SlotRows {
    ghost use Rattle.std.specs.Prelude.{◌≤◌, ℕ, List};
    ghost use Rattle.room_records.specs.Names.{Name};
    ghost use Rattle.room_cache.specs.Rows.{weight};
    ghost use Rattle.room_cache.specs.Slots.{fact_size, max_bytes};
    ghost use Rattle.room_cache.specs.declared.slots.SlotFact.{SlotFact};

    ghost Value = { List ((Name × ℕ) × SlotFact) };

    ghost view = { λ s. s.rows };

    ghost invariant = { λ s. (weight fact_size s.rows ≤ s.bytes) × (s.bytes ≤ max_bytes) };
}

impl SlotRows {
    pub(crate) fn new(alloc: Global) -> SlotRows
        ensures { (k : Name × ℕ) → row_at slot_cmp result k ≡ None }
    {
        SlotRows {
            rows: Rows::new(alloc),
            bytes: 0,
        }
    }

    pub(crate) fn get(&self, key: &(Sid, u32)) -> Option<&SlotFact>
        ensures { option_copied result ≡ row_at slot_cmp self.now key.now }
    {
        self.rows.get(key)
    }

    /// Remembers a row. Where memory is refused, or the row alone has more bytes than may be, it is not remembered.
    pub(crate) fn keep(&mut self, key: (Sid, u32), fact: SlotFact)
        ensures { (k : Name × ℕ) (v : SlotFact) → row_at slot_cmp self.new k ≡ Some v
            → (row_at slot_cmp self.old k ≡ Some v) ⊎ ((eq_by_cmp slot_cmp key k ≡ true) × (v ≡ fact)) }
    {
        let size = fact.size();
        if size <= MAX_BYTES - self.bytes {
            self.bytes += size;
            self.rows.keep(key, fact);
            return;
        }
        self.rows.clear();
        self.bytes = 0;
        if size <= MAX_BYTES {
            self.bytes = size;
            self.rows.keep(key, fact);
        }
    }

    pub(crate) fn forget(&mut self, key: &(Sid, u32))
        ensures { (k : Name × ℕ) (v : SlotFact) → row_at slot_cmp self.new k ≡ Some v
            → (row_at slot_cmp self.old k ≡ Some v) × (eq_by_cmp slot_cmp key.now k ≡ false) }
    {
        self.rows.forget(key);
    }

    pub(crate) fn clear(&mut self)
        ensures { (k : Name × ℕ) → row_at slot_cmp self.new k ≡ None }
    {
        self.rows.clear();
        self.bytes = 0;
    }
}
