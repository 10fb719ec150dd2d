//! Rows by their keys, of which only so many are remembered.
ghost use Rattle.std.specs.Prelude.{◌≡◌, ◌<◌, ◌≤◌, ◌⊎◌, ◌+◌, ℕ, true, false, None, Some, length};
ghost use Rattle.std.specs.Option.{option_copied};
ghost use Rattle.std.specs.Ordering.{eq_by_cmp};
ghost use Rattle.room_cache.specs.Rows.{max_rows, row_at, weight};

use std::alloc::Global;
use std::collections::BTreeMap;
use std::marker::Model;

/// Rows of one kind that are remembered.
const MAX_ROWS: usize = 256;

/// Rows by key, at most 256. Where one more comes, at a key that is new, all others are forgotten. What it has was put,
/// and not forgotten since.
#[derive(Drop)]
pub struct Rows<K: Ord, V> {
    rows: BTreeMap<K, V>,
}

impl<K: Ord, V> Model for Rows<K, V> {
    ghost use Rattle.std.specs.Prelude.{◌≤◌, List, length};
    ghost use Rattle.room_cache.specs.Rows.{max_rows};

    ghost Value = { List (K × V) };

    ghost view = { λ r. r.rows.entries };

    ghost invariant = { λ r. length r.rows.entries ≤ max_rows };
}

impl<K: Ord + Drop, V: Drop> Rows<K, V> {
    pub fn new(alloc: Global) -> Rows<K, V>
        ensures none { (k : K) → row_at K.cmp result k ≡ None }
        ensures weight { (w : V → ℕ) → weight w result ≡ 0 }
    {
        Rows {
            rows: BTreeMap::new(alloc),
        }
    }

    pub fn get(&self, key: &K) -> Option<&V>
        ensures { option_copied result ≡ row_at K.cmp self.now key.now }
    {
        self.rows.get(key)
    }

    /// Makes room for a row at this key: forgets the one that is there, or all where there is none and no room.
    fn make_room(&mut self, key: &K)
        ensures few { length self.new < max_rows }
        ensures rows { (k : K) (v : V) → row_at K.cmp self.new k ≡ Some v → row_at K.cmp self.old k ≡ Some v }
        ensures weight { (w : V → ℕ) → weight w self.new ≤ weight w self.old }
    {
        if self.rows.len() < MAX_ROWS {
            return;
        }
        if self.rows.remove(key).is_some() {
            return;
        }
        self.rows.clear();
    }

    /// Remembers a row. Where memory is refused it is not remembered.
    pub fn keep(&mut self, key: K, value: V)
        ensures rows { (k : K) (v : V) → row_at K.cmp self.new k ≡ Some v
            → (row_at K.cmp self.old k ≡ Some v) ⊎ ((eq_by_cmp K.cmp key k ≡ true) × (v ≡ value)) }
        ensures weight { (w : V → ℕ) → weight w self.new ≤ weight w self.old + w value }
    {
        self.make_room(&key);
        let _ = self.rows.insert(key, value);
    }

    /// Hands out the row at a key, and remembers it no longer.
    pub fn take(&mut self, key: &K) -> Option<V>
        ensures value { result ≡ row_at K.cmp self.old key.now }
        ensures rest { (k : K) (v : V) → row_at K.cmp self.new k ≡ Some v
            → (row_at K.cmp self.old k ≡ Some v) × (eq_by_cmp K.cmp key.now k ≡ false) }
    {
        self.rows.remove(key)
    }

    pub fn forget(&mut self, key: &K)
        ensures rows { (k : K) (v : V) → row_at K.cmp self.new k ≡ Some v
            → (row_at K.cmp self.old k ≡ Some v) × (eq_by_cmp K.cmp key.now k ≡ false) }
        ensures weight { (w : V → ℕ) → weight w self.new ≤ weight w self.old }
    {
        let _ = self.rows.remove(key);
    }

    pub fn clear(&mut self)
        ensures none { (k : K) → row_at K.cmp self.new k ≡ None }
        ensures weight { (w : V → ℕ) → weight w self.new ≡ 0 }
    {
        self.rows.clear();
    }
}
