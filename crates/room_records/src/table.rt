//! Values by their keys. Room for a key is made ahead, and a value is then put there without memory.
ghost use Rattle.std.specs.Prelude.{◌≡◌, IsSome, OnOk, cond, []};
ghost use Rattle.std.specs.Option.{option_copied};
ghost use Rattle.std.specs.Ordering.{eq_by_cmp};
ghost use Rattle.room_records.specs.Table.{held, HasSpace};

use std::alloc::{AllocError, Global};
use std::collections::BTreeMap;

/// Values by key. A slot without a value is space that was reserved, and says nothing.
#[derive(Drop)]
pub(crate) struct Table<K: Ord, X> {
    pub(crate) slots: BTreeMap<K, Option<X>>,
}

impl<K: Ord + Drop, X: Drop> Table<K, X> {
    pub(crate) fn new(alloc: Global) -> Table<K, X>
        ensures { result.slots.entries ≡ [] }
    {
        Table {
            slots: BTreeMap::new(alloc),
        }
    }

    pub(crate) fn get(&self, key: &K) -> Option<&X>
        ensures { option_copied result ≡ held K.cmp self.now.slots key.now }
    {
        match self.slots.get(key) {
            Some(Some(value)) => Some(value),
            _ => None,
        }
    }

    /// Reserves space for a value at the key. It changes no value, also where memory is refused.
    pub(crate) fn reserve(&mut self, key: K) -> Result<(), AllocError>
        ensures same { (k : K) → held K.cmp self.new.slots k ≡ held K.cmp self.old.slots k }
        ensures kept { (k : K) → HasSpace K.cmp self.old.slots k → HasSpace K.cmp self.new.slots k }
        ensures space { OnOk result (HasSpace K.cmp self.new.slots key) }
    {
        if !self.slots.contains_key(&key) {
            self.slots.insert(key, None)?;
        }
        Ok(())
    }

    /// Puts a value where space is, and gives back the old one.
    pub(crate) fn put(&mut self, key: &K, value: X) -> Option<X>
        requires { HasSpace K.cmp self.old.slots key.now }
        ensures held { (k : K) → held K.cmp self.new.slots k
            ≡ cond (eq_by_cmp K.cmp key.now k) (Some value) (held K.cmp self.old.slots k) }
        ensures old { result ≡ held K.cmp self.old.slots key.now }
        ensures kept { (k : K) → HasSpace K.cmp self.old.slots k → HasSpace K.cmp self.new.slots k }
    {
        match self.slots.get_mut(key) {
            Some(slot) => slot.replace(value),
            None => None,
        }
    }

    /// Takes the value out, and leaves its space.
    pub(crate) fn take(&mut self, key: &K) -> Option<X>
        ensures held { (k : K) → held K.cmp self.new.slots k
            ≡ cond (eq_by_cmp K.cmp key.now k) None (held K.cmp self.old.slots k) }
        ensures old { result ≡ held K.cmp self.old.slots key.now }
        ensures kept { (k : K) → HasSpace K.cmp self.old.slots k → HasSpace K.cmp self.new.slots k }
    {
        match self.slots.get_mut(key) {
            Some(slot) => slot.take(),
            None => None,
        }
    }
}
