//! Lists that are remembered.
ghost use Rattle.std.specs.Prelude.{◌≡◌, ◌≤◌, ◌↔◌, IsSome, IfSome, length};
ghost use Rattle.room_cache.specs.Rows.{max_entries};

use room_acl::Entry;
use std::marker::Model;

/// Entries of a list that is remembered.
const MAX_ENTRIES: usize = 64;

/// A list of at most 64 entries.
#[derive(Drop)]
pub(crate) struct ShortList {
    entries: Vec<Entry>,
}

impl Model for ShortList {
    ghost use Rattle.std.specs.Prelude.{◌≤◌, List, length};
    ghost use Rattle.room_acl.specs.Entries.{EntryModel};
    ghost use Rattle.room_cache.specs.Rows.{max_entries};

    ghost Value = { List EntryModel };

    ghost view = { λ s. s.entries.items };

    ghost invariant = { λ s. length s.entries.items ≤ max_entries };
}

impl ShortList {
    /// `None` exactly where the list is longer.
    pub(crate) fn new(entries: Vec<Entry>) -> Option<ShortList>
        ensures short { IsSome result ↔ (length entries.items ≤ max_entries) }
        ensures value { IfSome result (λ list. list ≡ entries.items) }
    {
        if entries.len() > MAX_ENTRIES {
            return None;
        }
        Some(ShortList { entries })
    }

    pub(crate) fn entries(&self) -> &Vec<Entry>
        ensures { result.now.items ≡ self.now }
    {
        &self.entries
    }
}
