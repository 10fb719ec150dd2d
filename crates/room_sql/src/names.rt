//! Names of folders that are remembered.
ghost use Rattle.std.specs.Prelude.{◌≡◌, ◌≤◌, ◌↔◌, IsSome, IfSome, length};
ghost use Rattle.room_records.specs.Limits.{max_children};

use room_acl::Kind;
use room_records::{FileName, MAX_CHILDREN};
use std::marker::Model;

/// The names and kinds of at most 256 nodes, as many as a folder of a room may have.
#[derive(Drop)]
pub(crate) struct NameList {
    names: Vec<(FileName, Kind)>,
}

impl Model for NameList {
    ghost use Rattle.std.specs.Prelude.{◌≤◌, List, length};
    ghost use Rattle.room_acl.specs.declared.subject.Kind.{Kind};
    ghost use Rattle.room_records.specs.Limits.{max_children};
    ghost use Rattle.room_records.specs.Names.{Name};

    ghost Value = { List (Name × Kind) };

    ghost view = { λ l. l.names.items };

    ghost invariant = { λ l. length l.names.items ≤ max_children };
}

impl NameList {
    /// `None` exactly where there are more names.
    pub(crate) fn new(names: Vec<(FileName, Kind)>) -> Option<NameList>
        ensures few { IsSome result ↔ (length names.items ≤ max_children) }
        ensures value { IfSome result (λ list. list ≡ names.items) }
    {
        if names.len() as u64 > MAX_CHILDREN {
            return None;
        }
        Some(NameList { names })
    }

    pub(crate) fn names(&self) -> &Vec<(FileName, Kind)>
        ensures { result.now.items ≡ self.now }
    {
        &self.names
    }
}
