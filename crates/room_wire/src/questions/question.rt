//! Questions about a list.
ghost use Rattle.std.specs.Prelude.{◌≡◌, IfOk};
ghost use Rattle.room_wire.specs.Questions.QuestionModel.{question_model};

use room_acl::{Entry, Kind, Mask, Principal, copy_entries, copy_principals};
use std::alloc::AllocError;

/// A question about a list.
#[derive(Debug, Drop)]
pub enum Question {
    /// What the list allows the user of the wanted mask. The entries may be any list.
    List {
        entries: Vec<Entry>,
        group: Principal,
        groups: Vec<Principal>,
        mask: Mask,
        owner: Principal,
        user: Principal,
    },
    /// What the entries, as a folder's own, hand down to a child of this kind.
    Child {
        kind: Kind,
        entries: Vec<Entry>,
    },
}

impl Question {
    /// A copy of the question. `AllocError` where memory is refused.
    pub fn clone(&self) -> Result<Question, AllocError>
        ensures { IfOk result (λ copy. question_model copy ≡ question_model self.now) }
    {
        match self {
            Question::List {
                entries,
                group,
                groups,
                mask,
                owner,
                user,
            } => Ok(Question::List {
                entries: copy_entries(*entries.allocator(), entries)?,
                group: group.clone()?,
                groups: copy_principals(*groups.allocator(), groups)?,
                mask: *mask,
                owner: owner.clone()?,
                user: user.clone()?,
            }),
            Question::Child { kind, entries } => Ok(Question::Child {
                kind: *kind,
                entries: copy_entries(*entries.allocator(), entries)?,
            }),
        }
    }
}
