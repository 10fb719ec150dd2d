//! Who asks, and what the object is.
ghost use Rattle.std.specs.Prelude.{◌≡◌, ◌≢◌, true, false, IfOk};

use crate::principal::{Principal, copy_principals};
use std::alloc::AllocError;
use std::marker::Model;

/// What an object is.
#[derive(Clone, Copy, Debug, PartialEq, Eq)]
pub enum Kind {
    /// A document.
    File,
    /// What has objects in it.
    Folder,
}

/// Who asks, and the groups that the asker is in.
#[derive(Debug, Drop)]
pub struct Subject {
    /// The user's name.
    pub name: Principal,
    /// The user's groups, in any order.
    pub groups: Vec<Principal>,
}

impl Model for Subject {
    ghost use Rattle.room_acl.specs.SubjectModel.{SubjectModel};

    ghost Value = { SubjectModel };

    ghost view = { λ s. record { name = s.name; groups = s.groups.items } };
}

impl PartialEq for Subject {
    ghost use Rattle.std.proofs.Common.{rules};
    ghost use Rattle.std.specs.Cmp.Rules.{comparing};
    ghost use Rattle.room_acl.specs.SubjectModel.{subject_eq};

    ghost eq = { subject_eq };

    ghost laws = { Prim.search (comparing, rules) depth 9 };

    /// Whether it is the same user in the same groups, in the same order.
    #[tactic(auto, using(crate::proofs::Subjects::other_groups))]
    fn eq(&self, other: &Subject) -> bool
        ensures value { result ≡ subject_eq self.now other.now }
        ensures same { result ≡ true → self.now ≡ other.now }
        ensures other { result ≡ false → self.now ≢ other.now }
    {
        self.name == other.name && self.groups == other.groups
    }
}

impl Eq for Subject {
    ghost use Rattle.std.proofs.Common.{rules};
    ghost use Rattle.std.specs.Cmp.Rules.{comparing};

    ghost laws = { Prim.search (comparing, rules) depth 9 };
}

impl Subject {
    /// The same subject once more. AllocError where memory is refused, and nothing has changed then.
    pub fn clone(&self) -> Result<Subject, AllocError>
        ensures { IfOk result (λ copy. copy ≡ self.now) }
    {
        let name = self.name.clone()?;
        let groups = copy_principals(*self.groups.allocator(), &self.groups)?;
        Ok(Subject { name, groups })
    }
}

/// Whose an object is.
#[derive(Debug, PartialEq, Eq, Drop)]
pub struct Standing {
    /// The user whom OWNER@ means.
    pub owner: Principal,
    /// The group that GROUP@ means.
    pub group: Principal,
}

impl Standing {
    /// The same owner and group once more. AllocError where memory is refused, and nothing has changed then.
    pub fn clone(&self) -> Result<Standing, AllocError>
        ensures { IfOk result (λ copy. copy ≡ self.now) }
    {
        let owner = self.owner.clone()?;
        let group = self.group.clone()?;
        Ok(Standing { owner, group })
    }
}
