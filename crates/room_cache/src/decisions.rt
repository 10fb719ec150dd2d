//! Decisions that are remembered.
ghost use Rattle.std.specs.Prelude.{◌≡◌, ◌⊎◌, [], true, IfOk, IfSome};
ghost use Rattle.std.specs.List.{Contains};
ghost use Rattle.room_cache.specs.declared.decisions.Decided.{Decided};

use room_acl::{Decision, Mask, Standing, Subject};
use std::alloc::{AllocError, Global};
use std::marker::Model;

/// Decisions of one object that are remembered.
const MAX_DECISIONS: usize = 16;

/// What was decided, and who asked for which rights of whose object.
#[derive(Drop)]
pub(crate) struct Decided {
    pub(crate) subject: Subject,
    pub(crate) standing: Standing,
    pub(crate) wanted: Mask,
    pub(crate) decision: Decision,
}

impl Decided {
    /// AllocError where memory is refused.
    pub(crate) fn new(
        subject: &Subject,
        standing: &Standing,
        wanted: Mask,
        decision: Decision,
    ) -> Result<Decided, AllocError>
        ensures { IfOk result (λ made. made ≡ record {
          subject = subject.now;
          standing = standing.now;
          wanted = wanted;
          decision = decision;
        }) }
    {
        Ok(Decided {
            subject: subject.clone()?,
            standing: standing.clone()?,
            wanted,
            decision,
        })
    }

    /// Whether it was decided for just these. Most others differ in their rights or in the user's name.
    fn is_for(&self, subject: &Subject, standing: &Standing, wanted: Mask) -> bool
        ensures { result ≡ true → self.now ≡ record {
          subject = subject.now;
          standing = standing.now;
          wanted = wanted;
          decision = self.now.decision;
        } }
    {
        self.wanted == wanted && self.subject == *subject && self.standing == *standing
    }
}

/// Decisions of one object, at most 16. Where one more comes, all others are forgotten.
#[derive(Drop)]
pub(crate) struct Decisions {
    made: Vec<Decided>,
}

impl Model for Decisions {
    ghost use Rattle.std.specs.Prelude.{◌≤◌, List, length};
    ghost use Rattle.room_cache.specs.declared.decisions.Decided.{Decided};
    ghost use Rattle.room_cache.specs.Rows.{max_decisions};

    ghost Value = { List Decided };

    ghost view = { λ d. d.made.items };

    ghost invariant = { λ d. length d.made.items ≤ max_decisions };
}

impl Decisions {
    pub(crate) fn new(alloc: Global) -> Decisions
        ensures { result ≡ [] }
    {
        Decisions {
            made: Vec::new(alloc),
        }
    }

    /// What was decided for just these.
    pub(crate) fn find(
        &self,
        subject: &Subject,
        standing: &Standing,
        wanted: Mask,
    ) -> Option<Decision>
        ensures { IfSome result (λ found. Contains self.now (record {
          subject = subject.now;
          standing = standing.now;
          wanted = wanted;
          decision = found;
        })) }
    {
        for decided in &self.made {
            if decided.is_for(subject, standing, wanted) {
                return Some(decided.decision);
            }
        }
        None
    }

    /// Remembers a decision. Where memory is refused it is not remembered.
    pub(crate) fn keep(&mut self, decided: Decided)
        ensures { (d : Decided) → Contains self.new d → Contains self.old d ⊎ (d ≡ decided) }
    {
        if self.made.len() >= MAX_DECISIONS {
            self.made.clear();
        }
        let _ = self.made.push(decided);
    }
}
