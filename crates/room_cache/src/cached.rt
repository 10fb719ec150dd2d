//! A shelf that remembers.
ghost use Rattle.std.specs.Prelude.{◌≡◌};
ghost use Rattle.room_records.specs.Records.{Records};
ghost use Rattle.room_cache.specs.Known.{IsTrueOf};

use crate::decisions::Decided;
use crate::known::Known;
use room_acl::{Decision, Entry, Kind, Mask, Standing, Subject, copy_entries, decide};
use room_records::{Change, FileName, Node, SessionRow, Shelf, ShelfFault, Sid};
use room_slots::Kept;
use std::alloc::Global;
use std::marker::Model;

/// A shelf around a shelf, which remembers sessions, what slots keep or the number of it, nodes by number and by folder
/// and name, lists, and the number of the next object, and does not ask for them again. A decision that is not
/// remembered goes by the list where that is, and else is asked of the shelf inside, which need not read the list
/// whole, and is remembered then: for the same subject, standing and rights it is not asked again. A commit makes it
/// forget the rows that it changes, with a list what the list decided, and with the slots of a session that are dropped
/// all slots; a slot's row that it puts is remembered. A fault makes it forget all: memory answers only while the store
/// is known to be there.
///
/// It remembers at most 256 rows of each kind, lists of up to 64 entries, 16 decisions of each of 256 objects, and 1
/// MiB of what slots keep: by the sizes of the types some 200 kB, lists of 1.5 MB at worst, and decisions of 0.9 MB and
/// 56 bytes for each group of each subject, 3.7 MB more with 16 groups each. Where memory is refused for what would be
/// remembered, the call is answered still; where it is refused for the copy that is the answer, the call answers
/// `Memory`, and nothing is forgotten.
#[derive(Drop)]
pub struct CachedShelf<S: Shelf> {
    inner: S,
    known: Known,
}

impl<S: Shelf> Model for CachedShelf<S> {
    ghost use Rattle.room_cache.specs.declared.known.Known.{Known};
    ghost use Rattle.room_cache.specs.Known.{AnsweredIsAvailable};

    ghost Value = { S × Known };

    ghost view = { λ c. (c.inner, c.known) };

    ghost invariant = { λ c. AnsweredIsAvailable (S.view c.inner) c.known };
}

impl<S: Shelf> CachedShelf<S> {
    /// It remembers nothing yet.
    pub fn new(alloc: Global, inner: S) -> CachedShelf<S>
        ensures inner { result.0 ≡ inner }
        ensures true_of { (r : Records) → IsTrueOf result.1 r }
    {
        CachedShelf {
            inner,
            known: Known::nothing(alloc),
        }
    }

    pub fn into_inner(self) -> S
        ensures { result ≡ self.0 }
    {
        let CachedShelf { inner, known: _ } = self;
        inner
    }
}

impl<S: Shelf> Shelf for CachedShelf<S> {
    ghost use Rattle.room_cache.specs.Cached.{cached_view};

    ghost view = { cached_view S.view };

    ghost calls_left = { λ s. S.calls_left s.0 };

    ghost available_is_intact = { λ s h. S.available_is_intact s.0 h };

    ghost settled = { λ s left h may. S.settled s.0 left h may };

    ghost stays = { λ s h. S.stays s.0 h };

    ghost leaves_laid_out = { λ s h d. S.leaves_laid_out s.0 h d.0 };

    fn node(&mut self, id: u32) -> Result<Option<Node>, ShelfFault> {
        if let Some(node) = self.known.node(id) {
            return Ok(Some(node.clone()?));
        }
        let Some(node) = self.known.or_forget(self.inner.node(id))? else {
            return Ok(None);
        };
        self.known.keep_node(id, &node);
        Ok(Some(node))
    }

    fn child(&mut self, parent: u32, name: &FileName) -> Result<Option<Node>, ShelfFault> {
        if let Some(node) = self.known.child(parent, name) {
            return Ok(Some(node.clone()?));
        }
        let Some(node) = self.known.or_forget(self.inner.child(parent, name))? else {
            return Ok(None);
        };
        self.known.keep_child(parent, name, &node);
        Ok(Some(node))
    }

    fn children(&mut self, parent: u32) -> Result<Vec<Node>, ShelfFault> {
        self.known.or_forget(self.inner.children(parent))
    }

    fn names(&mut self, parent: u32) -> Result<Vec<(FileName, Kind)>, ShelfFault> {
        self.known.or_forget(self.inner.names(parent))
    }

    fn child_count(&mut self, parent: u32) -> Result<u64, ShelfFault> {
        self.known.or_forget(self.inner.child_count(parent))
    }

    fn entries(&mut self, id: u32) -> Result<Vec<Entry>, ShelfFault> {
        if let Some(list) = self.known.list(id) {
            let list = list.entries();
            return Ok(copy_entries(*list.allocator(), list.as_slice())?);
        }
        let found = self.known.or_forget(self.inner.entries(id))?;
        self.known.keep_list(id, &found);
        Ok(found)
    }

    fn decide_at(
        &mut self,
        id: u32,
        subject: &Subject,
        standing: &Standing,
        wanted: Mask,
    ) -> Result<Decision, ShelfFault> {
        if let Some(decision) = self.known.decision(id, subject, standing, wanted) {
            return Ok(decision);
        }
        if let Some(list) = self.known.list(id) {
            return Ok(decide(list.entries().as_slice(), subject, standing, wanted));
        }
        let found = self
            .known
            .or_forget(self.inner.decide_at(id, subject, standing, wanted))?;
        if let Ok(decided) = Decided::new(subject, standing, wanted, found) {
            self.known.keep_decision(id, decided);
        }
        Ok(found)
    }

    fn doc(&mut self, id: u32) -> Result<Vec<u8>, ShelfFault> {
        self.known.or_forget(self.inner.doc(id))
    }

    fn doc_size(&mut self, id: u32) -> Result<u64, ShelfFault> {
        self.known.or_forget(self.inner.doc_size(id))
    }

    fn session(&mut self, sid: &Sid) -> Result<Option<SessionRow>, ShelfFault> {
        if let Some(row) = self.known.session(sid) {
            return Ok(Some(row.clone()?));
        }
        let found = self.known.or_forget(self.inner.session(sid))?;
        if let Some(row) = &found {
            self.known.keep_session(sid, row);
        }
        Ok(found)
    }

    fn slot(&mut self, sid: &Sid, slot: u32) -> Result<Option<Kept>, ShelfFault> {
        if let Some(kept) = self.known.slot(sid, slot) {
            return Ok(Some(kept.clone()?));
        }
        let found = self.known.or_forget(self.inner.slot(sid, slot))?;
        if let Some(kept) = &found {
            self.known.keep_slot(sid, slot, kept);
        }
        Ok(found)
    }

    fn slot_seq(&mut self, sid: &Sid, slot: u32) -> Result<Option<u32>, ShelfFault> {
        if let Some(seq) = self.known.slot_seq(sid, slot) {
            return Ok(Some(seq));
        }
        let found = self.known.or_forget(self.inner.slot_seq(sid, slot))?;
        if let Some(seq) = found {
            self.known.keep_seq(sid, slot, seq);
        }
        Ok(found)
    }

    fn next_id(&mut self) -> Result<u32, ShelfFault> {
        if let Some(next) = self.known.next() {
            return Ok(next);
        }
        let found = self.known.or_forget(self.inner.next_id())?;
        self.known.keep_next(found);
        Ok(found)
    }

    fn commit(&mut self, changes: &[Change]) -> Result<(), ShelfFault> {
        self.known.or_forget(self.inner.commit(changes))?;
        self.known.forget_touched(changes);
        Ok(())
    }
}
