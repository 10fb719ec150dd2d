//! A trial slot: the smallest thing that shows why a retry must act once.
ghost use Rattle.std.specs.Prelude.{◌≡◌, [], ◌++◌, map, IfOk, OnOk, OnErr};
ghost use Rattle.room_slots.specs.Slots.{verdict};
ghost use Rattle.room_slots.specs.Trials.{answer_model, answer_again, appended};
ghost use Rattle.room_slots.specs.Trials.{trial_after, trial_answer};
ghost use Rattle.room_slots.specs.TrialModel.{Reply};
ghost use Rattle.room_slots.specs.Accepted.{accepted, bytes_of};

use crate::verdict::{Kept, Verdict, classify};
use std::alloc::{AllocError, Global};
use std::marker::Model;

/// A slot over one document, to which pieces are appended.
///
/// A piece is sent with a number, and may be sent again when its answer was
/// lost: it is appended once all the same. The slot grows in the allocator
/// that it was made with.
#[derive(Debug, Drop)]
pub struct Trial {
    /// The last piece that was appended, with its number and its reply.
    pub kept: Option<Kept>,
    /// The bytes of the pieces that were appended, in their order.
    pub doc: Vec<u8>,
}

impl Model for Trial {
    ghost use Rattle.room_slots.specs.TrialModel.{TrialModel};

    ghost Value = { TrialModel };

    ghost view = { λ t. record { kept = t.kept; doc = t.doc.items } };
}

/// What a piece is answered.
#[derive(Debug, PartialEq, Eq, Drop)]
pub enum TrialAnswer {
    /// The whole document after the piece.
    Reply(Vec<u8>),
    /// The last number with another piece.
    FalseRetry,
    /// Neither the last number nor the next.
    Misordered,
}

impl Trial {
    /// A slot that has kept nothing, with an empty document, which grows in `alloc`.
    pub fn fresh(alloc: Global) -> Trial
        ensures { result ≡ record { kept = None; doc = [] } }
    {
        Trial {
            kept: None,
            doc: Vec::new(alloc),
        }
    }

    /// Appends a piece that is sent with this number, once however often it is sent.
    ///
    /// What the piece is to the slot, [`classify`] says. A new one is appended
    /// and kept, with the whole document as its reply. A repeat gets the reply
    /// that is kept. What is not new changes nothing.
    ///
    /// # Errors
    ///
    /// `AllocError` where memory is refused. Nothing is changed then, and the
    /// same piece may be sent again.
    pub fn append(&mut self, seq: u32, bytes: &[u8]) -> Result<TrialAnswer, AllocError>
        ensures answer { IfOk result (λ answer. answer_model answer ≡ trial_answer self.old seq bytes.now) }
        ensures done { OnOk result (self.new ≡ trial_after self.old seq bytes.now) }
        ensures err { OnErr result (self.new ≡ self.old) }
    {
        match classify(self.kept.as_ref(), seq, bytes) {
            Verdict::New => self.append_new(seq, bytes),
            Verdict::Repeat | Verdict::Uncached => self.reply_again(),
            Verdict::FalseRetry => Ok(TrialAnswer::FalseRetry),
            Verdict::Misordered => Ok(TrialAnswer::Misordered),
        }
    }

    /// A copy of the slot and its document, which grows in the same allocator. `AllocError` where memory is refused.
    pub fn clone(&self) -> Result<Trial, AllocError>
        ensures { IfOk result (λ copy. copy ≡ self.now) }
    {
        let kept = match &self.kept {
            Some(kept) => Some(kept.clone()?),
            None => None,
        };
        Ok(Trial {
            kept,
            doc: self.doc.clone()?,
        })
    }

    // Appends a new piece, and keeps it with its reply.
    fn append_new(&mut self, seq: u32, bytes: &[u8]) -> Result<TrialAnswer, AllocError>
        ensures answer { IfOk result (λ answer. answer_model answer ≡ Reply (self.old.doc ++ bytes.now)) }
        ensures done { OnOk result (self.new ≡ appended self.old seq bytes.now) }
        ensures err { OnErr result (self.new ≡ self.old) }
    {
        let mut reply = self.doc.clone()?;
        reply.extend_from_slice(bytes)?;
        let kept = Kept {
            seq,
            request: bytes.to_vec(*self.doc.allocator())?,
            reply: Some(reply.clone()?),
        };
        // The last growth that may be refused: up to here nothing has changed.
        self.doc.extend_from_slice(bytes)?;
        self.kept = Some(kept);
        Ok(TrialAnswer::Reply(reply))
    }

    // The reply that is kept, again. `append` keeps each one; in a slot made without it, it is the document.
    fn reply_again(&self) -> Result<TrialAnswer, AllocError>
        ensures { IfOk result (λ answer. answer_model answer ≡ answer_again self.now) }
    {
        let reply = match &self.kept {
            Some(
                Kept {
                    reply: Some(reply),
                    ..
                },
            ) => reply,
            _ => &self.doc,
        };
        Ok(TrialAnswer::Reply(reply.clone()?))
    }
}

impl TrialAnswer {
    /// A copy of the answer. `AllocError` where memory is refused.
    pub fn clone(&self) -> Result<TrialAnswer, AllocError>
        ensures { IfOk result (λ copy. answer_model copy ≡ answer_model self.now) }
    {
        match self {
            TrialAnswer::Reply(bytes) => Ok(TrialAnswer::Reply(bytes.clone()?)),
            TrialAnswer::FalseRetry => Ok(TrialAnswer::FalseRetry),
            TrialAnswer::Misordered => Ok(TrialAnswer::Misordered),
        }
    }
}

/// The document after pieces that are sent to a fresh slot, one after another.
///
/// It is the bytes of the accepted pieces, each once, in their order. A piece is
/// accepted after the pieces before it where its number is one more than how many
/// of those were accepted, modulo 2^32.
///
/// # Errors
///
/// `AllocError` where memory is refused.
pub fn run_trial(alloc: Global, pieces: &[(u32, Vec<u8>)]) -> Result<Vec<u8>, AllocError>
    ensures { IfOk result
        (λ doc. doc.items ≡ bytes_of (accepted (map (λ p. record { seq = p.0; bytes = p.1.items }) pieces.now))) }
{
    let mut trial = Trial::fresh(alloc);
    for (seq, bytes) in pieces {
        trial.append(*seq, bytes)?;
    }
    Ok(trial.doc)
}
