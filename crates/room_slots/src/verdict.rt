//! What a request is to a slot, by what the slot keeps.
ghost use Rattle.std.specs.Prelude.{◌≡◌, if◌then◌else◌, IfOk};
ghost use Rattle.std.specs.Option.{option_copied};
ghost use Rattle.std.specs.Str.{bytes_eq};
ghost use Rattle.room_slots.specs.Slots.{is_next, sent_again, verdict};
ghost use Rattle.room_slots.specs.declared.verdict.Verdict.TheVariants.{FalseRetry};

use std::alloc::AllocError;
use std::marker::Model;

/// What a slot keeps: the last request that was new to it, and its reply, where that is to be kept.
///
/// One is enough (RFC 8881, section 2.10.6): a client that sends the next number has
/// the reply to the last one. A slot that has run nothing keeps no `Kept`; a kept
/// number 0 is one like any other.
#[derive(Debug, Drop)]
pub struct Kept {
    /// The number that the request was sent with; 0 follows 4294967295.
    pub seq: u32,
    /// The request, as bytes that are equal where the requests are the same.
    pub request: Vec<u8>,
    /// The reply that it was given, byte for byte; `None` where the reply need not be kept.
    pub reply: Option<Vec<u8>>,
}

impl Model for Kept {
    ghost use Rattle.std.specs.Option.{option_map};
    ghost use Rattle.room_slots.specs.KeptModel.{KeptModel};

    ghost Value = { KeptModel };

    ghost view = { λ k. record { seq = k.seq; request = k.request.items; reply = option_map (λ r. r.items) k.reply } };
}

impl Kept {
    /// A copy of what is kept.
    ///
    /// # Errors
    ///
    /// `AllocError` where memory is refused.
    pub fn clone(&self) -> Result<Kept, AllocError>
        ensures { IfOk result (λ copy. copy ≡ self.now) }
    {
        let reply = match &self.reply {
            Some(reply) => Some(reply.clone()?),
            None => None,
        };
        Ok(Kept {
            seq: self.seq,
            request: self.request.clone()?,
            reply,
        })
    }
}

/// What a request is to a slot.
#[derive(Clone, Copy, Debug, PartialEq, Eq)]
pub enum Verdict {
    /// It has the next number, and is to be run.
    New,
    /// It is the last request again, and is to get the reply that is kept.
    Repeat,
    /// It is the last request again, and its reply was not kept (RETRY_UNCACHED_REP).
    Uncached,
    /// It has the last number, and is another request (SEQ_FALSE_RETRY).
    FalseRetry,
    /// It has another number than the last and the next (SEQ_MISORDERED).
    Misordered,
}

/// Whether a request with this number is new to a slot whose last request had that one: no other number is, and no
/// kept byte need be read to tell.
///
/// The next number is the last one plus 1 modulo 2^32, as in RFC 8881, sections 2.10.6 and 18.46; in a slot that keeps
/// nothing 1 alone is new, our own rule. Takes no memory.
pub fn is_next(last: Option<u32>, seq: u32) -> bool
    ensures { result ≡ is_next last seq }
{
    match last {
        None => seq == 1,
        Some(last) => seq == last.wrapping_add(1),
    }
}

/// What a request with this number is to a slot that keeps this.
///
/// The next number is the last one plus 1 modulo 2^32, as in RFC 8881, sections 2.10.6
/// and 18.46. Two rules are this project's own: in a slot that keeps nothing 1 is the
/// only number that is new, and the last number with another request is always a false
/// retry, which RFC 8881 permits and does not demand. Takes no memory.
pub fn classify(kept: Option<&Kept>, seq: u32, request: &[u8]) -> Verdict
    ensures { result ≡ verdict (option_copied kept.entry) seq request.now }
{
    match kept {
        Some(kept) if seq == kept.seq => sent_again(kept, request),
        _ if is_next(kept.map(|kept| kept.seq), seq) => Verdict::New,
        _ => Verdict::Misordered,
    }
}

/// What the last request is when its number is sent again.
fn sent_again(kept: &Kept, request: &[u8]) -> Verdict
    ensures { result ≡ (if bytes_eq request.now kept.now.request then sent_again kept.now.reply else FalseRetry) }
{
    if request != kept.request.as_slice() {
        return Verdict::FalseRetry;
    }
    match &kept.reply {
        Some(_) => Verdict::Repeat,
        None => Verdict::Uncached,
    }
}
