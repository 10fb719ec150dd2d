//! Requests in a slot.
ghost use Rattle.std.specs.Prelude.{◌≡◌, IfOk, OnOk, option_map};
ghost use Rattle.std.specs.Bool.{then_some};
ghost use Rattle.std.specs.Option.{option_map_or};
ghost use Rattle.room_records.specs.Rules.{SlotRules};
ghost use Rattle.room_records.specs.Room.{Room};
ghost use Rattle.room_records.specs.Representation.{RepresentsRoom};
ghost use Rattle.room_records.specs.Shelf.{ShelfCall, ShelfRead, Tells, fault_in, LeavesOldOrNew};
ghost use Rattle.room_commands.specs.Lawful.{IsLawful};
ghost use Rattle.room_wire.specs.Asks.EventModel.{Slot};
ghost use Rattle.room_wire.specs.Forms.Texts.{command_text};
ghost use Rattle.room_wire.specs.declared.answers.code.Code.TheVariants.{RetryUncached};
ghost use Rattle.room_desk.specs.AnswerModel.{answer_model, Reply, Refused, IsTurnedAway};
ghost use Rattle.room_desk.specs.History.{History};
ghost use Rattle.room_desk.specs.Representation.{RepresentsHistory};
ghost use Rattle.room_desk.specs.RowAnswers.{HasSlot, Ran, RanTo, answer_kept, found_by, found_for};
ghost use Rattle.room_desk.specs.Trying.{EventTried, JoinsHistory};

use crate::sessions::is_usable;
use room_acl::Subject;
use room_commands::Command;
use room_records::{Change, Shelf, ShelfFault, Sid, SlotRow};
use room_slots::{Kept, Verdict, classify, is_next};
use room_tree::plan;
use room_wire::{Answer, Code, command_text, reply_text};
use std::alloc::{AllocError, Global};
use std::marker::Model;

/// A request to a slot, borrowed from its event.
#[derive(Debug, Drop)]
pub struct SlotRequest<'a> {
    /// Who asks.
    pub subject: &'a Subject,
    /// The session.
    pub sid: &'a Sid,
    /// The slot of the session, from 0.
    pub slot: u32,
    /// The number of the request in its slot.
    pub seq: u32,
    /// What is asked for.
    pub command: &'a Command,
    /// Whether the reply is kept for a repeat.
    pub keep: bool,
}

impl<'a> Model for SlotRequest<'a> {
    ghost use Rattle.room_commands.specs.CommandModel.{command_model};
    ghost use Rattle.room_wire.specs.Asks.EventModel.{Request};

    ghost Value = { Request };

    ghost view = { λ q. record {
      caller = q.subject.now;
      sid = q.sid.now;
      slot = q.slot;
      seq = q.seq;
      command = command_model q.command.now;
      keep = q.keep;
    } };
}

/// The row that a request leaves in its slot: its number, its command text, and its reply where that is to be kept.
fn slot_row(alloc: Global, asked: &SlotRequest, reply: &Vec<u8>) -> Result<SlotRow, AllocError>
    ensures row { IfOk result (λ row. row ≡ record {
      sid = asked.now.sid;
      slot = asked.now.slot;
      kept = record {
        seq = asked.now.seq;
        request = command_text asked.now.command;
        reply = then_some asked.now.keep reply.now.items;
      };
    }) }
    ensures lawful { IfOk result (λ _. IsLawful asked.now.command) }
{
    let request = command_text(alloc, asked.command)?;
    let reply = if asked.keep {
        Some(reply.clone()?)
    } else {
        None
    };
    Ok(SlotRow {
        sid: asked.sid.clone()?,
        slot: asked.slot,
        kept: Kept {
            seq: asked.seq,
            request,
            reply,
        },
    })
}

/// Runs a new request: what its command changes and the slot's row go in one commit. The texts of the row are made
/// before it, and nothing grows after it.
fn run_new<S: Shelf>(
    alloc: Global,
    shelf: &mut S,
    asked: &SlotRequest,
) -> Result<Answer, ShelfFault>
    ensures there { (S.view shelf.new).is_intact → OnOk result (S.view shelf.new).is_available }
    ensures frame { ShelfCall (S.view shelf.old) (S.view shelf.new) (fault_in result) }
    ensures reply { IfOk result (λ answer. IsTurnedAway (answer_model answer) → ⊥) }
    ensures ok { (S.view shelf.new).is_available → (S.view shelf.old).is_laid_out
        → (room : Room) → RepresentsRoom (S.view shelf.old).records.objects room →
        SlotRules (S.view shelf.old).records → HasSlot (S.view shelf.old).records asked.now.sid asked.now.slot →
        IfOk result (λ answer. Ran (S.view shelf.old).records room
        asked.now (answer_model answer) (S.view shelf.new).records) }
    ensures crash { (S.view shelf.new).is_intact → (S.view shelf.old).is_available → (S.view shelf.old).is_laid_out →
        (room : Room) → RepresentsRoom (S.view shelf.old).records.objects room →
        SlotRules (S.view shelf.old).records → HasSlot (S.view shelf.old).records asked.now.sid asked.now.slot →
        LeavesOldOrNew (S.view shelf.old) (S.view shelf.new) (RanTo (S.view shelf.old).records room asked.now) }
{
    let outcome = plan(alloc, shelf, asked.subject, asked.command)?;
    let reply = reply_text(alloc, &outcome.reply)?;
    let row = slot_row(alloc, asked, &reply)?;
    let mut changes = outcome.changes;
    let Ok(()) = changes.push(Change::PutSlot(row)) else {
        return Err(ShelfFault::Memory);
    };
    shelf.commit(&changes)?;
    Ok(Answer::Reply(reply))
}

/// What a repeat is answered by the reply that is kept: where none is, it is refused.
fn answer_again(reply: Option<Vec<u8>>) -> Answer
    ensures { answer_model result ≡ option_map_or Reply (option_map (λ r. r.items) reply) (Refused RetryUncached) }
{
    match reply {
        Some(reply) => Answer::Reply(reply),
        None => Answer::Refused(Code::RetryUncached),
    }
}

/// What a request is answered that is not new to its slot: a repeat gets the kept reply, if one is kept.
///
/// `text` is the text of its command, and `kept` what the slot keeps.
pub(crate) fn answer_kept(kept: Option<Kept>, seq: u32, text: &[u8]) -> Answer
    ensures { answer_model result ≡ answer_kept kept seq text.now }
{
    match classify(kept.as_ref(), seq, text) {
        Verdict::Repeat => match kept {
            Some(kept) => answer_again(kept.reply),
            None => Answer::Refused(Code::SeqMisordered),
        },
        Verdict::Uncached => Answer::Refused(Code::RetryUncached),
        Verdict::FalseRetry => Answer::Refused(Code::SeqFalseRetry),
        Verdict::Misordered | Verdict::New => Answer::Refused(Code::SeqMisordered),
    }
}

/// What the rows of its session and of its slot say of a request, before its command is known.
#[derive(Debug, Drop)]
pub(crate) enum Found {
    /// It is refused.
    Refused(Code),
    /// Its number is the next one of its slot.
    New,
    /// It has another number; what its slot keeps tells the answer.
    Again(Option<Kept>),
}

/// Looks a request up: the session is tested first, then the slot, then the number. The slot's row may be long, so of a
/// new request the number alone is read.
pub(crate) fn look_up<S: Shelf>(
    shelf: &mut S,
    subject: &Subject,
    sid: &Sid,
    slot: u32,
    seq: u32,
) -> Result<Found, ShelfFault>
    ensures value { Tells (S.view shelf.old) (S.view shelf.new) result
        (λ records found. found ≡ found_by records subject.now sid.now slot seq) }
    ensures there { (S.view shelf.new).is_intact → OnOk result (S.view shelf.new).is_available }
    ensures frame { ShelfRead (S.view shelf.old) (S.view shelf.new) (fault_in result) }
{
    let Some(row) = shelf.session(sid)? else {
        return Ok(Found::Refused(Code::BadSession));
    };
    if !is_usable(&row, subject) {
        return Ok(Found::Refused(Code::BadSession));
    }
    if slot >= row.slots.get() {
        return Ok(Found::Refused(Code::BadSlot));
    }
    let last = shelf.slot_seq(sid, slot)?;
    if is_next(last, seq) {
        return Ok(Found::New);
    }
    Ok(Found::Again(shelf.slot(sid, slot)?))
}

/// What a request that is not new to its slot is answered, by the text of its command.
fn answer_old(alloc: Global, asked: &SlotRequest, kept: Option<Kept>) -> Result<Answer, AllocError>
    ensures { IfOk result (λ answer. answer_model answer
        ≡ answer_kept kept asked.now.seq (command_text asked.now.command)) }
{
    let text = command_text(alloc, asked.command)?;
    Ok(answer_kept(kept, asked.seq, &text))
}

/// Answers a request by what was found. Its clauses are those of `EventTried`, the last under what was found.
pub(crate) fn answer_found<S: Shelf>(
    alloc: Global,
    shelf: &mut S,
    asked: &SlotRequest,
    found: Found,
) -> Result<Answer, ShelfFault>
    ensures frame { ShelfCall (S.view shelf.old) (S.view shelf.new) (fault_in result) }
    ensures refused { (S.view shelf.new).is_available → (S.view shelf.old).is_laid_out →
        IfOk result (λ answer. IsTurnedAway (answer_model answer)
        → (S.view shelf.new).records ≡ (S.view shelf.old).records) }
    ensures joins { (S.view shelf.old).is_available → (S.view shelf.old).is_laid_out
        → (start : Room) (past : History) → RepresentsHistory start (S.view shelf.old).records past →
        found ≡ found_for (S.view shelf.old).records asked.now →
        JoinsHistory start past (Slot asked.now) (S.view shelf.old) (S.view shelf.new) result }
{
    match found {
        Found::Refused(code) => Ok(Answer::Refused(code)),
        Found::New => run_new(alloc, shelf, asked),
        Found::Again(kept) => Ok(answer_old(alloc, asked, kept)?),
    }
}

/// A request to a slot.
pub(crate) fn request<S: Shelf>(
    alloc: Global,
    shelf: &mut S,
    asked: &SlotRequest,
) -> Result<Answer, ShelfFault>
    ensures { EventTried (Slot asked.now) (S.view shelf.old) (S.view shelf.new) result }
{
    let found = look_up(shelf, asked.subject, asked.sid, asked.slot, asked.seq)?;
    answer_found(alloc, shelf, asked, found)
}
