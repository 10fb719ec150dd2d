//! OPEN and CLOSE of sessions.
ghost use Rattle.std.specs.Prelude.{◌≡◌, IfOk, OnOk, true, false};
ghost use Rattle.std.specs.Str.{bytes_eq};
ghost use Rattle.room_records.specs.Rules.{RulesHold};
ghost use Rattle.room_records.specs.declared.change.Change.TheVariants.{PutSession};
ghost use Rattle.room_records.specs.Changes.{apply_change};
ghost use Rattle.room_records.specs.Shelf.{ShelfCall, fault_in, LeavesOldOrNew};
ghost use Rattle.room_commands.specs.ReplyModel.{Done, Opened};
ghost use Rattle.room_wire.specs.Forms.Texts.{reply_text};
ghost use Rattle.room_wire.specs.Asks.EventModel.{Open, Close};
ghost use Rattle.room_desk.specs.AnswerModel.{answer_model};
ghost use Rattle.room_desk.specs.AnswerModel as A;
ghost use Rattle.room_desk.specs.RowAnswers.{answer_open_again, is_usable};
ghost use Rattle.room_desk.specs.SessionRows.{opened_row, closed_row, with_session_ended};
ghost use Rattle.room_desk.specs.Trying.{EventTried};

use room_acl::Subject;
use room_commands::Reply;
use room_records::{Change, SessionRow, Shelf, ShelfFault, Sid, SlotCount};
use room_wire::{Answer, Code, reply_text};
use std::alloc::{AllocError, Global};

/// Whether the session is the caller's. Groups play no part.
pub(crate) fn owns(row: &SessionRow, subject: &Subject) -> bool
    ensures { result ≡ bytes_eq row.now.owner subject.now.name }
{
    row.owner == subject.name
}

/// Whether the session is open and the caller's.
pub(crate) fn is_usable(row: &SessionRow, subject: &Subject) -> bool
    ensures { result ≡ is_usable subject.now row.now }
{
    owns(row, subject) && row.is_open
}

/// What an OPEN of a name that was opened before is answered. Nothing changes.
fn open_again(
    alloc: Global,
    row: &SessionRow,
    subject: &Subject,
    slots: SlotCount,
) -> Result<Answer, AllocError>
    ensures { IfOk result (λ answer. answer_model answer ≡ answer_open_again subject.now slots row.now) }
{
    if !owns(row, subject) {
        return Ok(Answer::Refused(Code::SessionTaken));
    }
    if !row.is_open {
        return Ok(Answer::Refused(Code::BadSession));
    }
    if row.slots.get() != slots.get() {
        return Ok(Answer::Refused(Code::SessionTaken));
    }
    let text = reply_text(alloc, &Reply::Opened(slots))?;
    Ok(Answer::Reply(text))
}

/// The row of a session that opens.
fn opened_row(subject: &Subject, sid: &Sid, slots: SlotCount) -> Result<SessionRow, AllocError>
    ensures { IfOk result (λ row. row ≡ opened_row subject.now sid.now slots) }
{
    Ok(SessionRow {
        sid: sid.clone()?,
        owner: subject.name.clone()?,
        slots,
        is_open: true,
    })
}

/// Opens a name for the first time: one commit of its row.
fn open_first<S: Shelf>(
    alloc: Global,
    shelf: &mut S,
    subject: &Subject,
    sid: &Sid,
    slots: SlotCount,
) -> Result<Answer, ShelfFault>
    ensures there { (S.view shelf.new).is_intact → OnOk result (S.view shelf.new).is_available }
    ensures frame { ShelfCall (S.view shelf.old) (S.view shelf.new) (fault_in result) }
    ensures reply { IfOk result (λ answer. answer_model answer ≡ A.Reply (reply_text (Opened slots))) }
    ensures ok { (S.view shelf.new).is_available → (S.view shelf.old).is_laid_out →
        RulesHold (apply_change (PutSession (opened_row subject.now sid.now slots)) (S.view shelf.old).records) →
        OnOk result ((S.view shelf.new).records
        ≡ apply_change (PutSession (opened_row subject.now sid.now slots)) (S.view shelf.old).records) }
    ensures crash { (S.view shelf.old).is_laid_out →
        RulesHold (apply_change (PutSession (opened_row subject.now sid.now slots)) (S.view shelf.old).records) →
        LeavesOldOrNew (S.view shelf.old) (S.view shelf.new) (λ left.
        left ≡ apply_change (PutSession (opened_row subject.now sid.now slots)) (S.view shelf.old).records) }
{
    let text = reply_text(alloc, &Reply::Opened(slots))?;
    let changes = [Change::PutSession(opened_row(subject, sid, slots)?)];
    shelf.commit(&changes)?;
    Ok(Answer::Reply(text))
}

/// OPEN: an unused name opens, and a used one is answered by its row.
pub(crate) fn open<S: Shelf>(
    alloc: Global,
    shelf: &mut S,
    subject: &Subject,
    sid: &Sid,
    slots: SlotCount,
) -> Result<Answer, ShelfFault>
    ensures { EventTried (Open subject.now sid.now slots) (S.view shelf.old) (S.view shelf.new) result }
{
    match shelf.session(sid)? {
        Some(row) => Ok(open_again(alloc, &row, subject, slots)?),
        None => open_first(alloc, shelf, subject, sid, slots),
    }
}

/// Ends an open session in one commit: its row is closed, and what its slots kept is dropped.
fn end_session<S: Shelf>(shelf: &mut S, sid: &Sid, row: SessionRow) -> Result<(), ShelfFault>
    ensures there { (S.view shelf.new).is_intact → OnOk result (S.view shelf.new).is_available }
    ensures frame { ShelfCall (S.view shelf.old) (S.view shelf.new) (fault_in result) }
    ensures ok { (S.view shelf.new).is_available → (S.view shelf.old).is_laid_out →
        RulesHold (apply_change (PutSession (closed_row row)) (S.view shelf.old).records) →
        RulesHold (with_session_ended sid.now row (S.view shelf.old).records) →
        OnOk result ((S.view shelf.new).records ≡ with_session_ended sid.now row (S.view shelf.old).records) }
    ensures crash { (S.view shelf.old).is_laid_out →
        RulesHold (apply_change (PutSession (closed_row row)) (S.view shelf.old).records) →
        RulesHold (with_session_ended sid.now row (S.view shelf.old).records) →
        LeavesOldOrNew (S.view shelf.old) (S.view shelf.new) (λ left.
        left ≡ with_session_ended sid.now row (S.view shelf.old).records) }
{
    let closed = SessionRow {
        sid: row.sid,
        owner: row.owner,
        slots: row.slots,
        is_open: false,
    };
    let changes = [Change::PutSession(closed), Change::DropSlots(sid.clone()?)];
    shelf.commit(&changes)
}

/// CLOSE by the owner of a session: an open one is ended, and a closed one stays as it is.
fn close_owned<S: Shelf>(
    alloc: Global,
    shelf: &mut S,
    sid: &Sid,
    row: SessionRow,
) -> Result<Answer, ShelfFault>
    ensures frame { ShelfCall (S.view shelf.old) (S.view shelf.new) (fault_in result) }
    ensures reply { IfOk result (λ answer. answer_model answer ≡ A.Reply (reply_text Done)) }
    ensures idle { row.is_open ≡ false → (S.view shelf.new).is_available
        → (S.view shelf.old).is_laid_out → (S.view shelf.new).records ≡ (S.view shelf.old).records }
    ensures ok { row.is_open ≡ true → (S.view shelf.new).is_available → (S.view shelf.old).is_laid_out →
        RulesHold (apply_change (PutSession (closed_row row)) (S.view shelf.old).records) →
        RulesHold (with_session_ended sid.now row (S.view shelf.old).records) →
        OnOk result ((S.view shelf.new).records ≡ with_session_ended sid.now row (S.view shelf.old).records) }
    ensures crash { (S.view shelf.old).is_laid_out →
        RulesHold (apply_change (PutSession (closed_row row)) (S.view shelf.old).records) →
        RulesHold (with_session_ended sid.now row (S.view shelf.old).records) →
        LeavesOldOrNew (S.view shelf.old) (S.view shelf.new) (λ left.
        (row.is_open ≡ true) × (left ≡ with_session_ended sid.now row (S.view shelf.old).records)) }
{
    let text = reply_text(alloc, &Reply::Done)?;
    if row.is_open {
        end_session(shelf, sid, row)?;
    }
    Ok(Answer::Reply(text))
}

/// CLOSE: OK by the session's owner, also where it is closed already.
pub(crate) fn close<S: Shelf>(
    alloc: Global,
    shelf: &mut S,
    subject: &Subject,
    sid: &Sid,
) -> Result<Answer, ShelfFault>
    ensures { EventTried (Close subject.now sid.now) (S.view shelf.old) (S.view shelf.new) result }
{
    let Some(row) = shelf.session(sid)? else {
        return Ok(Answer::Refused(Code::BadSession));
    };
    if !owns(&row, subject) {
        return Ok(Answer::Refused(Code::BadSession));
    }
    close_owned(alloc, shelf, sid, row)
}
