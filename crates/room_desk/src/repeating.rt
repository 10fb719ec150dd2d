//! Requests of a stream: one that is sent again is told by its body, before that is read.
ghost use Rattle.std.specs.Prelude.{◌≡◌, MatchResult};
ghost use Rattle.room_wire.specs.Asks.AskOf.{event_asked, sent_event};
ghost use Rattle.room_desk.specs.AnswerModel.{answer_model};
ghost use Rattle.room_desk.specs.RowAnswers.{AnswersText};
ghost use Rattle.room_desk.specs.Serving.{Answered};

use crate::requests::{Found, SlotRequest, answer_found, answer_kept, look_up};
use room_records::Shelf;
use room_wire::{Answer, Code, SentRequest, fault_code, read_command};
use std::alloc::Global;

/// What a body is answered that is the text that its slot keeps, or else what was found.
fn answer_at_once(found: Found, seq: u32, body: &[u8]) -> Result<Answer, Found>
    ensures { MatchResult result (λ answer. AnswersText found seq body.now (answer_model answer))
        (λ rest. rest ≡ found) }
{
    match found {
        Found::Again(Some(kept)) => {
            if body == kept.request.as_slice() {
                return Ok(answer_kept(Some(kept), seq, body));
            }
            Err(Found::Again(Some(kept)))
        }
        found => Err(found),
    }
}

/// Answers a request whose body is not read yet. A body that is the text that its slot keeps asks the command of that
/// text, and is not read; any other is refused before all else where it asks no command.
pub(crate) fn answer_sent<S: Shelf>(alloc: Global, shelf: &mut S, sent: &SentRequest<'_>) -> Answer
    ensures { Answered (event_asked (sent_event sent.now))
        (S.view shelf.old) (answer_model result) (S.view shelf.new) }
{
    let Ok(found) = look_up(shelf, &sent.subject, &sent.sid, sent.slot, sent.seq) else {
        return Answer::Refused(Code::Delay);
    };
    let found = match answer_at_once(found, sent.seq, sent.body) {
        Ok(answer) => return answer,
        Err(found) => found,
    };
    match read_command(alloc, sent.body) {
        Ok((command, keep)) => {
            let asked = SlotRequest {
                subject: &sent.subject,
                sid: &sent.sid,
                slot: sent.slot,
                seq: sent.seq,
                command: &command,
                keep,
            };
            match answer_found(alloc, shelf, &asked, found) {
                Ok(answer) => answer,
                Err(_) => Answer::Refused(Code::Delay),
            }
        }
        Err(fault) => Answer::Refused(fault_code(fault)),
    }
}
