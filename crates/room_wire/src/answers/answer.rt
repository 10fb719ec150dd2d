//! What a message is answered.
ghost use Rattle.std.specs.Prelude.{◌≡◌, IfOk};
ghost use Rattle.room_wire.specs.Answers.AnswerModel.{answer_model, answer_parts};
ghost use Rattle.room_wire.specs.Answers.Codes.{refusal_parts};

use crate::answers::code::{Code, refusal_text};
use http::StatusCode;
use std::alloc::AllocError;

/// What a message is answered.
#[derive(Debug, Drop)]
pub enum Answer {
    /// The text of a reply, or of an answered question.
    Reply(Vec<u8>),
    Refused(Code),
}

/// The status of a refusal.
pub fn refusal_status(code: Code) -> StatusCode
    ensures { result ≡ (refusal_parts code).0 }
{
    match code {
        Code::BadSession
        | Code::BadSlot
        | Code::SeqMisordered
        | Code::SeqFalseRetry
        | Code::SessionTaken
        | Code::RetryUncached => StatusCode::CONFLICT,
        Code::Delay => StatusCode::SERVICE_UNAVAILABLE,
        Code::BadHttp | Code::BadRequest => StatusCode::BAD_REQUEST,
        Code::BadRoute => StatusCode::NOT_FOUND,
        Code::UnknownUser => StatusCode::FORBIDDEN,
    }
}

impl Answer {
    /// A copy of the answer. `AllocError` where memory is refused.
    pub fn clone(&self) -> Result<Answer, AllocError>
        ensures { IfOk result (λ copy. answer_model copy ≡ answer_model self.now) }
    {
        match self {
            Answer::Reply(text) => Ok(Answer::Reply(text.clone()?)),
            Answer::Refused(code) => Ok(Answer::Refused(*code)),
        }
    }

    pub fn status(&self) -> StatusCode
        ensures { result ≡ (answer_parts (answer_model self.now)).0 }
    {
        match self {
            Answer::Reply(_) => StatusCode::OK,
            Answer::Refused(code) => refusal_status(*code),
        }
    }

    pub fn body(&self) -> &[u8]
        ensures { result.now ≡ (answer_parts (answer_model self.now)).1 }
    {
        match self {
            Answer::Reply(text) => text.as_slice(),
            Answer::Refused(code) => refusal_text(*code).as_bytes(),
        }
    }
}
