//! Refusals that are not a command's own.
ghost use Rattle.std.specs.Prelude.{◌≡◌};
ghost use Rattle.room_wire.specs.Answers.Codes.{refusal_parts};

/// Why a request was refused before its command.
#[derive(Clone, Copy, Debug, PartialEq, Eq)]
pub enum Code {
    BadSession,
    BadSlot,
    SeqMisordered,
    SeqFalseRetry,
    SessionTaken,
    RetryUncached,
    Delay,
    BadHttp,
    BadRoute,
    UnknownUser,
    BadRequest,
}

/// The body of a refusal.
pub fn refusal_text(code: Code) -> &'static str
    ensures { result.now ≡ (refusal_parts code).1 }
{
    match code {
        Code::BadSession => "{\"code\":20,\"error\":\"BADSESSION\"}",
        Code::BadSlot => "{\"code\":21,\"error\":\"BADSLOT\"}",
        Code::SeqMisordered => "{\"code\":22,\"error\":\"SEQ_MISORDERED\"}",
        Code::SeqFalseRetry => "{\"code\":23,\"error\":\"SEQ_FALSE_RETRY\"}",
        Code::SessionTaken => "{\"code\":24,\"error\":\"SESSION_TAKEN\"}",
        Code::RetryUncached => "{\"code\":25,\"error\":\"RETRY_UNCACHED\"}",
        Code::Delay => "{\"code\":30,\"error\":\"DELAY\"}",
        Code::BadHttp => "{\"code\":40,\"error\":\"BAD_HTTP\"}",
        Code::BadRoute => "{\"code\":41,\"error\":\"BAD_ROUTE\"}",
        Code::UnknownUser => "{\"code\":42,\"error\":\"UNKNOWN_USER\"}",
        Code::BadRequest => "{\"code\":43,\"error\":\"BAD_REQUEST\"}",
    }
}
