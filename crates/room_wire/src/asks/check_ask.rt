//! From messages to questions.
ghost use Rattle.std.specs.Prelude.{◌≡◌, ok_or};
ghost use Rattle.room_wire.specs.Asks.CheckAsk.{check_ask, check_of, Decodes};
ghost use Rattle.room_wire.specs.declared.fault.WireFault.TheVariants.{BadRequest};
ghost use Rattle.room_wire.specs.Messages.MessageModel.{MessageModel};
ghost use Rattle.room_wire.specs.Messages.Taken.{Shows};
ghost use Rattle.room_wire.specs.Questions.QuestionModel.{question_of_body};

use crate::asks::routing::CheckRoute;
use crate::fault::WireFault;
use crate::messages::message::Message;
use crate::questions::asking::question_of_body;
use crate::questions::question::Question;
use std::alloc::Global;

/// The question of a body.
pub(crate) fn read_question(alloc: Global, body: &[u8]) -> Result<Question, WireFault>
    ensures { Decodes (ok_or (question_of_body body.now) BadRequest) result }
{
    match question_of_body(alloc, body)? {
        Some(question) => Ok(question),
        None => Err(WireFault::BadRequest),
    }
}

/// The question that a message asks, by the parts that were lent of it.
fn read_check(
    alloc: Global,
    message: &Message<'_>,
    route: &CheckRoute,
) -> Result<Question, WireFault>
    ensures { Decodes (check_of message.now.method.now message.now.target.now message.now.body.now) result }
{
    if !route.asks(message.method, message.target) {
        return Err(WireFault::BadRoute);
    }
    read_question(alloc, message.body)
}

/// The question that a message asks. The route is tested before the body.
///
/// # Errors
///
/// `BadRoute` where it is no POST to `/v1/check`, `BadRequest` where the body is no question,
/// and `Memory` where memory was refused.
pub fn decode_check(
    alloc: Global,
    message: &Message<'_>,
    route: &CheckRoute,
) -> Result<Question, WireFault>
    ensures { (m : MessageModel) → Shows message.now m → Decodes (check_ask m) result }
{
    read_check(alloc, message, route)
}
