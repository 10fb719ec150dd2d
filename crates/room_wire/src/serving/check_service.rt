//! Answers to messages that ask questions.
ghost use Rattle.std.specs.Prelude.{◌≡◌, Ok, []};
ghost use Rattle.room_wire.specs.Answers.AnswerModel.{answer_model};
ghost use Rattle.room_wire.specs.Asks.CheckAsk.{check_ask};
ghost use Rattle.room_wire.specs.Serving.CheckService.{IsCheckAnswer, MayAnswerCheck, fault_code};
ghost use Rattle.room_wire.specs.Messages.MessageModel.{MessageModel};
ghost use Rattle.room_wire.specs.Messages.Taken.{Shows};
ghost use Rattle.room_wire.specs.Questions.QuestionModel.{question_model};
ghost use Rattle.room_wire.specs.Serving.Ends.{Serves};

use crate::answers::answer::Answer;
use crate::answers::code::Code;
use crate::asks::check_ask::decode_check;
use crate::asks::routing::CheckRoute;
use crate::fault::WireFault;
use crate::messages::message::Message;
use crate::questions::answering::check_answer;
use crate::questions::question::Question;
use crate::serving::buffers::Buffers;
use crate::serving::service::Service;
use crate::serving::stop::{ServeEnd, Why};
use crate::serving::stream::serve_messages;
use std::alloc::Global;
use std::io::{Read, Write};
use std::marker::Model;

/// The code of a fault. Want of memory is answered DELAY.
pub fn fault_code(fault: WireFault) -> Code
    ensures { result ≡ fault_code fault }
{
    match fault {
        WireFault::BadRoute => Code::BadRoute,
        WireFault::UnknownUser => Code::UnknownUser,
        WireFault::BadRequest => Code::BadRequest,
        WireFault::Memory => Code::Delay,
    }
}

/// The answer to a question, or DELAY where memory was refused.
pub fn answer_question(alloc: Global, question: &Question) -> Answer
    ensures { IsCheckAnswer (Ok (question_model question.now)) (answer_model result) }
{
    match check_answer(alloc, question) {
        Ok(text) => Answer::Reply(text),
        Err(_) => Answer::Refused(Code::Delay),
    }
}

/// The answer to a message that should ask a question.
pub(crate) fn answer_check(alloc: Global, route: &CheckRoute, message: &Message<'_>) -> Answer
    ensures { (m : MessageModel) → Shows message.now m → IsCheckAnswer (check_ask m) (answer_model result) }
{
    match decode_check(alloc, message, route) {
        Ok(question) => answer_question(alloc, &question),
        Err(fault) => Answer::Refused(fault_code(fault)),
    }
}

/// Answers questions, and keeps nothing from one to the next.
#[derive(Drop)]
pub(crate) struct CheckService {
    pub alloc: Global,
}

impl Model for CheckService {
    ghost Value = { Unit {0} };

    ghost view = { λ service. tt };
}

impl Service<CheckRoute> for CheckService {
    ghost may_answer = { λ route. MayAnswerCheck };

    fn answer(&mut self, route: &CheckRoute, message: &Message<'_>) -> Answer {
        answer_check(self.alloc, route, message)
    }
}

/// Answers questions until the input ends: `/v1/check` is the one route.
///
/// `Memory` comes only before the first read. Want of memory later is answered DELAY.
pub fn serve_checks<R: Read, W: Write>(alloc: Global, reader: &mut R, writer: &mut W) -> ServeEnd
    ensures { Serves MayAnswerCheck tt tt (R.remaining reader.old) (R.remaining reader.new)
        (W.contents writer.old) (W.contents writer.new) result.why result.count }
{
    let (Ok(route), Ok(mut buffers)) = (CheckRoute::new(alloc), Buffers::new(alloc)) else {
        return ServeEnd {
            why: Why::Memory,
            count: 0,
        };
    };
    let mut service = CheckService { alloc };
    serve_messages(&mut service, &route, &mut buffers, reader, writer)
}
