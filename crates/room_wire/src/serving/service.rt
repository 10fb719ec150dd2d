//! What answers the messages of a stream.
ghost use Rattle.room_wire.specs.Answers.AnswerModel.{AnswerModel, answer_model};
ghost use Rattle.room_wire.specs.Messages.MessageModel.{MessageModel};
ghost use Rattle.room_wire.specs.Messages.Taken.{Shows};

use crate::answers::answer::Answer;
use crate::messages::message::Message;

/// What answers the messages of a stream, one after another. `C` is what it looks up on the way and
/// never changes, such as routes.
pub trait Service<C> {
    /// What a message may be answered: the service before, the message, the answer, the service after.
    ghost may_answer: { C → Self → MessageModel → AnswerModel → Self → Type 0 };

    /// Answers one message.
    fn answer(&mut self, context: &C, message: &Message<'_>) -> Answer
        ensures { (m : MessageModel) → Shows message.now m →
            may_answer context.now self.old m (answer_model result) self.new };
}
