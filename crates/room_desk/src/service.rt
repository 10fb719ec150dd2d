//! What answers the messages of a stream to a room.
ghost use Rattle.std.specs.Prelude.{Ok};
ghost use Rattle.room_wire.specs.Asks.AskOf as A;
ghost use Rattle.room_wire.specs.Messages.MessageModel.{MessageModel};
ghost use Rattle.room_wire.specs.Messages.Taken.{Shows};
ghost use Rattle.room_wire.specs.Questions.QuestionModel.{question_model};
ghost use Rattle.room_desk.specs.AnswerModel.{answer_model};
ghost use Rattle.room_desk.specs.Serving.{Answered, MayAnswer};

use crate::desk::Desk;
use crate::repeating::answer_sent;
use room_records::{Roster, Shelf};
use room_wire::{
    Answer, Ask, Message, Question, Routed, Routes, Service, answer_question, fault_code, route,
};

/// What a room looks up and never changes: its routes and its users.
#[derive(Drop)]
pub(crate) struct Lookup<'r> {
    pub routes: &'r Routes,
    pub roster: &'r Roster,
}

impl<S: Shelf> Desk<S> {
    /// Answers what asks no room.
    fn answer_check(&mut self, question: &Question) -> Answer
        ensures { Answered (Ok (A.Check (question_model question.now)))
            (S.view self.old) (answer_model result) (S.view self.new) }
    {
        answer_question(self.alloc, question)
    }

    /// Answers what a message asks.
    fn answer_message(&mut self, lookup: &Lookup<'_>, message: &Message<'_>) -> Answer
        ensures { (m : MessageModel) → Shows message.now m →
            MayAnswer S.view lookup.now.roster.now self.old m (answer_model result) self.new }
    {
        match route(self.alloc, message, lookup.routes, lookup.roster) {
            Ok(Routed::Ask(Ask::Check(question))) => self.answer_check(&question),
            Ok(Routed::Ask(Ask::Event(event))) => self.handle(&event),
            Ok(Routed::Request(sent)) => answer_sent(self.alloc, &mut self.shelf, &sent),
            Err(fault) => Answer::Refused(fault_code(fault)),
        }
    }
}

impl<'r, S: Shelf> Service<Lookup<'r>> for Desk<S> {
    ghost may_answer = { λ lookup. MayAnswer S.view lookup.roster.now };

    fn answer(&mut self, lookup: &Lookup<'r>, message: &Message<'_>) -> Answer {
        self.answer_message(lookup, message)
    }
}
