//! What a message asks.
use crate::playing::Play;
use room_wire::{
    Answer, Ask, Code, Event, Message, Take, answer_question, decode, fault_code, take_message,
};

/// What a message asks.
#[derive(Drop)]
pub enum Asked {
    Event(Event),
    /// A question, or what is refused before the room is asked: its answer.
    Other(Answer),
}

fn asked_by(play: &Play<'_>, message: &Message<'_>) -> Asked {
    match decode(play.alloc, message, play.routes, play.roster) {
        Ok(Ask::Event(event)) => Asked::Event(event),
        Ok(Ask::Check(question)) => Asked::Other(answer_question(play.alloc, &question)),
        Err(fault) => Asked::Other(Answer::Refused(fault_code(fault))),
    }
}

/// What the message at the front of these bytes asks. Bytes that have no message there are refused.
pub fn ask_of(play: &Play<'_>, sent: &[u8]) -> Asked {
    match take_message(sent) {
        Take::Whole(message) => asked_by(play, &message),
        Take::More | Take::Bad => Asked::Other(Answer::Refused(Code::BadHttp)),
    }
}
