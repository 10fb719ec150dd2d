//! What a message asks.
ghost use Rattle.std.specs.Prelude.{◌≡◌, IfOk};
ghost use Rattle.room_wire.specs.Asks.AskOf.{ask_model};

use crate::asks::event::Event;
use crate::questions::question::Question;
use std::alloc::AllocError;

/// What a message asks of a room.
#[derive(Debug, Drop)]
pub enum Ask {
    Check(Question),
    Event(Event),
}

impl Ask {
    /// A copy of what is asked. `AllocError` where memory is refused.
    pub fn clone(&self) -> Result<Ask, AllocError>
        ensures { IfOk result (λ copy. ask_model copy ≡ ask_model self.now) }
    {
        match self {
            Ask::Check(question) => Ok(Ask::Check(question.clone()?)),
            Ask::Event(event) => Ok(Ask::Event(event.clone()?)),
        }
    }
}
