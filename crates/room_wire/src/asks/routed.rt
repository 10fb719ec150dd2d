//! What a message asks by its route, before the command of a request is read.
ghost use Rattle.room_wire.specs.Asks.AskOf.{ReadsAs, sent_event};
ghost use Rattle.room_wire.specs.Asks.EventModel.{event_model};

use crate::asks::ask::Ask;
use crate::asks::event::Event;
use crate::fault::WireFault;
use crate::forms::commands::read_command;
use room_acl::Subject;
use room_records::Sid;
use std::alloc::Global;

/// A request to a slot, with its body as it came.
#[derive(Debug, Drop)]
pub struct SentRequest<'b> {
    /// Who asks.
    pub subject: Subject,
    /// The session.
    pub sid: Sid,
    /// The slot of the session, from 0.
    pub slot: u32,
    /// The number of the request in its slot.
    pub seq: u32,
    /// The body, of which nothing is known yet.
    pub body: &'b [u8],
}

impl<'b> SentRequest<'b> {
    /// The event, with the command of the body.
    ///
    /// # Errors
    ///
    /// `BadRequest` where the body asks no command, `Memory` where memory was refused, and no other.
    pub fn read(self, alloc: Global) -> Result<Event, WireFault>
        ensures { ReadsAs event_model (sent_event self.entry) result }
    {
        let SentRequest {
            subject,
            sid,
            slot,
            seq,
            body,
        } = self;
        let (command, keep) = read_command(alloc, body)?;
        Ok(Event::Slot {
            subject,
            sid,
            slot,
            seq,
            command,
            keep,
        })
    }
}

/// What a message asks, where the body of a request to a slot is not read yet.
#[derive(Debug, Drop)]
pub enum Routed<'b> {
    /// A question, an OPEN or a CLOSE.
    Ask(Ask),
    /// A request to a slot, whose command is still to be read.
    Request(SentRequest<'b>),
}
