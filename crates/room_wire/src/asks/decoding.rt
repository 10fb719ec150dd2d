//! From messages to questions and events.
ghost use Rattle.room_wire.specs.Asks.AskOf.{ask_of, DecodesAsk};
ghost use Rattle.room_wire.specs.Messages.MessageModel.{MessageModel};
ghost use Rattle.room_wire.specs.Messages.Taken.{Shows};

use crate::asks::ask::Ask;
use crate::asks::route::route;
use crate::asks::routed::Routed;
use crate::asks::routing::Routes;
use crate::fault::WireFault;
use crate::messages::message::Message;
use room_records::Roster;
use std::alloc::Global;

/// What a message asks of a room. The program calls `route`, and `SentRequest::read` where it needs the body of a
/// request. This is both steps at once, for those who have the whole message.
///
/// # Errors
///
/// Those of `route`, and of `SentRequest::read`.
pub fn decode(
    alloc: Global,
    message: &Message<'_>,
    routes: &Routes,
    roster: &Roster,
) -> Result<Ask, WireFault>
    ensures { (m : MessageModel) → Shows message.now m → DecodesAsk (ask_of roster.now m) result }
{
    match route(alloc, message, routes, roster)? {
        Routed::Ask(ask) => Ok(ask),
        Routed::Request(sent) => {
            let event = sent.read(alloc)?;
            Ok(Ask::Event(event))
        }
    }
}
