//! From messages to what they ask, but for the body of a request to a slot.
ghost use Rattle.std.specs.Prelude.{◌≡◌, map, take, codes, ok_or, option_map};
ghost use Rattle.std.specs.Option.{option_zip};
ghost use Rattle.httparse.specs.Spans.{header_bytes};
ghost use Rattle.room_wire.specs.Asks.AskOf.{ask_of, ask_for, caller_by, DecodesAsk, ReadsAs, RoutesAsk, ReadsSent};
ghost use Rattle.room_wire.specs.Asks.AskOf.{Check, request_by, event_by, event_asked, sid_from, number_from};
ghost use Rattle.room_wire.specs.Asks.AskOf.{slots_of_body};
ghost use Rattle.room_wire.specs.Forms.Commands.{command_of_body};
ghost use Rattle.room_wire.specs.Asks.EventModel.{event_model, Open, Close};
ghost use Rattle.room_wire.specs.declared.fault.WireFault.TheVariants.{BadRequest};
ghost use Rattle.room_wire.specs.Questions.QuestionModel.{question_of_body};
ghost use Rattle.room_wire.specs.Asks.Routing.{target_model};
ghost use Rattle.room_wire.specs.Asks.Targets.{room_target};
ghost use Rattle.room_wire.specs.Messages.Fields.{values_named};
ghost use Rattle.room_wire.specs.Messages.MessageModel.{MessageModel};
ghost use Rattle.room_wire.specs.Messages.Taken.{Shows};

use crate::asks::ask::Ask;
use crate::asks::caller::caller_of;
use crate::asks::event::Event;
use crate::asks::routed::{Routed, SentRequest};
use crate::asks::routing::{Action, Routes, SessionAction, Target};
use crate::asks::target_parts::{number_in, read_slots, sid_in};
use crate::fault::WireFault;
use crate::messages::message::Message;
use crate::questions::asking::question_of_body;
use room_acl::Subject;
use room_records::Roster;
use std::alloc::Global;

fn open_event(alloc: Global, subject: Subject, sid: &str, body: &[u8]) -> Result<Event, WireFault>
    ensures { ReadsAs event_model (option_map (λ (sid, slots). Open subject sid slots)
        (option_zip (sid_from sid.now) (slots_of_body body.now))) result }
{
    let sid = sid_in(alloc, sid)?;
    let slots = read_slots(alloc, body)?;
    Ok(Event::Open {
        subject,
        sid,
        slots,
    })
}

fn close_event(alloc: Global, subject: Subject, sid: &str) -> Result<Event, WireFault>
    ensures { ReadsAs event_model (option_map (Close subject) (sid_from sid.now)) result }
{
    let sid = sid_in(alloc, sid)?;
    Ok(Event::Close { subject, sid })
}

fn sent_request<'b>(
    alloc: Global,
    subject: Subject,
    target: &Target<'_>,
    body: &'b [u8],
) -> Result<SentRequest<'b>, WireFault>
    ensures { ReadsSent (request_by subject (sid_from target.now.sid.now) (number_from target.now.slot.now)
        (number_from target.now.seq.now) (command_of_body body.now)) result }
{
    let sid = sid_in(alloc, target.sid)?;
    let slot = number_in(target.slot)?;
    let seq = number_in(target.seq)?;
    Ok(SentRequest {
        subject,
        sid,
        slot,
        seq,
        body,
    })
}

/// What a user asks of a session.
fn route_event<'b>(
    alloc: Global,
    action: SessionAction,
    subject: Subject,
    target: &Target<'_>,
    body: &'b [u8],
) -> Result<Routed<'b>, WireFault>
    ensures { RoutesAsk (event_asked (event_by action subject (target_model target.now) body.now)) result }
{
    match action {
        SessionAction::Open => {
            let event = open_event(alloc, subject, target.sid, body)?;
            Ok(Routed::Ask(Ask::Event(event)))
        }
        SessionAction::Close => {
            let event = close_event(alloc, subject, target.sid)?;
            Ok(Routed::Ask(Ask::Event(event)))
        }
        SessionAction::Run => {
            let sent = sent_request(alloc, subject, target, body)?;
            Ok(Routed::Request(sent))
        }
    }
}

fn check_ask(alloc: Global, body: &[u8]) -> Result<Ask, WireFault>
    ensures { DecodesAsk (ok_or (option_map Check (question_of_body body.now)) BadRequest) result }
{
    match question_of_body(alloc, body)? {
        Some(question) => Ok(Ask::Check(question)),
        None => Err(WireFault::BadRequest),
    }
}

/// What a message asks by its route, by the parts that were lent of it.
fn route_parts<'b>(
    alloc: Global,
    message: &Message<'b>,
    routes: &Routes,
    roster: &Roster,
) -> Result<Routed<'b>, WireFault>
    ensures { RoutesAsk (ask_for (room_target message.now.method.now message.now.target.now)
        (caller_by roster.now (values_named (codes "room-user")
        (map (header_bytes message.now.window.now) (take message.now.count message.now.spans)))) message.now.body.now)
        result }
{
    let Some(target) = routes.target_at(message.method, message.target) else {
        return Err(WireFault::BadRoute);
    };
    match target.action {
        Action::Check => {
            let ask = check_ask(alloc, message.body)?;
            Ok(Routed::Ask(ask))
        }
        Action::Session(action) => {
            let subject = caller_of(alloc, message, roster)?;
            route_event(alloc, action, subject, &target, message.body)
        }
    }
}

/// What a message asks of a room, where the body of a request to a slot is left as it came: so a repeat is told by its
/// bytes before they are read. The route and its method are tested first, then the user, then all else.
///
/// # Errors
///
/// `BadRoute` where the target holds one of `?`, `#` and `%` or is no route, and where the method is none
/// of its route. But for questions, `UnknownUser` where not exactly one field `room-user` stands in the
/// head, or its value is no user of the roster. `BadRequest` where a session's name, a slot or a number in
/// the target is none, and where the body is not as the route wants it, but that of a request to a slot, of which
/// `SentRequest::read` tells it; the body of a DELETE is not looked at. `Memory` where memory was refused.
pub fn route<'b>(
    alloc: Global,
    message: &Message<'b>,
    routes: &Routes,
    roster: &Roster,
) -> Result<Routed<'b>, WireFault>
    ensures { (m : MessageModel) → Shows message.now m → RoutesAsk (ask_of roster.now m) result }
{
    route_parts(alloc, message, routes, roster)
}
