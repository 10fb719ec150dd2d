//! Who sends a message.
ghost use Rattle.std.specs.Prelude.{◌≡◌, IfOk, map, take, codes};
ghost use Rattle.httparse.specs.Spans.{header_bytes};
ghost use Rattle.room_wire.specs.Asks.AskOf.{caller_by, FindsCaller};
ghost use Rattle.room_records.specs.Roster.{user_named};
ghost use Rattle.room_wire.specs.Messages.Fields.{values_named};
ghost use Rattle.room_wire.specs.Forms.Reading.{principal_from};
ghost use Rattle.std.specs.Prelude.{option_and_then};

use crate::fault::WireFault;
use crate::messages::fields::{Found, values_of};
use crate::messages::message::Message;
use room_acl::{Principal, Subject, copy_principals};
use room_records::Roster;
use std::alloc::{AllocError, Global};

/// The principal of this text.
fn principal_of(alloc: Global, text: &[u8]) -> Result<Option<Principal>, AllocError>
    ensures { IfOk result (λ found. found ≡ principal_from text.now) }
{
    match std::str::from_utf8(text) {
        Ok(text) => Principal::new(alloc, text),
        Err(_) => Ok(None),
    }
}

/// The user of this name, with the groups of the roster.
fn user_called(
    alloc: Global,
    roster: &Roster,
    name: Principal,
) -> Result<Option<Subject>, AllocError>
    ensures { IfOk result (λ found. found ≡ user_named roster.now name) }
{
    match roster.groups(&name) {
        Some(groups) => {
            let groups = copy_principals(alloc, groups)?;
            Ok(Some(Subject { name, groups }))
        }
        None => Ok(None),
    }
}

/// The user whom a field's value names.
fn user_of(alloc: Global, roster: &Roster, value: &[u8]) -> Result<Option<Subject>, AllocError>
    ensures { IfOk result (λ found. found ≡ option_and_then (user_named roster.now) (principal_from value.now)) }
{
    match principal_of(alloc, value)? {
        Some(name) => user_called(alloc, roster, name),
        None => Ok(None),
    }
}

/// The user whom the one field `room-user` names.
pub(crate) fn caller_of(
    alloc: Global,
    message: &Message<'_>,
    roster: &Roster,
) -> Result<Subject, WireFault>
    ensures { FindsCaller (caller_by roster.now (values_named (codes "room-user")
        (map (header_bytes message.now.window.now) (take message.now.count message.now.spans)))) result }
{
    let spans = &message.spans[..message.count];
    let Found::One(value) = values_of(message.window, spans, b"room-user") else {
        return Err(WireFault::UnknownUser);
    };
    match user_of(alloc, roster, value)? {
        Some(caller) => Ok(caller),
        None => Err(WireFault::UnknownUser),
    }
}
