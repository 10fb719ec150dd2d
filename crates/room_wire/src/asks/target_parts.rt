//! The parts of targets, and the body of an OPEN.
ghost use Rattle.std.specs.Prelude.{◌≡◌, IfOk, option_and_then};
ghost use Rattle.serde_json.specs.View.{view};
ghost use Rattle.room_wire.specs.Asks.AskOf.{sid_from, is_number, number_from, slots_from, slots_asked};
ghost use Rattle.room_wire.specs.Asks.AskOf.{slots_of_body, ReadsAs};

use crate::fault::WireFault;
use crate::forms::reading::{has_count, json_in, number_at};
use crate::messages::fields::all_digits;
use room_records::{Sid, SlotCount};
use serde_json::Value;
use std::alloc::{AllocError, Global};

/// A session's name.
pub(crate) fn sid_in(alloc: Global, text: &str) -> Result<Sid, WireFault>
    ensures { ReadsAs (λ sid. sid) (sid_from text.now) result }
{
    match Sid::new(alloc, text)? {
        Some(sid) => Ok(sid),
        None => Err(WireFault::BadRequest),
    }
}

/// Decimal digits, and no zero before others.
fn is_number(text: &[u8]) -> bool
    ensures { result ≡ is_number text.now }
{
    1 <= text.len() && all_digits(text) && (text.len() == 1 || text[0] != b'0')
}

/// A number below 2^32, without leading zeros.
pub(crate) fn number_in(text: &str) -> Result<u32, WireFault>
    ensures { ReadsAs (λ n. n) (number_from text.now) result }
{
    if !is_number(text.as_bytes()) {
        return Err(WireFault::BadRequest);
    }
    match text.parse::<u32>() {
        Ok(number) => Ok(number),
        Err(_) => Err(WireFault::BadRequest),
    }
}

fn slots_from(number: u64) -> Option<SlotCount>
    ensures { result ≡ slots_from number }
{
    match u32::try_from(number) {
        Ok(count) => SlotCount::new(count),
        Err(_) => None,
    }
}

fn slots_in(value: &Value) -> Option<SlotCount>
    ensures { result ≡ slots_asked (view value.now) }
{
    if !has_count(value, 1) {
        return None;
    }
    slots_from(number_at(value, "slots")?)
}

fn slots_of_body(alloc: Global, body: &[u8]) -> Result<Option<SlotCount>, AllocError>
    ensures { IfOk result (λ found. found ≡ slots_of_body body.now) }
{
    match json_in(alloc, body)? {
        Some(value) => Ok(slots_in(&value)),
        None => Ok(None),
    }
}

/// How many slots the body of an OPEN asks.
pub(crate) fn read_slots(alloc: Global, body: &[u8]) -> Result<SlotCount, WireFault>
    ensures { ReadsAs (λ slots. slots) (slots_of_body body.now) result }
{
    match slots_of_body(alloc, body)? {
        Some(slots) => Ok(slots),
        None => Err(WireFault::BadRequest),
    }
}
