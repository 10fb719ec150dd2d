//! Readers of the members of JSON values.
ghost use Rattle.std.specs.Prelude.{◌≡◌, IfOk, option_map, option_and_then, codes};
ghost use Rattle.serde_json.specs.View.{view, items_view};
ghost use Rattle.serde_json.specs.Find.{get, as_array, as_str};
ghost use Rattle.room_wire.specs.Forms.Reading.{json_of, has_count, number_at, text_at, mask_at, kind_from, mask_from};
ghost use Rattle.room_wire.specs.Forms.Reading.{flags_from, allow_from, principal_from, principal_in, principal_at};
ghost use Rattle.room_wire.specs.Forms.Reading.{entry_in, all_among, all_at};

use room_acl::{Entry, Flags, Kind, Mask, Principal, Who};
use serde_json::Value;
use std::alloc::{AllocError, Global};

/// The JSON value of a body, if it is one.
pub(crate) fn json_in(alloc: Global, body: &[u8]) -> Result<Option<Value>, AllocError>
    ensures { IfOk result (λ found. option_map view found ≡ json_of body.now) }
{
    match Value::from_slice(alloc, body) {
        Ok(value) => Ok(Some(value)),
        Err(fault) => {
            if fault.is_memory() {
                Err(AllocError)
            } else {
                Ok(None)
            }
        }
    }
}

/// Whether the value is an object of so many members. With each listed member there, it has exactly those.
pub(crate) fn has_count(value: &Value, count: usize) -> bool
    ensures { result ≡ has_count count (view value.now) }
{
    match value.as_object() {
        Some(members) => members.len() == count,
        None => false,
    }
}

/// A number among the members.
pub(crate) fn number_at(value: &Value, name: &str) -> Option<u64>
    ensures { result ≡ number_at name.now (view value.now) }
{
    value.get(name).and_then(Value::as_u64)
}

/// A text among the members.
pub(crate) fn text_at<'a>(value: &'a Value, name: &str) -> Option<&'a str>
    ensures { option_map (λ s. s.now) result ≡ text_at name.now (view value.now) }
{
    value.get(name).and_then(Value::as_str)
}

fn mask_from(number: u64) -> Option<Mask>
    ensures { result ≡ mask_from number }
{
    match u32::try_from(number) {
        Ok(bits) => Mask::new(bits),
        Err(_) => None,
    }
}

fn flags_from(number: u64) -> Option<Flags>
    ensures { result ≡ flags_from number }
{
    match u8::try_from(number) {
        Ok(bits) => Flags::new(bits),
        Err(_) => None,
    }
}

fn kind_from(text: &str) -> Option<Kind>
    ensures { result ≡ kind_from text.now }
{
    match text {
        "file" => Some(Kind::File),
        "folder" => Some(Kind::Folder),
        _ => None,
    }
}

/// The kind of an object among the members.
pub(crate) fn kind_at(value: &Value, name: &str) -> Option<Kind>
    ensures { result ≡ option_and_then kind_from (text_at name.now (view value.now)) }
{
    kind_from(text_at(value, name)?)
}

/// Type 0 allows, and type 1 denies.
fn allow_from(number: u64) -> Option<bool>
    ensures { result ≡ allow_from number }
{
    match number {
        0 => Some(true),
        1 => Some(false),
        _ => None,
    }
}

/// A mask among the members: no bit beside the named ones.
pub(crate) fn mask_at(value: &Value, name: &str) -> Option<Mask>
    ensures { result ≡ mask_at name.now (view value.now) }
{
    mask_from(number_at(value, name)?)
}

/// The flags of an entry among the members.
pub(crate) fn flags_at(value: &Value, name: &str) -> Option<Flags>
    ensures { result ≡ option_and_then flags_from (number_at name.now (view value.now)) }
{
    flags_from(number_at(value, name)?)
}

fn allow_at(value: &Value, name: &str) -> Option<bool>
    ensures { result ≡ option_and_then allow_from (number_at name.now (view value.now)) }
{
    allow_from(number_at(value, name)?)
}

fn principal_from(alloc: Global, text: &str) -> Result<Option<Principal>, AllocError>
    ensures { IfOk result (λ found. found ≡ principal_from text.now) }
{
    Principal::new(alloc, text)
}

fn principal_in(alloc: Global, value: &Value) -> Result<Option<Principal>, AllocError>
    ensures { IfOk result (λ found. found ≡ principal_in (view value.now)) }
{
    match value.as_str() {
        Some(text) => principal_from(alloc, text),
        None => Ok(None),
    }
}

/// A principal among the members.
pub(crate) fn principal_at(
    alloc: Global,
    value: &Value,
    name: &str,
) -> Result<Option<Principal>, AllocError>
    ensures { IfOk result (λ found. found ≡ principal_at name.now (view value.now)) }
{
    match text_at(value, name) {
        Some(text) => principal_from(alloc, text),
        None => Ok(None),
    }
}

/// An entry, where the value is one.
fn entry_in(alloc: Global, value: &Value) -> Result<Option<Entry>, AllocError>
    ensures { IfOk result (λ found. found ≡ entry_in (view value.now)) }
{
    if !has_count(value, 4) {
        return Ok(None);
    }
    let (Some(flags), Some(mask), Some(allow), Some(text)) = (
        flags_at(value, "flag"),
        mask_at(value, "mask"),
        allow_at(value, "type"),
        text_at(value, "who"),
    ) else {
        return Ok(None);
    };
    match Who::read(alloc, flags, text)? {
        Some(who) => Ok(Entry::new(allow, flags, mask, who)),
        None => Ok(None),
    }
}

fn entries_in(alloc: Global, values: &[Value]) -> Result<Option<Vec<Entry>>, AllocError>
    ensures { IfOk result (λ found. option_map (λ v. v.items) found ≡ all_among entry_in (items_view values.now)) }
{
    let mut entries = Vec::new(alloc);
    for value in values {
        match entry_in(alloc, value)? {
            Some(entry) => entries.push(entry)?,
            None => return Ok(None),
        }
    }
    Ok(Some(entries))
}

fn principals_in(alloc: Global, values: &[Value]) -> Result<Option<Vec<Principal>>, AllocError>
    ensures { IfOk result (λ found. option_map (λ v. v.items) found ≡ all_among principal_in (items_view values.now)) }
{
    let mut names = Vec::new(alloc);
    for value in values {
        match principal_in(alloc, value)? {
            Some(name) => names.push(name)?,
            None => return Ok(None),
        }
    }
    Ok(Some(names))
}

/// The items of an array among the members.
fn items_at<'a>(value: &'a Value, name: &str) -> Option<&'a [Value]>
    ensures { option_map (λ items. items_view items.now) result
        ≡ option_and_then as_array (get name.now (view value.now)) }
{
    match value.get(name) {
        Some(found) => match found.as_array() {
            Some(items) => Some(items.as_slice()),
            None => None,
        },
        None => None,
    }
}

/// A list of entries among the members.
pub(crate) fn entries_at(
    alloc: Global,
    value: &Value,
    name: &str,
) -> Result<Option<Vec<Entry>>, AllocError>
    ensures { IfOk result (λ found.
        option_map (λ v. v.items) found ≡ all_at entry_in name.now (view value.now)) }
{
    match items_at(value, name) {
        Some(items) => entries_in(alloc, items),
        None => Ok(None),
    }
}

/// A list of principals among the members.
pub(crate) fn principals_at(
    alloc: Global,
    value: &Value,
    name: &str,
) -> Result<Option<Vec<Principal>>, AllocError>
    ensures { IfOk result (λ found.
        option_map (λ v. v.items) found ≡ all_at principal_in name.now (view value.now)) }
{
    match items_at(value, name) {
        Some(items) => principals_in(alloc, items),
        None => Ok(None),
    }
}
