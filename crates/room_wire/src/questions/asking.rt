//! Questions out of bodies.
ghost use Rattle.std.specs.Prelude.{◌≡◌, IfOk, option_map};
ghost use Rattle.serde_json.specs.View.{view};
ghost use Rattle.std.specs.Option.{option_zip};
ghost use Rattle.room_wire.specs.Questions.QuestionModel.{question_model, OfChild, of_list};
ghost use Rattle.room_wire.specs.Questions.QuestionModel.{list_question_in, question_in, question_of_body};

use crate::forms::reading::{
    entries_at, has_count, json_in, kind_at, mask_at, principal_at, principals_at,
};
use crate::questions::question::Question;
use room_acl::{Entry, Kind, Mask, Principal};
use serde_json::Value;
use std::alloc::{AllocError, Global};

/// The first question, where all its parts are there.
fn list_by(
    entries: Option<Vec<Entry>>,
    group: Option<Principal>,
    groups: Option<Vec<Principal>>,
    mask: Option<Mask>,
    owner: Option<Principal>,
    user: Option<Principal>,
) -> Option<Question>
    ensures { option_map question_model result ≡ option_map of_list
        (option_zip (option_map (λ v. v.items) entries) (option_zip group
        (option_zip (option_map (λ v. v.items) groups) (option_zip mask (option_zip owner user))))) }
{
    Some(Question::List {
        entries: entries?,
        group: group?,
        groups: groups?,
        mask: mask?,
        owner: owner?,
        user: user?,
    })
}

/// What a list allows: six members, exactly.
fn list_question_in(alloc: Global, value: &Value) -> Result<Option<Question>, AllocError>
    ensures { IfOk result (λ found.
        option_map question_model found ≡ list_question_in (view value.now)) }
{
    if !has_count(value, 6) {
        return Ok(None);
    }
    let entries = entries_at(alloc, value, "entries")?;
    let group = principal_at(alloc, value, "group")?;
    let groups = principals_at(alloc, value, "groups")?;
    let mask = mask_at(value, "mask");
    let owner = principal_at(alloc, value, "owner")?;
    let user = principal_at(alloc, value, "user")?;
    Ok(list_by(entries, group, groups, mask, owner, user))
}

/// The second question, where both its parts are there.
fn child_by(kind: Option<Kind>, entries: Option<Vec<Entry>>) -> Option<Question>
    ensures { option_map question_model result
        ≡ option_map (λ (kind, entries). OfChild kind entries) (option_zip kind (option_map (λ v. v.items) entries)) }
{
    Some(Question::Child {
        kind: kind?,
        entries: entries?,
    })
}

/// What is asked: what a list hands down has two members, exactly.
fn question_in(alloc: Global, value: &Value) -> Result<Option<Question>, AllocError>
    ensures { IfOk result (λ found. option_map question_model found ≡ question_in (view value.now)) }
{
    if !has_count(value, 2) {
        return list_question_in(alloc, value);
    }
    let kind = kind_at(value, "child");
    let entries = entries_at(alloc, value, "entries")?;
    Ok(child_by(kind, entries))
}

/// The question of a body, if it asks one.
pub(crate) fn question_of_body(alloc: Global, body: &[u8]) -> Result<Option<Question>, AllocError>
    ensures { IfOk result (λ found. option_map question_model found ≡ question_of_body body.now) }
{
    match json_in(alloc, body)? {
        Some(value) => question_in(alloc, &value),
        None => Ok(None),
    }
}
