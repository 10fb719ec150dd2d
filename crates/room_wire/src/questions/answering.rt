//! Answers to questions.
ghost use Rattle.std.specs.Prelude.{◌≡◌, IfOk};
ghost use Rattle.serde_json.specs.Written.{compact_text};
ghost use Rattle.room_wire.specs.Questions.CheckAnswers.{allowed_data, entries_data, answer_text, rights_text};
ghost use Rattle.room_wire.specs.Questions.CheckAnswers.{child_text, bit_of};
ghost use Rattle.room_wire.specs.Questions.QuestionModel.{question_model};

use crate::forms::replies::refused_text;
use crate::forms::writing::{
    SHORT_MEMBERS, begun, ended, entries_member, number_member, size_of_entries,
};
use crate::questions::question::Question;
use room_acl::{
    Decision, Entry, Kind, Mask, Principal, Standing, Subject, allowed_bits, check_own,
    copy_principals, decide, hand_down,
};
use room_commands::RefusalCode;
use std::alloc::{AllocError, Global};

fn allowed_text(alloc: Global, allowed: u32, bit: u32) -> Result<Vec<u8>, AllocError>
    ensures { IfOk result (λ text. text.items ≡ compact_text (allowed_data allowed bit)) }
{
    let mut out = begun(alloc, SHORT_MEMBERS)?;
    number_member(&mut out, "allowed", u64::from(allowed))?;
    number_member(&mut out, "bit", u64::from(bit))?;
    number_member(&mut out, "code", 0)?;
    ended(out)
}

fn bit_of(decision: Decision) -> u32
    ensures { result ≡ bit_of decision }
{
    match decision {
        Decision::Allowed => 0,
        Decision::Denied { bit } => bit,
    }
}

fn subject_of(alloc: Global, user: &Principal, groups: &[Principal]) -> Result<Subject, AllocError>
    ensures { IfOk result (λ s. s ≡ record { name = user.now; groups = groups.now }) }
{
    let name = user.clone()?;
    let groups = copy_principals(alloc, groups)?;
    Ok(Subject { name, groups })
}

fn standing_of(owner: &Principal, group: &Principal) -> Result<Standing, AllocError>
    ensures { IfOk result (λ s. s ≡ record { owner = owner.now; group = group.now }) }
{
    let owner = owner.clone()?;
    let group = group.clone()?;
    Ok(Standing { owner, group })
}

fn list_answer(
    alloc: Global,
    entries: &[Entry],
    subject: &Subject,
    standing: &Standing,
    mask: Mask,
) -> Result<Vec<u8>, AllocError>
    ensures { IfOk result (λ text.
        text.items ≡ rights_text entries.now subject.now standing.now mask) }
{
    let allowed = mask.bits() & allowed_bits(entries, subject, standing).bits();
    let bit = bit_of(decide(entries, subject, standing, mask));
    allowed_text(alloc, allowed, bit)
}

fn entries_text(alloc: Global, entries: &[Entry]) -> Result<Vec<u8>, AllocError>
    ensures { IfOk result (λ text. text.items ≡ compact_text (entries_data entries.now)) }
{
    let mut out = begun(alloc, size_of_entries(entries.len()))?;
    number_member(&mut out, "code", 0)?;
    entries_member(&mut out, entries)?;
    ended(out)
}

fn child_answer(alloc: Global, entries: &[Entry], kind: Kind) -> Result<Vec<u8>, AllocError>
    ensures { IfOk result (λ text. text.items ≡ child_text entries.now kind) }
{
    match check_own(entries, Kind::Folder) {
        Ok(()) => {
            let handed = hand_down(alloc, entries, kind)?;
            entries_text(alloc, &handed)
        }
        Err(fault) => refused_text(alloc, RefusalCode::of_list_fault(fault)),
    }
}

/// The text of the answer: of the first question which of the wanted bits are allowed, and the
/// lowest that is not or 0; of the second the fault of the entries, or what they hand down.
///
/// # Errors
///
/// Only where memory was refused.
pub fn check_answer(alloc: Global, question: &Question) -> Result<Vec<u8>, AllocError>
    ensures { IfOk result (λ text. text.items ≡ answer_text (question_model question.now)) }
{
    match question {
        Question::List {
            entries,
            group,
            groups,
            mask,
            owner,
            user,
        } => {
            let subject = subject_of(alloc, user, groups)?;
            let standing = standing_of(owner, group)?;
            list_answer(alloc, entries, &subject, &standing, *mask)
        }
        Question::Child { kind, entries } => child_answer(alloc, entries, *kind),
    }
}
