//! Commands that change one object where it stands.
ghost use Rattle.std.specs.Prelude.{◌≡◌, ◌≢◌, ◌+◌, ◌*◌, ◌<◌, ◌≤◌, ◌^◌, ◌++◌, [], ◌∷◌, length, Some, IfOk};
ghost use Rattle.room_records.specs.Shelf.{ShelfRead};
ghost use Rattle.room_records.specs.declared.shelf.ShelfFault.TheVariants.{Store};
ghost use Rattle.room_commands.specs.Checks.{check_size};
ghost use Rattle.room_commands.specs.CommandModel as C;
ghost use Rattle.room_tree.specs.LoadedObjects.{OfRoom, node_of};
ghost use Rattle.room_tree.specs.Plans.{Plans};
ghost use Rattle.room_tree.specs.Stops.{Passes, refusal_in, stop_fault};
ghost use Rattle.room_commands.specs.ReplyModel.{reply_model, Size, Done};

use crate::loaded::LoadedObject;
use crate::planning::Outcome;
use crate::reaching::{as_size, bytes_of, reach_to_use};
use crate::refusal::{Refusal, Stop};
use room_acl::{Kind, Mask, Principal, Subject};
use room_commands::{RefusalCode, Reply};
use room_records::{Change, MAX_DOCUMENT, Node, Path, Shelf};
use std::alloc::{AllocError, Global};

/// Whether a document would have too many bytes.
pub(crate) fn check_size(size: u64) -> Result<(), Refusal>
    ensures { refusal_in result ≡ check_size size }
{
    if size > MAX_DOCUMENT {
        Err(Refusal::of(RefusalCode::FBig))
    } else {
        Ok(())
    }
}

/// One change, and what it replies.
pub(crate) fn one_change(alloc: Global, change: Change, reply: Reply) -> Result<Outcome, AllocError>
    ensures changes { IfOk result (λ outcome. outcome.changes.items ≡ change ∷ []) }
    ensures reply { IfOk result (λ outcome. outcome.reply ≡ reply) }
{
    let mut changes = Vec::new(alloc);
    changes.push(change)?;
    Ok(Outcome { changes, reply })
}

/// A document with these bytes.
fn with_document(alloc: Global, id: u32, bytes: Vec<u8>) -> Result<Outcome, AllocError>
    ensures changes { IfOk result (λ outcome. outcome.changes.items ≡ Change.PutDoc id bytes ∷ []) }
    ensures reply { IfOk result (λ outcome. length bytes.items < 2 ^ 32
        → reply_model outcome.reply ≡ Size (length bytes.items)) }
{
    let size = as_size(bytes.len() as u64);
    one_change(alloc, Change::PutDoc(id, bytes), Reply::Size(size))
}

/// WRITE: the whole document becomes these bytes.
pub(crate) fn plan_write<S: Shelf>(
    alloc: Global,
    shelf: &mut S,
    subject: &Subject,
    bytes: &[u8],
    path: &Path,
) -> Result<Outcome, Stop>
    ensures effect { OfRoom (S.view shelf.old) (S.view shelf.new)
        (λ t room. Plans t room subject.now (C.Write bytes.now path.now) result) }
    ensures frame { ShelfRead (S.view shelf.old) (S.view shelf.new) (stop_fault result) }
    ensures asks { S.calls_left shelf.old ≤ S.calls_left shelf.new + 2 * length path.now + 5 }
{
    let loaded = reach_to_use(
        alloc,
        shelf,
        subject,
        path,
        Some(Kind::File),
        Mask::WRITE_DATA,
    )?;
    check_size(bytes.len() as u64)?;
    let copy = bytes.to_vec(alloc)?;
    let outcome = with_document(alloc, loaded.id, copy)?;
    Ok(outcome)
}

/// The bytes of both, where they are not too many for a document.
fn appended(mut old: Vec<u8>, more: &[u8]) -> Result<Vec<u8>, Stop>
    ensures value { Passes (check_size (length old.items + length more.now))
        (λ all. all.items ≡ old.items ++ more.now) result }
    ensures quiet { stop_fault result ≢ Some Store }
{
    check_size(old.len() as u64 + more.len() as u64)?;
    old.extend_from_slice(more)?;
    Ok(old)
}

/// APPEND: these bytes come behind those of the document.
pub(crate) fn plan_append<S: Shelf>(
    alloc: Global,
    shelf: &mut S,
    subject: &Subject,
    bytes: &[u8],
    path: &Path,
) -> Result<Outcome, Stop>
    ensures effect { OfRoom (S.view shelf.old) (S.view shelf.new)
        (λ t room. Plans t room subject.now (C.Append bytes.now path.now) result) }
    ensures frame { ShelfRead (S.view shelf.old) (S.view shelf.new) (stop_fault result) }
    ensures asks { S.calls_left shelf.old ≤ S.calls_left shelf.new + 2 * length path.now + 5 }
{
    let loaded = reach_to_use(
        alloc,
        shelf,
        subject,
        path,
        Some(Kind::File),
        Mask::APPEND_DATA,
    )?;
    let old = bytes_of(shelf, &loaded)?;
    let all = appended(old, bytes)?;
    let outcome = with_document(alloc, loaded.id, all)?;
    Ok(outcome)
}

/// The row of a found object with another owner and group.
fn with_standing(
    loaded: LoadedObject,
    owner: &Principal,
    group: &Principal,
) -> Result<Node, AllocError>
    ensures { IfOk result (λ node. node ≡ record (node_of loaded) { owner = owner.now; group = group.now }) }
{
    let owner = owner.clone()?;
    let group = group.clone()?;
    Ok(Node {
        id: loaded.id,
        parent: loaded.parent,
        name: loaded.name,
        kind: loaded.kind,
        owner,
        group,
        aclflag: loaded.aclflag,
    })
}

/// CHOWN: another owner and group. No entry changes.
pub(crate) fn plan_chown<S: Shelf>(
    alloc: Global,
    shelf: &mut S,
    subject: &Subject,
    group: &Principal,
    owner: &Principal,
    path: &Path,
) -> Result<Outcome, Stop>
    ensures effect { OfRoom (S.view shelf.old) (S.view shelf.new)
        (λ t room. Plans t room subject.now (C.Chown group.now owner.now path.now) result) }
    ensures frame { ShelfRead (S.view shelf.old) (S.view shelf.new) (stop_fault result) }
    ensures asks { S.calls_left shelf.old ≤ S.calls_left shelf.new + 2 * length path.now + 5 }
{
    let loaded = reach_to_use(alloc, shelf, subject, path, None, Mask::WRITE_OWNER)?;
    let node = with_standing(loaded, owner, group)?;
    let outcome = one_change(alloc, Change::PutNode(node), Reply::Done)?;
    Ok(outcome)
}
