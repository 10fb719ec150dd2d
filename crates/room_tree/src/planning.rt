//! What a command changes and replies.
ghost use Rattle.std.specs.Prelude.{◌≡◌, ◌+◌, ◌≤◌, [], IfOk};
ghost use Rattle.room_records.specs.Mem.{AreSameChanges};
ghost use Rattle.room_records.specs.Shelf.{ShelfRead, fault_in};
ghost use Rattle.room_commands.specs.CommandModel.{command_model};
ghost use Rattle.room_records.specs.Room.{Room};
ghost use Rattle.room_records.specs.Representation.{RepresentsRoom};
ghost use Rattle.room_tree.specs.Asks.{BoundedBy};
ghost use Rattle.room_tree.specs.LoadedObjects.{OfRoom};
ghost use Rattle.room_tree.specs.Plans.{OnlyReads, Plans, PlansEffect};
ghost use Rattle.room_tree.specs.Stops.{stop_fault};
ghost use Rattle.room_commands.specs.ReplyModel.{reply_model, NotDone};

use crate::changing::{plan_append, plan_chown, plan_write};
use crate::making::{plan_create, plan_mkdir};
use crate::moving::plan_rename;
use crate::reading::{plan_access, plan_getlist, plan_list, plan_read, plan_stat};
use crate::refusal::{Refusal, Stop};
use crate::removing::plan_remove;
use crate::setlist::plan_setlist;
use room_acl::Subject;
use room_commands::{Command, Reply};
use room_records::{Change, Shelf, ShelfFault};
use std::alloc::{AllocError, Global};

/// What a command comes to.
#[derive(Debug, Drop)]
pub struct Outcome {
    pub changes: Vec<Change>,
    pub reply: Reply,
}

impl Outcome {
    /// A copy of the outcome: as many changes, each of which does the
    /// same to all records. `AllocError` where memory is refused.
    pub fn clone(&self) -> Result<Outcome, AllocError>
        ensures changes { IfOk result (λ copy. AreSameChanges copy.changes.items self.now.changes.items) }
        ensures reply { IfOk result (λ copy. reply_model copy.reply ≡ reply_model self.now.reply) }
    {
        let changes = copy_changes(*self.changes.allocator(), &self.changes)?;
        Ok(Outcome {
            changes,
            reply: self.reply.clone()?,
        })
    }

    /// A refusal changes nothing.
    pub(crate) fn refused(alloc: Global, refusal: Refusal) -> Outcome
        ensures none { result.changes.items ≡ [] }
        ensures reply { reply_model result.reply ≡ NotDone refusal }
    {
        Outcome {
            changes: Vec::new(alloc),
            reply: Reply::Refused {
                code: refusal.code,
                place: refusal.place,
            },
        }
    }

    /// A command that only reads changes nothing.
    pub(crate) fn reading(alloc: Global, reply: Reply) -> Outcome
        ensures none { result.changes.items ≡ [] }
        ensures reply { reply_model result.reply ≡ reply_model reply }
    {
        Outcome {
            changes: Vec::new(alloc),
            reply,
        }
    }
}

fn copy_changes(alloc: Global, changes: &[Change]) -> Result<Vec<Change>, AllocError>
    ensures { IfOk result (λ copy. AreSameChanges copy.items changes.now) }
{
    let mut copy = Vec::new(alloc);
    for change in changes {
        let step = change.clone(alloc)?;
        copy.push(step)?;
    }
    Ok(copy)
}

/// What a command changes and replies, or why it is not planned.
fn plan_or_stop<S: Shelf>(
    alloc: Global,
    shelf: &mut S,
    subject: &Subject,
    command: &Command,
) -> Result<Outcome, Stop>
    ensures effect { OfRoom (S.view shelf.old) (S.view shelf.new)
        (λ t room. Plans t room subject.now (command_model command.now) result) }
    ensures reads { OnlyReads (command_model command.now) → IfOk result (λ outcome. outcome.changes.items ≡ []) }
    ensures frame { ShelfRead (S.view shelf.old) (S.view shelf.new) (stop_fault result) }
    ensures asks { BoundedBy (S.view shelf.old) (S.view shelf.new) (command_model command.now)
        (λ most. S.calls_left shelf.old ≤ S.calls_left shelf.new + most) }
{
    match command {
        Command::Stat { path } => plan_stat(alloc, shelf, subject, path),
        Command::List { path } => plan_list(alloc, shelf, subject, path),
        Command::Mkdir { path } => plan_mkdir(alloc, shelf, subject, path),
        Command::Create { bytes, path } => {
            plan_create(alloc, shelf, subject, bytes.as_slice(), path)
        }
        Command::Read { path } => plan_read(alloc, shelf, subject, path),
        Command::Write { bytes, path } => {
            plan_write(alloc, shelf, subject, bytes.as_slice(), path)
        }
        Command::Append { bytes, path } => {
            plan_append(alloc, shelf, subject, bytes.as_slice(), path)
        }
        Command::Remove { path } => plan_remove(alloc, shelf, subject, path),
        Command::Rename { path, to } => plan_rename(alloc, shelf, subject, path, to),
        Command::GetList { path } => plan_getlist(alloc, shelf, subject, path),
        Command::SetList {
            aclflag,
            entries,
            path,
        } => plan_setlist(alloc, shelf, subject, *aclflag, entries.as_slice(), path),
        Command::Chown { group, owner, path } => {
            plan_chown(alloc, shelf, subject, group, owner, path)
        }
        Command::Access { mask, path } => plan_access(alloc, shelf, subject, *mask, path),
    }
}

/// Plans a command over the rows of a room, and leaves them as they are.
pub fn plan<S: Shelf>(
    alloc: Global,
    shelf: &mut S,
    subject: &Subject,
    command: &Command,
) -> Result<Outcome, ShelfFault>
    ensures effect { (S.view shelf.new).is_available → (S.view shelf.old).is_laid_out
        → (room : Room) → RepresentsRoom (S.view shelf.old).records.objects room →
        IfOk result (PlansEffect (S.view shelf.old).records.objects room subject.now (command_model command.now)) }
    ensures reads { OnlyReads (command_model command.now) → IfOk result (λ outcome. outcome.changes.items ≡ []) }
    ensures frame { ShelfRead (S.view shelf.old) (S.view shelf.new) (fault_in result) }
    ensures asks { BoundedBy (S.view shelf.old) (S.view shelf.new) (command_model command.now)
        (λ most. S.calls_left shelf.old ≤ S.calls_left shelf.new + most) }
{
    match plan_or_stop(alloc, shelf, subject, command) {
        Ok(outcome) => Ok(outcome),
        Err(stop) => match stop {
            Stop::Refused(refusal) => Ok(Outcome::refused(alloc, refusal)),
            Stop::Shelf(fault) => Err(fault),
        },
    }
}
