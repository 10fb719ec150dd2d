//! What is planned for a command: its reply, and whose entries it puts.
use crate::asking::{Asked, ask_of};
use crate::differences::Differences;
use crate::fault::Fault;
use crate::playing::Play;
use crate::puts::Puts;
use crate::scenes::Example;
use room_acl::Subject;
use room_records::{Change, Path, Shelf};
use room_tree::{Command, Outcome, node_at, plan};
use room_wire::{Event, reply_text};
use std::alloc::Global;

/// What is planned for a command.
#[derive(Drop)]
pub struct Planned {
    reply: Vec<u8>,
    /// The numbers of the objects whose entries are put.
    put: Vec<u32>,
    /// How many other changes there are, and how many the command may make.
    others: usize,
    most: usize,
}

fn numbers_put(alloc: Global, changes: &[Change]) -> Result<Vec<u32>, Fault> {
    let mut put = Vec::new(alloc);
    for change in changes {
        if let Change::PutEntries(id, _) = change {
            put.push(*id)?;
        }
    }
    Ok(put)
}

/// The most rows beside entries that a command changes: of a new object its own, the next number and a file's bytes.
fn most_rows(command: &Command) -> usize {
    match command {
        Command::Create { .. } => 3,
        Command::Mkdir { .. } => 2,
        Command::Write { .. }
        | Command::Append { .. }
        | Command::Remove { .. }
        | Command::Rename { .. }
        | Command::SetList { .. }
        | Command::Chown { .. } => 1,
        Command::Stat { .. }
        | Command::List { .. }
        | Command::Read { .. }
        | Command::GetList { .. }
        | Command::Access { .. } => 0,
    }
}

fn told(alloc: Global, command: &Command, outcome: &Outcome) -> Result<Planned, Fault> {
    let changes = outcome.changes.as_slice();
    let put = numbers_put(alloc, changes)?;
    Ok(Planned {
        reply: reply_text(alloc, &outcome.reply)?,
        others: changes.len().saturating_sub(put.len()),
        most: most_rows(command),
        put,
    })
}

fn outcome_of<S: Shelf>(
    alloc: Global,
    shelf: &mut S,
    subject: &Subject,
    command: &Command,
) -> Result<Outcome, Fault> {
    match plan(alloc, shelf, subject, command) {
        Ok(outcome) => Ok(outcome),
        Err(_) => Err(Fault::Because("a command that was not planned")),
    }
}

fn plan_event<S: Shelf>(alloc: Global, shelf: &mut S, event: &Event) -> Result<Planned, Fault> {
    match event {
        Event::Slot {
            subject,
            command,
            ..
        } => {
            let outcome = outcome_of(alloc, shelf, subject, command)?;
            told(alloc, command, &outcome)
        }
        Event::Open { .. } | Event::Close { .. } => {
            Err(Fault::Because("'puts' below what is no command"))
        }
    }
}

/// What is planned for the command of a message.
pub fn plan_command<S: Shelf>(
    play: &Play<'_>,
    shelf: &mut S,
    sent: &[u8],
) -> Result<Planned, Fault> {
    match ask_of(play, sent) {
        Asked::Event(event) => plan_event(play.alloc, shelf, &event),
        Asked::Other(_) => Err(Fault::Because("'puts' below what is no command")),
    }
}

/// The number of the object at a path, where one is there.
fn number_at<S: Shelf>(play: &Play<'_>, shelf: &mut S, path: &str) -> Result<Option<u32>, Fault> {
    let Some(path) = Path::read(play.alloc, path)? else {
        return Ok(None);
    };
    match node_at(shelf, &path) {
        Ok(Some(node)) => Ok(Some(node.id)),
        Ok(None) => Ok(None),
        Err(_) => Err(Fault::Because("a node that was not read")),
    }
}

/// Tells where the entries of another number of objects were put.
fn expect_count(
    play: &Play<'_>,
    line: usize,
    count: usize,
    due: usize,
    differences: &mut Differences<'_>,
) -> Result<(), Fault> {
    if count == due {
        return Ok(());
    }
    let text = format!(in play.alloc; "entries of {count} objects are put")?;
    differences.tell(line, text.as_str())
}

/// Tells where the entries of the object at this path were not put.
fn expect_path<S: Shelf>(
    play: &Play<'_>,
    shelf: &mut S,
    line: usize,
    path: &str,
    put: &[u32],
    differences: &mut Differences<'_>,
) -> Result<(), Fault> {
    let is_put = match number_at(play, shelf, path)? {
        Some(id) => put.contains(&id),
        None => false,
    };
    if is_put {
        return Ok(());
    }
    let text = format!(in play.alloc; "no entries are put of {path}")?;
    differences.tell(line, text.as_str())
}

/// Compares the planned reply, and the number of other changes.
fn expect_outcome(
    example: &Example,
    planned: &Planned,
    differences: &mut Differences<'_>,
) -> Result<(), Fault> {
    let due = example.due.body.as_slice();
    differences.expect(example.line, planned.reply.as_slice(), due)?;
    if planned.others > planned.most {
        return differences.tell(example.line, "more other changes than the command may make");
    }
    Ok(())
}

/// Compares what was planned for a request, once it is done: its paths are those of then.
pub fn expect_planned<S: Shelf>(
    play: &Play<'_>,
    shelf: &mut S,
    example: &Example,
    puts: &Puts,
    planned: &Planned,
    differences: &mut Differences<'_>,
) -> Result<(), Fault> {
    let put = planned.put.as_slice();
    expect_outcome(example, planned, differences)?;
    expect_count(play, example.line, put.len(), puts.count, differences)?;
    for path in &puts.paths {
        expect_path(play, shelf, example.line, path.as_str(), put, differences)?;
    }
    Ok(())
}
