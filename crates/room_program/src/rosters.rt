//! The roster in a file.
ghost use Rattle.std.specs.Prelude.{◌≡◌, ◌↔◌, string_bytes, option_map, Some, Ok, Err, None, IfOk, IfErr, IsTrue};
ghost use Rattle.room_program.specs.Files.{GivesRoster, TakesRoster};
ghost use Rattle.room_program.specs.Rolls.{Renews, Rereads, TakesRoll, roll};

use crate::fault::Fault;
use crate::machine::Machine;
use room_records::Roster;
use room_roster::{RosterFault, read_roster};
use std::alloc::Global;
use std::io::{self, ErrorKind};

/// The users whose messages count, and what the roster's file held as it was read last, where it could be read.
#[derive(Drop)]
pub(crate) struct RosterRead {
    pub(crate) roster: Roster,
    pub(crate) text: Option<String>,
}

/// The roster of a text.
fn roster_of(alloc: Global, text: &str) -> Result<Roster, Fault>
    ensures { GivesRoster text.now result }
{
    Ok(read_roster(alloc, text)?)
}

/// Reads the roster in the file at this path.
pub(crate) fn roster_at<C, M: Machine<C>>(
    alloc: Global,
    machine: &mut M,
    path: &str,
) -> Result<Roster, Fault>
    ensures { TakesRoster M.does path.now machine.old machine.new result }
{
    match machine.read_text(path) {
        Ok(text) => roster_of(alloc, text.as_str()),
        Err(error) if error.kind() == ErrorKind::OutOfMemory => Err(Fault::Memory),
        Err(_) => Err(Fault::CannotReadRoster),
    }
}

/// The roll of a text.
fn roll_of(alloc: Global, text: String) -> Result<RosterRead, Fault>
    ensures ok { IfOk result (λ r. GivesRoster (string_bytes text) (Ok r.roster)
        × (option_map string_bytes r.text ≡ Some (string_bytes text))) }
    ensures fault { IfErr result (λ why. GivesRoster (string_bytes text) (Err why)) }
{
    let roster = roster_of(alloc, text.as_str())?;
    Ok(RosterRead {
        roster,
        text: Some(text),
    })
}

/// Reads the roster's file for the first time.
pub(crate) fn roll_at<C, M: Machine<C>>(
    alloc: Global,
    machine: &mut M,
    path: &str,
) -> Result<RosterRead, Fault>
    ensures ok { IfOk result (λ r. TakesRoll M.does path.now machine.old machine.new
        (roll r.roster (option_map string_bytes r.text))) }
    ensures fault { IfErr result (λ why. TakesRoster M.does path.now machine.old machine.new (Err why)) }
{
    match machine.read_text(path) {
        Ok(text) => roll_of(alloc, text),
        Err(error) if error.kind() == ErrorKind::OutOfMemory => Err(Fault::Memory),
        Err(_) => Err(Fault::CannotReadRoster),
    }
}

/// Whether the file held this text as it was read last.
fn is_known(known: &RosterRead, text: &str) -> bool
    ensures { IsTrue result ↔ (Some text.now ≡ option_map string_bytes known.now.text) }
{
    match &known.text {
        Some(seen) => seen.as_str() == text,
        None => false,
    }
}

/// The roll after the file was read again, where it holds this text.
fn renew_by<C, M: Machine<C>>(
    alloc: Global,
    machine: &mut M,
    known: RosterRead,
    text: String,
) -> RosterRead
    ensures { Renews M.does (Some (string_bytes text)) (roll known.roster (option_map string_bytes known.text))
        (roll result.roster (option_map string_bytes result.text)) machine.old machine.new }
{
    if is_known(&known, text.as_str()) {
        return known;
    }
    match read_roster(alloc, text.as_str()) {
        Ok(roster) => RosterRead {
            roster,
            text: Some(text),
        },
        Err(RosterFault::Memory) => {
            machine.warn(Fault::Memory.line());
            known
        }
        Err(RosterFault::Bad) => {
            machine.warn(Fault::BadRoster.line());
            RosterRead {
                roster: known.roster,
                text: Some(text),
            }
        }
    }
}

/// The roll after the file could not be read again.
fn renew_unread<C, M: Machine<C>>(
    machine: &mut M,
    known: RosterRead,
    error: &io::Error,
) -> RosterRead
    ensures { Renews M.does None (roll known.roster (option_map string_bytes known.text))
        (roll result.roster (option_map string_bytes result.text)) machine.old machine.new }
{
    if known.text.is_none() {
        return known;
    }
    if error.kind() == ErrorKind::OutOfMemory {
        machine.warn(Fault::Memory.line());
        return known;
    }
    machine.warn(Fault::CannotReadRoster.line());
    RosterRead {
        roster: known.roster,
        text: None,
    }
}

/// Reads the roster's file again. Where it gives no roster, the users that counted go on to, and a line says why: once,
/// as long as the file holds the same.
pub(crate) fn renew<C, M: Machine<C>>(
    alloc: Global,
    machine: &mut M,
    path: &str,
    known: RosterRead,
) -> RosterRead
    ensures { Rereads M.does path.now (roll known.roster (option_map string_bytes known.text))
        (roll result.roster (option_map string_bytes result.text)) machine.old machine.new }
{
    match machine.read_text(path) {
        Ok(text) => renew_by(alloc, machine, known, text),
        Err(error) => renew_unread(machine, known, &error),
    }
}
