//! Trying a room in memory over sockets to itself.
ghost use Rattle.std.specs.Prelude.{◌≡◌, ◌↔◌, IfErr, IsTrue};
ghost use Rattle.room_program.specs.Ends.{AcceptsTwo, IsAnswered, IsSelftestFault, SelftestEnds, Talks, due_answers};

use crate::fault::Fault;
use crate::listening::Listener;
use crate::machine::Machine;
use crate::names::standing;
use crate::network::serve_listener;
use crate::replaying::fresh_desk;
use room_desk::Desk;
use room_records::{MemShelf, Roster};
use room_roster::{RosterFault, read_roster};
use std::alloc::Global;

const ROSTER: &str = "[users]\nann = [\"eng\"]\nbob = [\"eng\", \"staff\"]\neng = []\n";

/// OPEN and MKDIR.
const FIRST: &str = "POST /v1/sessions/0123456789abcdef0123456789abcdef HTTP/1.1\r\n\
room-user: ann\r\ncontent-length: 11\r\n\r\n{\"slots\":3}\
POST /v1/sessions/0123456789abcdef0123456789abcdef/slots/0/1 HTTP/1.1\r\n\
room-user: ann\r\ncontent-length: 31\r\n\r\n{\"cmd\":\"MKDIR\",\"path\":\"/plans\"}";

/// The same MKDIR again, and LIST of the root, the last message.
const SECOND: &str = "POST /v1/sessions/0123456789abcdef0123456789abcdef/slots/0/1 HTTP/1.1\r\n\
room-user: ann\r\ncontent-length: 31\r\n\r\n{\"cmd\":\"MKDIR\",\"path\":\"/plans\"}\
POST /v1/sessions/0123456789abcdef0123456789abcdef/slots/1/1 HTTP/1.1\r\n\
room-user: ann\r\nconnection: close\r\ncontent-length: 25\r\n\r\n{\"cmd\":\"LIST\",\"path\":\"/\"}";

/// What these two are answered.
const ANSWERS: &str = "HTTP/1.1 200 OK\r\ncontent-type: application/json\r\n\
content-length: 10\r\n\r\n{\"code\":0}\
HTTP/1.1 200 OK\r\ncontent-type: application/json\r\ncontent-length: 39\r\n\
connection: close\r\n\r\n{\"code\":0,\"names\":[[\"plans\",\"folder\"]]}";

fn users(alloc: Global) -> Result<Roster, Fault>
    ensures { IfErr result IsSelftestFault }
{
    match read_roster(alloc, ROSTER) {
        Ok(roster) => Ok(roster),
        Err(RosterFault::Memory) => Err(Fault::Memory),
        Err(RosterFault::Bad) => Err(Fault::SelftestFailed),
    }
}

fn desk(alloc: Global) -> Result<Desk<MemShelf>, Fault>
    ensures { IfErr result IsSelftestFault }
{
    match standing(alloc, "ann", "eng") {
        Ok(standing) => fresh_desk(alloc, standing),
        Err(Fault::Memory) => Err(Fault::Memory),
        Err(_) => Err(Fault::SelftestFailed),
    }
}

/// Whether these are the answers that are due.
fn is_due(answers: &[u8]) -> bool
    ensures { IsTrue result ↔ (answers.now ≡ due_answers) }
{
    answers == ANSWERS.as_bytes()
}

/// Err unless the connection made last got the answers that are due, and no more.
fn need_due_answers<C, M: Machine<C> + Listener>(machine: &mut M) -> Result<(), Fault>
    ensures { IsAnswered M.does machine.old machine.new result }
{
    match machine.hear() {
        Ok(answers) if is_due(answers.as_slice()) => Ok(()),
        _ => Err(Fault::SelftestFailed),
    }
}

/// Serves two connections over the desk.
fn serve_two<L: Listener>(
    listener: &mut L,
    desk: &mut Desk<MemShelf>,
    roster: &Roster,
) -> Result<(), Fault>
    ensures { AcceptsTwo L.accepts L.fails listener.old listener.new result }
{
    match serve_listener(listener, desk, roster, 2) {
        Ok(()) => Ok(()),
        Err(_) => Err(Fault::SelftestFailed),
    }
}

/// Two clients, and then the server's end of both. The first is gone before it is served, so that it takes no answer;
/// what it asked was done once.
fn talk<C, M: Machine<C> + Listener>(
    machine: &mut M,
    desk: &mut Desk<MemShelf>,
    roster: &Roster,
) -> Result<(), Fault>
    ensures { Talks M.does M.accepts M.fails machine.old machine.new result }
{
    let Ok(()) = machine.ask(FIRST) else {
        return Err(Fault::SelftestFailed);
    };
    let Ok(()) = machine.ask(SECOND) else {
        return Err(Fault::SelftestFailed);
    };
    serve_two(machine, desk, roster)?;
    need_due_answers(machine)
}

/// Asks a fresh room in memory over sockets to itself, one end after the other.
pub(crate) fn selftest<C, M: Machine<C> + Listener>(
    alloc: Global,
    machine: &mut M,
) -> Result<(), Fault>
    ensures { SelftestEnds M.does M.accepts M.fails machine.old machine.new result }
{
    let roster = users(alloc)?;
    let mut desk = desk(alloc)?;
    let tried = talk(machine, &mut desk, &roster);
    let _ = desk.into_shelf();
    tried
}
