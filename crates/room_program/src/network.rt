//! Serving a room over connections.
ghost use Rattle.std.specs.Prelude.{◌≡◌, IfOk, OnOk, OnErr, option_map, string_bytes};
ghost use Rattle.room_program.specs.Calls.{Exchange, IsUnknown, ServesEach, ServesFewer};
ghost use Rattle.room_program.specs.Rolls.{Comes, Misses, Roll, ServedTo, Visit, roll};
ghost use Rattle.room_program.specs.Streams.{Served};

use crate::listening::{Listener, Server};
use crate::machine::Machine;
use crate::rosters::{RosterRead, renew};
use room_desk::Desk;
use room_records::{Roster, Shelf};
use room_wire::Why;
use std::alloc::Global;
use std::io::{self, ErrorKind, Read};
use std::net::{Shutdown, TcpListener, TcpStream};
use std::time::Duration;

/// How many pieces of what a peer still sends are read before its connection is closed.
const LAST_READS: u32 = 32;

/// How long each of them is waited for, in milliseconds.
const LAST_WAIT: u64 = 250;

/// How long a read or a write of a connection waits for its peer, in seconds.
const LONGEST_WAIT: u64 = 60;

/// Bounds each wait for the peer. False where the system refuses that.
fn limit_waits(stream: &TcpStream) -> bool {
    let most = Some(Duration::from_secs(LONGEST_WAIT));
    stream.set_read_timeout(most).is_ok() && stream.set_write_timeout(most).is_ok()
}

/// Waits for a connection whose waits have a bound: one for which the system refuses that is closed, and not counted.
pub(crate) fn accept(listener: &TcpListener) -> io::Result<TcpStream> {
    for stream in listener.incoming() {
        let stream = stream?;
        if limit_waits(&stream) {
            // An answer goes out at once, not with the next one.
            let _ = stream.set_nodelay(true);
            return Ok(stream);
        }
    }
    Err(io::Error::from(ErrorKind::NotConnected))
}

/// Ends the writing, and takes what the peer still sends, up to a bound. A connection that is closed
/// over unread bytes may lose answers on their way.
fn finish(stream: &TcpStream) {
    if stream.shutdown(Shutdown::Write).is_err()
        || stream
            .set_read_timeout(Some(Duration::from_millis(LAST_WAIT)))
            .is_err()
    {
        return;
    }
    let mut rest = [0; 8192];
    for _ in 0..LAST_READS {
        match (&mut &*stream).read(&mut rest) {
            Ok(0) | Err(_) => return,
            Ok(_) => {}
        }
    }
}

/// Has a connection served, however that ends, and closes it.
pub(crate) fn serve_stream<V: Server>(stream: TcpStream, server: &mut V, roster: &Roster)
    ensures { (e : Exchange) × IsUnknown e × V.serves roster.now server.old e server.new }
{
    let end = server.serve_connection(roster, &mut &stream, &mut &stream);
    match end.why {
        Why::BadMessage => finish(&stream),
        // Its peer said that it sends no more: nothing is waited for, and the next connection is taken.
        Why::Closed => {
            let _ = stream.shutdown(Shutdown::Write);
        }
        _ => {}
    }
}

/// Of a connection of the system no byte is known; that it was served, once, is. Where the peer neither sends nor takes
/// anything for a minute, it ends as after a failed read or write: what was read of the next message so far changes
/// nothing.
impl Listener for TcpListener {
    ghost use Rattle.std.specs.Prelude.{⊤};

    ghost accepts = { λ _ e _. IsUnknown e };

    ghost fails = { λ _ _. ⊤ };

    fn serve_next<V: Server>(&mut self, server: &mut V, roster: &Roster) -> io::Result<()> {
        serve_stream(accept(self)?, server, roster);
        Ok(())
    }
}

/// Serves `count` connections, one after another. One that ends badly does not end it: an error
/// comes only where a connection can't be accepted, and Ok only after that many were. However it
/// ends, what went over each connection are messages and their answers, as `Desk::serve` has it.
pub fn serve_listener<S: Shelf, L: Listener>(
    listener: &mut L,
    desk: &mut Desk<S>,
    roster: &Roster,
    count: u32,
) -> io::Result<()>
    ensures served { OnOk result (ServesEach L.accepts (Served S.view roster.now) count
        listener.old listener.new desk.old desk.new) }
    ensures fewer { OnErr result (ServesFewer L.accepts L.fails (Served S.view roster.now) count
        listener.old listener.new desk.old desk.new) }
{
    for served in 0..count {
        listener.serve_next(desk, roster)?;
    }
    Ok(())
}

/// Waits for a connection, reads the roster's file at `path` again, and has the connection served to the users that it
/// gives, or gave before, where it gives none now. Err where no connection can be accepted; then nothing is served.
fn accept_one<C, S: Shelf, M: Machine<C> + Listener>(
    alloc: Global,
    machine: &mut M,
    desk: &mut Desk<S>,
    path: &str,
    known: RosterRead,
) -> io::Result<RosterRead>
    ensures served { IfOk result (λ after. (v : Visit) × Comes M.does M.accepts path.now
        (machine.old, roll known.roster (option_map string_bytes known.text)) v
        (machine.new, roll after.roster (option_map string_bytes after.text)) × ServedTo S.view desk.old v desk.new) }
    ensures missed { OnErr result ((last : Roll) × Misses M.does M.fails path.now
        (machine.old, roll known.roster (option_map string_bytes known.text)) (machine.new, last)) }
    ensures unserved { OnErr result (desk.new ≡ desk.old) }
{
    machine.wait_next()?;
    let after = renew(alloc, machine, path, known);
    machine.serve_next(desk, &after.roster)?;
    Ok(after)
}

/// Serves `count` connections, one after another, each as `accept_one` does.
pub(crate) fn accept_each<C, S: Shelf, M: Machine<C> + Listener>(
    alloc: Global,
    machine: &mut M,
    desk: &mut Desk<S>,
    path: &str,
    first: RosterRead,
    count: u32,
) -> io::Result<()>
    ensures served { OnOk result ((last : Roll) × ServesEach (Comes M.does M.accepts path.now) (ServedTo S.view) count
        (machine.old, roll first.roster (option_map string_bytes first.text)) (machine.new, last) desk.old desk.new) }
    ensures fewer { OnErr result ((last : Roll) × ServesFewer (Comes M.does M.accepts path.now)
        (Misses M.does M.fails path.now) (ServedTo S.view) count
        (machine.old, roll first.roster (option_map string_bytes first.text)) (machine.new, last) desk.old desk.new) }
{
    let mut known = first;
    for taken in 0..count {
        known = accept_one(alloc, machine, desk, path, known)?;
    }
    Ok(())
}
