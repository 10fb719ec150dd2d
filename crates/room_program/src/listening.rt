//! Where connections come from, and what serves them.
ghost use Rattle.std.specs.Prelude.{◌≡◌, List, OnOk, OnErr};
ghost use Rattle.room_acl.specs.SubjectModel.{SubjectModel};
ghost use Rattle.room_program.specs.Calls.{Exchange, exchange};

use room_desk::Desk;
use room_records::{Roster, Shelf};
use room_wire::ServeEnd;
use std::io::{self, Read, Write};

/// What serves connections. A listener takes any, so that it can do nothing else with a connection than hand it over.
pub trait Server {
    /// A connection was served, to these users: what served it, as it was before, what went over the connection, and
    /// what served it, after.
    ghost serves: { List SubjectModel → Self → Exchange → Self → Type 0 };

    /// Serves what comes from a reader, and answers it to a writer.
    fn serve_connection<R: Read, W: Write>(
        &mut self,
        roster: &Roster,
        reader: &mut R,
        writer: &mut W,
    ) -> ServeEnd
        ensures { serves roster.now self.old (exchange (R.remaining reader.old) (R.remaining reader.new)
            (W.contents writer.old) (W.contents writer.new) result) self.new };
}

impl<S: Shelf> Server for Desk<S> {
    ghost use Rattle.room_program.specs.Streams.{Served};

    ghost serves = { λ users before e after. Served S.view users before e after };

    fn serve_connection<R: Read, W: Write>(
        &mut self,
        roster: &Roster,
        reader: &mut R,
        writer: &mut W,
    ) -> ServeEnd {
        self.serve(roster, reader, writer)
    }
}

/// What accepts connections. A run takes it as a value, so that its contract says how many connections it took, and of
/// each what went over it.
pub trait Listener {
    /// A connection was accepted, served and closed: what it was before, what went over the connection, and after.
    ghost accepts: { Self → Exchange → Self → Type 0 };

    /// A connection could not be accepted.
    ghost fails: { Self → Self → Type 0 };

    /// Waits for the next connection, if none was waited for already, has it served, however that ends, and closes it.
    /// Err where none can be accepted; then nothing is served.
    fn serve_next<V: Server>(&mut self, server: &mut V, roster: &Roster) -> io::Result<()>
        ensures ok { OnOk result ((e : Exchange) × accepts self.old e self.new
            × V.serves roster.now server.old e server.new) }
        ensures err { OnErr result (fails self.old self.new) }
        ensures unserved { OnErr result (server.new ≡ server.old) };
}
