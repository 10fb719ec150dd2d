//! What a run asks of the machine that it runs on, beside its three streams.
ghost use Rattle.std.specs.Prelude.{string_bytes, vec_items};
ghost use Rattle.room_program.specs.Machines.{Call, answer, given_up, is_done, text_answer};
ghost use Rattle.room_program.specs.Machines.Call.{reads, looks, opens, listens, waits, warns, asks, hears};

use sqlite::Error;
use std::io;

/// The machine's files and sockets, as a run sees them; `C` are connections to stores. A run takes
/// it as a value, so that its contract says which calls it made, in their order, and what they were
/// answered. Connections that are listened for come as by `Listener`.
pub trait Machine<C> {
    /// A call was made: the machine before it, the call with its answer, and the machine after it.
    ghost does: { Self → Call C → Self → Type 0 };

    /// Reads the file at this path as UTF-8 text.
    fn read_text(&mut self, path: &str) -> io::Result<String>
        ensures read { does self.old (reads path.now (text_answer string_bytes result)) self.new };

    /// Whether a file with bytes in it is at this path.
    fn is_begun(&mut self, path: &str) -> io::Result<bool>
        ensures looked { does self.old (looks path.now (answer result)) self.new };

    /// Opens the store at this path, or makes it.
    fn open(&mut self, path: &str) -> Result<C, Error>
        ensures opened { does self.old (opens path.now result) self.new };

    /// Gives a store up. Where it `copies`, the store is closed, so that the log beside its file is copied into it;
    /// where that fails, both files together hold what was written. Else the log stays beside its file as it is.
    fn give_up(&mut self, connection: C, copies: bool)
        ensures given_up { does self.old (given_up copies connection) self.new };

    /// Listens on this port of 127.0.0.1.
    fn listen(&mut self, port: u16) -> io::Result<()>
        ensures bound { does self.old (listens port (is_done result)) self.new };

    /// Waits until a connection comes, which `Listener::serve_next` then serves.
    fn wait_next(&mut self) -> io::Result<()>
        ensures waited { does self.old (waits (is_done result)) self.new };

    /// Shows a line to whoever runs the program.
    fn warn(&mut self, line: &str)
        ensures warned { does self.old (warns line.now) self.new };

    /// Listens on a free port of 127.0.0.1, where it listens for nothing yet, makes a connection to it, and sends it
    /// these bytes and no more. The connection that was made before is closed.
    fn ask(&mut self, requests: &str) -> io::Result<()>
        ensures asked { does self.old (asks requests.now (is_done result)) self.new };

    /// All that the connection made last is answered, up to its end.
    fn hear(&mut self) -> io::Result<Vec<u8>>
        ensures heard { does self.old (hears (text_answer vec_items result)) self.new };
}
