//! The machine that the program runs on.
ghost use Rattle.std.specs.Prelude.{◌≡◌, [], ◌∷◌, true};
ghost use Rattle.std.specs.Net.Addr.{ipv4_octets};
ghost use Rattle.std.specs.Net.Socket.{v4_ip, v4_port};
ghost use Rattle.sqlite.specs.WalFiles.{image_at};
ghost use Rattle.room_program.specs.Machines.Call.{closes, leaves, opens};
ghost use Rattle.room_program.specs.Found.{ActsOn};

use crate::left::{Left, closed_off, store_in};
use crate::listening::{Listener, Server};
use crate::machine::Machine;
use crate::network::{accept, serve_stream};
use room_records::{Roster, write_whole};
use sqlite::{Connection, Error, ErrorCode, FileFrom, FileStore, Start};
use sqlite_disk::Disk;
use std::fs::{self, File};
use std::io::{self, ErrorKind, Read, Write};
use std::net::{Ipv4Addr, Shutdown, SocketAddrV4, TcpListener, TcpStream};

/// Bytes in a file of text. It is our own rule, and far above what a roster needs.
const MAX_TEXT: u64 = 16_777_216;

/// A connection to a file and its log, where `S` stands for what the two held as they were opened.
pub type FileConnection<S> = Connection<FileStore<FileFrom<S>>>;

/// The files and sockets of the system. A store that is opened finds what `S` says that its files held, while the disk
/// returns what was written, and where none is to be had in them, they hold that still; a close leaves its last commit
/// in them, and where the log could not be copied, or the store is let go, nothing more is committed. No other contract
/// says what a file or a socket gives.
///
/// No contract can say which file a call of the system reaches, nor who else does. So these methods are to be read for
/// it: that `open` hands on its path, as the other two hand on theirs, and a store that was opened; that nothing here
/// writes a file but the store, nor removes one; and that `listen` listens at `local` alone, and `serve_next` has
/// served what comes there: the connection that `wait_next` took, before any other.
pub type Host<'a, S> = HostOver<'a, S, FileFrom<S>>;

/// The same, where `D` is the type of the store's two files.
#[derive(Drop)]
pub struct HostOver<'a, S: Start, D: Disk> {
    rt: &'a HostRuntime,
    /// It stands for the files of one path, so it is used up as they are opened.
    start: Option<S>,
    listener: Option<TcpListener>,
    /// The connection that was waited for, until it is served.
    came: Option<TcpStream>,
    /// The connection that it made last, to itself.
    client: Option<TcpStream>,
    left: Left<D>,
}

impl<'a, S: Start, D: Disk> HostOver<'a, S, D> {
    /// The system of this runtime. It opens one store, whose files hold what `start` stands for, and listens for
    /// nothing yet. Of a write that a crash cuts the store supposes that each byte below the last flushed length is
    /// the old or the new one, so that most commits flush once.
    pub fn new(rt: &'a HostRuntime, start: S) -> HostOver<'a, S, D>
        requires { S.Start.is_mixing ≡ true }
        ensures { result.left ≡ Left.Nothing }
    {
        HostOver {
            rt,
            start: Some(start),
            listener: None,
            came: None,
            client: None,
            left: Left::Nothing,
        }
    }
}

/// This port of 127.0.0.1.
fn local(port: u16) -> SocketAddrV4
    ensures ip { ipv4_octets (v4_ip result) ≡ 127 ∷ 0 ∷ 0 ∷ 1 ∷ [] }
    ensures port { v4_port result ≡ port }
{
    SocketAddrV4::new(Ipv4Addr::LOCALHOST, port)
}

/// The text of the file at this path. What is no file is not opened: an open of a pipe may wait for ever.
fn text_at(rt: &HostRuntime, path: &str) -> io::Result<String> {
    if !fs::metadata(rt, path)?.is_file() {
        return Err(io::Error::from(ErrorKind::InvalidInput));
    }
    let mut text = String::new(rt.alloc());
    let read = File::open(rt, path)?
        .take(MAX_TEXT + 1)
        .read_to_string(&mut text)?;
    if read as u64 > MAX_TEXT {
        return Err(io::Error::from(ErrorKind::InvalidData));
    }
    Ok(text)
}

/// Opens a store, or tells what is left of its files once they were opened, and else what was left before.
fn open<S: Start>(
    rt: &HostRuntime,
    path: &str,
    start: S,
    left: &mut Left<FileFrom<S>>,
) -> Result<FileConnection<S>, Error>
    ensures { ActsOn (image_at S.Start) (opens path.now result) left.old left.new }
{
    match Connection::open_from(rt, path, false, start) {
        Ok(connection) => Ok(connection),
        Err((error, None)) => Err(error),
        Err((error, Some(rest))) => {
            *left = Left::Unopened(rest);
            Err(error)
        }
    }
}

/// Closes a store.
fn close<S: Start>(connection: FileConnection<S>) -> Left<FileFrom<S>>
    ensures { ActsOn (image_at S.Start) (closes connection) Left.Nothing result }
{
    closed_off(connection)
}

/// Takes a store out of its connection, and copies nothing.
fn keep<S: Start>(connection: FileConnection<S>) -> Left<FileFrom<S>>
    ensures { ActsOn (image_at S.Start) (leaves connection) Left.Nothing result }
{
    Left::Kept(store_in(connection))
}

impl<'a, S: Start> Machine<FileConnection<S>> for Host<'a, S> {
    ghost use Rattle.sqlite.specs.WalFiles.{image_at};
    ghost use Rattle.room_program.specs.Found.{ActsOn};

    ghost does = { λ old call new. ActsOn (image_at S.Start) call old.left new.left };

    fn read_text(&mut self, path: &str) -> io::Result<String> {
        text_at(self.rt, path)
    }

    fn is_begun(&mut self, path: &str) -> io::Result<bool> {
        match fs::metadata(self.rt, path) {
            Ok(found) => Ok(found.len() > 0),
            Err(error) if error.kind() == ErrorKind::NotFound => Ok(false),
            Err(error) => Err(error),
        }
    }

    fn open(&mut self, path: &str) -> Result<FileConnection<S>, Error> {
        let Some(start) = self.start.take() else {
            return Err(Error::SqliteFailure(ErrorCode::CannotOpen));
        };
        open(self.rt, path, start, &mut self.left)
    }

    fn give_up(&mut self, connection: FileConnection<S>, copies: bool) {
        if copies {
            self.left = close(connection);
        } else {
            self.left = keep(connection);
        }
    }

    fn listen(&mut self, port: u16) -> io::Result<()> {
        self.listener = Some(TcpListener::bind(self.rt, local(port))?);
        Ok(())
    }

    fn wait_next(&mut self) -> io::Result<()> {
        let Some(listener) = &self.listener else {
            return Err(io::Error::from(ErrorKind::NotConnected));
        };
        self.came = Some(accept(listener)?);
        Ok(())
    }

    fn warn(&mut self, line: &str) {
        // With standard error gone there is nobody left to tell.
        let _ = write_whole(&mut self.rt.stderr(), line.as_bytes());
    }

    fn ask(&mut self, requests: &str) -> io::Result<()> {
        self.client = None;
        if self.listener.is_none() {
            self.listen(0)?;
        }
        let Some(listener) = &self.listener else {
            return Err(io::Error::from(ErrorKind::NotConnected));
        };
        let mut client = TcpStream::connect(self.rt, listener.local_addr()?)?;
        client.write_all(requests.as_bytes())?;
        client.shutdown(Shutdown::Write)?;
        self.client = Some(client);
        Ok(())
    }

    fn hear(&mut self) -> io::Result<Vec<u8>> {
        let Some(client) = &mut self.client else {
            return Err(io::Error::from(ErrorKind::NotConnected));
        };
        let mut answers = Vec::new(self.rt.alloc());
        client.read_to_end(&mut answers)?;
        Ok(answers)
    }
}

impl<'a, S: Start> Listener for Host<'a, S> {
    ghost use Rattle.std.specs.Prelude.{◌≡◌};
    ghost use Rattle.room_program.specs.Calls.{IsUnknown};

    ghost accepts = { λ old e new. IsUnknown e × (new.left ≡ old.left) };

    ghost fails = { λ old new. new.left ≡ old.left };

    fn serve_next<V: Server>(&mut self, server: &mut V, roster: &Roster) -> io::Result<()> {
        if let Some(stream) = self.came.take() {
            serve_stream(stream, server, roster);
            return Ok(());
        }
        match &mut self.listener {
            Some(listener) => listener.serve_next(server, roster),
            None => Err(io::Error::from(ErrorKind::NotConnected)),
        }
    }
}
