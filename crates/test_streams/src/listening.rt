//! Connections that wait in the queue of a socket, and in one of which each byte is known.
use room_desk::Desk;
use room_program::{Listener, Server, serve_listener};
use room_records::Roster;
use std::alloc::Global;
use std::collections::VecDeque;
use std::io::{self, ErrorKind, Read, Write};
use std::net::{Ipv4Addr, TcpListener, TcpStream};
use std::test::Fail;
use test_support::{in_memory, must, roster};

/// OPEN, the last message of its connection.
const LAST: &str = "POST /v1/sessions/0123456789abcdef0123456789abcdef HTTP/1.1\r\n\
room-user: ann\r\nconnection: close\r\ncontent-length: 11\r\n\r\n{\"slots\":3}";

const OPENED: &str = "HTTP/1.1 200 OK\r\ncontent-type: application/json\r\n\
content-length: 20\r\nconnection: close\r\n\r\n{\"code\":0,\"slots\":3}";

/// One more connection waits, over which this was sent.
fn sent(rt: &HostRuntime, listener: &TcpListener, bytes: &[u8]) -> io::Result<TcpStream> {
    let mut connection = TcpStream::connect(rt, listener.local_addr()?)?;
    connection.write_all(bytes)?;
    Ok(connection)
}

/// Two connections wait: over the first, which is closed, came half a message; the second stays open.
fn two_wait(rt: &HostRuntime, listener: &TcpListener) -> io::Result<TcpStream> {
    let message = LAST.as_bytes();
    drop(sent(rt, listener, &message[..message.len() / 2])?);
    sent(rt, listener, message)
}

/// A fresh room serves connections: whether so many were accepted.
fn serves<L: Listener>(alloc: Global, listener: &mut L, count: u32) -> Result<bool, Fail> {
    let roster = roster(alloc)?;
    let mut desk = Desk::new(alloc, in_memory(alloc)?);
    let served = serve_listener(listener, &mut desk, &roster, count);
    let _ = desk.into_shelf();
    Ok(served.is_ok())
}

/// All that comes over a connection.
fn heard(alloc: Global, mut connection: TcpStream) -> io::Result<Vec<u8>> {
    let mut bytes = Vec::new(alloc);
    connection.read_to_end(&mut bytes)?;
    Ok(bytes)
}

#[test]
fn half_a_message_does_not_keep_the_next_from_its_answer(rt: HostRuntime) -> Result<(), Fail> {
    let mut listener = TcpListener::bind(&rt, (Ipv4Addr::LOCALHOST, 0))?;
    let second = two_wait(&rt, &listener)?;
    must(serves(rt.alloc(), &mut listener, 2)?, "two connections")?;
    // (One that still waits is reset.)
    drop(listener);
    let answers = heard(rt.alloc(), second)?;
    must(
        answers.as_slice() == OPENED.as_bytes(),
        "the second connection",
    )
}

/// Connections in memory.
#[derive(Drop)]
struct Queue {
    /// The bytes of those that wait, the next one first.
    waiting: VecDeque<String>,
    /// What all of them were answered, one after another.
    answers: Vec<u8>,
}

/// What goes over a connection are the bytes that waited first, and the answers behind those to the connections before.
impl Listener for Queue {
    ghost use Rattle.std.specs.Prelude.{◌≡◌, Some, [], ◌∷◌, string_bytes};

    ghost accepts = { λ old e new. (sent : _) × (old.waiting.items ≡ sent ∷ new.waiting.items)
        × (e.input ≡ Some (string_bytes sent)) × (e.output ≡ Some old.answers.items)
        × (e.written ≡ Some new.answers.items) };

    ghost fails = { λ old _. old.waiting.items ≡ [] };

    fn serve_next<V: Server>(&mut self, server: &mut V, roster: &Roster) -> io::Result<()> {
        let Some(sent) = self.waiting.pop_front() else {
            return Err(io::Error::from(ErrorKind::NotConnected));
        };
        let mut reader = sent.as_bytes();
        let _ = server.serve_connection(roster, &mut reader, &mut self.answers);
        Ok(())
    }
}

/// There is a listener of which all bytes that go over it are known, and of which none waits in the end.
#[test]
fn a_queue_is_served_to_its_end(rt: HostRuntime) -> Result<(), Fail> {
    let alloc = rt.alloc();
    let mut queue = Queue {
        waiting: VecDeque::new(alloc),
        answers: Vec::new(alloc),
    };
    let sent = String::from_str(alloc, LAST)?;
    must(queue.waiting.push_back(sent).is_ok(), "memory")?;
    must(!serves(alloc, &mut queue, 2)?, "a second one")?;
    must(
        queue.answers.as_slice() == OPENED.as_bytes(),
        "the first one",
    )
}
