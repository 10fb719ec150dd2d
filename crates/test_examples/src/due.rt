//! The answer that is due.
use crate::fault::Fault;
use room_wire::{Code, refusal_text};
use std::alloc::Global;

/// The answer that is due.
#[derive(Drop)]
pub struct Due {
    /// All bytes of the answer.
    pub whole: Vec<u8>,
    pub body: Vec<u8>,
    /// Whether it is a reply: what a request is answered that runs, or ran before.
    pub is_reply: bool,
    /// Whether the stream is over behind it.
    pub closes: bool,
}

impl Due {
    pub fn new(alloc: Global, head: Head, body: Vec<u8>) -> Result<Due, Fault> {
        let mut whole = head_bytes(alloc, head, body.len())?;
        whole.extend_from_slice(body.as_slice())?;
        Ok(Due {
            whole,
            body,
            is_reply: head.status == OK,
            closes: head.closes,
        })
    }

    /// Whether it is the answer where no message can come any more.
    pub fn is_bad_message(&self) -> bool {
        self.body.as_slice() == refusal_text(Code::BadHttp).as_bytes()
    }
}

/// The status line of an answer, and whether it is the last one of its stream.
#[derive(Clone, Copy)]
pub struct Head {
    status: &'static str,
    closes: bool,
}

/// The status of replies.
const OK: &str = "200 OK";

/// The status that a word names.
fn status_of(word: &str) -> Option<&'static str> {
    match word {
        "200" => Some(OK),
        "400" => Some("400 Bad Request"),
        "403" => Some("403 Forbidden"),
        "404" => Some("404 Not Found"),
        "409" => Some("409 Conflict"),
        "503" => Some("503 Service Unavailable"),
        _ => None,
    }
}

fn begins_with_digit(text: &str) -> bool {
    match text.as_bytes().first() {
        Some(byte) => byte.is_ascii_digit(),
        None => false,
    }
}

/// The status, 200 where none stands, and the text behind it.
fn read_status(text: &str) -> Result<(&'static str, &str), Fault> {
    if !begins_with_digit(text) {
        return Ok((OK, text));
    }
    let (word, rest) = text.split_once(' ').unwrap_or((text, ""));
    match status_of(word) {
        Some(status) => Ok((status, rest)),
        None => Err(Fault::Because("a status that no answer has")),
    }
}

/// Reads `[STATUS ][close ]BODY`: the head, and the text of the body as it stands in the file.
pub fn read_due(text: &str) -> Result<(Head, &str), Fault> {
    let (status, text) = read_status(text)?;
    let (closes, body) = match text.strip_prefix("close ") {
        Some(body) => (true, body),
        None => (false, text),
    };
    if body.is_empty() {
        return Err(Fault::Because("a due answer without a body"));
    }
    Ok((Head { status, closes }, body))
}

fn head_bytes(alloc: Global, head: Head, size: usize) -> Result<Vec<u8>, Fault> {
    let status = head.status;
    let end = if head.closes {
        "connection: close\r\n"
    } else {
        ""
    };
    let text = format!(in alloc;
        "HTTP/1.1 {status}\r\ncontent-type: application/json\r\ncontent-length: {size}\r\n{end}\r\n"
    )?;
    Ok(text.as_bytes().to_vec(alloc)?)
}
