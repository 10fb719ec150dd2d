//! The lines of requests, and the messages that they stand for.
use crate::fault::Fault;
use crate::numbers::Numbers;
use std::alloc::Global;

/// What a request's line says.
#[derive(Clone, Copy)]
pub enum Request<'a> {
    Open {
        user: &'a str,
        session: &'a str,
        body: &'a str,
    },
    Close {
        user: &'a str,
        session: &'a str,
    },
    Run {
        user: &'a str,
        session: &'a str,
        slot: &'a str,
        number: &'a str,
        body: &'a str,
    },
    Check {
        body: &'a str,
    },
}

impl<'a> Request<'a> {
    /// The text of the body, as it stands in the file.
    pub fn body(&self) -> &'a str {
        match *self {
            Request::Open { body, .. } | Request::Run { body, .. } | Request::Check { body } => {
                body
            }
            Request::Close { .. } => "",
        }
    }

    /// Who asks: of a question nobody.
    fn user(&self) -> Option<&'a str> {
        match *self {
            Request::Open { user, .. } | Request::Close { user, .. } | Request::Run { user, .. } =>
                { Some(user) }
            Request::Check { .. } => None,
        }
    }
}

/// The text before the first blank, and the text behind it.
fn word(text: &str) -> (&str, &str) {
    text.split_once(' ').unwrap_or((text, ""))
}

fn session_name(word: &str) -> &str {
    match word {
        "S" => "0123456789abcdef0123456789abcdef",
        "T" => "ffffffffffffffffffffffffffffffff",
        _ => word,
    }
}

/// The request that a line says.
pub fn read_request(line: &str) -> Result<Request<'_>, Fault> {
    let (user, rest) = word(line);
    if user == "check" {
        return Ok(Request::Check { body: rest });
    }
    let (session, rest) = word(rest);
    let session = session_name(session);
    let (what, body) = word(rest);
    match what {
        "open" => Ok(Request::Open {
            user,
            session,
            body,
        }),
        "close" if body.is_empty() => Ok(Request::Close { user, session }),
        _ => match what.split_once('/') {
            Some((slot, number)) => Ok(Request::Run {
                user,
                session,
                slot,
                number,
                body,
            }),
            None => Err(Fault::Because("a line that can't be read")),
        },
    }
}

/// A line with `N times`: how often, and what. None where no such words stand there.
pub fn read_times(line: &str) -> Option<(u32, &str)> {
    let (count, rest) = line.split_once(" times ")?;
    let count = count.parse::<u32>().ok()?;
    Some((count, rest))
}

/// One more than the last number of a slot, which is kept as the last one then.
fn next_number(
    alloc: Global,
    numbers: &mut Numbers,
    session: &str,
    slot: &str,
) -> Result<String, Fault> {
    let next = numbers.next(session, slot);
    numbers.keep(session, slot, next)?;
    Ok(format!(in alloc; "{next}")?)
}

/// The number that is sent, which is kept as the last one of its slot.
fn number_sent(
    alloc: Global,
    numbers: &mut Numbers,
    session: &str,
    slot: &str,
    number: &str,
) -> Result<String, Fault> {
    if number == "next" {
        return next_number(alloc, numbers, session, slot);
    }
    if let Ok(number) = number.parse::<u32>() {
        numbers.keep(session, slot, number)?;
    }
    Ok(String::from_str(alloc, number)?)
}

/// A message of this line and these fields.
fn message(alloc: Global, line: &str, fields: &str, body: &[u8]) -> Result<Vec<u8>, Fault> {
    let size = body.len();
    let head = format!(in alloc; "{line} HTTP/1.1\r\n{fields}content-length: {size}\r\n\r\n")?;
    let mut sent = head.as_bytes().to_vec(alloc)?;
    sent.extend_from_slice(body)?;
    Ok(sent)
}

fn run_line(
    alloc: Global,
    numbers: &mut Numbers,
    session: &str,
    slot: &str,
    number: &str,
) -> Result<String, Fault> {
    let number = number_sent(alloc, numbers, session, slot, number)?;
    Ok(format!(in alloc; "POST /v1/sessions/{session}/slots/{slot}/{number}")?)
}

fn session_line(alloc: Global, method: &str, session: &str) -> Result<String, Fault> {
    Ok(format!(in alloc; "{method} /v1/sessions/{session}")?)
}

/// The method and the target of a request.
fn line_of(alloc: Global, numbers: &mut Numbers, request: &Request<'_>) -> Result<String, Fault> {
    match *request {
        Request::Check { .. } => Ok(String::from_str(alloc, "POST /v1/check")?),
        Request::Open { session, .. } => session_line(alloc, "POST", session),
        Request::Close { session, .. } => session_line(alloc, "DELETE", session),
        Request::Run {
            session,
            slot,
            number,
            ..
        } => run_line(alloc, numbers, session, slot, number),
    }
}

/// The field that names the user, where one asks.
fn fields_of(alloc: Global, user: Option<&str>) -> Result<String, Fault> {
    match user {
        Some(user) => Ok(format!(in alloc; "room-user: {user}\r\n")?),
        None => Ok(String::new(alloc)),
    }
}

/// The message of a request with this body.
pub fn message_of(
    alloc: Global,
    numbers: &mut Numbers,
    request: &Request<'_>,
    body: &[u8],
) -> Result<Vec<u8>, Fault> {
    let line = line_of(alloc, numbers, request)?;
    let fields = fields_of(alloc, request.user())?;
    message(alloc, line.as_str(), fields.as_str(), body)
}
