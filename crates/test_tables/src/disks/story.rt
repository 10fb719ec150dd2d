//! A short story: a session, and requests of its first slot, each with its answer.
use room_desk::{Answer, Desk};
use room_records::{Shelf, SlotCount};
use room_wire::{Code, Event, read_command};
use std::alloc::Global;
use std::test::Fail;
use test_support::{SID, session_name, subject};

/// What `ann` asks of the session: to open it with so many slots, or a command, with its number, of the first slot.
#[derive(Clone, Copy)]
pub enum Ask {
    Open(u32),
    Run(u32, &'static str),
}

/// What is asked, and the body of its answer.
#[derive(Clone, Copy)]
pub struct Step(pub Ask, pub &'static str);

const OPEN: Step = Step(Ask::Open(2), r#"{"code":0,"slots":2}"#);

const MKDIR: Step = Step(
    Ask::Run(1, r#"{"cmd":"MKDIR","path":"/d"}"#),
    r#"{"code":0}"#,
);

pub const CREATE: Step = Step(
    Ask::Run(2, r#"{"cmd":"CREATE","data":"aGk=","path":"/d/a"}"#),
    r#"{"code":0,"size":2}"#,
);

pub const APPEND: Step = Step(
    Ask::Run(3, r#"{"cmd":"APPEND","data":"IQ==","path":"/d/a"}"#),
    r#"{"code":0,"size":3}"#,
);

const READ: Step = Step(
    Ask::Run(4, r#"{"cmd":"READ","path":"/d/a"}"#),
    r#"{"code":0,"data":"aGkh"}"#,
);

/// A session, a folder, and a file in it in two pieces.
pub static TWO_PIECES: [Step; 5] = [OPEN, MKDIR, CREATE, APPEND, READ];

pub static STORY: [Step; 7] = [
    OPEN,
    MKDIR,
    CREATE,
    APPEND,
    READ,
    Step(
        Ask::Run(5, r#"{"cmd":"RENAME","path":"/d/a","to":"/a"}"#),
        r#"{"code":0}"#,
    ),
    Step(
        Ask::Run(6, r#"{"cmd":"REMOVE","path":"/d"}"#),
        r#"{"code":0}"#,
    ),
];

/// The room of version 1 keeps request 4 of the slot, by which the file had three bytes.
pub static AFTER_VERSION_1: [Step; 4] = [
    Step(
        Ask::Run(4, r#"{"cmd":"READ","path":"/plans/a"}"#),
        r#"{"code":0,"data":"aGkh"}"#,
    ),
    Step(
        Ask::Run(3, r#"{"cmd":"APPEND","data":"IQ==","path":"/plans/a"}"#),
        r#"{"code":22,"error":"SEQ_MISORDERED"}"#,
    ),
    Step(
        Ask::Run(5, r#"{"cmd":"APPEND","data":"IQ==","path":"/plans/a"}"#),
        r#"{"code":0,"size":4}"#,
    ),
    Step(
        Ask::Run(6, r#"{"cmd":"READ","path":"/plans/a"}"#),
        r#"{"code":0,"data":"aGkhIQ=="}"#,
    ),
];

/// A request of `ann` in the session.
pub fn request(alloc: Global, slot: u32, seq: u32, command: &str) -> Result<Event, Fail> {
    let (command, keep) = read_command(alloc, command.as_bytes())?;
    Ok(Event::Slot {
        subject: subject(alloc, "ann")?,
        sid: session_name(alloc, SID)?,
        slot,
        seq,
        command,
        keep,
    })
}

fn event(alloc: Global, ask: Ask) -> Result<Event, Fail> {
    match ask {
        Ask::Open(slots) => Ok(Event::Open {
            subject: subject(alloc, "ann")?,
            sid: session_name(alloc, SID)?,
            slots: SlotCount::new(slots).ok_or("no number of slots")?,
        }),
        Ask::Run(seq, command) => request(alloc, 0, seq, command),
    }
}

fn answer<P: Shelf>(alloc: Global, desk: &mut Desk<P>, ask: Ask) -> Result<Answer, Fail> {
    Ok(desk.handle(&event(alloc, ask)?))
}

/// Whether an answer is the wanted one; else it is DELAY. Another is an error.
pub fn is_wanted(answer: &Answer, wanted: &str) -> Result<bool, Fail> {
    if matches!(answer, Answer::Refused(Code::Delay)) {
        return Ok(false);
    }
    if answer.body() == wanted.as_bytes() {
        return Ok(true);
    }
    match str::from_utf8(answer.body()) {
        Ok(got) => Err(Fail::new(format_args!("{got} and not {wanted}"))),
        Err(_) => Err(Fail::new("an answer that is no text")),
    }
}

/// Whether a step has its answer; else it is answered DELAY. Another answer is an error.
fn has_answer<P: Shelf>(alloc: Global, desk: &mut Desk<P>, step: &Step) -> Result<bool, Fail> {
    let Step(ask, wanted) = *step;
    is_wanted(&answer(alloc, desk, ask)?, wanted)
}

/// Plays steps from a place on, up to the first that is answered DELAY: its place.
pub fn play_steps<P: Shelf>(
    alloc: Global,
    desk: &mut Desk<P>,
    steps: &[Step],
    from: usize,
) -> Result<usize, Fail> {
    for at in from..steps.len() {
        if !has_answer(alloc, desk, &steps[at])? {
            return Ok(at);
        }
    }
    Ok(steps.len())
}

/// The same at a new desk over a shelf, and the shelf.
pub fn play_at_desk<P: Shelf>(
    alloc: Global,
    shelf: P,
    steps: &[Step],
    from: usize,
) -> (Result<usize, Fail>, P) {
    let mut desk = Desk::new(alloc, shelf);
    let at = play_steps(alloc, &mut desk, steps, from);
    (at, desk.into_shelf())
}
