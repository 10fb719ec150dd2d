//! Requests over files of which one fails, and what follows when they are opened again.
use crate::disks::files::{Failing, Work, flushed, found_in, found_over, has_stopped, held_by};
use crate::disks::rooms::{begun, contents, is_at, play_in, stages_of};
use crate::disks::story::Step;
use crate::stores::{Held, adopt, file_of, made, taken};
use room_report::list_report;
use room_sql::{OpenFault, SqlShelf};
use sqlite::{Alter, Connection, Options};
use sqlite_disk::{Disk, Files, Fuse, Memory, Rot};
use std::alloc::Global;
use std::test::Fail;

/// A place behind all calls and bytes.
const NEVER: u64 = 1_000_000_000;

/// Where a trial begins.
#[derive(Drop)]
pub struct Start {
    /// What the files hold: a room, or nothing.
    pub held: Held,
    /// A room is made first.
    pub is_new: bool,
}

/// What requests leave where no file stops.
#[derive(Drop)]
struct Whole {
    /// What is in the room before the first, and after each.
    stages: Vec<String>,
    /// The report of the lists after the last.
    lists: Vec<u8>,
}

/// The room with all its lists in the end.
fn lists_of<S: Alter + Drop>(
    alloc: Global,
    conn: Connection<S>,
) -> Result<(Vec<u8>, Connection<S>), Fail> {
    let mut room = taken(alloc, conn)?;
    let mut lists = Vec::new(alloc);
    match list_report(alloc, &mut room, &mut lists) {
        Ok(()) => Ok((lists, room.into_connection())),
        Err(_) => Err(Fail::new("no report of the lists")),
    }
}

/// Plays requests over a room that is made or taken first.
#[derive(Clone, Copy)]
struct PlayWhole(bool, &'static [Step]);

impl Work for PlayWhole {
    type Found = Whole;

    fn run<S: Alter + Drop>(self, alloc: Global, conn: Connection<S>) -> Result<(Whole, S), Fail> {
        let PlayWhole(is_new, steps) = self;
        let room = if is_new {
            made(alloc, conn)?
        } else {
            taken(alloc, conn)?
        };
        let (stages, conn) = stages_of(alloc, room.into_connection(), steps)?;
        let (lists, conn) = lists_of(alloc, conn)?;
        Ok((Whole { stages, lists }, conn.into_store()))
    }
}

/// How many requests were answered, where a room was made or taken.
type Answered = Option<usize>;

/// What a stop at a call left, and whether the file stopped.
#[derive(Drop)]
struct Left {
    written: Held,
    flushed: Held,
    answered: Answered,
    has_stopped: bool,
}

/// What files hold after a stop, and how many requests were answered before it.
type After = (Held, Answered);

/// Whether files hold the same bytes.
fn is_same(one: &Held, other: &Held) -> bool {
    one.log.as_slice() == other.log.as_slice() && one.db.as_slice() == other.db.as_slice()
}

fn is_known(known: &[After], held: &Held, answered: Answered) -> bool {
    for (other, before) in known {
        if *before == answered && is_same(other, held) {
            return true;
        }
    }
    false
}

/// Requests over the files of a room. All but the last are sent while a file fails; when the files are opened again,
/// the others follow.
#[derive(Drop)]
pub struct Trial {
    alloc: Global,
    start: Start,
    options: Options,
    steps: &'static [Step],
    whole: Whole,
}

impl Trial {
    pub fn new(
        alloc: Global,
        start: Start,
        options: Options,
        steps: &'static [Step],
    ) -> Result<Trial, Fail> {
        let whole = found_in(alloc, &start.held, PlayWhole(start.is_new, steps))?;
        Ok(Trial {
            alloc,
            start,
            options,
            steps,
            whole,
        })
    }

    /// How many entries name a principal in the end.
    pub fn count_entries(&self, who: &str) -> Result<u64, Fail> {
        let mut count = 0u64;
        for line in str::from_utf8(self.whole.lists.as_slice())?.lines() {
            if line.ends_with(who) {
                count = count.saturating_add(1);
            }
        }
        Ok(count)
    }

    /// All requests but the last.
    fn sent(&self) -> &[Step] {
        &self.steps[..self.steps.len().saturating_sub(1)]
    }

    /// The files at the start, of which one fails at a place.
    fn files<D: Failing>(&self, in_log: bool, place: u64) -> Result<Files<D>, Fail> {
        let (in_log, in_db) = if in_log {
            (place, NEVER)
        } else {
            (NEVER, place)
        };
        let log = file_of(self.alloc, self.start.held.log.as_slice())?;
        let db = file_of(self.alloc, self.start.held.db.as_slice())?;
        Ok(Files {
            log: D::over(log, in_log),
            db: D::over(db, in_db),
        })
    }

    /// All requests but the last over a database in which a room is made or taken first.
    fn play<S: Alter + Drop>(
        &self,
        conn: Connection<S>,
    ) -> Result<(Answered, Connection<S>), Fail> {
        match begun(self.alloc, conn, self.start.is_new)? {
            Ok(room) => {
                let (at, conn) = play_in(self.alloc, room, self.sent(), 0)?;
                Ok((Some(at), conn))
            },
            Err(conn) => Ok((None, conn)),
        }
    }

    /// The same over files.
    fn play_over<D: Disk + Drop>(&self, files: Files<D>) -> Result<(Answered, Files<D>), Fail> {
        let (answered, files) = found_over(self.alloc, files, self.options, Play(self))?;
        Ok((answered.flatten(), files))
    }

    /// What a stop at a call leaves.
    fn left(&self, in_log: bool, place: u64) -> Result<Left, Fail> {
        let (answered, files) = self.play_over(self.files::<Fuse<Memory>>(in_log, place)?)?;
        let mut files = files;
        let has_stopped = if in_log {
            has_stopped(&mut files.log)
        } else {
            has_stopped(&mut files.db)
        };
        Ok(Left {
            written: held_by(self.alloc, &files)?,
            flushed: flushed(self.alloc, files)?,
            answered,
            has_stopped,
        })
    }

    /// Whether a room is that of the requests that were answered, with or without the one in flight.
    fn is_left(&self, answered: Answered, found: &str) -> bool {
        let stages = self.whole.stages.as_slice();
        match answered {
            None => is_at(stages, 0, found),
            Some(at) => {
                let is_in_flight = at < self.sent().len() && is_at(stages, at + 1, found);
                is_at(stages, at, found) || is_in_flight
            },
        }
    }

    /// The requests follow in a room, from the first without a reply on. Then it is the very room that they leave
    /// where no file stops.
    fn ends<S: Alter + Drop>(
        &self,
        room: SqlShelf<S>,
        answered: Answered,
    ) -> Result<Connection<S>, Fail> {
        let (at, conn) = play_in(self.alloc, room, self.steps, answered.unwrap_or(0))?;
        if at < self.steps.len() {
            return Err(Fail::new(format_args!("request {at} is answered DELAY")));
        }
        let mut conn = conn;
        let found = contents(self.alloc, &mut conn)?;
        if !is_at(self.whole.stages.as_slice(), at, found.as_str()) {
            return Err(Fail::new(format_args!("another room in the end: {found}")));
        }
        let (lists, conn) = lists_of(self.alloc, conn)?;
        if lists.as_slice() != self.whole.lists.as_slice() {
            return Err(Fail::new("other lists in the end"));
        }
        Ok(conn)
    }

    /// A room that is there after a stop is the right one, and the requests follow.
    fn goes_on_in<S: Alter + Drop>(
        &self,
        conn: Connection<S>,
        answered: Answered,
    ) -> Result<Connection<S>, Fail> {
        let mut conn = conn;
        let found = contents(self.alloc, &mut conn)?;
        if !self.is_left(answered, found.as_str()) {
            return Err(Fail::new(format_args!("another room after {answered:?}: {found}")));
        }
        self.ends(taken(self.alloc, conn)?, answered)
    }

    /// Where there is no room after a stop, none was made or taken. One is made, and all requests follow.
    fn begins_in<S: Alter + Drop>(
        &self,
        conn: Connection<S>,
        answered: Answered,
    ) -> Result<Connection<S>, Fail> {
        if !self.start.is_new || answered.is_some() {
            return Err(Fail::new("a room is gone"));
        }
        self.ends(made(self.alloc, conn)?, None)
    }

    /// What follows a stop, over a database in the files that it left.
    fn follows_in<S: Alter + Drop>(
        &self,
        conn: Connection<S>,
        answered: Answered,
    ) -> Result<Connection<S>, Fail> {
        match adopt(self.alloc, conn)? {
            Ok(room) => self.goes_on_in(room.into_connection(), answered),
            Err((OpenFault::NotARoom, conn)) => self.begins_in(conn, answered),
            Err((fault, _)) => Err(Fail::new(format_args!("after a stop: {fault:?}"))),
        }
    }

    /// What follows a stop, if no stop before left the same.
    fn follows(&self, known: &mut Vec<After>, held: Held, answered: Answered) -> Result<(), Fail> {
        if is_known(known.as_slice(), &held, answered) {
            return Ok(());
        }
        found_in(self.alloc, &held, Follow(self, answered))?;
        known.push((held, answered))?;
        Ok(())
    }

    /// A file stops at each of its calls in turn, until a run ends without a stop: how many calls that takes.
    pub fn stops(&self, in_log: bool) -> Result<u64, Fail> {
        let mut known = Vec::new(self.alloc);
        for place in 0..2000u64 {
            let left = self.left(in_log, place)?;
            self.follows(&mut known, left.written, left.answered)?;
            self.follows(&mut known, left.flushed, left.answered)?;
            if !left.has_stopped {
                return self.ended(left.answered, place);
            }
        }
        Err(Fail::new("each run stops"))
    }

    /// The number of calls, where each request was answered.
    fn ended(&self, answered: Answered, calls: u64) -> Result<u64, Fail> {
        if answered == Some(self.sent().len()) {
            Ok(calls)
        } else {
            Err(Fail::new("DELAY where no file stops"))
        }
    }

    /// How many requests are answered where this byte of a file is damaged. Read without the damage, the files hold
    /// what was answered.
    fn damaged(&self, in_log: bool, place: u64, known: &mut Vec<After>) -> Result<Answered, Fail> {
        let (answered, files) = self.play_over(self.files::<Rot<Memory>>(in_log, place)?)?;
        self.follows(known, held_by(self.alloc, &files)?, answered)?;
        Ok(answered)
    }

    /// A damaged byte at 44 places in turn, so far apart: at how many of them each request is answered.
    pub fn damages(&self, in_log: bool, apart: u64) -> Result<u64, Fail> {
        let mut known = Vec::new(self.alloc);
        let mut whole = 0u64;
        for at in 0..44u64 {
            let answered = self.damaged(in_log, 40 + at * apart.min(10_000), &mut known)?;
            if answered == Some(self.sent().len()) {
                whole = whole.saturating_add(1);
            }
        }
        Ok(whole)
    }
}

/// Plays all requests of a trial but the last.
#[derive(Clone, Copy)]
struct Play<'a>(&'a Trial);

impl<'a> Work for Play<'a> {
    type Found = Answered;

    fn run<S: Alter + Drop>(
        self,
        _alloc: Global,
        conn: Connection<S>,
    ) -> Result<(Answered, S), Fail> {
        let (answered, conn) = self.0.play(conn)?;
        Ok((answered, conn.into_store()))
    }
}

/// Sees what a stop left, of which so many requests were answered, and plays the others.
#[derive(Clone, Copy)]
struct Follow<'a>(&'a Trial, Answered);

impl<'a> Work for Follow<'a> {
    type Found = ();

    fn run<S: Alter + Drop>(self, _alloc: Global, conn: Connection<S>) -> Result<((), S), Fail> {
        Ok(((), self.0.follows_in(conn, self.1)?.into_store()))
    }
}
