//! The ways in which scenes are played. A new one is a module, its word below, and how it plays.
mod batches;
mod events;
mod files;
mod losses;
mod messages;
mod plans;
mod serving;
mod trips;

use crate::differences::Differences;
use crate::fault::Fault;
use crate::playing::Play;
use crate::rooms::{in_memory, in_tables};
use room_records::Shelf;

/// How a scene is played over a shelf.
#[derive(Clone, Copy, PartialEq, Eq)]
pub enum How {
    /// Each request as an event.
    Events,
    /// The events between other things as one run.
    Run,
    /// The messages between other things as one stream.
    Stream,
    /// The same, a byte a read but for the middle of long messages.
    Bytes,
    /// Each request with each call of the shelf failing in turn.
    Tripped,
}

/// A way in which scenes are played.
#[derive(Clone, Copy, PartialEq, Eq)]
pub enum Way {
    Memory(How),
    Tables(How),
    /// Over files, which are closed and opened again behind each request.
    Reopened,
    /// Over memory, with each answer lost behind each of its bytes.
    Lost,
}

/// The ways with their words.
pub static WAYS: [(&str, Way); 10] = [
    ("memory", Way::Memory(How::Events)),
    ("tables", Way::Tables(How::Events)),
    ("run", Way::Memory(How::Run)),
    ("run_tables", Way::Tables(How::Run)),
    ("stream", Way::Memory(How::Stream)),
    ("bytes", Way::Tables(How::Bytes)),
    ("reopened", Way::Reopened),
    ("tripped", Way::Memory(How::Tripped)),
    ("tripped_tables", Way::Tables(How::Tripped)),
    ("lost", Way::Lost),
];

/// The word of the way that a program outside plays: over sockets.
pub const SOCKETS: &str = "sockets";

/// The way of this word.
pub fn way_named(name: &str) -> Option<Way> {
    for (word, way) in &WAYS {
        if *word == name {
            return Some(*way);
        }
    }
    None
}

impl How {
    /// Plays a scene over the shelf of a fresh room. (All of them in one function over any shelf: each call over tables
    /// makes a proof longer.)
    fn play<S: Shelf + Drop>(
        self,
        play: &Play<'_>,
        fresh: S,
        differences: &mut Differences<'_>,
    ) -> Result<(), Fault> {
        match self {
            How::Events => events::play(play, fresh, differences),
            How::Run => batches::play(play, fresh, differences),
            How::Stream => messages::play(play, fresh, false, differences),
            How::Bytes => messages::play(play, fresh, true, differences),
            How::Tripped => trips::play(play, fresh, differences),
        }
    }
}

impl Way {
    /// Plays a scene. Differences are told.
    pub fn play(self, play: &Play<'_>, differences: &mut Differences<'_>) -> Result<(), Fault> {
        match self {
            Way::Memory(how) => how.play(play, in_memory(play.alloc)?, differences),
            Way::Tables(how) => how.play(play, in_tables(play.alloc)?, differences),
            Way::Reopened => files::play(play, differences),
            Way::Lost => losses::play(play, differences),
        }
    }
}
