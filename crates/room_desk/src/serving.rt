//! Serving a room over a reader and a writer.
ghost use Rattle.std.specs.Prelude.{◌≡◌};
ghost use Rattle.room_records.specs.Room.{Room};
ghost use Rattle.room_records.specs.Shelf.{ShelfFrame};
ghost use Rattle.room_wire.specs.Serving.Ends.{Serves};
ghost use Rattle.room_desk.specs.History.{History};
ghost use Rattle.room_desk.specs.Representation.{StandsFor};
ghost use Rattle.room_desk.specs.Serving.{AnswersMessage, MayAnswer};

use crate::desk::Desk;
use crate::service::Lookup;
use room_records::{Roster, Shelf};
use room_wire::{Buffers, Routes, ServeEnd, Why, serve_messages};
use std::alloc::Global;
use std::io::{Read, Write};

/// What serving needs beside the room: made at the first stream, and kept for those after it.
#[derive(Drop)]
pub(crate) struct Workspace {
    routes: Routes,
    buffers: Buffers,
}

impl Workspace {
    /// Nothing where memory is refused.
    fn new(alloc: Global) -> Option<Workspace> {
        let (Ok(routes), Ok(buffers)) = (Routes::new(alloc), Buffers::new(alloc)) else {
            return None;
        };
        Some(Workspace { routes, buffers })
    }
}

impl<S: Shelf> Desk<S> {
    /// Answers the messages of a stream until it ends.
    ///
    /// A question is answered and changes nothing, an event as by `handle`. The refusals BAD_HTTP, BAD_ROUTE,
    /// UNKNOWN_USER and BAD_REQUEST change nothing. DELAY changes nothing while the store is there; of one that a
    /// fault shut, an open may find the event's change. Each error of a read or write, and a write of 0 bytes, ends it
    /// at once; so do 2^64 - 1 reads. `Memory` comes only before the first read. Want of memory later is answered
    /// DELAY.
    pub fn serve<R: Read, W: Write>(
        &mut self,
        roster: &Roster,
        reader: &mut R,
        writer: &mut W,
    ) -> ServeEnd
        ensures frame { ShelfFrame (S.view self.old) (S.view self.new) }
        ensures messages { Serves (MayAnswer S.view roster.now) self.old self.new
            (R.remaining reader.old) (R.remaining reader.new) (W.contents writer.old)
            (W.contents writer.new) result.why result.count }
        ensures run { (S.view self.new).is_intact → (start : Room) (past : History)
            → StandsFor start past (S.view self.old) →
            (next : History) × Serves (AnswersMessage roster.now start)
            past next (R.remaining reader.old) (R.remaining reader.new)
            (W.contents writer.old) (W.contents writer.new) result.why result.count
            × StandsFor start next (S.view self.new) }
    {
        let Some(mut space) = self.take_workspace() else {
            return ServeEnd {
                why: Why::Memory,
                count: 0,
            };
        };
        let lookup = Lookup {
            routes: &space.routes,
            roster,
        };
        let end = serve_messages(self, &lookup, &mut space.buffers, reader, writer);
        self.workspace = Some(space);
        end
    }

    /// What an earlier stream left, or else a new one.
    fn take_workspace(&mut self) -> Option<Workspace>
        ensures { self.new ≡ self.old }
    {
        match self.workspace.take() {
            Some(space) => Some(space),
            None => Workspace::new(self.alloc),
        }
    }
}
