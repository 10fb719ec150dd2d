//! A fresh room in memory, over a reader and a writer.
ghost use Rattle.std.specs.Prelude.{◌≡◌, ℕ, [], IfOk, IfErr};
ghost use Rattle.room_records.specs.Mem.{mem_records};
ghost use Rattle.room_records.specs.Room.{Room, fresh_room};
ghost use Rattle.room_desk.specs.History.{History};
ghost use Rattle.room_desk.specs.Representation.{RepresentsHistory};
ghost use Rattle.room_desk.specs.Serving.{AnswersMessage};
ghost use Rattle.room_wire.specs.Serving.Ends.{Serves};
ghost use Rattle.room_program.specs.Faults.{done_of};
ghost use Rattle.room_program.specs.Replays.{Replays};

use crate::fault::{Fault, done_of};
use crate::machine::Machine;
use crate::names::standing;
use crate::rosters::roster_at;
use room_acl::Standing;
use room_desk::Desk;
use room_records::{MemShelf, Roster};
use room_wire::Why;
use std::alloc::Global;
use std::io::{Read, Write};

/// A desk over a fresh room in memory.
pub(crate) fn fresh_desk(alloc: Global, standing: Standing) -> Result<Desk<MemShelf>, Fault>
    ensures stands { IfOk result
        (λ desk. RepresentsHistory (fresh_room standing.owner standing.group) (mem_records desk) []) }
    ensures fault { IfErr result (λ fault. fault ≡ Fault.Memory) }
{
    let Standing { owner, group } = standing;
    let shelf = MemShelf::fresh(alloc, owner, group)?;
    Ok(Desk::new(alloc, shelf))
}

/// Serves a room in memory until the input ends.
fn serve_to_end<R: Read, W: Write>(
    desk: Desk<MemShelf>,
    roster: &Roster,
    reader: &mut R,
    writer: &mut W,
) -> Result<(), Fault>
    ensures { (start : Room) (past : History) → RepresentsHistory start (mem_records desk) past
        → (why : Why) × (count : ℕ) × (next : History) × (result ≡ done_of why)
        × Serves (AnswersMessage roster.now start) past next (R.remaining reader.old)
        (R.remaining reader.new) (W.contents writer.old) (W.contents writer.new) why count }
{
    let mut desk = desk;
    let end = desk.serve(roster, reader, writer);
    let _ = desk.into_shelf();
    done_of(end.why)
}

/// Serves a fresh room in memory, of this owner and group, to the users of the roster at this path.
pub(crate) fn replay<C, M: Machine<C>, R: Read, W: Write>(
    alloc: Global,
    machine: &mut M,
    roster: &str,
    owner: &str,
    group: &str,
    reader: &mut R,
    writer: &mut W,
) -> Result<(), Fault>
    ensures { Replays M.does roster.now owner.now group.now machine.old machine.new
        (R.remaining reader.old) (R.remaining reader.new) (W.contents writer.old) (W.contents writer.new) result }
{
    let standing = standing(alloc, owner, group)?;
    let roster = roster_at(alloc, machine, roster)?;
    let desk = fresh_desk(alloc, standing)?;
    serve_to_end(desk, &roster, reader, writer)
}
