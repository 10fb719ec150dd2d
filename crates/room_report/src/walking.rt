//! The walk of a whole room, a folder before what is in it.
ghost use Rattle.std.specs.Prelude.{◌≡◌, ◌≢◌, ◌≤◌, ◌+◌, [], Err, true, false, length, OnOk};
ghost use Rattle.room_records.specs.Limits.{max_names};
ghost use Rattle.room_records.specs.Names.{Path as PathModel};
ghost use Rattle.room_records.specs.Records.{ObjectRecords};
ghost use Rattle.room_records.specs.Representation.{RepresentsRoom};
ghost use Rattle.room_records.specs.Room.{Room};
ghost use Rattle.room_records.specs.Shelf.{ShelfRead, AreChildren};
ghost use Rattle.room_report.specs.Faults.{shelf_fault_in};
ghost use Rattle.room_report.specs.Walk.{OfIntactRoom, IsItem, Writes, item_lines, text_below};

use crate::item::{Item, item_below, root_item};
use crate::lines::{Report, item_lines};
use crate::reports::ReportFault;
use crate::sending::send;
use room_acl::Kind;
use room_records::{MAX_NAMES, Shelf};
use std::alloc::Global;
use std::io::Write;

/// How deep a room can be.
const DEPTH: u32 = MAX_NAMES as u32;

/// Writes the report of the whole room.
pub(crate) fn report_room<S: Shelf, W: Write>(
    alloc: Global,
    shelf: &mut S,
    report: &Report,
    writer: &mut W,
) -> Result<(), ReportFault>
    ensures value { OfIntactRoom (S.view shelf.old) (S.view shelf.new) (λ t room.
        Writes (W.contents writer.old) (W.contents writer.new) (text_below report.now room []) result) }
    ensures there { (S.view shelf.new).is_intact → OnOk result (S.view shelf.new).is_available }
    ensures frame { ShelfRead (S.view shelf.old) (S.view shelf.new) (shelf_fault_in result) }
{
    // rows without a root stand for no room
    let Some(root) = root_item(alloc, shelf)? else {
        return Ok(());
    };
    report_below(alloc, shelf, report, &root, DEPTH, writer)
}

/// Writes the lines of an object and of all below it, so many names down at most.
fn report_below<S: Shelf, W: Write>(
    alloc: Global,
    shelf: &mut S,
    report: &Report,
    item: &Item,
    depth: u32,
    writer: &mut W,
) -> Result<(), ReportFault>
    ensures value { OfIntactRoom (S.view shelf.old) (S.view shelf.new) (λ t room. (path : PathModel)
        → IsItem t room path item.now → length path + depth ≡ max_names →
        Writes (W.contents writer.old) (W.contents writer.new) (text_below report.now room path) result) }
    ensures frame { ShelfRead (S.view shelf.old) (S.view shelf.new) (shelf_fault_in result) }
{
    write_item(alloc, report, item, writer)?;
    if is_leaf(item, depth) {
        return Ok(());
    }
    let nodes = shelf.children(item.id)?;
    for node in nodes.as_slice() {
        let below = item_below(alloc, shelf, item, node)?;
        report_below(alloc, shelf, report, &below, depth - 1, writer)?;
    }
    Ok(())
}

/// Writes the lines of one object. They are let go before the walk goes on.
fn write_item<W: Write>(
    alloc: Global,
    report: &Report,
    item: &Item,
    writer: &mut W,
) -> Result<(), ReportFault>
    ensures written { Writes (W.contents writer.old) (W.contents writer.new) (item_lines report.now item.now) result }
    ensures no_store { result ≢ Err ReportFault.Store }
{
    let lines = item_lines(alloc, report, item)?;
    send(writer, lines.as_slice())?;
    Ok(())
}

/// Whether nothing can be below: in a file, and at the end of the longest path.
fn is_leaf(item: &Item, depth: u32) -> bool
    ensures leaf { result ≡ true → (t : ObjectRecords) (room : Room) → RepresentsRoom t room
        → (path : PathModel) → IsItem t room path item.now → length path + depth ≡ max_names →
        AreChildren t item.now.id [] }
    ensures deep { result ≡ false → 1 ≤ depth }
{
    if depth == 0 {
        return true;
    }
    match item.kind {
        Kind::File => true,
        Kind::Folder => false,
    }
}
