//! Rooms of owner `ann` and group `eng`.
use crate::names::named;
use room_records::MemShelf;
use std::alloc::Global;
use std::test::Fail;

/// A fresh room in memory.
pub fn in_memory(alloc: Global) -> Result<MemShelf, Fail> {
    Ok(MemShelf::fresh(alloc, named(alloc, "ann")?, named(alloc, "eng")?)?)
}
