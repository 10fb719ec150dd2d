//! Files in memory.
ghost use Rattle.std.specs.Prelude.{IsTrue, IfOk};
ghost use Rattle.sqlite_disk.specs.Memory.{memory_is_usable};

use sqlite_disk::{Disk, Memory};
use std::alloc::Global;
use std::test::Fail;

/// The bytes of a log and its database file.
#[derive(Drop)]
pub struct Held {
    pub log: Vec<u8>,
    pub db: Vec<u8>,
}

/// A file in memory with these bytes, which were flushed.
pub fn file_of(alloc: Global, bytes: &[u8]) -> Result<Memory, Fail>
    ensures { IfOk result (λ file. IsTrue (memory_is_usable file)) }
{
    let mut file = Memory::new(alloc);
    file.write_at(0, bytes)?;
    file.sync()?;
    Ok(file)
}
