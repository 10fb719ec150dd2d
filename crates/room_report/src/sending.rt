//! Handing bytes to a writer.
ghost use Rattle.room_report.specs.Walk.{Writes};

use room_records::write_whole;
use std::io::Write;

/// A write failed, or took nothing.
#[derive(Clone, Copy, Debug, PartialEq, Eq)]
pub(crate) struct WriteFailed;

/// Writes all the bytes, or says that they were not taken.
pub(crate) fn send<W: Write>(writer: &mut W, bytes: &[u8]) -> Result<(), WriteFailed>
    ensures { Writes (W.contents writer.old) (W.contents writer.new) bytes.now result }
{
    if write_whole(writer, bytes) {
        return Ok(());
    }
    Err(WriteFailed)
}
