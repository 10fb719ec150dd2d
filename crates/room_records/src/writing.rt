//! Handing bytes to a writer.
ghost use Rattle.room_records.specs.Writers.{Sent};

use std::io::Write;

/// Writes all the bytes, in as few writes as the writer takes, and says whether it took them all. A write that fails or
/// takes none ends it.
pub fn write_whole<W: Write>(writer: &mut W, bytes: &[u8]) -> bool
    ensures { Sent (W.contents writer.old) (W.contents writer.new) bytes.now result }
{
    let mut at = 0;
    while at < bytes.len() {
        match writer.write(&bytes[at..]) {
            Ok(0) => return false,
            Ok(n) => at += n,
            Err(_) => return false,
        }
    }
    true
}
