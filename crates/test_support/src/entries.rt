//! Entries of lists.
use room_acl::{Entry, Flags, Mask, Who};
use std::test::Fail;

/// An entry with these flags, which allows or denies these bits.
pub fn entry(allow: bool, flags: u8, mask: u32, who: Who) -> Result<Entry, Fail> {
    let flags = Flags::new(flags).ok_or("no flags")?;
    let mask = Mask::new(mask).ok_or("no mask")?;
    Ok(Entry::new(allow, flags, mask, who).ok_or("no entry")?)
}

/// An entry that allows these bits and is handed down to files and folders.
pub fn handed_down(mask: u32, who: Who) -> Result<Entry, Fail> {
    entry(true, 3, mask, who)
}
