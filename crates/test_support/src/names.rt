//! Names, paths, users and rosters from their texts.
use room_acl::{Principal, Subject};
use room_records::{FileName, Path, Roster, Sid};
use std::alloc::Global;
use std::test::Fail;

/// The text of a session's name.
pub const SID: &str = "0123456789abcdef0123456789abcdef";

/// The principal of this name.
pub fn named(alloc: Global, text: &str) -> Result<Principal, Fail> {
    Ok(Principal::new(alloc, text)?.ok_or("no principal")?)
}

/// The file's or folder's name of this text.
pub fn file_name(alloc: Global, text: &str) -> Result<FileName, Fail> {
    Ok(FileName::new(alloc, text)?.ok_or("no name")?)
}

/// The path of this text.
pub fn path_of(alloc: Global, text: &str) -> Result<Path, Fail> {
    Ok(Path::read(alloc, text)?.ok_or("no path")?)
}

/// The session's name of this text.
pub fn session_name(alloc: Global, text: &str) -> Result<Sid, Fail> {
    Ok(Sid::new(alloc, text)?.ok_or("no session name")?)
}

/// A user with its groups: `ann` is in `eng`, `bob` in `eng` and `staff`, another one in none.
pub fn subject(alloc: Global, name: &str) -> Result<Subject, Fail> {
    let mut groups = Vec::new(alloc);
    if name == "ann" || name == "bob" {
        groups.push(named(alloc, "eng")?)?;
    }
    if name == "bob" {
        groups.push(named(alloc, "staff")?)?;
    }
    let name = named(alloc, name)?;
    Ok(Subject { name, groups })
}

/// The users `ann`, `bob` and `eng` with their groups, added out of order.
pub fn roster(alloc: Global) -> Result<Roster, Fail> {
    let mut roster = Roster::empty(alloc);
    for name in ["eng", "bob", "ann"] {
        let user = subject(alloc, name)?;
        if !roster.add(user.name, user.groups)? {
            return Err(Fail::new("not added"));
        }
    }
    Ok(roster)
}
