//! A room in which a hundred objects follow the list of one folder.
use crate::disks::files::Work;
use crate::disks::story::{APPEND, Ask, CREATE, Step, TWO_PIECES, is_wanted, play_steps, request};
use crate::stores::made;
use room_desk::Desk;
use room_records::Shelf;
use sqlite::{Alter, Connection};
use std::alloc::Global;
use std::test::Fail;

/// How many follow: folders, and nine files in each.
pub const FOLLOWERS: u32 = 100;

/// A file in two pieces, and an entry that all are handed.
pub static CHANGES_ALL: [Step; 4] = [
    CREATE,
    APPEND,
    Step(
        Ask::Run(
            4,
            r#"{"aclflag":1,"cmd":"SETLIST","entries":[{"flag":3,"mask":1,"type":0,"who":"bob"}],"path":"/d"}"#,
        ),
        r#"{"code":0}"#,
    ),
    Step(
        Ask::Run(5, r#"{"cmd":"READ","path":"/d/a"}"#),
        r#"{"code":0,"data":"aGkh"}"#,
    ),
];

/// The command that makes one of them, and its answer.
fn maker(alloc: Global, number: u32) -> Result<(String, &'static str), Fail> {
    let folder = number / 10;
    if number % 10 == 0 {
        let text = format!(in alloc; r#"{{"cmd":"MKDIR","path":"/d/{folder}"}}"#)?;
        return Ok((text, r#"{"code":0}"#));
    }
    let text = format!(in alloc; r#"{{"cmd":"CREATE","data":"","path":"/d/{folder}/{number}"}}"#)?;
    Ok((text, r#"{"code":0,"size":0}"#))
}

/// Makes one of them, by a request of the second slot.
fn make_one<P: Shelf>(alloc: Global, desk: &mut Desk<P>, number: u32) -> Result<(), Fail> {
    let (command, wanted) = maker(alloc, number)?;
    let request = request(alloc, 1, number.saturating_add(1), command.as_str())?;
    if !is_wanted(&desk.handle(&request), wanted)? {
        return Err(Fail::new("DELAY where nothing fails"));
    }
    Ok(())
}

/// A session, a folder, and all that follow it.
fn make_all<P: Shelf>(alloc: Global, desk: &mut Desk<P>) -> Result<(), Fail> {
    if play_steps(alloc, desk, &TWO_PIECES[..2], 0)? < 2 {
        return Err(Fail::new("DELAY where nothing fails"));
    }
    for number in 0..FOLLOWERS {
        make_one(alloc, desk, number)?;
    }
    Ok(())
}

/// Makes them at a new desk over a shelf, and gives the shelf back.
fn make_at_desk<P: Shelf>(alloc: Global, shelf: P) -> (Result<(), Fail>, P) {
    let mut desk = Desk::new(alloc, shelf);
    let end = make_all(alloc, &mut desk);
    (end, desk.into_shelf())
}

/// Makes a room in which all follow.
#[derive(Clone, Copy)]
pub struct MakeFollowers;

impl Work for MakeFollowers {
    type Found = ();

    fn run<S: Alter + Drop>(self, alloc: Global, conn: Connection<S>) -> Result<((), S), Fail> {
        let (end, room) = make_at_desk(alloc, made(alloc, conn)?);
        let store = room.into_connection().into_store();
        end?;
        Ok(((), store))
    }
}
