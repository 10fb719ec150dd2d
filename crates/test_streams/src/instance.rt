//! Files in memory that hold a room, and two runs over them with a stop between.
use room_acl::Standing;
use room_program::{a_room_is_asked_again, a_room_is_made};
use room_records::SlotCount;
use room_wire::Event;
use sqlite_disk::{Files, Memory};
use std::test::Fail;
use test_support::{SID, must, named, session_name, subject};

/// There are such files and such runs: of each, what `room_program` promises is promised of these.
#[test]
fn a_room_in_files_is_asked_again(rt: HostRuntime) -> Result<(), Fail> {
    let alloc = rt.alloc();
    let standing = Standing {
        owner: named(alloc, "ann")?,
        group: named(alloc, "eng")?,
    };
    let files = Files {
        log: Memory::new(alloc),
        db: Memory::new(alloc),
    };
    let files = a_room_is_made(alloc, files, &standing).ok_or("no room is made")?;
    let event = Event::Open {
        subject: subject(alloc, "ann")?,
        sid: session_name(alloc, SID)?,
        slots: SlotCount::new(3).ok_or("no number of slots")?,
    };
    let again = a_room_is_asked_again(alloc, files, &event).ok_or("no room is taken")?;
    must(
        again.0.body() == "{\"code\":0,\"slots\":3}".as_bytes(),
        "another answer",
    )
}
