//! A script of requests while the log, or the database file, stops at each of its calls or has a damaged byte.
use crate::disks::files::{empty, left_by, small, spilling};
use crate::disks::followers::{CHANGES_ALL, FOLLOWERS, MakeFollowers};
use crate::disks::rooms::{MakeRoom, MakeVersion1};
use crate::disks::story::{AFTER_VERSION_1, STORY, TWO_PIECES};
use crate::disks::trials::{Start, Trial};
use sqlite::Options;
use std::alloc::Global;
use std::test::Fail;

/// A room is made in new files, and the requests follow.
fn of_a_new_room(alloc: Global, options: Options) -> Result<Trial, Fail> {
    let start = Start {
        held: empty(alloc),
        is_new: true,
    };
    Trial::new(alloc, start, options, &TWO_PIECES)
}

/// A fresh room is taken, which is in the database file or in the log, and the story follows.
fn of_a_fresh_room(alloc: Global, in_log: bool, options: Options) -> Result<Trial, Fail> {
    let start = Start {
        held: left_by(alloc, MakeRoom, in_log)?,
        is_new: false,
    };
    Trial::new(alloc, start, options, &STORY)
}

/// A room of version 1 is taken over, and the slot goes on.
fn of_version_1(alloc: Global, in_log: bool, options: Options) -> Result<Trial, Fail> {
    let start = Start {
        held: left_by(alloc, MakeVersion1, in_log)?,
        is_new: false,
    };
    Trial::new(alloc, start, options, &AFTER_VERSION_1)
}

/// A number is between two others, or one of them.
fn is_within(number: u64, least: u64, most: u64, what: &str) -> Result<(), Fail> {
    if least <= number && number <= most {
        return Ok(());
    }
    Err(Fail::new(format_args!("{number} {what}, and not {least} to {most}")))
}

/// A room is taken in which a hundred objects follow one folder, whose list is then changed.
fn of_followers(alloc: Global, options: Options) -> Result<Trial, Fail> {
    let start = Start {
        held: left_by(alloc, MakeFollowers, false)?,
        is_new: false,
    };
    let trial = Trial::new(alloc, start, options, &CHANGES_ALL)?;
    is_within(
        trial.count_entries("bob")?,
        FOLLOWERS.into(),
        1000,
        "entries of bob",
    )?;
    Ok(trial)
}

/// A file stops so many times at least.
fn stops(trial: &Trial, in_log: bool, least: u64) -> Result<(), Fail> {
    is_within(trial.stops(in_log)?, least, 2000, "stops")
}

/// The log stops, and the database file, each so many times at least.
fn both_stop(trial: &Trial, in_log: u64, in_db: u64) -> Result<(), Fail> {
    stops(trial, true, in_log)?;
    stops(trial, false, in_db)
}

#[test]
fn a_new_room(rt: HostRuntime) -> Result<(), Fail> {
    both_stop(&of_a_new_room(rt.alloc(), Options::new(1))?, 40, 10)
}

#[test]
fn a_new_room_with_a_busy_log(rt: HostRuntime) -> Result<(), Fail> {
    stops(&of_a_new_room(rt.alloc(), small())?, true, 60)
}

#[test]
fn a_new_room_with_a_busy_database_file(rt: HostRuntime) -> Result<(), Fail> {
    stops(&of_a_new_room(rt.alloc(), small())?, false, 20)
}

#[test]
fn a_fresh_room(rt: HostRuntime) -> Result<(), Fail> {
    both_stop(
        &of_a_fresh_room(rt.alloc(), false, Options::new(1))?,
        50,
        20,
    )
}

#[test]
fn a_fresh_room_in_the_log(rt: HostRuntime) -> Result<(), Fail> {
    both_stop(&of_a_fresh_room(rt.alloc(), true, Options::new(1))?, 50, 4)
}

#[test]
fn a_fresh_room_with_a_busy_log(rt: HostRuntime) -> Result<(), Fail> {
    stops(&of_a_fresh_room(rt.alloc(), true, small())?, true, 100)
}

#[test]
fn a_fresh_room_with_a_busy_database_file(rt: HostRuntime) -> Result<(), Fail> {
    stops(&of_a_fresh_room(rt.alloc(), true, small())?, false, 20)
}

#[test]
fn a_list_over_a_hundred(rt: HostRuntime) -> Result<(), Fail> {
    both_stop(&of_followers(rt.alloc(), Options::new(1))?, 30, 10)
}

/// Parts of the list are in the log before it is committed.
#[test]
fn a_list_over_a_hundred_that_spills(rt: HostRuntime) -> Result<(), Fail> {
    both_stop(&of_followers(rt.alloc(), spilling())?, 40, 20)
}

#[test]
fn a_room_of_version_1(rt: HostRuntime) -> Result<(), Fail> {
    for in_log in [false, true] {
        both_stop(&of_version_1(rt.alloc(), in_log, Options::new(1))?, 20, 4)?;
    }
    Ok(())
}

/// Little stays in memory, and parts of the upgrade are in the log before it is committed.
#[test]
fn a_busy_room_of_version_1(rt: HostRuntime) -> Result<(), Fail> {
    for in_log in [false, true] {
        both_stop(&of_version_1(rt.alloc(), in_log, small())?, 20, 4)?;
    }
    Ok(())
}

/// Over none of these places is each request answered.
#[test]
fn a_damaged_byte_in_the_database_file(rt: HostRuntime) -> Result<(), Fail> {
    let trial = of_a_fresh_room(rt.alloc(), false, small())?;
    is_within(trial.damages(false, 1024)?, 0, 0, "whole stories")
}

/// Some of the bytes are read again after the open, and some are not.
#[test]
fn a_damaged_byte_in_the_log(rt: HostRuntime) -> Result<(), Fail> {
    let trial = of_a_fresh_room(rt.alloc(), true, small())?;
    is_within(trial.damages(true, 1030)?, 1, 43, "whole stories")
}
