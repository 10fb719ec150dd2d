//! How far a decision fetches an object's list: row by row in order of place, up to the one that leaves nothing open.
use crate::stores::{in_tables, taken};
use room_acl::{Decision, Entry, Mask, Standing, Who};
use room_records::{Change, Shelf, ShelfFault};
use room_sql::SqlShelf;
use sqlite::{Alter, Connection};
use std::alloc::Global;
use std::test::Fail;
use test_support::{commit, entry, named, subject};

/// The most entries that inheritance can give: 32 own ones, and those of 16 folders above.
const LONGEST: usize = 544;

/// A list of the most entries, of which the one at this place lets bob write, and the others cat.
fn long_list(alloc: Global, place: usize) -> Result<Vec<Entry>, Fail> {
    let mut entries = Vec::new(alloc);
    for at in 0..LONGEST {
        let who = Who::User(named(alloc, if at == place { "bob" } else { "cat" })?);
        entries.push(entry(true, 0, 2, who)?)?;
    }
    Ok(entries)
}

/// The root gets the list that lets bob write at this place.
fn put_long_list<S: Shelf>(alloc: Global, shelf: &mut S, place: usize) -> Result<(), Fail> {
    commit(
        shelf,
        vec![in alloc; Change::PutEntries(1, long_list(alloc, place)?)]?,
    )
}

/// What the root's list decides where bob would write.
fn decision<S: Shelf>(alloc: Global, shelf: &mut S) -> Result<Result<Decision, ShelfFault>, Fail> {
    let standing = Standing {
        owner: named(alloc, "ann")?,
        group: named(alloc, "eng")?,
    };
    let wanted = Mask::new(2).ok_or("no mask")?;
    Ok(shelf.decide_at(1, &subject(alloc, "bob")?, &standing, wanted))
}

/// A place, steps, and what is decided.
type Row = (usize, u64, Result<Decision, ShelfFault>);

/// What is decided of bob's right to write, where the entry at a place gives it and each query may take so many
/// steps: a row that is fetched takes two, and three come on top. Else the store fails.
static STEPS: [Row; 7] = [
    (0, 3, Ok(Decision::Allowed)),
    (1, 4, Err(ShelfFault::Store)),
    (1, 5, Ok(Decision::Allowed)),
    (272, 546, Err(ShelfFault::Store)),
    (272, 547, Ok(Decision::Allowed)),
    (543, 1088, Err(ShelfFault::Store)),
    (543, 1089, Ok(Decision::Allowed)),
];

/// A room whose queries may take so many steps.
fn limited<S: Alter + Drop>(
    alloc: Global,
    conn: Connection<S>,
    steps: u64,
) -> Result<SqlShelf<S>, Fail> {
    let mut conn = conn;
    conn.set_step_limit(Some(steps));
    taken(alloc, conn)
}

/// What is decided of the list that lets bob write at this place.
fn decided_in<S: Alter + Drop>(
    alloc: Global,
    shelf: SqlShelf<S>,
    place: usize,
    steps: u64,
) -> Result<Result<Decision, ShelfFault>, Fail> {
    let mut shelf = shelf;
    put_long_list(alloc, &mut shelf, place)?;
    let mut shelf = limited(alloc, shelf.into_connection(), steps)?;
    decision(alloc, &mut shelf)
}

/// In a fresh room, it is decided so.
fn is_decided(alloc: Global, row: &Row) -> Result<(), Fail> {
    let (place, steps, wanted) = *row;
    let got = decided_in(alloc, in_tables(alloc)?, place, steps)?;
    if got != wanted {
        return Err(Fail::new(format_args!("at {place} within {steps} steps: {got:?}")));
    }
    Ok(())
}

/// A body that fetches a row more than it needs is interrupted, and so is one that fetches all of them.
#[test]
fn rows_behind_the_deciding_one_are_not_fetched(rt: HostRuntime) -> Result<(), Fail> {
    for row in &STEPS {
        is_decided(rt.alloc(), row)?;
    }
    Ok(())
}
