//! A commit that breaks a rule of the tables, as no request does.
use crate::stores::in_tables;
use room_records::{Change, Shelf};
use sqlite::{Alter, Connection};
use std::alloc::Global;
use std::test::Fail;
use test_support::must;

// (Over any shelf, as little as can be over tables in memory: each call there makes a proof longer.)

/// The next number, and a document of a node that is not there: the second is refused, and the first does not stay.
fn is_refused<P: Shelf>(alloc: Global, shelf: &mut P) -> Result<(), Fail> {
    let changes = vec![in alloc; Change::PutNext(9), Change::PutDoc(5, Vec::new(alloc))]?;
    must(shelf.commit(changes.as_slice()).is_err(), "the commit")?;
    must(shelf.next_id()? == 2, "the next number")
}

/// The number that a query shows.
fn number<S: Alter>(conn: &mut Connection<S>, sql: &str) -> Result<i64, Fail> {
    Ok(conn.query_row(sql, &[])?.get(0)?)
}

/// The tables have no document, and the next number of a fresh room.
fn are_as_before<S: Alter>(conn: &mut Connection<S>) -> Result<(), Fail> {
    must(
        number(conn, "SELECT count(*) FROM doc")? == 0,
        "the documents",
    )?;
    must(number(conn, "SELECT next FROM room")? == 2, "the number")
}

#[test]
fn a_refused_commit_leaves_nothing(rt: HostRuntime) -> Result<(), Fail> {
    let mut shelf = in_tables(rt.alloc())?;
    is_refused(rt.alloc(), &mut shelf)?;
    let mut conn = shelf.into_connection();
    are_as_before(&mut conn)
}
