//! Databases as text.
use sqlite::{Alter, Connection, Row};
use std::alloc::Global;
use std::fmt::Write;
use std::test::Fail;

fn push_row(text: &mut String, row: &Row) -> Result<(), Fail> {
    for at in 0..row.column_count() {
        let value = row.get_ref(at)?;
        write!(text, "{value:?} ")?;
    }
    Ok(())
}

/// Each value of each row, one after the other.
fn push_rows(text: &mut String, rows: &[Row]) -> Result<(), Fail> {
    for row in rows {
        push_row(text, row)?;
    }
    Ok(())
}

/// The rows that these queries show, as text.
pub fn shown<S: Alter>(
    alloc: Global,
    conn: &mut Connection<S>,
    queries: &[&str],
) -> Result<String, Fail> {
    let mut text = String::new(alloc);
    for sql in queries {
        push_rows(&mut text, conn.query_all(sql, &[])?.as_slice())?;
        text.push_str("\n")?;
    }
    Ok(text)
}
