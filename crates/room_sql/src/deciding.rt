//! A decision over an object's entries, which are read one row at a time.

ghost use Rattle.std.specs.Prelude.{◌≡◌, map, IfOk};
ghost use Rattle.sqlite.specs.State.{HasCleanDisk};
ghost use Rattle.sqlite.specs.Held.{state};
ghost use Rattle.room_acl.specs.Access.{decision};
ghost use Rattle.room_tables.specs.Layout.{IsRoomDatabase};
ghost use Rattle.room_tables.specs.Rows.{entry_of, entry_rows};
ghost use Rattle.room_tables.specs.Steps.{AreEntries};
ghost use Rattle.room_sql.specs.Faults.{ErrMeans, FailsToReadEntries};
ghost use Rattle.room_sql.specs.Frames.{QueryFrame};

use crate::rows::entry_of;
use room_acl::{Decision, Mask, Pending, Standing, Subject};
use sqlite::{Alter, Connection, Error, ErrorCode, params};
use std::alloc::Global;

/// What an object's entries decide of these rights. Rows are read in order of place, up to the one that leaves
/// nothing open. Those behind it are not looked at.
pub(crate) fn decide_entries<S: Alter>(
    alloc: Global,
    conn: &mut Connection<S>,
    id: u32,
    subject: &Subject,
    standing: &Standing,
    wanted: Mask,
) -> Result<Decision, Error>
    ensures frame { QueryFrame (state S.Store conn.old) (state S.Store conn.new) result }
    ensures value { HasCleanDisk (state S.Store conn.new) → IsRoomDatabase (state S.Store conn.old).now
        → IfOk result (λ found. found ≡ decision (map entry_of (entry_rows (state S.Store conn.old).now.trees id))
        subject.now standing.now wanted) }
    ensures told { HasCleanDisk (state S.Store conn.new) → IsRoomDatabase (state S.Store conn.old).now
        → AreEntries (entry_rows (state S.Store conn.old).now.trees id)
        → ErrMeans result (FailsToReadEntries id (state S.Store conn.old) (state S.Store conn.new)) }
{
    let _live = conn.schema();
    let mut pending = Pending::new(wanted, subject, standing);
    let mut rows = conn.query(
        "SELECT place, type, flag, mask, who FROM entry WHERE node = ?1 ORDER BY place",
        params![id],
    )?;
    'rows: for _ in 0..u64::MAX {
        if pending.left().bits() == 0 {
            return Ok(pending.end());
        }
        let Some(row) = rows.next()? else {
            return Ok(pending.end());
        };
        let entry = entry_of(alloc, row)?;
        pending.take(&entry, subject, standing);
    }
    Err(Error::SqliteFailure(ErrorCode::TooBig))
}
