//! The two reports.
ghost use Rattle.std.specs.Prelude.{◌≡◌, IfOk};
ghost use Rattle.room_records.specs.Shelf.{ShelfRead};
ghost use Rattle.room_report.specs.Faults.{shelf_fault_in};
ghost use Rattle.room_report.specs.Lines.{access_text, list_text};
ghost use Rattle.room_report.specs.Reported.{Reported};

use crate::lines::Report;
use crate::sending::WriteFailed;
use crate::walking::report_room;
use room_acl::{Subject, copy_principals};
use room_records::{Roster, Shelf, ShelfFault};
use std::alloc::{AllocError, Global};
use std::io::Write;

/// Why a report is not whole.
#[derive(Clone, Copy, Debug, PartialEq, Eq)]
pub enum ReportFault {
    /// Memory was refused.
    Memory,
    /// The shelf failed. It comes only where the shelf's count of failures rose in the call, or stands at 2^64 - 1,
    /// where it is no longer kept.
    Store,
    /// A write failed, or took no byte.
    WriteFailed,
}

impl From<AllocError> for ReportFault {
    ghost use Rattle.std.specs.Prelude.{◌≡◌};
    ghost use Rattle.room_report.specs.declared.reports.ReportFault.TheVariants.{Memory};

    ghost from_gives = { λ _ e. e ≡ Memory };

    fn from(_e: AllocError) -> ReportFault {
        ReportFault::Memory
    }
}

impl From<WriteFailed> for ReportFault {
    ghost use Rattle.std.specs.Prelude.{◌≡◌};
    ghost use Rattle.room_report.specs.declared.reports.ReportFault.TheVariants as F;

    ghost from_gives = { λ _ e. e ≡ F.WriteFailed };

    fn from(_e: WriteFailed) -> ReportFault {
        ReportFault::WriteFailed
    }
}

impl From<ShelfFault> for ReportFault {
    ghost use Rattle.std.specs.Prelude.{◌≡◌};
    ghost use Rattle.room_report.specs.Faults.{fault_of};

    ghost from_gives = { λ fault e. e ≡ fault_of fault };

    fn from(fault: ShelfFault) -> ReportFault {
        match fault {
            ShelfFault::Memory => ReportFault::Memory,
            ShelfFault::Store => ReportFault::Store,
        }
    }
}

/// Writes who may do what, to a writer: for each object in path order (a folder before what is in it, names by
/// their bytes) and each user of the roster in name order one line. It has the rights that the object's list
/// allows the user, as eight lower-case hexadecimal digits, a space, the user's name left in 32 places, a space,
/// and the path. The lists of the folders above are not looked at, so an object is there that the user cannot
/// reach. The form is our own.
///
/// It goes down at most 16 names, whatever the rows are. Each row is read once. Memory is taken for the roster, the
/// lines of one object, and for each name on the way down one folder's nodes. After an error, also one that has shut
/// the store, what was written is a beginning of the report: `Memory` where memory was refused, `Store` where the
/// shelf failed, `WriteFailed` where a write failed or took nothing.
pub fn access_report<S: Shelf, W: Write>(
    alloc: Global,
    shelf: &mut S,
    roster: &Roster,
    writer: &mut W,
) -> Result<(), ReportFault>
    ensures value { Reported (λ room. access_text room roster.now) (S.view shelf.old) (S.view shelf.new)
        (W.contents writer.old) (W.contents writer.new) result }
    ensures frame { ShelfRead (S.view shelf.old) (S.view shelf.new) (shelf_fault_in result) }
{
    let users = users_of(alloc, roster)?;
    let report = Report::Access(users);
    report_room(alloc, shelf, &report, writer)
}

/// Writes each object with its whole list, to a writer: for each object in path order one line of `d` or `f`, a
/// space, the list flags as one digit, a space, the owner and the group, each left in 32 places with a space behind,
/// and the path. Then one line for each entry of its list, the own ones first and the inherited ones behind them: two
/// spaces, `A` or `D`, a space, the flags as two lower-case hexadecimal digits, a space, the mask as eight, a space,
/// and whom it names. The form is our own.
///
/// Depth, memory and errors are as for `access_report`.
pub fn list_report<S: Shelf, W: Write>(
    alloc: Global,
    shelf: &mut S,
    writer: &mut W,
) -> Result<(), ReportFault>
    ensures value { Reported list_text (S.view shelf.old) (S.view shelf.new)
        (W.contents writer.old) (W.contents writer.new) result }
    ensures frame { ShelfRead (S.view shelf.old) (S.view shelf.new) (shelf_fault_in result) }
{
    report_room(alloc, shelf, &Report::Lists, writer)
}

/// The users of the roster, in name order.
fn users_of(alloc: Global, roster: &Roster) -> Result<Vec<Subject>, AllocError>
    ensures { IfOk result (λ users. users.items ≡ roster.now) }
{
    let mut users = Vec::new(alloc);
    for place in 0..roster.len() {
        let Some((name, groups)) = roster.user(place) else {
            unreachable!()
        };
        let name = name.clone()?;
        let groups = copy_principals(alloc, groups)?;
        users.push(Subject { name, groups })?;
    }
    Ok(users)
}
