//! The users of a roster's table.
ghost use Rattle.std.specs.Prelude.{◌≡◌, ℕ, List, true, false, Ok, Err, IfOk, OnOk, if◌then◌else◌, string_bytes};
ghost use Rattle.std.specs.List.{AllByRecursion};
ghost use Rattle.toml.specs.Data.{array};
ghost use Rattle.toml.specs.View.{view, table_view};
ghost use Rattle.room_acl.specs.SubjectModel.{SubjectModel};
ghost use Rattle.room_records.specs.Roster.{IsRoster, may_join, with_user};
ghost use Rattle.room_roster.specs.Rosters.{list_of_names, table_of_users, IsNamed, IsNamedRoster, user_of};

use crate::fault::RosterFault;
use crate::groups::{groups, principal};
use room_records::Roster;
use std::alloc::Global;
use toml::{Table, Value};

/// A user that may not join makes a roster bad, and nothing else.
fn needs_joined(joined: bool) -> Result<(), RosterFault>
    ensures { result ≡ (if joined then Ok tt else Err RosterFault.Bad) }
{
    if joined {
        Ok(())
    } else {
        Err(RosterFault::Bad)
    }
}

/// Adds the user of this name with the groups that the value lists.
fn add_user(
    alloc: Global,
    roster: &mut Roster,
    name: &str,
    value: &Value,
) -> Result<(), RosterFault>
    ensures ok { OnOk result ((groups : List (List ℕ))
        × (view value.now ≡ array (list_of_names groups)) × IsNamed (user_of name.now groups)
        × (may_join roster.old name.now groups ≡ true)
        × (roster.new ≡ with_user roster.old (user_of name.now groups))) }
    ensures bad { result ≡ Err RosterFault.Bad → (groups : List (List ℕ))
        → view value.now ≡ array (list_of_names groups) → IsNamed (user_of name.now groups)
        → may_join roster.old name.now groups ≡ false }
{
    let name = principal(alloc, name)?;
    let groups = groups(alloc, value)?;
    let joined = roster.add(name, groups)?;
    needs_joined(joined)
}

/// The roster of the table `users`.
pub(crate) fn users(alloc: Global, table: &Table) -> Result<Roster, RosterFault>
    ensures ok { IfOk result (λ roster. (table_view table.now ≡ table_of_users roster) × IsNamedRoster roster) }
    ensures bad { result ≡ Err RosterFault.Bad → (users : List SubjectModel)
        → table_view table.now ≡ table_of_users users → ¬ IsNamedRoster users }
{
    let mut roster = Roster::empty(alloc);
    for (name, value) in table.iter() {
        add_user(alloc, &mut roster, name.as_str(), value)?;
    }
    Ok(roster)
}
