//! Reading a roster.
ghost use Rattle.std.specs.Prelude.{◌≡◌, List, Err, IfOk, IfSome, IfNone, codes};
ghost use Rattle.toml.specs.Data.{Members, member, no_members, table};
ghost use Rattle.toml.specs.View.{table_view};
ghost use Rattle.room_acl.specs.SubjectModel.{SubjectModel};
ghost use Rattle.room_roster.specs.Rosters.{IsRosterText};

use crate::fault::RosterFault;
use crate::users::users;
use room_records::Roster;
use std::alloc::Global;
use toml::Table;

/// The table `users` of a document that has nothing else.
fn only_users(document: &Table) -> Option<&Table>
    ensures some { IfSome result (λ users.
        table_view document.now ≡ member (codes "users") (table (table_view users.now)) no_members) }
    ensures none { IfNone result ((users : Members) →
        ¬ (table_view document.now ≡ member (codes "users") (table users) no_members)) }
{
    if document.len() != 1 {
        return None;
    }
    match document.get("users") {
        Some(users) => users.as_table(),
        None => None,
    }
}

/// Reads a roster: a TOML document with one table `users` and nothing else, whose keys are
/// principals and whose values are lists of principals, at most 1,000 users with at most 16 groups
/// each (our own format). A table may be written inline or dotted; a roster may be without users.
/// `Bad` comes where the text is none, `Memory` where memory is refused.
pub fn read_roster(alloc: Global, text: &str) -> Result<Roster, RosterFault>
    ensures ok { IfOk result (λ roster. IsRosterText text.now roster) }
    ensures bad { result ≡ Err RosterFault.Bad → (users : List SubjectModel) → ¬ IsRosterText text.now users }
{
    let document = match toml::table_from_str(alloc, text) {
        Ok(document) => document,
        Err(error) if error.is_memory() => return Err(RosterFault::Memory),
        Err(_) => return Err(RosterFault::Bad),
    };
    match only_users(&document) {
        Some(table) => users(alloc, table),
        None => Err(RosterFault::Bad),
    }
}
