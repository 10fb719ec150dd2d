//! A user's groups.
ghost use Rattle.std.specs.Prelude.{◌≡◌, ℕ, List, Err, IfOk};
ghost use Rattle.std.specs.List.{AllByRecursion};
ghost use Rattle.toml.specs.Data.{string, array};
ghost use Rattle.toml.specs.View.{view, items_view};
ghost use Rattle.room_acl.specs.Principals.{IsPrincipal};
ghost use Rattle.room_roster.specs.Rosters.{list_of_names};

use crate::fault::RosterFault;
use room_acl::Principal;
use std::alloc::Global;
use toml::Value;

/// The principal of this name.
pub(crate) fn principal(alloc: Global, text: &str) -> Result<Principal, RosterFault>
    ensures ok { IfOk result (λ name. (name ≡ text.now) × IsPrincipal text.now) }
    ensures bad { result ≡ Err RosterFault.Bad → ¬ IsPrincipal text.now }
{
    match Principal::new(alloc, text) {
        Ok(Some(name)) => Ok(name),
        Ok(None) => Err(RosterFault::Bad),
        Err(_) => Err(RosterFault::Memory),
    }
}

/// The group that a value names.
fn group(alloc: Global, value: &Value) -> Result<Principal, RosterFault>
    ensures ok { IfOk result (λ name. (view value.now ≡ string name) × IsPrincipal name) }
    ensures bad { result ≡ Err RosterFault.Bad → (name : List ℕ) → view value.now ≡ string name → ¬ IsPrincipal name }
{
    match value.as_str() {
        Some(text) => principal(alloc, text),
        None => Err(RosterFault::Bad),
    }
}

/// The groups that values name.
fn names(alloc: Global, values: &[Value]) -> Result<Vec<Principal>, RosterFault>
    ensures ok { IfOk result (λ names. (items_view values.now ≡ list_of_names names.items)
        × AllByRecursion IsPrincipal names.items) }
    ensures bad { result ≡ Err RosterFault.Bad → (names : List (List ℕ))
        → items_view values.now ≡ list_of_names names → ¬ AllByRecursion IsPrincipal names }
{
    let mut names = Vec::new(alloc);
    for value in values {
        names.push(group(alloc, value)?)?;
    }
    Ok(names)
}

/// The groups that a list names.
pub(crate) fn groups(alloc: Global, value: &Value) -> Result<Vec<Principal>, RosterFault>
    ensures ok { IfOk result (λ names. (view value.now ≡ array (list_of_names names.items))
        × AllByRecursion IsPrincipal names.items) }
    ensures bad { result ≡ Err RosterFault.Bad → (names : List (List ℕ))
        → view value.now ≡ array (list_of_names names) → ¬ AllByRecursion IsPrincipal names }
{
    match value.as_array() {
        Some(values) => names(alloc, values.as_slice()),
        None => Err(RosterFault::Bad),
    }
}
