//! The owner and the group of a room to be.
ghost use Rattle.std.specs.Prelude.{◌≡◌, IfOk, IfErr};
ghost use Rattle.room_acl.specs.Principals.{IsPrincipal};
ghost use Rattle.room_program.specs.Ends.{IsNameFault};

use crate::fault::Fault;
use room_acl::{Principal, Standing};
use std::alloc::Global;

/// The principal of this name.
fn principal(alloc: Global, name: &str) -> Result<Principal, Fault>
    ensures ok { IfOk result (λ p. (p ≡ name.now) × IsPrincipal name.now) }
    ensures fault { IfErr result (IsNameFault (IsPrincipal name.now)) }
{
    Principal::new(alloc, name)?.ok_or(Fault::BadName)
}

/// The owner and the group of these names.
pub(crate) fn standing(alloc: Global, owner: &str, group: &str) -> Result<Standing, Fault>
    ensures ok { IfOk result (λ s. (s.owner ≡ owner.now) × (s.group ≡ group.now)
        × (IsPrincipal owner.now × IsPrincipal group.now)) }
    ensures fault { IfErr result (IsNameFault (IsPrincipal owner.now × IsPrincipal group.now)) }
{
    let owner = principal(alloc, owner)?;
    let group = principal(alloc, group)?;
    Ok(Standing { owner, group })
}
