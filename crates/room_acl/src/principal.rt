//! Names of users and groups.
ghost use Rattle.std.specs.Prelude.{◌≡◌, ℕ, List, IfOk, IsSome, IfSome, ◌↔◌, string_bytes};
ghost use Rattle.std.proofs.Common.{rules};
ghost use Rattle.std.specs.Cmp.Rules.{comparing};
ghost use Rattle.std.specs.List.{list_all};
ghost use Rattle.std.specs.Str.{bytes_eq};
ghost use Rattle.room_acl.specs.Principals.{IsPrincipal, is_principal_byte, principal_from};

use std::alloc::{AllocError, Global};
use std::marker::Model;

/// Bytes in a name.
const MAX_BYTES: usize = 32;

/// A name of a user or of a group: 1 to 32 ASCII letters, digits, `.`, `_` or `-` (our own rule).
#[derive(Debug, Drop)]
pub struct Principal {
    text: String,
}

impl Model for Principal {
    ghost Value = { List ℕ };

    ghost view = { λ p. string_bytes p.text };

    ghost invariant = { λ p. IsPrincipal (string_bytes p.text) };
}

impl PartialEq for Principal {
    ghost eq = { bytes_eq };

    ghost laws = { Prim.search (comparing, rules) };

    fn eq(&self, other: &Principal) -> bool {
        self.text == other.text
    }
}

impl Eq for Principal {
    ghost laws = { Prim.search (comparing, rules) };
}

/// The same names once more, in the same order. AllocError where memory is refused.
pub fn copy_principals(alloc: Global, names: &[Principal]) -> Result<Vec<Principal>, AllocError>
    ensures { IfOk result (λ copy. copy.items ≡ names.now) }
{
    let mut copy = Vec::new(alloc);
    for name in names {
        copy.push(name.clone()?)?;
    }
    Ok(copy)
}

impl Principal {
    /// The principal of this name: Ok(None) where the text is none. AllocError where memory is refused.
    pub fn new(alloc: Global, text: &str) -> Result<Option<Principal>, AllocError>
        ensures lawful { IfOk result (λ made. IsSome made ↔ IsPrincipal text.now) }
        ensures value { IfOk result (λ made. IfSome made (λ name. name ≡ text.now)) }
        ensures read { IfOk result (λ made. made ≡ principal_from text.now) }
    {
        if text.len() < 1 || text.len() > MAX_BYTES || !all_principal_bytes(text.as_bytes()) {
            return Ok(None);
        }
        let text = String::from_str(alloc, text)?;
        Ok(Some(Principal { text }))
    }

    /// The text of the name.
    pub fn text(&self) -> &str
        ensures value { result.now ≡ self.now }
        ensures lawful { IsPrincipal self.now }
    {
        self.text.as_str()
    }

    /// The same name once more. AllocError where memory is refused, and nothing has changed then.
    pub fn clone(&self) -> Result<Principal, AllocError>
        ensures { IfOk result (λ copy. copy ≡ self.now) }
    {
        let text = self.text.clone()?;
        Ok(Principal { text })
    }
}

fn all_principal_bytes(bytes: &[u8]) -> bool
    ensures { result ≡ list_all is_principal_byte bytes.now }
{
    bytes.iter().all(|b| is_principal_byte(*b))
}

fn is_principal_byte(b: u8) -> bool
    ensures { result ≡ is_principal_byte b }
{
    (97 <= b && b <= 122)
        || (65 <= b && b <= 90)
        || (48 <= b && b <= 57)
        || b == 46
        || b == 95
        || b == 45
}
