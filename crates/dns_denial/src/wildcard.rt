//! The wildcard below a name.

ghost use Rattle.std.specs.Prelude.{◌≡◌, ◌<◌, ◌≤◌, ◌+◌, ◌++◌, ◌∷◌, [], length, IfOk, MatchOption};
ghost use Rattle.dns_name.specs.Labels.{spell};
ghost use Rattle.dns_zone_tree.specs.Wildcards.{star};

use dns_name::{Name, NameRef, OutOfMemory, names_are_the_grammar};
use std::alloc::Global;

/// The wildcard below a name; none if it would be too long.
pub fn wildcard_below(alloc: Global, name: &NameRef<'_>) -> Result<Option<Name>, OutOfMemory>
    ensures { IfOk result (λ w. MatchOption w (253 < length (spell name.now)) (λ n. n ≡ star ∷ name.now)) }
{
    let octets = name.as_slice();
    if octets.len() > 253 {
        return Ok(None);
    }
    let mut spelt = Vec::from_slice(alloc, &[1, 42])?;
    spelt.extend_from_slice(octets)?;
    names_are_the_grammar();
    match Name::from_octets(spelt) {
        Ok(wildcard) => Ok(Some(wildcard)),
        Err(_) => unreachable!(),
    }
}
