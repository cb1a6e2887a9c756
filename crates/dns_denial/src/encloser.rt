//! The closest encloser that an NSEC shows, and the wildcard below it.

ghost use Rattle.std.specs.Prelude.{◌≡◌, IfOk, MatchOption};
ghost use Rattle.dns_order.specs.Keys.{canonical_key};
ghost use Rattle.dns_denial.specs.Denials.{IsTooLong};
ghost use Rattle.dns_denial.specs.Validation.{shown_encloser, shown_wildcard};

use crate::nsec::Nsec;
use dns_name::{NameRef, OutOfMemory};
use dns_order::canonical_key;
use std::alloc::Global;

/// The longest name that a name ends with, and the owner or the next name of an NSEC ends with too.
fn encloser<'a>(nsec: &Nsec, name: &NameRef<'a>) -> NameRef<'a>
    ensures { result ≡ shown_encloser nsec.now name.now }
{
    let mut left = name.behind(0);
    'labels: while left.label_count() > 1 {
        if nsec.is_below(&left) || nsec.leads_below(&left) {
            return left;
        }
        left = left.behind(1);
    }
    left
}

/// The key of the wildcard below the encloser that an NSEC shows of a name; none if the wildcard would be too long.
#[tactic(auto, using(dns_zone_tree::proofs::NameLaws::star_key))]
pub(crate) fn wildcard_key(
    alloc: Global,
    nsec: &Nsec,
    name: &NameRef<'_>,
) -> Result<Option<Vec<u8>>, OutOfMemory>
    ensures { IfOk result (λ k. MatchOption k (IsTooLong nsec.now name.now) (λ v. v.items ≡ canonical_key (shown_wildcard nsec.now name.now))) }
{
    let _octets = name.as_slice();
    let above = encloser(nsec, name);
    if above.as_slice().len() > 253 {
        return Ok(None);
    }
    let mut key = canonical_key(alloc, &above)?;
    key.push(b'*')?;
    key.push(0)?;
    Ok(Some(key))
}
