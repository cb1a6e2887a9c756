//! The chain of the NSEC records of a list.

ghost use Rattle.std.specs.Prelude.{◌≡◌, IfOk, MatchResult};
ghost use Rattle.std.specs.List.Sorted.{IsPermutation, IsSortedBy};
ghost use Rattle.dns_name.specs.Canonical.{name_cmp};
ghost use Rattle.dns_nsec_data.specs.NsecData.{AreNsecs, Fails, IsChainOf, is_ahead, nsec_records};

use crate::nsec_data::nsecs_in;
use crate::nsec_error::NsecError;
use dns_denial::{Chain, Nsec};
use dns_message::Record;
use dns_name::OutOfMemory;
use std::alloc::Global;
use std::cmp::Ordering;

/// How the owners of two NSECs compare.
fn compare(one: &Nsec, other: &Nsec) -> Ordering
    ensures { result ≡ name_cmp one.now.owner other.now.owner }
{
    one.owner().name_cmp(&other.owner().for_ref())
}

/// NSECs in the order of their owners.
fn sorted(nsecs: Vec<Nsec>) -> Result<Vec<Nsec>, OutOfMemory>
    ensures order { IfOk result (λ v. IsPermutation nsecs.items v.items) }
    ensures sorted { IfOk result (λ v. IsSortedBy is_ahead v.items) }
{
    let mut nsecs = nsecs;
    nsecs.sort_by(|one, other| compare(one, other))?;
    Ok(nsecs)
}

/// The chain of the NSEC records of a list: their NSECs in canonical order.
pub fn chain_in(alloc: Global, records: &[Record]) -> Result<Chain, NsecError>
    ensures { MatchResult result (IsChainOf records.now) (Fails records.now) }
{
    match nsecs_in(alloc, records) {
        Ok(nsecs) => {
            let nsecs = sorted(nsecs)?;
            match Chain::of(nsecs) {
                Some(chain) => Ok(chain),
                None => Err(NsecError::Twice),
            }
        }
        Err(error) => Err(error),
    }
}
