//! The chain of a zone's NSEC3 records.

ghost use Rattle.std.specs.Prelude.{◌≡◌, IfOk, MatchResult};
ghost use Rattle.std.specs.List.Sorted.{IsPermutation, IsSortedBy};
ghost use Rattle.std.specs.Ordering.{nat_cmp};
ghost use Rattle.std.specs.Cmp.Lexicographic.{slice_cmp};
ghost use Rattle.dns_nsec3_data.specs.Nsec3Data.{Fails3, IsChain3Of, IsHashedOf3, is_ahead3};

use crate::nsec3_data::nsec3s_in;
use crate::nsec3_error::Nsec3Error;
use crate::parameters::{hashing_of, param_in};
use dns_denial::{HashedChain, Hashing, Nsec3};
use dns_message::Record;
use dns_name::{Name, OutOfMemory};
use std::alloc::Global;
use std::cmp::Ordering;

/// The hashing of a zone, and its NSEC3s in the order of their hashes.
#[derive(Drop)]
pub struct HashedNames {
    /// The hash of names.
    pub hashing: Hashing,
    /// The NSEC3s.
    pub chain: HashedChain,
}

/// How the hashes of two NSEC3s compare.
fn compare(one: &Nsec3, other: &Nsec3) -> Ordering
    ensures { result ≡ slice_cmp nat_cmp one.now.hash other.now.hash }
{
    let own: &[u8] = one.hash();
    let others: &[u8] = other.hash();
    own.cmp(others)
}

/// NSEC3s in the order of their hashes.
fn sorted(nsecs: Vec<Nsec3>) -> Result<Vec<Nsec3>, OutOfMemory>
    ensures order { IfOk result (λ v. IsPermutation nsecs.items v.items) }
    ensures sorted { IfOk result (λ v. IsSortedBy is_ahead3 v.items) }
{
    let mut nsecs = nsecs;
    nsecs.sort_by(|one, other| compare(one, other))?;
    Ok(nsecs)
}

/// The hashing and the chain of a zone that begins at an apex and has these records.
pub fn hashed_names_in(
    alloc: Global,
    apex: &Name,
    records: &[Record],
) -> Result<HashedNames, Nsec3Error>
    ensures { MatchResult result (λ n. IsHashedOf3 apex.now records.now n.hashing n.chain) (Fails3 apex.now records.now) }
{
    let param = param_in(apex, records)?;
    let hashing = hashing_of(alloc, &param)?;
    let nsecs = nsec3s_in(alloc, apex, &param, records)?;
    let nsecs = sorted(nsecs)?;
    match HashedChain::of(nsecs) {
        Some(chain) => Ok(HashedNames { hashing, chain }),
        None => Err(Nsec3Error::Twice),
    }
}
