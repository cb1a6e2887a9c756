//! Whether a chain is whole.

ghost use Rattle.std.specs.Prelude.{◌≡◌, ◌+◌, ◌<◌, ◌&&◌, ◌||◌, not, length, None, IfOk, MatchOption, MatchResult};
ghost use Rattle.std.specs.List.{list_all, position};
ghost use Rattle.dns_zone_tree.specs.TreeErrors.{tree_error};
ghost use Rattle.dns_denial.specs.Nsecs.{AreSorted, NsecState};
ghost use Rattle.dns_denial.specs.Chains.{IsChained, has_type, is_deniable, must_have};
ghost use Rattle.dns_denial.specs.Checks.{AreLinked, Breaks, IsUnlinked, StandsAt, is_there, is_unfounded, is_unlisted, lists_record, owner_behind};

use crate::chain_error::ChainError;
use crate::guide::Guide;
use crate::nsec::Nsec;
use crate::search::last_of;
use crate::standing::{Standing, standing_behind, standing_of};
use crate::types::{has_type, is_deniable, must_have};
use dns_base::Record;
use dns_name::{Name, OutOfMemory};
use dns_zone_tree::ZoneTree;
use std::alloc::Global;

/// Whether the type of a record is to be listed at its owner.
fn is_to_list(zone: &ZoneTree, resource: &Record, standing: &Standing<'_>, rtype: u16) -> bool
    requires { StandsAt zone.now resource.now.owner standing.now }
    ensures { result ≡ (is_deniable rtype && has_type zone.now resource.now.owner rtype) }
{
    is_deniable(rtype) && has_type(zone, &resource.owner, standing, rtype)
}

/// Whether an NSEC is that of a record's owner, and lists the record's type if it is to be listed.
fn lists_record(zone: &ZoneTree, resource: &Record, standing: &Standing<'_>, nsec: &Nsec) -> bool
    requires { StandsAt zone.now resource.now.owner standing.now }
    ensures { result ≡ lists_record zone.now resource.now nsec.now }
{
    let rtype = resource.rdata.rtype().to_int();
    *nsec.owner() == resource.owner
        && (!is_to_list(zone, resource, standing, rtype) || nsec.lists(rtype))
}

/// Whether a record is of a name that must have an NSEC, and there is none that lists it.
fn is_unlisted(
    zone: &ZoneTree,
    alloc: Global,
    nsecs: &[Nsec],
    guide: &Guide,
    resource: &Record,
    standing: &Standing<'_>,
) -> Result<bool, OutOfMemory>
    requires stands { StandsAt zone.now resource.now.owner standing.now }
    requires sorted { AreSorted nsecs.now }
    ensures { IfOk result (λ b. b ≡ is_unlisted zone.now nsecs.now resource.now) }
{
    if !must_have(zone, &resource.owner, standing) {
        return Ok(false);
    }
    match last_of(nsecs, guide, alloc, &resource.owner.for_ref())? {
        Some(nsec) => Ok(!lists_record(zone, resource, standing, nsec)),
        None => Ok(true),
    }
}

/// The place of the first record that no NSEC lists. A walk is made to the owner of each that isn't the owner of the one before.
fn first_unlisted(
    zone: &ZoneTree,
    alloc: Global,
    nsecs: &[Nsec],
    guide: &Guide,
    records: &[Record],
) -> Result<Option<usize>, OutOfMemory>
    requires zone { tree_error zone.now.apex zone.now.records ≡ None }
    requires sorted { AreSorted nsecs.now }
    ensures { IfOk result (λ p. p ≡ position (is_unlisted zone.now nsecs.now) records.now) }
{
    let mut owner = zone.apex();
    let mut standing = standing_of(zone, alloc, owner)?;
    'each: for (index, resource) in records.iter().enumerate() {
        standing = standing_behind(zone, alloc, owner, standing, &resource.owner)?;
        owner = &resource.owner;
        if is_unlisted(zone, alloc, nsecs, guide, resource, &standing)? {
            return Ok(Some(index));
        }
    }
    Ok(None)
}

/// Whether a type that an NSEC lists is there.
fn is_there(zone: &ZoneTree, nsec: &Nsec, standing: &Standing<'_>, rtype: u16) -> bool
    requires { StandsAt zone.now nsec.now.owner standing.now }
    ensures { result ≡ is_there zone.now nsec.now rtype }
{
    !is_deniable(rtype) || has_type(zone, nsec.owner(), standing, rtype)
}

/// Whether types that an NSEC lists are there.
fn are_all_there(zone: &ZoneTree, nsec: &Nsec, standing: &Standing<'_>, types: &[u16]) -> bool
    requires { StandsAt zone.now nsec.now.owner standing.now }
    ensures { result ≡ list_all (is_there zone.now nsec.now) types.now }
{
    'each: for rtype in types {
        if !is_there(zone, nsec, standing, *rtype) {
            return false;
        }
    }
    true
}

/// Whether the types that an NSEC lists are there.
fn are_there(zone: &ZoneTree, nsec: &Nsec, standing: &Standing<'_>) -> bool
    requires { StandsAt zone.now nsec.now.owner standing.now }
    ensures { result ≡ list_all (is_there zone.now nsec.now) nsec.now.types }
{
    let types = nsec.types();
    are_all_there(zone, nsec, standing, types)
}

/// Whether an NSEC is of a name that must have one, and lists types that the zone has there.
fn is_founded(zone: &ZoneTree, nsec: &Nsec, standing: &Standing<'_>) -> bool
    requires { StandsAt zone.now nsec.now.owner standing.now }
    ensures { result ≡ (must_have zone.now nsec.now.owner && list_all (is_there zone.now nsec.now) nsec.now.types) }
{
    must_have(zone, nsec.owner(), standing) && are_there(zone, nsec, standing)
}

/// Whether an NSEC is of a name that must have none, or lists a type that the zone doesn't have there.
fn is_unfounded(zone: &ZoneTree, alloc: Global, nsec: &Nsec) -> Result<bool, OutOfMemory>
    requires { tree_error zone.now.apex zone.now.records ≡ None }
    ensures { IfOk result (λ b. b ≡ is_unfounded zone.now nsec.now) }
{
    let standing = standing_of(zone, alloc, nsec.owner())?;
    Ok(!is_founded(zone, nsec, &standing))
}

/// The place of the first NSEC that is unfounded.
fn first_unfounded(
    zone: &ZoneTree,
    alloc: Global,
    nsecs: &[Nsec],
) -> Result<Option<usize>, OutOfMemory>
    requires { tree_error zone.now.apex zone.now.records ≡ None }
    ensures { IfOk result (λ p. p ≡ position (is_unfounded zone.now) nsecs.now) }
{
    'each: for (index, nsec) in nsecs.iter().enumerate() {
        if is_unfounded(zone, alloc, nsec)? {
            return Ok(Some(index));
        }
    }
    Ok(None)
}

/// The owner after a place; after the last one the apex.
fn owner_behind<'a>(apex: &'a Name, nsecs: &'a [Nsec], place: usize) -> &'a Name
    requires { place < length nsecs.now }
    ensures { (d : NsecState) → result.now ≡ owner_behind apex.now nsecs.now place d }
{
    if place + 1 < nsecs.len() {
        return nsecs[place + 1].owner();
    }
    apex
}

/// The place of the first NSEC that doesn't point to the one after it, or at the end to the apex.
fn first_unlinked(apex: &Name, nsecs: &[Nsec]) -> Option<usize>
    ensures { MatchOption result (AreLinked apex.now nsecs.now (length nsecs.now)) (λ k. IsUnlinked apex.now nsecs.now k) }
{
    'each: for place in 0..nsecs.len() {
        if *nsecs[place].next() != *owner_behind(apex, nsecs, place) {
            return Some(place);
        }
    }
    None
}

/// Decides whether the chain of a zone is whole.
pub(crate) fn checked(
    zone: &ZoneTree,
    alloc: Global,
    nsecs: &[Nsec],
    guide: &Guide,
) -> Result<(), ChainError>
    requires zone { tree_error zone.now.apex zone.now.records ≡ None }
    requires sorted { AreSorted nsecs.now }
    ensures { MatchResult result (λ _. IsChained zone.now nsecs.now) (λ e. Breaks zone.now nsecs.now e) }
{
    if let Some(index) = first_unlisted(zone, alloc, nsecs, guide, zone.records())? {
        return Err(ChainError::Unlisted(index));
    }
    if let Some(index) = first_unfounded(zone, alloc, nsecs)? {
        return Err(ChainError::Unfounded(index));
    }
    match first_unlinked(zone.apex(), nsecs) {
        Some(place) => Err(ChainError::Unlinked(place)),
        None => Ok(()),
    }
}
