//! Which lists of records are zones.

ghost use Rattle.std.specs.Prelude.{◌≡◌, List, length, None, Err, IfOk, MatchResult};
ghost use Rattle.std.specs.List.{AllByRecursion, filter, position};
ghost use Rattle.dns_route.specs.Routes.{ends_name};
ghost use Rattle.dns_message.specs.declared.record.Record.{Record};
ghost use Rattle.dns_zone.specs.Defects.{has_defect, list_error, refused, soa_error};
ghost use Rattle.dns_zone.specs.ZoneIndex.{KnowsPlaces};
ghost use Rattle.dns_zone.specs.Owned.{HasNamedData, ZoneState, is_of};
ghost use Rattle.dns_zone.specs.ZoneErrors.{Makes, is_crowded, zone_error};

use crate::error::ZoneError;
use crate::kinds::ANY;
use crate::listing::names_of;
use crate::name_places::NamePlaces;
use crate::path::path_of_name;
use dns_base::{Class, Record, Rtype};
use dns_name::{Name, OutOfMemory};
use dns_route::matches_are_suffixes;
use std::alloc::Global;

/// Why a record can't stand in the zone of an apex.
#[derive(Clone, Copy, Debug, PartialEq, Eq)]
pub(crate) enum ZoneDefect {
    /// An owner that doesn't end with the apex.
    OutsideApex,
    /// Another class than IN.
    OtherClass,
    /// The type OPT.
    IsOpt,
    /// The type SOA, and another owner than the apex.
    Misplaced,
}

impl ZoneDefect {
    /// Whether a record has it, if the apex is this name.
    fn is_in(self, apex: &Name, resource: &Record) -> bool
        ensures { result ≡ has_defect self apex.now resource.now }
    {
        match self {
            ZoneDefect::OutsideApex => !ends(&resource.owner, apex),
            ZoneDefect::OtherClass => resource.class != Class::IN,
            ZoneDefect::IsOpt => resource.rdata.rtype() == Rtype::OPT,
            ZoneDefect::Misplaced => resource.rdata.rtype() == Rtype::SOA
                && resource.owner != *apex,
        }
    }
}

/// Whether a name ends with another, as definitions name it.
pub(crate) fn ends(name: &Name, other: &Name) -> bool
    ensures { result ≡ ends_name name.now other.now }
{
    matches_are_suffixes();
    name.ends_with(&other.for_ref())
}

/// The place of the first record that has a fault.
fn first_with(defect: ZoneDefect, apex: &Name, records: &[Record]) -> Option<usize>
    ensures { result ≡ position (has_defect defect apex.now) records.now }
{
    'each: for (index, record) in records.iter().enumerate() {
        if defect.is_in(apex, record) {
            return Some(index);
        }
    }
    None
}

/// How many SOA records there are.
fn count_soa(records: &[Record]) -> usize
    ensures { result ≡ length (filter (is_of 6) records.now) }
{
    let mut count = 0;
    'each: for record in records {
        if record.rdata.rtype() == Rtype::SOA {
            count += 1;
        }
    }
    count
}

/// Refuses a list that is no zone, aliases aside.
fn check_list(apex: &Name, records: &[Record]) -> Result<(), ZoneError>
    ensures { result ≡ refused (list_error apex.now records.now) }
{
    if let Some(index) = first_with(ZoneDefect::OutsideApex, apex, records) {
        return Err(ZoneError::Outside { index });
    }
    if let Some(index) = first_with(ZoneDefect::OtherClass, apex, records) {
        return Err(ZoneError::Class { index });
    }
    if let Some(index) = first_with(ZoneDefect::IsOpt, apex, records) {
        return Err(ZoneError::Opt { index });
    }
    check_soa(apex, records)
}

/// Refuses a list without one SOA record at the apex.
fn check_soa(apex: &Name, records: &[Record]) -> Result<(), ZoneError>
    ensures { result ≡ refused (soa_error apex.now records.now) }
{
    let count = count_soa(records);
    if count != 1 {
        return Err(ZoneError::Soa { count });
    }
    if let Some(index) = first_with(ZoneDefect::Misplaced, apex, records) {
        return Err(ZoneError::SoaPlace { index });
    }
    Ok(())
}

/// Whether a record is a CNAME whose owner has another record.
fn is_crowded(alloc: Global, names: &NamePlaces, resource: &Record) -> Result<bool, OutOfMemory>
    ensures { (rs : List Record) → KnowsPlaces names.now rs → IfOk result (λ b. b ≡ is_crowded rs resource.now) }
{
    if resource.rdata.rtype() != Rtype::CNAME {
        return Ok(false);
    }
    let path = path_of_name(alloc, &resource.owner)?;
    match names.find(path.as_slice(), ANY) {
        Some(places) => Ok(places.len() > 1),
        None => Ok(false),
    }
}

/// The place of the first CNAME whose owner has another record.
fn first_crowded(
    alloc: Global,
    names: &NamePlaces,
    records: &[Record],
) -> Result<Option<usize>, OutOfMemory>
    requires { KnowsPlaces names.now records.now }
    ensures { IfOk result (λ p. p ≡ position (is_crowded records.now) records.now) }
{
    'each: for (index, record) in records.iter().enumerate() {
        if is_crowded(alloc, names, record)? {
            return Ok(Some(index));
        }
    }
    Ok(None)
}

/// The places of the records of a list that is a zone, or the first cause why it is none.
pub(crate) fn checked(
    alloc: Global,
    apex: &Name,
    records: &[Record],
) -> Result<NamePlaces, ZoneError>
    ensures { MatchResult result (λ n. (zone_error apex.now records.now ≡ None) × KnowsPlaces n records.now
        × AllByRecursion HasNamedData records.now) (λ e. (z : ZoneState) → Makes (zone_error apex.now records.now) z (Err e)) }
{
    check_list(apex, records)?;
    let names = names_of(alloc, records)?;
    match first_crowded(alloc, &names, records)? {
        Some(index) => Err(ZoneError::Cname { index }),
        None => Ok(names),
    }
}
