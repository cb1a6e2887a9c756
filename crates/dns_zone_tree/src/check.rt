//! Which lists of records an authority serves.

ghost use Rattle.std.specs.Prelude.{◌≡◌, ◌-◌, List, length, nat_lt, None, Err, IfOk, MatchResult};
ghost use Rattle.std.specs.List.{filter, position};
ghost use Rattle.dns_base.specs.Records.{IsLawful};
ghost use Rattle.dns_message.specs.declared.record.Record.{Record};
ghost use Rattle.dns_zone.specs.Owned.{AreLawful, ZoneState, is_of};
ghost use Rattle.dns_zone.specs.ZoneErrors.{is_outside};
ghost use Rattle.dns_zone_tree.specs.Kinds.{kind_places};
ghost use Rattle.dns_zone_tree.specs.Names.{KnowsNames};
ghost use Rattle.dns_zone_tree.specs.TreeErrors.{Makes, has_defect, has_wild_servers, is_crowded, is_wild, place_error, refused, soa_error, tree_error};

use crate::error::TreeError;
use crate::keys::names_of;
use crate::kinds::{ANY, Kinds};
use crate::names::Names;
use dns_base::{Class, ComposeRecord, Record, Rtype};
use dns_name::{Name, OutOfMemory};
use dns_order::canonical_key;
use dns_route::matches_are_suffixes;
use std::alloc::Global;

/// How many octets a record takes at most.
const RECORD_LIMIT: usize = 65000;

/// The defects of a list of records that are found in one pass.
#[derive(Clone, Copy)]
pub(crate) enum RecordDefect {
    /// An owner that doesn't end with the apex.
    OutsideApex,
    /// Another class than IN.
    OtherClass,
    /// The type OPT.
    IsOpt,
    /// The type SOA, and another owner than the apex.
    Misplaced,
    /// The type NS, and a wildcard as its owner.
    WildServers,
    /// More octets than a reply has room for.
    TooLong,
}

impl RecordDefect {
    /// Whether a record has it, if the apex is this name.
    fn is_in(self, apex: &Name, resource: &Record) -> bool
        requires { IsLawful resource.now.rdata }
        ensures { result ≡ has_defect self apex.now resource.now }
    {
        match self {
            RecordDefect::OutsideApex => is_outside(apex, resource),
            RecordDefect::OtherClass => resource.class != Class::IN,
            RecordDefect::IsOpt => resource.rdata.rtype() == Rtype::OPT,
            RecordDefect::Misplaced => resource.rdata.rtype() == Rtype::SOA
                && resource.owner != *apex,
            RecordDefect::WildServers => has_wild_servers(resource),
            RecordDefect::TooLong => resource.compose_len() > RECORD_LIMIT,
        }
    }
}

/// Whether the owner of a record doesn't end with the apex.
fn is_outside(apex: &Name, resource: &Record) -> bool
    ensures { result ≡ is_outside apex.now resource.now }
{
    matches_are_suffixes();
    !resource.owner.ends_with(&apex.for_ref())
}

/// Whether a record is an NS record at a wildcard.
fn has_wild_servers(resource: &Record) -> bool
    ensures { result ≡ has_wild_servers resource.now }
{
    resource.rdata.rtype() == Rtype::NS && is_wild(&resource.owner)
}

/// Whether the first label of a name is `*`.
fn is_wild(name: &Name) -> bool
    ensures { result ≡ is_wild name.now }
{
    match name.labels().next() {
        Some(label) => label == b"*".as_slice(),
        None => false,
    }
}

/// The place of the first record that has a fault.
fn first_with(fault: RecordDefect, apex: &Name, records: &[Record]) -> Option<usize>
    requires { AreLawful records.now }
    ensures { result ≡ position (has_defect fault apex.now) records.now }
{
    'each: for (index, record) in records.iter().enumerate() {
        if fault.is_in(apex, record) {
            return Some(index);
        }
    }
    None
}

/// How many SOA records there are.
fn count_soa(records: &[Record]) -> usize
    ensures { result ≡ length (filter (is_of 6) records.now) }
{
    let mut count = 0;
    'each: for record in records {
        if record.rdata.rtype() == Rtype::SOA {
            count += 1;
        }
    }
    count
}

/// Refuses a list for a cause that comes before the number of SOA records.
fn check_places(apex: &Name, records: &[Record]) -> Result<(), TreeError>
    requires { AreLawful records.now }
    ensures { result ≡ refused (place_error apex.now records.now) }
{
    if let Some(index) = first_with(RecordDefect::OutsideApex, apex, records) {
        return Err(TreeError::Outside(index));
    }
    if let Some(index) = first_with(RecordDefect::OtherClass, apex, records) {
        return Err(TreeError::Class(index));
    }
    if let Some(index) = first_with(RecordDefect::IsOpt, apex, records) {
        return Err(TreeError::Opt(index));
    }
    Ok(())
}

/// Refuses a list for the number of SOA records, or for a cause that comes after.
fn check_soa(apex: &Name, records: &[Record]) -> Result<(), TreeError>
    requires { AreLawful records.now }
    ensures { result ≡ refused (soa_error apex.now records.now) }
{
    let count = count_soa(records);
    if count != 1 {
        return Err(TreeError::Soa(count));
    }
    if let Some(index) = first_with(RecordDefect::Misplaced, apex, records) {
        return Err(TreeError::SoaPlace(index));
    }
    if let Some(index) = first_with(RecordDefect::WildServers, apex, records) {
        return Err(TreeError::WildNs(index));
    }
    if let Some(index) = first_with(RecordDefect::TooLong, apex, records) {
        return Err(TreeError::Long(index));
    }
    Ok(())
}

/// Whether a name has more records than one besides RRSIG and NSEC.
fn has_others(kinds: &Kinds) -> bool
    ensures { result ≡ nat_lt 1 (length (kind_places 255 kinds.now) - length (kind_places 46 kinds.now) - length
        (kind_places 47 kinds.now)) }
{
    let signatures = kinds.count(Rtype::RRSIG.to_int());
    let denials = kinds.count(Rtype::NSEC.to_int());
    let all = kinds.count(ANY);
    all.saturating_sub(signatures).saturating_sub(denials) > 1
}

/// Whether a record is a CNAME whose owner has another record, except for RRSIG and NSEC.
fn is_crowded(alloc: Global, names: &Names, resource: &Record) -> Result<bool, OutOfMemory>
    ensures { (rs : List Record) → KnowsNames names.now rs → IfOk result (λ b. b ≡ is_crowded rs resource.now) }
{
    if resource.rdata.rtype() != Rtype::CNAME {
        return Ok(false);
    }
    let key = canonical_key(alloc, &resource.owner.for_ref())?;
    match names.kinds_at(key.as_slice()) {
        Some(kinds) => Ok(has_others(kinds)),
        None => Ok(false),
    }
}

/// The place of the first CNAME whose owner has another record, except for RRSIG and NSEC.
fn first_crowded(
    alloc: Global,
    names: &Names,
    records: &[Record],
) -> Result<Option<usize>, OutOfMemory>
    requires { KnowsNames names.now records.now }
    ensures { IfOk result (λ p. p ≡ position (is_crowded records.now) records.now) }
{
    'each: for (index, record) in records.iter().enumerate() {
        if is_crowded(alloc, names, record)? {
            return Ok(Some(index));
        }
    }
    Ok(None)
}

/// The places of the records of a list that is served, or the first cause why it isn't.
pub(crate) fn checked(alloc: Global, apex: &Name, records: &[Record]) -> Result<Names, TreeError>
    requires { AreLawful records.now }
    ensures { MatchResult result (λ n. (tree_error apex.now records.now ≡ None) × KnowsNames n records.now)
        (λ e. (z : ZoneState) → Makes (tree_error apex.now records.now) z (Err e)) }
{
    check_places(apex, records)?;
    check_soa(apex, records)?;
    let names = names_of(alloc, records)?;
    match first_crowded(alloc, &names, records)? {
        Some(index) => Err(TreeError::Cname(index)),
        None => Ok(names),
    }
}
