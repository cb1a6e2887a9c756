//! NSEC records as a zone has them (RFC 4034, section 4.1).

ghost use Rattle.std.specs.Prelude.{◌≡◌, IfOk, MatchOption, MatchResult};
ghost use Rattle.dns_zone.specs.Owned.{is_of};
ghost use Rattle.dns_nsec_data.specs.NsecData.{AreNsecs, Fails, IsNoNsec, IsNsec, Keeps, KeepsOne, SaysNext, SaysNothing, nsec_records, unknown_octets};

use crate::bit_maps::types_in;
use crate::nsec_error::NsecError;
use dns_denial::Nsec;
use dns_message::{Record, RecordData};
use dns_name::{Name, NameRef, OutOfMemory};
use std::alloc::Global;

/// The type of NSEC records.
const NSEC: u16 = 47;

/// The next name and the types of an NSEC.
#[derive(Drop)]
struct Next {
    name: Name,
    types: Vec<u16>,
}

/// What NSEC data says; none if octets are no such data.
fn next_in(alloc: Global, octets: &[u8]) -> Result<Option<Next>, OutOfMemory>
    ensures { IfOk result (λ o. MatchOption o (SaysNothing octets.now) (λ d. SaysNext octets.now d.name d.types.items)) }
{
    let Ok((next, end)) = NameRef::at(octets, 0) else {
        return Ok(None);
    };
    match types_in(alloc, &octets[end..])? {
        Some(types) => {
            let name = next.to_owned(alloc)?;
            Ok(Some(Next { name, types }))
        }
        None => Ok(None),
    }
}

/// The octets of data of a type like NSEC.
pub(crate) fn unknown_octets(resource: &Record) -> &[u8]
    ensures { result.now ≡ unknown_octets resource.now.rdata }
{
    match &resource.rdata {
        RecordData::Unknown { octets, .. } => octets.as_slice(),
        _ => &[],
    }
}

/// The NSEC that a record is; none if its data isn't that of one.
pub fn nsec_in(alloc: Global, resource: &Record) -> Result<Option<Nsec>, OutOfMemory>
    ensures { IfOk result (λ o. MatchOption o (IsNoNsec resource.now) (IsNsec resource.now)) }
{
    match next_in(alloc, unknown_octets(resource))? {
        Some(next) => {
            let owner = resource.owner.try_clone(alloc)?;
            let nsec = Nsec::new(alloc, owner, next.name, next.types)?;
            Ok(Some(nsec))
        }
        None => Ok(None),
    }
}

/// Whether a record is of type NSEC.
fn is_nsec(resource: &Record) -> bool
    ensures { result ≡ is_of 47 resource.now }
{
    resource.rdata.rtype().to_int() == NSEC
}

/// Keeps the NSEC of a record. Gives true, and keeps none, if its data isn't that of one.
fn keep_one(alloc: Global, resource: &Record, nsecs: &mut Vec<Nsec>) -> Result<bool, OutOfMemory>
    ensures { IfOk result (KeepsOne resource.now nsecs.old.items nsecs.new.items) }
{
    match nsec_in(alloc, resource)? {
        Some(nsec) => {
            nsecs.push(nsec)?;
            Ok(false)
        }
        None => Ok(true),
    }
}

/// Keeps the NSEC of a record, if its type is NSEC. Gives true if its data isn't that of one.
fn keep_nsec(alloc: Global, resource: &Record, nsecs: &mut Vec<Nsec>) -> Result<bool, OutOfMemory>
    ensures { IfOk result (Keeps resource.now nsecs.old.items nsecs.new.items) }
{
    if is_nsec(resource) {
        return keep_one(alloc, resource, nsecs);
    }
    Ok(false)
}

/// The NSECs of the NSEC records of a list, in their order.
pub fn nsecs_in(alloc: Global, records: &[Record]) -> Result<Vec<Nsec>, NsecError>
    ensures { MatchResult result (λ v. AreNsecs (nsec_records records.now) v.items) (Fails records.now) }
{
    let mut nsecs = Vec::new(alloc);
    'each: for (index, resource) in records.iter().enumerate() {
        if keep_nsec(alloc, resource, &mut nsecs)? {
            return Err(NsecError::Malformed(index));
        }
    }
    Ok(nsecs)
}
