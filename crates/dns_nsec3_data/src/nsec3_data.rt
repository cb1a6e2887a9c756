//! NSEC3 records as a zone has them (RFC 5155, section 3).

ghost use Rattle.std.specs.Prelude.{◌≡◌, ◌≢◌, ◌↔◌, length, IfOk, IsTrue, MatchOption, MatchResult};
ghost use Rattle.dns_zone.specs.Owned.{is_of};
ghost use Rattle.dns_nsec3_data.specs.Nsec3Data.{AreNsec3s, Fails3, HasHash, HasNoHash, IsFor, IsHashing, IsNoNsec3, IsNsec3, Keeps3, KeepsOne3, SaysNext3, SaysNothing3, nsec3_records};

use crate::nsec3_error::Nsec3Error;
use crate::parameters::{Param, Parameters, parameters_in, unknown_octets};
use dns_denial::Nsec3;
use dns_message::Record;
use dns_name::{Name, NameRef, OutOfMemory};
use dns_nsec_data::types_in;
use dns_word_values::base32_octets;
use std::alloc::Global;

/// The type of NSEC3 records.
const NSEC3: u16 = 50;

/// The flag Opt-Out (RFC 5155, section 3.1.2.1).
const OPT_OUT: u8 = 1;

/// The next hash and the types of an NSEC3.
#[derive(Drop)]
struct Next {
    hash: [u8; 20],
    types: Vec<u16>,
}

/// The 20 octets of a hash.
fn hash_of(octets: &[u8]) -> [u8; 20]
    requires { length octets.now ≡ 20 }
    ensures { result ≡ octets.now }
{
    let mut hash = [0u8; 20];
    hash.copy_from_slice(octets);
    hash
}

/// The octets of a hash as an array; none if they aren't 20.
fn hash_in(octets: &[u8]) -> Option<[u8; 20]>
    ensures { MatchOption result (length octets.now ≢ 20) (λ h. h ≡ octets.now) }
{
    if octets.len() != 20 {
        return None;
    }
    Some(hash_of(octets))
}

/// The hash that the first label of an owner is in base 32, where the apex is after it.
pub fn owner_hash(
    alloc: Global,
    apex: &Name,
    owner: &NameRef<'_>,
) -> Result<Option<[u8; 20]>, OutOfMemory>
    ensures { IfOk result (λ o. MatchOption o (HasNoHash apex.now owner.now) (HasHash apex.now owner.now)) }
{
    let mut labels = owner.labels();
    let Some(label) = labels.next() else {
        return Ok(None);
    };
    if !owner.behind(1).name_eq(&apex.for_ref()) {
        return Ok(None);
    }
    match base32_octets(alloc, label)? {
        Some(octets) => Ok(hash_in(octets.as_slice())),
        None => Ok(None),
    }
}

/// What the data of an NSEC3 record says after its parameters; none if octets are no such data.
fn next_in(alloc: Global, left: &[u8]) -> Result<Option<Next>, OutOfMemory>
    ensures { IfOk result (λ o. MatchOption o (SaysNothing3 left.now) (λ d. SaysNext3 left.now d.hash d.types.items)) }
{
    if left.len() < 21 {
        return Ok(None);
    }
    if left[0] != 20 {
        return Ok(None);
    }
    match types_in(alloc, &left[21..])? {
        Some(types) => {
            let hash = hash_of(&left[1..21]);
            Ok(Some(Next { hash, types }))
        }
        None => Ok(None),
    }
}

/// Whether parameters are those of a zone, with no other flag than Opt-Out.
fn is_for(found: &Parameters<'_>, param: &Param<'_>) -> bool
    ensures { IsTrue result ↔ IsFor found.now.flags (record { salt = found.now.salt.now; iterations = found.now.iterations })
        (record { salt = param.now.salt.now; iterations = param.now.iterations }) }
{
    found.flags <= OPT_OUT && found.iterations == param.iterations && found.salt == param.salt
}

/// The NSEC3 that a record is, for the parameters of a zone; none if it isn't one.
pub(crate) fn nsec3_in(
    alloc: Global,
    apex: &Name,
    param: &Param<'_>,
    resource: &Record,
) -> Result<Option<Nsec3>, OutOfMemory>
    ensures { IfOk result (λ o.
        MatchOption o (IsNoNsec3 apex.now (record { salt = param.now.salt.now; iterations = param.now.iterations }) resource.now)
        (IsNsec3 apex.now (record { salt = param.now.salt.now; iterations = param.now.iterations }) resource.now)) }
{
    let Some(found) = parameters_in(unknown_octets(resource)) else {
        return Ok(None);
    };
    if !is_for(&found, param) {
        return Ok(None);
    }
    let Some(hash) = owner_hash(alloc, apex, &resource.owner.for_ref())? else {
        return Ok(None);
    };
    match next_in(alloc, found.left)? {
        Some(next) => {
            let nsec = Nsec3::new(hash, found.flags == OPT_OUT, next.hash, next.types);
            Ok(Some(nsec))
        }
        None => Ok(None),
    }
}

/// Whether a record is of type NSEC3.
fn is_nsec3(resource: &Record) -> bool
    ensures { result ≡ is_of 50 resource.now }
{
    resource.rdata.rtype().to_int() == NSEC3
}

/// Keeps the NSEC3 of a record. Gives true, and keeps none, if its data isn't that of one.
fn keep_one(
    alloc: Global,
    apex: &Name,
    param: &Param<'_>,
    resource: &Record,
    nsecs: &mut Vec<Nsec3>,
) -> Result<bool, OutOfMemory>
    ensures { IfOk result (KeepsOne3 apex.now (record { salt = param.now.salt.now; iterations = param.now.iterations }) resource.now
        nsecs.old.items nsecs.new.items) }
{
    match nsec3_in(alloc, apex, param, resource)? {
        Some(nsec) => {
            nsecs.push(nsec)?;
            Ok(false)
        }
        None => Ok(true),
    }
}

/// Keeps the NSEC3 of a record, if its type is NSEC3. Gives true if its data isn't that of one.
fn keep_nsec3(
    alloc: Global,
    apex: &Name,
    param: &Param<'_>,
    resource: &Record,
    nsecs: &mut Vec<Nsec3>,
) -> Result<bool, OutOfMemory>
    ensures { IfOk result (Keeps3 apex.now (record { salt = param.now.salt.now; iterations = param.now.iterations }) resource.now
        nsecs.old.items nsecs.new.items) }
{
    if is_nsec3(resource) {
        return keep_one(alloc, apex, param, resource, nsecs);
    }
    Ok(false)
}

/// The NSEC3s of the NSEC3 records of a list, in their order.
pub(crate) fn nsec3s_in(
    alloc: Global,
    apex: &Name,
    param: &Param<'_>,
    records: &[Record],
) -> Result<Vec<Nsec3>, Nsec3Error>
    requires { IsHashing apex.now records.now (record { salt = param.now.salt.now; iterations = param.now.iterations }) }
    ensures { MatchResult result (λ v. AreNsec3s apex.now (record { salt = param.now.salt.now; iterations = param.now.iterations })
        (nsec3_records records.now) v.items) (Fails3 apex.now records.now) }
{
    let mut nsecs = Vec::new(alloc);
    'each: for (index, resource) in records.iter().enumerate() {
        if keep_nsec3(alloc, apex, param, resource, &mut nsecs)? {
            return Err(Nsec3Error::Malformed(index));
        }
    }
    Ok(nsecs)
}
