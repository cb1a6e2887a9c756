//! Hash parameters (RFC 5155, sections 3.1 and 4.1).

ghost use Rattle.std.specs.Prelude.{◌≡◌, ◌∷◌, [], length, slice_index, MatchOption, MatchResult};
ghost use Rattle.std.specs.Option.{option_copied};
ghost use Rattle.std.specs.List.{find};
ghost use Rattle.dns_nsec_data.specs.NsecData.{unknown_octets};
ghost use Rattle.dns_nsec3_data.specs.Nsec3Data.{BeginWithNoParameters, BeginWithParameters, Fails3, FailsBy, IsMadeHashing, IsParam, is_used, used_records};

use crate::nsec3_error::Nsec3Error;
use dns_denial::Hashing;
use dns_message::{Record, RecordData};
use dns_name::Name;
use std::alloc::Global;

/// The type of the records with the parameters of a zone.
const NSEC3PARAM: u16 = 51;

/// The hash algorithm SHA-1 (RFC 5155, section 11).
const SHA_1: u8 = 1;

/// The flags, the number of additional iterations and the salt, and the octets after them.
#[derive(Drop)]
pub(crate) struct Parameters<'a> {
    pub(crate) flags: u8,
    pub(crate) iterations: u16,
    pub(crate) salt: &'a [u8],
    pub(crate) left: &'a [u8],
}

/// The number of additional iterations and the salt of a zone.
#[derive(Drop)]
pub(crate) struct Param<'a> {
    pub(crate) iterations: u16,
    pub(crate) salt: &'a [u8],
}

/// The parameters that octets begin with; none of another algorithm than SHA-1.
pub(crate) fn parameters_in(octets: &[u8]) -> Option<Parameters<'_>>
    ensures { MatchOption result (BeginWithNoParameters octets.now)
        (λ p. BeginWithParameters octets.now p.flags (record { salt = p.salt.now; iterations = p.iterations }) p.left.now) }
{
    if octets.len() < 5 {
        return None;
    }
    let flags = octets[1];
    let iterations = 256 * octets[2] as u16 + octets[3] as u16;
    let size = octets[4] as usize;
    let rest = &octets[5..];
    if octets[0] != SHA_1 {
        return None;
    }
    if size > rest.len() {
        return None;
    }
    Some(Parameters {
        flags,
        iterations,
        salt: &rest[..size],
        left: &rest[size..],
    })
}

/// The octets of data of a type like NSEC3.
pub(crate) fn unknown_octets(resource: &Record) -> &[u8]
    ensures { result.now ≡ unknown_octets resource.now.rdata }
{
    match &resource.rdata {
        RecordData::Unknown { octets, .. } => octets.as_slice(),
        _ => &[],
    }
}

/// The octet of the flags, 0 if there is none.
fn flags_of(octets: &[u8]) -> u8
    ensures { result ≡ slice_index octets.now 1 }
{
    match octets.get(1) {
        Some(flags) => *flags,
        None => 0,
    }
}

/// Whether a record is an NSEC3PARAM record at an apex, without flags.
fn is_used(apex: &Name, resource: &Record) -> bool
    ensures { result ≡ is_used apex.now resource.now }
{
    resource.rdata.rtype().to_int() == NSEC3PARAM
        && (resource.owner == *apex && flags_of(unknown_octets(resource)) == 0)
}

/// How many such records there are.
fn used_count(apex: &Name, records: &[Record]) -> usize
    ensures { result ≡ length (used_records apex.now records.now) }
{
    records
        .iter()
        .filter(|resource| is_used(apex, resource))
        .count()
}

/// The first of them.
fn first_used<'a>(apex: &Name, records: &'a [Record]) -> Option<&'a Record>
    ensures { option_copied result ≡ find (is_used apex.now) records.now }
{
    records.iter().find(|resource| is_used(apex, resource))
}

/// The one of them, or how many there are.
fn sole_used<'a>(apex: &Name, records: &'a [Record]) -> Result<&'a Record, Nsec3Error>
    ensures { MatchResult result (λ r. used_records apex.now records.now ≡ r.now ∷ []) (Fails3 apex.now records.now) }
{
    let count = used_count(apex, records);
    if count != 1 {
        return Err(Nsec3Error::Params(count));
    }
    match first_used(apex, records) {
        Some(resource) => Ok(resource),
        None => unreachable!(),
    }
}

/// The parameters of a zone with these records.
pub(crate) fn param_in<'a>(apex: &Name, records: &'a [Record]) -> Result<Param<'a>, Nsec3Error>
    ensures { MatchResult result (λ p. IsParam apex.now records.now (record { salt = p.salt.now; iterations = p.iterations }))
        (Fails3 apex.now records.now) }
{
    let resource = sole_used(apex, records)?;
    let Some(found) = parameters_in(unknown_octets(resource)) else {
        return Err(Nsec3Error::Param);
    };
    if !found.left.is_empty() {
        return Err(Nsec3Error::Param);
    }
    Ok(Param {
        iterations: found.iterations,
        salt: found.salt,
    })
}

/// The hashing of a zone with these records.
pub(crate) fn hashing_of(alloc: Global, param: &Param<'_>) -> Result<Hashing, Nsec3Error>
    ensures { MatchResult result (IsMadeHashing (record { salt = param.now.salt.now; iterations = param.now.iterations }))
        (FailsBy (record { salt = param.now.salt.now; iterations = param.now.iterations })) }
{
    let salt = Vec::from_slice(alloc, param.salt)?;
    match Hashing::new(salt, param.iterations) {
        Ok(hashing) => Ok(hashing),
        Err(error) => Err(Nsec3Error::Hashing(error)),
    }
}
