//! The zones of files as an authority takes them.

ghost use Rattle.std.specs.Prelude.{◌≡◌, true, false, IfOk, IfErr, Ok};
ghost use Rattle.dns_zone_file.specs.ZoneFile.{AreShaped, zone_file};
ghost use Rattle.std.specs.List.{list_any};
ghost use Rattle.dns_zone.specs.Owned.{AreLawful, is_of};
ghost use Rattle.dns_generation.specs.Generations.{Denies, HasFault, IsWritten, IsZoneOf, is_hashing};

use crate::zone_text_error::ZoneTextError;
use dns_authority::ZoneData;
use dns_hashed_zone::HashedZone;
use dns_message::Record;
use dns_name::Name;
use dns_signed_zone::SignedZone;
use dns_zone_file::{ZoneFileError, read_zone};
use dns_zone_tree::ZoneTree;
use std::alloc::Global;

/// The type of NSEC records.
const NSEC: u16 = 47;

/// The type of NSEC3 records.
const NSEC3: u16 = 50;

/// The type of the records with the parameters of NSEC3.
const NSEC3PARAM: u16 = 51;

/// The records that the text of a zone file writes.
fn read_records(alloc: Global, apex: &Name, text: &[u8]) -> Result<Vec<Record>, ZoneTextError>
    ensures ok { IfOk result (λ records. zone_file apex.now text.now ≡ Ok records.items) }
    ensures fault { IfErr result (HasFault apex.now text.now) }
    ensures shaped { IfOk result (λ records. AreShaped records.items) }
{
    match read_zone(alloc, apex, text) {
        Ok(records) => Ok(records),
        Err(ZoneFileError::Refused { line, reason }) => Err(ZoneTextError::Line { line, reason }),
        Err(ZoneFileError::OutOfMemory) => Err(ZoneTextError::OutOfMemory),
    }
}

/// Whether a record is an NSEC3 or NSEC3PARAM record.
fn is_hashing(resource: &Record) -> bool
    ensures { result ≡ is_hashing resource.now }
{
    let rtype = resource.rdata.rtype().to_int();
    rtype == NSEC3 || rtype == NSEC3PARAM
}

/// Whether one is among records.
fn has_hashes(records: &[Record]) -> bool
    ensures { result ≡ list_any is_hashing records.now }
{
    records.iter().any(|resource| is_hashing(resource))
}

/// Whether an NSEC record is among records.
fn has_nsecs(records: &[Record]) -> bool
    ensures { result ≡ list_any (is_of 47) records.now }
{
    records
        .iter()
        .any(|resource| resource.rdata.rtype().to_int() == NSEC)
}

/// The zone of records without an NSEC record.
fn unsigned(alloc: Global, apex: Name, records: Vec<Record>) -> Result<ZoneData, ZoneTextError>
    requires lawful { AreLawful records.items }
    requires bare { list_any is_hashing records.items ≡ false }
    requires none { list_any (is_of 47) records.items ≡ false }
    ensures ok { IfOk result (IsZoneOf (record { apex = apex; records = records.items })) }
    ensures fault { IfErr result (Denies (record { apex = apex; records = records.items })) }
{
    match ZoneTree::new(alloc, apex, records) {
        Ok(zone) => Ok(ZoneData::Unsigned(zone)),
        Err(error) => Err(ZoneTextError::NotZone(error)),
    }
}

/// The zone of records with NSEC records.
fn signed(alloc: Global, apex: Name, records: Vec<Record>) -> Result<ZoneData, ZoneTextError>
    requires lawful { AreLawful records.items }
    requires bare { list_any is_hashing records.items ≡ false }
    requires some { list_any (is_of 47) records.items ≡ true }
    ensures ok { IfOk result (IsZoneOf (record { apex = apex; records = records.items })) }
    ensures fault { IfErr result (Denies (record { apex = apex; records = records.items })) }
{
    match SignedZone::of(alloc, apex, records) {
        Ok(zone) => {
            let _whole = zone.chain();
            Ok(ZoneData::Signed(zone))
        }
        Err(error) => Err(ZoneTextError::NotSigned(error)),
    }
}

/// The zone of records with NSEC3 or NSEC3PARAM records.
fn hashed(alloc: Global, apex: Name, records: Vec<Record>) -> Result<ZoneData, ZoneTextError>
    requires lawful { AreLawful records.items }
    requires some { list_any is_hashing records.items ≡ true }
    ensures ok { IfOk result (IsZoneOf (record { apex = apex; records = records.items })) }
    ensures fault { IfErr result (Denies (record { apex = apex; records = records.items })) }
{
    match HashedZone::of(alloc, apex, records) {
        Ok(zone) => {
            let _whole = zone.chain();
            Ok(ZoneData::Hashed(zone))
        }
        Err(error) => Err(ZoneTextError::NotHashed(error)),
    }
}

/// The zone of an apex and records, signed if NSEC records are among them, or NSEC3 or NSEC3PARAM records.
fn made(alloc: Global, apex: Name, records: Vec<Record>) -> Result<ZoneData, ZoneTextError>
    requires { AreLawful records.items }
    ensures ok { IfOk result (IsZoneOf (record { apex = apex; records = records.items })) }
    ensures fault { IfErr result (Denies (record { apex = apex; records = records.items })) }
{
    if has_hashes(records.as_slice()) {
        return hashed(alloc, apex, records);
    }
    if has_nsecs(records.as_slice()) {
        return signed(alloc, apex, records);
    }
    unsigned(alloc, apex, records)
}

/// The zone that the text of a zone file writes.
pub(crate) fn zone_of(alloc: Global, apex: &Name, text: &[u8]) -> Result<ZoneData, ZoneTextError>
    ensures ok { IfOk result (IsWritten apex.now text.now) }
    ensures fault { IfErr result (HasFault apex.now text.now) }
{
    let records = read_records(alloc, apex, text)?;
    let apex = apex.try_clone(alloc)?;
    made(alloc, apex, records)
}
