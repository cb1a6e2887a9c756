//! RRSIGs that are written from their places in the zone, without copies.

ghost use Rattle.std.specs.Prelude.{◌≡◌, ◌++◌, ◌∷◌, [], map, IsTrue, OnOk};
ghost use Rattle.dns_base.specs.Records.{IsLawful, record_of};
ghost use Rattle.dns_zone.specs.Owned.{AreLawful};
ghost use Rattle.dns_zone.specs.Places.{at_places};
ghost use Rattle.dns_zone_tree.specs.Kinds.{kind_places, places_of};
ghost use Rattle.dns_signed_reply.specs.DirectReplies.{covering, first_covering};
ghost use Rattle.dns_signed_reply.specs.SignedReplies.{timed};

use crate::records::first_of;
use crate::rrsigs::{is_signature, timed};
use dns_base::{Record, WireRecords};
use dns_name::OutOfMemory;
use dns_zone_tree::{Kinds, TypedPlace, ZoneTree};
use std::alloc::Global;

/// The type of RRSIG records.
const RRSIG: u16 = 46;

/// Whether an RRSIG has the TTL of a record.
fn has_ttl(signed: &Record, signature: &Record) -> bool
    ensures { IsTrue result → signature.now.ttl ≡ signed.now.ttl }
{
    signature.ttl == signed.ttl
}

/// Adds a copy of an RRSIG with the TTL of a record.
fn write_copy(
    alloc: Global,
    signed: &Record,
    signature: &Record,
    into: &mut WireRecords,
) -> Result<(), OutOfMemory>
    requires { IsLawful signature.now.rdata }
    ensures { OnOk result (into.new ≡ into.old ++ record_of (timed signed.now signature.now) ∷ []) }
{
    let copy = timed(alloc, signed, signature)?;
    into.push(alloc, &copy)?;
    Ok(())
}

/// Adds an RRSIG with the TTL of a record.
fn write_timed(
    alloc: Global,
    signed: &Record,
    signature: &Record,
    into: &mut WireRecords,
) -> Result<(), OutOfMemory>
    requires { IsLawful signature.now.rdata }
    ensures { OnOk result (into.new ≡ into.old ++ record_of (timed signed.now signature.now) ∷ []) }
{
    if has_ttl(signed, signature) {
        into.push(alloc, signature)?;
        return Ok(());
    }
    write_copy(alloc, signed, signature, into)
}

/// Adds an RRSIG with the TTL of a record, if it covers that record's type.
fn write_covering(
    alloc: Global,
    signed: &Record,
    signature: &Record,
    into: &mut WireRecords,
) -> Result<(), OutOfMemory>
    requires { IsLawful signature.now.rdata }
    ensures { OnOk result (into.new ≡ into.old ++ map record_of (covering signed.now (signature.now ∷ []))) }
{
    if is_signature(signature, signed.rdata.rtype().to_int()) {
        return write_timed(alloc, signed, signature, into);
    }
    Ok(())
}

/// Adds the RRSIG at a place with the TTL of a record, if there is one, and it covers that record's type.
fn write_placed(
    alloc: Global,
    records: &[Record],
    kind: &TypedPlace,
    signed: &Record,
    into: &mut WireRecords,
) -> Result<(), OutOfMemory>
    requires { AreLawful records.now }
    ensures { OnOk result (into.new ≡ into.old
        ++ map record_of (covering signed.now (at_places records.now (places_of 46 (kind.now ∷ []))))) }
{
    match kind.record(records, RRSIG) {
        Some(signature) => write_covering(alloc, signed, signature, into),
        None => Ok(()),
    }
}

/// Adds those of the RRSIGs at places that cover a record's type, with its TTL.
fn write_all_placed(
    alloc: Global,
    records: &[Record],
    kinds: &[TypedPlace],
    signed: &Record,
    into: &mut WireRecords,
) -> Result<(), OutOfMemory>
    requires { AreLawful records.now }
    ensures { OnOk result (into.new ≡ into.old ++ map record_of (covering signed.now (at_places records.now (places_of 46 kinds.now)))) }
{
    'each: for kind in kinds {
        write_placed(alloc, records, kind, signed, into)?;
    }
    Ok(())
}

/// Adds the RRSIGs of the records of a type of a name, given the places of the name's records.
pub(crate) fn write_kind_rrsigs(
    zone: &ZoneTree,
    alloc: Global,
    kinds: &Kinds,
    rtype: u16,
    into: &mut WireRecords,
) -> Result<(), OutOfMemory>
    ensures { OnOk result (into.new ≡ into.old ++ map record_of (first_covering (at_places zone.now.records (kind_places rtype kinds.now))
        (at_places zone.now.records (kind_places 46 kinds.now)))) }
{
    let records = zone.records();
    let places = kinds.as_slice();
    match first_of(records, places, rtype) {
        Some(first) => write_all_placed(alloc, records, places, first, into),
        None => Ok(()),
    }
}
