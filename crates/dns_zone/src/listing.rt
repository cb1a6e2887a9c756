//! What is kept of a list of records: their places by names, and the SOA record of negative answers.

ghost use Rattle.std.specs.Prelude.{◌≡◌, [], ◌∷◌, length, map, IfOk, OnOk};
ghost use Rattle.std.specs.List.{AllByRecursion, filter};
ghost use Rattle.dns_zone.specs.ZoneIndex.{KnowsPlaces};
ghost use Rattle.dns_zone.specs.Owned.{HasNamedData, is_of};
ghost use Rattle.dns_zone.specs.ZoneReply.{negative_soa, negative_ttl};

use crate::name_places::NamePlaces;
use crate::path::path_of_name;
use dns_base::{Record, RecordData, Rtype, Ttl, data_has_names};
use dns_name::OutOfMemory;
use std::alloc::Global;

/// The places of the records of a list.
pub(crate) fn names_of(alloc: Global, records: &[Record]) -> Result<NamePlaces, OutOfMemory>
    ensures known { IfOk result (λ n. KnowsPlaces n records.now) }
    ensures named { OnOk result (AllByRecursion HasNamedData records.now) }
{
    let mut names = NamePlaces::new(alloc);
    'each: for (place, record) in records.iter().enumerate() {
        data_has_names(&record.rdata);
        let path = path_of_name(alloc, &record.owner)?;
        names.put(alloc, path, record.rdata.rtype().to_int(), place)?;
    }
    Ok(names)
}

/// The TTL of a record in a negative answer (RFC 2308, section 3).
fn negative_ttl(ttl: Ttl, rdata: &RecordData) -> Ttl
    ensures { result ≡ negative_ttl ttl rdata.now }
{
    match rdata {
        RecordData::Soa { minimum, .. } => Ttl::from_secs(ttl.as_secs().min(minimum.as_secs())),
        _ => ttl,
    }
}

/// The record as it is in a negative answer.
fn negative_copy(alloc: Global, resource: &Record) -> Result<Record, OutOfMemory>
    ensures { IfOk result (λ r. r ≡ negative_soa resource.now) }
{
    let mut copy = resource.try_clone(alloc)?;
    copy.ttl = negative_ttl(resource.ttl, &resource.rdata);
    Ok(copy)
}

/// The one SOA record as it is in a negative answer.
pub(crate) fn negative_of(alloc: Global, records: &[Record]) -> Result<Record, OutOfMemory>
    requires { length (filter (is_of 6) records.now) ≡ 1 }
    ensures { IfOk result (λ r. map negative_soa (filter (is_of 6) records.now) ≡ r ∷ []) }
{
    'each: for record in records {
        if record.rdata.rtype() == Rtype::SOA {
            return negative_copy(alloc, record);
        }
    }
    unreachable!()
}
