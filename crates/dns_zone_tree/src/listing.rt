//! What is kept of a zone besides its index: the places of the records of its apex, and the SOA record of negative answers.

ghost use Rattle.std.specs.Prelude.{◌≡◌, [], ◌∷◌, ℕ, length, map, IfOk};
ghost use Rattle.std.specs.List.{filter};
ghost use Rattle.dns_order.specs.Keys.{canonical_key};
ghost use Rattle.dns_zone.specs.Owned.{is_of};
ghost use Rattle.dns_zone.specs.ZoneReply.{negative_soa, negative_ttl};
ghost use Rattle.dns_zone_tree.specs.Kinds.{kind_places};
ghost use Rattle.dns_zone_tree.specs.Nodes.{places_under};

use crate::kinds::Kinds;
use crate::names::Names;
use dns_base::{Record, RecordData, Rtype, Ttl};
use dns_name::{Name, OutOfMemory};
use dns_order::canonical_key;
use std::alloc::Global;

/// The places of the records of a name.
pub(crate) fn kinds_of(alloc: Global, names: &Names, name: &Name) -> Result<Kinds, OutOfMemory>
    ensures { IfOk result (λ m. (t : ℕ) → kind_places t m ≡ places_under names.now (canonical_key name.now) t) }
{
    let key = canonical_key(alloc, &name.for_ref())?;
    match names.kinds_at(key.as_slice()) {
        Some(kinds) => kinds.try_clone(alloc),
        None => Ok(Kinds::new()),
    }
}

/// The TTL of a record in a negative answer (RFC 2308, section 3).
fn negative_ttl(ttl: Ttl, rdata: &RecordData) -> Ttl
    ensures { result ≡ negative_ttl ttl rdata.now }
{
    match rdata {
        RecordData::Soa { minimum, .. } => Ttl::from_secs(ttl.as_secs().min(minimum.as_secs())),
        _ => ttl,
    }
}

/// The record as it is in a negative answer.
fn negative_copy(alloc: Global, resource: &Record) -> Result<Record, OutOfMemory>
    ensures { IfOk result (λ r. r ≡ negative_soa resource.now) }
{
    let mut copy = resource.try_clone(alloc)?;
    copy.ttl = negative_ttl(resource.ttl, &resource.rdata);
    Ok(copy)
}

/// The one SOA record as it is in a negative answer.
pub(crate) fn negative_of(alloc: Global, records: &[Record]) -> Result<Record, OutOfMemory>
    requires { length (filter (is_of 6) records.now) ≡ 1 }
    ensures { IfOk result (λ r. map negative_soa (filter (is_of 6) records.now) ≡ r ∷ []) }
{
    'each: for record in records {
        if record.rdata.rtype() == Rtype::SOA {
            return negative_copy(alloc, record);
        }
    }
    unreachable!()
}
