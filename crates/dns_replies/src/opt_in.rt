//! The OPT record of a message under construction.

ghost use Rattle.std.specs.Prelude.{◌≡◌, [], IfOk, IfSome, option_map};
ghost use Rattle.dns_base.specs.OptFields.{opt_resource};
ghost use Rattle.dns_base.specs.Readers.{resources};
ghost use Rattle.dns_base.specs.Records.{record_of, IsLawful};
ghost use Rattle.dns_opt.specs.OptRecords.{listed, opt_record_among};
ghost use Rattle.dns_replies.specs.OptIn.{minimal, opt_record_in};

use dns_base::{AdditionalBuilder, Name, Record, RecordData, RecordIter, RecordRef, Rtype, Ttl};
use dns_name::OutOfMemory;
use std::alloc::Global;

/// The message's OPT record as it stands.
pub(crate) fn opt_record_in(
    alloc: Global,
    message: &AdditionalBuilder,
) -> Result<Option<Record>, OutOfMemory>
    ensures value { IfOk result (λ o. option_map record_of o ≡ opt_record_in message.now.message) }
    ensures lawful { IfOk result (λ o. IfSome o (λ r. IsLawful r.rdata)) }
{
    opt_record_among(alloc, message.additional_records())
}

/// The first record of type OPT, if its data is an option list.
fn opt_record_among(alloc: Global, records: RecordIter<'_>) -> Result<Option<Record>, OutOfMemory>
    ensures value { IfOk result (λ o. option_map record_of o ≡ opt_record_among (resources records.entry)) }
    ensures lawful { IfOk result (λ o. IfSome o (λ r. IsLawful r.rdata)) }
{
    let mut left = records;
    'walk: while let Some(Ok(record)) = left.next() {
        if record.rtype() == Rtype::OPT {
            return listed(alloc, &record);
        }
    }
    Ok(None)
}

/// A record of type OPT, if its data is an option list.
fn listed(alloc: Global, found: &RecordRef<'_>) -> Result<Option<Record>, OutOfMemory>
    requires { found.now.resource.rtype ≡ 41 }
    ensures value { IfOk result (λ o. option_map record_of o ≡ listed found.now.resource) }
    ensures lawful { IfOk result (λ o. IfSome o (λ r. IsLawful r.rdata)) }
{
    let octets = Vec::from_slice(alloc, found.rdata())?;
    match RecordData::opt(octets) {
        Some(rdata) => Ok(Some(owned(alloc, found, rdata)?)),
        None => Ok(None),
    }
}

/// The record with this data, owned.
fn owned(alloc: Global, found: &RecordRef<'_>, rdata: RecordData) -> Result<Record, OutOfMemory>
    ensures { IfOk result (λ r. r ≡ record {
      owner = found.now.resource.owner;
      class = found.now.resource.class;
      ttl = found.now.resource.ttl;
      rdata = rdata;
    }) }
{
    match owner_of(alloc, found) {
        Ok(owner) => Ok(with_data(found, owner, rdata)),
        Err(error) => Err(error),
    }
}

/// The record's owner.
fn owner_of(alloc: Global, found: &RecordRef<'_>) -> Result<Name, OutOfMemory>
    ensures { IfOk result (λ n. n ≡ found.now.resource.owner) }
{
    found.owner().to_name(alloc)
}

/// A record of this owner and data, and otherwise as another.
fn with_data(found: &RecordRef<'_>, owner: Name, rdata: RecordData) -> Record
    ensures { result ≡ record { owner = owner; class = found.now.resource.class; ttl = found.now.resource.ttl; rdata = rdata } }
{
    Record {
        owner,
        class: found.class(),
        ttl: found.ttl(),
        rdata,
    }
}

/// How many values the flags have, which are the lower sixteen bits of an OPT record's TTL.
const FLAG_VALUES: u32 = 65536;

/// The TTL of an OPT record with the same extended code and version and no flags.
pub(crate) fn minimal_ttl(opt: &Record) -> Ttl
    ensures { opt_resource opt.now.class result [] ≡ minimal (record_of opt.now) }
{
    let secs = opt.ttl.as_secs();
    Ttl::from_secs(secs / FLAG_VALUES * FLAG_VALUES)
}
