//! Data of its octets.

ghost use Rattle.std.specs.Prelude.{◌≡◌, ◌≤◌, IfOk, Ok, length};
ghost use Rattle.std.specs.Str.{bytes_eq};
ghost use Rattle.dns_message.specs.Records.{IsLawful, data_octets};
ghost use Rattle.dns_message.specs.Standing.{data_alone};
ghost use Rattle.dns_entries.specs.Reading.{Gives};
ghost use Rattle.dns_zone_file.specs.ZoneFile.{GivesShaped, internet_record, shaped_data, uncompressed_data};

use dns_entries::{EntryReason, ReasonError, ZoneFileError, refused};
use dns_message::{Record, RecordData};
use dns_name::{Class, Name, OutOfMemory, ParseError, Rtype, Ttl};
use std::alloc::Global;

/// The data that octets are; none if they haven't the shape of its type.
fn data_of_shape(alloc: Global, rtype: u16, octets: &[u8]) -> Result<RecordData, ReasonError>
    requires { length octets.now ≤ 65535 }
    ensures value { GivesShaped result (data_alone rtype octets.now) }
    ensures lawful { IfOk result IsLawful }
{
    match RecordData::parse(alloc, Rtype::from_int(rtype), octets) {
        Ok(rdata) => Ok(rdata),
        Err(ParseError::OutOfMemory) => Err(ReasonError::OutOfMemory),
        Err(_) => Err(ReasonError::Refused(EntryReason::Shape)),
    }
}

/// Whether data is written as these octets, so that no name of it is compressed.
fn is_written_as(alloc: Global, rdata: &RecordData, octets: &[u8]) -> Result<bool, OutOfMemory>
    ensures { IfOk result (λ b. b ≡ bytes_eq (data_octets rdata.now) octets.now) }
{
    let mut written = Vec::new(alloc);
    rdata.compose(alloc, &mut written)?;
    Ok(written.as_slice() == octets)
}

/// Data, if it is written as these octets.
fn uncompressed(
    alloc: Global,
    at: u64,
    rdata: RecordData,
    octets: &[u8],
) -> Result<RecordData, ZoneFileError>
    requires { IsLawful rdata }
    ensures value { Gives (λ d. d) result (uncompressed_data at octets.now (Ok rdata)) }
    ensures lawful { IfOk result IsLawful }
{
    if is_written_as(alloc, &rdata, octets)? {
        return Ok(rdata);
    }
    Err(refused(at, EntryReason::Shape))
}

/// The data of a type that octets are, if they have its shape and no compressed name.
pub(crate) fn shaped_data(
    alloc: Global,
    at: u64,
    rtype: u16,
    octets: &[u8],
) -> Result<RecordData, ZoneFileError>
    requires { length octets.now ≤ 65535 }
    ensures value { Gives (λ d. d) result (shaped_data at rtype octets.now) }
    ensures lawful { IfOk result IsLawful }
{
    match data_of_shape(alloc, rtype, octets) {
        Ok(rdata) => uncompressed(alloc, at, rdata, octets),
        Err(ReasonError::OutOfMemory) => Err(ZoneFileError::OutOfMemory),
        Err(_) => Err(refused(at, EntryReason::Shape)),
    }
}

/// A record of class IN.
pub(crate) fn internet_record(owner: Name, ttl: u32, rdata: RecordData) -> Record
    ensures value { result ≡ internet_record owner ttl rdata }
    ensures lawful { IsLawful rdata → IsLawful result.rdata }
{
    Record {
        owner,
        class: Class::IN,
        ttl: Ttl::from_secs(ttl),
        rdata,
    }
}
