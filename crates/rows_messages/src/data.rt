//! Records whose data stands in the words of a row.

ghost use Rattle.std.specs.Prelude.{IfOk};
ghost use Rattle.dns_base.specs.Records.{IsLawful};

use dns_base::{Record, RecordData};
use dns_name::{Class, Name, NameRef, Rtype, Serial, Ttl};
use rows_table::{Row, RowError};
use std::alloc::Global;

/// The name of the next word.
fn name(row: &mut Row<'_>) -> Result<Name, RowError> {
    Name::from_octets(row.vector()).or(Err(RowError::OutOfForm))
}

/// The numbers of a zone's start.
fn numbers(row: &mut Row<'_>) -> [u32; 5] {
    let serial = row.number();
    let refresh = row.number();
    let retry = row.number();
    let expire = row.number();
    [serial, refresh, retry, expire, row.number()]
}

/// A zone's start, in the order of its octets (RFC 1035, section 3.3.13).
fn soa(row: &mut Row<'_>) -> Result<RecordData, RowError>
    ensures { IfOk result IsLawful }
{
    let mname = name(row)?;
    let rname = name(row)?;
    let [serial, refresh, retry, expire, minimum] = numbers(row);
    Ok(RecordData::Soa {
        mname,
        rname,
        serial: Serial(serial),
        refresh: Ttl::from_secs(refresh),
        retry: Ttl::from_secs(retry),
        expire: Ttl::from_secs(expire),
        minimum: Ttl::from_secs(minimum),
    })
}

/// Two mailboxes.
fn minfo(row: &mut Row<'_>) -> Result<RecordData, RowError>
    ensures { IfOk result IsLawful }
{
    Ok(RecordData::Minfo {
        first: name(row)?,
        second: name(row)?,
    })
}

/// A mail exchange.
fn mx(row: &mut Row<'_>) -> Result<RecordData, RowError>
    ensures { IfOk result IsLawful }
{
    Ok(RecordData::Mx {
        preference: row.number(),
        exchange: name(row)?,
    })
}

/// A service's host.
fn srv(row: &mut Row<'_>) -> Result<RecordData, RowError>
    ensures { IfOk result IsLawful }
{
    Ok(RecordData::Srv {
        priority: row.number(),
        weight: row.number(),
        port: row.number(),
        target: name(row)?,
    })
}

/// Another name of the owner's.
fn dname(row: &mut Row<'_>) -> Result<RecordData, RowError>
    ensures { IfOk result IsLawful }
{
    let name = name(row)?;
    RecordData::named(Rtype::DNAME, name).ok_or(RowError::OutOfForm)
}

/// Data by its type, whose fields are the words after it.
fn data(row: &mut Row<'_>) -> Result<RecordData, RowError>
    ensures { IfOk result IsLawful }
{
    match row.word() {
        "DNAME" => dname(row),
        "SOA" => soa(row),
        "MINFO" => minfo(row),
        "MX" => mx(row),
        "SRV" => srv(row),
        shape => data_of_octets(row, shape),
    }
}

/// Data that is octets, by its type.
fn data_of_octets(row: &mut Row<'_>, shape: &str) -> Result<RecordData, RowError>
    ensures { IfOk result IsLawful }
{
    match shape {
        "A" => Ok(RecordData::A(row.array())),
        "AAAA" => Ok(RecordData::Aaaa(row.array())),
        "OPT" => RecordData::opt(row.vector()).ok_or(RowError::OutOfForm),
        "TXT" => RecordData::unknown(Rtype::from_int(16), row.vector()).ok_or(RowError::OutOfForm),
        _ => Err(RowError::OutOfForm),
    }
}

/// The name `owner`.
fn owner(alloc: Global) -> Result<Name, RowError> {
    Ok(NameRef::from_slice(b"\x05owner\x00")?.to_owned(alloc)?)
}

/// The record of the name `owner` with such data.
pub fn record_in_words(row: &mut Row<'_>) -> Result<Record, RowError>
    ensures { IfOk result (λ r. IsLawful r.rdata) }
{
    let owner = owner(row.alloc())?;
    let rdata = data(row)?;
    Ok(Record {
        owner,
        class: Class::IN,
        ttl: Ttl::from_secs(0x0102_0304),
        rdata,
    })
}
