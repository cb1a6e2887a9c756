//! A signed authority that is asked often in all four layers, which `bench/authority` times. Its zone has the names
//! `x00000a.example.` and so on. Its NSEC records are a chain that is whole (RFC 4034, section 4), or its NSEC3 records (RFC 5155,
//! section 7.1). Its signatures are zeros, since nothing here verifies one.

ghost use Rattle.dns_zone.specs.Owned.{AreLawful};

use crate::often::{APEX, OF_A_LETTER, SOA, asked_each, everywhere, in_layers, write_name};
use crate::often_hashed::hashed_records;
use crate::zones::push_octets;
use dns_authority::{Authority, ZoneData};
use dns_base::Record;
use dns_hashed_zone::HashedZone;
use dns_name::Name;
use dns_signed_zone::SignedZone;
use rows_table::{Calls, Row, RowError};

/// The first name.
pub(crate) const OWNER: [u8; 17] = *b"\x07x00000a\x07example\x00";

/// The types of a name: A, RRSIG and NSEC (RFC 4034, section 4.1.2).
const NAME_TYPES: [u8; 8] = *b"\x00\x06\x40\x00\x00\x00\x00\x03";

/// The types of the apex: SOA, RRSIG and NSEC.
const APEX_TYPES: [u8; 8] = *b"\x00\x06\x02\x00\x00\x00\x00\x03";

/// What follows the type that an RRSIG covers (RFC 4034, section 3.1), with a signature of 64 octets.
const SIGNATURE: [u8; 89] =
    *b"\x0d\x02\x00\x00\x00\x3c\x7f\xff\xff\xff\x00\x00\x00\x00\x00\x01\x07example\x00\
    \x00\x00\x00\x00\x00\x00\x00\x00\x00\x00\x00\x00\x00\x00\x00\x00\x00\x00\x00\x00\x00\x00\x00\x00\x00\x00\x00\x00\x00\x00\x00\x00\
    \x00\x00\x00\x00\x00\x00\x00\x00\x00\x00\x00\x00\x00\x00\x00\x00\x00\x00\x00\x00\x00\x00\x00\x00\x00\x00\x00\x00\x00\x00\x00\x00";

/// The query for the address of the first name, with an OPT record.
const QUERY: [u8; 44] =
    *b"\x12\x34\x01\x00\x00\x01\x00\x00\x00\x00\x00\x01\x07x00000a\x07example\x00\x00\x01\x00\x01\
    \x00\x00\x29\x04\xd0\x00\x00\x00\x00\x00\x00";

/// Where the last letter of the name stands in the query: no name ends with another letter than `a`.
const LETTER: usize = 19;

/// Where DO stands in the query (RFC 3225, section 3).
const FLAGS: usize = 40;

pub(crate) const A: u8 = 1;

pub(crate) const SOA_TYPE: u8 = 6;

const RRSIG: u8 = 46;

const NSEC: u8 = 47;

/// The sum of the octets of all replies of a signed authority that is asked often.
pub(crate) struct OftenSigned;

impl Calls for OftenSigned {
    fn answer(&self, call: &str, row: &mut Row<'_>) -> Result<(), RowError> {
        match call {
            "often_hashed" => summed(row, true),
            "often_signed" => summed(row, false),
            _ => return Err(RowError::NoSuchCall),
        }
        Ok(())
    }
}

/// The query for names that the zone has or hasn't, with DO or without.
fn query_of(word: &str) -> Option<[u8; 44]> {
    let mut query = QUERY;
    match word {
        "answer" => {}
        "answer_do" => query[FLAGS] = 0x80,
        "missing" => query[LETTER] = b'b',
        "missing_do" => {
            query[FLAGS] = 0x80;
            query[LETTER] = b'b';
        }
        _ => return None,
    }
    Some(query)
}

/// How many names the zone has, what is asked for and how often are the next words. The names are hashed or not.
fn summed(row: &mut Row<'_>, is_hashed: bool) {
    let names = row.number::<u64>();
    let query = query_of(row.word());
    let times = row.number::<u64>();
    if names == 0 || names > OF_A_LETTER {
        return row.fail(RowError::OutOfForm);
    }
    match query {
        Some(query) => asked(row, is_hashed, query, names, times),
        None => row.fail(RowError::OutOfForm),
    }
}

/// Says the sum over that many questions, each for another name.
fn asked(row: &mut Row<'_>, is_hashed: bool, query: [u8; 44], names: u64, times: u64) {
    let mut authority = Authority::new(row.alloc(), everywhere(row));
    add_zone(row, &mut authority, is_hashed, names);
    match in_layers(row, authority) {
        Some(service) => asked_each(row, &service, query, names, times),
        None => row.fail(RowError::OutOfMemory),
    }
}

/// The signed zone of an apex and that many names.
fn signed_zone(row: &mut Row<'_>, apex: Name, names: u64) -> Option<ZoneData> {
    let records = records_of(row, names);
    match SignedZone::of(row.alloc(), apex, records) {
        Ok(zone) => Some(ZoneData::Signed(zone)),
        Err(_) => None,
    }
}

/// Its zone with NSEC3.
fn hashed_zone(row: &mut Row<'_>, apex: Name, names: u64) -> Option<ZoneData> {
    let records = hashed_records(row, names);
    match HashedZone::of(row.alloc(), apex, records) {
        Ok(zone) => Some(ZoneData::Hashed(zone)),
        Err(_) => None,
    }
}

/// Adds the signed zone of that many names.
fn add_zone(row: &mut Row<'_>, authority: &mut Authority, is_hashed: bool, names: u64) {
    let apex = row.copied(&APEX);
    let Ok(apex) = Name::from_octets(apex) else {
        return row.fail(RowError::OutOfForm);
    };
    let zone = if is_hashed {
        hashed_zone(row, apex, names)
    } else {
        signed_zone(row, apex, names)
    };
    match zone {
        Some(zone) => added(row, authority, zone),
        None => row.fail(RowError::OutOfForm),
    }
}

fn added(row: &mut Row<'_>, authority: &mut Authority, zone: ZoneData) {
    let networks = everywhere(row);
    if authority.add_data(row.alloc(), zone, networks).is_err() {
        row.fail(RowError::OutOfForm);
    }
}

/// Appends a record of class IN with a TTL of 60 s, whose data are two parts.
pub(crate) fn push_record(
    row: &mut Row<'_>,
    records: &mut Vec<Record>,
    owner: &[u8],
    rtype: u8,
    parts: (&[u8], &[u8]),
)
    requires { AreLawful records.old.items }
    ensures { AreLawful records.new.items }
{
    let (first, second) = parts;
    let len = u16::try_from(first.len().saturating_add(second.len())).unwrap_or(u16::MAX);
    let mut octets = row.copied(owner);
    row.keep(octets.extend_from_slice(&[0, rtype, 0, 1, 0, 0, 0, 60]));
    row.keep(octets.extend_from_slice(&len.to_be_bytes()));
    row.keep(octets.extend_from_slice(first));
    row.keep(octets.extend_from_slice(second));
    push_octets(row, records, octets.as_slice());
}

/// Appends the RRSIG of a type of an owner.
pub(crate) fn push_signature(
    row: &mut Row<'_>,
    records: &mut Vec<Record>,
    owner: &[u8],
    covered: u8,
)
    requires { AreLawful records.old.items }
    ensures { AreLawful records.new.items }
{
    push_record(row, records, owner, RRSIG, (&[0, covered], &SIGNATURE));
}

/// Appends the NSEC of an owner and its RRSIG.
fn push_nsec(row: &mut Row<'_>, records: &mut Vec<Record>, owner: &[u8], next: &[u8], types: &[u8])
    requires { AreLawful records.old.items }
    ensures { AreLawful records.new.items }
{
    push_record(row, records, owner, NSEC, (next, types));
    push_signature(row, records, owner, NSEC);
}

/// Appends the records of the apex.
fn push_apex(row: &mut Row<'_>, records: &mut Vec<Record>)
    requires { AreLawful records.old.items }
    ensures { AreLawful records.new.items }
{
    push_octets(row, records, &SOA);
    push_signature(row, records, &APEX, SOA_TYPE);
    push_nsec(row, records, &APEX, &OWNER, &APEX_TYPES);
}

/// Appends the records of a name.
fn push_name(row: &mut Row<'_>, records: &mut Vec<Record>, owner: &[u8], next: &[u8])
    requires { AreLawful records.old.items }
    ensures { AreLawful records.new.items }
{
    push_record(row, records, owner, A, (&[192, 0, 2, 1], &[]));
    push_signature(row, records, owner, A);
    push_nsec(row, records, owner, next, &NAME_TYPES);
}

/// The records of that many names, in canonical order.
fn records_of(row: &mut Row<'_>, names: u64) -> Vec<Record>
    ensures { AreLawful result.items }
{
    let mut records = Vec::new(row.alloc());
    push_apex(row, &mut records);
    let mut owner = OWNER;
    let mut next = OWNER;
    'each: for number in 0..names {
        write_name(&mut owner, 1, number);
        write_name(&mut next, 1, number.wrapping_add(1));
        if number.wrapping_add(1) == names {
            push_name(row, &mut records, &owner, &APEX);
        } else {
            push_name(row, &mut records, &owner, &next);
        }
    }
    records
}
