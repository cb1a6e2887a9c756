//! The records of a zone that is signed with NSEC3, which `often_signed` asks: its names are those of the zone with NSEC. The hashes
//! have no salt and no additional iterations (RFC 9276, section 3.1).

ghost use Rattle.dns_zone.specs.Owned.{AreLawful};

use crate::often::{APEX, SOA, write_name};
use crate::often_signed::{A, OWNER, SOA_TYPE, push_record, push_signature};
use crate::zones::push_octets;
use dns_base::Record;
use dns_denial::Hashing;
use dns_name::Name;
use rows_table::{Row, RowError};

/// The types of a name: A and RRSIG.
const NAME_TYPES: [u8; 8] = *b"\x00\x06\x40\x00\x00\x00\x00\x02";

/// The types of the apex: SOA, RRSIG and NSEC3PARAM.
const APEX_TYPES: [u8; 9] = *b"\x00\x07\x02\x00\x00\x00\x00\x02\x10";

/// The data of the NSEC3PARAM record (RFC 5155, section 4.2): SHA-1, no flags, no additional iterations, no salt.
const PARAMETERS: [u8; 5] = *b"\x01\x00\x00\x00\x00";

/// The digits of base 32 with the extended hex alphabet (RFC 4648, section 7).
const DIGITS: [u8; 32] = *b"0123456789abcdefghijklmnopqrstuv";

const NSEC3: u8 = 50;

const NSEC3PARAM: u8 = 51;

/// Appends the eight digits of five octets.
fn push_digits(row: &mut Row<'_>, owner: &mut Vec<u8>, octets: [u8; 5]) {
    let [a, b, c, d, e] = octets;
    let mut left = u64::from_be_bytes([0, 0, 0, a, b, c, d, e]);
    for _i in 0..8u32 {
        let digit = left / 0x8_0000_0000 % 32;
        match DIGITS.get(digit as usize) {
            Some(digit) => row.keep(owner.push(*digit)),
            None => row.fail(RowError::OutOfForm),
        }
        left = left.wrapping_mul(32);
    }
}

/// The owner of the NSEC3 of a hash (RFC 5155, section 3).
fn owner_of(row: &mut Row<'_>, hash: &[u8; 20]) -> Vec<u8> {
    let mut owner = row.copied(&[32]);
    for octets in hash.chunks(5) {
        match octets {
            [a, b, c, d, e] => push_digits(row, &mut owner, [*a, *b, *c, *d, *e]),
            _ => row.fail(RowError::OutOfForm),
        }
    }
    row.keep(owner.extend_from_slice(&APEX));
    owner
}

/// The hash of a name.
fn hash_of(row: &mut Row<'_>, hashing: &Hashing, name: &[u8]) -> [u8; 20] {
    match Name::from_octets(row.copied(name)) {
        Ok(name) => match hashing.hash(row.alloc(), &name.for_ref()) {
            Ok(hash) => return hash,
            Err(_) => row.fail(RowError::OutOfMemory),
        },
        Err(_) => row.fail(RowError::OutOfForm),
    }
    [0; 20]
}

/// The hashes of that many names, in their order, with that of the apex among them.
fn sorted_hashes(
    row: &mut Row<'_>,
    hashing: &Hashing,
    names: u64,
    apex: [u8; 20],
) -> Vec<[u8; 20]> {
    let mut hashes = Vec::new(row.alloc());
    row.keep(hashes.push(apex));
    let mut owner = OWNER;
    for number in 0..names {
        write_name(&mut owner, 1, number);
        let hash = hash_of(row, hashing, &owner);
        row.keep(hashes.push(hash));
    }
    row.keep(hashes.sort_by(|one, other| one.cmp(other)));
    hashes
}

/// Appends the NSEC3 of a hash and its RRSIG.
fn push_nsec3(
    row: &mut Row<'_>,
    records: &mut Vec<Record>,
    hash: &[u8; 20],
    next: &[u8; 20],
    types: &[u8],
)
    requires { AreLawful records.old.items }
    ensures { AreLawful records.new.items }
{
    let owner = owner_of(row, hash);
    let mut data = row.copied(&PARAMETERS);
    row.keep(data.push(20));
    row.keep(data.extend_from_slice(next));
    push_record(
        row,
        records,
        owner.as_slice(),
        NSEC3,
        (data.as_slice(), types),
    );
    push_signature(row, records, owner.as_slice(), NSEC3);
}

/// Appends the chain of hashes, the last of which leads to the first.
fn push_chain(row: &mut Row<'_>, records: &mut Vec<Record>, hashes: &[[u8; 20]], apex: &[u8; 20])
    requires { AreLawful records.old.items }
    ensures { AreLawful records.new.items }
{
    'each: for (place, hash) in hashes.iter().enumerate() {
        let types: &[u8] = if hash == apex {
            &APEX_TYPES
        } else {
            &NAME_TYPES
        };
        let behind = hashes.get(place.saturating_add(1));
        let next = behind.or(hashes.first()).unwrap_or(apex);
        push_nsec3(row, records, hash, next, types);
    }
}

/// Appends the records of names, without NSEC3 records.
fn push_names(row: &mut Row<'_>, records: &mut Vec<Record>, names: u64)
    requires { AreLawful records.old.items }
    ensures { AreLawful records.new.items }
{
    push_octets(row, records, &SOA);
    push_signature(row, records, &APEX, SOA_TYPE);
    push_record(row, records, &APEX, NSEC3PARAM, (&PARAMETERS, &[]));
    push_signature(row, records, &APEX, NSEC3PARAM);
    let mut owner = OWNER;
    'each: for number in 0..names {
        write_name(&mut owner, 1, number);
        push_record(row, records, &owner, A, (&[192, 0, 2, 1], &[]));
        push_signature(row, records, &owner, A);
    }
}

/// The records of that many names, and of their chain.
pub(crate) fn hashed_records(row: &mut Row<'_>, names: u64) -> Vec<Record>
    ensures { AreLawful result.items }
{
    let mut records = Vec::new(row.alloc());
    let no_salt = Vec::new(row.alloc());
    push_names(row, &mut records, names);
    if let Ok(hashing) = Hashing::new(no_salt, 0) {
        let apex = hash_of(row, &hashing, &APEX);
        let hashes = sorted_hashes(row, &hashing, names, apex);
        push_chain(row, &mut records, hashes.as_slice(), &apex);
    }
    records
}
