//! Rows of signed zones.

ghost use Rattle.std.specs.Prelude.{◌≡◌, None};
ghost use Rattle.dns_zone_tree.specs.TreeErrors.{tree_error};

use crate::hashed_rows::hashed;
use crate::nsec_rows::{replied, secured, types_of_row};
use crate::questions::asked;
use crate::zones::next_records;
use dns_denial::{Chain, Hashing, Nsec};
use dns_name::{Name, NameRef};
use dns_signed_zone::SignedZone;
use dns_zone_tree::ZoneTree;
use rows_table::{Calls, Row, RowError};

/// What a signed zone chooses.
pub(crate) struct Signed;

impl Calls for Signed {
    fn answer(&self, call: &str, row: &mut Row<'_>) -> Result<(), RowError> {
        match call {
            "hashed" => hashed(row),
            "nsec_hash" => name_hashed(row),
            "replied" => replied(row),
            "secured" => secured(row),
            "signed" => zone_of_row(row),
            "types" => types_of_row(row),
            _ => return Err(RowError::NoSuchCall),
        }
        Ok(())
    }
}

/// The hash of a name, with the salt and the iterations of the words before it.
fn name_hashed(row: &mut Row<'_>) {
    let salt = row.vector();
    let iterations = row.number();
    let name = row.name();
    match Hashing::new(salt, iterations) {
        Ok(hashing) => hash_said(row, &hashing, &name),
        Err(error) => row.debug(&error),
    }
}

/// The hash of a name.
fn hash_said(row: &mut Row<'_>, hashing: &Hashing, name: &NameRef<'_>) {
    match hashing.hash(row.alloc(), name) {
        Ok(hash) => row.hexadecimal(&hash),
        Err(_) => row.fail(RowError::OutOfMemory),
    }
}

/// Makes the zone of the next words, or says why it is refused.
fn zone_of_row(row: &mut Row<'_>) {
    match Name::from_octets(row.vector()) {
        Ok(apex) => zoned(row, apex),
        Err(_) => row.fail(RowError::OutOfForm),
    }
}

/// Makes the zone of an apex and the records of the next word, or says why they are refused.
fn zoned(row: &mut Row<'_>, apex: Name) {
    let records = next_records(row);
    match ZoneTree::new(row.alloc(), apex, records) {
        Ok(zone) => chained(row, zone),
        Err(error) => row.debug(&error),
    }
}

/// Gives the zone the chain of the next word, or says where that isn't whole.
fn chained(row: &mut Row<'_>, zone: ZoneTree)
    requires { tree_error zone.apex zone.records ≡ None }
{
    match Chain::of(next_chain(row)) {
        Some(chain) => match SignedZone::new(row.alloc(), zone, chain) {
            Ok(zone) => asked(row, &zone),
            Err(error) => row.debug(&error),
        },
        None => row.say("unsorted"),
    }
}

/// The NSECs of the next word, which commas part.
fn next_chain(row: &mut Row<'_>) -> Vec<Nsec> {
    let mut nsecs = Vec::new(row.alloc());
    for part in row.word().split(',') {
        push_nsec(row, &mut nsecs, part);
    }
    nsecs
}

/// Appends the NSEC of an owner, a next name and types.
fn push_nsec(row: &mut Row<'_>, nsecs: &mut Vec<Nsec>, word: &str) {
    let (owner, rest) = word.split_once(':').unwrap_or((word, ""));
    let (next, types) = rest.split_once(':').unwrap_or((rest, ""));
    let owner = row.name_of(owner).to_owned(row.alloc());
    let next = row.name_of(next).to_owned(row.alloc());
    let types = types_of(row, types);
    if let (Ok(owner), Ok(next)) = (owner, next) {
        match Nsec::new(row.alloc(), owner, next, types) {
            Ok(nsec) => row.keep(nsecs.push(nsec)),
            Err(_) => row.fail(RowError::OutOfMemory),
        }
    }
}

/// Types, which plus signs part.
fn types_of(row: &mut Row<'_>, word: &str) -> Vec<u16> {
    let mut types = Vec::new(row.alloc());
    for part in word.split('+') {
        let rtype = row.number_of(part);
        row.keep(types.push(rtype));
    }
    types
}
