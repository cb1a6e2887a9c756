//! Rows of zones.

ghost use Rattle.std.specs.Prelude.{IfOk};
ghost use Rattle.dns_base.specs.Records.{IsLawful};
ghost use Rattle.dns_zone.specs.Owned.{AreLawful};

use crate::router_rows::asked_at;
use crate::said::{Says, say};
use dns_base::{Record, record_in};
use dns_name::Name;
use dns_zone::{Zone, ZoneError};
use rows_table::{Row, RowError};

/// What is said of the zone of the next words, an apex and records, or of its turn of the request after them.
pub(crate) fn zone(row: &mut Row<'_>, is_asked: bool) {
    let octets = row.vector();
    match Name::from_octets(octets) {
        Ok(apex) => {
            let records = next_records(row);
            let made = Zone::new(row.alloc(), apex, records);
            say(row, &ZoneSaid { is_asked }, made)
        }
        Err(_) => row.fail(RowError::OutOfForm),
    }
}

/// How many records a zone has or what it answers, or the text of its refusal.
#[derive(Drop)]
struct ZoneSaid {
    is_asked: bool,
}

impl Says<Result<Zone, ZoneError>> for ZoneSaid {
    fn says(&self, row: &mut Row<'_>, value: &Result<Zone, ZoneError>) {
        match value {
            Ok(zone) if self.is_asked => asked_at(row, zone, 0),
            Ok(zone) => {
                row.hexadecimal(zone.apex().as_slice());
                row.show(&zone.records().len())
            }
            Err(error) => row.show(error),
        }
    }
}

/// The records of the next word, which commas part; `-` for none.
fn next_records(row: &mut Row<'_>) -> Vec<Record>
    ensures { AreLawful result.items }
{
    let mut records = Vec::new(row.alloc());
    'each: for part in row.word().split(',') {
        push_record(row, &mut records, part);
    }
    records
}

/// Appends the record of a word, except for `-`.
fn push_record(row: &mut Row<'_>, records: &mut Vec<Record>, word: &str)
    requires { AreLawful records.old.items }
    ensures { AreLawful records.new.items }
{
    if word == "-" {
        return;
    }
    match record_of(row, word) {
        Ok(record) => row.keep(records.push(record)),
        Err(fault) => row.fail(fault),
    }
}

/// The record that the octets of a word are, as a message has it.
fn record_of(row: &mut Row<'_>, word: &str) -> Result<Record, RowError>
    ensures { IfOk result (λ r. IsLawful r.rdata) }
{
    match record_in(row.octets_of(word), 0) {
        Ok((record, _)) => record.to_record(row.alloc()).or(Err(RowError::OutOfForm)),
        Err(_) => Err(RowError::OutOfForm),
    }
}
