//! The calls of dns_zone_file. In a text of a zone file, which is all words after the origin, `|` stands for LF.

ghost use Rattle.std.specs.Prelude.{◌<◌, length};

use crate::said::{said_each, said_lines, text};
use dns_message::Record;
use dns_name::NameRef;
use dns_zone_file::{ZoneFileError, ZoneReader, read_zone, write_zone};
use rows_table::{Calls, Row, RowError};
use std::alloc::Global;

/// Calls that read and write zone files.
pub struct Zones;

impl Calls for Zones {
    fn answer(&self, call: &str, row: &mut Row<'_>) -> Result<(), RowError> {
        match call {
            "read_zone" => said_records(row),
            "read_zone_pieces" => said_pieces(row),
            "write_zone" => said_text(row),
            _ => return Err(RowError::NoSuchCall),
        }
        Ok(())
    }
}

/// The records of a text below an origin.
fn records(alloc: Global, origin: &NameRef<'_>, text: &[u8]) -> Result<Vec<Record>, ZoneFileError> {
    let origin = origin.to_owned(alloc)?;
    read_zone(alloc, &origin, text)
}

/// Says the line and the reason of a refusal.
fn refused(row: &mut Row<'_>, error: ZoneFileError) {
    match error {
        ZoneFileError::Refused { line, reason } => {
            row.tell("line", &line);
            row.debug(&reason);
        }
        ZoneFileError::OutOfMemory => row.fail(RowError::OutOfMemory),
    }
}

/// The records of a text, or why it is refused.
fn said_records(row: &mut Row<'_>) {
    let origin = row.name();
    let text = text(row);
    match records(row.alloc(), &origin, text.as_slice()) {
        Ok(records) => said_each(row, records.as_slice()),
        Err(error) => refused(row, error),
    }
}

/// The records of a text that comes in two pieces, which are cut apart at this place.
fn records_in_pieces(
    alloc: Global,
    origin: &NameRef<'_>,
    text: &[u8],
    at: usize,
) -> Result<Vec<Record>, ZoneFileError>
    requires { at < length text.now }
{
    let mut reader = ZoneReader::new(alloc, origin.to_owned(alloc)?);
    reader.take(alloc, &text[..at])?;
    reader.take(alloc, &text[at + 1..])?;
    reader.finish(alloc)
}

/// The records of a text in which `~` parts two pieces, or why it is refused.
fn said_pieces(row: &mut Row<'_>) {
    let origin = row.name();
    let text = text(row);
    let Some(at) = text.iter().position(|octet| *octet == b'~') else {
        return row.fail(RowError::OutOfForm);
    };
    match records_in_pieces(row.alloc(), &origin, text.as_slice(), at) {
        Ok(records) => said_each(row, records.as_slice()),
        Err(error) => refused(row, error),
    }
}

/// What is written of the records of a text, with `|` for LF, and whether it reads as these records below the root.
fn said_text(row: &mut Row<'_>) {
    let origin = row.name();
    let text = text(row);
    match records(row.alloc(), &origin, text.as_slice()) {
        Ok(records) => said_written(row, records.as_slice()),
        Err(error) => refused(row, error),
    }
}

/// What is written of records.
fn said_written(row: &mut Row<'_>, records: &[Record]) {
    match write_zone(row.alloc(), records) {
        Ok(written) => {
            reads_back(row, records, written.as_slice());
            said_lines(row, written.as_slice());
        }
        Err(_) => row.fail(RowError::OutOfMemory),
    }
}

/// Says whether a text reads as records below the root.
fn reads_back(row: &mut Row<'_>, wanted: &[Record], text: &[u8]) {
    let Ok(root) = NameRef::from_slice(b"\0") else {
        return row.fail(RowError::OutOfForm);
    };
    match records(row.alloc(), &root, text) {
        Ok(again) => row.tell_whether("again", again.as_slice() == wanted),
        Err(error) => refused(row, error),
    }
}
