//! The call of dns_zone_include. In a row's text `~` parts one text from the next, and the first line of each is its name.

use crate::said::{said_each, text};
use dns_name::Octets;
use dns_zone_include::{IncludeError, IncludeReason, ZoneText, ZoneTextList, read_zone_including};
use rows_table::{Calls, Row, RowError};

/// Calls that read zone files which include others.
pub struct Includes;

impl Calls for Includes {
    fn answer(&self, call: &str, row: &mut Row<'_>) -> Result<(), RowError> {
        match call {
            "read_zone_including" => said_records(row),
            _ => return Err(RowError::NoSuchCall),
        }
        Ok(())
    }
}

/// The name and the text of a part of a row's text.
fn named(part: &[u8]) -> (&[u8], &[u8]) {
    match part.iter().position(|octet| *octet == b'\n') {
        Some(at) => (&part[..at], &part[at + 1..]),
        None => (part, &part[part.len()..]),
    }
}

/// Copies octets.
fn copied(row: &mut Row<'_>, octets: &[u8]) -> Octets {
    Octets::from_vec(row.copied(octets))
}

/// The texts of a row's text.
fn texts_of(row: &mut Row<'_>, whole: &[u8]) -> ZoneTextList {
    let mut texts = ZoneTextList::new(row.alloc());
    for part in whole.split(|octet| *octet == b'~') {
        let (name, text) = named(part);
        let name = copied(row, name);
        let text = copied(row, text);
        row.keep(texts.push(ZoneText { name, text }));
    }
    texts
}

/// Says a name as it is.
fn said_name(row: &mut Row<'_>, name: &Octets) {
    match str::from_utf8(name.as_slice()) {
        Ok(name) => row.say(name),
        Err(_) => row.fail(RowError::OutOfForm),
    }
}

/// Says why a line is refused.
fn said_reason(row: &mut Row<'_>, reason: &IncludeReason) {
    match reason {
        IncludeReason::Entry(reason) => row.debug(reason),
        IncludeReason::Loop => row.say("Loop"),
        IncludeReason::Depth => row.say("Depth"),
        IncludeReason::NoText(name) => {
            row.say("NoText");
            said_name(row, name);
        }
    }
}

/// Says the text, the line and the reason of a refusal.
fn refused(row: &mut Row<'_>, error: &IncludeError) {
    match error {
        IncludeError::Refused { name, line, reason } => {
            said_name(row, name);
            row.tell("line", line);
            said_reason(row, reason);
        }
        IncludeError::OutOfMemory => row.fail(RowError::OutOfMemory),
    }
}

/// The records of the first text, or why one is refused.
fn said_records(row: &mut Row<'_>) {
    let Ok(origin) = row.name().to_owned(row.alloc()) else {
        return row.fail(RowError::OutOfMemory);
    };
    let whole = text(row);
    let first = whole.split(|octet| *octet == b'~').next().unwrap_or(b"");
    let (name, text) = named(first);
    let texts = texts_of(row, whole.as_slice());
    match read_zone_including(row.alloc(), &texts, &origin, name, text) {
        Ok(records) => said_each(row, records.as_slice()),
        Err(error) => refused(row, &error),
    }
}
