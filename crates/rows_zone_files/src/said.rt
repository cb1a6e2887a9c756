//! Texts in which `|` stands for LF, and what rows say of them and of records.

use dns_message::Record;
use rows_table::{Row, RowError};

/// A copy of octets in which every `from` is replaced by `to`.
fn exchanged(row: &mut Row<'_>, octets: &[u8], from: u8, to: u8) -> Vec<u8> {
    let mut text = Vec::new(row.alloc());
    for octet in octets {
        let kept = if *octet == from { to } else { *octet };
        row.keep(text.push(kept));
    }
    text
}

/// The text of all words that are left, with LF for each `|`.
pub(crate) fn text(row: &mut Row<'_>) -> Vec<u8> {
    let words = row.all_words();
    exchanged(row, words.as_bytes(), b'|', b'\n')
}

/// Says lines, with `|` for LF.
pub(crate) fn said_lines(row: &mut Row<'_>, lines: &[u8]) {
    let line = exchanged(row, lines, b'\n', b'|');
    match str::from_utf8(line.as_slice()) {
        Ok(text) => row.say(text),
        Err(_) => row.fail(RowError::OutOfForm),
    }
}

/// Says a record: its owner's octets, its TTL, its type and its data's octets.
fn said_record(row: &mut Row<'_>, record: &Record) {
    row.hexadecimal(record.owner.as_slice());
    row.show(&record.ttl.as_secs());
    row.show(&record.rdata.rtype().to_int());
    let mut octets = Vec::new(row.alloc());
    row.keep(record.rdata.compose(row.alloc(), &mut octets));
    row.hexadecimal(&octets);
}

/// Says records.
pub(crate) fn said_each(row: &mut Row<'_>, records: &[Record]) {
    for record in records {
        said_record(row, record);
    }
}
