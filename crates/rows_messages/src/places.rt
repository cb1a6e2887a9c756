//! The calls of dns_name on names at places of messages, on addresses and on serial numbers.

use dns_name::{NameRef, ParsedName, Parser, Serial};
use rows_table::{Calls, Row, RowError};

/// Calls of names in messages, of addresses and of serial numbers.
pub struct PlacedNames;

impl Calls for PlacedNames {
    fn answer(&self, call: &str, row: &mut Row<'_>) -> Result<(), RowError> {
        match call {
            "parsed_name" => parsed_name(row),
            "parsed_to_name" => parsed_to_name(row),
            "parsed_text" => match next_parsed(row) {
                Ok(name) => {
                    row.quote(&name);
                    row.debug(&name)
                }
                Err(fault) => row.fail(fault),
            },
            "address_text" => {
                let address = row.address();
                row.show(&address)
            }
            "serial_cmp" => serial_cmp(row),
            _ => return Err(RowError::NoSuchCall),
        }
        Ok(())
    }
}

/// A parser at the place in a message that the next words are.
fn next_parser<'a>(row: &mut Row<'a>) -> Parser<'a> {
    let mut parser = Parser::from_ref(row.octets());
    if parser.advance(row.number()).is_err() {
        row.fail(RowError::OutOfForm);
    }
    parser
}

/// How many labels the name at a place of a message has, and how it stands to the next word's; or its refusal, and the place
/// where the parser then is.
fn parsed_name(row: &mut Row<'_>) {
    let mut parser = next_parser(row);
    match ParsedName::parse(&mut parser) {
        Ok(name) => {
            let other: NameRef<'_> = row.name();
            row.tell("labels", &name.label_count());
            row.tell_whether("name_eq", name.name_eq(&other));
            row.tell_whether("ends_with", name.ends_with(&other))
        }
        Err(error) => {
            row.name();
            row.debug(&error);
            row.tell("pos", &parser.pos())
        }
    }
}

/// The name at the place in a message that the next words are.
fn next_parsed<'a>(row: &mut Row<'a>) -> Result<ParsedName<'a>, RowError> {
    let mut parser = next_parser(row);
    ParsedName::parse(&mut parser).or(Err(RowError::OutOfForm))
}

/// The octets of the name at a place of a message, uncompressed.
fn parsed_to_name(row: &mut Row<'_>) {
    match next_parsed(row) {
        Ok(name) => match name.to_name(row.alloc()) {
            Ok(name) => row.hexadecimal(name.as_slice()),
            Err(_) => row.fail(RowError::OutOfMemory),
        },
        Err(fault) => row.fail(fault),
    }
}

/// The order of two serial numbers.
fn serial_cmp(row: &mut Row<'_>) {
    let serial = Serial(row.number());
    let other = Serial(row.number());
    match serial.partial_cmp(&other) {
        Some(order) => row.debug(&order),
        None => row.say("none"),
    }
}
