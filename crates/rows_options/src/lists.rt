//! The calls of dns_lists and dns_algs.

use crate::said::{both_said, both_shown, shown};
use dns_algs::{Dau, DauVariant, DhuVariant, N3uVariant, UnderstoodRef, Variant};
use dns_lists::{KeyTagRef, Nsid, NsidKind, OctetsKind, PaddingKind, PlainRef, UnknownOptDataRef};
use dns_name::{OptionCode, ParseOptData, Parser, SecurityAlgorithm};
use rows_table::{Calls, Row, RowError};

/// The calls of dns_lists and dns_algs.
pub struct Lists;

impl Calls for Lists {
    fn answer(&self, call: &str, row: &mut Row<'_>) -> Result<(), RowError> {
        match call {
            "nsid" => plain::<NsidKind>(row),
            "padding" => plain::<PaddingKind>(row),
            "nsid_empty" => shown(row, &Nsid::empty(row.alloc())),
            "key_tag" => key_tag(row),
            "unknown" => unknown(row),
            "dau" => understood::<DauVariant>(row),
            "dhu" => understood::<DhuVariant>(row),
            "n3u" => understood::<N3uVariant>(row),
            "dau_from_sec_algs" => from_sec_algs(row),
            _ => return Err(RowError::NoSuchCall),
        }
        Ok(())
    }
}

/// An option of plain octets: given, and owned as it is read.
fn plain<K: OctetsKind>(row: &mut Row<'_>) {
    let octets = row.octets();
    match PlainRef::<K>::from_slice(octets) {
        Ok(given) => {
            let mut parser = Parser::from_ref(octets);
            match PlainRef::<K>::parse(&mut parser) {
                Ok(found) => both_shown(row, &given, found.to_owned(row.alloc())),
                Err(error) => row.refuse(error),
            }
        }
        Err(_) => row.fail(RowError::OutOfForm),
    }
}

/// Key tags, and how many octets may be written.
fn key_tag(row: &mut Row<'_>) {
    match KeyTagRef::from_slice(row.octets()) {
        Ok(given) => match given.to_owned(row.alloc()) {
            Ok(mut owned) => {
                let len = owned.as_slice_mut().len();
                both_said(row, &given, &owned);
                row.tell("mut", &len)
            }
            Err(_) => row.fail(RowError::OutOfMemory),
        },
        Err(error) => row.give_up(error.into()),
    }
}

/// An option of no kind, of a code and data, and how many octets may be written.
fn unknown(row: &mut Row<'_>) {
    let code = OptionCode::from_int(row.number());
    let mut parser = Parser::from_ref(row.octets());
    match UnknownOptDataRef::parse_option(code, &mut parser) {
        Ok(Some(found)) => match found.to_owned(row.alloc()) {
            Ok(mut owned) => {
                let len = owned.as_slice_mut().len();
                both_said(row, &found, &owned);
                row.tell("mut", &len)
            }
            Err(_) => row.fail(RowError::OutOfMemory),
        },
        Ok(None) => row.say("none"),
        Err(error) => row.refuse(error),
    }
}

/// A list of algorithms, and how many octets reading leaves.
fn understood<K: Variant>(row: &mut Row<'_>) {
    let mut parser = Parser::from_ref(row.octets());
    match UnderstoodRef::<K>::parse(&mut parser) {
        Ok(found) => {
            both_shown(row, &found, found.to_owned(row.alloc()));
            row.tell("left", &parser.remaining())
        }
        Err(error) => row.refuse(error),
    }
}

/// The list of the algorithms of these numbers, and how many its iterator gives; or why there is none.
fn from_sec_algs(row: &mut Row<'_>) {
    let numbers = row.octets();
    let algorithms = numbers
        .iter()
        .map(|number| SecurityAlgorithm::from_int(*number));
    match Dau::from_sec_algs(row.alloc(), algorithms) {
        Ok(list) => {
            shown(row, &list);
            row.tell("count", &list.iter().count())
        }
        Err(error) => row.debug(&error),
    }
}
