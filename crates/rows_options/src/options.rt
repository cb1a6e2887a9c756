//! The calls of dns_options.

use crate::said::{code_and_data, composed};
use crate::steps::{Target, write};
use dns_name::{ComposeOptData, ParseError, Parser};
use dns_options::{AllOptData, Cookie, NsidRef, Opt, OptRef, OptionHeader, written_by};
use rows_table::{Calls, Row, RowError};

/// Calls of lists of options and of single ones.
pub struct Options;

impl Calls for Options {
    fn answer(&self, call: &str, row: &mut Row<'_>) -> Result<(), RowError> {
        match call {
            "opt_from_octets" => from_octets(row),
            "opt_from_slice" => return from_slice(row),
            "all_options" => return all_options(row),
            "list" => list(row, true),
            "list_len" => list(row, false),
            "option_header" => option_header(row),
            "written_by" => written(row),
            "first" => first(row),
            _ => return Err(RowError::NoSuchCall),
        }
        Ok(())
    }
}

/// What pushes to an empty list answer, and the list's octets or only their number.
fn list(row: &mut Row<'_>, whole: bool) {
    let mut list = Opt::empty(row.alloc());
    row.take_steps(", ", &mut Target::List(&mut list));
    if whole {
        row.hexadecimal(list.as_slice())
    } else {
        row.show(&list.len())
    }
}

/// The text of a list that owns its octets, and how many of its options are read.
fn from_octets(row: &mut Row<'_>) {
    match Opt::from_octets(row.vector()) {
        Ok(list) => {
            row.quote(&list);
            row.tell("readable", &readable(&list.for_slice_ref()))
        }
        Err(error) => row.give_up(error.into()),
    }
}

/// How many options of any kind a list has that are read.
fn readable(list: &OptRef<'_>) -> usize {
    let mut count = 0usize;
    for item in list.iter::<AllOptData>() {
        if item.is_ok() {
            count = count.saturating_add(1);
        }
    }
    count
}

/// The octets of an owned copy of a list.
fn from_slice(row: &mut Row<'_>) -> Result<(), RowError> {
    let list = OptRef::from_slice(row.octets())?.to_owned(row.alloc())?;
    row.hexadecimal(list.as_slice());
    Ok(())
}

/// The list of the next word.
fn next_list<'a>(row: &mut Row<'a>) -> Result<OptRef<'a>, RowError> {
    OptRef::from_slice(row.octets()).or(Err(RowError::OutOfForm))
}

/// The options of any kind that a list has, each with its code and its data.
fn all_options(row: &mut Row<'_>) -> Result<(), RowError> {
    for item in next_list(row)?.iter::<AllOptData>() {
        option_said(row, item);
    }
    Ok(())
}

/// An option's code and its data, or why it isn't read; a comma parts it from what stands there.
fn option_said(row: &mut Row<'_>, item: Result<AllOptData<'_>, ParseError>) {
    if !row.said().is_empty() {
        row.close(",");
    }
    match item {
        Ok(option) => code_and_data(row, &option),
        Err(error) => row.debug(&error),
    }
}

/// The data of the first option of a kind in a list; of the first identifier in an owned copy, if the kind is none of
/// these.
fn first(row: &mut Row<'_>) {
    let kind = row.word();
    match next_list(row) {
        Ok(list) => match kind {
            "nsid" => first_said(row, list.first::<NsidRef>()),
            "padding" => first_said(row, list.padding()),
            "cookie" => first_said(row, list.first::<Cookie>()),
            _ => owned_first_said(row, &list),
        },
        Err(fault) => row.fail(fault),
    }
}

/// The first identifier in an owned copy.
fn owned_first_said(row: &mut Row<'_>, list: &OptRef<'_>) {
    match list.to_owned(row.alloc()) {
        Ok(owned) => first_said(row, owned.nsid()),
        Err(_) => row.fail(RowError::OutOfMemory),
    }
}

/// The data of an option, or `none`.
fn first_said<D: ComposeOptData + Drop>(row: &mut Row<'_>, found: Option<D>) {
    match found {
        Some(option) => composed(row, &option),
        None => row.say("none"),
    }
}

/// The code and the length that the head of an option has, and how many octets are left after it.
fn option_header(row: &mut Row<'_>) {
    let mut parser = Parser::from_ref(row.octets());
    match OptionHeader::parse(&mut parser) {
        Ok(head) => {
            row.tell("code", &head.code().to_int());
            row.tell("len", &head.len());
            row.tell("left", &parser.remaining())
        }
        Err(error) => row.refuse(error),
    }
}

/// What a closure writes to an empty vector.
fn written(row: &mut Row<'_>) {
    let octets = row.octets();
    match written_by(row.alloc(), |target: &mut Vec<u8>| write(target, octets)) {
        Ok(written) => row.hexadecimal(&written),
        Err(_) => row.fail(RowError::OutOfMemory),
    }
}
