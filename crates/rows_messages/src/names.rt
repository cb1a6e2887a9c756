//! The calls of dns_name on uncompressed names.

use dns_name::{FromTextError, Name, NameRef, Octets, ParsedName};
use rows_table::{Calls, Row, RowError};

/// Calls that make names of octets and texts, and calls of names.
pub struct Names;

impl Calls for Names {
    fn answer(&self, call: &str, row: &mut Row<'_>) -> Result<(), RowError> {
        match call {
            "name_from_slice" => match NameRef::from_slice(row.octets()) {
                Ok(name) => row.hexadecimal(name.as_slice()),
                Err(error) => row.refuse(error),
            },
            "refusal_text" => match NameRef::from_slice(row.octets()) {
                Ok(_) => row.say("none"),
                Err(error) => row.show(&error),
            },
            "octets_from_slice" => copied(row),
            "name_from_text" => from_text(row),
            "name_root" => root(row),
            "name_compose" => composed(row),
            "name_to_owned" => owned(row),
            "name_text" => {
                let name = row.name();
                row.quote(&name)
            }
            "name_cmp" => {
                let name = row.name();
                let other = row.name();
                row.debug(&name.name_cmp(&other))
            }
            "name_parts" => name_parts(row),
            "name_parsed" => {
                let name = row.name();
                row.show(&ParsedName::of(&name))
            }
            "names_rise" => names_rise(row),
            _ => return Err(RowError::NoSuchCall),
        }
        Ok(())
    }
}

/// The octets of a copy.
fn copied(row: &mut Row<'_>) {
    match Octets::from_slice(row.alloc(), row.octets()) {
        Ok(copy) => row.hexadecimal(copy.as_slice()),
        Err(_) => row.fail(RowError::OutOfMemory),
    }
}

/// The octets of the name that a text in quotation marks is, or its refusal.
fn from_text(row: &mut Row<'_>) {
    match Name::from_text(row.alloc(), row.text()) {
        Ok(name) => row.hexadecimal(name.as_slice()),
        Err(FromTextError::OutOfMemory) => row.fail(RowError::OutOfMemory),
        Err(error) => row.debug(&error),
    }
}

/// The root's octets, and those that it appends to none.
fn root(row: &mut Row<'_>) {
    match Name::root(row.alloc()) {
        Ok(name) => {
            row.hexadecimal(name.as_slice());
            let mut target = Vec::new(row.alloc());
            row.keep(name.compose(row.alloc(), &mut target));
            row.tell_octets("composed", &target)
        }
        Err(_) => row.fail(RowError::OutOfMemory),
    }
}

/// What a borrowed name appends to none.
fn composed(row: &mut Row<'_>) {
    let name = row.name();
    let mut target = Vec::new(row.alloc());
    row.keep(name.compose(row.alloc(), &mut target));
    row.hexadecimal(&target)
}

/// The octets of an owned copy of a name, and how many it says that it takes.
fn owned(row: &mut Row<'_>) {
    match row.name().to_owned(row.alloc()) {
        Ok(name) => {
            row.hexadecimal(name.as_slice());
            row.tell("compose_len", &name.compose_len())
        }
        Err(_) => row.fail(RowError::OutOfMemory),
    }
}

/// A name by Debug, whether it is the root's, its parent, and what is after that many of its labels.
fn name_parts(row: &mut Row<'_>) {
    let name = row.name();
    row.debug(&name);
    row.tell_whether("is_root", name.is_root());
    match name.parent() {
        Some(parent) => row.tell("parent", &parent),
        None => row.say("none"),
    }
    let skipped = row.number();
    row.tell("behind", &name.behind(skipped))
}

/// Whether a name compares with each of these as its place does with theirs.
fn stands(row: &mut Row<'_>, names: &str, place: usize, name: &NameRef<'_>) -> bool {
    let mut stands = true;
    for (other_place, other) in names.split(' ').enumerate() {
        let order = name.name_cmp(&row.name_of(other));
        stands = stands && order == place.cmp(&other_place);
    }
    stands
}

/// Whether each two of these names compare as their places do.
fn names_rise(row: &mut Row<'_>) {
    let names = row.all_words();
    let mut rise = true;
    for (place, name) in names.split(' ').enumerate() {
        let name = row.name_of(name);
        rise = stands(row, names, place, &name) && rise;
    }
    row.whether(rise)
}
