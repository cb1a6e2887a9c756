//! Numbers by the names that IANA's registries give them.

ghost use Rattle.std.specs.Prelude.{◌≡◌, map, option_map};
ghost use Rattle.std.specs.Fmt.{WritesOnOk};
ghost use Rattle.std.specs.List.{find};
ghost use Rattle.dns_name.specs.declared.registry.Registry.{Registry};
ghost use Rattle.dns_name.specs.Registries.{code_named, code_text, entries, entry_of, fits, number_behind, number_of_digits, same_letters, word_of};

use crate::registry_names::{
    CLASSES, ERRORS, ERRORS_FROM_16, OPCODES, OPTIONS, OPTIONS_FROM_15, RCODES, RCODES_FROM_16,
    TYPES, TYPES_FROM_17, TYPES_FROM_33, TYPES_FROM_49, TYPES_FROM_66, TYPES_FROM_128,
    TYPES_FROM_258,
};
use std::fmt;

/// A registry of IANA's "Domain Name System (DNS) Parameters".
#[derive(Clone, Copy)]
pub enum Registry {
    /// DNS CLASSes.
    Classes,
    /// Resource Record (RR) TYPEs.
    Rtypes,
    /// DNS EDNS0 Option Codes (OPT).
    OptionCodes,
    /// Extended DNS Error Codes.
    ErrorCodes,
    /// DNS OpCodes.
    Opcodes,
    /// DNS RCODEs.
    Rcodes,
}

impl Registry {
    /// What stands before a number in decimal (RFC 3597, section 5).
    fn word(self) -> &'static str
        ensures { result.now ≡ word_of self }
    {
        match self {
            Registry::Classes => "CLASS",
            Registry::Rtypes => "TYPE",
            Registry::OptionCodes => "",
            Registry::ErrorCodes => "",
            Registry::Opcodes => "",
            Registry::Rcodes => "",
        }
    }
}

/// What marks the codes of a registry.
pub trait Registered {
    /// The registry.
    const REGISTRY: Registry;

    ghost REGISTRY: { Registry };
}

/// What is looked for in a registry.
#[derive(Clone, Copy)]
enum Wanted<'a> {
    Number(u16),
    /// A name, up to ASCII case.
    Name(&'a str),
}

impl Wanted<'_> {
    /// Whether an entry is the one that is looked for.
    fn fits(self, named: (u16, &str)) -> bool
        ensures { result ≡ fits self.entry (entry_of named.entry) }
    {
        match self {
            Wanted::Number(number) => named.0 == number,
            Wanted::Name(name) => same_letters(named.1.as_bytes(), name.as_bytes()),
        }
    }
}

/// Whether texts are the same up to ASCII case.
fn same_letters(text: &[u8], other: &[u8]) -> bool
    ensures { result ≡ same_letters text.now other.now }
{
    text.eq_ignore_ascii_case(other)
}

/// The first entry of a table that is looked for.
fn first_in(
    table: &'static [(u16, &'static str)],
    wanted: Wanted<'_>,
) -> Option<(u16, &'static str)>
    ensures { option_map entry_of result ≡ find (fits wanted.entry) (map entry_of table.now) }
{
    for named in table {
        if wanted.fits(*named) {
            return Some(*named);
        }
    }
    None
}

/// The first entry of a registry that is looked for.
fn found(registry: Registry, wanted: Wanted<'_>) -> Option<(u16, &'static str)>
    ensures { option_map entry_of result ≡ find (fits wanted.entry) (entries registry) }
{
    match registry {
        Registry::Classes => first_in(CLASSES, wanted),
        Registry::Rtypes => type_found(wanted),
        Registry::OptionCodes => first_in(OPTIONS, wanted).or(first_in(OPTIONS_FROM_15, wanted)),
        Registry::ErrorCodes => first_in(ERRORS, wanted).or(first_in(ERRORS_FROM_16, wanted)),
        Registry::Opcodes => first_in(OPCODES, wanted),
        Registry::Rcodes => first_in(RCODES, wanted).or(first_in(RCODES_FROM_16, wanted)),
    }
}

/// The first record type that is looked for.
fn type_found(wanted: Wanted<'_>) -> Option<(u16, &'static str)>
    ensures { option_map entry_of result ≡ find (fits wanted.entry) (entries Registry.Rtypes) }
{
    first_in(TYPES, wanted)
        .or(first_in(TYPES_FROM_17, wanted))
        .or(first_in(TYPES_FROM_33, wanted))
        .or(first_in(TYPES_FROM_49, wanted))
        .or(first_in(TYPES_FROM_66, wanted))
        .or(first_in(TYPES_FROM_128, wanted))
        .or(first_in(TYPES_FROM_258, wanted))
}

/// Writes a number by its name, or in decimal after the registry's word.
pub(crate) fn write_code<W: fmt::Write>(
    registry: Registry,
    number: u16,
    f: &mut fmt::Formatter<W>,
) -> fmt::Result
    ensures { WritesOnOk W.write_str_gives f.old result (code_text registry number) f.new }
{
    match found(registry, Wanted::Number(number)) {
        Some((_, name)) => f.write_str(name),
        None => {
            let word = registry.word();
            write!(f, "{word}{number}")
        }
    }
}

/// The number that a text names: by its name up to ASCII case, or in decimal after the registry's word.
pub(crate) fn code_in(registry: Registry, text: &str) -> Option<u16>
    ensures { result ≡ code_named registry text.now }
{
    match found(registry, Wanted::Name(text)) {
        Some((number, _)) => Some(number),
        None => number_behind(registry.word().as_bytes(), text.as_bytes()),
    }
}

/// The number that decimal digits after a word are.
fn number_behind(word: &[u8], text: &[u8]) -> Option<u16>
    ensures { result ≡ number_behind word.now text.now }
{
    if text.len() < word.len() {
        return None;
    }
    let (front, behind) = text.split_at(word.len());
    if same_letters(front, word) {
        number_of_digits(behind)
    } else {
        None
    }
}

/// The number below 65,536 that 1 to 5 decimal digits are.
fn number_of_digits(text: &[u8]) -> Option<u16>
    ensures { result ≡ number_of_digits text.now }
{
    if text.is_empty() || text.len() > 5 {
        return None;
    }
    let mut value: u32 = 0;
    for digit in text {
        if *digit < b'0' || *digit > b'9' {
            return None;
        }
        value = value * 10 + (*digit - b'0') as u32;
    }
    match u16::try_from(value) {
        Ok(number) => Some(number),
        Err(_) => None,
    }
}
