//! Fields of data as octets, each of one word.

ghost use Rattle.std.specs.Prelude.{◌≡◌, ◌≤◌, ◌<◌, ◌++◌, [], Ok, IfOk};
ghost use Rattle.dns_name.specs.Place.{two, four};
ghost use Rattle.dns_entries.specs.Reading.{Gives};
ghost use Rattle.dns_presentation.specs.Strings.{string_in};
ghost use Rattle.dns_presentation.specs.Fields.{algorithm_in, behind_length, counted_string, field_octets, fields_after, hashed_in, hex_octets, moment_in, more, number_below_in, one_field, period_in, salt_in, type_in};

use crate::names::name_in;
use crate::types::{Field, algorithm, type_of};
use dns_entries::{EntryReason, Word, ZoneFileError, bare, first_word, refused, some_or};
use dns_name::Name;
use dns_word_values::{base32_octets, decimal, long_address, moment, quad, seconds, string};
use hex::FromHexError;
use std::alloc::Global;

/// A number below `top` that a word spells.
pub(crate) fn number_below_in(word: &Word, top: u64) -> Result<u64, ZoneFileError>
    requires { top ≤ 4294967296 }
    ensures value { Gives (λ n. n) result (number_below_in top word.now) }
    ensures below { IfOk result (λ n. n < top) }
{
    let octets = bare(word)?;
    some_or(word.line, EntryReason::Number, decimal(octets, top))
}

/// A time in seconds that a word spells.
pub fn period_in(word: &Word) -> Result<u32, ZoneFileError>
    ensures { Gives (λ n. n) result (period_in word.now) }
{
    let octets = bare(word)?;
    let number = some_or(word.line, EntryReason::Number, seconds(octets))?;
    Ok(number as u32)
}

/// An algorithm of signatures that a word names.
fn algorithm_in(word: &Word) -> Result<u8, ZoneFileError>
    ensures { Gives (λ n. n) result (algorithm_in word.now) }
{
    let octets = bare(word)?;
    let number = some_or(word.line, EntryReason::Number, algorithm(octets))?;
    Ok(number as u8)
}

/// A time of a signature that a word spells.
fn moment_in(word: &Word) -> Result<u32, ZoneFileError>
    ensures { Gives (λ n. n) result (moment_in word.now) }
{
    let octets = bare(word)?;
    let seconds = some_or(word.line, EntryReason::Time, moment(octets))?;
    Ok(seconds as u32)
}

/// A type that a word names.
pub fn type_in(word: &Word) -> Result<u16, ZoneFileError>
    ensures { Gives (λ n. n) result (type_in word.now) }
{
    let octets = bare(word)?;
    some_or(word.line, EntryReason::UnknownType, type_of(octets))
}

/// Appends octets.
pub(crate) fn push(target: &mut Vec<u8>, octets: &[u8]) -> Result<(), ZoneFileError>
    ensures { Gives (λ u. target.new.items) result (Ok (target.old.items ++ octets.now)) }
{
    target.extend_from_slice(octets)?;
    Ok(())
}

/// Appends a number of 16 bits.
fn push_short(target: &mut Vec<u8>, number: u16) -> Result<(), ZoneFileError>
    ensures { Gives (λ u. target.new.items) result (Ok (target.old.items ++ two number)) }
{
    push(target, &[(number / 256) as u8, (number % 256) as u8])
}

/// Appends a number of 32 bits.
fn push_long(target: &mut Vec<u8>, number: u32) -> Result<(), ZoneFileError>
    ensures { Gives (λ u. target.new.items) result (Ok (target.old.items ++ four number)) }
{
    push_short(target, (number / 65536) as u16)?;
    push_short(target, (number % 65536) as u16)
}

/// What a string spells.
pub(crate) fn string_in(alloc: Global, word: &Word) -> Result<Vec<u8>, ZoneFileError>
    ensures { Gives (λ v. v.items) result (string_in word.now) }
{
    let found = string(alloc, word.octets.as_slice())?;
    some_or(word.line, EntryReason::Escape, found)
}

/// Appends octets after their length.
fn push_counted(line: u64, octets: &[u8], target: &mut Vec<u8>) -> Result<(), ZoneFileError>
    ensures { Gives (λ u. target.new.items) result (more target.old.items (behind_length line octets.now)) }
{
    if octets.len() > 255 {
        return Err(refused(line, EntryReason::LongString));
    }
    push(target, &[octets.len() as u8])?;
    push(target, octets)
}

/// Appends a string after its length.
pub(crate) fn push_string(
    alloc: Global,
    word: &Word,
    target: &mut Vec<u8>,
) -> Result<(), ZoneFileError>
    ensures { Gives (λ u. target.new.items) result (more target.old.items (counted_string word.now)) }
{
    let octets = string_in(alloc, word)?;
    push_counted(word.line, octets.as_slice(), target)
}

/// The octets of hexadecimal digits.
pub(crate) fn hex_octets(alloc: Global, line: u64, text: &[u8]) -> Result<Vec<u8>, ZoneFileError>
    ensures { Gives (λ v. v.items) result (hex_octets line text.now) }
{
    match hex::decode(alloc, text) {
        Ok(octets) => Ok(octets),
        Err(FromHexError::OutOfMemory) => Err(ZoneFileError::OutOfMemory),
        Err(_) => Err(refused(line, EntryReason::Hex)),
    }
}

/// Appends the octets of hexadecimal digits after their length, or none for a hyphen.
fn push_salt(alloc: Global, word: &Word, target: &mut Vec<u8>) -> Result<(), ZoneFileError>
    ensures { Gives (λ u. target.new.items) result (more target.old.items (salt_in word.now)) }
{
    let text = bare(word)?;
    if text == b"-".as_slice() {
        return push(target, &[0]);
    }
    let octets = hex_octets(alloc, word.line, text)?;
    push_counted(word.line, octets.as_slice(), target)
}

/// Appends the octets of base32 after their length.
fn push_hashed(alloc: Global, word: &Word, target: &mut Vec<u8>) -> Result<(), ZoneFileError>
    ensures { Gives (λ u. target.new.items) result (more target.old.items (hashed_in word.now)) }
{
    let text = bare(word)?;
    let found = base32_octets(alloc, text)?;
    let octets = some_or(word.line, EntryReason::Base32, found)?;
    push_counted(word.line, octets.as_slice(), target)
}

/// Appends the octets of a field.
fn push_field(
    alloc: Global,
    origin: &Name,
    field: Field,
    word: &Word,
    target: &mut Vec<u8>,
) -> Result<(), ZoneFileError>
    ensures { Gives (λ u. target.new.items) result (more target.old.items (field_octets origin.now field word.now)) }
{
    match field {
        Field::Quad => {
            let octets = bare(word)?;
            let address = some_or(word.line, EntryReason::Address, quad(octets))?;
            push(target, &address)
        }
        Field::LongAddress => {
            let octets = bare(word)?;
            let address = some_or(word.line, EntryReason::Address, long_address(octets))?;
            push(target, &address)
        }
        Field::Host => {
            let name = name_in(alloc, origin, word)?;
            push(target, name.as_slice())
        }
        Field::Octet => {
            let number = number_below_in(word, 256)?;
            push(target, &[number as u8])
        }
        Field::Short => {
            let number = number_below_in(word, 65536)?;
            push_short(target, number as u16)
        }
        Field::Long => {
            let number = number_below_in(word, 4_294_967_296)?;
            push_long(target, number as u32)
        }
        Field::Period => {
            let number = period_in(word)?;
            push_long(target, number)
        }
        Field::Tag => {
            bare(word)?;
            push_string(alloc, word, target)
        }
        Field::CharString => push_string(alloc, word, target),
        Field::Moment => {
            let seconds = moment_in(word)?;
            push_long(target, seconds)
        }
        Field::Salt => push_salt(alloc, word, target),
        Field::Hashed => push_hashed(alloc, word, target),
        Field::Algorithm => {
            let number = algorithm_in(word)?;
            push(target, &[number])
        }
        Field::TypeCode => {
            let number = type_in(word)?;
            push_short(target, number)
        }
    }
}

/// Appends the octets of the field that words begin with, and gives those after it.
fn push_first<'a>(
    alloc: Global,
    origin: &Name,
    line: u64,
    field: Field,
    words: &'a [Word],
    target: &mut Vec<u8>,
) -> Result<&'a [Word], ZoneFileError>
    ensures { Gives (λ ws. (target.new.items, ws.now)) result (one_field origin.now line target.old.items field words.now) }
{
    let (word, behind) = first_word(line, words)?;
    push_field(alloc, origin, field, word, target)?;
    Ok(behind)
}

/// Appends the octets of fields, and gives the words after them.
pub(crate) fn push_fields<'a>(
    alloc: Global,
    origin: &Name,
    line: u64,
    fields: &[Field],
    words: &'a [Word],
    target: &mut Vec<u8>,
) -> Result<&'a [Word], ZoneFileError>
    ensures { Gives (λ ws. (target.new.items, ws.now)) result (fields_after origin.now line target.old.items fields.now words.now) }
{
    let mut rest = words;
    for field in fields {
        rest = push_first(alloc, origin, line, *field, rest, target)?;
    }
    Ok(rest)
}
