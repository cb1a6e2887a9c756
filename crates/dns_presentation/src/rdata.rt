//! Data of a type, as octets: its fields, and what stands after them.

ghost use Rattle.std.specs.Prelude.{◌≡◌, []};
ghost use Rattle.dns_entries.specs.Reading.{Gives};
ghost use Rattle.dns_presentation.specs.Fields.{base64_words, data_of, generic, hex_words, is_generic, joined_after, laid_out, one_type, rest_octets, some_hex, strings_after, types_after};

use crate::fields::{
    hex_octets, number_below_in, push, push_fields, push_string, string_in, type_in,
};
use crate::service_params::params_octets;
use crate::types::{Field, Rest, layout_of};
use base64::DecodeAllocError;
use base64::engine::general_purpose::STANDARD;
use dns_entries::{
    EntryReason, Word, ZoneFileError, bare, first_word, nothing_more, refused, unless_at,
};
use dns_name::Name;
use dns_word_values::type_set;
use std::alloc::Global;

/// Appends strings.
fn push_strings(alloc: Global, words: &[Word], target: &mut Vec<u8>) -> Result<(), ZoneFileError>
    ensures { Gives (λ u. target.new.items) result (strings_after target.old.items words.now) }
{
    for word in words {
        push_string(alloc, word, target)?;
    }
    Ok(())
}

/// Words without quotes, put together.
fn joined(alloc: Global, words: &[Word]) -> Result<Vec<u8>, ZoneFileError>
    ensures { Gives (λ v. v.items) result (joined_after [] words.now) }
{
    let mut octets = Vec::new(alloc);
    for word in words {
        let more = bare(word)?;
        push(&mut octets, more)?;
    }
    Ok(octets)
}

fn hex_words(alloc: Global, line: u64, words: &[Word]) -> Result<Vec<u8>, ZoneFileError>
    ensures { Gives (λ v. v.items) result (hex_words line words.now) }
{
    let (first, _) = first_word(line, words)?;
    let text = joined(alloc, words)?;
    hex_octets(alloc, first.line, text.as_slice())
}

fn base64_words(alloc: Global, line: u64, words: &[Word]) -> Result<Vec<u8>, ZoneFileError>
    ensures { Gives (λ v. v.items) result (base64_words line words.now) }
{
    let (first, _) = first_word(line, words)?;
    let text = joined(alloc, words)?;
    match STANDARD.decode(alloc, text.as_slice()) {
        Ok(octets) => Ok(octets),
        Err(DecodeAllocError::OutOfMemory) => Err(ZoneFileError::OutOfMemory),
        Err(_) => Err(refused(first.line, EntryReason::Base64)),
    }
}

/// Appends the type that a word names.
fn push_type(word: &Word, types: &mut Vec<u16>) -> Result<(), ZoneFileError>
    ensures { Gives (λ u. types.new.items) result (one_type types.old.items word.now) }
{
    let rtype = type_in(word)?;
    types.push(rtype)?;
    Ok(())
}

/// The types that words name.
fn types_in(alloc: Global, words: &[Word]) -> Result<Vec<u16>, ZoneFileError>
    ensures { Gives (λ v. v.items) result (types_after [] words.now) }
{
    let mut types = Vec::new(alloc);
    for word in words {
        push_type(word, &mut types)?;
    }
    Ok(types)
}

/// What the words after the fields are.
fn rest_of(alloc: Global, line: u64, rest: Rest, words: &[Word]) -> Result<Vec<u8>, ZoneFileError>
    ensures { Gives (λ v. v.items) result (rest_octets line rest words.now) }
{
    match rest {
        Rest::Nothing => {
            nothing_more(words)?;
            Ok(Vec::new(alloc))
        }
        Rest::Strings => {
            first_word(line, words)?;
            let mut octets = Vec::new(alloc);
            push_strings(alloc, words, &mut octets)?;
            Ok(octets)
        }
        Rest::Value => {
            let (word, behind) = first_word(line, words)?;
            nothing_more(behind)?;
            string_in(alloc, word)
        }
        Rest::Hex => hex_words(alloc, line, words),
        Rest::Base64 => base64_words(alloc, line, words),
        Rest::TypeSet => {
            let types = types_in(alloc, words)?;
            Ok(type_set(alloc, types.as_slice())?)
        }
        Rest::Params => params_octets(alloc, line, words),
    }
}

/// The octets of fields and of what stands after them.
fn laid_out(
    alloc: Global,
    origin: &Name,
    line: u64,
    fields: &[Field],
    rest: Rest,
    words: &[Word],
) -> Result<Vec<u8>, ZoneFileError>
    ensures { Gives (λ v. v.items) result (laid_out origin.now line (fields.now, rest) words.now) }
{
    let mut octets = Vec::new(alloc);
    let behind = push_fields(alloc, origin, line, fields, words, &mut octets)?;
    let more = rest_of(alloc, line, rest, behind)?;
    push(&mut octets, more.as_slice())?;
    Ok(octets)
}

/// Whether data is written by its length and its octets.
fn is_generic(words: &[Word]) -> bool
    ensures { result ≡ is_generic words.now }
{
    match words {
        [first, ..] => !first.quoted && first.octets.as_slice() == b"\\#".as_slice(),
        [] => false,
    }
}

fn some_hex(alloc: Global, line: u64, words: &[Word]) -> Result<Vec<u8>, ZoneFileError>
    ensures { Gives (λ v. v.items) result (some_hex line words.now) }
{
    if words.is_empty() {
        return Ok(Vec::new(alloc));
    }
    hex_words(alloc, line, words)
}

/// The octets of data that is written by its length and its octets.
#[tactic(auto, unfolding(crate::specs::Fields::generic))]
fn generic(alloc: Global, line: u64, words: &[Word]) -> Result<Vec<u8>, ZoneFileError>
    ensures { Gives (λ v. v.items) result (generic line words.now) }
{
    let (word, behind) = first_word(line, words)?;
    let size = number_below_in(word, 65536)?;
    let octets = some_hex(alloc, line, behind)?;
    unless_at(word.line, EntryReason::Length, octets.len() as u64 == size)?;
    Ok(octets)
}

/// The octets of data of a type.
#[tactic(auto, unfolding(crate::specs::Fields::data_of))]
pub fn data_of(
    alloc: Global,
    origin: &Name,
    at: u64,
    line: u64,
    rtype: u16,
    words: &[Word],
) -> Result<Vec<u8>, ZoneFileError>
    ensures { Gives (λ v. v.items) result (data_of origin.now at line rtype words.now) }
{
    if is_generic(words) {
        let (_, behind) = first_word(line, words)?;
        return generic(alloc, line, behind);
    }
    let Some((fields, rest)) = layout_of(rtype) else {
        return Err(refused(at, EntryReason::UnknownType));
    };
    laid_out(alloc, origin, line, fields, rest, words)
}
