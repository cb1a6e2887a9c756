//! Names of a zone file.

ghost use Rattle.std.specs.Prelude.{◌≡◌, ◌<◌, ◌&&◌, ◌∷◌, [], length, not, nat_eq};
ghost use Rattle.std.specs.List.{list_all};
ghost use Rattle.dns_name.specs.FromText.{text_name};
ghost use Rattle.dns_entries.specs.Reading.{Gives, GivesAt};
ghost use Rattle.dns_presentation.specs.Names.{from_text, is_absolute, is_plain_label, name_in, name_of, stands_alone, under};

use dns_entries::{EntryReason, ReasonError, Word, ZoneFileError, at_line, bare};
use dns_name::{FromTextError, Name};
use std::alloc::Global;

/// Whether an octet that no backslash escapes is this one.
fn is_bare(escaped: bool, octet: u8, wanted: u8) -> bool
    ensures { result ≡ (not escaped && nat_eq octet wanted) }
{
    !escaped && octet == wanted
}

/// Whether a word ends in a dot that no backslash escapes.
fn is_absolute(word: &[u8]) -> bool
    ensures { result ≡ is_absolute word.now }
{
    let mut escaped = false;
    let mut dot = false;
    for octet in word {
        dot = is_bare(escaped, *octet, b'.');
        escaped = is_bare(escaped, *octet, b'\\');
    }
    dot
}

/// The name that a text is.
fn from_text(alloc: Global, word: &[u8]) -> Result<Name, ReasonError>
    ensures { GivesAt (λ n. n) result (from_text (text_name word.now)) }
{
    match Name::from_text_octets(alloc, word) {
        Ok(name) => Ok(name),
        Err(FromTextError::OutOfMemory) => Err(ReasonError::OutOfMemory),
        Err(FromTextError::LongName) => Err(ReasonError::Refused(EntryReason::LongName)),
        Err(FromTextError::BadEscape) => Err(ReasonError::Refused(EntryReason::Escape)),
        Err(_) => Err(ReasonError::Refused(EntryReason::Name)),
    }
}

/// A name below the origin.
fn under(alloc: Global, origin: &Name, name: &Name) -> Result<Name, ReasonError>
    ensures { GivesAt (λ n. n) result (under origin.now name.now) }
{
    match name.under(alloc, origin)? {
        Some(whole) => Ok(whole),
        None => Err(ReasonError::Refused(EntryReason::LongName)),
    }
}

/// Whether each octet stands for itself in a label.
fn stand_alone(word: &[u8]) -> bool
    ensures { result ≡ list_all stands_alone word.now }
{
    for octet in word {
        if !matches!(*octet, b'!'..=b'~') || matches!(*octet, b'.' | b'\\') {
            return false;
        }
    }
    true
}

/// Whether a word is one label whose octets stand for themselves.
fn is_plain_label(word: &[u8]) -> bool
    ensures { result ≡ is_plain_label word.now }
{
    if word.is_empty() || word.len() > 63 {
        return false;
    }
    stand_alone(word)
}

/// A name of one label below the origin.
fn label_under(alloc: Global, origin: &Name, label: &[u8]) -> Result<Name, ReasonError>
    requires some { 0 < length label.now }
    requires few { length label.now < 64 }
    ensures { GivesAt (λ n. n) result (under origin.now (label.now ∷ [])) }
{
    let behind = origin.as_slice();
    if label.len() + behind.len() > 254 {
        return Err(ReasonError::Refused(EntryReason::LongName));
    }
    let mut octets = Vec::with_capacity(alloc, label.len() + behind.len() + 1)?;
    octets.push(label.len() as u8)?;
    octets.extend_from_slice(label)?;
    octets.extend_from_slice(behind)?;
    match Name::from_octets(octets) {
        Ok(name) => Ok(name),
        Err(_) => Err(ReasonError::Refused(EntryReason::LongName)),
    }
}

/// The name that a word is.
#[tactic(auto, unfolding(crate::specs::Names::name_of), using(crate::proofs::PlainLabels::plain_name))]
pub(crate) fn name_of(alloc: Global, origin: &Name, word: &[u8]) -> Result<Name, ReasonError>
    ensures { GivesAt (λ n. n) result (name_of origin.now word.now) }
{
    if word == b"@".as_slice() {
        return Ok(origin.try_clone(alloc)?);
    }
    if is_plain_label(word) {
        return label_under(alloc, origin, word);
    }
    let name = from_text(alloc, word)?;
    if is_absolute(word) {
        return Ok(name);
    }
    under(alloc, origin, &name)
}

/// The name that a word without quotes is.
#[tactic(auto, unfolding(crate::specs::Names::name_in))]
pub fn name_in(alloc: Global, origin: &Name, word: &Word) -> Result<Name, ZoneFileError>
    ensures { Gives (λ n. n) result (name_in origin.now word.now) }
{
    let octets = bare(word)?;
    at_line(word.line, name_of(alloc, origin, octets))
}
