//! The names that words spell.

ghost use Rattle.std.specs.Prelude.{◌≡◌};
ghost use Rattle.std.specs.List.{list_all};
ghost use Rattle.dns_trace.specs.NameWords.{ends_in_dot, is_name_character, name_word};
ghost use Rattle.dns_trace.specs.Reading.{GivesLine};

use crate::reason::{LineError, Reason};
use dns_name::{FromTextError, Name};
use std::alloc::Global;

/// Whether a character may stand in a name: a letter, a digit, `-`, `_` or the dot.
fn is_name_character(character: u8) -> bool
    ensures { result ≡ is_name_character character }
{
    matches!(
        character,
        b'0'..=b'9' | b'A'..=b'Z' | b'a'..=b'z' | b'-' | b'_' | b'.'
    )
}

/// Whether all characters may stand in a name.
fn all_in_names(word: &[u8]) -> bool
    ensures { result ≡ list_all is_name_character word.now }
{
    for character in word {
        if !is_name_character(*character) {
            return false;
        }
    }
    true
}

/// Whether a word ends in a dot.
fn ends_in_dot(word: &[u8]) -> bool
    ensures { result ≡ ends_in_dot word.now }
{
    match word.last() {
        Some(last) => *last == b'.',
        None => false,
    }
}

/// A name: `.`, or labels of letters, digits, `-` and `_`, each with a dot after it.
#[tactic(auto, unfolding(crate::specs::NameWords::name_word))]
pub fn name(alloc: Global, word: &[u8]) -> Result<Name, LineError>
    ensures { GivesLine (λ n. n) result (name_word word.now) }
{
    if !ends_in_dot(word) || !all_in_names(word) {
        return Err(LineError::Refused(Reason::Value));
    }
    let Ok(text) = str::from_utf8(word) else {
        return Err(LineError::Refused(Reason::Value));
    };
    match Name::from_text(alloc, text) {
        Ok(name) => Ok(name),
        Err(FromTextError::OutOfMemory) => Err(LineError::OutOfMemory),
        Err(_) => Err(LineError::Refused(Reason::Value)),
    }
}
