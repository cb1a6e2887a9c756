//! The words that are left of an entry.

ghost use Rattle.std.specs.Prelude.{◌≡◌, Result as TheResult};
ghost use Rattle.dns_entries.specs.declared.reason.EntryReason.{EntryReason as TheReason};
ghost use Rattle.dns_entries.specs.Reading.{Gives, GivesAt, at_line, bare, first_word, nothing_more, some_or, unless_at};

use crate::entry::Word;
use crate::reason::{EntryReason, ReasonError, ZoneFileError};

/// A refusal.
pub fn refused(line: u64, reason: EntryReason) -> ZoneFileError
    ensures { result ≡ ZoneFileError.Refused line reason }
{
    ZoneFileError::Refused { line, reason }
}

/// Nothing, or a refusal if the test fails.
pub fn unless_at(line: u64, reason: EntryReason, test: bool) -> Result<(), ZoneFileError>
    ensures { Gives (λ u. u) result (unless_at line reason test) }
{
    if test {
        return Ok(());
    }
    Err(refused(line, reason))
}

/// What is found, or a refusal.
pub fn some_or<T: Drop>(
    line: u64,
    reason: EntryReason,
    found: Option<T>,
) -> Result<T, ZoneFileError>
    ensures { Gives (λ x. x) result (some_or line reason found) }
{
    match found {
        Some(value) => Ok(value),
        None => Err(refused(line, reason)),
    }
}

/// What is refused for a reason stands on this line.
pub fn at_line<T: Drop>(line: u64, read: Result<T, ReasonError>) -> Result<T, ZoneFileError>
    ensures { (r : TheResult T TheReason) → GivesAt (λ x. x) read r → Gives (λ x. x) result (at_line line r) }
{
    match read {
        Ok(value) => Ok(value),
        Err(ReasonError::Refused(reason)) => Err(refused(line, reason)),
        Err(ReasonError::OutOfMemory) => Err(ZoneFileError::OutOfMemory),
    }
}

/// The octets of a word without quotes.
pub fn bare(word: &Word) -> Result<&[u8], ZoneFileError>
    ensures { Gives (λ o. o.now) result (bare word.now) }
{
    if word.quoted {
        return Err(refused(word.line, EntryReason::Quoted));
    }
    Ok(word.octets.as_slice())
}

/// The first word and those after it.
pub fn first_word(line: u64, words: &[Word]) -> Result<(&Word, &[Word]), ZoneFileError>
    ensures { Gives (λ r. (r.0.now, r.1.now)) result (first_word line words.now) }
{
    match words {
        [first, rest @ ..] => Ok((first, rest)),
        [] => Err(refused(line, EntryReason::Missing)),
    }
}

/// No word is left.
pub fn nothing_more(words: &[Word]) -> Result<(), ZoneFileError>
    ensures { Gives (λ u. u) result (nothing_more words.now) }
{
    match words {
        [first, ..] => Err(refused(first.line, EntryReason::Trailing)),
        [] => Ok(()),
    }
}
