//! What stands after `$INCLUDE`.

ghost use Rattle.std.specs.Prelude.{◌≡◌, drop};
ghost use Rattle.dns_entries.specs.Reading.{Gives};
ghost use Rattle.dns_presentation.specs.Strings.{string_in};
ghost use Rattle.dns_zone_include.specs.Including.{inclusion_in, origin_in};

use dns_entries::{EntryReason, Word, ZoneFileError, first_word, nothing_more, refused};
use dns_name::{Name, Octets};
use dns_presentation::name_in;
use dns_word_values::string;
use std::alloc::Global;

/// The name of a text that is to be included, the line of this name, and the text's origin.
#[derive(Drop)]
pub(crate) struct Inclusion {
    pub name: Octets,
    pub line: u64,
    pub origin: Name,
}

/// The name that a word spells, in quotes or without.
fn text_name(alloc: Global, word: &Word) -> Result<Octets, ZoneFileError>
    ensures { Gives (λ o. o) result (string_in word.now) }
{
    match string(alloc, word.octets.as_slice())? {
        Some(octets) => Ok(Octets::from_vec(octets)),
        None => Err(refused(word.line, EntryReason::Escape)),
    }
}

/// The origin for an included text.
fn origin_in(alloc: Global, origin: &Name, words: &[Word]) -> Result<Name, ZoneFileError>
    ensures { Gives (λ n. n) result (origin_in origin.now words.now) }
{
    let [first, rest @ ..] = words else {
        return Ok(origin.try_clone(alloc)?);
    };
    let name = name_in(alloc, origin, first)?;
    nothing_more(rest)?;
    Ok(name)
}

/// The words after the first.
pub(crate) fn behind_first(words: &[Word]) -> &[Word]
    ensures { result.now ≡ drop 1 words.now }
{
    match words {
        [_, rest @ ..] => rest,
        [] => words,
    }
}

/// What the words after `$INCLUDE` name, in an entry that ends on this line.
#[tactic(auto, unfolding(crate::specs::Including::inclusion_in))]
pub(crate) fn inclusion_in(
    alloc: Global,
    origin: &Name,
    line: u64,
    words: &[Word],
) -> Result<Inclusion, ZoneFileError>
    ensures { Gives (λ i. i) result (inclusion_in origin.now line words.now) }
{
    let (word, rest) = first_word(line, words)?;
    let name = text_name(alloc, word)?;
    let below = origin_in(alloc, origin, rest)?;
    Ok(Inclusion {
        name,
        line: word.line,
        origin: below,
    })
}
