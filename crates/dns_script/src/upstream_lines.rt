//! The lines of upstreams.

ghost use Rattle.std.specs.Prelude.{◌≡◌, [], drop};
ghost use Rattle.dns_trace.specs.Reading.{GivesLine, TakesLine};
ghost use Rattle.dns_script.specs.ServiceLines.{upstream_line, upstream_of, upstream_word, upstream_words_after};

use crate::answer_words::{behind, rcode};
use crate::draft::Draft;
use crate::line_checks::before_events;
use crate::rule_list::RuleList;
use crate::upstream::{UpstreamLine, UpstreamWord};
use dns_trace::{LineError, Reason, Words, name, unless};
use std::alloc::Global;

/// `pend`, `late`, `rcode:N` or `stray:N`.
#[tactic(auto, unfolding(crate::specs::ServiceLines::upstream_word))]
fn upstream_word(word: &[u8]) -> Result<UpstreamWord, Reason>
    ensures { result ≡ upstream_word word.now }
{
    if word == b"pend".as_slice() {
        return Ok(UpstreamWord::Pend);
    }
    if word == b"late".as_slice() {
        return Ok(UpstreamWord::Late);
    }
    if let Some(rest) = behind(word, b"rcode:".as_slice()) {
        return Ok(UpstreamWord::Rcode(rcode(rest)?));
    }
    if let Some(rest) = behind(word, b"stray:".as_slice()) {
        return Ok(UpstreamWord::Stray(rcode(rest)?));
    }
    Err(Reason::Value)
}

/// What happens at each poll of an upstream, as the words from the third one on say.
fn upstream_words(alloc: Global, words: &Words) -> Result<RuleList<UpstreamWord>, LineError>
    ensures { GivesLine (λ l. l) result (upstream_words_after [] (drop 2 words.now)) }
{
    let mut list = RuleList::new(alloc);
    for i in 2..words.len() {
        let word = upstream_word(words.word(i))?;
        list.push(word)?;
    }
    Ok(list)
}

/// The upstream of a line `upstream NAME WORD ..`.
#[tactic(auto, unfolding(crate::specs::ServiceLines::upstream_of))]
fn upstream_of(alloc: Global, words: &Words) -> Result<UpstreamLine, LineError>
    ensures { GivesLine (λ u. u) result (upstream_of words.now) }
{
    unless(Reason::Count, words.len() >= 3)?;
    let name = name(alloc, words.word(1))?;
    let words = upstream_words(alloc, words)?;
    Ok(UpstreamLine { name, words })
}

/// A line `upstream NAME WORD ..`. An upstream stands before the first event, if no service line of another kind does.
#[tactic(auto, unfolding(crate::specs::ServiceLines::upstream_line))]
pub(crate) fn read_upstream<E: Drop>(
    alloc: Global,
    draft: &mut Draft<E>,
    words: &Words,
) -> Result<(), LineError>
    ensures { TakesLine result draft.new (upstream_line draft.old words.now) }
{
    before_events(&draft.script)?;
    unless(Reason::Mix, draft.may_be_upstream())?;
    let upstream = upstream_of(alloc, words)?;
    draft.push_upstream(upstream)?;
    Ok(())
}
