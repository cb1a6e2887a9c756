//! The lines of the target's rules.

ghost use Rattle.std.specs.Prelude.{◌≡◌, codes};
ghost use Rattle.std.specs.List.{list_all};
ghost use Rattle.std.specs.Str.{bytes_eq};
ghost use Rattle.dns_trace.specs.Reading.{GivesLine, TakesLine};
ghost use Rattle.dns_script.specs.Script.{notify_line, notify_of, verdict_word, words_between};

use crate::line_checks::before_events;
use crate::notify_rule::NotifyRule;
use crate::script::Script;
use dns_core::NotifyError;
use dns_trace::{LineError, Reason, Words, name, unless};
use std::alloc::Global;

/// `ok`, `notauth` or `other`.
#[tactic(auto, unfolding(crate::specs::Script::verdict_word))]
fn verdict(word: &[u8]) -> Result<Result<(), NotifyError>, Reason>
    ensures { result ≡ verdict_word word.now }
{
    if word == b"ok".as_slice() {
        return Ok(Ok(()));
    }
    if word == b"notauth".as_slice() {
        return Ok(Err(NotifyError::NotAuthForZone));
    }
    if word == b"other".as_slice() {
        return Ok(Err(NotifyError::Other));
    }
    Err(Reason::Value)
}

/// Whether the words between the name and the last one are `pend`.
#[tactic(auto, using(crate::proofs::Between::between_end))]
fn all_pend(words: &Words) -> bool
    ensures { result ≡ list_all (λ w. bytes_eq w (codes "pend")) (words_between words.now) }
{
    for i in 2..words.len().saturating_sub(1) {
        if words.word(i) != b"pend".as_slice() {
            return false;
        }
    }
    true
}

/// The verdict of a line `notify NAME pend .. ok|notauth|other`.
#[tactic(auto, unfolding(crate::specs::Script::notify_of))]
fn notify_of(alloc: Global, words: &Words) -> Result<NotifyRule, LineError>
    ensures { GivesLine (λ r. r) result (notify_of words.now) }
{
    unless(Reason::Count, words.len() >= 3)?;
    let apex = name(alloc, words.word(1))?;
    if !all_pend(words) {
        return Err(LineError::Refused(Reason::Value));
    }
    let verdict = verdict(words.word(words.len() - 1))?;
    let pends = words.len() - 3;
    Ok(NotifyRule {
        apex,
        pends,
        verdict,
    })
}

/// A line `notify NAME pend .. ok|notauth|other`.
#[tactic(auto, unfolding(crate::specs::Script::notify_line))]
pub fn read_notify<E: Drop>(
    alloc: Global,
    script: &mut Script<E>,
    words: &Words,
) -> Result<(), LineError>
    ensures { TakesLine result script.new (notify_line script.old words.now) }
{
    before_events(script)?;
    let rule = notify_of(alloc, words)?;
    script.push_notify_rule(rule)?;
    Ok(())
}
