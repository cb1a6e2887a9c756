//! The lines of the service's rules.

ghost use Rattle.std.specs.Prelude.{◌≡◌};
ghost use Rattle.dns_trace.specs.Reading.{GivesLine, TakesLine};
ghost use Rattle.dns_script.specs.Script.{rule_line, rule_name, rule_of};

use crate::answer_words::answers;
use crate::draft::Draft;
use crate::line_checks::before_events;
use crate::rule::Rule;
use dns_name::Name;
use dns_trace::{LineError, Reason, Words, name, unless};
use std::alloc::Global;

/// `*` for all names, or a name.
#[tactic(auto, unfolding(crate::specs::Script::rule_name))]
fn rule_name(alloc: Global, word: &[u8]) -> Result<Option<Name>, LineError>
    ensures { GivesLine (λ n. n) result (rule_name word.now) }
{
    if word == b"*".as_slice() {
        return Ok(None);
    }
    Ok(Some(name(alloc, word)?))
}

/// The rule of a line `rule NAME|* ANSWER ..`.
#[tactic(auto, unfolding(crate::specs::Script::rule_of))]
fn rule_of(alloc: Global, words: &Words) -> Result<Rule, LineError>
    ensures { GivesLine (λ r. r) result (rule_of words.now) }
{
    unless(Reason::Count, words.len() >= 3)?;
    let name = rule_name(alloc, words.word(1))?;
    let answers = answers(alloc, words)?;
    Ok(Rule { name, answers })
}

/// A line `rule NAME|* ANSWER ..`. A rule stands before the first event, if no service line of another kind does.
#[tactic(auto, unfolding(crate::specs::Script::rule_line))]
pub(crate) fn read_rule<E: Drop>(
    alloc: Global,
    draft: &mut Draft<E>,
    words: &Words,
) -> Result<(), LineError>
    ensures { TakesLine result draft.new (rule_line draft.old words.now) }
{
    before_events(&draft.script)?;
    unless(Reason::Mix, draft.may_be_rule())?;
    let rule = rule_of(alloc, words)?;
    draft.push_rule(rule)?;
    Ok(())
}
