//! The lines of a service and of a target, as they are written.

ghost use Rattle.std.specs.Prelude.{◌≡◌, ◌++◌, ◌∷◌, OnOk, codes, decimal, flat_map, map, replicate};
ghost use Rattle.dns_base.specs.Records.{data_octets};
ghost use Rattle.dns_trace.specs.Spelling.{line_of_words, octets_word, spaced};
ghost use Rattle.dns_script.specs.ScriptText.{service_text, target_text, words_of_apex, words_of_notify, words_of_record, words_of_rule, words_of_service, words_of_upstream};
ghost use Rattle.dns_script.specs.Spelled.{name_or_star, spelled_answer, spelled_event, spelled_feedback, spelled_name, spelled_reply, spelled_verdict};

use crate::cached_rules::error_text;
use crate::notify_rule::NotifyRule;
use crate::rule::{Rule, ScriptAnswer, ScriptReply};
use crate::service_lines::ServiceLines;
use crate::upstream::{UpstreamLine, UpstreamWord};
use dns_base::{Record, RecordData};
use dns_core::NotifyError;
use dns_name::{Name, OutOfMemory};
use dns_service::ServiceFeedback;
use dns_trace::TextWriter;
use dns_zone::Zone;
use std::alloc::Global;

/// The labels of a name, each with a dot after it.
fn push_labels(text: &mut TextWriter, name: &Name) -> Result<(), OutOfMemory>
    ensures { OnOk result (text.new ≡ text.old ++ flat_map (λ label. label ++ codes ".") name.now) }
{
    let mut labels = name.labels();
    'labels: while let Some(label) = labels.next() {
        text.append(label)?;
        text.character(b'.')?;
    }
    Ok(())
}

/// A name after a space: each label with a dot after it, or a dot for the root's.
fn push_name(text: &mut TextWriter, name: &Name) -> Result<(), OutOfMemory>
    ensures { OnOk result (text.new ≡ text.old ++ 32 ∷ spelled_name name.now) }
{
    if name.label_count() == 1 {
        return text.word(".");
    }
    text.character(b' ')?;
    push_labels(text, name)
}

/// A name, or `*` for all names, after a space.
fn push_name_or_star(text: &mut TextWriter, name: &Option<Name>) -> Result<(), OutOfMemory>
    ensures { OnOk result (text.new ≡ text.old ++ 32 ∷ name_or_star name.now) }
{
    match name {
        Some(name) => push_name(text, name),
        None => text.word("*"),
    }
}

/// A word, a colon and a number.
fn push_counted(text: &mut TextWriter, word: &str, number: u64) -> Result<(), OutOfMemory>
    ensures { OnOk result (text.new ≡ text.old ++ word.now ++ 58 ∷ decimal number) }
{
    text.name(word)?;
    text.number_behind(b':', number)
}

/// A reply.
fn push_reply(text: &mut TextWriter, reply: ScriptReply) -> Result<(), OutOfMemory>
    ensures { OnOk result (text.new ≡ text.old ++ spelled_reply reply) }
{
    match reply {
        ScriptReply::Rcode(rcode) => push_counted(text, "rcode", u64::from(rcode.to_int())),
        ScriptReply::Blank(rcode) => push_counted(text, "blank", u64::from(rcode.to_int())),
        ScriptReply::Fill(len) => push_counted(text, "fill", u64::from(len)),
        ScriptReply::Opt(len) => push_counted(text, "opt", u64::from(len)),
        ScriptReply::Live(ttl) => push_counted(text, "live", u64::from(ttl.as_secs())),
    }
}

/// A feedback, of which an idle timeout is in ms.
fn push_feedback(text: &mut TextWriter, feedback: ServiceFeedback) -> Result<(), OutOfMemory>
    ensures { OnOk result (text.new ≡ text.old ++ spelled_feedback feedback) }
{
    match feedback {
        ServiceFeedback::Reconfigure { idle_timeout } => match idle_timeout {
            Some(timeout) => push_counted(text, "idle", timeout),
            None => text.name("idle:none"),
        },
        ServiceFeedback::BeginTransaction => text.name("begin"),
        ServiceFeedback::EndTransaction => text.name("end"),
    }
}

/// An answer after a space.
fn push_answer(text: &mut TextWriter, answer: ScriptAnswer) -> Result<(), OutOfMemory>
    ensures { OnOk result (text.new ≡ text.old ++ 32 ∷ spelled_answer answer) }
{
    text.character(b' ')?;
    match answer {
        ScriptAnswer::Pend => text.name("pend"),
        ScriptAnswer::Error(error) => text.name(error_text(error)),
        ScriptAnswer::Feedback(feedback) => push_feedback(text, feedback),
        ScriptAnswer::Reply(reply) => push_reply(text, reply),
        ScriptAnswer::Both(feedback, reply) => {
            push_feedback(text, feedback)?;
            text.character(b'+')?;
            push_reply(text, reply)
        }
    }
}

/// Answers, each after a space.
fn push_answers(text: &mut TextWriter, answers: &[ScriptAnswer]) -> Result<(), OutOfMemory>
    ensures { OnOk result (text.new ≡ text.old ++ spaced (map spelled_answer answers.now)) }
{
    for answer in answers {
        push_answer(text, *answer)?;
    }
    Ok(())
}

/// The line of a rule.
fn rule_line(text: &mut TextWriter, rule: &Rule) -> Result<(), OutOfMemory>
    ensures { OnOk result (text.new ≡ text.old ++ line_of_words (words_of_rule rule.now)) }
{
    text.name("rule")?;
    push_name_or_star(text, &rule.name)?;
    push_answers(text, rule.answers.as_slice())?;
    text.end_line()
}

/// The lines of rules.
fn rule_lines(text: &mut TextWriter, rules: &[Rule]) -> Result<(), OutOfMemory>
    ensures { OnOk result (text.new ≡ text.old ++ flat_map line_of_words (map words_of_rule rules.now)) }
{
    for rule in rules {
        rule_line(text, rule)?;
    }
    Ok(())
}

/// What happens at a poll of an upstream, after a space.
fn push_event(text: &mut TextWriter, word: UpstreamWord) -> Result<(), OutOfMemory>
    ensures { OnOk result (text.new ≡ text.old ++ 32 ∷ spelled_event word) }
{
    text.character(b' ')?;
    match word {
        UpstreamWord::Pend => text.name("pend"),
        UpstreamWord::Rcode(rcode) => push_counted(text, "rcode", u64::from(rcode.to_int())),
        UpstreamWord::Stray(rcode) => push_counted(text, "stray", u64::from(rcode.to_int())),
        UpstreamWord::Late => text.name("late"),
    }
}

/// What happens at the polls of an upstream, each after a space.
fn push_events(text: &mut TextWriter, words: &[UpstreamWord]) -> Result<(), OutOfMemory>
    ensures { OnOk result (text.new ≡ text.old ++ spaced (map spelled_event words.now)) }
{
    for word in words {
        push_event(text, *word)?;
    }
    Ok(())
}

/// The line of an upstream.
fn upstream_line(text: &mut TextWriter, upstream: &UpstreamLine) -> Result<(), OutOfMemory>
    ensures { OnOk result (text.new ≡ text.old ++ line_of_words (words_of_upstream upstream.now)) }
{
    text.name("upstream")?;
    push_name(text, &upstream.name)?;
    push_events(text, upstream.words.as_slice())?;
    text.end_line()
}

/// The lines of upstreams.
fn upstream_lines(text: &mut TextWriter, upstreams: &[UpstreamLine]) -> Result<(), OutOfMemory>
    ensures { OnOk result (text.new ≡ text.old ++ flat_map line_of_words (map words_of_upstream upstreams.now)) }
{
    for upstream in upstreams {
        upstream_line(text, upstream)?;
    }
    Ok(())
}

/// The data of a record, or `-` for none, after a space.
fn push_data(alloc: Global, text: &mut TextWriter, rdata: &RecordData) -> Result<(), OutOfMemory>
    ensures { OnOk result (text.new ≡ text.old ++ 32 ∷ octets_word (data_octets rdata.now)) }
{
    let mut octets = Vec::new(alloc);
    rdata.compose(alloc, &mut octets)?;
    text.octets(octets.as_slice())
}

/// The line of a record, with its time to live in s.
fn record_line(alloc: Global, text: &mut TextWriter, resource: &Record) -> Result<(), OutOfMemory>
    ensures { OnOk result (text.new ≡ text.old ++ line_of_words (words_of_record resource.now)) }
{
    text.name("record")?;
    push_name(text, &resource.owner)?;
    text.number(u64::from(resource.ttl.as_secs()))?;
    text.number(u64::from(resource.rdata.rtype().to_int()))?;
    push_data(alloc, text, &resource.rdata)?;
    text.end_line()
}

/// The lines of records.
fn record_lines(alloc: Global, text: &mut TextWriter, records: &[Record]) -> Result<(), OutOfMemory>
    ensures { OnOk result (text.new ≡ text.old ++ flat_map line_of_words (map words_of_record records.now)) }
{
    for record in records {
        record_line(alloc, text, record)?;
    }
    Ok(())
}

/// The lines of a zone and of its records.
fn zone_lines(alloc: Global, text: &mut TextWriter, zone: &Zone) -> Result<(), OutOfMemory>
    ensures { OnOk result (text.new ≡ text.old
        ++ flat_map line_of_words (words_of_apex zone.now.apex ∷ map words_of_record zone.now.records)) }
{
    text.name("zone")?;
    push_name(text, zone.apex())?;
    text.end_line()?;
    record_lines(alloc, text, zone.records())
}

/// The lines of a service.
#[tactic(auto, unfolding(crate::specs::ScriptText::service_text))]
pub(crate) fn write_service(
    alloc: Global,
    text: &mut TextWriter,
    service: &ServiceLines,
) -> Result<(), OutOfMemory>
    ensures { OnOk result (text.new ≡ text.old ++ service_text service.now) }
{
    match service {
        ServiceLines::Rules(rules) => rule_lines(text, rules.as_slice()),
        ServiceLines::Upstreams(upstreams) => upstream_lines(text, upstreams.as_slice()),
        ServiceLines::Zone(zone) => zone_lines(alloc, text, zone),
    }
}

/// The word of a verdict.
fn verdict_text(verdict: Result<(), NotifyError>) -> &'static str
    ensures { result.now ≡ spelled_verdict verdict }
{
    match verdict {
        Ok(()) => "ok",
        Err(NotifyError::NotAuthForZone) => "notauth",
        Err(NotifyError::Other) => "other",
    }
}

/// Writes the word `pend` that many times, each after a space.
fn push_pends(text: &mut TextWriter, pends: usize) -> Result<(), OutOfMemory>
    ensures { OnOk result (text.new ≡ text.old ++ spaced (replicate pends (codes "pend"))) }
{
    for i in 0..pends {
        text.word("pend")?;
    }
    Ok(())
}

/// The line of a rule of a target.
fn notify_line(text: &mut TextWriter, rule: &NotifyRule) -> Result<(), OutOfMemory>
    ensures { OnOk result (text.new ≡ text.old ++ line_of_words (words_of_notify rule.now)) }
{
    text.name("notify")?;
    push_name(text, &rule.apex)?;
    push_pends(text, rule.pends)?;
    text.word(verdict_text(rule.verdict))?;
    text.end_line()
}

/// The lines of a target.
#[tactic(auto, unfolding(crate::specs::ScriptText::target_text))]
pub(crate) fn write_target(text: &mut TextWriter, rules: &[NotifyRule]) -> Result<(), OutOfMemory>
    ensures { OnOk result (text.new ≡ text.old ++ target_text rules.now) }
{
    for rule in rules {
        notify_line(text, rule)?;
    }
    Ok(())
}
