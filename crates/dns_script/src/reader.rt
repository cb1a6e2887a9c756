//! The reader of a script.

ghost use Rattle.std.specs.Prelude.{◌≡◌, IfOk};
ghost use Rattle.std.specs.Str.{bytes_eq};
ghost use Rattle.std.specs.Str.Lines.{lines};
ghost use Rattle.dns_trace.specs.Reading.{TakesLine};
ghost use Rattle.dns_trace.specs.TextLines.{after_lines, numbered};
ghost use Rattle.dns_trace.specs.Words.{word_at};
ghost use Rattle.dns_script.specs.Draft.{empty_draft, finished};
ghost use Rattle.dns_script.specs.Script.{next_event_line, said_line, script, zone_number};
ghost use Rattle.dns_script.specs.ScriptReads.{ReadsScript};

use crate::draft::Draft;
use crate::notify_lines::read_notify;
use crate::rule_lines::read_rule;
use crate::script::{Script, ScriptError};
use crate::script_line::ScriptLine;
use crate::upstream_lines::read_upstream;
use crate::zone_lines::{read_record, read_zone};
use dns_name::OutOfMemory;
use dns_trace::{LineError, TakeLine, TraceError, Words, read_lines, setting_named, split_line};
use std::alloc::Global;

/// The line of an event, or of a step.
#[tactic(auto, unfolding(crate::specs::Script::next_event_line))]
fn event<E: ScriptLine>(
    alloc: Global,
    script: &mut Script<E>,
    words: &Words,
) -> Result<(), LineError>
    ensures { TakesLine result script.new (next_event_line E.has E.reading script.old words.now) }
{
    let event = E::read(alloc, words)?;
    script.push_event(event)?;
    Ok(())
}

/// Whether a line begins with this word.
fn begins(words: &Words, name: &str) -> bool
    ensures { result ≡ bytes_eq (word_at words.now 0) name.now }
{
    words.word(0) == name.as_bytes()
}

impl<E: ScriptLine> TakeLine for Draft<E> {
    ghost with_line = { said_line E.has E.reading };

    #[tactic(auto, unfolding(crate::specs::Script::said_line, crate::specs::Script::service_line, crate::specs::Script::plan_line))]
    fn take_line(&mut self, alloc: Global, words: &Words) -> Result<(), LineError> {
        if !E::has(words.word(0)) {
            return event(alloc, &mut self.script, words);
        }
        if begins(words, "rule") {
            return read_rule(alloc, self, words);
        }
        if begins(words, "upstream") {
            return read_upstream(alloc, self, words);
        }
        if begins(words, "zone") {
            return read_zone(alloc, self, words);
        }
        if begins(words, "record") {
            return read_record(alloc, self, words);
        }
        if begins(words, "notify") {
            return read_notify(alloc, &mut self.script, words);
        }
        match setting_named(words.word(0)) {
            Some(setting) => self.script.take_setting(alloc, setting, words),
            None => event(alloc, &mut self.script, words),
        }
    }
}

/// The number of the first line that is a zone's, or else of the last line.
fn zone_number(alloc: Global, text: &[u8]) -> Result<u64, OutOfMemory>
    ensures { IfOk result (λ n. n ≡ zone_number 0 (lines text.now)) }
{
    let mut rest = text;
    let mut line = 0u64;
    while !rest.is_empty() {
        line += 1;
        let (first, more) = split_line(rest);
        let words = Words::of(alloc, first)?;
        if begins(&words, "zone") {
            return Ok(line);
        }
        rest = more;
    }
    Ok(line)
}

/// What all lines of a text say, or the first bad one and the reason.
fn read_draft<E: ScriptLine>(alloc: Global, text: &[u8]) -> Result<Draft<E>, ScriptError>
    ensures { ReadsScript result (after_lines (said_line E.has E.reading) 1 empty_draft (lines text.now)) }
{
    let mut draft = Draft::new(alloc);
    match read_lines(alloc, &mut draft, text) {
        Ok(()) => Ok(draft),
        Err(TraceError::OutOfMemory) => Err(ScriptError::OutOfMemory),
        Err(TraceError::Line { line, reason }) => Err(ScriptError::Refused { line, reason }),
    }
}

/// The script of a draft of a text. A zone that its records don't make is refused at its line.
fn finish<E: ScriptLine>(
    alloc: Global,
    draft: Draft<E>,
    text: &[u8],
) -> Result<Script<E>, ScriptError>
    ensures { ReadsScript result (numbered (zone_number 0 (lines text.now)) (finished draft)) }
{
    match draft.finish(alloc) {
        Ok(script) => Ok(script),
        Err(LineError::OutOfMemory) => Err(ScriptError::OutOfMemory),
        Err(LineError::Refused(reason)) => match zone_number(alloc, text) {
            Ok(line) => Err(ScriptError::Refused { line, reason }),
            Err(OutOfMemory) => Err(ScriptError::OutOfMemory),
        },
    }
}

/// What a text says, or its first bad line and the reason.
#[tactic(auto, unfolding(crate::specs::Script::script))]
pub fn read_script<E: ScriptLine>(alloc: Global, text: &[u8]) -> Result<Script<E>, ScriptError>
    ensures { ReadsScript result (script E.has E.reading text.now) }
{
    match read_draft(alloc, text) {
        Ok(draft) => finish(alloc, draft, text),
        Err(error) => Err(error),
    }
}
