//! The questions of a script are asked of a cache, and the lines of the answers are written, many at a time.

ghost use Rattle.std.specs.Prelude.{◌≡◌, ◌≤◌, ◌++◌, [], IfOk, OnOk, string_bytes};
ghost use Rattle.dns_io.specs.Causes.{Observed};
ghost use Rattle.dns_flood.specs.AskedCache.{empty_cache};
ghost use Rattle.dns_flood.specs.CachedRules.{cache_text};
ghost use Rattle.dns_run.specs.Asking.{asked_behind, asked_line, asked_text};
ghost use Rattle.dns_flood.specs.Writes.{Pours, Wrote, WroteFaults};

use dns_flood::{Ask, CachedRules, Rules, Script, WriteError, pour};
use dns_io::{Sink, write_all};
use dns_name::OutOfMemory;
use dns_trace::TextWriter;
use std::alloc::Global;

/// Asks a question, and gives its line.
fn ask_line(alloc: Global, rules: &mut CachedRules, ask: Ask) -> Result<String, OutOfMemory>
    ensures line { IfOk result (λ t. string_bytes t ≡ asked_line rules.old ask) }
    ensures cached { OnOk result (rules.new ≡ asked_behind rules.old ask) }
{
    rules.ask(alloc, ask)
}

/// Keeps the line of a question's answer back, after others.
fn keep_answer(
    alloc: Global,
    text: &mut TextWriter,
    rules: &mut CachedRules,
    ask: Ask,
) -> Result<(), OutOfMemory>
    ensures line { OnOk result (text.new ≡ text.old ++ asked_line rules.old ask) }
    ensures cached { OnOk result (rules.new ≡ asked_behind rules.old ask) }
{
    let line = ask_line(alloc, rules, ask)?;
    text.append(line.as_bytes())
}

/// Appends the line of a question's answer to those kept back, and writes them all if they are many.
#[tactic(auto, using(dns_flood::proofs::Batches::nothing_written, dns_flood::proofs::Batches::poured_line))]
fn write_answer<W: Sink>(
    alloc: Global,
    sink: &mut W,
    text: &mut TextWriter,
    rules: &mut CachedRules,
    ask: Ask,
) -> Result<(), WriteError>
    ensures observed { Observed (W.tells sink.new) (W.tells sink.old)
        (Pours result (text.old ++ asked_line rules.old ask) text.new (W.taken sink.old) (W.taken sink.new)) }
    ensures later { W.faults sink.old ≤ W.faults sink.new }
    ensures cause { WroteFaults result (W.faults sink.old) (W.faults sink.new) }
    ensures cached { OnOk result (rules.new ≡ asked_behind rules.old ask) }
{
    keep_answer(alloc, text, rules, ask)?;
    pour(sink, text)?;
    Ok(())
}

/// Asks all questions, and keeps back or writes the lines of their answers.
#[tactic(auto, using(crate::proofs::Asked::none_asked, crate::proofs::Asked::one_asked, crate::proofs::Asked::cut_asked, crate::proofs::Asked::all_asked))]
fn write_each<W: Sink>(
    alloc: Global,
    sink: &mut W,
    text: &mut TextWriter,
    rules: &mut CachedRules,
    asks: Vec<Ask>,
) -> Result<(), WriteError>
    requires { text.old ≡ [] }
    ensures observed { Observed (W.tells sink.new) (W.tells sink.old)
        (Pours result (asked_text rules.old asks.items) text.new (W.taken sink.old) (W.taken sink.new)) }
    ensures later { W.faults sink.old ≤ W.faults sink.new }
    ensures cause { WroteFaults result (W.faults sink.old) (W.faults sink.new) }
{
    'asks: for ask in asks {
        write_answer(alloc, sink, text, rules, ask)?;
    }
    Ok(())
}

/// Asks all questions and writes the lines of their answers. After an error a prefix of the text was written.
#[tactic(auto, using(dns_flood::proofs::Batches::wrote_all, dns_flood::proofs::Batches::cut_at_end))]
fn write_asks<W: Sink>(
    alloc: Global,
    sink: &mut W,
    rules: &mut CachedRules,
    asks: Vec<Ask>,
) -> Result<(), WriteError>
    ensures observed { Observed (W.tells sink.new) (W.tells sink.old)
        (Wrote result (asked_text rules.old asks.items) (W.taken sink.old) (W.taken sink.new)) }
    ensures cause { WroteFaults result (W.faults sink.old) (W.faults sink.new) }
{
    let mut text = TextWriter::new(alloc);
    write_each(alloc, sink, &mut text, rules, asks)?;
    write_all(sink, text.as_slice())?;
    Ok(())
}

/// Writes what an empty cache of that many replies in front of rules answers to questions.
#[tactic(auto, using(dns_flood::proofs::Batches::nothing_written))]
fn write_cached<W: Sink>(
    alloc: Global,
    sink: &mut W,
    rules: Rules,
    asks: Vec<Ask>,
    capacity: u32,
) -> Result<(), WriteError>
    ensures observed { Observed (W.tells sink.new) (W.tells sink.old)
        (Wrote result (asked_text (record { rules = rules; cached = empty_cache capacity }) asks.items) (W.taken sink.old)
        (W.taken sink.new)) }
    ensures cause { WroteFaults result (W.faults sink.old) (W.faults sink.new) }
{
    match CachedRules::new(alloc, rules, capacity) {
        Ok(mut rules) => write_asks(alloc, sink, &mut rules, asks),
        Err(_) => Err(WriteError::OutOfMemory),
    }
}

/// Writes what an empty cache of that many replies in front of a script's rules answers to its questions.
pub(crate) fn write_answers<W: Sink>(
    alloc: Global,
    sink: &mut W,
    script: Script<Ask>,
    capacity: u32,
) -> Result<(), WriteError>
    ensures observed { Observed (W.tells sink.new) (W.tells sink.old)
        (Wrote result (cache_text capacity script) (W.taken sink.old) (W.taken sink.new)) }
    ensures cause { WroteFaults result (W.faults sink.old) (W.faults sink.new) }
{
    let (_settings, service, _notify_rules, asks) = script.into_parts();
    write_cached(alloc, sink, service.into_rules(alloc), asks, capacity)
}
