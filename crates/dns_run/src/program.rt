//! The program's top call.

ghost use Rattle.std.specs.Prelude.{◌≡◌, ◌≢◌, ◌↔◌, map, string_bytes, IfSome, None};
ghost use Rattle.dns_io.specs.Causes.{Observed, Rose};
ghost use Rattle.dns_flood.specs.FloodText.{flood_text};
ghost use Rattle.dns_run.specs.Command.{command_of};
ghost use Rattle.dns_run.specs.Status.{SourceFaults, SinkFaults};
ghost use Rattle.dns_flood.specs.Script.{script};
ghost use Rattle.dns_run.specs.Runs.{text_or_refusal, ReadsSource, WritesText, EndsFlood, RunReads, RunWrites, Completes};

use crate::answering::{AnswerScript, Clients, Questions, Recorded};
use crate::command::{Command, read_command};
use crate::status::Status;
use crate::whole_script::read_whole;
use dns_flood::{Ask, ScriptLine, write_flood};
use dns_io::{Sink, Source};
use dns_service::{Event, Step};
use std::alloc::Global;

/// Reads the script that a source holds, and writes what is to be written for it.
#[tactic(auto, using(crate::proofs::Running::refusal_written, crate::proofs::Running::answers_read, crate::proofs::Running::answers_written))]
fn run_script<E: ScriptLine, A: AnswerScript<E>, R: Source, W: Sink>(
    alloc: Global,
    answering: &A,
    source: &mut R,
    sink: &mut W,
) -> Status
    ensures read { Observed (R.tells source.new) (R.tells source.old)
        (ReadsSource (script E.has E.reading) result (R.left source.old) (R.left source.new)) }
    ensures written { Observed (R.tells source.new × W.tells sink.new) (R.tells source.old × W.tells sink.old)
        (WritesText result (text_or_refusal (A.text answering.now) (script E.has E.reading (R.left source.old))) (W.taken sink.old)
        (W.taken sink.new)) }
    ensures source_faults { SourceFaults result (R.faults source.old) (R.faults source.new) }
    ensures sink_faults { SinkFaults result (W.faults sink.old) (W.faults sink.new) }
    ensures too_long { result ≡ Status.TooLong → sink.new ≡ sink.old }
    ensures unread { result ≡ Status.ReadFault → sink.new ≡ sink.old }
    ensures other { (result ≢ Status.Usage) × (result ≢ Status.HostFault) }
{
    match read_whole::<E, R, W>(alloc, source, sink) {
        Ok(script) => Status::Done.after(answering.write(alloc, script, sink)),
        Err(status) => status,
    }
}

/// Serves a flood, and writes how much was sent.
#[tactic(auto, using(dns_flood::proofs::Batches::nothing_written))]
fn answer_flood<W: Sink>(alloc: Global, sink: &mut W, seed: u64, count: u32) -> Status
    ensures written { Observed (W.tells sink.new) (W.tells sink.old)
        (WritesText result (flood_text seed count) (W.taken sink.old) (W.taken sink.new)) }
    ensures faults { SinkFaults result (W.faults sink.old) (W.faults sink.new) }
    ensures ends { EndsFlood result }
{
    Status::Done.after(write_flood(alloc, sink, seed, count))
}

/// Does what the words ask for. Nothing is written but the lines of outputs, of a script and of a cache's answers, a refusal's line
/// and that of a flood.
#[tactic(auto, using(crate::proofs::Running::replay_completes, crate::proofs::Running::flood_completes))]
pub fn run<R: Source, W: Sink>(
    alloc: Global,
    words: &[String],
    source: &mut R,
    sink: &mut W,
) -> Status
    // The words are none of the forms, and then nothing is read or written.
    ensures usage { result ≡ Status.Usage ↔ command_of (map string_bytes words.now) ≡ None }
    ensures untouched { result ≡ Status.Usage → (source.new ≡ source.old) × (sink.new ≡ sink.old) }
    ensures no_server { result ≢ Status.HostFault }
    // The counts of faults rise with the two faults, and with no other status.
    ensures source_faults { SourceFaults result (R.faults source.old) (R.faults source.new) }
    ensures sink_faults { SinkFaults result (W.faults sink.old) (W.faults sink.new) }
    // If the source is too long or can't be read, nothing is written.
    ensures too_long { result ≡ Status.TooLong → sink.new ≡ sink.old }
    ensures unread { result ≡ Status.ReadFault → sink.new ≡ sink.old }
    // What was read, by the status: for a script if the source tells, and for a flood nothing.
    ensures read { IfSome (command_of (map string_bytes words.now)) (λ k. RunReads R.tells R.left k result source.old source.new) }
    // What was written for it, if the sink tells too.
    ensures written { IfSome (command_of (map string_bytes words.now)) (λ k. RunWrites R.tells R.left k result source.old source.new
        (W.tells sink.new) (W.tells sink.old) (W.taken sink.old) (W.taken sink.new)) }
    // Without a fault the words and the script decide.
    ensures complete { (Rose (R.faults source.old) (R.faults source.new) → ⊥) → (Rose (W.faults sink.old) (W.faults sink.new) → ⊥)
        → IfSome (command_of (map string_bytes words.now)) (λ k. Completes R.tells R.left k result source.old source.new) }
{
    match read_command(words) {
        None => Status::Usage,
        Some(Command::Replay) => run_script::<Event, Clients, R, W>(alloc, &Clients, source, sink),
        Some(Command::Steps) => run_script::<Step, Clients, R, W>(alloc, &Clients, source, sink),
        Some(Command::Trace) => run_script::<Event, Recorded, R, W>(alloc, &Recorded, source, sink),
        Some(Command::Cache { capacity }) => {
            run_script::<Ask, Questions, R, W>(alloc, &Questions { capacity }, source, sink)
        }
        Some(Command::Flood { seed, count }) => answer_flood(alloc, sink, seed, count),
    }
}
