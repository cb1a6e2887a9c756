//! The script that a source holds.

ghost use Rattle.std.specs.Prelude.{◌≡◌, ◌≢◌, IfErr, IfOk, IsOk};
ghost use Rattle.dns_io.specs.Causes.{Observed};
ghost use Rattle.dns_flood.specs.Script.{script};
ghost use Rattle.dns_run.specs.Status.{status_of, SourceFaults, SinkFaults};
ghost use Rattle.dns_run.specs.Runs.{refusal_text, Says, ReadsSource, WritesText};

use crate::status::Status;
use dns_flood::{Script, ScriptError, ScriptLine, read_script, write_refusal};
use dns_io::{ReadError, Sink, Source, read_all};
use std::alloc::Global;

/// The script that a text is; if it is none, the line of its refusal is written.
#[tactic(auto, using(dns_flood::proofs::Batches::nothing_written))]
fn script_of<E: ScriptLine, W: Sink>(
    alloc: Global,
    text: &[u8],
    sink: &mut W,
) -> Result<Script<E>, Status>
    ensures said { Says result (script E.has E.reading text.now) }
    ensures observed { Observed (W.tells sink.new) (W.tells sink.old)
        (WritesText (status_of result) (refusal_text (script E.has E.reading text.now)) (W.taken sink.old) (W.taken sink.new)) }
    ensures faults { SinkFaults (status_of result) (W.faults sink.old) (W.faults sink.new) }
    ensures unwritten { IsOk result → sink.new ≡ sink.old }
{
    match read_script::<E>(alloc, text) {
        Ok(script) => Ok(script),
        Err(ScriptError::OutOfMemory) => Err(Status::OutOfMemory),
        Err(ScriptError::Refused { line, reason }) => {
            Err(Status::Refused.after(write_refusal(alloc, sink, line, reason)))
        }
    }
}

/// Reads the script that a source holds. Nothing is written but the line of a refusal.
#[tactic(auto, using(dns_flood::proofs::Batches::nothing_written, crate::proofs::Running::whole_read, crate::proofs::Running::whole_said, crate::proofs::Running::whole_written))]
pub fn read_whole<E: ScriptLine, R: Source, W: Sink>(
    alloc: Global,
    source: &mut R,
    sink: &mut W,
) -> Result<Script<E>, Status>
    ensures read { Observed (R.tells source.new) (R.tells source.old)
        (ReadsSource (script E.has E.reading) (status_of result) (R.left source.old) (R.left source.new)) }
    ensures said { IfOk result (λ s. Observed (R.tells source.new) (R.tells source.old)
        (script E.has E.reading (R.left source.old) ≡ Ok s)) }
    ensures written { Observed (R.tells source.new × W.tells sink.new) (R.tells source.old × W.tells sink.old)
        (WritesText (status_of result) (refusal_text (script E.has E.reading (R.left source.old))) (W.taken sink.old) (W.taken sink.new)) }
    ensures source_faults { SourceFaults (status_of result) (R.faults source.old) (R.faults source.new) }
    ensures sink_faults { SinkFaults (status_of result) (W.faults sink.old) (W.faults sink.new) }
    ensures unwritten { IsOk result → sink.new ≡ sink.old }
    ensures too_long { result ≡ Err Status.TooLong → sink.new ≡ sink.old }
    ensures unread { result ≡ Err Status.ReadFault → sink.new ≡ sink.old }
    ensures other { IfErr result (λ s. (s ≢ Status.Done) × (s ≢ Status.Usage) × (s ≢ Status.HostFault)) }
{
    match read_all(alloc, source) {
        Ok(text) => script_of::<E, W>(alloc, &text, sink),
        Err(ReadError::OutOfMemory) => Err(Status::OutOfMemory),
        Err(ReadError::Fault) => Err(Status::ReadFault),
        Err(ReadError::TooLong) => Err(Status::TooLong),
    }
}
