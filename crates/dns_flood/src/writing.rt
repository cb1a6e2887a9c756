//! Lines are written to a sink, many at a time.

ghost use Rattle.std.specs.Prelude.{◌≡◌, ◌≤◌, ◌++◌, [], OnErr, OnOk};
ghost use Rattle.dns_io.specs.Causes.{Observed};
ghost use Rattle.dns_io.specs.Moves.{WroteAllCause};
ghost use Rattle.dns_script.specs.Line.{line_of, lines_of, refused_line};
ghost use Rattle.dns_flood.specs.Writes.{Wrote, WroteFaults, Pours};

use dns_io::{Sink, WriteFault, write_all};
use dns_name::OutOfMemory;
use dns_script::{push_line, refusal};
use dns_service::Output;
use dns_trace::{Reason, TextWriter};
use std::alloc::Global;

/// Why a text was not written whole.
#[derive(Clone, Copy)]
pub enum WriteError {
    OutOfMemory,
    /// A write failed.
    Fault,
}

impl From<OutOfMemory> for WriteError {
    ghost use Rattle.dns_flood.specs.declared.writing.WriteError.TheVariants.{OutOfMemory as NoMemory};

    ghost from_gives = { λ _ e. e ≡ NoMemory };

    fn from(_error: OutOfMemory) -> Self {
        WriteError::OutOfMemory
    }
}

impl From<WriteFault> for WriteError {
    ghost use Rattle.dns_flood.specs.declared.writing.WriteError.TheVariants.{Fault};

    ghost from_gives = { λ _ e. e ≡ Fault };

    fn from(_error: WriteFault) -> Self {
        WriteError::Fault
    }
}

/// From that many octets on, lines that were kept back are written.
const BATCH: usize = 65_536;

/// Writes the lines that are kept back, once they are many. After an error a front of them was written.
#[tactic(auto, using(crate::proofs::Batches::kept, crate::proofs::Batches::poured))]
pub fn pour<W: Sink>(sink: &mut W, text: &mut TextWriter) -> Result<(), WriteFault>
    ensures observed { Observed (W.tells sink.new) (W.tells sink.old)
        (Pours result text.old text.new (W.taken sink.old) (W.taken sink.new)) }
    ensures later { W.faults sink.old ≤ W.faults sink.new }
    ensures cause { WroteAllCause result (W.faults sink.old) (W.faults sink.new) }
    ensures err { OnErr result (text.new ≡ text.old) }
{
    if text.as_slice().len() < BATCH {
        return Ok(());
    }
    match write_all(sink, text.as_slice()) {
        Ok(()) => {
            text.clear();
            Ok(())
        }
        Err(_) => Err(WriteFault),
    }
}

/// Keeps the line of an output back, and writes the lines that are kept back, once they are many.
#[tactic(auto, using(crate::proofs::Batches::nothing_written, crate::proofs::Batches::poured_line))]
fn write_line<W: Sink>(
    sink: &mut W,
    text: &mut TextWriter,
    output: &Output,
) -> Result<(), WriteError>
    ensures observed { Observed (W.tells sink.new) (W.tells sink.old)
        (Pours result (text.old ++ line_of output.now) text.new (W.taken sink.old) (W.taken sink.new)) }
    ensures later { W.faults sink.old ≤ W.faults sink.new }
    ensures cause { WroteFaults result (W.faults sink.old) (W.faults sink.new) }
{
    push_line(text, output)?;
    pour(sink, text)?;
    Ok(())
}

/// Keeps back or writes the lines of outputs, in order.
#[tactic(auto, using(crate::proofs::Batches::none_kept, crate::proofs::Batches::one_more, crate::proofs::Batches::cut_within, crate::proofs::Batches::all_kept))]
fn write_lines<W: Sink>(
    sink: &mut W,
    text: &mut TextWriter,
    outputs: &[Output],
) -> Result<(), WriteError>
    requires { text.old ≡ [] }
    ensures observed { Observed (W.tells sink.new) (W.tells sink.old)
        (Pours result (lines_of outputs.now) text.new (W.taken sink.old) (W.taken sink.new)) }
    ensures later { W.faults sink.old ≤ W.faults sink.new }
    ensures cause { WroteFaults result (W.faults sink.old) (W.faults sink.new) }
{
    for output in outputs {
        write_line(sink, text, output)?;
    }
    Ok(())
}

/// Writes the lines of outputs, in order. After an error a front of them was written.
#[tactic(auto, using(crate::proofs::Batches::wrote_all, crate::proofs::Batches::cut_at_end))]
pub fn write_outputs<W: Sink>(
    alloc: Global,
    sink: &mut W,
    outputs: &[Output],
) -> Result<(), WriteError>
    ensures observed { Observed (W.tells sink.new) (W.tells sink.old)
        (Wrote result (lines_of outputs.now) (W.taken sink.old) (W.taken sink.new)) }
    ensures later { W.faults sink.old ≤ W.faults sink.new }
    ensures cause { WroteFaults result (W.faults sink.old) (W.faults sink.new) }
{
    let mut text = TextWriter::new(alloc);
    write_lines(sink, &mut text, outputs)?;
    write_all(sink, text.as_slice())?;
    Ok(())
}

/// Writes the line of a refusal. After an error a front of it was written.
pub fn write_refusal<W: Sink>(
    alloc: Global,
    sink: &mut W,
    number: u64,
    reason: Reason,
) -> Result<(), WriteError>
    ensures observed { Observed (W.tells sink.new) (W.tells sink.old)
        (Wrote result (refused_line number reason) (W.taken sink.old) (W.taken sink.new)) }
    ensures later { W.faults sink.old ≤ W.faults sink.new }
    ensures cause { WroteFaults result (W.faults sink.old) (W.faults sink.new) }
{
    let text = refusal(alloc, number, reason)?;
    write_all(sink, text.as_bytes())?;
    Ok(())
}
