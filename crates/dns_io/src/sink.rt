//! Sinks of octets.

ghost use Rattle.std.specs.Prelude.{◌≡◌, ℕ, List, ◌≤◌};
ghost use Rattle.dns_io.specs.Causes.{Observed};
ghost use Rattle.dns_io.specs.Moves.{WriteMoves, WriteBound, WriteCause, WroteAll, WroteAllCause};

/// The answer of one write.
#[derive(Clone, Copy, Debug, PartialEq, Eq)]
pub enum SinkWrite {
    /// That many octets of the piece's front were taken.
    Took(usize),
    /// The write failed and took no octet. A later one may succeed.
    Failed,
}

/// What octets are written to: a file, a terminal, a vector.
pub trait Sink {
    /// That what was taken is known. It is of a vector in memory, and is not of files and terminals.
    ghost tells: { Self → Type 0 };

    /// The octets taken so far, if the sink tells.
    ghost taken: { Self → List ℕ };

    /// The number of failed writes so far, up to 2^64 - 1.
    ghost faults: { Self → ℕ };

    /// Writes some octets of the front of `piece`. Each call that answers `Took` takes at least one octet of a piece
    /// that is not empty.
    fn write(&mut self, piece: &[u8]) -> SinkWrite
        ensures moves { Observed (tells self.new) (tells self.old) (WriteMoves result piece.now (taken self.old) (taken self.new)) }
        ensures bound { WriteBound result piece.now }
        ensures later { faults self.old ≤ faults self.new }
        ensures cause { WriteCause result (faults self.old) (faults self.new) };
}

/// A write failed, so that the rest of a piece wasn't written.
#[derive(Clone, Copy, Debug, PartialEq, Eq)]
pub struct WriteFault;

/// Writes a whole piece. After a fault a front of it was taken.
#[tactic(auto, using(crate::proofs::Pieces::wrote_more, crate::proofs::Pieces::wrote_cut))]
pub fn write_all<W: Sink>(sink: &mut W, piece: &[u8]) -> Result<(), WriteFault>
    ensures observed { Observed (W.tells sink.new) (W.tells sink.old) (WroteAll result piece.now (W.taken sink.old) (W.taken sink.new)) }
    ensures later { W.faults sink.old ≤ W.faults sink.new }
    ensures cause { WroteAllCause result (W.faults sink.old) (W.faults sink.new) }
{
    let mut done = 0;
    while done < piece.len() {
        match sink.write(&piece[done..]) {
            SinkWrite::Took(count) => done += count,
            SinkWrite::Failed => return Err(WriteFault),
        }
    }
    Ok(())
}
