//! Sources and sinks over any reader and writer of std, as standard input and output. They tell no content.

ghost use Rattle.std.specs.Prelude.{◌≡◌, ◌≤◌, []};
ghost use Rattle.dns_io.specs.Causes.{Observed};
ghost use Rattle.dns_io.specs.Moves.{ReadMoves, ReadBound, ReadCause, WriteMoves, WriteBound, WriteCause};
ghost use Rattle.dns_outside.specs.Standard.{ReadsOf, WritesTo};

use dns_io::{Sink, SinkWrite, Source, SourceRead};
use std::io::{Read, Write};

/// A source over a reader. Each error of the reader is a failed read, also `ErrorKind::Interrupted`.
#[derive(Drop)]
pub struct Reading<R: Read + Drop> {
    inner: R,
    faults: u64,
}

impl<R: Read + Drop> Reading<R> {
    /// A source over this reader, which has not failed yet.
    pub fn new(inner: R) -> Reading<R>
        ensures { result ≡ record { inner = inner; faults = 0 } }
    {
        Reading { inner, faults: 0 }
    }
}

impl<R: Read + Drop> Source for Reading<R> {
    ghost tells = { λ _. ⊥ };

    ghost left = { λ _. [] };

    ghost faults = { λ s. s.faults };

    fn read(&mut self, buf: &mut [u8]) -> SourceRead
        ensures moves { Observed ⊥ ⊥ (ReadMoves result buf.new [] []) }
        ensures bound { ReadBound result buf.new }
        ensures later { self.old.faults ≤ self.new.faults }
        ensures cause { ReadCause result self.old.faults self.new.faults }
        ensures std { ReadsOf result buf.new (R.remaining self.old.inner) (R.remaining self.new.inner) }
    {
        match self.inner.read(buf) {
            Ok(0) if !buf.is_empty() => SourceRead::End,
            Ok(count) => SourceRead::Got(count),
            Err(_) => {
                self.faults = self.faults.saturating_add(1);
                SourceRead::Failed
            }
        }
    }
}

/// A sink over a writer. Each error of the writer is a failed write, and so is a write that takes nothing of a piece
/// that is not empty.
#[derive(Drop)]
pub struct Writing<W: Write + Drop> {
    inner: W,
    faults: u64,
}

impl<W: Write + Drop> Writing<W> {
    /// A sink over this writer, which has not failed yet.
    pub fn new(inner: W) -> Writing<W>
        ensures { result ≡ record { inner = inner; faults = 0 } }
    {
        Writing { inner, faults: 0 }
    }

    /// Gives the writer back, with whatever it holds.
    pub fn into_inner(self) -> W
        ensures { result ≡ self.inner }
    {
        self.inner
    }
}

impl<W: Write + Drop> Sink for Writing<W> {
    ghost tells = { λ _. ⊥ };

    ghost taken = { λ _. [] };

    ghost faults = { λ s. s.faults };

    fn write(&mut self, piece: &[u8]) -> SinkWrite
        ensures moves { Observed ⊥ ⊥ (WriteMoves result piece.now [] []) }
        ensures bound { WriteBound result piece.now }
        ensures later { self.old.faults ≤ self.new.faults }
        ensures cause { WriteCause result self.old.faults self.new.faults }
        ensures std { WritesTo result piece.now (W.contents self.old.inner) (W.contents self.new.inner) }
    {
        match self.inner.write(piece) {
            Ok(0) if !piece.is_empty() => {
                self.faults = self.faults.saturating_add(1);
                SinkWrite::Failed
            }
            Ok(count) => SinkWrite::Took(count),
            Err(_) => {
                self.faults = self.faults.saturating_add(1);
                SinkWrite::Failed
            }
        }
    }
}
