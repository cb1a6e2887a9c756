//! Links: connections that octets go through both ways.

ghost use Rattle.std.specs.Prelude.{◌≡◌, ℕ, ◌≤◌};
ghost use Rattle.dns_io.specs.Causes.{Observed};
ghost use Rattle.dns_io.specs.Traffic.{Traffic, LinkReadMoves, LinkReadBound, LinkReadCause, LinkWriteMoves, LinkWriteBound, LinkWriteCause};

use std::sync::Wait;

/// The answer of one read.
#[derive(Clone, Copy, Debug, PartialEq, Eq)]
pub enum LinkRead {
    /// That many octets stand at the buffer's front.
    Got(usize),
    /// No octet is there yet.
    Again,
    /// The peer sends no more.
    End,
    /// The read failed and moved no octet.
    Failed,
}

/// The answer of one write.
#[derive(Clone, Copy, Debug, PartialEq, Eq)]
pub enum LinkWrite {
    /// That many octets of the piece's front were taken.
    Took(usize),
    /// There is no room yet.
    Again,
    /// The write failed and took no octet.
    Failed,
}

/// A connection to one peer. No call but `wait` waits.
pub trait Link {
    /// That what went through is known. It is of links in memory, and is not of sockets.
    ghost tells: { Self → Type 0 };

    /// What went through so far, if the link tells.
    ghost traffic: { Self → Traffic };

    /// The number of failed reads and writes so far, up to 2^64 - 1.
    ghost faults: { Self → ℕ };

    /// Reads some octets into the front of `buf`. Each call that answers `Got` gives at least one octet to a buffer
    /// that is not empty.
    fn read(&mut self, buf: &mut [u8]) -> LinkRead
        ensures moves { Observed (tells self.new) (tells self.old) (LinkReadMoves result buf.new (traffic self.old) (traffic self.new)) }
        ensures bound { LinkReadBound result buf.new }
        ensures later { faults self.old ≤ faults self.new }
        ensures cause { LinkReadCause result (faults self.old) (faults self.new) };

    /// Writes some octets of the front of `piece`. Each call that answers `Took` takes at least one octet of a piece
    /// that is not empty.
    fn write(&mut self, piece: &[u8]) -> LinkWrite
        ensures moves { Observed (tells self.new) (tells self.old) (LinkWriteMoves result piece.now (traffic self.old) (traffic self.new)) }
        ensures bound { LinkWriteBound result piece.now }
        ensures later { faults self.old ≤ faults self.new }
        ensures cause { LinkWriteCause result (faults self.old) (faults self.new) };

    /// Waits until octets came, or there is room again, since an `Again`, but no longer than that many milliseconds. It
    /// may return sooner.
    fn wait<R: Wait>(&mut self, rt: &R, millis: u64)
        ensures moves { Observed (tells self.new) (tells self.old) (traffic self.new ≡ traffic self.old) }
        ensures same { faults self.new ≡ faults self.old };

    /// Ends the connection both ways.
    fn close(&mut self)
        ensures moves { Observed (tells self.new) (tells self.old) (traffic self.new ≡ traffic self.old) }
        ensures same { faults self.new ≡ faults self.old };
}
