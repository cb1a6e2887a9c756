//! Sources of octets.

ghost use Rattle.std.specs.Prelude.{◌≡◌, ℕ, List, ◌≤◌, length, IfOk};
ghost use Rattle.dns_io.specs.Causes.{Observed};
ghost use Rattle.dns_io.specs.Moves.{ReadMoves, ReadBound, ReadCause, ReadTo, ReadAllCause};

use std::alloc::{AllocError, Global};

/// The answer of one read.
#[derive(Clone, Copy, Debug, PartialEq, Eq)]
pub enum SourceRead {
    /// That many octets stand at the buffer's front.
    Got(usize),
    /// No octet is left.
    End,
    /// The read failed and moved no octet. A later one may succeed.
    Failed,
}

/// What octets are read from: a file, a terminal, a vector.
pub trait Source {
    /// That what is left is known. It is of octets in memory, and is not of files and terminals.
    ghost tells: { Self → Type 0 };

    /// The octets left, if the source tells.
    ghost left: { Self → List ℕ };

    /// The number of failed reads so far, up to 2^64 - 1.
    ghost faults: { Self → ℕ };

    /// Reads some octets into the front of `buf`. Each call that answers `Got` gives at least one octet to a buffer
    /// that is not empty.
    fn read(&mut self, buf: &mut [u8]) -> SourceRead
        ensures moves { Observed (tells self.new) (tells self.old) (ReadMoves result buf.new (left self.old) (left self.new)) }
        ensures bound { ReadBound result buf.new }
        ensures later { faults self.old ≤ faults self.new }
        ensures cause { ReadCause result (faults self.old) (faults self.new) };
}

/// Why a source was not read whole.
#[derive(Clone, Copy, Debug, PartialEq, Eq)]
pub enum ReadError {
    OutOfMemory,
    /// A read failed.
    Fault,
    /// The source holds more than `LIMIT` octets.
    TooLong,
}

impl From<AllocError> for ReadError {
    ghost use Rattle.dns_io.specs.declared.source.ReadError.TheVariants.{OutOfMemory};

    ghost from_gives = { λ _ e. e ≡ OutOfMemory };

    fn from(_e: AllocError) -> Self {
        ReadError::OutOfMemory
    }
}

/// The most octets of a source that is read whole.
pub const LIMIT: usize = 67_108_864;

/// The most octets of one read of a source that is read whole.
const PIECE: usize = 65_536;

/// Reads a source to its end, up to 65,536 octets by one read. At most `LIMIT + 1` octets are taken from it.
pub fn read_all<S: Source>(alloc: Global, source: &mut S) -> Result<Vec<u8>, ReadError>
    ensures observed { Observed (S.tells source.new) (S.tells source.old)
        (ReadTo (λ v. v.items) result (S.left source.old) (S.left source.new)) }
    ensures few { IfOk result (λ v. length v.items ≤ LIMIT) }
    ensures later { S.faults source.old ≤ S.faults source.new }
    ensures cause { ReadAllCause result (S.faults source.old) (S.faults source.new) }
{
    let mut out: Vec<u8> = Vec::new(alloc);
    let mut buf = [0u8; PIECE];
    'pieces: while out.len() <= LIMIT {
        let room = (LIMIT + 1 - out.len()).min(PIECE);
        match source.read(&mut buf[..room]) {
            SourceRead::Got(count) => match out.extend_from_slice(&buf[..count]) {
                Ok(()) => {}
                Err(_) => return Err(ReadError::OutOfMemory),
            },
            SourceRead::End => return Ok(out),
            SourceRead::Failed => return Err(ReadError::Fault),
        }
    }
    Err(ReadError::TooLong)
}
