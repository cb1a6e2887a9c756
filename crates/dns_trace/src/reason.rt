//! Why a line is refused.

ghost use Rattle.std.specs.Prelude.{◌≡◌};

use dns_name::OutOfMemory;
use std::alloc::{AllocError, AllocFailed};

/// Why a line of a script is refused: the first of these that fits.
#[derive(Clone, Copy, Debug)]
pub enum Reason {
    /// An octet is no character from the space to the tilde.
    Text,
    /// The first word is that of no line.
    Word,
    /// What stands before the first event stands after one.
    Order,
    /// A service line is of another kind than the first service line.
    Mix,
    /// A line that may stand once stands again.
    Repeat,
    /// A line has too few words, or too many.
    Count,
    /// A word spells no value.
    Value,
    /// No line is bad, and the records of the zone that this line names make no zone.
    Zone,
}

/// Why a line gave nothing.
#[derive(Clone, Copy)]
pub enum LineError {
    OutOfMemory,
    Refused(Reason),
}

impl From<Reason> for LineError {
    ghost use Rattle.dns_trace.specs.declared.reason.LineError.TheVariants.{Refused};

    ghost from_gives = { λ r e. e ≡ Refused r };

    fn from(reason: Reason) -> Self {
        LineError::Refused(reason)
    }
}

impl From<OutOfMemory> for LineError {
    ghost use Rattle.dns_trace.specs.declared.reason.LineError.TheVariants.{OutOfMemory as NoMemory};

    ghost from_gives = { λ _ e. e ≡ NoMemory };

    fn from(_error: OutOfMemory) -> Self {
        LineError::OutOfMemory
    }
}

impl From<AllocError> for LineError {
    ghost use Rattle.dns_trace.specs.declared.reason.LineError.TheVariants.{OutOfMemory as NoMemory};

    ghost from_gives = { λ _ e. e ≡ NoMemory };

    fn from(_error: AllocError) -> Self {
        LineError::OutOfMemory
    }
}

impl<T: Drop> From<AllocFailed<T>> for LineError {
    ghost use Rattle.dns_trace.specs.declared.reason.LineError.TheVariants.{OutOfMemory as NoMemory};

    ghost from_gives = { λ _ e. e ≡ NoMemory };

    fn from(_error: AllocFailed<T>) -> Self {
        LineError::OutOfMemory
    }
}
