//! The refusals of builders.

ghost use Rattle.std.specs.Prelude.{◌≡◌, Some};
ghost use Rattle.dns_base.specs.PushErrors.{push_error_text};

use dns_name::{BuildDataError, OutOfMemory};
use std::alloc::AllocError;
use std::fmt;

/// A refused push, which left the message as it was.
#[derive(Clone, Copy, Debug, PartialEq, Eq)]
pub enum PushError {
    /// The message would pass its limit.
    ShortBuf,
    OutOfMemory,
}

impl fmt::Display for PushError {
    ghost output = { λ e. Some (push_error_text e) };

    fn fmt<W: fmt::Write>(&self, f: &mut fmt::Formatter<W>) -> fmt::Result {
        match self {
            PushError::ShortBuf => f.write_str("message size exceeded"),
            PushError::OutOfMemory => f.write_str("out of memory"),
        }
    }
}

impl std::error::Error for PushError {}

impl From<OutOfMemory> for PushError {
    ghost use Rattle.dns_base.specs.declared.error.PushError.TheVariants.{OutOfMemory as NoMemory};

    ghost from_gives = { λ _ e. e ≡ NoMemory };

    fn from(_error: OutOfMemory) -> Self {
        PushError::OutOfMemory
    }
}

impl From<AllocError> for PushError {
    ghost use Rattle.dns_base.specs.declared.error.PushError.TheVariants.{OutOfMemory as NoMemory};

    ghost from_gives = { λ _ e. e ≡ NoMemory };

    fn from(_error: AllocError) -> Self {
        PushError::OutOfMemory
    }
}

impl From<PushError> for BuildDataError {
    ghost use Rattle.dns_base.specs.PushErrors.{build_error};

    ghost from_gives = { λ push e. e ≡ build_error push };

    fn from(error: PushError) -> Self {
        match error {
            PushError::ShortBuf => BuildDataError::ShortBuf,
            PushError::OutOfMemory => BuildDataError::OutOfMemory,
        }
    }
}
