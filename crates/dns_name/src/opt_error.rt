//! Why an option can't be made or added.

ghost use Rattle.std.specs.Prelude.{◌≡◌, ◌<◌, ◌≤◌, Some, Ok, Err, codes, MatchResult};
ghost use Rattle.dns_name.specs.OptErrors.{IsUnlimited, build_text};
ghost use Rattle.dns_name.specs.declared.opt_error.BuildDataError.TheVariants.{LongOptData as TooLong, OutOfMemory as NoMemory};

use crate::error::{FormReason, OutOfMemory, ParseError};
use std::alloc::{AllocError, AllocFailed};
use std::fmt;

/// Option data of more octets than its length's 16 bits can say (RFC 6891, section 6.1.2).
#[derive(Clone, Copy, Debug, PartialEq, Eq)]
pub struct LongOptData;

impl LongOptData {
    /// The text of the error.
    pub fn as_str(self) -> &'static str
        ensures { result.now ≡ codes "option data too long" }
    {
        "option data too long"
    }

    /// Whether data of that many octets can be an option's.
    pub fn check_len(len: usize) -> Result<(), LongOptData>
        ensures { MatchResult result (λ _. len ≤ 65535) (λ _. 65535 < len) }
    {
        if len > 65535 {
            return Err(LongOptData);
        }
        Ok(())
    }
}

impl fmt::Display for LongOptData {
    ghost output = { λ _. Some (codes "option data too long") };

    fn fmt<W: fmt::Write>(&self, f: &mut fmt::Formatter<W>) -> fmt::Result {
        f.write_str("option data too long")
    }
}

impl std::error::Error for LongOptData {}

impl From<LongOptData> for ParseError {
    ghost use Rattle.dns_name.specs.declared.error.ParseError.TheVariants.{Form};
    ghost use Rattle.dns_name.specs.declared.error.FormReason.TheVariants.{LongList};

    ghost from_gives = { λ _ e. e ≡ Form LongList };

    fn from(_error: LongOptData) -> Self {
        ParseError::Form(FormReason::LongList)
    }
}

/// Why an option wasn't added.
#[derive(Clone, Copy, Debug, PartialEq, Eq)]
pub enum BuildDataError {
    /// The option or the list would have more than 65,535 octets.
    LongOptData,
    /// Another number of octets was written than had been stated.
    WrongLength { stated: u16, written: usize },
    /// The message would pass its limit.
    ShortBuf,
    OutOfMemory,
}

impl BuildDataError {
    /// The one error on data that is left if the target has no limit.
    pub fn unlimited_buf(self) -> Option<LongOptData>
        ensures { IsUnlimited self result }
    {
        match self {
            BuildDataError::LongOptData => Some(LongOptData),
            _ => None,
        }
    }
}

impl fmt::Display for BuildDataError {
    ghost output = { λ e. Some (build_text e) };

    fn fmt<W: fmt::Write>(&self, f: &mut fmt::Formatter<W>) -> fmt::Result {
        match self {
            BuildDataError::LongOptData => f.write_str("long option data"),
            BuildDataError::WrongLength { .. } => f.write_str("wrong option length"),
            BuildDataError::ShortBuf => f.write_str("buffer size exceeded"),
            BuildDataError::OutOfMemory => f.write_str("out of memory"),
        }
    }
}

impl std::error::Error for BuildDataError {}

impl From<LongOptData> for BuildDataError {
    ghost from_gives = { λ _ e. e ≡ TooLong };

    fn from(_error: LongOptData) -> Self {
        BuildDataError::LongOptData
    }
}

impl From<OutOfMemory> for BuildDataError {
    ghost from_gives = { λ _ e. e ≡ NoMemory };

    fn from(_error: OutOfMemory) -> Self {
        BuildDataError::OutOfMemory
    }
}

impl From<AllocError> for BuildDataError {
    ghost from_gives = { λ _ e. e ≡ NoMemory };

    fn from(_error: AllocError) -> Self {
        BuildDataError::OutOfMemory
    }
}

impl<T: Drop> From<AllocFailed<T>> for BuildDataError {
    ghost from_gives = { λ _ e. e ≡ NoMemory };

    fn from(_error: AllocFailed<T>) -> Self {
        BuildDataError::OutOfMemory
    }
}
