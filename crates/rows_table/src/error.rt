//! Why a row says nothing that could hold.

use dns_name::{OutOfMemory, ParseError};
use std::alloc::{AllocError, AllocFailed};

/// Why a row can't be judged; or that its octets are refused, which then is what the row says.
#[derive(Clone, Copy)]
pub enum RowError {
    /// No ` = ` parts the call from what is wanted.
    NothingWanted,
    NoSuchCall,
    NoSuchStep,
    /// An argument is missing.
    Missing,
    /// An argument is too many.
    TooMany,
    /// An argument is out of form.
    OutOfForm,
    /// A repetition is out of form.
    Repetition,
    OutOfMemory,
    Refused(ParseError),
}

impl RowError {
    /// What the line of a row with this fault says.
    pub(crate) fn as_str(self) -> &'static str {
        match self {
            RowError::NothingWanted => "no ` = ` parts the call from what is wanted",
            RowError::NoSuchCall => "no such call",
            RowError::NoSuchStep => "no such step",
            RowError::Missing => "an argument is missing",
            RowError::TooMany => "an argument too many",
            RowError::OutOfForm => "an argument is out of form",
            RowError::Repetition => "a repetition is out of form",
            RowError::OutOfMemory => "out of memory",
            RowError::Refused(_) => "octets are refused within a step",
        }
    }
}

impl From<ParseError> for RowError {
    fn from(error: ParseError) -> RowError {
        RowError::Refused(error)
    }
}

impl From<OutOfMemory> for RowError {
    fn from(_error: OutOfMemory) -> RowError {
        RowError::OutOfMemory
    }
}

impl From<AllocError> for RowError {
    fn from(_error: AllocError) -> RowError {
        RowError::OutOfMemory
    }
}

impl<T: Drop> From<AllocFailed<T>> for RowError {
    fn from(_error: AllocFailed<T>) -> RowError {
        RowError::OutOfMemory
    }
}
