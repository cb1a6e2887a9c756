//! Why a zone file is refused.

ghost use Rattle.std.specs.Prelude.{◌≡◌};

use dns_name::OutOfMemory;
use std::alloc::{AllocError, AllocFailed};

/// Why a line of a zone file is refused.
#[derive(Clone, Copy, Debug, PartialEq, Eq)]
pub enum EntryReason {
    /// A parenthesis closes none, opens within another, or is never closed.
    Parenthesis,
    /// A quoted string has no end in its line.
    Quote,
    /// A backslash ends its line, or stands in front of no three digits of a number below 256.
    Escape,
    /// A word after `$` is none of ORIGIN and TTL.
    Directive,
    /// `$INCLUDE`, which isn't read.
    Include,
    /// The first entry begins with a blank.
    NoOwner,
    /// An entry has no TTL, and none stands before it.
    NoTtl,
    /// The class isn't IN.
    Class,
    /// The type is none that is known, nor TYPE and a number.
    UnknownType,
    /// A word is missing.
    Missing,
    /// A word is left over.
    Trailing,
    /// A word is no number, or one that is too large.
    Number,
    /// A word is no time of a signature.
    Time,
    /// A word is no address.
    Address,
    /// A word is no name.
    Name,
    /// A name has more than 255 octets.
    LongName,
    /// A string has more than 255 octets.
    LongString,
    /// A word in quotes stands where no string does.
    Quoted,
    /// Words are no hexadecimal digits, or an odd number of them.
    Hex,
    /// Words aren't base64.
    Base64,
    /// A word isn't base32 of whole groups of eight digits.
    Base32,
    /// A service parameter is none that is known, or its value isn't of its form.
    Parameter,
    /// A service parameter stands twice.
    Repeated,
    /// There are other octets than were said, or more than 65,535.
    Length,
    /// The octets aren't of the type's shape.
    Shape,
}

/// Why a zone file gives no records.
#[derive(Clone, Copy, Debug, PartialEq, Eq)]
pub enum ZoneFileError {
    /// The line, counted from 1, and why it is refused.
    Refused { line: u64, reason: EntryReason },
    OutOfMemory,
}

/// Why a word gives nothing.
#[derive(Clone, Copy, Debug, PartialEq, Eq)]
pub enum ReasonError {
    Refused(EntryReason),
    OutOfMemory,
}

impl From<AllocError> for ZoneFileError {
    ghost use Rattle.dns_entries.specs.declared.reason.ZoneFileError.TheVariants.{OutOfMemory as NoMemory};

    ghost from_gives = { λ _ e. e ≡ NoMemory };

    fn from(_error: AllocError) -> Self {
        ZoneFileError::OutOfMemory
    }
}

impl<T: Drop> From<AllocFailed<T>> for ZoneFileError {
    ghost use Rattle.dns_entries.specs.declared.reason.ZoneFileError.TheVariants.{OutOfMemory as NoMemory};

    ghost from_gives = { λ _ e. e ≡ NoMemory };

    fn from(_error: AllocFailed<T>) -> Self {
        ZoneFileError::OutOfMemory
    }
}

impl From<OutOfMemory> for ZoneFileError {
    ghost use Rattle.dns_entries.specs.declared.reason.ZoneFileError.TheVariants.{OutOfMemory as NoMemory};

    ghost from_gives = { λ _ e. e ≡ NoMemory };

    fn from(_error: OutOfMemory) -> Self {
        ZoneFileError::OutOfMemory
    }
}

impl From<AllocError> for ReasonError {
    ghost use Rattle.dns_entries.specs.declared.reason.ReasonError.TheVariants.{OutOfMemory as NoMemory};

    ghost from_gives = { λ _ e. e ≡ NoMemory };

    fn from(_error: AllocError) -> Self {
        ReasonError::OutOfMemory
    }
}

impl<T: Drop> From<AllocFailed<T>> for ReasonError {
    ghost use Rattle.dns_entries.specs.declared.reason.ReasonError.TheVariants.{OutOfMemory as NoMemory};

    ghost from_gives = { λ _ e. e ≡ NoMemory };

    fn from(_error: AllocFailed<T>) -> Self {
        ReasonError::OutOfMemory
    }
}

impl From<OutOfMemory> for ReasonError {
    ghost use Rattle.dns_entries.specs.declared.reason.ReasonError.TheVariants.{OutOfMemory as NoMemory};

    ghost from_gives = { λ _ e. e ≡ NoMemory };

    fn from(_error: OutOfMemory) -> Self {
        ReasonError::OutOfMemory
    }
}
