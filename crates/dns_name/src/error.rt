//! The refusals of readers.

ghost use Rattle.std.specs.Prelude.{◌≡◌, Some, codes};
ghost use Rattle.dns_name.specs.ErrorTexts.{parse_text, form_text};
ghost use Rattle.dns_name.specs.declared.error.ParseError.TheVariants.{OutOfMemory as NoMemory};

use std::alloc::{AllocError, AllocFailed};
use std::fmt;

/// Out of memory, if nothing else can be refused.
#[derive(Clone, Copy, Debug, PartialEq, Eq)]
pub struct OutOfMemory;

impl fmt::Display for OutOfMemory {
    ghost output = { λ _. Some (codes "out of memory") };

    fn fmt<W: fmt::Write>(&self, f: &mut fmt::Formatter<W>) -> fmt::Result {
        f.write_str("out of memory")
    }
}

impl std::error::Error for OutOfMemory {}

impl From<AllocError> for OutOfMemory {
    fn from(_error: AllocError) -> Self {
        OutOfMemory
    }
}

impl<T: Drop> From<AllocFailed<T>> for OutOfMemory {
    fn from(_error: AllocFailed<T>) -> Self {
        OutOfMemory
    }
}

/// Why octets have not the form that is read.
#[derive(Clone, Copy, Debug, PartialEq, Eq)]
pub enum FormReason {
    /// A label's first octet is none of RFC 1035, section 4.1.4.
    Label,
    /// A pointer doesn't point to an earlier place.
    Pointer,
    /// A name follows more than 255 pointers.
    Hops,
    /// A name has more than 255 octets (RFC 1035, section 2.3.4).
    LongName,
    /// Record data goes on after its shape.
    Shape,
    /// More than 65,535 octets of options.
    LongList,
    /// Octets are left over.
    Trailing,
    /// An address family that is neither 1 nor 2 (RFC 7871, section 6).
    Family,
    /// An address of another length than its prefix asks (RFC 7871, section 6).
    AddressLength,
    /// A bit past the source prefix is set (RFC 7871, section 6).
    AddressBits,
    /// A server cookie below 8 octets (RFC 7873, section 4).
    ShortServerCookie,
    /// A server cookie above 32 octets (RFC 7873, section 4).
    LongServerCookie,
    /// An odd number of octets where numbers of 16 bits stand.
    OddLength,
}

impl FormReason {
    /// The text of the reason.
    fn as_str(self) -> &'static str
        ensures { result.now ≡ form_text self }
    {
        match self {
            FormReason::Label => "bad label head",
            FormReason::Pointer => "pointer to no earlier place",
            FormReason::Hops => "too many pointers",
            FormReason::LongName => "name too long",
            FormReason::Shape => "record data too long",
            FormReason::LongList => "option list too long",
            FormReason::Trailing => "trailing octets",
            FormReason::Family => "unknown address family",
            FormReason::AddressLength => "wrong address length",
            FormReason::AddressBits => "address bit past the prefix",
            FormReason::ShortServerCookie => "server cookie too short",
            FormReason::LongServerCookie => "server cookie too long",
            FormReason::OddLength => "odd length",
        }
    }
}

impl fmt::Display for FormReason {
    ghost output = { λ r. Some (form_text r) };

    fn fmt<W: fmt::Write>(&self, f: &mut fmt::Formatter<W>) -> fmt::Result {
        f.write_str(self.as_str())
    }
}

/// Why octets weren't read: they end too early, they are of no such form, or there was no memory.
#[derive(Clone, Copy, Debug, PartialEq, Eq)]
pub enum ParseError {
    ShortInput,
    Form(FormReason),
    OutOfMemory,
}

impl fmt::Display for ParseError {
    ghost output = { λ e. Some (parse_text e) };

    fn fmt<W: fmt::Write>(&self, f: &mut fmt::Formatter<W>) -> fmt::Result {
        match self {
            ParseError::ShortInput => f.write_str("unexpected end of input"),
            ParseError::Form(reason) => write!(f, "form error: {reason}"),
            ParseError::OutOfMemory => f.write_str("out of memory"),
        }
    }
}

impl std::error::Error for ParseError {}

impl From<OutOfMemory> for ParseError {
    ghost from_gives = { λ _ e. e ≡ NoMemory };

    fn from(_error: OutOfMemory) -> Self {
        ParseError::OutOfMemory
    }
}

impl From<AllocError> for ParseError {
    ghost from_gives = { λ _ e. e ≡ NoMemory };

    fn from(_error: AllocError) -> Self {
        ParseError::OutOfMemory
    }
}

impl<T: Drop> From<AllocFailed<T>> for ParseError {
    ghost from_gives = { λ _ e. e ≡ NoMemory };

    fn from(_error: AllocFailed<T>) -> Self {
        ParseError::OutOfMemory
    }
}
