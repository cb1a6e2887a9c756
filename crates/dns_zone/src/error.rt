//! Why a list of records is no zone.

ghost use Rattle.std.specs.Prelude.{◌≡◌, Some};
ghost use Rattle.std.specs.Fmt.{WritesOnOk};
ghost use Rattle.dns_zone.specs.ErrorTexts.{record_text, said_of, zone_error_text};

use dns_name::OutOfMemory;
use std::fmt;

/// Why a list of records is no zone. Places are counted from 0.
#[derive(Clone, Copy, PartialEq, Eq)]
pub enum ZoneError {
    /// The first record whose owner doesn't end with the apex.
    Outside { index: usize },
    /// The first record of another class than IN.
    Class { index: usize },
    /// The first OPT record, which is in no zone (RFC 6891, section 6.1.1).
    Opt { index: usize },
    /// How many SOA records there are; a zone has one (RFC 1035, section 5.2).
    Soa { count: usize },
    /// The SOA record, if its owner isn't the apex.
    SoaPlace { index: usize },
    /// The first CNAME record whose owner has another record (RFC 1034, section 3.6.2).
    Cname { index: usize },
    OutOfMemory,
}

impl ZoneError {
    /// The name of the variant.
    fn name(self) -> &'static str {
        match self {
            ZoneError::Outside { .. } => "Outside",
            ZoneError::Class { .. } => "Class",
            ZoneError::Opt { .. } => "Opt",
            ZoneError::Soa { .. } => "Soa",
            ZoneError::SoaPlace { .. } => "SoaPlace",
            ZoneError::Cname { .. } => "Cname",
            ZoneError::OutOfMemory => "OutOfMemory",
        }
    }

    /// What its text says after the number, if it has one.
    fn as_str(self) -> &'static str
        ensures { result.now ≡ said_of self }
    {
        match self {
            ZoneError::Outside { .. } => "is outside the zone",
            ZoneError::Class { .. } => "has another class than IN",
            ZoneError::Opt { .. } => "is an OPT record",
            ZoneError::Soa { .. } => "SOA records in place of one",
            ZoneError::SoaPlace { .. } => "is an SOA record below the apex",
            ZoneError::Cname { .. } => "is a CNAME record beside another record",
            ZoneError::OutOfMemory => "out of memory",
        }
    }
}

impl fmt::Display for ZoneError {
    ghost output = { λ e. Some (zone_error_text e) };

    fn fmt<W: fmt::Write>(&self, f: &mut fmt::Formatter<W>) -> fmt::Result {
        let said = self.as_str();
        match self {
            ZoneError::Soa { count } => write!(f, "{count} {said}"),
            ZoneError::OutOfMemory => f.write_str(said),
            ZoneError::Outside { index }
            | ZoneError::Class { index }
            | ZoneError::Opt { index }
            | ZoneError::SoaPlace { index }
            | ZoneError::Cname { index } => show_record(f, *index, said),
        }
    }
}

/// The number of a record, and what is said of it.
fn show_record<W: fmt::Write>(f: &mut fmt::Formatter<W>, index: usize, said: &str) -> fmt::Result
    ensures { WritesOnOk W.write_str_gives f.old result (record_text index said.now) f.new }
{
    write!(f, "record {index} {said}")
}

impl fmt::Debug for ZoneError {
    fn fmt<W: fmt::Write>(&self, f: &mut fmt::Formatter<W>) -> fmt::Result {
        let name = self.name();
        match self {
            ZoneError::Soa { count } => show(f, name, "count", *count),
            ZoneError::OutOfMemory => f.write_str(name),
            ZoneError::Outside { index }
            | ZoneError::Class { index }
            | ZoneError::Opt { index }
            | ZoneError::SoaPlace { index }
            | ZoneError::Cname { index } => show(f, name, "index", *index),
        }
    }
}

/// An error with a number, as a derive would write it.
fn show<W: fmt::Write>(
    f: &mut fmt::Formatter<W>,
    error: &str,
    name: &str,
    number: usize,
) -> fmt::Result {
    f.debug_struct(error).field(name, &number).finish()
}

impl std::error::Error for ZoneError {}

impl From<OutOfMemory> for ZoneError {
    ghost use Rattle.dns_zone.specs.declared.error.ZoneError.TheVariants.{OutOfMemory as NoMemory};

    ghost from_gives = { λ _ e. e ≡ NoMemory };

    fn from(_error: OutOfMemory) -> Self {
        ZoneError::OutOfMemory
    }
}
