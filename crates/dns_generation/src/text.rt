//! Why a line of a zone file is refused, in words.

use crate::zone_text_error::ZoneTextError;
use dns_denial::{ChainError, HashingError};
use dns_hashed_zone::{HashedChainError, HashedZoneError};
use dns_nsec_data::NsecError;
use dns_nsec3_data::Nsec3Error;
use dns_signed_zone::SignedZoneError;
use dns_zone_file::EntryReason;
use dns_zone_tree::TreeError;
use std::error::Error;
use std::fmt;

/// Why a line of a zone file is refused.
fn reason_text(reason: EntryReason) -> &'static str {
    match reason {
        EntryReason::Parenthesis => "a parenthesis has no counterpart",
        EntryReason::Quote => "a quoted string has no end in its line",
        EntryReason::Escape => "a backslash stands in front of nothing that it escapes",
        EntryReason::Directive => "a directive other than $ORIGIN and $TTL",
        EntryReason::Include => "$INCLUDE isn't read",
        EntryReason::NoOwner => "the first entry has no owner",
        EntryReason::NoTtl => "no TTL is given here or before",
        EntryReason::Class => "the class isn't IN",
        EntryReason::UnknownType => "the type isn't known",
        EntryReason::Missing => "a word is missing",
        EntryReason::Trailing => "a word is left over",
        EntryReason::Number => "no number, or one that is too large",
        EntryReason::Time => "no time of a signature",
        EntryReason::Address => "no address",
        EntryReason::Name => "no name",
        EntryReason::LongName => "a name has more than 255 octets",
        EntryReason::LongString => "a string has more than 255 octets",
        EntryReason::Quoted => "quotes stand where no string does",
        EntryReason::Hex => "no hexadecimal digits",
        EntryReason::Base64 => "no base64",
        EntryReason::Base32 => "no base32",
        EntryReason::Parameter => "a service parameter isn't known, or has a value of another form",
        EntryReason::Repeated => "a service parameter stands twice",
        EntryReason::Length => "other octets than were said, or too many",
        EntryReason::Shape => "data that isn't of its type's shape",
    }
}

/// Why records are no zone, the record's place counted from 0.
fn write_cause<W: fmt::Write>(error: TreeError, f: &mut fmt::Formatter<W>) -> fmt::Result {
    match error {
        TreeError::Outside(place) => write!(f, "no zone: record {place} is outside of it"),
        TreeError::Class(place) => write!(f, "no zone: record {place} has another class than IN"),
        TreeError::Opt(place) => write!(f, "no zone: record {place} is an OPT record"),
        TreeError::Soa(count) => write!(f, "no zone: it has {count} SOA records"),
        TreeError::SoaPlace(place) => {
            write!(f, "no zone: record {place} is an SOA record below the apex")
        }
        TreeError::WildNs(place) => write!(
            f,
            "no zone: record {place} is an NS record at a wildcard"
        ),
        TreeError::Long(place) => write!(
            f,
            "no zone: record {place} takes more than 65,000 octets"
        ),
        TreeError::Large => f.write_str(
            "no zone: too many records, or too many octets in the names of their owners",
        ),
        TreeError::Cname(place) => {
            write!(f, "no zone: record {place} is a CNAME beside other records")
        }
        TreeError::OutOfMemory => f.write_str("out of memory"),
    }
}

/// Why NSEC records are no chain that is whole. Places in the chain are in canonical order, counted from 0.
fn write_signed_cause<W: fmt::Write>(
    error: SignedZoneError,
    f: &mut fmt::Formatter<W>,
) -> fmt::Result {
    match error {
        SignedZoneError::Tree(error) => write_cause(error, f),
        SignedZoneError::Nsec(error) => write_nsec_cause(error, f),
        SignedZoneError::Chain(error) => write_chain_cause(error, f),
    }
}

/// Why NSEC records are no chain.
fn write_nsec_cause<W: fmt::Write>(error: NsecError, f: &mut fmt::Formatter<W>) -> fmt::Result {
    match error {
        NsecError::Malformed(place) => {
            write!(
                f,
                "no signed zone: record {place} has no data of an NSEC record"
            )
        }
        NsecError::Twice => f.write_str("no signed zone: two NSEC records have one owner"),
        NsecError::OutOfMemory => f.write_str("out of memory"),
    }
}

/// Why a chain isn't whole.
fn write_chain_cause<W: fmt::Write>(error: ChainError, f: &mut fmt::Formatter<W>) -> fmt::Result {
    match error {
        ChainError::Unlisted(place) => {
            write!(f, "no signed zone: no NSEC record lists record {place}")
        }
        ChainError::Unfounded(place) => write!(
            f,
            "no signed zone: NSEC {place} has no place in the chain, or lists a type that isn't there"
        ),
        ChainError::Unlinked(place) => write!(
            f,
            "no signed zone: NSEC {place} doesn't lead to the next one"
        ),
        ChainError::OutOfMemory => f.write_str("out of memory"),
    }
}

/// Why NSEC3 records are no chain that is whole. Places in the chain are in the order of hashes, counted from 0. Records are counted
/// without NSEC3 records and the RRSIGs that cover them.
fn write_hashed_cause<W: fmt::Write>(
    error: HashedZoneError,
    f: &mut fmt::Formatter<W>,
) -> fmt::Result {
    match error {
        HashedZoneError::Tree(error) => write_cause(error, f),
        HashedZoneError::Nsec3(error) => write_nsec3_cause(error, f),
        HashedZoneError::Chain(error) => write_hashed_chain_cause(error, f),
    }
}

/// Why NSEC3 records are no chain.
fn write_nsec3_cause<W: fmt::Write>(error: Nsec3Error, f: &mut fmt::Formatter<W>) -> fmt::Result {
    match error {
        Nsec3Error::Params(count) => write!(
            f,
            "no signed zone: {count} NSEC3PARAM records without flags are at its apex"
        ),
        Nsec3Error::Param => f.write_str(
            "no signed zone: its NSEC3PARAM record has another algorithm than SHA-1, or data out of form",
        ),
        Nsec3Error::Hashing(HashingError::Iterations) => {
            f.write_str("no signed zone: NSEC3 with more than 100 iterations")
        }
        Nsec3Error::Hashing(HashingError::Salt) => {
            f.write_str("no signed zone: NSEC3 with a salt of more than 32 octets")
        }
        Nsec3Error::Malformed(place) => write!(
            f,
            "no signed zone: record {place} is no NSEC3 record of its NSEC3PARAM record"
        ),
        Nsec3Error::Twice => f.write_str("no signed zone: two NSEC3 records have one hash"),
        Nsec3Error::OutOfMemory => f.write_str("out of memory"),
    }
}

/// Why a chain of NSEC3s isn't whole.
fn write_hashed_chain_cause<W: fmt::Write>(
    error: HashedChainError,
    f: &mut fmt::Formatter<W>,
) -> fmt::Result {
    match error {
        HashedChainError::Unlisted(place) => write!(
            f,
            "no signed zone: a name of record {place} has no NSEC3 record that lists its types"
        ),
        HashedChainError::Unfounded(place) => {
            write!(f, "no signed zone: NSEC3 {place} is no name's")
        }
        HashedChainError::Unlinked(place) => write!(
            f,
            "no signed zone: NSEC3 {place} doesn't lead to the next one"
        ),
        HashedChainError::Unowned(place) => write!(
            f,
            "no signed zone: NSEC3 record or RRSIG {place} has an owner without an NSEC3 record"
        ),
        HashedChainError::OutOfMemory => f.write_str("out of memory"),
    }
}

/// The line and its reason; or what the records are no zone for.
impl fmt::Display for ZoneTextError {
    fn fmt<W: fmt::Write>(&self, f: &mut fmt::Formatter<W>) -> fmt::Result {
        match self {
            ZoneTextError::Line { line, reason } => {
                let said = reason_text(*reason);
                write!(f, "line {line}: {said}")
            }
            ZoneTextError::NotZone(error) => write_cause(*error, f),
            ZoneTextError::NotSigned(error) => write_signed_cause(*error, f),
            ZoneTextError::NotHashed(error) => write_hashed_cause(*error, f),
            ZoneTextError::OutOfMemory => f.write_str("out of memory"),
        }
    }
}

impl Error for ZoneTextError {}
