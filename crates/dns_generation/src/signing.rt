//! How a zone is signed.

ghost use Rattle.std.specs.Prelude.{◌≡◌, slice_index};
ghost use Rattle.std.specs.List.{find};
ghost use Rattle.std.specs.Option.{option_copied};
ghost use Rattle.dns_nsec_data.specs.NsecData.{unknown_octets};
ghost use Rattle.dns_nsec3_data.specs.Nsec3Data.{is_used};
ghost use Rattle.dns_generation.specs.Signings.{hashed_by, said_by, zone_signing};

use dns_authority::ZoneData;
use dns_message::{Record, RecordData};
use dns_name::Name;
use dns_zone_tree::ZoneTree;
use std::fmt;

/// The type of the records with the parameters of NSEC3.
const NSEC3PARAM: u16 = 51;

/// How a zone is signed.
#[derive(Clone, Copy)]
pub enum ZoneSigning {
    /// It isn't.
    Unsigned,
    /// With NSEC records (RFC 4034, section 4).
    Nsec,
    /// With NSEC3 records (RFC 5155): the number of additional iterations of their hashes, and how many octets the salt has.
    Nsec3 { iterations: u16, salt_length: u8 },
}

/// The octets of data of a type like NSEC3PARAM.
fn unknown_octets(resource: &Record) -> &[u8]
    ensures { result.now ≡ unknown_octets resource.now.rdata }
{
    match &resource.rdata {
        RecordData::Unknown { octets, .. } => octets.as_slice(),
        _ => &[],
    }
}

/// The octet at a place, 0 if there is none.
fn octet_at(octets: &[u8], place: usize) -> u8
    ensures { result ≡ slice_index octets.now place }
{
    match octets.get(place) {
        Some(octet) => *octet,
        None => 0,
    }
}

/// Whether a record is an NSEC3PARAM record at an apex, without flags.
fn is_used(apex: &Name, resource: &Record) -> bool
    ensures { result ≡ is_used apex.now resource.now }
{
    resource.rdata.rtype().to_int() == NSEC3PARAM
        && (resource.owner == *apex && octet_at(unknown_octets(resource), 1) == 0)
}

/// What the data of an NSEC3PARAM record say.
fn said_by(octets: &[u8]) -> ZoneSigning
    ensures { result ≡ said_by octets.now }
{
    ZoneSigning::Nsec3 {
        iterations: 256 * octet_at(octets, 2) as u16 + octet_at(octets, 3) as u16,
        salt_length: octet_at(octets, 4),
    }
}

/// The first of them.
fn first_used<'a>(apex: &Name, records: &'a [Record]) -> Option<&'a Record>
    ensures { option_copied result ≡ find (is_used apex.now) records.now }
{
    records.iter().find(|resource| is_used(apex, resource))
}

/// How the names of a zone are hashed.
fn hashed_by(zone: &ZoneTree) -> ZoneSigning
    ensures { result ≡ hashed_by (find (is_used zone.now.apex) zone.now.records) }
{
    match first_used(zone.apex(), zone.records()) {
        Some(resource) => said_by(unknown_octets(resource)),
        None => said_by(&[]),
    }
}

/// How a zone is signed.
pub(crate) fn zone_signing(zone: &ZoneData) -> ZoneSigning
    ensures { result ≡ zone_signing zone.now }
{
    match zone {
        ZoneData::Unsigned(_) => ZoneSigning::Unsigned,
        ZoneData::Signed(_) => ZoneSigning::Nsec,
        ZoneData::Hashed(hashed) => hashed_by(hashed.zone()),
    }
}

/// In words, as `NSEC3 with 0 iterations and a salt of 0 octets`.
impl fmt::Display for ZoneSigning {
    fn fmt<W: fmt::Write>(&self, f: &mut fmt::Formatter<W>) -> fmt::Result {
        match self {
            ZoneSigning::Unsigned => f.write_str("unsigned"),
            ZoneSigning::Nsec => f.write_str("NSEC"),
            ZoneSigning::Nsec3 {
                iterations,
                salt_length,
            } => write!(
                f,
                "NSEC3 with {iterations} iterations and a salt of {salt_length} octets"
            ),
        }
    }
}
