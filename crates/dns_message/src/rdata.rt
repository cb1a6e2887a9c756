//! The data of records.

ghost use Rattle.std.specs.Prelude.{◌≡◌, ◌≤◌, ◌<◌, ◌++◌, ◌^◌, length, take, option_map, IfSome, OnOk, OnErr};
ghost use Rattle.dns_name.specs.Labels.{spell};
ghost use Rattle.dns_name.specs.Place.{two};
ghost use Rattle.dns_message.specs.Equality.{data_parts};
ghost use Rattle.dns_message.specs.Zone.{zone_octets};
ghost use Rattle.dns_message.specs.Records.{data_octets, data_type, named_data, octets_alone, opt_data, shape_of, unknown_data, IsLawful};

use crate::option_list::is_option_list;
use crate::write::{push_octets, push_two, settle};
use crate::zone::{ZoneNumbers, push_zone};
use dns_name::{Name, Octets, OutOfMemory, Rtype, Serial, Ttl};
use std::alloc::Global;

/// The shape of a type's data.
#[derive(Clone, Copy, Debug, PartialEq, Eq)]
pub(crate) enum Shape {
    /// Four octets.
    Address,
    /// Sixteen octets.
    LongAddress,
    /// One name.
    OneName,
    /// Two names and five numbers.
    Authority,
    /// Two names.
    TwoNames,
    /// A number and a name.
    Exchange,
    /// Three numbers and a name.
    Service,
    /// An option list.
    Options,
    /// Any octets.
    Other,
}

/// The data of a record, by the shape of its type. Data is equal if it is the same variant, with the same numbers
/// or octets, and with the same names up to ASCII case.
#[derive(Drop)]
pub enum RecordData {
    /// An address (RFC 1035, section 3.4.1).
    A([u8; 4]),
    /// An address (RFC 3596, section 2.2).
    Aaaa([u8; 16]),
    /// One name: NS, MD, MF, CNAME, MB, MG, MR, PTR or DNAME.
    Named {
        /// The record type, one whose data is one name.
        rtype: Rtype,
        name: Name,
    },
    /// The start of a zone (RFC 1035, section 3.3.13).
    Soa {
        mname: Name,
        rname: Name,
        serial: Serial,
        refresh: Ttl,
        retry: Ttl,
        expire: Ttl,
        minimum: Ttl,
    },
    /// Two mailboxes (RFC 1035, section 3.3.7).
    Minfo {
        first: Name,
        second: Name,
    },
    /// A mail exchange (RFC 1035, section 3.3.9).
    Mx {
        preference: u16,
        exchange: Name,
    },
    /// A service's host (RFC 2782).
    Srv {
        priority: u16,
        weight: u16,
        port: u16,
        target: Name,
    },
    /// An option list (RFC 6891, section 6.1.2).
    Opt(Octets),
    /// Octets of a type that has no shape here.
    Unknown {
        rtype: Rtype,
        octets: Octets,
    },
}

/// The shape of a type's data.
pub(crate) fn shape_of(rtype: Rtype) -> Shape
    ensures { result ≡ shape_of rtype }
{
    match rtype.to_int() {
        1 => Shape::Address,
        28 => Shape::LongAddress,
        2 | 3 | 4 | 5 | 7 | 8 | 9 | 12 | 39 => Shape::OneName,
        6 => Shape::Authority,
        14 => Shape::TwoNames,
        15 => Shape::Exchange,
        33 => Shape::Service,
        41 => Shape::Options,
        _ => Shape::Other,
    }
}

impl RecordData {
    /// Data of a type that has no shape; none for another type, or above 65,535 octets.
    pub fn unknown(rtype: Rtype, octets: Vec<u8>) -> Option<RecordData>
        ensures value { result ≡ unknown_data rtype octets.items }
        ensures lawful { IfSome result IsLawful }
    {
        if shape_of(rtype) != Shape::Other || octets.len() > 65535 {
            return None;
        }
        let octets = Octets::from_vec(octets);
        Some(RecordData::Unknown { rtype, octets })
    }

    /// Data that is one name; none for a type whose data isn't.
    pub fn named(rtype: Rtype, name: Name) -> Option<RecordData>
        ensures value { result ≡ named_data rtype name }
        ensures lawful { IfSome result IsLawful }
    {
        if shape_of(rtype) != Shape::OneName {
            return None;
        }
        Some(RecordData::Named { rtype, name })
    }

    /// The data of an OPT record; none if the octets are no option list, or above 65,535 octets.
    pub fn opt(octets: Vec<u8>) -> Option<RecordData>
        ensures value { result ≡ opt_data octets.items }
        ensures lawful { IfSome result IsLawful }
    {
        if octets.len() > 65535 || !is_option_list(octets.as_slice()) {
            return None;
        }
        Some(RecordData::Opt(Octets::from_vec(octets)))
    }

    /// The record type whose shape the data has.
    pub fn rtype(&self) -> Rtype
        ensures { result ≡ data_type self.now }
    {
        match self {
            RecordData::A(_) => Rtype::A,
            RecordData::Aaaa(_) => Rtype::AAAA,
            RecordData::Named { rtype, .. } => *rtype,
            RecordData::Soa { .. } => Rtype::SOA,
            RecordData::Minfo { .. } => Rtype::MINFO,
            RecordData::Mx { .. } => Rtype::MX,
            RecordData::Srv { .. } => Rtype::SRV,
            RecordData::Opt(_) => Rtype::OPT,
            RecordData::Unknown { rtype, .. } => *rtype,
        }
    }

    /// How many octets the data takes, names uncompressed.
    pub(crate) fn size(&self) -> usize
        requires { IsLawful self.now }
        ensures value { result ≡ length (data_octets self.now) }
        ensures short { result ≤ 65535 }
    {
        match self {
            RecordData::A(_) => 4,
            RecordData::Aaaa(_) => 16,
            RecordData::Named { name, .. } => name.as_slice().len(),
            RecordData::Soa { mname, rname, .. } => {
                mname.as_slice().len() + rname.as_slice().len() + 20
            }
            RecordData::Minfo { first, second } => {
                first.as_slice().len() + second.as_slice().len()
            }
            RecordData::Mx { exchange, .. } => exchange.as_slice().len() + 2,
            RecordData::Srv { target, .. } => target.as_slice().len() + 6,
            RecordData::Opt(octets) | RecordData::Unknown { octets, .. } => octets.as_slice().len(),
        }
    }

    /// Appends the data's octets, names uncompressed, or nothing.
    pub fn compose(&self, alloc: Global, target: &mut Vec<u8>) -> Result<(), OutOfMemory>
        ensures ok { OnOk result (target.new.items ≡ target.old.items ++ data_octets self.now) }
        ensures err { OnErr result (target.new.items ≡ target.old.items) }
    {
        let start = target.len();
        let written = self.write(alloc, target);
        settle(target, start, written)
    }

    /// Appends the data's octets, or some of them.
    pub(crate) fn write(&self, alloc: Global, target: &mut Vec<u8>) -> Result<(), OutOfMemory>
        ensures ok { OnOk result (target.new.items ≡ target.old.items ++ data_octets self.now) }
        ensures err { OnErr result (take (length target.old.items) target.new.items ≡ target.old.items) }
    {
        match self.octets() {
            Some(octets) => push_octets(target, octets),
            None => self.write_fields(alloc, target),
        }
    }

    /// Data that is octets.
    fn octets(&self) -> Option<&[u8]>
        ensures { option_map (λ octets. octets.now) result ≡ octets_alone self.now }
    {
        match self {
            RecordData::A(octets) => Some(octets),
            RecordData::Aaaa(octets) => Some(octets),
            RecordData::Opt(octets) | RecordData::Unknown { octets, .. } => Some(octets.as_slice()),
            _ => None,
        }
    }

    /// The start of a zone, of two names and the numbers.
    pub(crate) fn of_zone_start(mname: Name, rname: Name, numbers: ZoneNumbers) -> RecordData
        ensures { result ≡ RecordData.Soa mname rname numbers.serial numbers.refresh numbers.retry numbers.expire numbers.minimum }
    {
        RecordData::Soa {
            mname,
            rname,
            serial: numbers.serial,
            refresh: numbers.refresh,
            retry: numbers.retry,
            expire: numbers.expire,
            minimum: numbers.minimum,
        }
    }

    /// The names and the numbers of data that is the start of a zone.
    pub(crate) fn zone_start(&self) -> (&Name, &Name, ZoneNumbers)
        requires { (data_parts self.now).0 ≡ 4 }
        ensures { self.now ≡ RecordData.Soa result.0.now result.1.now result.2.serial result.2.refresh result.2.retry
            result.2.expire result.2.minimum }
    {
        match self {
            RecordData::Soa {
                mname,
                rname,
                serial,
                refresh,
                retry,
                expire,
                minimum,
            } => {
                let numbers = ZoneNumbers {
                    serial: *serial,
                    refresh: *refresh,
                    retry: *retry,
                    expire: *expire,
                    minimum: *minimum,
                };
                (mname, rname, numbers)
            }
            _ => unreachable!(),
        }
    }

    /// Appends the octets of data that is names and numbers, or some of them.
    fn write_fields(&self, alloc: Global, target: &mut Vec<u8>) -> Result<(), OutOfMemory>
        requires { octets_alone self.now ≡ None }
        ensures ok { OnOk result (target.new.items ≡ target.old.items ++ data_octets self.now) }
        ensures err { OnErr result (take (length target.old.items) target.new.items ≡ target.old.items) }
    {
        match self {
            RecordData::Named { name, .. } => name.compose(alloc, target),
            RecordData::Soa { .. } => {
                let (mname, rname, numbers) = self.zone_start();
                push_authority(alloc, target, mname, rname, numbers)
            }
            RecordData::Minfo { first, second } => push_names(alloc, target, first, second),
            RecordData::Mx {
                preference,
                exchange,
            } => push_numbered(alloc, target, *preference, exchange),
            RecordData::Srv {
                priority,
                weight,
                port,
                target: host,
            } => push_service(alloc, target, *priority, *weight, *port, host),
            _ => unreachable!(),
        }
    }
}

/// Appends two names, or some of their octets.
fn push_names(
    alloc: Global,
    target: &mut Vec<u8>,
    first: &Name,
    second: &Name,
) -> Result<(), OutOfMemory>
    ensures ok { OnOk result (target.new.items ≡ target.old.items ++ (spell first.now ++ spell second.now)) }
    ensures err { OnErr result (take (length target.old.items) target.new.items ≡ target.old.items) }
{
    first.compose(alloc, target)?;
    second.compose(alloc, target)
}

/// Appends the names and the numbers of a zone's start, or some of their octets.
fn push_authority(
    alloc: Global,
    target: &mut Vec<u8>,
    mname: &Name,
    rname: &Name,
    numbers: ZoneNumbers,
) -> Result<(), OutOfMemory>
    ensures ok { OnOk result (target.new.items ≡ target.old.items ++ (spell mname.now ++ (spell rname.now ++ zone_octets numbers))) }
    ensures err { OnErr result (take (length target.old.items) target.new.items ≡ target.old.items) }
{
    push_names(alloc, target, mname, rname)?;
    push_zone(target, numbers)
}

/// Appends a number and a name, or some of their octets.
fn push_numbered(
    alloc: Global,
    target: &mut Vec<u8>,
    number: u16,
    name: &Name,
) -> Result<(), OutOfMemory>
    ensures ok { OnOk result (target.new.items ≡ target.old.items ++ (two number ++ spell name.now)) }
    ensures err { OnErr result (take (length target.old.items) target.new.items ≡ target.old.items) }
{
    push_two(target, number)?;
    name.compose(alloc, target)
}

/// Appends the numbers and the name of a service's host, or some of their octets.
fn push_service(
    alloc: Global,
    target: &mut Vec<u8>,
    priority: u16,
    weight: u16,
    port: u16,
    host: &Name,
) -> Result<(), OutOfMemory>
    ensures ok { OnOk result (target.new.items ≡ target.old.items ++ (two priority ++ (two weight ++ (two port ++ spell host.now)))) }
    ensures err { OnErr result (take (length target.old.items) target.new.items ≡ target.old.items) }
{
    push_two(target, priority)?;
    push_two(target, weight)?;
    push_numbered(alloc, target, port, host)
}
