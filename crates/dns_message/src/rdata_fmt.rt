//! Record data as Debug text, as a derive would write it.

ghost use Rattle.std.specs.Prelude.{◌≡◌, None};
ghost use Rattle.dns_message.specs.Equality.{data_parts};
ghost use Rattle.dns_message.specs.Records.{octets_alone};

use crate::rdata::RecordData;
use crate::zone::ZoneNumbers;
use dns_name::{Name, Octets, Rtype};
use std::fmt;

impl fmt::Debug for RecordData {
    fn fmt<W: fmt::Write>(&self, f: &mut fmt::Formatter<W>) -> fmt::Result {
        match self {
            RecordData::A(octets) => show_octets(f, "A", octets),
            RecordData::Aaaa(octets) => show_octets(f, "Aaaa", octets),
            RecordData::Opt(octets) => show_octets(f, "Opt", octets),
            RecordData::Unknown { rtype, octets } => show_unknown(f, rtype, octets),
            _ => show_fields(f, self),
        }
    }
}

/// Data that is names and numbers.
fn show_fields<W: fmt::Write>(f: &mut fmt::Formatter<W>, rdata: &RecordData) -> fmt::Result
    requires { octets_alone rdata.now ≡ None }
{
    match rdata {
        RecordData::Named { rtype, name } => show_named(f, rtype, name),
        RecordData::Minfo { first, second } => show_minfo(f, first, second),
        RecordData::Mx {
            preference,
            exchange,
        } => show_mx(f, preference, exchange),
        RecordData::Srv {
            priority,
            weight,
            port,
            target,
        } => show_srv(f, priority, weight, port, target),
        _ => show_authority(f, rdata),
    }
}

/// The start of a zone.
fn show_authority<W: fmt::Write>(f: &mut fmt::Formatter<W>, rdata: &RecordData) -> fmt::Result
    requires { (data_parts rdata.now).0 ≡ 4 }
{
    let (mname, rname, numbers) = rdata.zone_start();
    let mut shown = f.debug_struct("Soa");
    shown
        .field("mname", mname)
        .field("rname", rname)
        .field("serial", &numbers.serial);
    show_times(shown, numbers)
}

fn show_octets<W: fmt::Write, T: fmt::Debug>(
    f: &mut fmt::Formatter<W>,
    name: &str,
    octets: &T,
) -> fmt::Result {
    f.debug_tuple(name).field(octets).finish()
}

fn show_named<W: fmt::Write>(f: &mut fmt::Formatter<W>, rtype: &Rtype, name: &Name) -> fmt::Result {
    f.debug_struct("Named")
        .field("rtype", rtype)
        .field("name", name)
        .finish()
}

/// The times of a zone's start after its other fields.
fn show_times<W: fmt::Write>(
    mut shown: fmt::DebugStruct<'_, W>,
    numbers: ZoneNumbers,
) -> fmt::Result {
    shown
        .field("refresh", &numbers.refresh)
        .field("retry", &numbers.retry)
        .field("expire", &numbers.expire)
        .field("minimum", &numbers.minimum)
        .finish()
}

fn show_minfo<W: fmt::Write>(
    f: &mut fmt::Formatter<W>,
    first: &Name,
    second: &Name,
) -> fmt::Result {
    f.debug_struct("Minfo")
        .field("first", first)
        .field("second", second)
        .finish()
}

fn show_mx<W: fmt::Write>(
    f: &mut fmt::Formatter<W>,
    preference: &u16,
    exchange: &Name,
) -> fmt::Result {
    f.debug_struct("Mx")
        .field("preference", preference)
        .field("exchange", exchange)
        .finish()
}

fn show_srv<W: fmt::Write>(
    f: &mut fmt::Formatter<W>,
    priority: &u16,
    weight: &u16,
    port: &u16,
    target: &Name,
) -> fmt::Result {
    f.debug_struct("Srv")
        .field("priority", priority)
        .field("weight", weight)
        .field("port", port)
        .field("target", target)
        .finish()
}

fn show_unknown<W: fmt::Write>(
    f: &mut fmt::Formatter<W>,
    rtype: &Rtype,
    octets: &Octets,
) -> fmt::Result {
    f.debug_struct("Unknown")
        .field("rtype", rtype)
        .field("octets", octets)
        .finish()
}
