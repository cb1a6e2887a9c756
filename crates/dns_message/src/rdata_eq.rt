//! When record data is equal.

ghost use Rattle.std.specs.Prelude.{◌≡◌, [], ◌∷◌};
ghost use Rattle.std.specs.Cmp.{partial_equiv_from_equiv};
ghost use Rattle.dns_message.specs.Equality.{same_data, same_data_equiv};

use crate::rdata::RecordData;
use crate::zone::ZoneNumbers;
use dns_name::{Name, Octets, Rtype};

impl PartialEq for RecordData {
    ghost eq = { same_data };

    ghost laws = { partial_equiv_from_equiv same_data_equiv };

    fn eq(&self, other: &RecordData) -> bool {
        match self {
            RecordData::A(octets) => is_a(other, octets),
            RecordData::Aaaa(octets) => is_aaaa(other, octets),
            RecordData::Named { rtype, name } => is_named(other, *rtype, name),
            RecordData::Soa { .. } => {
                let (mname, rname, numbers) = self.zone_start();
                is_soa(other, mname, rname, numbers)
            }
            RecordData::Minfo { first, second } => is_minfo(other, first, second),
            RecordData::Mx {
                preference,
                exchange,
            } => is_mx(other, *preference, exchange),
            RecordData::Srv {
                priority,
                weight,
                port,
                target,
            } => is_srv(other, *priority, *weight, *port, target),
            RecordData::Opt(octets) => is_opt(other, octets),
            RecordData::Unknown { rtype, octets } => is_unknown(other, *rtype, octets),
        }
    }
}

impl Eq for RecordData {
    ghost laws = { same_data_equiv };
}

/// The numbers of a zone's start in their order (RFC 1035, section 3.3.13).
fn in_order(numbers: ZoneNumbers) -> [u32; 5]
    ensures { result ≡ numbers.serial.0 ∷ numbers.refresh ∷ numbers.retry ∷ numbers.expire ∷ numbers.minimum ∷ [] }
{
    [
        numbers.serial.into_int(),
        numbers.refresh.as_secs(),
        numbers.retry.as_secs(),
        numbers.expire.as_secs(),
        numbers.minimum.as_secs(),
    ]
}

fn is_a(rdata: &RecordData, octets: &[u8; 4]) -> bool
    ensures { result ≡ same_data (RecordData.A octets.now) rdata.now }
{
    match rdata {
        RecordData::A(others) => octets == others,
        _ => false,
    }
}

fn is_aaaa(rdata: &RecordData, octets: &[u8; 16]) -> bool
    ensures { result ≡ same_data (RecordData.Aaaa octets.now) rdata.now }
{
    match rdata {
        RecordData::Aaaa(others) => octets == others,
        _ => false,
    }
}

fn is_named(rdata: &RecordData, rtype: Rtype, name: &Name) -> bool
    ensures { result ≡ same_data (RecordData.Named rtype name.now) rdata.now }
{
    match rdata {
        RecordData::Named {
            rtype: other_type,
            name: other_name,
        } => rtype == *other_type && name == other_name,
        _ => false,
    }
}

fn is_soa(rdata: &RecordData, mname: &Name, rname: &Name, numbers: ZoneNumbers) -> bool
    ensures { result ≡ same_data (RecordData.Soa mname.now rname.now numbers.serial numbers.refresh numbers.retry numbers.expire
        numbers.minimum) rdata.now }
{
    match rdata {
        RecordData::Soa { .. } => {
            let (other_mname, other_rname, others) = rdata.zone_start();
            let same_numbers = in_order(numbers) == in_order(others);
            same_numbers && mname == other_mname && rname == other_rname
        }
        _ => false,
    }
}

fn is_minfo(rdata: &RecordData, first: &Name, second: &Name) -> bool
    ensures { result ≡ same_data (RecordData.Minfo first.now second.now) rdata.now }
{
    match rdata {
        RecordData::Minfo {
            first: other_first,
            second: other_second,
        } => first == other_first && second == other_second,
        _ => false,
    }
}

fn is_mx(rdata: &RecordData, preference: u16, exchange: &Name) -> bool
    ensures { result ≡ same_data (RecordData.Mx preference exchange.now) rdata.now }
{
    match rdata {
        RecordData::Mx {
            preference: other_preference,
            exchange: other_exchange,
        } => preference == *other_preference && exchange == other_exchange,
        _ => false,
    }
}

fn is_srv(rdata: &RecordData, priority: u16, weight: u16, port: u16, target: &Name) -> bool
    ensures { result ≡ same_data (RecordData.Srv priority weight port target.now) rdata.now }
{
    match rdata {
        RecordData::Srv {
            priority: other_priority,
            weight: other_weight,
            port: other_port,
            target: other_target,
        } => {
            let numbers = [priority, weight, port];
            let others = [*other_priority, *other_weight, *other_port];
            numbers == others && target == other_target
        }
        _ => false,
    }
}

fn is_opt(rdata: &RecordData, octets: &Octets) -> bool
    ensures { result ≡ same_data (RecordData.Opt octets.now) rdata.now }
{
    match rdata {
        RecordData::Opt(others) => octets.as_slice() == others.as_slice(),
        _ => false,
    }
}

fn is_unknown(rdata: &RecordData, rtype: Rtype, octets: &Octets) -> bool
    ensures { result ≡ same_data (RecordData.Unknown rtype octets.now) rdata.now }
{
    match rdata {
        RecordData::Unknown {
            rtype: other_type,
            octets: others,
        } => rtype == *other_type && octets.as_slice() == others.as_slice(),
        _ => false,
    }
}
