//! The data of records as it stands in a message.

ghost use Rattle.std.specs.Prelude.{◌≡◌, ◌≤◌, ◌+◌, length, take, drop, IfOk, Ok};
ghost use Rattle.dns_name.specs.Names.{name_within};
ghost use Rattle.dns_message.specs.Records.{shape_of, IsLawful};
ghost use Rattle.dns_message.specs.Standing.{GivesParsed, address_at, data_alone, data_at, data_by, filled, long_address_at, minfo_at, mx_at, names_at, numbered_at, one_name_at, opt_read, soa_at, srv_at};

use crate::option_list::is_option_list;
use crate::rdata::{RecordData, Shape, shape_of};
use crate::read::{octets_in, two_in};
use crate::zone::zone_in;
use dns_name::{FormReason, Name, Octets, ParseError, ParsedName, Rtype};
use std::alloc::Global;

/// A message, and the place that data in it goes up to.
#[derive(Clone, Copy)]
struct Window<'a> {
    message: &'a [u8],
    limit: usize,
    ghost within: { limit ≤ length message.now },
}

impl<'a> Window<'a> {
    /// The message up to the limit.
    fn octets(self) -> &'a [u8]
        ensures value { result.now ≡ take self.entry.limit self.entry.message.now }
        ensures len { length result.now ≡ self.entry.limit }
    {
        &self.message[..self.limit]
    }
}

/// Data that is read, and the place after it.
type FoundData = Result<(RecordData, usize), ParseError>;

/// The data of a type from a place up to a limit.
#[tactic(auto, unfolding(crate::specs::Standing::data_at))]
pub(crate) fn data_in(
    alloc: Global,
    message: &[u8],
    rtype: Rtype,
    limit: usize,
    at: usize,
) -> Result<RecordData, ParseError>
    requires order { at ≤ limit }
    requires limited { limit ≤ length message.now }
    requires short { limit ≤ at + 65535 }
    ensures value { GivesParsed result (data_at rtype message.now limit at) }
    ensures lawful { IfOk result IsLawful }
{
    filled(shaped(alloc, Window { message, limit }, rtype, at), limit)
}

impl RecordData {
    /// The data of a type that octets are, and no more. A pointer of a name in it is one into these octets.
    pub fn parse(alloc: Global, rtype: Rtype, octets: &[u8]) -> Result<RecordData, ParseError>
        requires { length octets.now ≤ 65535 }
        ensures value { GivesParsed result (data_alone rtype octets.now) }
        ensures lawful { IfOk result IsLawful }
    {
        data_in(alloc, octets, rtype, octets.len(), 0)
    }
}

/// Data that goes up to its limit.
fn filled(found: FoundData, limit: usize) -> Result<RecordData, ParseError>
    ensures { result ≡ filled limit found }
{
    let (rdata, end) = found?;
    if end < limit {
        Err(ParseError::Form(FormReason::Shape))
    } else {
        Ok(rdata)
    }
}

/// The data of a type from a place on.
fn shaped(alloc: Global, window: Window<'_>, rtype: Rtype, at: usize) -> FoundData
    requires order { at ≤ window.limit }
    requires short { window.limit ≤ at + 65535 }
    ensures value { GivesParsed result (data_by (shape_of rtype) rtype window.entry.message.now window.entry.limit at) }
    ensures lawful { IfOk result (λ r. IsLawful r.0) }
{
    match shape_of(rtype) {
        Shape::Address => address_in(window, at),
        Shape::LongAddress => long_address_in(window, at),
        Shape::OneName => one_name_in(alloc, window, rtype, at),
        Shape::Authority => soa_in(alloc, window, at),
        Shape::TwoNames => minfo_in(alloc, window, at),
        Shape::Exchange => mx_in(alloc, window, at),
        Shape::Service => srv_in(alloc, window, at),
        Shape::Options => opt_in(alloc, window.octets(), at),
        Shape::Other => other_in(alloc, window.octets(), rtype, at),
    }
}

/// A name, and the place after it.
fn name_in(alloc: Global, window: Window<'_>, at: usize) -> Result<(Name, usize), ParseError>
    requires { at ≤ window.limit }
    ensures value { GivesParsed result (name_within window.entry.message.now window.entry.limit at) }
    ensures within { IfOk result (λ r. r.1 ≤ window.entry.limit) }
{
    let (name, end) = ParsedName::at(window.message, window.limit, at)?;
    let name = name.to_name(alloc)?;
    Ok((name, end))
}

/// Two names, and the place after them.
#[tactic(auto, unfolding(crate::specs::Standing::names_at))]
fn names_in(
    alloc: Global,
    window: Window<'_>,
    at: usize,
) -> Result<((Name, Name), usize), ParseError>
    requires { at ≤ window.limit }
    ensures value { GivesParsed result (names_at window.entry.message.now window.entry.limit at) }
    ensures within { IfOk result (λ r. r.1 ≤ window.entry.limit) }
{
    let (first, at) = name_in(alloc, window, at)?;
    let (second, at) = name_in(alloc, window, at)?;
    Ok(((first, second), at))
}

/// A number and a name, and the place after them.
#[tactic(auto, unfolding(crate::specs::Standing::numbered_at))]
fn numbered_in(
    alloc: Global,
    window: Window<'_>,
    at: usize,
) -> Result<((u16, Name), usize), ParseError>
    requires { at ≤ window.limit }
    ensures { GivesParsed result (numbered_at window.entry.message.now window.entry.limit at) }
{
    let (number, at) = two_in(window.octets(), at)?;
    let (name, at) = name_in(alloc, window, at)?;
    Ok(((number, name), at))
}

#[tactic(auto, unfolding(crate::specs::Standing::address_at))]
fn address_in(window: Window<'_>, at: usize) -> FoundData
    requires { at ≤ window.limit }
    ensures value { GivesParsed result (address_at window.entry.message.now window.entry.limit at) }
    ensures lawful { IfOk result (λ r. IsLawful r.0) }
{
    let (part, end) = octets_in(window.octets(), 4, at)?;
    let mut octets = [0; 4];
    octets.copy_from_slice(part);
    Ok((RecordData::A(octets), end))
}

#[tactic(auto, unfolding(crate::specs::Standing::long_address_at))]
fn long_address_in(window: Window<'_>, at: usize) -> FoundData
    requires { at ≤ window.limit }
    ensures value { GivesParsed result (long_address_at window.entry.message.now window.entry.limit at) }
    ensures lawful { IfOk result (λ r. IsLawful r.0) }
{
    let (part, end) = octets_in(window.octets(), 16, at)?;
    let mut octets = [0; 16];
    octets.copy_from_slice(part);
    Ok((RecordData::Aaaa(octets), end))
}

#[tactic(auto, unfolding(crate::specs::Standing::one_name_at))]
fn one_name_in(alloc: Global, window: Window<'_>, rtype: Rtype, at: usize) -> FoundData
    requires named { shape_of rtype ≡ Shape.OneName }
    requires order { at ≤ window.limit }
    ensures value { GivesParsed result (one_name_at rtype window.entry.message.now window.entry.limit at) }
    ensures lawful { IfOk result (λ r. IsLawful r.0) }
{
    let (name, end) = name_in(alloc, window, at)?;
    Ok((RecordData::Named { rtype, name }, end))
}

#[tactic(auto, unfolding(crate::specs::Standing::soa_at))]
fn soa_in(alloc: Global, window: Window<'_>, at: usize) -> FoundData
    requires { at ≤ window.limit }
    ensures value { GivesParsed result (soa_at window.entry.message.now window.entry.limit at) }
    ensures lawful { IfOk result (λ r. IsLawful r.0) }
{
    let ((mname, rname), at) = names_in(alloc, window, at)?;
    let (numbers, at) = zone_in(window.octets(), at)?;
    Ok((RecordData::of_zone_start(mname, rname, numbers), at))
}

#[tactic(auto, unfolding(crate::specs::Standing::minfo_at))]
fn minfo_in(alloc: Global, window: Window<'_>, at: usize) -> FoundData
    requires { at ≤ window.limit }
    ensures value { GivesParsed result (minfo_at window.entry.message.now window.entry.limit at) }
    ensures lawful { IfOk result (λ r. IsLawful r.0) }
{
    let ((first, second), at) = names_in(alloc, window, at)?;
    Ok((RecordData::Minfo { first, second }, at))
}

#[tactic(auto, unfolding(crate::specs::Standing::mx_at))]
fn mx_in(alloc: Global, window: Window<'_>, at: usize) -> FoundData
    requires { at ≤ window.limit }
    ensures value { GivesParsed result (mx_at window.entry.message.now window.entry.limit at) }
    ensures lawful { IfOk result (λ r. IsLawful r.0) }
{
    let ((preference, exchange), at) = numbered_in(alloc, window, at)?;
    let mx = RecordData::Mx {
        preference,
        exchange,
    };
    Ok((mx, at))
}

#[tactic(auto, unfolding(crate::specs::Standing::srv_at))]
fn srv_in(alloc: Global, window: Window<'_>, at: usize) -> FoundData
    requires { at ≤ window.limit }
    ensures value { GivesParsed result (srv_at window.entry.message.now window.entry.limit at) }
    ensures lawful { IfOk result (λ r. IsLawful r.0) }
{
    let octets = window.octets();
    let (priority, at) = two_in(octets, at)?;
    let (weight, at) = two_in(octets, at)?;
    let ((port, target), at) = numbered_in(alloc, window, at)?;
    let srv = RecordData::Srv {
        priority,
        weight,
        port,
        target,
    };
    Ok((srv, at))
}

/// The option list from a place to the end.
fn opt_in(alloc: Global, message: &[u8], at: usize) -> FoundData
    requires order { at ≤ length message.now }
    requires short { length message.now ≤ at + 65535 }
    ensures value { GivesParsed result (opt_read (drop at message.now) (length message.now)) }
    ensures lawful { IfOk result (λ r. IsLawful r.0) }
{
    let octets = &message[at..];
    if !is_option_list(octets) {
        return Err(ParseError::ShortInput);
    }
    let octets = Octets::from_slice(alloc, octets)?;
    Ok((RecordData::Opt(octets), message.len()))
}

/// The octets from a place to the end.
fn other_in(alloc: Global, message: &[u8], rtype: Rtype, at: usize) -> FoundData
    requires order { at ≤ length message.now }
    requires short { length message.now ≤ at + 65535 }
    requires other { shape_of rtype ≡ Shape.Other }
    ensures value { GivesParsed result (Ok (RecordData.Unknown rtype (drop at message.now), length message.now)) }
    ensures lawful { IfOk result (λ r. IsLawful r.0) }
{
    let octets = Octets::from_slice(alloc, &message[at..])?;
    Ok((RecordData::Unknown { rtype, octets }, message.len()))
}
