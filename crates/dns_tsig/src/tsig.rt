//! TSIG records as they are read.

ghost use Rattle.std.specs.Prelude.{◌≡◌, ◌≤◌, ◌<◌, ◌^◌, length, IfOk};
ghost use Rattle.dns_tsig.specs.Reading.{codes_at, front_at, tsig_at, tsig_of};

use crate::octets::{six_in, sized_in, two_in};
use dns_name::{NameRef, ParseError, ParsedName};
use std::marker::Model;

/// A TSIG record as it stands in a message (RFC 8945, section 4.2).
#[derive(Drop)]
pub struct TsigRef<'a> {
    pub(crate) key: ParsedName<'a>,
    pub(crate) algorithm: NameRef<'a>,
    pub(crate) time: u64,
    pub(crate) fudge: u16,
    pub(crate) mac: &'a [u8],
    pub(crate) original_id: u16,
    pub(crate) error: u16,
    pub(crate) other: &'a [u8],
}

impl<'a> Model for TsigRef<'a> {
    ghost use Rattle.std.specs.Prelude.{◌<◌, ◌^◌, length};
    ghost use Rattle.dns_tsig.specs.Tsig.{Tsig};

    ghost Value = { Tsig };

    ghost view = { λ t. record {
      key = t.key;
      algorithm = t.algorithm;
      time = t.time;
      fudge = t.fudge;
      mac = t.mac.now;
      original_id = t.original_id;
      error = t.error;
      other = t.other.now;
    } };

    ghost invariant = { λ t. (t.time < 2 ^ 48) × (length t.mac.now < 2 ^ 16) × (length t.other.now < 2 ^ 16) };
}

impl<'a> TsigRef<'a> {
    /// The name of the key, which owns the record.
    pub fn key(&self) -> ParsedName<'a>
        ensures { result ≡ self.now.key }
    {
        self.key.clone().unwrap()
    }

    /// The name of the algorithm, as the record has it.
    pub fn algorithm(&self) -> NameRef<'a>
        ensures { result ≡ self.now.algorithm }
    {
        self.algorithm.clone().unwrap()
    }

    /// The time signed, in seconds since 1970.
    pub fn time(&self) -> u64
        ensures value { result ≡ self.now.time }
        ensures fits { result < 2 ^ 48 }
    {
        self.time
    }

    /// How many seconds the clocks of both sides may differ.
    pub fn fudge(&self) -> u16
        ensures { result ≡ self.now.fudge }
    {
        self.fudge
    }

    /// The MAC, or the front of it that was sent.
    pub fn mac(&self) -> &'a [u8]
        ensures value { result.now ≡ self.now.mac }
        ensures short { length result.now < 2 ^ 16 }
    {
        self.mac
    }

    /// The ID that the message had when it was signed.
    pub fn original_id(&self) -> u16
        ensures { result ≡ self.now.original_id }
    {
        self.original_id
    }

    /// The number of the error (RFC 8945, section 3), 0 for none.
    pub fn error(&self) -> u16
        ensures { result ≡ self.now.error }
    {
        self.error
    }

    /// The other data: at BADTIME the server's time, as six octets.
    pub fn other(&self) -> &'a [u8]
        ensures value { result.now ≡ self.now.other }
        ensures short { length result.now < 2 ^ 16 }
    {
        self.other
    }
}

/// The TSIG that the data of a key's record is, read whole.
pub(crate) fn tsig_in<'a>(key: ParsedName<'a>, octets: &'a [u8]) -> Option<TsigRef<'a>>
    ensures { result ≡ tsig_of key.entry octets.now }
{
    match tsig_at(key, octets) {
        Ok((tsig, end)) if end == octets.len() => Some(tsig),
        _ => None,
    }
}

/// The TSIG at the front of a record's data, and the place after it.
#[tactic(auto, unfolding(crate::specs::Reading::tsig_at))]
fn tsig_at<'a>(key: ParsedName<'a>, octets: &'a [u8]) -> Result<(TsigRef<'a>, usize), ParseError>
    ensures { result ≡ tsig_at key.entry octets.now }
{
    let ((algorithm, time, fudge), at) = front_in(octets, 0)?;
    let (mac, at) = sized_in(octets, at)?;
    let ((original_id, error), at) = codes_in(octets, at)?;
    let (other, at) = sized_in(octets, at)?;
    let tsig = TsigRef {
        key,
        algorithm,
        time,
        fudge,
        mac,
        original_id,
        error,
        other,
    };
    Ok((tsig, at))
}

/// The algorithm's name, the time and the fudge.
#[tactic(auto, unfolding(crate::specs::Reading::front_at))]
fn front_in(octets: &[u8], at: usize) -> Result<((NameRef<'_>, u64, u16), usize), ParseError>
    requires { at ≤ length octets.now }
    ensures value { result ≡ front_at octets.now at }
    ensures within { IfOk result (λ r. r.1 ≤ length octets.now) }
    ensures time { IfOk result (λ r. r.0.1 < 2 ^ 48) }
{
    let (algorithm, at) = NameRef::at(octets, at)?;
    let (time, at) = six_in(octets, at)?;
    let (fudge, at) = two_in(octets, at)?;
    Ok(((algorithm, time, fudge), at))
}

/// The original ID and the error.
#[tactic(auto, unfolding(crate::specs::Reading::codes_at))]
fn codes_in(octets: &[u8], at: usize) -> Result<((u16, u16), usize), ParseError>
    requires { at ≤ length octets.now }
    ensures value { result ≡ codes_at octets.now at }
    ensures within { IfOk result (λ r. r.1 ≤ length octets.now) }
{
    let (original_id, at) = two_in(octets, at)?;
    let (error, at) = two_in(octets, at)?;
    Ok(((original_id, error), at))
}
