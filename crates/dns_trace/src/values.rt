//! Numbers, addresses and octets that words spell.

ghost use Rattle.std.specs.Prelude.{◌≡◌, ◌<◌, ◌≤◌, IfOk};
ghost use Rattle.dns_trace.specs.Reading.{GivesLine};
ghost use Rattle.dns_trace.specs.Values.{number, num_of, port_of, hex_octets_of, quad_of, quad_word, addr_of, secret_of, size_or_none, yes_no_of};

use crate::reason::{LineError, Reason};
use crate::words::Words;
use dns_name::{IpAddr, Octets};
use hex::FromHexError;
use std::alloc::Global;

/// A number of 1 to `most` decimal digits that is below `top`. Leading zeros count as digits.
#[tactic(auto, unfolding(crate::specs::Values::number))]
pub fn decimal(word: &[u8], most: usize, top: u128) -> Result<u128, Reason>
    requires { most ≤ 20 }
    ensures value { result ≡ number most top word.now }
    ensures below { IfOk result (λ n. n < top) }
{
    if word.is_empty() || word.len() > most {
        return Err(Reason::Value);
    }
    let mut value: u128 = 0;
    for digit in word {
        if *digit < b'0' || *digit > b'9' {
            return Err(Reason::Value);
        }
        value = value * 10 + (*digit - b'0') as u128;
    }
    if value >= top {
        return Err(Reason::Value);
    }
    Ok(value)
}

/// A number of 1 to 20 digits below 2^64.
pub fn num(word: &[u8]) -> Result<u64, Reason>
    ensures { result ≡ num_of word.now }
{
    let value = decimal(word, 20, 18446744073709551616)?;
    Ok(value as u64)
}

/// A number of 1 to 20 digits below 65,536.
pub fn port(word: &[u8]) -> Result<u16, Reason>
    ensures { result ≡ port_of word.now }
{
    let value = decimal(word, 20, 65536)?;
    Ok(value as u16)
}

/// A number of 1 to 3 digits below 256.
fn octet(word: &[u8]) -> Result<u8, Reason>
    ensures { result ≡ number 3 256 word.now }
{
    let value = decimal(word, 3, 256)?;
    Ok(value as u8)
}

/// Octets from an even number of hexadecimal digits of either case, or none from `-` and from the empty word.
#[tactic(auto, unfolding(crate::specs::Values::hex_octets_of))]
pub fn octets(alloc: Global, word: &[u8]) -> Result<Octets, LineError>
    ensures { GivesLine (λ o. o) result (hex_octets_of word.now) }
{
    if word == b"-".as_slice() {
        return Ok(Octets::from_vec(Vec::new(alloc)));
    }
    match hex::decode(alloc, word) {
        Ok(octets) => Ok(Octets::from_vec(octets)),
        Err(FromHexError::OutOfMemory) => Err(LineError::OutOfMemory),
        Err(_) => Err(LineError::Refused(Reason::Value)),
    }
}

/// `yes` or `no`.
#[tactic(auto, unfolding(crate::specs::Values::yes_no_of))]
pub fn yes_no(word: &[u8]) -> Result<bool, Reason>
    ensures { result ≡ yes_no_of word.now }
{
    if word == b"yes".as_slice() {
        return Ok(true);
    }
    if word == b"no".as_slice() {
        return Ok(false);
    }
    Err(Reason::Value)
}

/// A size in octets of at most 65,535, or `none`.
#[tactic(auto, unfolding(crate::specs::Values::size_or_none))]
pub fn size(word: &[u8]) -> Result<Option<u16>, Reason>
    ensures { result ≡ size_or_none word.now }
{
    if word == b"none".as_slice() {
        return Ok(None);
    }
    let size = decimal(word, 20, 65536)?;
    Ok(Some(size as u16))
}

/// A secret of 16 octets from 32 hexadecimal digits of either case.
#[tactic(auto, unfolding(crate::specs::Values::secret_of))]
pub fn secret(word: &[u8]) -> Result<[u8; 16], Reason>
    ensures { result ≡ secret_of word.now }
{
    let mut octets = [0u8; 16];
    match hex::decode_to_slice(word, &mut octets) {
        Ok(()) => Ok(octets),
        Err(_) => Err(Reason::Value),
    }
}

#[tactic(auto, unfolding(crate::specs::Values::quad_of))]
fn quad_parts(parts: &Words) -> Result<IpAddr, Reason>
    ensures { result ≡ quad_of parts.now }
{
    if parts.len() != 4 {
        return Err(Reason::Value);
    }
    let first = octet(parts.word(0))?;
    let second = octet(parts.word(1))?;
    let third = octet(parts.word(2))?;
    let fourth = octet(parts.word(3))?;
    Ok(IpAddr::V4([first, second, third, fourth]))
}

/// An address as a dotted quad: four numbers of 1 to 3 digits below 256.
pub fn quad(alloc: Global, word: &[u8]) -> Result<IpAddr, LineError>
    ensures { GivesLine (λ a. a) result (quad_word word.now) }
{
    let parts = Words::parts(alloc, word, b'.')?;
    Ok(quad_parts(&parts)?)
}

/// An address: 32 hexadecimal digits of either case, or a dotted quad.
#[tactic(auto, unfolding(crate::specs::Values::addr_of))]
pub fn addr(alloc: Global, word: &[u8]) -> Result<IpAddr, LineError>
    ensures { GivesLine (λ a. a) result (addr_of word.now) }
{
    if word.len() == 32 {
        let mut octets = [0u8; 16];
        return match hex::decode_to_slice(word, &mut octets) {
            Ok(()) => Ok(IpAddr::V6(octets)),
            Err(_) => Err(LineError::Refused(Reason::Value)),
        };
    }
    quad(alloc, word)
}
