//! Numbers, times, addresses and strings that a word spells.

ghost use Rattle.std.specs.Prelude.{◌≡◌, ◌≤◌, ◌<◌, ◌+◌, ◌*◌, [], IfSome, IfOk, IfErr, MatchResult, Some, None, Ok, option_map};
ghost use Rattle.dns_word_values.specs.Values.{below, digit_more, decimal_after, number_below, long_address, period, quad, IsEscape, string_octets, unescape, unescaped_end, unit_seconds, units_after, units_more};

use std::alloc::{AllocError, Global};
use std::net::{Ipv4Addr, Ipv6Addr};

/// A number of decimal digits that is below `top`.
#[tactic(auto, unfolding(crate::specs::Values::number_below))]
pub fn decimal(word: &[u8], top: u64) -> Option<u64>
    requires { top ≤ 4294967296 }
    ensures value { result ≡ number_below top word.now }
    ensures below { IfSome result (λ n. n < top) }
{
    if word.is_empty() {
        return None;
    }
    let mut value: u64 = 0;
    for digit in word {
        if !digit.is_ascii_digit() {
            return None;
        }
        let next = value * 10 + (*digit - b'0') as u64;
        if next >= top {
            return None;
        }
        value = next;
    }
    Some(value)
}

/// The seconds of a unit.
fn unit_seconds(unit: u8) -> Option<u64>
    ensures value { result ≡ unit_seconds unit }
    ensures few { IfSome result (λ n. n ≤ 604800) }
{
    match unit {
        b'w' | b'W' => Some(604_800),
        b'd' | b'D' => Some(86_400),
        b'h' | b'H' => Some(3_600),
        b'm' | b'M' => Some(60),
        b's' | b'S' => Some(1),
        _ => None,
    }
}

/// A number below 2^32.
fn below(number: u64) -> Option<u64>
    ensures { result ≡ below 4294967296 number }
{
    if number < 4_294_967_296 {
        return Some(number);
    }
    None
}

/// A number with a digit more.
fn digit_more(number: Option<u64>, digit: u8) -> Option<u64>
    requires below { IfSome number (λ n. n < 4294967296) }
    requires digit { (48 ≤ digit) × (digit ≤ 57) }
    ensures value { result ≡ digit_more number digit }
    ensures below { IfSome result (λ n. n < 4294967296) }
{
    match number {
        None => Some((digit - b'0') as u64),
        Some(number) => below(number * 10 + (digit - b'0') as u64),
    }
}

/// The seconds with that many units more.
fn units_more(total: u64, number: Option<u64>, unit: u8) -> Option<u64>
    requires total { total < 4294967296 }
    requires below { IfSome number (λ n. n < 4294967296) }
    ensures value { result ≡ units_more total number unit }
    ensures below { IfSome result (λ n. n < 4294967296) }
{
    let number = number?;
    let seconds = unit_seconds(unit)?;
    below(total + number * seconds)
}

/// Seconds, or numbers with a unit each.
#[tactic(auto, unfolding(crate::specs::Values::period))]
pub fn seconds(word: &[u8]) -> Option<u64>
    ensures value { result ≡ period word.now }
    ensures below { IfSome result (λ n. n < 4294967296) }
{
    if word.is_empty() {
        return None;
    }
    match decimal(word, 4_294_967_296) {
        Some(number) => Some(number),
        None => units(word),
    }
}

/// Numbers with a unit each.
fn units(word: &[u8]) -> Option<u64>
    ensures value { result ≡ units_after 0 None word.now }
    ensures below { IfSome result (λ n. n < 4294967296) }
{
    let mut total: u64 = 0;
    let mut number: Option<u64> = None;
    for octet in word {
        if octet.is_ascii_digit() {
            number = Some(digit_more(number, *octet)?);
        } else {
            total = units_more(total, number, *octet)?;
            number = None;
        }
    }
    match number {
        None => Some(total),
        Some(_) => None,
    }
}

/// An IPv4 address.
#[tactic(auto, using(crate::proofs::Addresses::quad_found, crate::proofs::Addresses::quad_none))]
pub fn quad(word: &[u8]) -> Option<[u8; 4]>
    ensures { result ≡ quad word.now }
{
    match Ipv4Addr::parse_ascii(word) {
        Ok(address) => Some(address.octets()),
        Err(_) => None,
    }
}

/// An IPv6 address.
#[tactic(auto, using(crate::proofs::Addresses::long_found, crate::proofs::Addresses::long_none))]
pub fn long_address(word: &[u8]) -> Option<[u8; 16]>
    ensures { result ≡ long_address word.now }
{
    match Ipv6Addr::parse_ascii(word) {
        Ok(address) => Some(address.octets()),
        Err(_) => None,
    }
}

/// What of an escape came.
#[derive(Clone, Copy, Debug, PartialEq, Eq)]
pub(crate) enum Escape {
    Clear,
    Backslash,
    /// The first digit.
    Hundreds(u8),
    /// The number of the first two.
    Tens(u8),
}

/// One octet of a string more; none if it can't stand there.
fn unescape(escape: Escape, octets: &mut Vec<u8>, octet: u8) -> Result<Option<Escape>, AllocError>
    requires { IsEscape escape }
    ensures value { IfOk result (λ o. option_map (λ m. (m, octets.new.items)) o ≡ unescape escape octets.old.items octet) }
    ensures escape { IfOk result (λ o. IfSome o IsEscape) }
{
    match escape {
        Escape::Clear => {
            if octet == b'\\' {
                return Ok(Some(Escape::Backslash));
            }
        }
        Escape::Backslash => {
            if octet.is_ascii_digit() {
                return Ok(Some(Escape::Hundreds(octet - b'0')));
            }
        }
        Escape::Hundreds(number) => {
            if octet.is_ascii_digit() {
                return Ok(Some(Escape::Tens(number * 10 + (octet - b'0'))));
            }
            return Ok(None);
        }
        Escape::Tens(number) => return last_digit(number, octets, octet),
    }
    octets.push(octet)?;
    Ok(Some(Escape::Clear))
}

/// The last digit of an escape.
fn last_digit(number: u8, octets: &mut Vec<u8>, digit: u8) -> Result<Option<Escape>, AllocError>
    requires { number < 100 }
    ensures value { IfOk result (λ o. option_map (λ m. (m, octets.new.items)) o ≡ unescape (Escape.Tens number) octets.old.items digit) }
    ensures escape { IfOk result (λ o. IfSome o IsEscape) }
{
    if !digit.is_ascii_digit() {
        return Ok(None);
    }
    let value = number as u16 * 10 + (digit - b'0') as u16;
    if value > 255 {
        return Ok(None);
    }
    octets.push(value as u8)?;
    Ok(Some(Escape::Clear))
}

fn ends(escape: Escape, octets: Vec<u8>) -> Option<Vec<u8>>
    ensures { option_map (λ v. v.items) result ≡ unescaped_end escape octets.items }
{
    match escape {
        Escape::Clear => Some(octets),
        _ => None,
    }
}

/// The octets that a string spells.
pub fn string(alloc: Global, word: &[u8]) -> Result<Option<Vec<u8>>, AllocError>
    ensures { IfOk result (λ o. option_map (λ v. v.items) o ≡ string_octets word.now) }
{
    let mut octets = Vec::new(alloc);
    let mut escape = Escape::Clear;
    for octet in word {
        let Some(next) = unescape(escape, &mut octets, *octet)? else {
            return Ok(None);
        };
        escape = next;
    }
    Ok(ends(escape, octets))
}
