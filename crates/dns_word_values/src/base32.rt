//! Base32 of hashed names.

ghost use Rattle.std.specs.Prelude.{◌≡◌, ◌≤◌, ◌<◌, ◌+◌, ◌*◌, IfOk, length, option_map};
ghost use Rattle.std.specs.List.{list_all};
ghost use Rattle.dns_word_values.specs.Base32.{base32_group, base32_groups, base32_octets, base32_value, is_base32_digit};

use std::alloc::{AllocError, Global};

/// Whether an octet is a digit.
fn is_base32_digit(octet: u8) -> bool
    ensures { result ≡ is_base32_digit octet }
{
    matches!(octet, b'0'..=b'9' | b'A'..=b'V' | b'a'..=b'v')
}

/// Whether all octets are digits.
fn are_digits(word: &[u8]) -> bool
    ensures { result ≡ list_all is_base32_digit word.now }
{
    for octet in word {
        if !is_base32_digit(*octet) {
            return false;
        }
    }
    true
}

/// The five bits of a digit.
fn base32_value(digit: u8) -> u8
    ensures value { result ≡ base32_value digit }
    ensures few { result < 32 }
{
    match digit {
        b'0'..=b'9' => digit - b'0',
        b'A'..=b'V' => digit - b'A' + 10,
        b'a'..=b'v' => digit - b'a' + 10,
        _ => 0,
    }
}

/// The octets of the eight digits from a place on.
#[tactic(auto, unfolding(crate::specs::Base32::base32_group))]
fn base32_group(word: &[u8], at: usize) -> [u8; 5]
    requires { at + 8 ≤ length word.now }
    ensures { result ≡ base32_group word.now at }
{
    let a = base32_value(word[at]);
    let b = base32_value(word[at + 1]);
    let c = base32_value(word[at + 2]);
    let d = base32_value(word[at + 3]);
    let e = base32_value(word[at + 4]);
    let f = base32_value(word[at + 5]);
    let g = base32_value(word[at + 6]);
    let h = base32_value(word[at + 7]);
    [
        8 * a + b / 4,
        64 * (b % 4) + 2 * c + d / 16,
        16 * (d % 16) + e / 2,
        128 * (e % 2) + 4 * f + g / 8,
        32 * (g % 8) + h,
    ]
}

/// The octets of that many groups of eight digits.
fn base32_groups(alloc: Global, word: &[u8], count: usize) -> Result<Vec<u8>, AllocError>
    requires { 8 * count ≤ length word.now }
    ensures { IfOk result (λ v. v.items ≡ base32_groups word.now count) }
{
    let mut octets = Vec::new(alloc);
    for group in 0..count {
        octets.extend_from_slice(&base32_group(word, 8 * group))?;
    }
    Ok(octets)
}

/// The octets of digits, in whole groups of eight.
pub fn base32_octets(alloc: Global, word: &[u8]) -> Result<Option<Vec<u8>>, AllocError>
    ensures { IfOk result (λ o. option_map (λ v. v.items) o ≡ base32_octets word.now) }
{
    if word.len() % 8 != 0 || !are_digits(word) {
        return Ok(None);
    }
    let octets = base32_groups(alloc, word, word.len() / 8)?;
    Ok(Some(octets))
}
