//! Keys and values of service parameters.

ghost use Rattle.std.specs.Prelude.{◌≡◌, ◌≤◌, IfOk, [], false, length, nat_eq, option_map};
ghost use Rattle.std.specs.List.{flat_map, list_any};
ghost use Rattle.dns_name.specs.Place.{two};
ghost use Rattle.dns_presentation.specs.ServiceParams.{item_behind, item_step, items_of, key_place, mandatory_octets, no_octets, numbered_key, param_key, param_value, port_octets, with_key, with_keys};
ghost use Rattle.dns_presentation.specs.Strings.{ok};
ghost use Rattle.base64.specs.GeneralPurpose.{decode_of as base64_of};
ghost use Rattle.base64.specs.Engines.{standard};

use crate::types::front;
use base64::DecodeAllocError;
use base64::engine::general_purpose::STANDARD;
use dns_word_values::{decimal, long_address, quad};
use std::alloc::{AllocError, Global};

/// What a list of a parameter is of.
#[derive(Clone, Copy, Debug, PartialEq, Eq)]
pub(crate) enum Item {
    /// The number of a key.
    Key,
    /// A protocol after its length.
    Protocol,
    /// An IPv4 address.
    Short,
    /// An IPv6 address.
    Long,
}

/// The number of a key that is named by it.
fn numbered_key(word: &[u8]) -> Option<u16>
    ensures { result ≡ numbered_key word.now }
{
    if front(word, 3) == b"key".as_slice() {
        let number = decimal(&word[3..], 65535)?;
        return Some(number as u16);
    }
    None
}

/// The number of a key.
pub(crate) fn param_key(word: &[u8]) -> Option<u16>
    ensures { result ≡ param_key word.now }
{
    if word == b"mandatory".as_slice() {
        Some(0)
    } else if word == b"alpn".as_slice() {
        Some(1)
    } else if word == b"no-default-alpn".as_slice() {
        Some(2)
    } else if word == b"port".as_slice() {
        Some(3)
    } else if word == b"ipv4hint".as_slice() {
        Some(4)
    } else if word == b"ech".as_slice() {
        Some(5)
    } else if word == b"ipv6hint".as_slice() {
        Some(6)
    } else if word == b"dohpath".as_slice() {
        Some(7)
    } else if word == b"ohttp".as_slice() {
        Some(8)
    } else {
        numbered_key(word)
    }
}

/// Appends an item; none if the word is none.
fn push_item(item: Item, word: &[u8], octets: &mut Vec<u8>) -> Result<Option<()>, AllocError>
    ensures { IfOk result (λ o. option_map (λ _. octets.new.items) o ≡ item_behind item octets.old.items word.now) }
{
    match item {
        Item::Key => {
            let Some(key) = param_key(word) else {
                return Ok(None);
            };
            octets.extend_from_slice(&[(key / 256) as u8, (key % 256) as u8])?;
        }
        Item::Protocol => {
            if word.is_empty() || word.len() > 255 {
                return Ok(None);
            }
            octets.push(word.len() as u8)?;
            octets.extend_from_slice(word)?;
        }
        Item::Short => {
            let Some(address) = quad(word) else {
                return Ok(None);
            };
            octets.extend_from_slice(&address)?;
        }
        Item::Long => {
            let Some(address) = long_address(word) else {
                return Ok(None);
            };
            octets.extend_from_slice(&address)?;
        }
    }
    Ok(Some(()))
}

/// Appends the item that a comma ends, and begins another.
fn end_item(
    item: Item,
    octets: &mut Vec<u8>,
    word: &mut Vec<u8>,
) -> Result<Option<bool>, AllocError>
    ensures { IfOk result (λ o. option_map (λ b. (b, octets.new.items, word.new.items)) o
        ≡ item_step item false octets.old.items word.old.items 44) }
{
    let Some(_) = push_item(item, word.as_slice(), octets)? else {
        return Ok(None);
    };
    word.clear();
    Ok(Some(false))
}

/// One octet of a list more, and whether it is a backslash; none if an item is none.
fn take_octet(
    item: Item,
    escaped: bool,
    octets: &mut Vec<u8>,
    word: &mut Vec<u8>,
    octet: u8,
) -> Result<Option<bool>, AllocError>
    ensures { IfOk result (λ o. option_map (λ b. (b, octets.new.items, word.new.items)) o
        ≡ item_step item escaped octets.old.items word.old.items octet) }
{
    if !escaped {
        if octet == b'\\' {
            return Ok(Some(true));
        }
        if octet == b',' {
            return end_item(item, octets, word);
        }
    }
    word.push(octet)?;
    Ok(Some(false))
}

/// The octets of items that commas part.
fn items(alloc: Global, item: Item, value: &[u8]) -> Result<Option<Vec<u8>>, AllocError>
    ensures { IfOk result (λ o. option_map (λ v. v.items) o ≡ items_of item value.now) }
{
    let mut octets: Vec<u8> = Vec::new(alloc);
    let mut word: Vec<u8> = Vec::new(alloc);
    let mut escaped = false;
    for octet in value {
        let Some(next) = take_octet(item, escaped, &mut octets, &mut word, *octet)? else {
            return Ok(None);
        };
        escaped = next;
    }
    if escaped {
        return Ok(None);
    }
    let Some(_) = push_item(item, word.as_slice(), &mut octets)? else {
        return Ok(None);
    };
    Ok(Some(octets))
}

/// No octets, if there are none.
fn no_octets(alloc: Global, value: &[u8]) -> Option<Vec<u8>>
    ensures { option_map (λ v. v.items) result ≡ no_octets value.now }
{
    if value.is_empty() {
        return Some(Vec::new(alloc));
    }
    None
}

/// The octets of a port.
fn port_octets(alloc: Global, value: &[u8]) -> Result<Option<Vec<u8>>, AllocError>
    ensures { IfOk result (λ o. option_map (λ v. v.items) o ≡ port_octets value.now) }
{
    let Some(port) = decimal(value, 65536) else {
        return Ok(None);
    };
    let octets = Vec::from_slice(alloc, &[(port / 256) as u8, (port % 256) as u8])?;
    Ok(Some(octets))
}

/// The octets of base64.
fn base64_octets(alloc: Global, value: &[u8]) -> Result<Option<Vec<u8>>, AllocError>
    ensures { IfOk result (λ o. option_map (λ v. v.items) o ≡ ok (base64_of standard value.now)) }
{
    match STANDARD.decode(alloc, value) {
        Ok(octets) => Ok(Some(octets)),
        Err(DecodeAllocError::OutOfMemory) => Err(AllocError),
        Err(_) => Ok(None),
    }
}

/// Whether a key stands among keys.
fn is_among(keys: &[u16], key: u16) -> bool
    ensures { result ≡ list_any (λ k. nat_eq k key) keys.now }
{
    keys.contains(&key)
}

/// Where a key belongs among keys that rise.
fn key_place(keys: &[u16], key: u16) -> usize
    ensures value { result ≡ key_place key keys.now }
    ensures within { result ≤ length keys.now }
{
    let mut at = 0;
    for other in keys {
        if key < *other {
            return at;
        }
        at += 1;
    }
    at
}

/// Takes a key in at its place; none if it stands there already, or is `mandatory`.
fn add_key(keys: &mut Vec<u16>, key: u16) -> Result<Option<()>, AllocError>
    ensures { IfOk result (λ o. option_map (λ _. keys.new.items) o ≡ with_key keys.old.items key) }
{
    if key == 0 || is_among(keys.as_slice(), key) {
        return Ok(None);
    }
    let at = key_place(keys.as_slice(), key);
    keys.insert(at, key)?;
    Ok(Some(()))
}

/// The keys of two octets each, in rising order.
fn rising_keys(alloc: Global, octets: &[u8]) -> Result<Option<Vec<u16>>, AllocError>
    ensures { IfOk result (λ o. option_map (λ v. v.items) o ≡ with_keys [] octets.now) }
{
    let mut keys: Vec<u16> = Vec::new(alloc);
    let mut rest = octets;
    'keys: loop {
        let [high, low, ..] = rest else {
            return Ok(if rest.is_empty() { Some(keys) } else { None });
        };
        let Some(_) = add_key(&mut keys, 256 * *high as u16 + *low as u16)? else {
            return Ok(None);
        };
        rest = &rest[2..];
    }
}

/// Keys as octets, two each.
fn key_octets(alloc: Global, keys: &[u16]) -> Result<Vec<u8>, AllocError>
    ensures { IfOk result (λ octets. octets.items ≡ flat_map two keys.now) }
{
    let mut octets: Vec<u8> = Vec::new(alloc);
    for key in keys {
        octets.extend_from_slice(&[(*key / 256) as u8, (*key % 256) as u8])?;
    }
    Ok(octets)
}

/// The octets of the keys that a client must know.
fn mandatory_octets(alloc: Global, value: &[u8]) -> Result<Option<Vec<u8>>, AllocError>
    ensures { IfOk result (λ o. option_map (λ v. v.items) o ≡ mandatory_octets value.now) }
{
    let Some(octets) = items(alloc, Item::Key, value)? else {
        return Ok(None);
    };
    let Some(keys) = rising_keys(alloc, octets.as_slice())? else {
        return Ok(None);
    };
    Ok(Some(key_octets(alloc, keys.as_slice())?))
}

/// The octets of the value of a key.
pub(crate) fn param_value(
    alloc: Global,
    key: u16,
    value: &[u8],
) -> Result<Option<Vec<u8>>, AllocError>
    ensures { IfOk result (λ o. option_map (λ v. v.items) o ≡ param_value key value.now) }
{
    match key {
        0 => mandatory_octets(alloc, value),
        1 => items(alloc, Item::Protocol, value),
        2 | 8 => Ok(no_octets(alloc, value)),
        3 => port_octets(alloc, value),
        4 => items(alloc, Item::Short, value),
        5 => base64_octets(alloc, value),
        6 => items(alloc, Item::Long, value),
        _ => {
            let octets = Vec::from_slice(alloc, value)?;
            Ok(Some(octets))
        }
    }
}
