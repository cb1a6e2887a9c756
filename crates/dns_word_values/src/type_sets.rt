//! Sets of types.

ghost use Rattle.std.specs.Prelude.{◌≡◌, ◌≤◌, ◌<◌, ◌++◌, IfOk, OnOk, nat_eq};
ghost use Rattle.std.specs.List.{list_any};
ghost use Rattle.dns_word_values.specs.TypeSets.{bits_from, eight_bits, octets_to, size_after, type_bit, type_set, window_octets, windows_to};

use std::alloc::{AllocError, Global};

/// Whether a type is among others.
fn is_among(types: &[u16], wanted: u16) -> bool
    ensures { result ≡ list_any (λ u. nat_eq u wanted) types.now }
{
    for rtype in types {
        if *rtype == wanted {
            return true;
        }
    }
    false
}

/// The bit of a type.
fn type_bit(types: &[u16], rtype: u16) -> u8
    ensures value { result ≡ type_bit types.now rtype }
    ensures few { result ≤ 1 }
{
    if is_among(types, rtype) {
        return 1;
    }
    0
}

/// The bits of eight types from this one on.
fn eight_bits(types: &[u16], rtype: u16) -> u8
    requires { rtype < 65529 }
    ensures { result ≡ eight_bits types.now rtype }
{
    128 * type_bit(types, rtype)
        + 64 * type_bit(types, rtype + 1)
        + 32 * type_bit(types, rtype + 2)
        + 16 * type_bit(types, rtype + 3)
        + 8 * type_bit(types, rtype + 4)
        + 4 * type_bit(types, rtype + 5)
        + 2 * type_bit(types, rtype + 6)
        + type_bit(types, rtype + 7)
}

/// How many octets of a window reach a type.
fn octets_to(window: u16, rtype: u16) -> u8
    ensures value { result ≡ octets_to window rtype }
    ensures few { result ≤ 32 }
{
    if rtype / 256 == window {
        return (rtype % 256 / 8 + 1) as u8;
    }
    0
}

/// How many octets of a window reach its last type.
fn window_size(types: &[u16], window: u16) -> u8
    ensures value { result ≡ size_after window 0 types.now }
    ensures few { result ≤ 32 }
{
    let mut size = 0u8;
    for rtype in types {
        let reached = octets_to(window, *rtype);
        if size < reached {
            size = reached;
        }
    }
    size
}

/// Appends that many octets, from a type on.
fn push_bits(types: &[u16], rtype: u16, size: u8, octets: &mut Vec<u8>) -> Result<(), AllocError>
    requires first { rtype ≤ 65280 }
    requires few { size ≤ 32 }
    ensures { OnOk result (octets.new.items ≡ octets.old.items ++ bits_from types.now rtype size) }
{
    for place in 0..size {
        octets.push(eight_bits(types, rtype + 8 * place as u16))?;
    }
    Ok(())
}

/// Appends a window, if it has a type.
fn push_window(types: &[u16], window: u16, octets: &mut Vec<u8>) -> Result<(), AllocError>
    requires { window < 256 }
    ensures { OnOk result (octets.new.items ≡ octets.old.items ++ window_octets types.now window) }
{
    let size = window_size(types, window);
    if size == 0 {
        return Ok(());
    }
    octets.push(window as u8)?;
    octets.push(size)?;
    push_bits(types, 256 * window, size, octets)
}

/// The octets of that many windows.
#[tactic(auto, unfolding(crate::specs::TypeSets::windows_to))]
fn windows(alloc: Global, types: &[u16], count: u16) -> Result<Vec<u8>, AllocError>
    requires { count ≤ 256 }
    ensures { IfOk result (λ v. v.items ≡ windows_to types.now count) }
{
    let mut octets = Vec::new(alloc);
    for window in 0..count {
        push_window(types, window, &mut octets)?;
    }
    Ok(octets)
}

/// The octets of a set of types.
#[tactic(auto, unfolding(crate::specs::TypeSets::type_set))]
pub fn type_set(alloc: Global, types: &[u16]) -> Result<Vec<u8>, AllocError>
    ensures { IfOk result (λ v. v.items ≡ type_set types.now) }
{
    windows(alloc, types, 256)
}
