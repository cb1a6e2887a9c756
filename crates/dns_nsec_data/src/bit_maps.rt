//! The types of type bit maps (RFC 4034, section 4.1.2).

ghost use Rattle.std.specs.Prelude.{◌≡◌, ◌++◌, ◌*◌, ◌≤◌, ◌<◌, length, IfOk, OnOk, MatchOption};
ghost use Rattle.dns_nsec_data.specs.BitMaps.{BeginWith, BeginWithNone, SayNone, SayTypes, bit_type, first_types, has_bit};

use dns_name::OutOfMemory;
use std::alloc::Global;

/// A window block of type bit maps, and the octets after it.
#[derive(Drop)]
struct Block<'a> {
    window: u8,
    bitmap: &'a [u8],
    left: &'a [u8],
}

/// Whether a bit of a bitmap is set.
fn has_bit(bitmap: &[u8], bit: u16) -> bool
    requires { bit < 8 * length bitmap.now }
    ensures { result ≡ has_bit bitmap.now bit }
{
    let octet = bitmap[bit as usize / 8];
    (octet >> (7 - bit % 8)) % 2 == 1
}

/// Appends the type of a bit of a bitmap, if it is set. The bits begin with a type.
fn push_bit(bitmap: &[u8], bit: u16, first: u16, types: &mut Vec<u16>) -> Result<(), OutOfMemory>
    requires within { bit < 8 * length bitmap.now }
    requires few { length bitmap.now ≤ 32 }
    requires first { first ≤ 65280 }
    ensures { OnOk result (types.new.items ≡ types.old.items ++ bit_type bitmap.now first bit) }
{
    if !has_bit(bitmap, bit) {
        return Ok(());
    }
    types.push(first + bit)?;
    Ok(())
}

/// Appends the types whose bits a bitmap sets. Its bits begin with a type.
fn push_types(bitmap: &[u8], first: u16, types: &mut Vec<u16>) -> Result<(), OutOfMemory>
    requires first { first ≤ 65280 }
    requires few { length bitmap.now ≤ 32 }
    ensures { OnOk result (types.new.items ≡ types.old.items ++ first_types bitmap.now first (8 * length bitmap.now)) }
{
    for bit in 0..8 * bitmap.len() as u16 {
        push_bit(bitmap, bit, first, types)?;
    }
    Ok(())
}

/// The first block of octets, if its number isn't below one.
fn block_in(octets: &[u8], low: u16) -> Option<Block<'_>>
    ensures { MatchOption result (BeginWithNone low octets.now) (λ b. BeginWith low octets.now b.window b.bitmap.now b.left.now) }
{
    if octets.len() < 2 {
        return None;
    }
    let window = octets[0];
    let length = octets[1] as usize;
    let rest = &octets[2..];
    if (window as u16) < low {
        return None;
    }
    if length == 0 {
        return None;
    }
    if length > 32 {
        return None;
    }
    if length > rest.len() {
        return None;
    }
    if rest[length - 1] == 0 {
        return None;
    }
    Some(Block {
        window,
        bitmap: &rest[..length],
        left: &rest[length..],
    })
}

/// The types of type bit maps, in rising order; none if octets are no such ones. No octets list no type.
pub fn types_in(alloc: Global, octets: &[u8]) -> Result<Option<Vec<u16>>, OutOfMemory>
    ensures { IfOk result (λ o. MatchOption o (SayNone octets.now) (λ v. SayTypes octets.now v.items)) }
{
    let mut types = Vec::new(alloc);
    let mut left = octets;
    let mut low = 0u16;
    'each: while !left.is_empty() {
        let Some(block) = block_in(left, low) else {
            return Ok(None);
        };
        push_types(block.bitmap, 256 * block.window as u16, &mut types)?;
        low = block.window as u16 + 1;
        left = block.left;
    }
    Ok(Some(types))
}
