//! Addresses without the bits past a prefix.

ghost use Rattle.std.specs.Prelude.{◌≡◌, ◌≤◌, ◌*◌, IfOk, length, nat_lt, take, true};
ghost use Rattle.std.specs.List.{list_all};
ghost use Rattle.dns_kinds.specs.Subnet.{address, mask_octet, masked, octets_for};

use dns_name::{FormReason, ParseError};

#[tactic(auto, unfolding(crate::specs::Subnet::mask_octet))]
fn mask(s: u8, x: u8) -> u8
    ensures { result ≡ mask_octet s x }
{
    match s {
        0 => 0,
        1 => x / 128 * 128,
        2 => x / 64 * 64,
        3 => x / 32 * 32,
        4 => x / 16 * 16,
        5 => x / 8 * 8,
        6 => x / 4 * 4,
        7 => x / 2 * 2,
        _ => x,
    }
}

/// The octets that the first s bits take.
pub(crate) fn prefix(s: u8, octets: &[u8]) -> &[u8]
    requires { s ≤ 8 * length octets.now }
    ensures value { result.now ≡ take (octets_for s) octets.now }
    ensures fits { list_all (λ x. nat_lt x 256) octets.now ≡ true }
{
    &octets[..(s as usize + 7) / 8]
}

/// Clears the bits past the first s.
#[tactic(auto, using(crate::proofs::Masks::mask_step, crate::proofs::Masks::mask_end))]
fn clear(s: u8, a: &mut [u8])
    ensures { a.new ≡ masked s a.old }
{
    let mut left = s;
    'walk: for i in 0..a.len() {
        a[i] = mask(left, a[i]);
        left = left.saturating_sub(8);
    }
}

/// An array without the bits past the first s.
#[tactic(auto, using(crate::proofs::Twice::masked_again))]
pub(crate) fn masked_array<const N: usize>(s: u8, a: [u8; N]) -> [u8; N]
    ensures value { result ≡ masked s a.entry }
    ensures clear { masked s result ≡ result }
{
    let mut out = a;
    clear(s, &mut out);
    out
}

/// The address of N octets that octets stand for under s bits.
#[tactic(auto, unfolding(crate::specs::Subnet::address))]
pub(crate) fn address_of<const N: usize>(s: u8, octets: &[u8]) -> Result<[u8; N], ParseError>
    ensures value { result ≡ address N s octets.now }
    ensures within { IfOk result (λ a. (s ≤ 8 * N) × (masked s a ≡ a)) }
{
    let len = (s as usize + 7) / 8;
    if len > N || octets.len() != len {
        return Err(ParseError::Form(FormReason::AddressLength));
    }
    let mut out = [0u8; N];
    out[..len].copy_from_slice(octets);
    if masked_array(s, out) != out {
        return Err(ParseError::Form(FormReason::AddressBits));
    }
    Ok(out)
}
