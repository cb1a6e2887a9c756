//! Laws of kinds.

ghost use Rattle.std.specs.Prelude.{◌≡◌, ℕ, List, Option as Maybe};
ghost use Rattle.std.specs.Option.{option_cmp};
ghost use Rattle.std.specs.Ordering.{nat_cmp};
ghost use Rattle.dns_name.specs.declared.address.IpAddr.{IpAddr};
ghost use Rattle.dns_kinds.specs.Subnet.{Subnet, within_address, masked, masked_addr, subnet_cmp};

use crate::expire::Expire;
use crate::keepalive::TcpKeepalive;
use crate::subnet::ClientSubnet;

/// Clearing the bits past a prefix twice is clearing them once.
pub fn masking_twice_is_masking_once()
    ensures octets { (s : ℕ) (octets : List ℕ) → masked s (masked s octets) ≡ masked s octets }
    ensures address { (s : ℕ) (a : IpAddr) → masked_addr s (masked_addr s a) ≡ masked_addr s a }
    ensures subnet { (s c : ℕ) (a : IpAddr) → within_address s c (within_address s c a).addr ≡ within_address s c a }
{}

/// Subnets are ordered by what their readers give: source prefix, scope prefix, address; expire times and timeouts by
/// their number, and none is least.
pub fn order_is_that_of_values()
    ensures subnet { (a b : Subnet) → ⟦<ClientSubnet as Ord>⟧.cmp a b ≡ subnet_cmp a b }
    ensures expire { (a b : Maybe ℕ) → ⟦<Expire as Ord>⟧.cmp a b ≡ option_cmp nat_cmp a b }
    ensures keepalive { (a b : Maybe ℕ) → ⟦<TcpKeepalive as Ord>⟧.cmp a b ≡ option_cmp nat_cmp a b }
{}
