//! The rules of a configuration.

ghost use Rattle.std.specs.Prelude.{◌≡◌, IfErr, IfOk, Option, is_some};
ghost use Rattle.std.specs.List.{list_any};
ghost use Rattle.dns_key_access.specs.Rules.{AreAccesses, HasRuleError, access_in, peer_access, place_in, wants_key};

use crate::access::Access;
use crate::rule_error::RuleError;
use dns_authority::Network;
use dns_config::{AllowedNetwork, KeyName, Peer};
use dns_peer_keys::PeerKeys;
use std::alloc::Global;

/// How many bits the longest address has.
const ALL_BITS: u8 = 128;

/// The place of the key that a rule names, or that it names none; nothing if no key has the name.
fn place_in(keys: &PeerKeys, name: &Option<KeyName>) -> Option<Option<usize>>
    ensures { result ≡ place_in keys.now name.now }
{
    match name {
        None => Some(None),
        Some(named) => match keys.get(&named.name) {
            Some((place, _)) => Some(Some(place)),
            None => None,
        },
    }
}

/// What a rule permits; nothing if it names a key that isn't there.
fn access_in(keys: &PeerKeys, rule: &AllowedNetwork) -> Option<Access>
    ensures { result ≡ access_in keys.now rule.now }
{
    let network = Network {
        address: rule.network.address,
        bits: rule.network.bits,
    };
    match place_in(keys, &rule.key) {
        Some(key) => Some(Access { network, key }),
        None => None,
    }
}

/// What permits another server: its address, and the key that is shared with it. Nothing if it names a key that isn't there.
pub fn peer_access(keys: &PeerKeys, peer: &Peer) -> Option<Access>
    ensures { result ≡ peer_access keys.now peer.now }
{
    let network = Network {
        address: peer.address.ip,
        bits: ALL_BITS,
    };
    match place_in(keys, &peer.key) {
        Some(key) => Some(Access { network, key }),
        None => None,
    }
}

/// Whether one of some rules wants a key.
pub fn wants_key(rules: &[AllowedNetwork]) -> bool
    ensures { result ≡ wants_key rules.now }
{
    for rule in rules {
        if rule.key.is_some() {
            return true;
        }
    }
    false
}

/// What some rules permit, in their order.
#[tactic(auto, using(crate::proofs::RulesMade::one_made, crate::proofs::RulesMade::all_made))]
pub fn zone_access(
    alloc: Global,
    keys: &PeerKeys,
    rules: &[AllowedNetwork],
) -> Result<Vec<Access>, RuleError>
    ensures ok { IfOk result (λ made. AreAccesses keys.now rules.now made.items) }
    ensures fault { IfErr result (HasRuleError keys.now rules.now) }
{
    let mut made = Vec::new(alloc);
    'rules: for place in 0..rules.len() {
        match access_in(keys, &rules[place]) {
            Some(access) => {
                if made.push(access).is_err() {
                    return Err(RuleError::OutOfMemory);
                }
            }
            None => return Err(RuleError::UnknownKey(place)),
        }
    }
    Ok(made)
}
