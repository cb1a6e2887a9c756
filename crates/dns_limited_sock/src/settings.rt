//! The settings of a configuration.

ghost use Rattle.std.specs.Prelude.{◌≡◌, IfOk, map};
ghost use Rattle.std.specs.NonZero.{non_zero_usize_get};
ghost use Rattle.dns_limited_sock.specs.Settings.{IsSettingsOf, capacity_of, exempt_network, rate_in};

use dns_config::{Prefix, RateLimit};
use dns_name::OutOfMemory;
use dns_networks::Network;
use dns_rate_limit::{Rate, Settings};
use std::alloc::Global;
use std::num::NonZeroUsize;

/// How many seconds longer a network stays limited, if nothing is said.
const WINDOW: u16 = 15;

/// Of how many limited replies one is sent truncated, if nothing is said.
const SLIP: u8 = 2;

/// How many bits of an IPv4 address are its network's, if nothing is said.
const IPV4_BITS: u8 = 24;

/// How many bits of an IPv6 address are its network's, if nothing is said.
const IPV6_BITS: u8 = 56;

/// How many networks are counted for each kind of reply, if nothing is said.
const NETWORKS: usize = 20_000;

/// How many networks may be counted for each kind of reply.
const MOST_NETWORKS: usize = 1_000_000;

/// What is limited, and under which secret a server cookie is good, if there are cookies.
#[derive(Drop)]
pub struct LimitSettings {
    pub(crate) settings: Settings,
    pub(crate) secret: Option<[u8; 16]>,
}

/// The rate of a kind that has so many replies a second, if it is limited.
fn rate_in(limit: &RateLimit, per_second: Option<u16>) -> Option<Rate>
    ensures { result ≡ rate_in limit.now per_second }
{
    match per_second {
        Some(per_second) => Some(Rate {
            per_second,
            window: limit.window.unwrap_or(WINDOW),
            slip: limit.slip.unwrap_or(SLIP),
        }),
        None => None,
    }
}

/// The networks that are never limited.
fn exempt_of(alloc: Global, prefixes: &[Prefix]) -> Result<Vec<Network>, OutOfMemory>
    ensures { IfOk result (λ networks. networks.items ≡ map exempt_network prefixes.now) }
{
    let networks = prefixes
        .iter()
        .map(|prefix| Network {
            address: prefix.address,
            bits: prefix.bits,
        })
        .collect(alloc)?;
    Ok(networks)
}

/// How many networks are counted.
fn capacity_of(limit: &RateLimit) -> NonZeroUsize
    ensures { non_zero_usize_get result ≡ capacity_of limit.now.networks }
{
    let count = limit.networks.unwrap_or(NETWORKS).clamp(1, MOST_NETWORKS);
    NonZeroUsize::new(count).unwrap_or(NonZeroUsize::MIN)
}

impl LimitSettings {
    /// The settings that a configuration says, with the secret of its cookies.
    pub fn of(
        alloc: Global,
        limit: &RateLimit,
        secret: Option<[u8; 16]>,
    ) -> Result<LimitSettings, OutOfMemory>
        ensures settings { IfOk result (λ s. IsSettingsOf limit.now s.settings) }
        ensures secret { IfOk result (λ s. s.secret ≡ secret) }
    {
        let settings = Settings {
            answers: rate_in(limit, limit.answers),
            referrals: rate_in(limit, limit.referrals),
            negatives: rate_in(limit, limit.negatives),
            errors: rate_in(limit, limit.errors),
            ipv4_bits: limit.ipv4_bits.unwrap_or(IPV4_BITS),
            ipv6_bits: limit.ipv6_bits.unwrap_or(IPV6_BITS),
            exempt: exempt_of(alloc, limit.exempt.as_slice())?,
            capacity: capacity_of(limit),
        };
        Ok(LimitSettings { settings, secret })
    }
}
