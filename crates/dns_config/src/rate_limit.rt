//! Limits of what is sent over UDP.

use crate::prefix::Prefix;
use serde::Deserialize;

/// How many replies a second a client network is sent whole over UDP, by kind. A kind without a number isn't limited.
#[derive(Drop, Deserialize)]
#[serde(deny_unknown_fields, rename_all = "kebab-case")]
pub struct RateLimit {
    /// Replies with answers.
    pub answers: Option<u16>,
    /// Replies that refer to the name servers of a zone below.
    pub referrals: Option<u16>,
    /// Replies that say of one zone that there is no such name or no such type.
    pub negatives: Option<u16>,
    /// Replies with another response code than NOERROR and NXDOMAIN.
    pub errors: Option<u16>,
    /// How many seconds longer a network may stay limited.
    pub window: Option<u16>,
    /// Of how many limited replies one is sent truncated; 0 for none.
    pub slip: Option<u8>,
    /// How many bits of an IPv4 address are its network's.
    pub ipv4_bits: Option<u8>,
    /// How many bits of an IPv6 address are its network's.
    pub ipv6_bits: Option<u8>,
    /// Networks that are never limited.
    #[serde(default)]
    pub exempt: Vec<Prefix>,
    /// How many networks are counted at once for each kind.
    pub networks: Option<usize>,
}
