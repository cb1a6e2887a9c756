//! Limits of a proxy.

ghost use Rattle.std.specs.Prelude.{◌≡◌};
ghost use Rattle.dns_proxy_config.specs.Proxies.{client_limits, client_timeouts, queries_of, upstream_of, when_full_of};

use crate::when_full::WhenFull;
use dns_config::{Endpoint, Limits as ServerLimits, Timeouts};
use dns_lookup::UpstreamConfig;
use serde::Deserialize;

/// How often a server is sent a query that it doesn't answer, if nothing else is said.
const TRIES: u8 = 3;

/// After how many milliseconds it is sent again, if nothing else is said.
const TIMEOUT: u64 = 1000;

/// How many queries may be asked of upstreams at once, if nothing else is said.
const QUERIES: usize = 1000;

/// Limits, in octets, milliseconds and numbers.
#[derive(Default, Drop, Deserialize)]
#[serde(deny_unknown_fields, rename_all = "kebab-case")]
pub struct Limits {
    /// The largest response over UDP.
    pub response_size: Option<u16>,
    /// How many connections of clients there may be at once.
    pub connections: Option<usize>,
    /// How many requests of a connection may wait for their responses at once.
    pub requests: Option<usize>,
    /// For how many milliseconds a connection may be idle.
    pub idle: Option<u64>,
    /// How many queries may be asked of upstreams at once.
    pub queries: Option<usize>,
    /// What is done with one query more.
    pub when_full: Option<WhenFull>,
    /// How often a server is sent a query, at most.
    pub tries: Option<u8>,
    /// After how many milliseconds without an answer it is sent again.
    pub timeout: Option<u64>,
}

impl Limits {
    /// Those that a name server has too.
    pub(crate) fn of_clients(&self) -> ServerLimits
        ensures { result ≡ client_limits self.now }
    {
        ServerLimits {
            response_size: self.response_size,
            connections: self.connections,
            turn_away: None,
            queued_responses: self.requests,
            responses: None,
        }
    }

    /// The times that a name server has too.
    pub(crate) fn times_of_clients(&self) -> Timeouts
        ensures { result ≡ client_timeouts self.now }
    {
        Timeouts {
            idle: self.idle,
            write: None,
            window: None,
            datagram_write: None,
        }
    }

    /// What is done with one query more than may be asked at once.
    pub fn when_full(&self) -> WhenFull
        ensures { result ≡ when_full_of self.now }
    {
        match self.when_full {
            Some(when_full) => when_full,
            None => WhenFull::Fail,
        }
    }

    /// A server of an upstream.
    pub(crate) fn server(&self, endpoint: &Endpoint) -> UpstreamConfig
        ensures { result ≡ upstream_of self.now endpoint.now }
    {
        let tries = match self.tries {
            Some(tries) => tries.clamp(1, 8),
            None => TRIES,
        };
        let timeout = match self.timeout {
            Some(millis) => millis.clamp(10, 60_000),
            None => TIMEOUT,
        };
        UpstreamConfig {
            addr: endpoint.address,
            tries,
            timeout,
        }
    }

    /// How many queries may be asked of upstreams at once.
    pub fn queries(&self) -> usize
        ensures { result ≡ queries_of self.now }
    {
        match self.queries {
            Some(count) => count.clamp(1, 10_000),
            None => QUERIES,
        }
    }
}
