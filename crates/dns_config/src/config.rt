//! A configuration.

ghost use Rattle.std.specs.Prelude.{◌≡◌, ◌≢◌, true, [], IfOk, IsSome};
ghost use Rattle.toml.specs.Parse.{parse_document};
ghost use Rattle.dns_config.specs.Configurations.{connection_of, denied_of, dgram_of, secret_of, stream_of, value_of};

use crate::address::Endpoint;
use crate::fields::{AddressList, Identifier, ZoneName};
use crate::key::KeyEntry;
use crate::peer::{AllowedNetwork, Peer};
use crate::rate_limit::RateLimit;
use crate::secret::Secret;
use dns_events::{ConnectionConfig, DgramConfig, Settings, StreamConfig};
use dns_name::{Addrs, IpAddr, OutOfMemory};
use serde::Deserialize;
use std::alloc::Global;
use std::fmt;

/// What a name server serves, where, to whom, and within which limits. A key that isn't known is refused.
#[derive(Drop, Deserialize)]
#[serde(deny_unknown_fields, rename_all = "kebab-case")]
pub struct Config {
    /// Where it listens, for datagrams and connections.
    pub listen: Vec<Endpoint>,
    /// The Unix socket at which it is controlled.
    pub control: Option<String>,
    /// Where its metrics are served over HTTP.
    pub metrics: Option<Endpoint>,
    /// How many workers serve the datagrams of each address.
    pub workers: Option<usize>,
    /// The identifier of the server, for clients that ask for it (RFC 5001).
    pub nsid: Option<Identifier>,
    /// The networks to which its zones are transferred, except for those that have networks of their own.
    #[serde(default)]
    pub allow_transfer: Vec<AllowedNetwork>,
    #[serde(default)]
    pub limits: Limits,
    #[serde(default)]
    pub timeouts: Timeouts,
    pub cookies: Option<Cookies>,
    /// Limits of what is sent to a client network over UDP.
    pub rate_limit: Option<RateLimit>,
    /// The keys that are shared with other servers.
    #[serde(default)]
    pub key: Vec<KeyEntry>,
    #[serde(default)]
    pub zone: Vec<ZoneEntry>,
}

/// A zone: the file that it is read of, or that its copy is kept in if it has a primary.
#[derive(Drop, Deserialize)]
#[serde(deny_unknown_fields, rename_all = "kebab-case")]
pub struct ZoneEntry {
    pub name: ZoneName,
    pub file: String,
    /// The networks to which it is transferred, in place of those for all zones.
    pub allow_transfer: Option<Vec<AllowedNetwork>>,
    /// Where the zone is transferred from, if this server is a secondary of it.
    pub primary: Option<Peer>,
    /// Who is told of a new serial (RFC 1996).
    #[serde(default)]
    pub notify: Vec<Peer>,
}

/// Limits, in octets and numbers.
#[derive(Default, Drop, Deserialize)]
#[serde(deny_unknown_fields, rename_all = "kebab-case")]
pub struct Limits {
    /// The largest response over UDP.
    pub response_size: Option<u16>,
    /// How many connections there may be at once.
    pub connections: Option<usize>,
    /// Whether connections beyond that are accepted, to be turned away at once.
    pub turn_away: Option<bool>,
    /// How many responses may wait in a connection.
    pub queued_responses: Option<usize>,
    /// How many responses a connection may queue in one window of time.
    pub responses: Option<u32>,
}

/// Times, in milliseconds.
#[derive(Default, Drop, Deserialize)]
#[serde(deny_unknown_fields, rename_all = "kebab-case")]
pub struct Timeouts {
    /// How long a connection may be idle.
    pub idle: Option<u64>,
    /// How long the write of a response to a connection may take.
    pub write: Option<u64>,
    /// How long a window is in which responses are counted.
    pub window: Option<u64>,
    /// How long the write of a datagram may take.
    pub datagram_write: Option<u64>,
}

/// Cookies (RFC 7873).
#[derive(Drop, Deserialize)]
#[serde(deny_unknown_fields)]
pub struct Cookies {
    pub secret: Secret,
    /// Who is denied service without a cookie.
    pub deny: Option<AddressList>,
}

impl Limits {
    /// The configuration of datagrams.
    fn dgram(&self, timeouts: &Timeouts) -> DgramConfig
        ensures { result ≡ dgram_of self.now timeouts.now }
    {
        let mut config = DgramConfig::new();
        if let Some(size) = self.response_size {
            config.set_max_response_size(Some(size));
        }
        if let Some(millis) = timeouts.datagram_write {
            config.set_write_timeout(millis);
        }
        config
    }

    /// The configuration of one connection.
    fn connection(&self, timeouts: &Timeouts) -> ConnectionConfig
        ensures { result ≡ connection_of self.now timeouts.now }
    {
        let mut config = ConnectionConfig::new();
        if let Some(millis) = timeouts.idle {
            config.set_idle_timeout(millis);
        }
        if let Some(millis) = timeouts.write {
            config.set_response_write_timeout(millis);
        }
        if let Some(count) = self.queued_responses {
            config.set_max_queued_responses(count);
        }
        config.set_response_budget(self.responses);
        if let Some(millis) = timeouts.window {
            config.set_budget_window(millis);
        }
        config
    }

    /// The configuration of streams.
    fn stream(&self, timeouts: &Timeouts) -> StreamConfig
        ensures { result ≡ stream_of self.now timeouts.now }
    {
        let mut config = StreamConfig::new();
        if let Some(turns_away) = self.turn_away {
            config.set_accept_connections_at_max(turns_away);
        }
        if let Some(count) = self.connections {
            config.set_max_concurrent_connections(count);
        }
        config.set_connection_config(self.connection(timeouts));
        config
    }
}

/// The secret of cookies, if there are any.
fn secret_of(cookies: &Option<Cookies>) -> Option<[u8; 16]>
    ensures { result ≡ secret_of cookies.now }
{
    match cookies {
        Some(cookies) => Some(cookies.secret.octets),
        None => None,
    }
}

/// Who is denied service without a cookie.
fn denied_of(alloc: Global, cookies: &Option<Cookies>) -> Result<Vec<IpAddr>, OutOfMemory>
    ensures { IfOk result (λ denied. denied.items ≡ denied_of cookies.now) }
{
    match cookies {
        Some(
            Cookies {
                deny: Some(list),
                ..
            },
        ) => Ok(Vec::from_slice(alloc, list.addresses.as_slice())?),
        _ => Ok(Vec::new(alloc)),
    }
}

/// How many workers there may be for an address.
const MOST_WORKERS: usize = 256;

impl Config {
    /// How many workers serve the datagrams of each address: as many as there are processors, if nothing is said.
    pub fn workers(&self, processors: usize) -> usize
        ensures { result ≡ value_of 1 256 processors self.now.workers }
    {
        match self.workers {
            Some(count) => count.clamp(1, MOST_WORKERS),
            None => processors,
        }
    }

    /// The settings of the server and its layers: strict, with EDNS.
    pub fn settings(&self, alloc: Global) -> Result<Settings, OutOfMemory>
        ensures { IfOk result (λ s. s ≡ record {
          strict = true;
          edns = true;
          cookies = secret_of self.now.cookies;
          denied = denied_of self.now.cookies;
          dgram = dgram_of self.now.limits self.now.timeouts;
          stream = stream_of self.now.limits self.now.timeouts;
        }) }
    {
        let denied = denied_of(alloc, &self.cookies)?;
        Ok(Settings {
            strict: true,
            edns: true,
            cookies: secret_of(&self.cookies),
            denied: Addrs::from_vec(denied),
            dgram: self.limits.dgram(&self.timeouts),
            stream: self.limits.stream(&self.timeouts),
        })
    }
}

/// Why a text is no configuration.
#[derive(Drop)]
pub enum ConfigError {
    /// It is no TOML, or none of the keys and values of a configuration.
    Toml(toml::de::Error),
    /// It names no address at which it listens.
    NoAddress,
}

impl fmt::Display for ConfigError {
    fn fmt<W: fmt::Write>(&self, f: &mut fmt::Formatter<W>) -> fmt::Result {
        match self {
            ConfigError::Toml(error) => write!(f, "{error}"),
            ConfigError::NoAddress => f.write_str("listen names no address"),
        }
    }
}

/// The configuration that a text is.
pub fn read_config(alloc: Global, text: &str) -> Result<Config, ConfigError>
    ensures ok { IfOk result (λ _. IsSome (parse_document text.now)) }
    ensures listens { IfOk result (λ c. c.listen.items ≢ []) }
{
    let config: Config = match toml::from_str(alloc, text) {
        Ok(config) => config,
        Err(error) => return Err(ConfigError::Toml(error)),
    };
    if config.listen.is_empty() {
        return Err(ConfigError::NoAddress);
    }
    Ok(config)
}
