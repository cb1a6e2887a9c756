//! The configuration of a proxy.

ghost use Rattle.std.specs.Prelude.{◌≡◌, ◌≢◌, [], IfErr, IfOk, IsSome, None, option_map};
ghost use Rattle.toml.specs.Parse.{parse_document};
ghost use Rattle.dns_proxy_config.specs.Proxies.{client_limits, client_timeouts, replies_of, required_of, server_cookies};

use crate::cookies::{CookieKeys, cookies_of};
use crate::limits::Limits;
use dns_config::{Config as ServerConfig, ConfigError, Cookies, Endpoint, Prefix, ZoneName};
use serde::Deserialize;
use std::alloc::Global;

/// How many replies the cache keeps, if nothing is said.
const REPLIES: usize = 10_000;

/// Where a proxy listens, which servers it asks, and within which limits.
#[derive(Drop)]
pub struct Config {
    /// What a name server's configuration says too: at which addresses it listens, controlled and measured, limits of responses and
    /// connections, cookies. It has no zones.
    pub server: ServerConfig,
    /// The networks whose clients need a good cookie over UDP.
    pub required: Vec<Prefix>,
    /// How many replies the cache keeps, if it is said.
    pub cache: Option<usize>,
    pub limits: Limits,
    pub upstream: Vec<UpstreamEntry>,
}

/// The servers that are asked for a name and those below it.
#[derive(Drop, Deserialize)]
#[serde(deny_unknown_fields)]
pub struct UpstreamEntry {
    pub name: ZoneName,
    pub servers: Vec<Endpoint>,
}

/// The keys of a configuration. One that isn't known is refused.
#[derive(Drop, Deserialize)]
#[serde(deny_unknown_fields, rename_all = "kebab-case")]
struct Keys {
    listen: Vec<Endpoint>,
    control: Option<String>,
    metrics: Option<Endpoint>,
    cache: Option<usize>,
    #[serde(default)]
    limits: Limits,
    cookies: Option<CookieKeys>,
    #[serde(default)]
    upstream: Vec<UpstreamEntry>,
}

/// What a name server's configuration says too.
fn server_of(
    alloc: Global,
    listen: Vec<Endpoint>,
    control: Option<String>,
    metrics: Option<Endpoint>,
    limits: &Limits,
    cookies: Option<Cookies>,
) -> ServerConfig
    ensures listen { result.listen ≡ listen }
    ensures control { result.control ≡ control }
    ensures metrics { result.metrics ≡ metrics }
    ensures zones { result.zone.items ≡ [] }
    ensures limits { result.limits ≡ client_limits limits.now }
    ensures timeouts { result.timeouts ≡ client_timeouts limits.now }
    ensures cookies { result.cookies ≡ cookies }
    ensures transfers { result.allow_transfer.items ≡ [] }
    ensures rest { (result.workers ≡ None) × (result.nsid ≡ None) }
{
    ServerConfig {
        listen,
        control,
        metrics,
        workers: None,
        nsid: None,
        allow_transfer: Vec::new(alloc),
        limits: limits.of_clients(),
        timeouts: limits.times_of_clients(),
        cookies,
        rate_limit: None,
        key: Vec::new(alloc),
        zone: Vec::new(alloc),
    }
}

impl Config {
    /// How many replies the cache keeps.
    pub fn replies(&self) -> usize
        ensures { result ≡ replies_of self.now.cache }
    {
        match self.cache {
            Some(count) => count.clamp(1, 65_536),
            None => REPLIES,
        }
    }
}

/// The configuration that keys say. They are refused if they name no address at which it listens.
fn config_of(alloc: Global, keys: Keys) -> Result<Config, ConfigError>
    ensures listen { IfOk result (λ c. c.server.listen ≡ keys.listen) }
    ensures listens { IfOk result (λ c. c.server.listen.items ≢ []) }
    ensures control { IfOk result (λ c. c.server.control ≡ keys.control) }
    ensures metrics { IfOk result (λ c. c.server.metrics ≡ keys.metrics) }
    ensures zones { IfOk result (λ c. c.server.zone.items ≡ []) }
    ensures client_limits { IfOk result (λ c. c.server.limits ≡ client_limits keys.limits) }
    ensures client_timeouts { IfOk result (λ c. c.server.timeouts ≡ client_timeouts keys.limits) }
    ensures cookies { IfOk result (λ c. c.server.cookies ≡ option_map server_cookies keys.cookies) }
    ensures required { IfOk result (λ c. c.required.items ≡ required_of keys.cookies) }
    ensures cache { IfOk result (λ c. c.cache ≡ keys.cache) }
    ensures limits { IfOk result (λ c. c.limits ≡ keys.limits) }
    ensures upstream { IfOk result (λ c. c.upstream ≡ keys.upstream) }
    ensures refused { IfErr result (λ e. (e ≡ ConfigError.NoAddress) × (keys.listen.items ≡ [])) }
{
    let Keys {
        listen,
        control,
        metrics,
        cache,
        limits,
        cookies,
        upstream,
    } = keys;
    if listen.is_empty() {
        return Err(ConfigError::NoAddress);
    }
    let (cookies, required) = cookies_of(alloc, cookies);
    let server = server_of(alloc, listen, control, metrics, &limits, cookies);
    Ok(Config {
        server,
        required,
        cache,
        limits,
        upstream,
    })
}

/// The configuration that a text is. No network needs a cookie if there is no secret.
#[tactic(auto, using(crate::proofs::Required::none_required))]
pub fn read_config(alloc: Global, text: &str) -> Result<Config, ConfigError>
    ensures ok { IfOk result (λ _. IsSome (parse_document text.now)) }
    ensures listens { IfOk result (λ c. c.server.listen.items ≢ []) }
    ensures zones { IfOk result (λ c. c.server.zone.items ≡ []) }
    ensures limits { IfOk result (λ c. c.server.limits ≡ client_limits c.limits) }
    ensures timeouts { IfOk result (λ c. c.server.timeouts ≡ client_timeouts c.limits) }
    ensures required { IfOk result (λ c. c.server.cookies ≡ None → c.required.items ≡ []) }
{
    match toml::from_str(alloc, text) {
        Ok(keys) => config_of(alloc, keys),
        Err(error) => Err(ConfigError::Toml(error)),
    }
}
