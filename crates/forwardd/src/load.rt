//! The configuration that is read of a file.

ghost use Rattle.std.specs.Prelude.{◌≡◌, IfOk, map};
ghost use Rattle.forwardd.specs.Required.{network_of};

use anyhow::{Context, bail};
use dns_fronts::Network;
use dns_name::OutOfMemory;
use dns_proxy_config::{Config, Prefix, read_config};
use dns_upstreams::{Seed, Upstreams};
use std::alloc::{AllocError, Global};
use std::fs;

/// The lines of a text in one.
fn in_one_line(alloc: Global, text: &str) -> Result<String, AllocError> {
    let mut line = String::new(alloc);
    for part in text.lines() {
        if !line.is_empty() {
            line.push_str(": ")?;
        }
        line.push_str(part)?;
    }
    Ok(line)
}

/// The configuration that a text is.
fn configuration(alloc: Global, text: &str) -> anyhow::Result<Config> {
    match read_config(alloc, text) {
        Ok(config) => Ok(config),
        Err(error) => {
            let said = format!(in alloc; "{error}")?;
            bail!("{}", in_one_line(alloc, said.as_str())?)
        }
    }
}

/// The configuration that a file has.
pub(crate) fn load_config(rt: &HostRuntime, path: &str) -> anyhow::Result<Config> {
    let text = fs::read_to_string(rt, path).context(format_args!("{path}"))?;
    configuration(rt.alloc(), text.as_str()).context(format_args!("{path}"))
}

/// The upstreams of a configuration.
pub(crate) fn upstreams_of(
    alloc: Global,
    config: &Config,
    seed: Seed,
) -> anyhow::Result<Upstreams> {
    match config.upstreams(alloc, seed) {
        Ok(upstreams) => Ok(upstreams),
        Err(error) => bail!("{error}"),
    }
}

/// The networks of these prefixes.
pub(crate) fn networks(alloc: Global, prefixes: &[Prefix]) -> Result<Vec<Network>, OutOfMemory>
    ensures { IfOk result (λ networks. networks.items ≡ map network_of prefixes.now) }
{
    let networks = prefixes
        .iter()
        .map(|prefix| Network {
            address: prefix.address,
            bits: prefix.bits,
        })
        .collect(alloc)?;
    Ok(networks)
}
