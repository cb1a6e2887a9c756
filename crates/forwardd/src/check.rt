//! Judging a configuration.

ghost use Rattle.std.specs.Prelude.{◌≡◌, IfOk, string_bytes};
ghost use Rattle.forwardd.specs.Lines.{limits_text};

use crate::address::to_std;
use crate::load::{load_config, upstreams_of};
use dns_config::Endpoint;
use dns_proxy_config::{Config, UpstreamEntry};
use dns_upstreams::Seed;
use std::alloc::{AllocError, Global};
use std::fmt::Write;

/// The line of the limits: how many replies the cache keeps, and how many queries are asked of upstreams at once.
#[tactic(auto, unfolding(crate::specs::Lines::limits_text))]
fn limits_line(alloc: Global, replies: usize, queries: usize) -> Result<String, AllocError>
    ensures { IfOk result (λ line. string_bytes line ≡ limits_text replies queries) }
{
    format!(in alloc; "cache {replies}, queries {queries}")
}

/// The line of an upstream: its name, and its servers in order.
fn upstream_line(alloc: Global, entry: &UpstreamEntry) -> anyhow::Result<String> {
    let mut line = format!(in alloc; "upstream {}", entry.name.name)?;
    for server in entry.servers.iter() {
        let addr = to_std(server.address);
        write!(line, " {addr}")?;
    }
    Ok(line)
}

/// Writes the addresses at which it listens.
fn say_addresses(rt: &HostRuntime, endpoints: &[Endpoint]) -> anyhow::Result<()> {
    for endpoint in endpoints {
        let addr = to_std(endpoint.address);
        println!(rt; "listen {addr}")?;
    }
    Ok(())
}

/// Says which servers are asked.
fn say_upstreams(rt: &HostRuntime, entries: &[UpstreamEntry]) -> anyhow::Result<()> {
    for entry in entries {
        let line = upstream_line(rt.alloc(), entry)?;
        println!(rt; "{line}")?;
    }
    Ok(())
}

/// Judges a configuration as a start does, without opening a socket. Writes the addresses at which it would listen, the limits, and which servers are
/// asked.
fn judge(rt: &HostRuntime, config: &Config) -> anyhow::Result<()> {
    upstreams_of(rt.alloc(), config, Seed::fixed())?;
    say_addresses(rt, config.server.listen.as_slice())?;
    let limits = limits_line(rt.alloc(), config.replies(), config.limits.queries())?;
    println!(rt; "{limits}")?;
    say_upstreams(rt, config.upstream.as_slice())
}

/// Judges the configuration of a file.
pub(crate) fn check(rt: &HostRuntime, path: &str) -> anyhow::Result<()> {
    let config = load_config(rt, path)?;
    judge(rt, &config)
}
