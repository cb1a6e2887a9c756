//! The upstreams of a configuration.

ghost use Rattle.std.specs.Prelude.{◌≡◌, ◌++◌, ◌∷◌, [], IfErr, IfOk, OnOk, Some, map, option_copied, option_map};
ghost use Rattle.dns_proxy_config.specs.Proxies.{root_entry, route_of, servers_of, upstream_of};
ghost use Rattle.dns_proxy_config.specs.Faults.{IsFault, IsNoServer};

use crate::config::{Config, UpstreamEntry};
use crate::limits::Limits;
use dns_config::Endpoint;
use dns_name::OutOfMemory;
use dns_upstreams::{Seed, Servers, Upstreams};
use std::alloc::Global;
use std::fmt;

/// Why a configuration has no upstreams.
#[derive(Drop)]
pub enum UpstreamError {
    /// None of them is for the root, which is asked for all names that no other ends.
    NoRoot,
    /// One names no server.
    NoServer,
    OutOfMemory,
}

impl From<OutOfMemory> for UpstreamError {
    ghost use Rattle.dns_proxy_config.specs.declared.upstreams.UpstreamError.TheVariants.{OutOfMemory as NoMemory};

    ghost from_gives = { λ _ error. error ≡ NoMemory };

    fn from(_error: OutOfMemory) -> UpstreamError {
        UpstreamError::OutOfMemory
    }
}

impl fmt::Display for UpstreamError {
    fn fmt<W: fmt::Write>(&self, f: &mut fmt::Formatter<W>) -> fmt::Result {
        match self {
            UpstreamError::NoRoot => f.write_str("no upstream has the name ."),
            UpstreamError::NoServer => f.write_str("an upstream names no server"),
            UpstreamError::OutOfMemory => f.write_str("out of memory"),
        }
    }
}

/// The servers that endpoints are. They are refused if there is none.
fn servers_of(
    alloc: Global,
    limits: &Limits,
    endpoints: &[Endpoint],
) -> Result<Servers, UpstreamError>
    ensures servers { IfOk result (λ s. s ≡ map (upstream_of limits.now) endpoints.now) }
    ensures refused { IfErr result (λ e. IsNoServer endpoints.now e) }
{
    let [first, others @ ..] = endpoints else {
        return Err(UpstreamError::NoServer);
    };
    let mut servers = Servers::new(alloc, limits.server(first));
    'each: for endpoint in others {
        servers.add(limits.server(endpoint))?;
    }
    Ok(servers)
}

/// The upstream of the root, the last one if there are several.
fn root_of(entries: &[UpstreamEntry]) -> Option<&UpstreamEntry>
    ensures { option_copied result ≡ root_entry entries.now }
{
    entries
        .iter()
        .rev()
        .find(|entry| entry.name.name.label_count() == 1)
}

/// The upstreams that have the servers of the root alone.
fn upstreams_of_root(
    alloc: Global,
    limits: &Limits,
    entries: &[UpstreamEntry],
    seed: Seed,
) -> Result<Upstreams, UpstreamError>
    ensures root { IfOk result (λ u. Some u.root ≡ option_map (servers_of limits.now) (root_entry entries.now)) }
    ensures routes { IfOk result (λ u. u.routes ≡ []) }
    ensures refused { IfErr result (λ e. IsFault entries.now e) }
{
    let Some(root) = root_of(entries) else {
        return Err(UpstreamError::NoRoot);
    };
    let servers = servers_of(alloc, limits, root.servers.as_slice())?;
    Ok(Upstreams::new(alloc, seed, servers))
}

/// Adds the servers of an upstream under its name after the others.
fn add_upstream(
    alloc: Global,
    limits: &Limits,
    upstreams: &mut Upstreams,
    entry: &UpstreamEntry,
) -> Result<(), UpstreamError>
    ensures added { let routes = upstreams.old.routes ++ route_of limits.now entry.now ∷ [] in
        OnOk result (upstreams.new ≡ record upstreams.old { routes = routes }) }
    ensures refused { IfErr result (λ e. IsNoServer entry.now.servers.items e) }
{
    let servers = servers_of(alloc, limits, entry.servers.as_slice())?;
    let name = entry.name.name.try_clone(alloc)?;
    upstreams.add(alloc, name, servers)?;
    Ok(())
}

impl Config {
    /// The upstreams, each with its servers under its name; and the servers of the root. Names are hashed from the seed.
    pub fn upstreams(&self, alloc: Global, seed: Seed) -> Result<Upstreams, UpstreamError>
        ensures root { IfOk result (λ u. Some u.root ≡ option_map (servers_of self.now.limits) (root_entry self.now.upstream.items)) }
        ensures routes { IfOk result (λ u. u.routes ≡ map (route_of self.now.limits) self.now.upstream.items) }
        ensures refused { IfErr result (λ e. IsFault self.now.upstream.items e) }
    {
        let entries = self.upstream.as_slice();
        let mut upstreams = upstreams_of_root(alloc, &self.limits, entries, seed)?;
        'each: for entry in entries {
            add_upstream(alloc, &self.limits, &mut upstreams, entry)?;
        }
        Ok(upstreams)
    }
}
