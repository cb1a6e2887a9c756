//! The networks to which zones are transferred.

ghost use Rattle.std.specs.Prelude.{◌≡◌, IfOk, map};
ghost use Rattle.dns_generation.specs.Generations.{network_of};

use dns_authority::Network;
use dns_config::AllowedNetwork;
use dns_name::OutOfMemory;
use std::alloc::Global;

/// The networks that may transfer, whatever key they want.
pub fn networks(alloc: Global, allowed: &[AllowedNetwork]) -> Result<Vec<Network>, OutOfMemory>
    ensures { IfOk result (λ networks. networks.items ≡ map (λ one. network_of one.network) allowed.now) }
{
    let networks = allowed
        .iter()
        .map(|one| Network {
            address: one.network.address,
            bits: one.network.bits,
        })
        .collect(alloc)?;
    Ok(networks)
}
