//! Other servers and their networks, with the keys that are shared with them.

use crate::address::Endpoint;
use crate::key::KeyName;
use crate::prefix::Prefix;
use dns_name::SocketAddr;
use serde::{Deserialize, Deserializer, Format, Kind};
use std::alloc::Global;

/// The address and port of another server, and the key that is shared with it, if there is one. It is written as a text,
/// `"192.0.2.1:53"`, or as a table, `{ address = "192.0.2.1:53", key = "name" }`.
#[derive(Drop)]
pub struct Peer {
    pub address: SocketAddr,
    pub key: Option<KeyName>,
}

/// A network that may do something, and the key that its requests have to be under, if there is one. It is written as a text,
/// `"192.0.2.0/24"`, or as a table, `{ network = "192.0.2.0/24", key = "name" }`.
#[derive(Drop)]
pub struct AllowedNetwork {
    pub network: Prefix,
    pub key: Option<KeyName>,
}

/// A peer as a table.
#[derive(Drop, Deserialize)]
#[serde(deny_unknown_fields)]
struct PeerTable {
    address: Endpoint,
    key: Option<KeyName>,
}

/// A network as a table.
#[derive(Drop, Deserialize)]
#[serde(deny_unknown_fields)]
struct NetworkTable {
    network: Prefix,
    key: Option<KeyName>,
}

impl<'de> Deserialize<'de> for Peer {
    fn deserialize<F: Format>(
        alloc: Global,
        from: &mut Deserializer<'de, '_, F>,
    ) -> Result<Peer, F::Error> {
        if let Kind::Str = from.peek()? {
            let endpoint = Endpoint::deserialize(alloc, from)?;
            return Ok(Peer {
                address: endpoint.address,
                key: None,
            });
        }
        let PeerTable { address, key } = PeerTable::deserialize(alloc, from)?;
        Ok(Peer {
            address: address.address,
            key,
        })
    }
}

impl<'de> Deserialize<'de> for AllowedNetwork {
    fn deserialize<F: Format>(
        alloc: Global,
        from: &mut Deserializer<'de, '_, F>,
    ) -> Result<AllowedNetwork, F::Error> {
        if let Kind::Str = from.peek()? {
            let network = Prefix::deserialize(alloc, from)?;
            return Ok(AllowedNetwork { network, key: None });
        }
        let NetworkTable { network, key } = NetworkTable::deserialize(alloc, from)?;
        Ok(AllowedNetwork { network, key })
    }
}
