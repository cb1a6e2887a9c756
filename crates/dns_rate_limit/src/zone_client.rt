//! Clients of a zone.

use dns_name::{IpAddr, Name};

/// What negative responses are counted by: the network of a client, and the zone.
#[derive(Drop, PartialEq, Eq, Hash)]
pub struct ZoneClient {
    /// The network, as an address.
    pub network: IpAddr,
    /// The zone's apex.
    pub zone: Name,
}
