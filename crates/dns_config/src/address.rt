//! Addresses as a configuration writes them.

ghost use Rattle.std.specs.Prelude.{◌≡◌, MatchOption};
ghost use Rattle.dns_name.specs.declared.address.SocketAddr.{SocketAddr as AddressAndPort};
ghost use Rattle.dns_config.specs.Addresses.{WritesEndpoint, address_in, address_of};

use dns_name::{IpAddr, SocketAddr};
use dns_word_values::{long_address, quad};
use std::net;

/// An address and a port at which it listens.
#[derive(Clone, Copy)]
pub struct Endpoint {
    pub address: SocketAddr,
}

/// An address without a port.
#[derive(Clone, Copy)]
pub struct PeerAddress {
    pub address: IpAddr,
}

/// An address of std.
fn address_of(address: net::IpAddr) -> IpAddr
    ensures { result ≡ address_of address }
{
    match address {
        net::IpAddr::V4(address) => IpAddr::V4(address.octets()),
        net::IpAddr::V6(address) => IpAddr::V6(address.octets()),
    }
}

/// The address that octets of a text write.
pub(crate) fn address_in(text: &[u8]) -> Option<IpAddr>
    ensures { result ≡ address_in text.now }
{
    match quad(text) {
        Some(octets) => Some(IpAddr::V4(octets)),
        None => match long_address(text) {
            Some(octets) => Some(IpAddr::V6(octets)),
            None => None,
        },
    }
}

/// The address that a text writes: dotted decimal, or that of IPv6 (RFC 4291, section 2.2).
pub fn read_address(text: &str) -> Option<IpAddr>
    ensures { result ≡ address_in text.now }
{
    address_in(text.as_bytes())
}

/// The address and the port that a text writes, as `192.0.2.1:53` and `[2001:db8::1]:53`.
pub fn read_endpoint(text: &str) -> Option<SocketAddr>
    ensures { MatchOption result ((a : AddressAndPort) → ¬ (WritesEndpoint text.now a)) (WritesEndpoint text.now) }
{
    match text.parse::<net::SocketAddr>() {
        Ok(address) => Some(SocketAddr {
            ip: address_of(address.ip()),
            port: address.port(),
        }),
        Err(_) => None,
    }
}
