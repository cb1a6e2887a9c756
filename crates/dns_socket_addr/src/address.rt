//! Addresses of sockets.

ghost use Rattle.std.specs.Prelude.{◌≡◌, ◌&&◌, nat_eq};
ghost use Rattle.dns_outside.specs.StdAddresses.{AddrIsMadeOf, IsMadeOf};
ghost use Rattle.dns_socket_addr.specs.SocketAddresses.{same_ip, same_socket_addr, unspecified_ip};

use dns_name::{IpAddr, SocketAddr};
use std::net;

/// An address without its port as std has it.
fn ip_to_std(ip: IpAddr) -> net::IpAddr
    ensures { IsMadeOf result ip }
{
    match ip {
        IpAddr::V4(octets) => net::IpAddr::V4(net::Ipv4Addr::from_octets(octets)),
        IpAddr::V6(octets) => net::IpAddr::V6(net::Ipv6Addr::from_octets(octets)),
    }
}

/// An address as std has it.
pub fn to_std(address: SocketAddr) -> net::SocketAddr
    ensures { AddrIsMadeOf result address }
{
    net::SocketAddr::new(ip_to_std(address.ip), address.port)
}

/// Whether two addresses without a port are the same.
fn same_ip(one: &IpAddr, other: &IpAddr) -> bool
    ensures { result ≡ same_ip one.now other.now }
{
    one.as_slice() == other.as_slice()
}

/// Whether two addresses and their ports are the same.
pub fn same_socket_addr(one: SocketAddr, other: SocketAddr) -> bool
    ensures { result ≡ same_socket_addr one other }
{
    one.port == other.port && same_ip(&one.ip, &other.ip)
}

/// The unspecified address of the kind of another, without a port.
fn unspecified_ip(like: IpAddr) -> IpAddr
    ensures { result ≡ unspecified_ip like }
{
    match like {
        IpAddr::V4(_) => IpAddr::V4([0; 4]),
        IpAddr::V6(_) => IpAddr::V6([0; 16]),
    }
}

/// The unspecified address of the kind of another, at port 0, so that the system picks address and port of a socket.
pub fn unspecified_like(address: SocketAddr) -> SocketAddr
    ensures { result ≡ record { ip = unspecified_ip address.ip; port = 0 } }
{
    SocketAddr {
        ip: unspecified_ip(address.ip),
        port: 0,
    }
}
