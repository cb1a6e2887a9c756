//! Addresses as sockets have them.

ghost use Rattle.std.specs.Prelude.{◌≡◌};
ghost use Rattle.std.specs.declared.net.ip_addr.IpAddr.TheVariants.{V6 as StdV6};
ghost use Rattle.dns_outside.specs.StdAddresses.{IsMadeOf, AddrIsMadeOf, AddrIsCanonical, IsCanonical, IsSeenAs, AddrIsSeenAs};

use dns_name::{IpAddr, SocketAddr};
use std::net;

/// An address without its port as std has it.
fn ip_to_std(ip: IpAddr) -> net::IpAddr
    ensures { IsMadeOf result ip }
{
    match ip {
        IpAddr::V4(octets) => net::IpAddr::V4(net::Ipv4Addr::from_octets(octets)),
        IpAddr::V6(octets) => net::IpAddr::V6(net::Ipv6Addr::from_octets(octets)),
    }
}

/// An address as std has it.
pub(crate) fn to_std(addr: SocketAddr) -> net::SocketAddr
    ensures { AddrIsMadeOf result addr }
{
    net::SocketAddr::new(ip_to_std(addr.ip), addr.port)
}

/// An address without its port as a socket of IPv6 has it.
fn ip_within_v6(ip: IpAddr) -> net::IpAddr
    ensures { IsSeenAs result ip }
{
    match ip {
        IpAddr::V4(octets) => net::IpAddr::V6(net::Ipv4Addr::from_octets(octets).to_ipv6_mapped()),
        IpAddr::V6(octets) => net::IpAddr::V6(net::Ipv6Addr::from_octets(octets)),
    }
}

/// An address as a socket of IPv6 has it.
pub(crate) fn within_v6(addr: SocketAddr) -> net::SocketAddr
    ensures { AddrIsSeenAs result addr }
{
    net::SocketAddr::new(ip_within_v6(addr.ip), addr.port)
}

/// An address of IPv6 as std has it, with a port.
#[inline(never)]
fn from_v6(ip: net::Ipv6Addr, port: u16) -> SocketAddr
    ensures ip { IsCanonical (StdV6 ip) result.ip }
    ensures port { result.port ≡ port }
{
    let ip = match ip.to_ipv4_mapped() {
        Some(within) => IpAddr::V4(within.octets()),
        None => IpAddr::V6(ip.octets()),
    };
    SocketAddr { ip, port }
}

/// An address of std. An IPv4 address within IPv6, as a socket of both gives it, is the IPv4 address (RFC 4291, section
/// 2.5.5.2).
#[inline(never)]
pub(crate) fn from_std(addr: net::SocketAddr) -> SocketAddr
    ensures { AddrIsCanonical addr result }
{
    let port = addr.port();
    match addr.ip() {
        net::IpAddr::V4(ip) => SocketAddr {
            ip: IpAddr::V4(ip.octets()),
            port,
        },
        net::IpAddr::V6(ip) => from_v6(ip, port),
    }
}
