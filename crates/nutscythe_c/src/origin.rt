//! Where a message came from, as C says it.

ghost use Rattle.std.specs.Prelude.{◌≡◌, length};
ghost use Rattle.nutscythe_c.specs.Origins.{addr_of, arrival_of, error_of, ip_of, ip_with, transport_of, verdict_of};

use dns_base::{IpAddr, SocketAddr};
use dns_embed::{Arrival, KnownVerdict};
use dns_layers::NotifyError;
use dns_service::{
    NonUdpTransportContext, ServiceError, TransportSpecificContext, UdpTransportContext,
};

/// Where a message came from, when, and over what.
#[repr(C)]
#[derive(Clone, Copy)]
pub struct Origin {
    /// When it came, in ms of the caller's clock.
    pub at: u64,
    /// When it came, in seconds since 1970.
    pub secs: u64,
    /// The most octets that a reply may take in a datagram, if `over` is 1; the idle timeout in ms, if it is 3.
    pub size: u64,
    /// The sender's address in network order. Of IPv4 the first four.
    pub octets: [u8; 16],
    /// The sender's port.
    pub port: u16,
    /// 4 or 6.
    pub family: u8,
    /// 0 a datagram, 1 a datagram with `size`, 2 a stream, 3 a stream with `size`.
    pub over: u8,
}

/// The address of a family, 4 or 6, and its octets.
fn ip_of(family: u8, octets: [u8; 16]) -> Option<IpAddr>
    ensures { result ≡ ip_of family octets }
{
    match family {
        4 => {
            let [a, b, c, d, ..] = octets;
            Some(IpAddr::V4([a, b, c, d]))
        }
        6 => Some(IpAddr::V6(octets)),
        _ => None,
    }
}

/// Four octets as an array.
fn four(octets: &[u8]) -> [u8; 4]
    requires { length octets.now ≡ 4 }
    ensures { result ≡ octets.now }
{
    let mut copy = [0u8; 4];
    copy.copy_from_slice(octets);
    copy
}

/// Sixteen octets as an array.
pub(crate) fn sixteen(octets: &[u8]) -> [u8; 16]
    requires { length octets.now ≡ 16 }
    ensures { result ≡ octets.now }
{
    let mut copy = [0u8; 16];
    copy.copy_from_slice(octets);
    copy
}

/// The address of four octets of IPv4, or of sixteen of IPv6.
pub(crate) fn ip_with(octets: &[u8]) -> Option<IpAddr>
    ensures { result ≡ ip_with octets.now }
{
    match octets.len() {
        4 => Some(IpAddr::V4(four(octets))),
        16 => Some(IpAddr::V6(sixteen(octets))),
        _ => None,
    }
}

/// The transport, if its number and size are in range.
fn transport_of(origin: &Origin) -> Option<TransportSpecificContext>
    ensures { result ≡ transport_of origin.now }
{
    match origin.over {
        0 => Some(TransportSpecificContext::Udp(UdpTransportContext::new(None))),
        1 if origin.size <= 65535 => Some(TransportSpecificContext::Udp(UdpTransportContext::new(
            Some(origin.size as u16),
        ))),
        2 => Some(TransportSpecificContext::NonUdp(NonUdpTransportContext::new(None))),
        3 => Some(TransportSpecificContext::NonUdp(NonUdpTransportContext::new(Some(origin.size)))),
        _ => None,
    }
}

/// The sender, if its family is one.
pub(crate) fn addr_of(origin: &Origin) -> Option<SocketAddr>
    ensures { result ≡ addr_of origin.now }
{
    let ip = ip_of(origin.family, origin.octets)?;
    Some(SocketAddr {
        ip,
        port: origin.port,
    })
}

/// Where a message came from, if each number is in range.
pub(crate) fn arrival_of(origin: &Origin) -> Option<Arrival>
    ensures { result ≡ arrival_of origin.now }
{
    let addr = addr_of(origin)?;
    let transport = transport_of(origin)?;
    Some(Arrival {
        addr,
        at: origin.at,
        secs: origin.secs,
        transport,
    })
}

/// The verdict of a number: 0 the change is taken, 1 it isn't this server's zone, 2 it failed.
pub(crate) fn verdict_of(number: u32) -> Option<KnownVerdict>
    ensures { result ≡ verdict_of number }
{
    match number {
        0 => Some(KnownVerdict { verdict: Ok(()) }),
        1 => Some(KnownVerdict {
            verdict: Err(NotifyError::NotAuthForZone),
        }),
        2 => Some(KnownVerdict {
            verdict: Err(NotifyError::Other),
        }),
        _ => None,
    }
}

/// The error of a service whose response code is this number (RFC 1035, section 4.1.1).
pub(crate) fn error_of(rcode: u32) -> Option<ServiceError>
    ensures { result ≡ error_of rcode }
{
    match rcode {
        1 => Some(ServiceError::FormatError),
        2 => Some(ServiceError::InternalError),
        4 => Some(ServiceError::NotImplemented),
        5 => Some(ServiceError::Refused),
        _ => None,
    }
}
