//! One accept, by one call of the system.

use crate::mio_addr::from_std;
use dns_name::SocketAddr;
use libc::net as c;
use mio::net::{TcpListener, TcpStream};
use os::FromRawFd;
use std::io;
use std::io::ErrorKind;
use std::net::{self, IpAddr, Ipv4Addr, Ipv6Addr};
use std::os::fd::{AsRawFd, OwnedFd};

/// Accepts a connection whose calls don't wait, and says where it comes from. `WouldBlock` if none is there.
pub(crate) fn accept_without_waiting(
    listener: &TcpListener,
) -> io::Result<(TcpStream, SocketAddr)> {
    let mut raw = [0u8; c::_SS_SIZE];
    let mut len = c::_SS_SIZE as u32;
    let flags = c::SOCK_NONBLOCK | c::SOCK_CLOEXEC;
    let fd = unsafe { c::accept4(listener.as_raw_fd(), &mut raw, &mut len, flags) };
    if fd < 0 {
        return Err(io::Error::from_raw_os_error(os::errno()));
    }
    let stream = TcpStream::from(unsafe { OwnedFd::from_raw_fd(fd) });
    match address_in(&raw) {
        Some(from) => Ok((stream, from)),
        None => Err(io::Error::from(ErrorKind::InvalidData)),
    }
}

/// The address that C's `sockaddr_in` or `sockaddr_in6` holds: the family in two octets of the machine's order and the port in two
/// of the network's. Then an IPv4 address, or four octets and an IPv6 address.
fn address_in(raw: &[u8; c::_SS_SIZE]) -> Option<SocketAddr> {
    let family = i32::from(u16::from_ne_bytes([raw[0], raw[1]]));
    let port = u16::from_be_bytes([raw[2], raw[3]]);
    if family == c::AF_INET {
        let ip = Ipv4Addr::new(raw[4], raw[5], raw[6], raw[7]);
        Some(from_std(net::SocketAddr::new(IpAddr::V4(ip), port)))
    } else if family == c::AF_INET6 {
        let mut octets = [0u8; 16];
        octets.copy_from_slice(&raw[8..24]);
        let ip = Ipv6Addr::from_octets(octets);
        Some(from_std(net::SocketAddr::new(IpAddr::V6(ip), port)))
    } else {
        None
    }
}
