//! UDP sockets that share one address.

ghost use Rattle.std.specs.Prelude.{◌≡◌, ◌+◌, ◌≤◌, ◌≤ℤ◌, ◌↔◌, length, pos, IsOk};
ghost use Rattle.mio.specs.SockAddr as spec;

use libc::net as c;
use os::FromRawFd;
use std::io;
use std::net::{SocketAddr, SocketAddrV4, SocketAddrV6};
use std::os::fd::{AsRawFd, OwnedFd};

/// The octets of C's `sockaddr_in` and `sockaddr_in6`.
const V4_LEN: u32 = 16;

const V6_LEN: u32 = 28;

/// The value of an option that is on: C's `int` 1.
const ON_LEN: u32 = 4;

/// The error of the call that has just answered this, if it is negative.
fn check(status: i32) -> io::Result<()>
    ensures { IsOk result ↔ (pos 0 ≤ℤ status) }
{
    if status < 0 {
        Err(io::Error::from_raw_os_error(os::errno()))
    } else {
        Ok(())
    }
}

fn put(raw: &mut [u8; c::_SS_SIZE], at: usize, bytes: &[u8])
    requires { at + length bytes.now ≤ 128 }
    ensures { raw.new ≡ spec.put raw.old at bytes.now }
{
    raw[at..at + bytes.len()].copy_from_slice(bytes);
}

fn family_and_port(family: u16, port: u16) -> [u8; c::_SS_SIZE]
    ensures { result ≡ spec.family_and_port family port }
{
    let mut raw = [0u8; c::_SS_SIZE];
    put(&mut raw, 0, &family.to_ne_bytes());
    put(&mut raw, 2, &port.to_be_bytes());
    raw
}

fn encode_v4(addr: SocketAddrV4) -> [u8; c::_SS_SIZE]
    ensures { result ≡ spec.sockaddr_in addr }
{
    let mut raw = family_and_port(c::AF_INET as u16, addr.port());
    put(&mut raw, 4, &addr.ip().octets());
    raw
}

fn encode_v6(addr: SocketAddrV6) -> [u8; c::_SS_SIZE]
    ensures { result ≡ spec.sockaddr_in6 addr }
{
    let mut raw = family_and_port(c::AF_INET6 as u16, addr.port());
    put(&mut raw, 4, &addr.flowinfo().to_ne_bytes());
    put(&mut raw, 8, &addr.ip().octets());
    put(&mut raw, 24, &addr.scope_id().to_ne_bytes());
    raw
}

/// An address as the system reads it: the octets, and how many of them it is to read.
fn encode(addr: SocketAddr) -> ([u8; c::_SS_SIZE], u32)
    ensures bytes { result ≡ spec.sockaddr addr }
    ensures len { result.1 ≤ 128 }
{
    match addr {
        SocketAddr::V4(addr) => (encode_v4(addr), V4_LEN),
        SocketAddr::V6(addr) => (encode_v6(addr), V6_LEN),
    }
}

/// The value of an option that is on.
fn on() -> [u8; 16] {
    let mut on = [0u8; 16];
    on[..4].copy_from_slice(&1i32.to_ne_bytes());
    on
}

/// A socket for datagrams of this address's family, whose calls answer at once. One of IPv6 takes no datagram of IPv4.
fn opened(addr: SocketAddr) -> io::Result<OwnedFd> {
    let kind = c::SOCK_DGRAM | c::SOCK_NONBLOCK | c::SOCK_CLOEXEC;
    let fd = match addr {
        SocketAddr::V4(_) => unsafe { c::socket(c::AF_INET, kind, 0) },
        SocketAddr::V6(_) => unsafe { c::socket(c::AF_INET6, kind, 0) },
    };
    check(fd)?;
    let socket = unsafe { OwnedFd::from_raw_fd(fd) };
    if let SocketAddr::V6(_) = addr {
        let fd = socket.as_raw_fd();
        check(unsafe { c::setsockopt(fd, c::IPPROTO_IPV6, c::IPV6_V6ONLY, &on(), ON_LEN) })?;
    }
    Ok(socket)
}

/// A socket for datagrams at this address, whose calls answer at once, and which other such sockets of the same user may share:
/// the system gives each datagram to one of them, by its sender's and its own address.
pub(crate) fn bind_shared(addr: SocketAddr) -> io::Result<OwnedFd> {
    let socket = opened(addr)?;
    let fd = socket.as_raw_fd();
    check(unsafe { c::setsockopt(fd, c::SOL_SOCKET, c::SO_REUSEPORT, &on(), ON_LEN) })?;
    let (raw, len) = encode(addr);
    check(unsafe { c::bind(fd, &raw, len) })?;
    Ok(socket)
}
