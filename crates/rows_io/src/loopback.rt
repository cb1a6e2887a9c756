//! Each adapter on loopback, with both ends in one process. No test waits longer than 64 times 100 milliseconds.

use dns_name::{IpAddr, SocketAddr};
use dns_outside::{
    AcceptAnswer, AsyncAccept, AsyncDgramSock, Clock, DgramRecv, DgramSend, HostClock, Link,
    LinkRead, LinkWrite, MioAccept, MioSock,
};
use std::net::{self, Net, TcpStream};
use std::os::fd::AsRawFd;
use std::sync::Wait;
use std::{io, rt};

/// Loopback, at a port that the system picks.
const HERE: SocketAddr = SocketAddr {
    ip: IpAddr::V4([127, 0, 0, 1]),
    port: 0,
};

/// The unspecified address of IPv6, at a port that the system picks.
const ANYWHERE: SocketAddr = SocketAddr {
    ip: IpAddr::V6([0; 16]),
    port: 0,
};

/// Whether a socket wasn't bound since this machine has no addresses of its family (EAFNOSUPPORT, EADDRNOTAVAIL).
fn is_without_family(error: &io::Error) -> bool {
    matches!(error.raw_os_error(), Some(97 | 99))
}

/// What a socket receives, once it does.
fn received<R: Wait, D: AsyncDgramSock>(rt: &R, sock: &mut D, buf: &mut [u8]) -> DgramRecv {
    for _ in 0..64 {
        let answer = sock.try_recv_buf_from(buf);
        if answer != DgramRecv::Again {
            return answer;
        }
        sock.readable(rt, 100);
    }
    DgramRecv::Again
}

/// What a link reads, once it does.
fn read<R: Wait, L: Link>(rt: &R, link: &mut L, buf: &mut [u8]) -> LinkRead {
    for _ in 0..64 {
        let answer = link.read(buf);
        if answer != LinkRead::Again {
            return answer;
        }
        link.wait(rt, 100);
    }
    LinkRead::Again
}

/// The connection that comes, and where from, once it does.
fn accepted<R: Wait, A: AsyncAccept>(rt: &R, accept: &mut A) -> Option<(A::Link, SocketAddr)>
where
    A::Link: Drop,
{
    for _ in 0..64 {
        match accept.poll_accept() {
            AcceptAnswer::Accepted(link, from) => return Some((link, from)),
            AcceptAnswer::Again => accept.wait(rt, 100),
            AcceptAnswer::Failed => return None,
        }
    }
    None
}

/// Whether a socket receives the datagram, and is given its sender's address.
fn comes<R: Wait, D: AsyncDgramSock>(rt: &R, sock: &mut D, from: SocketAddr) -> bool {
    let mut buf = [0u8; 8];
    received(rt, sock, &mut buf) == DgramRecv::Got(5, from) && &buf[..5] == b"query".as_slice()
}

/// Whether a datagram goes from the one socket to the other.
fn arrives<R: Wait, D: AsyncDgramSock>(
    rt: &R,
    near: &mut D,
    from: SocketAddr,
    far: &mut D,
    to: SocketAddr,
) -> bool {
    far.try_recv_buf_from(&mut [0u8; 8]) == DgramRecv::Again
        && near.poll_send_to(b"query", to) == DgramSend::Took(5)
        && comes(rt, far, from)
}

/// The address of a socket.
fn address(sock: &MioSock) -> Option<SocketAddr> {
    sock.local_addr().ok()
}

/// Whether a datagram goes from the one socket to the other's address.
fn goes<R: Wait>(rt: &R, near: &mut MioSock, far: &mut MioSock) -> bool {
    match (address(near), address(far)) {
        (Some(from), Some(to)) => arrives(rt, near, from, far, to),
        _ => false,
    }
}

/// Whether a datagram goes from this socket to another on loopback.
fn goes_from<R: Wait + Net>(rt: &R, near: &mut MioSock) -> bool {
    match MioSock::bind(rt, HERE) {
        Ok(mut far) => goes(rt, near, &mut far),
        Err(_) => false,
    }
}

/// Whether a datagram goes from a socket on loopback.
fn goes_here<R: Wait + Net>(rt: &R) -> bool {
    match MioSock::bind(rt, HERE) {
        Ok(mut near) => goes_from(rt, &mut near),
        Err(_) => false,
    }
}

/// Whether the far socket hears the near one as it is on loopback, and its answer comes back.
fn answers_loopback<R: Wait>(rt: &R, near: &mut MioSock, far: &mut MioSock) -> bool {
    match (address(near), address(far)) {
        (Some(from), Some(to)) => {
            let to = SocketAddr {
                ip: HERE.ip,
                port: to.port,
            };
            arrives(rt, near, from, far, to) && arrives(rt, far, to, near, from)
        }
        _ => false,
    }
}

/// Whether a datagram from a new socket on loopback reaches the far one, and its answer comes back.
fn answers_another<R: Wait + Net>(rt: &R, far: &mut MioSock) -> bool {
    match MioSock::bind(rt, HERE) {
        Ok(mut near) => answers_loopback(rt, &mut near, far),
        Err(_) => false,
    }
}

/// Whether a far socket at the unspecified address of IPv6 is reached over loopback. A system without IPv6 passes.
fn answers_anywhere<R: Wait + Net>(rt: &R) -> bool {
    match MioSock::bind(rt, ANYWHERE) {
        Ok(mut far) => answers_another(rt, &mut far),
        Err(error) => is_without_family(&error),
    }
}

/// Whether the link reads what the peer asks.
fn hears<R: Wait, L: Link>(rt: &R, link: &mut L) -> bool {
    let mut buf = [0u8; 8];
    read(rt, link, &mut buf) == LinkRead::Got(3) && &buf[..3] == b"ask".as_slice()
}

/// Whether the link reads the end, once the peer ends what it asks.
fn hears_the_end<R: Wait, L: Link>(rt: &R, link: &mut L, peer: &TcpStream) -> bool {
    peer.shutdown(net::Shutdown::Write).is_ok() && read(rt, link, &mut [0u8; 8]) == LinkRead::End
}

/// Whether the link reads what is asked, answers as many octets, reads the end and is closed, and the peer reads the answer.
fn answers<R: Wait, L: Link>(rt: &R, link: &mut L, peer: &TcpStream) -> bool {
    let went = sent_whole(peer, b"ask")
        && hears(rt, link)
        && link.write(b"yes") == LinkWrite::Took(3)
        && hears_the_end(rt, link, peer);
    link.close();
    went && says(peer, b"yes")
}

/// Whether this is the peer's address.
fn is_of(peer: &TcpStream, from: SocketAddr) -> bool {
    match peer.local_addr() {
        Ok(addr) => from.ip == HERE.ip && from.port == addr.port(),
        Err(_) => false,
    }
}

/// A port of this machine on loopback.
fn loopback(port: u16) -> net::SocketAddr {
    let ip = net::IpAddr::V4(net::Ipv4Addr::from_octets([127, 0, 0, 1]));
    net::SocketAddr::new(ip, port)
}

/// The number of the next descriptor, which is free again after this.
fn next_descriptor<R: Net<Stream = TcpStream>>(rt: &R, port: u16) -> Option<i32> {
    match TcpStream::connect(rt, loopback(port)) {
        Ok(probe) => Some(probe.as_raw_fd()),
        Err(_) => None,
    }
}

/// Whether a link that is closed shows its peer the end and writes no more. Its descriptor, which had this number, is free again
/// though the link is still there.
fn lets_go<R: Net<Stream = TcpStream>, L: Link>(
    rt: &R,
    link: &mut L,
    peer: &TcpStream,
    port: u16,
    number: Option<i32>,
) -> bool {
    link.close();
    number.is_some()
        && next_descriptor(rt, port) == number
        && says(peer, b"")
        && link.write(b"x") == LinkWrite::Failed
}

/// Whether no room comes for what is written, also if it is waited for.
fn is_filled<R: Wait, L: Link>(rt: &R, link: &mut L) -> bool {
    let piece = [0u8; 4096];
    let mut was_full = false;
    for _ in 0..10_000 {
        if link.write(&piece) != LinkWrite::Again {
            was_full = false;
        } else if was_full {
            return true;
        } else {
            was_full = true;
            link.wait(rt, 100);
        }
    }
    false
}

/// Whether a wait of 200 ms takes 100 ms at least.
fn lasts<R: Wait, L: Link, C: Clock>(rt: &R, link: &mut L, clock: &mut C) -> bool {
    let (start, _) = clock.now();
    link.wait(rt, 200);
    let (end, _) = clock.now();
    end.saturating_sub(start) >= 100
}

/// What is tried of a connection.
#[derive(Clone, Copy)]
enum Trial {
    Answers,
    LetsGo,
    WaitsForRoom,
}

/// Whether the link, whose descriptor has this number, does as it should.
fn does<R: Wait + Net<Stream = TcpStream> + rt::Clock + Copy + Drop, L: Link>(
    rt: &R,
    link: &mut L,
    peer: &TcpStream,
    port: u16,
    number: Option<i32>,
    trial: Trial,
) -> bool {
    match trial {
        Trial::Answers => answers(rt, link, peer),
        Trial::LetsGo => lets_go(rt, link, peer, port, number),
        Trial::WaitsForRoom => {
            sent_whole(peer, b"ask")
                && is_filled(rt, link)
                && lasts(rt, link, &mut HostClock::new(*rt))
        }
    }
}

/// Whether the connection of this peer comes from its address, and does as it should.
fn comes_to<R: Wait + Net<Stream = TcpStream> + rt::Clock + Copy + Drop, A: AsyncAccept>(
    rt: &R,
    accept: &mut A,
    port: u16,
    peer: &TcpStream,
    trial: Trial,
) -> bool
where
    A::Link: Drop,
{
    let number = next_descriptor(rt, port);
    match accepted(rt, accept) {
        Some((mut link, from)) => {
            is_of(peer, from) && does(rt, &mut link, peer, port, number, trial)
        }
        None => false,
    }
}

/// Whether a connection from this machine to this port does.
fn comes_at<R: Wait + Net<Stream = TcpStream> + rt::Clock + Copy + Drop, A: AsyncAccept>(
    rt: &R,
    accept: &mut A,
    port: u16,
    trial: Trial,
) -> bool
where
    A::Link: Drop,
{
    match TcpStream::connect(rt, loopback(port)) {
        Ok(peer) => comes_to(rt, accept, port, &peer, trial),
        Err(_) => false,
    }
}

/// Whether a connection to this listener does.
fn listens<R: Wait + Net<Stream = TcpStream> + rt::Clock + Copy + Drop>(
    rt: &R,
    accept: &mut MioAccept,
    trial: Trial,
) -> bool {
    match accept.local_addr() {
        Ok(addr) => comes_at(rt, accept, addr.port, trial),
        Err(_) => false,
    }
}

/// Whether a connection over loopback to a listener at this address does.
fn listens_at<R: Wait + Net<Stream = TcpStream> + rt::Clock + Copy + Drop>(
    rt: &R,
    addr: SocketAddr,
    trial: Trial,
) -> bool {
    match MioAccept::bind(rt, addr) {
        Ok(mut accept) => listens(rt, &mut accept, trial),
        Err(error) => is_without_family(&error),
    }
}

/// Whether all of a piece is taken at once.
fn sent_whole(mut peer: &TcpStream, piece: &[u8]) -> bool {
    use std::io::Write;
    matches!(peer.write(piece), Ok(count) if count == piece.len())
}

/// Whether the next read gives exactly this.
fn says(mut peer: &TcpStream, wanted: &[u8]) -> bool {
    use std::io::Read;
    let mut buf = [0u8; 8];
    match peer.read(&mut buf) {
        Ok(count) => &buf[..count] == wanted,
        Err(_) => false,
    }
}

/// Each adapter does as is wanted, and else the first that doesn't is named.
#[test]
fn each_adapter_holds(rt: HostRuntime) -> Result<(), &'static str> {
    // A datagram goes there, and its sender's address is given.
    if !goes_here(&rt) {
        return Err("a_datagram_arrives");
    }
    // A socket of IPv6 hears a client over IPv4 at its IPv4 address, and its answer reaches it.
    if !answers_anywhere(&rt) {
        return Err("an_ipv4_client_is_heard_as_one");
    }
    // A connection is accepted, read to its end and answered.
    if !listens_at(&rt, HERE, Trial::Answers) {
        return Err("a_connection_is_answered");
    }
    // One over IPv4 to a listener of IPv6 comes from its IPv4 address.
    if !listens_at(&rt, ANYWHERE, Trial::Answers) {
        return Err("an_ipv4_connection_comes_as_one");
    }
    // A link that is closed shows the end, and lets its descriptor go.
    if !listens_at(&rt, HERE, Trial::LetsGo) {
        return Err("a_closed_link_lets_go");
    }
    // A link that is full waits for room, and what there is to read doesn't end the wait.
    if !listens_at(&rt, HERE, Trial::WaitsForRoom) {
        return Err("a_full_link_waits_for_room_alone");
    }
    Ok(())
}
