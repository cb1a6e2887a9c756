//! A client on loopback, which asks one question over UDP and one over TCP.

use dns_name::{IpAddr, SocketAddr};
use dns_outside::{AsyncDgramSock, DgramRecv, MioSock};
use dns_transport::Control;
use std::alloc::Global;
use std::io;
use std::net::{self, Net, TcpStream};
use std::sync::Wait;

/// A query for the root's address, with RD and an OPT record.
const QUERY: &[u8] =
    b"\x12\x34\x01\x00\x00\x01\x00\x00\x00\x00\x00\x01\x00\x00\x01\x00\x01\x00\x00\x29\x04\xd0\x00\x00\x00\x00\x00\x00";

/// A query for the root's IPv6 address after its length in two octets, as it goes over TCP (RFC 1035, section 4.2.2).
const FRAME: &[u8] =
    b"\x00\x1c\x12\x34\x01\x00\x00\x01\x00\x00\x00\x00\x00\x01\x00\x00\x1c\x00\x01\x00\x00\x29\x04\xd0\x00\x00\x00\x00\x00\x00";

/// Loopback, at a port that the system picks.
const HERE: SocketAddr = SocketAddr {
    ip: IpAddr::V4([127, 0, 0, 1]),
    port: 0,
};

/// A client with a socket and a connection, which asks both servers and then shuts them down.
#[derive(Drop)]
pub(crate) struct Client {
    sock: MioSock,
    udp_addr: SocketAddr,
    stream: TcpStream,
    controls: (Control, Control),
}

impl Client {
    /// A client of the servers at these addresses, that of datagrams first.
    pub(crate) fn connect<R: Net<Stream = TcpStream>>(
        rt: &R,
        udp_addr: SocketAddr,
        tcp_addr: SocketAddr,
        controls: (Control, Control),
    ) -> io::Result<Client> {
        let sock = MioSock::bind(rt, HERE)?;
        let stream = TcpStream::connect(rt, loopback(tcp_addr.port))?;
        Ok(Client {
            sock,
            udp_addr,
            stream,
            controls,
        })
    }

    /// Asks over UDP and over TCP, and shuts both servers down whatever came. The replies are empty if none came.
    pub(crate) fn ask_and_end<R: Wait>(self, rt: &R, alloc: Global) -> (Vec<u8>, Vec<u8>) {
        let Client {
            sock,
            udp_addr,
            stream,
            controls,
        } = self;
        let datagram = ask_datagram(rt, alloc, sock, udp_addr);
        let frame = ask_frame(alloc, stream);
        end(rt, controls);
        (reply_of(alloc, datagram), reply_of(alloc, frame))
    }
}

/// Shuts both servers down.
fn end<R: Wait>(rt: &R, controls: (Control, Control)) {
    let (mut udp, mut tcp) = controls;
    let _ = udp.shutdown(rt);
    let _ = tcp.shutdown(rt);
}

/// The octets of a reply, none if there is no reply.
fn reply_of(alloc: Global, reply: io::Result<Vec<u8>>) -> Vec<u8> {
    match reply {
        Ok(octets) => octets,
        Err(_) => Vec::new(alloc),
    }
}

/// The datagram that answers the query; no octets if none comes within 5 s.
fn ask_datagram<R: Wait>(
    rt: &R,
    alloc: Global,
    mut sock: MioSock,
    to: SocketAddr,
) -> io::Result<Vec<u8>> {
    let _ = sock.poll_send_to(QUERY, to);
    let mut buf = [0u8; 512];
    for _ in 0..50 {
        if let DgramRecv::Got(len, _) = sock.try_recv_buf_from(&mut buf) {
            return Ok(buf[..len].to_vec(alloc)?);
        }
        sock.readable(rt, 100);
    }
    Ok(Vec::new(alloc))
}

/// An address of loopback as std has it.
fn loopback(port: u16) -> net::SocketAddr {
    net::SocketAddr::new(net::IpAddr::V4(net::Ipv4Addr::new(127, 0, 0, 1)), port)
}

/// The frame that answers the query over a connection, which is closed after it.
fn ask_frame(alloc: Global, stream: TcpStream) -> io::Result<Vec<u8>> {
    use std::io::{Read, Write};
    (&stream).write_all(FRAME)?;
    let mut len = [0u8; 2];
    (&stream).read_exact(&mut len)?;
    let mut reply = vec![in alloc; 0u8; u16::from_be_bytes(len) as usize]?;
    (&stream).read_exact(reply.as_mut_slice())?;
    Ok(reply)
}
