//! Ports from which upstreams are asked.

use crate::address::unspecified;
use crate::connection::{Connection, Got};
use crate::place::Drawn;
use dns_name::Octets;
use mio::net::UdpSocket;
use mio::{Interest, Registry, Token};
use rand::RngExt;
use rand::rngs::StdRng;
use std::alloc::{AllocError, Global};
use std::net::{Net, SocketAddr};

/// How many ports are tried at most, if one is taken already.
const TRIES: u32 = 16;

/// A port from which a server is sent these octets for the queries at these places; and the connection in its place, if an answer
/// was truncated.
#[derive(Drop)]
pub(crate) struct Port {
    pub(crate) drawn: Drawn,
    pub(crate) server: SocketAddr,
    pub(crate) octets: Octets,
    pub(crate) places: Vec<usize>,
    pub(crate) socket: Option<UdpSocket>,
    pub(crate) connection: Option<Connection>,
}

/// A socket for a server at a port from 1024 to 65535 that nobody can guess (RFC 5452, section 9.2; RFC 6056, section 3.2). None
/// if each of the ports that were tried is taken, or no socket can be opened.
pub(crate) fn open_at_random<N: Net>(
    net: &N,
    rng: &mut StdRng,
    server: SocketAddr,
) -> Option<UdpSocket> {
    for _ in 0..TRIES {
        let port: u16 = rng.random_range(1024..=65535);
        if let Ok(socket) = UdpSocket::bind(net, unspecified(server, port)) {
            return Some(socket);
        }
    }
    None
}

impl Port {
    /// A port with this socket, from which a server is asked for one query.
    pub(crate) fn new(
        alloc: Global,
        drawn: Drawn,
        server: SocketAddr,
        octets: Octets,
        place: usize,
        socket: UdpSocket,
    ) -> Result<Port, AllocError> {
        let mut places = Vec::new(alloc);
        places.push(place)?;
        Ok(Port {
            drawn,
            server,
            octets,
            places,
            socket: Some(socket),
            connection: None,
        })
    }

    /// Sends the server the octets. A datagram for which there is no room is lost.
    pub(crate) fn send(&self) {
        if let Some(socket) = &self.socket {
            let _ = socket.send_to(self.octets.as_slice(), self.server);
        }
    }

    /// Registers the socket again, so that datagrams that are still there are reported.
    pub(crate) fn hear_on(&mut self, registry: &Registry, token: Token) {
        if let Some(socket) = &mut self.socket {
            let _ = registry.reregister(socket, token, Interest::READABLE);
        }
    }

    /// Opens a connection to the server in the place of the socket, on which these octets are written. One that can't be opened is as
    /// one that nothing comes over. If the socket is closed by now, there was one already.
    pub(crate) fn connect<N: Net>(
        &mut self,
        net: &N,
        alloc: Global,
        registry: &Registry,
        token: Token,
        octets: &Octets,
    ) {
        if self.socket.is_some() {
            self.socket = None;
            self.connection = Connection::open(
                net,
                alloc,
                registry,
                token,
                self.server,
                octets,
            ).ok();
        }
    }

    /// What the connection gives.
    pub(crate) fn go_on(&mut self, alloc: Global) -> Got {
        match &mut self.connection {
            Some(connection) => connection.go_on(alloc),
            None => Got::Nothing,
        }
    }

    /// Whether a query is asked by what was sent already: these octets, of this server, in datagrams.
    pub(crate) fn asks(&self, server: SocketAddr, octets: &Octets) -> bool {
        self.socket.is_some()
            && self.server == server
            && self.octets.as_slice() == octets.as_slice()
    }

    /// The places, copied.
    pub(crate) fn places(&self, alloc: Global) -> Result<Vec<usize>, AllocError> {
        Vec::from_slice(alloc, self.places.as_slice())
    }
}
