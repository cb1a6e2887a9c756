//! What comes to a proxy of clients, and what an event of a query leads to.

use dns_name::{Octets, SocketAddr};

/// How a client's message came.
#[derive(Clone, Copy)]
pub enum ClientTransport {
    /// In a datagram.
    Datagram,
    /// Over a connection that may be idle for that many ms.
    Connection { idle_timeout: u64 },
}

/// A message of a client: the client's number, its address, how it came, and when, in ms and seconds.
#[derive(Drop)]
pub struct ClientMessage {
    pub client: u64,
    pub addr: SocketAddr,
    pub transport: ClientTransport,
    pub at: u64,
    pub secs: u64,
    pub octets: Octets,
}

/// What an event of a query leads to.
#[derive(Drop)]
pub enum QueryOutcome {
    /// There is nothing to do.
    Nothing,
    /// The upstream is to be sent this in a datagram again.
    Send(Octets),
    /// A connection to the upstream is to be opened, and sent this.
    Connect(Octets),
    /// The query has ended, and its client is to be sent this, if there is something.
    Reply(Option<Octets>),
}
