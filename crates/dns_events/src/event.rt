//! Events of a server's clients, looks of these, and what the clients are sent.

use crate::config::{DgramConfig, StreamConfig};
use dns_name::{Octets, SocketAddr};

/// One event: its moment in ms, its seconds, and the number of its client. An event that all clients hear has no client: its
/// number says nothing.
#[derive(Debug, Drop)]
pub struct Event {
    pub at: u64,
    pub secs: u64,
    pub client: u64,
    pub kind: EventKind,
}

/// What happened: to a datagram, to a connection, to a request, or to the whole server.
#[derive(Drop)]
pub enum EventKind {
    /// A datagram came from an address.
    Datagram {
        addr: SocketAddr,
        octets: Octets,
    },
    /// The request of this number, counted from 0, is polled once.
    Turn {
        request: u64,
    },
    /// A connection from an address is offered.
    Offer {
        addr: SocketAddr,
    },
    /// Octets of the connection's stream came.
    Piece(Octets),
    /// The connection's stream ended.
    End,
    /// The connection's stream failed.
    Fault,
    /// The connection is to be closed, once what waits was written.
    Close,
    /// A queued frame is written. It waited and was written for that many ms.
    Write {
        took: u64,
    },
    /// The connection's timer is looked at.
    Tick,
    /// The connection is gone, and gives its slot back.
    Release,
    /// All clients hear that the configurations are replaced.
    Reconfigure {
        dgram: DgramConfig,
        stream: StreamConfig,
    },
    /// All clients hear that the server shuts down.
    Shutdown,
}

/// One step of a server whose clients look for themselves: an event, or a look of a client at what the server's book shows.
#[derive(Debug, Drop)]
pub enum Step {
    /// An event. One that all clients hear acts on the book alone, and each client hears of it when it looks.
    Own(Event),
    /// A client looks. Its moment and seconds say nothing.
    Look { at: u64, secs: u64, client: u64 },
}

/// Why a connection is closed.
#[derive(Clone, Copy, Debug, PartialEq, Eq)]
pub enum Why {
    /// The stream ended.
    Ended,
    /// The stream failed.
    Fault,
    /// A frame was shorter than a header.
    Short,
    /// The connection was idle for too long.
    Idle,
    /// A write took too long.
    WriteTimeout,
    /// The connection was closed by a command.
    Commanded,
    /// The server shuts down.
    Shutdown,
}

/// What a client is sent.
#[derive(Debug, Drop)]
pub enum Output {
    /// A datagram, whole.
    Datagram { client: u64, octets: Octets },
    /// A message after its length in two octets (RFC 1035, section 4.2.2).
    Frame { client: u64, octets: Octets },
    /// The connection is closed.
    Closed { client: u64, why: Why },
    /// The connection isn't taken, since every slot is: accepted and closed at once, or not accepted.
    TurnedAway { client: u64, accepted: bool },
}
