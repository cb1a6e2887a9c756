//! Upstreams, what happens to a lookup, and what that leads to.

use dns_base::Message;
use dns_name::{Octets, SocketAddr};
use dns_route::SendError;

/// An upstream: its address, and how often it is sent a message in datagrams at most, from 1 to 8. It is sent again after so long
/// without an answer, from 1.
#[derive(Clone, Copy, Debug)]
pub struct UpstreamConfig {
    pub addr: SocketAddr,
    pub tries: u8,
    pub timeout: u64,
}

/// What happens to a lookup, at a moment in the unit of the timeout.
#[derive(Drop)]
pub enum LookupEvent {
    /// A datagram came to the lookup's port.
    Datagram {
        from: SocketAddr,
        at: u64,
        octets: Octets,
    },
    /// A message came over the lookup's connection.
    Frame {
        at: u64,
        octets: Octets,
    },
    /// The lookup's connection could not be opened, or was closed.
    Lost,
    /// The time is looked at.
    Tick {
        at: u64,
    },
}

/// What an event of a lookup leads to.
#[derive(Drop)]
pub enum LookupOutcome {
    /// There is nothing to do.
    Nothing,
    /// The upstream is to be sent this in a datagram again.
    Send(Octets),
    /// A connection to the upstream is to be opened, and sent this.
    Connect(Octets),
    /// The lookup has ended with this: the answer, or why there is none.
    Answer(Result<Message, SendError>),
}
