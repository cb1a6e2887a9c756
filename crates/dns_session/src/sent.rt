//! What a connection is sent for one event, without a list.

use dns_events::Why;
use dns_name::Octets;

/// What a connection is sent for one event. It takes no memory.
#[derive(Drop)]
pub enum Sent {
    /// Nothing.
    Nothing,
    /// A frame.
    Frame(Octets),
    /// The last frame, after which the connection is closed.
    Last(Octets, Why),
    /// The connection is closed.
    Closed(Why),
}
