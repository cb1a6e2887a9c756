//! Sockets of datagrams that pass on queries alone.
//!
//! A server that answers a response with FORMERR can be made to answer another such server without end: one forged
//! sender is enough. Over a `QuerySock` no response comes to the server, so it answers none.
//!
//! - `QuerySock` is a socket over another one. A receive that gets a message with QR set (RFC 1035, section 4.1.1)
//!   answers Again, as if no datagram had come. All else goes through as it is: sends, waits, addresses, failures.
//! - `inner` lends the other socket.
//! - `QueryCounts` counts the responses that are dropped, and connections, at any number of sockets.
//!
//! ```text
//! datagram -> the other socket -> QR set: Again | QR clear, or below four octets: the datagram
//! ```
//!
//! # What is proved
//!
//! - What it tells of its traffic is what the other socket tells, without the responses.
//! - Its counts of failures are the other socket's.
//!
//! # What a body could still get away with
//!
//! Nothing is said of a buffer without room for the four octets that QR is read of: then it tells nothing any more. No
//! clause can say what a count is that threads share.
#![tactic(auto)]

mod counts;
mod query_sock;

pub use counts::QueryCounts;
pub use query_sock::{QuerySock, is_response};
