//! The upstreams of a forwarding proxy: which server is asked for a datagram. It does no input and output.
//!
//! - `Servers` are the servers of one upstream, of which there is at least one. `at` gives that of a number.
//! - `Upstreams` has servers under names, and those of the root. `asked_server` gives the server for a datagram.
//!
//! ```text
//! datagram -> response, or no header: nothing is sent
//!          -> query: the deepest name that ends the question's -> its server of a number
//! ```
//!
//! `UpstreamConfig` is a server as dns_lookup asks it: its address, how often it is sent a message, and the timeout.
//!
//! # What is proved
//!
//! - The server is one of those under the deepest name that ends the name of the first question, up to ASCII case
//!   (RFC 4343). Of one name those count that were added last.
//! - If no name ends it, or there is no readable question, it is one of the root's.
//! - No server is given for a response, or for fewer octets than a header has (RFC 1035, section 4.1.1).
//! - A refused call leaves the upstreams. Each call is refused without memory alone.
//!
//! # What a body could still get away with
//!
//! How many look-ups a call makes. Whether the servers of a name are asked equally often: the caller draws the number.
#![tactic(auto)]

mod servers;
mod upstreams;

pub use dns_lookup::UpstreamConfig;
pub use dns_routes::Seed;
pub use servers::Servers;
pub use upstreams::Upstreams;
