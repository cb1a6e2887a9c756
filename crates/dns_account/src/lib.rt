//! What is promised of each connection, datagram and host that is served over witnesses (dns_witness), and so over the machine's
//! sockets too.
//!
//! - `serve_connection_over` and `serve_datagrams_over` serve as the loops of dns_stream_driver and dns_dgram_driver
//!   do, over witnesses of a link, a socket and a clock. They keep what was noted.
//! - `serve_host_over` serves a host as `host_service` does, over witnesses of all that it stands on.
//! - `every_connection_kept_to_the_rules` and `every_datagram_kept_to_the_rules` are the laws.
//!
//! ```text
//! MioLink -> Witness -> serve_connection: what its calls took and gave -> the frames of `rule`
//! MioSock -> WitnessSock -> serve_datagrams: what was received and sent -> the datagrams of `rule`
//! ```
//!
//! # What is proved
//!
//! - A connection: its events are its own and those of the whole server. Their pieces are the octets that the link's
//!   reads took, all of them if it was closed.
//! - What its writes handed over are the frames that the rules send for these events, in order. A part of one frame
//!   more may follow.
//! - Datagrams: each one that the receives gave is an exchange of its own, by its first 1,024 octets. Some at the end
//!   may be missing if memory ran out.
//! - What was sent are datagrams that the rules send for these events, each to the address of its exchange. Those are
//!   left out whose send failed or was late.
//! - A connection ends for Ended only if a read of its link answered End. It ends for Short only if the octets that its reads took
//!   hold a frame shorter than a header (`EndSeen`).
//! - A host: those who came by its accept object are those of its turns. Each that was admitted was given to the spawner
//!   as work, in order. Its datagrams keep to the law (`HostKept`).
//! - The clauses of the loops and of the host hold whether or not the objects beneath tell.
//!
//! # What a body could still get away with
//!
//! What the operating system does with octets that it took, and when. Which readings a clock gives. Which number and
//! look a connection's work has in a host, and what its thread gave: no clause says that it has ended.
#![tactic(auto)]

mod connections;
mod datagrams;
mod hosts;

pub use connections::{every_connection_kept_to_the_rules, serve_connection_over};
pub use datagrams::{every_datagram_kept_to_the_rules, serve_datagrams_over};
pub use hosts::serve_host_over;
