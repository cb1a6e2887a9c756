//! Connections that pass on queries alone.
//!
//! A server that answers a response with FORMERR can be made to answer another such server without end. Over a
//! `QueryAccept` no response comes to the server from a connection, so it answers none. `QuerySock` of dns_query_sock
//! does so for datagrams.
//!
//! - `QueryFrames` takes a stream apart into its frames, by a `Framer` of dns_framing, and holds those without QR until
//!   they are read (RFC 1035, sections 4.1.1 and 4.2.2).
//! - `QueryLink` is a link over another one, whose reads give those frames alone. All else goes through as it is.
//! - `QueryAccept` is an accept object over another one, which gives such links, and counts connections.
//!
//! ```text
//! octets of the other link -> QueryFrames::feed -> QR set: dropped, counted | QR clear: QueryFrames::take -> octets
//! ```
//!
//! A frame is passed on once it is whole. Each octet is moved a bounded number of times, however small the pieces are.
//! Octets that were read are let go of at the next piece.
//!
//! # What is proved
//!
//! - Of the pieces that a `QueryFrames` is fed exactly the frames without QR are given, in order, each after its length.
//!   What is in no whole frame yet is kept, and how many responses were dropped is said (`feed`, `take`).
//! - A `QueryLink` tells what the other link tells. In place of the octets that came since it was made stand those frames,
//!   without the octets that still wait. A read that found none in what came counts as an empty one.
//! - A read that gives no octets leaves none that wait, and Again comes only if the other link was read.
//! - Failures of a link are those of the other link, and so is who came.
//!
//! # What a body could still get away with
//!
//! Without memory a link ends, as if the peer sent no more. Then it tells nothing, as after 2^64 - 1 reads that found no
//! query. How often octets are moved, and how much memory is held, no clause says. Nor does one say that an accept object
//! gives links over those that came.
#![tactic(auto)]

mod query_accept;
mod query_frames;
mod query_link;
mod query_reads;

pub use query_accept::QueryAccept;
pub use query_frames::QueryFrames;
pub use query_link::QueryLink;
