//! A name server of several zones: the zone for a question, transfers out, and who may have them.
//!
//! - `Authority` is a service with zones by their apex.
//! - `add` adds a `ZoneTree` of dns_zone_tree, whose records each have room in a reply. It may be transferred to the
//!   networks of `Authority::new`, or to those of its own that `add_for` takes. `add_data` adds a zone that
//!   is signed or not (`ZoneData`): the replies of a `SignedZone` of dns_signed_zone and of a `HashedZone` of dns_hashed_zone to
//!   DO have RRSIGs and denials.
//! - `Network` is the addresses whose first bits are those of an address (dns_networks).
//! - `AuthorityStream` and `AuthorityFuture` are its replies: one reply, or the replies of a transfer.
//!
//! The reply to a question is that of dns_name_server, from a signed zone that of dns_signed_reply, from one that is signed with
//! NSEC3 that of dns_hashed_reply. The replies of a transfer come from dns_transfer, with all records of the zone. A refusal is a
//! reply with a response code. So the layers give it an OPT record and a cookie as they do any other.
//!
//! ```text
//! question -> no zone, or another class than IN: REFUSED
//!          -> AXFR, IXFR at the apex, over a stream: the address may have the zone ? the transfer : REFUSED
//!          -> the zone with the longest apex -> the reply of a name server
//! ```
//!
//! # What is proved
//!
//! - The zone with the longest apex that ends the question's name answers (`the_longest_apex_answers`).
//! - A query for a transfer gets it if it is allowed, and else REFUSED (`transfers_are_answered`). Its answer
//!   records, joined, are those of the zone (`transfers_are_the_records`), of each zone that is made (`zones_are_sent`).
//! - NOTIMP is the reply to another opcode than QUERY, and FORMERR to a query without one readable question.
//! - A refused `add` leaves the authority.
//!
//! # What a body could still get away with
//!
//! How many zones are passed over, and how much memory a transfer takes.
#![tactic(auto)]

mod authority;
mod laws;
mod stream;
mod zone_data;
mod zones;

pub use authority::Authority;
pub use dns_networks::Network;
pub use dns_transfer::Transfer;
pub use laws::{
    the_longest_apex_answers, transfers_are_answered, transfers_are_the_records, zones_are_sent,
};
pub use stream::{AuthorityFuture, AuthorityStream};
pub use zone_data::ZoneData;
