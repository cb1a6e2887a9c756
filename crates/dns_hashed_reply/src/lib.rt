//! The replies of a name server to queries with DO, from a zone that is signed with NSEC3 (RFC 5155, section 7.2).
//!
//! - `hashed_reply` gives the reply of a `HashedZone` to a query and its question. Without DO it is that of dns_name_server for the
//!   names of the zone: the owners of NSEC3 records are none (section 7.2.8).
//!
//! With DO each RRset of the answer and authority sections goes with its RRSIGs. What the reply says is absent goes with the NSEC3
//! records that prove it, each once, and their RRSIGs. RRSIGs of the additional section are given if the message stays within a
//! size that the caller says.
//!
//! ```text
//! no such name        closest encloser, next closer name, wildcard            7.2.2
//! no data             the name; DS in a span with Opt-Out: encloser, next     7.2.3, 7.2.4
//! wildcard, no data   closest encloser, next closer name, the wildcard's      7.2.5
//! wildcard answer     next closer name                                        7.2.6
//! referral            its DS; none: the cut, or encloser and next             7.2.7
//! a hash collides     SERVFAIL                                                7.2.9
//! ```
//!
//! Nothing here makes or verifies a signature: zones are signed elsewhere.
//!
//! # What is proved
//!
//! - What is built is the message of `hashed_reply`, section for section (`specs/HashedReplies.antt`).
//! - Signing adds and never changes (`signing_adds_only3`), and adds all (`signing_adds_all3`). Without DO nothing is added
//!   (`nothing_without_do3`).
//! - Each NSEC3 that is chosen is what an NSEC3 record of the reply says (`chosen_are_given3`).
//! - If the chain has a proof at all and no hash collides, a validator accepts what the reply says of each name
//!   (`hashed_replies_are_accepted`). `IsProvable` of dns_denial says where a span with Opt-Out leaves none.
//!
//! # What a body could still get away with
//!
//! How often the zone is walked, how many hashes are made and how often records are copied.
#![tactic(auto)]

mod denials;
mod laws;
mod reply;

pub use laws::{
    chosen_are_given3, hashed_replies_are_accepted, nothing_without_do3, signing_adds_all3,
    signing_adds_only3,
};
pub use reply::hashed_reply;
