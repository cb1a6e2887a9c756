//! The reply of a name server to a question for a name of a zone (RFC 1034, section 4.3.2).
//!
//! - `name_server_reply` composes it from a `ZoneTree`, a query and its question, in one pass.
//!
//! Its definition goes where name servers go and `zone_reply` of dns_zone, the reply of a single service, doesn't. A
//! chain of aliases is followed to its end, and the end says the response code (RFC 6604): NXDOMAIN or NODATA with
//! the SOA record, or a referral after the aliases. A loop gives each record once (RFC 2181, section 5). Wildcards
//! are given as the name that was asked for (RFC 4592). DNAME records substitute (RFC 6672). DS at a cut is the
//! parent's (RFC 4035, section 3.1.4.1).
//!
//! ```text
//! name -> at or below a cut: referral
//!      -> below DNAME records: the record, a CNAME record made of it, and on with its target
//!      -> CNAME: the record, and on with its target
//!      -> records of the type | none of it: SOA | no such name: NXDOMAIN, SOA
//! ```
//!
//! Whoever serves several zones takes dns_authority, which finds the zone for a question.
//!
//! # What is proved
//!
//! - What is built is the message of `name_server_reply`, section for section, which is stated over the list of
//!   records alone.
//! - If no alias and no DNAME record is in the way and the type isn't DS, the reply is `wild_reply`. If no wildcard exists it is
//!   that of a zone, `zone_reply` (`direct_replies_are_the_zones`).
//! - If no wildcard exists, `wild_reply` is `zone_reply` (`wildcards_alone`). None exists if no label of an owner
//!   is `*` (`wildcards_are_stars`).
//! - A name that exists never has the records of a wildcard (`existing_names_are_their_own`; RFC 4592, section 2.2.1).
//!
//! # What a body could still get away with
//!
//! How many names are looked up and how often records are copied. A chain asks for 128 names at most; what a longer
//! one would give is left out.
#![tactic(auto)]

mod compose;
mod laws;
mod names;
mod reply;
mod step;

pub use laws::{
    direct_replies_are_the_zones, existing_names_are_their_own, wildcards_alone,
    wildcards_are_stars,
};
pub use reply::name_server_reply;
