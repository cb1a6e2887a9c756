//! A signed zone: a `ZoneTree` with a whole chain of NSEC records, and the NSECs that its replies need (RFC 4035, section
//! 3.1.3).
//!
//! - `SignedZone::of` takes an apex and records, and reads the chain from the NSEC records among them. It refuses records
//!   that are no zone, and a chain that isn't whole (`SignedZoneError`).
//! - `SignedZone::new` takes a zone and a `Chain` that was made elsewhere.
//! - `proofs` gives the NSECs for a name and a type, at most two. `is_in_zone` says of which names it may be asked.
//!
//! They are for the reply that dns_name_server makes of the zone: for each name of its chain of aliases they are asked for
//! once, and stand in the authority section.
//!
//! ```text
//! walk to the name -> it exists: its NSEC, or that of its gap
//!                  -> it doesn't: the NSEC of its gap, and that of its wildcard
//!                  -> a cut is above: the NSEC of the cut
//!                  -> DNAME records are above: none
//! ```
//!
//! # What is proved
//!
//! - A `SignedZone` has a whole chain: `of` and `new` give Ok only for one. That of `of` is the NSECs of its records, and a
//!   refusal says a cause.
//! - Whatever the reply says of the name is accepted by the definition of a validator with these NSECs: for each type but
//!   RRSIG and NSEC, and DS at the apex, which the parent denies (RFC 6840, section 4.4).
//! - They are NSECs of the zone.
//!
//! # What a body could still get away with
//!
//! More NSECs than a reply needs. By reading the code an answer that exists gets one, which its reply can leave out.
#![tactic(auto)]

mod reply_proofs;
mod signed_zone;
mod signed_zone_error;

pub use reply_proofs::Proofs;
pub use signed_zone::SignedZone;
pub use signed_zone_error::SignedZoneError;
