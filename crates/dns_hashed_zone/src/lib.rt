//! A zone that is signed with NSEC3: a `ZoneTree` with a whole chain of the hashes of its names, and the NSEC3 records that its
//! replies need (RFC 5155, section 7).
//!
//! - `HashedZone::of` takes an apex and records. NSEC3 records, and the RRSIGs that cover them, are put aside: their owners are no
//!   names of the zone (section 7.2.8). It refuses records that are no zone, and a chain that isn't whole (`HashedZoneError`).
//! - `search` finds the NSEC3 of a name, or those of its closest provable encloser and of the next closer name (`HashedName`).
//!   `near` finds the NSEC3 that matches or covers one name. NSEC3s are said by their places in the order of hashes.
//! - `group` has the NSEC3 record at such a place with its RRSIGs.
//! - `all_records` copies all records, for a transfer: those of names, and behind them the others.
//!
//! ```text
//! name has an NSEC3 -> Own: its place
//! else              -> Missing: the places of the closest provable encloser and of the next closer name
//! ```
//!
//! # What is proved
//!
//! - A `HashedZone` has a whole chain (`IsWhole3` of dns_denial), and its NSEC3s are those of its records. Each NSEC3 has the
//!   records of its owner, and no record is lost (`specs/MadeHashed.antt`).
//! - A refusal says a cause: what records are no chain or no zone, or a place at which the chain isn't whole. Which names
//!   need an NSEC3, and what it lists, stands in `specs/HashedChecks.antt`.
//! - `search` and `near` find the NSEC3s that the definitions of RFC 5155, section 7.2.1, name (`specs/Searches.antt`).
//!
//! # What a body could still get away with
//!
//! How many hashes a call makes. By reading the code `search` makes one for each name from the one asked up to its closest
//! provable encloser, and `near` makes one. The check of a chain makes one for each name at or above the owner of a record. It
//! makes none for a record with the owner of the one before it. In what order the records of one NSEC3 stand isn't said either. Nor is
//! which of several causes a refusal names.
#![tactic(auto)]

mod check;
mod groups;
mod hashed_zone;
mod hashed_zone_error;
mod search;

pub use hashed_zone::HashedZone;
pub use hashed_zone_error::{HashedChainError, HashedZoneError};
pub use search::{HashedName, Near};
