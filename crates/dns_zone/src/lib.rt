//! An authoritative service over a list of records of class IN, without wildcards and without DNSSEC.
//!
//! `Zone::new` takes an apex and a list of records, and refuses lists that are no zone (`ZoneError`). A `Zone` is a
//! single service, whose every turn is ready.
//!
//! ```text
//! question -> at or below a cut: referral | CNAME: followed | records of the type | none of it | no such name
//! ```
//!
//! # What is proved
//!
//! - A list is refused exactly as `zone_error` says, which names the first cause and the record's place.
//! - A turn gives the first of these that fits: FormatError without a readable question, NotImplemented for an opcode other than
//!   QUERY, Refused for a name outside or another class. Else it is the reply of `zone_reply` with AA.
//! - `zone_reply` is stated over the list of records alone (RFC 1034, section 4.3.2; RFC 2308). The code finds names
//!   by an ordered map, of which no definition speaks.
//! - The response code is NXDOMAIN exactly if no record is at the name or below it, and no cut at or above it
//!   (`missing_names_are_denied`).
//! - What is built of a reply is the message of `zone_reply`, section for section (`zone_replies_are_built`).
//!
//! # What a body could still get away with
//!
//! How many names a turn looks up. By reading the code it is one for each label below the apex, and three more, for
//! the question and for each alias. After the layers a zone's own errors are SERVFAIL.
#![tactic(auto)]

mod aliases;
mod check;
mod cuts;
mod error;
mod glue;
mod kinds;
mod laws;
mod listing;
mod name_places;
mod parts;
mod path;
mod reply;
mod sections;
mod zone;

pub use error::ZoneError;
pub use laws::{missing_names_are_denied, zone_replies_are_built};
pub use sections::begin_reply;
pub use zone::Zone;
