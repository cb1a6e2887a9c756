//! What a configuration serves at a time: zones that were read of their files and judged, and what answers over them.
//!
//! - `Generation` is a list of zones. `add` reads one of the text of its file and judges it, and so does `add_for`, with
//!   networks of its own that may transfer it. `withhold` adds one that has no data, as a secondary's before its first
//!   transfer. `into_service` gives what answers.
//! - `ZoneTextError` says why a text isn't served: a line and its reason, or why its records are no zone.
//! - A zone with NSEC records is a signed one (RFC 4035, section 2.3), and so is one with NSEC3 or NSEC3PARAM records (RFC 5155,
//!   section 7.1). It is served with its chain, or refused if that isn't whole.
//! - `ZoneSummary` is what is said of a zone: its SOA record, how many records it has, and how it is signed (`ZoneSigning`).
//! - `networks` are those of a configuration to which zones are transferred, under a key or not.
//!
//! ```text
//! Generation::new -> add, withhold, .. -> into_service: a service for the layers
//! ```
//!
//! A new generation is made beside the one that serves. So a file that is refused leaves what is served.
//!
//! # What is proved
//!
//! - `add` puts exactly the zone after the others that the file's text writes, if it is one. Else it says the first
//!   fault and leaves the generation.
//! - That zone is signed with NSEC3 exactly if NSEC3 or NSEC3PARAM records are among its records, else with NSEC exactly if NSEC
//!   records are. Its chain is that of these records, and it is whole.
//! - What answers is the authority over the zones that were added, after those that were withheld.
//!
//! # What a body could still get away with
//!
//! Which file a text came from is up to the caller.
#![tactic(auto)]

mod generation;
mod network;
mod signing;
mod text;
mod zone_text_error;
mod zones;

pub use generation::{Generation, ZoneSummary};
pub use network::networks;
pub use signing::ZoneSigning;
pub use zone_text_error::ZoneTextError;
