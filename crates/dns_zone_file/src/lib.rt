//! Zone files (RFC 1035, section 5; RFC 2308, section 4; RFC 3597, section 5), read and written as records.
//!
//! - `read_zone` reads a whole text below an origin. `ZoneReader` reads a text that comes in pieces, which may be cut
//!   anywhere: `take` each, then `finish`.
//! - `write_zone` writes records, one a line with absolute names, and `write_record` one line.
//! - `ZoneFileError` says why there are no records: a refusal with its line and its `EntryReason`, or no memory.
//!
//! $ORIGIN and $TTL are read, and $INCLUDE is refused; dns_zone_include reads it. All records are of class IN.
//! `ZoneDraft` holds the records so far, and takes an entry at a time, for readers such as that one.
//!
//! ```text
//! text -> read_zone -> records -> Zone::new -> a service
//! records -> write_zone -> text -> read_zone -> the records
//! ```
//!
//! # What is proved
//!
//! - What is read are exactly the records of the definition `zone_file`, or its first refusal with line and reason.
//! - What is written of records reads back as these records, below any origin (`a_zone_reads_back`).
//! - A text in pieces is read as the whole text (`a_zone_comes_in_pieces`).
//! - A line of words is one entry of these words (`lines_are_entries`).
//! - An entry that is refused leaves the records and all that is said so far as they were.
//! - No text crashes a call, and every loop ends. Each record is fit for `Zone::new` of dns_zone.
//!
//! # What a body could still get away with
//!
//! How much time and memory a text takes.
#![tactic(auto)]

mod draft;
mod laws;
mod read;
mod reader;
mod record;

pub use dns_entries::{EntryReason, ZoneFileError};
pub use dns_record_text::{PresentationText, write_record, write_zone};
pub use draft::{ZoneDraft, ZonePlace};
pub use laws::{a_zone_comes_in_pieces, a_zone_reads_back, lines_are_entries, names_read_back};
pub use read::{closed, read_zone};
pub use reader::ZoneReader;
