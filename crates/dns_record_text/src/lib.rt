//! The text of records (RFC 1035, section 5.1; RFC 3597, section 5), with absolute names.
//!
//! - `write_zone` writes records, one a line, and `write_record` appends the line of one.
//! - `PresentationText` is such a text for Display, as that of a record.
//!
//! Data of known types is written in its own form. That of others is written in the generic form of RFC 3597.
//! dns_zone_file reads what is written of records.
//!
//! ```text
//! Record -> owner TTL IN TYPE data, each separated by a blank, and LF
//! ```
//!
//! # What is proved
//!
//! - The text of records is exactly that of the definition, line by line. A call is refused without memory alone.
//! - An octet of a name or a string is written as an escape if it can't stand as itself.
//!
//! That a text reads back as its records is a law of dns_zone_file, where the reader stands.
//!
//! # What a body could still get away with
//!
//! How much memory a line takes while it is written.
#![tactic(auto)]

mod names;
mod octets;
mod rdata;
mod records;
mod text;
mod text_strings;

pub use names::push_name;
pub use octets::{push, push_number};
pub use records::{push_class, write_record, write_zone};
pub use text::PresentationText;
