//! The presentation format of names, types and data (RFC 1035, section 5.1; RFC 3597, section 5).
//!
//! - `name_in` reads a name that a word is, below an origin if it doesn't end with a dot.
//! - `type_in` reads a type, by its name or as TYPE and a number. `class_of` says whether a word names a class, and
//!   whether that is IN. `spells` compares a word, whatever its case.
//! - `period_in` reads a time in seconds.
//! - `data_of` reads the words of an entry as the data of its type, or as the generic form of RFC 3597.
//!
//! Words come from dns_entries, what single words spell from dns_word_values. dns_zone_file reads whole files with
//! it.
//!
//! ```text
//! entry: owner  3600  IN  MX  10  mail  -> name_in, period_in, class_of, type_in, data_of -> Record
//! ```
//!
//! # What is proved
//!
//! - Each call gives exactly the octets or the number of its definition, or the definition's first refusal with its
//!   line.
//! - Data that is read has the shape of its type, so that it may stand in a record.
//! - A type that isn't known has data in the generic form alone.
//!
//! # What a body could still get away with
//!
//! How much time and memory an entry takes. Which types are known by name is a table, and rows show it.
#![tactic(auto)]

mod fields;
mod names;
mod param_values;
mod rdata;
mod service_params;
mod types;

pub use fields::{period_in, type_in};
pub use names::name_in;
pub use rdata::data_of;
pub use types::{class_of, spells};
