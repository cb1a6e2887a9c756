//! What single words of a zone file spell: numbers, times, addresses, strings, base32 and sets of types.
//!
//! - `decimal` reads a number below a bound, and `seconds` a time: a number, or numbers with a unit each, as in
//!   1h30m.
//! - `moment` reads a date and a time of a signature, or the number of its seconds (RFC 4034, section 3.2).
//! - `quad` reads an IPv4 address, and `long_address` one of IPv6 (RFC 4291, section 2.2).
//! - `string` gives the octets that a string spells, its escapes resolved (RFC 1035, section 5.1).
//! - `base32_octets` reads digits in whole groups of eight (RFC 4648, section 7; RFC 5155, section 3.3).
//! - `type_set` writes numbers of types as a type bit map (RFC 4034, section 4.1.2).
//!
//! No reader knows of lines: dns_presentation adds the line to a refusal.
//!
//! ```text
//! "1h30m" -> seconds -> 5400        "192.0.2.1" -> quad -> four octets
//! ```
//!
//! # What is proved
//!
//! - Each reader gives exactly the value of its definition, or refuses exactly the words that have none.
//! - The definitions speak of octets and numbers alone, and each names its section of a standard.
//!
//! # What a body could still get away with
//!
//! How much time and memory a word takes.
#![tactic(auto)]

mod base32;
mod moments;
mod type_sets;
mod values;

pub use base32::base32_octets;
pub use moments::moment;
pub use type_sets::type_set;
pub use values::{decimal, long_address, quad, seconds, string};
