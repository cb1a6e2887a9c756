//! Options as octets, whatever their kinds: walking over them and appending them.
//!
//! - `OptionHeader` is the code and the length of an option, four octets (RFC 6891, section 6.1.2).
//! - `OptIter` gives the options of a list that a type reads.
//! - `append_option` appends a code, a length and data, and `append_value` a value of any kind.
//! - `written_by` and `written_as_stated` call a closure that writes an option's data.
//!
//! Lists with getters for each kind stand in dns_options; kinds stand in dns_lists, dns_algs, dns_kinds and
//! dns_cookie.
//!
//! ```text
//! octets -> OptIter::of -> D, D, .. | the first refused option, then the end
//! value -> append_value -> octets ++ code ++ length ++ data
//! ```
//!
//! # What is proved
//!
//! - `OptIter` gives the options that a type reads, in order, and after a refused one the end.
//! - An append adds exactly one pair of code and data (`push_adds_one_pair`). Without memory the vector is as before.
//! - Octets are an option list exactly if they are joined options (`lists_are_joined_options`).
//! - `written_as_stated` says whether the closure wrote as many octets as stated, and what it wrote.
//!
//! # What a body could still get away with
//!
//! How often octets are copied. An append doesn't check that the whole list stays below 65,536 octets: lists of
//! dns_options do.
#![tactic(auto)]

mod append;
mod iter;
mod laws;
mod option_header;

pub use append::{append_option, append_value, written_as_stated, written_by};
pub use iter::OptIter;
pub use laws::{lists_are_joined_options, push_adds_one_pair};
pub use option_header::OptionHeader;
