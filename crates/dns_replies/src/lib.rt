//! Error replies, options that are added to replies and removed, and truncation.
//!
//! - `mk_error_response` makes the error reply to a query, and `mk_builder_for_target` an empty message of at most
//!   65,535 octets.
//! - `add_edns_option` adds one option to the OPT record of a reply. `add_edns_options` lends the record to a
//!   closure, which builds on it.
//! - `remove_edns_opt_record` drops the OPT records of a reply.
//! - `cut` makes a reply fit a limit in octets (RFC 6891, section 7).
//!
//! All of them work on an `AdditionalBuilder` of dns_base, which is what a service gives as a reply.
//!
//! ```text
//! query -> mk_error_response(rcode) -> add_edns_option -> cut(limit) -> reply
//! ```
//!
//! # What is proved
//!
//! - An error reply is `error_reply` of the query and the code. The upper eight bits of the code stand in an OPT
//!   record, if there is room for one.
//! - An option is added after those that are there (`AddsOption`), and all else stays. A refused call leaves the
//!   reply.
//! - `remove_edns_opt_record` leaves all other records in order, and is never refused.
//! - A reply that is cut fits, for each limit from 512 on (`cut_fits`). It is all there, or has TC with its questions
//!   and its OPT record, or less of them.
//!
//! # What a body could still get away with
//!
//! How often octets are moved. A reply that fits isn't copied, which is known from reading the code.
#![tactic(auto)]

mod cutting;
mod opt_in;
mod options;
mod reply;

pub use cutting::{cut, cut_fits};
pub use dns_opt::{Cookie, OptRecord, OptRef};
pub use options::{add_edns_option, add_edns_options, remove_edns_opt_record};
pub use reply::{mk_builder_for_target, mk_error_response};
