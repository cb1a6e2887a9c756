//! The reply to a query, built record by record, and rewritten without being read again.
//!
//! A service for callers from other languages has a query's octets, and records as their fields or in wire form. Begun here, its reply
//! keeps the query's identifier, opcode, RD and questions (RFC 1035, section 4.1.1). Records are added by section, in the order of a
//! message, and options to its OPT record (RFC 6891). `rewritten` then makes of it what is sent, by the `ReplyRule` that
//! `dns_embed::decide_message` gave for the query.
//!
//! ```text
//! query -> ReplyBuilder::begin -> add_plain(Answer, record) -> add_option(code, data) -> rewritten(rule) -> a reply is sent
//! ```
//!
//! - `add` reads a record in wire form, and refuses data that hasn't the shape of its type. `add_plain` takes a `PlainRecord`, whose
//!   name and data are borrowed, and writes it as it is.
//! - `ServiceReply` is such a reply from call to call: begun, rewritten, or lost because memory ran out.
//! - `dns_embed::rewrite_message` does it for a reply that is octets: it reads them, and composes the message anew.
//!
//! # What is proved
//!
//! - The reply that is begun is the query's, with the response code and the bit AA that were asked for.
//! - A record stands last in its section, or the error says why not: unreadable, a later section was begun, or no room.
//! - An option stands last in the reply's only OPT record, or has no room.
//! - What is sent is what the rule makes of the message that was built (`rewrite_by`).
//!
//! # What a body could still get away with
//!
//! Running out of memory at any call that takes some.
#![tactic(auto)]

mod plain_record;
mod reply_builder;
mod service_reply;

pub use plain_record::PlainRecord;
pub use reply_builder::{AddError, ReplyBuilder};
pub use service_reply::ServiceReply;
