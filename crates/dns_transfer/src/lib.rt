//! Zone transfers out (AXFR, RFC 5936): the records of a zone in several replies, which are a transaction.
//!
//! - `Bunches` are the records of a zone in the order of a transfer, in bunches, each of which one reply has.
//! - `Transfer` is a stream of replies: one for each bunch, and then the end of the transaction.
//! - `message_item` makes a reply the item of a stream, or InternalError if it doesn't fit a message.
//!
//! dns_authority answers a query for a transfer with it, if the client's address is allowed.
//!
//! ```text
//! SOA, records .., SOA -> bunch, bunch, .. -> reply, reply, .. -> EndTransaction
//! ```
//!
//! # What is proved
//!
//! - The answer records of the replies, joined, are the zone's, with the SOA record first and last
//!   (`transfers_are_whole`).
//! - Each reply fits a message (`transfers_fit`). It does whenever no record takes more than 65,000 octets and one
//!   question asks (`small_transfers_fit`).
//! - Each reply is queued in its transaction, which ends after the last one (`transfers_are_transactions`). So a full
//!   queue keeps a reply, and doesn't drop it.
//!
//! # What a body could still get away with
//!
//! How many records one reply has: any bunches that fit will do. How much memory a transfer takes while it runs.
#![tactic(auto)]

mod bunches;
mod laws;
mod packing;
mod transfer;

pub use bunches::Bunches;
pub use laws::{
    small_transfers_fit, transfers_are_transactions, transfers_are_whole, transfers_fit,
};
pub use transfer::{Transfer, message_item};
