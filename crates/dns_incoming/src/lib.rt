//! Zone transfers in (AXFR, RFC 5936): what comes of the messages of one. It does no input and output.
//!
//! - `IncomingTransfer` was asked for under an identifier, of the zone that begins at an apex. It takes at most a
//!   stated number of records.
//! - `take` takes a message of the connection. `status` says how far the transfer is (`TransferStatus`), and
//!   `into_records` gives the records.
//! - `TransferDefect` says why what came is no transfer of a zone.
//!
//! Whoever asks for the transfer opens the connection, sends the query and hands over what comes.
//!
//! ```text
//! IncomingTransfer::new -> take, take, .. -> status: done -> into_records -> Zone::new
//!                                         -> status: a fault, for good
//! ```
//!
//! # What is proved
//!
//! - The records that were sent of a zone come back: its SOA record, and then all others in order
//!   (`zones_come_back`).
//! - That holds of the octets that a transfer of dns_transfer sends (`sent_zones_come_back`).
//! - However the records are cut into messages, the same comes of them (`cuts_are_the_same`).
//! - Of a message of typed records exactly its answer records are taken (`messages_are_taken`).
//! - After a fault nothing more is taken, and no more records are kept than were allowed.
//!
//! # What a body could still get away with
//!
//! How much memory the records take. Which server sent the messages is up to the caller.
#![tactic(auto)]

mod incoming;
mod laws;
mod status;

pub use incoming::IncomingTransfer;
pub use laws::{cuts_are_the_same, messages_are_taken, sent_zones_come_back, zones_come_back};
pub use status::{TransferDefect, TransferStatus};
