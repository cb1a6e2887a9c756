//! What a client is sent of a zone transfer: all of its replies, in order, whatever its queue has room for.
//!
//! dns_transfer says that each reply of a transfer is answered within a transaction. dns_core says of which replies a
//! client is sent, and which are dropped if a queue is full: those outside of a transaction alone. Here the two are
//! one law, over the model of a server: `transfers_are_sent_whole`.
//!
//! ```text
//! poll 0: BeginTransaction, reply 0 | poll 1: reply 1 | .. | poll n: EndTransaction
//!              |                           |
//!              v                           v  no room: held, and not polled again before there is
//!            queue ---- write ----> frame 0, frame 1, ..
//! ```
//!
//! The crate has no code of its own. Whoever serves transfers over a stream reads here what a full queue does to them.
//!
//! # What is proved
//!
//! - On a connection that is open, a request whose replies are all in a transaction loses none of them. Once it was
//!   polled for them, holds none and the queue is empty, all of them were sent, in the order of its polls
//!   (`transactions_lose_nothing`).
//! - So all replies of a transfer were sent (`transfers_are_sent_whole`).
//!
//! # What a body could still get away with
//!
//! Nothing is said of a connection that is closed while a transfer runs: what was not sent is lost with it. When the
//! polls and the writes come is said by whoever drives the connection.
#![tactic(auto)]

mod laws;

pub use laws::{transactions_lose_nothing, transfers_are_sent_whole};
