//! The loop that serves all datagrams of a socket.
//!
//! - `serve_datagrams` is handed a socket, a clock, a recorder, a seat at the book and a service.
//!   `serve_datagrams_with_sends` says too whether a send failed.
//! - `DgramEnd` says how the loop ended: Shutdown, Counted, Fault or OutOfMemory.
//!
//! Each round looks at the book, receives one datagram, and polls each exchange that isn't finished. A reply that
//! finds no room waits for the write timeout at most.
//!
//! ```text
//! look -> receive -> note -> begin the exchange -> poll each exchange -> note -> send
//! ```
//!
//! # What is proved
//!
//! - `observed`, if contracts know what socket, clock and recorder hold: each datagram received is noted once, in
//!   order. The note has its sender's address and its first 1,024 octets. What was sent is what `out` has for the
//!   noted events, each to its exchange's address, except those whose send failed or was late (`ServedBy`).
//! - Between two datagrams each unfinished exchange has a turn (`Input`).
//! - Shutdown comes only if a look showed one, and Counted only if as many datagrams came as were to be. Both come
//!   only if every exchange is finished (`EndsBy`). No more datagrams are received than were to be served.
//! - `cause`, always: the count of failed receives rose exactly if the answer is Fault.
//!
//! # What a body could still get away with
//!
//! That a wait waits, and how long. Over a machine's socket only what is said as always, unless a witness stands over
//! it (dns_witness).
#![tactic(auto)]

mod dgram_loop;
mod exchanges;
mod looks;
mod notes;
mod polls;
mod receiving;
mod running;
mod sends;
mod serving;
mod spare;

pub use dns_recorder::{MAX_WAIT_MS, Recorder, Silent, VecRecorder, pause};
pub use serving::{DgramEnd, serve_datagrams, serve_datagrams_with_sends};
