//! The loop that serves one connection: it moves octets between a link and a client's core.
//!
//! `serve_connection` is handed a link, a clock, a recorder, a seat at the book, a look and a service. Each turn of its
//! loop looks at the book, and then does one thing: it writes the frame in front, polls a request, or reads. Each event
//! is noted in the recorder before the core hears it. At its end the slot is given back and the link is closed.
//!
//! # What is proved
//!
//! - `observed`, if contracts know what link and recorder hold: what was written are the frames that the rules send for
//!   the noted events, in order. After a write that failed or was late a part of one more may follow. What was read are
//!   the events' pieces, in order. The last event closes the connection, for the reason that is answered (`Story`).
//! - The noted events are the connection's own, with the news of a look before each (`IsWoven`), and each may come
//!   where it stands (`Rounds`): the queue is written until it is empty, then each unfinished request has a turn, then
//!   comes a read.
//! - `cause`, always: the link's count of faults rose exactly if the answer is Fault. Shutdown comes only if a look
//!   showed one, and Commanded never.
//! - `clock`: each event carries a reading of the clock, in order.
//! - `seat`, always: the seat made looks and one release.
//!
//! # What a body could still get away with
//!
//! That a wait waits, and how long. Over a machine's link only what is said as always, unless a witness stands over it
//! (dns_witness). A body could read fewer octets a call than there are.
#![tactic(auto)]

mod acting;
mod closing;
mod connection;
mod look_news;
mod reading;
mod turn_state;
mod turning;
mod writing;

pub use connection::{ConnectionEnd, serve_connection};
pub use dns_recorder::{MAX_WAIT_MS, Recorder, Silent, VecRecorder};
