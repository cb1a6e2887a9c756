//! The loop that accepts connections, and the work that serves one connection in its thread.
//!
//! - `serve_accepts` accepts connections until `count` of them came, 0 standing for no limit, or a look shows a
//!   shutdown. `serve_accepts_with_faults` says too whether an accept failed or a start was refused.
//! - `ConnectionWork` is one admitted connection. A spawner runs it in a thread of its own, by `serve_connection` of
//!   dns_stream_driver.
//! - `PreConnect` is called on each link that was admitted, before it is served; `NoHook` does nothing.
//! - `AcceptEnd` says how the loop ended.
//!
//! The crate exports the loop of one connection and the recorders (dns_stream_driver).
//!
//! ```text
//! look -> accept -> admit at the book -> slot:    ConnectionWork -> Spawner
//!                                     -> no slot: the link is closed
//! ```
//!
//! After a failed accept the loop waits 10 ms and goes on.
//!
//! # What is proved
//!
//! - The turns of the loop are the only calls of its seat, and no turn follows a look at a shutdown.
//! - One work was given to the spawner for each connection that was admitted, in order (`AcceptsTo`).
//! - No more connections are accepted than were to be.
//! - The counts of failed accepts and of refused starts never fall.
//!
//! # What a body could still get away with
//!
//! Which number, look and service a connection's work has, and whether a hook is called. That a wait waits, and how
//! long. Of the machine's accept object contracts know its failed calls alone, unless a witness stands over it
//! (dns_witness).
#![tactic(auto)]

mod acceptor;
mod accepts;
mod pre_connect;
mod taking;
mod work;

pub use accepts::{AcceptEnd, serve_accepts, serve_accepts_with_faults};
pub use dns_stream_driver::{ConnectionEnd, Recorder, Silent, VecRecorder, serve_connection};
pub use pre_connect::{NoHook, PreConnect};
pub use work::ConnectionWork;
