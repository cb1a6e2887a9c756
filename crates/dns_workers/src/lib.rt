//! Accepts beside several workers, in one server. Each worker serves datagrams from a socket of its own.
//!
//! - `Worker::new` makes a worker of a socket, a clock and a recorder.
//! - `WorkersHost` has an accept object, the workers and a spawner. `WorkersHost::serve` serves by a seat and by what
//!   `AcceptContext` lends: a book, a service that all share, and what the clock of each connection is made of.
//! - `HostEnd` says how all ended together: Done, HostFault or OutOfMemory.
//!
//! The seat is split once for each worker, and accepts go from what is left. Each worker serves in a thread of its own. One that
//! ends by a fault or without memory shuts the book down, which ends all. Then the seats are joined, and the book is shut down.
//!
//! ```text
//! seat --split--> worker 0  -> a thread
//!      --split--> worker 1  -> a thread
//!      ..
//!             --> accepts   -> a thread for each connection
//!      <--join--- the book is shut down
//! ```
//!
//! # What is proved
//!
//! `served` (`WorkersServed`) and `cause` (`RoseBy`):
//!
//! - each worker served as `serve_datagrams` says, from its own socket, and its looks stand under the name of its own seat;
//! - accepts went from the rest of the seat as `serve_accepts` says; the seats were joined, and the book was shut down;
//! - HostFault comes only if an accept, a start, a receive or a send failed, and Done only if none did;
//! - OutOfMemory comes exactly if a loop ended so.
//!
//! # What a body could still get away with
//!
//! That workers serve at once, and which work a connection is served by. Both are tested.
#![tactic(auto)]

mod seats;
mod worker;
mod workers_host;

pub use dns_host::{
    AcceptContext, AcceptEnd, ConnectionWork, DgramEnd, HostEnd, Recorder, ServeContext, Silent,
    VecRecorder,
};
pub use worker::Worker;
pub use workers_host::WorkersHost;
