//! Accepts and datagrams beside each other, in one server. It exports the loop of accepts (dns_accepts).
//!
//! - `host_service` serves by a book, a seat, a service, and a `Host`: an accept object, a socket, a clock, a spawner
//!   and a recorder.
//! - `HostEnd` says how it ended: Done, HostFault or OutOfMemory.
//!
//! It splits its seat at the book, serves datagrams in a thread of its own and accepts beside it. Then it joins both
//! and shuts the book down. A connection that is admitted is served in a thread of its own.
//!
//! ```text
//! seat --split--> accepts   -> a thread for each connection
//!             --> datagrams -> one thread
//!      <--join--- the book is shut down
//! ```
//!
//! # What is proved
//!
//! All of it is one clause, `served` (`HostServed`):
//!
//! - accepts went from one half of the seat as `serve_accepts` says, and datagrams from the other as
//!   `serve_datagrams` says;
//! - both were up to one count; the halves were joined, and the book was shut down;
//! - HostFault comes only if an accept, a start, a receive or a send failed, and Done only if none did;
//! - OutOfMemory comes exactly if a loop ended so.
//!
//! # What a body could still get away with
//!
//! Which number, look and service a connection's work has. That work which is given up gives its slot back, and that
//! all work is joined, are tested.
#![tactic(auto)]

mod host;
mod serve_context;

pub use dns_accepts::{
    AcceptEnd, ConnectionEnd, ConnectionWork, NoHook, PreConnect, Recorder, Silent, VecRecorder,
    serve_accepts, serve_connection,
};
pub use dns_dgram_driver::{DgramEnd, pause, serve_datagrams};
pub use host::{Host, HostEnd, host_service};
pub use serve_context::{AcceptContext, ServeContext};
