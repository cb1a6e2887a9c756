//! Servers: a socket or a listener with a service, a book and metrics of its own.
//!
//! - `DgramServer` serves datagrams and `StreamServer` connections. Over real sockets they are `UdpServer` and
//!   `TcpServer`.
//! - `control` gives a `Control` for another thread: `reconfigure`, `shutdown`, `is_shutdown`, `await_shutdown`.
//! - `metrics` counts requests received, responses sent and connections (`ServerMetrics`).
//! - `with_pre_connect_hook` gives a hook that is called on each admitted link.
//!
//! ```text
//! let mut server = DgramServer::new(alloc, sock, VecBufSource, service, clock)?;
//! let control = server.control(&rt);          // for another thread
//! let end = server.run(&rt, alloc, &mut recorder);
//! ```
//!
//! # What is proved
//!
//! - `run` of a server of datagrams takes a slot if one is free, and gives it back at the end. Between it does what
//!   `serve_datagrams` promises without a count. If the book is closed it does nothing.
//! - `run` of a server of connections does what `serve_accepts` promises without a count.
//! - Each call of a control makes exactly that call of the book. `shutdown` is never refused. `is_shutdown` is true
//!   exactly if its look shows a shutdown and no slot taken.
//! - `await_shutdown` is true only if its last look shows that, and false only if so much time passed by the clock.
//!
//! # What a body could still get away with
//!
//! Count nothing, call no hook, or join no work; tests show these. What is written to connections over real sockets,
//! unless witnesses stand over them (dns_witness).
#![tactic(auto)]

mod buf;
mod command;
mod conn_context;
mod control;
mod dgram;
mod frames;
mod hook;
mod metered;
mod metered_accept;
mod metered_sock;
mod metrics;
mod server_parts;
mod stream;

pub use buf::{BufSource, VecBufSource};
pub use command::ServerCommand;
pub use control::Control;
pub use dgram::{DgramServer, UdpServer};
pub use dns_host::{
    AcceptEnd, ConnectionEnd, ConnectionWork, DgramEnd, Host, HostEnd, NoHook, PreConnect,
    Recorder, Silent, VecRecorder, host_service, serve_accepts, serve_connection, serve_datagrams,
};
pub use metered::Metered;
pub use metered_accept::MeteredAccept;
pub use metered_sock::MeteredSock;
pub use metrics::ServerMetrics;
pub use stream::{StreamEnd, StreamServer, TcpServer};
