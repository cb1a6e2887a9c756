//! The exit status of a server, by how its host ended.
//!
//! - `status_of_host` gives the `Status` (dns_run) that stands for a `HostEnd` (dns_host).
//!
//! | The host | Status |
//! |---|---|
//! | served what it was to serve, or was shut down | Done |
//! | had no memory | OutOfMemory |
//! | failed in an accept, a start, a receive or a send | HostFault |
//!
//! ```text
//! serve_host -> HostEnd -> status_of_host -> Status -> Status::number -> the exit status of the program
//! ```
//!
//! Hosts know nothing of the program, and `run` knows nothing of hosts. So what joins them stands above both.
//!
//! # What is proved
//!
//! - Each end has its own status, and no other status is that of a host (`status_of_host`, `OfHost`).
//!
//! # What a body could still get away with
//!
//! Nothing: the clause gives the result.
#![tactic(auto)]

mod host_status;

pub use host_status::status_of_host;
