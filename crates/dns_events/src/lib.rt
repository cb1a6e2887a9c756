//! What happens to a server and what it does, as plain values, with its settings and configurations.
//!
//! - `Event` is one thing that happens: its moment in ms, its seconds, the number of its client, and its `EventKind`.
//!   An event that all clients hear has no client.
//! - `Step` is an event, or a look of one client at the book, for servers whose clients look for themselves.
//! - `Output` is what a client is sent, and `Why` the reason for a close.
//! - `Settings` are those of the layers and of both servers: strict, EDNS, the secret of cookies, denied addresses,
//!   and the configurations below.
//! - `DgramConfig`, `StreamConfig` and `ConnectionConfig` are configurations of datagrams, of the stream server and
//!   of each connection. Timeouts are in ms and sizes in octets.
//! - `Look` is all that a book shows at one moment, and `Error` why a command was refused.
//!
//! Recorders, scripts, drivers and both cores speak in these values.
//!
//! # What is proved
//!
//! - Each setter of a configuration clamps its value to its range. So every configuration is in range, however it was
//!   made; the ranges stand beside the setters.
//! - `Settings::new` is strict, with EDNS, without cookies and denied addresses, and with both default
//!   configurations.
//! - `try_clone` gives equal settings, or fails without memory.
//!
//! # What a body could still get away with
//!
//! What Debug writes. By reading the code it doesn't show the secret. What the numbers of an event mean is up to who
//! makes it.
#![tactic(auto)]

mod config;
mod error;
mod event;
mod event_fmt;
mod look;
mod settings;

pub use config::{ConnectionConfig, DgramConfig, StreamConfig};
pub use error::Error;
pub use event::{Event, EventKind, Output, Step, Why};
pub use look::Look;
pub use settings::Settings;
