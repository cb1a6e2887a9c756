//! What a book shows.

use crate::config::{DgramConfig, StreamConfig};

/// All that a book holds at one moment.
#[derive(Clone, Copy, Debug, PartialEq, Eq)]
pub struct Look {
    /// How often the configurations were replaced, counted on from the version that the book began with.
    pub version: u64,
    /// Whether the server was shut down.
    pub closed: bool,
    /// How many slots are taken.
    pub taken: u64,
    /// The configuration of datagram servers.
    pub dgram: DgramConfig,
    /// The configuration of stream servers, with the limit of slots.
    pub stream: StreamConfig,
}
