//! Counts of what comes to a server.

use std::sync::atomic::{AtomicU64, Ordering};

/// How many connections were accepted, and how many responses were dropped, at any number of sockets. Past 2^64 - 1 a count begins
/// anew.
#[derive(Drop)]
pub struct QueryCounts {
    connections: AtomicU64,
    dropped: AtomicU64,
}

impl QueryCounts {
    /// Nothing yet.
    pub fn new() -> QueryCounts {
        QueryCounts {
            connections: AtomicU64::new(0),
            dropped: AtomicU64::new(0),
        }
    }

    /// Counts a connection that was accepted.
    pub fn count_connection(&self) {
        let _ = self.connections.fetch_add(1, Ordering::SeqCst);
    }

    /// Counts that many responses that were dropped.
    pub fn count_dropped(&self, count: u64) {
        let _ = self.dropped.fetch_add(count, Ordering::SeqCst);
    }

    /// How many connections were accepted.
    pub fn connections(&self) -> u64 {
        self.connections.load(Ordering::SeqCst)
    }

    /// How many responses were dropped.
    pub fn dropped(&self) -> u64 {
        self.dropped.load(Ordering::SeqCst)
    }
}
