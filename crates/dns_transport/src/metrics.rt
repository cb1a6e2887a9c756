//! What a server counts.

ghost use Rattle.std.specs.Prelude.{◌≡◌, true, false};

use std::marker::Model;
use std::sync::atomic::{AtomicUsize, Ordering};

/// What a server counts. Any thread may read and change a number at any time, and each call is one step on one number.
/// Adding to the largest number gives 0, and taking from 0 gives the largest. In clauses it is whether connections are
/// counted.
#[derive(Debug, Drop)]
pub struct ServerMetrics {
    num_connections: Option<AtomicUsize>,
    num_inflight_requests: AtomicUsize,
    num_pending_writes: AtomicUsize,
    num_received_requests: AtomicUsize,
    num_sent_responses: AtomicUsize,
}

impl Model for ServerMetrics {
    ghost use Rattle.std.specs.Prelude.{Bool, is_some};

    ghost Value = { Bool };

    ghost view = { λ m. is_some m.num_connections };
}

impl ServerMetrics {
    /// All numbers are 0, and no connections are counted: their number stays 0.
    pub fn connection_less() -> Self
        ensures { result ≡ false }
    {
        ServerMetrics {
            num_connections: None,
            num_inflight_requests: AtomicUsize::new(0),
            num_pending_writes: AtomicUsize::new(0),
            num_received_requests: AtomicUsize::new(0),
            num_sent_responses: AtomicUsize::new(0),
        }
    }

    /// All numbers are 0, and connections are counted.
    pub fn connection_oriented() -> Self
        ensures { result ≡ true }
    {
        ServerMetrics {
            num_connections: Some(AtomicUsize::new(0)),
            num_inflight_requests: AtomicUsize::new(0),
            num_pending_writes: AtomicUsize::new(0),
            num_received_requests: AtomicUsize::new(0),
            num_sent_responses: AtomicUsize::new(0),
        }
    }

    /// How many connections are served now, or 0 if they aren't counted.
    pub fn num_connections(&self) -> usize
        ensures { self.now ≡ false → result ≡ 0 }
    {
        match &self.num_connections {
            Some(number) => number.load(Ordering::Relaxed),
            None => 0,
        }
    }

    /// Sets the number of connections, if they are counted.
    pub fn set_num_connections(&self, new_value: usize) {
        if let Some(number) = &self.num_connections {
            number.store(new_value, Ordering::Relaxed);
        }
    }

    /// Adds a connection, if they are counted.
    pub fn inc_num_connections(&self) {
        if let Some(number) = &self.num_connections {
            number.fetch_add(1, Ordering::Relaxed);
        }
    }

    /// Takes a connection away, if they are counted.
    pub fn dec_num_connections(&self) {
        if let Some(number) = &self.num_connections {
            number.fetch_sub(1, Ordering::Relaxed);
        }
    }

    /// The number of requests that aren't answered yet. No server changes it.
    pub fn num_inflight_requests(&self) -> usize {
        self.num_inflight_requests.load(Ordering::Relaxed)
    }

    /// Sets the number of requests that aren't answered yet.
    pub fn set_num_inflight_requests(&self, new_value: usize) {
        self.num_inflight_requests
            .store(new_value, Ordering::Relaxed);
    }

    /// Adds a request that isn't answered yet.
    pub fn inc_num_inflight_requests(&self) {
        self.num_inflight_requests.fetch_add(1, Ordering::Relaxed);
    }

    /// Takes a request that isn't answered yet away.
    pub fn dec_num_inflight_requests(&self) {
        self.num_inflight_requests.fetch_sub(1, Ordering::Relaxed);
    }

    /// The number of responses that wait to be written. No server changes it.
    pub fn num_pending_writes(&self) -> usize {
        self.num_pending_writes.load(Ordering::Relaxed)
    }

    /// Sets the number of responses that wait to be written.
    pub fn set_num_pending_writes(&self, new_value: usize) {
        self.num_pending_writes.store(new_value, Ordering::Relaxed);
    }

    /// Adds a response that waits to be written.
    pub fn inc_num_pending_writes(&self) {
        self.num_pending_writes.fetch_add(1, Ordering::Relaxed);
    }

    /// Takes a response that waits to be written away.
    pub fn dec_num_pending_writes(&self) {
        self.num_pending_writes.fetch_sub(1, Ordering::Relaxed);
    }

    /// The number of requests received.
    pub fn num_received_requests(&self) -> usize {
        self.num_received_requests.load(Ordering::Relaxed)
    }

    /// Sets the number of requests received.
    pub fn set_num_received_requests(&self, new_value: usize) {
        self.num_received_requests
            .store(new_value, Ordering::Relaxed);
    }

    /// Adds a request received.
    pub fn inc_num_received_requests(&self) {
        self.num_received_requests.fetch_add(1, Ordering::Relaxed);
    }

    /// Takes a request received away.
    pub fn dec_num_received_requests(&self) {
        self.num_received_requests.fetch_sub(1, Ordering::Relaxed);
    }

    /// The number of responses sent.
    pub fn num_sent_responses(&self) -> usize {
        self.num_sent_responses.load(Ordering::Relaxed)
    }

    /// Sets the number of responses sent.
    pub fn set_num_sent_responses(&self, new_value: usize) {
        self.num_sent_responses.store(new_value, Ordering::Relaxed);
    }

    /// Adds a response sent.
    pub fn inc_num_sent_responses(&self) {
        self.num_sent_responses.fetch_add(1, Ordering::Relaxed);
    }

    /// Takes a response sent away.
    pub fn dec_num_sent_responses(&self) {
        self.num_sent_responses.fetch_sub(1, Ordering::Relaxed);
    }

    /// Adds requests received.
    pub(crate) fn add_received_requests(&self, count: usize) {
        self.num_received_requests
            .fetch_add(count, Ordering::Relaxed);
    }

    /// Adds responses sent.
    pub(crate) fn add_sent_responses(&self, count: usize) {
        self.num_sent_responses.fetch_add(count, Ordering::Relaxed);
    }
}

impl Default for ServerMetrics {
    ghost is_default = { λ m. m ≡ false };

    fn default() -> Self {
        ServerMetrics::connection_less()
    }
}
