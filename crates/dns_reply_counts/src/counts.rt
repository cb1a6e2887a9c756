//! Counts of replies.

use dns_base::{OutOfMemory, Rcode};
use std::alloc::Global;
use std::sync::atomic::{AtomicU64, Ordering};

/// How many response codes a header can have (RFC 1035, section 4.1.1).
const CODES: usize = 16;

/// How many replies were passed on, by transport and response code.
#[derive(Drop)]
pub struct ReplyCounts {
    udp: Vec<AtomicU64>,
    stream: Vec<AtomicU64>,
}

/// A zero for each response code.
fn zeros(alloc: Global) -> Result<Vec<AtomicU64>, OutOfMemory> {
    let mut counts = Vec::new(alloc);
    for _ in 0..CODES {
        counts.push(AtomicU64::new(0))?;
    }
    Ok(counts)
}

impl ReplyCounts {
    /// No reply yet.
    pub fn new(alloc: Global) -> Result<ReplyCounts, OutOfMemory> {
        let udp = zeros(alloc)?;
        let stream = zeros(alloc)?;
        Ok(ReplyCounts { udp, stream })
    }

    /// The counts of a transport.
    fn counts(&self, is_stream: bool) -> &[AtomicU64] {
        if is_stream {
            self.stream.as_slice()
        } else {
            self.udp.as_slice()
        }
    }

    /// Counts a reply. Past 2^64 - 1 the count begins anew.
    pub(crate) fn count(&self, is_stream: bool, code: Rcode) {
        if let Some(count) = self.counts(is_stream).get(code.to_int() as usize) {
            let _ = count.fetch_add(1, Ordering::SeqCst);
        }
    }

    /// How many replies with a response code were passed on over UDP, or over a stream.
    pub fn number(&self, is_stream: bool, code: Rcode) -> u64 {
        match self.counts(is_stream).get(code.to_int() as usize) {
            Some(count) => count.load(Ordering::SeqCst),
            None => 0,
        }
    }
}
