//! A link that counts.

ghost use Rattle.std.specs.Prelude.{◌≡◌};

use crate::frames::FrameCount;
use crate::metrics::ServerMetrics;
use dns_io::{Link, LinkRead, LinkWrite};
use std::marker::Model;
use std::sync::{Arc, Wait};

/// A link over another, which tells what that tells. It adds to the metrics that it is given each frame whose end is read or
/// written. It adds the connection, from `connect` on until it is closed. In clauses it is the other link.
#[derive(Drop)]
pub struct Metered<L> {
    inner: L,
    metrics: Option<Arc<ServerMetrics>>,
    connected: bool,
    read: FrameCount,
    written: FrameCount,
}

impl<L> Model for Metered<L> {
    ghost Value = { L };

    ghost view = { λ m. m.inner };
}

impl<L> Metered<L> {
    /// Counts for these metrics, or nothing without any.
    pub fn new(inner: L, metrics: Option<Arc<ServerMetrics>>) -> Metered<L>
        ensures { result ≡ inner }
    {
        Metered {
            inner,
            metrics,
            connected: false,
            read: FrameCount::new(),
            written: FrameCount::new(),
        }
    }

    /// The link inside, without the counting round it.
    pub fn inner(&self) -> &L
        ensures { result.now ≡ self.now }
    {
        &self.inner
    }

    /// The link inside, to be changed.
    pub(crate) fn inner_mut(&mut self) -> &mut L {
        &mut self.inner
    }

    /// Adds the connection, if it isn't counted.
    pub fn connect(&mut self)
        ensures { self.new ≡ self.old }
    {
        if !self.connected
            && let Some(metrics) = &self.metrics
        {
            metrics.inc_num_connections();
            self.connected = true;
        }
    }

    // Takes the connection away, if it is counted.
    fn disconnect(&mut self)
        ensures { self.new ≡ self.old }
    {
        if self.connected
            && let Some(metrics) = &self.metrics
        {
            metrics.dec_num_connections();
            self.connected = false;
        }
    }
}

impl<L: Link> Link for Metered<L> {
    ghost tells = { λ link. L.tells link };

    ghost traffic = { λ link. L.traffic link };

    ghost faults = { λ link. L.faults link };

    fn read(&mut self, buf: &mut [u8]) -> LinkRead {
        let answer = self.inner.read(buf);
        if let LinkRead::Got(count) = answer {
            let frames = self.read.pass(&buf[..count]);
            if frames > 0
                && let Some(metrics) = &self.metrics
            {
                metrics.add_received_requests(frames);
            }
        }
        answer
    }

    fn write(&mut self, piece: &[u8]) -> LinkWrite {
        let answer = self.inner.write(piece);
        if let LinkWrite::Took(count) = answer {
            let frames = self.written.pass(&piece[..count]);
            if frames > 0
                && let Some(metrics) = &self.metrics
            {
                metrics.add_sent_responses(frames);
            }
        }
        answer
    }

    fn wait<R: Wait>(&mut self, rt: &R, millis: u64) {
        self.inner.wait(rt, millis);
    }

    fn close(&mut self) {
        self.inner.close();
        self.disconnect();
    }
}
