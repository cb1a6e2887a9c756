//! A socket that counts.

ghost use Rattle.std.specs.Prelude.{◌≡◌};

use crate::metrics::ServerMetrics;
use dns_io::{AsyncDgramSock, DgramRecv, DgramSend};
use dns_name::SocketAddr;
use std::marker::Model;
use std::sync::{Arc, Wait};

/// A socket over another, which tells what that tells, and adds each datagram received and each one sent to metrics. In
/// clauses it is the other socket.
#[derive(Drop)]
pub struct MeteredSock<D> {
    inner: D,
    metrics: Arc<ServerMetrics>,
}

impl<D> Model for MeteredSock<D> {
    ghost Value = { D };

    ghost view = { λ m. m.inner };
}

impl<D> MeteredSock<D> {
    /// A socket over `inner` whose datagrams count for these metrics.
    pub fn new(inner: D, metrics: Arc<ServerMetrics>) -> MeteredSock<D>
        ensures { result ≡ inner }
    {
        MeteredSock { inner, metrics }
    }

    /// The socket inside, without the counting round it.
    pub fn inner(&self) -> &D
        ensures { result.now ≡ self.now }
    {
        &self.inner
    }
}

impl<D: AsyncDgramSock> AsyncDgramSock for MeteredSock<D> {
    ghost tells = { λ sock. D.tells sock };

    ghost sock_traffic = { λ sock. D.sock_traffic sock };

    ghost failed_receives = { λ sock. D.failed_receives sock };

    ghost failed_sends = { λ sock. D.failed_sends sock };

    fn poll_send_to(&mut self, octets: &[u8], to: SocketAddr) -> DgramSend {
        let answer = self.inner.poll_send_to(octets, to);
        if let DgramSend::Took(_) = answer {
            self.metrics.inc_num_sent_responses();
        }
        answer
    }

    fn readable<R: Wait>(&mut self, rt: &R, millis: u64) {
        self.inner.readable(rt, millis);
    }

    fn try_recv_buf_from(&mut self, buf: &mut [u8]) -> DgramRecv {
        let answer = self.inner.try_recv_buf_from(buf);
        if let DgramRecv::Got(..) = answer {
            self.metrics.inc_num_received_requests();
        }
        answer
    }
}
