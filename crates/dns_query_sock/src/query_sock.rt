//! A socket that passes on queries alone.

ghost use Rattle.std.specs.Prelude.{◌≡◌, ◌≤◌, ◌&&◌, true, length, nat_le, Some, None};
ghost use Rattle.dns_io.specs.SockTraffic.{RecvBound};
ghost use Rattle.dns_query_sock.specs.Queries.{is_response, passed_on, without_responses};

use crate::counts::QueryCounts;
use dns_io::{AsyncDgramSock, DgramRecv, DgramSend};
use dns_name::SocketAddr;
use std::sync::{Arc, Wait};

/// How many octets the identifier, QR and the codes of a header take (RFC 1035, section 4.1.1).
const FLAGS_END: usize = 4;

/// A socket over another that drops each response: a receive of one answers Again. So two servers never answer each other's
/// responses (RFC 1035, section 4.1.1, QR). It tells what the other tells without the responses, as long as each buffer has
/// room for the four octets that QR is read of.
#[derive(Drop)]
pub struct QuerySock<D> {
    inner: D,
    // Whether each buffer had room for the octets that QR is read of.
    reads_flags: bool,
    // What counts the responses.
    counts: Option<Arc<QueryCounts>>,
}

impl<D> QuerySock<D> {
    /// Passes on the queries that this socket receives.
    pub fn new(inner: D) -> QuerySock<D>
        ensures { result ≡ record { inner = inner; reads_flags = true; counts = None } }
    {
        QuerySock {
            inner,
            reads_flags: true,
            counts: None,
        }
    }

    /// Passes on the queries that this socket receives, and counts the responses that it drops.
    pub fn counted(inner: D, counts: Arc<QueryCounts>) -> QuerySock<D>
        ensures { result ≡ record { inner = inner; reads_flags = true; counts = Some counts } }
    {
        QuerySock {
            inner,
            reads_flags: true,
            counts: Some(counts),
        }
    }

    /// The socket whose queries are passed on.
    pub fn inner(&self) -> &D
        ensures { result.now ≡ self.now.inner }
    {
        &self.inner
    }
}

/// Whether octets that begin with a header have QR set.
pub fn is_response(octets: &[u8]) -> bool
    ensures { result ≡ is_response octets.now }
{
    match octets {
        [_, _, flags, _, ..] => flags / 128 % 2 == 1,
        _ => false,
    }
}

/// Counts what was dropped, if something came and nothing is passed on.
fn count_dropped(counts: &Option<Arc<QueryCounts>>, came: &DgramRecv, passed: &DgramRecv) {
    if let (Some(counts), DgramRecv::Got(_, _), DgramRecv::Again) = (counts, came, passed) {
        counts.count_dropped(1);
    }
}

/// Whether a buffer has room for the octets that QR is read of, and each before had.
fn reads_flags(before: bool, buf: &[u8]) -> bool
    ensures { result ≡ (before && nat_le 4 (length buf.now)) }
{
    before && buf.len() >= FLAGS_END
}

/// The answer of a receive, of which this stands in the buffer.
fn passed_on(answer: DgramRecv, buf: &[u8]) -> DgramRecv
    requires { RecvBound answer buf.now }
    ensures { result ≡ passed_on answer buf.now }
{
    match answer {
        DgramRecv::Got(count, from) => {
            if is_response(&buf[..count]) {
                return DgramRecv::Again;
            }
            DgramRecv::Got(count, from)
        }
        DgramRecv::Again => DgramRecv::Again,
        DgramRecv::Failed => DgramRecv::Failed,
    }
}

impl<D: AsyncDgramSock> AsyncDgramSock for QuerySock<D> {
    ghost tells = { λ s. D.tells s.inner × (s.reads_flags ≡ true) };

    ghost sock_traffic = { λ s. without_responses (D.sock_traffic s.inner) };

    ghost failed_receives = { λ s. D.failed_receives s.inner };

    ghost failed_sends = { λ s. D.failed_sends s.inner };

    #[tactic(auto, using(crate::proofs::Responses::sent_on))]
    fn poll_send_to(&mut self, octets: &[u8], to: SocketAddr) -> DgramSend {
        self.inner.poll_send_to(octets, to)
    }

    #[tactic(auto, using(crate::proofs::Responses::still_on))]
    fn readable<R: Wait>(&mut self, rt: &R, millis: u64) {
        self.inner.readable(rt, millis);
    }

    #[tactic(auto, using(crate::proofs::Responses::received_on, crate::proofs::Responses::bound_on, crate::proofs::Responses::cause_on))]
    fn try_recv_buf_from(&mut self, buf: &mut [u8]) -> DgramRecv {
        let answer = self.inner.try_recv_buf_from(buf);
        self.reads_flags = reads_flags(self.reads_flags, buf);
        let passed = passed_on(answer, buf);
        count_dropped(&self.counts, &answer, &passed);
        passed
    }
}
