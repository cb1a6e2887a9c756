//! A socket that tells, over any socket.

ghost use Rattle.std.specs.Prelude.{◌≡◌, ◌≤◌};
ghost use Rattle.dns_io.specs.Causes.{Observed};
ghost use Rattle.dns_io.specs.SockTraffic.{RecvMoves, RecvBound, RecvCause, SendMoves, SendBound, SendCause};
ghost use Rattle.dns_witness.specs.Seen.{received_as};
ghost use Rattle.dns_witness.specs.Since.{SockSince};

use crate::sock_calls::{SeenPackets, SockCall};
use dns_io::{AsyncDgramSock, DgramRecv, DgramSend};
use dns_name::SocketAddr;
use std::snapshot::Snapshot;
use std::sync::Wait;

/// A socket, and what its calls said. If the socket itself tells, that is what went through it since it was taken. A datagram
/// received is in it as the call gave it: of one that was cut, what the buffer had room for.
#[derive(Drop)]
pub struct WitnessSock<D: AsyncDgramSock> {
    sock: D,
    start: Snapshot<D>,
    seen: SeenPackets,
    ghost tied: { ∥ Observed (D.AsyncDgramSock.tells sock) (D.AsyncDgramSock.tells start.value)
        (SockSince (D.AsyncDgramSock.sock_traffic start.value) (D.AsyncDgramSock.sock_traffic sock) seen.sock_traffic) ∥₁ },
}

impl<D: AsyncDgramSock> WitnessSock<D> {
    ghost use Rattle.dns_witness.specs.Seen.{no_packets};

    /// Of a socket, through which nothing went by this so far.
    #[tactic(auto, using(crate::proofs::SockTies::tied_first))]
    pub fn new(sock: D) -> WitnessSock<D>
        ensures sock { (result.sock ≡ sock) × (result.start.value ≡ sock) }
        ensures seen { result.seen.sock_traffic ≡ no_packets }
    {
        let start = Snapshot::of(&sock);
        WitnessSock {
            sock,
            start,
            seen: SeenPackets::new(),
        }
    }

    /// The socket.
    pub fn into_inner(self) -> D
        ensures { result ≡ self.sock }
    {
        let WitnessSock { sock, .. } = self;
        sock
    }

    /// True of each, after any calls: if the socket tells, what its calls said is what went through it since.
    pub fn is_tied(&self)
        ensures { ∥ Observed (D.tells self.now.sock) (D.tells self.now.start.value)
            (SockSince (D.sock_traffic self.now.start.value) (D.sock_traffic self.now.sock) self.now.seen.sock_traffic) ∥₁ }
    {}
}

impl<D: AsyncDgramSock> AsyncDgramSock for WitnessSock<D> {
    ghost tells = { λ _. Unit {0} };

    ghost sock_traffic = { λ w. w.seen.sock_traffic };

    ghost failed_receives = { λ w. D.failed_receives w.sock };

    ghost failed_sends = { λ w. D.failed_sends w.sock };

    #[tactic(auto, using(crate::proofs::SockTies::tied_send))]
    fn poll_send_to(&mut self, octets: &[u8], to: SocketAddr) -> DgramSend
        ensures moves { Observed (Unit {0}) (Unit {0})
            (SendMoves result octets.now to self.old.seen.sock_traffic self.new.seen.sock_traffic) }
        ensures bound { SendBound result octets.now }
        ensures receives { D.failed_receives self.new.sock ≡ D.failed_receives self.old.sock }
        ensures later { D.failed_sends self.old.sock ≤ D.failed_sends self.new.sock }
        ensures cause { SendCause result (D.failed_sends self.old.sock) (D.failed_sends self.new.sock) }
        // The socket itself sent this.
        ensures inner { Observed (D.tells self.new.sock) (D.tells self.old.sock)
            (SendMoves result octets.now to (D.sock_traffic self.old.sock) (D.sock_traffic self.new.sock)) }
    {
        let answer = self.sock.poll_send_to(octets, to);
        match answer {
            DgramSend::Took(_) => self.seen.moved(&SockCall::Sent(to), octets),
            DgramSend::Again => self.seen.moved(&SockCall::Full, &[]),
            DgramSend::Failed => {}
        }
        answer
    }

    #[tactic(auto, using(crate::proofs::SockTies::tied_still))]
    fn readable<R: Wait>(&mut self, rt: &R, millis: u64) {
        self.sock.readable(rt, millis);
    }

    #[tactic(auto, using(crate::proofs::SockTies::received, crate::proofs::SockTies::tied_receive))]
    fn try_recv_buf_from(&mut self, buf: &mut [u8]) -> DgramRecv
        ensures moves { Observed (Unit {0}) (Unit {0}) (RecvMoves result buf.new self.old.seen.sock_traffic self.new.seen.sock_traffic) }
        ensures bound { RecvBound result buf.new }
        ensures sends { D.failed_sends self.new.sock ≡ D.failed_sends self.old.sock }
        ensures later { D.failed_receives self.old.sock ≤ D.failed_receives self.new.sock }
        ensures cause { RecvCause result (D.failed_receives self.old.sock) (D.failed_receives self.new.sock) }
        // No octet more than the call gave.
        ensures seen { self.new.seen.sock_traffic ≡ received_as result buf.new self.old.seen.sock_traffic }
        // The socket itself received this.
        ensures inner { Observed (D.tells self.new.sock) (D.tells self.old.sock)
            (RecvMoves result buf.new (D.sock_traffic self.old.sock) (D.sock_traffic self.new.sock)) }
    {
        let answer = self.sock.try_recv_buf_from(buf);
        match answer {
            DgramRecv::Got(count, from) => self
                .seen
                .moved(&SockCall::Received(from), &buf[..count]),
            DgramRecv::Again => self.seen.moved(&SockCall::Empty, &[]),
            DgramRecv::Failed => {}
        }
        answer
    }
}
