//! Sockets for datagrams.

ghost use Rattle.std.specs.Prelude.{◌≡◌, ℕ, ◌≤◌};
ghost use Rattle.dns_io.specs.Causes.{Observed};
ghost use Rattle.dns_io.specs.SockTraffic.{SockTraffic, RecvMoves, RecvBound, RecvCause, SendMoves, SendBound, SendCause};

use dns_name::{Octets, SocketAddr};
use std::sync::Wait;

/// A datagram, and the address that it came from or goes to.
#[derive(Debug, Drop)]
pub struct Packet {
    pub octets: Octets,
    pub addr: SocketAddr,
}

/// The answer of one send.
#[derive(Clone, Copy, Debug, PartialEq, Eq)]
pub enum DgramSend {
    /// The datagram was sent, which has that many octets.
    Took(usize),
    /// There is no room yet.
    Again,
    /// The send failed.
    Failed,
}

/// The answer of one receive.
#[derive(Clone, Copy, Debug, PartialEq, Eq)]
pub enum DgramRecv {
    /// That many octets of a datagram stand at the buffer's front: all of them, or as many as there is room for. It came
    /// from this address.
    Got(usize, SocketAddr),
    /// No datagram is there yet.
    Again,
    /// The receive failed.
    Failed,
}

/// A socket for datagrams. No call but `readable` waits.
pub trait AsyncDgramSock {
    /// That what was received and sent is known. It is of sockets in memory, and is not of real ones.
    ghost tells: { Self → Type 0 };

    /// What was received and sent so far, if the socket tells.
    ghost sock_traffic: { Self → SockTraffic };

    /// The number of failed receives so far, up to 2^64 - 1.
    ghost failed_receives: { Self → ℕ };

    /// The number of failed sends so far, up to 2^64 - 1.
    ghost failed_sends: { Self → ℕ };

    /// Sends one datagram.
    fn poll_send_to(&mut self, octets: &[u8], to: SocketAddr) -> DgramSend
        ensures moves { Observed (tells self.new) (tells self.old)
            (SendMoves result octets.now to (sock_traffic self.old) (sock_traffic self.new)) }
        ensures bound { SendBound result octets.now }
        ensures receives { failed_receives self.new ≡ failed_receives self.old }
        ensures later { failed_sends self.old ≤ failed_sends self.new }
        ensures cause { SendCause result (failed_sends self.old) (failed_sends self.new) };

    /// Waits until a datagram came, or there is room again, since an `Again`, but no longer than that many milliseconds.
    /// It may return sooner.
    fn readable<R: Wait>(&mut self, rt: &R, millis: u64)
        ensures moves { Observed (tells self.new) (tells self.old) (sock_traffic self.new ≡ sock_traffic self.old) }
        ensures receives { failed_receives self.new ≡ failed_receives self.old }
        ensures sends { failed_sends self.new ≡ failed_sends self.old };

    /// Receives one datagram. What the buffer has no room for is lost.
    fn try_recv_buf_from(&mut self, buf: &mut [u8]) -> DgramRecv
        ensures moves { Observed (tells self.new) (tells self.old)
            (RecvMoves result buf.new (sock_traffic self.old) (sock_traffic self.new)) }
        ensures bound { RecvBound result buf.new }
        ensures sends { failed_sends self.new ≡ failed_sends self.old }
        ensures later { failed_receives self.old ≤ failed_receives self.new }
        ensures cause { RecvCause result (failed_receives self.old) (failed_receives self.new) };
}
