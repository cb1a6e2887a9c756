//! What connections come from.

ghost use Rattle.std.specs.Prelude.{◌≡◌, ℕ, ◌≤◌};
ghost use Rattle.dns_io.specs.Causes.{Observed};
ghost use Rattle.dns_io.specs.AcceptTraffic.{AcceptTraffic, AcceptMoves, AcceptCause};

use crate::link::Link;
use dns_name::SocketAddr;
use std::sync::Wait;

/// The answer of one accept.
#[derive(Drop)]
pub enum AcceptAnswer<L> {
    /// A connection, and the address that it came from.
    Accepted(L, SocketAddr),
    /// No connection is there yet.
    Again,
    /// The accept failed. A later one may succeed.
    Failed,
}

/// What connections come from. No call but `wait` waits.
pub trait AsyncAccept {
    /// The type of a connection.
    type Link: Link;

    /// That who came is known. It is of accept objects in memory, and is not of sockets.
    ghost tells: { Self → Type 0 };

    /// Who came so far, if the accept object tells.
    ghost accept_traffic: { Self → AcceptTraffic };

    /// The number of failed accepts so far, up to 2^64 - 1.
    ghost faults: { Self → ℕ };

    /// Accepts one connection.
    fn poll_accept(&mut self) -> AcceptAnswer<Self::Link>
        ensures moves { Observed (tells self.new) (tells self.old)
            (AcceptMoves result (accept_traffic self.old) (accept_traffic self.new)) }
        ensures later { faults self.old ≤ faults self.new }
        ensures cause { AcceptCause result (faults self.old) (faults self.new) };

    /// Waits until a connection came since an `Again`, but no longer than that many milliseconds. It may return sooner.
    fn wait<R: Wait>(&mut self, rt: &R, millis: u64)
        ensures moves { Observed (tells self.new) (tells self.old) (accept_traffic self.new ≡ accept_traffic self.old) }
        ensures same { faults self.new ≡ faults self.old };
}
