//! What the calls of a socket said, for proofs alone.

ghost use Rattle.std.specs.Prelude.{◌≡◌};
ghost use Rattle.std.specs.Borrow.{ftrue};
ghost use Rattle.dns_io.specs.SockTraffic.{SockTraffic};

use dns_name::SocketAddr;
use std::marker::{Model, PhantomData};

/// What a call of a socket said.
#[derive(Clone, Copy)]
pub(crate) enum SockCall {
    Received(SocketAddr),
    Empty,
    Sent(SocketAddr),
    Full,
}

/// What went through a socket so far. It takes no memory, and its calls do nothing at run time.
#[derive(Drop)]
pub(crate) struct SeenPackets {
    of: PhantomData<u8>,
    pub(crate) ghost sock_traffic: { SockTraffic },
}

impl Model for SeenPackets {
    ghost also_owns = { λ _. ftrue };
}

// SAFETY: it owns nothing.
unsafe impl Send for SeenPackets {}

impl SeenPackets {
    ghost use Rattle.dns_witness.specs.Seen.{posted, no_packets};

    /// Nothing went through so far.
    pub(crate) fn new() -> SeenPackets
        ensures { result.sock_traffic ≡ no_packets }
    {
        SeenPackets { of: PhantomData }
    }

    /// A call said this.
    pub(crate) fn moved(&mut self, _call: &SockCall, _octets: &[u8])
        ensures { self.new ≡ record self.old { sock_traffic = posted _call.now _octets.now self.old.sock_traffic } }
    {}
}
