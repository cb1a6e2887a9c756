//! What the calls of an accept object said, for proofs alone.

ghost use Rattle.std.specs.Prelude.{◌≡◌};
ghost use Rattle.std.specs.Borrow.{ftrue};
ghost use Rattle.dns_io.specs.AcceptTraffic.{AcceptTraffic};

use dns_name::SocketAddr;
use std::marker::{Model, PhantomData};

/// What a call of an accept object said.
#[derive(Clone, Copy)]
pub(crate) enum AcceptCall {
    Accepted(SocketAddr),
    Empty,
}

/// Who came so far. It takes no memory, and its calls do nothing at run time.
#[derive(Drop)]
pub(crate) struct SeenAccepts {
    of: PhantomData<u8>,
    pub(crate) ghost accept_traffic: { AcceptTraffic },
}

impl Model for SeenAccepts {
    ghost also_owns = { λ _. ftrue };
}

// SAFETY: it owns nothing.
unsafe impl Send for SeenAccepts {}

impl SeenAccepts {
    ghost use Rattle.dns_witness.specs.Seen.{arrived, no_accepts};

    /// Nobody came so far.
    pub(crate) fn new() -> SeenAccepts
        ensures { result.accept_traffic ≡ no_accepts }
    {
        SeenAccepts { of: PhantomData }
    }

    /// A call said this.
    pub(crate) fn arrived(&mut self, _call: &AcceptCall)
        ensures { self.new ≡ record self.old { accept_traffic = arrived _call.now self.old.accept_traffic } }
    {}
}
