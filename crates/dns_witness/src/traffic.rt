//! What the calls of a link said, for proofs alone.

ghost use Rattle.std.specs.Prelude.{◌≡◌};
ghost use Rattle.std.specs.Borrow.{ftrue};
ghost use Rattle.dns_io.specs.Traffic.{Traffic};

use std::marker::{Model, PhantomData};

/// What a call of a link said.
#[derive(Clone, Copy)]
pub(crate) enum Move {
    Came,
    Went,
    Ended,
    Empty,
    Full,
}

/// What went through a link so far. It takes no memory, and its calls do nothing at run time.
#[derive(Drop)]
pub(crate) struct SeenTraffic {
    of: PhantomData<u8>,
    pub(crate) ghost traffic: { Traffic },
}

impl Model for SeenTraffic {
    ghost also_owns = { λ _. ftrue };
}

// SAFETY: it owns nothing.
unsafe impl Send for SeenTraffic {}

impl SeenTraffic {
    ghost use Rattle.dns_witness.specs.Seen.{moved, still};

    /// Nothing went through so far.
    pub(crate) fn new() -> SeenTraffic
        ensures { result.traffic ≡ still }
    {
        SeenTraffic { of: PhantomData }
    }

    /// A call said this.
    pub(crate) fn moved(&mut self, _kind: &Move, _octets: &[u8])
        ensures { self.new ≡ record self.old { traffic = moved _kind.now _octets.now self.old.traffic } }
    {}
}
