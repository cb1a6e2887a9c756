//! The works that a spawner was given, for proofs alone.

ghost use Rattle.std.specs.Prelude.{◌≡◌, List, [], ◌∷◌, ◌++◌};
ghost use Rattle.std.specs.Borrow.{ftrue};
ghost use Rattle.dns_name.specs.declared.address.SocketAddr.{SocketAddr};

use dns_name::SocketAddr;
use std::marker::{Model, PhantomData};

/// The addresses of the works given so far. It takes no memory, and its calls do nothing at run time.
#[derive(Drop)]
pub(crate) struct SeenStarts {
    of: PhantomData<u8>,
    pub(crate) ghost given: { List SocketAddr },
}

impl Model for SeenStarts {
    ghost also_owns = { λ _. ftrue };
}

// SAFETY: it owns nothing.
unsafe impl Send for SeenStarts {}

impl SeenStarts {
    /// None was given so far.
    pub(crate) fn new() -> SeenStarts
        ensures { result.given ≡ [] }
    {
        SeenStarts { of: PhantomData }
    }

    /// A work of this address was given.
    pub(crate) fn give(&mut self, _addr: &SocketAddr)
        ensures { self.new ≡ record self.old { given = self.old.given ++ _addr.now ∷ [] } }
    {}
}
