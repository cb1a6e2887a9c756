//! The works that were started and joined, for proofs alone.

ghost use Rattle.std.specs.Prelude.{◌≡◌};
ghost use Rattle.std.specs.Borrow.{ftrue};
ghost use Rattle.dns_witness.specs.Works.{Works, no_works, one_started, one_joined};

use std::marker::{Model, PhantomData};

/// How many works were started, and what each gave that was joined. It takes no memory, and its calls do nothing at run time.
#[derive(Drop)]
pub(crate) struct SeenWorks<G> {
    of: PhantomData<G>,
    pub(crate) ghost works: { Works G },
}

impl<G> Model for SeenWorks<G> {
    ghost also_owns = { λ _. ftrue };
}

impl<G> SeenWorks<G> {
    /// None was started so far.
    pub(crate) fn new() -> SeenWorks<G>
        ensures { result.works ≡ no_works }
    {
        SeenWorks { of: PhantomData }
    }

    /// One more was started.
    pub(crate) fn began(&self) -> SeenWorks<G>
        ensures { result.works ≡ one_started self.now.works }
    {
        SeenWorks { of: PhantomData }
    }

    /// One more was joined, and gave this.
    pub(crate) fn joined(&self, gave: &G) -> SeenWorks<G>
        ensures { result.works ≡ one_joined gave.now self.now.works }
    {
        SeenWorks { of: PhantomData }
    }
}
