//! The readings that a clock gave, for proofs alone.

ghost use Rattle.std.specs.Prelude.{◌≡◌, ℕ, List, [], ◌∷◌, ◌++◌};
ghost use Rattle.std.specs.Borrow.{ftrue};

use std::marker::{Model, PhantomData};

/// One reading: milliseconds, and seconds.
#[derive(Clone, Copy)]
pub(crate) struct Reading {
    pub(crate) millis: u64,
    pub(crate) secs: u64,
}

/// The readings given so far. It takes no memory, and its calls do nothing at run time.
#[derive(Drop)]
pub(crate) struct SeenReadings {
    of: PhantomData<u8>,
    pub(crate) ghost readings: { List (ℕ × ℕ) },
}

impl Model for SeenReadings {
    ghost also_owns = { λ _. ftrue };
}

// SAFETY: it owns nothing.
unsafe impl Send for SeenReadings {}

impl SeenReadings {
    /// None was given so far.
    pub(crate) fn new() -> SeenReadings
        ensures { result.readings ≡ [] }
    {
        SeenReadings { of: PhantomData }
    }

    /// This one was given.
    pub(crate) fn read(&mut self, _at: &Reading)
        ensures { self.new ≡ record self.old { readings = self.old.readings ++ (_at.now.millis, _at.now.secs) ∷ [] } }
    {}
}
