//! A service that counts its calls and polls.

ghost use Rattle.dns_service.specs.Transport.{hint_of};
ghost use Rattle.dns_service.specs.declared.service.Polled.TheVariants.{Pending};

use dns_service::{Once, OutOfMemory, Polled, ReplyFuture, Request, Service};
use std::alloc::Global;
use std::cell::Cell;

/// Counts its calls, and the polls of its futures, of which none is ever ready. It is its own future.
#[derive(Clone, Copy)]
pub struct Counting<'a> {
    /// How often it was called, and how often a future was polled.
    pub counts: &'a Cell<(u64, u64)>,
}

impl<'a> Service<()> for Counting<'a> {
    type Stream = Once;

    type Future = Counting<'a>;

    ghost answer = { λ _ _ _. Pending };

    ghost hint = { λ _ r. hint_of r.transport };

    fn call(&self, _alloc: Global, _request: &mut Request<()>) -> Result<Self, OutOfMemory> {
        let (calls, polls) = self.counts.get();
        self.counts.set((calls.saturating_add(1), polls));
        Ok(*self)
    }
}

impl ReplyFuture for Counting<'_> {
    type Stream = Once;

    ghost answer = { λ _ _. Pending };

    fn poll(&mut self, _alloc: Global) -> Result<Polled<Once>, OutOfMemory> {
        let (calls, polls) = self.counts.get();
        self.counts.set((calls, polls.saturating_add(1)));
        Ok(Polled::Pending)
    }
}
