//! A layer that says in each reply that recursion is available (RFC 1035, section 4.1.1).

ghost use Rattle.std.specs.Prelude.{◌≡◌};
ghost use Rattle.dns_service.specs.Answer.{mapped};
ghost use Rattle.dns_middleware.specs.Rewritten.{rewritten};
ghost use Rattle.example_layer.specs.Recursion.{offering};

use dns_base::AdditionalBuilder;
use dns_middleware::{Layered, Rewrite, of_mapped};
use dns_service::{Now, OutOfMemory, Request, Service};
use std::alloc::Global;

/// The rule for replies.
#[derive(Clone, Copy, Debug)]
pub struct OffersRecursion {}

impl Rewrite for OffersRecursion {
    ghost rewriting = { λ _. offering };

    fn rewrite(&self, _alloc: Global, reply: &mut AdditionalBuilder) -> Result<(), OutOfMemory> {
        let mut header = reply.header();
        header.ra = true;
        reply.set_header(header);
        Ok(())
    }
}

/// The layer round a service.
#[derive(Drop)]
pub struct RecursionSvc<S> {
    next: S,
}

impl<S> RecursionSvc<S> {
    /// Round a service.
    pub fn new(next: S) -> Self
        ensures { result ≡ record { next = next } }
    {
        RecursionSvc { next }
    }
}

impl<S, Meta> Service<Meta> for RecursionSvc<S>
where
    S: Service<Meta>,
{
    type Stream = Layered<S, Meta, OffersRecursion>;

    type Future = Now<Layered<S, Meta, OffersRecursion>>;

    ghost answer = { λ s r k. mapped (rewritten offering) (S.answer s.next r k) };

    ghost hint = { λ s. S.hint s.next };

    ghost can_call = { λ s. S.can_call s.next };

    fn call(
        &self,
        alloc: Global,
        request: &mut Request<Meta>,
    ) -> Result<Now<Layered<S, Meta, OffersRecursion>>, OutOfMemory> {
        let Ok(original) = request.try_clone(alloc, ()) else {
            return Err(OutOfMemory);
        };
        match self.next.call(alloc, request) {
            Ok(future) => Ok(of_mapped::<S, Meta, _>(future, original, OffersRecursion {})),
            Err(error) => Err(error),
        }
    }
}
