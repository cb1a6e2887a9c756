//! The layer.

ghost use Rattle.std.specs.Prelude.{◌≡◌};
ghost use Rattle.dns_own_opt.specs.OwnOpts.{with_own_opt};

use crate::rule::OwnOpt;
use dns_rewriting::{RewrittenFuture, RewrittenStream};
use dns_service::{OutOfMemory, Request, Service};
use std::alloc::Global;

/// A service whose replies state the server's own size over UDP and the request's DO, if they have an OPT record.
#[derive(Drop)]
pub struct OwnOptSvc<S> {
    next: S,
    size: u16,
}

impl<S> OwnOptSvc<S> {
    /// Round a service, for a server that takes that many octets over UDP.
    pub fn new(next: S, size: u16) -> Self
        ensures { result ≡ record { next = next; size = size } }
    {
        OwnOptSvc { next, size }
    }
}

impl<S, Meta> Service<Meta> for OwnOptSvc<S>
where
    S: Service<Meta>,
{
    type Stream = RewrittenStream<S::Stream, OwnOpt>;

    type Future = RewrittenFuture<S::Future, OwnOpt>;

    ghost answer = { λ s. with_own_opt s.size (S.answer s.next) };

    ghost hint = { λ s. S.hint s.next };

    ghost can_call = { λ s. S.can_call s.next };

    fn call(
        &self,
        alloc: Global,
        request: &mut Request<Meta>,
    ) -> Result<RewrittenFuture<S::Future, OwnOpt>, OutOfMemory> {
        let rule = OwnOpt::new(self.size, request.message());
        let future = self.next.call(alloc, request)?;
        Ok(RewrittenFuture::new(future, Some(rule)))
    }
}
