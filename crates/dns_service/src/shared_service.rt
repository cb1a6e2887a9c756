//! Services of requests without metadata, as a trait with no parameter.

ghost use Rattle.std.specs.Prelude.{◌≡◌, ℕ, IfOk, OnErr, OnOk, Option};
ghost use Rattle.std.specs.Arc.{arc_value};
ghost use Rattle.dns_service.specs.declared.message.Request.{Request};
ghost use Rattle.dns_service.specs.Answer.{Answer};
ghost use Rattle.dns_service.specs.Transport.{hinted};

use crate::message::Request;
use crate::service::{ReplyFuture, ReplyStream, Service};
use dns_name::OutOfMemory;
use std::alloc::Global;
use std::sync::Arc;

/// What a server calls: `Service<()>` as a trait with no parameter, so that threads may share it.
pub trait SharedService: Drop {
    type Stream: ReplyStream;

    type Future: ReplyFuture<Stream = Self::Stream>;

    /// The answer to poll k of a request.
    ghost answer: { Self → Request (Unit {0}) → ℕ → Answer };

    /// The hint that a request has after the call.
    ghost hint: { Self → Request (Unit {0}) → Option ℕ };

    /// Whether the service may be called.
    ghost can_call: { Self → Type 0 };

    /// Answers a request, as `Service::call` does. A refused call leaves the request.
    fn call(&self, alloc: Global, request: &mut Request<()>) -> Result<Self::Future, OutOfMemory>
        requires { can_call self.now }
        ensures answers { IfOk result (λ f. (k : ℕ) → Self.Future.answer f k ≡ answer self.now request.old k) }
        ensures kept { OnOk result (request.new ≡ record request.old
            { transport = hinted (hint self.now request.old) request.old.transport; reserved = request.new.reserved }) }
        ensures refused { OnErr result (request.new ≡ request.old) };
}

/// A service of requests without metadata.
#[derive(Drop)]
pub struct WithoutMeta<S> {
    pub service: S,
}

impl<S: Service<()>> SharedService for WithoutMeta<S> {
    type Stream = S::Stream;

    type Future = S::Future;

    ghost answer = { λ s. S.answer s.service };

    ghost hint = { λ s. S.hint s.service };

    ghost can_call = { λ s. S.can_call s.service };

    fn call(&self, alloc: Global, request: &mut Request<()>) -> Result<S::Future, OutOfMemory> {
        self.service.call(alloc, request)
    }
}

impl<T: SharedService> SharedService for Arc<T> {
    type Stream = T::Stream;

    type Future = T::Future;

    ghost answer = { λ a. T.answer (arc_value a) };

    ghost hint = { λ a. T.hint (arc_value a) };

    ghost can_call = { λ a. T.can_call (arc_value a) };

    fn call(&self, alloc: Global, request: &mut Request<()>) -> Result<T::Future, OutOfMemory> {
        let inner: &T = self;
        inner.call(alloc, request)
    }
}
