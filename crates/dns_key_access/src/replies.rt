//! The replies of a service behind keys that are wanted.

ghost use Rattle.std.specs.Prelude.{◌≡◌, ℕ};
ghost use Rattle.dns_layers.specs.Rewritten.{own_reply};
ghost use Rattle.dns_key_access.specs.Replies.{coming_answer, replies_answer, replies_size};

use dns_base::AdditionalBuilder;
use dns_layers::alone;
use dns_service::{Now, Once, OutOfMemory, Polled, ReplyFuture, ReplyStream, ServiceResult};
use std::alloc::Global;

/// The future of the layer: a reply that refuses the request, or the future of the service inside.
#[derive(Drop)]
pub enum AccessFuture<F> {
    /// A reply of the layer's own, at once.
    Own(Now<Once>),
    /// The replies of the service inside.
    Passing(F),
}

/// The stream of the layer: a reply that refuses the request, or the stream of the service inside.
#[derive(Drop)]
pub enum AccessStream<S> {
    /// A reply of the layer's own.
    Own(Once),
    /// The replies of the service inside.
    Passed(S),
}

impl<F: ReplyFuture> AccessFuture<F> {
    /// The reply that refuses a request, at once.
    pub(crate) fn of_reply(reply: AdditionalBuilder) -> Self
        ensures { (k : ℕ) → ⟦<AccessFuture<F> as ReplyFuture>⟧.answer result k ≡ own_reply reply.message k }
    {
        AccessFuture::Own(Now::new(alone(reply)))
    }
}

impl<F: ReplyFuture> ReplyFuture for AccessFuture<F> {
    type Stream = AccessStream<F::Stream>;

    ghost answer = { coming_answer ⟦<Now<Once> as ReplyFuture>⟧.answer F.answer };

    fn poll(&mut self, alloc: Global) -> Result<Polled<AccessStream<F::Stream>>, OutOfMemory> {
        match self {
            AccessFuture::Own(future) => match future.poll(alloc)? {
                Polled::Ready(stream) => Ok(Polled::Ready(AccessStream::Own(stream))),
                Polled::Pending => Ok(Polled::Pending),
            },
            AccessFuture::Passing(future) => match future.poll(alloc)? {
                Polled::Ready(stream) => Ok(Polled::Ready(AccessStream::Passed(stream))),
                Polled::Pending => Ok(Polled::Pending),
            },
        }
    }
}

impl<S: ReplyStream> ReplyStream for AccessStream<S> {
    ghost answer = { replies_answer ⟦<Once as ReplyStream>⟧.answer S.answer };

    ghost size = { replies_size ⟦<Once as ReplyStream>⟧.size S.size };

    fn poll_next(&mut self, alloc: Global) -> Result<Polled<Option<ServiceResult>>, OutOfMemory> {
        match self {
            AccessStream::Own(stream) => stream.poll_next(alloc),
            AccessStream::Passed(stream) => stream.poll_next(alloc),
        }
    }

    fn size_hint(&self) -> (usize, Option<usize>) {
        match self {
            AccessStream::Own(stream) => stream.size_hint(),
            AccessStream::Passed(stream) => stream.size_hint(),
        }
    }
}
