//! The replies of a service behind zones that have no data.

ghost use Rattle.std.specs.Prelude.{◌≡◌};
ghost use Rattle.dns_secondary_service.specs.WithholdingReplies.{coming_answer, replies_answer, replies_size};

use dns_service::{Now, Once, OutOfMemory, Polled, ReplyFuture, ReplyStream, ServiceResult};
use std::alloc::Global;

/// The future of the layer: a reply of its own, or the future of the service inside.
#[derive(Drop)]
pub enum WithholdingFuture<F> {
    /// A reply of the layer's own, at once.
    Own(Now<Once>),
    /// The replies of the service inside.
    Passing(F),
}

/// The stream of the layer: a reply of its own, or the stream of the service inside.
#[derive(Drop)]
pub enum WithholdingStream<S> {
    /// A reply of the layer's own.
    Own(Once),
    /// The replies of the service inside.
    Passed(S),
}

impl<F: ReplyFuture> ReplyFuture for WithholdingFuture<F> {
    type Stream = WithholdingStream<F::Stream>;

    ghost answer = { coming_answer ⟦<Now<Once> as ReplyFuture>⟧.answer F.answer };

    fn poll(&mut self, alloc: Global) -> Result<Polled<WithholdingStream<F::Stream>>, OutOfMemory> {
        match self {
            WithholdingFuture::Own(future) => match future.poll(alloc)? {
                Polled::Ready(stream) => Ok(Polled::Ready(WithholdingStream::Own(stream))),
                Polled::Pending => Ok(Polled::Pending),
            },
            WithholdingFuture::Passing(future) => match future.poll(alloc)? {
                Polled::Ready(stream) => Ok(Polled::Ready(WithholdingStream::Passed(stream))),
                Polled::Pending => Ok(Polled::Pending),
            },
        }
    }
}

impl<S: ReplyStream> ReplyStream for WithholdingStream<S> {
    ghost answer = { replies_answer ⟦<Once as ReplyStream>⟧.answer S.answer };

    ghost size = { replies_size ⟦<Once as ReplyStream>⟧.size S.size };

    fn poll_next(&mut self, alloc: Global) -> Result<Polled<Option<ServiceResult>>, OutOfMemory> {
        match self {
            WithholdingStream::Own(stream) => stream.poll_next(alloc),
            WithholdingStream::Passed(stream) => stream.poll_next(alloc),
        }
    }

    fn size_hint(&self) -> (usize, Option<usize>) {
        match self {
            WithholdingStream::Own(stream) => stream.size_hint(),
            WithholdingStream::Passed(stream) => stream.size_hint(),
        }
    }
}
