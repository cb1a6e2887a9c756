//! The stream of a service over another: the inner replies as they are, the inner replies mapped, or replies of its own.

ghost use Rattle.std.specs.Prelude.{◌≡◌};
ghost use Rattle.dns_stream.specs.Streams.{Follows, middleware_answer, middleware_size};

use dns_service::{OutOfMemory, Polled, ReplyFuture, ReplyStream, ServiceResult, poll_future};
use std::alloc::Global;

/// Answers as what it holds. A future that is ready is polled as its stream in the same call.
#[derive(Drop)]
pub enum MiddlewareStream<F, R, M, O> {
    /// The inner service's future.
    IdentityFuture(F),
    /// The inner service's replies.
    IdentityStream(R),
    /// The inner service's replies, mapped.
    Map(M),
    /// Replies without the inner service.
    Result(O),
}

impl<F: Drop, R: Drop, M: Drop, O: Drop> MiddlewareStream<F, R, M, O> {
    /// Answers as a future that was polled, and goes on as its stream if it was ready.
    fn follow(
        &mut self,
        polled: Result<Polled<(R, Polled<Option<ServiceResult>>)>, OutOfMemory>,
    ) -> Result<Polled<Option<ServiceResult>>, OutOfMemory>
        ensures { Follows polled self.old self.new result }
    {
        match polled {
            Ok(Polled::Pending) => Ok(Polled::Pending),
            Ok(Polled::Ready((stream, answer))) => {
                *self = MiddlewareStream::IdentityStream(stream);
                Ok(answer)
            }
            Err(error) => Err(error),
        }
    }
}

impl<F, R, M, O> ReplyStream for MiddlewareStream<F, R, M, O>
where
    F: ReplyFuture<Stream = R>,
    R: ReplyStream,
    M: ReplyStream,
    O: ReplyStream,
{
    ghost answer = { middleware_answer F.answer R.answer M.answer O.answer };

    ghost size = { middleware_size R.size M.size O.size };

    fn poll_next(&mut self, alloc: Global) -> Result<Polled<Option<ServiceResult>>, OutOfMemory> {
        match self {
            MiddlewareStream::IdentityFuture(future) => {
                let polled = poll_future(alloc, future);
                self.follow(polled)
            }
            MiddlewareStream::IdentityStream(stream) => stream.poll_next(alloc),
            MiddlewareStream::Map(stream) => stream.poll_next(alloc),
            MiddlewareStream::Result(stream) => stream.poll_next(alloc),
        }
    }

    fn size_hint(&self) -> (usize, Option<usize>) {
        match self {
            MiddlewareStream::IdentityFuture(_) => (0, None),
            MiddlewareStream::IdentityStream(stream) => stream.size_hint(),
            MiddlewareStream::Map(stream) => stream.size_hint(),
            MiddlewareStream::Result(stream) => stream.size_hint(),
        }
    }
}
