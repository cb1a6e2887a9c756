//! Replies of an inner service, each mapped.

ghost use Rattle.std.specs.Prelude.{◌≡◌, IfOk};
ghost use Rattle.dns_service.specs.declared.message.Request.{Request};
ghost use Rattle.dns_service.specs.Answer.{Item, mapped};
ghost use Rattle.dns_service.specs.PolledRequest.{request_answer, request_size, unknown_size};
ghost use Rattle.dns_stream.specs.Streams.{each_mapped};

use dns_service::{
    OutOfMemory, Polled, PolledRequest, ReplyFuture, ReplyStream, Request, ServiceResult,
};
use std::alloc::Global;

/// A mapping of the items that a service gives to a request.
pub trait Postprocess<Meta>: Drop {
    /// The mapped item, by the mapping, the request and the item.
    ghost post: { Self → Request Meta → Item → Item };

    fn map(
        &self,
        alloc: Global,
        request: &Request<Meta>,
        item: ServiceResult,
    ) -> Result<ServiceResult, OutOfMemory>
        ensures { IfOk result (λ mapped. mapped ≡ post self.now request.now item) };
}

/// Answers as the inner service does, and maps each item once.
#[derive(Drop)]
pub struct PostprocessingStream<F: ReplyFuture, Meta, P> {
    inner: PolledRequest<F, F::Stream>,
    request: Request<Meta>,
    pp: P,
}

impl<F: ReplyFuture, Meta: Drop, P: Postprocess<Meta>> PostprocessingStream<F, Meta, P> {
    /// The replies of a future, mapped by `pp` for the request.
    pub fn new(future: F, request: Request<Meta>, pp: P) -> Self
        ensures answers { ⟦<PostprocessingStream<F, Meta, P> as ReplyStream>⟧.answer result
            ≡ each_mapped (P.post pp request) (F.answer future) }
        ensures size { ⟦<PostprocessingStream<F, Meta, P> as ReplyStream>⟧.size result ≡ unknown_size }
    {
        PostprocessingStream {
            inner: PolledRequest::Future(future),
            request,
            pp,
        }
    }

    /// The answer with its item mapped.
    fn mapped(
        &self,
        alloc: Global,
        answer: Polled<Option<ServiceResult>>,
    ) -> Result<Polled<Option<ServiceResult>>, OutOfMemory>
        ensures { IfOk result (λ a. a ≡ mapped (P.post self.now.pp self.now.request) answer) }
    {
        match answer {
            Polled::Pending => Ok(Polled::Pending),
            Polled::Ready(None) => Ok(Polled::Ready(None)),
            Polled::Ready(Some(item)) => {
                let item = self.pp.map(alloc, &self.request, item)?;
                Ok(Polled::Ready(Some(item)))
            }
        }
    }
}

impl<F: ReplyFuture, Meta: Drop, P: Postprocess<Meta>> ReplyStream
    for PostprocessingStream<F, Meta, P> {
    ghost answer = { λ s. each_mapped (P.post s.pp s.request) (request_answer F.answer F.Stream.answer s.inner) };

    ghost size = { λ s. request_size F.Stream.size s.inner };

    fn poll_next(&mut self, alloc: Global) -> Result<Polled<Option<ServiceResult>>, OutOfMemory> {
        let answer = self.inner.poll_next(alloc)?;
        self.mapped(alloc, answer)
    }

    fn size_hint(&self) -> (usize, Option<usize>) {
        self.inner.size_hint()
    }
}
