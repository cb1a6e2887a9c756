//! A layer that counts replies.

ghost use Rattle.std.specs.Prelude.{◌≡◌};

use crate::counts::ReplyCounts;
use dns_service::{OutOfMemory, Polled, ReplyFuture, ReplyStream, Request, Service, ServiceResult};
use std::alloc::Global;
use std::sync::Arc;

/// A service whose replies are counted.
#[derive(Drop)]
pub struct CountingSvc<S> {
    next: S,
    counts: Arc<ReplyCounts>,
}

impl<S> CountingSvc<S> {
    /// Round a service.
    pub fn new(next: S, counts: Arc<ReplyCounts>) -> Self
        ensures { result ≡ record { next = next; counts = counts } }
    {
        CountingSvc { next, counts }
    }
}

/// The future of a service whose replies are counted.
#[derive(Drop)]
pub struct CountingFuture<F> {
    inner: F,
    counts: Arc<ReplyCounts>,
    is_stream: bool,
}

/// The stream of a service whose replies are counted.
#[derive(Drop)]
pub struct CountingStream<R> {
    inner: R,
    counts: Arc<ReplyCounts>,
    is_stream: bool,
}

impl<S, Meta> Service<Meta> for CountingSvc<S>
where
    S: Service<Meta>,
{
    type Stream = CountingStream<S::Stream>;

    type Future = CountingFuture<S::Future>;

    ghost answer = { λ s. S.answer s.next };

    ghost hint = { λ s. S.hint s.next };

    ghost can_call = { λ s. S.can_call s.next };

    fn call(
        &self,
        alloc: Global,
        request: &mut Request<Meta>,
    ) -> Result<CountingFuture<S::Future>, OutOfMemory> {
        let counts = Arc::try_clone(&self.counts)?;
        let is_stream = request.transport_ctx().is_non_udp();
        let inner = self.next.call(alloc, request)?;
        Ok(CountingFuture {
            inner,
            counts,
            is_stream,
        })
    }
}

impl<F: ReplyFuture> ReplyFuture for CountingFuture<F> {
    type Stream = CountingStream<F::Stream>;

    ghost answer = { λ f. F.answer f.inner };

    fn poll(&mut self, alloc: Global) -> Result<Polled<CountingStream<F::Stream>>, OutOfMemory> {
        let counts = Arc::try_clone(&self.counts)?;
        let is_stream = self.is_stream;
        match self.inner.poll(alloc)? {
            Polled::Ready(inner) => Ok(Polled::Ready(CountingStream {
                inner,
                counts,
                is_stream,
            })),
            Polled::Pending => Ok(Polled::Pending),
        }
    }
}

/// Counts the reply in an item, if it has one.
fn count_item(counts: &ReplyCounts, is_stream: bool, item: &ServiceResult) {
    if let Ok(given) = item {
        if let Some(reply) = given.response() {
            counts.count(is_stream, reply.header().rcode);
        }
    }
}

/// Counts the reply that a poll gave, if it gave one.
fn count_polled(counts: &ReplyCounts, is_stream: bool, polled: &Polled<Option<ServiceResult>>) {
    if let Polled::Ready(Some(item)) = polled {
        count_item(counts, is_stream, item);
    }
}

impl<R: ReplyStream> ReplyStream for CountingStream<R> {
    ghost answer = { λ s. R.answer s.inner };

    ghost size = { λ s. R.size s.inner };

    fn poll_next(&mut self, alloc: Global) -> Result<Polled<Option<ServiceResult>>, OutOfMemory> {
        let polled = self.inner.poll_next(alloc)?;
        count_polled(&self.counts, self.is_stream, &polled);
        Ok(polled)
    }

    fn size_hint(&self) -> (usize, Option<usize>) {
        self.inner.size_hint()
    }
}
