//! Replies that are there at once.

ghost use Rattle.std.specs.Prelude.{◌≡◌, ℕ, Some, None};
ghost use Rattle.dns_service.specs.Once.{once, once_of, items_left, now_of};

use crate::service::{Polled, ReplyFuture, ReplyStream, ServiceResult};
use dns_name::OutOfMemory;
use std::alloc::Global;

/// One item, and then the end.
#[derive(Drop)]
pub struct Once {
    item: Option<ServiceResult>,
}

impl Once {
    /// A stream of this item, and then of none.
    pub fn new(item: ServiceResult) -> Self
        ensures answers { ⟦<Once as ReplyStream>⟧.answer result ≡ once item }
        ensures size { ⟦<Once as ReplyStream>⟧.size result ≡ (1, Some 1) }
    {
        Once { item: Some(item) }
    }
}

impl ReplyStream for Once {
    ghost answer = { λ s. once_of s.item };

    ghost size = { λ s. (items_left s.item, Some (items_left s.item)) };

    fn poll_next(&mut self, _alloc: Global) -> Result<Polled<Option<ServiceResult>>, OutOfMemory> {
        Ok(Polled::Ready(self.item.take()))
    }

    fn size_hint(&self) -> (usize, Option<usize>) {
        match &self.item {
            Some(_) => (1, Some(1)),
            None => (0, Some(0)),
        }
    }
}

/// A future that is ready at its first poll. Polled again, it is pending.
#[derive(Drop)]
pub struct Now<S> {
    stream: Option<S>,
}

impl<S: ReplyStream> Now<S> {
    /// A future that is ready with this stream at its first poll.
    pub fn new(stream: S) -> Self
        ensures { ⟦<Now<S> as ReplyFuture>⟧.answer result ≡ S.answer stream }
    {
        Now {
            stream: Some(stream),
        }
    }
}

impl<S: ReplyStream> ReplyFuture for Now<S> {
    type Stream = S;

    ghost answer = { λ s. now_of S.answer s.stream };

    fn poll(&mut self, _alloc: Global) -> Result<Polled<S>, OutOfMemory> {
        match self.stream.take() {
            Some(stream) => Ok(Polled::Ready(stream)),
            None => Ok(Polled::Pending),
        }
    }

    fn into_stream(self) -> Result<S, Now<S>> {
        match self.stream {
            Some(stream) => Ok(stream),
            None => Err(Now { stream: None }),
        }
    }
}
