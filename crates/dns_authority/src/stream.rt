//! The replies of an authority, as one type.

ghost use Rattle.std.specs.Prelude.{◌≡◌};
ghost use Rattle.dns_service.specs.Once.{now_of};
ghost use Rattle.dns_authority.specs.Streams.{stream_answer, stream_size};

use dns_service::{Once, OutOfMemory, Polled, ReplyFuture, ReplyStream, ServiceResult};
use dns_transfer::Transfer;
use std::alloc::Global;

/// The replies of an authority.
#[derive(Drop)]
pub enum AuthorityStream {
    /// A reply or an error that is there at once.
    Single(Once),
    /// The replies of a transfer.
    Transferred(Transfer),
}

impl ReplyStream for AuthorityStream {
    ghost answer = { stream_answer ⟦<Once as ReplyStream>⟧.answer ⟦<Transfer as ReplyStream>⟧.answer };

    ghost size = { stream_size ⟦<Once as ReplyStream>⟧.size ⟦<Transfer as ReplyStream>⟧.size };

    fn poll_next(&mut self, alloc: Global) -> Result<Polled<Option<ServiceResult>>, OutOfMemory> {
        match self {
            AuthorityStream::Single(stream) => stream.poll_next(alloc),
            AuthorityStream::Transferred(stream) => stream.poll_next(alloc),
        }
    }

    fn size_hint(&self) -> (usize, Option<usize>) {
        match self {
            AuthorityStream::Single(stream) => stream.size_hint(),
            AuthorityStream::Transferred(stream) => stream.size_hint(),
        }
    }
}

/// The replies of an authority, at its first poll. Polled again, it is pending.
#[derive(Drop)]
pub struct AuthorityFuture {
    stream: Option<AuthorityStream>,
}

impl AuthorityFuture {
    pub(crate) fn new(stream: AuthorityStream) -> AuthorityFuture
        ensures { ⟦<AuthorityFuture as ReplyFuture>⟧.answer result ≡ ⟦<AuthorityStream as ReplyStream>⟧.answer stream }
    {
        AuthorityFuture {
            stream: Some(stream),
        }
    }
}

impl ReplyFuture for AuthorityFuture {
    type Stream = AuthorityStream;

    ghost answer = { λ f. now_of ⟦<AuthorityStream as ReplyStream>⟧.answer f.stream };

    fn poll(&mut self, _alloc: Global) -> Result<Polled<AuthorityStream>, OutOfMemory> {
        match self.stream.take() {
            Some(stream) => Ok(Polled::Ready(stream)),
            None => Ok(Polled::Pending),
        }
    }
}
