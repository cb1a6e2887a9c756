//! The signed replies of an inner service.

ghost use Rattle.std.specs.Prelude.{◌≡◌};
ghost use Rattle.dns_service.specs.PolledRequest.{request_answer, request_size, unknown_size};
ghost use Rattle.dns_signing.specs.SignedReplies.{signed_answers};

use crate::signer::Signer;
use dns_service::{OutOfMemory, Polled, PolledRequest, ReplyFuture, ReplyStream, ServiceResult};
use std::alloc::Global;

/// Answers as the inner service does, and signs each reply after the one before. An error of the service is answered by a
/// signed error reply, and then the replies end.
#[derive(Drop)]
pub struct SignedStream<F: ReplyFuture> {
    inner: PolledRequest<F, F::Stream>,
    signer: Signer,
}

impl<F: ReplyFuture> SignedStream<F> {
    /// The replies of a future, which the signer signs.
    pub fn new(future: F, signer: Signer) -> Self
        ensures answers { ⟦<SignedStream<F> as ReplyStream>⟧.answer result ≡ signed_answers (F.answer future) signer }
        ensures size { ⟦<SignedStream<F> as ReplyStream>⟧.size result ≡ unknown_size }
    {
        SignedStream {
            inner: PolledRequest::Future(future),
            signer,
        }
    }
}

impl<F: ReplyFuture> ReplyStream for SignedStream<F> {
    ghost answer = { λ s. signed_answers (request_answer F.answer F.Stream.answer s.inner) s.signer };

    ghost size = { λ s. request_size F.Stream.size s.inner };

    #[tactic(auto, using(crate::proofs::Followed::none_left))]
    fn poll_next(&mut self, alloc: Global) -> Result<Polled<Option<ServiceResult>>, OutOfMemory> {
        if self.signer.has_ended() {
            return Ok(Polled::Ready(None));
        }
        let mut answer = self.inner.poll_next(alloc)?;
        self.signer.sign_answer(alloc, &mut answer)?;
        Ok(answer)
    }

    fn size_hint(&self) -> (usize, Option<usize>) {
        self.inner.size_hint()
    }
}
