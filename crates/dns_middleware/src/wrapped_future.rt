//! The replies of the service in its layers, which may still have to come.

ghost use Rattle.std.specs.Prelude.{◌≡◌, ℕ, suc, IfOk, OnOk};
ghost use Rattle.dns_service.specs.Answer.{IfPending, IfReady, mapped};
ghost use Rattle.dns_service.specs.Once.{now_of};
ghost use Rattle.dns_layers.specs.Rewritten.{rewritten};
ghost use Rattle.dns_middleware.specs.WrappedStreams.{future_answer, wrap_by};

use crate::wrap_post::WrapPost;
use crate::wrapped_stream::WrappedStream;
use dns_layers::{AskStream, VerdictFuture};
use dns_service::{Once, OutOfMemory, Polled, ReplyFuture, ReplyStream};
use std::alloc::Global;

/// A reply of its own and a target's are there at once, and the given service's as its future gives them.
#[derive(Drop)]
pub enum WrappedFuture<F, V> {
    /// A reply of its own, until it is taken.
    Own(Option<Once>),
    /// The reply by a target's verdict, until it is taken.
    Asking(Option<AskStream<V>>, WrapPost),
    /// The replies of the given service, rewritten.
    Passing(F, WrapPost),
}

impl<F, V> ReplyFuture for WrappedFuture<F, V>
where
    F: ReplyFuture,
    V: VerdictFuture,
{
    type Stream = WrappedStream<F::Stream, V>;

    ghost answer = { future_answer ⟦<Once as ReplyStream>⟧.answer F.answer V.verdict };

    #[inline(always)]
    fn poll(&mut self, alloc: Global) -> Result<Polled<WrappedStream<F::Stream, V>>, OutOfMemory> {
        match self {
            WrappedFuture::Own(stream) => Ok(take_own(stream)),
            WrappedFuture::Asking(stream, post) => match stream.take() {
                Some(stream) => Ok(Polled::Ready(WrappedStream::Asking(stream, *post))),
                None => Ok(Polled::Pending),
            },
            WrappedFuture::Passing(future, post) => poll_passing(alloc, future, *post),
        }
    }

    #[inline(always)]
    fn into_stream(self) -> Result<WrappedStream<F::Stream, V>, WrappedFuture<F, V>> {
        match self {
            WrappedFuture::Passing(future, post) => match future.into_stream() {
                Ok(stream) => Ok(WrappedStream::Passed(stream, post)),
                Err(future) => Err(WrappedFuture::Passing(future, post)),
            },
            future => Err(future),
        }
    }
}

/// A reply of its own, if it wasn't taken before.
fn take_own<R, V>(own: &mut Option<Once>) -> Polled<WrappedStream<R, V>>
where
    R: ReplyStream,
    V: VerdictFuture,
    ensures pending { let answer = ⟦<Once as ReplyStream>⟧.answer in IfPending
        (now_of answer own.old 0 ≡ Polled.Pending × ((k : ℕ) → now_of answer own.new k ≡ now_of answer own.old (suc k))) result }
    ensures ready { IfReady (λ s. (k : ℕ) → ⟦<WrappedStream<R, V> as ReplyStream>⟧.answer s k
        ≡ now_of ⟦<Once as ReplyStream>⟧.answer own.old k) result }
{
    match own.take() {
        Some(stream) => Polled::Ready(WrappedStream::Own(stream)),
        None => Polled::Pending,
    }
}

/// Polls the given service's future, whose replies are to be rewritten.
fn poll_passing<F, V>(
    alloc: Global,
    future: &mut F,
    post: WrapPost,
) -> Result<Polled<WrappedStream<F::Stream, V>>, OutOfMemory>
where
    F: ReplyFuture,
    V: VerdictFuture,
    ensures pending { IfOk result (IfPending
        (F.answer future.old 0 ≡ Polled.Pending × ((k : ℕ) → F.answer future.new k ≡ F.answer future.old (suc k)))) }
    ensures ready { IfOk result (IfReady (λ s. (k : ℕ)
        → ⟦<WrappedStream<F::Stream, V> as ReplyStream>⟧.answer s k ≡ mapped (rewritten (wrap_by post)) (F.answer future.old k))) }
{
    match future.poll(alloc)? {
        Polled::Ready(stream) => Ok(Polled::Ready(WrappedStream::Passed(stream, post))),
        Polled::Pending => Ok(Polled::Pending),
    }
}
