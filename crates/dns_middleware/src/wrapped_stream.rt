//! The replies of the service in its layers, as one type that nests nothing.

ghost use Rattle.std.specs.Prelude.{◌≡◌, ℕ, suc, IfOk, OnErr, OnOk};
ghost use Rattle.dns_service.specs.Answer.{mapped};
ghost use Rattle.dns_layers.specs.Rewritten.{rewritten};
ghost use Rattle.dns_middleware.specs.WrappedStreams.{wrap_by, wrapped_answer, wrapped_size};

use crate::wrap_post::WrapPost;
use dns_layers::{AskStream, VerdictFuture, rewrite_answer};
use dns_service::{Once, OutOfMemory, Polled, ReplyStream, ServiceResult};
use std::alloc::Global;

/// The replies of the service in its layers.
#[derive(Drop)]
pub enum WrappedStream<R, V> {
    /// A reply of its own.
    Own(Once),
    /// The reply by a target's verdict.
    Asking(AskStream<V>, WrapPost),
    /// The replies of the given service, rewritten.
    Passed(R, WrapPost),
}

impl<R, V> ReplyStream for WrappedStream<R, V>
where
    R: ReplyStream,
    V: VerdictFuture,
{
    ghost answer = { wrapped_answer ⟦<Once as ReplyStream>⟧.answer R.answer V.verdict };

    ghost size = { wrapped_size ⟦<Once as ReplyStream>⟧.size R.size };

    #[inline(always)]
    fn poll_next(&mut self, alloc: Global) -> Result<Polled<Option<ServiceResult>>, OutOfMemory> {
        match self {
            WrappedStream::Own(stream) => stream.poll_next(alloc),
            WrappedStream::Asking(stream, post) => poll_rewritten(alloc, stream, post),
            WrappedStream::Passed(stream, post) => poll_rewritten(alloc, stream, post),
        }
    }

    fn size_hint(&self) -> (usize, Option<usize>) {
        match self {
            WrappedStream::Own(stream) => stream.size_hint(),
            WrappedStream::Asking(stream, _) => stream.size_hint(),
            WrappedStream::Passed(stream, _) => stream.size_hint(),
        }
    }
}

/// Polls a stream, and rewrites the reply that it gives.
#[inline(always)]
fn poll_rewritten<R: ReplyStream>(
    alloc: Global,
    stream: &mut R,
    post: &WrapPost,
) -> Result<Polled<Option<ServiceResult>>, OutOfMemory>
    ensures now { IfOk result (λ p. p ≡ mapped (rewritten (wrap_by post.now)) (R.answer stream.old 0)) }
    ensures later { OnOk result ((k : ℕ) → R.answer stream.new k ≡ R.answer stream.old (suc k)) }
{
    let mut polled = stream.poll_next(alloc);
    rewrite_polled(alloc, &mut polled, post)?;
    polled
}

/// Rewrites in place the reply in what a poll gave.
#[inline(always)]
fn rewrite_polled(
    alloc: Global,
    polled: &mut Result<Polled<Option<ServiceResult>>, OutOfMemory>,
    post: &WrapPost,
) -> Result<(), OutOfMemory>
    ensures given { OnOk result (IfOk polled.old (λ a. polled.new ≡ Ok (mapped (rewritten (wrap_by post.now)) a))) }
    ensures refused { OnErr polled.old (polled.new ≡ polled.old) }
{
    match polled {
        Ok(answer) => rewrite_answer(post, alloc, answer),
        Err(_) => Ok(()),
    }
}
