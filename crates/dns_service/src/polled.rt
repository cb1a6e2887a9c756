//! Requests that are polled: a future, and then its stream.

ghost use Rattle.std.specs.Prelude.{◌≡◌, ℕ, suc, IfOk, OnOk};
ghost use Rattle.dns_service.specs.Answer.{IfPending, IfReady};
ghost use Rattle.dns_service.specs.PolledRequest.{ComesToStream, HasStream, request_answer, request_size};

use crate::service::{Polled, ReplyFuture, ReplyStream, ServiceResult};
use dns_name::OutOfMemory;
use std::alloc::Global;

/// Polls a future, and if it is ready its stream in the same call: then the stream is given, with what it answered.
/// After memory ran out the future isn't to be polled again.
pub fn poll_future<F: ReplyFuture<Stream = R>, R: ReplyStream>(
    alloc: Global,
    future: &mut F,
) -> Result<Polled<(R, Polled<Option<ServiceResult>>)>, OutOfMemory>
    ensures pending { IfOk result (IfPending
        (F.answer future.old 0 ≡ Polled.Pending × ((k : ℕ) → F.answer future.new k ≡ F.answer future.old (suc k)))) }
    ensures ready { IfOk result (IfReady (λ p. (p.1 ≡ F.answer future.old 0) × ((k : ℕ) → R.answer p.0 k ≡ F.answer future.old (suc k)))) }
{
    match future.poll(alloc)? {
        Polled::Pending => Ok(Polled::Pending),
        Polled::Ready(mut stream) => {
            let answer = stream.poll_next(alloc)?;
            Ok(Polled::Ready((stream, answer)))
        }
    }
}

/// Whether a request has come to its stream: a future that is ready gives way to it, and one that is pending takes an answer.
#[inline(always)]
fn advance_to_stream<F: ReplyFuture<Stream = R>, R: ReplyStream>(
    alloc: Global,
    request: &mut PolledRequest<F, R>,
) -> Result<bool, OutOfMemory>
    ensures { IfOk result (ComesToStream F.answer R.answer request.old request.new) }
{
    match request {
        PolledRequest::Future(future) => match future.poll(alloc) {
            Ok(Polled::Pending) => Ok(false),
            Ok(Polled::Ready(stream)) => {
                *request = PolledRequest::Stream(stream);
                Ok(true)
            }
            Err(error) => Err(error),
        },
        PolledRequest::Stream(_) => Ok(true),
    }
}

/// Takes the next answer of a request that has come to its stream.
#[inline(always)]
fn poll_stream<F: ReplyFuture<Stream = R>, R: ReplyStream>(
    alloc: Global,
    request: &mut PolledRequest<F, R>,
) -> Result<Polled<Option<ServiceResult>>, OutOfMemory>
    requires { HasStream request.old }
    ensures now { IfOk result (λ p. p ≡ request_answer F.answer R.answer request.old 0) }
    ensures later { OnOk result ((k : ℕ) → request_answer F.answer R.answer request.new k
        ≡ request_answer F.answer R.answer request.old (suc k)) }
{
    match request {
        PolledRequest::Future(_) => unreachable!(),
        PolledRequest::Stream(stream) => stream.poll_next(alloc),
    }
}

/// A request from its call on.
#[derive(Drop)]
pub enum PolledRequest<F, R> {
    /// The future that the call gave.
    Future(F),
    /// The stream of its replies.
    Stream(R),
}

impl<F, R> ReplyStream for PolledRequest<F, R>
where
    F: ReplyFuture<Stream = R>,
    R: ReplyStream,
{
    ghost answer = { request_answer F.answer R.answer };

    ghost size = { request_size R.size };

    /// Takes the next answer. A future that is ready is followed by the first poll of its stream.
    #[inline(always)]
    fn poll_next(&mut self, alloc: Global) -> Result<Polled<Option<ServiceResult>>, OutOfMemory> {
        match advance_to_stream(alloc, self) {
            Ok(true) => poll_stream(alloc, self),
            Ok(false) => Ok(Polled::Pending),
            Err(error) => Err(error),
        }
    }

    /// How many items are left, as the stream says. Before there is a stream that is unknown.
    fn size_hint(&self) -> (usize, Option<usize>) {
        match self {
            PolledRequest::Future(_) => (0, None),
            PolledRequest::Stream(stream) => stream.size_hint(),
        }
    }
}
