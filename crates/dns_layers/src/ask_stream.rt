//! Waits for a verdict, and then replies once.

ghost use Rattle.std.specs.Prelude.{◌≡◌, ℕ, suc, IfOk};
ghost use Rattle.std.specs.Arc.{arc_value};
ghost use Rattle.dns_service.specs.Answer.{IfPending};
ghost use Rattle.dns_layers.specs.Calls.{AnswersAs};
ghost use Rattle.dns_layers.specs.Notify.{ask_answer, ask_size, asking, verdict_answer};
ghost use Rattle.dns_layers.specs.Verdicts.{verdict_on};

use crate::notice::Notice;
use crate::notifiable::{Notifiable, VerdictFuture};
use crate::notify_reply::notify_reply;
use dns_base::Message;
use dns_service::{CallResult, OutOfMemory, Polled, ReplyStream, ServiceResult};
use std::alloc::Global;
use std::sync::Arc;

/// Pending as a verdict is, then its reply, then the end.
#[derive(Drop)]
pub enum AskStream<V> {
    /// The verdict on this message may still have to come.
    Asking(V, Arc<Message>),
    /// The reply was given.
    Answered,
}

impl<V: VerdictFuture> ReplyStream for AskStream<V> {
    ghost answer = { ask_answer V.verdict };

    ghost size = { ask_size };

    fn poll_next(&mut self, alloc: Global) -> Result<Polled<Option<ServiceResult>>, OutOfMemory> {
        match self {
            AskStream::Answered => Ok(Polled::Ready(None)),
            AskStream::Asking(future, request) => {
                let polled = poll_verdict(alloc, future, request)?;
                if let Polled::Ready(_) = &polled {
                    *self = AskStream::Answered;
                }
                Ok(polled)
            }
        }
    }

    fn size_hint(&self) -> (usize, Option<usize>) {
        match self {
            AskStream::Asking(_, _) => (1, Some(1)),
            AskStream::Answered => (0, Some(0)),
        }
    }
}

/// Polls a verdict on a message: pending as it is, and then the reply.
fn poll_verdict<V: VerdictFuture>(
    alloc: Global,
    future: &mut V,
    request: &Message,
) -> Result<Polled<Option<ServiceResult>>, OutOfMemory>
    ensures now { IfOk result (λ p. p ≡ verdict_answer request.now (V.verdict future.old 0)) }
    ensures later { IfOk result (IfPending ((k : ℕ) → V.verdict future.new k ≡ V.verdict future.old (suc k))) }
{
    match future.poll(alloc)? {
        Polled::Pending => Ok(Polled::Pending),
        Polled::Ready(verdict) => {
            let reply = notify_reply(alloc, request, verdict)?;
            Ok(Polled::Ready(Some(Ok(CallResult::new(reply)))))
        }
    }
}

/// Asks a target on behalf of a request what a notice of its own says.
pub fn ask_owned<N: Notifiable>(
    alloc: Global,
    target: &N,
    request: &Arc<Message>,
    notice: Notice,
) -> Result<AskStream<N::Future>, OutOfMemory>
    ensures { AnswersAs ⟦<AskStream<N::Future> as ReplyStream>⟧.answer
        (asking (arc_value request.now) (verdict_on (N.verdict target.now) notice)) result }
{
    ask(alloc, target, request, &notice)
}

/// Asks a target on behalf of a request.
fn ask<N: Notifiable>(
    alloc: Global,
    target: &N,
    request: &Arc<Message>,
    notice: &Notice,
) -> Result<AskStream<N::Future>, OutOfMemory>
    ensures { AnswersAs ⟦<AskStream<N::Future> as ReplyStream>⟧.answer
        (asking (arc_value request.now) (verdict_on (N.verdict target.now) notice.now)) result }
{
    let future = target.notify_zone_changed(
        alloc,
        notice.class,
        &notice.apex_name,
        notice.serial,
        notice.source,
    )?;
    Ok(AskStream::Asking(future, Arc::try_clone(request)?))
}
