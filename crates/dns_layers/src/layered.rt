//! What the layers share: the stream of a layer, and replies of its own.

ghost use Rattle.std.specs.Prelude.{◌≡◌, ℕ, IfOk};
ghost use Rattle.dns_service.specs.Answer.{mapped};
ghost use Rattle.dns_service.specs.ErrorReply.{error_reply};
ghost use Rattle.dns_layers.specs.Rewritten.{own_reply, rewritten};

use crate::rewrite::{Rewrite, Rewriting};
use dns_base::{AdditionalBuilder, Message};
use dns_name::OptRcode;
use dns_service::{CallResult, ReplyFuture, ReplyStream, Request, Service, mk_error_response};
use dns_stream::{MiddlewareStream, Now, Once, OutOfMemory, PostprocessingStream};
use std::alloc::Global;

/// The stream of a layer round a service: the inner replies, mapped or not, or a reply of the layer's own.
pub type Layered<S, Meta, R> = MiddlewareStream<
    <S as Service<Meta>>::Future,
    <S as Service<Meta>>::Stream,
    PostprocessingStream<<S as Service<Meta>>::Future, (), Rewriting<R>>,
    Once,
>;

/// A layer's replies that are its own, at once.
pub fn of_own<S: Service<Meta>, Meta, M: ReplyStream>(
    reply: AdditionalBuilder,
) -> Now<MiddlewareStream<S::Future, S::Stream, M, Once>>
    ensures { (k : ℕ) → ⟦<Now<MiddlewareStream<S::Future, S::Stream, M, Once>> as ReplyFuture>⟧.answer result k
        ≡ own_reply reply.message k }
{
    Now::new(MiddlewareStream::Result(alone(reply)))
}

/// A layer's replies that are those of the service inside as they are, at once.
pub fn of_inner<S: Service<Meta>, Meta, M: ReplyStream, O: ReplyStream>(
    future: S::Future,
) -> Now<MiddlewareStream<S::Future, S::Stream, M, O>>
    ensures { (k : ℕ) → ⟦<Now<MiddlewareStream<S::Future, S::Stream, M, O>> as ReplyFuture>⟧.answer result k ≡ S.Future.answer future k }
{
    Now::new(MiddlewareStream::IdentityFuture(future))
}

/// A layer's replies that are those of the service inside, rewritten by a rule for the request as it came, at once.
pub fn of_mapped<S: Service<Meta>, Meta, R: Rewrite>(
    future: S::Future,
    original: Request<()>,
    rule: R,
) -> Now<Layered<S, Meta, R>>
    ensures { (k : ℕ) → ⟦<Now<Layered<S, Meta, R>> as ReplyFuture>⟧.answer result k
        ≡ mapped (rewritten (R.rewriting rule)) (S.Future.answer future k) }
{
    let pp = Rewriting { rule };
    Now::new(MiddlewareStream::Map(PostprocessingStream::new(future, original, pp)))
}

/// A reply and nothing else, and then the end.
pub fn alone(reply: AdditionalBuilder) -> Once
    ensures { (k : ℕ) → ⟦<Once as ReplyStream>⟧.answer result k ≡ own_reply reply.message k }
{
    Once::new(Ok(CallResult::new(reply)))
}

/// A layer's own error reply to a request, rewritten as each reply is.
pub fn refuse<R: Rewrite>(
    rule: &R,
    alloc: Global,
    request: &Message,
    rcode: OptRcode,
) -> Result<AdditionalBuilder, OutOfMemory>
    ensures { IfOk result (λ b. b.message ≡ R.rewriting rule.now (error_reply request.now rcode)) }
{
    let mut reply = mk_error_response(alloc, request, rcode)?;
    rule.rewrite(alloc, &mut reply)?;
    Ok(reply)
}
