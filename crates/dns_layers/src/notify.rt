//! The NOTIFY layer (RFC 1996).

ghost use Rattle.std.specs.Prelude.{◌≡◌, IfOk, OnErr};
ghost use Rattle.dns_service.specs.declared.message.Request.{Request};
ghost use Rattle.dns_layers.specs.Calls.{AnswersAs, LeavesHint};
ghost use Rattle.dns_layers.specs.Notify.{asking, notice_of, notify, notify_hint};
ghost use Rattle.dns_layers.specs.Verdicts.{verdict_on};

use crate::ask_stream::{AskStream, ask_owned};
use crate::layered::of_inner;
use crate::notice::{Notice, notice_of};
use crate::notifiable::Notifiable;
use crate::refusal::read_request;
use dns_service::{ReplyFuture, Request, Service};
use dns_stream::{MiddlewareStream, Now, Once, OutOfMemory};
use std::alloc::Global;

/// The stream of a NOTIFY layer round a service: the inner replies, or those of the target.
pub type NotifyStream<S, N, Meta> = MiddlewareStream<
    <S as Service<Meta>>::Future,
    <S as Service<Meta>>::Stream,
    Once,
    AskStream<<N as Notifiable>::Future>,
>;

/// A service, and a target that takes the changes of zones that its clients tell of.
#[derive(Drop)]
pub struct NotifyMiddlewareSvc<S, N> {
    next: S,
    target: N,
}

impl<S, N> NotifyMiddlewareSvc<S, N> {
    /// A layer round a service, which tells the target of changed zones.
    pub fn new(next: S, target: N) -> Self
        ensures { result ≡ record { next = next; target = target } }
    {
        NotifyMiddlewareSvc { next, target }
    }
}

impl<S, N, Meta> Service<Meta> for NotifyMiddlewareSvc<S, N>
where
    S: Service<Meta>,
    N: Notifiable,
{
    type Stream = NotifyStream<S, N, Meta>;

    type Future = Now<NotifyStream<S, N, Meta>>;

    ghost answer = { λ s. notify (verdict_on (N.verdict s.target)) (S.answer s.next) };

    ghost hint = { λ s. notify_hint (S.hint s.next) };

    ghost can_call = { λ s. S.can_call s.next };

    fn call(
        &self,
        alloc: Global,
        request: &mut Request<Meta>,
    ) -> Result<Now<NotifyStream<S, N, Meta>>, OutOfMemory> {
        match read_notice(alloc, request) {
            Ok(Some(notice)) => of_asked::<S, N, Meta>(alloc, &self.target, request, notice),
            Ok(None) => pass::<S, N, Meta>(alloc, &self.next, request),
            Err(error) => Err(error),
        }
    }
}

/// The replies of the service inside.
fn pass<S: Service<Meta>, N: Notifiable, Meta>(
    alloc: Global,
    next: &S,
    request: &mut Request<Meta>,
) -> Result<Now<NotifyStream<S, N, Meta>>, OutOfMemory>
    requires { S.can_call next.now }
    ensures answers { AnswersAs ⟦<Now<NotifyStream<S, N, Meta>> as ReplyFuture>⟧.answer
        (S.answer next.now request.old) result }
    ensures kept { LeavesHint (S.hint next.now request.old) request.old request.new result }
    ensures refused { OnErr result (request.new ≡ request.old) }
{
    let future = next.call(alloc, request)?;
    Ok(of_inner::<S, Meta, _, _>(future))
}

/// What a request asks the target.
fn read_notice<Meta>(alloc: Global, request: &Request<Meta>) -> Result<Option<Notice>, OutOfMemory>
    ensures { IfOk result (λ notice. notice ≡ notice_of request.now) }
{
    let asked = read_request(request);
    notice_of(alloc, request, &asked)
}

/// The reply by a target's verdict on a notice of a request.
fn of_asked<S: Service<Meta>, N: Notifiable, Meta>(
    alloc: Global,
    target: &N,
    request: &Request<Meta>,
    notice: Notice,
) -> Result<Now<NotifyStream<S, N, Meta>>, OutOfMemory>
    ensures { AnswersAs ⟦<Now<NotifyStream<S, N, Meta>> as ReplyFuture>⟧.answer
        (asking request.now.octets (verdict_on (N.verdict target.now) notice)) result }
{
    let stream = ask_owned(alloc, target, request.message(), notice)?;
    Ok(Now::new(MiddlewareStream::Result(stream)))
}
