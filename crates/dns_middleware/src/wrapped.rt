//! The service in its layers, as one type.

ghost use Rattle.std.specs.Prelude.{◌≡◌, ℕ, IfOk, OnErr, OnOk};
ghost use Rattle.dns_layers.specs.Refusals.{refusal_by};
ghost use Rattle.dns_layers.specs.Verdicts.{verdict_on};
ghost use Rattle.dns_middleware.specs.Nested.{HintIsNested, RepliesAreNested};
ghost use Rattle.dns_middleware.specs.ReplyLaws.{RepliesFit, RepliesRespond};
ghost use Rattle.dns_middleware.specs.Wrapped.{hint_left, replies};

use crate::wrapped_calls::{not_refused, refused};
use crate::wrapped_future::WrappedFuture;
use crate::wrapped_stream::WrappedStream;
use dns_layers::{Notifiable, Refusal, read_request, refusal_by};
use dns_service::{Asked, OutOfMemory, Request, Service, Settings, cut_fits};
use std::alloc::Global;

/// A service in its layers.
#[derive(Drop)]
pub struct Wrapped<S, N> {
    pub(crate) settings: Settings,
    pub(crate) service: S,
    pub(crate) target: N,
}

impl<S: Drop, N: Drop> Wrapped<S, N> {
    /// A service and a target in the layers of the settings, for requests with metadata of any type.
    pub fn new(
        alloc: Global,
        settings: &Settings,
        service: S,
        target: N,
    ) -> Result<Wrapped<S, N>, OutOfMemory>
        ensures { IfOk result (λ w. w ≡ record { settings = settings.now; service = service; target = target }) }
    {
        let settings = settings.try_clone(alloc)?;
        Ok(Wrapped {
            settings,
            service,
            target,
        })
    }
}

/// The replies of the service in its layers.
pub type WrappedReplies<S, N, Meta> = WrappedStream<
    <S as Service<Meta>>::Stream,
    <N as Notifiable>::Future,
>;

/// A call of the wrapped service that isn't answered yet: the future of its replies.
pub type ComingReplies<S, N, Meta> = WrappedFuture<
    <S as Service<Meta>>::Future,
    <N as Notifiable>::Future,
>;

impl<S, N, Meta> Service<Meta> for Wrapped<S, N>
where
    S: Service<Meta>,
    N: Notifiable,
{
    type Stream = WrappedReplies<S, N, Meta>;

    type Future = ComingReplies<S, N, Meta>;

    ghost answer = { λ w. replies w.settings (S.answer w.service) (verdict_on (N.verdict w.target)) };

    ghost hint = { λ w. hint_left w.settings };

    ghost can_call = { λ w. S.can_call w.service };

    #[tactic(auto, using(dns_layers::proofs::EdnsLaws::kept_hint))]
    fn call(
        &self,
        alloc: Global,
        request: &mut Request<Meta>,
    ) -> Result<ComingReplies<S, N, Meta>, OutOfMemory> {
        let settings = &self.settings;
        let asked = read_request(request);
        match refusal_of(settings, request, &asked) {
            Some(refusal) => refused::<S, N, Meta>(alloc, settings, &asked, request, refusal),
            None => not_refused(alloc, self, &asked, request),
        }
    }
}

/// What a request is refused with. This was read of it.
fn refusal_of<Meta>(settings: &Settings, request: &Request<Meta>, asked: &Asked) -> Option<Refusal>
    ensures { result ≡ refusal_by settings.now request.now.transport asked.now }
{
    refusal_by(settings, request.transport_ctx(), asked)
}

/// A service in the layers of the settings: mandatory over EDNS over cookies over NOTIFY. For requests with metadata it is made by
/// `Wrapped::new`.
pub fn wrap<S, N>(
    alloc: Global,
    settings: &Settings,
    service: S,
    target: N,
) -> Result<Wrapped<S, N>, OutOfMemory>
where
    S: Service<()>,
    N: Notifiable,
    ensures can_call { IfOk result (λ w. S.can_call service → ⟦<Wrapped<S, N> as Service<()>>⟧.can_call w) }
    ensures replies { IfOk result (λ w. ⟦<Wrapped<S, N> as Service<()>>⟧.answer w
        ≡ replies settings.now (S.answer service) (verdict_on (N.verdict target))) }
    ensures hint { IfOk result (λ w. ⟦<Wrapped<S, N> as Service<()>>⟧.hint w ≡ hint_left settings.now) }
{
    let wrapped = Wrapped::new(alloc, settings, service, target)?;
    Ok(wrapped)
}

/// The service in its layers answers as the mandatory layer over EDNS over cookies over NOTIFY over the given service does. It
/// leaves the same hint.
pub fn wrapped_is_nested()
    ensures replies { RepliesAreNested }
    ensures hint { HintIsNested }
{}

/// Each reply over UDP to a request has no more octets than the request's limit.
pub fn wrapped_replies_fit()
    ensures { RepliesFit }
{
    cut_fits();
}

/// Each reply to a request carries its identifier, and QR.
pub fn wrapped_replies_respond()
    ensures { RepliesRespond }
{}
