//! The layer.

ghost use Rattle.std.specs.Prelude.{◌≡◌, OnErr};
ghost use Rattle.std.specs.Arc.{arc_value};
ghost use Rattle.dns_service.specs.Transport.{hinted};
ghost use Rattle.dns_layers.specs.Calls.{AnswersAs, LeavesHint};
ghost use Rattle.dns_layers.specs.Rewritten.{own_reply};
ghost use Rattle.dns_signing.specs.ErrorResponse.{error_response};
ghost use Rattle.dns_key_access.specs.Layer.{access_answer, access_hint, without_key};

use crate::access::KeyAccess;
use crate::replies::{AccessFuture, AccessStream};
use dns_base::OptRcode;
use dns_service::{OutOfMemory, ReplyFuture, Request, Service};
use dns_signing::error_response;
use std::alloc::Global;
use std::sync::Arc;

/// A service round one whose requests have no metadata. Its own have the place of the key that they were verified under, or none.
/// A transfer and a NOTIFY that no rule permits are refused here.
#[derive(Drop)]
pub struct KeyAccessSvc<S> {
    next: S,
    access: Arc<KeyAccess>,
}

impl<S: Service<()>> KeyAccessSvc<S> {
    /// Round a service, with its rules.
    pub fn new(next: S, access: Arc<KeyAccess>) -> Self
        ensures { result ≡ record { next = next; access = access } }
    {
        KeyAccessSvc { next, access }
    }
}

impl<S: Service<()>> Service<Option<usize>> for KeyAccessSvc<S> {
    type Stream = AccessStream<S::Stream>;

    type Future = AccessFuture<S::Future>;

    ghost answer = { λ s. access_answer (S.answer s.next) (arc_value s.access) };

    ghost hint = { λ s. access_hint (S.hint s.next) (arc_value s.access) };

    ghost can_call = { λ s. S.can_call s.next };

    fn call(
        &self,
        alloc: Global,
        request: &mut Request<Option<usize>>,
    ) -> Result<AccessFuture<S::Future>, OutOfMemory> {
        match self.access.refusal(request) {
            Some(code) => refuse::<S>(alloc, request, code),
            None => pass(alloc, &self.next, request),
        }
    }
}

/// The reply to a request that is refused.
fn refuse<S: Service<()>>(
    alloc: Global,
    request: &Request<Option<usize>>,
    code: OptRcode,
) -> Result<AccessFuture<S::Future>, OutOfMemory>
    ensures { AnswersAs ⟦<AccessFuture<S::Future> as ReplyFuture>⟧.answer (own_reply (error_response request.now.octets code)) result }
{
    let reply = error_response(alloc, request.message(), code)?;
    Ok(AccessFuture::of_reply(reply))
}

/// The inner replies to a request, without its key.
#[tactic(auto, using(crate::proofs::Hints::hint_carried))]
fn pass<S: Service<()>>(
    alloc: Global,
    next: &S,
    request: &mut Request<Option<usize>>,
) -> Result<AccessFuture<S::Future>, OutOfMemory>
    requires { S.can_call next.now }
    ensures answers { AnswersAs ⟦<AccessFuture<S::Future> as ReplyFuture>⟧.answer (S.answer next.now (without_key request.old)) result }
    ensures kept { LeavesHint (S.hint next.now (without_key request.old)) request.old request.new result }
    ensures refused { OnErr result (request.new ≡ request.old) }
{
    let Ok(mut inner) = request.try_clone(alloc, ()) else {
        return Err(OutOfMemory);
    };
    match next.call(alloc, &mut inner) {
        Ok(future) => {
            leave_hint(request, inner.transport_ctx().hint());
            Ok(AccessFuture::Passing(future))
        }
        Err(error) => Err(error),
    }
}

/// Leaves a hint in a request.
fn leave_hint(request: &mut Request<Option<usize>>, hint: Option<u16>)
    ensures { request.new ≡ record request.old { transport = hinted hint request.old.transport } }
{
    request.transport_ctx_mut().set_hint(hint);
}
