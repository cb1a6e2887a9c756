//! The mandatory layer: refusals of a strict server, and replies that fit and answer their request.

ghost use Rattle.std.specs.Prelude.{◌≡◌, OnErr, false, true};
ghost use Rattle.dns_service.specs.declared.message.Request.{Request};
ghost use Rattle.dns_service.specs.Asked.{asked_of};
ghost use Rattle.dns_service.specs.ErrorReply.{error_reply};
ghost use Rattle.dns_service.specs.Req.{hint_at_entry};
ghost use Rattle.dns_service.specs.Transport.{hint_of, limit};
ghost use Rattle.dns_stream.specs.Streams.{each_mapped};
ghost use Rattle.dns_layers.specs.Calls.{AnswersAs, LeavesHint};
ghost use Rattle.dns_layers.specs.Rewritten.{own_reply, rewritten};
ghost use Rattle.dns_layers.specs.Mandatory.{mand_post, mand_rule, mandatory, mandatory_hint, mandatory_refusal, strict_refusal};

use crate::layered::{Layered, of_mapped, of_own, refuse};
use crate::mandatory_post::MandatoryPost;
use crate::refusal::read_request;
use dns_name::{Opcode, OptRcode};
use dns_service::{Asked, ReplyFuture, Request, Service};
use dns_stream::{Now, OutOfMemory};
use std::alloc::Global;

/// A service whose replies fit the transport and answer their request. A strict one refuses IQUERY, and QUERY of
/// several questions, by itself.
#[derive(Drop)]
pub struct MandatoryMiddlewareSvc<S> {
    next: S,
    strict: bool,
}

impl<S> MandatoryMiddlewareSvc<S> {
    /// Round a service, and strict.
    pub fn new(next: S) -> Self
        ensures { result ≡ record { next = next; strict = true } }
    {
        MandatoryMiddlewareSvc { next, strict: true }
    }

    /// Round a service that is to get IQUERY, and QUERY of several questions, too.
    pub fn relaxed(next: S) -> Self
        ensures { result ≡ record { next = next; strict = false } }
    {
        MandatoryMiddlewareSvc {
            next,
            strict: false,
        }
    }
}

impl<S, Meta> Service<Meta> for MandatoryMiddlewareSvc<S>
where
    S: Service<Meta>,
{
    type Stream = Layered<S, Meta, MandatoryPost>;

    type Future = Now<Layered<S, Meta, MandatoryPost>>;

    ghost answer = { λ s. mandatory s.strict (S.answer s.next) (S.hint s.next) };

    ghost hint = { λ s. mandatory_hint s.strict (S.hint s.next) };

    ghost can_call = { λ s. S.can_call s.next };

    fn call(
        &self,
        alloc: Global,
        request: &mut Request<Meta>,
    ) -> Result<Now<Layered<S, Meta, MandatoryPost>>, OutOfMemory> {
        let asked = read_request(request);
        match mandatory_refusal(self.strict, &asked) {
            Some(rcode) => refused::<S, Meta>(alloc, &asked, request, rcode),
            None => pass(alloc, &self.next, &asked, request),
        }
    }
}

/// The reply to a request that is refused. This was read of the request.
fn refused<S: Service<Meta>, Meta>(
    alloc: Global,
    asked: &Asked,
    request: &Request<Meta>,
    rcode: OptRcode,
) -> Result<Now<Layered<S, Meta, MandatoryPost>>, OutOfMemory>
    requires { asked.now ≡ asked_of request.now.octets }
    ensures { let r = request.now in AnswersAs ⟦<Now<Layered<S, Meta, MandatoryPost>> as ReplyFuture>⟧.answer
        (own_reply (mand_post (limit (hint_at_entry r)) r (error_reply r.octets rcode))) result }
{
    let reply = refuse(&rule_now(asked, request), alloc, request.message(), rcode)?;
    Ok(of_own::<S, Meta, _>(reply))
}

/// The inner replies, which are rewritten by the hint that the inner service left. This was read of the request.
fn pass<S: Service<Meta>, Meta>(
    alloc: Global,
    next: &S,
    asked: &Asked,
    request: &mut Request<Meta>,
) -> Result<Now<Layered<S, Meta, MandatoryPost>>, OutOfMemory>
    requires can_call { S.can_call next.now }
    requires asked { asked.now ≡ asked_of request.old.octets }
    ensures answers { let r = request.old in AnswersAs ⟦<Now<Layered<S, Meta, MandatoryPost>> as ReplyFuture>⟧.answer
        (each_mapped (rewritten (mand_post (limit (S.hint next.now r)) r)) (S.answer next.now r)) result }
    ensures kept { LeavesHint (S.hint next.now request.old) request.old request.new result }
    ensures refused { OnErr result (request.new ≡ request.old) }
{
    let Ok(original) = request.try_clone(alloc, ()) else {
        return Err(OutOfMemory);
    };
    match next.call(alloc, request) {
        Ok(future) => {
            let rule = rule_now(asked, request);
            Ok(of_mapped::<S, Meta, _>(future, original, rule))
        }
        Err(error) => Err(error),
    }
}

/// The rule for the replies to what is asked, by the hint that the request has now.
fn rule_now<Meta>(asked: &Asked, request: &Request<Meta>) -> MandatoryPost
    ensures { let t = request.now.transport in result ≡ mand_rule t (limit (hint_of t)) asked.now }
{
    let transport = request.transport_ctx();
    MandatoryPost::new(asked, transport, transport.hint())
}

/// The response code with which the layer refuses what is asked.
pub(crate) fn mandatory_refusal(strict: bool, asked: &Asked) -> Option<OptRcode>
    ensures { result ≡ mandatory_refusal strict asked.now }
{
    if strict { strict_refusal(asked) } else { None }
}

fn strict_refusal(asked: &Asked) -> Option<OptRcode>
    ensures { result ≡ strict_refusal asked.now }
{
    if asked.opcode == Opcode::IQUERY {
        return Some(OptRcode::NOTIMP);
    }
    if asked.opcode == Opcode::QUERY && asked.qdcount > 1 {
        return Some(OptRcode::FORMERR);
    }
    None
}
