//! The EDNS layer (RFC 6891): what it refuses, and what it tells the service inside of a response's size.

ghost use Rattle.std.specs.Prelude.{◌≡◌, OnErr, None, true};
ghost use Rattle.dns_service.specs.declared.message.Request.{Request};
ghost use Rattle.dns_service.specs.Asked.{asked_of};
ghost use Rattle.dns_service.specs.ErrorReply.{error_reply};
ghost use Rattle.dns_service.specs.Req.{hint_at_entry};
ghost use Rattle.dns_service.specs.Transport.{hint_of};
ghost use Rattle.dns_stream.specs.Streams.{each_mapped};
ghost use Rattle.dns_layers.specs.Calls.{AnswersAs, LeavesHint};
ghost use Rattle.dns_layers.specs.Edns.{edns, edns_by, edns_hint, edns_passed, edns_post, opt_refusal, passed_by, record_refusal, transport_by};
ghost use Rattle.dns_layers.specs.Rewritten.{own_reply, rewritten};

use crate::edns_post::EdnsPost;
use crate::layered::{Layered, of_inner, of_mapped, of_own, refuse};
use crate::passing::call_passed;
use crate::refusal::read_request;
use dns_name::OptRcode;
use dns_service::{Asked, AskedOpt, AskedRecord, ReplyFuture, Request, Service};
use dns_stream::{Now, OutOfMemory};
use std::alloc::Global;

/// A service that speaks EDNS. A disabled layer passes each request and each reply as they are.
#[derive(Drop)]
pub struct EdnsMiddlewareSvc<S> {
    next: S,
    enabled: bool,
}

impl<S> EdnsMiddlewareSvc<S> {
    /// Round a service, and enabled.
    pub fn new(next: S) -> Self
        ensures { result ≡ record { next = next; enabled = true } }
    {
        EdnsMiddlewareSvc {
            next,
            enabled: true,
        }
    }

    /// Enables or disables the layer. The service stays.
    pub fn enable(self, enabled: bool) -> Self
        ensures { result ≡ record self { enabled = enabled } }
    {
        EdnsMiddlewareSvc {
            next: self.next,
            enabled,
        }
    }
}

impl<S, Meta> Service<Meta> for EdnsMiddlewareSvc<S>
where
    S: Service<Meta>,
{
    type Stream = Layered<S, Meta, EdnsPost>;

    type Future = Now<Layered<S, Meta, EdnsPost>>;

    ghost answer = { λ s. edns s.enabled (S.answer s.next) };

    ghost hint = { λ s. edns_hint s.enabled };

    ghost can_call = { λ s. S.can_call s.next };

    fn call(
        &self,
        alloc: Global,
        request: &mut Request<Meta>,
    ) -> Result<Now<Layered<S, Meta, EdnsPost>>, OutOfMemory> {
        if self.enabled {
            spoken(alloc, &self.next, request)
        } else {
            pass_whole(alloc, &self.next, request)
        }
    }
}

/// The replies of an enabled layer: its own if it refuses the request, else the inner ones.
fn spoken<S: Service<Meta>, Meta>(
    alloc: Global,
    next: &S,
    request: &mut Request<Meta>,
) -> Result<Now<Layered<S, Meta, EdnsPost>>, OutOfMemory>
    requires { S.can_call next.now }
    ensures answers { AnswersAs ⟦<Now<Layered<S, Meta, EdnsPost>> as ReplyFuture>⟧.answer
        (edns true (S.answer next.now) request.old) result }
    ensures kept { LeavesHint (edns_hint true request.old) request.old request.new result }
    ensures refused { OnErr result (request.new ≡ request.old) }
{
    let asked = read_request(request);
    match opt_refusal(request.transport_ctx().is_non_udp(), &asked.opt) {
        Some(rcode) => refused::<S, Meta>(alloc, &asked, request, rcode),
        None => pass(alloc, next, &asked, request),
    }
}

/// The reply to a request that is refused. This was read of the request.
fn refused<S: Service<Meta>, Meta>(
    alloc: Global,
    asked: &Asked,
    request: &Request<Meta>,
    rcode: OptRcode,
) -> Result<Now<Layered<S, Meta, EdnsPost>>, OutOfMemory>
    requires { asked.now ≡ asked_of request.now.octets }
    ensures { let r = request.now in AnswersAs ⟦<Now<Layered<S, Meta, EdnsPost>> as ReplyFuture>⟧.answer
        (own_reply (edns_post r (error_reply r.octets rcode))) result }
{
    let rule = EdnsPost::new(asked, request.transport_ctx());
    let reply = refuse(&rule, alloc, request.message(), rcode)?;
    Ok(of_own::<S, Meta, _>(reply))
}

/// The inner replies to the request as it came.
fn pass_whole<S: Service<Meta>, Meta>(
    alloc: Global,
    next: &S,
    request: &mut Request<Meta>,
) -> Result<Now<Layered<S, Meta, EdnsPost>>, OutOfMemory>
    requires { S.can_call next.now }
    ensures answers { AnswersAs ⟦<Now<Layered<S, Meta, EdnsPost>> as ReplyFuture>⟧.answer
        (S.answer next.now request.old) result }
    ensures kept { LeavesHint (hint_of request.old.transport) request.old request.new result }
    ensures refused { OnErr result (request.new ≡ request.old) }
{
    let future = call_passed(alloc, next, None, request)?;
    Ok(of_inner::<S, Meta, _, _>(future))
}

/// The inner replies to the request as it is passed on, rewritten. This was read of the request.
fn pass<S: Service<Meta>, Meta>(
    alloc: Global,
    next: &S,
    asked: &Asked,
    request: &mut Request<Meta>,
) -> Result<Now<Layered<S, Meta, EdnsPost>>, OutOfMemory>
    requires can_call { S.can_call next.now }
    requires asked { asked.now ≡ asked_of request.old.octets }
    ensures answers { let r = request.old in AnswersAs ⟦<Now<Layered<S, Meta, EdnsPost>> as ReplyFuture>⟧.answer
        (each_mapped (rewritten (edns_post r)) (S.answer next.now (edns_passed r))) result }
    ensures kept { LeavesHint (hint_at_entry (edns_passed request.old)) request.old request.new result }
    ensures refused { OnErr result (request.new ≡ request.old) }
{
    let rule = EdnsPost::new(asked, request.transport_ctx());
    let original = request.try_clone(alloc, ())?;
    call_mapped(
        alloc,
        next,
        asked.opt.client_size(),
        original,
        rule,
        request,
    )
}

/// The inner replies to the request as it is passed on by the client's size, rewritten by the rule for the request as it came.
fn call_mapped<S: Service<Meta>, Meta>(
    alloc: Global,
    next: &S,
    size: Option<u16>,
    original: Request<()>,
    rule: EdnsPost,
    request: &mut Request<Meta>,
) -> Result<Now<Layered<S, Meta, EdnsPost>>, OutOfMemory>
    requires { S.can_call next.now }
    ensures answers { AnswersAs ⟦<Now<Layered<S, Meta, EdnsPost>> as ReplyFuture>⟧.answer
        (each_mapped (rewritten (edns_by rule)) (S.answer next.now (passed_by size request.old))) result }
    ensures kept { LeavesHint (hint_of (transport_by size request.old.transport)) request.old request.new result }
    ensures refused { OnErr result (request.new ≡ request.old) }
{
    let future = call_passed(alloc, next, size, request)?;
    Ok(of_mapped::<S, Meta, _>(future, original, rule))
}

/// The response code with which what is asked is refused.
pub(crate) fn opt_refusal(stream: bool, opt: &AskedOpt) -> Option<OptRcode>
    ensures { result ≡ opt_refusal stream opt.now }
{
    match opt {
        AskedOpt::NoItem => None,
        AskedOpt::One(record) => record_refusal(stream, record),
        AskedOpt::Faulty(_) => Some(OptRcode::FORMERR),
    }
}

/// BADVERS for another version than 0, and FORMERR for a keepalive with a timeout over a stream.
fn record_refusal(stream: bool, opt: &AskedRecord) -> Option<OptRcode>
    ensures { result ≡ record_refusal stream opt.now }
{
    if opt.version > 0 {
        return Some(OptRcode::BADVERS);
    }
    if stream && opt.sends_timeout {
        return Some(OptRcode::FORMERR);
    }
    None
}
