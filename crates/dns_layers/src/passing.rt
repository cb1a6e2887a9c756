//! A request as it is passed on, with the client's size and room for an OPT record (RFC 6891, section 6.2.5).

ghost use Rattle.std.specs.Prelude.{◌≡◌, OnErr, Some};
ghost use Rattle.dns_service.specs.declared.message.Request.{Request};
ghost use Rattle.dns_service.specs.Transport.{hint_of, hinted};
ghost use Rattle.dns_layers.specs.Calls.{AnswersAs, LeavesHint};
ghost use Rattle.dns_layers.specs.Edns.{negotiated, passed_by, reserved_over, transport_by};

use dns_service::{Request, Service, TransportSpecificContext};
use dns_stream::OutOfMemory;
use std::alloc::Global;

/// Calls the service inside with the request as it is passed on. The service inside can't change the request's hint.
#[tactic(auto, using(crate::proofs::EdnsLaws::passed_transport, crate::proofs::EdnsLaws::put_back))]
pub fn call_passed<S: Service<Meta>, Meta>(
    alloc: Global,
    next: &S,
    size: Option<u16>,
    request: &mut Request<Meta>,
) -> Result<S::Future, OutOfMemory>
    requires { S.can_call next.now }
    ensures answers { AnswersAs S.Future.answer (S.answer next.now (passed_by size request.old)) result }
    ensures kept { LeavesHint (hint_of (transport_by size request.old.transport)) request.old request.new result }
    ensures refused { OnErr result (request.new ≡ request.old) }
{
    let hint = request.transport_ctx().hint();
    let reserved = request.num_reserved_bytes();
    pass_on(size, request);
    match call_inside(alloc, next, request) {
        Ok(future) => Ok(future),
        Err(error) => {
            put_back(request, hint, reserved);
            Err(error)
        }
    }
}

/// What was changed to pass the request on is as it came.
fn put_back<Meta>(request: &mut Request<Meta>, hint: Option<u16>, reserved: u16)
    ensures { request.new ≡ record request.old { transport = hinted hint request.old.transport; reserved = reserved } }
{
    request.transport_ctx_mut().set_hint(hint);
    request.set_reserved_bytes(reserved);
}

/// Calls the service inside, which can't change the request's hint.
#[tactic(auto, using(crate::proofs::EdnsLaws::restored))]
fn call_inside<S: Service<Meta>, Meta>(
    alloc: Global,
    next: &S,
    request: &mut Request<Meta>,
) -> Result<S::Future, OutOfMemory>
    requires { S.can_call next.now }
    ensures answers { AnswersAs S.Future.answer (S.answer next.now request.old) result }
    ensures kept { LeavesHint (hint_of request.old.transport) request.old request.new result }
    ensures refused { OnErr result (request.new ≡ request.old) }
{
    let hint = request.transport_ctx().hint();
    let future = next.call(alloc, request)?;
    request.transport_ctx_mut().set_hint(hint);
    Ok(future)
}

/// The request as it is passed on, by the client's size, if it has an OPT record: its hint is negotiated, and octets
/// for an OPT record are reserved.
pub fn pass_on<Meta>(size: Option<u16>, request: &mut Request<Meta>)
    ensures { request.new ≡ passed_by size request.old }
{
    let Some(size) = size else {
        return;
    };
    let reserved = reserved_over(request.transport_ctx());
    let hint = negotiated(request.transport_ctx().hint(), size);
    request.transport_ctx_mut().set_hint(Some(hint));
    request.reserve_bytes(reserved);
}

/// The hint of a request that is passed on by the client's size.
pub fn hint_passed(size: Option<u16>, transport: &TransportSpecificContext) -> Option<u16>
    ensures { result ≡ hint_of (transport_by size transport.now) }
{
    let hint = transport.hint();
    let Some(size) = size else {
        return hint;
    };
    match transport {
        TransportSpecificContext::Udp(_) => Some(negotiated(hint, size)),
        TransportSpecificContext::NonUdp(_) => None,
    }
}

/// The largest response over UDP in octets, by the server's hint and the client's size (RFC 6891, section 6.2.5).
fn negotiated(hint: Option<u16>, size: u16) -> u16
    ensures { result ≡ negotiated hint size }
{
    let client = size.max(512);
    match hint {
        None => client,
        Some(hint) => client.min(hint.max(512)),
    }
}

/// How many octets an OPT record takes, and with a keepalive.
fn reserved_over(transport: &TransportSpecificContext) -> u16
    ensures { result ≡ reserved_over transport.now }
{
    match transport {
        TransportSpecificContext::Udp(_) => 11,
        TransportSpecificContext::NonUdp(_) => 17,
    }
}
