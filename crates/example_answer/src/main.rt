//! A service behind the mandatory and the EDNS layer answers one query, and the octets of its reply are printed in
//! hex.
//!
//! The README shows it. The service's contract names what it gives, and the layers' clauses speak of that: the reply
//! of the two layers to its query.
#![tactic(auto)]

ghost use Rattle.std.specs.Prelude.{◌≡◌, Some, None, Ok};
ghost use Rattle.std.specs.Result.{ForOk};
ghost use Rattle.dns_service.specs.ErrorReply.{error_reply};

use anyhow::{Context, bail};
use dns_base::{Message, OutOfMemory};
use dns_middleware::{EdnsMiddlewareSvc, MandatoryMiddlewareSvc};
use dns_name::{IpAddr, OptRcode, SocketAddr};
use dns_service::{
    CallResult, Gives, Polled, ReplyFuture, ReplyStream, Request, Service, ServiceResult,
    TransportSpecificContext, UdpTransportContext, mk_error_response, service_fn,
};
use std::alloc::Global;

/// A query for the root's address, with RD and an OPT record.
const QUERY: &[u8] =
    b"\x12\x34\x01\x00\x00\x01\x00\x00\x00\x00\x00\x01\x00\x00\x01\x00\x01\x00\x00\x29\x04\xd0\x00\x00\x00\x00\x00\x00";

/// What the service gives: the error reply to the request, with the response code that stands beside it.
struct Refusal {}

impl Gives<OptRcode> for Refusal {
    ghost item = { λ request rcode. Ok (record { response = Some (error_reply request.octets rcode); feedback = None }) };
}

/// Answers a request with an error reply. The layers' clauses then speak of exactly this reply.
fn refuse(
    alloc: Global,
    request: &Request<()>,
    rcode: &OptRcode,
) -> Result<ServiceResult, OutOfMemory>
    ensures { ForOk result (λ item. item ≡ Ok (record { response = Some (error_reply request.now.octets rcode.now); feedback = None })) }
{
    let reply = mk_error_response(alloc, request.message(), *rcode)?;
    Ok(Ok(CallResult::new(reply)))
}

fn main(rt: HostRuntime) -> anyhow::Result<()> {
    let service = service_fn::<Refusal, _, _>(refuse, OptRcode::NXDOMAIN);
    let reply = reply_in_edns(rt.alloc(), service)?;
    println!(rt; "{}", hex::encode(rt.alloc(), reply.as_slice())?)?;
    Ok(())
}

/// The reply of a service in the EDNS layer, and that in the mandatory one.
fn reply_in_edns<S: Service<()>>(alloc: Global, service: S) -> anyhow::Result<Vec<u8>>
    requires { S.can_call service }
{
    reply_in_mandatory(alloc, EdnsMiddlewareSvc::new(service))
}

/// The reply of a service in the mandatory layer.
fn reply_in_mandatory<S: Service<()>>(alloc: Global, service: S) -> anyhow::Result<Vec<u8>>
    requires { S.can_call service }
{
    reply_to(alloc, &MandatoryMiddlewareSvc::new(service), QUERY)
}

/// The octets of the first reply to a query that came in a datagram.
fn reply_to<S: Service<()>>(alloc: Global, service: &S, query: &[u8]) -> anyhow::Result<Vec<u8>>
    requires { S.can_call service.now }
{
    let mut request = received(alloc, query)?;
    first_reply(alloc, service, &mut request)
}

/// The request that a datagram of these octets makes.
fn received(alloc: Global, octets: &[u8]) -> anyhow::Result<Request<()>> {
    let sender = SocketAddr {
        ip: IpAddr::V4([192, 0, 2, 1]),
        port: 5353,
    };
    let transport = TransportSpecificContext::Udp(UdpTransportContext::new(Some(1232)));
    let query = Message::from_octets(Vec::from_slice(alloc, octets)?).context("reading the query")?;
    Ok(Request::new(alloc, sender, 0, 0, query, transport, ())?)
}

/// The octets of the first reply to a request, if it comes at once.
fn first_reply<S: Service<()>>(
    alloc: Global,
    service: &S,
    request: &mut Request<()>,
) -> anyhow::Result<Vec<u8>>
    requires { S.can_call service.now }
{
    let mut future = service.call(alloc, request)?;
    match future.poll(alloc)? {
        Polled::Ready(mut stream) => first_given(alloc, &mut stream),
        Polled::Pending => bail!("the service gives no stream at once"),
    }
}

/// The octets of the reply that a stream gives at its first poll.
fn first_given<R: ReplyStream>(alloc: Global, stream: &mut R) -> anyhow::Result<Vec<u8>> {
    match stream.poll_next(alloc)? {
        Polled::Ready(Some(Ok(given))) => given_octets(alloc, &given),
        _ => bail!("the service gives no reply at once"),
    }
}

fn given_octets(alloc: Global, given: &CallResult) -> anyhow::Result<Vec<u8>> {
    match given.response() {
        Some(reply) => Ok(Vec::from_slice(alloc, reply.as_slice())?),
        None => bail!("the service gives feedback alone"),
    }
}
