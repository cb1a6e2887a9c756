//! A layer of one's own round a service, and the four layers round both.
//!
//! Each line of standard input is a query that came in a datagram, in hex. The octets of its reply are printed, in
//! hex too. recursion.rt is the layer: its definition, its contract and its code. docs/using.md tells how such a
//! layer is written.
#![tactic(auto)]

mod recursion;

ghost use Rattle.std.specs.Prelude.{◌≡◌, Some, None, Ok};
ghost use Rattle.std.specs.Result.{ForOk};
ghost use Rattle.dns_service.specs.ErrorReply.{error_reply};

use anyhow::{Context, bail};
use dns_base::{Message, OutOfMemory};
use dns_middleware::{NoSecondaries, Settings, wrap};
use dns_name::{IpAddr, OptRcode, SocketAddr};
use dns_service::{
    CallResult, Gives, Polled, ReplyFuture, ReplyStream, Request, Service, ServiceResult,
    TransportSpecificContext, UdpTransportContext, mk_error_response, service_fn,
};
use recursion::RecursionSvc;
use std::alloc::Global;

/// What the service gives: the error reply to the request, with the response code that stands beside it.
struct Missing {}

impl Gives<OptRcode> for Missing {
    ghost item = { λ request rcode. Ok (record { response = Some (error_reply request.octets rcode); feedback = None }) };
}

/// Answers a request with an error reply.
fn say_missing(
    alloc: Global,
    request: &Request<()>,
    rcode: &OptRcode,
) -> Result<ServiceResult, OutOfMemory>
    ensures { ForOk result (λ item. item ≡ Ok (record { response = Some (error_reply request.now.octets rcode.now); feedback = None })) }
{
    let reply = mk_error_response(alloc, request.message(), *rcode)?;
    Ok(Ok(CallResult::new(reply)))
}

fn main(rt: HostRuntime) -> anyhow::Result<()> {
    for line in rt.lines(rt.alloc()) {
        let reply = answered(rt.alloc(), line?.as_str())?;
        println!(rt; "{}", hex::encode(rt.alloc(), reply.as_slice())?)?;
    }
    Ok(())
}

/// The octets of the reply to a query in hex.
fn answered(alloc: Global, line: &str) -> anyhow::Result<Vec<u8>> {
    let Ok(query) = hex::decode(alloc, line) else {
        bail!("the line isn't hexadecimal");
    };
    let service = service_fn::<Missing, _, _>(say_missing, OptRcode::NXDOMAIN);
    reply_in_recursion(alloc, service, query)
}

/// The reply of a service in the layer of our own.
fn reply_in_recursion<S: Service<()>>(
    alloc: Global,
    service: S,
    query: Vec<u8>,
) -> anyhow::Result<Vec<u8>>
    requires { S.can_call service }
{
    reply_in_all(alloc, RecursionSvc::new(service), query)
}

/// The reply of a service in the four layers.
fn reply_in_all<S: Service<()>>(
    alloc: Global,
    service: S,
    query: Vec<u8>,
) -> anyhow::Result<Vec<u8>>
    requires { S.can_call service }
{
    let service = wrap(alloc, &Settings::new(alloc), service, NoSecondaries {})?;
    reply_to(alloc, &service, query)
}

/// The octets of the first reply to a query that came in a datagram.
fn reply_to<S: Service<()>>(alloc: Global, service: &S, query: Vec<u8>) -> anyhow::Result<Vec<u8>>
    requires { S.can_call service.now }
{
    let mut request = received(alloc, query)?;
    first_reply(alloc, service, &mut request)
}

/// The request that a datagram of these octets makes.
fn received(alloc: Global, octets: Vec<u8>) -> anyhow::Result<Request<()>> {
    let sender = SocketAddr {
        ip: IpAddr::V4([192, 0, 2, 1]),
        port: 5353,
    };
    let transport = TransportSpecificContext::Udp(UdpTransportContext::new(Some(1232)));
    let query = Message::from_octets(octets).context("reading the query")?;
    Ok(Request::new(alloc, sender, 0, 0, query, transport, ())?)
}

/// The octets of the first reply to a request, if it comes at once.
fn first_reply<S: Service<()>>(
    alloc: Global,
    service: &S,
    request: &mut Request<()>,
) -> anyhow::Result<Vec<u8>>
    requires { S.can_call service.now }
{
    let mut future = service.call(alloc, request)?;
    match future.poll(alloc)? {
        Polled::Ready(mut stream) => first_given(alloc, &mut stream),
        Polled::Pending => bail!("the service gives no stream at once"),
    }
}

/// The octets of the reply that a stream gives at its first poll.
fn first_given<R: ReplyStream>(alloc: Global, stream: &mut R) -> anyhow::Result<Vec<u8>> {
    match stream.poll_next(alloc)? {
        Polled::Ready(Some(Ok(given))) => given_octets(alloc, &given),
        _ => bail!("the service gives no reply at once"),
    }
}

fn given_octets(alloc: Global, given: &CallResult) -> anyhow::Result<Vec<u8>> {
    match given.response() {
        Some(reply) => Ok(Vec::from_slice(alloc, reply.as_slice())?),
        None => bail!("the service gives feedback alone"),
    }
}
