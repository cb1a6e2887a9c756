//! Rows of a service that is asked often, which `bench/calls` times, of a router, and of other work that is done often.

use crate::inner::{AsPlanned, planned};
use crate::router_often::often_routed;
use crate::stream_rows::{cut_next, watched};
use crate::target::Target;
use crate::words;
use crate::works::worked;
use dns_base::Message;
use dns_middleware::{EdnsMiddlewareSvc, MandatoryMiddlewareSvc, Settings, wrap};
use dns_name::{IpAddr, SocketAddr};
use dns_service::{
    CallResult, OutOfMemory, Polled, ReplyFuture, ReplyStream, Request, Service, ServiceResult,
    TransportSpecificContext, UdpTransportContext, service_fn,
};
use rows_table::{Calls, Row, RowError};
use std::alloc::Global;

/// A query is made a request that came in a datagram, that many times. A service is asked that answers at once with a copy of a
/// reply: the sum of the octets of all replies. Or a router is asked, of which one turn is made for each, or work is done that asks
/// for no service. And a reply is cut, or a stream is watched.
#[derive(Drop)]
pub(crate) struct OftenRows;

impl Calls for OftenRows {
    fn answer(&self, call: &str, row: &mut Row<'_>) -> Result<(), RowError> {
        match call {
            "often" => sum_said(row, Layers::None),
            "often_both" => sum_said(row, Layers::Two),
            "often_wrap" => sum_said(row, Layers::All),
            "often_routed" => often_routed(row),
            "work" => worked(row),
            "cut" => cut_next(row),
            "polls" => watched(row, false),
            "sizes" => watched(row, true),
            _ => return Err(RowError::NoSuchCall),
        }
        Ok(())
    }
}

/// The layers round the service.
#[derive(Drop)]
enum Layers {
    None,
    /// The EDNS layer within the mandatory layer.
    Two,
    /// As they are set at first, but with the cookies of a secret, over a target that is authoritative for nothing.
    All,
}

/// The secret of RFC 9018, appendix A.1.
const SECRET: [u8; 16] = *b"\xe5\xe9\x73\xe5\xa6\xb2\xa4\x3f\x48\xe7\xdc\x84\x9e\x37\xbf\xcf";

/// The number of times, the query and the reply of the next words.
fn sum_said(row: &mut Row<'_>, layers: Layers) {
    let count = row.number();
    let query = row.octets();
    let reply = row.octets();
    row.show(&served(row.alloc(), layers, query, reply, count))
}

/// The sum of all replies. What can't be asked, and what isn't answered, counts as zero.
fn served(alloc: Global, layers: Layers, query: &[u8], reply: &[u8], count: u64) -> u64 {
    match words::reply(alloc, reply) {
        Ok(reply) => {
            let service = service_fn::<AsPlanned, _, _>(planned, Ok(CallResult::new(reply)));
            within(alloc, service, layers, query, count)
        }
        Err(_) => 0,
    }
}

/// The sum of the replies of a service in layers.
fn within<S: Service<()>>(
    alloc: Global,
    service: S,
    layers: Layers,
    query: &[u8],
    count: u64,
) -> u64
    requires { S.can_call service }
{
    match layers {
        Layers::None => replies(alloc, &service, query, count),
        Layers::Two => in_mandatory(alloc, EdnsMiddlewareSvc::new(service), query, count),
        Layers::All => in_all(alloc, service, query, count),
    }
}

fn in_mandatory<S: Service<()>>(alloc: Global, service: S, query: &[u8], count: u64) -> u64
    requires { S.can_call service }
{
    replies(alloc, &MandatoryMiddlewareSvc::new(service), query, count)
}

fn in_all<S: Service<()>>(alloc: Global, service: S, query: &[u8], count: u64) -> u64
    requires { S.can_call service }
{
    match wrap(alloc, &with_cookies(alloc), service, Target::refusing()) {
        Ok(wrapped) => replies(alloc, &wrapped, query, count),
        Err(OutOfMemory) => 0,
    }
}

fn with_cookies(alloc: Global) -> Settings {
    let mut settings = Settings::new(alloc);
    settings.cookies = Some(SECRET);
    settings
}

/// The sum of the replies of a service to a query that is made a request that many times.
fn replies<S: Service<()>>(alloc: Global, service: &S, query: &[u8], count: u64) -> u64
    requires { S.can_call service.now }
{
    let mut sum = 0u64;
    for _i in 0..count {
        sum = sum.wrapping_add(asked_sum(alloc, service, query));
    }
    sum
}

/// The sum of the octets of the reply to a query.
fn asked_sum<S: Service<()>>(alloc: Global, service: &S, query: &[u8]) -> u64
    requires { S.can_call service.now }
{
    match datagram(alloc, query) {
        Some(mut request) => match service.call(alloc, &mut request) {
            Ok(mut future) => future_sum(alloc, &mut future),
            Err(OutOfMemory) => 0,
        },
        None => 0,
    }
}

/// A query that came in a datagram, with the hint 1232.
pub(crate) fn datagram(alloc: Global, octets: &[u8]) -> Option<Request<()>> {
    let ip = IpAddr::V4([192, 0, 2, 1]);
    let transport = TransportSpecificContext::Udp(UdpTransportContext::new(Some(1232)));
    match Vec::from_slice(alloc, octets) {
        Ok(octets) => match Message::from_octets(octets) {
            Ok(query) => Request::new(
                alloc,
                SocketAddr { ip, port: 5353 },
                5,
                100,
                query,
                transport,
                (),
            )
            .ok(),
            Err(_) => None,
        },
        Err(_) => None,
    }
}

/// The sum of the octets of what a future's stream gives at its first two polls: a reply, and then the end.
fn future_sum<F: ReplyFuture>(alloc: Global, future: &mut F) -> u64 {
    match future.poll(alloc) {
        Ok(Polled::Ready(mut stream)) => polled_sum(stream.poll_next(alloc)).wrapping_add(
            polled_sum(stream.poll_next(alloc)),
        ),
        _ => 0,
    }
}

fn polled_sum(polled: Result<Polled<Option<ServiceResult>>, OutOfMemory>) -> u64 {
    reply_sum(&polled)
}

/// The sum of the octets of the reply that a poll gives.
fn reply_sum(polled: &Result<Polled<Option<ServiceResult>>, OutOfMemory>) -> u64 {
    let mut sum = 0u64;
    if let Ok(Polled::Ready(Some(Ok(given)))) = polled {
        if let Some(reply) = given.response() {
            for octet in reply.as_slice() {
                sum = sum.wrapping_add(u64::from(*octet));
            }
        }
    }
    sum
}
