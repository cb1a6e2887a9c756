//! Queries to a service over a stream, and the sum of the octets of its replies.

use dns_base::Message;
use dns_name::{IpAddr, SocketAddr};
use dns_service::{
    NonUdpTransportContext, Polled, ReplyFuture, ReplyStream, Request, Service, ServiceResult,
    TransportSpecificContext,
};
use std::alloc::Global;

/// The most replies that are taken of a stream.
const MOST_REPLIES: u64 = 1_000_000;

/// How many octets the replies to a query over a stream have.
pub(crate) fn size<S: Service<()>>(alloc: Global, service: &S, octets: &[u8]) -> Option<u64>
    requires { S.can_call service.now }
{
    match request(alloc, octets) {
        Some(mut request) => called(alloc, service, &mut request),
        None => None,
    }
}

/// A query as a request over a stream.
fn request(alloc: Global, octets: &[u8]) -> Option<Request<()>> {
    let sender = SocketAddr {
        ip: IpAddr::V4([192, 0, 2, 1]),
        port: 5353,
    };
    let transport = TransportSpecificContext::NonUdp(NonUdpTransportContext::new(None));
    match Vec::from_slice(alloc, octets) {
        Ok(octets) => match Message::from_octets(octets) {
            Ok(message) => Request::new(alloc, sender, 5, 100, message, transport, ()).ok(),
            Err(_) => None,
        },
        Err(_) => None,
    }
}

/// How many octets the replies to a request have.
fn called<S: Service<()>>(alloc: Global, service: &S, request: &mut Request<()>) -> Option<u64>
    requires { S.can_call service.now }
{
    match service.call(alloc, request) {
        Ok(mut future) => match future.poll(alloc) {
            Ok(Polled::Ready(mut stream)) => replies_size(alloc, &mut stream),
            _ => None,
        },
        Err(_) => None,
    }
}

/// How many octets the replies of a stream have, up to its end.
fn replies_size<T: ReplyStream>(alloc: Global, stream: &mut T) -> Option<u64> {
    let mut sum = 0u64;
    for _i in 0..MOST_REPLIES {
        match stream.poll_next(alloc) {
            Ok(Polled::Ready(Some(item))) => sum = sum.wrapping_add(item_size(&item)),
            Ok(Polled::Ready(None)) => return Some(sum),
            _ => return None,
        }
    }
    None
}

/// How many octets the reply of an item has.
fn item_size(item: &ServiceResult) -> u64 {
    match item {
        Ok(given) => match given.response() {
            Some(reply) => reply.as_slice().len() as u64,
            None => 0,
        },
        Err(_) => 0,
    }
}
