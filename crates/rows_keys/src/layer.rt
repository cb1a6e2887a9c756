//! The calls of dns_signing: a service within the layer that verifies requests and signs replies.

ghost use Rattle.std.specs.Prelude.{◌≡◌};
ghost use Rattle.dns_service.specs.Once.{once};
ghost use Rattle.dns_service.specs.Req.{hint_at_entry};
ghost use Rattle.rows_keys.specs.KeyedReplies.{code_for, reply_by_key};

use crate::signatures::key;
use dns_base::Message;
use dns_name::{IpAddr, OptRcode, OutOfMemory, SocketAddr};
use dns_service::{
    CallResult, Now, Once, Polled, ReplyFuture, ReplyStream, Request, Service, ServiceError,
    ServiceFeedback, ServiceResult, TransportSpecificContext, UdpTransportContext,
    mk_error_response,
};
use dns_signing::TsigMiddlewareSvc;
use dns_tsig::{Key, KeyStore};
use rows_table::{Calls, Row, RowError};
use std::alloc::Global;
use std::sync::Arc;

/// Calls of the layer.
pub struct Signing;

impl Calls for Signing {
    fn answer(&self, call: &str, row: &mut Row<'_>) -> Result<(), RowError> {
        match call {
            "served" => served(row),
            _ => return Err(RowError::NoSuchCall),
        }
        Ok(())
    }
}

/// Replies with NXDOMAIN to a request under a key, and with REFUSED to one without, or fails.
#[derive(Drop)]
struct ReplyByKey {
    fails: bool,
}

impl<K: Drop> Service<Option<K>> for ReplyByKey {
    type Stream = Once;

    type Future = Now<Once>;

    ghost answer = { λ s r. once (reply_by_key s.fails r) };

    ghost hint = { λ s. hint_at_entry };

    fn call(
        &self,
        alloc: Global,
        request: &mut Request<Option<K>>,
    ) -> Result<Now<Once>, OutOfMemory> {
        if self.fails {
            return Ok(Now::new(Once::new(Err(ServiceError::InternalError))));
        }
        let rcode = code_for(request.metadata());
        let reply = mk_error_response(alloc, request.message(), rcode)?;
        Ok(Now::new(Once::new(Ok(CallResult::new(reply)))))
    }
}

/// The response code to a request under a key, or to one without.
fn code_for<K>(key: &Option<K>) -> OptRcode
    ensures { result ≡ code_for key.now }
{
    match key {
        Some(_) => OptRcode::NXDOMAIN,
        None => OptRcode::REFUSED,
    }
}

/// The replies to a datagram: key, least octets of a MAC, fudge, the second, the hint of the largest response, whether the service
/// fails, and the request.
fn served(row: &mut Row<'_>) {
    let key = key(row);
    let least = row.number();
    let fudge = row.number();
    let second = row.number();
    let hint = row.optional();
    let fails = row.word() == "fails";
    let octets = row.vector();
    let alloc = row.alloc();
    let (Some(key), Ok(message)) = (key, Message::from_octets(octets)) else {
        return row.fail(RowError::OutOfForm);
    };
    let Ok(keys) = store(alloc, key) else {
        return row.fail(RowError::OutOfMemory);
    };
    let service = TsigMiddlewareSvc::new(ReplyByKey { fails }, keys, least, fudge);
    let transport = TransportSpecificContext::Udp(UdpTransportContext::new(hint));
    let sender = SocketAddr {
        ip: IpAddr::V4([192, 0, 2, 1]),
        port: 5353,
    };
    match Request::new(alloc, sender, 0, second, message, transport, ()) {
        Ok(mut request) => given_by(row, &service, &mut request),
        Err(_) => row.fail(RowError::OutOfMemory),
    }
}

/// A key alone.
fn store(alloc: Global, key: Key) -> Result<KeyStore, OutOfMemory> {
    let mut keys = Vec::new(alloc);
    keys.push(Arc::new(alloc, key)?)?;
    Ok(KeyStore::new(keys))
}

/// What a service says to a request.
pub fn given_by<S: Service<Meta>, Meta>(row: &mut Row<'_>, service: &S, request: &mut Request<Meta>)
    requires { S.can_call service.now }
{
    let alloc = row.alloc();
    let Ok(mut future) = service.call(alloc, request) else {
        return row.fail(RowError::OutOfMemory);
    };
    match future.poll(alloc) {
        Ok(Polled::Ready(mut stream)) => streamed(row, &mut stream),
        Ok(Polled::Pending) => row.say("pending"),
        Err(_) => row.fail(RowError::OutOfMemory),
    }
}

/// What a stream gives, up to its end or three items.
fn streamed<R: ReplyStream>(row: &mut Row<'_>, stream: &mut R) {
    for _ in 0..3u8 {
        match stream.poll_next(row.alloc()) {
            Ok(Polled::Ready(Some(item))) => item_said(row, &item),
            Ok(Polled::Ready(None)) => return row.say("end"),
            Ok(Polled::Pending) => row.say("pending"),
            Err(_) => return row.fail(RowError::OutOfMemory),
        }
    }
}

/// What an item has.
fn item_said(row: &mut Row<'_>, item: &ServiceResult) {
    match item {
        Ok(given) => {
            if let Some(reply) = given.response() {
                row.hexadecimal(reply.as_slice());
            }
            if let Some(ServiceFeedback::EndTransaction) = given.feedback() {
                row.say("EndTransaction");
            }
        }
        Err(error) => row.debug(error),
    }
}
