//! Rows of authorities.

use crate::zones::next_records;
use dns_authority::{Authority, AuthorityStream, Network};
use dns_base::Message;
use dns_name::{IpAddr, Name, SocketAddr};
use dns_service::{
    CallResult, NonUdpTransportContext, Polled, ReplyFuture, ReplyStream, Request, Service,
    ServiceResult, TransportSpecificContext, UdpTransportContext,
};
use dns_zone_tree::ZoneTree;
use rows_table::{Calls, Row, RowError};

/// What an authority answers.
pub(crate) struct Authorities;

impl Calls for Authorities {
    fn answer(&self, call: &str, row: &mut Row<'_>) -> Result<(), RowError> {
        match call {
            "authority" => asked(row),
            _ => return Err(RowError::NoSuchCall),
        }
        Ok(())
    }
}

/// What is answered to the request at the end. The authority may be transferred to the network of the next words, an address and
/// the length of its prefix. Its zones follow: their number, and an apex and records for each.
fn asked(row: &mut Row<'_>) {
    let mut authority = Authority::new(row.alloc(), allowed(row));
    let zones: u8 = row.number();
    for _ in 0..zones {
        add_zone(row, &mut authority);
    }
    match request(row) {
        Ok(mut request) => called(row, &authority, &mut request),
        Err(fault) => row.fail(fault),
    }
}

/// The network of the next words, alone.
fn allowed(row: &mut Row<'_>) -> Vec<Network> {
    let mut networks = Vec::new(row.alloc());
    let address = row.address();
    let bits = row.number();
    row.keep(networks.push(Network { address, bits }));
    networks
}

/// Adds the zone of the next words, an apex and records, or says why it is refused.
fn add_zone(row: &mut Row<'_>, authority: &mut Authority) {
    match Name::from_octets(row.vector()) {
        Ok(apex) => {
            let records = next_records(row);
            match ZoneTree::new(row.alloc(), apex, records) {
                Ok(zone) => added(row, authority, zone),
                Err(error) => row.debug(&error),
            }
        }
        Err(_) => row.fail(RowError::OutOfForm),
    }
}

/// Adds a zone.
fn added(row: &mut Row<'_>, authority: &mut Authority, zone: ZoneTree) {
    let done = authority.add(row.alloc(), zone);
    row.keep(done);
}

/// A request from 192.0.2.1: its transport, `udp` or `stream`, and its message.
fn request(row: &mut Row<'_>) -> Result<Request<()>, RowError> {
    let transport = match row.word() {
        "udp" => TransportSpecificContext::Udp(UdpTransportContext::new(None)),
        word => {
            if word != "stream" {
                row.fail(RowError::OutOfForm);
            }
            TransportSpecificContext::NonUdp(NonUdpTransportContext::new(None))
        }
    };
    let sender = SocketAddr {
        ip: IpAddr::V4([192, 0, 2, 1]),
        port: 5353,
    };
    match Message::from_octets(row.vector()) {
        Ok(message) => Request::new(row.alloc(), sender, 5, 100, message, transport, ()).or(Err(
            RowError::OutOfMemory,
        )),
        Err(_) => Err(RowError::OutOfForm),
    }
}

/// What an authority gives to a request.
fn called(row: &mut Row<'_>, authority: &Authority, request: &mut Request<()>) {
    match authority.call(row.alloc(), request) {
        Ok(mut future) => match future.poll(row.alloc()) {
            Ok(Polled::Ready(mut stream)) => stream_said(row, &mut stream),
            _ => row.fail(RowError::OutOfForm),
        },
        Err(_) => row.fail(RowError::OutOfMemory),
    }
}

/// What a stream gives, up to its end and at most ten times.
fn stream_said(row: &mut Row<'_>, stream: &mut AuthorityStream) {
    for _ in 0..10 {
        if !next_said(row, stream) {
            return;
        }
    }
}

/// What a stream gives next, and whether more may come.
fn next_said(row: &mut Row<'_>, stream: &mut AuthorityStream) -> bool {
    match stream.poll_next(row.alloc()) {
        Ok(Polled::Ready(Some(item))) => {
            item_said(row, &item);
            return true;
        }
        Ok(Polled::Ready(None)) => row.say("end"),
        Ok(Polled::Pending) => row.say("pending"),
        Err(_) => row.fail(RowError::OutOfMemory),
    }
    false
}

/// The feedback and the octets of the reply of an item, or its error.
fn item_said(row: &mut Row<'_>, item: &ServiceResult) {
    match item {
        Ok(given) => given_said(row, given),
        Err(error) => row.debug(error),
    }
}

/// The feedback and the octets of the reply that are given.
fn given_said(row: &mut Row<'_>, given: &CallResult) {
    if let Some(feedback) = given.feedback() {
        row.debug(&feedback);
    }
    if let Some(reply) = given.response() {
        row.hexadecimal(reply.as_slice());
    }
}
