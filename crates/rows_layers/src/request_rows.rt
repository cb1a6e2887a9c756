//! Rows of requests.

use crate::route_rows::request_message;
use crate::service_rows::{of_arc, served};
use crate::words::message;
use dns_name::{IpAddr, SocketAddr};
use dns_service::{NonUdpTransportContext, Request, TransportSpecificContext, UdpTransportContext};
use rows_table::{Calls, Row, RowError};

/// Calls whose first words are a request: a transport and a message. They are asked last, since the request is read before
/// its call is looked for.
#[derive(Drop)]
pub(crate) struct RequestRows;

impl Calls for RequestRows {
    fn answer(&self, call: &str, row: &mut Row<'_>) -> Result<(), RowError> {
        match request(row) {
            Ok(mut request) => asked(call, row, &mut request),
            Err(fault) => Err(fault),
        }
    }
}

/// What a call says of a request (its address, port, moment, second, message and reserved octets; how many octets are
/// reserved in the end; the hint that is set), or of what a service or a transport gives to it.
fn asked(call: &str, row: &mut Row<'_>, request: &mut Request<()>) -> Result<(), RowError> {
    match call {
        "request" => {
            let sender = request.client_addr();
            row.show(&sender.ip);
            row.show(&sender.port);
            row.show(&request.received_at());
            row.show(&request.received_secs());
            row.hexadecimal(request.message().as_slice());
            row.show(&request.num_reserved_bytes())
        }
        "try_clone" => copied(row, request),
        "reserve_bytes" => {
            request.reserve_bytes(row.number());
            request.reserve_bytes(row.number());
            row.show(&request.num_reserved_bytes())
        }
        "set_max_response_size_hint" => {
            if let TransportSpecificContext::Udp(udp) = request.transport_ctx_mut() {
                udp.set_max_response_size_hint(row.optional());
            }
            hint_said(row, request.transport_ctx())
        }
        "served" => served(row, request),
        "arc" => of_arc(row, request),
        "request_message" => request_message(row, request),
        _ => return Err(RowError::NoSuchCall),
    }
    Ok(())
}

/// A request from 192.0.2.1 at second 100: its transport, `udp` with a hint in octets or `stream` with an idle timeout in
/// ms, and its message.
pub(crate) fn request(row: &mut Row<'_>) -> Result<Request<()>, RowError> {
    request_from(row, IpAddr::V4([192, 0, 2, 1]), 100)
}

/// A request from port 5353 of `ip`, at moment 5 and this second. The next words give its transport and its message.
pub(crate) fn request_from(
    row: &mut Row<'_>,
    ip: IpAddr,
    second: u64,
) -> Result<Request<()>, RowError> {
    let transport = match row.word() {
        "udp" => TransportSpecificContext::Udp(UdpTransportContext::new(row.optional())),
        word => {
            if word != "stream" {
                row.fail(RowError::OutOfForm);
            }
            TransportSpecificContext::NonUdp(NonUdpTransportContext::new(row.optional()))
        }
    };
    let sender = SocketAddr { ip, port: 5353 };
    match message(row) {
        Ok(message) => Request::new(row.alloc(), sender, 5, second, message, transport, ()).or(Err(
            RowError::OutOfMemory,
        )),
        Err(fault) => Err(fault),
    }
}

/// Octets are reserved, and the copy gets other metadata: these, the copy's octets and how many it has reserved.
fn copied(row: &mut Row<'_>, request: &mut Request<()>) {
    request.reserve_bytes(row.number());
    match request.try_clone(row.alloc(), row.number::<u8>()) {
        Ok(copy) => {
            row.show(copy.metadata());
            row.hexadecimal(copy.message().as_slice());
            row.show(&copy.num_reserved_bytes())
        }
        Err(_) => row.fail(RowError::OutOfMemory),
    }
}

/// The next words' request with other metadata: these.
pub(crate) fn other_metadata(row: &mut Row<'_>) -> Result<(), RowError> {
    let request = request(row)?;
    let metadata = row.number::<u8>();
    row.show(request.with_new_metadata(metadata).metadata());
    Ok(())
}

/// The hint of a transport, or `none`.
pub(crate) fn hint_said(row: &mut Row<'_>, transport: &TransportSpecificContext) {
    let hint = match transport {
        TransportSpecificContext::Udp(udp) => udp.max_response_size_hint(),
        TransportSpecificContext::NonUdp(_) => None,
    };
    match hint {
        Some(hint) => row.show(&hint),
        None => row.say("none"),
    }
}
