//! Rows of routers, of single services over transports, and of services over those.

ghost use Rattle.std.specs.Prelude.{◌≡◌, Err, IfOk, nat_lt, if◌then◌else◌};
ghost use Rattle.dns_service.specs.declared.service.Polled.TheVariants.{Pending, Ready};

use crate::cache_rows::cache;
use crate::forward_rows::{asked_all, asking, forwarder, forwarding};
use crate::request_rows::request;
use crate::route_rows::composed_said;
use crate::said::{Shown, called};
use crate::words::service_error;
use dns_base::Message;
use dns_forward::Forwarding;
use dns_name::Name;
use dns_route::{
    BoxClientTransportToSingleService, ClientTransportToSingleService, QnameRouter, RequestMessage,
    SendError, SendRequest, SingleService, SingleServiceToService, Turned,
};
use dns_service::{OutOfMemory, Polled, Request, ServiceError};
use rows_table::{Calls, Row, RowError};
use std::alloc::Global;
use std::hash::RandomState;
use std::sync::Arc;

/// Routers, what these stand on, askings, forwarders and caches, of which some hash from a seed.
#[derive(Drop)]
pub(crate) struct RouterRows {
    pub(crate) seed: RandomState,
}

impl Calls for RouterRows {
    fn answer(&self, call: &str, row: &mut Row<'_>) -> Result<(), RowError> {
        match call {
            "router" => router(row),
            "send_error" => match send_error(row.word()) {
                Some(error) => row.show(&error),
                None => row.fail(RowError::OutOfForm),
            },
            "transport" => transport(row, false),
            "boxed_transport" => transport(row, true),
            "to_service" => to_service(row),
            "asking" => asking(row),
            "ask_all" => asked_all(row),
            "forwarder" => forwarder(row),
            "forwarding" => forwarding(row, Forwarding::new(row.alloc())),
            "seeded_forwarding" => {
                forwarding(row, Forwarding::new_with_seed(row.alloc(), self.seed))
            }
            "cache" => cache(row, None),
            "seeded_cache" => cache(row, Some(self.seed)),
            _ => return Err(RowError::NoSuchCall),
        }
        Ok(())
    }
}

/// Gives the same error to any request.
#[derive(Drop)]
pub(crate) struct Refusing {
    pub(crate) error: ServiceError,
}

impl SingleService for Refusing {
    ghost answer = { λ s _ _. Ready (Err s.error) };

    fn turn(&self, _alloc: Global, _request: &Request<()>, _k: u64) -> Result<Turned, OutOfMemory> {
        Ok(Polled::Ready(Err(self.error)))
    }
}

/// A transport that is pending some times, and then has an answer.
#[derive(Drop)]
pub(crate) struct Planned {
    waits: u64,
    answer: Result<Message, SendError>,
}

impl SendRequest for Planned {
    ghost answer = { λ t _ k. if nat_lt k t.waits then Pending else Ready t.answer };

    fn poll_response(
        &self,
        alloc: Global,
        _request: &RequestMessage,
        k: u64,
    ) -> Result<Polled<Result<Message, SendError>>, OutOfMemory> {
        if k < self.waits {
            return Ok(Polled::Pending);
        }
        match &self.answer {
            Ok(message) => Ok(Polled::Ready(Ok(copy(alloc, message)?))),
            Err(error) => Ok(Polled::Ready(Err(*error))),
        }
    }
}

/// A copy of a message.
pub(crate) fn copy(alloc: Global, message: &Message) -> Result<Message, OutOfMemory>
    ensures { IfOk result (λ m. m ≡ message.now) }
{
    let octets = Vec::from_slice(alloc, message.as_slice())?;
    Ok(Message::of(octets))
}

/// What a router says at turn 0: the next word has its names, each with the error that its service gives, `-` for none.
fn router(row: &mut Row<'_>) {
    let mut router = QnameRouter::new(row.alloc());
    for route in row.word().split(',') {
        if let Some((name, error)) = route.split_once(':') {
            add(row, &mut router, name, error);
        }
    }
    asked_at(row, &router, 0)
}

/// Adds a name whose service gives an error.
fn add(row: &mut Row<'_>, router: &mut QnameRouter<Refusing>, name: &str, error: &str) {
    let octets = row.octets_of(name);
    match service_error(error) {
        Some(error) => match Name::from_octets(row.copied(octets)) {
            Ok(name) => row.keep(router.add(row.alloc(), name, Refusing { error })),
            Err(_) => row.fail(RowError::OutOfForm),
        },
        None => row.fail(RowError::OutOfForm),
    }
}

/// What a single service says at a turn of the request of the next words.
pub(crate) fn asked_at<S: SingleService>(row: &mut Row<'_>, service: &S, k: u64) {
    match request(row) {
        Ok(request) => answer_said(row, service.turn(row.alloc(), &request, k)),
        Err(fault) => row.fail(fault),
    }
}

/// What was answered at a turn: a reply or an error, or that it is pending.
pub(crate) fn answer_said(row: &mut Row<'_>, answer: Result<Turned, OutOfMemory>) {
    match answer {
        Ok(Polled::Ready(Ok(reply))) => composed_said(row, &reply),
        Ok(Polled::Ready(Err(error))) => row.debug(&error),
        Ok(Polled::Pending) => row.say("pending"),
        Err(_) => row.fail(RowError::OutOfMemory),
    }
}

/// The error of a transport by its name.
fn send_error(name: &str) -> Option<SendError> {
    match name {
        "Closed" => Some(SendError::Closed),
        "Timeout" => Some(SendError::Timeout),
        "Unreachable" => Some(SendError::Unreachable),
        _ => None,
    }
}

/// A transport: how often it is pending, and its error or the octets of its message.
pub(crate) fn next_transport(row: &mut Row<'_>) -> Result<Planned, RowError> {
    let waits = row.number();
    let answer = row.word();
    match send_error(answer) {
        Some(error) => Ok(Planned {
            waits,
            answer: Err(error),
        }),
        None => {
            let octets = row.octets_of(answer);
            match Message::from_octets(row.copied(octets)) {
                Ok(message) => Ok(Planned {
                    waits,
                    answer: Ok(message),
                }),
                Err(_) => Err(RowError::OutOfForm),
            }
        }
    }
}

/// What a single service over a transport, or over it in a box, says at a turn.
fn transport(row: &mut Row<'_>, in_box: bool) {
    let k = row.number();
    match next_transport(row) {
        Ok(conn) if in_box => match Box::new(row.alloc(), conn) {
            Ok(conn) => asked_at(row, &BoxClientTransportToSingleService::new(conn), k),
            Err(_) => row.fail(RowError::OutOfMemory),
        },
        Ok(conn) => asked_at(row, &ClientTransportToSingleService::new(conn), k),
        Err(fault) => row.fail(fault),
    }
}

/// What a service over such a single service says at four polls at most, up to the end.
fn to_service(row: &mut Row<'_>) {
    match next_transport(row) {
        Ok(conn) => asked_over(row, ClientTransportToSingleService::new(conn)),
        Err(fault) => row.fail(fault),
    }
}

/// What a service over this single service says to the request of the next words.
fn asked_over<S: SingleService>(row: &mut Row<'_>, single: S) {
    match request(row) {
        Ok(mut request) => over_single(row, single, &mut request),
        Err(fault) => row.fail(fault),
    }
}

/// What a service over this single service says to this request, at the polls that are shown.
fn over_single<S: SingleService>(row: &mut Row<'_>, single: S, request: &mut Request<()>) {
    match Arc::new(row.alloc(), single) {
        Ok(single) => called(
            row,
            SingleServiceToService::new(single),
            request,
            Shown::Polls(2),
        ),
        Err(_) => row.fail(RowError::OutOfMemory),
    }
}
