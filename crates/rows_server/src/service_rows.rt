//! The service that plays a script, and what a service answers at three polls.

use dns_base::Message;
use dns_core::PolledRequest;
use dns_name::{IpAddr, Rcode, SocketAddr};
use dns_run::{Rule, Rules, ScriptAnswer, ScriptAnswers, ScriptReply};
use dns_service::{
    OutOfMemory, Polled, ReplyStream, Request, Service, ServiceResult, TransportSpecificContext,
    UdpTransportContext,
};
use rows_table::{Row, RowError};
use std::alloc::Global;

/// One rule: pending, and then a reply with NXDOMAIN.
pub(crate) fn rules(alloc: Global) -> Result<Rules, RowError> {
    let answers = [
        ScriptAnswer::Pend,
        ScriptAnswer::Reply(ScriptReply::Rcode(Rcode::NXDOMAIN)),
    ];
    match ScriptAnswers::from_slice(alloc, answers.as_slice()) {
        Ok(answers) => one_rule(
            alloc,
            Rule {
                name: None,
                answers,
            },
        ),
        Err(OutOfMemory) => Err(RowError::OutOfMemory),
    }
}

fn one_rule(alloc: Global, rule: Rule) -> Result<Rules, RowError> {
    let mut rules = Rules::new(alloc);
    match rules.push(rule) {
        Ok(()) => Ok(rules),
        Err(OutOfMemory) => Err(RowError::OutOfMemory),
    }
}

/// A request in a datagram, with these octets.
fn request(alloc: Global, octets: Vec<u8>) -> Result<Request<()>, RowError> {
    let transport = TransportSpecificContext::Udp(UdpTransportContext::new(None));
    let ip = IpAddr::V4([192, 0, 2, 1]);
    let sender = SocketAddr { ip, port: 5353 };
    match Message::from_octets(octets) {
        Ok(message) => {
            Request::new(alloc, sender, 5, 100, message, transport, ()).or(Err(
                RowError::OutOfMemory,
            ))
        }
        Err(_) => Err(RowError::OutOfForm),
    }
}

/// What a service gives to a request at three polls, as a client's core keeps it.
pub(crate) fn three_answers<S: Service<()>>(row: &mut Row<'_>, service: &S, octets: Vec<u8>)
    requires { S.can_call service.now }
{
    match called(row.alloc(), service, octets) {
        Ok(future) => {
            let kept: PolledRequest<S::Future, S::Stream> = PolledRequest::Future(future);
            three_polls(row, kept)
        }
        Err(error) => row.fail(error),
    }
}

/// The future that the service gives to a request.
fn called<S: Service<()>>(
    alloc: Global,
    service: &S,
    octets: Vec<u8>,
) -> Result<S::Future, RowError>
    requires { S.can_call service.now }
{
    match request(alloc, octets) {
        Ok(mut request) => match service.call(alloc, &mut request) {
            Ok(future) => Ok(future),
            Err(OutOfMemory) => Err(RowError::OutOfMemory),
        },
        Err(error) => Err(error),
    }
}

/// What a stream gives at three polls.
fn three_polls<S: ReplyStream>(row: &mut Row<'_>, stream: S) {
    let mut stream = stream;
    for _ in 0..3 {
        poll_said(row, stream.poll_next(row.alloc()));
    }
}

/// `pending`, the reply or the error of an item, or `end`.
fn poll_said(row: &mut Row<'_>, answer: Result<Polled<Option<ServiceResult>>, OutOfMemory>) {
    answer_said(row, &answer)
}

fn answer_said(row: &mut Row<'_>, answer: &Result<Polled<Option<ServiceResult>>, OutOfMemory>) {
    match answer {
        Ok(Polled::Ready(Some(item))) => item_said(row, item),
        Ok(Polled::Ready(None)) => row.say("end"),
        Ok(Polled::Pending) => row.say("pending"),
        Err(_) => row.fail(RowError::OutOfMemory),
    }
}

fn item_said(row: &mut Row<'_>, item: &ServiceResult) {
    match item {
        Ok(given) => match given.response() {
            Some(reply) => row.hexadecimal(reply.as_slice()),
            None => row.say("nothing"),
        },
        Err(error) => row.debug(error),
    }
}
