//! What is to be done about a message, by the layers alone.

ghost use Rattle.std.specs.Prelude.{◌≡◌, IfOk, Some, false, option_map};
ghost use Rattle.dns_service.specs.Given.{message_in};
ghost use Rattle.dns_layers.specs.Notify.{ask_answer};
ghost use Rattle.dns_middleware.specs.WrappedStreams.{wrap_by};
ghost use Rattle.dns_session.specs.Datagrams.{asks_nothing};
ghost use Rattle.dns_embed.specs.Embedded.{IsDecided, IsTakenAs, at_once, first_reply, replied, request_of};

use crate::rule::ReplyRule;
use crate::verdict::KnownVerdict;
use dns_base::{AdditionalBuilder, Message, OutOfMemory, SocketAddr};
use dns_decide::{Decision, decide};
use dns_layers::{AskStream, Rewrite};
use dns_middleware::WrapPost;
use dns_service::{CallResult, Polled, ReplyStream, Request, Settings, TransportSpecificContext};
use std::alloc::Global;

/// Where a message came from, when in ms and in seconds, and over what.
#[derive(Drop)]
pub struct Arrival {
    /// The sender.
    pub addr: SocketAddr,
    /// The moment, in ms of the caller's clock.
    pub at: u64,
    /// The time, in seconds since 1970.
    pub secs: u64,
    /// A datagram, or a stream.
    pub transport: TransportSpecificContext,
}

/// What is to be done about a message.
#[derive(Drop)]
pub enum Action {
    /// Nothing is sent.
    Nothing,
    /// This reply is sent.
    Reply(AdditionalBuilder),
    /// A service is asked, and what it replies is rewritten by this rule.
    Ask(ReplyRule),
}

/// What is to be done about the octets of a message, which are not kept. A response asks nothing, nor do fewer octets than
/// a header has.
pub fn decide_message(
    alloc: Global,
    settings: &Settings,
    verdict: KnownVerdict,
    arrival: Arrival,
    octets: &[u8],
) -> Result<Action, OutOfMemory>
    ensures { IfOk result (IsDecided settings.now verdict.verdict (request_of arrival octets.now)) }
{
    let octets = Vec::from_slice(alloc, octets)?;
    let Ok(message) = Message::from_octets(octets) else {
        return Ok(Action::Nothing);
    };
    if message.header().qr {
        return Ok(Action::Nothing);
    }
    decide_query(alloc, settings, verdict, arrival, message)
}

/// What is to be done about a query.
pub(crate) fn decide_query(
    alloc: Global,
    settings: &Settings,
    verdict: KnownVerdict,
    arrival: Arrival,
    message: Message,
) -> Result<Action, OutOfMemory>
    requires { asks_nothing message ≡ false }
    ensures { IfOk result (IsDecided settings.now verdict.verdict (request_of arrival message)) }
{
    let Arrival {
        addr,
        at,
        secs,
        transport,
    } = arrival;
    let mut request = Request::new(alloc, addr, at, secs, message, transport, ())?;
    match decide(alloc, settings, &verdict, &mut request) {
        Ok(decision) => taken(alloc, settings.edns, &request, decision),
        Err(error) => Err(error),
    }
}

/// What is done as the layers decided, about a request that they left so.
fn taken(
    alloc: Global,
    speaks_edns: bool,
    request: &Request<()>,
    decision: Decision<KnownVerdict>,
) -> Result<Action, OutOfMemory>
    ensures { IfOk result (IsTakenAs speaks_edns request.now decision) }
{
    match decision {
        Decision::Own(reply) => Ok(Action::Reply(reply)),
        Decision::Passed(_) => Ok(Action::Ask(ReplyRule::of(speaks_edns, request))),
        Decision::Asking(stream, rule) => verdict_reply(alloc, stream, rule),
    }
}

/// The reply by a verdict, which is there at once.
fn verdict_reply(
    alloc: Global,
    stream: AskStream<KnownVerdict>,
    rule: WrapPost,
) -> Result<Action, OutOfMemory>
    ensures { IfOk result (λ d. replied d ≡ Some (option_map (wrap_by rule) (first_reply (ask_answer at_once stream 0)))) }
{
    let mut stream = stream;
    match stream.poll_next(alloc) {
        Ok(Polled::Ready(Some(Ok(given)))) => rewritten(alloc, given, rule),
        Ok(_) => Ok(Action::Nothing),
        Err(error) => Err(error),
    }
}

/// The reply in what was given, rewritten.
fn rewritten(alloc: Global, given: CallResult, rule: WrapPost) -> Result<Action, OutOfMemory>
    ensures { IfOk result (λ d. replied d ≡ Some (option_map (wrap_by rule) given.response)) }
{
    let (response, _) = given.into_inner();
    let Some(mut reply) = response else {
        return Ok(Action::Nothing);
    };
    rule.rewrite(alloc, &mut reply)?;
    Ok(Action::Reply(reply))
}
