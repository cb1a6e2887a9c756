//! An exchange: one datagram, and its request until that is done.

ghost use Rattle.std.specs.Prelude.{◌≡◌, ◌≤◌, ℕ, ◌∷◌, [], IfOk, MatchOption, None, length, slice_get, not, is_some};
ghost use Rattle.dns_framing.specs.PolledRequest.{request_answer};
ghost use Rattle.dns_session.specs.Datagrams.{cut_datagram, datagrams_to, refused_datagram};
ghost use Rattle.dns_session.specs.Requests.{unpolled};
ghost use Rattle.dns_session.specs.Rule.{rule};
ghost use Rattle.dns_session.specs.Serving.{Serving, serving};
ghost use Rattle.dns_session.specs.Goings.{BeginsAs, SpentWith, Exchanges};
ghost use Rattle.dns_session.specs.Stands.{IsKeptOfRequest};
ghost use Rattle.dns_session.specs.Turns.{exchange_turn};

use crate::kept::{KeptRequest, call, refused};
use crate::polling::turn_unfinished;
use crate::requests::{cut_given, datagram_of, shared_in, shared_request};
use dns_base::{Message, SocketAddr};
use dns_events::{DgramConfig, Event, EventKind, Output};
use dns_framing::{ReplyFuture, ReplyStream, Request, SharedService, reply_limit};
use dns_name::{Octets, OptRcode, OutOfMemory};
use std::alloc::Global;
use std::sync::Arc;

/// A vector of one output.
pub fn one(alloc: Global, output: Output) -> Result<Vec<Output>, OutOfMemory>
    ensures { IfOk result (λ outs. outs.items ≡ output ∷ []) }
{
    let mut outs = Vec::with_capacity(alloc, 1)?;
    outs.push(output)?;
    Ok(outs)
}

/// What a client is sent, if it is sent a datagram.
pub fn datagrams_to(
    alloc: Global,
    client: u64,
    octets: Option<Octets>,
) -> Result<Vec<Output>, OutOfMemory>
    ensures { IfOk result (λ outs. outs.items ≡ datagrams_to client octets) }
{
    match octets {
        Some(octets) => one(alloc, Output::Datagram { client, octets }),
        None => Ok(Vec::new(alloc)),
    }
}

/// What is kept of an exchange, and the octets that its client is sent at once.
pub type BegunExchange<W> = (
    Option<KeptRequest<<W as SharedService>::Future, <W as SharedService>::Stream>>,
    Option<Octets>,
);

/// Begins an exchange by its datagram, at a moment in ms and seconds. What is longer than 1,024 octets is cut, and nothing is
/// copied. Below 12 octets no request is made, and of a response neither, which is refused at once.
pub fn begin_exchange<W: SharedService>(
    alloc: Global,
    service: &W,
    addr: SocketAddr,
    at: u64,
    secs: u64,
    octets: Octets,
    config: &DgramConfig,
) -> Result<BegunExchange<W>, OutOfMemory>
    requires { W.can_call service.now }
    ensures begun { IfOk result (λ p. BeginsAs (request_answer W.Future.answer W.Stream.answer)
        (serving (W.answer service.now) (W.hint service.now)) addr at secs config.now (cut_datagram octets) p.0 p.1) }
    ensures spent { IfOk result (λ p. SpentWith (request_answer W.Future.answer W.Stream.answer)
        (serving (W.answer service.now) (W.hint service.now)) (not (is_some p.0)) p.0) }
{
    begin_exchange_in(alloc, service, addr, at, secs, octets, config, &mut None)
}

/// Begins an exchange as `begin_exchange` does. Its message takes the place of the one that is given, if nothing else has a
/// share in that; then no memory is taken for it.
pub fn begin_exchange_in<W: SharedService>(
    alloc: Global,
    service: &W,
    addr: SocketAddr,
    at: u64,
    secs: u64,
    octets: Octets,
    config: &DgramConfig,
    spare: &mut Option<Arc<Message>>,
) -> Result<BegunExchange<W>, OutOfMemory>
    requires { W.can_call service.now }
    ensures begun { IfOk result (λ p. BeginsAs (request_answer W.Future.answer W.Stream.answer)
        (serving (W.answer service.now) (W.hint service.now)) addr at secs config.now (cut_datagram octets) p.0 p.1) }
    ensures spent { IfOk result (λ p. SpentWith (request_answer W.Future.answer W.Stream.answer)
        (serving (W.answer service.now) (W.hint service.now)) (not (is_some p.0)) p.0) }
{
    let octets = cut_given(octets);
    begin_cut(alloc, service, addr, at, secs, octets, config, spare)
}

/// Begins the exchange of what was read of a datagram. Octets that are no message begin none, and have no reply.
pub fn begin_cut<W: SharedService>(
    alloc: Global,
    service: &W,
    addr: SocketAddr,
    at: u64,
    secs: u64,
    octets: Vec<u8>,
    config: &DgramConfig,
    spare: &mut Option<Arc<Message>>,
) -> Result<BegunExchange<W>, OutOfMemory>
    requires { W.can_call service.now }
    ensures { IfOk result (λ p. BeginsAs (request_answer W.Future.answer W.Stream.answer)
        (serving (W.answer service.now) (W.hint service.now)) addr at secs config.now octets.items p.0 p.1) }
{
    let Ok(message) = Message::from_octets(octets) else {
        return Ok((None, None));
    };
    begin_message(alloc, service, addr, at, secs, message, config, spare)
}

/// Begins the exchange of a datagram that is a message. A response (QR set) is refused, and a query is asked of the
/// service.
fn begin_message<W: SharedService>(
    alloc: Global,
    service: &W,
    addr: SocketAddr,
    at: u64,
    secs: u64,
    message: Message,
    config: &DgramConfig,
    spare: &mut Option<Arc<Message>>,
) -> Result<BegunExchange<W>, OutOfMemory>
    requires { W.can_call service.now }
    ensures { IfOk result (λ p. 12 ≤ length message
        → BeginsAs (request_answer W.Future.answer W.Stream.answer)
        (serving (W.answer service.now) (W.hint service.now)) addr at secs config.now message p.0 p.1) }
{
    if message.header().qr {
        return refuse::<W>(alloc, &message, config);
    }
    let (shared, memory) = shared_in(alloc, spare, message)?;
    let request = shared_request(config, addr, at, secs, shared);
    ask(alloc, service, request.with_reply_memory(memory))
}

/// Asks the service a datagram's request.
fn ask<W: SharedService>(
    alloc: Global,
    service: &W,
    request: Request<()>,
) -> Result<BegunExchange<W>, OutOfMemory>
    requires { W.can_call service.now }
    ensures { IfOk result (λ p. (p.1 ≡ None)
        × MatchOption p.0 ⊥ (λ q. IsKeptOfRequest (request_answer W.Future.answer W.Stream.answer)
        (serving (W.answer service.now) (W.hint service.now)) q (unpolled request))) }
{
    let kept = call(alloc, service, request)?;
    Ok((Some(kept), None))
}

/// What the sender of a response is sent.
fn refuse<W: SharedService>(
    alloc: Global,
    message: &Message,
    config: &DgramConfig,
) -> Result<BegunExchange<W>, OutOfMemory>
    ensures { IfOk result (λ p. (p.0 ≡ None) × ((client : ℕ) → datagrams_to client p.1 ≡ refused_datagram client config.now message.now)) }
{
    let limit = reply_limit(config.max_response_size());
    let reply = refused(alloc, message, Some(limit), OptRcode::FORMERR)?;
    Ok((None, Some(datagram_of(reply))))
}

/// Polls a request of an exchange once. No request but the first is made.
fn turn<F: ReplyFuture<Stream = R>, R: ReplyStream>(
    alloc: Global,
    client: u64,
    unfinished: &mut Option<KeptRequest<F, R>>,
    request: u64,
) -> Result<Vec<Output>, OutOfMemory>
    ensures { IfOk result (λ outs. (answers : Serving)
        → Exchanges (request_answer F.answer R.answer) answers client unfinished.old unfinished.new outs.items
        (λ s. exchange_turn answers request (slice_get s.requests request) s)) }
{
    if request != 0 {
        return Ok(Vec::new(alloc));
    }
    let octets = turn_unfinished(alloc, unfinished)?;
    datagrams_to(alloc, client, octets)
}

/// An event of an exchange.
pub fn exchange_step<F: ReplyFuture<Stream = R>, R: ReplyStream>(
    alloc: Global,
    client: u64,
    unfinished: &mut Option<KeptRequest<F, R>>,
    event: &Event,
) -> Result<Vec<Output>, OutOfMemory>
    ensures { IfOk result (λ outs. (answers : Serving)
        → Exchanges (request_answer F.answer R.answer) answers client unfinished.old unfinished.new outs.items (rule answers event.now)) }
{
    match &event.kind {
        EventKind::Turn { request } => turn(alloc, client, unfinished, *request),
        _ => Ok(Vec::new(alloc)),
    }
}
