//! How a query begins.

ghost use Rattle.std.specs.Prelude.{◌≡◌, ℕ, false, IfOk, OnOk};
ghost use Rattle.dns_events.specs.Config.{Dgram};
ghost use Rattle.dns_service.specs.Transport.{hint_of, limit, limit_over};
ghost use Rattle.dns_session.specs.Datagrams.{asks_nothing};
ghost use Rattle.dns_proxy.specs.declared.query_event.ClientMessage.{ClientMessage as TheMessage};
ghost use Rattle.dns_proxy.specs.Coming.{message_of, request_of};
ghost use Rattle.dns_proxy.specs.Fronts.{fronting};
ghost use Rattle.dns_proxy.specs.Queries.{Begins, IsAsked, Takes, front_taken, replied};

use crate::coming::{octets_read, refuse, request_of};
use crate::front::{Front, Taken};
use crate::query::Query;
use crate::query_event::ClientMessage;
use crate::replied::replied;
use dns_base::Message;
use dns_lookup::{UpstreamConfig, begin_lookup};
use dns_service::{DgramConfig, Octets, OutOfMemory, Request, ServiceResult, limit_over};
use std::alloc::Global;

/// What a message begins.
#[derive(Drop)]
pub enum BegunQuery<R> {
    /// Its client is to be sent this, if there is something, and no upstream is asked.
    Sent(Option<Octets>),
    /// The message is shorter than a header. Nothing is sent for it, and a connection over which it came is to be closed.
    Short,
    /// An upstream is to be sent this.
    Asks(Query<R>, Octets),
}

/// What a message is taken for, before it is known which upstream is asked for it.
#[derive(Drop)]
pub enum TakenMessage<R> {
    /// Its client is to be sent this, if there is something, and no upstream is asked.
    Sent(Option<Octets>),
    /// The message is shorter than a header. Nothing is sent for it, and a connection over which it came is to be closed.
    Short,
    /// An upstream is to be asked for it.
    Passed(PassedQuery<R>),
}

/// A client's query for which an upstream is to be asked, whichever it is.
#[derive(Drop)]
pub struct PassedQuery<R> {
    pub(crate) client: u64,
    pub(crate) request: Request<()>,
    pub(crate) limit: Option<u16>,
    pub(crate) rule: R,
    pub(crate) message: Message,
}

/// How many octets a reply to a request may take, if that is limited.
fn limit_of(request: &Request<()>) -> Option<u16>
    ensures { result ≡ limit_over request.now.transport (limit (hint_of request.now.transport)) }
{
    let transport = request.transport_ctx();
    limit_over(transport, transport.hint())
}

/// Begins with a client's message, for which an upstream is asked under an identifier if it makes a request that is passed on.
/// Of a datagram 1,024 octets are read at most. Below 12 octets nothing is sent, and a response is refused at once.
pub fn begin_query<F: Front>(
    alloc: Global,
    front: &mut F,
    config: &DgramConfig,
    came: &ClientMessage,
    upstream: UpstreamConfig,
    id: u16,
) -> Result<BegunQuery<F::Rule>, OutOfMemory>
    ensures begun { let f = fronting (F.over front.old) (F.hint front.old) (F.asks front.old) in
        IfOk result (Begins F.Rule.rewriting f config.now came.now upstream id) }
    ensures front { OnOk result (front.new ≡ front_taken F.after_take config.now came.now front.old) }
{
    let taken = take_message(alloc, front, config, came)?;
    match taken {
        TakenMessage::Sent(octets) => Ok(BegunQuery::Sent(octets)),
        TakenMessage::Short => Ok(BegunQuery::Short),
        TakenMessage::Passed(passed) => ask(alloc, passed, upstream, id),
    }
}

/// Takes a client's message, as `begin_query` begins with it, short of asking an upstream. So nobody needs to know which is asked
/// of a message that is answered at once.
pub(crate) fn take_message<F: Front>(
    alloc: Global,
    front: &mut F,
    config: &DgramConfig,
    came: &ClientMessage,
) -> Result<TakenMessage<F::Rule>, OutOfMemory>
    ensures taken { let f = fronting (F.over front.old) (F.hint front.old) (F.asks front.old) in
        IfOk result (Takes F.Rule.rewriting f config.now came.now) }
    ensures front { OnOk result (front.new ≡ front_taken F.after_take config.now came.now front.old) }
{
    let octets = octets_read(alloc, came)?;
    let Ok(message) = Message::from_octets(octets) else {
        return Ok(TakenMessage::Short);
    };
    if message.header().qr {
        let refusal = refuse(alloc, &message, came.transport, config)?;
        return Ok(TakenMessage::Sent(Some(refusal)));
    }
    let request = request_of(alloc, config, came, message)?;
    take(alloc, front, came.client, request)
}

/// A request is taken.
fn take<F: Front>(
    alloc: Global,
    front: &mut F,
    client: u64,
    request: Request<()>,
) -> Result<TakenMessage<F::Rule>, OutOfMemory>
    ensures taken { let f = fronting (F.over front.old) (F.hint front.old) (F.asks front.old) in
        IfOk result (λ t. (dgram : Dgram) (c : TheMessage) → request ≡ request_of dgram c → client ≡ c.client
        → asks_nothing (message_of c) ≡ false → Takes F.Rule.rewriting f dgram c t) }
    ensures front { OnOk result (front.new ≡ F.after_take front.old request) }
{
    let mut request = request;
    let taken = front.take(alloc, &mut request)?;
    let limit = limit_of(&request);
    match taken {
        Taken::Own(item) => answer(alloc, &request, limit, item),
        Taken::Passed(rule, message) => Ok(TakenMessage::Passed(PassedQuery {
            client,
            request,
            limit,
            rule,
            message,
        })),
    }
}

/// A request is answered at once.
fn answer<R>(
    alloc: Global,
    request: &Request<()>,
    limit: Option<u16>,
    item: ServiceResult,
) -> Result<TakenMessage<R>, OutOfMemory>
    ensures { IfOk result (λ t. t ≡ TakenMessage.Sent (replied limit request.now.octets item)) }
{
    let octets = replied(alloc, request.message(), limit, item)?;
    Ok(TakenMessage::Sent(octets))
}

/// An upstream is asked for a query that was passed on.
fn ask<R: Drop>(
    alloc: Global,
    passed: PassedQuery<R>,
    upstream: UpstreamConfig,
    id: u16,
) -> Result<BegunQuery<R>, OutOfMemory>
    ensures { IfOk result (IsAsked passed upstream id) }
{
    let (query, octets) = ask_passed(alloc, passed, upstream, id)?;
    Ok(BegunQuery::Asks(query, octets))
}

/// The query that stands for one that was passed on once an upstream is asked for it, and the octets that this is sent.
pub(crate) fn ask_passed<R: Drop>(
    alloc: Global,
    passed: PassedQuery<R>,
    upstream: UpstreamConfig,
    id: u16,
) -> Result<(Query<R>, Octets), OutOfMemory>
    ensures { IfOk result (λ b. IsAsked passed upstream id (BegunQuery.Asks b.0 b.1)) }
{
    let PassedQuery {
        client,
        request,
        limit,
        rule,
        message,
    } = passed;
    let at = request.received_at();
    let (lookup, octets) = begin_lookup(alloc, upstream, message, id, at)?;
    let query = Query {
        client,
        request,
        limit,
        rule,
        lookup,
    };
    Ok((query, octets))
}
