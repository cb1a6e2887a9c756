//! What is kept of a request that isn't done.

ghost use Rattle.std.specs.Prelude.{◌≡◌, ℕ, IfOk, Some, option_map};
ghost use Rattle.std.specs.Arc.{arc_value};
ghost use Rattle.dns_base.specs.Wire.{wire};
ghost use Rattle.dns_framing.specs.Cut.{sized};
ghost use Rattle.dns_framing.specs.ErrorReply.{error_reply};
ghost use Rattle.dns_framing.specs.Given.{message_in};
ghost use Rattle.dns_framing.specs.PolledRequest.{request_answer};
ghost use Rattle.dns_framing.specs.Transport.{hint_of, limit, limit_over};
ghost use Rattle.dns_framing.specs.Polled.TheVariants.{Ready};
ghost use Rattle.dns_session.specs.IsPolled.{IsPolled};
ghost use Rattle.dns_session.specs.Serving.{Serving};
ghost use Rattle.dns_session.specs.Goings.{SpentWith, TurnsAs, unless_done};
ghost use Rattle.dns_session.specs.Turns.{ends, reply_to};

use crate::requests::datagram_of;
use dns_base::{AdditionalBuilder, Message};
use dns_framing::{
    Polled, PolledRequest, ReplyFuture, ReplyStream, Request, ServiceResult, SharedService, fit,
    limit_over, mk_error_response,
};
use dns_name::{Octets, OptRcode, OutOfMemory};
use std::alloc::Global;
use std::sync::Arc;

/// A request that isn't done: its polled state, its message, and how many octets a reply may take, if that is limited.
#[derive(Drop)]
pub struct KeptRequest<F, R> {
    polled: PolledRequest<F, R>,
    message: Arc<Message>,
    limit: Option<u16>,
}

/// Asks a service a request.
#[inline(always)]
pub fn call<W: SharedService>(
    alloc: Global,
    service: &W,
    request: Request<()>,
) -> Result<KeptRequest<W::Future, W::Stream>, OutOfMemory>
    requires { W.can_call service.now }
    ensures answers { IfOk result (λ q. (k : ℕ)
        → request_answer W.Future.answer W.Stream.answer q.polled k ≡ W.answer service.now request k) }
    ensures message { IfOk result (λ q. arc_value q.message ≡ request.octets) }
    ensures limit { IfOk result (λ q. q.limit ≡ limit_over request.transport (limit (W.hint service.now request))) }
{
    let mut request = request;
    let future = service.call(alloc, &mut request)?;
    Ok(kept_of(future, request))
}

/// The stream of a future, if it is there without a poll, and else the future.
#[inline(always)]
fn stream_or_future<F, R>(future: F) -> PolledRequest<F, R>
where
    F: ReplyFuture<Stream = R>,
    R: ReplyStream,
    ensures { (k : ℕ) → request_answer F.answer R.answer result k ≡ F.answer future k }
{
    match future.into_stream() {
        Ok(stream) => PolledRequest::Stream(stream),
        Err(future) => PolledRequest::Future(future),
    }
}

/// What is kept of a request that was called.
#[inline(always)]
fn kept_of<F, R>(future: F, request: Request<()>) -> KeptRequest<F, R>
where
    F: ReplyFuture<Stream = R>,
    R: ReplyStream,
    ensures answers { (k : ℕ) → request_answer F.answer R.answer result.polled k ≡ F.answer future k }
    ensures message { arc_value result.message ≡ request.octets }
    ensures limit { result.limit ≡ limit_over request.transport (limit (hint_of request.transport)) }
{
    let transport = request.transport_ctx();
    let limit = limit_over(transport, transport.hint());
    KeptRequest {
        polled: stream_or_future(future),
        message: request.into_message(),
        limit,
    }
}

impl<F, R> KeptRequest<F, R> {
    /// The message, of a request that is polled no more.
    pub fn into_message(self) -> Arc<Message>
    where
        F: Drop,
        R: Drop,
        ensures { result ≡ self.message }
    {
        self.message
    }

    /// The polled state and the message.
    pub fn into_parts(self) -> (PolledRequest<F, R>, Arc<Message>)
        ensures polled { result.0 ≡ self.polled }
        ensures message { result.1 ≡ self.message }
    {
        let KeptRequest {
            polled,
            message,
            ..
        } = self;
        (polled, message)
    }
}

impl<F, R> KeptRequest<F, R>
where
    F: ReplyFuture<Stream = R>,
    R: ReplyStream,
{
    /// Takes the next answer: the reply that is sent for it, if there is one, and whether the request is done.
    pub fn poll(&mut self, alloc: Global) -> Result<(Option<AdditionalBuilder>, bool), OutOfMemory>
        ensures { IfOk result (λ p. IsPolled (request_answer F.answer R.answer) self.old (message_in p.0) p.1 self.new) }
    {
        match self.polled.poll_next(alloc)? {
            Polled::Pending => Ok((None, false)),
            Polled::Ready(None) => Ok((None, true)),
            Polled::Ready(Some(item)) => answered(alloc, &self.message, self.limit, item),
        }
    }

    /// A Turn of the one request of an exchange: the octets that its client is sent, if there are some, and whether the request
    /// is done.
    pub fn turn(&mut self, alloc: Global) -> Result<(Option<Octets>, bool), OutOfMemory>
        ensures follows { IfOk result (λ p. (answers : Serving)
            → TurnsAs (request_answer F.answer R.answer) answers (Some self.old) (unless_done p.1 self.new) p.0) }
        ensures spent { IfOk result (λ p. (answers : Serving)
            → SpentWith (request_answer F.answer R.answer) answers p.1 (unless_done p.1 self.new)) }
    {
        let (reply, done) = self.poll(alloc)?;
        Ok((datagram_in(reply), done))
    }
}

/// A reply as a datagram, if there is one.
fn datagram_in(reply: Option<AdditionalBuilder>) -> Option<Octets>
    ensures { result ≡ option_map wire (message_in reply) }
{
    match reply {
        Some(reply) => Some(datagram_of(reply)),
        None => None,
    }
}

/// The reply that is sent for an item, if there is one, and whether its request is done.
#[inline(always)]
pub fn answered(
    alloc: Global,
    message: &Message,
    limit: Option<u16>,
    item: ServiceResult,
) -> Result<(Option<AdditionalBuilder>, bool), OutOfMemory>
    ensures reply { IfOk result (λ p. message_in p.0 ≡ reply_to limit message.now (Ready (Some item))) }
    ensures done { IfOk result (λ p. p.1 ≡ ends (Ready (Some item))) }
{
    match item {
        Ok(given) => Ok((given.into_inner().0, false)),
        Err(error) => {
            let rcode = OptRcode::from(error.rcode());
            let reply = refused(alloc, message, limit, rcode)?;
            Ok((Some(reply), true))
        }
    }
}

/// The error reply to a message, of that many octets at most if that is limited.
pub fn refused(
    alloc: Global,
    message: &Message,
    limit: Option<u16>,
    rcode: OptRcode,
) -> Result<AdditionalBuilder, OutOfMemory>
    ensures { IfOk result (λ b. b.message ≡ sized limit (error_reply message.now rcode)) }
{
    let mut reply = mk_error_response(alloc, message, rcode)?;
    fit(alloc, limit, &mut reply)?;
    Ok(reply)
}
