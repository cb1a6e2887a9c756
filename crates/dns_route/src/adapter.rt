//! Single services over transports.

ghost use Rattle.std.specs.Prelude.{◌≡◌, IfOk};
ghost use Rattle.dns_route.specs.ReplyMessage.{reply_read};
ghost use Rattle.dns_route.specs.Relays.{read_reply, readable_request, relay_answer, relayed};
ghost use Rattle.dns_route.specs.RequestMessage.{request_of};

use crate::own_reply::explained;
use crate::reply::{ReplyMessage, owned_reply};
use crate::request::{Error, RequestMessage};
use crate::send_request::{SendError, SendRequest};
use crate::single_service::{SingleService, Turned};
use dns_base::{Message, ParseError};
use dns_service::{OutOfMemory, Polled, Request, ServiceError};
use std::alloc::Global;

/// What a transport answers.
type Answered = Polled<Result<Message, SendError>>;

/// A single service over a transport. A request that can't be read is InternalError and isn't sent; a message that is
/// answered begins the reply, or is FormatError if an option of its OPT record is unreadable; an error of the transport
/// is SERVFAIL, with an extended error of its text.
#[derive(Drop)]
pub struct ClientTransportToSingleService<C> {
    conn: C,
}

impl<C: SendRequest> ClientTransportToSingleService<C> {
    /// A single service that relays each request over this transport.
    pub fn new(conn: C) -> Self
        ensures { ⟦<ClientTransportToSingleService<C> as SingleService>⟧.answer result ≡ relayed (C.answer conn) }
    {
        ClientTransportToSingleService { conn }
    }

    /// What the transport answers.
    fn answered(&self, alloc: Global, sent: RequestMessage, k: u64) -> Result<Answered, OutOfMemory>
        ensures { IfOk result (λ p. p ≡ C.answer self.now.conn sent k) }
    {
        self.conn.poll_response(alloc, &sent, k)
    }
}

impl<C: SendRequest> SingleService for ClientTransportToSingleService<C> {
    ghost answer = { λ s. relayed (C.answer s.conn) };

    fn turn(&self, alloc: Global, request: &Request<()>, k: u64) -> Result<Turned, OutOfMemory> {
        match readable(alloc, request) {
            Ok(Some(sent)) => {
                relay_answer(alloc, request.message(), self.answered(alloc, sent, k)?)
            }
            Ok(None) => Ok(Polled::Ready(Err(ServiceError::InternalError))),
            Err(error) => Err(error),
        }
    }
}

/// A client transport in a box as a single service. Transports of several kinds become single services of one type by
/// it.
#[derive(Drop)]
pub struct BoxClientTransportToSingleService {
    conn: Box<dyn SendRequest + Send + Sync>,
}

impl BoxClientTransportToSingleService {
    /// Over a transport that its owner put into a box.
    pub fn new(conn: Box<dyn SendRequest + Send + Sync>) -> Self
        ensures { ⟦<BoxClientTransportToSingleService as SingleService>⟧.answer result
            ≡ relayed ((SendRequest-box conn).answer conn.value) }
    {
        BoxClientTransportToSingleService { conn }
    }

    /// What the transport answers.
    fn answered(&self, alloc: Global, sent: RequestMessage, k: u64) -> Result<Answered, OutOfMemory>
        ensures { IfOk result (λ p. p ≡ (SendRequest-box self.now.conn).answer self.now.conn.value sent k) }
    {
        self.conn.poll_response(alloc, &sent, k)
    }
}

impl SingleService for BoxClientTransportToSingleService {
    ghost answer = { λ s. relayed ((SendRequest-box s.conn).answer s.conn.value) };

    fn turn(&self, alloc: Global, request: &Request<()>, k: u64) -> Result<Turned, OutOfMemory> {
        match readable(alloc, request) {
            Ok(Some(sent)) => {
                relay_answer(alloc, request.message(), self.answered(alloc, sent, k)?)
            }
            Ok(None) => Ok(Polled::Ready(Err(ServiceError::InternalError))),
            Err(error) => Err(error),
        }
    }
}

/// The request as it is sent on, if it can be read.
fn readable(alloc: Global, request: &Request<()>) -> Result<Option<RequestMessage>, OutOfMemory>
    ensures { IfOk result (λ m. m ≡ readable_request (request_of request.now.octets)) }
{
    match RequestMessage::try_from(alloc, request) {
        Ok(sent) => Ok(Some(sent)),
        Err(Error::Unreadable(_)) => Ok(None),
        Err(Error::OutOfMemory) => Err(OutOfMemory),
    }
}

/// What a turn answers if a transport gave this answer to the query: the reply that the message begins, FormatError if an
/// option of its OPT record is unreadable, or SERVFAIL with the text of the error.
pub fn relay_answer(alloc: Global, query: &Message, answer: Answered) -> Result<Turned, OutOfMemory>
    ensures { IfOk result (λ p. p ≡ relay_answer query.now answer) }
{
    match answer {
        Polled::Pending => Ok(Polled::Pending),
        Polled::Ready(Ok(message)) => Ok(Polled::Ready(begun(alloc, message)?)),
        Polled::Ready(Err(error)) => {
            let reply = explained(alloc, query, error.text())?;
            Ok(Polled::Ready(Ok(reply)))
        }
    }
}

/// The reply that a message begins, or why it doesn't.
fn begun(alloc: Global, message: Message) -> Result<Result<ReplyMessage, ServiceError>, OutOfMemory>
    ensures { IfOk result (λ r. r ≡ read_reply (reply_read message)) }
{
    match owned_reply(alloc, message) {
        Ok(reply) => Ok(Ok(reply)),
        Err(ParseError::OutOfMemory) => Err(OutOfMemory),
        Err(_) => Ok(Err(ServiceError::FormatError)),
    }
}
