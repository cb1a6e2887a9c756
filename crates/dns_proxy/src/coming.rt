//! What is read of a client's message, and the request that it makes.

ghost use Rattle.std.specs.Prelude.{◌≡◌, IfOk};
ghost use Rattle.dns_proxy.specs.Coming.{message_of, refusal_limit, refused_by, request_by, transport_by};

use crate::query_event::{ClientMessage, ClientTransport};
use dns_base::Message;
use dns_name::OptRcode;
use dns_service::{
    DgramConfig, NonUdpTransportContext, Octets, OutOfMemory, Request, TransportSpecificContext,
    UdpTransportContext, reply_limit,
};
use dns_session::{cut_given, datagram_of, refused};
use std::alloc::Global;

/// The octets of a message that are read.
pub(crate) fn octets_read(alloc: Global, came: &ClientMessage) -> Result<Vec<u8>, OutOfMemory>
    ensures { IfOk result (λ v. v.items ≡ message_of came.now) }
{
    let octets = Octets::from_slice(alloc, came.octets.as_slice())?;
    match came.transport {
        ClientTransport::Datagram => Ok(cut_given(octets)),
        ClientTransport::Connection { .. } => Ok(octets.into_vec()),
    }
}

/// The transport of the request of a message that came like this.
fn transport_by(transport: ClientTransport, config: &DgramConfig) -> TransportSpecificContext
    ensures { result ≡ transport_by transport config.now }
{
    match transport {
        ClientTransport::Datagram => {
            TransportSpecificContext::Udp(UdpTransportContext::new(config.max_response_size()))
        }
        ClientTransport::Connection { idle_timeout } => {
            TransportSpecificContext::NonUdp(NonUdpTransportContext::new(Some(idle_timeout)))
        }
    }
}

/// The request of a client's message, of which this was read.
pub(crate) fn request_of(
    alloc: Global,
    config: &DgramConfig,
    came: &ClientMessage,
    message: Message,
) -> Result<Request<()>, OutOfMemory>
    ensures { let c = came.now in
        IfOk result (λ r. r ≡ request_by c.transport config.now c.addr c.at c.secs message) }
{
    let transport = transport_by(came.transport, config);
    let (addr, at, secs) = (came.addr, came.at, came.secs);
    let request = Request::new(alloc, addr, at, secs, message, transport, ())?;
    Ok(request)
}

/// How many octets the reply to a response may take, if that is limited.
fn refusal_limit(transport: ClientTransport, config: &DgramConfig) -> Option<u16>
    ensures { result ≡ refusal_limit transport config.now }
{
    match transport {
        ClientTransport::Datagram => Some(reply_limit(config.max_response_size())),
        ClientTransport::Connection { .. } => None,
    }
}

/// What the sender of a response is sent.
pub(crate) fn refuse(
    alloc: Global,
    message: &Message,
    transport: ClientTransport,
    config: &DgramConfig,
) -> Result<Octets, OutOfMemory>
    ensures { IfOk result (λ o. o ≡ refused_by transport config.now message.now) }
{
    let limit = refusal_limit(transport, config);
    let reply = refused(alloc, message, limit, OptRcode::FORMERR)?;
    Ok(datagram_of(reply))
}
