//! What a server over datagrams does about a datagram.

ghost use Rattle.std.specs.Prelude.{◌≡◌, IfOk};
ghost use Rattle.dns_replies.specs.Cut.{cut};
ghost use Rattle.dns_replies.specs.ErrorReply.{error_reply};
ghost use Rattle.dns_service.specs.Transport.{limit};
ghost use Rattle.dns_session.specs.Datagrams.{cut_datagram};
ghost use Rattle.dns_embed.specs.Embedded.{IsExchanged};

use crate::action::{Action, Arrival, decide_query};
use crate::verdict::KnownVerdict;
use dns_base::{AdditionalBuilder, Message, OutOfMemory, SocketAddr};
use dns_name::OptRcode;
use dns_service::{
    DgramConfig, Settings, TransportSpecificContext, UdpTransportContext, reply_limit,
};
use dns_session::refused;
use std::alloc::Global;

/// How many octets of a datagram are read.
const MOST_READ: usize = 1024;

/// What is to be done about a datagram from an address, at a moment in ms and seconds. What is longer than 1,024 octets is
/// cut. A response is answered with FORMERR.
pub fn decide_datagram(
    alloc: Global,
    settings: &Settings,
    verdict: KnownVerdict,
    addr: SocketAddr,
    at: u64,
    secs: u64,
    octets: &[u8],
) -> Result<Action, OutOfMemory>
    ensures { IfOk result (IsExchanged settings.now verdict.verdict addr at secs (cut_datagram octets.now)) }
{
    let octets = read_of(alloc, octets)?;
    let Ok(message) = Message::from_octets(octets) else {
        return Ok(Action::Nothing);
    };
    if message.header().qr {
        let reply = response_refused(alloc, &settings.dgram, &message)?;
        return Ok(Action::Reply(reply));
    }
    let context = UdpTransportContext::new(settings.dgram.max_response_size());
    let transport = TransportSpecificContext::Udp(context);
    let arrival = Arrival {
        addr,
        at,
        secs,
        transport,
    };
    decide_query(alloc, settings, verdict, arrival, message)
}

/// The octets of a datagram that are read.
#[tactic(auto, using(std::proofs::lemmas::List::take_min))]
fn read_of(alloc: Global, octets: &[u8]) -> Result<Vec<u8>, OutOfMemory>
    ensures { IfOk result (λ v. v.items ≡ cut_datagram octets.now) }
{
    let read = Vec::from_slice(alloc, &octets[..MOST_READ.min(octets.len())])?;
    Ok(read)
}

/// What the sender of a response is sent: FORMERR, of no more octets than the configuration allows.
fn response_refused(
    alloc: Global,
    config: &DgramConfig,
    message: &Message,
) -> Result<AdditionalBuilder, OutOfMemory>
    ensures { IfOk result (λ b. b.message ≡ cut (limit config.now.max_response_size) (error_reply message.now 1)) }
{
    let limit = reply_limit(config.max_response_size());
    refused(alloc, message, Some(limit), OptRcode::FORMERR)
}
