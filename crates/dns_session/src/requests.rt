//! Requests of messages, and messages of replies.

ghost use Rattle.std.specs.Arc.{arc_value};
ghost use Rattle.std.specs.Prelude.{◌≡◌, IfErr, IfOk, OnOk};
ghost use Rattle.dns_base.specs.Wire.{wire};
ghost use Rattle.dns_session.specs.Datagrams.{cut_datagram};
ghost use Rattle.dns_session.specs.Requests.{request_of_datagram, request_of_frame};

use dns_base::{AdditionalBuilder, Message, SocketAddr};
use dns_events::DgramConfig;
use dns_framing::{NonUdpTransportContext, Request, TransportSpecificContext, UdpTransportContext};
use dns_name::{Octets, OutOfMemory};
use std::alloc::Global;
use std::mem::replace;
use std::sync::Arc;

/// How many octets of a datagram are read.
const MOST_READ: usize = 1024;

/// The octets of a datagram that are read.
#[tactic(auto, using(std::proofs::lemmas::List::take_min))]
pub fn cut_datagram(alloc: Global, octets: &[u8]) -> Result<Vec<u8>, OutOfMemory>
    ensures { IfOk result (λ v. v.items ≡ cut_datagram octets.now) }
{
    let read = Vec::from_slice(alloc, &octets[..MOST_READ.min(octets.len())])?;
    Ok(read)
}

/// The octets of an owned datagram that are read. It is cut in place, not copied.
pub fn cut_given(octets: Octets) -> Vec<u8>
    ensures { result.items ≡ cut_datagram octets }
{
    let mut octets = octets.into_vec();
    octets.truncate(MOST_READ);
    octets
}

/// The request of a datagram.
pub fn datagram_request(
    alloc: Global,
    config: &DgramConfig,
    addr: SocketAddr,
    at: u64,
    secs: u64,
    message: Message,
) -> Result<Request<()>, OutOfMemory>
    ensures { IfOk result (λ r. r ≡ request_of_datagram config.now addr at secs message) }
{
    let message = shared_anew(alloc, message)?;
    Ok(shared_request(config, addr, at, secs, message))
}

/// The request of a datagram whose message is shared already.
pub fn shared_request(
    config: &DgramConfig,
    addr: SocketAddr,
    at: u64,
    secs: u64,
    message: Arc<Message>,
) -> Request<()>
    ensures { result ≡ request_of_datagram config.now addr at secs (arc_value message) }
{
    let hint = UdpTransportContext::new(config.max_response_size());
    let transport = TransportSpecificContext::Udp(hint);
    Request::of_shared(addr, at, secs, message, transport, ())
}

/// A message takes the place of one in which nothing else has a share, and the memory of that one is given. Otherwise the message is
/// given back.
fn put_in(shared: &mut Arc<Message>, message: Message) -> Result<Vec<u8>, Message>
    ensures put { OnOk result (arc_value shared.new ≡ message) }
    ensures back { IfErr result (λ m. m ≡ message) }
{
    match Arc::get_mut(shared) {
        Some(place) => Ok(replace(place, message).into_octets()),
        None => Err(message),
    }
}

/// A message that is shared from now on, in the place of the one that is given if nothing else has a share in that. The memory of
/// that one is given too.
#[inline(always)]
pub fn shared_in(
    alloc: Global,
    spare: &mut Option<Arc<Message>>,
    message: Message,
) -> Result<(Arc<Message>, Vec<u8>), OutOfMemory>
    ensures { IfOk result (λ p. arc_value p.0 ≡ message) }
{
    let Some(mut shared) = spare.take() else {
        return Ok((shared_anew(alloc, message)?, Vec::new(alloc)));
    };
    match put_in(&mut shared, message) {
        Ok(memory) => Ok((shared, memory)),
        Err(message) => Ok((shared_anew(alloc, message)?, Vec::new(alloc))),
    }
}

/// A message that is shared from now on, in memory of its own.
#[inline(never)]
fn shared_anew(alloc: Global, message: Message) -> Result<Arc<Message>, OutOfMemory>
    ensures { IfOk result (λ m. arc_value m ≡ message) }
{
    Ok(Arc::new(alloc, message)?)
}

/// The request of a frame of a connection that may be idle for so long, whose message is shared already.
pub fn frame_request(
    idle_timeout: u64,
    addr: SocketAddr,
    at: u64,
    secs: u64,
    message: Arc<Message>,
) -> Request<()>
    ensures { result ≡ request_of_frame idle_timeout addr at secs (arc_value message) }
{
    let context = NonUdpTransportContext::new(Some(idle_timeout));
    let transport = TransportSpecificContext::NonUdp(context);
    Request::of_shared(addr, at, secs, message, transport, ())
}

/// A reply as a datagram, which is not copied.
pub fn datagram_of(reply: AdditionalBuilder) -> Octets
    ensures { result ≡ wire reply.message }
{
    Octets::from_vec(reply.into_message().into_octets())
}
