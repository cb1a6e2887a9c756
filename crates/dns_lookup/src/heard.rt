//! What an asking hears of an event.

ghost use Rattle.std.specs.Prelude.{◌≡◌, IfOk, OnErr};
ghost use Rattle.dns_layers.specs.Cookies.{same_address};
ghost use Rattle.dns_lookup.specs.Lookups.{HearsWhere, heard_datagram, heard_frame, same_socket};

use crate::lookup_event::LookupEvent;
use dns_forward::{Asking, AskingOutcome};
use dns_name::{IpAddr, OutOfMemory, SocketAddr};
use std::alloc::Global;

/// Whether two addresses are the same.
fn same_address(one: &IpAddr, other: &IpAddr) -> bool
    ensures { result ≡ same_address one.now other.now }
{
    match (one, other) {
        (IpAddr::V4(a), IpAddr::V4(b)) => a.as_slice() == b.as_slice(),
        (IpAddr::V6(a), IpAddr::V6(b)) => a.as_slice() == b.as_slice(),
        (IpAddr::V4(_), IpAddr::V6(_)) => false,
        (IpAddr::V6(_), IpAddr::V4(_)) => false,
    }
}

/// Whether two addresses and their ports are the same.
fn same_socket(one: &SocketAddr, other: &SocketAddr) -> bool
    ensures { result ≡ same_socket one.now other.now }
{
    same_address(&one.ip, &other.ip) && one.port == other.port
}

/// An asking in datagrams hears an event: a datagram of the upstream, or the time.
pub(crate) fn hear_datagram(
    alloc: Global,
    asking: &mut Asking,
    upstream: &SocketAddr,
    event: &LookupEvent,
) -> Result<Option<AskingOutcome>, OutOfMemory>
    ensures { IfOk result (HearsWhere (heard_datagram upstream.now event.now) asking.old asking.new) }
{
    match event {
        LookupEvent::Datagram { from, at, octets } => {
            if same_socket(from, upstream) {
                let answer = asking.arrived(alloc, *at, octets.as_slice())?;
                return Ok(Some(AskingOutcome::OfArrival(answer)));
            }
            Ok(None)
        }
        LookupEvent::Tick { at } => Ok(Some(AskingOutcome::OfTick(asking.tick(*at)))),
        LookupEvent::Frame { .. } => Ok(None),
        LookupEvent::Lost => Ok(None),
    }
}

/// An asking over a connection hears an event: a message that came over it, or the time.
pub(crate) fn hear_frame(
    alloc: Global,
    asking: &mut Asking,
    event: &LookupEvent,
) -> Result<Option<AskingOutcome>, OutOfMemory>
    ensures { IfOk result (HearsWhere (heard_frame event.now) asking.old asking.new) }
{
    match event {
        LookupEvent::Frame { at, octets } => {
            let answer = asking.arrived(alloc, *at, octets.as_slice())?;
            Ok(Some(AskingOutcome::OfArrival(answer)))
        }
        LookupEvent::Tick { at } => Ok(Some(AskingOutcome::OfTick(asking.tick(*at)))),
        LookupEvent::Datagram { .. } => Ok(None),
        LookupEvent::Lost => Ok(None),
    }
}
