//! The events that a flood is made of.

ghost use Rattle.std.specs.Prelude.{◌≡◌, ◌/◌, ◌%◌, IfOk};
ghost use Rattle.dns_flood.specs.Flood.{drawn, flood_event, flood_kind, flood_query, flood_sender, next_number};

use dns_name::{IpAddr, Octets, OutOfMemory, SocketAddr};
use dns_service::{Event, EventKind};
use std::alloc::Global;

/// The number that follows a number of the generator.
pub fn next_number(number: u64) -> u64
    ensures { result ≡ next_number number }
{
    let next = number as u128 * 6_364_136_223_846_793_005 + 1_442_695_040_888_963_407;
    (next % 18_446_744_073_709_551_616) as u64
}

/// Where the connections and the datagrams of a flood come from.
const SENDER: SocketAddr = SocketAddr {
    ip: IpAddr::V4([192, 0, 2, 1]),
    port: 53,
};

/// The query of a flood, after its length.
const FRAME: [u8; 19] = [0, 17, 18, 52, 1, 0, 0, 1, 0, 0, 0, 0, 0, 0, 0, 0, 1, 0, 1];

/// A piece of a connection's stream.
fn piece(alloc: Global, octets: &[u8]) -> Result<EventKind, OutOfMemory>
    ensures { IfOk result (λ k. k ≡ EventKind.Piece octets.now) }
{
    let octets = Octets::from_slice(alloc, octets)?;
    Ok(EventKind::Piece(octets))
}

/// The query in a datagram.
fn datagram(alloc: Global) -> Result<EventKind, OutOfMemory>
    ensures { IfOk result (λ k. k ≡ EventKind.Datagram flood_sender flood_query) }
{
    let octets = Octets::from_slice(alloc, &FRAME[2..])?;
    Ok(EventKind::Datagram {
        addr: SENDER,
        octets,
    })
}

/// What happens, by what is drawn.
#[tactic(auto, unfolding(crate::specs::Flood::flood_kind))]
fn kind(alloc: Global, drawn: u64) -> Result<EventKind, OutOfMemory>
    ensures { IfOk result (λ k. k ≡ flood_kind drawn) }
{
    let digit = drawn / 16 % 16;
    if digit < 2 {
        return Ok(EventKind::Offer { addr: SENDER });
    }
    if digit < 5 {
        return piece(alloc, FRAME.as_slice());
    }
    if digit < 6 {
        return piece(alloc, &FRAME[..1]);
    }
    if digit < 11 {
        return Ok(EventKind::Turn {
            request: drawn / 256 % 4,
        });
    }
    if digit < 13 {
        return Ok(EventKind::Write { took: 0 });
    }
    if digit < 14 {
        return Ok(EventKind::Tick);
    }
    if digit < 15 {
        return Ok(EventKind::Release);
    }
    datagram(alloc)
}

/// The event of a flood that has this place, counted from 1, and the generator's number of the same place.
pub fn event_at(alloc: Global, place: u64, number: u64) -> Result<Event, OutOfMemory>
    ensures { IfOk result (λ e. e ≡ flood_event place (drawn number)) }
{
    let drawn = number / 4_294_967_296;
    let kind = kind(alloc, drawn)?;
    Ok(Event {
        at: place,
        secs: place,
        client: 16 * (place / 512) + drawn % 16,
        kind,
    })
}

/// The event of this place, by the number that follows, which is the generator's from now on.
pub fn next_event(alloc: Global, number: &mut u64, place: u64) -> Result<Event, OutOfMemory>
    ensures number { number.new ≡ next_number number.old }
    ensures event { IfOk result (λ e. e ≡ flood_event place (drawn number.new)) }
{
    *number = next_number(*number);
    event_at(alloc, place, *number)
}
