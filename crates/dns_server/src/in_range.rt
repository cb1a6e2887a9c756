//! Settings and events are in the range of what a trace says, since their types are.

ghost use Rattle.std.specs.Prelude.{◌≡◌, ℕ, ◌<◌, ◌^◌, true, IfSome};
ghost use Rattle.std.specs.List.{All};
ghost use Rattle.hex.specs.Hex.{IsBytes};
ghost use Rattle.dns_model.specs.Own.{is_wide};
ghost use Rattle.dns_service.specs.Config.{IsDgram, IsStream};
ghost use Rattle.dns_server.specs.Recorded.{is_said};
ghost use Rattle.dns_trace.specs.InRange.{IsAddress, IsEvent, IsKind, IsOctets, IsSettings, IsSocketAddr};

use dns_name::{IpAddr, SocketAddr};
use dns_service::{DgramConfig, Event, EventKind, StreamConfig};
use dns_trace::TraceSettings;

fn octets(octets: &[u8])
    ensures { IsBytes octets.now }
{}

fn four(four: &[u8; 4])
    ensures { IsOctets 4 four.now }
{
    octets(four.as_slice())
}

fn sixteen(sixteen: &[u8; 16])
    ensures { IsOctets 16 sixteen.now }
{
    octets(sixteen.as_slice())
}

fn port(port: u16)
    ensures { port < 2 ^ 16 }
{}

fn number(number: u64)
    ensures { number < 2 ^ 64 }
{}

fn address(address: &IpAddr)
    ensures { IsAddress address.now }
{
    match address {
        IpAddr::V4(octets) => four(octets),
        IpAddr::V6(octets) => sixteen(octets),
    }
}

fn socket_addr(addr: &SocketAddr)
    ensures { IsSocketAddr addr.now }
{
    port(addr.port);
    address(&addr.ip)
}

fn configs(dgram: &DgramConfig, stream: &StreamConfig)
    ensures dgram { IsDgram dgram.now }
    ensures stream { IsStream stream.now }
{
    let _size = dgram.write_timeout();
    let _most = stream.max_concurrent_connections();
}

fn kind(kind: &EventKind)
    ensures { (client : ℕ) → (is_wide kind.now ≡ true → client ≡ 0) → IsKind kind.now client }
{
    match kind {
        EventKind::Datagram {
            addr,
            octets: datagram,
        } => {
            socket_addr(addr);
            octets(datagram.as_slice());
        }
        EventKind::Turn { request } => number(*request),
        EventKind::Offer { addr } => socket_addr(addr),
        EventKind::Piece(piece) => octets(piece.as_slice()),
        EventKind::End | EventKind::Fault | EventKind::Close => {}
        EventKind::Write { took } => number(*took),
        EventKind::Tick | EventKind::Release | EventKind::Shutdown => {}
        EventKind::Reconfigure { dgram, stream } => configs(dgram, stream),
    }
}

/// An event is in range, if its line says all of it.
#[tactic(auto, using(crate::proofs::Noted::names_none))]
pub(crate) fn event(event: &Event)
    ensures { is_said event.now ≡ true → IsEvent event.now }
{
    number(event.at);
    number(event.secs);
    number(event.client);
    kind(&event.kind)
}

fn secret(secret: &Option<[u8; 16]>)
    ensures { IfSome secret.now (IsOctets 16) }
{
    if let Some(octets) = secret {
        sixteen(octets);
    }
}

fn addresses(addresses: &[IpAddr])
    ensures { All IsAddress addresses.now }
{
    for denied in addresses {
        address(denied);
    }
}

/// Settings are in range.
pub(crate) fn settings(settings: &TraceSettings)
    ensures { IsSettings settings.now }
{
    secret(&settings.cookies);
    addresses(settings.denied.as_slice());
    configs(&settings.dgram, &settings.stream);
}
