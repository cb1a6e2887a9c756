//! Events as Debug text, as a derive would write it.

use crate::config::{DgramConfig, StreamConfig};
use crate::event::EventKind;
use dns_name::{Octets, SocketAddr};
use std::fmt;

impl EventKind {
    /// The name of the kind.
    fn name(&self) -> &'static str {
        match self {
            EventKind::Datagram { .. } => "Datagram",
            EventKind::Turn { .. } => "Turn",
            EventKind::Offer { .. } => "Offer",
            EventKind::Piece(_) => "Piece",
            EventKind::End => "End",
            EventKind::Fault => "Fault",
            EventKind::Close => "Close",
            EventKind::Tick => "Tick",
            EventKind::Reconfigure { .. } => "Reconfigure",
            EventKind::Shutdown => "Shutdown",
            EventKind::Write { .. } => "Write",
            EventKind::Release => "Release",
        }
    }
}

impl fmt::Debug for EventKind {
    fn fmt<W: fmt::Write>(&self, f: &mut fmt::Formatter<W>) -> fmt::Result {
        match self {
            EventKind::Datagram { addr, octets } => show_datagram(f, addr, octets),
            EventKind::Offer { addr } => show_one(f, "Offer", "addr", addr),
            EventKind::Piece(octets) => show_piece(f, octets),
            EventKind::Reconfigure { dgram, stream } => show_both(f, dgram, stream),
            kind => show_number(f, kind),
        }
    }
}

/// A kind that has a number, or nothing.
fn show_number<W: fmt::Write>(f: &mut fmt::Formatter<W>, kind: &EventKind) -> fmt::Result {
    match kind {
        EventKind::Turn { request } => show_one(f, "Turn", "request", request),
        EventKind::Write { took } => show_one(f, "Write", "took", took),
        other => f.write_str(other.name()),
    }
}

fn show_datagram<W: fmt::Write>(
    f: &mut fmt::Formatter<W>,
    addr: &SocketAddr,
    octets: &Octets,
) -> fmt::Result {
    f.debug_struct("Datagram")
        .field("addr", addr)
        .field("octets", octets)
        .finish()
}

fn show_piece<W: fmt::Write>(f: &mut fmt::Formatter<W>, octets: &Octets) -> fmt::Result {
    f.debug_tuple("Piece").field(octets).finish()
}

fn show_both<W: fmt::Write>(
    f: &mut fmt::Formatter<W>,
    dgram: &DgramConfig,
    stream: &StreamConfig,
) -> fmt::Result {
    f.debug_struct("Reconfigure")
        .field("dgram", dgram)
        .field("stream", stream)
        .finish()
}

/// A kind with one field.
fn show_one<W: fmt::Write, T: fmt::Debug>(
    f: &mut fmt::Formatter<W>,
    kind: &str,
    name: &str,
    value: &T,
) -> fmt::Result {
    f.debug_struct(kind).field(name, value).finish()
}
