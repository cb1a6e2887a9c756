//! Datagrams in memory that are received and sent.

ghost use Rattle.std.specs.Prelude.{◌≡◌, [], ◌∷◌, ◌++◌, OnOk, OnErr};
ghost use Rattle.dns_memory.specs.Passing.{PacketPasses};

use dns_io::Packet;
use dns_name::{Octets, OutOfMemory, SocketAddr};
use std::alloc::Global;
use std::marker::Model;

/// Datagrams, and the place up to which they were received.
#[derive(Drop)]
pub(crate) struct PacketReplay {
    packets: Vec<Packet>,
    place: usize,
}

impl Model for PacketReplay {
    ghost use Rattle.std.specs.Prelude.{◌≤◌, take, drop, length};
    ghost use Rattle.dns_io.specs.declared.sock.Packet.{Packet};
    ghost use Rattle.dns_memory.specs.Passing.{Passing};

    ghost Value = { Passing Packet };

    ghost view = { λ s. record { came = take s.place s.packets.items; left = drop s.place s.packets.items } };

    ghost invariant = { λ s. s.place ≤ length s.packets.items };
}

impl PacketReplay {
    pub(crate) fn new(packets: Vec<Packet>) -> PacketReplay
        ensures { result ≡ record { came = []; left = packets.items } }
    {
        PacketReplay { packets, place: 0 }
    }

    /// Receives one datagram into the front of `buf`, as much of it as there is room for: how much, and from where; none
    /// if none is left.
    pub(crate) fn receive(&mut self, buf: &mut [u8]) -> Option<(usize, SocketAddr)>
        ensures { PacketPasses result buf.new self.old self.new }
    {
        if self.place >= self.packets.len() {
            return None;
        }
        let packet = &self.packets[self.place];
        let octets = packet.octets.as_slice();
        let count = octets.len().min(buf.len());
        buf[..count].copy_from_slice(&octets[..count]);
        let from = packet.addr;
        self.place += 1;
        Some((count, from))
    }
}

/// Keeps a datagram that is sent.
pub(crate) fn keep_sent(
    alloc: Global,
    sent: &mut Vec<Packet>,
    octets: &[u8],
    to: SocketAddr,
) -> Result<(), OutOfMemory>
    ensures kept { OnOk result (sent.new.items ≡ sent.old.items ++ (record { octets = octets.now; addr = to }) ∷ []) }
    ensures same { OnErr result (sent.new.items ≡ sent.old.items) }
{
    let copy = Octets::from_slice(alloc, octets)?;
    Ok(sent.push(Packet {
        octets: copy,
        addr: to,
    })?)
}
