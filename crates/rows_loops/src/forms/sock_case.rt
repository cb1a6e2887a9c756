//! What is served over a socket in memory, and what is wanted of it.

ghost use Rattle.std.specs.Prelude.{◌≡◌};

use crate::forms::cases::{Case, Desk, Outside};
use crate::forms::notes::{agree, calls};
use crate::forms::standing::Standing;
use dns_dgram_driver::{DgramEnd, serve_datagrams};
use dns_memory::{AsyncDgramSock, Clock, MemoryClock, MemorySock, Packet};
use dns_name::{IpAddr, Octets, OutOfMemory, SocketAddr};
use dns_service::SharedService;
use dns_stream_driver::Recorder;
use std::alloc::Global;
use std::sync::Wait;

/// A query for the root's address.
const QUERY: &[u8] = b"\x12\x34\x01\x00\x00\x01\x00\x00\x00\x00\x00\x00\x00\x00\x01\x00\x01";

/// The address of a client.
fn peer(port: u16) -> SocketAddr {
    SocketAddr {
        ip: IpAddr::V4([192, 0, 2, 1]),
        port,
    }
}

/// A query from each of these ports.
fn queries(alloc: Global, ports: &[u16]) -> Result<Vec<Packet>, OutOfMemory> {
    let mut packets = Vec::new(alloc);
    for port in ports {
        packets.push(Packet {
            octets: Octets::from_slice(alloc, QUERY)?,
            addr: peer(*port),
        })?;
    }
    Ok(packets)
}

/// Whether this reply was sent to this port.
fn is_reply(packet: &Packet, reply: &[u8], port: u16) -> bool {
    packet.octets.as_slice() == reply && packet.addr == peer(port)
}

/// Whether this reply was sent to each of these ports, in order, and nothing else.
fn is_answered(sent: &[Packet], reply: &[u8], ports: &[u16]) -> bool {
    if sent.len() != ports.len() {
        return false;
    }
    for (packet, port) in sent.iter().zip(ports.iter()) {
        if !is_reply(packet, reply, *port) {
            return false;
        }
    }
    true
}

/// Datagrams, and what is wanted of them.
#[derive(Clone, Copy)]
pub(crate) struct SockCase<'a> {
    /// The ports that a query comes from.
    pub(crate) ports: &'a [u16],
    /// The receives and sends that fail, and those that answer Again.
    pub(crate) failed_receives: &'a [u64],
    pub(crate) receives_again: &'a [u64],
    pub(crate) failed_sends: &'a [u64],
    pub(crate) sends_again: &'a [u64],
    /// The readings of the clock, and whether its latest one stands.
    pub(crate) times: &'a [(u64, u64)],
    pub(crate) stands: bool,
    /// For how many notes there is memory.
    pub(crate) notes: u64,
    pub(crate) count: u64,
    /// Whether the book is shut down before.
    pub(crate) is_shut: bool,
    pub(crate) end: DgramEnd,
    /// The reply, and the ports that it is sent to.
    pub(crate) reply: &'a [u8],
    pub(crate) answered: &'a [u16],
    /// The events, by their letters, clients and moments.
    pub(crate) events: &'a [(u8, u64, u64)],
    /// The calls of the socket, by their letters.
    pub(crate) calls: &'a [u8],
}

impl SockCase<'_> {
    fn sock(&self, alloc: Global) -> Result<MemorySock, OutOfMemory> {
        let packets = queries(alloc, self.ports)?;
        let receives = calls(alloc, self.failed_receives, self.receives_again)?;
        match calls(alloc, self.failed_sends, self.sends_again) {
            Ok(sends) => Ok(MemorySock::new(alloc, packets, receives, sends)),
            Err(error) => Err(error),
        }
    }
}

/// How that many datagrams are served at a desk over a socket, by a clock, into a recorder.
fn serve<R: Wait, W: SharedService, D: AsyncDgramSock, C: Clock, J: Recorder>(
    desk: Desk<'_, R, W>,
    sock: &mut D,
    clock: &mut C,
    journal: &mut J,
    count: u64,
) -> DgramEnd
    requires book { desk.seat.book ≡ desk.book.now }
    requires can_call { W.can_call desk.service.now }
{
    let Desk {
        rt,
        alloc,
        book,
        seat,
        service,
    } = desk;
    let (_seat, end) = serve_datagrams(rt, alloc, book, seat, service, sock, clock, journal, count);
    end
}

impl Case for SockCase<'_> {
    type Outside = Outside<MemorySock, Standing>;

    type End = DgramEnd;

    fn outside(&self, alloc: Global) -> Result<Outside<MemorySock, Standing>, OutOfMemory> {
        let times = Vec::from_slice(alloc, self.times)?;
        let clock = Standing::new(MemoryClock::new(times), self.stands);
        match self.sock(alloc) {
            Ok(sock) => Ok(Outside::new(alloc, sock, clock, self.notes)),
            Err(error) => Err(error),
        }
    }

    fn serve_at<R: Wait, W: SharedService>(
        &self,
        mut desk: Desk<'_, R, W>,
        outside: &mut Outside<MemorySock, Standing>,
    ) -> DgramEnd {
        if self.is_shut {
            desk.book.shutdown(desk.rt, &mut desk.seat);
        }
        serve(
            desk,
            &mut outside.watched,
            &mut outside.clock,
            &mut outside.journal,
            self.count,
        )
    }

    /// These events were noted, these calls made of the socket, and these replies sent.
    fn is_ended(&self, end: DgramEnd, outside: &Outside<MemorySock, Standing>) -> bool {
        end == self.end
            && agree(outside.journal.events(), self.events)
            && outside.watched.calls() == self.calls
            && is_answered(outside.watched.inner().sent(), self.reply, self.answered)
    }
}
