//! A socket for datagrams in memory, with calls that fail or answer Again.

ghost use Rattle.std.specs.Prelude.{◌≡◌, ◌≤◌, [], length, Contains};
ghost use Rattle.dns_io.specs.Causes.{Observed};
ghost use Rattle.dns_io.specs.SockTraffic.{RecvMoves, RecvBound, RecvCause, SendMoves, SendBound, SendCause};
ghost use Rattle.dns_memory.specs.MemoryForms.{sock_traffic_of, SockTells, SockReceives, SockSends};

use crate::listed_calls::{CallFate, ListedCalls};
use crate::packet_replay::{PacketReplay, keep_sent};
use dns_io::{AsyncDgramSock, DgramRecv, DgramSend, Packet};
use dns_name::SocketAddr;
use std::alloc::Global;
use std::marker::Model;
use std::sync::Wait;

/// A socket over vectors, which tells what it received and sent as long as it can count. Receives and sends are counted
/// apart, and of each the listed calls fail or answer Again; a send for which there is no memory fails too, and a
/// receive answers Again if no datagram is left.
#[derive(Drop)]
pub struct MemorySock {
    alloc: Global,
    incoming: PacketReplay,
    outgoing: Vec<Packet>,
    receives: ListedCalls,
    sends: ListedCalls,
}

impl Model for MemorySock {
    ghost use Rattle.dns_memory.specs.MemoryForms.{SockState};

    ghost Value = { SockState };

    ghost view = { λ s. record {
      left = s.incoming.left;
      received = s.incoming.came;
      sent = s.outgoing.items;
      receives = s.receives;
      sends = s.sends;
    } };
}

impl MemorySock {
    /// Gives the datagrams of `incoming`, and keeps what is sent.
    pub fn new(
        alloc: Global,
        incoming: Vec<Packet>,
        receives: ListedCalls,
        sends: ListedCalls,
    ) -> MemorySock
        ensures { result ≡ record { left = incoming.items; received = []; sent = []; receives = receives; sends = sends } }
    {
        MemorySock {
            alloc,
            incoming: PacketReplay::new(incoming),
            outgoing: Vec::new(alloc),
            receives,
            sends,
        }
    }

    /// The datagrams sent so far, in order.
    pub fn sent(&self) -> &[Packet]
        ensures { result.now ≡ self.now.sent }
    {
        self.outgoing.as_slice()
    }
}

impl AsyncDgramSock for MemorySock {
    ghost tells = { λ s. SockTells s };

    ghost sock_traffic = { λ s. sock_traffic_of s };

    ghost failed_receives = { λ s. s.receives.faults };

    ghost failed_sends = { λ s. s.sends.faults };

    fn poll_send_to(&mut self, octets: &[u8], to: SocketAddr) -> DgramSend
        ensures moves { Observed (SockTells self.new) (SockTells self.old)
            (SendMoves result octets.now to (sock_traffic_of self.old) (sock_traffic_of self.new)) }
        ensures bound { SendBound result octets.now }
        ensures receives { self.new.receives.faults ≡ self.old.receives.faults }
        ensures later { self.old.sends.faults ≤ self.new.sends.faults }
        ensures cause { SendCause result self.old.sends.faults self.new.sends.faults }
        ensures takes { SockSends result self.old self.new }
        ensures listed { Contains self.old.sends.failing.items self.old.sends.made → result ≡ DgramSend.Failed }
        ensures kept { (self.new.receives ≡ self.old.receives) × (self.new.left ≡ self.old.left) }
    {
        match self.sends.take() {
            CallFate::Failed => return DgramSend::Failed,
            CallFate::Again => return DgramSend::Again,
            CallFate::CarriedOut => {}
        }
        match keep_sent(self.alloc, &mut self.outgoing, octets, to) {
            Ok(()) => DgramSend::Took(octets.len()),
            Err(_) => {
                self.sends.fault();
                DgramSend::Failed
            }
        }
    }

    fn readable<R: Wait>(&mut self, _rt: &R, _millis: u64)
        ensures moves { Observed (SockTells self.new) (SockTells self.old) (sock_traffic_of self.new ≡ sock_traffic_of self.old) }
        ensures receives { self.new.receives.faults ≡ self.old.receives.faults }
        ensures sends { self.new.sends.faults ≡ self.old.sends.faults }
        ensures kept { self.new ≡ self.old }
    {}

    fn try_recv_buf_from(&mut self, buf: &mut [u8]) -> DgramRecv
        ensures moves { Observed (SockTells self.new) (SockTells self.old)
            (RecvMoves result buf.new (sock_traffic_of self.old) (sock_traffic_of self.new)) }
        ensures bound { RecvBound result buf.new }
        ensures sends { self.new.sends.faults ≡ self.old.sends.faults }
        ensures later { self.old.receives.faults ≤ self.new.receives.faults }
        ensures cause { RecvCause result self.old.receives.faults self.new.receives.faults }
        ensures gives { SockReceives result self.old self.new }
        ensures kept { self.new.sends ≡ self.old.sends }
    {
        match self.receives.take() {
            CallFate::Failed => return DgramRecv::Failed,
            CallFate::Again => return DgramRecv::Again,
            CallFate::CarriedOut => {}
        }
        match self.incoming.receive(buf) {
            Some((count, from)) => DgramRecv::Got(count, from),
            None => {
                self.receives.answer_again();
                DgramRecv::Again
            }
        }
    }
}
