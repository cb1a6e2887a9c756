//! A socket for datagrams in memory of which no call fails.

ghost use Rattle.std.specs.Prelude.{◌≡◌, ◌≤◌, ℕ, [], true, length};
ghost use Rattle.dns_io.specs.Causes.{Observed};
ghost use Rattle.dns_io.specs.SockTraffic.{RecvMoves, RecvBound, RecvCause, SendMoves, SendBound, SendCause};
ghost use Rattle.dns_memory.specs.SteadyForms.{SteadySockTells, SteadySockReceives, steady_sock_traffic};

use crate::packet_replay::{PacketReplay, keep_sent};
use dns_io::{AsyncDgramSock, DgramRecv, DgramSend, Packet};
use dns_name::SocketAddr;
use std::alloc::Global;
use std::marker::Model;
use std::sync::Wait;

/// A socket over vectors. No call fails, so its counts of faults are 0 forever; a receive answers Again if no
/// datagram is left. It tells what it received and sent as long as there is memory for it and it can count the receives
/// that answered Again: afterwards it takes datagrams and tells nothing.
#[derive(Drop)]
pub struct SteadySock {
    alloc: Global,
    incoming: PacketReplay,
    outgoing: Vec<Packet>,
    whole: bool,
    empty_receives: u64,
}

impl Model for SteadySock {
    ghost use Rattle.dns_memory.specs.SteadyForms.{SteadySockState};

    ghost Value = { SteadySockState };

    ghost view = { λ s. record {
      left = s.incoming.left;
      received = s.incoming.came;
      sent = s.outgoing.items;
      whole = s.whole;
      empty_receives = s.empty_receives;
    } };
}

impl SteadySock {
    /// Gives the datagrams of `incoming`, and keeps what is sent.
    pub fn new(alloc: Global, incoming: Vec<Packet>) -> SteadySock
        ensures { result ≡ record { left = incoming.items; received = []; sent = []; whole = true; empty_receives = 0 } }
    {
        SteadySock {
            alloc,
            incoming: PacketReplay::new(incoming),
            outgoing: Vec::new(alloc),
            whole: true,
            empty_receives: 0,
        }
    }

    /// The datagrams sent, as far as they were kept.
    pub fn sent(&self) -> &[Packet]
        ensures { result.now ≡ self.now.sent }
    {
        self.outgoing.as_slice()
    }
}

impl AsyncDgramSock for SteadySock {
    ghost tells = { λ s. SteadySockTells s };

    ghost sock_traffic = { λ s. steady_sock_traffic s };

    ghost failed_receives = { λ _. 0 };

    ghost failed_sends = { λ _. 0 };

    fn poll_send_to(&mut self, octets: &[u8], to: SocketAddr) -> DgramSend
        ensures moves { Observed (SteadySockTells self.new) (SteadySockTells self.old)
            (SendMoves result octets.now to (steady_sock_traffic self.old) (steady_sock_traffic self.new)) }
        ensures bound { SendBound result octets.now }
        ensures receives { ◌≡◌ {A = ℕ} 0 0 }
        ensures later { 0 ≤ 0 }
        ensures cause { SendCause result 0 0 }
        ensures takes { result ≡ DgramSend.Took (length octets.now) }
        ensures kept { (self.new.left ≡ self.old.left) × (self.new.received ≡ self.old.received)
            × (self.new.empty_receives ≡ self.old.empty_receives) }
    {
        if keep_sent(self.alloc, &mut self.outgoing, octets, to).is_err() {
            self.whole = false;
        }
        DgramSend::Took(octets.len())
    }

    fn readable<R: Wait>(&mut self, _rt: &R, _millis: u64)
        ensures moves { Observed (SteadySockTells self.new) (SteadySockTells self.old)
            (steady_sock_traffic self.new ≡ steady_sock_traffic self.old) }
        ensures receives { ◌≡◌ {A = ℕ} 0 0 }
        ensures sends { ◌≡◌ {A = ℕ} 0 0 }
        ensures kept { self.new ≡ self.old }
    {}

    fn try_recv_buf_from(&mut self, buf: &mut [u8]) -> DgramRecv
        ensures moves { Observed (SteadySockTells self.new) (SteadySockTells self.old)
            (RecvMoves result buf.new (steady_sock_traffic self.old) (steady_sock_traffic self.new)) }
        ensures bound { RecvBound result buf.new }
        ensures sends { ◌≡◌ {A = ℕ} 0 0 }
        ensures later { 0 ≤ 0 }
        ensures cause { RecvCause result 0 0 }
        ensures gives { SteadySockReceives result self.old self.new }
        ensures kept { (self.new.sent ≡ self.old.sent) × (self.new.whole ≡ self.old.whole) }
    {
        match self.incoming.receive(buf) {
            Some((count, from)) => DgramRecv::Got(count, from),
            None => {
                self.empty_receives = self.empty_receives.saturating_add(1);
                DgramRecv::Again
            }
        }
    }
}
