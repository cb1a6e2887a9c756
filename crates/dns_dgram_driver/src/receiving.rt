//! Receives.

ghost use Rattle.std.specs.Prelude.{◌≡◌, ◌≤◌, ◌<◌, ◌+◌, ◌-◌, ◌^◌, [], true, false, length};
ghost use Rattle.dns_io.specs.Causes.{Observed};
ghost use Rattle.dns_session.specs.Serving.{serving};
ghost use Rattle.dns_service.specs.PolledRequest.{request_answer};
ghost use Rattle.dns_events.specs.declared.event.EventKind.TheVariants.{Datagram};
ghost use Rattle.dns_dgram_driver.specs.Steps.{event_with};
ghost use Rattle.dns_dgram_driver.specs.DatagramsServed.{IsFull, MayCome};
ghost use Rattle.dns_dgram_driver.specs.Rounds.{BeginsExchange, BeginFails, Receives, ReceivedSo, ReceivedUpTo, Rounded, Stopped, TakenSo, Breaks, SinceNoted};
ghost use Rattle.dns_dgram_driver.specs.LoopParts.{RanOnce, MayReceive, ObservedSo, Went, WentTo, loop_seen, loop_observed};

use crate::dgram_loop::DgramLoop;
use crate::exchanges::begin;
use crate::notes::{EventHead, note_datagram};
use crate::serving::DgramEnd;
use dns_io::{AsyncDgramSock, Clock, DgramRecv};
use dns_name::SocketAddr;
use dns_recorder::{MAX_WAIT_MS, Recorder, Waits};
use dns_service::{Octets, OutOfMemory, SharedService};
use std::sync::Wait;

/// A receive was made, by which a datagram began an exchange or none was there yet; or it failed.
#[derive(Clone, Copy)]
pub(crate) enum RecvOutcome {
    Continue,
    Failed,
}

impl<R: Wait, W: SharedService, D: AsyncDgramSock, C: Clock, J: Recorder> DgramLoop<
    '_,
    R,
    W,
    D,
    C,
    J,
> {
    /// Begins the exchange of a datagram that was noted, and sends what it leads to at once.
    #[tactic(auto, using(crate::proofs::Passes::passes_kept))]
    #[inline(always)]
    fn begin_noted(
        &mut self,
        head: EventHead,
        octets: Octets,
        from: SocketAddr,
    ) -> Result<(), OutOfMemory>
        requires can_call { W.can_call self.old.service.now }
        requires running { self.old.state.now.heard.closed ≡ false }
        requires room { self.old.state.now.next < 2 ^ 64 - 1 }
        requires of { head.client ≡ self.old.state.now.next }
        ensures went { Went D.failed_sends self.old self.new }
        ensures next { self.new.state.now.next ≤ self.old.state.now.next + 1 }
        ensures receives { D.failed_receives self.new.sock.now ≡ D.failed_receives self.old.sock.now }
        ensures observed { ObservedSo (loop_observed D.tells C.tells J.tells) (loop_seen D.sock_traffic D.failed_sends C.readings J.noted)
            (λ u w s w' s'. SinceNoted (event_with head (Datagram from octets))
            (λ v. BeginsExchange (request_answer W.Future.answer W.Stream.answer)
            (serving (W.answer self.old.service.now) (W.hint self.old.service.now)) octets from v s w' s') w)
            (λ w s w'. SinceNoted (event_with head (Datagram from octets))
            (λ v. BeginFails (request_answer W.Future.answer W.Stream.answer)
            (serving (W.answer self.old.service.now) (W.hint self.old.service.now)) octets from v s w') w) result self.old self.new }
    {
        match begin(
            self.alloc,
            self.service,
            self.state,
            head,
            from,
            octets,
            self.spare,
        ) {
            Ok(packet) => {
                self.state.next += 1;
                self.send_for(head, packet)
            }
            Err(error) => Err(error),
        }
    }

    /// Notes a datagram that was received, and begins its exchange.
    #[tactic(auto, using(crate::proofs::Passes::passes_same))]
    #[inline(always)]
    fn take_datagram(&mut self, octets: &[u8], from: SocketAddr) -> Result<(), OutOfMemory>
        requires can_call { W.can_call self.old.service.now }
        requires running { self.old.state.now.heard.closed ≡ false }
        requires room { self.old.state.now.next < 2 ^ 64 - 1 }
        ensures went { Went D.failed_sends self.old self.new }
        ensures next { self.new.state.now.next ≤ self.old.state.now.next + 1 }
        ensures receives { D.failed_receives self.new.sock.now ≡ D.failed_receives self.old.sock.now }
        ensures observed { ObservedSo (loop_observed D.tells C.tells J.tells) (loop_seen D.sock_traffic D.failed_sends C.readings J.noted)
            (λ u. BeginsExchange (request_answer W.Future.answer W.Stream.answer)
            (serving (W.answer self.old.service.now) (W.hint self.old.service.now)) octets.now from)
            (BeginFails (request_answer W.Future.answer W.Stream.answer)
            (serving (W.answer self.old.service.now) (W.hint self.old.service.now)) octets.now from) result self.old self.new }
    {
        let number = self.state.next;
        match note_datagram(
            self.alloc,
            self.clock,
            self.journal,
            self.spare,
            number,
            octets,
            from,
        ) {
            Ok((head, octets)) => self.begin_noted(head, octets, from),
            Err(error) => Err(error),
        }
    }

    /// How long a receive may be waited for: not long if an exchange is to be polled again.
    fn recv_wait(&self) -> u64 {
        if self.state.exchanges.is_empty() {
            MAX_WAIT_MS
        } else {
            self.waits.repoll_wait()
        }
    }

    /// One receive. If no datagram is there it waits.
    #[tactic(auto, using(crate::proofs::Passes::passes_same))]
    fn receive(&mut self, buf: &mut [u8]) -> Result<RecvOutcome, OutOfMemory>
        requires can_call { W.can_call self.old.service.now }
        requires running { self.old.state.now.heard.closed ≡ false }
        requires room { self.old.state.now.next < 2 ^ 64 - 1 }
        requires buffer { length buf.old ≡ 1024 }
        ensures went { Went D.failed_sends self.old self.new }
        ensures next { ReceivedUpTo result self.old.state.now.next self.new.state.now.next }
        ensures receives { D.failed_receives self.old.sock.now ≤ D.failed_receives self.new.sock.now }
        ensures cause { ReceivedSo result (D.failed_receives self.old.sock.now) (D.failed_receives self.new.sock.now) }
        ensures observed { ObservedSo (loop_observed D.tells C.tells J.tells) (loop_seen D.sock_traffic D.failed_sends C.readings J.noted)
            (λ outcome. Receives (request_answer W.Future.answer W.Stream.answer)
            (serving (W.answer self.old.service.now) (W.hint self.old.service.now)) outcome)
            (λ w s w'. Breaks (request_answer W.Future.answer W.Stream.answer)
            (serving (W.answer self.old.service.now) (W.hint self.old.service.now)) (s.next + 1) w s true [] w') result self.old self.new }
    {
        match self.sock.try_recv_buf_from(buf) {
            DgramRecv::Failed => Ok(RecvOutcome::Failed),
            DgramRecv::Again => {
                let recv_wait = self.recv_wait();
                self.sock.readable(self.rt, recv_wait);
                self.clock.outdate();
                self.waits = self.waits.one_more();
                Ok(RecvOutcome::Continue)
            }
            DgramRecv::Got(count, from) => {
                self.waits = Waits::new();
                match self.take_datagram(&buf[..count], from) {
                    Ok(()) => Ok(RecvOutcome::Continue),
                    Err(error) => Err(error),
                }
            }
        }
    }

    /// What follows a look: one receive, and a poll of each unfinished exchange, unless a shutdown was heard of. How the loop ends by
    /// that is given, if it ends.
    fn receive_and_poll(&mut self, buf: &mut [u8]) -> Option<DgramEnd>
        requires ready { MayReceive W.can_call self.old }
        requires buffer { length buf.old ≡ 1024 }
        ensures ran_once { RanOnce D.failed_receives D.failed_sends result self.old self.new }
        ensures observed { Observed (loop_observed D.tells C.tells J.tells self.new) (loop_observed D.tells C.tells J.tells self.old)
            (Rounded (request_answer W.Future.answer W.Stream.answer)
            (serving (W.answer self.old.service.now) (W.hint self.old.service.now)) true 0 result
            (loop_seen D.sock_traffic D.failed_sends C.readings J.noted self.old) self.old.state.now
            (loop_seen D.sock_traffic D.failed_sends C.readings J.noted self.new) self.new.state.now) }
    {
        if self.state.heard.closed {
            return Some(DgramEnd::Shutdown);
        }
        match self.receive(buf) {
            Ok(RecvOutcome::Failed) => Some(DgramEnd::Fault),
            Ok(RecvOutcome::Continue) => match self.poll_all() {
                Ok(()) => None,
                Err(_) => Some(DgramEnd::OutOfMemory),
            },
            Err(_) => Some(DgramEnd::OutOfMemory),
        }
    }
}

/// Whether as many datagrams came as were to be served, if the count isn't 0, or as can be numbered.
fn is_full(next: u64, count: u64) -> bool
    requires within { MayCome count next }
    ensures full { result ≡ true → IsFull count next }
    ensures room { result ≡ false → MayCome count (next + 1) }
{
    if next == u64::MAX {
        return true;
    }
    count != 0 && next == count
}

impl<R: Wait, W: SharedService, D: AsyncDgramSock, C: Clock, J: Recorder> DgramLoop<
    '_,
    R,
    W,
    D,
    C,
    J,
> {
    /// One look, one receive, and a poll of each unfinished exchange, unless that many datagrams came. How the loop ends by that is
    /// given, if it ends.
    fn run_once(&mut self, buf: &mut [u8], count: u64) -> Option<DgramEnd>
        requires book { self.old.state.now.seat.book ≡ self.old.book.now }
        requires can_call { W.can_call self.old.service.now }
        requires buffer { length buf.old ≡ 1024 }
        requires within { MayCome count self.old.state.now.next }
        ensures ran_once { RanOnce D.failed_receives D.failed_sends result self.old self.new }
        ensures taken { TakenSo result count self.new.state.now.next }
        ensures observed { Observed (loop_observed D.tells C.tells J.tells self.new) (loop_observed D.tells C.tells J.tells self.old)
            (Rounded (request_answer W.Future.answer W.Stream.answer)
            (serving (W.answer self.old.service.now) (W.hint self.old.service.now)) false count result
            (loop_seen D.sock_traffic D.failed_sends C.readings J.noted self.old) self.old.state.now
            (loop_seen D.sock_traffic D.failed_sends C.readings J.noted self.new) self.new.state.now) }
    {
        if is_full(self.state.next, count) {
            return Some(DgramEnd::Counted);
        }
        match self.look_once() {
            Ok(()) => self.receive_and_poll(buf),
            Err(_) => Some(DgramEnd::OutOfMemory),
        }
    }

    /// Receives until that many datagrams came, a look shows a shutdown, or a receive fails.
    pub(crate) fn take_all(&mut self, buf: &mut [u8], count: u64) -> DgramEnd
        requires book { self.old.state.now.seat.book ≡ self.old.book.now }
        requires can_call { W.can_call self.old.service.now }
        requires buffer { length buf.old ≡ 1024 }
        requires within { MayCome count self.old.state.now.next }
        ensures went { WentTo D.failed_receives D.failed_sends result count self.old self.new }
        ensures observed { Observed (loop_observed D.tells C.tells J.tells self.new) (loop_observed D.tells C.tells J.tells self.old)
            (Stopped (request_answer W.Future.answer W.Stream.answer)
            (serving (W.answer self.old.service.now) (W.hint self.old.service.now)) result count
            (loop_seen D.sock_traffic D.failed_sends C.readings J.noted self.old) self.old.state.now
            (loop_seen D.sock_traffic D.failed_sends C.readings J.noted self.new) self.new.state.now) }
    {
        for _ in self.rt.forever() {
            if let Some(end) = self.run_once(buf, count) {
                return end;
            }
        }
        unreachable!()
    }
}
