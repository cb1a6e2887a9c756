//! Sends of datagrams.

ghost use Rattle.std.specs.Prelude.{◌≡◌, ◌≤◌, [], ◌∷◌, OnOk, OnErr};
ghost use Rattle.dns_io.specs.Causes.{Observed};
ghost use Rattle.dns_dgram_driver.specs.LoopParts.{OnlyPolls, ObservedSo, loop_seen, loop_observed};
ghost use Rattle.dns_dgram_driver.specs.Steps.{SendsOrFaults, SendsTo, SendsCause, SendsRose, Unsent, one_or_none};

use crate::dgram_loop::DgramLoop;
use crate::notes::{EventHead, note_kind};
use dns_io::{AsyncDgramSock, Clock, DgramSend, Packet};
use dns_recorder::{MAX_WAIT_MS, Recorder};
use dns_service::{EventKind, OutOfMemory, SharedService};
use std::alloc::Global;
use std::sync::Wait;

/// How the send of a datagram ended: it was sent, a call failed, or it was late, at a reading of the clock.
#[derive(Clone, Copy)]
pub(crate) enum SendEnd {
    Sent,
    Failed,
    Late(u64, u64),
}

/// Sends a datagram. While there is no room for it, it waits, until so much time has passed since a moment.
#[tactic(auto, using(crate::proofs::Posting::sent_none, crate::proofs::Posting::sent_again, crate::proofs::Posting::sent_late, crate::proofs::Posting::sent_whole, crate::proofs::Posting::sent_failed))]
#[inline(always)]
fn send<R: Wait, D: AsyncDgramSock, C: Clock>(
    rt: &R,
    sock: &mut D,
    clock: &mut C,
    packet: &Packet,
    since: u64,
    limit: u64,
) -> SendEnd
    ensures receives { D.failed_receives sock.new ≡ D.failed_receives sock.old }
    ensures sends { D.failed_sends sock.old ≤ D.failed_sends sock.new }
    ensures cause { SendsCause result (D.failed_sends sock.old) (D.failed_sends sock.new) }
    ensures observed { Observed (D.tells sock.new × C.tells clock.new) (D.tells sock.old × C.tells clock.old)
        (SendsTo result (packet.now ∷ []) since limit (D.sock_traffic sock.old) (D.sock_traffic sock.new) (C.readings clock.old)
        (C.readings clock.new)) }
{
    for _ in rt.forever() {
        match sock.poll_send_to(packet.octets.as_slice(), packet.addr) {
            DgramSend::Took(_) => return SendEnd::Sent,
            DgramSend::Failed => return SendEnd::Failed,
            DgramSend::Again => {
                let (at, secs) = clock.now();
                if at >= since && at - since >= limit {
                    return SendEnd::Late(at, secs);
                }
                sock.readable(rt, MAX_WAIT_MS.min(limit));
                clock.outdate();
            }
        }
    }
    unreachable!()
}

/// Sends what an event led to, if that is a datagram. If it isn't sent a Fault is noted; whether a send failed is
/// kept.
#[inline(always)]
pub(crate) fn deliver<R: Wait, D: AsyncDgramSock, C: Clock, J: Recorder>(
    rt: &R,
    alloc: Global,
    sock: &mut D,
    clock: &mut C,
    journal: &mut J,
    send_failed: &mut bool,
    head: EventHead,
    packet: &Option<Packet>,
    limit: u64,
) -> Result<(), OutOfMemory>
    ensures receives { D.failed_receives sock.new ≡ D.failed_receives sock.old }
    ensures sends { D.failed_sends sock.old ≤ D.failed_sends sock.new }
    ensures rose { SendsRose send_failed.old send_failed.new (D.failed_sends sock.old) (D.failed_sends sock.new) }
    ensures observed { OnOk result (Observed (D.tells sock.new × C.tells clock.new × J.tells journal.new)
        (D.tells sock.old × C.tells clock.old × J.tells journal.old)
        (SendsOrFaults head (one_or_none packet.now) limit (J.noted journal.old) (J.noted journal.new) (D.sock_traffic sock.old)
        (D.sock_traffic sock.new)
        (D.failed_sends sock.old) (D.failed_sends sock.new) (C.readings clock.old) (C.readings clock.new))) }
    ensures no_memory { OnErr result (Observed (D.tells sock.new × C.tells clock.new × J.tells journal.new)
        (D.tells sock.old × C.tells clock.old × J.tells journal.old)
        (Unsent (J.noted journal.old) (J.noted journal.new) (D.sock_traffic sock.old) (D.sock_traffic sock.new))) }
{
    let Some(packet) = packet else {
        return Ok(());
    };
    match send(rt, sock, clock, packet, head.at, limit) {
        SendEnd::Sent => Ok(()),
        SendEnd::Late(at, secs) => {
            note_kind(alloc, journal, at, secs, head.client, EventKind::Fault)
        }
        SendEnd::Failed => {
            *send_failed = true;
            let (at, secs) = clock.now();
            note_kind(alloc, journal, at, secs, head.client, EventKind::Fault)
        }
    }
}

impl<R: Wait, W: SharedService, D: AsyncDgramSock, C: Clock, J: Recorder> DgramLoop<
    '_,
    R,
    W,
    D,
    C,
    J,
> {
    /// Sends what an event of an exchange led to, within the write timeout that is in force.
    #[tactic(auto, using(crate::proofs::Passes::passes_kept))]
    #[inline(always)]
    pub(crate) fn send_for(
        &mut self,
        head: EventHead,
        packet: Option<Packet>,
    ) -> Result<(), OutOfMemory>
        ensures polls { OnlyPolls D.failed_receives D.failed_sends self.old self.new }
        ensures rest { self.new.state.now ≡ record self.old.state.now { send_failed = self.new.state.now.send_failed } }
        ensures observed { ObservedSo (loop_observed D.tells C.tells J.tells) (loop_seen D.sock_traffic D.failed_sends C.readings J.noted)
            (λ u w s w' s'. SendsOrFaults head (one_or_none packet) s.heard.dgram.write_timeout w.noted w'.noted w.sock_traffic
            w'.sock_traffic w.failed_sends w'.failed_sends w.readings w'.readings)
            (λ w s w'. Unsent w.noted w'.noted w.sock_traffic w'.sock_traffic) result self.old self.new }
    {
        self.waits = self.waits.anew_where(packet.is_some());
        let limit = self.state.heard.dgram.write_timeout();
        let failed = &mut self.state.send_failed;
        let delivered = deliver(
            self.rt,
            self.alloc,
            self.sock,
            self.clock,
            self.journal,
            failed,
            head,
            &packet,
            limit,
        );
        self.spare.keep_packet(packet);
        delivered
    }
}
