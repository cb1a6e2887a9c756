//! One read.

ghost use Rattle.std.specs.Prelude.{◌≡◌, ◌≤◌, [], IfOk, OnErr};
ghost use Rattle.dns_io.specs.Causes.{Observed};
ghost use Rattle.dns_recorder.specs.Clocks.{TimedOne};
ghost use Rattle.dns_stream_driver.specs.Blames.{Blames, WroteWhole};
ghost use Rattle.dns_stream_driver.specs.Links.{MovedBy, IsReadEvent, Unread};

use dns_io::{Clock, Link, LinkRead};
use dns_recorder::now_is;
use dns_service::{Event, EventKind, Octets, OutOfMemory};
use std::alloc::Global;
use std::sync::Wait;

/// How many octets one read takes at most.
pub(crate) const ROOM: usize = 1024;

/// Makes one read, and says of which kind its event is: of a Piece, an End or a Fault, or of a Tick after a wait of that many
/// milliseconds at most, if nothing came yet.
#[tactic(auto, using(crate::proofs::LinkTraffic::moved_piece, crate::proofs::LinkTraffic::moved_again, crate::proofs::LinkTraffic::moved_end, crate::proofs::LinkTraffic::moved_none, crate::proofs::LinkTraffic::unread, crate::proofs::CloseCauses::blames_read, crate::proofs::CloseCauses::blames_tick, crate::proofs::CloseCauses::blames_end, crate::proofs::CloseCauses::blames_fault, crate::proofs::CloseCauses::whole_got, crate::proofs::CloseCauses::whole_again, crate::proofs::CloseCauses::whole_end, crate::proofs::CloseCauses::whole_fault))]
fn read_kind<R: Wait, L: Link>(
    rt: &R,
    alloc: Global,
    link: &mut L,
    buf: &mut [u8; ROOM],
    read_wait: u64,
) -> Result<EventKind, OutOfMemory>
    ensures moved { IfOk result (λ kind. Observed (L.tells link.new) (L.tells link.old)
        (MovedBy kind [] 0 (L.traffic link.old) (L.traffic link.new))) }
    ensures kind { IfOk result (λ kind. IsReadEvent kind) }
    ensures blame { IfOk result (λ kind. Blames kind (L.faults link.old) (L.faults link.new)) }
    ensures again { IfOk result (λ kind. Observed (L.tells link.new) (L.tells link.old)
        (WroteWhole kind [] (L.traffic link.old) (L.traffic link.new))) }
    ensures room { IfOk result (λ kind. Observed (L.tells link.new) (L.tells link.old)
        ((L.traffic link.new).full_writes ≡ (L.traffic link.old).full_writes)) }
    ensures no_memory { OnErr result (Observed (L.tells link.new) (L.tells link.old) (Unread (L.traffic link.old) (L.traffic link.new))) }
    ensures later { L.faults link.old ≤ L.faults link.new }
{
    match link.read(buf) {
        LinkRead::Got(count) => {
            let octets = Octets::from_slice(alloc, &buf[..count])?;
            Ok(EventKind::Piece(octets))
        }
        LinkRead::Again => {
            link.wait(rt, read_wait);
            Ok(EventKind::Tick)
        }
        LinkRead::End => Ok(EventKind::End),
        LinkRead::Failed => Ok(EventKind::Fault),
    }
}

/// Makes one read. The event is a Piece, an End or a Fault, or a Tick after a wait, if nothing came yet.
pub(crate) fn read_event<R: Wait, L: Link, C: Clock>(
    rt: &R,
    alloc: Global,
    client: u64,
    link: &mut L,
    clock: &mut C,
    buf: &mut [u8; ROOM],
    read_wait: u64,
) -> Result<Event, OutOfMemory>
    ensures moved { IfOk result (λ event. Observed (L.tells link.new) (L.tells link.old)
        (MovedBy event.kind [] 0 (L.traffic link.old) (L.traffic link.new))) }
    ensures clock { IfOk result (λ event. Observed (L.tells link.new × C.tells clock.new) (L.tells link.old × C.tells clock.old)
        (TimedOne event (L.traffic link.old).full_writes (L.traffic link.new).full_writes (C.readings clock.old) (C.readings clock.new))) }
    ensures kind { IfOk result (λ event. (event.client ≡ client) × IsReadEvent event.kind) }
    ensures blame { IfOk result (λ event. Blames event.kind (L.faults link.old) (L.faults link.new)) }
    ensures again { IfOk result (λ event. Observed (L.tells link.new) (L.tells link.old)
        (WroteWhole event.kind [] (L.traffic link.old) (L.traffic link.new))) }
    ensures no_memory { OnErr result (Observed (L.tells link.new) (L.tells link.old) (Unread (L.traffic link.old) (L.traffic link.new))) }
    ensures later { L.faults link.old ≤ L.faults link.new }
{
    match read_kind(rt, alloc, link, buf, read_wait) {
        Ok(kind) => Ok(now_is(clock, client, kind)),
        Err(error) => Err(error),
    }
}
