//! A frame is written.

ghost use Rattle.std.specs.Prelude.{◌≡◌, ◌≤◌, ◌+◌, ◌-◌, [], ◌∷◌, ◌++◌, drop, length, MatchResult};
ghost use Rattle.dns_io.specs.Causes.{Observed};
ghost use Rattle.dns_recorder.specs.Clocks.{TimedOne, Waited};
ghost use Rattle.dns_stream_driver.specs.Blames.{EndBlames, EndAgain, Blames, WroteWhole};
ghost use Rattle.dns_stream_driver.specs.Links.{WaitedTo, MovedBy, IsWrittenEvent, WroteFront, WroteUntil, EndsWriting};

use dns_io::{Clock, Link, LinkWrite};
use dns_recorder::{MAX_WAIT_MS, now_is};
use dns_service::{Event, EventKind};
use std::sync::Wait;

/// How the writing of a frame ended: whole, by a failed call, or late, at a reading of the clock.
#[derive(Clone, Copy, Debug, PartialEq, Eq)]
pub(crate) enum WriteEnd {
    Whole,
    Failed,
    Late(u64, u64),
}

/// Waits for room, no longer than a write may take. The answer is a reading of the clock after it.
fn wait_for_room<R: Wait, L: Link, C: Clock>(
    rt: &R,
    link: &mut L,
    clock: &mut C,
    limit: u64,
) -> (u64, u64)
    ensures moves { Observed (L.tells link.new) (L.tells link.old) (L.traffic link.new ≡ L.traffic link.old) }
    ensures same { L.faults link.new ≡ L.faults link.old }
    ensures clock { Observed (C.tells clock.new) (C.tells clock.old) (C.readings clock.new ≡ C.readings clock.old ++ result ∷ []) }
{
    link.wait(rt, MAX_WAIT_MS.min(limit.saturating_add(1)));
    clock.now()
}

/// One write of what is left of a frame of which so much is done, and a wait if that answered Again. The answer is how many
/// octets were written, or how the writing of the frame ended.
#[tactic(auto, using(crate::proofs::LinkTraffic::wrote_none, crate::proofs::Waits::waited_none, crate::proofs::CloseCauses::end_whole, crate::proofs::CloseCauses::again_whole, crate::proofs::FrameWrites::took_no_time, crate::proofs::FrameWrites::took_no_room, crate::proofs::FrameWrites::waited_once, crate::proofs::FrameWrites::wrote_nothing, crate::proofs::FrameWrites::late_once, crate::proofs::FrameWrites::room_once, crate::proofs::FrameWrites::none_failed, crate::proofs::CloseCauses::end_late, crate::proofs::CloseCauses::end_failed, crate::proofs::CloseCauses::again_failed, crate::proofs::CloseCauses::again_late))]
fn write_some<R: Wait, L: Link, C: Clock>(
    rt: &R,
    link: &mut L,
    clock: &mut C,
    frame: &[u8],
    done: usize,
    start: u64,
    limit: u64,
) -> Result<usize, WriteEnd>
    requires { done ≤ length frame.now }
    ensures moves { Observed (L.tells link.new) (L.tells link.old)
        (MatchResult result (λ n. WroteFront n (drop done frame.now) (L.traffic link.old) (L.traffic link.new))
        (λ end. WroteFront 0 (drop done frame.now) (L.traffic link.old) (L.traffic link.new))) }
    ensures clock { Observed (L.tells link.new × C.tells clock.new) (L.tells link.old × C.tells clock.old)
        (MatchResult result (λ n. Waited (L.traffic link.old).full_writes (L.traffic link.new).full_writes (C.readings clock.old)
        (C.readings clock.new))
        (λ end. WaitedTo end (L.traffic link.old).full_writes (L.traffic link.new).full_writes (C.readings clock.old)
        (C.readings clock.new))) }
    ensures bound { MatchResult result (λ n. done + n ≤ length frame.now) (λ end. EndsWriting end done (length frame.now) start limit) }
    ensures blame { MatchResult result (λ n. L.faults link.new ≡ L.faults link.old)
        (λ end. EndBlames end (L.faults link.old) (L.faults link.new)) }
    ensures again { Observed (L.tells link.new) (L.tells link.old)
        (MatchResult result (λ n. (L.traffic link.old).full_writes ≤ (L.traffic link.new).full_writes)
        (λ end. EndAgain end (L.traffic link.old).full_writes (L.traffic link.new).full_writes)) }
{
    if done >= frame.len() {
        return Err(WriteEnd::Whole);
    }
    match link.write(&frame[done..]) {
        LinkWrite::Took(count) => Ok(count),
        LinkWrite::Again => {
            let (at, secs) = wait_for_room(rt, link, clock, limit);
            if at.saturating_sub(start) > limit {
                return Err(WriteEnd::Late(at, secs));
            }
            Ok(0)
        }
        LinkWrite::Failed => Err(WriteEnd::Failed),
    }
}

/// Writes the frame, and says how that ended. It is late if more than the limit has passed since the start.
#[tactic(auto, using(crate::proofs::LinkTraffic::wrote_none, crate::proofs::Waits::waited_none))]
fn write_frame<R: Wait, L: Link, C: Clock>(
    rt: &R,
    link: &mut L,
    clock: &mut C,
    frame: &[u8],
    start: u64,
    limit: u64,
) -> WriteEnd
    ensures moves { Observed (L.tells link.new) (L.tells link.old)
        (WroteUntil result frame.now start limit (L.traffic link.old) (L.traffic link.new)) }
    ensures clock { Observed (L.tells link.new × C.tells clock.new) (L.tells link.old × C.tells clock.old)
        (WaitedTo result (L.traffic link.old).full_writes (L.traffic link.new).full_writes (C.readings clock.old) (C.readings clock.new)) }
    ensures blame { EndBlames result (L.faults link.old) (L.faults link.new) }
    ensures again { Observed (L.tells link.new) (L.tells link.old)
        (EndAgain result (L.traffic link.old).full_writes (L.traffic link.new).full_writes) }
{
    let mut done = 0;
    for _ in rt.forever() {
        match write_some(rt, link, clock, frame, done, start, limit) {
            Ok(count) => done += count,
            Err(end) => return end,
        }
    }
    unreachable!()
}

/// The Write of a frame that was begun at a moment, at the reading after it.
fn written(client: u64, start: u64, at: u64, secs: u64) -> Event
    ensures { result ≡ record { at = at; secs = secs; client = client; kind = EventKind.Write (at - start) } }
{
    Event {
        at,
        secs,
        client,
        kind: EventKind::Write {
            took: at.saturating_sub(start),
        },
    }
}

/// Writes the first frame of a queue. The event is a Write, or a Fault if a call failed.
#[tactic(auto, using(crate::proofs::LinkTraffic::moved_whole, crate::proofs::LinkTraffic::moved_late, crate::proofs::LinkTraffic::moved_failed, crate::proofs::Waits::timed_whole, crate::proofs::Waits::timed_late, crate::proofs::Waits::timed_failed, crate::proofs::CloseCauses::blames_whole, crate::proofs::CloseCauses::blames_late, crate::proofs::CloseCauses::blames_failed, crate::proofs::CloseCauses::whole_written, crate::proofs::CloseCauses::whole_late, crate::proofs::CloseCauses::whole_failed))]
pub(crate) fn write_event<R: Wait, L: Link, C: Clock>(
    rt: &R,
    client: u64,
    link: &mut L,
    clock: &mut C,
    frame: &[u8],
    limit: u64,
) -> Event
    ensures moved { Observed (L.tells link.new) (L.tells link.old)
        (MovedBy result.kind (frame.now ∷ []) limit (L.traffic link.old) (L.traffic link.new)) }
    ensures clock { Observed (L.tells link.new × C.tells clock.new) (L.tells link.old × C.tells clock.old)
        (TimedOne result (L.traffic link.old).full_writes (L.traffic link.new).full_writes (C.readings clock.old) (C.readings clock.new)) }
    ensures client { result.client ≡ client }
    ensures kind { IsWrittenEvent result.kind }
    ensures blame { Blames result.kind (L.faults link.old) (L.faults link.new) }
    ensures again { Observed (L.tells link.new) (L.tells link.old)
        (WroteWhole result.kind frame.now (L.traffic link.old) (L.traffic link.new)) }
{
    let (start, _) = clock.now();
    match write_frame(rt, link, clock, frame, start, limit) {
        WriteEnd::Whole => {
            let (at, secs) = clock.now();
            written(client, start, at, secs)
        }
        WriteEnd::Late(at, secs) => written(client, start, at, secs),
        WriteEnd::Failed => now_is(clock, client, EventKind::Fault),
    }
}
