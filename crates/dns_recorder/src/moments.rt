//! Events of now, and how long a loop waits for one.

ghost use Rattle.std.specs.Prelude.{◌≡◌, [], ◌∷◌, ◌++◌, IfOk, OnErr};
ghost use Rattle.dns_io.specs.Causes.{Observed};
ghost use Rattle.dns_recorder.specs.Clocks.{Timed, write_count};
ghost use Rattle.dns_recorder.specs.Notes.{NotedMoment};

use crate::recorder::Recorder;
use dns_events::{Event, EventKind};
use dns_io::Clock;
use dns_name::OutOfMemory;
use std::alloc::Global;
use std::sync::Wait;
use std::thread::Parker;
use std::time::Duration;

/// How many milliseconds one wait for a datagram, for a connection or for room lasts at most.
pub const MAX_WAIT_MS: u64 = 250;

/// Waits for that many milliseconds, or less.
pub fn pause<R: Wait>(rt: &R, millis: u64) {
    let parker = Parker::new();
    parker.park_timeout(rt, Duration::from_millis(millis));
}

/// An event of now, by one reading of the clock.
pub fn now_is<C: Clock>(clock: &mut C, client: u64, kind: EventKind) -> Event
    ensures dated { Observed (C.tells clock.new) (C.tells clock.old)
        (C.readings clock.new ≡ C.readings clock.old ++ (result.at, result.secs) ∷ []) }
    ensures client { result.client ≡ client }
    ensures kind { result.kind ≡ kind }
{
    let (at, secs) = clock.now();
    Event {
        at,
        secs,
        client,
        kind,
    }
}

/// Notes an event of now that is no Write. The answer is its moment.
#[tactic(auto, using(crate::proofs::NotedEvents::noted_moment, crate::proofs::NotedEvents::timed_moment))]
pub fn note_moment<C: Clock, J: Recorder>(
    alloc: Global,
    client: u64,
    kind: EventKind,
    clock: &mut C,
    journal: &mut J,
) -> Result<u64, OutOfMemory>
    requires { write_count kind ≡ 0 }
    ensures observed { IfOk result (λ at. Observed (J.tells journal.new) (J.tells journal.old)
        (NotedMoment client kind at (J.noted journal.old) (J.noted journal.new))) }
    ensures clock { IfOk result (λ at. Observed (C.tells clock.new × J.tells journal.new) (C.tells clock.old × J.tells journal.old)
        (Timed (J.noted journal.old) (J.noted journal.new) 0 0 (C.readings clock.old) (C.readings clock.new))) }
    ensures no_memory { OnErr result (Observed (J.tells journal.new) (J.tells journal.old) (J.noted journal.new ≡ J.noted journal.old)) }
    ensures clock_no_memory { OnErr result (Observed (C.tells clock.new × J.tells journal.new)
        (C.tells clock.old × J.tells journal.old) (J.noted journal.new ≡ J.noted journal.old)) }
{
    let event = now_is(clock, client, kind);
    match journal.note(alloc, &event) {
        Ok(()) => Ok(event.at),
        Err(error) => Err(error),
    }
}
