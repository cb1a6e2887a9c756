//! One own event.

ghost use Rattle.std.specs.Prelude.{◌≡◌, ◌≤◌, ◌++◌, ◌∷◌, [], IfOk, OnErr, None, slice_get};
ghost use Rattle.dns_events.specs.declared.event.Event.{Event};
ghost use Rattle.dns_io.specs.Causes.{Observed};
ghost use Rattle.dns_session.specs.Serving.{Serving, serving};
ghost use Rattle.dns_session.specs.Slate.{Slate};
ghost use Rattle.dns_session.specs.Stands.{Stands, waiting};
ghost use Rattle.dns_service.specs.PolledRequest.{request_answer};
ghost use Rattle.dns_recorder.specs.Clocks.{Timed};
ghost use Rattle.dns_stream_driver.specs.Blames.{NotedWrite, ActedFor, OwnEvent};
ghost use Rattle.dns_stream_driver.specs.Rounds.{below_of, next_turn, turned};
ghost use Rattle.dns_stream_driver.specs.Steps.{TakesEvent, NotedOrNot, Acted, ActedPart};

use crate::closing::{closed_behind, closed_by};
use crate::reading::{ROOM, read_event};
use crate::turn_state::TurnState;
use crate::writing::write_event;
use dns_io::{Clock, Link};
use dns_recorder::Recorder;
use dns_service::{Event, EventKind, OutOfMemory, SharedService, Why};
use dns_session::ClientCore;
use std::alloc::Global;
use std::sync::Wait;

/// Octets that came are given to the core. The answer is why the connection is closed by that, if it is.
fn take_piece<W: SharedService>(
    alloc: Global,
    core: &mut ClientCore<W>,
    service: &W,
    at: u64,
    secs: u64,
    octets: &[u8],
) -> Result<Option<Why>, OutOfMemory>
    requires { W.can_call service.now }
    ensures { IfOk result (λ why. (e : Event) → e.at ≡ at → e.secs ≡ secs → e.kind ≡ EventKind.Piece octets.now
        → TakesEvent (request_answer W.Future.answer W.Stream.answer)
        (serving (W.answer service.now) (W.hint service.now)) core.old core.new e why) }
{
    match core.piece(alloc, service, at, secs, octets) {
        Ok(sent) => Ok(closed_behind(&sent)),
        Err(error) => Err(error),
    }
}

/// A frame that was written is taken off the core's queue. The answer is why the connection is closed by that, if it is.
fn take_write<W: SharedService>(core: &mut ClientCore<W>, at: u64, took: u64) -> Option<Why>
    ensures { (answers : Serving) (e : Event) → e.at ≡ at → e.kind ≡ EventKind.Write took
        → TakesEvent (request_answer W.Future.answer W.Stream.answer) answers core.old core.new e result }
{
    let sent = core.write(at, took);
    closed_behind(&sent)
}

/// Any other event is given to the core. The answer is why the connection is closed by that, if it is.
fn take_other<W: SharedService>(
    alloc: Global,
    core: &mut ClientCore<W>,
    service: &W,
    event: &Event,
) -> Result<Option<Why>, OutOfMemory>
    requires { W.can_call service.now }
    ensures { IfOk result (λ why. TakesEvent (request_answer W.Future.answer W.Stream.answer)
        (serving (W.answer service.now) (W.hint service.now)) core.old core.new event.now why) }
{
    let outs = core.step(alloc, service, event)?;
    let why = closed_by(&outs);
    Ok(why)
}

/// Gives the event to the core. The answer is why the connection is closed by that, if it is.
fn step<W: SharedService>(
    alloc: Global,
    core: &mut ClientCore<W>,
    service: &W,
    event: &Event,
) -> Result<Option<Why>, OutOfMemory>
    requires { W.can_call service.now }
    ensures { IfOk result (λ why. TakesEvent (request_answer W.Future.answer W.Stream.answer)
        (serving (W.answer service.now) (W.hint service.now)) core.old core.new event.now why) }
{
    match &event.kind {
        EventKind::Piece(octets) => {
            let octets = octets.as_slice();
            take_piece(alloc, core, service, event.at, event.secs, octets)
        }
        EventKind::Write { took } => Ok(take_write(core, event.at, *took)),
        _ => take_other(alloc, core, service, event),
    }
}

/// Notes the event, and then gives it to the core. The answer is why the connection is closed by that, if it is.
fn take<J: Recorder, W: SharedService>(
    alloc: Global,
    core: &mut ClientCore<W>,
    service: &W,
    journal: &mut J,
    event: &Event,
) -> Result<Option<Why>, OutOfMemory>
    requires { W.can_call service.now }
    ensures taken { IfOk result (λ why. TakesEvent (request_answer W.Future.answer W.Stream.answer)
        (serving (W.answer service.now) (W.hint service.now)) core.old core.new event.now why) }
    ensures noted { Observed (J.tells journal.new) (J.tells journal.old)
        (NotedOrNot result (J.noted journal.old) event.now (J.noted journal.new)) }
{
    journal.note(alloc, event)?;
    let why = step(alloc, core, service, event)?;
    Ok(why)
}

/// Notes an event of the loop's own and steps the core by it. The turns, the moment and the waits of the loop follow
/// it.
fn hand_over<J: Recorder, W: SharedService>(
    alloc: Global,
    core: &mut ClientCore<W>,
    service: &W,
    kept: &mut TurnState,
    journal: &mut J,
    event: Event,
) -> Result<Option<Why>, OutOfMemory>
    requires { W.can_call service.now }
    ensures taken { IfOk result (λ why. TakesEvent (request_answer W.Future.answer W.Stream.answer)
        (serving (W.answer service.now) (W.hint service.now)) core.old core.new event why) }
    ensures noted { Observed (J.tells journal.new) (J.tells journal.old)
        (NotedOrNot result (J.noted journal.old) event (J.noted journal.new)) }
    ensures turn { below_of kept.new.turn ≡ turned (below_of kept.old.turn) event.kind }
    ensures last { kept.new.last ≡ kept.old.last }
{
    kept.turn = after_event(kept.turn, &event.kind);
    kept.at = event.at;
    kept.waits = kept.waits.after(&event.kind);
    take(alloc, core, service, journal, &event)
}

/// The request to be polled next, by the last one that was polled in this round.
fn next_request<W: SharedService>(core: &ClientCore<W>, last: Option<u64>) -> Option<u64>
    ensures { (answers : Serving) (s : Slate) → Stands (request_answer W.Future.answer W.Stream.answer) answers core.now s
        → result ≡ next_turn (below_of last) s.requests }
{
    match last {
        None => core.first_unfinished(),
        Some(request) => core.next_unfinished(request),
    }
}

/// How long a read is waited for: not long if a request is to be polled again. Else it waits not past the moment at which the
/// connection is idle for too long, by the moment of the last event. A wait is one millisecond at least.
fn read_wait<W: SharedService>(core: &ClientCore<W>, kept: &TurnState) -> u64 {
    match core.first_unfinished() {
        Some(_) => kept.waits.repoll_wait(),
        None => kept.waits.idle_wait().min(core.idle_left(kept.at)).max(1),
    }
}

/// A Turn of the latest moment, which is that of the event before it: each wait is followed by a reading.
fn turn_event<C: Clock>(clock: &mut C, client: u64, request: u64) -> Event
    ensures dated { Observed (C.tells clock.new) (C.tells clock.old)
        (C.readings clock.new ≡ C.readings clock.old ++ (result.at, result.secs) ∷ []) }
    ensures client { result.client ≡ client }
    ensures kind { result.kind ≡ EventKind.Turn request }
{
    let (at, secs) = clock.latest();
    Event {
        at,
        secs,
        client,
        kind: EventKind::Turn { request },
    }
}

/// Polls the next request; if none is left, makes one read. The event says what was done.
fn turn_or_read<R: Wait, L: Link, C: Clock, W: SharedService>(
    rt: &R,
    alloc: Global,
    link: &mut L,
    clock: &mut C,
    buf: &mut [u8; ROOM],
    client: u64,
    core: &ClientCore<W>,
    kept: &TurnState,
) -> Result<Event, OutOfMemory>
    requires value { None ≡ slice_get (waiting core.now.state) 0 }
    requires queue { (answers : Serving) (s : Slate) → Stands (request_answer W.Future.answer W.Stream.answer) answers core.now s
        → None ≡ slice_get s.queue 0 }
    ensures { OwnEvent (request_answer W.Future.answer W.Stream.answer) L.tells L.traffic L.faults C.tells C.readings client
        (below_of kept.now.turn) core.now result link.old link.new clock.old clock.new }
{
    match next_request(core, kept.turn) {
        Some(request) => Ok(turn_event(clock, client, request)),
        None => read_event(rt, alloc, client, link, clock, buf, read_wait(core, kept)),
    }
}

/// Writes the first frame that waits; if none does, polls the next request; if none is left, makes one read. The
/// event says what was done, and is not noted yet.
fn own_event<R: Wait, L: Link, C: Clock, W: SharedService>(
    rt: &R,
    alloc: Global,
    client: u64,
    core: &ClientCore<W>,
    kept: &TurnState,
    link: &mut L,
    clock: &mut C,
    buf: &mut [u8; ROOM],
) -> Result<Event, OutOfMemory>
    ensures { OwnEvent (request_answer W.Future.answer W.Stream.answer) L.tells L.traffic L.faults C.tells C.readings client
        (below_of kept.now.turn) core.now result link.old link.new clock.old clock.new }
{
    match core.front_frame() {
        Some(frame) => Ok(write_event(rt, client, link, clock, frame, core.write_timeout())),
        None => turn_or_read(rt, alloc, link, clock, buf, client, core, kept),
    }
}

/// The last request that was polled in this round, after an event.
fn after_event(last: Option<u64>, kind: &EventKind) -> Option<u64>
    ensures { below_of result ≡ turned (below_of last) kind.now }
{
    match kind {
        EventKind::Turn { request } => Some(*request),
        EventKind::Piece(_) | EventKind::End | EventKind::Tick => None,
        _ => last,
    }
}

/// Does one own event. It is noted before the core takes it.
#[tactic(auto, using(crate::proofs::Choices::part_read))]
pub(crate) fn act<R: Wait, L: Link, C: Clock, J: Recorder, W: SharedService>(
    rt: &R,
    alloc: Global,
    client: u64,
    core: &mut ClientCore<W>,
    service: &W,
    kept: &mut TurnState,
    link: &mut L,
    clock: &mut C,
    journal: &mut J,
    buf: &mut [u8; ROOM],
) -> Result<Option<Why>, OutOfMemory>
    requires { W.can_call service.now }
    ensures observed { IfOk result (λ why. Observed (L.tells link.new × J.tells journal.new) (L.tells link.old × J.tells journal.old)
        (Acted (request_answer W.Future.answer W.Stream.answer) (serving (W.answer service.now) (W.hint service.now)) client
        (below_of kept.old.turn) (below_of kept.new.turn) why core.old core.new
        (J.noted journal.old) (J.noted journal.new) (L.traffic link.old) (L.traffic link.new))) }
    ensures clock { IfOk result (λ why. Observed (L.tells link.new × C.tells clock.new × J.tells journal.new)
        (L.tells link.old × C.tells clock.old × J.tells journal.old)
        (Timed (J.noted journal.old) (J.noted journal.new) (L.traffic link.old).full_writes (L.traffic link.new).full_writes
        (C.readings clock.old) (C.readings clock.new))) }
    ensures blame { IfOk result (λ why. ActedFor (request_answer W.Future.answer W.Stream.answer)
        (serving (W.answer service.now) (W.hint service.now)) why core.old core.new (L.faults link.old) (L.faults link.new)) }
    ensures again { IfOk result (λ why. Observed (L.tells link.new × J.tells journal.new) (L.tells link.old × J.tells journal.old)
        (NotedWrite (request_answer W.Future.answer W.Stream.answer) core.old (J.noted journal.old) (J.noted journal.new)
        (L.traffic link.old) (L.traffic link.new))) }
    ensures no_memory { OnErr result (Observed (L.tells link.new × J.tells journal.new) (L.tells link.old × J.tells journal.old)
        (ActedPart (request_answer W.Future.answer W.Stream.answer) client (below_of kept.old.turn) core.old
        (J.noted journal.old) (J.noted journal.new) (L.traffic link.old) (L.traffic link.new))) }
    ensures later { L.faults link.old ≤ L.faults link.new }
    ensures last { kept.new.last ≡ kept.old.last }
{
    match own_event(rt, alloc, client, core, kept, link, clock, buf) {
        Ok(event) => hand_over(alloc, core, service, kept, journal, event),
        Err(_) => Err(OutOfMemory),
    }
}
