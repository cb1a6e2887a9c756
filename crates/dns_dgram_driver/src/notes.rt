//! Events are noted.

ghost use Rattle.std.specs.Prelude.{◌≡◌, IfOk, IsSome, OnErr, Some};
ghost use Rattle.dns_io.specs.Causes.{Observed};
ghost use Rattle.dns_events.specs.declared.event.EventKind.TheVariants.{Datagram, Turn};
ghost use Rattle.dns_recorder.specs.Notes.{NoteMoves};
ghost use Rattle.dns_dgram_driver.specs.Steps.{EventDated, head_of, event_with, noted_octets};

use crate::spare::Spare;
use dns_io::Clock;
use dns_name::SocketAddr;
use dns_recorder::{Recorder, now_is};
use dns_service::{Event, EventKind, Octets, OutOfMemory};
use std::alloc::Global;

/// Whose an event is, and when it was noted.
#[derive(Clone, Copy)]
pub(crate) struct EventHead {
    pub(crate) client: u64,
    pub(crate) at: u64,
    pub(crate) secs: u64,
}

/// Notes an event of now.
fn note_now<C: Clock, J: Recorder>(
    alloc: Global,
    clock: &mut C,
    journal: &mut J,
    client: u64,
    kind: EventKind,
) -> Result<Event, OutOfMemory>
    ensures of { IfOk result (λ event. (event.client ≡ client) × (event.kind ≡ kind)) }
    ensures observed { IfOk result (λ event. Observed (C.tells clock.new × J.tells journal.new) (C.tells clock.old × J.tells journal.old)
        (EventDated event (J.noted journal.old) (J.noted journal.new) (C.readings clock.old) (C.readings clock.new))) }
    ensures no_memory { OnErr result (Observed (C.tells clock.new × J.tells journal.new) (C.tells clock.old × J.tells journal.old)
        (J.noted journal.new ≡ J.noted journal.old)) }
{
    let event = now_is(clock, client, kind);
    journal.note(alloc, &event)?;
    Ok(event)
}

/// The stamp of an event.
fn head_of(event: &Event) -> EventHead
    ensures { result ≡ head_of event.now }
{
    EventHead {
        client: event.client,
        at: event.at,
        secs: event.secs,
    }
}

/// Notes an event of a moment.
pub(crate) fn note_kind<J: Recorder>(
    alloc: Global,
    journal: &mut J,
    at: u64,
    secs: u64,
    client: u64,
    kind: EventKind,
) -> Result<(), OutOfMemory>
    ensures { Observed (J.tells journal.new) (J.tells journal.old)
        (NoteMoves result (record { at = at; secs = secs; client = client; kind = kind }) (J.noted journal.old) (J.noted journal.new)) }
{
    let event = Event {
        at,
        secs,
        client,
        kind,
    };
    journal.note(alloc, &event)
}

/// Notes a Turn of the latest moment, which is that of the datagram before it if no wait came between.
pub(crate) fn note_turn<C: Clock, J: Recorder>(
    alloc: Global,
    clock: &mut C,
    journal: &mut J,
    client: u64,
) -> Result<EventHead, OutOfMemory>
    ensures of { IfOk result (λ head. head.client ≡ client) }
    ensures observed { IfOk result (λ head. Observed (C.tells clock.new × J.tells journal.new) (C.tells clock.old × J.tells journal.old)
        (EventDated (event_with head (Turn 0)) (J.noted journal.old) (J.noted journal.new) (C.readings clock.old) (C.readings clock.new))) }
    ensures no_memory { OnErr result (Observed (C.tells clock.new × J.tells journal.new) (C.tells clock.old × J.tells journal.old)
        (J.noted journal.new ≡ J.noted journal.old)) }
{
    let (at, secs) = clock.latest();
    match note_kind(
        alloc,
        journal,
        at,
        secs,
        client,
        EventKind::Turn { request: 0 },
    ) {
        Ok(()) => Ok(EventHead { client, at, secs }),
        Err(error) => Err(error),
    }
}

/// The octets of a datagram that was noted, which are not copied.
fn noted_octets(kind: EventKind) -> Octets
    requires { IsSome (noted_octets kind) }
    ensures { noted_octets kind ≡ Some result }
{
    match kind {
        EventKind::Datagram { octets, .. } => octets,
        _ => unreachable!(),
    }
}

/// Notes a datagram of now, under a number, copied into what is spare. The octets that were noted are given back.
#[inline(always)]
pub(crate) fn note_datagram<C: Clock, J: Recorder>(
    alloc: Global,
    clock: &mut C,
    journal: &mut J,
    spare: &mut Spare,
    client: u64,
    octets: &[u8],
    from: SocketAddr,
) -> Result<(EventHead, Octets), OutOfMemory>
    ensures of { IfOk result (λ p. (p.0.client ≡ client) × (p.1 ≡ octets.now)) }
    ensures observed { IfOk result (λ p. Observed (C.tells clock.new × J.tells journal.new) (C.tells clock.old × J.tells journal.old)
        (EventDated (event_with p.0 (Datagram from p.1)) (J.noted journal.old) (J.noted journal.new) (C.readings clock.old)
        (C.readings clock.new))) }
    ensures no_memory { OnErr result (Observed (C.tells clock.new × J.tells journal.new) (C.tells clock.old × J.tells journal.old)
        (J.noted journal.new ≡ J.noted journal.old)) }
{
    let copy = spare.copied(alloc, octets)?;
    let kind = EventKind::Datagram {
        addr: from,
        octets: copy,
    };
    let event = note_now(alloc, clock, journal, client, kind)?;
    let head = head_of(&event);
    Ok((head, noted_octets(event.kind)))
}
