//! What a driver notes its events in.

ghost use Rattle.std.specs.Prelude.{◌≡◌, List, [], ◌∷◌, ◌++◌, IfOk};
ghost use Rattle.std.specs.Borrow.{ftrue};
ghost use Rattle.dns_events.specs.declared.event.Event.{Event};
ghost use Rattle.dns_io.specs.Causes.{Observed};
ghost use Rattle.dns_recorder.specs.Notes.{NoteMoves};

use dns_events::{Event, EventKind};
use dns_name::{Octets, OutOfMemory};
use std::alloc::Global;
use std::marker::{Model, PhantomData};

/// What a driver notes each event in, before a core takes it. A call is refused only if memory ran out.
pub trait Recorder {
    /// That what was noted is known.
    ghost tells: { Self → Type 0 };

    /// The events noted so far, if the recorder tells.
    ghost noted: { Self → List Event };

    /// Notes an event.
    fn note(&mut self, alloc: Global, event: &Event) -> Result<(), OutOfMemory>
        ensures { Observed (tells self.new) (tells self.old) (NoteMoves result event.now (noted self.old) (noted self.new)) };
}

/// A recorder that keeps nothing. The events that were noted are in it for proofs alone: they take no memory, and no time.
#[derive(Drop)]
pub struct Silent {
    of: PhantomData<u8>,
    ghost events: { List Event },
}

impl Model for Silent {
    ghost also_owns = { λ _. ftrue };
}

// SAFETY: it owns nothing.
unsafe impl Send for Silent {}

impl Silent {
    /// A recorder that noted nothing so far.
    pub fn new() -> Silent
        ensures { result.events ≡ [] }
    {
        Silent { of: PhantomData }
    }

    /// An event was noted.
    fn heard(&mut self, _event: &Event)
        ensures { self.new ≡ record self.old { events = self.old.events ++ _event.now ∷ [] } }
    {}
}

impl Recorder for Silent {
    ghost tells = { λ _. Unit {0} };

    ghost noted = { λ s. s.events };

    fn note(&mut self, _alloc: Global, event: &Event) -> Result<(), OutOfMemory> {
        self.heard(event);
        Ok(())
    }
}

/// A recorder that keeps a copy of each event.
#[derive(Drop)]
pub struct VecRecorder {
    events: Vec<Event>,
}

impl VecRecorder {
    /// A recorder that noted nothing so far.
    pub fn new(alloc: Global) -> VecRecorder
        ensures { result.events.items ≡ [] }
    {
        VecRecorder {
            events: Vec::new(alloc),
        }
    }

    /// The events noted so far, in order.
    pub fn events(&self) -> &[Event]
        ensures { result.now ≡ self.now.events.items }
    {
        self.events.as_slice()
    }
}

/// A copy of octets.
fn copy_of(alloc: Global, octets: &Octets) -> Result<Octets, OutOfMemory>
    ensures { IfOk result (λ copy. copy ≡ octets.now) }
{
    Octets::from_slice(alloc, octets.as_slice())
}

/// A copy of what an event is of.
fn copied(alloc: Global, kind: &EventKind) -> Result<EventKind, OutOfMemory>
    ensures { IfOk result (λ copy. copy ≡ kind.now) }
{
    Ok(match kind {
        EventKind::Datagram { addr, octets } => EventKind::Datagram {
            addr: *addr,
            octets: copy_of(alloc, octets)?,
        },
        EventKind::Turn { request } => EventKind::Turn { request: *request },
        EventKind::Offer { addr } => EventKind::Offer { addr: *addr },
        EventKind::Piece(octets) => EventKind::Piece(copy_of(alloc, octets)?),
        EventKind::End => EventKind::End,
        EventKind::Fault => EventKind::Fault,
        EventKind::Close => EventKind::Close,
        EventKind::Write { took } => EventKind::Write { took: *took },
        EventKind::Tick => EventKind::Tick,
        EventKind::Release => EventKind::Release,
        EventKind::Reconfigure { dgram, stream } => EventKind::Reconfigure {
            dgram: *dgram,
            stream: *stream,
        },
        EventKind::Shutdown => EventKind::Shutdown,
    })
}

impl Recorder for VecRecorder {
    ghost tells = { λ _. Unit {0} };

    ghost noted = { λ k. k.events.items };

    fn note(&mut self, alloc: Global, event: &Event) -> Result<(), OutOfMemory> {
        let kind = copied(alloc, &event.kind)?;
        self.events.push(Event {
            at: event.at,
            secs: event.secs,
            client: event.client,
            kind,
        })?;
        Ok(())
    }
}
