//! The news of a look, as events.

ghost use Rattle.dns_model.specs.News.{new_configurations, new_end};
ghost use Rattle.dns_recorder.specs.Woven.{kinds};
ghost use Rattle.dns_recorder.specs.Notes.{NotesKinds};

use crate::moments::note_moment;
use crate::recorder::Recorder;
use dns_admission::Look;
use dns_events::EventKind;
use dns_io::Clock;
use dns_name::OutOfMemory;
use std::alloc::Global;

/// Notes the configurations, if their version is new.
#[tactic(auto, using(crate::proofs::NotedEvents::noted_none, crate::proofs::NotedEvents::noted_kind, crate::proofs::EventTimes::timed_none))]
pub fn note_version<C: Clock, J: Recorder>(
    alloc: Global,
    clock: &mut C,
    journal: &mut J,
    last: &Look,
    look: &Look,
) -> Result<(), OutOfMemory>
    ensures { NotesKinds C.tells C.readings J.tells J.noted
        (kinds (new_configurations last.now.version look.now)) result clock.old clock.new journal.old journal.new }
{
    if look.version == last.version {
        return Ok(());
    }
    let kind = EventKind::Reconfigure {
        dgram: look.dgram,
        stream: look.stream,
    };
    match note_moment(alloc, 0, kind, clock, journal) {
        Ok(_) => Ok(()),
        Err(error) => Err(error),
    }
}

/// Notes the shutdown, if it is new.
#[tactic(auto, using(crate::proofs::NotedEvents::noted_none, crate::proofs::NotedEvents::noted_kind, crate::proofs::EventTimes::timed_none))]
pub fn note_shutdown<C: Clock, J: Recorder>(
    alloc: Global,
    clock: &mut C,
    journal: &mut J,
    last: &Look,
    look: &Look,
) -> Result<(), OutOfMemory>
    ensures { NotesKinds C.tells C.readings J.tells J.noted
        (kinds (new_end last.now.closed look.now)) result clock.old clock.new journal.old journal.new }
{
    if !look.closed || last.closed {
        return Ok(());
    }
    match note_moment(alloc, 0, EventKind::Shutdown, clock, journal) {
        Ok(_) => Ok(()),
        Err(error) => Err(error),
    }
}
