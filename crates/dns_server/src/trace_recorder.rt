//! A trace of the events that a driver notes.

ghost use Rattle.std.specs.Prelude.{◌≡◌, ◌↔◌, ◌∷◌, ◌++◌, ◌&&◌, [], true, IfOk, OnErr, OnOk};
ghost use Rattle.dns_recorder.specs.Notes.{NoteMoves};
ghost use Rattle.dns_io.specs.Causes.{Observed};
ghost use Rattle.dns_trace.specs.InRange.{IsSettings};
ghost use Rattle.dns_trace.specs.Trace.{event_text, trace};
ghost use Rattle.dns_server.specs.Recorded.{IsTrace, TraceReadsBack, settings_event, is_said, recorded};

use crate::in_range;
use dns_name::OutOfMemory;
use dns_service::{Event, EventKind};
use dns_trace::{TraceSettings, TraceWriter, a_trace_reads_back};
use dns_transport::Recorder;
use std::alloc::Global;

/// Writes settings and the events that a driver notes, one line each. It tells, unless an event that all clients hear named
/// one, which its line doesn't say. Before the events noted contracts see the settings, as one event that carries their lines.
#[derive(Drop)]
pub struct TraceRecorder {
    writer: TraceWriter,
    /// Whether the lines say all of their events.
    said: bool,
    ghost is_trace: { ∥ (said ≡ true → IsTrace writer) ∥₁ },
}

/// Whether the line of an event says all of it.
fn is_said(event: &Event) -> bool
    ensures { result ≡ is_said event.now }
{
    let wide = matches!(
        event.kind,
        EventKind::Reconfigure { .. } | EventKind::Shutdown
    );
    !wide || event.client == 0
}

/// Whether the lines say all of their events, with that of one event more.
fn still_said(said: bool, event: &Event) -> bool
    ensures { result ≡ (said && is_said event.now) }
{
    said && is_said(event)
}

impl TraceRecorder {
    /// A recorder whose text begins with the lines of these settings.
    pub fn new(alloc: Global, settings: &TraceSettings) -> Result<TraceRecorder, OutOfMemory>
        ensures sound { IsSettings settings.now }
        ensures text { IfOk result (λ r. r.writer ≡ trace settings.now []) }
        ensures tells { IfOk result (λ r. ⟦<TraceRecorder as Recorder>⟧.tells r) }
        ensures noted { IfOk result (λ r. ⟦<TraceRecorder as Recorder>⟧.noted r ≡ settings_event settings.now ∷ []) }
    {
        in_range::settings(settings);
        a_trace_reads_back();
        match TraceWriter::new(alloc, settings) {
            Ok(writer) => Ok(TraceRecorder { writer, said: true }),
            Err(error) => Err(error),
        }
    }

    /// Whether the text still says all that was noted.
    pub fn tells(&self) -> bool
        ensures { (result ≡ true) ↔ ⟦<TraceRecorder as Recorder>⟧.tells self.now }
    {
        self.said
    }

    /// Ends the recording: the text of settings and events.
    pub fn finish(self) -> Vec<u8>
        ensures text { result.items ≡ self.writer }
        ensures back { ⟦<TraceRecorder as Recorder>⟧.tells self → TraceReadsBack result.items (⟦<TraceRecorder as Recorder>⟧.noted self) }
    {
        a_trace_reads_back();
        let TraceRecorder { writer, said: _ } = self;
        writer.finish()
    }
}

impl Recorder for TraceRecorder {
    ghost tells = { λ r. r.said ≡ true };

    ghost noted = { λ r. recorded r.writer };

    /// Notes an event, as its line after the text.
    fn note(&mut self, alloc: Global, event: &Event) -> Result<(), OutOfMemory>
        ensures moves { Observed (self.new.said ≡ true) (self.old.said ≡ true)
            (NoteMoves result event.now (recorded self.old.writer) (recorded self.new.writer)) }
        ensures line { OnOk result (self.new.writer ≡ self.old.writer ++ event_text event.now) }
        ensures said { OnOk result (self.new.said ≡ (self.old.said && is_said event.now)) }
        ensures same { OnErr result ((self.new.writer ≡ self.old.writer) × (self.new.said ≡ self.old.said)) }
    {
        in_range::event(event);
        a_trace_reads_back();
        let said = still_said(self.said, event);
        match self.writer.note(alloc, event) {
            Ok(()) => {
                self.said = said;
                Ok(())
            }
            Err(error) => Err(error),
        }
    }
}
