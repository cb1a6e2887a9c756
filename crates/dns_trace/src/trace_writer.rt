//! The writer of settings and events.

ghost use Rattle.std.specs.Prelude.{◌≡◌, ◌++◌, ◌∷◌, [], IfOk, List, OnErr, OnOk};
ghost use Rattle.dns_events.specs.declared.event.Event.{Event as TheEvent};
ghost use Rattle.dns_trace.specs.Trace.{event_text, trace};
ghost use Rattle.dns_events.specs.declared.settings.Settings.{Settings as TheSettings};

use crate::text_writer::TextWriter;
use crate::trace_lines::{write_event, write_settings};
use crate::trace_settings::TraceSettings;
use dns_events::Event;
use dns_name::OutOfMemory;
use std::alloc::Global;
use std::marker::Model;

/// Writes settings, and then events as they are noted, one line each. Contracts see it as its text.
#[derive(Drop)]
pub struct TraceWriter {
    text: TextWriter,
    /// The line that is being written.
    line: TextWriter,
}

impl Model for TraceWriter {
    ghost use Rattle.std.specs.Prelude.{List, ℕ};

    ghost Value = { List ℕ };

    ghost view = { λ w. w.text };
}

impl TraceWriter {
    /// A text that begins with the lines of these settings.
    #[tactic(auto, unfolding(crate::specs::Trace::trace))]
    pub fn new(alloc: Global, settings: &TraceSettings) -> Result<TraceWriter, OutOfMemory>
        ensures { IfOk result (λ w. w ≡ trace settings.now []) }
    {
        let mut text = TextWriter::new(alloc);
        let line = TextWriter::new(alloc);
        match write_settings(&mut text, settings) {
            Ok(()) => Ok(TraceWriter { text, line }),
            Err(error) => Err(error),
        }
    }

    /// The line of one event more. After memory ran out the text is as before. The line is made in memory that the writer keeps.
    pub fn note(&mut self, _alloc: Global, event: &Event) -> Result<(), OutOfMemory>
        ensures line { OnOk result (self.new ≡ self.old ++ event_text event.now) }
        ensures noted { OnOk result ((s : TheSettings) (es : List TheEvent) → self.old ≡ trace s es
            → self.new ≡ trace s (es ++ event.now ∷ [])) }
        ensures same { OnErr result (self.new ≡ self.old) }
    {
        self.line.clear();
        write_event(&mut self.line, event)?;
        self.text.append(self.line.as_slice())?;
        Ok(())
    }

    /// Ends the text: the lines of settings and events.
    pub fn finish(self) -> Vec<u8>
        ensures { result.items ≡ self }
    {
        let TraceWriter { text, line: _ } = self;
        text.into_vec()
    }
}
