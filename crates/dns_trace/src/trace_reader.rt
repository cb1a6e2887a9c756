//! The reader of settings and events.

ghost use Rattle.std.specs.Prelude.{◌≡◌};
ghost use Rattle.dns_trace.specs.Reading.{TakesLine};
ghost use Rattle.dns_trace.specs.Said.{settings_said};
ghost use Rattle.dns_trace.specs.Traced.{ReadsTrace, next_event, next_setting, nothing_traced, trace_line, traced};

use crate::event_lines::read_event;
use crate::reason::LineError;
use crate::said::SaidSettings;
use crate::setting::{Setting, setting_named};
use crate::setting_lines::read_setting;
use crate::text_reader::{TakeLine, TraceError, read_lines};
use crate::trace_settings::TraceSettings;
use crate::words::Words;
use dns_events::Event;
use std::alloc::Global;
use std::marker::Model;

/// What the lines of a trace said.
#[derive(Drop)]
struct TraceReader {
    settings: SaidSettings,
    events: Vec<Event>,
}

impl Model for TraceReader {
    ghost use Rattle.dns_trace.specs.Traced.{TraceSaid};

    ghost Value = { TraceSaid };

    ghost view = { λ t. record { settings = t.settings; events = t.events.items } };
}

impl TraceReader {
    /// A trace of which no line was read.
    fn new(alloc: Global) -> TraceReader
        ensures { result ≡ nothing_traced }
    {
        TraceReader {
            settings: SaidSettings::new(alloc),
            events: Vec::new(alloc),
        }
    }

    /// The line of a setting.
    #[tactic(auto, unfolding(crate::specs::Traced::next_setting))]
    fn take_setting(
        &mut self,
        alloc: Global,
        setting: Setting,
        words: &Words,
    ) -> Result<(), LineError>
        ensures { TakesLine result self.new (next_setting setting self.old words.now) }
    {
        let before_events = self.events.is_empty();
        read_setting(alloc, &mut self.settings, setting, before_events, words)
    }

    /// The line of an event.
    #[tactic(auto, unfolding(crate::specs::Traced::next_event))]
    fn take_event(&mut self, alloc: Global, words: &Words) -> Result<(), LineError>
        ensures { TakesLine result self.new (next_event self.old words.now) }
    {
        let event = read_event(alloc, words)?;
        self.events.push(event)?;
        Ok(())
    }

    /// The settings and the events.
    fn into_parts(self) -> (TraceSettings, Vec<Event>)
        ensures settings { result.0 ≡ settings_said self.settings }
        ensures events { result.1.items ≡ self.events }
    {
        let TraceReader { settings, events } = self;
        (settings.into_settings(), events)
    }
}

impl TakeLine for TraceReader {
    ghost with_line = { trace_line };

    fn take_line(&mut self, alloc: Global, words: &Words) -> Result<(), LineError> {
        match setting_named(words.word(0)) {
            Some(setting) => self.take_setting(alloc, setting, words),
            None => self.take_event(alloc, words),
        }
    }
}

/// The settings and the events of a text, in the order of their lines, or its first bad line and the reason. A line of a service, of a
/// target or of a zone is refused as one of no such name.
#[tactic(auto, unfolding(crate::specs::Traced::traced))]
pub fn read_trace(alloc: Global, text: &[u8]) -> Result<(TraceSettings, Vec<Event>), TraceError>
    ensures { ReadsTrace (λ v. v.items) result (traced text.now) }
{
    let mut reader = TraceReader::new(alloc);
    match read_lines(alloc, &mut reader, text) {
        Ok(()) => Ok(reader.into_parts()),
        Err(error) => Err(error),
    }
}
