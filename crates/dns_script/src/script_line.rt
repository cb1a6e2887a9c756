//! What stands in a script after its settings and rules: events, or steps, or nothing.

ghost use Rattle.std.specs.Prelude.{◌≡◌, ℕ, Bool, List, Result};
ghost use Rattle.dns_trace.specs.EventLines.{event_line, step_line};
ghost use Rattle.dns_trace.specs.Reading.{GivesLine};
ghost use Rattle.dns_trace.specs.declared.reason.Reason.{Reason as TheReason};
ghost use Rattle.dns_script.specs.Script.{every_word};
ghost use Rattle.dns_script.specs.ServeScript.{is_of_rules, no_event};

use dns_service::{Event, Step};
use dns_trace::{LineError, Reason, Words, read_event, read_step};
use std::alloc::Global;

/// What a line of a script says that is none of a setting, of the service or of the target.
pub trait ScriptLine: Sized + Drop {
    /// Whether such a script has lines of others with this first word.
    ghost has: { List ℕ → Bool };

    /// What a line of these words says.
    ghost reading: { List (List ℕ) → Result Self TheReason };

    /// Whether a line with this first word may be one of others.
    fn has(first: &[u8]) -> bool
        ensures { result ≡ has first.now };

    /// Reads a line.
    fn read(alloc: Global, words: &Words) -> Result<Self, LineError>
        ensures { GivesLine (λ e. e) result (reading words.now) };
}

impl ScriptLine for Event {
    ghost has = { every_word };

    ghost reading = { event_line };

    fn has(_first: &[u8]) -> bool {
        true
    }

    fn read(alloc: Global, words: &Words) -> Result<Self, LineError> {
        read_event(alloc, words)
    }
}

impl ScriptLine for Step {
    ghost has = { every_word };

    ghost reading = { step_line };

    fn has(_first: &[u8]) -> bool {
        true
    }

    fn read(alloc: Global, words: &Words) -> Result<Self, LineError> {
        read_step(alloc, words)
    }
}

/// Nothing: a script of a running server has settings and rules alone. Each other line is refused as one of no such name, those of
/// upstreams and of a zone too.
#[derive(Drop)]
pub enum NoEvent {}

impl ScriptLine for NoEvent {
    ghost has = { is_of_rules };

    ghost reading = { no_event };

    fn has(first: &[u8]) -> bool {
        first != b"upstream".as_slice()
            && first != b"zone".as_slice()
            && first != b"record".as_slice()
    }

    fn read(_alloc: Global, _words: &Words) -> Result<Self, LineError> {
        Err(LineError::Refused(Reason::Word))
    }
}
