//! Lines that are written many at a time, a service in the layers of settings, and floods of events with their
//! counts.
//!
//! - `pour`, `write_outputs` and `write_refusal` write lines to a sink. Lines are kept back up to 65,536 octets and
//!   then written at once. `WriteError` says why a text was not written whole.
//! - `layered` wraps a service and a NOTIFY target in the layers of settings.
//! - `next_number`, `event_at` and `next_event` are the generator of a flood. It makes events of datagrams and
//!   connections from a seed.
//! - `count_flood` serves a flood and counts its outputs by kind (`Counts`). `write_flood` writes the line `summary`.
//!
//! ```text
//! seed -> next_event -> Event -> Server -> outputs -> Counts -> `events N datagrams A frames B closed C turned D`
//! ```
//!
//! # What is proved
//!
//! - Lines that are kept back go out in order; after an error a prefix of the right text was written (`Pours`,
//!   `Wrote`).
//! - `layered` gives a service with the answers `replies` and the hint `hint_left` of the settings.
//! - The generator's events are those of the definition `flood_event`, by place and number.
//! - A flood's counts are those of `out` of its events. Each count stays at 2^128 - 1 if it would pass that.
//!
//! # What a body could still get away with
//!
//! How many octets one write takes, and how much memory the outputs take.
#![tactic(auto)]

mod counts;
mod flood;
mod generator;
mod layers;
mod writing;

pub use counts::{Counts, summary};
pub use dns_script::{
    Ask, CachedRules, NoEvent, NotifyRule, NotifyRules, Rule, RuleList, Rules, Script,
    ScriptAnswer, ScriptAnswers, ScriptError, ScriptFuture, ScriptLine, ScriptReply, ScriptService,
    ScriptStream, ScriptTarget, ScriptTurns, ScriptVerdict, Scripted, ServiceLines, UpstreamLine,
    UpstreamWord, Upstreams, line, push_line, read_script, refusal, script_text, serve_script,
};
pub use flood::{count_flood, write_flood};
pub use generator::{event_at, next_event, next_number};
pub use layers::layered;
pub use writing::{WriteError, pour, write_outputs, write_refusal};
