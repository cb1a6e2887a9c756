//! Scripts: what a text says, the service that plays it, and the lines of what its clients are sent.
//!
//! - `read_script` reads a script of settings, of rules, upstreams or a zone, of a target and of events or steps.
//! - `serve_script` serves it, and `push_line` writes an output. `script_text` writes a script in one spelling.
//! - `ScriptService` plays rules, and `ScriptTarget` the verdicts on NOTIFY.
//! - `CachedRules` puts a cache in front of rules, for questions.
//!
//! ```text
//! text -> read_script -> Script -> serve_script -> outputs -> push_line
//! ```
//!
//! # What is proved
//!
//! - `read_script` gives exactly what `script` says of the text, or its first bad line and the first reason that fits.
//! - What clients are sent is `out` of the script's events, or `outs` of its steps, served by its rules, upstreams or
//!   zone.
//! - A script that was written reads back to the same settings, service, target and events (`a_script_reads_back`). A
//!   trace is a script without a service (`a_trace_is_a_script`).
//! - A cache is asked as `asked_once` says, 1,000 polls at most.
//!
//! # What a body could still get away with
//!
//! Memory and time of reading.
#![tactic(auto)]

mod answer_words;
mod ask;
mod cached_rules;
mod draft;
mod laws;
mod line_checks;
mod notify_lines;
mod notify_rule;
mod output_line;
mod reader;
mod rule;
mod rule_lines;
mod rule_list;
mod script;
mod script_answers;
mod script_line;
mod script_service;
mod script_target;
mod script_turns;
mod script_upstream;
mod script_writer;
mod scripted;
mod service_lines;
mod service_text;
mod upstream;
mod upstream_lines;
mod zone_lines;

pub use ask::Ask;
pub use cached_rules::CachedRules;
pub use laws::{a_script_reads_back, a_trace_is_a_script};
pub use notify_rule::{NotifyRule, NotifyRules};
pub use output_line::{line, push_line, refusal};
pub use reader::read_script;
pub use rule::{Rule, Rules, ScriptAnswer, ScriptAnswers, ScriptReply};
pub use rule_list::RuleList;
pub use script::{Script, ScriptError};
pub use script_line::{NoEvent, ScriptLine};
pub use script_service::{ScriptFuture, ScriptService, ScriptStream};
pub use script_target::{ScriptTarget, ScriptVerdict};
pub use script_turns::ScriptTurns;
pub use script_writer::script_text;
pub use scripted::{Scripted, UnservedScript, serve_script};
pub use service_lines::ServiceLines;
pub use upstream::{UpstreamLine, UpstreamWord, Upstreams};
