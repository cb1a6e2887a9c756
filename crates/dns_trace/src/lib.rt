//! The text of a script and of recorded events: lines, words, values, and the lines of settings and events.
//!
//! - `split_line`, `is_text`, `says_nothing` and `Words` take a text apart into lines and words. `read_lines` gives
//!   each line to a `TakeLine`.
//! - `num`, `decimal`, `port`, `octets`, `size`, `secret`, `addr`, `quad`, `yes_no` and `name` read the value of one
//!   word.
//! - `read_setting`, `read_dgram`, `read_stream` and `read_budget` read lines of settings into `SaidSettings`.
//!   `read_event` and `read_step` read lines of events.
//! - `Reason` says why a line is refused, the first that fits, and `TraceError` names the line.
//! - `read_trace` reads a whole text of settings and events. `TraceWriter` writes one, event by event.
//!
//! ```text
//! settings, events -> TraceWriter -> text -> read_trace -> settings, events
//! ```
//!
//! Scripts with services, zones and upstreams stand in dns_script.
//!
//! # What is proved
//!
//! - Every reader gives exactly its definition's value, or its refusal with line and reason.
//! - What was written of settings and events in range reads back to both (`a_trace_reads_back`).
//! - `note` appends exactly the line of its event. Without memory the text is as before.
//! - After a refused line of a setting what was said before is as it was.
//!
//! # What a body could still get away with
//!
//! How often a text is passed over. How much memory a line takes.
#![tactic(auto)]

mod budget_line;
mod dgram_line;
mod event_lines;
mod laws;
mod lines;
mod name_words;
mod reason;
mod said;
mod setting;
mod setting_lines;
mod stream_line;
mod text_reader;
mod text_writer;
mod trace_lines;
mod trace_reader;
mod trace_settings;
mod trace_writer;
mod values;
mod words;

pub use budget_line::{Budget, read_budget, with_budget};
pub use dgram_line::read_dgram;
pub use event_lines::{read_event, read_step};
pub use laws::a_trace_reads_back;
pub use lines::{is_text, says_nothing, split_line};
pub use name_words::name;
pub use reason::{LineError, Reason};
pub use said::SaidSettings;
pub use setting::{Setting, setting_named};
pub use setting_lines::{read_setting, unless};
pub use stream_line::read_stream;
pub use text_reader::{TakeLine, TraceError, read_lines};
pub use text_writer::TextWriter;
pub use trace_lines::{write_event, write_settings};
pub use trace_reader::read_trace;
pub use trace_settings::TraceSettings;
pub use trace_writer::TraceWriter;
pub use values::{addr, decimal, num, octets, port, quad, secret, size, yes_no};
pub use words::Words;
