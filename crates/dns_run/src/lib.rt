//! The program without its server: the words of the command line, `run` with its statuses, and the plan of a server.
//! It exports scripts and floods (dns_script, dns_flood).
//!
//! - `read_command` reads the words into a `Command`: replay, steps and the others of `--help`.
//! - `run` does what they ask for. It reads a script from a `Source` and writes lines to a `Sink`.
//! - `Status` says how a run ended, and `Status::number` is the exit status of the program.
//! - `read_serve` reads the words of `serve ADDR PORT COUNT`. `serve_plan` makes a `ServePlan` of them and a script:
//!   address, count, settings, service and NOTIFY target.
//! - `read_whole` reads the script that a source holds, or writes the line of its refusal.
//!
//! ```text
//! words + script --run--> lines of outputs, or one line of a refusal, and a Status
//! words + script --serve_plan--> ServePlan -> dns_server
//! ```
//!
//! # What is proved
//!
//! - Each status has its stated cause: Usage exactly if the words are no command, and then nothing was read or
//!   written. Faults of source and sink are told apart.
//! - If source and sink tell, `run` writes the lines of `out` or `outs` of a script, or the line of its refusal.
//!   After a failed write or without memory it is a prefix of that.
//! - If the script couldn't be read whole, or was too long, nothing was written.
//! - `serve_plan` gives exactly what words and script say; it writes nothing but the line of a refusal.
//!
//! # What a body could still get away with
//!
//! How much is written at once, and how much memory a script takes.
#![tactic(auto)]

mod answering;
mod asking;
mod command;
mod program;
mod serve_words;
mod server_plan;
mod status;
mod whole_script;

pub use command::{Command, read_command};
pub use dns_flood::{
    Ask, CachedRules, Counts, NoEvent, NotifyRule, NotifyRules, Rule, RuleList, Rules, Script,
    ScriptAnswer, ScriptAnswers, ScriptError, ScriptFuture, ScriptLine, ScriptReply, ScriptService,
    ScriptStream, ScriptTarget, ScriptTurns, ScriptVerdict, Scripted, ServiceLines, UpstreamLine,
    UpstreamWord, Upstreams, WriteError, count_flood, event_at, layered, line, next_event,
    next_number, push_line, read_script, refusal, script_text, serve_script, summary,
    write_outputs, write_refusal,
};
pub use program::run;
pub use serve_words::{ServeWords, read_serve};
pub use server_plan::{ServePlan, serve_plan};
pub use status::Status;
pub use whole_script::read_whole;
