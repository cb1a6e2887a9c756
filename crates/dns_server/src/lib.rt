//! A server that runs, by all layers, and traces of connections. It exports scripts, runs, loops, hosts and servers,
//! so a program names this crate alone.
//!
//! - `serve_host` serves datagrams and connections over any socket and listener, with a service in the layers of its
//!   settings.
//! - `serve_workers` serves datagrams by several workers, each from a socket of its own, and connections beside them.
//! - `serve_host_over` and `serve_workers_over` do so over witnesses, which tell what the calls of the machine's sockets
//!   answered. `run_dgram_server_over` and `run_stream_server_over` run servers over witnesses.
//! - `serve_plan` reads the words and the script of a server, and `run` the others (both of dns_run).
//! - `TraceRecorder` is a recorder whose text reads back.
//!
//! # What is proved
//!
//! - `serve_host` promises what `host_service` promises of the wrapped service, and answers Done, OutOfMemory or
//!   HostFault.
//! - `serve_workers` promises of the wrapped service what `WorkersHost::serve` promises, and answers so too.
//! - Over witnesses all this holds, of the machine's sockets too: each datagram, and each connection of a host or a
//!   server, kept to the rules (`HostKept`, `WorkersKept`, `ServerKept`, `every_counted_connection_kept_to_the_rules`).
//! - The text of a `TraceRecorder` is the trace of its settings and of the events that were noted, and reads back to
//!   both.
//! - A connection was served over a link that contracts know. Its text reads back to events for which the model sends
//!   what was written (`a_connection_replays`).
//!
//! # What a body could still get away with
//!
//! What standard input and sockets really hold.
#![tactic(auto)]

mod in_range;
mod laws;
mod over_witnesses;
mod server_host;
mod server_workers;
mod trace_recorder;

pub use dns_book::{Book, BookSeat};
pub use dns_core::{BookState, Settings, wrap};
pub use dns_host_status::status_of_host;
pub use dns_middleware::Wrapped;
pub use dns_run::{
    Ask, CachedRules, Command, Counts, NoEvent, NotifyRule, NotifyRules, Rule, RuleList, Rules,
    Script, ScriptAnswer, ScriptAnswers, ScriptError, ScriptFuture, ScriptLine, ScriptReply,
    ScriptService, ScriptStream, ScriptTarget, ScriptTurns, ScriptVerdict, Scripted, ServePlan,
    ServeWords, ServiceLines, Status, UpstreamLine, UpstreamWord, Upstreams, WriteError,
    count_flood, event_at, line, next_event, next_number, read_command, read_script, read_serve,
    read_whole, refusal, run, script_text, serve_plan, serve_script, summary, write_outputs,
    write_refusal,
};
pub use dns_service::WithoutMeta;
pub use dns_transport::{
    AcceptEnd, BufSource, ConnectionEnd, ConnectionWork, Control, DgramEnd, DgramServer, Host,
    HostEnd, Metered, MeteredAccept, MeteredSock, NoHook, PreConnect, Recorder, ServerCommand,
    ServerMetrics, Silent, StreamEnd, StreamServer, TcpServer, UdpServer, VecBufSource,
    VecRecorder, host_service, serve_accepts, serve_connection, serve_datagrams,
};
pub use dns_witness::{Witness, WitnessAccept, WitnessClock, WitnessSock, WitnessSpawner};
pub use dns_workers::{Worker, WorkersHost};
pub use laws::a_connection_replays;
pub use over_witnesses::{
    every_counted_connection_kept_to_the_rules, run_dgram_server_over, run_stream_server_over,
    serve_host_over, serve_workers_over,
};
pub use server_host::serve_host;
pub use server_workers::serve_workers;
pub use trace_recorder::TraceRecorder;
