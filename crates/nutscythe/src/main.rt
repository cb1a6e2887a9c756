//! The program: a script on standard input, its outputs or its text on standard output, or a server that runs by it.
//!
//! `main` looks at the first word. `serve` hands the plan of `serve_plan` to `serve_workers_over`, over witnesses of the machine's
//! sockets, clock and threads. Without a count there is a worker on each processor. Everything else goes to `run`. It is tested by
//! its stored run, by tools/door, by tools/memory and by bench/workers.
#![tactic(auto)]

mod serving;

use dns_outside::{Reading, Writing};
use dns_server::{Status, run, serve_plan};
use log::sink::Console;
use log::{LevelFilter, Logged, warn};
use std::alloc::Global;
use std::net::Net;
use std::process::ExitCode;
use std::sync::Wait;
use std::thread::Threads;
use std::{env, io, rt};

const HELP: &str = "\
Usage:
  nutscythe replay < SCRIPT        serve a script's events, a line an output
  nutscythe steps < SCRIPT         serve steps: clients hear of changes by looks
  nutscythe trace < SCRIPT         write the script in one spelling
  nutscythe cache CAP < SCRIPT     ask a cache of CAP replies in front of rules
  nutscythe flood SEED COUNT       serve COUNT events that are made, and count
  nutscythe serve ADDR PORT COUNT < SCRIPT
      answer at a port until COUNT datagrams and COUNT connections came, 0: ever
      (then with a worker for datagrams on each processor)
  nutscythe --help script          the lines of a script
  nutscythe --help, nutscythe --version

ADDR is a dotted quad or 32 hex digits. docs/scripts.md has all.
Exit status: 0 done, 2 faulty command line, 3 refused, 4 a read or 5 a write
failed, 6 out of memory, 7 script too long, 8 socket or thread failed.
";

const SCRIPT: &str = "\
strict yes|no                    down to notify: before all events
edns yes|no
secret HEX                       of cookies
deny ADDR                        needs a good cookie
dgram none|SIZE WRITE            the server of datagrams
stream IDLE WRITE QUEUE LIMIT yes|no
budget none|COUNT WINDOW         replies that a connection queues in WINDOW ms
rule NAME|* ANSWER ..            a request's polls: pend, rcode:N, blank:N,
    fill:LEN, opt:LEN, live:TTL, formerr, servfail, notimp, refused, or begin,
    end, idle:MS, alone or with + before one of the five replies
upstream NAME WORD ..            its polls: pend, rcode:N, stray:N, late
zone NAME
record NAME TTL TYPE HEX         of the zone
notify NAME pend .. ok|notauth|other
datagram AT SECS CLIENT ADDR PORT HEX
offer AT SECS CLIENT ADDR PORT   of a connection
piece AT SECS CLIENT HEX         octets of its stream
turn AT SECS CLIENT REQUEST      a request, from 0, is polled once
write AT SECS CLIENT TOOK        its front frame is written, in TOOK ms
tick|end|fault|close|release AT SECS CLIENT
reconfigure AT SECS ..           all hear; the values of dgram, stream, budget
shutdown AT SECS                 all hear
look AT SECS CLIENT              of steps
ask AT SECS ADDR PORT HEX        of a cache
";

const VERSION: &str = "nutscythe 0.1.0\n";

/// The words of the command line after the program's name. A word that isn't UTF-8 is a faulty command line.
fn read_words(rt: &HostRuntime) -> Result<Vec<String>, Status> {
    match env::args(rt) {
        Ok(args) => words_of(rt.alloc(), args),
        Err(error) if error.kind() == io::ErrorKind::OutOfMemory => Err(Status::OutOfMemory),
        Err(_) => Err(Status::Usage),
    }
}

/// All words but the first.
fn words_of(alloc: Global, args: env::Args) -> Result<Vec<String>, Status> {
    match args.skip(1).collect(alloc) {
        Ok(words) => Ok(words),
        Err(_) => Err(Status::OutOfMemory),
    }
}

/// Ends with a status.
fn ended(status: Status) -> ExitCode {
    ExitCode::from(status.number())
}

/// Prints a text, and says how that went.
fn printed(rt: &impl Print, text: &str) -> ExitCode {
    match rt.print(text) {
        Ok(()) => ExitCode::SUCCESS,
        Err(_) => ended(Status::WriteFault),
    }
}

/// Says on standard error that something of the machine failed, and nothing of any other status. That this can't be said changes
/// no status.
fn warn_of(rt: &impl Eprint, status: Status) {
    if status == Status::HostFault {
        let logged = Logged::new(rt, LevelFilter::Warn, Console(rt));
        warn!(logged; "a socket, an accept or a thread failed");
    }
}

/// Serves by the plan of the words and of the script on standard input.
fn of_server<R: Net + rt::Clock + Threads + Wait + Copy + Send + Sync + 'static>(
    machine: R,
    rt: &HostRuntime,
    words: &[String],
) -> ExitCode {
    let mut source = Reading::new(rt.stdin());
    let mut sink = Writing::new(rt.stdout());
    let status = match serve_plan(rt.alloc(), words, &mut source, &mut sink) {
        Ok(plan) => serving::serve(machine, rt.alloc(), plan),
        Err(status) => status,
    };
    warn_of(rt, status);
    ended(status)
}

/// Runs the words over standard input and output.
fn of_run(rt: &HostRuntime, words: &[String]) -> ExitCode {
    let mut source = Reading::new(rt.stdin());
    let mut sink = Writing::new(rt.stdout());
    let status = run(rt.alloc(), words, &mut source, &mut sink);
    ended(status)
}

/// A form of the command line.
enum Form {
    Help,
    Script,
    Version,
    Server,
    /// All else, words of no form too.
    Run,
}

/// The help that the second word asks for.
fn help_of(words: &[String]) -> Form {
    match words.get(1).map(|word| word.as_str()) {
        Some("script") => Form::Script,
        _ => Form::Help,
    }
}

/// The form that the first word says.
fn form_of(words: &[String]) -> Form {
    match words.first().map(|word| word.as_str()) {
        Some("--help") => help_of(words),
        Some("--version") => Form::Version,
        Some("serve") => Form::Server,
        _ => Form::Run,
    }
}

/// Does what the words ask for.
fn answered<R: Net + rt::Clock + Threads + Wait + Copy + Send + Sync + 'static>(
    machine: R,
    rt: &HostRuntime,
    words: &[String],
) -> ExitCode {
    match form_of(words) {
        Form::Help => printed(rt, HELP),
        Form::Script => printed(rt, SCRIPT),
        Form::Version => printed(rt, VERSION),
        Form::Server => of_server(machine, rt, words),
        Form::Run => of_run(rt, words),
    }
}

fn main(rt: HostRuntime) -> ExitCode {
    match read_words(&rt) {
        Ok(words) => answered(rt, &rt, &words),
        Err(status) => ended(status),
    }
}
