//! A name server: serves the zones of a configuration, judges a configuration, or speaks to a server that runs.
//!
//! - `words` has the words of the command line, `load` reads configurations and zones, and `keys` reads keys. `orders` are what
//!   a running server is asked for, and `measures` what it tells at its page of metrics.
//! - `server` goes from generation to generation: it looks every 50 ms whether something is asked, and shuts the listeners
//!   down if something else is to be served. Its part `obey` does what is asked. `served_config` is what is served at a time.
//!
//! dns_listener serves at an address, dns_zone_copies keeps the copies of zones that have a primary, and dns_notifier tells
//! others of new serials.
//!
//! ```text
//! Server::open -> serve -> (a listener in a thread for each address) -> wait -> the next generation, or the end
//! ```
//!
//! # What is proved
//!
//! - Each function is safe, and returns except for those that wait.
//! - A configuration in which a zone stands twice is refused, and no other one for that (`refuse_twice`).
//! - Each zone is read of its file, in their order, to be transferred to its own networks or to those for all (`ReadsAll`).
//! - A zone whose secondary has no copy is without data in what is read. So it is in what is served where zones can't be read
//!   again (`AreWithout`).
//! - The keys that are read are those of the configuration, in their order: by name, algorithm and the secret that stands there. A
//!   zone one of whose networks wants a key is judged by all of them. One whose primary shares a key is judged by that
//!   (`Keys::of`).
//! - The status of the program: 0 if all was done, 1 with a line that says the fault, 2 for faulty words.
//!
//! # What a body could still get away with
//!
//! No clause says what files, sockets and threads give. That a refused reload leaves what is served is up to types alone:
//! what follows is read and judged with the server lent.
#![tactic(auto)]

ghost use Rattle.std.specs.Prelude.{◌≡◌, ◌≢◌, IfOk};
ghost use Rattle.std.specs.Process.{exit_status};
ghost use Rattle.clap.specs.Values.{kind_of};
ghost use Rattle.clap.specs.declared.error.kind.ErrorKind.TheVariants.{DisplayHelp, DisplayVersion};

mod configuration;
mod keys;
mod load;
mod measures;
mod orders;
mod served_config;
mod server;
mod words;

use clap::ArgMatches;
use log::Log;
use std::env;
use std::net::Net;
use std::process::ExitCode;
use std::random::RandomSource;
use std::rt::{Clock, Files};
use std::sync::Wait;
use std::thread::Threads;

/// Does what words without a mistake ask for.
fn performed<
    R: Net + Files + Clock + RandomSource + Threads + Wait + Log + Copy + Send + Sync + 'static,
>(machine: R, rt: &HostRuntime, matches: &ArgMatches<'_>) -> anyhow::Result<ExitCode>
    ensures { IfOk result (λ status. exit_status status ≡ 0) }
{
    match matches.subcommand() {
        Some(("check", words)) => load::check(rt, words::config(words))?,
        Some((_, words)) => orders::ask(&machine, rt, words::config(words), words::order(words))?,
        None => server::serve(machine, rt, words::config(matches))?,
    }
    Ok(ExitCode::SUCCESS)
}

/// Prints the help or the version, or which word is a mistake.
fn explained(rt: &HostRuntime, error: &clap::Error) -> anyhow::Result<ExitCode>
    ensures { IfOk result (λ status. kind_of error.now ≢ DisplayHelp → kind_of error.now ≢ DisplayVersion → exit_status status ≡ 2) }
{
    error.print(rt)?;
    if error.use_stderr() {
        return Ok(ExitCode::from(2));
    }
    Ok(ExitCode::SUCCESS)
}

/// Reads the words and does what they ask for.
fn answered<
    R: Net + Files + Clock + RandomSource + Threads + Wait + Log + Copy + Send + Sync + 'static,
>(machine: R, rt: &HostRuntime) -> anyhow::Result<ExitCode> {
    let words: Vec<String> = env::args(rt)?.collect(rt.alloc())?;
    let command = words::command(rt.alloc())?;
    match command.try_get_matches_from(words.as_slice()) {
        Ok(matches) => performed(machine, rt, &matches),
        Err(error) => explained(rt, &error),
    }
}

/// Says a fault in a line.
fn failed(rt: &impl Eprint, fault: &anyhow::Error) -> ExitCode
    ensures { exit_status result ≡ 1 }
{
    let _ = eprintln!(rt; "zoned: {fault:#}");
    ExitCode::FAILURE
}

fn main(rt: HostRuntime) -> ExitCode {
    match answered(rt, &rt) {
        Ok(status) => status,
        Err(fault) => failed(&rt, &fault),
    }
}
