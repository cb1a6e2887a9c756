//! What of hosts with several workers can't be a row: hosts over objects in memory, with threads and receives that fail, and one over
//! sockets of this machine. These are tests.
//!
//! As a program it serves by as many workers as its first word says, which are idle for as many milliseconds as the second says.
//! Then it replaces the settings, waits as long, and shuts the server down. It prints after how many milliseconds the last of the
//! workers heard of the one and of the other. Without words it does nothing. `bench/workers` runs it.
#![tactic(auto)]

mod heard;
#[cfg(test)]
mod loopback;
mod machine;
mod notes;
mod serving;
#[cfg(test)]
mod workers;

use std::process::ExitCode;
use std::{env, io};

/// How many workers the first word says, and how many milliseconds the second; none without these words.
fn plan_of(mut args: env::Args) -> Option<(usize, u64)> {
    args.next()?;
    let count = args.next()?.as_str().parse().ok()?;
    let idle = args.next()?.as_str().parse().ok()?;
    Some((count, idle))
}

fn main(rt: HostRuntime) -> io::Result<ExitCode> {
    let Some((count, idle)) = plan_of(env::args(&rt)?) else {
        return Ok(ExitCode::SUCCESS);
    };
    match heard::of_idle(rt, rt.alloc(), count, idle) {
        Some(times) => {
            println!(rt; "{} {}", times.settings, times.shutdown)?;
            Ok(ExitCode::SUCCESS)
        }
        None => Ok(ExitCode::FAILURE),
    }
}
