//! Judges the rows of a forwarding proxy on standard input: `crates/rows_table` says how a row is written.
#![tactic(auto)]

mod forged;
mod proxies;
mod row_proxies;

use forged::Forged;
use proxies::Proxies;
use std::io;
use std::process::ExitCode;

fn main(rt: HostRuntime) -> io::Result<ExitCode> {
    rows_table::run(&rt, &(Proxies, Forged))
}
