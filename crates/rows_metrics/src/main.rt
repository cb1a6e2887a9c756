//! Rows of metrics and their text, on standard input. `crates/rows_table` says how a row is written.
//!
//! - names: which names metrics and labels may have.
//! - pages: the text of metrics, and which page a request asks for.
//!
//! The program prints each row that doesn't hold, and how many there were.
#![tactic(auto)]

mod pages;

use pages::Pages;
use std::io;
use std::process::ExitCode;

fn main(rt: HostRuntime) -> io::Result<ExitCode> {
    rows_table::run(&rt, &Pages)
}
