//! Rows over the book, sources and sinks, traces, floods and the program's run, on standard input.
//!
//! - book_rows, client_rows, service_rows: a book, one client's core, and a script's service.
//! - outside_rows, trace_rows, texts: sources and sinks in memory, traces, and texts.
//! - run_rows, serve_rows, flood_rows: how runs end, plans of a server, and floods, with each read and write failed
//!   in turn.
//!
//! `crates/rows_table` says how a row is written. The program prints each row that doesn't hold.
#![tactic(auto)]

mod book_rows;
mod client_rows;
mod flood_rows;
mod outside_rows;
mod run_rows;
mod serve_rows;
mod service_rows;
mod step_lines;
mod texts;
mod trace_rows;

use client_rows::ClientRows;
use flood_rows::FloodRows;
use outside_rows::OutsideRows;
use run_rows::RunRows;
use std::io;
use std::process::ExitCode;

fn main(rt: HostRuntime) -> io::Result<ExitCode> {
    rows_table::run(&rt, &((ClientRows, OutsideRows), (RunRows, FloodRows)))
}
