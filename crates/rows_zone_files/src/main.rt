//! Rows of zone files, on standard input. `crates/rows_table` says how a row is written.
//!
//! - `read_zone` reads a zone file below an origin; `write_zone` writes the records that were read.
//! - `read_zone_pieces` reads a zone file that comes in two pieces.
//! - `read_zone_including` reads a zone file and those that it includes.
//! - `write_message` writes a message as dig does.
//! - In a row's text, which is all words after the origin, `|` stands for LF.
//!
//! The program prints each row that doesn't hold, and how many there were.
#![tactic(auto)]

mod includes;
mod messages;
mod said;
mod zones;

use std::io;
use std::process::ExitCode;

fn main(rt: HostRuntime) -> io::Result<ExitCode> {
    rows_table::run(
        &rt,
        &(zones::Zones, (includes::Includes, messages::Messages)),
    )
}
