//! Rows of names, messages and builders, on standard input. `crates/rows_table` says how a row is written.
//!
//! - names, places, codes: names, what stands at a place of a message, and numbers of IANA's registries.
//! - messages, data, copies: messages that are read, typed data, and copies of what was read.
//! - builders, stages: messages that are built step by step.
//!
//! The program prints each row that doesn't hold, and how many there were.
#![tactic(auto)]

mod builders;
mod codes;
mod copies;
mod data;
mod messages;
mod names;
mod places;
mod stages;

use std::io;
use std::process::ExitCode;

fn main(rt: HostRuntime) -> io::Result<ExitCode> {
    rows_table::run(
        &rt,
        &(
            (codes::Codes, names::Names),
            (
                (places::PlacedNames, messages::Messages),
                (builders::Builders, copies::Copies),
            ),
        ),
    )
}
