//! Rows of options, cookies and OPT records, on standard input. `crates/rows_table` says how a row is written.
//!
//! - kinds, lists, options: each kind of option, and lists of them, read, compared and written.
//! - cookies: the vectors of RFC 9018 and of SipHash's authors.
//! - records, messages, query, steps: OPT records, built and changed step by step.
//!
//! The program prints each row that doesn't hold, and how many there were.
#![tactic(auto)]

mod cookies;
mod kinds;
mod lists;
mod messages;
mod options;
mod query;
mod records;
mod said;
mod steps;

use cookies::{CookieParts, Cookies};
use kinds::{Kinds, SubnetsAndTimes};
use lists::Lists;
use options::Options;
use records::Records;
use std::io;
use std::process::ExitCode;

fn main(rt: HostRuntime) -> io::Result<ExitCode> {
    rows_table::run(
        &rt,
        &(
            (Lists, (Kinds, SubnetsAndTimes)),
            ((Cookies, CookieParts), (Options, Records)),
        ),
    )
}
