//! Rows of keys, signatures and limits, on standard input. `crates/rows_table` says how a row is written.
//!
//! - signatures: codes of HMAC, keys, messages that are signed, verified and refused, and streams of them.
//! - layer: a service whose requests are verified and whose replies are signed.
//! - access: a service whose transfers and NOTIFYs want a key.
//! - limits: accounts, networks, and limits by kind of response.
//! - replies: kinds of reply, replies without their records, and cookies of requests.
//! - often: calls that are made that many times, which bench/tsig times.
//!
//! The program prints each row that doesn't hold, and how many there were.
#![tactic(auto)]

mod access;
mod layer;
mod limits;
mod often;
mod replies;
mod signatures;

use access::Judging;
use layer::Signing;
use limits::Limiting;
use often::Often;
use replies::Replies;
use signatures::Signatures;
use std::io;
use std::process::ExitCode;

fn main(rt: HostRuntime) -> io::Result<ExitCode> {
    rows_table::run(
        &rt,
        &(
            (Signatures, (Signing, Judging)),
            ((Limiting, Replies), Often),
        ),
    )
}
