//! Rows of authorities, of transfers, out and in, and of signed zones, on standard input. `crates/rows_table` says how a row
//! is written.
//!
//! - authorities: which zone answers, and who may have a transfer.
//! - transfers: how a zone is cut into replies, and what comes of messages that come in.
//! - queries: what of a connection's octets is passed on.
//! - signed: how a signed zone denies. `nsec_hash` hashes a name with a salt and that many iterations (RFC 5155, section 5).
//!   `signed` makes a zone of an apex, records and NSECs (an owner, a next name and types, parted by `:`, `+` and commas). It
//!   says the owners of those that deny what is asked for: names and types.
//! - nsec_rows: `secured` is as `signed`, with the NSECs that are among the records. `replied` makes such a zone and says its
//!   replies to queries; each has the octets that there are room for. `types` reads type bit maps (RFC 4034, section 4.1.2).
//! - hashed_rows: `hashed` is as `replied`, of a zone of NSEC3 records.
//! - zones: what rows say of a zone; questions: what is asked of a signed one.
//! - often, often_signed, often_hashed, asking: work that is done many times over, for `bench/`.
//!
//! The program prints each row that doesn't hold, and how many there were.
#![tactic(auto)]

mod asking;
mod authorities;
mod hashed_rows;
mod nsec_rows;
mod often;
mod often_hashed;
mod often_signed;
mod queries;
mod questions;
mod signed;
mod transfers;
mod zones;

use authorities::Authorities;
use often::Often;
use often_signed::OftenSigned;
use queries::Queries;
use signed::Signed;
use std::io;
use std::process::ExitCode;
use transfers::Transfers;

fn main(rt: HostRuntime) -> io::Result<ExitCode> {
    rows_table::run(
        &rt,
        &(
            (Authorities, Queries),
            ((Transfers, Signed), (Often, OftenSigned)),
        ),
    )
}
