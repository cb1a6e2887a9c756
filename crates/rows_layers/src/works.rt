//! Rows of work that is done many times over, which `bench/calls` times beside the same work in C.

mod build;
mod hash;
mod read;
mod response;

use build::built;
use hash::{checks, hash_chain};
use read::readings;
use rows_table::{Row, RowError};

/// Does the work of the next word as often as the word after it says: a hash of 20 or of 64 octets, a check of a server cookie's
/// hash, or the reading of a response into borrowed views. Or it is the building of that response. What is left of it is a number
/// that depends on each of its results. Nothing is left if memory is short or no work has this name.
pub(crate) fn worked(row: &mut Row<'_>) {
    let work = row.word();
    let count = row.number::<u64>();
    let done = match work {
        "sip20" => Some(hash_chain(20, count)),
        "sip64" => Some(hash_chain(64, count)),
        "check" => Some(checks(count)),
        "read" => Some(readings(count)),
        "build" => built(row.alloc(), count),
        _ => None,
    };
    match done {
        Some(sum) => row.hexadecimal(&sum.to_be_bytes()),
        None => row.fail(RowError::OutOfForm),
    }
}
