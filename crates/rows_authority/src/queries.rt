//! Rows of connections that pass on queries alone.

use dns_io::{Link, LinkRead};
use dns_memory::SteadyLink;
use dns_query_link::QueryLink;
use dns_query_sock::QueryCounts;
use rows_table::{Calls, Row, RowError};
use std::sync::Arc;

/// For how many octets a read has room at most.
const MOST: usize = 512;

/// What a link gives that passes on queries alone.
pub(crate) struct Queries;

impl Calls for Queries {
    fn answer(&self, call: &str, row: &mut Row<'_>) -> Result<(), RowError> {
        match call {
            "query_link" => query_link(row),
            _ => Err(RowError::NoSuchCall),
        }
    }
}

/// How many responses are dropped of the octets that come, how many reads give none, and the octets that they give: for how many
/// octets each read has room, and the octets that come, are the next words.
fn query_link(row: &mut Row<'_>) -> Result<(), RowError> {
    let room = row.number();
    let counts = Arc::new(row.alloc(), QueryCounts::new())?;
    let inner = SteadyLink::new(row.vector(), Vec::new(row.alloc()));
    let mut link = QueryLink::new(row.alloc(), inner, Some(Arc::try_clone(&counts)?));
    let mut given = Vec::new(row.alloc());
    let vain = read_whole(&mut link, room, &mut given)?;
    row.show(&counts.dropped());
    row.show(&vain);
    row.hexadecimal(&given);
    Ok(())
}

/// Appends what a link gives to its end. How many reads gave none is given.
fn read_whole<L: Link>(link: &mut L, room: usize, given: &mut Vec<u8>) -> Result<u64, RowError> {
    let mut buf = [0; MOST];
    let room = room.max(1).min(MOST);
    let mut vain: u64 = 0;
    for _ in 0..u64::MAX {
        match link.read(&mut buf[..room]) {
            LinkRead::Got(count) => given.extend_from_slice(&buf[..count])?,
            LinkRead::Again => vain = vain.saturating_add(1),
            LinkRead::End | LinkRead::Failed => break,
        }
    }
    Ok(vain)
}
