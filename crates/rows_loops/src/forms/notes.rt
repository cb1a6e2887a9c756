//! Events by their letters, and calls by their numbers.

use dns_memory::ListedCalls;
use dns_name::OutOfMemory;
use dns_service::{Event, EventKind};
use std::alloc::Global;

/// What a write may take, in ms.
const LATE: u64 = 30_000;

/// The letter of an event. A write that took longer than it may has one of its own.
fn letter(kind: &EventKind) -> u8 {
    match kind {
        EventKind::Datagram { .. } => b'D',
        EventKind::Offer { .. } => b'O',
        EventKind::Piece(_) => b'P',
        EventKind::Turn { .. } => b'T',
        EventKind::Write { took } if *took > LATE => b'L',
        EventKind::Write { .. } => b'W',
        EventKind::Tick => b'I',
        EventKind::End => b'E',
        EventKind::Fault => b'F',
        EventKind::Reconfigure { .. } => b'R',
        EventKind::Shutdown => b'S',
        _ => b'-',
    }
}

/// Whether the events are of these letters.
pub(crate) fn are(events: &[Event], letters: &[u8]) -> bool {
    if events.len() != letters.len() {
        return false;
    }
    for (event, wanted) in events.iter().zip(letters.iter()) {
        if letter(&event.kind) != *wanted {
            return false;
        }
    }
    true
}

/// Whether the events are these, by their letters, clients and moments.
pub(crate) fn agree(events: &[Event], wanted: &[(u8, u64, u64)]) -> bool {
    if events.len() != wanted.len() {
        return false;
    }
    for (event, (kind, client, at)) in events.iter().zip(wanted.iter()) {
        if letter(&event.kind) != *kind || event.client != *client || event.at != *at {
            return false;
        }
    }
    true
}

/// Calls of which these fail and those answer Again.
pub fn calls(alloc: Global, failing: &[u64], again: &[u64]) -> Result<ListedCalls, OutOfMemory> {
    Ok(ListedCalls::new(
        Vec::from_slice(alloc, failing)?,
        Vec::from_slice(alloc, again)?,
    ))
}
