//! What the loop of a connection keeps from one turn to the next.

use dns_admission::Look;
use dns_recorder::Waits;

/// What was seen, and the request that was polled last in this round. The moment of the last event of the loop's own, and how
/// many waits ended in vain since something came or was written.
#[derive(Drop)]
pub(crate) struct TurnState {
    pub(crate) last: Look,
    pub(crate) turn: Option<u64>,
    pub(crate) at: u64,
    pub(crate) waits: Waits,
}
