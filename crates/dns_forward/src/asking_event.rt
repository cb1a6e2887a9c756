//! What happens to a question that was sent, and what comes of it.

use dns_base::Message;
use dns_name::Octets;

/// What happens to an asking, at a moment in the unit of its timeout.
#[derive(Debug, Drop)]
pub enum AskingEvent {
    /// Octets arrived from the upstream.
    Arrived { at: u64, octets: Octets },
    /// The time is looked at.
    Tick { at: u64 },
}

/// What a tick leads to.
#[derive(Clone, Copy, Debug, PartialEq, Eq)]
pub enum Ticked {
    /// There is nothing to do.
    Nothing,
    /// The message is to be sent again.
    Send,
    /// No answer came to the last send, and none is waited for any longer.
    GaveUp,
}

/// What comes of an event.
#[derive(Debug, Drop)]
pub enum AskingOutcome {
    /// Of octets that arrived: the answer, if they are it.
    OfArrival(Option<Message>),
    /// Of a tick.
    OfTick(Ticked),
}
