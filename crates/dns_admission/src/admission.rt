//! What a book answers to who wants a slot.

use dns_events::Look;

/// The answer to who wants a slot.
#[derive(Clone, Copy, Debug, PartialEq, Eq)]
pub enum Admission {
    /// A slot was taken. This is the book with it.
    Admitted(Look),
    /// Every slot is taken. `accepted` says whether the connection is to be accepted all the same, and then closed.
    Full {
        taken: u64,
        limit: u64,
        accepted: bool,
    },
    /// The server was shut down.
    Closed,
}
