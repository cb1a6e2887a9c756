//! Slots, configurations and the shutdown of a server, as a machine of one thread. dns_book exports it and makes one
//! for several threads.
//!
//! - `BookState` is a book for one thread: how many slots are taken, both configurations with their version, and
//!   whether the book is closed.
//! - `admit` takes a slot, `release` gives one back, `reconfigure` replaces both configurations, and `shutdown`
//!   closes the book for good. `look` shows the book and changes nothing.
//! - `Call` is such a call as a value, and `Reply` its reply. `Admission` is the answer to a client that wants a
//!   slot.
//! - `Look` (dns_events) is what a look shows. To contracts a `BookState` is that value.
//!
//! ```text
//! BookState --admit, release, reconfigure, shutdown, look--> Reply, and the next BookState
//! ```
//!
//! # What is proved
//!
//! - Each call gives the reply of the machine (`reply_of`) and leaves its next state (`state_after`). So does `call`,
//!   for a call that is given as a value.
//! - `admit` gives a slot, or says why not (`Admits`). `reconfigure` is refused exactly if an open book has reached
//!   version 2^64 - 1, and changes nothing of a closed one (`Reconfigures`).
//! - `new` opens a book at version 0, and `resume` at a given version, both with no slot taken.
//!
//! # What a body could still get away with
//!
//! Only time: no call takes memory, and each is pinned by its reply and its state.
#![tactic(auto)]

mod admission;
mod call;
mod state;

pub use admission::Admission;
pub use call::{Call, Reply};
pub use dns_events::Look;
pub use state::BookState;
