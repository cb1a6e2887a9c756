//! What becomes of questions for transfers and of NOTIFYs, as it is noted for a log.
//!
//! - `NotingSvc` is a layer round a service. It changes nothing. Of each request over a stream that asks for a transfer it
//!   notes whether that begins and that it is refused. Of a transfer it notes its end, and whether it was broken off.
//! - Of a NOTIFY it notes that it is refused. Of a query for the SOA record it notes that it is NOTAUTH, since its signature
//!   isn't taken.
//! - `TransferNotes` are the notes, which threads share. `next` takes one out. `begun` and `refused` count them.
//! - `TransferNote` is a note: the zone, the client and what happened.
//!
//! ```text
//! request for a transfer -> the first reply: Begun, or Refused with its code -> the last reply: Ended
//!                                                                            -> the connection ends before: BrokenOff
//! ```
//!
//! It stands round `wrap` of dns_middleware, or round a layer that stands round it. A datagram is never transferred, so no
//! note is made of its question for a transfer. The sender of a datagram hasn't shown its address. So the note of a NOTIFY or
//! of a query for the SOA record is made only if no other waits.
//!
//! # What is proved
//!
//! - Answers, sizes and hint are those of the service inside, poll for poll.
//!
//! # What a body could still get away with
//!
//! No clause can say what a queue holds that threads share. What is noted is a test's matter. If the queue is full a
//! note is lost, and is counted all the same. Without memory for its zone a note is lost and not counted; and a request
//! for a transfer fails that finds no memory as it comes.
#![tactic(auto)]

mod notes;
mod noting;

pub use notes::{TransferNews, TransferNote, TransferNotes};
pub use noting::{NotingFuture, NotingStream, NotingSvc};
