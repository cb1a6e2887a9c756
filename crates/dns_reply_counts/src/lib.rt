//! How many replies a service gives, by transport and response code.
//!
//! - `CountingSvc` is a layer round a service. It changes nothing and counts each reply that it passes on.
//! - `ReplyCounts` are the counts, which threads share. `number` reads one.
//!
//! ```text
//! reply of the service inside -> counted -> the same reply
//! ```
//!
//! One `Arc` of the counts is given to the layer, and another to whoever reads them: a control channel, a log, or a page of
//! metrics.
//!
//! An error item of a service has no reply and isn't counted. So the layer stands round `wrap` of dns_middleware, or round a layer
//! that stands round it.
//!
//! # What is proved
//!
//! - Answers, sizes and hint are those of the service inside, poll for poll.
//!
//! # What a body could still get away with
//!
//! No clause can say what a count is that threads share. What is counted is a test's matter.
#![tactic(auto)]

mod counting;
mod counts;

pub use counting::{CountingFuture, CountingStream, CountingSvc};
pub use counts::ReplyCounts;
