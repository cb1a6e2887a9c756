//! One message that is looked up at one upstream: in datagrams, and over a connection if the answer is truncated. RFC
//! 1035, section 4.2, and RFC 7766 ask for that. It does no input and output.
//!
//! - `Lookup` is such a lookup. Its owner opens a port for it at random, sends what it is told, and tells it what
//!   comes.
//! - `begin_lookup` begins one under an identifier that its owner picks at random, and gives the octets to be sent
//!   first.
//! - `step` takes a `LookupEvent` at a moment and gives a `LookupOutcome`. `deadline` is the first moment at which a
//!   tick is due.
//! - `UpstreamConfig` is an upstream: its address, 1 to 8 tries, and the timeout.
//!
//! ```text
//! begin_lookup -> send -> datagram that matches -> the answer
//!                                               -> truncated: ask over a connection -> the answer
//!                      -> tick: send again | give up
//! ```
//!
//! # What is proved
//!
//! - A datagram from another address or port changes nothing, whatever is in it (`strangers_change_nothing`).
//! - Octets that don't match lead to nothing: another identifier, question or opcode, or no response
//!   (`forgeries_lead_to_nothing`).
//! - The first datagram of the upstream that matches is the answer, or is asked again over a connection if it is
//!   truncated (`first_match_answers`).
//! - Without memory the lookup has ended.
//!
//! # What a body could still get away with
//!
//! How hard identifiers and ports are to guess: the owner picks them (RFC 5452).
#![tactic(auto)]

mod heard;
mod laws;
mod lookup;
mod lookup_event;

pub use laws::{first_match_answers, forgeries_lead_to_nothing, strangers_change_nothing};
pub use lookup::{Lookup, begin_lookup};
pub use lookup_event::{LookupEvent, LookupOutcome, UpstreamConfig};
