//! One question to one upstream, and a service that forwards requests. The crate does no input and output.
//!
//! - `Asking` is a question that is asked of one upstream. Its owner sends `octets`, calls `tick` when `deadline` has
//!   come, and gives it what arrives (`arrived`). `has_ended` says whether it is over.
//! - `AskingEvent`, `AskingOutcome` and `Ticked` are these calls as values. `ask_all` gives an asking a list of
//!   events, and `led_to` says what came of them.
//! - `Forwarding` forwards each request to the service whose name ends the question's, and `Forwarder` to transports
//!   in boxes.
//!
//! ```text
//! Asking::new -> send octets -> arrived(..) -> the answer
//!                            -> tick: send again | give up
//! ```
//!
//! Times are moments in one unit, which the owner picks.
//!
//! # What is proved
//!
//! - Octets that arrive are taken exactly if their identifier, opcode and question match, and the asking hasn't
//!   ended. The answer is given under the asked message's identifier.
//! - A due tick sends again, at most as often as there are tries (1 to 8), and then gives up.
//! - `deadline` is the first moment at which a tick is due.
//! - In the layers each reply of a forwarder responds to its request: its identifier, and QR
//!   (`forwarded_replies_respond`).
//! - Services of one type that relay answers forward as their upstreams would (`relaying_services_forward`).
//!
//! # What a body could still get away with
//!
//! Where octets are sent, which is up to the owner. That identifiers are hard to guess: the owner picks them.
#![tactic(auto)]

mod all_events;
mod asking;
mod asking_event;
mod box_transport;
mod forwarder;
mod laws;
mod matching;

pub use all_events::{ask_all, led_to};
pub use asking::Asking;
pub use asking_event::{AskingEvent, AskingOutcome, Ticked};
pub use box_transport::BoxClientTransport;
pub use dns_route::{SendError, SendRequest};
pub use forwarder::{Forwarder, Forwarding};
pub use laws::{forwarded_replies_respond, relaying_services_forward};
