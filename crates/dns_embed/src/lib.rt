//! The parts of a server by values, for callers that are not written in Rattle.
//!
//! - `decide_message` says what is to be done about the octets of a message before any service is asked: nothing, a
//!   reply that is sent, or a question to the caller's service. `decide_datagram` does it as a server over datagrams.
//! - `rewrite_message` makes the octets of a service's reply the reply that is sent, by the `ReplyRule` of its request.
//!   `refuse_message` is what is sent if the service fails.
//! - `Connection` takes the octets of a stream and gives its queries. It queues replies, keeps transactions, says when it
//!   was idle for too long, and is closed once what waits was written.
//! - `MessageReader` reads a message item by item, names uncompressed.
//! - `read_settings` reads settings from a text.
//!
//! It does no input and output, and knows no clock. The crate `nutscythe_c` gives it to callers from C.
//!
//! ```text
//! octets -> decide_message -> Nothing
//!                          -> Reply: it is sent
//!                          -> Ask(rule): the caller's service -> its octets -> rewrite_message -> a reply is sent
//! ```
//!
//! # What is proved
//!
//! - What is decided is what the layers of dns_middleware answer, whatever service stands inside.
//! - To ask a service as was decided and to send its reply rewritten is to answer as the layers do. They stand round a service that
//!   gives this reply (`asked_and_rewritten_is_answered`).
//! - A message is ignored exactly if it is shorter than a header or, over a stream or by `decide_message`, a response.
//! - A connection gives each frame once and in order, and keeps the octets of no whole frame. It queues a reply exactly if
//!   there is room in queue and budget.
//! - What a service gives to a connection turns it as the rules for one client do (`what_is_given_is_a_turn`). What leaves a
//!   connection over its whole life is what these rules give (`what_is_sent_is_as_ruled`).
//! - A reader gives each item once and in order, or the one that can't be read.
//!
//! # What a body could still get away with
//!
//! Running out of memory at any call that says so, and how long a call takes.
#![tactic(auto)]

mod action;
mod buffer;
mod connection;
mod datagram;
mod laws;
mod reader;
mod rewriting;
mod rule;
mod settings_text;
mod transactions;
mod verdict;

pub use action::{Action, Arrival, decide_message};
pub use buffer::put;
pub use connection::{Connection, Next, Written};
pub use datagram::decide_datagram;
pub use laws::{
    asked_and_rewritten_is_answered, what_is_given_is_a_turn, what_is_sent_is_as_ruled,
};
pub use reader::{ItemSection, MessageReader, ReadItem};
pub use rewriting::{refuse_message, rewrite_message};
pub use rule::ReplyRule;
pub use settings_text::read_settings;
pub use transactions::Heard;
pub use verdict::KnownVerdict;
