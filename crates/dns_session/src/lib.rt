//! What a server keeps of one client, and what each event does to it. It exports framing, queue, budget and timer
//! (dns_framing).
//!
//! The definitions are the model of the whole server. A `Slate` is all that is known of one client, and `rule` is a
//! table: what each event does to it, and what is sent. The code is a `ClientCore`, which is proved to follow that
//! table.
//!
//! - `ClientCore::datagram` begins an exchange and `ClientCore::admit` a connection, by what a look at the book
//!   shows.
//! - `ClientCore::step` hears an event: a piece, a turn, a write, a tick, an end ..
//! - `ClientCore::piece` and `write` hear octets and a write without an event, and answer without a list.
//! - `ClientCore::saw` hears what a look shows: new configurations, a shutdown.
//! - `front_frame`, `first_unfinished`, `next_unfinished`, `idle_left`, `is_closed` say what a loop has to do next.
//! - `begin_exchange` and `KeptRequest::turn` do for an exchange what a core does, without one. `begin_exchange_in` uses
//!   the memory of a message again that `KeptRequest::into_message` gave.
//!
//! ```text
//! Event -> ClientCore::step -> outputs, and a core that stands for the next slate
//! ```
//!
//! # What is proved
//!
//! - At each slate that a core stands for, the outputs of an event are those of `rule`. The core then stands for the
//!   slate after it (`GoesAs`). This holds for any service, by its answers and its hint.
//! - A stream may be cut into pieces anywhere (`pieces_may_be_cut`, `frames_go_on`).
//! - A spent client is sent nothing, by any event (`spent_clients_are_sent_nothing`).
//! - A turn polls exactly the request that it names, once, unless its reply is held.
//! - If memory runs out, the core is closed and empty, and every later call gives nothing.
//!
//! # What a body could still get away with
//!
//! How long an event takes. By reading the code the work for a piece doesn't grow with what came before, and a closed
//! connection keeps no octets, requests or queue.
#![tactic(auto)]

mod client;
mod connection;
mod connection_request;
mod exchange;
mod flushing;
mod kept;
mod laws;
mod outcome;
mod polling;
mod requests;
mod sent;
mod spares;
mod states;
mod unfinished;

pub use client::ClientCore;
pub use dns_framing::{ConnectionInvoker, Framer, IdleTimer, PolledRequest};
pub use exchange::{BegunExchange, begin_exchange, begin_exchange_in};
pub use kept::{KeptRequest, answered, refused};
pub use laws::{frames_go_on, pieces_may_be_cut, spent_clients_are_sent_nothing};
pub use requests::{cut_given, datagram_of, datagram_request};
pub use sent::Sent;
