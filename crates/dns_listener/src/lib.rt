//! What serves zones at an address: the sockets, the service in its layers, and the threads.
//!
//! - `Listener` has the sockets of an address: one for connections, and one for datagrams for each worker. `bind_all` opens
//!   those of a configuration, and `say_listeners` writes their addresses.
//! - `Offer` is what is served: the zones, by settings, with the target of NOTIFY and the identifier of the server. `KeyRules`
//!   are its keys and what wants one.
//! - `Running` is a listener that serves an offer in a thread. `start` gives the listener back if it can't be started.
//!   `has_ended` says whether one has ended by itself, and `close_all` shuts them down. `take_back` gives the listeners back,
//!   whose sockets stay open for what is served next.
//! - `Counters` are what is counted at all listeners: `numbers` gives the counts of a moment, and `report` says them in lines.
//!   `log_transfers` logs what was noted of transfers, and `log_limits` the networks whose replies are limited. `limiting` is what
//!   limits them, which is off at first.
//!
//! ```text
//! bind_all -> Running::start for each -> close_all -> take_back -> Running::start ..
//! ```
//!
//! The layers stand so, from outside: counts; notes of transfers; at most 512 octets over UDP without EDNS; TSIG (RFC 8945); the
//! keys that transfers and NOTIFYs want; the server's own OPT record; its identifier; server cookies; the four layers of
//! dns_middleware; zones without data, twice; the authority. Those outside of TSIG leave replies as they are, so that a TSIG
//! ends each reply. Over UDP replies are limited behind all of them, at the sockets.
//!
//! # What is proved
//!
//! - Each function is safe, and returns except for those that wait. What each layer makes of replies is proved in its crate.
//! - How many octets the server takes over UDP is what the settings say, and else 1,232.
//! - A listener that can't be started is given back with its address and as many workers (`StartsAt`). So is each that serves, in
//!   their order (`take_back`).
//! - `close_all` shuts each down. `has_ended` says whether the book of one was closed (`met_closed`).
//! - What is said of counts are the numbers of a moment, each after its name (`Reports`).
//!
//! # What a body could still get away with
//!
//! That the layers stand in this order is code (`layers.rt`), and no clause. No clause says what sockets and threads give.
#![tactic(auto)]

mod closing;
mod counts;
mod layers;
mod listener;
mod offer;
mod place;
mod running;

pub use closing::{close_all, has_ended, take_back};
pub use counts::{Counters, Numbers, ReplyNumbers};
pub use layers::{KeyRules, Tally};
pub use listener::{Listener, bind_all, say_listeners};
pub use offer::{Offer, ZoneService};
pub use running::{Running, Started};
