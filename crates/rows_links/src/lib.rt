//! What tests of hosts and servers serve over: links that a test can still read, a service that waits, and small makers.
//!
//! - `SeenLink` is a link that gives one query, answers Again until a frame was written, and then gives the end.
//! - `Seen` is what a test sees of such a link after it was handed over: what was written, how often it was handed to a
//!   hook, and how often it was closed.
//! - `Marking` is a hook that marks each link that it is handed.
//! - `Holding` is a service that answers each request with its response code. A poll of the request with id 1 waits until
//!   the one with id 2 is polled; `HoldingFuture` is its future.
//! - `book_of`, `accept_of`, `links_of`, `packet`, `clock`, `calls` make books, accept objects, links, datagrams, clocks and
//!   lists of calls, all in memory. `PEER` is where each connection and datagram comes from.
//! - `show` compares what is seen of some links with what is wanted, and `let_go` lets what was served go.
//!
//! ```text
//! accept_of: a link for each query -> a server or a host -> SeenLink: read, written, closed
//!         |                                                    |
//!         seen: the Seen of each link   <---- counts ----------+        then: show(seen, wanted)
//! ```
//!
//! rows_hosts and rows_transport stand on it.
//!
//! # What it shows
//!
//! - `Seen` can be read after the server that had the link is gone.
//! - With `Holding` a test shows that two clients are polled in turn: the first reply comes only if the second request is
//!   polled meanwhile.
//!
//! # What it doesn't show
//!
//! The crate has no tests of its own: its types are tried by the tests above it. A `SeenLink` takes each write whole, if
//! there is memory, and no call of it fails. A held poll makes a bounded number of turns, and then says that memory ran out,
//! so no test hangs.
#![tactic(auto)]

mod holding;
mod links;
mod places;

pub use holding::{Holding, HoldingFuture};
pub use links::{Marking, Seen, SeenLink, links_of, show};
pub use places::{PEER, accept_of, book_of, calls, clock, let_go, packet};
