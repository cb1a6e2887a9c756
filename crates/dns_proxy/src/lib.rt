//! The core of a forwarding proxy: messages of clients, each answered by the layers or by an upstream. It does no
//! input and output.
//!
//! - `Proxy` keeps queries at places, of which there are a stated number at most. Each place has a port of its own.
//! - `begin` starts with a client's message (`ClientMessage`), and `Started` says what comes of it. `take` and `ask` are
//!   its two halves: what is answered at once is known before an upstream is picked (`TakenMessage`, `PassedQuery`).
//! - `step` gives the query at a place an event, with a `QueryOutcome`. `deadline` says when a tick at a place is due.
//! - A message comes in a datagram or over a connection (`ClientTransport`). Those of one connection are begun as they
//!   come, and each is answered as soon as its own answer is there (RFC 7766, section 6.2.1.1).
//! - `WhenFull` says what is done with one query more than there may be: its client is answered, or it is to wait.
//! - `Query` is one client's query, until its client is sent something for it. `begin_query` begins one.
//! - `Front` is what stands before the upstreams, given by the caller. `Taken` says how a front takes a request.
//!
//! ```text
//! message -> Front -> a reply at once
//!                  -> passed on: Query at a free place -> lookup events -> a reply to the client
//! ```
//!
//! Lookups are those of dns_lookup.
//!
//! # What is proved
//!
//! - An event of one place is nothing to the queries at others.
//! - What a step sends a client is what the front's rule makes of the outcome of that query's own lookup. It is what an
//!   exchange of that message alone sends, over a service that gives this outcome.
//! - Over a connection a reply has no limit, and it stands after its length.
//! - A message that finds no place, and a query that finds no memory, leave all others as they are.
//! - There are never more places than there may be queries (`bounded`).
//!
//! # What a body could still get away with
//!
//! Which free place a query gets. How hard identifiers and ports are to guess: the owner picks them. In what order what
//! waits is begun: the owner keeps it.
#![tactic(auto)]

mod beginning;
mod coming;
mod front;
mod proxy;
mod query;
mod query_event;
mod replied;

pub use beginning::{BegunQuery, PassedQuery, TakenMessage, begin_query};
pub use dns_lookup::{LookupEvent, UpstreamConfig};
pub use front::{Front, Taken};
pub use proxy::{Proxy, Started, WhenFull};
pub use query::Query;
pub use query_event::{ClientMessage, ClientTransport, QueryOutcome};
