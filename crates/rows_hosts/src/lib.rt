//! Tests of whole hosts and of recorders: what can't be a row. The crate has tests alone.
//!
//! - `hosts`: a host that accepts connections and serves datagrams beside each other. `HostCase` is what it is given and
//!   what is wanted of it, and `Given` is what it has besides its links.
//! - `with_workers`: each of these cases once more, by a host with one worker.
//! - `recorded`: a connection whose trace is kept. `Outside` is what it is served over.
//!
//! All objects are in memory, each with a witness over it, and the service stands in all layers of dns_middleware. Links and
//! the service come from rows_links.
//!
//! ```text
//! HostCase -> accept object, socket, clock, recorder, spawner: each a witness over memory
//! -> serve_host_over -> a Status, what was sent, what each link shows, how many slots are taken
//! ```
//!
//! # What its tests show
//!
//! - A connection and a datagram are answered beside each other, with NOERROR and with NXDOMAIN.
//! - A poll of one client's request that waits for another client's lets that other one go on.
//! - A start that is refused gives its slot back, and its link is closed. The others are served, and the host ends by a
//!   fault.
//! - A failed accept is passed over and a failed send leaves all else served; both end the host by a fault. A failed receive
//!   ends accepting too.
//! - After each run no slot is taken.
//! - A connection over memory is recorded: its trace has all settings and all events. A row of rows_server serves the trace
//!   again.
//!
//! # What they don't show
//!
//! Calls fail at the places that a case lists. No socket of the machine is served here: rows_io and rows_transport have
//! those. One worker alone is tried; several of them are tried by rows_workers. That the law of a connection holds of each
//! run is proved in dns_account and not tested.
//!
//! docs/rows.md says what each test shows of a running server, and docs/calls.md has the cases by name.
#![tactic(auto)]

#[cfg(test)]
mod hosts;
#[cfg(test)]
mod recorded;
#[cfg(test)]
mod with_workers;
