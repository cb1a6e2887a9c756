//! Tests of accepts and of servers: what can't be a row. The crate has tests alone.
//!
//! - `accepts`: the loop of accepts over objects in memory. `AcceptCase` is what it is given and what is wanted, and
//!   `Accepting` is such a case with a service.
//! - `watched`: `WatchedAccept`, an accept object that keeps which calls were made of it, each as a letter.
//! - `servers`: `DgramServer` and `StreamServer` over memory, with their metrics, their controls and a hook. `Mailing` runs
//!   one of datagrams, and `Answering` one of connections.
//! - `parts`: buffers, commands, metrics, and links that count for them.
//! - `loopback`: both servers over sockets of the machine, on loopback.
//!
//! ```text
//! a case -> a server in memory, run beside its Control -> shut down once all is answered
//! -> how it ended, what its metrics count, what each link shows (`Seen` of rows_links)
//! ```
//!
//! # What its tests show
//!
//! - The hook is called once on each admitted link. Of three connections and two slots two are answered, the third is closed
//!   at once, and after the run no slot is taken.
//! - Each wait of the loop of accepts follows an accept that answered Again, and a shutdown ends the loop.
//! - A server answers a datagram or a connection, counts both, and ends when it is shut down. One that is closed before
//!   serves nothing, and its control shows that.
//! - Over the machine's sockets both servers can be made, run and ended.
//! - Buffers are zeros, commands are copied with what they carry, and each number of the metrics stands alone.
//!
//! # What they don't show
//!
//! Servers on loopback are shut down before they run, so they serve no client there; rows_io and tools/interop have sockets
//! that are answered. A test runs one order of its threads. How fast a server is, or how it does with many clients, is shown
//! by `bench/` alone.
//!
//! docs/rows.md says what each test shows of a running server, and docs/calls.md has the cases by name.
#![tactic(auto)]

#[cfg(test)]
mod accepts;
#[cfg(test)]
mod loopback;
#[cfg(test)]
mod parts;
#[cfg(test)]
mod servers;
#[cfg(test)]
mod watched;
