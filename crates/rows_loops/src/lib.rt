//! Tests of the two loops, that of a connection and that of datagrams: what can't be a row. The crate has tests alone.
//!
//! - `connections` and `datagrams` are the cases: `serve_connection` over links in memory, `serve_datagrams` over sockets.
//! - `forms::Case` is what is served and what is wanted of it; `LinkCase` is a connection, and `SockCase` some datagrams.
//! - `Desk` is what a case is served by, a service and a book with a seat. `Outside` is what it is served over.
//! - `Watched` is a link or a socket that keeps which calls were made of it, each as a letter.
//! - `Halting` is a link at whose wait the book is shut down, and `Standing` a clock whose latest reading stands.
//! - `Forgetful` is a recorder that finds memory for some notes alone.
//! - `Refusal` and `Counting` are services: an error reply to each request, and one that counts its calls and polls.
//!
//! ```text
//! Trial: a Case and its service -> Desk -> the loop over Watched, a clock and Forgetful
//! -> how it ended, the events noted, the calls made, the octets sent: each as the case wants it
//! ```
//!
//! # What its tests show
//!
//! - A query is answered, also over a link that moves one octet a call.
//! - A read, a write or a receive that fails ends the serving. After a send that fails the next answer is sent.
//! - An event is noted before the core takes it. Without memory for the note the service is neither called nor polled, and
//!   nothing is written.
//! - Each wait follows a call that answered Again, and each such call is followed by one.
//! - A write or a send without room is given up once its time has passed; a send is made if room comes before.
//! - Two clients are polled between two receives, so neither waits for the other.
//! - A shutdown before the first look ends both loops with nothing read or received. After one at a wait, frames that are
//!   queued are still written.
//!
//! # What they don't show
//!
//! All is in memory and in one thread: calls fail and answer Again at the places that a case lists, and at no others. Clocks
//! give listed readings. What holds of every order of calls is said by the contracts of both drivers and not by a test.
//!
//! docs/rows.md says what each test shows of a running server, and docs/calls.md has the cases by name.
#![tactic(auto)]

#[cfg(test)]
mod connections;
#[cfg(test)]
mod datagrams;
#[cfg(test)]
mod forms;
