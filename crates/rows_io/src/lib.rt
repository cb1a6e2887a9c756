//! Tests of books, sockets, links, clocks, threads and forms in memory: what can't be a row. The crate has tests alone.
//!
//! - `book`: a `Book` and its seats, in one thread and in two.
//! - `loopback`: `MioSock`, links and accepts of dns_outside on loopback, over IPv4 and IPv6, with both ends in one process.
//! - `clocks`: the machine's clock, over the one of this machine and over `SetClock`, which a test sets.
//! - `threads`: spawners, over real threads and in memory, with `Sum`, a work that adds to a sum.
//! - `memory`: links, sockets, clocks and accept objects in memory, at the calls that fail or answer Again.
//!
//! Each module has one test. It tries its cases in order, and ends with the name of the first that doesn't hold.
//!
//! # What its tests show
//!
//! - A book at its last version takes no other configuration. It shows budgets as they were set, and gives a slot once.
//! - Two threads at a book get replies that one thread could get in some order of their calls.
//! - A datagram goes from a socket to another, with its sender's address. A connection is accepted, read to its end and
//!   answered. An IPv4 client of a socket at `::` is heard as one of IPv4.
//! - A closed link shows its peer the end, writes no more, and frees its descriptor. A full link waits for room alone.
//! - A step of the time of day moves no moment. A clock that can't be read gives its last reading again, and 0 before any.
//! - All work that is started is done, and a start that is refused gives its work up.
//! - Forms in memory fail at the calls that they are told, and nothing is lost: what a failed call left comes later.
//!
//! # What they don't show
//!
//! Loopback hardly loses, delays or reorders, so no test shows what a network does. A machine without IPv6 passes: the
//! tests at `::` try nothing there. Two threads are tried a bounded number of times, so some orders of their calls may never
//! come. No wait for a socket is longer than 64 times 100 ms.
//!
//! docs/rows.md says what each test shows of a running server, and docs/calls.md has the cases by name.
#![tactic(auto)]

#[cfg(test)]
mod book;
#[cfg(test)]
mod clocks;
#[cfg(test)]
mod loopback;
#[cfg(test)]
mod memory;
#[cfg(test)]
mod threads;
